//! Date-times at other offsets.

ghost use Rattle.std.specs.Prelude.{◌≡◌, ◌+ℤ◌, ◌≤ℤ◌, IfOk, Some};
ghost use Rattle.speedate_base.specs.Timestamp.{first_second, last_second};
ghost use Rattle.speedate_civil.specs.DateTime.{utc_second, date_and_time, date_time_with_offset};
ghost use Rattle.speedate_civil.specs.DateTime.{date_time_in_timezone, ◌gives◌};

use super::DateTime;
use crate::time::clock_shift;
use speedate_base::faults::ParseError;
use speedate_base::util::UnixTime;

impl DateTime {
    /// The same date and clock with another offset, in seconds, or with none: 2020-01-01T12:00:00-01:00
    /// for 2020-01-01T12:00:00Z and `Some(-3600)`.
    ///
    /// # Errors
    ///
    /// `OutOfRangeTz` if the offset is 24 hours or more.
    pub fn with_timezone_offset(&self, tz_offset: Option<i32>) -> Result<Self, ParseError>
        ensures answer { result gives date_time_with_offset tz_offset (date_and_time self.now) }
    {
        let time = self.time.with_timezone_offset(tz_offset)?;
        Ok(DateTime { time, ..*self })
    }

    /// The date-time at the same instant, as a clock at another offset, in seconds, shows it:
    /// 2020-01-02T00:30:00+01:00 for 2020-01-01T23:30:00Z and 3,600.
    ///
    /// # Errors
    ///
    /// In the order in which they are looked for:
    ///
    /// - `OutOfRangeTz` if the offset is 24 hours or more;
    /// - `TzRequired` if the date-time lacks an offset;
    /// - `DateTooSmall` if that clock shows a date before the year 0000;
    /// - `DateTooLarge` if it shows one after the year 9999.
    pub fn in_timezone(&self, tz_offset: i32) -> Result<Self, ParseError>
        ensures answer { result gives date_time_in_timezone tz_offset (date_and_time self.now) }
        ensures offset { IfOk result (λ value. value.time.tz_offset ≡ Some tz_offset) }
        ensures instant { IfOk result (λ value. utc_second (date_and_time value)
            ≡ utc_second (date_and_time self.now)) }
        ensures microsecond { IfOk result (λ value. value.time.microsecond
            ≡ self.now.time.microsecond) }
    {
        let shift = clock_shift(self.time.tz_offset, tz_offset)?;
        let time = UnixTime {
            second: move_second(self.timestamp(), shift),
            microsecond: self.time.microsecond,
        };
        DateTime::from_unix_time(time, Some(tz_offset))
    }
}

/// A second of the years 0000 to 9999, moved by seconds: 90,000 for 86,400 and 3,600.
pub(super) fn move_second(second: i64, shift: i32) -> i64
    requires least { first_second ≤ℤ second }
    requires largest { second ≤ℤ last_second }
    ensures { result ≡ second +ℤ shift }
{
    second + i64::from(shift)
}
