//! Date-times and dates of a clock.

ghost use Rattle.std.specs.Prelude.{◌≡◌, ◌≤◌, Option};
ghost use Rattle.speedate_base.specs.Requirement.{result_map};

use super::DateTime;
use super::timezone::move_second;
use crate::date::Date;
use speedate_base::config::require_offset;
use speedate_base::faults::ParseError;
use speedate_base::util::{LAST_SECOND, UnixTime};

/// A moment that a clock returns: the time since 1970-01-01T00:00:00 in UTC (Unix time).
/// [`DateTime::now_at`] makes a date-time of it. The type holds microseconds of less than a second.
#[derive(Clone, Copy, Debug, PartialEq, Eq)]
pub struct Moment {
    /// The seconds since 1970-01-01T00:00:00, rounded down.
    pub second: u64,
    /// The microseconds that are left, 0 to 999,999.
    pub microsecond: u32,
    pub ghost microsecond_in_range: { microsecond ≤ 999999 },
}

impl Moment {
    ghost use Rattle.speedate_civil.specs.DateTime.{new_moment_answer, moment_instant};

    /// The moment of seconds since 1970-01-01T00:00:00 in UTC, and the microseconds that are left: half
    /// a second after that midnight for 0 and 500,000.
    ///
    /// # Errors
    ///
    /// `TimeTooLarge` if the microseconds are over 999,999.
    pub fn new(second: u64, microsecond: u32) -> Result<Self, ParseError>
        ensures answer { result_map moment_instant result ≡ new_moment_answer second microsecond }
    {
        if microsecond > 999_999 {
            return Err(ParseError::TimeTooLarge);
        }
        Ok(Moment {
            second,
            microsecond,
        })
    }
}

impl DateTime {
    ghost use Rattle.speedate_civil.specs.declared.datetime.now.Moment.{Moment};
    ghost use Rattle.speedate_civil.specs.DateTime.{moment_answer, now_answer, ◌gives◌};

    /// The date-time of a moment, as a clock at an offset, in seconds, shows it:
    /// 2022-06-08T00:59:59+01:00 for second 1,654,646,399 and 3,600.
    ///
    /// # Errors
    ///
    /// In the order in which they are looked for:
    ///
    /// - `DateTooLarge` if the moment lies after the year 9999 in UTC;
    /// - `OutOfRangeTz` if the offset is 24 hours or more;
    /// - `DateTooLarge` if that clock shows a date after the year 9999.
    pub fn now_at(moment: Moment, tz_offset: i32) -> Result<Self, ParseError>
        ensures answer { result gives moment_answer tz_offset moment }
    {
        if moment.second > LAST_SECOND as u64 {
            return Err(ParseError::DateTooLarge);
        }
        require_offset(Some(tz_offset))?;
        let time = UnixTime {
            second: move_second(moment.second as i64, tz_offset),
            microsecond: moment.microsecond,
        };
        DateTime::from_unix_time(time, Some(tz_offset))
    }

    /// The date-time now, by a clock, at an offset in seconds: 1970-01-01T00:00:00Z if the clock
    /// returns second 0 and the offset is 0. The library reads no clock itself: the first argument
    /// is called once, and returns a [`Moment`], or `None` if it has none, as before 1970.
    ///
    /// # Errors
    ///
    /// `SystemTimeError` if the clock returns no moment, and otherwise the errors of
    /// [`DateTime::now_at`], in its order.
    pub fn now<F: FnOnce() -> Option<Moment>>(clock: F, tz_offset: i32) -> Result<Self, ParseError>
        requires { F.pre clock }
        ensures answer { (told : Option Moment) × F.post clock told
            × (result gives now_answer tz_offset told) }
    {
        let moment = clock().ok_or(ParseError::SystemTimeError)?;
        Self::now_at(moment, tz_offset)
    }
}

impl Date {
    ghost use Rattle.speedate_civil.specs.declared.datetime.now.Moment.{Moment};
    ghost use Rattle.speedate_civil.specs.Date.{◌gives◌};
    ghost use Rattle.speedate_civil.specs.DateTime.{today_answer};

    /// The date now, by a clock, at an offset in seconds: 2022-06-08 if the clock returns second
    /// 1,654,646,399 and the offset is 3,600. The clock is as in [`DateTime::now`].
    ///
    /// # Errors
    ///
    /// `SystemTimeError` if the clock returns no moment, and otherwise the errors of
    /// [`DateTime::now_at`], in its order.
    pub fn today<F: FnOnce() -> Option<Moment>>(
        clock: F,
        tz_offset: i32,
    ) -> Result<Self, ParseError>
        requires { F.pre clock }
        ensures answer { (told : Option Moment) × F.post clock told
            × (result gives today_answer tz_offset told) }
    {
        let now = DateTime::now(clock, tz_offset)?;
        Ok(now.date)
    }
}
