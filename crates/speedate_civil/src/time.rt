//! Times of day, with or without an offset from UTC.

ghost use Rattle.std.specs.Prelude.{◌≡◌, ◌≤◌};
ghost use Rattle.std.specs.Option.{ForSome};
ghost use Rattle.speedate_base.specs.Offset.{IsOffset};

mod digits;
mod error_place;
mod offset;
mod order;
mod parse;
mod pure;
mod text;
mod timestamp;
mod timezone;
mod zone;

pub use digits::FractionDigits;
pub(crate) use offset::{offset_or_utc, unsigned_offset};
pub use offset::{end_fault, has_minus_sign, is_plus_or_minus, signed_offset, with_sign};
pub use pure::PureTime;
use speedate_base::faults::ParseError;
pub(crate) use timezone::clock_shift;
pub(crate) use zone::late_zone;
pub use zone::{is_boundary, is_half_day, zone_front};

/// A time of day, to the microsecond, with an offset from UTC or without one.
///
/// It is parsed by [`Time::parse_str`] and made from numbers by [`Time::new`]. It is printed as
/// `HH:MM:SS`, with `.` and six digits if the microsecond is not 0, and with the offset if there is
/// one: `12:13:14.500000+01:30`. Display writes this text, whatever width and fill are asked for.
///
/// The ranges of the fields are part of the type: the check proves them at each literal, and for a
/// constant where it is used. Both are written as in Rust:
/// `const NOON: Time = Time { hour: 12, minute: 0, second: 0, microsecond: 0, tz_offset: None };`.
///
/// `==` compares the fields. There is no `<`: [`Time::cmp_instant`] orders times. Nor does it
/// implement `Hash`: as a key use the fields, or the printed text if offsets are whole minutes.
#[derive(Clone, Copy, Debug, PartialEq, Eq)]
pub struct Time {
    /// The hour, 0 to 23.
    pub hour: u8,
    /// The minute, 0 to 59.
    pub minute: u8,
    /// The second, 0 to 59.
    pub second: u8,
    /// The microsecond, 0 to 999,999.
    pub microsecond: u32,
    /// The offset from UTC in seconds, less than 24 hours, if there is one; it is positive east of UTC.
    pub tz_offset: Option<i32>,
    pub ghost hour_in_range: { hour ≤ 23 },
    pub ghost minute_in_range: { minute ≤ 59 },
    pub ghost second_in_range: { second ≤ 59 },
    pub ghost microsecond_in_range: { microsecond ≤ 999999 },
    pub ghost offset_in_range: { ForSome tz_offset IsOffset },
}

impl Time {
    ghost use Rattle.speedate_civil.specs.Time.{time_of_day, second_of_day, millisecond_of_day};
    ghost use Rattle.speedate_civil.specs.Time.{◌gives◌, new_time_answer};

    /// The time of an hour, a minute, a second, a microsecond, and an offset from UTC in seconds or
    /// none: 12:13:14.500000+01:00 for 12, 13, 14, 500,000 and `Some(3600)`.
    ///
    /// # Errors
    ///
    /// In the order in which they are looked for:
    ///
    /// - `OutOfRangeHour` if the hour is over 23;
    /// - `OutOfRangeMinute` if the minute is over 59;
    /// - `OutOfRangeSecond` if the second is over 59;
    /// - `TimeTooLarge` if the microsecond is over 999,999;
    /// - `OutOfRangeTz` if the offset is 24 hours or more.
    pub fn new(
        hour: u8,
        minute: u8,
        second: u8,
        microsecond: u32,
        tz_offset: Option<i32>,
    ) -> Result<Self, ParseError>
        ensures answer { result gives new_time_answer hour minute second microsecond tz_offset }
    {
        if hour > 23 {
            return Err(ParseError::OutOfRangeHour);
        }
        if minute > 59 {
            return Err(ParseError::OutOfRangeMinute);
        }
        if second > 59 {
            return Err(ParseError::OutOfRangeSecond);
        }
        if microsecond > 999_999 {
            return Err(ParseError::TimeTooLarge);
        }
        let time = Time {
            hour,
            minute,
            second,
            microsecond,
            tz_offset: None,
        };
        time.with_timezone_offset(tz_offset)
    }

    /// The seconds since midnight, whatever the offset: 43,994 for 12:13:14.5.
    pub fn total_seconds(&self) -> u32
        ensures seconds { result ≡ second_of_day (time_of_day self.now) }
    {
        3600 * u32::from(self.hour) + 60 * u32::from(self.minute) + u32::from(self.second)
    }

    /// The milliseconds since midnight, rounded down, whatever the offset: 43,994,500 for
    /// 12:13:14.5.
    pub fn total_ms(&self) -> u32
        ensures milliseconds { result ≡ millisecond_of_day (time_of_day self.now) }
    {
        1000 * self.total_seconds() + self.microsecond / 1000
    }
}
