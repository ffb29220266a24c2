//! Durations: days, seconds and microseconds, with a sign.

ghost use Rattle.std.specs.Prelude.{◌≡◌, ◌<◌, ◌≤◌, IfOk, unsigned_abs};
ghost use Rattle.speedate.specs.DurationNumbers.{amount_seconds, amount_microseconds, normal_form};
ghost use Rattle.speedate.specs.DurationNumbers.{signed_seconds, signed_microsecond};
ghost use Rattle.speedate.specs.DurationNumbers.{signed_milliseconds};

mod arithmetic;
mod clock;
mod days;
mod error_place;
mod iso;
mod order;
mod parse;
mod sum;
mod text;
mod unsigned;

use speedate_base::faults::ParseError;
use speedate_base::numbers::with_sign;
use speedate_base::util::SECONDS_PER_DAY;
pub use sum::DurationSum;

/// How many days the longest duration has.
pub const DAYS_MAX: u32 = 999_999_999;

/// An amount of time with a sign: days of 86,400 seconds, seconds of a day, and microseconds of a
/// second. Zero has a sign too: `PT0S` and `-PT0S` are different durations.
///
/// It is parsed by [`Duration::parse_str`] and made from numbers of any size by [`Duration::new`]. It is
/// printed in the format of ISO 8601, as `-P1Y2DT3H4M5.06S`: Display writes this text, whatever width
/// and fill are asked for.
///
/// The ranges of the fields are part of the type: the check proves them at each literal, and for a
/// constant where it is used. Both are written as in Rust:
/// `const DAY: Duration = Duration { positive: true, day: 1, second: 0, microsecond: 0 };`.
///
/// `<` and [`Duration::cmp`] order durations. It does not implement `Hash`: as a key use the
/// fields, or the printed text, since no two durations have the same.
#[derive(Clone, Copy, Debug, PartialEq, Eq)]
pub struct Duration {
    /// Whether the sign is positive: false for `-PT1S` and for `-PT0S`, true for `PT0S`.
    pub positive: bool,
    /// The days, 0 to 999,999,999.
    pub day: u32,
    /// The seconds of a day, 0 to 86,399.
    pub second: u32,
    /// The microseconds of a second, 0 to 999,999.
    pub microsecond: u32,
    pub ghost day_in_range: { day ≤ 999999999 },
    pub ghost second_in_range: { second < 86400 },
    pub ghost microsecond_in_range: { microsecond ≤ 999999 },
}

impl Duration {
    ghost use Rattle.speedate.specs.Duration.{duration_numbers, ◌gives◌};

    /// The duration of days, seconds and microseconds of any size, with the same amount: 2 days, 101
    /// seconds and 123 microseconds for 1 day, 86,500 seconds and 1,000,123 microseconds.
    ///
    /// Whole seconds of the microseconds are carried into the seconds, then whole days of the seconds
    /// into the days.
    ///
    /// # Errors
    ///
    /// In the order in which they are looked for:
    ///
    /// - `DurationValueTooLarge` if the seconds, or then the days, exceed 4,294,967,295;
    /// - `DurationDaysTooLarge` if the days exceed 999,999,999.
    pub fn new(positive: bool, day: u32, second: u32, microsecond: u32) -> Result<Self, ParseError>
        ensures answer { result gives normal_form (record {
          positive = positive;
          day = day;
          second = second;
          microsecond = microsecond;
        }) }
        ensures length { IfOk result (λ duration. amount_microseconds (duration_numbers duration)
            ≡ amount_microseconds (record {
              positive = positive;
              day = day;
              second = second;
              microsecond = microsecond;
            })) }
    {
        let second = second
            .checked_add(microsecond / 1_000_000)
            .ok_or(ParseError::DurationValueTooLarge)?;
        let day = day
            .checked_add(second / SECONDS_PER_DAY)
            .ok_or(ParseError::DurationValueTooLarge)?;
        if day > DAYS_MAX {
            return Err(ParseError::DurationDaysTooLarge);
        }
        Ok(Duration {
            positive,
            day,
            second: second % SECONDS_PER_DAY,
            microsecond: microsecond % 1_000_000,
        })
    }

    /// The duration in whole seconds, with the sign, cut toward zero: -86,401 for `-P1DT1.5S`.
    pub fn signed_total_seconds(&self) -> i64
        ensures second { result ≡ signed_seconds (duration_numbers self.now) }
        ensures small { unsigned_abs result < 86400000000000 }
    {
        with_sign(!self.positive, self.seconds())
    }

    /// The duration in whole milliseconds, with the sign, cut toward zero: -1,001 for `-PT1.0019S`.
    pub fn signed_total_ms(&self) -> i64
        ensures millisecond { result ≡ signed_milliseconds (duration_numbers self.now) }
    {
        let milliseconds = 1000 * self.seconds() + u64::from(self.microsecond / 1000);
        with_sign(!self.positive, milliseconds)
    }

    /// The microseconds that [`Duration::signed_total_seconds`] cuts off, with the sign: -1,000 for
    /// `-PT1.001S`.
    pub fn signed_microseconds(&self) -> i32
        ensures microsecond { result ≡ signed_microsecond (duration_numbers self.now) }
        ensures small { unsigned_abs result ≤ 999999 }
    {
        let microseconds = self.microsecond as i32;
        if self.positive {
            microseconds
        } else {
            -microseconds
        }
    }

    /// The duration in whole seconds, without the sign.
    fn seconds(&self) -> u64
        ensures seconds { result ≡ amount_seconds (duration_numbers self.now) }
    {
        u64::from(self.day) * u64::from(SECONDS_PER_DAY) + u64::from(self.second)
    }
}
