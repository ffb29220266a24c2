//! Instants, and the units of timestamps.

ghost use Rattle.std.specs.Prelude.{◌≡◌, ◌<◌, ◌≤◌, ◌^◌};

use crate::faults::ParseError;
use std::cmp::Ordering;

/// The first second of the year 0000, counted from 1970-01-01T00:00:00.
pub const FIRST_SECOND: i64 = -62_167_219_200;

/// The last second of the year 9999.
pub const LAST_SECOND: i64 = 253_402_300_799;

/// An instant: seconds since 1970-01-01T00:00:00, rounded down, and the microseconds that are left.
#[derive(Clone, Copy, Debug, PartialEq, Eq, PartialOrd, Ord)]
pub struct UnixTime {
    /// Seconds since 1970-01-01T00:00:00, rounded down.
    pub second: i64,
    /// The microseconds that are left, 0 to 999,999.
    pub microsecond: u32,
    pub ghost microsecond_in_range: { microsecond ≤ 999999 },
}

impl UnixTime {
    ghost use Rattle.std.specs.Prelude.{IfOk, pos, ◌*ℤ◌, ◌+ℤ◌, unsigned_abs};
    ghost use Rattle.speedate_base.specs.Requirement.{result_map};
    ghost use Rattle.speedate_base.specs.Timestamp.{IsInYears, instant_at, range_answer};
    ghost use Rattle.speedate_base.specs.Timestamp.{unix_instant, instant_order, later_answer};

    /// The instant of a timestamp in seconds.
    #[inline(always)]
    pub(super) fn from_seconds(timestamp: i64) -> Self
        ensures { unix_instant result ≡ instant_at (pos 1000000 *ℤ timestamp) }
    {
        UnixTime {
            second: timestamp,
            microsecond: 0,
        }
    }

    /// The instant of a timestamp in milliseconds: second -1 and 999,000 microseconds for -1.
    #[inline(always)]
    pub(super) fn from_milliseconds(timestamp: i64) -> Self
        ensures { unix_instant result ≡ instant_at (pos 1000 *ℤ timestamp) }
    {
        UnixTime {
            second: timestamp.div_euclid(1_000),
            microsecond: timestamp.rem_euclid(1_000) as u32 * 1_000,
        }
    }

    /// The instant of a timestamp in microseconds: second -1 and 999,999 microseconds for -1.
    #[inline(always)]
    pub(super) fn from_microseconds(timestamp: i64) -> Self
        ensures { unix_instant result ≡ instant_at timestamp }
    {
        UnixTime {
            second: timestamp.div_euclid(1_000_000),
            microsecond: timestamp.rem_euclid(1_000_000) as u32,
        }
    }

    /// The instant of a second and microseconds that may be more than a second or negative: second 0 and
    /// 999,999 microseconds for 1 and -1.
    pub fn from_second_and_microseconds(second: i64, microsecond: i32) -> Self
        requires { unsigned_abs second < 100000000000000 }
        ensures instant { unix_instant result ≡ instant_at (pos 1000000 *ℤ second +ℤ microsecond) }
    {
        UnixTime {
            second: second + i64::from(microsecond.div_euclid(1_000_000)),
            microsecond: microsecond.rem_euclid(1_000_000) as u32,
        }
    }

    /// The instant a number of microseconds later: second 2 and 500,000 microseconds for a second and a half
    /// after second 1. Fails with `TimeTooLarge` if the microseconds exceed `u32::MAX` together, or if
    /// the seconds and those carried exceed `i64::MAX`.
    pub fn checked_add_microseconds(self, microseconds: u32) -> Result<Self, ParseError>
        ensures later { result_map unix_instant result
            ≡ later_answer microseconds (unix_instant self) }
    {
        let sum = self
            .microsecond
            .checked_add(microseconds)
            .ok_or(ParseError::TimeTooLarge)?;
        let second = self
            .second
            .checked_add(i64::from(sum / 1_000_000))
            .ok_or(ParseError::TimeTooLarge)?;
        Ok(UnixTime {
            second,
            microsecond: sum % 1_000_000,
        })
    }

    /// Compares two instants, by second and then by microsecond: second 1 and 999,999 microseconds is less
    /// than second 2.
    #[inline(always)]
    pub fn cmp_instant(&self, other: &UnixTime) -> Ordering
        ensures order { result ≡ instant_order (unix_instant self.now) (unix_instant other.now) }
    {
        self.cmp(other)
    }

    /// The same instant, if it lies in the years 0000 to 9999: second 0 for second 0. Fails with
    /// `DateTooSmall` before them and with `DateTooLarge` after them, as for second 253,402,300,800.
    pub fn in_years(self) -> Result<Self, ParseError>
        ensures answer { result_map unix_instant result ≡ range_answer (unix_instant self) }
        ensures within { IfOk result (λ time. IsInYears (unix_instant time)) }
    {
        if self.second < FIRST_SECOND {
            return Err(ParseError::DateTooSmall);
        }
        if self.second > LAST_SECOND {
            return Err(ParseError::DateTooLarge);
        }
        Ok(self)
    }
}

/// A unit of timestamps, which count from 1970-01-01T00:00:00.
#[derive(Clone, Copy)]
pub struct UnixUnit {
    /// Its microseconds: 1,000 for milliseconds.
    pub microseconds: u64,
    /// How many digits after a point are whole microseconds: 3 for milliseconds.
    pub digits: usize,
    /// The error of a text with more digits than those: `MillisecondFractionTooLong` for milliseconds.
    pub too_long: ParseError,
    pub ghost few: { digits ≤ 6 },
    pub ghost small: { microseconds ≤ 1000000 },
    pub ghost whole: { microseconds ≡ 10 ^ digits },
}

/// Seconds since 1970-01-01T00:00:00.
pub(super) const SECOND: UnixUnit = UnixUnit {
    microseconds: 1_000_000,
    digits: 6,
    too_long: ParseError::SecondFractionTooLong,
};

/// Milliseconds since 1970-01-01T00:00:00.
pub(super) const MILLISECOND: UnixUnit = UnixUnit {
    microseconds: 1_000,
    digits: 3,
    too_long: ParseError::MillisecondFractionTooLong,
};

/// Microseconds since 1970-01-01T00:00:00.
pub(super) const MICROSECOND: UnixUnit = UnixUnit {
    microseconds: 1,
    digits: 0,
    too_long: ParseError::MicrosecondFractionTooLong,
};
