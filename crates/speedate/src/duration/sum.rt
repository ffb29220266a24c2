//! Sums of durations.

ghost use Rattle.std.specs.Prelude.{◌≡◌, ◌+◌, ◌^◌, ◌<◌, ◌≤◌, ◌+ℤ◌, ◌*ℤ◌, pos, unsigned_abs};
ghost use Rattle.speedate_base.specs.Requirement.{result_map};
ghost use Rattle.speedate.specs.Duration.{amount_answer, duration_numbers, signed_amount};
ghost use Rattle.speedate.specs.Duration.{amount_sum};

use super::Duration;
use speedate_base::faults::ParseError;

/// The seconds of 1,000,000,000 days: a duration has fewer.
const SECONDS_END: u128 = 86_400_000_000_000;

/// A sum of durations, in seconds and microseconds of any size, each with its sign: 3,600 and 0 of PT1H. It has
/// room for sums that are too large for a [`Duration`], so no order of the durations makes it fail.
#[derive(Clone, Copy, Debug, PartialEq, Eq)]
pub struct DurationSum {
    /// The seconds, with the sign.
    pub seconds: i128,
    /// The microseconds, with the sign, which may be more than a second.
    pub microseconds: i128,
}

impl DurationSum {
    ghost use Rattle.speedate.specs.Duration.{sum_microseconds};

    /// The sum of no durations.
    pub const ZERO: DurationSum = DurationSum {
        seconds: 0,
        microseconds: 0,
    };

    /// The sum with one more duration: 5,400 seconds for PT1H, and PT30M more. The seconds and the microseconds
    /// are less than 2^126 without their signs, which is a condition on the caller: a sum of a slice meets it.
    #[inline(always)]
    pub fn with(self, duration: &Duration) -> Self
        requires seconds { unsigned_abs self.seconds < 2 ^ 126 }
        requires microseconds { unsigned_abs self.microseconds < 2 ^ 126 }
        ensures sum { sum_microseconds result
            ≡ sum_microseconds self +ℤ signed_amount (duration_numbers duration.now) }
        ensures seconds { unsigned_abs result.seconds ≤ unsigned_abs self.seconds + 86400000000000 }
        ensures microseconds { unsigned_abs result.microseconds
            ≤ unsigned_abs self.microseconds + 999999 }
    {
        DurationSum {
            seconds: added(self.seconds, duration.signed_total_seconds()),
            microseconds: added(self.microseconds, i64::from(duration.signed_microseconds())),
        }
    }

    /// The duration of a sum: PT1H30M of 3,600 seconds and 1,800,000,000 microseconds. Zero is positive.
    ///
    /// # Errors
    ///
    /// `DurationDaysTooLarge` if it has more than 999,999,999 days.
    pub fn to_duration(self) -> Result<Duration, ParseError>
        ensures answer { result_map duration_numbers result
            ≡ amount_answer (sum_microseconds self) }
    {
        let carried = self.microseconds.div_euclid(1_000_000);
        let Some(second) = self.seconds.checked_add(carried) else {
            return Err(ParseError::DurationDaysTooLarge);
        };
        if second.unsigned_abs() > SECONDS_END {
            return Err(ParseError::DurationDaysTooLarge);
        }
        let microseconds = joined(second, self.microseconds.rem_euclid(1_000_000));
        Duration::from_signed_microseconds(microseconds)
    }
}

impl Duration {
    /// The sum of durations, each with its sign: PT1H30M of PT2H and -PT30M, and PT0S of none. It is exact, and
    /// zero is positive.
    ///
    /// # Errors
    ///
    /// `DurationDaysTooLarge` if the sum has more than 999,999,999 days.
    pub fn sum(durations: &[Duration]) -> Result<Self, ParseError>
        ensures answer { result_map duration_numbers result
            ≡ amount_answer (amount_sum duration_numbers durations.now) }
    {
        let mut sum = DurationSum::ZERO;
        for duration in durations {
            sum = sum.with(duration);
        }
        sum.to_duration()
    }
}

/// A number and one more.
#[inline(always)]
fn added(sum: i128, number: i64) -> i128
    requires small { unsigned_abs sum < 2 ^ 126 }
    ensures sum { result ≡ sum +ℤ number }
{
    sum + i128::from(number)
}

/// The microseconds of seconds, and further ones.
#[inline(always)]
fn joined(second: i128, microsecond: i128) -> i128
    requires second { unsigned_abs second ≤ 86400000000000 }
    requires microsecond { unsigned_abs microsecond < 1000000 }
    ensures microsecond { result ≡ pos 1000000 *ℤ second +ℤ microsecond }
{
    1_000_000 * second + microsecond
}
