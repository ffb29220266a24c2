//! Times of day at other offsets.

ghost use Rattle.std.specs.Prelude.{◌≡◌, ◌*◌, ◌<◌, ◌-ℤ◌, IfOk, Ok, Some, pos, unsigned_abs};
ghost use Rattle.speedate_base.specs.Timestamp.{seconds_per_day};
ghost use Rattle.std.specs.Option.{ForSome, unwrap_or};
ghost use Rattle.speedate_base.specs.Offset.{IsOffset};
ghost use Rattle.speedate_base.specs.Requirement.{first_fault_or};
ghost use Rattle.speedate_civil.specs.Instant.{move_table};
ghost use Rattle.speedate_civil.specs.Time.{time_of_day, utc_second_of_day, ◌gives◌};
ghost use Rattle.speedate_civil.specs.Time.{time_with_offset, time_in_timezone};

use super::Time;
use speedate_base::config::require_offset;
use speedate_base::faults::ParseError;
use speedate_base::util::SECONDS_PER_DAY;

impl Time {
    /// The same clock with another offset, in seconds, or with none: 12:00:00-01:00 for 12:00:00Z and
    /// `Some(-3600)`.
    ///
    /// # Errors
    ///
    /// `OutOfRangeTz` if the offset is 24 hours or more.
    pub fn with_timezone_offset(&self, tz_offset: Option<i32>) -> Result<Self, ParseError>
        ensures answer { result gives time_with_offset tz_offset (time_of_day self.now) }
    {
        require_offset(tz_offset)?;
        Ok(Time {
            hour: self.hour,
            minute: self.minute,
            second: self.second,
            microsecond: self.microsecond,
            tz_offset,
        })
    }

    /// The time at the same instant, as a clock at another offset, in seconds, shows it:
    /// 16:00:00.567000+01:00 for 15:00:00.567000Z and 3,600.
    ///
    /// # Errors
    ///
    /// In the order in which they are looked for:
    ///
    /// - `OutOfRangeTz` if the offset is 24 hours or more;
    /// - `TzRequired` if the time lacks an offset;
    /// - `TimeTooLarge` if that clock shows the day before or the day after.
    pub fn in_timezone(&self, tz_offset: i32) -> Result<Self, ParseError>
        ensures answer { result gives time_in_timezone tz_offset (time_of_day self.now) }
        ensures offset { IfOk result (λ time. time.tz_offset ≡ Some tz_offset) }
        ensures instant { IfOk result (λ time. utc_second_of_day (time_of_day time)
            ≡ utc_second_of_day (time_of_day self.now)) }
        ensures microsecond { IfOk result (λ time. time.microsecond ≡ self.now.microsecond) }
    {
        let shift = clock_shift(self.tz_offset, tz_offset)?;
        let second = self.total_seconds() as i32 + shift;
        if second < 0 || second >= SECONDS_PER_DAY as i32 {
            return Err(ParseError::TimeTooLarge);
        }
        Ok(Self::from_second(second as u32, self.microsecond, Some(tz_offset)))
    }
}

/// The seconds by which a clock moves from the offset at which it shows a time to another one:
/// 3,600 from `Some(0)` to 3,600. Fails with `OutOfRangeTz` if the other one is 24 hours or more,
/// then with `TzRequired` if the first is missing.
pub(crate) fn clock_shift(old: Option<i32>, offset: i32) -> Result<i32, ParseError>
    requires { ForSome old IsOffset }
    ensures answer { result
        ≡ first_fault_or (move_table offset old) (Ok (offset -ℤ unwrap_or old (pos 0))) }
    ensures range { IfOk result (λ shift. IsOffset offset
        × (unsigned_abs shift < 2 * seconds_per_day)) }
{
    require_offset(Some(offset))?;
    let old = old.ok_or(ParseError::TzRequired)?;
    Ok(difference(offset, old))
}

/// How much larger one offset is than another.
fn difference(offset: i32, old: i32) -> i32
    requires offset { IsOffset offset }
    requires old { IsOffset old }
    ensures value { result ≡ offset -ℤ old }
    ensures range { unsigned_abs result < 2 * seconds_per_day }
{
    offset - old
}
