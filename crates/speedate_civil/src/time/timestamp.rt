//! Times of day from timestamps.

ghost use Rattle.std.specs.Prelude.{◌≡◌, ◌≤◌, ◌+◌, ◌*◌, ◌<◌, IfOk, None};
ghost use Rattle.std.specs.Option.{ForSome};
ghost use Rattle.speedate_base.specs.Config.{time_choices};
ghost use Rattle.speedate_base.specs.Offset.{IsOffset};
ghost use Rattle.speedate_base.specs.Timestamp.{seconds_per_day};
ghost use Rattle.speedate_civil.specs.Time.{time_of_day, microsecond_of_day, time_at};
ghost use Rattle.speedate_civil.specs.Time.{timestamp_answer, ◌gives◌};

use super::Time;
use speedate_base::config::TimeConfig;
use speedate_base::faults::ParseError;
use speedate_base::util::SECONDS_PER_DAY;

impl Time {
    /// The time of the seconds and microseconds after midnight, without an offset: 10:00:06.5 for 36,005
    /// seconds and 1,500,000 microseconds.
    ///
    /// # Errors
    ///
    /// `TimeTooLarge` if they are 86,400 seconds or more together.
    pub fn from_timestamp(
        timestamp_second: u32,
        timestamp_microsecond: u32,
    ) -> Result<Self, ParseError>
        ensures answer { result gives timestamp_answer timestamp_second timestamp_microsecond None }
        ensures instant { IfOk result (λ time. microsecond_of_day (time_of_day time)
            ≡ 1000000 * timestamp_second + timestamp_microsecond) }
    {
        let config = TimeConfig::default();
        Self::from_timestamp_with_config(timestamp_second, timestamp_microsecond, &config)
    }

    /// The time of the seconds and microseconds after midnight, with the configured offset, which
    /// does not change the clock reading: 00:00:01Z for one second and the offset 0.
    ///
    /// # Errors
    ///
    /// `TimeTooLarge` if the seconds and microseconds are 86,400 seconds or more together.
    pub fn from_timestamp_with_config(
        timestamp_second: u32,
        timestamp_microsecond: u32,
        config: &TimeConfig,
    ) -> Result<Self, ParseError>
        ensures answer { result gives timestamp_answer timestamp_second timestamp_microsecond
            (time_choices config.now).offset }
        ensures instant { IfOk result (λ time. microsecond_of_day (time_of_day time)
            ≡ 1000000 * timestamp_second + timestamp_microsecond) }
    {
        let second = u64::from(timestamp_second) + u64::from(timestamp_microsecond / 1_000_000);
        if second >= u64::from(SECONDS_PER_DAY) {
            return Err(ParseError::TimeTooLarge);
        }
        let microsecond = timestamp_microsecond % 1_000_000;
        let offset = config.unix_timestamp_offset;
        Ok(Self::from_second(second as u32, microsecond, offset))
    }

    /// The time at a second of the day and its microsecond, with the offset attached.
    pub(crate) fn from_second(second: u32, microsecond: u32, tz_offset: Option<i32>) -> Self
        requires second { second < seconds_per_day }
        requires microsecond { microsecond ≤ 999999 }
        requires offset { ForSome tz_offset IsOffset }
        ensures time { time_of_day result ≡ time_at second microsecond tz_offset }
    {
        Time {
            hour: (second / 3600) as u8,
            minute: (second / 60 % 60) as u8,
            second: (second % 60) as u8,
            microsecond,
            tz_offset,
        }
    }
}
