//! Dates from timestamps, and back.

ghost use Rattle.std.specs.Prelude.{◌≡◌, Bool, IfOk, IsTrue, Ok, int_le, pos};
ghost use Rattle.speedate_civil.specs.Base.{TimestampUnit};
ghost use Rattle.speedate_base.specs.Timestamp.{first_second, last_second, timestamp_second};
ghost use Rattle.speedate_civil.specs.Calendar.{date_of_number, day_number, midnight_second};
ghost use Rattle.speedate_civil.specs.Calendar.{midnight_millisecond};
ghost use Rattle.speedate_civil.specs.Date.{ymd, day_at, day_number_at, second_at};
ghost use Rattle.speedate_civil.specs.Date.{date_timestamp_answer, ◌gives◌};

use super::Date;
use speedate_base::config::DateConfig;
use speedate_base::faults::ParseError;
use speedate_base::util::{FIRST_SECOND, SECONDS_PER_DAY, timestamp_to_seconds_micros};

/// The day number of 1970-01-01.
const EPOCH_DAY: i64 = 719_528;

impl Date {
    /// The date of a Unix timestamp, in the unit of the configuration: 1969-12-31 for -1, if the date
    /// need not be exact.
    ///
    /// A timestamp counts from 1970-01-01T00:00:00, with 86,400 seconds in each day. The date is
    /// the day in which it lies.
    ///
    /// # Errors
    ///
    /// In the order in which they are looked for:
    ///
    /// - `DateTooSmall` if the unit of `i64::MIN` is to be inferred, or if the timestamp lies before
    ///   the year 0000;
    /// - `DateTooLarge` if it lies after the year 9999;
    /// - `DateNotExact` if an exact date is required, and the timestamp is not a midnight.
    #[inline(always)]
    pub fn from_timestamp(
        timestamp: i64,
        require_exact: bool,
        config: &DateConfig,
    ) -> Result<Self, ParseError>
        ensures answer { result gives date_timestamp_answer config.now.timestamp_unit require_exact
            timestamp }
        ensures day { IfOk result (λ date. pos (day_number (ymd date))
            ≡ day_number_at (timestamp_second config.now.timestamp_unit timestamp)) }
    {
        let time = timestamp_to_seconds_micros(timestamp, config.timestamp_unit)?;
        let within = time.in_years()?;
        let (date, second) = Self::from_second(within.second);
        if require_exact && (second != 0 || within.microsecond != 0) {
            return Err(ParseError::DateNotExact);
        }
        Ok(date)
    }

    /// The Unix timestamp of the date's midnight in UTC, in seconds since 1970-01-01T00:00:00:
    /// 86,400 for 1970-01-02. Each day has 86,400 seconds; the timestamp is negative before 1970.
    /// [`Date::from_timestamp`], in seconds, is the inverse.
    #[tactic(auto, using(speedate_base::proofs::TimestampLemmas::instant_of_seconds))]
    pub fn timestamp(&self) -> i64
        ensures second { result ≡ midnight_second (ymd self.now) }
        ensures leads_back { (exact : Bool)
            → date_timestamp_answer TimestampUnit.Second exact result ≡ Ok (ymd self.now) }
    {
        (i64::from(self.day_number()) - EPOCH_DAY) * i64::from(SECONDS_PER_DAY)
    }

    /// The Unix timestamp of the date's midnight in UTC, in milliseconds: 86,400,000 for 1970-01-02. It
    /// is a thousand times [`Date::timestamp`].
    pub fn timestamp_ms(&self) -> i64
        ensures millisecond { result ≡ midnight_millisecond (ymd self.now) }
    {
        1000 * self.timestamp()
    }

    /// The date of the day in which a second of the years 0000 to 9999 lies, and the second of that
    /// day.
    pub(crate) fn from_second(second: i64) -> (Self, u32)
        requires after { IsTrue (int_le first_second second) }
        requires before { IsTrue (int_le second last_second) }
        ensures date { ymd result.0 ≡ date_of_number (day_at second) }
        ensures day { pos (day_number (ymd result.0)) ≡ day_number_at second }
        ensures second { result.1 ≡ second_at second }
    {
        let seconds = (second - FIRST_SECOND) as u64;
        let per_day = u64::from(SECONDS_PER_DAY);
        (
            Self::from_number((seconds / per_day) as u32),
            (seconds % per_day) as u32,
        )
    }
}
