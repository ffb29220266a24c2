//! The duration between two values, and the value a duration after another or before it.

ghost use Rattle.std.specs.Prelude.{◌≡◌, ◌<◌, ◌≤◌, ◌+ℤ◌, ◌-ℤ◌, IfOk, Ok, neg_ℤ, unsigned_abs};
ghost use Rattle.std.specs.Ordering.{int_cmp};
ghost use Rattle.speedate_base.specs.Timestamp.{instant_at, unix_instant};
ghost use Rattle.speedate_civil.specs.DateTime.{local_microsecond, utc_microsecond, date_and_time};
ghost use Rattle.speedate_civil.specs.Calendar.{date_order, days_between};
ghost use Rattle.speedate.specs.Duration.{duration_numbers, signed_amount, duration_of_amount};
ghost use Rattle.speedate.specs.Duration.{amount_answer, negated, with_positive_zero};
ghost use Rattle.speedate.specs.Duration.{duration_between, date_time_later};
ghost use Rattle.speedate.specs.Duration.{duration_between_dates, date_later, Duration};
ghost use Rattle.speedate.specs.DurationNumbers.{signed_day};

use super::{DAYS_MAX, Duration};
use speedate_base::faults::ParseError;
use speedate_base::util::{SECONDS_PER_DAY, UnixTime};
use speedate_civil::date::Date;
use speedate_civil::datetime::DateTime;

impl Duration {
    ghost use Rattle.speedate_base.specs.Requirement.{result_map};
    ghost use Rattle.speedate_civil.specs.DateTime.{◌gives◌};

    /// The duration from `earlier` to `later`, by their instants in UTC: an hour from
    /// 2020-01-01T12:00:00Z to 2020-01-01T12:00:00-01:00. It is negative if `later` is before `earlier`,
    /// and has at most 3,652,426 days. A date-time without an offset is taken to be in UTC. If the
    /// offsets are equal, [`Duration::after`] leads from `earlier` exactly to `later`.
    pub fn between(earlier: &DateTime, later: &DateTime) -> Duration
        ensures answer { duration_numbers result
            ≡ duration_between (date_and_time earlier.now) (date_and_time later.now) }
        ensures length { signed_amount (duration_numbers result)
            ≡ utc_microsecond (date_and_time later.now)
            -ℤ utc_microsecond (date_and_time earlier.now) }
        ensures ends { IfOk
            (date_time_later (signed_amount (duration_numbers result)) (date_and_time earlier.now))
            (λ end. utc_microsecond end ≡ utc_microsecond (date_and_time later.now)) }
        ensures leads_back { later.now.time.tz_offset ≡ earlier.now.time.tz_offset
            → date_time_later (signed_amount (duration_numbers result)) (date_and_time earlier.now)
            ≡ Ok (date_and_time later.now) }
        ensures days { result.day ≤ 3652426 }
    {
        Self::from_microseconds(later.timestamp_tz_us() - earlier.timestamp_tz_us())
    }

    /// The date-time this long after `start`, or before it if the duration is negative, at the same
    /// offset: 2020-03-01T00:30:00+01:00 for an hour and 2020-02-29T23:30:00+01:00.
    /// [`Duration::before`] is the inverse.
    ///
    /// # Errors
    ///
    /// `DateTooSmall` if the date that a clock at the offset shows is before the year 0000,
    /// `DateTooLarge` if it is after the year 9999.
    #[inline(always)]
    pub fn after(&self, start: &DateTime) -> Result<DateTime, ParseError>
        ensures answer { result gives date_time_later (signed_amount (duration_numbers self.now))
            (date_and_time start.now) }
        ensures ends { IfOk result (λ end. utc_microsecond (date_and_time end)
            ≡ utc_microsecond (date_and_time start.now)
            +ℤ signed_amount (duration_numbers self.now)) }
        ensures offset { IfOk result (λ end. end.time.tz_offset ≡ start.now.time.tz_offset) }
        ensures between { IfOk result (λ end.
            duration_between (date_and_time start.now) (date_and_time end)
            ≡ with_positive_zero (duration_numbers self.now)) }
        ensures order { (other : Duration) → IfOk result (λ end. IfOk
            (date_time_later (signed_amount (duration_numbers other)) (date_and_time start.now))
            (λ next. int_cmp (utc_microsecond (date_and_time end)) (utc_microsecond next)
            ≡ int_cmp (signed_amount (duration_numbers self.now))
            (signed_amount (duration_numbers other)))) }
        ensures leads_back { IfOk result (λ end.
            date_time_later (neg_ℤ (signed_amount (duration_numbers self.now))) (date_and_time end)
            ≡ Ok (date_and_time start.now)) }
    {
        DateTime::from_unix_time(self.end(start), start.time.tz_offset)
    }

    /// The date-time this long before `start`, or after it if the duration is negative, at the same
    /// offset: 2020-02-29T23:30:00+01:00 for an hour and 2020-03-01T00:30:00+01:00.
    /// [`Duration::after`] is the inverse.
    ///
    /// # Errors
    ///
    /// Those of [`Duration::after`].
    pub fn before(&self, start: &DateTime) -> Result<DateTime, ParseError>
        ensures answer { result gives date_time_later
            (neg_ℤ (signed_amount (duration_numbers self.now))) (date_and_time start.now) }
        ensures ends { IfOk result (λ end. utc_microsecond (date_and_time end)
            ≡ utc_microsecond (date_and_time start.now)
            -ℤ signed_amount (duration_numbers self.now)) }
        ensures offset { IfOk result (λ end. end.time.tz_offset ≡ start.now.time.tz_offset) }
        ensures between { IfOk result (λ end.
            duration_between (date_and_time end) (date_and_time start.now)
            ≡ with_positive_zero (duration_numbers self.now)) }
        ensures order { (other : Duration) → IfOk result (λ end. IfOk
            (date_time_later (neg_ℤ (signed_amount (duration_numbers other)))
            (date_and_time start.now))
            (λ next. int_cmp (utc_microsecond (date_and_time end)) (utc_microsecond next)
            ≡ int_cmp (signed_amount (duration_numbers other))
            (signed_amount (duration_numbers self.now)))) }
        ensures leads_back { IfOk result (λ end.
            date_time_later (signed_amount (duration_numbers self.now)) (date_and_time end)
            ≡ Ok (date_and_time start.now)) }
    {
        self.negated().after(start)
    }

    /// The duration with the other sign: -PT1S for PT1S, and PT0S for -PT0S.
    pub fn negated(&self) -> Duration
        ensures numbers { duration_numbers result ≡ negated (duration_numbers self.now) }
        ensures length { signed_amount (duration_numbers result)
            ≡ neg_ℤ (signed_amount (duration_numbers self.now)) }
    {
        Duration {
            positive: !self.positive,
            day: self.day,
            second: self.second,
            microsecond: self.microsecond,
        }
    }

    /// The duration in microseconds, with the sign: -1,500,000 for -PT1.5S, and 0 for PT0S and
    /// -PT0S. There are fewer than in 1,000,000,000 days. [`Duration::from_signed_microseconds`] is
    /// the inverse, with PT0S for 0.
    pub fn signed_total_microseconds(&self) -> i128
        ensures microsecond { result ≡ signed_amount (duration_numbers self.now) }
        ensures small { unsigned_abs result < 86400000000000000000 }
        ensures leads_back { amount_answer result
            ≡ Ok (with_positive_zero (duration_numbers self.now)) }
    {
        1_000_000 * i128::from(self.signed_total_seconds()) + i128::from(self.signed_microseconds())
    }

    /// The duration of a number of microseconds with a sign: -PT1.5S for -1,500,000, and PT0S for 0. An
    /// `i128` has room for sums and multiples: the longest duration has fewer than 2^67 microseconds.
    ///
    /// # Errors
    ///
    /// `DurationDaysTooLarge` if it has more than 999,999,999 days.
    pub fn from_signed_microseconds(microseconds: i128) -> Result<Self, ParseError>
        ensures answer { result_map duration_numbers result ≡ amount_answer microseconds }
        ensures length { IfOk result (λ duration. signed_amount (duration_numbers duration)
            ≡ microseconds) }
    {
        // Most durations fit 64 bits, in which a division by a constant is a multiplication.
        if let Ok(amount) = i64::try_from(microseconds) {
            return Ok(Self::from_microseconds(amount));
        }
        let size = microseconds.unsigned_abs();
        let (seconds, per_day) = (size / 1_000_000, u128::from(SECONDS_PER_DAY));
        let day = seconds / per_day;
        if day > u128::from(DAYS_MAX) {
            return Err(ParseError::DurationDaysTooLarge);
        }
        Ok(Duration {
            positive: microseconds >= 0,
            day: day as u32,
            second: (seconds % per_day) as u32,
            microsecond: (size % 1_000_000) as u32,
        })
    }

    /// The duration of a number of microseconds.
    pub(crate) fn from_microseconds(amount: i64) -> Duration
        ensures numbers { duration_numbers result ≡ duration_of_amount amount }
    {
        let size = amount.unsigned_abs();
        let (seconds, per_day) = (size / 1_000_000, u64::from(SECONDS_PER_DAY));
        Duration {
            positive: amount >= 0,
            day: (seconds / per_day) as u32,
            second: (seconds % per_day) as u32,
            microsecond: (size % 1_000_000) as u32,
        }
    }

    /// The instant this long after a date-time, as a clock at its offset shows it.
    fn end(&self, start: &DateTime) -> UnixTime
        ensures instant { unix_instant result
            ≡ instant_at (local_microsecond (date_and_time start.now)
            +ℤ signed_amount (duration_numbers self.now)) }
    {
        UnixTime::from_second_and_microseconds(
            start.timestamp() + self.signed_total_seconds(),
            start.time.microsecond as i32 + self.signed_microseconds(),
        )
    }
}

impl Duration {
    ghost use Rattle.speedate_civil.specs.Date.{ymd, ◌gives◌};

    /// The duration from `earlier` to `later`, in whole days: two days from 2020-02-28 to 2020-03-01. It
    /// is negative if `later` is before `earlier`.
    pub fn between_dates(earlier: &Date, later: &Date) -> Duration
        ensures answer { duration_numbers result
            ≡ duration_between_dates (ymd earlier.now) (ymd later.now) }
        ensures leads_back { date_later (duration_numbers result) (ymd earlier.now)
            ≡ Ok (ymd later.now) }
    {
        let days = later.days_since(earlier);
        Duration {
            positive: days >= 0,
            day: days.unsigned_abs(),
            second: 0,
            microsecond: 0,
        }
    }

    /// The date this many days after `start`, or before it if the duration is negative: 2020-03-01
    /// for two days and 2020-02-28. [`Duration::before_date`] is the inverse.
    ///
    /// # Errors
    ///
    /// `DateNotExact` if the duration is not whole days, then `DateTooSmall` if the date is before the
    /// year 0000, or `DateTooLarge` if it is after the year 9999.
    pub fn after_date(&self, start: &Date) -> Result<Date, ParseError>
        ensures answer { result gives date_later (duration_numbers self.now) (ymd start.now) }
        ensures days { IfOk result (λ end. days_between (ymd start.now) (ymd end)
            ≡ signed_day (duration_numbers self.now)) }
        ensures order { (other : Duration) → IfOk result (λ end. IfOk
            (date_later (duration_numbers other) (ymd start.now))
            (λ next. date_order (ymd end) next ≡ int_cmp (signed_day (duration_numbers self.now))
            (signed_day (duration_numbers other)))) }
        ensures leads_back { IfOk result (λ end.
            date_later (negated (duration_numbers self.now)) (ymd end) ≡ Ok (ymd start.now)) }
    {
        if self.second != 0 || self.microsecond != 0 {
            return Err(ParseError::DateNotExact);
        }
        let days = self.day as i32;
        let (days, fault) = if self.positive {
            (days, ParseError::DateTooLarge)
        } else {
            (-days, ParseError::DateTooSmall)
        };
        start.checked_add_days(days).ok_or(fault)
    }

    /// The date this many days before `start`, or after it if the duration is negative: 2020-02-28
    /// for two days and 2020-03-01. [`Duration::after_date`] is the inverse.
    ///
    /// # Errors
    ///
    /// Those of [`Duration::after_date`].
    #[tactic(auto, using(crate::proofs::DurationLemmas::turned))]
    pub fn before_date(&self, start: &Date) -> Result<Date, ParseError>
        ensures answer { result gives date_later (negated (duration_numbers self.now))
            (ymd start.now) }
        ensures days { IfOk result (λ end. days_between (ymd end) (ymd start.now)
            ≡ signed_day (duration_numbers self.now)) }
        ensures order { (other : Duration) → IfOk result (λ end. IfOk
            (date_later (negated (duration_numbers other)) (ymd start.now))
            (λ next. date_order (ymd end) next ≡ int_cmp (signed_day (duration_numbers other))
            (signed_day (duration_numbers self.now)))) }
        ensures leads_back { IfOk result (λ end.
            date_later (duration_numbers self.now) (ymd end) ≡ Ok (ymd start.now)) }
    {
        self.negated().after_date(start)
    }
}
