//! Days counted from 0000-01-01, and what follows from the count: the next day, days added and
//! between, and the day of the year.

ghost use Rattle.std.specs.Prelude.{◌≡◌, ◌+◌, ◌-◌, ◌*◌, ◌/◌, ◌%◌, ◌≤◌, IsTrue, Some, IfSome, pos, unsigned_abs};
ghost use Rattle.std.specs.Int.{IsInRange};
ghost use Rattle.std.specs.Option.{option_map};
ghost use Rattle.std.specs.Ordering.{int_cmp};
ghost use Rattle.speedate_civil.specs.Date.{ymd};
ghost use Rattle.speedate_civil.specs.Calendar.{days_of_months, is_leap_year, ordinal_day};
ghost use Rattle.speedate_civil.specs.Calendar.{day_number, date_of_number, date_numbered};
ghost use Rattle.speedate_civil.specs.Calendar.{next_date, date_order, date_added, days_between};

use super::{Date, is_leap_year, month_length};

/// The day number of 9999-12-31.
const LAST_DAY_NUMBER: u32 = 3_652_424;

/// The days from 1 March of the year -400 to the year 0. Years of March are counted from there: the day that
/// a leap year has more is then the last one of its year, and of the years that are counted so far.
const DAYS_BEFORE_YEAR_0: u32 = 146_037;

/// The days of 400 years, after which the calendar repeats.
const CYCLE_DAYS: u32 = 146_097;

/// The days of four years.
const FOUR_YEARS_DAYS: u32 = 1_461;

/// The first day of January in a year of March.
const JANUARY_START: u32 = 306;

/// The days of the months before a month of a year, if February has 30 days: they lie on a line of 367
/// days to twelve months.
fn long_days_before_month(month: u8) -> u16
    requires { IsInRange 1 12 month }
    ensures { result ≡ (367 * month - 362) / 12 }
{
    (367 * u16::from(month) - 362) / 12
}

/// The days from 1 January to each month of a year whose February has 30 days; for January and February
/// 367 more, which a year that begins in March has before them.
const MONTH_STARTS: [u16; 13] = [0, 367, 398, 61, 92, 122, 153, 183, 214, 245, 275, 306, 336];

/// The days from 1 January before a year of March to a month of that year, if February has 30 days.
fn march_days_before_month(month: u8) -> u16
    requires { IsInRange 1 12 month }
    ensures early { month ≤ 2 → result ≡ (367 * month - 362) / 12 + 367 }
    ensures late { 3 ≤ month → result ≡ (367 * month - 362) / 12 }
{
    MONTH_STARTS[usize::from(month)]
}

/// The days of the months before a month of a year.
#[tactic(auto, using(crate::proofs::MonthLemmas::days_of_months_is))]
fn days_before_month(year: u16, month: u8) -> u16
    requires { IsInRange 1 12 month }
    ensures { result ≡ days_of_months year (month - 1) }
{
    let days = long_days_before_month(month);
    if month <= 2 {
        days
    } else if is_leap_year(year) {
        days - 1
    } else {
        days - 2
    }
}

/// The century of a day, and the day of that century, both counted from 0, the day from a 1 March on.
///
/// Four centuries have 146,097 days, so a day has 4 of 146,097 parts of a century, and the last of four
/// centuries has a day more than the others.
fn century(days: u32) -> (u32, u32)
    requires { days ≤ 3798461 }
    ensures day { 36524 * result.0 + result.0 / 4 + result.1 ≡ days }
    ensures within { result.1 ≤ 36524 }
    ensures last { result.1 ≡ 36524 → result.0 % 4 ≡ 3 }
{
    let parts = 4 * days + 3;
    (parts / CYCLE_DAYS, parts % CYCLE_DAYS / 4)
}

/// The year of a day of a century, and the day of that year, both counted from 0 and the day from 1 March
/// on. The last of four years has a day more than the others.
fn year_of_century(day: u32) -> (u32, u32)
    requires { day ≤ 36524 }
    ensures day { 365 * result.0 + result.0 / 4 + result.1 ≡ day }
    ensures year { result.0 ≤ 99 }
    ensures within { result.1 ≤ 365 }
    ensures last { result.1 ≡ 365 → result.0 % 4 ≡ 3 }
{
    let parts = 4 * day + 3;
    (parts / FOUR_YEARS_DAYS, parts % FOUR_YEARS_DAYS / 4)
}

/// The date of a day of a year, both counted from 1 March, the years from -400 on.
///
/// If February had 30 days, a line through the months would give the month of a day; so the days
/// from March on are counted as if it had.
fn day_of_year(years: u32, day: u32) -> Date
    requires first { (399 ≤ years) × (years ≡ 399 → 306 ≤ day) }
    requires last { (years ≤ 10399) × (years ≡ 10399 → day ≤ 305) }
    requires within { day ≤ 365 }
    requires leap { day ≡ 365 → IsTrue (is_leap_year (years - 399)) }
    ensures number { day_number (ymd result) + 146037 + years / 100
        ≡ 365 * years + years / 4 + years / 400 + day }
{
    let is_later = day >= JANUARY_START;
    let year = years + u32::from(is_later) - 400;
    let long_day = if is_later {
        day - JANUARY_START
    } else {
        day + 61
    };
    let scaled = 12 * long_day + 373;
    Date {
        year: year as u16,
        month: (scaled / 367) as u8,
        day: (scaled % 367 / 12 + 1) as u8,
    }
}

impl Date {
    /// The number of days from 0000-01-01 to the date: 737,790 for 2020-01-01, and 3,652,424 for
    /// 9999-12-31, the largest. [`Date::from_day_number`] is the inverse.
    ///
    /// It is the sum of the lengths of the years before the date's year, of the lengths of the months
    /// before its month in that year, and of its day less one.
    pub fn day_number(&self) -> u32
        ensures number { result ≡ day_number (ymd self.now) }
        ensures numbered { date_numbered result ≡ Some (ymd self.now) }
    {
        // A year that begins in March needs no look at whether it is leap.
        let is_early = self.month <= 2;
        let years = u32::from(self.year) + 400 - u32::from(is_early);
        let centuries = years / 100;
        let before_year = 1461 * years / 4 - centuries + centuries / 4;
        let days = before_year
            + u32::from(march_days_before_month(self.month))
            + u32::from(self.day);
        days - (DAYS_BEFORE_YEAR_0 + 62)
    }

    /// The date of a day number: 0000-02-29 for 59. It is the date that many days after 0000-01-01.
    /// `None` if the number is over 3,652,424, which is 9999-12-31.
    pub fn from_day_number(number: u32) -> Option<Self>
        ensures date { option_map ymd result ≡ date_numbered number }
        ensures number { IfSome result (λ date. day_number (ymd date) ≡ number) }
    {
        if number > LAST_DAY_NUMBER {
            return None;
        }
        Some(Self::from_number(number))
    }

    /// The date of a day number up to 3,652,424.
    pub(crate) fn from_number(number: u32) -> Self
        requires { number ≤ 3652424 }
        ensures date { ymd result ≡ date_of_number number }
        ensures number { day_number (ymd result) ≡ number }
    {
        let (century, day) = century(number + DAYS_BEFORE_YEAR_0);
        let (year, day) = year_of_century(day);
        day_of_year(100 * century + year, day)
    }

    /// The day after the date: 2000-01-01 for 1999-12-31. `None` for 9999-12-31.
    pub fn next_day(&self) -> Option<Self>
        ensures date { option_map ymd result ≡ next_date (ymd self.now) }
        ensures number { IfSome result (λ next. day_number (ymd next)
            ≡ day_number (ymd self.now) + 1) }
    {
        if self.day < month_length(self.year, self.month) {
            Some(Date {
                year: self.year,
                month: self.month,
                day: self.day + 1,
            })
        } else if self.month < 12 {
            Some(Date {
                year: self.year,
                month: self.month + 1,
                day: 1,
            })
        } else if self.year < 9999 {
            Some(Date {
                year: self.year + 1,
                month: 1,
                day: 1,
            })
        } else {
            None
        }
    }

    /// The date a number of days later, or earlier if it is negative: 2020-03-01 for 2020-02-28 and
    /// 2. `None` if that is before 0000-01-01 or after 9999-12-31. [`Date::days_since`] returns the
    /// number again.
    #[inline(always)]
    pub fn checked_add_days(&self, days: i32) -> Option<Self>
        ensures date { option_map ymd result ≡ date_added days (ymd self.now) }
        ensures counted { IfSome result (λ date. days_between (ymd self.now) (ymd date) ≡ days) }
    {
        let number = i64::from(self.day_number()) + i64::from(days);
        let number = u32::try_from(number).ok()?;
        Self::from_day_number(number)
    }

    /// The days from another date to this one: 2 for 2020-03-01 since 2020-02-28. The number is
    /// negative if this date is before the other, and 0 if the two are equal.
    /// [`Date::checked_add_days`] of the other date returns this one.
    pub fn days_since(&self, earlier: &Date) -> i32
        ensures days { result ≡ days_between (ymd earlier.now) (ymd self.now) }
        ensures leads_back { date_added result (ymd earlier.now) ≡ Some (ymd self.now) }
        ensures small { unsigned_abs result ≤ 3652424 }
        ensures order { int_cmp result (pos 0) ≡ date_order (ymd self.now) (ymd earlier.now) }
    {
        self.day_number() as i32 - earlier.day_number() as i32
    }

    /// The day of the year, 1 to 366: 366 for 2020-12-31 (ISO 8601, ordinal date).
    pub fn ordinal_day(&self) -> u16
        ensures day { result ≡ ordinal_day (ymd self.now) }
    {
        days_before_month(self.year, self.month) + u16::from(self.day)
    }
}
