//! Dates of the Gregorian calendar, from 0000-01-01 to 9999-12-31.

ghost use Rattle.std.specs.Prelude.{◌≡◌, ◌≤◌};
ghost use Rattle.std.specs.Int.{is_in_range, IsInRange};
ghost use Rattle.speedate_civil.specs.Calendar.{month_length, is_leap_year};

mod day_number;
mod error_place;
mod order;
mod parse;
mod text;
mod timestamp;

pub(crate) use parse::may_be_number;
use speedate_base::faults::ParseError;
use text::TEXT_LENGTH;

/// A day of the Gregorian calendar, which is carried back to the year 0: 0000-01-01 to 9999-12-31.
///
/// It is parsed by [`Date::parse_str`], or without timestamps by [`Date::parse_str_rfc3339`], and made
/// from numbers by [`Date::new`]. It is printed as `YYYY-MM-DD`, as `2020-02-29`: Display writes this
/// text, whatever width and fill are asked for.
///
/// The type holds days of the calendar and nothing else: the check proves it at each literal, and for a
/// constant where it is used. Both are written as in Rust:
/// `const NEW_YEAR: Date = Date { year: 2020, month: 1, day: 1 };`.
///
/// `<` and [`Date::cmp`] order dates. It does not implement `Hash`; [`Date::day_number`] serves as
/// a key, since no two dates have the same.
#[derive(Clone, Copy, Debug, PartialEq, Eq)]
pub struct Date {
    /// The year, 0 to 9999.
    pub year: u16,
    /// The month, 1 to 12.
    pub month: u8,
    /// The day of the month, 1 to the month's length.
    pub day: u8,
    pub ghost year_in_range: { year ≤ 9999 },
    pub ghost month_in_range: { IsInRange 1 12 month },
    pub ghost day_in_range: { IsInRange 1 (month_length year month) day },
}

/// Whether a year has a 29 February: true for 2020 and 2000, false for 2021 and 1900. The rule is
/// RFC 3339, appendix C, for any year.
pub fn is_leap_year(year: u16) -> bool
    ensures leap { result ≡ is_leap_year year }
{
    if year % 100 == 0 {
        year % 400 == 0
    } else {
        year % 4 == 0
    }
}

/// The number of days of a month, 1 to 12, of a year: 29 for 2020 and 2, 30 for 2020 and 4 (RFC
/// 3339 5.7). It is 31 for a number that is not a month.
pub fn month_length(year: u16, month: u8) -> u8
    ensures length { result ≡ month_length year month }
{
    match month {
        2 => if is_leap_year(year) { 29 } else { 28 },
        4 | 6 | 9 | 11 => 30,
        _ => 31,
    }
}

/// Whether a month of a year has such a day.
fn is_day(year: u16, month: u8, day: u8) -> bool
    ensures { result ≡ is_in_range 1 (month_length year month) day }
{
    // No month is shorter than 28 days, so most days need no look at the calendar.
    day >= 1 && (day <= 28 || day <= month_length(year, month))
}

impl Date {
    ghost use Rattle.speedate_civil.specs.Date.{◌gives◌, new_date_answer};

    /// The date of a year, a month and a day: 2020-02-29 for 2020, 2 and 29.
    ///
    /// # Errors
    ///
    /// In the order in which they are looked for:
    ///
    /// - `DateTooLarge` if the year is over 9999;
    /// - `OutOfRangeMonth` if the month is not 1 to 12;
    /// - `OutOfRangeDay` if the month does not have this day.
    pub fn new(year: u16, month: u8, day: u8) -> Result<Self, ParseError>
        ensures answer { result gives new_date_answer year month day }
    {
        if year > 9999 {
            return Err(ParseError::DateTooLarge);
        }
        if month < 1 || month > 12 {
            return Err(ParseError::OutOfRangeMonth);
        }
        if !is_day(year, month, day) {
            return Err(ParseError::OutOfRangeDay);
        }
        Ok(Date { year, month, day })
    }
}
