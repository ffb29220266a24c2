//! Dates as C sees them.

ghost use Rattle.std.specs.Option.{option_map};
ghost use Rattle.std.specs.Prelude.{◌≡◌, ◌≢◌, ◌≤◌, length, nat_le};
ghost use Rattle.speedate.specs.Date.{ymd, date_answer, date_or_timestamp, date_text, ◌gives◌};
ghost use Rattle.speedate.specs.Calendar.{date_order, date_added};
ghost use Rattle.speedate.specs.Calendar.{days_between, month_length, ordinal_day};
ghost use Rattle.speedate.specs.Refused.{without_place};
ghost use Rattle.speedate.specs.Requirement.{result_map};
ghost use Rattle.speedate_c.specs.Written.{written_answer, written_optional_date};
ghost use Rattle.speedate_c.specs.Written.{written_text, written_value, with_option, with_value};
ghost use Rattle.speedate_c.specs.Code.{answer_code, buffer_too_small, config_out_of_range};
ghost use Rattle.speedate_c.specs.Code.{order_number, success, value_out_of_range};
ghost use Rattle.speedate_c.specs.Config.{choices_of};
ghost use Rattle.speedate_c.specs.Date.{date_of, first_day, shown_date};

mod part;
mod timestamp;

use crate::code::{NO_SUCH_DATE, SUCCESS, order_number};
use crate::config::SpeedateConfig;
use crate::text::write_text;
use speedate::{Date, ParseError, month_length};

/// The day from which columns count.
const FIRST_DAY: Date = Date {
    year: 1970,
    month: 1,
    day: 1,
};

/// A date.
#[repr(C)]
#[derive(Clone, Copy)]
pub struct SpeedateDate {
    /// The year, 0 to 9999.
    pub year: u16,
    /// The month, 1 to 12.
    pub month: u8,
    /// The day of the month, 1 to the month's length.
    pub day: u8,
}

impl SpeedateDate {
    /// The date of the numbers, or the error of the first that is out of range.
    pub(crate) fn to_value(&self) -> Result<Date, ParseError>
        ensures answer { result gives date_of self.now }
    {
        Date::new(self.year, self.month, self.day)
    }

    /// Whether the month, if it is one, has this day, if it is not 0.
    #[inline(always)]
    pub(crate) fn is_in_month(&self) -> bool
        ensures { result ≡ nat_le self.now.day (month_length self.now.year self.now.month) }
    {
        // No month is shorter than 28 days, so most days need no look at the calendar.
        self.day <= 28 || self.day <= month_length(self.year, self.month)
    }

    /// The numbers of a date.
    pub(crate) fn from_value(date: &Date) -> Self
        ensures numbers { result ≡ shown_date (ymd date.now) }
        ensures leads_back { date_of result ≡ Ok (ymd date.now) }
    {
        SpeedateDate {
            year: date.year,
            month: date.month,
            day: date.day,
        }
    }
}

/// Writes the date of an answer, and gives the code.
pub(crate) fn write_date(answer: Result<Date, ParseError>, out: &mut SpeedateDate) -> i32
    ensures after { (result, out.new) ≡ written_answer shown_date out.old (result_map ymd answer) }
{
    let date = answer_or_return!(answer);
    *out = SpeedateDate::from_value(&date);
    SUCCESS
}

/// Writes a date, if there is one, and gives the code.
fn write_some(date: Option<Date>, out: &mut SpeedateDate) -> i32
    ensures after { (result, out.new)
        ≡ written_optional_date shown_date out.old (option_map ymd date) }
{
    match date {
        Some(date) => {
            *out = SpeedateDate::from_value(&date);
            SUCCESS
        }
        None => NO_SUCH_DATE,
    }
}

/// Prints a date into a buffer, and gives the code.
fn print_date(date: &Date, buffer: &mut [u8], text_length: &mut usize) -> i32
    ensures after { (result, buffer.new, text_length.new)
        ≡ written_text (date_text (ymd date.now)) buffer.old text_length.old }
    ensures room { 11 ≤ length buffer.old → result ≡ success }
{
    write_text(date.to_text().as_str(), buffer, text_length)
}

/// Parses a date from a text, or from a timestamp in its place, in the unit of the configuration,
/// as [`Date::parse_bytes_with_config`] does: 2020-02-29 from `2020-02-29`.
///
/// The errors are that call's; `CONFIG_OUT_OF_RANGE` comes first.
#[unsafe(no_mangle)]
pub extern "C" fn speedate_date_parse_or_timestamp(
    text: &[u8],
    config: SpeedateConfig,
    out: &mut SpeedateDate,
) -> i32
    ensures answer { (result, out.new)
        ≡ with_option (choices_of config) (config_out_of_range, out.old)
        (λ config. written_answer shown_date out.old
        (without_place (date_or_timestamp config.unit text.now))) }
{
    let config = config_or_return!(config.to_date_config());
    write_date(Date::parse_bytes_with_config(text, &config), out)
}

/// Parses a date from a text, and no timestamp, as [`Date::parse_bytes_rfc3339`] does: 2020-02-29
/// from `2020-02-29`.
#[unsafe(no_mangle)]
pub extern "C" fn speedate_date_parse_text(text: &[u8], out: &mut SpeedateDate) -> i32
    ensures answer { (result, out.new)
        ≡ written_answer shown_date out.old (without_place (date_answer text.now)) }
{
    write_date(Date::parse_bytes_rfc3339(text), out)
}

/// Whether the numbers are a date, as [`Date::new`] says: `SUCCESS`, or the error of the first
/// number that is out of range, `OutOfRangeDay` for 2021-02-29.
#[unsafe(no_mangle)]
pub extern "C" fn speedate_date_check(date: SpeedateDate) -> i32
    ensures answer { result ≡ answer_code (date_of date) }
{
    code_of!(date.to_value())
}

/// Prints a date into a buffer, with a zero byte after it, as [`Date::to_text`] gives it:
/// `2020-02-29`. `VALUE_OUT_OF_RANGE` comes before `BUFFER_TOO_SMALL`.
#[unsafe(no_mangle)]
pub extern "C" fn speedate_date_to_text(
    date: SpeedateDate,
    buffer: &mut [u8],
    text_length: &mut usize,
) -> i32
    ensures answer { (result, buffer.new, text_length.new)
        ≡ with_value (date_of date) (value_out_of_range, buffer.old, text_length.old)
        (λ date. written_text (date_text date) buffer.old text_length.old) }
    ensures room { 11 ≤ length buffer.old → result ≢ buffer_too_small }
{
    let date = value_or_return!(date);
    print_date(&date, buffer, text_length)
}

/// Compares two dates, as [`Date::cmp`] does: -1 if the first is the earlier one, 0 if they
/// are equal, otherwise 1.
#[unsafe(no_mangle)]
pub extern "C" fn speedate_date_compare(
    first: SpeedateDate,
    second: SpeedateDate,
    out: &mut i32,
) -> i32
    ensures answer { (result, out.new) ≡ with_value (date_of first) (value_out_of_range, out.old)
        (λ first. with_value (date_of second) (value_out_of_range, out.old)
        (λ second. written_value (order_number (date_order first second)))) }
{
    write_of!(first, second => *out = order_number(first.cmp(&second)))
}

/// The number of days from 1970-01-01 to a date, as [`Date::days_since`] gives it: 1 for 1970-01-02.
#[unsafe(no_mangle)]
pub extern "C" fn speedate_date_days(date: SpeedateDate, out: &mut i32) -> i32
    ensures answer { (result, out.new) ≡ with_value (date_of date) (value_out_of_range, out.old)
        (λ date. written_value (days_between first_day date)) }
{
    write_of!(date => *out = date.days_since(&FIRST_DAY))
}

/// The date that many days after 1970-01-01, or before it for a negative number, as
/// [`Date::checked_add_days`] gives it: 1969-12-31 for -1. `NO_SUCH_DATE` if that is before 0000-01-01
/// or after 9999-12-31.
#[unsafe(no_mangle)]
pub extern "C" fn speedate_date_from_days(days: i32, out: &mut SpeedateDate) -> i32
    ensures answer { (result, out.new)
        ≡ written_optional_date shown_date out.old (date_added days first_day) }
{
    write_some(FIRST_DAY.checked_add_days(days), out)
}

/// The day of the year, as [`Date::ordinal_day`] gives it: 366 for 2020-12-31.
#[unsafe(no_mangle)]
pub extern "C" fn speedate_date_ordinal_day(date: SpeedateDate, out: &mut u16) -> i32
    ensures answer { (result, out.new) ≡ with_value (date_of date) (value_out_of_range, out.old)
        (λ date. written_value (ordinal_day date)) }
{
    write_of!(date => *out = date.ordinal_day())
}

/// The date that many days later, or earlier for a negative number, as [`Date::checked_add_days`]
/// gives it: 2020-03-01 for 2020-02-28 and 2. `NO_SUCH_DATE` if that is before 0000-01-01 or
/// after 9999-12-31.
#[unsafe(no_mangle)]
pub extern "C" fn speedate_date_add_days(
    date: SpeedateDate,
    days: i32,
    out: &mut SpeedateDate,
) -> i32
    ensures answer { (result, out.new) ≡ with_value (date_of date) (value_out_of_range, out.old)
        (λ date. written_optional_date shown_date out.old (date_added days date)) }
{
    let date = value_or_return!(date);
    write_some(date.checked_add_days(days), out)
}

/// The days from one date to another, as [`Date::days_since`] gives them: 2 from 2020-02-28 to
/// 2020-03-01. They are negative if `later` is the earlier one.
#[unsafe(no_mangle)]
pub extern "C" fn speedate_date_days_between(
    earlier: SpeedateDate,
    later: SpeedateDate,
    out: &mut i32,
) -> i32
    ensures answer { (result, out.new) ≡ with_value (date_of earlier) (value_out_of_range, out.old)
        (λ earlier. with_value (date_of later) (value_out_of_range, out.old)
        (λ later. written_value (days_between earlier later))) }
{
    write_of!(earlier, later => *out = later.days_since(&earlier))
}
