//! Date-times as C sees them.

ghost use Rattle.std.specs.Prelude.{◌≡◌, ◌≢◌, ◌≤◌, if◌then◌else◌, length, true};
ghost use Rattle.std.specs.Ordering.{int_eq};
ghost use Rattle.speedate.specs.DateTime.{date_and_time, date_time_answer, date_time_text};
ghost use Rattle.speedate.specs.DateTime.{date_time_or_timestamp};
ghost use Rattle.speedate.specs.DateTime.{date_time_instant_order, date_time_in_timezone, ◌gives◌};
ghost use Rattle.speedate.specs.Requirement.{result_map};
ghost use Rattle.speedate.specs.Refused.{without_place};
ghost use Rattle.speedate.specs.Strict.{strict_date_time_answer};
ghost use Rattle.speedate_c.specs.Written.{written_answer, written_text};
ghost use Rattle.speedate_c.specs.Written.{written_value, with_option, with_value};
ghost use Rattle.speedate_c.specs.Code.{answer_code, buffer_too_small, config_out_of_range};
ghost use Rattle.speedate_c.specs.Code.{order_number, success, value_out_of_range};
ghost use Rattle.speedate_c.specs.Config.{choices_of};
ghost use Rattle.speedate.specs.DateTime.{date_time_text_with};
ghost use Rattle.speedate_c.specs.DateTime.{IsInRanges, date_time_of, shown_date_time};
ghost use Rattle.speedate_c.specs.Time.{digits_auto, fraction_digits_of};

mod part;
mod timestamp;

use crate::code::{SUCCESS, VALUE_OUT_OF_RANGE, order_number};
use crate::config::SpeedateConfig;
use crate::date::SpeedateDate;
use crate::ranges::are_in_ranges;
use crate::text::write_text;
use crate::time::{DIGITS_AUTO, SpeedateTime, fraction_digits};
use arrayvec::ArrayString;
use speedate::{Date, DateTime, ParseError, Time};

/// The smallest numbers of a date-time: the two bytes of its year, the month, the day, the hour, the minute,
/// the second and the flag of its offset.
const LOWEST: [u8; 8] = [0, 0, 1, 1, 0, 0, 0, 0];

/// The largest of them.
const HIGHEST: [u8; 8] = [255, 255, 12, 31, 23, 59, 59, 1];

/// How many bytes the longest text of a date-time has.
const TEXT_MAX: usize = 32;

/// A date and a time of day, with an offset from UTC or without one.
#[repr(C)]
#[derive(Clone, Copy)]
pub struct SpeedateDateTime {
    /// The date, as a clock at the offset shows it.
    pub date: SpeedateDate,
    /// The time of day, as that clock shows it, and the offset.
    pub time: SpeedateTime,
}

impl SpeedateDateTime {
    /// The date-time of the numbers, or the error of one that is out of range: the date is looked
    /// at first.
    #[inline(always)]
    pub(crate) fn to_value(&self) -> Result<DateTime, ParseError>
        ensures answer { result gives date_time_of self.now }
    {
        if !self.has_value() {
            return self.by_parts();
        }
        Ok(DateTime {
            date: Date {
                year: self.date.year,
                month: self.date.month,
                day: self.date.day,
            },
            time: Time {
                hour: self.time.hour,
                minute: self.time.minute,
                second: self.time.second,
                microsecond: self.time.microsecond,
                tz_offset: self.time.tz_offset(),
            },
        })
    }

    /// Whether each number is in its range. Those of one byte are tested at once.
    #[inline(always)]
    fn has_value(&self) -> bool
        ensures ranges { result ≡ true → IsInRanges self.now }
    {
        let (date, time) = (self.date, self.time);
        let [low, high] = date.year.to_le_bytes();
        let numbers = [
            low,
            high,
            date.month,
            date.day,
            time.hour,
            time.minute,
            time.second,
            time.has_offset,
        ];
        if date.year > 9999 {
            return false;
        }
        if time.microsecond > 999_999 {
            return false;
        }
        if !are_in_ranges(numbers, LOWEST, HIGHEST) {
            return false;
        }
        if !date.is_in_month() {
            return false;
        }
        time.has_near_offset()
    }

    /// What [`SpeedateDateTime::to_value`] gives, from number to number, for the error.
    #[cold]
    #[inline(never)]
    fn by_parts(self) -> Result<DateTime, ParseError>
        ensures answer { result gives date_time_of self }
    {
        let date = self.date.to_value()?;
        let time = self.time.to_value()?;
        Ok(DateTime { date, time })
    }

    /// The numbers of a date-time.
    fn from_value(value: &DateTime) -> Self
        ensures numbers { result ≡ shown_date_time (date_and_time value.now) }
        ensures leads_back { date_time_of result ≡ Ok (date_and_time value.now) }
    {
        SpeedateDateTime {
            date: SpeedateDate::from_value(&value.date),
            time: SpeedateTime::from_value(&value.time),
        }
    }
}

/// Writes the date-time of an answer, and gives the code.
pub(crate) fn write_date_time(
    answer: Result<DateTime, ParseError>,
    out: &mut SpeedateDateTime,
) -> i32
    ensures after { (result, out.new)
        ≡ written_answer shown_date_time out.old (result_map date_and_time answer) }
{
    let value = answer_or_return!(answer);
    *out = SpeedateDateTime::from_value(&value);
    SUCCESS
}

/// Parses a date-time from a text, or from a timestamp in its place, as
/// [`DateTime::parse_bytes_with_config`] does: 12:13:14 on 29 February 2020 from
/// `2020-02-29T12:13:14`.
///
/// The errors are that call's; `CONFIG_OUT_OF_RANGE` comes first.
#[unsafe(no_mangle)]
pub extern "C" fn speedate_datetime_parse_or_timestamp(
    text: &[u8],
    config: SpeedateConfig,
    out: &mut SpeedateDateTime,
) -> i32
    ensures answer { (result, out.new)
        ≡ with_option (choices_of config) (config_out_of_range, out.old)
        (λ config. written_answer shown_date_time out.old
        (without_place
        (date_time_or_timestamp config.unit config.behavior config.offset text.now))) }
{
    let config = config_or_return!(config.to_config());
    write_date_time(DateTime::parse_bytes_with_config(text, &config), out)
}

/// Parses a date-time from a text, and no timestamp, as
/// [`DateTime::parse_bytes_rfc3339_with_config`] does: 12:13 on 1 January 2020 from
/// `2020-01-01_12:13`. `CONFIG_OUT_OF_RANGE` comes first.
#[unsafe(no_mangle)]
pub extern "C" fn speedate_datetime_parse_text(
    text: &[u8],
    config: SpeedateConfig,
    out: &mut SpeedateDateTime,
) -> i32
    ensures answer { (result, out.new)
        ≡ with_option (choices_of config) (config_out_of_range, out.old)
        (λ config. written_answer shown_date_time out.old
        (without_place (date_time_answer config.behavior text.now))) }
{
    let config = config_or_return!(config.to_config());
    let answer = DateTime::parse_bytes_rfc3339_with_config(text, &config.time_config);
    write_date_time(answer, out)
}

/// Parses a date-time from a text of RFC 3339, and no timestamp, as [`DateTime::parse_bytes_strict`]
/// does by the behavior of a configuration: 12:13:14 on 29 February 2020 in UTC from
/// `2020-02-29T12:13:14Z`. `CONFIG_OUT_OF_RANGE` comes first.
#[unsafe(no_mangle)]
pub extern "C" fn speedate_datetime_parse_strict(
    text: &[u8],
    config: SpeedateConfig,
    out: &mut SpeedateDateTime,
) -> i32
    ensures answer { (result, out.new)
        ≡ with_option (choices_of config) (config_out_of_range, out.old)
        (λ config. written_answer shown_date_time out.old
        (without_place (strict_date_time_answer config.behavior text.now))) }
{
    let config = config_or_return!(config.to_config());
    let behavior = config.time_config.microseconds_precision_overflow_behavior;
    write_date_time(DateTime::parse_bytes_strict(text, behavior), out)
}

/// Whether the numbers are a date-time: `SUCCESS`, or the error of a number that is out of range.
/// The date is looked at first.
#[unsafe(no_mangle)]
pub extern "C" fn speedate_datetime_check(value: SpeedateDateTime) -> i32
    ensures answer { result ≡ answer_code (date_time_of value) }
{
    code_of!(value.to_value())
}

/// Prints a date-time into a buffer, with a zero byte after it, with digits as
/// [`speedate_time_to_text`](crate::time::speedate_time_to_text) prints a time:
/// `2020-02-29T12:13:14.500000+01:30`, and `2020-02-29T12:13:14.500+01:30` with 3.
///
/// `VALUE_OUT_OF_RANGE`, also for another number of digits, comes before `BUFFER_TOO_SMALL`.
#[unsafe(no_mangle)]
pub extern "C" fn speedate_datetime_to_text(
    value: SpeedateDateTime,
    digits: i32,
    buffer: &mut [u8],
    text_length: &mut usize,
) -> i32
    ensures answer { (result, buffer.new, text_length.new)
        ≡ if int_eq digits digits_auto
        then with_value (date_time_of value) (value_out_of_range, buffer.old, text_length.old)
        (λ value. written_text (date_time_text value) buffer.old text_length.old)
        else with_option (fraction_digits_of digits)
        (value_out_of_range, buffer.old, text_length.old)
        (λ digits. with_value (date_time_of value)
        (value_out_of_range, buffer.old, text_length.old)
        (λ value. written_text (date_time_text_with digits value) buffer.old text_length.old)) }
    ensures room { 33 ≤ length buffer.old → result ≢ buffer_too_small }
{
    if digits != DIGITS_AUTO {
        return print_with_digits(&value, digits, buffer, text_length);
    }
    let value = value_or_return!(value);
    let DateTime { date, time } = value;
    print_by_parts!(time, time => print_date_time(&DateTime { date, time }, buffer, text_length))
}

/// Prints a date-time with that many digits after the second, and gives the code.
fn print_with_digits(
    value: &SpeedateDateTime,
    digits: i32,
    buffer: &mut [u8],
    text_length: &mut usize,
) -> i32
    ensures after { (result, buffer.new, text_length.new)
        ≡ with_option (fraction_digits_of digits) (value_out_of_range, buffer.old, text_length.old)
        (λ digits. with_value (date_time_of value.now)
        (value_out_of_range, buffer.old, text_length.old)
        (λ value. written_text (date_time_text_with digits value) buffer.old text_length.old)) }
    ensures room { 33 ≤ length buffer.old → result ≢ buffer_too_small }
{
    let Some(digits) = fraction_digits(digits) else {
        return VALUE_OUT_OF_RANGE;
    };
    let value = value_or_return!(value);
    let text = value.to_text_with_digits(digits);
    write_text(text.as_str(), buffer, text_length)
}

/// Prints a date-time into a buffer, and gives the code.
#[inline(always)]
fn print_date_time(value: &DateTime, buffer: &mut [u8], text_length: &mut usize) -> i32
    ensures after { (result, buffer.new, text_length.new)
        ≡ written_text (date_time_text (date_and_time value.now)) buffer.old text_length.old }
    ensures room { 33 ≤ length buffer.old → result ≡ success }
{
    let mut text = ArrayString::<TEXT_MAX>::new();
    value.push_onto(&mut text);
    write_text(text.as_str(), buffer, text_length)
}

/// Compares two date-times by their instants, as [`DateTime::cmp_instant`] does: -1 if the first
/// is the earlier one, 0 if they are the same instant, otherwise 1.
#[unsafe(no_mangle)]
pub extern "C" fn speedate_datetime_compare(
    first: SpeedateDateTime,
    second: SpeedateDateTime,
    out: &mut i32,
) -> i32
    ensures answer { (result, out.new)
        ≡ with_value (date_time_of first) (value_out_of_range, out.old)
        (λ first. with_value (date_time_of second) (value_out_of_range, out.old)
        (λ second. written_value (order_number (date_time_instant_order first second)))) }
{
    write_of!(first, second => *out = order_number(first.cmp_instant(&second)))
}

/// The date-time at the same instant, as a clock at another offset shows it, as
/// [`DateTime::in_timezone`] gives it: 2020-01-02T00:30:00+01:00 for 2020-01-01T23:30:00Z and
/// 3,600.
///
/// `VALUE_OUT_OF_RANGE` is the date-time's; the errors of that call follow, with `OutOfRangeTz` for
/// an offset of 24 hours or more.
#[unsafe(no_mangle)]
pub extern "C" fn speedate_datetime_in_timezone(
    value: SpeedateDateTime,
    offset: i32,
    out: &mut SpeedateDateTime,
) -> i32
    ensures answer { (result, out.new)
        ≡ with_value (date_time_of value) (value_out_of_range, out.old)
        (λ value. written_answer shown_date_time out.old (date_time_in_timezone offset value)) }
{
    let value = value_or_return!(value);
    write_date_time(value.in_timezone(offset), out)
}
