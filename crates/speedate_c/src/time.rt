//! Times of day as C sees them.

ghost use Rattle.std.specs.Prelude.{◌≡◌, ◌≢◌, ◌≤◌, if◌then◌else◌, length, true};
ghost use Rattle.std.specs.Ordering.{int_eq};
ghost use Rattle.std.specs.Option.{ForSome, option_map_or};
ghost use Rattle.speedate.specs.Offset.{IsOffset, is_offset};
ghost use Rattle.speedate.specs.Requirement.{result_map};
ghost use Rattle.speedate.specs.Time.{time_of_day, millisecond_of_day, second_of_day, time_answer};
ghost use Rattle.speedate.specs.Time.{time_text, ◌gives◌, time_instant_order};
ghost use Rattle.speedate.specs.Time.{time_in_timezone};
ghost use Rattle.speedate.specs.Refused.{without_place};
ghost use Rattle.speedate.specs.Strict.{strict_time_answer};
ghost use Rattle.speedate_c.specs.Written.{written_answer, written_text};
ghost use Rattle.speedate_c.specs.Written.{written_value, with_option, with_value};
ghost use Rattle.speedate_c.specs.Code.{answer_code, buffer_too_small, config_out_of_range};
ghost use Rattle.speedate_c.specs.Code.{order_number, success, value_out_of_range};
ghost use Rattle.speedate_c.specs.Config.{choices_of};
ghost use Rattle.speedate.specs.Time.{time_text_with};
ghost use Rattle.speedate_c.specs.Time.{attached_offset, digits_auto, fraction_digits_of, shown_time, time_of};

mod part;
mod timestamp;

use crate::code::{SUCCESS, VALUE_OUT_OF_RANGE, order_number};
use crate::config::{SpeedateConfig, offset};
use crate::text::write_text;
use arrayvec::ArrayString;
use speedate::{FractionDigits, ParseError, Time};

/// How many bytes the longest text of a time has.
const TEXT_MAX: usize = 21;

/// The number of digits for six after the second, or none if the microsecond is 0.
pub(crate) const DIGITS_AUTO: i32 = -1;

/// A time of day, with an offset from UTC or without one.
#[repr(C)]
#[derive(Clone, Copy)]
pub struct SpeedateTime {
    /// The hour, 0 to 23.
    pub hour: u8,
    /// The minute, 0 to 59.
    pub minute: u8,
    /// The second, 0 to 59.
    pub second: u8,
    /// Whether there is an offset: 1, or 0.
    pub has_offset: u8,
    /// The microsecond, 0 to 999,999.
    pub microsecond: u32,
    /// The offset from UTC in seconds, less than 24 hours; 0 if there is none.
    pub offset: i32,
}

impl SpeedateTime {
    /// The time of the numbers, or the error of one that is out of range.
    pub(crate) fn to_value(&self) -> Result<Time, ParseError>
        ensures answer { result gives time_of self.now }
    {
        let clock = Time::new(self.hour, self.minute, self.second, self.microsecond, None)?;
        clock.with_timezone_offset(offset(self.has_offset, self.offset)?)
    }

    /// The offset, if there is one.
    #[inline(always)]
    pub(crate) fn tz_offset(&self) -> Option<i32>
        ensures { result ≡ attached_offset self.now }
    {
        if self.has_offset == 0 {
            None
        } else {
            Some(self.offset)
        }
    }

    /// Whether the offset, if there is one, is less than 24 hours.
    #[inline(always)]
    pub(crate) fn has_near_offset(&self) -> bool
        ensures { result ≡ option_map_or is_offset (attached_offset self.now) true }
    {
        self.has_offset == 0 || self.offset.unsigned_abs() < 86_400
    }

    /// The numbers of a time.
    pub(crate) fn from_value(time: &Time) -> Self
        ensures numbers { result ≡ shown_time (time_of_day time.now) }
        ensures leads_back { time_of result ≡ Ok (time_of_day time.now) }
    {
        let (has_offset, offset) = match time.tz_offset {
            Some(seconds) => (1, seconds),
            None => (0, 0),
        };
        SpeedateTime {
            hour: time.hour,
            minute: time.minute,
            second: time.second,
            has_offset,
            microsecond: time.microsecond,
            offset,
        }
    }
}

/// Writes the time of an answer, and gives the code.
fn write_time(answer: Result<Time, ParseError>, out: &mut SpeedateTime) -> i32
    ensures after { (result, out.new)
        ≡ written_answer shown_time out.old (result_map time_of_day answer) }
{
    let time = answer_or_return!(answer);
    *out = SpeedateTime::from_value(&time);
    SUCCESS
}

/// Parses a time from a text under a configuration, as [`Time::parse_bytes_with_config`] does:
/// 12:13:14.5, an hour east of UTC, from `12:13:14.5+01:00`.
///
/// The errors are that call's; `CONFIG_OUT_OF_RANGE` comes first.
#[unsafe(no_mangle)]
pub extern "C" fn speedate_time_parse_text(
    text: &[u8],
    config: SpeedateConfig,
    out: &mut SpeedateTime,
) -> i32
    ensures answer { (result, out.new)
        ≡ with_option (choices_of config) (config_out_of_range, out.old)
        (λ config. written_answer shown_time out.old
        (without_place (time_answer config.behavior text.now))) }
{
    let config = config_or_return!(config.to_config());
    let time = Time::parse_bytes_with_config(text, &config.time_config);
    write_time(time, out)
}

/// Parses a time from a text of RFC 3339, as [`Time::parse_bytes_strict`] does by the behavior of a
/// configuration: 12:13:14.5, an hour east of UTC, from `12:13:14.5+01:00`.
///
/// The errors are that call's; `CONFIG_OUT_OF_RANGE` comes first.
#[unsafe(no_mangle)]
pub extern "C" fn speedate_time_parse_strict(
    text: &[u8],
    config: SpeedateConfig,
    out: &mut SpeedateTime,
) -> i32
    ensures answer { (result, out.new)
        ≡ with_option (choices_of config) (config_out_of_range, out.old)
        (λ config. written_answer shown_time out.old
        (without_place (strict_time_answer config.behavior text.now))) }
{
    let config = config_or_return!(config.to_config());
    let behavior = config.time_config.microseconds_precision_overflow_behavior;
    write_time(Time::parse_bytes_strict(text, behavior), out)
}

/// Whether the numbers are a time, as [`Time::new`] says: `SUCCESS`, or the error of the first
/// number that is out of range. `OutOfRangeTz`, for the offset or its flag, comes last.
#[unsafe(no_mangle)]
pub extern "C" fn speedate_time_check(time: SpeedateTime) -> i32
    ensures answer { result ≡ answer_code (time_of time) }
{
    code_of!(time.to_value())
}

/// Prints a time into a buffer, with a zero byte after it: with -1 digits as [`Time::to_text`] does,
/// `12:13:14.500000+01:30`, and otherwise with 0, 3 or 6 digits after the second, rounded down, as
/// [`Time::to_text_with_digits`] does, `12:13:14.500+01:30` with 3.
///
/// `VALUE_OUT_OF_RANGE`, also for another number of digits, comes before `BUFFER_TOO_SMALL`.
#[unsafe(no_mangle)]
pub extern "C" fn speedate_time_to_text(
    time: SpeedateTime,
    digits: i32,
    buffer: &mut [u8],
    text_length: &mut usize,
) -> i32
    ensures answer { (result, buffer.new, text_length.new)
        ≡ if int_eq digits digits_auto
        then with_value (time_of time) (value_out_of_range, buffer.old, text_length.old)
        (λ time. written_text (time_text time) buffer.old text_length.old)
        else with_option (fraction_digits_of digits)
        (value_out_of_range, buffer.old, text_length.old)
        (λ digits. with_value (time_of time) (value_out_of_range, buffer.old, text_length.old)
        (λ time. written_text (time_text_with digits time) buffer.old text_length.old)) }
    ensures room { 22 ≤ length buffer.old → result ≢ buffer_too_small }
{
    if digits != DIGITS_AUTO {
        return print_with_digits(&time, digits, buffer, text_length);
    }
    let time = value_or_return!(time);
    print_by_parts!(time, parts => print_time(&parts, buffer, text_length))
}

/// Prints a time with that many digits after the second, and gives the code.
fn print_with_digits(
    time: &SpeedateTime,
    digits: i32,
    buffer: &mut [u8],
    text_length: &mut usize,
) -> i32
    ensures after { (result, buffer.new, text_length.new)
        ≡ with_option (fraction_digits_of digits) (value_out_of_range, buffer.old, text_length.old)
        (λ digits. with_value (time_of time.now) (value_out_of_range, buffer.old, text_length.old)
        (λ time. written_text (time_text_with digits time) buffer.old text_length.old)) }
    ensures room { 22 ≤ length buffer.old → result ≢ buffer_too_small }
{
    let Some(digits) = fraction_digits(digits) else {
        return VALUE_OUT_OF_RANGE;
    };
    let time = value_or_return!(time);
    let text = time.to_text_with_digits(digits);
    write_text(text.as_str(), buffer, text_length)
}

/// The digits of a fraction that a number asks for.
pub(crate) fn fraction_digits(number: i32) -> Option<FractionDigits>
    ensures digits { result ≡ fraction_digits_of number }
{
    match number {
        0 => Some(FractionDigits::Zero),
        3 => Some(FractionDigits::Three),
        6 => Some(FractionDigits::Six),
        _ => None,
    }
}

/// A time with another microsecond and another offset.
#[inline(always)]
pub(crate) fn with_parts(time: &Time, microsecond: u32, tz_offset: Option<i32>) -> Time
    requires microsecond { microsecond ≤ 999999 }
    requires offset { ForSome tz_offset IsOffset }
    ensures time { time_of_day result
        ≡ record (time_of_day time.now) { microsecond = microsecond; offset = tz_offset } }
{
    Time {
        hour: time.hour,
        minute: time.minute,
        second: time.second,
        microsecond,
        tz_offset,
    }
}

/// Prints a time into a buffer, and gives the code.
#[inline(always)]
fn print_time(time: &Time, buffer: &mut [u8], text_length: &mut usize) -> i32
    ensures after { (result, buffer.new, text_length.new)
        ≡ written_text (time_text (time_of_day time.now)) buffer.old text_length.old }
    ensures room { 22 ≤ length buffer.old → result ≡ success }
{
    let mut text = ArrayString::<TEXT_MAX>::new();
    time.push_onto(&mut text);
    write_text(text.as_str(), buffer, text_length)
}

/// Compares two times by their instants, as [`Time::cmp_instant`] does: -1 if the first is the
/// earlier one, 0 if they are the same instant, otherwise 1.
#[unsafe(no_mangle)]
pub extern "C" fn speedate_time_compare(
    first: SpeedateTime,
    second: SpeedateTime,
    out: &mut i32,
) -> i32
    ensures answer { (result, out.new) ≡ with_value (time_of first) (value_out_of_range, out.old)
        (λ first. with_value (time_of second) (value_out_of_range, out.old)
        (λ second. written_value (order_number (time_instant_order first second)))) }
{
    write_of!(first, second => *out = order_number(first.cmp_instant(&second)))
}

/// The seconds since midnight, as [`Time::total_seconds`] gives them: 43,994 for 12:13:14.5.
#[unsafe(no_mangle)]
pub extern "C" fn speedate_time_total_seconds(time: SpeedateTime, out: &mut u32) -> i32
    ensures answer { (result, out.new) ≡ with_value (time_of time) (value_out_of_range, out.old)
        (λ time. written_value (second_of_day time)) }
{
    write_of!(time => *out = time.total_seconds())
}

/// The milliseconds since midnight, rounded down, as [`Time::total_ms`] gives them: 43,994,500 for
/// 12:13:14.5.
#[unsafe(no_mangle)]
pub extern "C" fn speedate_time_total_ms(time: SpeedateTime, out: &mut u32) -> i32
    ensures answer { (result, out.new) ≡ with_value (time_of time) (value_out_of_range, out.old)
        (λ time. written_value (millisecond_of_day time)) }
{
    write_of!(time => *out = time.total_ms())
}

/// The time at the same instant, as a clock at another offset shows it, as [`Time::in_timezone`]
/// gives it: 16:00:00+01:00 for 15:00:00Z and 3,600.
///
/// `VALUE_OUT_OF_RANGE` is the time's; the errors of that call follow, with `OutOfRangeTz` for an
/// offset of 24 hours or more.
#[unsafe(no_mangle)]
pub extern "C" fn speedate_time_in_timezone(
    time: SpeedateTime,
    offset: i32,
    out: &mut SpeedateTime,
) -> i32
    ensures answer { (result, out.new) ≡ with_value (time_of time) (value_out_of_range, out.old)
        (λ time. written_answer shown_time out.old (time_in_timezone offset time)) }
{
    let time = value_or_return!(time);
    write_time(time.in_timezone(offset), out)
}
