//! Durations as C sees them.

ghost use Rattle.std.specs.Prelude.{◌≡◌, ◌≢◌, ◌≤◌, ◌↔◌, IsOk, if◌then◌else◌, length, nat_le};
ghost use Rattle.speedate.specs.Refused.{without_place};
ghost use Rattle.speedate.specs.Duration.{duration_numbers, duration_answer, duration_text};
ghost use Rattle.speedate.specs.Duration.{◌gives◌};
ghost use Rattle.speedate.specs.DurationNumbers.{IsDuration, normal_form, signed_microsecond};
ghost use Rattle.speedate.specs.DurationNumbers.{signed_milliseconds, signed_seconds};
ghost use Rattle.speedate.specs.DurationNumbers.{duration_order};
ghost use Rattle.speedate.specs.Requirement.{result_map};
ghost use Rattle.speedate_c.specs.Written.{written_answer, written_text, written_value};
ghost use Rattle.speedate_c.specs.Written.{with_option, with_value};
ghost use Rattle.speedate_c.specs.Code.{answer_code, buffer_too_small, config_out_of_range};
ghost use Rattle.speedate_c.specs.Code.{order_number, value_out_of_range};
ghost use Rattle.speedate_c.specs.Config.{choices_of};
ghost use Rattle.speedate_c.specs.Duration.{duration_of, numbers_of, shown_duration};

mod part;

use crate::code::{SUCCESS, VALUE_OUT_OF_RANGE, order_number};
use crate::config::SpeedateConfig;
use crate::text::write_text;
use arrayvec::ArrayString;
use speedate::{DAYS_MAX, Duration, ParseError};

/// How many bytes the longest text of a duration has.
const TEXT_MAX: usize = 31;

/// A duration: days of 86,400 seconds, seconds of a day, and microseconds of a second, with a sign.
#[repr(C)]
#[derive(Clone, Copy)]
pub struct SpeedateDuration {
    /// Whether it is negative: 1, or 0.
    pub negative: u32,
    /// The days, 0 to 999,999,999.
    pub day: u32,
    /// The seconds of a day, 0 to 86,399.
    pub second: u32,
    /// The microseconds of a second, 0 to 999,999.
    pub microsecond: u32,
}

impl SpeedateDuration {
    /// The duration of the numbers, or the error of the first that is out of range.
    pub(crate) fn to_value(&self) -> Result<Duration, ParseError>
        ensures answer { result gives duration_of self.now }
        ensures ranges { IsOk result
            ↔ ((self.now.negative ≤ 1) × IsDuration (numbers_of self.now)) }
    {
        if self.negative > 1 {
            return Err(ParseError::DurationValueTooLarge);
        }
        if self.day > DAYS_MAX {
            return Err(ParseError::DurationDaysTooLarge);
        }
        if self.second >= 86_400 || self.microsecond > 999_999 {
            return Err(ParseError::DurationValueTooLarge);
        }
        Ok(Duration {
            positive: self.negative == 0,
            day: self.day,
            second: self.second,
            microsecond: self.microsecond,
        })
    }

    /// The numbers of a duration.
    pub(crate) fn from_value(duration: &Duration) -> Self
        ensures numbers { result ≡ shown_duration (duration_numbers duration.now) }
        ensures leads_back { duration_of result ≡ Ok (duration_numbers duration.now) }
    {
        SpeedateDuration {
            negative: if duration.positive { 0 } else { 1 },
            day: duration.day,
            second: duration.second,
            microsecond: duration.microsecond,
        }
    }
}

/// Writes the duration of an answer, and gives the code.
pub(crate) fn write_duration(
    answer: Result<Duration, ParseError>,
    out: &mut SpeedateDuration,
) -> i32
    ensures after { (result, out.new)
        ≡ written_answer shown_duration out.old (result_map duration_numbers answer) }
{
    let duration = answer_or_return!(answer);
    *out = SpeedateDuration::from_value(&duration);
    SUCCESS
}

/// Parses a duration from a text under a configuration, as [`Duration::parse_bytes_with_config`]
/// does: an hour and a half from `PT90M`.
///
/// The errors are that call's; `CONFIG_OUT_OF_RANGE` comes first.
#[unsafe(no_mangle)]
pub extern "C" fn speedate_duration_parse_text(
    text: &[u8],
    config: SpeedateConfig,
    out: &mut SpeedateDuration,
) -> i32
    ensures answer { (result, out.new)
        ≡ with_option (choices_of config) (config_out_of_range, out.old)
        (λ config. written_answer shown_duration out.old
        (without_place (duration_answer config.order config.behavior text.now))) }
{
    let config = config_or_return!(config.to_config());
    let answer = Duration::parse_bytes_with_config(text, &config.time_config);
    write_duration(answer, out)
}

/// The duration of days, seconds and microseconds of any size, brought into their ranges,
/// as [`Duration::new`] gives it: 2 days, 101 seconds and 123 microseconds for 1 day, 86,500
/// seconds and 1,000,123 microseconds.
///
/// `VALUE_OUT_OF_RANGE` if `negative` is neither 0 nor 1; then the errors of that call.
#[unsafe(no_mangle)]
pub extern "C" fn speedate_duration_normalize(
    numbers: SpeedateDuration,
    out: &mut SpeedateDuration,
) -> i32
    ensures answer { (result, out.new) ≡ (if nat_le numbers.negative 1
        then written_answer shown_duration out.old (normal_form (numbers_of numbers))
        else (value_out_of_range, out.old)) }
{
    if numbers.negative > 1 {
        return VALUE_OUT_OF_RANGE;
    }
    let positive = numbers.negative == 0;
    let answer = Duration::new(positive, numbers.day, numbers.second, numbers.microsecond);
    write_duration(answer, out)
}

/// Whether the numbers are a duration: `SUCCESS`, or the error of the first number that is out of
/// range, `DurationDaysTooLarge` for the days and `DurationValueTooLarge` for any other.
#[unsafe(no_mangle)]
pub extern "C" fn speedate_duration_check(duration: SpeedateDuration) -> i32
    ensures answer { result ≡ answer_code (duration_of duration) }
{
    code_of!(duration.to_value())
}

/// Prints a duration into a buffer, with a zero byte after it, as [`Duration::to_text`] gives it:
/// `PT1H30M`. `VALUE_OUT_OF_RANGE` comes before `BUFFER_TOO_SMALL`.
#[unsafe(no_mangle)]
pub extern "C" fn speedate_duration_to_text(
    duration: SpeedateDuration,
    buffer: &mut [u8],
    text_length: &mut usize,
) -> i32
    ensures answer { (result, buffer.new, text_length.new)
        ≡ with_value (duration_of duration) (value_out_of_range, buffer.old, text_length.old)
        (λ duration. written_text (duration_text duration) buffer.old text_length.old) }
    ensures room { 32 ≤ length buffer.old → result ≢ buffer_too_small }
{
    let duration = value_or_return!(duration);
    let mut text = ArrayString::<TEXT_MAX>::new();
    duration.push_onto(&mut text);
    write_text(text.as_str(), buffer, text_length)
}

/// Compares two durations, as [`Duration::cmp`] does: -1 if the first is the smaller one, 0
/// if they are equal, otherwise 1.
#[unsafe(no_mangle)]
pub extern "C" fn speedate_duration_compare(
    first: SpeedateDuration,
    second: SpeedateDuration,
    out: &mut i32,
) -> i32
    ensures answer { (result, out.new)
        ≡ with_value (duration_of first) (value_out_of_range, out.old)
        (λ first. with_value (duration_of second) (value_out_of_range, out.old)
        (λ second. written_value (order_number (duration_order first second)))) }
{
    write_of!(first, second => *out = order_number(first.cmp(&second)))
}

/// The whole seconds with the sign, as [`Duration::signed_total_seconds`] gives them: -86,401 for a
/// negative day and second.
#[unsafe(no_mangle)]
pub extern "C" fn speedate_duration_signed_total_seconds(
    duration: SpeedateDuration,
    out: &mut i64,
) -> i32
    ensures answer { (result, out.new)
        ≡ with_value (duration_of duration) (value_out_of_range, out.old)
        (λ duration. written_value (signed_seconds duration)) }
{
    write_of!(duration => *out = duration.signed_total_seconds())
}

/// The milliseconds with the sign, cut toward zero, as [`Duration::signed_total_ms`] gives them:
/// -1,001 for -1.0019 seconds.
#[unsafe(no_mangle)]
pub extern "C" fn speedate_duration_signed_total_ms(
    duration: SpeedateDuration,
    out: &mut i64,
) -> i32
    ensures answer { (result, out.new)
        ≡ with_value (duration_of duration) (value_out_of_range, out.old)
        (λ duration. written_value (signed_milliseconds duration)) }
{
    write_of!(duration => *out = duration.signed_total_ms())
}

/// The microseconds of a second with the sign, as [`Duration::signed_microseconds`] gives them:
/// -1,000 for a negative second and 1,000 microseconds.
#[unsafe(no_mangle)]
pub extern "C" fn speedate_duration_signed_microseconds(
    duration: SpeedateDuration,
    out: &mut i32,
) -> i32
    ensures answer { (result, out.new)
        ≡ with_value (duration_of duration) (value_out_of_range, out.old)
        (λ duration. written_value (signed_microsecond duration)) }
{
    write_of!(duration => *out = duration.signed_microseconds())
}
