//! Unix timestamps: numbers at the front of a text that count seconds, milliseconds or microseconds.

ghost use Rattle.std.specs.Prelude.{◌≡◌, ◌+◌, ◌≤◌, IfErr, IfOk, IsTrue, Some, length, pos, slice_index};
ghost use Rattle.speedate_base.specs.Digits.{run_length};
ghost use Rattle.speedate_civil.specs.DateTime.{date_time_or_timestamp};
ghost use Rattle.speedate.specs.Config.{choices};
ghost use Rattle.speedate.specs.DateTime.{date_and_time};
ghost use Rattle.speedate.specs.Requirement.{result_map, with_size};
ghost use Rattle.speedate_scan.specs.Reading.{past_64_bits, timestamp_front, timestamp_of, timestamp_whole};
ghost use Rattle.speedate_scan.specs.Timestamp.{fewest_digits, has_fraction, has_number};
ghost use Rattle.speedate_scan.specs.Timestamp.{minus_length};
ghost use Rattle.speedate_scan.specs.Timestamp.{number_end, number_length, takes_point, whole_digits};

use crate::form::{value_of, whole_front};
use speedate::{
    DateTime, DateTimeConfig, DateTimeForm, IntFloat, IsoOrder,
    MicrosecondsPrecisionOverflowBehavior, ParseError, Refused, TimeConfig, TimestampUnit,
    float_parse_bytes,
};
use speedate_base::numbers::{byte_at, run_end};

/// How many bytes the sign of a number takes: one for a minus, none for `+`, which begins no number of a line.
fn minus_length(text: &[u8]) -> usize
    ensures length { result ≡ minus_length text.now }
    ensures within { result ≤ length text.now }
{
    if byte_at(text, 0) == b'-' { 1 } else { 0 }
}

/// How many digits a number at the front of a text has before its point: 3 for `b"-125.5"`.
#[tactic(auto, unfolding(crate::specs::Timestamp::whole_digits))]
pub fn whole_digits(text: &[u8]) -> usize
    ensures digits { result ≡ whole_digits text.now }
{
    let start = minus_length(text);
    run_end(text, start) - start
}

/// The fewest digits that a timestamp of a line has before its point, by its unit: timestamps since 1973 have as
/// many or more.
pub fn fewest_digits(unit: TimestampUnit) -> usize
    ensures fewest { result ≡ fewest_digits unit }
{
    match unit {
        TimestampUnit::Second | TimestampUnit::Infer => 9,
        TimestampUnit::Millisecond => 12,
        TimestampUnit::Microsecond => 15,
    }
}

/// Whether a number in a unit may have a point, and digits after it.
fn takes_point(unit: TimestampUnit) -> bool
    ensures point { result ≡ takes_point unit }
{
    !matches!(unit, TimestampUnit::Microsecond)
}

/// Whether a point and a digit stand at a place of a text.
fn has_fraction(text: &[u8], place: usize) -> bool
    requires place { place ≤ length text.now }
    ensures fraction { result ≡ has_fraction text.now place }
    ensures there { IsTrue result → place + 2 ≤ length text.now }
{
    byte_at(text, place) == b'.' && byte_at(text, place + 1).is_ascii_digit()
}

/// How many bytes a number at the front of a text takes: 6 for `b"-125.5 ms"`, 4 for `b"-125."`.
#[tactic(auto, unfolding(crate::specs::Timestamp::number_length))]
pub fn number_length(text: &[u8], unit: TimestampUnit) -> usize
    ensures length { result ≡ number_length unit text.now }
    ensures within { result ≤ length text.now }
{
    let end = run_end(text, minus_length(text));
    if takes_point(unit) && has_fraction(text, end) {
        run_end(text, end + 1)
    } else {
        end
    }
}

/// Whether the library reads a text as a number: its whole part has at most 64 bits, if it has no point.
pub fn has_number(text: &[u8]) -> bool
    ensures number { result ≡ has_number text.now }
{
    !matches!(float_parse_bytes(text), IntFloat::Err)
}

/// How the library reads a text as a Unix timestamp in UTC.
fn timestamps(
    unit: TimestampUnit,
    behavior: MicrosecondsPrecisionOverflowBehavior,
) -> DateTimeConfig
    ensures unit { (choices result).unit ≡ unit }
    ensures behavior { (choices result).behavior ≡ behavior }
    ensures offset { (choices result).offset ≡ Some (pos 0) }
{
    DateTimeConfig {
        timestamp_unit: unit,
        time_config: TimeConfig {
            microseconds_precision_overflow_behavior: behavior,
            unix_timestamp_offset: Some(0),
            iso_order: IsoOrder::Lax,
        },
    }
}

/// The date-time in UTC of the Unix timestamp that a number is.
#[tactic(auto, unfolding(crate::specs::Reading::timestamp_of))]
fn timestamp_of(
    text: &[u8],
    unit: TimestampUnit,
    behavior: MicrosecondsPrecisionOverflowBehavior,
) -> Result<DateTime, Refused>
    ensures value { result_map date_and_time result ≡ timestamp_of unit behavior text.now }
    ensures within { IfErr result (λ refused. refused.place ≤ length text.now) }
{
    match library_timestamp(text, unit, behavior) {
        Ok(value) => Ok(value),
        Err(refused) => Err(if has_number(text) {
            refused
        } else {
            past_64_bits(text)
        }),
    }
}

/// The refusal of a number that the library does not read, since it has more than 64 bits.
#[cold]
fn past_64_bits(text: &[u8]) -> Refused
    ensures refused { result ≡ past_64_bits text.now }
    ensures place { result.place ≡ 0 }
{
    let fault = if byte_at(text, 0) == b'-' {
        ParseError::DateTooSmall
    } else {
        ParseError::DateTooLarge
    };
    Refused { fault, place: 0 }
}

/// What the library reads of a text that is a number.
fn library_timestamp(
    text: &[u8],
    unit: TimestampUnit,
    behavior: MicrosecondsPrecisionOverflowBehavior,
) -> Result<DateTime, Refused>
    ensures value { result_map date_and_time result
        ≡ date_time_or_timestamp unit behavior (Some (pos 0)) text.now }
    ensures within { IfErr result (λ refused. refused.place ≤ length text.now) }
{
    let config = timestamps(unit, behavior);
    match DateTime::parse_bytes_with_config(text, &config) {
        Ok(value) => Ok(value),
        // Again, for the place.
        Err(_) => value_of(DateTime::parse_or_place(text, DateTimeForm::OrTimestamp, &config)),
    }
}

/// The date-time in UTC of the Unix timestamp at the front of a text, and how many bytes it takes.
#[tactic(auto, unfolding(crate::specs::Reading::timestamp_front))]
pub(crate) fn timestamp_front(
    text: &[u8],
    unit: TimestampUnit,
    behavior: MicrosecondsPrecisionOverflowBehavior,
) -> Result<(DateTime, usize), Refused>
    ensures front { result_map (with_size date_and_time) result
        ≡ timestamp_front unit behavior text.now }
    ensures size { IfOk result (λ front. front.1 ≤ length text.now) }
    ensures within { IfErr result (λ refused. refused.place ≤ length text.now) }
{
    let size = number_length(text, unit);
    match timestamp_of(&text[..size], unit, behavior) {
        Ok(value) => Ok((value, size)),
        Err(refused) => Err(refused),
    }
}

/// The date-time in UTC of the Unix timestamp that a text is, without a sign but a minus.
#[tactic(auto, unfolding(crate::specs::Reading::timestamp_whole))]
pub(crate) fn timestamp_whole(
    text: &[u8],
    unit: TimestampUnit,
    behavior: MicrosecondsPrecisionOverflowBehavior,
) -> Result<DateTime, Refused>
    ensures whole { result_map date_and_time result ≡ timestamp_whole unit behavior text.now }
    ensures within { IfErr result (λ refused. refused.place ≤ length text.now) }
{
    match timestamp_front(text, unit, behavior) {
        Ok((value, size)) => whole_front(text, value, size),
        Err(refused) => Err(refused),
    }
}
