//! Parsers of date-times as programs print them: a zone may come after a blank.

ghost use Rattle.std.specs.Prelude.{◌≡◌, ◌+◌, ◌≤◌, ℕ, IfErr, IfOk, IfSome, Ok, length};
ghost use Rattle.std.specs.Option.{ForSome, option_map};
ghost use Rattle.speedate_base.specs.Offset.{IsOffset, IsWholeMinutes};
ghost use Rattle.speedate_base.specs.Requirement.{result_map, with_size};
ghost use Rattle.speedate_civil.specs.Base.{Behavior};
ghost use Rattle.speedate_civil.specs.Date.{ymd};
ghost use Rattle.speedate_civil.specs.DateTime.{date_and_time, ◌gives◌, ◌gives_front◌};
ghost use Rattle.speedate_civil.specs.Loose.{bounded, date_and_clock, loose_answer, loose_front};
ghost use Rattle.speedate_civil.specs.Loose.{loose_value, with_late_zone};
ghost use Rattle.speedate_civil.specs.Time.{clock_parts, clock_with_offset};

use super::DateTime;
use super::full_clock::full_front;
use super::parse::{SEPARATOR_PLACE, TIME_PLACE, has_separator};
use crate::date::Date;
use crate::form::DateForm;
use crate::time::{PureTime, Time, end_fault, is_boundary, late_zone, zone_front};
use speedate_base::config::{DateConfig, MicrosecondsPrecisionOverflowBehavior};
use speedate_base::faults::ParseError;
use speedate_base::refusal::Refused;

/// The date-time at the front of a text with its zone, and how many bytes it takes, whatever follows it:
/// 06:10 an hour east of UTC, and 25, from `b"2026-11-22 06:10:00 +0100 GET /"`.
///
/// # Errors
///
/// Those of [`DateTime::parse_or_place`] with `DateTimeForm::LooseFront`, but that a value may end anywhere.
#[inline(always)]
fn loose_value(
    text: &[u8],
    behavior: MicrosecondsPrecisionOverflowBehavior,
) -> Result<(DateTime, usize), Refused>
    ensures answer { result gives_front loose_value behavior text.now }
    ensures within { IfOk result (λ front. front.1 ≤ length text.now) }
    ensures placed { IfErr result (λ refused. refused.place ≤ length text.now) }
    ensures minutes { IfOk result (λ front. IsWholeMinutes front.0.time.tz_offset) }
{
    match accepted_loose_value(text, behavior) {
        Some((value, size)) => Ok((value, size)),
        None => loose_value_by_parts(text, behavior),
    }
}

/// The same, if the date-time has the form that most have, and at most six digits after its second; `None` says
/// nothing of the text.
#[inline(always)]
pub fn usual_loose_value(text: &[u8]) -> Option<(DateTime, usize)>
    ensures front { (behavior : Behavior) → IfSome result (λ front.
        loose_value behavior text.now ≡ Ok (with_size date_and_time front)) }
    ensures within { IfSome result (λ front. front.1 ≤ length text.now) }
{
    match full_front(text) {
        Some((value, size)) => match with_late_zone(value, size, text) {
            Some(front) => Some(front),
            None => None,
        },
        None => None,
    }
}

/// The same, if the text has a date-time for every form at its front; `None` says nothing of the text.
#[inline(always)]
pub fn accepted_loose_value(
    text: &[u8],
    behavior: MicrosecondsPrecisionOverflowBehavior,
) -> Option<(DateTime, usize)>
    ensures front { IfSome result (λ front.
        loose_value behavior text.now ≡ Ok (with_size date_and_time front)) }
    ensures within { IfSome result (λ front. front.1 ≤ length text.now) }
    ensures minutes { IfSome result (λ front. IsWholeMinutes front.0.time.tz_offset) }
{
    match DateTime::front::<ParseError>(text, behavior) {
        Ok((value, size)) => match with_late_zone(value, size, text) {
            Some(front) => Some(front),
            None => None,
        },
        Err(_) => None,
    }
}

/// A date-time at the front of a text, and how many bytes it takes, with the zone that may come after a blank.
/// `None` if the half of the day does.
#[inline(always)]
fn with_late_zone(value: DateTime, size: usize, text: &[u8]) -> Option<(DateTime, usize)>
    requires size { size ≤ length text.now }
    ensures front { option_map (with_size date_and_time) result
        ≡ with_late_zone text.now (date_and_time value, size) }
    ensures within { IfSome result (λ front. front.1 ≤ length text.now) }
    ensures minutes { IsWholeMinutes value.time.tz_offset
        → IfSome result (λ front. IsWholeMinutes front.0.time.tz_offset) }
{
    if value.time.tz_offset.is_some() {
        return Some((value, size));
    }
    let (offset, more) = match late_zone(&text[size..]) {
        Some((offset, more)) => (offset, more),
        None => return None,
    };
    let time = Time {
        hour: value.time.hour,
        minute: value.time.minute,
        second: value.time.second,
        microsecond: value.time.microsecond,
        tz_offset: offset,
    };
    let date = value.date;
    Some((DateTime { date, time }, size + more))
}

/// A date, a separator and a clock at the front of a text.
#[tactic(auto, using(std::proofs::lemmas::List::take_rest))]
fn date_and_clock(
    text: &[u8],
    behavior: MicrosecondsPrecisionOverflowBehavior,
) -> Result<(Date, PureTime), Refused>
    ensures front { result_map (λ front. (ymd front.0, clock_parts front.1)) result
        ≡ date_and_clock behavior text.now }
    ensures size { IfOk result (λ front. 11 + front.1.size ≤ length text.now) }
    ensures placed { IfErr result (λ refused. refused.place ≤ length text.now) }
{
    let date = match Date::parse_or_place(text, DateForm::Front, &DateConfig::default()) {
        Ok((date, _)) => date,
        Err(refused) => return Err(refused),
    };
    if !has_separator(text) {
        return Err(Refused {
            fault: ParseError::InvalidCharDateTimeSep,
            place: SEPARATOR_PLACE,
        });
    }
    match PureTime::front_at::<Refused>(&text[TIME_PLACE..], TIME_PLACE, behavior) {
        Ok(clock) => Ok((date, clock)),
        Err(refused) => Err(refused),
    }
}

/// What [`loose_value`] gives, by the date, the clock and the zone one after the other.
#[cold]
#[inline(never)]
#[tactic(auto, unfolding(crate::specs::Loose::loose_value))]
pub fn loose_value_by_parts(
    text: &[u8],
    behavior: MicrosecondsPrecisionOverflowBehavior,
) -> Result<(DateTime, usize), Refused>
    ensures answer { result gives_front loose_value behavior text.now }
    ensures within { IfOk result (λ front. front.1 ≤ length text.now) }
    ensures placed { IfErr result (λ refused. refused.place ≤ length text.now) }
    ensures minutes { IfOk result (λ front. IsWholeMinutes front.0.time.tz_offset) }
{
    let (date, clock) = match date_and_clock(text, behavior) {
        Ok(front) => front,
        Err(refused) => return Err(refused),
    };
    let end = TIME_PLACE + clock.size;
    match zone_front(&text[end..], end) {
        Ok((offset, size)) => Ok((zoned(date, clock, offset), end + size)),
        Err(refused) => Err(refused),
    }
}

/// The date-time of a date, a clock and an offset.
fn zoned(date: Date, clock: PureTime, offset: Option<i32>) -> DateTime
    requires range { ForSome offset IsOffset }
    ensures value { date_and_time result ≡ record {
      date = ymd date;
      time = clock_with_offset (clock_parts clock) offset;
    } }
    ensures minutes { IsWholeMinutes offset → IsWholeMinutes result.time.tz_offset }
{
    let time = clock.at_offset(offset);
    DateTime { date, time }
}

/// The date-time at the front of a text, if it ends at a boundary.
fn bounded(text: &[u8], value: DateTime, size: usize) -> Result<(DateTime, usize), Refused>
    requires size { size ≤ length text.now }
    ensures answer { result gives_front bounded text.now (date_and_time value, size) }
    ensures within { IfOk result (λ front. front.1 ≤ length text.now) }
    ensures placed { IfErr result (λ refused. refused.place ≤ length text.now) }
    ensures same { IfOk result (λ front. front.0 ≡ value) }
{
    if is_boundary(&text[size..]) {
        return Ok((value, size));
    }
    Err(Refused {
        fault: end_fault(value.time.tz_offset),
        place: size,
    })
}

/// The date-time at the front of a text, which ends at a boundary, and how many bytes it takes.
pub fn loose_front(
    text: &[u8],
    behavior: MicrosecondsPrecisionOverflowBehavior,
) -> Result<(DateTime, usize), Refused>
    ensures answer { result gives_front loose_front behavior text.now }
    ensures within { IfOk result (λ front. front.1 ≤ length text.now) }
    ensures placed { IfErr result (λ refused. refused.place ≤ length text.now) }
    ensures minutes { IfOk result (λ front. IsWholeMinutes front.0.time.tz_offset) }
{
    match loose_value(text, behavior) {
        Ok((value, size)) => bounded(text, value, size),
        Err(refused) => Err(refused),
    }
}

/// The date-time that a text is.
pub fn loose_whole(
    text: &[u8],
    behavior: MicrosecondsPrecisionOverflowBehavior,
) -> Result<DateTime, Refused>
    ensures answer { result gives loose_answer behavior text.now }
    ensures placed { IfErr result (λ refused. refused.place ≤ length text.now) }
    ensures minutes { IfOk result (λ value. IsWholeMinutes value.time.tz_offset) }
{
    let (value, size) = match loose_value(text, behavior) {
        Ok(front) => front,
        Err(refused) => return Err(refused),
    };
    if size != text.len() {
        let fault = end_fault(value.time.tz_offset);
        return Err(Refused { fault, place: size });
    }
    Ok(value)
}
