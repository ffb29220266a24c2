//! Date-times, and their instants, at the front of texts that have a clock with its second, as most have.

ghost use Rattle.std.specs.Prelude.{◌≡◌, ◌==◌, ◌<◌, ◌≤◌, IfSome, IsTrue, None, Ok, Some, length, slice_index, take, true, if◌then◌else◌};
ghost use Rattle.speedate_civil.specs.Base.{Behavior};
ghost use Rattle.speedate_civil.specs.DateTime.{IsUtcFront, date_and_time, date_time_front, is_separator};
ghost use Rattle.speedate_civil.specs.ParserParts.{HasFullClock};

use super::DateTime;
use super::parse::{TIME_PLACE, has_separator};
use crate::date::Date;
use crate::time::{PureTime, offset_or_utc, unsigned_offset};
use speedate_base::numbers::are_between;
use std::simd::prelude::*;

/// How many bytes are loaded at most: a date, a separator, a clock with six digits after its
/// second, a sign, and eight more.
const FULL_LENGTH: usize = 35;

/// How many bytes a date, a separator and a clock with its second have.
const BARE_LENGTH: usize = 19;

/// The microseconds from 1970-01-01T00:00:00 in UTC to the date-time at the front of a text, and how many
/// bytes it takes, if the text has 35 bytes or more and the date-time the form that most have: seconds,
/// at most six digits after them, and then `Z`, `z`, or `+` or `-` with `HH:MM` or `HHMM`. If
/// `assumes_utc` is true, the offset may be missing. It is 1,000,000, and 20, from
/// `b"1970-01-01T00:00:01Z\n1970-01-01T00:00Z"`.
///
/// `None` says nothing of the text: it may begin with a date-time all the same.
#[inline(always)]
pub fn utc_front(bytes: &[u8], assumes_utc: bool) -> Option<(i64, usize)>
    ensures front { IfSome result (IsUtcFront assumes_utc bytes.now) }
{
    if bytes.len() < FULL_LENGTH || !has_full_clock(bytes) || !has_separator(bytes) {
        return None;
    }
    let date = Date::of_digits(bytes)?;
    let rest = &bytes[TIME_PLACE..];
    let clock = PureTime::of_digits(rest)?;
    let (offset, size) = offset_or_utc(rest, clock.size, assumes_utc)?;
    let time = clock.at_offset(Some(offset));
    let number = DateTime { date, time }.timestamp_tz_us();
    Some((number, TIME_PLACE + (clock.size + size)))
}

/// The date-time at the front of a text of any length, and how many bytes it takes, if it has the form that
/// [`utc_front`] reads; its offset may be missing, and is then `None`. It is 1970-01-01T00:00:01Z, and 20, from
/// `b"1970-01-01T00:00:01Z\n1970-01-01T00:00Z"`.
///
/// `None` says nothing of the text: it may begin with a date-time all the same.
#[inline(always)]
pub fn full_front(bytes: &[u8]) -> Option<(DateTime, usize)>
    ensures front { (behavior : Behavior) → IfSome result (λ front.
        date_time_front behavior bytes.now ≡ Ok (date_and_time front.0, front.1)) }
    ensures within { IfSome result (λ front. front.1 ≤ length bytes.now) }
{
    if bytes.len() < FULL_LENGTH {
        return short_front(bytes);
    }
    long_front(bytes)
}

/// The same, of a text that is shorter than what is loaded.
#[inline(never)]
fn short_front(bytes: &[u8]) -> Option<(DateTime, usize)>
    requires short { length bytes.now < 35 }
    ensures front { (behavior : Behavior) → IfSome result (λ front.
        date_time_front behavior bytes.now ≡ Ok (date_and_time front.0, front.1)) }
    ensures within { IfSome result (λ front. front.1 ≤ length bytes.now) }
{
    if !has_full_clock(bytes) || !has_separator(bytes) {
        return None;
    }
    match bare_front(bytes) {
        Some((value, size)) => Some((value, size)),
        None => copied_front(bytes),
    }
}

/// The same, of a text that begins so, if neither a fraction nor a sign follows the second.
#[inline(always)]
fn bare_front(bytes: &[u8]) -> Option<(DateTime, usize)>
    requires looks { HasFullClock bytes.now }
    requires parted { is_separator (slice_index bytes.now 10) ≡ true }
    ensures front { (behavior : Behavior) → IfSome result (λ front.
        date_time_front behavior bytes.now ≡ Ok (date_and_time front.0, front.1)) }
    ensures within { IfSome result (λ front. front.1 ≤ length bytes.now) }
{
    let date = Date::of_digits(bytes)?;
    let rest = &bytes[TIME_PLACE..];
    let clock = PureTime::without_fraction(rest)?;
    let (offset, size) = unsigned_offset(rest, clock.size)?;
    let offset = some_offset(offset, size);
    let time = clock.at_offset(offset);
    Some((DateTime { date, time }, TIME_PLACE + (clock.size + size)))
}

/// The same, of a text that is copied before line feeds, which end every date-time.
#[inline(never)]
fn copied_front(bytes: &[u8]) -> Option<(DateTime, usize)>
    requires short { length bytes.now < 35 }
    ensures front { (behavior : Behavior) → IfSome result (λ front.
        date_time_front behavior bytes.now ≡ Ok (date_and_time front.0, front.1)) }
    ensures within { IfSome result (λ front. front.1 ≤ length bytes.now) }
{
    match long_front(&before_line_feeds(bytes)) {
        Some((value, size)) if size <= bytes.len() => Some((value, size)),
        _ => None,
    }
}

/// A text and as many line feeds as make it as long as what is loaded.
#[inline(always)]
fn before_line_feeds(bytes: &[u8]) -> [u8; FULL_LENGTH]
    requires short { length bytes.now < 35 }
    ensures front { take (length bytes.now) result ≡ bytes.now }
    ensures size { length result ≡ 35 }
{
    let mut longer = [b'\n'; FULL_LENGTH];
    longer[..bytes.len()].copy_from_slice(bytes);
    longer
}

/// The same, of a text of 35 bytes or more.
#[inline(always)]
fn long_front(bytes: &[u8]) -> Option<(DateTime, usize)>
    requires long { 35 ≤ length bytes.now }
    ensures front { (behavior : Behavior) → IfSome result (λ front.
        date_time_front behavior bytes.now ≡ Ok (date_and_time front.0, front.1)) }
    ensures within { IfSome result (λ front. front.1 ≤ length bytes.now) }
{
    // The calls of `utc_front` again: in a function for both the compiler makes other code of them.
    if !has_full_clock(bytes) || !has_separator(bytes) {
        return None;
    }
    let date = Date::of_digits(bytes)?;
    let rest = &bytes[TIME_PLACE..];
    let clock = PureTime::of_digits(rest)?;
    let (offset, size) = offset_or_utc(rest, clock.size, true)?;
    let time = clock.at_offset(some_offset(offset, size));
    Some((DateTime { date, time }, TIME_PLACE + (clock.size + size)))
}

/// The offset, if it takes bytes of the text.
#[inline(always)]
fn some_offset(offset: i32, size: usize) -> Option<i32>
    ensures offset { result ≡ (if size == 0 then None else Some offset) }
{
    if size == 0 { None } else { Some(offset) }
}

/// Whether a text begins as a date looks and, after a byte from a space to `t`, as a clock with its second
/// does, whose minute and second are below 60: true for `b"2020-02-29T12:13:14Z"` and for
/// `b"2020-19-39 29:59:59"`.
#[inline(always)]
fn has_full_clock(bytes: &[u8]) -> bool
    ensures looks { IsTrue result → HasFullClock bytes.now }
{
    if bytes.len() < BARE_LENGTH {
        return false;
    }
    let front = are_between(
        u8x16::from_slice(bytes),
        u8x16::from_array(*b"0000-00-00 00:00"),
        u8x16::from_array(*b"9999-19-39t29:59"),
    );
    let end = are_between(
        u8x16::from_slice(&bytes[3..]),
        u8x16::from_array(*b"0-00-00 00:00:00"),
        u8x16::from_array(*b"9-19-39t29:59:59"),
    );
    front & end
}
