//! The zones that programs print after a clock, and where a value ends in a line.

ghost use Rattle.std.specs.Prelude.{◌≡◌, ◌+◌, ◌<◌, ◌≤◌, IfErr, IfOk, IfSome, IsTrue, None, Some, drop, length, slice_index, if◌then◌else◌};
ghost use Rattle.std.specs.Option.{ForSome};
ghost use Rattle.speedate_base.specs.Digits.{two_digit_value, two_digits_at};
ghost use Rattle.speedate_base.specs.Offset.{IsOffset, IsWholeMinutes};
ghost use Rattle.speedate_civil.specs.Time.{has_minus_sign, is_plus_or_minus, is_utc};
ghost use Rattle.speedate_civil.specs.Time.{offset_minute_place};
ghost use Rattle.speedate_civil.specs.Loose.{apart, has_half_name, has_utc_name, is_boundary, joins};
ghost use Rattle.speedate_civil.specs.Loose.{hour_and_minute, is_half_day, is_in_use, late_zone};
ghost use Rattle.speedate_civil.specs.Loose.{minute_zone, signed_zone, zone_after_blank, zone_in_use};
ghost use Rattle.speedate_civil.specs.Loose.{has_minute, hour_zone, may_begin_zone, zone_front};

use super::offset::{has_minus_sign, is_plus_or_minus, is_utc, signed_offset, with_sign};
use speedate_base::faults::ParseError;
use speedate_base::numbers::byte_at;
use speedate_base::refusal::Refused;

/// Whether a byte joins a digit after it to what comes before it.
#[inline(always)]
fn joins(byte: u8) -> bool
    ensures joins { result ≡ joins byte }
{
    byte == b'.' || byte == b':' || byte == b'+' || byte == b'-'
}

/// Whether a value can end before a text: false for `b".5"` and `b"PM"`, true for `b". 5"` and `b""`.
#[inline(always)]
#[tactic(auto, unfolding(crate::specs::Loose::is_boundary))]
pub fn is_boundary(rest: &[u8]) -> bool
    ensures boundary { result ≡ is_boundary rest.now }
{
    let first = byte_at(rest, 0);
    // Mostly the line ends, or a blank, a quote, a tab or a bracket follows: none of them is looked for below.
    if first < b'+' || first == b']' {
        return true;
    }
    is_boundary_byte(first, rest)
}

/// The same, by the first byte of the text, which is `+` or comes after it.
#[inline(never)]
#[tactic(auto, unfolding(crate::specs::Loose::is_boundary))]
fn is_boundary_byte(first: u8, rest: &[u8]) -> bool
    requires first { first ≡ slice_index rest.now 0 }
    ensures boundary { result ≡ is_boundary rest.now }
{
    if first.is_ascii_alphanumeric() {
        return false;
    }
    if joins(first) {
        return !byte_at(rest, 1).is_ascii_digit();
    }
    !has_minus_sign(rest, 0) || !byte_at(rest, 3).is_ascii_digit()
}

/// The number of the two digits at a place of a text, if there are two.
fn digits_at(text: &[u8], place: usize) -> Option<u8>
    requires place { place ≤ 3 }
    ensures number { result ≡ (if two_digits_at text.now place
        then Some (two_digit_value text.now place) else None) }
    ensures small { IfSome result (λ number. number ≤ 99) }
    ensures there { IfSome result (λ number. place + 2 ≤ length text.now) }
{
    let (tens, ones) = (byte_at(text, place), byte_at(text, place + 1));
    if !tens.is_ascii_digit() || !ones.is_ascii_digit() {
        return None;
    }
    Some(10 * (tens - b'0') + (ones - b'0'))
}

/// The zone by the bytes after its sign, which takes the first `sign` bytes of a text that begins at `start` of the
/// whole: `HH:MM`, `HHMM` or `HH`. It is 3,600, and three bytes, for `b"+01"` and 1, east of UTC.
#[tactic(auto, unfolding(crate::specs::Loose::signed_zone))]
fn signed_zone(
    rest: &[u8],
    west: bool,
    sign: usize,
    start: usize,
) -> Result<(Option<i32>, usize), Refused>
    requires start { start + 8 ≤ usize.MAX }
    requires sign { sign ≤ length rest.now }
    requires short { sign ≤ 3 }
    ensures zone { result ≡ signed_zone (start + sign) west sign (drop sign rest.now) }
    ensures range { IfOk result (λ zone. ForSome zone.0 IsOffset) }
    ensures minutes { IfOk result (λ zone. IsWholeMinutes zone.0) }
    ensures size { IfOk result (λ zone. zone.1 ≤ length rest.now) }
    ensures place { IfErr result (λ refused. refused.place ≤ start + length rest.now) }
{
    let numbers = &rest[sign..];
    if has_minute(numbers) {
        return signed_offset(west, sign, rest, sign, start + sign);
    }
    match digits_at(numbers, 0) {
        Some(hour) => hour_zone(hour, west, sign, start + sign),
        None => Ok((None, 0)),
    }
}

/// The zone of an hour, which is at `start` of the whole text, after a sign of so many bytes.
fn hour_zone(
    hour: u8,
    west: bool,
    sign: usize,
    start: usize,
) -> Result<(Option<i32>, usize), Refused>
    requires short { sign ≤ 3 }
    ensures zone { result ≡ hour_zone start west sign hour }
    ensures range { IfOk result (λ zone. ForSome zone.0 IsOffset) }
    ensures minutes { IfOk result (λ zone. IsWholeMinutes zone.0) }
    ensures size { IfOk result (λ zone. zone.1 ≡ sign + 2) }
    ensures place { IfErr result (λ refused. refused.place ≡ start) }
{
    if hour > 23 {
        return Err(Refused {
            fault: ParseError::OutOfRangeTz,
            place: start,
        });
    }
    Ok((Some(with_sign(west, 3600 * u32::from(hour))), sign + 2))
}

/// Whether a text begins with `UTC` or `GMT`.
fn has_utc_name(text: &[u8]) -> bool
    ensures name { result ≡ has_utc_name text.now }
{
    text.starts_with(b"UTC") || text.starts_with(b"GMT")
}

/// Whether an offset of so many hours and minutes is in use somewhere.
fn is_in_use(hour: u8, minute: u8) -> bool
    ensures used { result ≡ is_in_use hour minute }
    ensures hour { IsTrue result → hour ≤ 14 }
    ensures minute { IsTrue result → minute ≤ 45 }
{
    hour <= 14 && matches!(minute, 0 | 15 | 30 | 45)
}

/// The zone of an hour, and of a minute at a place after the sign, if they are in use.
fn zone_in_use(hour: u8, minute: u8, place: usize, west: bool) -> (Option<i32>, usize)
    requires short { place ≤ 3 }
    ensures zone { result ≡ zone_in_use west place (Some (hour, minute)) }
    ensures range { ForSome result.0 IsOffset }
    ensures minutes { IsWholeMinutes result.0 }
    ensures size { IfSome result.0 (λ offset. result.1 ≡ 3 + place) }
{
    if !is_in_use(hour, minute) {
        return (None, 0);
    }
    let size = 3600 * u32::from(hour) + 60 * u32::from(minute);
    (Some(with_sign(west, size)), 3 + place)
}

/// The zone of a text that begins with its sign, if it is `HH:MM` or `HHMM` and an offset in use.
fn minute_zone(text: &[u8], west: bool) -> (Option<i32>, usize)
    requires sign { 1 ≤ length text.now }
    ensures zone { result ≡ minute_zone west (drop 1 text.now) }
    ensures range { ForSome result.0 IsOffset }
    ensures minutes { IsWholeMinutes result.0 }
    ensures size { IfSome result.0 (λ offset. result.1 ≤ length text.now) }
{
    match hour_and_minute(&text[1..]) {
        Some((hour, minute)) => zone_in_use(hour, minute, minute_place(&text[1..]), west),
        None => (None, 0),
    }
}

/// The place of the minute in a text that begins with `HH:MM` or `HHMM`.
fn minute_place(numbers: &[u8]) -> usize
    ensures place { result ≡ offset_minute_place numbers.now }
    ensures short { result ≤ 3 }
{
    if byte_at(numbers, 2) == b':' { 3 } else { 2 }
}

/// The hour and the minute of a text that begins with `HH:MM` or `HHMM`.
fn hour_and_minute(numbers: &[u8]) -> Option<(u8, u8)>
    ensures numbers { result ≡ hour_and_minute numbers.now }
    ensures small { IfSome result (λ both. both.0 ≤ 99) }
    ensures there { IfSome result (λ both. offset_minute_place numbers.now + 2 ≤ length numbers.now) }
{
    let Some(hour) = digits_at(numbers, 0) else {
        return None;
    };
    let Some(minute) = digits_at(numbers, minute_place(numbers)) else {
        return None;
    };
    Some((hour, minute))
}

/// Whether a text begins with `HH:MM` or `HHMM`.
fn has_minute(numbers: &[u8]) -> bool
    ensures minute { result ≡ has_minute numbers.now }
{
    hour_and_minute(numbers).is_some()
}

/// The zone at the front of what follows a blank, whatever comes after it.
fn apart(text: &[u8]) -> (Option<i32>, usize)
    ensures zone { result ≡ apart text.now }
    ensures range { ForSome result.0 IsOffset }
    ensures minutes { IsWholeMinutes result.0 }
    ensures size { IfSome result.0 (λ offset. result.1 ≤ length text.now) }
{
    if has_utc_name(text) {
        return (Some(0), 3);
    }
    let first = byte_at(text, 0);
    if is_plus_or_minus(first) {
        return minute_zone(text, first == b'-');
    }
    (None, 0)
}

/// Whether the half of the day stands before a text: true for `b"PM"` and `b"am [1]"`, false for `b"PM2"`.
#[tactic(auto, unfolding(crate::specs::Loose::is_half_day))]
pub fn is_half_day(text: &[u8]) -> bool
    ensures half { result ≡ is_half_day text.now }
{
    has_half_name(text) && is_boundary(&text[2..])
}

/// Whether a text begins with the name of a half of the day.
fn has_half_name(text: &[u8]) -> bool
    ensures name { result ≡ has_half_name text.now }
    ensures there { IsTrue result → 2 ≤ length text.now }
{
    text.starts_with(b"AM")
        || text.starts_with(b"PM")
        || text.starts_with(b"am")
        || text.starts_with(b"pm")
}

/// Whether a zone, or a half of the day, may begin with a byte that follows a blank.
#[inline(always)]
fn may_begin_zone(byte: u8) -> bool
    ensures begins { result ≡ may_begin_zone byte }
{
    matches!(byte, b'+' | b'-' | b'A' | b'G' | b'P' | b'U' | b'a' | b'p')
}

/// The zone after a blank, by what follows it, and how many bytes it takes with the blank: 3,600, and six bytes,
/// for `b"+0100 GET"`, none for `b"+0100a"`, `b"-5 items"` and `b"-1234 items"`. `None` if the half of the day follows.
#[inline(always)]
fn zone_after_blank(text: &[u8]) -> Option<(Option<i32>, usize)>
    ensures zone { result ≡ zone_after_blank text.now }
    ensures range { IfSome result (λ zone. ForSome zone.0 IsOffset) }
    ensures minutes { IfSome result (λ zone. IsWholeMinutes zone.0) }
    ensures size { IfSome result (λ zone. zone.1 ≤ 1 + length text.now) }
{
    // Most values are followed by a blank and a word.
    if may_begin_zone(byte_at(text, 0)) {
        begun_zone(text)
    } else {
        Some((None, 0))
    }
}

/// The same, for a text that may begin with one.
#[inline(never)]
#[tactic(auto, unfolding(crate::specs::Loose::zone_after_blank))]
fn begun_zone(text: &[u8]) -> Option<(Option<i32>, usize)>
    ensures zone { result ≡ zone_after_blank text.now }
    ensures range { IfSome result (λ zone. ForSome zone.0 IsOffset) }
    ensures minutes { IfSome result (λ zone. IsWholeMinutes zone.0) }
    ensures size { IfSome result (λ zone. zone.1 ≤ 1 + length text.now) }
{
    if is_half_day(text) {
        return None;
    }
    let (offset, size) = apart(text);
    if offset.is_some() && is_boundary(&text[size..]) {
        Some((offset, 1 + size))
    } else {
        Some((None, 0))
    }
}

/// The zone of a clock that no offset follows, by the bytes after it, and how many bytes it takes. `None` if the half of
/// the day follows after a blank.
#[inline(always)]
#[tactic(auto, unfolding(crate::specs::Loose::late_zone))]
pub(crate) fn late_zone(rest: &[u8]) -> Option<(Option<i32>, usize)>
    ensures zone { result ≡ late_zone rest.now }
    ensures range { IfSome result (λ zone. ForSome zone.0 IsOffset) }
    ensures minutes { IfSome result (λ zone. IsWholeMinutes zone.0) }
    ensures size { IfSome result (λ zone. zone.1 ≤ length rest.now) }
    ensures there { result ≡ None → 1 ≤ length rest.now }
{
    if byte_at(rest, 0) != b' ' {
        return Some((None, 0));
    }
    zone_after_blank(&rest[1..])
}

/// The zone after a clock, by the bytes after it, which begin at `start` of the whole text, and how many bytes
/// it takes.
#[tactic(auto, unfolding(crate::specs::Loose::zone_front))]
pub fn zone_front(rest: &[u8], start: usize) -> Result<(Option<i32>, usize), Refused>
    requires start { start + 12 ≤ usize.MAX }
    ensures zone { result ≡ zone_front start rest.now }
    ensures range { IfOk result (λ zone. ForSome zone.0 IsOffset) }
    ensures minutes { IfOk result (λ zone. IsWholeMinutes zone.0) }
    ensures size { IfOk result (λ zone. zone.1 ≤ length rest.now) }
    ensures place { IfErr result (λ refused. refused.place ≤ start + length rest.now) }
{
    let first = byte_at(rest, 0);
    if is_utc(first) {
        return Ok((Some(0), 1));
    }
    if is_plus_or_minus(first) {
        return signed_zone(rest, first == b'-', 1, start);
    }
    if has_minus_sign(rest, 0) {
        return signed_zone(rest, true, 3, start);
    }
    match late_zone(rest) {
        Some((offset, size)) => Ok((offset, size)),
        None => Err(Refused {
            fault: ParseError::ExtraCharacters,
            place: start + 1,
        }),
    }
}
