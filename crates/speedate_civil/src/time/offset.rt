//! Offsets from UTC, after a time.

ghost use Rattle.std.specs.Prelude.{true, ◌≡◌, ◌≤◌, ◌+◌, ◌<◌, ◌∷◌, ◌*◌, ◌++◌, ◌==◌, ◌||◌, ℕ, IfErr, IfOk, IfSome, Ok, Some, IsTrue, length, drop, codes, if◌then◌else◌, unsigned_abs};
ghost use Rattle.std.specs.Int.{is_negative};
ghost use Rattle.std.specs.Option.{ForSome};
ghost use Rattle.arrayvec.specs.ArrayString.{array_string_len};
ghost use Rattle.speedate_base.specs.Ascii.{plus_sign, hyphen};
ghost use Rattle.speedate_base.specs.Digits.{two_digit_value, fit_length};
ghost use Rattle.speedate_base.specs.Numbers.{with_sign};
ghost use Rattle.speedate_base.specs.Offset.{IsOffset, IsWholeMinutes};
ghost use Rattle.speedate_base.specs.Timestamp.{seconds_per_day};
ghost use Rattle.speedate_base.specs.Requirement.{first_refusal_or, shifted};
ghost use Rattle.speedate_civil.specs.Time.{end_fault, has_minus_sign, is_plus_or_minus, is_utc};
ghost use Rattle.speedate_civil.specs.ParserParts.{IsOffsetOrUtc, hour_and_minute_form};
ghost use Rattle.speedate_civil.specs.Time.{offset_digits, offset_front, signed_front};
ghost use Rattle.speedate_civil.specs.Time.{offset_minute, offset_digits_size, offset_size_text};
ghost use Rattle.speedate_civil.specs.Time.{offset_text};
ghost use Rattle.speedate_base.specs.Refused.{seen_as};

use crate::text::two_digit_text;
use arrayvec::ArrayString;
use speedate_base::faults::ParseError;
use speedate_base::numbers::{
    byte_at, digit_pairs, eight_are_between, eight_bytes, first_eight, fit_length,
};
use speedate_base::refusal::Refusal;
use speedate_base::util::SECONDS_PER_DAY;
use std::simd::prelude::*;

/// The offset in seconds that begins at `place`, if one does, and how many bytes it takes, whatever
/// follows it: 0 and one byte for `Z` or `z`, 5,400 and six bytes for `+01:30`, none and no byte for
/// ` GET`.
///
/// It takes a place, and not the slice from there: near the end of the text the one load of its
/// digits begins before the place, which is `start` of the whole text.
#[inline(always)]
pub(crate) fn parse_offset<E: Refusal>(
    bytes: &[u8],
    place: usize,
    start: usize,
) -> Result<(Option<i32>, usize), E>
    requires place { place ≤ length bytes.now }
    requires start { start + 16 ≤ usize.MAX }
    ensures answer { result
        ≡ seen_as (shifted start E.refusal) (offset_front (drop place bytes.now)) }
    ensures placed { (size : ℕ) → start + length (drop place bytes.now) ≤ size
        → IfErr result (E.lies_within size) }
    ensures range { IfOk result (λ front. ForSome front.0 IsOffset) }
    ensures minutes { IfOk result (λ front. IsWholeMinutes front.0) }
    ensures within { IfOk result (λ front. place + front.1 ≤ length bytes.now) }
{
    let first = byte_at(bytes, place);
    if is_plus_or_minus(first) {
        return signed_offset(first == b'-', 1, bytes, place + 1, start + 1);
    }
    if is_utc(first) {
        return Ok((Some(0), 1));
    }
    if has_minus_sign(bytes, place) {
        return signed_offset(true, 3, bytes, place + 3, start + 3);
    }
    Ok((None, 0))
}

/// The offset in seconds that begins at `place`, and how many bytes it takes, if it is `Z`, `z`, or `+` or
/// `-` with `HH:MM` or `HHMM`; UTC, in no byte, if none begins there and `assumes_utc` is true. The text
/// has nine bytes from `place` on. `None` for any other offset, and for a missing one that is needed.
#[inline(always)]
pub(crate) fn offset_or_utc(bytes: &[u8], place: usize, assumes_utc: bool) -> Option<(i32, usize)>
    requires place { place + 9 ≤ length bytes.now }
    ensures offset { IfSome result (IsOffsetOrUtc assumes_utc (drop place bytes.now)) }
    ensures short { IfSome result (λ front. front.1 ≤ 6) }
{
    let first = bytes[place];
    if is_utc(first) {
        return Some((0, 1));
    }
    if is_sign(first) {
        return short_offset(first == b'-', first_eight(&bytes[place + 1..]));
    }
    if assumes_utc && first != 0xe2 {
        Some((0, 0))
    } else {
        None
    }
}

/// The same, of a text that may end after `place`, if no sign begins there: UTC in no byte if no offset does.
#[inline(always)]
pub(crate) fn unsigned_offset(bytes: &[u8], place: usize) -> Option<(i32, usize)>
    requires place { place ≤ length bytes.now }
    ensures offset { IfSome result (IsOffsetOrUtc true (drop place bytes.now)) }
    ensures within { IfSome result (λ front. place + front.1 ≤ length bytes.now) }
{
    let first = byte_at(bytes, place);
    if is_utc(first) {
        return Some((0, 1));
    }
    if is_sign(first) || first == 0xe2 {
        return None;
    }
    Some((0, 0))
}

/// What [`is_plus_or_minus`] tells, by two tests: where no other byte is looked for before, the compiler
/// makes one shorter test of them.
#[inline(always)]
fn is_sign(byte: u8) -> bool
    ensures value { result ≡ is_plus_or_minus byte }
{
    byte == b'+' || byte == b'-'
}

/// The offset whose eight bytes after the sign are given, if it is `HH:MM` or `HHMM`, and how many bytes it
/// takes with its sign.
#[inline(always)]
fn short_offset(west: bool, front: u8x8) -> Option<(i32, usize)>
    ensures offset { IfSome result (λ read. signed_front west 1 front ≡ Ok (Some read.0, read.1)) }
    ensures range { IfSome result (λ read. IsOffset read.0) }
    ensures some { IfSome result (λ read. 1 ≤ read.1) }
    ensures short { IfSome result (λ read. read.1 ≤ 6) }
{
    match colon_offset(west, front) {
        Some(offset) => Some((offset, 6)),
        None => match plain_offset(west, front) {
            Some(offset) => Some((offset, 5)),
            None => None,
        },
    }
}

/// The offset whose bytes after the sign are given, if it is `HH:MM`.
#[inline(always)]
fn colon_offset(west: bool, front: u8x8) -> Option<i32>
    ensures offset { IfSome result (λ offset. signed_front west 1 front ≡ Ok (Some offset, 6)) }
    ensures range { IfSome result IsOffset }
{
    if !has_hour_and_minute(front) {
        return None;
    }
    let form = u8x8::from_array(*b"00:00\0\0\0");
    let [hour, _, _, minute, _, _, _, _] = digit_pairs(front, form, 5);
    if hour > 23 {
        return None;
    }
    let seconds = 3600 * u32::from(hour) + 60 * u32::from(minute);
    Some(with_sign(west, seconds))
}

/// Whether eight bytes begin as `HH:MM` looks, with a minute below 60: true for `b"29:59\n20"`.
#[inline(always)]
fn has_hour_and_minute(front: u8x8) -> bool
    ensures form { IsTrue result → 5 ≤ fit_length hour_and_minute_form front }
    ensures minute { IsTrue result → two_digit_value front 3 ≤ 59 }
{
    eight_are_between(
        front,
        u8x8::from_array(*b"00:00\0\0\0"),
        u8x8::from_array(*b"29:59\xff\xff\xff"),
    )
}

/// The offset whose bytes after the sign are given, if it is `HHMM`.
#[inline(always)]
fn plain_offset(west: bool, front: u8x8) -> Option<i32>
    ensures offset { IfSome result (λ offset. signed_front west 1 front ≡ Ok (Some offset, 5)) }
    ensures range { IfSome result IsOffset }
{
    let pattern = u8x8::splat(b'0');
    if fit_length(front, pattern) < 4 {
        return None;
    }
    let [hour, _, minute, _, _, _, _, _] = digit_pairs(front, pattern, 4);
    if hour > 23 || minute > 59 {
        return None;
    }
    let seconds = 3600 * u32::from(hour) + 60 * u32::from(minute);
    Some(with_sign(west, seconds))
}

/// The error of further bytes after a time with this offset, or after one without:
/// `InvalidCharTzSign` for `None`.
#[inline(always)]
pub fn end_fault(offset: Option<i32>) -> ParseError
    ensures fault { result ≡ end_fault offset }
{
    if offset.is_some() {
        ParseError::ExtraCharacters
    } else {
        ParseError::InvalidCharTzSign
    }
}

/// Whether a byte is `+` or `-`, the neighbours of `,`: one test, and so one branch, finds both.
#[inline(always)]
pub fn is_plus_or_minus(byte: u8) -> bool
    ensures value { result ≡ is_plus_or_minus byte }
{
    byte.abs_diff(b',') == 1
}

/// Whether the three bytes of U+2212, the minus sign, begin at `place`.
#[inline(always)]
pub fn has_minus_sign(bytes: &[u8], place: usize) -> bool
    requires { place ≤ length bytes.now }
    ensures value { result ≡ has_minus_sign (drop place bytes.now) }
    ensures there { IsTrue result → place + 3 ≤ length bytes.now }
{
    byte_at(bytes, place) == 0xe2
        && byte_at(bytes, place + 1) == 0x88
        && byte_at(bytes, place + 2) == 0x92
}

/// Whether a byte is UTC itself, `Z` or `z`.
#[inline(always)]
pub(super) fn is_utc(byte: u8) -> bool
    ensures value { result ≡ is_utc byte }
{
    byte == b'Z' || byte == b'z'
}

/// The offset whose hour begins at `place`, and at `start` of the whole text, west of UTC or east of it, and
/// how many bytes it takes with its sign, which has `sign` bytes.
#[inline(always)]
pub fn signed_offset<E: Refusal>(
    west: bool,
    sign: usize,
    bytes: &[u8],
    place: usize,
    start: usize,
) -> Result<(Option<i32>, usize), E>
    requires place { place ≤ length bytes.now }
    requires sign { sign ≤ place }
    requires start { start + 3 ≤ usize.MAX }
    ensures answer { result
        ≡ seen_as (shifted start E.refusal) (signed_front west sign (drop place bytes.now)) }
    ensures placed { (size : ℕ) → start + length (drop place bytes.now) ≤ size
        → IfErr result (E.lies_within size) }
    ensures range { IfOk result (λ front. ForSome front.0 IsOffset) }
    ensures minutes { IfOk result (λ front. IsWholeMinutes front.0) }
    ensures within { IfOk result (λ front. place + front.1 ≤ sign + length bytes.now) }
{
    let ((hour, minute), size) = hour_and_minute::<E>(eight_bytes(bytes, place), start)?;
    if minute > 59 {
        return Err(E::refuse_at(ParseError::OutOfRangeTzMinute, start + (size - 2)));
    }
    let seconds = 3600 * u32::from(hour) + 60 * u32::from(minute);
    if seconds >= SECONDS_PER_DAY {
        return Err(E::refuse_at(ParseError::OutOfRangeTz, start));
    }
    Ok((Some(with_sign(west, seconds)), sign + size))
}

/// The hour and the minute at the front of an offset without its sign, and how many bytes they take:
/// `HH:MM` or `HHMM`. They begin at `start` of the whole text.
#[inline(always)]
fn hour_and_minute<E: Refusal>(front: u8x8, start: usize) -> Result<((u8, u8), usize), E>
    requires { start + 3 ≤ usize.MAX }
    ensures numbers { result ≡ first_refusal_or (shifted start E.refusal) (offset_digits front)
        (Ok ((two_digit_value front 0, offset_minute front), offset_digits_size front)) }
    ensures small { IfOk result (λ front. (front.0.0 ≤ 99) × (front.0.1 ≤ 99)) }
    ensures placed { (size : ℕ) → start + fit_length (codes "00:00:00") front ≤ size
        → IfErr result (E.lies_within size) }
{
    let pattern = u8x8::from_array(*b"00:00:00");
    let fits = fit_length(front, pattern);
    if fits < 2 {
        return Err(E::refuse_at(ParseError::InvalidCharTzHour, start));
    }
    if fits >= 5 {
        let [hour, _, _, minute, _, _, _, _] = digit_pairs(front, pattern, 5);
        return Ok(((hour, minute), 5));
    }
    if fits > 2 {
        return Err(E::refuse_at(ParseError::InvalidCharTzMinute, start + 3));
    }
    hour_then_minute(front, start)
}

/// The hour, the minute and the length of an offset without a `:` after the two digits of its hour.
#[inline(always)]
fn hour_then_minute<E: Refusal>(front: u8x8, start: usize) -> Result<((u8, u8), usize), E>
    requires start { start + 3 ≤ usize.MAX }
    requires hour { fit_length (codes "00:00:00") front ≡ 2 }
    ensures numbers { result ≡ first_refusal_or (shifted start E.refusal) (offset_digits front)
        (Ok ((two_digit_value front 0, offset_minute front), offset_digits_size front)) }
    ensures small { IfOk result (λ front. (front.0.0 ≤ 99) × (front.0.1 ≤ 99)) }
    ensures placed { (size : ℕ) → start + fit_length (codes "00:00:00") front ≤ size
        → IfErr result (E.lies_within size) }
{
    let pattern = u8x8::splat(b'0');
    if fit_length(front, pattern) < 4 {
        return Err(E::refuse_at(ParseError::InvalidCharTzMinute, start + 2));
    }
    let [hour, _, minute, _, _, _, _, _] = digit_pairs(front, pattern, 4);
    Ok(((hour, minute), 4))
}

/// An offset of this size in seconds, with its sign: -3,600 west of UTC for 3,600.
pub fn with_sign(west: bool, size: u32) -> i32
    requires { size < seconds_per_day }
    ensures value { result ≡ with_sign west size }
    ensures range { IsOffset result }
{
    if west { -(size as i32) } else { size as i32 }
}

/// Appends the text of an offset, if there is one.
#[inline(always)]
pub(crate) fn push_offset<const LENGTH: usize>(offset: Option<i32>, text: &mut ArrayString<LENGTH>)
    requires range { ForSome offset IsOffset }
    requires room { array_string_len text.old + 6 ≤ LENGTH }
    ensures text { text.new.bytes ≡ text.old.bytes ++ offset_text offset }
    ensures short { array_string_len text.new ≤ array_string_len text.old + 6 }
{
    match offset {
        None => {}
        Some(0) => text.push('Z'),
        Some(seconds) => push_signed(seconds, text),
    }
}

/// Appends the sign, hours and minutes of an offset.
#[inline(always)]
fn push_signed<const LENGTH: usize>(offset: i32, text: &mut ArrayString<LENGTH>)
    requires range { IsOffset offset }
    requires room { array_string_len text.old + 6 ≤ LENGTH }
    ensures text { text.new.bytes
        ≡ text.old.bytes ++ (if is_negative offset then hyphen else plus_sign)
        ∷ offset_size_text (unsigned_abs offset) }
{
    let size = offset.unsigned_abs();
    text.push(if offset < 0 { '-' } else { '+' });
    text.push_str(two_digit_text((size / 3600) as u8));
    text.push(':');
    text.push_str(two_digit_text((size / 60 % 60) as u8));
}
