//! Digits and bytes at places of a text, and digits in runs.

ghost use Rattle.std.specs.Prelude.{◌≡◌, ◌+◌, ◌-◌, ◌^◌, ◌<◌, ◌≤◌, length, drop, min, nat_le, ◌==◌, slice_index, IsTrue, IfSome, Some, None, Ok, Err, if◌then◌else◌};
ghost use Rattle.std.specs.Char.{is_ascii_digit};
ghost use Rattle.std.specs.List.{list_all, position};
ghost use Rattle.speedate_base.specs.Ascii.{colon};
ghost use Rattle.speedate_base.specs.Digits.{is_decimal_mark, one_digit_value, two_digits_at};
ghost use Rattle.speedate_base.specs.Digits.{two_digit_value, run_length, run_value, digits_value};
ghost use Rattle.speedate_base.specs.Digits.{zeros_length};

use super::lanes::{
    LANES, MANY_LANES, digits_in_front, digits_in_sixteen, eight_digits, zeros_in_sixteen,
};
use std::simd::prelude::*;

/// A run of digits: how many they are, and the number that they spell. [`digit_run`] returns it.
#[derive(Clone, Copy, Debug)]
pub struct DigitRun {
    /// How many digits.
    pub length: usize,
    /// The number that they spell, or `u64::MAX` if it is larger.
    pub value: u64,
}

/// How many digits are read one by one on the way to their end.
const FEW: usize = 6;

/// How many digits `u64::MAX` has.
pub(crate) const MOST_DIGITS: usize = 20;

/// How many bytes are parsed as a number eight at a time, even with zeros at their front.
const MOST_BY_EIGHTS: usize = 40;

/// The run of digits at the front of bytes: 3 digits that spell 120 for `b"120.5"`, none for `b".5"`.
#[inline(always)]
pub fn digit_run(bytes: &[u8]) -> DigitRun
    ensures length { result.length ≡ run_length bytes.now 0 }
    ensures value { result.value ≡ min (run_value bytes.now 0) (2 ^ 64 - 1) }
{
    // Most runs are short, and one pass gives their length and their value.
    match up_to_six_digits(bytes) {
        Some((value, length)) => DigitRun {
            length,
            value: u64::from(value),
        },
        None => long_run(bytes),
    }
}

/// The number that the digits at the front of bytes spell, and how many they are: 120 and 3 for `b"120."`,
/// 0 and 0 for `b"."`. `None` if there are more than six.
#[inline(always)]
pub fn up_to_six_digits(bytes: &[u8]) -> Option<(u32, usize)>
    ensures answer { result ≡ (if nat_le (run_length bytes.now 0) 6
        then Some (run_value bytes.now 0, run_length bytes.now 0) else None) }
    ensures small { IfSome result (λ few. few.0 < 1000000) }
    ensures within { IfSome result (λ few. few.1 ≤ length bytes.now) }
{
    let mut value = 0;
    let mut size = 0;
    while byte_at(bytes, size).is_ascii_digit() {
        if size == FEW {
            return None;
        }
        value = 10 * value + u32::from(byte_at(bytes, size) - b'0');
        size += 1;
    }
    Some((value, size))
}

/// The run of digits at the front of bytes, of any length: sixteen digits at a time.
#[tactic(auto, using(crate::proofs::NumberLemmas::front_digits))]
fn long_run(bytes: &[u8]) -> DigitRun
    ensures length { result.length ≡ run_length bytes.now 0 }
    ensures value { result.value ≡ min (run_value bytes.now 0) (2 ^ 64 - 1) }
{
    let length = long_run_end(bytes, 0);
    DigitRun {
        length,
        value: digits_number(&bytes[..length]),
    }
}

/// Where the digits from `place` on end: at place 4 for `b"x120."` and place 1. The place is at most
/// the length.
#[inline(always)]
#[tactic(auto, using(crate::proofs::BlockLemmas::block_on))]
pub fn run_end(bytes: &[u8], place: usize) -> usize
    requires { place ≤ length bytes.now }
    ensures end { result ≡ place + run_length bytes.now place }
    ensures within { result ≤ length bytes.now }
{
    let mut end = place;
    while end < bytes.len() {
        if bytes.len() - end < LANES {
            if !bytes[end].is_ascii_digit() {
                return end;
            }
            end += 1;
        } else {
            let count = digits_in_front(u8x8::from_slice(&bytes[end..]));
            if count < LANES {
                return end + count;
            }
            end += LANES;
        }
    }
    end
}

/// What [`run_end`] finds, for a run that may be long: sixteen digits at a time.
#[inline(always)]
pub(crate) fn long_run_end(bytes: &[u8], place: usize) -> usize
    requires { place ≤ length bytes.now }
    ensures end { result ≡ place + run_length bytes.now place }
    ensures within { result ≤ length bytes.now }
{
    if bytes.len() - place < MANY_LANES {
        return run_end(bytes, place);
    }
    let blocks = (bytes.len() - place) / MANY_LANES;
    for block in 0..blocks {
        let start = place + MANY_LANES * block;
        if let Some(count) = digits_in_sixteen(u8x16::from_slice(&bytes[start..])) {
            return start + count;
        }
    }
    run_end(bytes, place + MANY_LANES * blocks)
}

/// The number that digits spell, or `u64::MAX` if it is larger: 120 for `b"120"`.
#[inline(always)]
#[tactic(auto, using(crate::proofs::BlockLemmas::number_rules))]
pub(crate) fn digits_number(digits: &[u8]) -> u64
    requires { IsTrue (list_all is_ascii_digit digits.now) }
    ensures value { result ≡ min (digits_value digits.now) (2 ^ 64 - 1) }
{
    let digits = without_zeros(digits);
    if digits.len() > MOST_DIGITS {
        return u64::MAX;
    }
    number_by_eights(digits).unwrap()
}

/// The number that bytes spell if they are digits, or `u64::MAX` if it is larger; otherwise, as an
/// error, the place of the first byte that is not a digit. It is 120 for `b"120"`, 0 for no bytes,
/// and place 2 for `b"12.0"`.
#[inline(always)]
pub(crate) fn spelled_number(digits: &[u8]) -> Result<u64, usize>
    ensures answer { result ≡ (if run_length digits.now 0 == length digits.now
        then Ok (min (digits_value digits.now) (2 ^ 64 - 1)) else Err (run_length digits.now 0)) }
{
    if digits.len() > MOST_BY_EIGHTS {
        return long_number(digits);
    }
    number_by_eights(digits)
}

/// The number of [`spelled_number`], for many bytes: digits without the zeros at their front are few, or
/// spell a larger number than `u64::MAX`.
#[cold]
fn long_number(digits: &[u8]) -> Result<u64, usize>
    ensures answer { result ≡ (if run_length digits.now 0 == length digits.now
        then Ok (min (digits_value digits.now) (2 ^ 64 - 1)) else Err (run_length digits.now 0)) }
{
    let zeros = zeros_in_front(digits);
    let end = long_run_end(digits, zeros);
    if end < digits.len() {
        return Err(end);
    }
    if end - zeros > MOST_DIGITS {
        return Ok(u64::MAX);
    }
    number_by_eights(&digits[zeros..])
}

/// Bytes without the zeros at their front, if they are more than twenty: `b"12"` for
/// forty zeros and `12`, and `b"0012"` for itself.
#[inline(always)]
pub(crate) fn without_zeros(bytes: &[u8]) -> &[u8]
    ensures run { (run_length result.now 0 == length result.now)
        ≡ (run_length bytes.now 0 == length bytes.now) }
    ensures value { digits_value result.now ≡ digits_value bytes.now }
    ensures large { run_length result.now 0 ≡ length result.now → MOST_DIGITS < length result.now
        → 2 ^ 64 ≤ digits_value result.now }
{
    if bytes.len() <= MOST_DIGITS {
        return bytes;
    }
    &bytes[zeros_in_front(bytes)..]
}

/// Whether digits are all zeros, so that they spell 0: true for `b"000"` and for no digits, false for
/// `b"001"`.
#[tactic(auto, using(crate::proofs::ZeroLemmas::zero_tests))]
pub(crate) fn are_zeros(digits: &[u8]) -> bool
    requires { IsTrue (list_all is_ascii_digit digits.now) }
    ensures { result ≡ (digits_value digits.now == 0) }
{
    // Often there are none.
    digits.is_empty() || zeros_in_front(digits) == digits.len()
}

/// The number of zeros at the front of bytes: 3 for `b"00012"`.
#[inline(always)]
fn zeros_in_front(bytes: &[u8]) -> usize
    ensures count { result ≡ zeros_length bytes.now }
    ensures within { result ≤ length bytes.now }
{
    if bytes.len() < MANY_LANES {
        return zeros_byte_by_byte(bytes);
    }
    let blocks = bytes.len() / MANY_LANES;
    for block in 0..blocks {
        let start = MANY_LANES * block;
        if let Some(count) = zeros_in_sixteen(u8x16::from_slice(&bytes[start..])) {
            return start + count;
        }
    }
    let start = MANY_LANES * blocks;
    start + zeros_byte_by_byte(&bytes[start..])
}

/// What [`zeros_in_front`] counts, for few bytes.
#[inline(always)]
fn zeros_byte_by_byte(bytes: &[u8]) -> usize
    ensures count { result ≡ zeros_length bytes.now }
    ensures within { result ≤ length bytes.now }
{
    let mut count = 0;
    while count < bytes.len() && bytes[count] == b'0' {
        count += 1;
    }
    count
}

/// The number of [`spelled_number`], from eight bytes at a time.
#[inline(always)]
pub(crate) fn number_by_eights(digits: &[u8]) -> Result<u64, usize>
    ensures answer { result ≡ (if run_length digits.now 0 == length digits.now
        then Ok (min (digits_value digits.now) (2 ^ 64 - 1)) else Err (run_length digits.now 0)) }
{
    // The digits that are left over from eights come first: after them each eight multiplies what was
    // read by the same power of ten.
    let mut place = digits.len() % LANES;
    let mut value = digit_by_digit(&digits[..place])?;
    while place < digits.len() {
        let lanes = u8x8::from_slice(&digits[place..]);
        let count = digits_in_front(lanes);
        if count < LANES {
            return Err(place + count);
        }
        value = value
            .saturating_mul(100_000_000)
            .saturating_add(eight_digits(lanes));
        place += LANES;
    }
    Ok(value)
}

/// The number that fewer than eight bytes spell if they are digits; otherwise, as an error, the
/// place of the first byte that is not a digit.
#[tactic(auto, using(crate::proofs::DigitRunLemmas::one_more_digit))]
pub(crate) fn digit_by_digit(digits: &[u8]) -> Result<u64, usize>
    requires { length digits.now < LANES }
    ensures answer { result ≡ (if run_length digits.now 0 == length digits.now
        then Ok (digits_value digits.now) else Err (run_length digits.now 0)) }
{
    let mut value = 0;
    for place in 0..digits.len() {
        if !digits[place].is_ascii_digit() {
            return Err(place);
        }
        value = 10 * value + u64::from(digits[place] - b'0');
    }
    Ok(value)
}

/// The number that the two digits from `place` on spell: 7 for `b"07"` at place 0. `None` if one of the
/// two bytes is not a digit. The text has both, which is a condition on the caller. The two tests are
/// apart: joining them with `&&` was rejected.
pub fn two_digits(bytes: &[u8], place: usize) -> Option<u8>
    requires { place + 2 ≤ length bytes.now }
    ensures value { result ≡ (if two_digits_at bytes.now place
        then Some (two_digit_value bytes.now place) else None) }
{
    let tens = digit(bytes[place])?;
    let ones = digit(bytes[place + 1])?;
    Some(10 * tens + ones)
}

/// The value of a digit, or `None` if the byte is not a digit.
fn digit(byte: u8) -> Option<u8>
    ensures value { result ≡ (if is_ascii_digit byte then Some (one_digit_value byte) else None) }
{
    if byte.is_ascii_digit() {
        Some(byte - b'0')
    } else {
        None
    }
}

/// The byte at a place, or 0 after the end: `b':'` for `b"12:13"` at place 2, 0 at place 5.
pub fn byte_at(bytes: &[u8], place: usize) -> u8
    ensures byte { result ≡ slice_index bytes.now place }
{
    if place < bytes.len() { bytes[place] } else { 0 }
}

/// Whether a byte is a decimal mark, `.` or `,`: both are in ISO 8601.
pub fn is_decimal_mark(byte: u8) -> bool
    ensures value { result ≡ is_decimal_mark byte }
{
    byte == b'.' || byte == b','
}

/// The place of the first colon: 2 for `b"12:13"`. `None` if there is none.
pub fn first_colon(bytes: &[u8]) -> Option<usize>
    ensures place { result ≡ position (λ byte. byte == colon) bytes.now }
    ensures within { IfSome result (λ place. place ≤ length bytes.now) }
{
    bytes.iter().position(|&byte| byte == b':')
}
