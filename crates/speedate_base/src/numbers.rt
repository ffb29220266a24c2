//! Whole numbers and decimals, and the digits that they are made of.

ghost use Rattle.std.specs.Prelude.{◌≡◌, ◌==◌, ◌&&◌, ◌^◌, ◌<◌, ◌≤◌, length, nat_le, Some, None, if◌then◌else◌};
ghost use Rattle.speedate_base.specs.Ascii.{full_stop};
ghost use Rattle.speedate_base.specs.Digits.{digit, run_length, digits_value};
ghost use Rattle.speedate_base.specs.Numbers.{has_minus, sign_size, with_sign, signed_answer};
ghost use Rattle.speedate_base.specs.Numbers.{whole_number, point_place, decimal_answer};
ghost use Rattle.speedate_base.specs.Numbers.{number_answer, number_value, JoinsToFloat};

pub(crate) mod digits;
mod fraction;
mod int_float;
pub(crate) mod lanes;

use digits::{MOST_DIGITS, number_by_eights, spelled_number, without_zeros};
pub use digits::{
    DigitRun, byte_at, digit_run, first_colon, is_decimal_mark, run_end, two_digits,
    up_to_six_digits,
};
pub use fraction::{Fraction, takes_digits};
pub use int_float::{Decimal, IntFloat};
pub use lanes::{
    LANES, are_between, digit_pairs, eight_are_between, eight_bytes, first_eight, fit_length,
};

/// The whole number that a text is: -12 for `"-012"`.
///
/// A whole number is one optional `+` or `-` and one or more digits, leading zeros included, whose
/// value fits an `i64`. `None` for any other text.
pub fn int_parse_str(text: &str) -> Option<i64>
    ensures answer { result ≡ whole_number text.now }
{
    int_parse_bytes(text.as_bytes())
}

/// The whole number that the bytes are: -12 for `b"-012"`. The bytes need not be text; the rest is as
/// for [`int_parse_str`].
#[inline(always)]
pub fn int_parse_bytes(bytes: &[u8]) -> Option<i64>
    ensures answer { result ≡ whole_number bytes.now }
{
    let (negative, start) = sign(bytes);
    // Most texts that are not numbers are refused here.
    if !byte_at(bytes, start).is_ascii_digit() {
        return None;
    }
    signed_number(negative, &bytes[start..])
}

/// The number that bytes spell if they are digits, with a sign, if it fits an `i64`.
#[inline(always)]
fn signed_number(negative: bool, digits: &[u8]) -> Option<i64>
    ensures value { result ≡ (if run_length digits.now 0 == length digits.now
        then signed_answer negative (digits_value digits.now) else None) }
{
    // Digits without zeros in front fit only if they are few. This calls nothing, so that short
    // numbers save no registers for a call.
    let digits = without_zeros(digits);
    if digits.len() > MOST_DIGITS {
        return None;
    }
    match number_by_eights(digits) {
        Ok(size) => checked_with_sign(negative, size),
        Err(_) => None,
    }
}

/// The number that a text is: `IntFloat::Int(12)` for `"12"`, the decimal of the digits `1` and `50`
/// for `"-1.50"`, `IntFloat::Err` for `"1.5e3"`.
///
/// A whole number is one that [`int_parse_str`] parses. A decimal is one optional `+` or `-`,
/// digits, one `.` and digits, with a digit on one side at least. There are no exponents and no
/// floats: a [`Decimal`] borrows its digits from the text, so it is exact at any length. Any other
/// text, and a whole number that does not fit an `i64`, is `Err`.
#[inline(always)]
pub fn float_parse_str(text: &str) -> IntFloat<'_>
    ensures answer { number_value result ≡ number_answer text.now }
    ensures joined { JoinsToFloat result text.now }
{
    float_parse_bytes(text.as_bytes())
}

/// The number that the bytes are: `IntFloat::Int(12)` for `b"12"`. The bytes need not be text; the rest
/// is as for [`float_parse_str`].
#[inline(always)]
pub fn float_parse_bytes(bytes: &[u8]) -> IntFloat<'_>
    ensures answer { number_value result ≡ number_answer bytes.now }
    ensures joined { JoinsToFloat result bytes.now }
{
    let (negative, start) = sign(bytes);
    // Most texts that are not numbers are refused here.
    if !may_begin_digits(byte_at(bytes, start)) {
        return IntFloat::Err;
    }
    match spelled_number(&bytes[start..]) {
        Ok(size) => match checked_with_sign(negative, size) {
            Some(number) => IntFloat::Int(number),
            None => IntFloat::Err,
        },
        Err(count) => decimal(bytes, negative, start, start + count),
    }
}

/// Whether a byte is a digit, `.` or `/`. No number begins with `/`, but it lies between the
/// others, so that one comparison finds them.
#[inline(always)]
fn may_begin_digits(byte: u8) -> bool
    ensures { result ≡ (nat_le full_stop byte && nat_le byte (digit 9)) }
{
    byte >= b'.' && byte <= b'9'
}

/// The decimal whose digits begin at `start`, and whose point is at `point` if there is one.
#[inline(always)]
#[tactic(auto, using(crate::proofs::NumberLemmas::part_rules))]
fn decimal(bytes: &[u8], negative: bool, start: usize, point: usize) -> IntFloat<'_>
    requires negative { negative ≡ has_minus bytes.now }
    requires start { start ≡ sign_size bytes.now }
    requires point { point ≡ point_place bytes.now }
    requires within { point < length bytes.now }
    ensures answer { number_value result ≡ decimal_answer bytes.now }
{
    if bytes[point] != b'.'
        || run_end(bytes, point + 1) != bytes.len()
        || bytes.len() == start + 1
    {
        return IntFloat::Err;
    }
    IntFloat::Float(Decimal {
        negative,
        whole: &bytes[start..point],
        fraction: &bytes[point + 1..],
    })
}

/// Whether a text begins with `-`, and how many bytes its sign has: false and 1 for `b"+12"`, true and
/// 1 for `b"-12"`, false and 0 for `b"12"`, which has none.
#[inline(always)]
pub fn sign(bytes: &[u8]) -> (bool, usize)
    ensures negative { result.0 ≡ has_minus bytes.now }
    ensures length { result.1 ≡ sign_size bytes.now }
    ensures within { result.1 ≤ length bytes.now }
{
    match bytes {
        [b'-', ..] => (true, 1),
        [b'+', ..] => (false, 1),
        _ => (false, 0),
    }
}

/// A size with its sign: -12 for true and 12. The size is at most `i64::MAX`.
pub fn with_sign(negative: bool, size: u64) -> i64
    requires { size < 2 ^ 63 }
    ensures number { result ≡ with_sign negative size }
{
    let number = size as i64;
    if negative { -number } else { number }
}

/// A size with its sign, if it fits an `i64`.
fn checked_with_sign(negative: bool, size: u64) -> Option<i64>
    ensures value { result ≡ signed_answer negative size }
{
    if size <= i64::MAX as u64 {
        Some(with_sign(negative, size))
    } else if negative && size == 1 << 63 {
        Some(i64::MIN)
    } else {
        None
    }
}
