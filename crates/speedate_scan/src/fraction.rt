//! The digits of a second that the text of a value has: the library reads six, and a line may have nine.

ghost use Rattle.std.specs.Prelude.{◌≡◌, ◌≤◌};
ghost use Rattle.speedate_scan.specs.Fraction.{fraction_digit, fraction_size, past_microsecond};
ghost use Rattle.speedate_scan.specs.Fraction.{value_past_microsecond};

use crate::form::Form;
use speedate_base::numbers::{byte_at, is_decimal_mark, run_end};

/// How many digits the text of a date-time has after its second: 3 in `b"2026-11-22T06:10:00.120Z"`.
#[tactic(auto, unfolding(crate::specs::Fraction::fraction_size))]
pub fn fraction_size(text: &[u8]) -> usize
    ensures size { result ≡ fraction_size text.now }
{
    if is_decimal_mark(byte_at(text, 19)) {
        run_end(text, 20) - 20
    } else {
        0
    }
}

/// A digit of a fraction of so many digits in the text of a date-time, by its number: 0 if there is none.
fn fraction_digit(text: &[u8], size: usize, number: usize) -> u8
    requires number { number ≤ 9 }
    ensures digit { result ≡ fraction_digit text.now size number }
{
    if number <= size {
        byte_at(text, 19 + number).saturating_sub(b'0')
    } else {
        0
    }
}

/// The nanoseconds that the text of a date-time has past its microsecond: 789 in
/// `b"2026-11-22T06:10:00.123456789Z"`.
#[inline(always)]
#[tactic(auto, using(crate::proofs::FractionLemmas::no_seventh))]
fn past_microsecond(text: &[u8]) -> u32
    ensures nanoseconds { result ≡ past_microsecond text.now }
{
    // Few texts have a seventh digit.
    if byte_at(text, 26).is_ascii_digit() {
        last_digits(text)
    } else {
        0
    }
}

/// The same, of a text that may have a seventh digit.
#[inline(never)]
fn last_digits(text: &[u8]) -> u32
    ensures nanoseconds { result ≡ past_microsecond text.now }
{
    let size = fraction_size(text);
    100 * u32::from(fraction_digit(text, size, 7))
        + 10 * u32::from(fraction_digit(text, size, 8))
        + u32::from(fraction_digit(text, size, 9))
}

/// The nanoseconds of a value past its microsecond, by its text: dates have none, and the library rounds Unix
/// timestamps to microseconds.
#[inline(always)]
pub fn value_past_microsecond(form: Form, text: &[u8]) -> u32
    ensures nanoseconds { result ≡ value_past_microsecond form text.now }
{
    match form {
        Form::DateTime | Form::Strict => past_microsecond(text),
        Form::Date | Form::Timestamp(_) => 0,
    }
}
