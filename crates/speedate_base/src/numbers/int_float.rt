//! Numbers as they are written in texts.

ghost use Rattle.std.specs.Prelude.{◌≡◌, ◌+◌, ◌-◌, ◌*◌, ◌^◌, ◌<◌, length, min, IsTrue};
ghost use Rattle.std.specs.Char.{is_ascii_digit};
ghost use Rattle.std.specs.List.{list_all};

use super::checked_with_sign;
use super::digits::{are_zeros, digits_number, long_run_end};

/// A decimal of any length: its sign, and the digits before and after its point, borrowed from a text.
/// The decimal of `"-1.50"` is negative, and has the digits `1` and `50`.
///
/// The type holds digits and nothing else, at least one in all. It replaces the `f64` of the Rust
/// crate: `DateTime::from_decimal_with_config` takes it where that has `from_float_with_config`.
#[derive(Clone, Copy, Debug)]
pub struct Decimal<'a> {
    /// Whether the text begins with `-`.
    pub negative: bool,
    /// The digits before the point.
    pub whole: &'a [u8],
    /// The digits after the point.
    pub fraction: &'a [u8],
    pub ghost whole_digits: { IsTrue (list_all is_ascii_digit whole.now) },
    pub ghost fraction_digits: { IsTrue (list_all is_ascii_digit fraction.now) },
    pub ghost some_digit: { 0 < length whole.now + length fraction.now },
}

impl<'a> Decimal<'a> {
    ghost use Rattle.std.specs.Option.{option_map};
    ghost use Rattle.speedate_base.specs.Numbers.{decimal_value, decimal_of_digits, scaled_decimal};

    /// The decimal of a sign and the digits before and after its point, such as `"-1.50"` for true,
    /// `b"1"` and `b"50"`. `None` if a byte is not a digit, or if there are no digits.
    pub fn new(negative: bool, whole: &'a [u8], fraction: &'a [u8]) -> Option<Self>
        ensures answer { option_map decimal_value result
            ≡ decimal_of_digits
            (record { negative = negative; whole = whole.now; fraction = fraction.now }) }
    {
        if !are_digits(whole)
            || !are_digits(fraction)
            || (whole.is_empty() && fraction.is_empty())
        {
            return None;
        }
        Some(Decimal {
            negative,
            whole,
            fraction,
        })
    }

    /// The decimal times ten to the power of `places`, if that is whole and fits an `i64`: 1,250, the
    /// cents of an amount, for the decimal of `"12.50"` and 2.
    ///
    /// Zeros at the end of the fraction do not matter, however many there are. `None` if another digit
    /// is left, as for `"12.345"` and 2, or if the number does not fit. `"-0.0"` gives 0.
    #[tactic(auto, using(crate::proofs::ScaledLemmas::scaled_rules))]
    pub fn scaled(self, places: u32) -> Option<i64>
        ensures answer { result ≡ scaled_decimal places (decimal_value self.entry) }
    {
        let count = self.fraction.len().min(places as usize);
        let (counted, rest) = self.fraction.split_at(count);
        if !are_zeros(rest) {
            return None;
        }
        let whole = scaled_size(digits_number(self.whole), places);
        let fraction = scaled_size(digits_number(counted), places - count as u32);
        checked_with_sign(self.negative, whole.saturating_add(fraction))
    }
}

/// Whether all bytes are digits.
fn are_digits(bytes: &[u8]) -> bool
    ensures { result ≡ list_all is_ascii_digit bytes.now }
{
    long_run_end(bytes, 0) == bytes.len()
}

/// What [`float_parse_str`](super::float_parse_str) returns: `Int(12)` from `"12"`.
#[derive(Clone, Copy, Debug)]
pub enum IntFloat<'a> {
    /// A whole number.
    Int(i64),
    /// A decimal.
    Float(Decimal<'a>),
    /// No number, or a whole number that does not fit an `i64`.
    Err,
}

impl IntFloat<'_> {
    ghost use Rattle.speedate_base.specs.Numbers.{is_no_number, number_value, scaled_number};

    /// Whether it is `Err`: true for the answer to `"1.5e3"`.
    pub fn is_err(&self) -> bool
        ensures tells { result ≡ is_no_number self.now }
    {
        matches!(self, IntFloat::Err)
    }

    /// The number times ten to the power of `places`, if that is whole and fits an `i64`: 1,200 for
    /// `"12"` and 2, and 1,250 for `"12.50"`. `None` as for [`Decimal::scaled`], and for `Err`.
    pub fn scaled(self, places: u32) -> Option<i64>
        ensures answer { result ≡ scaled_number places (number_value self.entry) }
    {
        match self {
            IntFloat::Int(number) => checked_with_sign(
                number < 0,
                scaled_size(number.unsigned_abs(), places),
            ),
            IntFloat::Float(decimal) => decimal.scaled(places),
            IntFloat::Err => None,
        }
    }
}

/// A size times ten to the power of `places`, or `u64::MAX` if that is larger: 1,200 for 12 and 2.
fn scaled_size(size: u64, places: u32) -> u64
    ensures size { result ≡ min (size * 10 ^ places) (2 ^ 64 - 1) }
{
    size.saturating_mul(10_u64.saturating_pow(places))
}
