//! Fractions of a unit of time, rounded by their digits.

ghost use Rattle.std.specs.Prelude.{◌≡◌, ℤ, ◌+◌, ◌-◌, ◌*◌, ◌^◌, ◌<◌, ◌≤◌, length, IsTrue, IfSome, Some, None, if◌then◌else◌};
ghost use Rattle.std.specs.Char.{is_ascii_digit};
ghost use Rattle.std.specs.List.{list_all};
ghost use Rattle.speedate_base.specs.Digits.{digits_value};
ghost use Rattle.speedate_base.specs.Nearest.{IsNearest, nearest, quotient, rest_bounds};
ghost use Rattle.speedate_base.specs.Nearest.{sixteen_digits_suffice};
ghost use Rattle.speedate_base.specs.Numbers.{with_sign};

use crate::numbers::digits::{are_zeros, digit_by_digit};
use crate::numbers::lanes::{LANES, eight_digits};
use std::simd::prelude::*;

/// The microseconds of the largest unit, a year of 365 days.
pub const LARGEST_UNIT_MICROSECONDS: u64 = 31_536_000_000_000;

const _: () = prove!(LARGEST_UNIT_MICROSECONDS == 365 * 86_400 * 1_000_000);

/// The microseconds of a day.
const DAY_MICROSECONDS: u64 = 86_400_000_000;

/// How many digits of a fraction are read first.
const SIXTEEN: usize = 2 * LANES;

/// The nearest microseconds of a fraction of a unit: 500,000 for the digit `5` of a second. The
/// unit is given by its microseconds. A tie goes to the later microsecond: to the smaller number if
/// the fraction belongs to a negative number.
#[tactic(auto, using(crate::proofs::NearestLemmas::nearest_rules))]
pub fn nearest_microseconds(digits: &[u8], unit: u64, negative: bool) -> u64
    requires digits { IsTrue (list_all is_ascii_digit digits.now) }
    requires unit { unit ≤ LARGEST_UNIT_MICROSECONDS }
    ensures nearest { with_sign negative result
        ≡ nearest (with_sign negative (digits_value digits.now * unit)) (10 ^ length digits.now) }
    ensures only { (m : ℤ)
        → IsNearest (with_sign negative (digits_value digits.now * unit)) (10 ^ length digits.now) m
        → m ≡ with_sign negative result }
    ensures within { result ≤ unit }
{
    let twice = twice_microseconds(digits, unit, negative);
    if negative { twice / 2 } else { (twice + 1) / 2 }
}

/// Twice the microseconds of a fraction of a unit, rounded down, or up: 1 and 2 for the digits
/// `00000075` of a second. The unit is given by its microseconds.
pub fn twice_microseconds(digits: &[u8], unit: u64, up: bool) -> u64
    requires digits { IsTrue (list_all is_ascii_digit digits.now) }
    requires unit { unit ≤ LARGEST_UNIT_MICROSECONDS }
    ensures twice { result
        ≡ quotient up (2 * (digits_value digits.now * unit)) (10 ^ length digits.now) }
    ensures within { result ≤ 2 * unit }
{
    // Sixteen digits nearly always decide, however many more there are.
    if digits.len() > SIXTEEN {
        if let Some(twice) = from_sixteen_digits(digits, unit, up) {
            return twice;
        }
    }
    rounded_by_eights(digits, unit, up)
}

/// Twice the microseconds of a fraction, if its first sixteen digits determine them: 1 for
/// `b"00000075000000009"` of a second, rounded down. `None` if they depend on the digits after
/// those, as for `b"33333333333333333"` of three seconds.
fn from_sixteen_digits(digits: &[u8], unit: u64, up: bool) -> Option<u64>
    requires long { SIXTEEN ≤ length digits.now }
    requires digits { IsTrue (list_all is_ascii_digit digits.now) }
    requires unit { unit ≤ LARGEST_UNIT_MICROSECONDS }
    ensures told { result ≡ (if sixteen_digits_suffice up unit digits.now
        then Some (quotient up (2 * (digits_value digits.now * unit)) (10 ^ length digits.now))
        else None) }
    ensures within { IfSome result (λ twice. twice ≤ 2 * unit) }
{
    let first = eight_digits(u8x8::from_slice(digits));
    let second = eight_digits(u8x8::from_slice(&digits[LANES..]));
    let (smallest, largest) = rest_bounds(&digits[SIXTEEN..], unit, up);
    let least = sixteen_taken(first, second, smallest, unit, up);
    let most = sixteen_taken(first, second, largest, unit, up);
    if least == most { Some(least) } else { None }
}

/// A lower and an upper bound of twice the microseconds of digits: 0 and 1,999,999 for `b"25"` of a
/// second, rounded down, and 1 and 2,000,000, rounded up. Rounded up, both are 0 if all are zeros.
#[tactic(auto, using(std::proofs::lemmas::Bool::Decides::nat_tests))]
fn rest_bounds(digits: &[u8], unit: u64, up: bool) -> (u64, u64)
    requires digits { IsTrue (list_all is_ascii_digit digits.now) }
    requires unit { unit ≤ LARGEST_UNIT_MICROSECONDS }
    ensures bounds { (result.0, result.1) ≡ rest_bounds up unit digits.now }
    ensures smallest { result.0 ≤ 2 * unit }
    ensures largest { result.1 ≤ 2 * unit }
{
    // A fraction is less than a whole unit.
    if !up {
        return (0, (2 * unit).saturating_sub(1));
    }
    if are_zeros(digits) {
        return (0, 0);
    }
    (unit.min(1), 2 * unit)
}

/// Twice the microseconds of sixteen digits, given by the numbers that the first eight and the
/// other eight spell. `rest` belongs to the digits after them.
#[inline(always)]
fn sixteen_taken(first: u64, second: u64, rest: u64, unit: u64, up: bool) -> u64
    requires first { first < 100000000 }
    requires second { second < 100000000 }
    requires rest { rest ≤ 2 * unit }
    requires unit { unit ≤ LARGEST_UNIT_MICROSECONDS }
    ensures twice { result
        ≡ quotient up (2 * ((first * 100000000 + second) * unit) + rest) (10 ^ SIXTEEN) }
    ensures within { result ≤ 2 * unit }
{
    let later = quotient_by_halves(second, rest, unit, up);
    quotient_by_halves(first, later, unit, up)
}

/// Twice the microseconds of a fraction of a unit, from all of its digits.
///
/// A step takes eight digits, the last ones first, and rounds. What is rounded so early is less than
/// one of what is counted next, so the whole is rounded once.
fn rounded_by_eights(digits: &[u8], unit: u64, up: bool) -> u64
    requires digits { IsTrue (list_all is_ascii_digit digits.now) }
    requires unit { unit ≤ LARGEST_UNIT_MICROSECONDS }
    ensures twice { result
        ≡ quotient up (2 * (digits_value digits.now * unit)) (10 ^ length digits.now) }
    ensures within { result ≤ 2 * unit }
{
    let mut place = digits.len() - digits.len() % LANES;
    let mut twice = last_digits_taken(&digits[place..], unit, up);
    while place > 0 {
        place -= LANES;
        let value = eight_digits(u8x8::from_slice(&digits[place..]));
        twice = digits_taken(value, twice, unit, up);
    }
    twice
}

/// Twice the microseconds of fewer than eight digits, the last ones: with zeros after them they are
/// eight.
fn last_digits_taken(digits: &[u8], unit: u64, up: bool) -> u64
    requires short { length digits.now < LANES }
    requires digits { IsTrue (list_all is_ascii_digit digits.now) }
    requires unit { unit ≤ LARGEST_UNIT_MICROSECONDS }
    ensures twice { result
        ≡ quotient up (2 * (digits_value digits.now * unit)) (10 ^ length digits.now) }
    ensures within { result ≤ 2 * unit }
{
    digits_taken(number_to_places(digits, LANES), 0, unit, up)
}

/// What fewer than eight digits spell, with zeros after them up to a number of places: 120,000 for
/// `b"12"` and six places.
#[tactic(auto, using(crate::proofs::RoundingLemmas::filled_rules))]
pub(super) fn number_to_places(digits: &[u8], places: usize) -> u64
    requires short { length digits.now < LANES }
    requires places { (length digits.now ≤ places) × (places ≤ 8) }
    requires digits { IsTrue (list_all is_ascii_digit digits.now) }
    ensures value { result ≡ digits_value digits.now * 10 ^ (places - length digits.now) }
    ensures small { result < 10 ^ places }
{
    digit_by_digit(digits).unwrap() * power_of_ten(places - digits.len())
}

/// Ten to a power up to the eighth.
pub(super) fn power_of_ten(exponent: usize) -> u64
    requires { exponent ≤ 8 }
    ensures { result ≡ 10 ^ exponent }
{
    match exponent {
        0 => 1,
        1 => 10,
        2 => 100,
        3 => 1_000,
        4 => 10_000,
        5 => 100_000,
        6 => 1_000_000,
        7 => 10_000_000,
        _ => 100_000_000,
    }
}

/// Twice the microseconds of eight digits that spell a value, where `rest` belongs to the digits
/// after them.
#[inline(always)]
#[tactic(auto, using(crate::proofs::NearestLemmas::part_rules))]
fn digits_taken(value: u64, rest: u64, unit: u64, up: bool) -> u64
    requires value { value < 100000000 }
    requires rest { rest ≤ 2 * unit }
    requires unit { unit ≤ LARGEST_UNIT_MICROSECONDS }
    ensures twice { result ≡ quotient up (2 * (value * unit) + rest) 100000000 }
    ensures within { result ≤ 2 * unit }
{
    // Up to a unit of a day the sum fits 64 bits; above that it needs 128, whose division is a call.
    if unit <= DAY_MICROSECONDS {
        return scaled_quotient(value, rest, unit, 100_000_000, up);
    }
    let sum = 2 * (u128::from(value) * u128::from(unit)) + u128::from(rest);
    if up {
        ((sum + 99_999_999) / 100_000_000) as u64
    } else {
        (sum / 100_000_000) as u64
    }
}

/// What [`digits_taken`] returns, in 64 bits for all units: a step for each four of the eight digits.
#[inline(always)]
fn quotient_by_halves(value: u64, rest: u64, unit: u64, up: bool) -> u64
    requires value { value < 100000000 }
    requires rest { rest ≤ 2 * unit }
    requires unit { unit ≤ LARGEST_UNIT_MICROSECONDS }
    ensures twice { result ≡ quotient up (2 * (value * unit) + rest) 100000000 }
    ensures within { result ≤ 2 * unit }
{
    let later = scaled_quotient(value % 10_000, rest, unit, 10_000, up);
    scaled_quotient(value / 10_000, later, unit, 10_000, up)
}

/// Twice the microseconds of digits that spell a value below the scale, where `rest` belongs to the
/// digits after them.
#[inline(always)]
#[tactic(auto, using(crate::proofs::NearestLemmas::part_rules))]
fn scaled_quotient(value: u64, rest: u64, unit: u64, scale: u64, up: bool) -> u64
    requires value { value < scale }
    requires rest { rest ≤ 2 * unit }
    requires fits { 2 * (scale * unit) + scale < 2 ^ 64 }
    ensures twice { result ≡ quotient up (2 * (value * unit) + rest) scale }
    ensures within { result ≤ 2 * unit }
{
    let sum = 2 * (value * unit) + rest;
    if up {
        (sum + (scale - 1)) / scale
    } else {
        sum / scale
    }
}
