//! Fractions of a second, by their digits.

ghost use Rattle.std.specs.Prelude.{◌≡◌, ◌+◌, ◌<◌, ◌≤◌, IfSome, length, nat_le, replicate, take};
ghost use Rattle.speedate_base.specs.Ascii.{digit_zero};
ghost use Rattle.speedate_base.specs.Config.{refuses_digits};
ghost use Rattle.speedate_base.specs.Digits.{run_length, run_digits, fraction_value, fit_length};
ghost use Rattle.speedate_base.specs.Requirement.{◌implies◌};

use super::digits::run_end;
use super::lanes::{LANES, digit_pairs, digits_in_front, eight_bytes};
use crate::config::MicrosecondsPrecisionOverflowBehavior as Behavior;
use std::simd::prelude::*;

/// A fraction of a second: how many digits it has, and the microsecond that they mean.
#[derive(Clone, Copy)]
pub struct Fraction {
    /// How many digits.
    pub length: usize,
    /// The microsecond, 0 to 999,999.
    pub microsecond: u32,
}

impl Fraction {
    /// The fraction whose digits begin at `place`: three digits that mean 120,000 microseconds for
    /// `b".120Z"` at place 1. Digits past the sixth are counted, and mean nothing.
    ///
    /// It takes a place, and not the slice from there: near the end of the text its one load of eight
    /// bytes begins before the place.
    #[inline(always)]
    pub fn read(bytes: &[u8], place: usize) -> Self
        requires { place ≤ length bytes.now }
        ensures length { result.length ≡ run_length bytes.now place }
        ensures microsecond { result.microsecond ≡ fraction_value 6 (run_digits bytes.now place) }
        ensures within { place + result.length ≤ length bytes.now }
        ensures small { result.microsecond ≤ 999999 }
    {
        let front = eight_bytes(bytes, place);
        let (length, microsecond) = match digits_in_front(front) {
            0 => (0, 0),
            LANES => (
                run_end(bytes, place + LANES) - place,
                six_places(front, LANES),
            ),
            count => (count, six_places(front, count)),
        };
        Fraction {
            length,
            microsecond,
        }
    }

    /// The fraction whose digits begin at `place`, if it has one to six of them, and eight bytes follow:
    /// three that mean 120,000 microseconds for `b".120+01:00"` at place 1. `None` for no digit, and for
    /// more than six.
    #[inline(always)]
    pub fn read_short(bytes: &[u8], place: usize) -> Option<Self>
        requires { place + 8 ≤ length bytes.now }
        ensures length { IfSome result (λ fraction. fraction.length ≡ run_length bytes.now place) }
        ensures microsecond { IfSome result (λ fraction. fraction.microsecond
            ≡ fraction_value 6 (run_digits bytes.now place)) }
        ensures some { IfSome result (λ fraction. 1 ≤ fraction.length) }
        ensures few { IfSome result (λ fraction. fraction.length ≤ 6) }
        ensures small { IfSome result (λ fraction. fraction.microsecond ≤ 999999) }
    {
        let front = eight_bytes(bytes, place);
        let length = digits_in_front(front);
        if length < 1 || length > 6 {
            return None;
        }
        Some(Fraction {
            length,
            microsecond: six_places(front, length),
        })
    }
}

/// The microsecond that the first `count` of eight bytes mean, which have to be digits: 120,000 for
/// three of `b"120+01:0"`.
#[inline(always)]
fn six_places(front: u8x8, count: usize) -> u32
    requires some { 1 ≤ count }
    requires digits { count ≤ fit_length (replicate 8 digit_zero) front }
    ensures microsecond { result ≡ fraction_value 6 (take count front) }
    ensures small { result ≤ 999999 }
{
    let [a, _, b, _, c, _, _, _] = digit_pairs(front, u8x8::splat(b'0'), count);
    10_000 * u32::from(a) + 100 * u32::from(b) + u32::from(c)
}

/// Whether a text may have `count` digits after its decimal mark, if the first `most` of them reach
/// the microsecond: 7 with a `most` of 6 is true for `Truncate` and false for `Error`.
pub fn takes_digits(behavior: Behavior, count: usize, most: usize) -> bool
    ensures taken { result ≡ (refuses_digits behavior implies nat_le count most) }
{
    match behavior {
        Behavior::Truncate => true,
        Behavior::Error => count <= most,
    }
}
