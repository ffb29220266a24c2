//! The ranges of several numbers, tested at once.

ghost use Rattle.std.specs.Prelude.{◌≡◌, ◌&&◌, IsTrue};
ghost use Rattle.speedate_base.specs.Digits.{are_at_most};

use speedate_base::numbers::eight_are_between;
use std::simd::prelude::*;

/// Whether each of eight numbers is between those of two arrays at its place. No number of the first array is
/// larger than the second's, which is a condition on the caller.
#[inline(always)]
pub(crate) fn are_in_ranges(numbers: [u8; 8], lowest: [u8; 8], highest: [u8; 8]) -> bool
    requires { IsTrue (are_at_most lowest highest) }
    ensures between { result ≡ (are_at_most lowest numbers && are_at_most numbers highest) }
{
    // As one number the fields of a struct are loaded at once, and not one after another.
    let lanes = u64x1::splat(u64::from_le_bytes(numbers)).to_le_bytes();
    eight_are_between(lanes, u8x8::from_array(lowest), u8x8::from_array(highest))
}
