//! Texts of a fixed form, and digits, eight or sixteen bytes at a time.

ghost use Rattle.std.specs.Prelude.{◌≡◌, ℕ, ◌+◌, ◌-◌, ◌*◌, ◌^◌, ◌<◌, ◌≤◌, ◌&&◌, nat_lt, IsTrue, Some, None, if◌then◌else◌, length, drop, slice_index};
ghost use Rattle.std.specs.Char.{is_ascii_digit};
ghost use Rattle.std.specs.List.{list_all, prefix_len};
ghost use Rattle.speedate_base.specs.Digits.{are_at_most, digits_value, eight_at, fit_length};
ghost use Rattle.speedate_base.specs.Digits.{fit_digits, digit_pairs, zeros_length};

use super::digits::byte_at;
use std::simd::prelude::*;

/// How many bytes are looked at together.
pub const LANES: usize = 8;

/// How many are looked at together in a long text.
pub(crate) const MANY_LANES: usize = 16;

/// The eight bytes from `place` on, with 0 for those after the end: `b"7.5\0\0\0\0\0"` for
/// `b"12:13:07.5"` at place 7. The place is at most the length.
#[inline(always)]
pub fn eight_bytes(bytes: &[u8], place: usize) -> u8x8
    requires { place ≤ length bytes.now }
    ensures bytes { result ≡ eight_at bytes.now place }
{
    let left = bytes.len() - place;
    if left >= LANES {
        return first_eight(&bytes[place..]);
    }
    // One load, which begins before the place, in place of two.
    if bytes.len() >= LANES {
        return load_tail(&bytes[bytes.len() - LANES..], left);
    }
    load_short(&bytes[place..])
}

/// The first eight bytes of a text that has as many, which is a condition on the caller.
#[inline(always)]
pub fn first_eight(bytes: &[u8]) -> u8x8
    requires { 8 ≤ length bytes.now }
    ensures bytes { result ≡ eight_at bytes.now 0 }
{
    u8x8::from_slice(bytes)
}

/// The last `left` of eight bytes, and 0 after them.
#[inline(always)]
fn load_tail(bytes: &[u8], left: usize) -> u8x8
    requires long { length bytes.now ≡ LANES }
    requires few { left < LANES }
    ensures bytes { result ≡ eight_at (drop (LANES - left) bytes.now) 0 }
{
    let word = u64::from_le_bytes(u8x8::from_slice(bytes).to_array());
    // Two shifts, since one of 64 bits is none.
    u64x1::splat(word >> 8 >> (8 * (LANES - 1 - left))).to_le_bytes()
}

/// Fewer than eight bytes, and 0 after them.
#[inline(always)]
fn load_short(bytes: &[u8]) -> u8x8
    requires few { length bytes.now < LANES }
    ensures bytes { result ≡ eight_at bytes.now 0 }
{
    if bytes.len() < 4 {
        let [a, b, c] = [byte_at(bytes, 0), byte_at(bytes, 1), byte_at(bytes, 2)];
        return u8x8::from_array([a, b, c, 0, 0, 0, 0, 0]);
    }
    // Two loads of four bytes, and not one for each byte. The second may begin with bytes that the first
    // has too: these are shifted out.
    let shared = 8 * (LANES - bytes.len());
    let word = four_bytes(bytes) + (four_bytes(&bytes[bytes.len() - 4..]) >> shared) * (1 << 32);
    u64x1::splat(word).to_le_bytes()
}

/// The first four bytes as one number, the first one lowest.
#[inline(always)]
fn four_bytes(bytes: &[u8]) -> u64
    requires { 4 ≤ length bytes.now }
    ensures value { result ≡ slice_index bytes.now 0 + 256 * slice_index bytes.now 1
        + 65536 * slice_index bytes.now 2 + 16777216 * slice_index bytes.now 3 }
    ensures small { result < 2 ^ 32 }
{
    u64::from(u32::from_le_bytes([bytes[0], bytes[1], bytes[2], bytes[3]]))
}

/// How many of eight bytes, from the first on, fit a pattern, in which `0` means a digit and any
/// other byte itself: 4 for `b"2020/02/"` and the pattern `b"0000-00-"`.
#[inline(always)]
pub fn fit_length(lanes: u8x8, pattern: u8x8) -> usize
    ensures count { result ≡ fit_length pattern lanes }
{
    let digits = pattern.simd_eq(u8x8::splat(b'0'));
    let largest = digits.select(u8x8::splat(9), u8x8::splat(0));
    let others = (lanes - pattern).simd_gt(largest);
    (others.to_bitmask().trailing_zeros() as usize).min(LANES)
}

/// The numbers that each two neighbours spell among the first `count` of eight bytes, which have to
/// fit the pattern: 20, 2, 20, 0, 0, 2, 20 and 0 for all of `b"2020-02-"`. A byte that is not a
/// digit counts as 0, and so does each byte after the first `count`.
#[inline(always)]
pub fn digit_pairs(lanes: u8x8, pattern: u8x8, count: usize) -> [u8; 8]
    requires some { 1 ≤ count }
    requires fits { count ≤ fit_length pattern lanes }
    ensures numbers { result ≡ digit_pairs (fit_digits count pattern lanes) }
    ensures small { (k : ℕ) → slice_index result k ≤ 99 }
{
    let word = u64::from_le_bytes((lanes - pattern).to_array());
    let digits = word & (u64::MAX >> (64 - 8 * count));
    // No sum is larger than 99, so none reaches the next byte.
    (10 * digits + (digits >> 8)).to_le_bytes()
}

/// Whether each of sixteen bytes is between the bytes of two texts at its place: true for
/// `b"2020-02-29 12:13"` between `b"0000-00-00 00:00"` and `b"9999-19-39t29:59"`. No byte of the
/// first text is larger than the second's, which is a condition on the caller.
#[inline(always)]
pub fn are_between(lanes: u8x16, lowest: u8x16, highest: u8x16) -> bool
    requires { IsTrue (are_at_most lowest highest) }
    ensures between { result ≡ (are_at_most lowest lanes && are_at_most lanes highest) }
{
    // How far a byte lies above the lowest one shows both.
    (lanes - lowest).simd_gt(highest - lowest).to_bitmask() == 0
}

/// Whether each of eight bytes is between those of two texts at its place, like [`are_between`] for sixteen:
/// true for `b"23:59\n20"` between `b"00:00\0\0\0"` and `b"29:59\xff\xff\xff"`.
#[inline(always)]
pub fn eight_are_between(lanes: u8x8, lowest: u8x8, highest: u8x8) -> bool
    requires { IsTrue (are_at_most lowest highest) }
    ensures between { result ≡ (are_at_most lowest lanes && are_at_most lanes highest) }
{
    let most = highest - lowest;
    (lanes - lowest).simd_gt(most).to_bitmask() == 0
}

/// The number of digits at the front of eight bytes: 3 for `b"120.5678"`.
#[inline(always)]
pub(crate) fn digits_in_front(lanes: u8x8) -> usize
    ensures count { result ≡ prefix_len is_ascii_digit lanes }
{
    fit_length(lanes, u8x8::splat(b'0'))
}

/// How many digits are at the front of sixteen bytes: 3 for `b"120.567890123456"`. `None` if all are
/// digits.
#[inline(always)]
pub(crate) fn digits_in_sixteen(lanes: u8x16) -> Option<usize>
    ensures count { result ≡ (if nat_lt (prefix_len is_ascii_digit lanes) 16
        then Some (prefix_len is_ascii_digit lanes) else None) }
{
    let values = lanes - u8x16::splat(b'0');
    let others = values.simd_gt(u8x16::splat(9)).to_bitmask();
    (others != 0).then_some(others.trailing_zeros() as usize)
}

/// How many zeros are at the front of sixteen bytes: 3 for `b"0001234567890123"`. `None` if all are
/// zeros.
#[inline(always)]
pub(crate) fn zeros_in_sixteen(lanes: u8x16) -> Option<usize>
    ensures count { result ≡ (if nat_lt (zeros_length lanes) 16
        then Some (zeros_length lanes) else None) }
{
    let others = lanes.simd_ne(u8x16::splat(b'0')).to_bitmask();
    (others != 0).then_some(others.trailing_zeros() as usize)
}

/// The number that eight digits spell: 12,000,034 for `b"12000034"`.
#[inline(always)]
pub(crate) fn eight_digits(lanes: u8x8) -> u64
    requires { IsTrue (list_all is_ascii_digit lanes) }
    ensures value { result ≡ digits_value lanes }
    ensures small { result < 100000000 }
{
    let [a, _, b, _, c, _, d, _] = digit_pairs(lanes, u8x8::splat(b'0'), LANES);
    1_000_000 * u64::from(a) + 10_000 * u64::from(b) + 100 * u64::from(c) + u64::from(d)
}
