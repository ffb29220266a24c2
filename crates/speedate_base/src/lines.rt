//! The lines of a text.

ghost use Rattle.std.specs.Prelude.{◌≡◌, ◌≤◌, length, map, MatchOption};
ghost use Rattle.std.specs.Simd.Lanes.{mask_l};
ghost use Rattle.speedate_base.specs.Lines.{is_line_feed, IsLineEnd, IsOneLine, without_return};

use crate::numbers::byte_at;
use std::simd::prelude::*;

/// How many bytes are looked at together.
const LANES: usize = 16;

/// The place of the first line feed at `from` or after it: 3 for `b"abc\ndef"` and 0. `None` if there
/// is none.
pub fn line_end(text: &[u8], from: usize) -> Option<usize>
    requires { from ≤ length text.now }
    ensures found { MatchOption result (IsOneLine text.now from (length text.now))
        (IsLineEnd text.now from) }
{
    let mut place = from;
    while text.len() - place >= LANES {
        let marks = line_feeds(u8x16::from_slice(&text[place..]));
        if marks != 0 {
            return Some(place + marks.trailing_zeros() as usize);
        }
        place += LANES;
    }
    line_end_in_rest(text, place)
}

/// The place of the first line feed at `from` or after it, byte by byte: for bytes that fill no vector.
fn line_end_in_rest(text: &[u8], from: usize) -> Option<usize>
    requires { from ≤ length text.now }
    ensures found { MatchOption result (IsOneLine text.now from (length text.now))
        (IsLineEnd text.now from) }
{
    for place in from..text.len() {
        if text[place] == b'\n' {
            return Some(place);
        }
    }
    None
}

/// Bit k says whether lane k is a line feed.
#[inline(always)]
fn line_feeds(lanes: u8x16) -> u64
    ensures marks { result ≡ mask_l (map is_line_feed lanes) }
{
    lanes.simd_eq(u8x16::splat(b'\n')).to_bitmask()
}

/// A line without the carriage return that it may end with, if that is to be dropped.
#[inline(always)]
pub fn without_return(line: &[u8], drops: bool) -> &[u8]
    ensures line { result.now ≡ without_return drops line.now }
{
    if !drops {
        return line;
    }
    let last = line.len().saturating_sub(1);
    if byte_at(line, last) == b'\r' {
        &line[..last]
    } else {
        line
    }
}
