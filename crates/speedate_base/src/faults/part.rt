//! The part of a text that an error is about.

ghost use Rattle.std.specs.Prelude.{◌≡◌, ◌≤◌, length};
ghost use Rattle.speedate_base.specs.Part.{bytes_size, digits_size, goes_on, hours_size, part_end};
ghost use Rattle.speedate_base.specs.Part.{part_size, rest_of_character};

use super::ParseError;
use crate::numbers::{byte_at, first_colon, run_end};

impl ParseError {
    /// Where the part ends that this error is about, in the text that is refused for it at this place: 7
    /// for `ParseError::OutOfRangeMonth`, `b"2020-13-01"` and place 5, so that bytes 5 and 6 are what a
    /// form underlines.
    ///
    /// The end is at most the text's length if the place is, and the place itself if the part is missing.
    /// [A table](docs/GRAMMAR.md#the-part-of-an-error) has the part of each error.
    pub fn part_end(&self, text: &[u8], place: usize) -> usize
        ensures end { result ≡ part_end self.now text.now place }
        ensures from { place ≤ result }
        ensures within { place ≤ length text.now → result ≤ length text.now }
    {
        if place >= text.len() {
            return place;
        }
        place + self.part_size(&text[place..])
    }

    /// The size of the part that this error is about, at the front of a text.
    fn part_size(&self, text: &[u8]) -> usize
        ensures size { result ≡ part_size self.now text.now }
        ensures within { result ≤ length text.now }
    {
        match self {
            ParseError::TooShort | ParseError::TzRequired | ParseError::SystemTimeError => 0,
            ParseError::ExtraCharacters
            | ParseError::DateNotExact
            | ParseError::DateTooSmall
            | ParseError::DateTooLarge
            | ParseError::TimeTooLarge => text.len(),
            ParseError::InvalidCharYear => bytes_size(4, text),
            ParseError::InvalidCharMonth
            | ParseError::InvalidCharDay
            | ParseError::InvalidCharMinute
            | ParseError::InvalidCharSecond
            | ParseError::InvalidCharTzHour
            | ParseError::InvalidCharTzMinute
            | ParseError::OutOfRangeTzMinute
            | ParseError::OutOfRangeTz
            | ParseError::OutOfRangeMonth
            | ParseError::OutOfRangeDay
            | ParseError::OutOfRangeHour
            | ParseError::OutOfRangeMinute
            | ParseError::OutOfRangeSecond => bytes_size(2, text),
            ParseError::InvalidCharHour => hours_size(text),
            ParseError::SecondFractionTooLong
            | ParseError::MillisecondFractionTooLong
            | ParseError::MicrosecondFractionTooLong
            | ParseError::DurationInvalidFraction
            | ParseError::DurationValueTooLarge
            | ParseError::DurationHourValueTooLarge
            | ParseError::DurationDaysTooLarge => digits_size(text),
            ParseError::InvalidCharDateTimeSep
            | ParseError::InvalidCharDateSep
            | ParseError::InvalidCharTimeSep
            | ParseError::InvalidCharSecondFraction
            | ParseError::InvalidCharTzSign
            | ParseError::SecondFractionMissing
            | ParseError::DurationInvalidNumber
            | ParseError::DurationTRepeated
            | ParseError::DurationInvalidTimeUnit
            | ParseError::DurationInvalidDateUnit
            | ParseError::DurationInvalidDays
            | ParseError::DurationUnitOrder => bytes_size(1, text),
        }
    }
}

/// The size of the digits at the front of a text: 2 for `b"24:00"`. It is one character's size if
/// there are none.
fn digits_size(text: &[u8]) -> usize
    ensures size { result ≡ digits_size text.now }
    ensures within { result ≤ length text.now }
{
    let size = run_end(text, 0);
    if size == 0 { bytes_size(1, text) } else { size }
}

/// The size of the hours, which a colon ends, at the front of a text: 2 for `b"1x:30"`. It is one
/// character's size if no colon ends them.
fn hours_size(text: &[u8]) -> usize
    ensures size { result ≡ hours_size text.now }
    ensures within { result ≤ length text.now }
{
    match first_colon(&text[..text.len().min(11)]) {
        Some(place) if place > 0 => place,
        _ => bytes_size(1, text),
    }
}

/// The size of `count` bytes at the front of a text, and of the rest of the character in which they
/// end: 2 for one byte of `b"\xc3\xa9t"`. If the text has no more, it is the text's size.
fn bytes_size(count: usize, text: &[u8]) -> usize
    requires { count ≤ 4 }
    ensures size { result ≡ bytes_size count text.now }
    ensures within { result ≤ length text.now }
{
    (count + rest_of_character(text, count)).min(text.len())
}

/// How many bytes from a place on go on with a character.
fn rest_of_character(text: &[u8], place: usize) -> usize
    requires { place ≤ 4 }
    ensures size { result ≡ rest_of_character text.now place }
    ensures small { result ≤ 3 }
{
    if !goes_on(byte_at(text, place)) {
        return 0;
    }
    if !goes_on(byte_at(text, place + 1)) {
        return 1;
    }
    if goes_on(byte_at(text, place + 2)) {
        3
    } else {
        2
    }
}

/// Whether a byte goes on with a character of UTF-8, which began before it.
fn goes_on(byte: u8) -> bool
    ensures is { result ≡ goes_on byte }
{
    128 <= byte && byte < 192
}
