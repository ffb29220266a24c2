//! The column of texts that offsets cut out of the same bytes.

ghost use Rattle.std.specs.Prelude.{◌≡◌, ◌+◌, ◌-◌, ◌<◌, ◌≤◌, ◌≤ℤ◌, ◌∷◌, IsSomeAnd, IsTrue};
ghost use Rattle.std.specs.Prelude.{MatchOption, None, drop, get_or, length, pos, take};
ghost use Rattle.speedate.specs.Column.{line_part};
ghost use Rattle.speedate.specs.Texts.{IsTextColumn, cut_at, rise_within, text_room, texts_of};

use super::read::{entry, put};
use super::{LineError, LineReader, Progress};

/// Reads texts as numbers, in order, as many as there is room for, and returns how far it came: the
/// days 1 and 2, 2 lines and 20 bytes, for `b"1970-01-021970-01-03"`, the offsets 0, 10 and 20, and
/// [`DateReader::Text`](crate::DateReader).
///
/// Each text begins at its offset, and ends at the next one, as in a string array of Arrow, so there is
/// one offset more than texts. The bytes outside the texts are not read.
///
/// If `refused` is a number, a refused text gets it, and the column goes on; otherwise it ends the
/// column, and the progress has its error, with the part of the text that it is about. If `errors` is not
/// empty, the number of the error of each text is written too, by
/// [`LineError::number`](crate::LineError::number), or 0 for none, and as many texts are read as both
/// slices have room for. The other places of both stay as they are.
///
/// The progress counts the texts as `lines`, and its `bytes` is the offset at which the last of them ends.
///
/// The result is `None` if an offset is negative, less than the one before it, or beyond the bytes. Both
/// slices then stay as they are.
#[inline(always)]
pub fn read_texts<R: LineReader>(
    bytes: &[u8],
    offsets: &[i32],
    reader: &R,
    refused: Option<R::Number>,
    out: &mut [R::Number],
    errors: &mut [u8],
) -> Option<Progress>
    ensures texts { MatchOption (texts_of offsets.now bytes.now)
        ((result ≡ None) × (out.new ≡ out.old) × (errors.new ≡ errors.old))
        (λ texts. IsSomeAnd result (IsTextColumn (R.answer reader.now) (R.place reader.now)
        refused (take (text_room (length out.old) (length errors.old)) texts)
        offsets.now out.old out.new errors.old errors.new)) }
{
    if !rise_within(offsets, bytes.len()) {
        return None;
    }
    let texts = offsets.len().saturating_sub(1);
    let count = text_room(out.len(), errors.len()).min(texts);
    Some(fill_with_texts(bytes, offsets, count, reader, refused, out, errors))
}

/// Whether no offset is negative, less than the one before it, or beyond so many bytes.
fn rise_within(offsets: &[i32], size: usize) -> bool
    ensures rise { result ≡ rise_within (pos 0) size offsets.now }
{
    let mut least = 0;
    for &offset in offsets {
        if offset < least || offset as usize > size {
            return false;
        }
        least = offset;
    }
    true
}

/// How many texts there is room for, by the room for numbers and for errors, if these are written.
#[inline(always)]
fn text_room(numbers: usize, errors: usize) -> usize
    ensures room { result ≡ text_room numbers errors }
{
    if errors == 0 {
        numbers
    } else {
        numbers.min(errors)
    }
}

/// Reads so many texts as numbers, and the numbers of their errors, where there is a place for them. It
/// is not inlined, so that each reader's loop is compiled once.
#[inline(never)]
fn fill_with_texts<R: LineReader>(
    bytes: &[u8],
    offsets: &[i32],
    count: usize,
    reader: &R,
    refused: Option<R::Number>,
    out: &mut [R::Number],
    errors: &mut [u8],
) -> Progress
    requires rise { IsTrue (rise_within (pos 0) (length bytes.now) offsets.now) }
    requires room { count ≤ length out.old }
    requires texts { count ≤ length offsets.now - 1 }
    ensures column { IsTextColumn (R.answer reader.now) (R.place reader.now) refused
        (take count (cut_at offsets.now bytes.now)) offsets.now out.old out.new errors.old
        errors.new result }
{
    let mut lines = 0;
    while lines < count {
        let text = text_at(bytes, offsets, lines);
        let (number, code) = match entry(reader.text_number(text), refused) {
            Ok(entry) => entry,
            Err(error) => {
                let (place, end) = text_part(text, reader, error);
                return Progress {
                    lines,
                    bytes: offset_at(offsets, lines),
                    error: Some(error),
                    place,
                    end,
                };
            }
        };
        out[lines] = number;
        put(errors, lines, code);
        lines += 1;
    }
    Progress {
        lines,
        bytes: offset_at(offsets, lines),
        error: None,
        place: 0,
        end: 0,
    }
}

/// The part of a text for which it is refused with an error. It is not inlined, so that a reader's loop does
/// not have the parser of places in it.
#[cold]
#[inline(never)]
fn text_part<R: LineReader>(text: &[u8], reader: &R, error: LineError) -> (usize, usize)
    ensures part { result ≡ line_part (R.place reader.now) error text.now }
{
    let place = reader.error_place(text);
    (place, error.part_end(text, place))
}

/// The text at a place.
#[inline(always)]
fn text_at<'a>(bytes: &'a [u8], offsets: &[i32], place: usize) -> &'a [u8]
    requires rise { IsTrue (rise_within (pos 0) (length bytes.now) offsets.now) }
    requires within { place + 1 < length offsets.now }
    ensures text { drop place (cut_at offsets.now bytes.now)
        ≡ result.now ∷ drop (place + 1) (cut_at offsets.now bytes.now) }
{
    let start = offset_at(offsets, place);
    let end = offset_at(offsets, place + 1);
    &bytes[start..end]
}

/// The offset at a place, or 0 if there is none.
#[inline(always)]
fn offset_at(offsets: &[i32], place: usize) -> usize
    requires positive { pos 0 ≤ℤ get_or offsets.now place (pos 0) }
    ensures offset { pos result ≡ get_or offsets.now place (pos 0) }
{
    match offsets.get(place) {
        Some(&offset) => offset as usize,
        None => 0,
    }
}
