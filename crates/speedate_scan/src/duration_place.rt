//! Where the duration of a line is.

ghost use Rattle.std.specs.Prelude.{◌≡◌, ◌≤◌, IfSome, length};
ghost use Rattle.speedate_scan.specs.Amount.{duration_place, ends_duration, length_to_end, run_after};
ghost use Rattle.speedate_scan.specs.Amount.{run_from, whole_line};
ghost use Rattle.speedate_scan.specs.Field.{IsFieldWithin};
ghost use Rattle.speedate_scan.specs.Reading.{fields_of};

use crate::claim::{Wanted, claim_after};
use crate::field::{Field, mark_length};
use crate::reading::{Place, Reader, fields_of};
use speedate_base::numbers::{byte_at, sign};
use speedate_civil::time::is_boundary;

/// All of a line but a byte order mark, by its head, as a field.
fn whole_line(head: &[u8]) -> Field
    ensures field { result ≡ whole_line head.now }
    ensures within { IsFieldWithin result (fields_of head.now) }
{
    let text = fields_of(head);
    let end = text.len();
    Field {
        from: mark_length(text),
        to: end,
        end,
    }
}

/// Whether a duration after a word can end before a text: not before a comma and a digit, which may be a fraction.
fn ends_duration(rest: &[u8]) -> bool
    ensures ends { result ≡ ends_duration rest.now }
{
    is_boundary(rest) && !(byte_at(rest, 0) == b',' && byte_at(rest, 1).is_ascii_digit())
}

/// How many bytes of a text a duration at its front may have: 6 of `b"PT1.5S, 3"`.
fn length_to_end(text: &[u8]) -> usize
    ensures length { result ≡ length_to_end text.now }
    ensures within { result ≤ length text.now }
{
    let mut place = 0;
    while place < text.len() {
        if ends_duration(&text[place..]) {
            return place;
        }
        place += 1;
    }
    place
}

/// The bytes of a text from one on up to where a duration can end after its sign, as a field.
fn run_from(text: &[u8], from: usize) -> Field
    requires from { from ≤ length text.now }
    ensures field { result ≡ run_from text.now from }
    ensures within { IsFieldWithin result text.now }
{
    let (_, size) = sign(&text[from..]);
    let start = from + size;
    let to = start + length_to_end(&text[start..]);
    Field { from, to, end: to }
}

/// The duration after a word of a text, as a field, if one is claimed after it.
fn run_after(word: &[u8], text: &[u8]) -> Option<Field>
    ensures field { result ≡ run_after word.now text.now }
    ensures within { IfSome result (λ field. IsFieldWithin field text.now) }
{
    match claim_after(Wanted::Duration, word, text) {
        Some(from) => Some(run_from(text, from)),
        None => None,
    }
}

impl Reader<'_> {
    /// Where the text of the duration of a line is, by its head: it is a field, what comes after a word up to where a
    /// duration can end, or the whole line.
    pub fn duration_place(&self, head: &[u8]) -> Option<Field>
        ensures place { result ≡ duration_place self.now.place head.now }
        ensures within { IfSome result (λ field. IsFieldWithin field (fields_of head.now)) }
    {
        match self.place {
            Place::Front => Some(whole_line(head)),
            Place::Field(which) => which.find(fields_of(head)),
            Place::After(word) => run_after(word, fields_of(head)),
        }
    }
}
