//! Where the fields of a line are.

ghost use Rattle.std.specs.Prelude.{◌≡◌, ◌+◌, ◌<◌, ◌≤◌, ◌==◌, IfSome, drop, length, slice_index, take};
ghost use Rattle.std.specs.List.{position};
ghost use Rattle.speedate_scan.specs.Field.{IsFieldWithin, closing_quote, ended, field_at, goes_on};
ghost use Rattle.speedate_scan.specs.Field.{mark_length, next_separator, nth_field};

use speedate_base::numbers::byte_at;

/// The byte before and after a field that is quoted.
pub const QUOTE: u8 = b'"';

/// Which field of a line is looked at.
#[derive(Clone, Copy, Debug)]
pub struct NthField {
    /// Its number. The first field has the number 1.
    pub number: usize,
    /// The byte that stands between two fields.
    pub separator: u8,
}

/// Where a field is.
#[derive(Clone, Copy, Debug)]
pub struct Field {
    /// The byte from which on it stands, after the quote that it may begin with.
    pub from: usize,
    /// The byte up to which it stands.
    pub to: usize,
    /// The separator after it, or the line's end. Between that and the quote that closes a field
    /// nothing should stand.
    pub end: usize,
}

impl NthField {
    /// Where the field is in a text, if the text has so many: from 2 up to 4 for field 2 of `b"a,bc,d"`.
    #[tactic(auto, using(crate::proofs::FieldLemmas::field_later, crate::proofs::FieldLemmas::field_missing, crate::proofs::FieldLemmas::field_here))]
    pub fn find(&self, text: &[u8]) -> Option<Field>
        ensures field { result ≡ nth_field self.now text.now }
        ensures within { IfSome result (λ field. IsFieldWithin field text.now) }
    {
        let mut start = mark_length(text);
        let mut others = self.number.saturating_sub(1);
        while others > 0 {
            let end = field_at(text, start, self.separator).end;
            if end >= text.len() {
                return None;
            }
            start = end + 1;
            others -= 1;
        }
        Some(field_at(text, start, self.separator))
    }
}

impl Field {
    /// Whether bytes stand after the quote that closes the field.
    pub fn goes_on(&self) -> bool
        requires ends { self.now.to ≤ self.now.end }
        ensures more { result ≡ goes_on self.now }
    {
        self.end - self.to > 1
    }
}

/// The bytes of U+FEFF, which some programs write at the beginning of a file.
pub const BYTE_ORDER_MARK: [u8; 3] = [0xEF, 0xBB, 0xBF];

/// How many bytes of a text its byte order mark takes, which belongs to no value: 3, or 0 without one.
pub fn mark_length(text: &[u8]) -> usize
    ensures length { result ≡ mark_length text.now }
    ensures within { result ≤ length text.now }
{
    if text.starts_with(&BYTE_ORDER_MARK) {
        3
    } else {
        0
    }
}

/// The first bytes of a text: all of it if it has no more.
#[inline(always)]
#[tactic(auto, using(std::proofs::lemmas::List::take_all))]
pub fn first_bytes(text: &[u8], count: usize) -> &[u8]
    ensures first { result.now ≡ take count text.now }
    ensures within { length result.now ≤ length text.now }
    ensures short { length result.now ≤ count }
{
    if count < text.len() {
        &text[..count]
    } else {
        text
    }
}

/// The bytes of a text after so many: none if it has no more.
#[tactic(auto, using(std::proofs::lemmas::List::drop_min))]
pub fn bytes_after(text: &[u8], count: usize) -> &[u8]
    ensures after { result.now ≡ drop count text.now }
    ensures within { length result.now ≤ length text.now }
{
    &text[count.min(text.len())..]
}

/// The field that begins at a byte of a text: up to the next separator, or between quotes.
#[tactic(auto, unfolding(crate::specs::Field::field_at))]
fn field_at(text: &[u8], start: usize, separator: u8) -> Field
    requires start { start ≤ length text.now }
    ensures field { result ≡ field_at separator text.now start }
    ensures within { IsFieldWithin result text.now }
{
    if byte_at(text, start) == QUOTE {
        ended(text, start + 1, closing_quote(text, start + 1), separator)
    } else {
        ended(
            text,
            start,
            next_separator(text, start, separator),
            separator,
        )
    }
}

/// The field that stands from one byte up to another, and ends at the first separator from there on.
fn ended(text: &[u8], from: usize, to: usize, separator: u8) -> Field
    requires ordered { from ≤ to }
    requires to { to ≤ length text.now }
    ensures field { result ≡ ended separator text.now from to }
    ensures within { IsFieldWithin result text.now }
{
    let end = next_separator(text, to, separator);
    Field { from, to, end }
}

/// The byte of the quote that closes a field, from a byte of it on, or the text's end.
fn closing_quote(text: &[u8], from: usize) -> usize
    requires from { from ≤ length text.now }
    ensures quote { result ≡ closing_quote text.now from }
    ensures after { from ≤ result }
    ensures within { result ≤ length text.now }
{
    let mut place = from;
    while place < text.len() {
        if text[place] != QUOTE {
            place += 1;
            continue;
        }
        if byte_at(text, place + 1) != QUOTE {
            return place;
        }
        place += 2;
    }
    place
}

/// The first separator from a byte of a text on, or the text's end.
#[tactic(auto, using(crate::proofs::FieldLemmas::separator_from))]
fn next_separator(text: &[u8], from: usize, separator: u8) -> usize
    requires from { from ≤ length text.now }
    ensures separator { result ≡ next_separator separator text.now from }
    ensures after { from ≤ result }
    ensures within { result ≤ length text.now }
{
    match first_separator(&text[from..], separator) {
        Some(place) => from + place,
        None => text.len(),
    }
}

/// The place of the first separator of a text.
fn first_separator(text: &[u8], separator: u8) -> Option<usize>
    ensures place { result ≡ position (λ byte. byte == separator) text.now }
    ensures within { IfSome result (λ place. place ≤ length text.now) }
{
    text.iter().position(|&byte| byte == separator)
}
