//! Where the value of a line begins.

ghost use Rattle.std.specs.Prelude.{◌≡◌, ◌+◌, ◌<◌, ◌≤◌, ◌==◌, ℕ, IfErr, IfOk, IfSome, IsTrue, drop, false, length, map};
ghost use Rattle.std.specs.Int.{bit_at};
ghost use Rattle.std.specs.Simd.Lanes.{mask_l};
ghost use Rattle.speedate_scan.specs.Reading.{IsReadWithin, IsWithoutValue, after_claim, begins_claim};
ghost use Rattle.speedate_scan.specs.Reading.{claim_after, claims, claims_date, claims_duration};
ghost use Rattle.speedate_scan.specs.Reading.{claims_wanted, field_claims, front_claim};
ghost use Rattle.speedate_scan.specs.Reading.{Wanted, length_before_value, moved_place, seen, without_claim};
ghost use Rattle.speedate.specs.Loose.{begins_with};

use crate::field::{BYTE_ORDER_MARK, mark_length};
use crate::form::Form;
use crate::reading::{Reading, is_longer, not_within, seen};
use crate::timestamp::{fewest_digits, whole_digits};
use speedate_base::numbers::{byte_at, eight_bytes, fit_length, sign};
use speedate_stream::SEEN_MAX;
use std::simd::prelude::*;

/// What is looked for after a word.
#[derive(Clone, Copy)]
pub enum Wanted {
    /// A value of this form.
    Value(Form),
    /// A duration.
    Duration,
}

/// How many bytes of a text stand before a value at its front: a byte order mark, a `[`, both, or nothing.
#[inline(always)]
#[tactic(auto, using(crate::proofs::ReadingLemmas::no_mark_begins))]
pub fn length_before_value(text: &[u8]) -> usize
    ensures length { result ≡ length_before_value text.now }
    ensures within { result ≤ length text.now }
{
    // Most lines have neither.
    let first = byte_at(text, 0);
    if first == b'[' {
        return 1;
    }
    if first != BYTE_ORDER_MARK[0] {
        return 0;
    }
    mark_and_bracket(text)
}

/// The same, for a text that may begin with them.
#[inline(never)]
fn mark_and_bracket(text: &[u8]) -> usize
    ensures length { result ≡ length_before_value text.now }
    ensures within { result ≤ length text.now }
{
    let mark = mark_length(text);
    if byte_at(text, mark) == b'[' {
        mark + 1
    } else {
        mark
    }
}

/// Whether a word begins a text.
#[inline(always)]
fn begins_with(word: &[u8], text: &[u8]) -> bool
    ensures begins { result ≡ begins_with word.now text.now }
    ensures there { IsTrue result → length word.now ≤ length text.now }
{
    // Most texts differ from the word in their first byte.
    match (word, text) {
        ([first, ..], [byte, ..]) if first != byte => false,
        _ => text.starts_with(word),
    }
}

/// Whether a text claims to be a date or a date-time: it begins with four digits and a hyphen.
#[inline(always)]
#[tactic(auto, using(crate::proofs::ReadingLemmas::claims_by_length))]
pub fn claims_date(text: &[u8]) -> bool
    ensures claims { result ≡ claims_date text.now }
{
    fit_length(eight_bytes(text, 0), u8x8::from_array(*b"0000-00-")) >= 5
}

/// Whether a text may claim to be a value of this form, by its first byte.
#[inline(always)]
#[tactic(auto, unfolding(crate::specs::Reading::claims_date))]
pub fn may_claim(form: Form, text: &[u8]) -> bool
    ensures claims { result ≡ false → claims form text.now ≡ false }
{
    matches!(form, Form::Timestamp(_)) || byte_at(text, 0).is_ascii_digit()
}

/// Whether a text claims to be a value of this form.
#[inline(always)]
pub fn claims(form: Form, text: &[u8]) -> bool
    ensures claims { result ≡ claims form text.now }
{
    match form {
        Form::Timestamp(unit) => whole_digits(text) >= fewest_digits(unit),
        Form::DateTime | Form::Strict | Form::Date => claims_date(text),
    }
}

/// Whether a field claims to be a value of this form: a number of any size is a timestamp.
pub fn field_claims(form: Form, text: &[u8]) -> bool
    ensures claims { result ≡ field_claims form text.now }
{
    match form {
        Form::Timestamp(_) => whole_digits(text) > 0,
        Form::DateTime | Form::Strict | Form::Date => claims_date(text),
    }
}

/// Whether a text claims to be a duration: it begins with a digit or a `P`, after its sign.
fn claims_duration(text: &[u8]) -> bool
    ensures claims { result ≡ claims_duration text.now }
{
    let (_, size) = sign(text);
    let first = byte_at(text, size);
    first.is_ascii_digit() || first == b'P'
}

/// Whether a text claims to be what is wanted.
#[inline(always)]
fn claims_wanted(wanted: Wanted, text: &[u8]) -> bool
    ensures claims { result ≡ claims_wanted wanted text.now }
{
    match wanted {
        Wanted::Value(form) => claims(form, text),
        Wanted::Duration => claims_duration(text),
    }
}

/// Whether a word begins a text, and what follows it claims to be what is wanted.
#[inline(always)]
fn begins_claim(wanted: Wanted, word: &[u8], text: &[u8]) -> bool
    ensures begins { result ≡ begins_claim wanted word.now text.now }
    ensures there { IsTrue result → length word.now ≤ length text.now }
{
    begins_with(word, text) && claims_wanted(wanted, &text[word.len()..])
}

/// Bit k says whether lane k is this byte.
#[inline(always)]
fn equal_lanes(lanes: u8x16, byte: u8) -> u64
    ensures marks { result ≡ mask_l (map (λ lane. lane == byte) lanes) }
{
    lanes.simd_eq(u8x16::splat(byte)).to_bitmask()
}

/// Bit k says whether byte k of a text is the first of a word, and the byte after it the word's second, if it has one.
#[inline(always)]
fn begins_at(word: &[u8], text: &[u8]) -> u64
    requires some { 1 ≤ length word.now }
    requires long { 17 ≤ length text.now }
    ensures elsewhere { (k : ℕ) → k < 16 → bit_at result k ≡ 0
        → begins_with word.now (drop k text.now) ≡ false }
{
    let firsts = equal_lanes(u8x16::from_slice(text), word[0]);
    if word.len() == 1 {
        return firsts;
    }
    firsts & equal_lanes(u8x16::from_slice(&text[1..]), word[1])
}

/// How many bytes at the front of a text are passed at once, since no word begins at them.
#[inline(always)]
fn passed(word: &[u8], text: &[u8]) -> usize
    ensures passed { (wanted : Wanted) → claim_after wanted word.now text.now
        ≡ moved_place result (claim_after wanted word.now (drop result text.now)) }
    ensures within { result ≤ length text.now }
{
    if word.is_empty() || text.len() < 17 {
        return 0;
    }
    begins_at(word, text).trailing_zeros().min(16) as usize
}

/// The byte after the first place of a word in a text at which what follows claims to be what is wanted.
pub fn claim_after(wanted: Wanted, word: &[u8], text: &[u8]) -> Option<usize>
    ensures end { result ≡ claim_after wanted word.now text.now }
    ensures within { IfSome result (λ end. end ≤ length text.now) }
{
    let mut place = 0;
    while place < text.len() {
        place += passed(word, &text[place..]);
        if place == text.len() {
            return None;
        }
        if begins_claim(wanted, word, &text[place..]) {
            return Some(place + word.len());
        }
        place += 1;
    }
    None
}

/// What is read of a line in which no value is claimed after the word, by its head.
fn without_claim(head: &[u8]) -> Reading
    ensures read { result ≡ without_claim head.now }
    ensures within { IsReadWithin result head.now }
    ensures bare { IsWithoutValue result }
{
    if is_longer(head) {
        not_within(SEEN_MAX)
    } else {
        Reading::Undated(head.len())
    }
}

/// The byte at which a value is claimed at the front of a line, by its head, or what is read of the line.
#[inline(always)]
pub fn front_claim(form: Form, head: &[u8]) -> Result<usize, Reading>
    ensures claim { result ≡ front_claim form head.now }
    ensures start { IfOk result (λ start. start ≤ length (seen head.now)) }
    ensures reading { IfErr result (λ reading. IsReadWithin reading head.now) }
    ensures bare { IfErr result IsWithoutValue }
{
    let start = length_before_value(seen(head));
    if claims(form, &seen(head)[start..]) {
        Ok(start)
    } else {
        Err(Reading::Undated(start))
    }
}

/// The byte at which a value is claimed after a word of a line, by its head, or what is read of the line.
#[inline(always)]
pub fn after_claim(form: Form, word: &[u8], head: &[u8]) -> Result<usize, Reading>
    ensures claim { result ≡ after_claim form word.now head.now }
    ensures start { IfOk result (λ start. start ≤ length (seen head.now)) }
    ensures reading { IfErr result (λ reading. IsReadWithin reading head.now) }
    ensures bare { IfErr result IsWithoutValue }
{
    match claim_after(Wanted::Value(form), word, seen(head)) {
        Some(start) => Ok(start),
        None => Err(without_claim(head)),
    }
}
