//! A ledger: whether its lines are in order, and its entries, sorted and printed again.

use crate::draw::{Digest, Draw, place};
use crate::log::lines;
use crate::pieces::{Pieces, Text};
use arrayvec::ArrayString;
use speedate::Date;
use speedate_uses::ledger::{Entry, are_in_order, cents, sort_by_date};
use std::alloc::{AllocError, Global};

/// How many lines a block has.
const LINES: u32 = 1024;

/// How many bytes of printed texts are gathered.
const PRINTED_MAX: usize = 16384;

/// Where an amount begins, after a date and a space.
const AMOUNT_PLACE: usize = 11;

/// What an amount is for.
const PURPOSES: [&[u8]; 4] = [
    b" rent\n",
    b" opening balance\n",
    b" books and paper\n",
    b" travel\n",
];

/// Reads so many ledgers, each with other lines.
pub fn run(alloc: Global, seed: u64, rounds: u64) -> Result<Digest, AllocError> {
    let mut draw = Draw::new(seed);
    let mut digest = Digest::new();
    let mut text = Text::new();
    let pieces = Pieces::new(&mut draw);
    for _ in 0..rounds {
        fill(true, &pieces, &mut draw, &mut text);
        let is_in_order = are_in_order(lines(alloc, text.as_bytes())?.as_slice());
        digest.add(u64::from(is_in_order));
        fill(false, &pieces, &mut draw, &mut text);
        sort(alloc, &text, &mut digest)?;
    }
    Ok(digest)
}

/// Fills a text with lines, in order or not.
fn fill(in_order: bool, pieces: &Pieces, draw: &mut Draw, text: &mut Text) {
    text.clear();
    let first = draw.number() & 511;
    for line in 0..LINES {
        let bits = draw.number();
        if in_order {
            text.push(&pieces.days[place(first + u64::from(line / 3))]);
        } else {
            text.push(&pieces.dates[place(bits)]);
        }
        push_amount(bits >> 10, pieces, text);
        text.push_bytes(PURPOSES[place(bits >> 50) % 4]);
    }
}

/// Appends a space and an amount, mostly with two places.
fn push_amount(bits: u64, pieces: &Pieces, text: &mut Text) {
    text.push(b" ");
    if bits & 3 == 0 {
        text.push(b"-");
    }
    text.push(&pieces.threes[place(bits >> 2)]);
    if (bits >> 16) & 1 == 0 {
        text.push(&pieces.threes[place(bits >> 30)]);
    }
    match (bits >> 12) & 15 {
        0 => {}
        1 => {
            text.push(b".");
            text.push(&pieces.threes[place(bits >> 20)]);
        }
        2 | 3 => {
            text.push(&pieces.sixes[place(bits >> 20)]);
            text.push(b".50");
        }
        _ => {
            text.push(b".");
            let [a, b, _] = pieces.threes[place(bits >> 20)];
            text.push(&[a, b]);
        }
    }
}

/// Reads the entries of the lines, sorts them by date, and prints their dates again.
fn sort(alloc: Global, text: &Text, digest: &mut Digest) -> Result<(), AllocError> {
    let mut entries = Vec::new(alloc);
    for line in lines(alloc, text.as_bytes())?.as_slice() {
        match entry(line) {
            Some(entry) => entries.push(entry)?,
            None => digest.add(1),
        }
    }
    sort_by_date(alloc, entries.as_mut_slice())?;
    let mut printed = ArrayString::<PRINTED_MAX>::new();
    for entry in entries.as_slice() {
        if printed.remaining_capacity() >= 16 {
            entry.date.push_onto(&mut printed);
        }
        digest.add_signed(entry.cents);
    }
    digest.add_text(printed.as_str().as_bytes());
    Ok(())
}

/// The entry of a line, if its amount is a whole number of cents.
fn entry(line: &[u8]) -> Option<Entry> {
    let (date, _) = Date::parse_front(line).ok()?;
    let cents = cents(amount(line))?;
    Some(Entry { date, cents })
}

/// The amount of a line: what stands between its date and the next space.
fn amount(line: &[u8]) -> &[u8] {
    if line.len() < AMOUNT_PLACE {
        return &[];
    }
    let rest = &line[AMOUNT_PLACE..];
    match rest.iter().position(|byte| *byte == b' ') {
        Some(end) => &rest[..end],
        None => rest,
    }
}
