//! Validation: fields of several kinds, most of which fit, with the name and the place of an error.

use crate::draw::{Digest, Draw, place};
use crate::pieces::{Pieces, Text};
use speedate::{
    Date, DateConfig, DateTime, DateTimeConfig, Duration, IsoOrder,
    MicrosecondsPrecisionOverflowBehavior, ParseError, Time, TimeConfig, TimestampUnit,
};

/// How many fields a round has.
const FIELDS: u32 = 1000;

/// How fields are parsed.
#[derive(Clone, Copy)]
struct Rules {
    date: DateConfig,
    time: TimeConfig,
    date_time: DateTimeConfig,
}

/// The kinds of fields.
#[derive(Clone, Copy)]
enum Kind {
    Date,
    Time,
    DateTime,
    Duration,
    Strict,
    Any,
}

/// Validates so many rounds of fields, each with other texts.
pub fn run(seed: u64, rounds: u64) -> Digest {
    let mut draw = Draw::new(seed);
    let mut digest = Digest::new();
    let mut text = Text::new();
    let pieces = Pieces::new(&mut draw);
    for round in 0..rounds {
        let rules = drawn_rules(round);
        for _ in 0..FIELDS {
            let bits = draw.number();
            let kind = kind_of(bits);
            let written = if place(bits >> 4) < 100 {
                kind_of(bits >> 14)
            } else {
                kind
            };
            fill(written, bits >> 18, &pieces, &mut text);
            check(kind, text.as_bytes(), &rules, &mut digest);
        }
    }
    digest
}

/// The kind by the last four bits of a number.
#[inline(always)]
fn kind_of(bits: u64) -> Kind {
    match bits & 15 {
        0..=3 => Kind::Date,
        4 | 5 => Kind::Time,
        6..=8 => Kind::DateTime,
        9 | 10 => Kind::Duration,
        11..=13 => Kind::Strict,
        _ => Kind::Any,
    }
}

/// The rules of a round.
fn drawn_rules(round: u64) -> Rules {
    let (unit, behavior, order) = match round % 3 {
        0 => (
            TimestampUnit::Infer,
            MicrosecondsPrecisionOverflowBehavior::Error,
            IsoOrder::Lax,
        ),
        1 => (
            TimestampUnit::Second,
            MicrosecondsPrecisionOverflowBehavior::Truncate,
            IsoOrder::Lax,
        ),
        _ => (
            TimestampUnit::Millisecond,
            MicrosecondsPrecisionOverflowBehavior::Truncate,
            IsoOrder::Strict,
        ),
    };
    let time = TimeConfig::builder()
        .microseconds_precision_overflow_behavior(behavior)
        .iso_order(order)
        .build();
    Rules {
        date: DateConfig::builder().timestamp_unit(unit).build(),
        time,
        date_time: DateTimeConfig::builder()
            .timestamp_unit(unit)
            .time_config(time)
            .build(),
    }
}

/// Fills a text with that of a field.
fn fill(kind: Kind, bits: u64, pieces: &Pieces, text: &mut Text) {
    text.clear();
    if place(bits) < 25 {
        return push_strange(bits >> 10, pieces, text);
    }
    let bits = bits >> 10;
    match kind {
        Kind::Date => text.push(&date(bits, pieces)),
        Kind::Time => {
            text.push(&pieces.clocks[place(bits)]);
            text.push(b".");
            text.push(&pieces.sixes[place(bits >> 10)]);
        }
        Kind::DateTime => {
            text.push(&pieces.dates[place(bits)]);
            text.push(b" ");
            text.push(&pieces.clocks[place(bits >> 10)]);
            text.push(b".");
            text.push(&pieces.threes[place(bits >> 20)]);
        }
        Kind::Duration => {
            text.push(b"P");
            text.push(&pieces.threes[place(bits)]);
            text.push(b"DT4H5.");
            text.push(&pieces.threes[place(bits >> 10)]);
            text.push(b"S");
        }
        Kind::Strict => {
            text.push(&pieces.dates[place(bits)]);
            text.push(b"T");
            text.push(&pieces.clocks[place(bits >> 10)]);
            text.push(b".");
            text.push(&pieces.sixes[place(bits >> 20)]);
            text.push(&pieces.offsets[place(bits >> 26)]);
        }
        Kind::Any => {
            text.push(b"1");
            text.push(&pieces.sixes[place(bits)]);
            text.push(&pieces.threes[place(bits >> 10)]);
        }
    }
}

/// A date of the years 0000 to 9999, by the last thirty bits of a number.
#[inline(always)]
fn date(bits: u64, pieces: &Pieces) -> [u8; 10] {
    let [a, b, _, _, _, _] = pieces.sixes[place(bits)];
    let [c, d, _, _, _, _] = pieces.sixes[place(bits >> 10)];
    let [_, _, _, _, _, e, f, _, g, h] = pieces.dates[place(bits >> 20)];
    [a, b, c, d, b'-', e, f, b'-', g, h]
}

/// Appends a text that fits no kind, as people and programs that fail write them.
fn push_strange(bits: u64, pieces: &Pieces, text: &mut Text) {
    let three = &pieces.threes[place(bits)];
    match (bits >> 10) & 15 {
        0 => {}
        1 => {
            text.push(b"tomorrow at ");
            text.push(three);
        }
        2 => {
            text.push(b"2020-0");
            text.push(three);
        }
        3 => {
            text.push(b"PT");
            text.push(three);
            text.push(b"X");
        }
        4 => {
            for place_of_six in 0..680 {
                text.push(&pieces.sixes[place(bits + place_of_six)]);
            }
        }
        5 => {
            text.push(three);
            text.push(b":77");
        }
        _ => {
            text.push(&pieces.dates[place(bits)]);
            text.push(b"T");
            text.push(&pieces.clocks[place(bits >> 10)]);
            text.push(b" UTC");
        }
    }
}

/// Validates a field, and counts its value in, or the name and the place of its error.
fn check(kind: Kind, text: &[u8], rules: &Rules, digest: &mut Digest) {
    match kind {
        Kind::Date => check_date(text, rules, digest),
        Kind::Time => check_time(text, rules, digest),
        Kind::DateTime => check_date_time(text, rules, digest),
        Kind::Duration => check_duration(text, rules, digest),
        Kind::Strict => check_strict(text, digest),
        Kind::Any => check_any(text, rules, digest),
    }
}

fn check_date(text: &[u8], rules: &Rules, digest: &mut Digest) {
    match Date::parse_bytes_with_config(text, &rules.date) {
        Ok(date) => digest.add_date(&date),
        Err(fault) => refuse(fault, Date::error_place(text, &rules.date), digest),
    }
}

fn check_time(text: &[u8], rules: &Rules, digest: &mut Digest) {
    match Time::parse_bytes_with_config(text, &rules.time) {
        Ok(time) => digest.add_time(&time),
        Err(fault) => refuse(fault, Time::error_place(text, &rules.time), digest),
    }
}

fn check_date_time(text: &[u8], rules: &Rules, digest: &mut Digest) {
    match DateTime::parse_bytes_with_config(text, &rules.date_time) {
        Ok(value) => digest.add_date_time(&value),
        Err(fault) => refuse(fault, DateTime::error_place(text, &rules.date_time), digest),
    }
}

fn check_duration(text: &[u8], rules: &Rules, digest: &mut Digest) {
    match Duration::parse_bytes_with_config(text, &rules.time) {
        Ok(duration) => digest.add_duration(&duration),
        Err(fault) => refuse(fault, Duration::error_place(text, &rules.time), digest),
    }
}

fn check_strict(text: &[u8], digest: &mut Digest) {
    let behavior = MicrosecondsPrecisionOverflowBehavior::Truncate;
    match DateTime::parse_bytes_strict(text, behavior) {
        Ok(value) => digest.add_date_time(&value),
        Err(fault) => refuse(fault, DateTime::error_place_strict(text, behavior), digest),
    }
}

/// Tries a field as each kind.
fn check_any(text: &[u8], rules: &Rules, digest: &mut Digest) {
    if let Ok(date) = Date::parse_bytes_with_config(text, &rules.date) {
        return digest.add_date(&date);
    }
    if let Ok(time) = Time::parse_bytes_with_config(text, &rules.time) {
        return digest.add_time(&time);
    }
    if let Ok(duration) = Duration::parse_bytes_with_config(text, &rules.time) {
        return digest.add_duration(&duration);
    }
    check_date_time(text, rules, digest);
}

/// Counts an error in, by its name and its place.
#[inline(always)]
fn refuse(fault: ParseError, place: Option<usize>, digest: &mut Digest) {
    digest.add_text(fault.name().as_bytes());
    digest.add(place.unwrap_or(4_097) as u64);
}
