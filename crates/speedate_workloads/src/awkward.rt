//! Texts that are long: decimals with all their digits, runs of zeros, durations of hundreds of items.

use crate::draw::{Digest, Draw};
use crate::pieces::{TEXT_MAX, Text};
use speedate::{
    DateTime, DateTimeConfig, Decimal, Duration, IntFloat, MicrosecondsPrecisionOverflowBehavior,
    TimeConfig, float_parse_bytes, int_parse_bytes,
};

/// How many digits or items are drawn, of which texts take others each time.
const POOL: usize = 32768;

/// How many digits the longest run has.
const RUN_MAX: u32 = 4000;

/// How many bytes an item has: two digits and a designator.
const ITEM: usize = 3;

/// What texts are made of.
#[derive(Drop)]
struct Pool {
    digits: [u8; POOL],
    days: [u8; POOL],
    seconds: [u8; POOL],
}

/// Reads so many rounds of long texts, each with others.
pub fn run(seed: u64, rounds: u64) -> Digest {
    let mut draw = Draw::new(seed);
    let mut digest = Digest::new();
    let pool = Pool {
        digits: drawn(&mut draw, b"0123456789"),
        days: items(&mut draw, b"YMWD"),
        seconds: items(&mut draw, b"HMSS"),
    };
    let zeros = [b'0'; 4096];
    let mut text = Text::new();
    let config = TimeConfig::builder()
        .microseconds_precision_overflow_behavior(MicrosecondsPrecisionOverflowBehavior::Truncate)
        .build();
    let config = DateTimeConfig::builder().time_config(config).build();
    for _ in 0..rounds {
        decimals(&pool, &mut draw, &mut text, &config, &mut digest);
        zeros_and_digits(&pool, &zeros, &mut draw, &mut text, &config, &mut digest);
        fractions(&pool, &mut draw, &mut text, &mut digest);
        many_items(&pool, &mut draw, &mut text, &mut digest);
    }
    digest
}

/// Bytes that are drawn from ten.
fn drawn(draw: &mut Draw, bytes: &[u8; 10]) -> [u8; POOL] {
    let mut pool = [0; POOL];
    for byte in &mut pool {
        *byte = bytes[draw.below(10) as usize];
    }
    pool
}

/// Items that are drawn, with four designators.
fn items(draw: &mut Draw, designators: &[u8; 4]) -> [u8; POOL] {
    let mut pool = [0; POOL];
    for place in 0..POOL {
        pool[place] = if place % ITEM == 2 {
            designators[draw.below(4) as usize]
        } else {
            b'0' + draw.below(10) as u8
        };
    }
    pool
}

/// A run of digits, short or long.
fn run_of<'a>(pool: &'a [u8; POOL], draw: &mut Draw) -> &'a [u8] {
    let size = match draw.below(4) {
        0 => 20 + draw.below(60),
        1 => 80 + draw.below(320),
        2 => 400 + draw.below(600),
        _ => 1 + draw.below(RUN_MAX),
    };
    part(pool, draw.below(28_000), size)
}

/// A part of bytes that are drawn.
#[inline(always)]
fn part(pool: &[u8; POOL], place: u32, size: u32) -> &[u8] {
    let place = (place as usize).min(POOL);
    let end = place + (size as usize).min(POOL - place);
    &pool[place..end]
}

/// Decimals with all their digits, as numbers and as timestamps.
fn decimals(
    pool: &Pool,
    draw: &mut Draw,
    text: &mut Text,
    config: &DateTimeConfig,
    digest: &mut Digest,
) {
    text.clear();
    text.push(b"-1");
    text.push_bytes(part(&pool.digits, draw.below(28_000), 8));
    text.push(b".");
    text.push_bytes(run_of(&pool.digits, draw));
    match float_parse_bytes(text.as_bytes()) {
        IntFloat::Float(decimal) => {
            digest.add_signed(decimal.scaled(2).unwrap_or(-1));
            digest.add(decimal.fraction.len() as u64);
        }
        IntFloat::Int(number) => digest.add_signed(number),
        IntFloat::Err => digest.add(1),
    }
    let whole = part(&pool.digits, draw.below(28_000), 10);
    if let Some(decimal) = Decimal::new(draw.below(2) == 0, whole, run_of(&pool.digits, draw)) {
        match DateTime::from_decimal_with_config(decimal, config) {
            Ok(value) => digest.add_date_time(&value),
            Err(fault) => digest.add_fault(fault),
        }
    }
}

/// Numbers with zeros before them or after them.
fn zeros_and_digits(
    pool: &Pool,
    zeros: &[u8; 4096],
    draw: &mut Draw,
    text: &mut Text,
    config: &DateTimeConfig,
    digest: &mut Digest,
) {
    let count = draw.below(RUN_MAX) as usize;
    text.clear();
    text.push_bytes(&zeros[..count.min(4096)]);
    text.push_bytes(part(&pool.digits, draw.below(28_000), 9));
    digest.add_signed(int_parse_bytes(text.as_bytes()).unwrap_or(-1));
    text.push(b".");
    text.push_bytes(part(&pool.digits, draw.below(28_000), 6));
    text.push_bytes(&zeros[..count.min(4096)]);
    match DateTime::parse_bytes_with_config(text.as_bytes(), config) {
        Ok(value) => digest.add_date_time(&value),
        Err(fault) => digest.add_fault(fault),
    }
}

/// Durations with long fractions.
fn fractions(pool: &Pool, draw: &mut Draw, text: &mut Text, digest: &mut Digest) {
    text.clear();
    text.push(b"P1Y2DT3H4M5.");
    text.push_bytes(run_of(&pool.digits, draw));
    text.push(b"S");
    count(text.as_bytes(), digest);
    text.clear();
    text.push(b"-P0,");
    text.push_bytes(run_of(&pool.digits, draw));
    text.push(b"Y");
    count(text.as_bytes(), digest);
}

/// Durations of many items, right and wrong.
fn many_items(pool: &Pool, draw: &mut Draw, text: &mut Text, digest: &mut Digest) {
    text.clear();
    text.push(b"P");
    text.push_bytes(part(&pool.days, 3 * draw.below(9_000), 3 * (1 + draw.below(400))));
    text.push(b"T");
    text.push_bytes(part(
        &pool.seconds,
        3 * draw.below(9_000),
        3 * (1 + draw.below(400)),
    ));
    if draw.below(4) == 0 {
        text.push(b"7");
    }
    count(text.as_bytes(), digest);
}

/// Counts a duration in, or its error and its place.
fn count(text: &[u8], digest: &mut Digest) {
    match Duration::parse_bytes(text) {
        Ok(duration) => digest.add_duration(&duration),
        Err(fault) => {
            digest.add_fault(fault);
            let place = Duration::error_place(text, &TimeConfig::default());
            digest.add(place.unwrap_or(TEXT_MAX) as u64);
        }
    }
}
