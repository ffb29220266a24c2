//! Timestamps of machines, and a scheduler that moves jobs.

use crate::draw::{Digest, Draw, place};
use crate::pieces::{Pieces, Text, duration};
use arrayvec::ArrayString;
use speedate::{
    Date, DateConfig, DateTime, DateTimeConfig, Duration, IntFloat, TimestampUnit,
    float_parse_bytes,
};
use speedate_uses::schedule::next_run;

/// How many jobs a round has.
const JOBS: u32 = 1000;

/// How many bytes of printed texts are gathered.
const PRINTED_MAX: usize = 64;

/// Moves so many rounds of jobs, each with other times.
pub fn run(seed: u64, rounds: u64) -> Digest {
    let mut draw = Draw::new(seed);
    let mut digest = Digest::new();
    let mut text = Text::new();
    let pieces = Pieces::new(&mut draw);
    let milliseconds = DateTimeConfig::builder()
        .timestamp_unit(TimestampUnit::Millisecond)
        .build();
    for _ in 0..rounds {
        for _ in 0..JOBS {
            read(&pieces, &mut draw, &mut text, &milliseconds, &mut digest);
            convert(&mut draw, &mut digest);
            move_job(&pieces, &mut draw, &mut digest);
        }
    }
    digest
}

/// Reads a timestamp, as machines, spreadsheets and sensors write them.
fn read(
    pieces: &Pieces,
    draw: &mut Draw,
    text: &mut Text,
    milliseconds: &DateTimeConfig,
    digest: &mut Digest,
) {
    let bits = draw.number();
    text.clear();
    if bits >> 61 == 0 {
        text.push(b"-");
    } else {
        text.push(b"1");
    }
    text.push(&pieces.sixes[place(bits)]);
    text.push(&pieces.threes[place(bits >> 10)]);
    match (bits >> 58) & 7 {
        0 | 1 => {
            text.push(&pieces.threes[place(bits >> 20)]);
            digest.add_answer(&DateTime::parse_bytes(text.as_bytes()));
        }
        2 => {
            text.push(b".");
            text.push(&pieces.sixes[place(bits >> 20)]);
            digest.add_answer(&DateTime::parse_bytes(text.as_bytes()));
        }
        3 => {
            text.push(b".5");
            digest.add_answer(&DateTime::parse_bytes_with_config(text.as_bytes(), milliseconds));
        }
        4 => {
            text.push(b".");
            text.push(&pieces.sixes[place(bits >> 20)]);
            text.push(&pieces.threes[place(bits >> 30)]);
            if let IntFloat::Float(decimal) = float_parse_bytes(text.as_bytes()) {
                let config = DateTimeConfig::default();
                digest.add_answer(&DateTime::from_decimal_with_config(decimal, &config));
            }
        }
        _ => digest.add_answer(&DateTime::parse_bytes(text.as_bytes())),
    }
}

/// Converts timestamps that are numbers.
fn convert(draw: &mut Draw, digest: &mut Digest) {
    let bits = draw.number();
    let seconds = i64::from((bits & 0xffff_ffff) as u32) - 1_000_000_000;
    digest.add_answer(&DateTime::from_timestamp(seconds, ((bits >> 32) & 0xf_ffff) as u32));
    let milliseconds = ((bits >> 8) & 0x1ff_ffff_ffff) as i64 + 100_000_000_000;
    digest.add_answer(&DateTime::from_timestamp(milliseconds, 0));
    match Date::from_timestamp(seconds - 1, false, &DateConfig::default()) {
        Ok(date) => digest.add_date(&date),
        Err(fault) => digest.add_fault(fault),
    }
}

/// Moves a job to its next run.
fn move_job(pieces: &Pieces, draw: &mut Draw, digest: &mut Digest) {
    let bits = draw.number();
    let last = pieces.date_time(bits);
    let now = pieces.date_time(bits >> 20);
    let every = period(bits >> 40);
    match next_run(&last, &every, &now) {
        Ok(Some(run)) => move_run(&run, &every, &now, bits, pieces, digest),
        Ok(None) => digest.add(0),
        Err(fault) => digest.add_fault(fault),
    }
}

/// A period from a minute to ten years, by a number.
#[inline(always)]
fn period(bits: u64) -> Duration {
    let minutes = 1 + ((bits >> 2) & 1023) as u32;
    let second = match bits & 3 {
        0 => 60 * minutes,
        1 => 3_600 * (minutes % 24),
        _ => 0,
    };
    if bits & 3 == 3 {
        return duration(bits | 7);
    }
    Duration {
        positive: true,
        day: minutes % 31,
        second,
        microsecond: 0,
    }
}

/// Moves a run by its period and to another offset, and prints it.
fn move_run(
    run: &DateTime,
    every: &Duration,
    now: &DateTime,
    bits: u64,
    pieces: &Pieces,
    digest: &mut Digest,
) {
    digest.add_answer(&every.after(run));
    digest.add_answer(&every.before(run));
    digest.add_duration(&Duration::between(now, run));
    digest.add(u64::from(run.cmp_instant(now).is_le()));
    let offset = pieces.time_values[place(bits >> 50)].tz_offset.unwrap_or(0);
    if let Ok(shown) = run.in_timezone(offset) {
        let mut printed = ArrayString::<PRINTED_MAX>::new();
        shown.push_onto(&mut printed);
        digest.add_text(printed.as_str().as_bytes());
    }
}
