//! A log: its lines between two instants, and its times, sorted and printed again.

use crate::draw::{Digest, Draw, place};
use crate::pieces::{Pieces, Text};
use arrayvec::ArrayString;
use speedate::{DateTime, MicrosecondsPrecisionOverflowBehavior, TimeConfig, line_end};
use speedate_uses::log::{lines_between, log_entry, sort_by_instant};
use std::alloc::{AllocError, Global};

/// How many lines a block has at most.
const LINES: u32 = 512;

/// How many bytes a line has at most.
const LINE_MAX: usize = 320;

/// How many bytes of printed texts are gathered.
const PRINTED_MAX: usize = 16384;

/// How many bytes of a line tell which one it is.
const TIME_SIZE: usize = 32;

/// What follows the time of a line.
const MESSAGES: [&[u8]; 8] = [
    b" INFO  request served method=GET path=/api/v1/orders status=200 bytes=5120\n",
    b" DEBUG cache hit key=session:4f2a91c0 ttl=3599 node=cache-03.internal.example\n",
    b" INFO  request served method=POST path=/api/v1/orders/1729/items status=201 agent=\"Mozilla/5.0 (X11; Linux x86_64)\"\n",
    b" WARN  slow query duration_ms=812 rows=10240 statement=\"select id, created, state from orders where customer = $1 limit 50\"\n",
    b" INFO  job finished queue=mail attempts=1 recipients=240 template=weekly-summary locale=de-CH\n",
    b" ERROR upstream timed out while reading response header, client: 203.0.113.77, server: api.example.com, request: \"GET /v2/reports/2026/11 HTTP/1.1\", upstream: \"http://198.51.100.4:8080/v2/reports/2026/11\"\n",
    b" INFO  connection closed peer=203.0.113.9:51422 sent=18230 received=902\n",
    b" TRACE span=4c1a parent=91ff name=render elapsed_us=418 thread=worker-7 depth=3\n",
];

/// Reads so many logs, each with other lines.
pub fn run(alloc: Global, seed: u64, rounds: u64) -> Result<Digest, AllocError> {
    let mut draw = Draw::new(seed);
    let mut digest = Digest::new();
    let mut text = Text::new();
    let pieces = Pieces::new(&mut draw);
    let config = TimeConfig::builder()
        .microseconds_precision_overflow_behavior(MicrosecondsPrecisionOverflowBehavior::Truncate)
        .build();
    for _ in 0..rounds {
        let start = draw.number();
        fill(start, &pieces, &mut draw, &mut text);
        choose(alloc, start, &pieces, &text, &config, &mut digest)?;
        fill(start, &pieces, &mut draw, &mut text);
        sort(alloc, &text, &config, &mut digest)?;
    }
    Ok(digest)
}

/// Fills a text with the lines of a day, of hosts whose clocks differ a little.
fn fill(start: u64, pieces: &Pieces, draw: &mut Draw, text: &mut Text) {
    text.clear();
    for line in 0..LINES {
        if text.has_room(LINE_MAX) {
            let bits = draw.number();
            text.push(&pieces.dates[place(start)]);
            text.push(b"T");
            text.push(&pieces.clocks[place(u64::from(2 * line) + (bits & 7))]);
            text.push(b".");
            text.push(&pieces.sixes[place(bits >> 3)]);
            if (bits >> 13) & 3 == 0 {
                text.push(b"+01:00");
            } else {
                text.push(b"Z");
            }
            text.push_bytes(MESSAGES[place(bits >> 20) % 8]);
        }
    }
}

/// Chooses the lines between two instants.
fn choose(
    alloc: Global,
    start: u64,
    pieces: &Pieces,
    text: &Text,
    config: &TimeConfig,
    digest: &mut Digest,
) -> Result<(), AllocError> {
    let lines = lines(alloc, text.as_bytes())?;
    let first = instant(start, 50, pieces);
    let last = instant(start, 850, pieces);
    let kept = lines_between(alloc, lines.as_slice(), config, &first, &last)?;
    for line in kept.as_slice() {
        digest.add_text(&line[..line.len().min(TIME_SIZE)]);
        digest.add(line.len() as u64);
    }
    digest.add(lines.len() as u64);
    Ok(())
}

/// The instant of a clock on the day of a log.
fn instant(start: u64, clock: u64, pieces: &Pieces) -> DateTime {
    DateTime {
        date: pieces.date_values[place(start)],
        time: pieces.time_values[place(clock)],
    }
}

/// Sorts the times of the lines by instant, and prints them again.
fn sort(
    alloc: Global,
    text: &Text,
    config: &TimeConfig,
    digest: &mut Digest,
) -> Result<(), AllocError> {
    let mut times = Vec::new(alloc);
    for line in lines(alloc, text.as_bytes())?.as_slice() {
        match log_entry(line, config) {
            Ok((value, rest)) => {
                times.push(value)?;
                digest.add(rest.len() as u64);
            }
            Err(fault) => digest.add_fault(fault),
        }
    }
    sort_by_instant(alloc, times.as_mut_slice())?;
    let mut printed = ArrayString::<PRINTED_MAX>::new();
    for value in times.as_slice() {
        if printed.remaining_capacity() >= 32 {
            value.push_onto(&mut printed);
        }
    }
    digest.add_text(printed.as_str().as_bytes());
    Ok(())
}

/// The lines of a text.
pub fn lines(alloc: Global, text: &[u8]) -> Result<Vec<&[u8]>, AllocError> {
    let mut lines = Vec::new(alloc);
    let mut rest = text;
    for _ in 0..4 * LINES {
        let Some(end) = line_end(rest, 0) else {
            break;
        };
        let (line, after) = rest.split_at(end);
        lines.push(line)?;
        let [_, next @ ..] = after else {
            break;
        };
        rest = next;
    }
    Ok(lines)
}
