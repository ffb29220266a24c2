//! Columns of date-times, dates and durations, as files have them.

use crate::draw::{Digest, Draw, is_rare, place};
use crate::pieces::{Pieces, Text};
use speedate::{
    DateConfig, DateReader, DateTimeConfig, DateTimeParser, DateTimeReader, DurationReader,
    LineConfig, LineReader, MicrosecondsPrecisionOverflowBehavior, Progress, TimeConfig,
    read_column, read_column_with_errors,
};

/// How many lines a column has.
const LINES: usize = 1024;

/// Lines that line feeds end.
const LINE_FEEDS: LineConfig = LineConfig {
    at_end: true,
    drops_returns: false,
};

/// Lines that a carriage return and a line feed end.
const RETURNS: LineConfig = LineConfig {
    at_end: true,
    drops_returns: true,
};

/// Reads so many rounds of columns, each with other lines.
pub fn run(seed: u64, rounds: u64) -> Digest {
    let mut draw = Draw::new(seed);
    let mut digest = Digest::new();
    let mut text = Text::new();
    let pieces = Pieces::new(&mut draw);
    for round in 0..rounds {
        seconds(&pieces, &mut draw, &mut text, &mut digest);
        microseconds(&pieces, &mut draw, &mut text, &mut digest);
        milliseconds(&pieces, &mut draw, &mut text, &mut digest);
        spaces(&pieces, &mut draw, &mut text, &mut digest);
        timestamps(&pieces, &mut draw, &mut text, &mut digest);
        dates(round, &pieces, &mut draw, &mut text, &mut digest);
        durations(&pieces, &mut draw, &mut text, &mut digest);
    }
    digest
}

/// A column that logs and databases write: `2020-02-29T12:13:14Z`.
fn seconds(pieces: &Pieces, draw: &mut Draw, text: &mut Text, digest: &mut Digest) {
    text.clear();
    for _ in 0..LINES {
        let bits = draw.number();
        text.push(&pieces.dates[place(bits)]);
        text.push(b"T");
        text.push(&pieces.clocks[place(bits >> 10)]);
        text.push(b"Z\n");
    }
    read(text, LINE_FEEDS, &rfc3339(), digest);
}

/// A column of RFC 3339 alone, with six digits and offsets; some lines are wrong.
fn microseconds(pieces: &Pieces, draw: &mut Draw, text: &mut Text, digest: &mut Digest) {
    text.clear();
    for _ in 0..LINES {
        let bits = draw.number();
        if is_rare(bits >> 40) {
            push_wrong(bits, pieces, text);
        } else {
            text.push(&pieces.dates[place(bits)]);
            text.push(b"T");
            text.push(&pieces.clocks[place(bits >> 10)]);
            text.push(b".");
            text.push(&pieces.sixes[place(bits >> 20)]);
            text.push(&pieces.offsets[place(bits >> 30)]);
        }
        text.push(b"\n");
    }
    let reader = DateTimeReader {
        parser: DateTimeParser::Strict(MicrosecondsPrecisionOverflowBehavior::Error),
        assumes_utc: false,
    };
    read_with_errors(text, LINE_FEEDS, &reader, digest);
}

/// A column of milliseconds in UTC, as JavaScript writes them.
fn milliseconds(pieces: &Pieces, draw: &mut Draw, text: &mut Text, digest: &mut Digest) {
    text.clear();
    for _ in 0..LINES {
        let bits = draw.number();
        text.push(&pieces.dates[place(bits)]);
        text.push(b"T");
        text.push(&pieces.clocks[place(bits >> 10)]);
        text.push(b".");
        text.push(&pieces.threes[place(bits >> 20)]);
        text.push(b"Z\n");
    }
    read(text, LINE_FEEDS, &rfc3339(), digest);
}

/// A column of a spreadsheet: no offsets, empty lines and wrong ones, and ends of Windows.
fn spaces(pieces: &Pieces, draw: &mut Draw, text: &mut Text, digest: &mut Digest) {
    text.clear();
    for _ in 0..LINES {
        let bits = draw.number();
        if is_rare(bits >> 40) {
            push_wrong(bits, pieces, text);
        } else if bits >> 60 != 0 {
            text.push(&pieces.dates[place(bits)]);
            text.push(b" ");
            text.push(&pieces.clocks[place(bits >> 10)]);
        }
        text.push(b"\r\n");
    }
    read_with_errors(text, RETURNS, &or_timestamp(), digest);
}

/// A column of timestamps: whole seconds, and milliseconds and decimals among them.
fn timestamps(pieces: &Pieces, draw: &mut Draw, text: &mut Text, digest: &mut Digest) {
    text.clear();
    for _ in 0..LINES {
        let bits = draw.number();
        text.push(b"1");
        text.push(&pieces.sixes[place(bits)]);
        text.push(&pieces.threes[place(bits >> 10)]);
        match bits >> 62 {
            0 => text.push(&pieces.threes[place(bits >> 20)]),
            1 => {
                text.push(b".");
                text.push(&pieces.sixes[place(bits >> 20)]);
            }
            _ => {}
        }
        text.push(b"\n");
    }
    read(text, LINE_FEEDS, &or_timestamp(), digest);
}

/// A column of dates, some of them wrong.
fn dates(round: u64, pieces: &Pieces, draw: &mut Draw, text: &mut Text, digest: &mut Digest) {
    text.clear();
    for _ in 0..LINES {
        let bits = draw.number();
        if is_rare(bits >> 40) {
            push_wrong(bits, pieces, text);
        } else {
            text.push(&pieces.dates[place(bits)]);
        }
        text.push(b"\n");
    }
    let reader = if round % 2 == 0 {
        DateReader::Text
    } else {
        DateReader::OrTimestamp(DateConfig::default())
    };
    let mut numbers = [0; LINES];
    let progress = read_column(
        text.as_bytes(),
        LINE_FEEDS,
        &reader,
        Some(i32::MIN),
        &mut numbers,
    );
    for number in &numbers[..progress.lines.min(LINES)] {
        digest.add_signed(i64::from(*number));
    }
}

/// A column of durations: as ISO 8601 has them, as clocks, and as days with a clock.
fn durations(pieces: &Pieces, draw: &mut Draw, text: &mut Text, digest: &mut Digest) {
    text.clear();
    for _ in 0..LINES {
        let bits = draw.number();
        match bits >> 61 {
            0 => {
                text.push(&pieces.clocks[place(bits)]);
                text.push(b"\n");
            }
            1 => {
                text.push(&pieces.threes[place(bits)]);
                text.push(b" days, ");
                text.push(&pieces.clocks[place(bits >> 10)]);
                text.push(b"\n");
            }
            2 => {
                text.push(b"P1Y2M");
                text.push(&pieces.threes[place(bits)]);
                text.push(b"DT3H4M5.");
                text.push(&pieces.threes[place(bits >> 10)]);
                text.push(b"S\n");
            }
            _ => text.push(&pieces.lengths[place(bits)]),
        }
    }
    let reader = DurationReader {
        config: TimeConfig::default(),
    };
    read(text, LINE_FEEDS, &reader, digest);
}

/// A text that begins as a date-time and is none, by the bits of a number.
fn push_wrong(bits: u64, pieces: &Pieces, text: &mut Text) {
    let date = &pieces.dates[place(bits)];
    match (bits >> 46) % 5 {
        0 => text.push(b"n/a"),
        1 => text.push(date),
        2 => {
            text.push(date);
            text.push(b"T24:00:00Z");
        }
        3 => {
            text.push(date);
            text.push(b"T12:13:14.");
            text.push(&pieces.sixes[place(bits >> 20)]);
            text.push(b"789Z");
        }
        _ => {
            text.push(b"29/02/20");
            text.push(&pieces.threes[place(bits >> 20)]);
        }
    }
}

/// The reader of columns that have no timestamps.
fn rfc3339() -> DateTimeReader {
    DateTimeReader {
        parser: DateTimeParser::Text(TimeConfig::default()),
        assumes_utc: false,
    }
}

/// The reader of columns that have timestamps.
fn or_timestamp() -> DateTimeReader {
    DateTimeReader {
        parser: DateTimeParser::OrTimestamp(DateTimeConfig::default()),
        assumes_utc: true,
    }
}

/// Reads a column, and counts its numbers in.
fn read<R: LineReader<Number = i64>>(
    text: &Text,
    config: LineConfig,
    reader: &R,
    digest: &mut Digest,
) {
    let mut numbers = [0; LINES];
    let progress = read_column(
        text.as_bytes(),
        config,
        reader,
        Some(i64::MIN),
        &mut numbers,
    );
    count(&progress, &numbers, digest);
}

/// Reads a column with its errors, and counts its numbers and errors in.
fn read_with_errors<R: LineReader<Number = i64>>(
    text: &Text,
    config: LineConfig,
    reader: &R,
    digest: &mut Digest,
) {
    let mut numbers = [0; LINES];
    let mut errors = [0; LINES];
    let progress = read_column_with_errors(
        text.as_bytes(),
        config,
        reader,
        i64::MIN,
        &mut numbers,
        &mut errors,
    );
    count(&progress, &numbers, digest);
    for error in &errors[..progress.lines.min(LINES)] {
        digest.add(u64::from(*error));
    }
}

/// Counts a column in.
fn count(progress: &Progress, numbers: &[i64; LINES], digest: &mut Digest) {
    digest.add(progress.bytes as u64);
    for number in &numbers[..progress.lines.min(LINES)] {
        digest.add_signed(*number);
    }
}
