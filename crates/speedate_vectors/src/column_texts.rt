//! Columns of numbers from texts at offsets.

use crate::rows::{quoted, same, value, words};
use speedate::{DateReader, DurationReader, LineError, Progress, TimeConfig, read_texts};
use std::process::Abort;

/// Each row of texts and their days: the offsets; the bytes; how many texts are read, the offset at which
/// they end, and the two numbers, or `none`.
const DAYS: &str = "\
0 10 20 '1970-01-021969-12-31' 2 20 1 -1
1 11 21 '|1970-01-021969-12-31|' 2 21 1 -1
0 10 20 30 '1970-01-021969-12-311970-01-03' 2 20 1 -1
0 10 10 20 '1970-01-021969-12-31' 1 10 1 7
0 11 '1970-01-02|' 0 0 7 7
'1970-01-02' 0 0 7 7
3 '1970-01-02' 0 3 7 7
0 0 '' 0 0 7 7
0 10 9 '1970-01-02' none
0 11 '1970-01-02' none
11 '1970-01-02' none
-1 '1970-01-02' none";

/// The offsets of a row, and how many they are.
fn offsets<R: Abort>(rt: &R, row: &str) -> ([i32; 6], usize) {
    let mut offsets = [0; 6];
    let mut count = 0;
    for word in words(row) {
        if !word.is_empty() && count < offsets.len() {
            offsets[count] = value(rt, word);
            count += 1;
        }
    }
    (offsets, count)
}

/// The days of a row's texts, as many as there is room for.
fn days<R: Abort>(rt: &R, row: &str, bytes: &[u8], out: &mut [i32]) -> Option<Progress> {
    let (offsets, count) = offsets(rt, row);
    let offsets = offsets.get(..count)?;
    read_texts(bytes, offsets, &DateReader::Text, None, out, &mut [])
}

#[test]
fn texts_are_days(rt: HostRuntime) {
    for row in DAYS.lines() {
        let (left, text, want) = quoted(&rt, row);
        let mut out = [7; 2];
        match days(&rt, left, text.as_bytes(), &mut out) {
            None => same(&rt, "none", want, row),
            Some(progress) => {
                let [texts, end, first, second, ..] = words(want);
                same(&rt, progress.lines, value(&rt, texts), row);
                same(&rt, progress.bytes, value(&rt, end), row);
                same(&rt, out, [value(&rt, first), value(&rt, second)], row);
            }
        }
    }
}

/// The microseconds of three durations, and the numbers of their errors.
fn durations(refused: Option<i64>, errors: &mut [u8]) -> (Option<Progress>, [i64; 3]) {
    let reader = DurationReader {
        config: TimeConfig::default(),
    };
    let mut out = [7; 3];
    let bytes = b"PT1SP999999999DPT2S";
    let read = read_texts(bytes, &[0, 4, 15, 19], &reader, refused, &mut out, errors);
    (read, out)
}

#[test]
fn a_text_ends_a_column_or_has_an_error(rt: HostRuntime) {
    let (read, out) = durations(None, &mut []);
    let progress = read.expect(&rt, "the offsets rise");
    same(&rt, (progress.lines, progress.bytes), (1, 4), "ends");
    same(&rt, progress.error, Some(LineError::NumberTooLarge), "ends");
    same(&rt, (progress.place, progress.end), (0, 11), "ends");
    same(&rt, out, [1_000_000, 7, 7], "ends");
    let mut errors = [9; 3];
    let (read, out) = durations(Some(-1), &mut errors);
    let progress = read.expect(&rt, "the offsets rise");
    same(&rt, (progress.lines, progress.bytes), (3, 19), "goes on");
    same(&rt, out, [1_000_000, -1, 2_000_000], "goes on");
    same(&rt, errors, [0, 97, 0], "goes on");
}
