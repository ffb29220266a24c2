//! Whole runs.

mod failures;

use super::{RunError, run};
use crate::ends::{Sink, Source, same};
use speedate_stream::Watched;
use std::alloc::AllocError;
use std::process::Abort;

/// Inputs in quotes, and the answers to their lines. `|` stands for a line feed, `~` for the byte ff,
/// and `<x*4097>` for 4,097 times `x`.
const SHORT: &str = "\
'date 2020-01-01|x|date 123x' ok 2020-01-01|err unknown_kind|err too_short|
''
'|' err unknown_kind|
'date ' err too_short|
'date' err unknown_kind|
'date 2020-04-01 ' err extra_characters|
'date 2020-04-01\r|' err extra_characters|
'date 1654560000' ok 2022-06-07|
'date -62167219200001' err date_too_small|
'date  2020-01-01' err invalid_char_year|
'Date 2020-01-01' err unknown_kind|
'date ~~~~~~~~~~' err invalid_char_year|
'time 12:13' ok 12:13:00|
'time 12:00:00+0130' ok 12:00:00+01:30|
'time 24:00' err out_of_range_hour|
'time 12345' err invalid_char_time_sep|
'datetime 1654646404' ok 2022-06-08T00:00:04|
'datetime 1654646404.5' ok 2022-06-08T00:00:04.500000|
'datetime 1654646404.1234567' err second_fraction_too_long|
'datetime2020-01-01' err unknown_kind|
'duration P0.1Y' ok P36DT12H|
'duration P1Y2Y' ok P3Y|
'duration 1 day' ok P1D|
'duration -PT0S' ok -PT0S|
'duration P99999999999X' err duration_value_too_large|
'duration P1DT1MT1S' err duration_t_repeated|
'duration P1DT24H' ok P2D|
'duration-strict P1Y2Y' err duration_unit_order|
'duration-strict P1MT1M' ok P30DT1M|
'duration-lax P1Y' err unknown_kind|
'time 23:59|date 2000-02-29|time 2000-02-29|date 23:59' ok 23:59:00|ok 2000-02-29|err invalid_char_time_sep|err too_short|";

/// The same with long lines, and many of them.
const LONG: &str = "\
'date <1*4091>' err invalid_char_date_sep|
'date <1*4092>' err line_too_long|
'<x*4096>|date 1999-12-31' err unknown_kind|ok 1999-12-31|
'<x*4097>|date 1999-12-31' err line_too_long|ok 1999-12-31|
'<x*10000>|x' err line_too_long|err unknown_kind|
'<x*69633>|date 1999-12-31' err line_too_long|ok 1999-12-31|
'<|date 2020-02-29|*20000>' <err unknown_kind|ok 2020-02-29|*20000>";

/// Inputs that the first read gives whole, and how many writes their answers take: one for the complete
/// lines, one for a last line that no line feed ends, and a further one whenever another answer, here of
/// 17 bytes, might not fit after those that wait.
const WRITES: [(&str, u64); 5] = [
    ("", 0),
    ("x|x|x|", 1),
    ("x|x|x", 2),
    ("<x|*3853>", 1),
    ("<x|*3854>", 2),
];

/// How a run ended, whether the input and the output had failed, and both ends.
#[derive(Drop)]
struct Ended<'a> {
    result: Result<(), RunError>,
    failed: (bool, bool),
    source: Source<'a>,
    sink: Sink,
}

fn run_over(source: Source<'_>, sink: Sink) -> Ended<'_> {
    let mut input = Watched::new(source);
    let mut output = Watched::new(sink);
    let result = run(&mut input, &mut output);
    Ended {
        result,
        failed: (input.failed(), output.failed()),
        source: input.into_inner(),
        sink: output.into_inner(),
    }
}

/// The bytes that a part of a row stands for.
fn bytes<R: AllocGlobal + Abort>(rt: &R, text: &str) -> Result<Vec<u8>, AllocError> {
    let mut bytes = Vec::new(rt.alloc());
    let (front, rest) = text.split_once('<').unwrap_or((text, "*0>"));
    let (repeated, rest) = rest.split_once('*').expect(rt, text);
    let (count, back) = rest.split_once('>').expect(rt, text);
    push_bytes(&mut bytes, front)?;
    for _ in 0..count.parse::<u32>().ok().expect(rt, text) {
        push_bytes(&mut bytes, repeated)?;
    }
    push_bytes(&mut bytes, back)?;
    Ok(bytes)
}

fn push_bytes(bytes: &mut Vec<u8>, text: &str) -> Result<(), AllocError> {
    for &byte in text.as_bytes() {
        bytes.push(match byte {
            b'|' => b'\n',
            b'~' => 0xff,
            other => other,
        })?;
    }
    Ok(())
}

/// The input of a row, and the answers to it.
fn parts<R: AllocGlobal + Abort>(rt: &R, row: &str) -> Result<(Vec<u8>, Vec<u8>), AllocError> {
    let (input, answers) = row.rsplit_once('\'').expect(rt, row);
    let input = input.trim_start_matches('\'');
    Ok((bytes(rt, input)?, bytes(rt, answers.trim_start())?))
}

/// An input is to have these answers, over ends that give and take a number of bytes a call and do not fail.
fn expect<R: AllocGlobal + Abort>(
    rt: &R,
    input: &[u8],
    steps: (usize, usize),
    want: &[u8],
    row: &str,
) {
    let ended = run_over(Source::new(input, steps.0), Sink::new(rt.alloc(), steps.1));
    let found = (ended.result, ended.failed, ended.sink.flushes);
    same(rt, found, (Ok(()), (false, false), 1), &(row, steps));
    same(rt, ended.sink.taken.as_slice(), want, &(row, steps));
}

/// The rows of a table are to have their answers, over readers that give a number of bytes a call.
fn expect_rows<R: AllocGlobal + Abort>(
    rt: &R,
    rows: &str,
    read_steps: [usize; 4],
) -> Result<(), AllocError> {
    for row in rows.lines() {
        let (input, want) = parts(rt, row)?;
        for read_step in read_steps {
            for write_step in [1, usize::MAX] {
                expect(rt, &input, (read_step, write_step), &want, row);
            }
        }
    }
    Ok(())
}

#[test]
fn answers_each_line(rt: HostRuntime) -> Result<(), AllocError> {
    expect_rows(&rt, SHORT, [1, 2, 7, usize::MAX])
}

#[test]
fn limits_a_line(rt: HostRuntime) -> Result<(), AllocError> {
    expect_rows(&rt, LONG, [4096, 4097, 65_536, usize::MAX])
}

#[test]
fn answers_are_written_together(rt: HostRuntime) -> Result<(), AllocError> {
    for (row, writes) in WRITES {
        let input = bytes(&rt, row)?;
        let source = Source::new(&input, usize::MAX);
        let ended = run_over(source, Sink::new(rt.alloc(), usize::MAX));
        same(&rt, ended.sink.calls, writes, &row);
    }
    Ok(())
}
