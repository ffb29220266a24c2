//! Runs over readers and writers that fail.

use super::{Ended, expect, parts, run_over};
use crate::ends::{Calls, Sink, Source, same};
use speedate_stream::run::RunError;
use std::alloc::AllocError;
use std::process::Abort;

const INPUT: &[u8] = b"date 2020-01-01\nx\ndate 123x";

const OUTPUT: &[u8] = b"ok 2020-01-01\nerr unknown_kind\nerr too_short\n";

/// Inputs after which a read fails, and the answers that are due by then, as [`super::SHORT`] has them.
const ROWS: &str = "\
'date 2020-01-01|x|date 2' ok 2020-01-01|err unknown_kind|
'date 2020-01-01|x|' ok 2020-01-01|err unknown_kind|
'<x*4097>'
''";

#[test]
fn a_read_that_fails_leaves_the_unfinished_line(rt: HostRuntime) -> Result<(), AllocError> {
    for row in ROWS.lines() {
        let (input, want) = parts(&rt, row)?;
        for step in [1, 5, usize::MAX] {
            let mut source = Source::new(&input, step);
            source.ends = false;
            let ended = run_over(source, Sink::new(rt.alloc(), usize::MAX));
            let found = (ended.result, ended.failed, ended.sink.flushes);
            let failed = (Err(RunError::Read), (true, false), 0);
            same(&rt, found, failed, &(row, step));
            same(&rt, ended.sink.taken.as_slice(), &want, &(row, step));
        }
    }
    Ok(())
}

/// The answers to the lines of [`INPUT`] that are complete once that many of its bytes are read.
fn due(read: usize) -> &'static [u8] {
    match read {
        0..16 => b"",
        16..18 => b"ok 2020-01-01\n",
        _ => b"ok 2020-01-01\nerr unknown_kind\n",
    }
}

/// How many bytes of [`INPUT`] a run has read.
fn read(ended: &Ended<'_>) -> usize {
    INPUT.len().saturating_sub(ended.source.rest.len())
}

/// A run over [`INPUT`] whose read `call` fails is to end there, with the answers that are due.
fn expect_read<R: AllocGlobal + Abort>(rt: &R, steps: (usize, usize), call: u64, fails: Calls) {
    let mut source = Source::new(INPUT, steps.0);
    source.fails = fails;
    let ended = run_over(source, Sink::new(rt.alloc(), steps.1));
    let row = (steps, fails);
    let calls = (ended.source.calls, ended.sink.flushes);
    same(rt, ended.result, Err(RunError::Read), &row);
    same(rt, ended.failed, (true, false), &row);
    same(rt, calls, (call.saturating_add(1), 0), &row);
    same(rt, ended.sink.taken.as_slice(), due(read(&ended)), &row);
}

/// A run over [`INPUT`] whose write `call` fails is to end there, with a beginning of the answers that
/// are due and all that were due before the last read.
fn expect_write<R: AllocGlobal + Abort>(
    rt: &R,
    steps: (usize, usize),
    call: u64,
    fails: Calls,
    refuses: Calls,
) -> Vec<u8> {
    let mut sink = Sink::new(rt.alloc(), steps.1);
    sink.fails = fails;
    sink.refuses = refuses;
    let ended = run_over(Source::new(INPUT, steps.0), sink);
    let row = (steps, fails, refuses);
    let calls = (ended.sink.calls, ended.sink.flushes);
    same(rt, ended.result, Err(RunError::Write), &row);
    same(rt, ended.failed, (false, true), &row);
    same(rt, calls, (call.saturating_add(1), 0), &row);
    let (whole, complete) = (ended.source.rest.is_empty(), due(read(&ended)));
    let all = if whole { OUTPUT } else { complete };
    let sure = due(read(&ended).saturating_sub(ended.source.latest));
    let written = ended.sink.taken.as_slice();
    let holds = (all.starts_with(written), written.starts_with(sure));
    same(rt, holds, (true, true), &row);
    ended.sink.taken
}

/// A run over [`INPUT`] whose flush fails is to have written all answers.
fn expect_flush<R: AllocGlobal + Abort>(rt: &R, steps: (usize, usize)) {
    let mut sink = Sink::new(rt.alloc(), steps.1);
    sink.flush_fails = true;
    let ended = run_over(Source::new(INPUT, steps.0), sink);
    let found = (ended.result, ended.failed, ended.sink.flushes);
    same(rt, found, (Err(RunError::Write), (false, true), 1), &steps);
    same(rt, ended.sink.taken.as_slice(), OUTPUT, &steps);
}

#[test]
fn each_call_fails_in_turn(rt: HostRuntime) {
    for read_step in [1, 2, 3, 16, usize::MAX] {
        for write_step in [1, 4, usize::MAX] {
            let steps = (read_step, write_step);
            let sink = Sink::new(rt.alloc(), write_step);
            let whole = run_over(Source::new(INPUT, read_step), sink);
            for call in 0..whole.source.calls {
                expect_read(&rt, steps, call, Calls::One(call));
                expect_read(&rt, steps, call, Calls::From(call));
            }
            for call in 0..whole.sink.calls {
                for calls in [Calls::One(call), Calls::From(call)] {
                    expect_write(&rt, steps, call, calls, Calls::None);
                    expect_write(&rt, steps, call, Calls::None, calls);
                }
            }
            expect_flush(&rt, steps);
        }
    }
}

#[test]
fn a_writer_that_fails_after_five_bytes_has_those(rt: HostRuntime) {
    let steps = (usize::MAX, 5);
    for calls in [Calls::One(1), Calls::From(1)] {
        for (fails, refuses) in [(calls, Calls::None), (Calls::None, calls)] {
            let written = expect_write(&rt, steps, 1, fails, refuses);
            same(&rt, written.as_slice(), b"ok 20".as_slice(), &steps);
        }
    }
}

#[test]
fn the_end_of_the_input_is_the_first_read_that_gives_nothing(rt: HostRuntime) {
    for step in [1, 3, usize::MAX] {
        let whole = run_over(Source::new(INPUT, step), Sink::new(rt.alloc(), usize::MAX));
        for call in 0..20 {
            let mut source = Source::new(INPUT, step);
            source.pauses = Calls::One(call);
            let ended = run_over(source, Sink::new(rt.alloc(), usize::MAX));
            let calls = whole.source.calls.min(call.saturating_add(1));
            let found = (ended.result, ended.source.calls);
            same(&rt, found, (Ok(()), calls), &(step, call));
            let before = INPUT.get(..read(&ended)).unwrap_or(INPUT);
            let written = ended.sink.taken.as_slice();
            let steps = (step, usize::MAX);
            expect(&rt, before, steps, written, "a part of the input");
        }
    }
}
