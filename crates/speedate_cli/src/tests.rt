//! The commands over readers and writers that give and take some bytes, and fail.

mod ends;
mod merged;
mod searched;
mod sorted;

use crate::commands::{first_between, first_check, first_convert, first_sum, first_summary};
use crate::files::write_end;
use crate::program::program;
use clap::ArgMatches;
use ends::{Sink, Source};
use speedate_commands::command::Command;
use speedate_stream::run::RunError;
use speedate_stream::{NoObserver, Watched};
use std::alloc::AllocError;
use std::process::Abort;

/// A log.
const LOG: &str = "\
2026-11-22T06:10:00Z a\n\
trace\n\
[2026-11-22T07:09:00+01:00] b\n\
2026-02-30T00:00Z c\n\
2026-11-22T06:30:00.5Z d";

/// One command line for each command.
const EACH: [&str; 6] = [
    "between -n .. ..",
    "check",
    "convert -n",
    "check --order --gap PT1M",
    "sum",
    "summary",
];

/// An input that is split everywhere: a bad value, and a line that is undated.
const SMALL: &[u8] = b"2026-\n2";

/// What a run leaves.
#[derive(Drop)]
struct Ended {
    result: Result<(), RunError>,
    /// How many calls of the reader there were.
    reads: u64,
    taken: Vec<u8>,
}

/// A run of a command over a reader and a writer.
fn run_command<'a, C: Command<'a>>(command: &mut C, source: Source<'_>, sink: Sink) -> Ended {
    command.begin(b"app.log");
    let mut input = Watched::new(source);
    let mut output = Watched::new(sink);
    let mut result = command.print(&mut input, &mut output, &mut NoObserver);
    if result != Err(RunError::Write) && write_end(command, &mut output).is_err() {
        result = Err(RunError::Write);
    }
    Ended {
        result,
        reads: input.into_inner().calls,
        taken: output.into_inner().taken,
    }
}

/// A run of the command of this name.
fn run_given<R: Abort>(
    rt: &R,
    name: &str,
    given: &ArgMatches<'_>,
    source: Source<'_>,
    sink: Sink,
) -> Ended {
    match name {
        "between" => run_command(
            &mut first_between(given).ok().expect(rt, name),
            source,
            sink,
        ),
        "check" => run_command(&mut first_check(given).ok().expect(rt, name), source, sink),
        "convert" => run_command(
            &mut first_convert(given).ok().expect(rt, name),
            source,
            sink,
        ),
        "sum" => run_command(&mut first_sum(given).ok().expect(rt, name), source, sink),
        _ => run_command(
            &mut first_summary(given).ok().expect(rt, name),
            source,
            sink,
        ),
    }
}

/// The words of a command line, which are apart by spaces.
fn words_of<R: AllocGlobal>(rt: &R, words: &'static str) -> Result<Vec<&'static str>, AllocError> {
    let mut list = Vec::new(rt.alloc());
    list.push("speedate")?;
    for word in words.split(' ') {
        list.push(word)?;
    }
    Ok(list)
}

/// A run of a command over a log that is read and written by some bytes a call.
fn run_log<R: AllocGlobal + Abort>(
    rt: &R,
    name: &str,
    given: &ArgMatches<'_>,
    log: &[u8],
    step: usize,
) -> Ended {
    let sink = Sink::new(rt.alloc(), step);
    run_given(rt, name, given, Source::new(log, step), sink)
}

/// Each split of a small input into reads is to print the same.
fn expect_splits<R: AllocGlobal + Abort>(rt: &R, name: &str, given: &ArgMatches<'_>) {
    let want = run_log(rt, name, given, SMALL, usize::MAX);
    for cuts in 0..64 {
        let mut source = Source::new(SMALL, usize::MAX);
        source.cuts = cuts;
        let ended = run_given(rt, name, given, source, Sink::new(rt.alloc(), usize::MAX));
        assert_eq!(rt;
            ended.taken.as_slice(),
            want.taken.as_slice(),
            "{name} {cuts}"
        );
    }
}

/// The complete lines of the first bytes of [`LOG`].
fn complete<R: Abort>(rt: &R, read: usize) -> &'static [u8] {
    let mut end = 0;
    for (place, &byte) in LOG.as_bytes().iter().enumerate() {
        if place < read && byte == b'\n' {
            end = place.saturating_add(1);
        }
    }
    LOG.as_bytes().get(..end).expect(rt, "a line")
}

/// A read that fails is to end the run, with what is printed for the lines before it.
fn expect_reads<R: AllocGlobal + Abort>(rt: &R, name: &str, given: &ArgMatches<'_>, step: usize) {
    let reads = run_log(rt, name, given, LOG.as_bytes(), step).reads;
    for call in 0..reads {
        let mut source = Source::new(LOG.as_bytes(), step);
        source.fails = Some(call);
        let ended = run_given(rt, name, given, source, Sink::new(rt.alloc(), 3));
        let lines = complete(rt, step.saturating_mul(call as usize));
        let want = run_log(rt, name, given, lines, usize::MAX);
        assert_eq!(rt; ended.result, Err(RunError::Read), "{name} {call}");
        assert_eq!(rt; ended.reads, call.saturating_add(1), "{name} {call}");
        assert_eq!(rt;
            ended.taken.as_slice(),
            want.taken.as_slice(),
            "{name} {call}"
        );
    }
}

/// A writer that is full is to end the run, and to have a beginning of what is printed.
fn expect_writes<R: AllocGlobal + Abort>(rt: &R, name: &str, given: &ArgMatches<'_>, step: usize) {
    let want = run_log(rt, name, given, LOG.as_bytes(), usize::MAX).taken;
    for part in 0..want.len() / 7 {
        let room = part.saturating_mul(7);
        let mut sink = Sink::new(rt.alloc(), step);
        sink.room = room;
        let ended = run_given(rt, name, given, Source::new(LOG.as_bytes(), 40), sink);
        let beginning = want.get(..room).expect(rt, name);
        assert_eq!(rt; ended.result, Err(RunError::Write), "{name} {room}");
        assert_eq!(rt; ended.taken.as_slice(), beginning, "{name} {room}");
    }
}

/// A flush that fails is to end the run, after all that is printed for lines was written.
fn expect_flush<R: AllocGlobal + Abort>(rt: &R, name: &str, given: &ArgMatches<'_>) {
    let want = run_log(rt, name, given, LOG.as_bytes(), usize::MAX).taken;
    let mut sink = Sink::new(rt.alloc(), usize::MAX);
    sink.flush_fails = true;
    let ended = run_given(rt, name, given, Source::new(LOG.as_bytes(), 40), sink);
    assert_eq!(rt; ended.result, Err(RunError::Write), "{name}");
    // A sum and a summary come after the flush of the last file.
    let is_whole = ended.taken.as_slice() == want.as_slice();
    assert_eq!(rt; is_whole, name != "sum" && name != "summary", "{name}");
}

#[test]
fn each_end_fails_in_turn(rt: HostRuntime) -> Result<(), AllocError> {
    for words in EACH {
        let list = words_of(&rt, words)?;
        let program = program(rt.alloc())?;
        let matches = program.try_get_matches_from(list.as_slice());
        let matches = matches.ok().expect(&rt, words);
        let (name, given) = matches.subcommand().expect(&rt, words);
        expect_splits(&rt, name, given);
        for step in [7, 40] {
            expect_reads(&rt, name, given, step);
            expect_writes(&rt, name, given, step);
        }
        expect_flush(&rt, name, given);
    }
    Ok(())
}
