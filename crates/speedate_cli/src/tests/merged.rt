//! The command `merge` over readers and writers that fail.

use super::ends::{Sink, Source};
use super::sorted::Breaking;
use super::words_of;
use crate::commands::first_merge;
use crate::program::program;
use speedate_scan::scan::{Offsets, Scan};
use speedate_sort::merge::{Halt, Halted, Reporter, Source as FileSource, merge};
use speedate_sort::sort::{Keys, Unread};
use speedate_stream::{Failed, Watched};
use std::alloc::AllocError;
use std::io::{BufReader, Read};
use std::process::Abort;

const FIRST: &str = "2026-11-22T06:10Z a\n\ttrace\n2026-11-22T06:30Z b\n2026-11-22T07:30+01:00 c";

const SECOND: &str = "x\n2026-11-22T06:09Z d\n2026-11-22T06:30Z e\n2026-02-30 f\n";

/// What is printed of both.
const MERGED: &str = "\
x\n\
2026-11-22T06:09Z d\n\
2026-11-22T06:10Z a\n\
\ttrace\n\
2026-11-22T06:30Z b\n\
2026-11-22T07:30+01:00 c\n\
2026-11-22T06:30Z e\n\
2026-02-30 f\n\
";

/// What a run leaves.
#[derive(Drop)]
struct Ended {
    halted: Result<Option<Halted>, Failed>,
    taken: Vec<u8>,
}

/// Tells nothing.
#[derive(Drop)]
struct Silent;

impl Reporter for Silent {
    ghost reported = { λ reporter _ _. reporter };

    fn report(&mut self, _scan: &Scan<'_>, _told: u64) {}
}

/// A run of the command over two readers.
fn merged<R: AllocGlobal + Abort, I: Read + Drop>(
    rt: &R,
    first: I,
    second: I,
    sink: Sink,
) -> Result<Ended, AllocError> {
    let list = words_of(rt, "merge")?;
    let program = program(rt.alloc())?;
    let matches = program.try_get_matches_from(list.as_slice());
    let matches = matches.ok().expect(rt, "merge");
    let (_, given) = matches.subcommand().expect(rt, "merge");
    let keys = first_merge(given).ok().expect(rt, "merge");
    Ok(merged_with(rt, keys, first, second, sink))
}

/// A merge of two readers.
fn merged_with<R: AllocGlobal + Abort, I: Read + Drop>(
    rt: &R,
    keys: Keys<'_>,
    first: I,
    second: I,
    sink: Sink,
) -> Ended {
    let first = BufReader::new(rt.alloc(), first).ok().expect(rt, "merge");
    let second = BufReader::new(rt.alloc(), second).ok().expect(rt, "merge");
    let mut first = FileSource::new(keys, first, rt.alloc());
    let mut second = FileSource::new(keys, second, rt.alloc());
    let mut offsets = Offsets::AsFirst;
    let mut silent = Silent;
    let next = first.next(&mut offsets, &mut silent);
    assert!(rt; next.is_ok());
    let next = second.next(&mut offsets, &mut silent);
    assert!(rt; next.is_ok());
    let mut sources = Vec::new(rt.alloc());
    sources.push(first).ok().expect(rt, "merge");
    sources.push(second).ok().expect(rt, "merge");
    let mut output = Watched::new(sink);
    let halted = merge(&mut sources, offsets, &mut output, &mut silent);
    Ended {
        halted,
        taken: output.into_inner().taken,
    }
}

#[test]
fn merge_fails_with_its_ends(rt: HostRuntime) -> Result<(), AllocError> {
    // Each reader gives the first lines, and then fails.
    let first = Breaking {
        source: Source::new(FIRST.as_bytes(), 27),
    };
    let second = Breaking {
        source: Source::new(SECOND.as_bytes(), 40),
    };
    let ended = merged(&rt, first, second, Sink::new(rt.alloc(), 9))?;
    let halt = Halt::Unread(Unread::Read);
    assert_eq!(rt; ended.halted, Ok(Some(Halted { index: 1, halt })));
    assert_eq!(rt;
        ended.taken.as_slice(),
        b"x\n2026-11-22T06:09Z d\n".as_slice()
    );
    for part in 0..MERGED.len() / 7 {
        let mut sink = Sink::new(rt.alloc(), 40);
        sink.room = part.saturating_mul(7);
        let beginning = MERGED.as_bytes().get(..sink.room).expect(&rt, "merge");
        let first = Source::new(FIRST.as_bytes(), 7);
        let second = Source::new(SECOND.as_bytes(), 40);
        let ended = merged(&rt, first, second, sink)?;
        assert_eq!(rt; ended.halted, Err(Failed));
        assert_eq!(rt; ended.taken.as_slice(), beginning);
    }
    Ok(())
}
