//! The command `sort` over readers and writers that fail.

use super::ends::{Sink, Source};
use super::{LOG, words_of};
use crate::commands::first_keys;
use crate::program::program;
use speedate_sort::sort::{KeyedLines, Unread, Unsorted};
use speedate_stream::Watched;
use std::alloc::AllocError;
use std::io::{self, ErrorKind, Read};
use std::process::Abort;

/// A reader that gives what one read gives, and then fails.
#[derive(Drop)]
pub struct Breaking<'a> {
    pub source: Source<'a>,
}

impl Read for Breaking<'_> {
    fn read(&mut self, buffer: &mut [u8]) -> io::Result<usize> {
        if self.source.calls > 0 {
            return Err(io::Error::from(ErrorKind::ConnectionReset));
        }
        self.source.read(buffer)
    }
}

/// What a run leaves.
#[derive(Drop)]
struct Printed {
    result: Result<(), Unsorted>,
    taken: Vec<u8>,
}

/// How the lines of an input are added and printed.
fn sorted_log<R: AllocGlobal + Abort, I: Read + Drop>(
    rt: &R,
    input: I,
    sink: Sink,
) -> Result<(Result<(), Unread>, Printed), AllocError> {
    let list = words_of(rt, "sort")?;
    let program = program(rt.alloc())?;
    let matches = program.try_get_matches_from(list.as_slice());
    let matches = matches.ok().expect(rt, "sort");
    let (_, given) = matches.subcommand().expect(rt, "sort");
    let mut keys = first_keys(given).ok().expect(rt, "sort");
    keys.scan.begin(b"app.log");
    let mut lines = KeyedLines::new(rt.alloc());
    let added = lines.add(&mut keys, &mut Watched::new(input));
    let mut output = Watched::new(sink);
    let result = lines.print(&mut output);
    let taken = output.into_inner().taken;
    Ok((added, Printed { result, taken }))
}

#[test]
fn sort_fails_with_its_ends(rt: HostRuntime) -> Result<(), AllocError> {
    // The reader gives the first two lines, and then fails.
    let source = Source::new(LOG.as_bytes(), 40);
    let sink = Sink::new(rt.alloc(), 9);
    let (added, printed) = sorted_log(&rt, Breaking { source }, sink)?;
    assert_eq!(rt; added, Err(Unread::Read));
    assert_eq!(rt;
        printed.taken.as_slice(),
        b"2026-11-22T06:10:00Z a\ntrace\n".as_slice()
    );
    let source = Source::new(LOG.as_bytes(), usize::MAX);
    let (_, printed) = sorted_log(&rt, source, Sink::new(rt.alloc(), usize::MAX))?;
    let want = printed.taken;
    for part in 0..want.len() / 7 {
        let mut sink = Sink::new(rt.alloc(), 40);
        sink.room = part.saturating_mul(7);
        let beginning = want.get(..sink.room).expect(&rt, "sort");
        let (_, printed) = sorted_log(&rt, Source::new(LOG.as_bytes(), 7), sink)?;
        assert_eq!(rt; printed.result, Err(Unsorted::Write));
        assert_eq!(rt; printed.taken.as_slice(), beginning);
    }
    Ok(())
}
