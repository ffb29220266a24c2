//! The command `between` over a file in order, of which a read fails.

use super::ends::Sink;
use super::words_of;
use crate::commands::first_between;
use crate::program::program;
use crate::seeking::Seeking;
use speedate_commands::command::Command;
use speedate_commands::in_order::between_in_order;
use speedate_commands::search::ReadAt;
use speedate_stream::Watched;
use speedate_stream::run::RunError;
use std::alloc::AllocError;
use std::io::{self, Cursor, ErrorKind};

/// A text whose bytes from one on cannot be read.
#[derive(Drop)]
struct Torn<'a> {
    text: Seeking<Cursor<&'a [u8]>>,
    end: u64,
}

impl ReadAt for Torn<'_> {
    fn read_at(&self, at: u64, buffer: &mut [u8]) -> io::Result<usize> {
        if at >= self.end {
            return Err(io::Error::from(ErrorKind::ConnectionReset));
        }
        self.text.read_at(at, buffer)
    }
}

#[test]
fn a_read_that_fails_ends_a_search(rt: HostRuntime) -> Result<(), AllocError> {
    let mut log = Vec::new(rt.alloc());
    for _ in 0..2000 {
        log.extend_from_slice(b"2026-11-22T08:20Z x\n")?;
    }
    let size = log.len() as u64;
    for end in [0, 1, size / 3, size / 2 + 1] {
        let torn = Torn {
            text: Seeking::new(Cursor::new(log.as_slice())),
            end,
        };
        let words = "between --header 2026-11-22T08:19Z ..";
        let list = words_of(&rt, words)?;
        let program = program(rt.alloc())?;
        let matches = program.try_get_matches_from(list.as_slice());
        let matches = matches.ok().expect(&rt, words);
        let (_, given) = matches.subcommand().expect(&rt, words);
        let mut command = first_between(given).ok().expect(&rt, words);
        command.begin(b"app.log");
        let mut output = Watched::new(Sink::new(rt.alloc(), usize::MAX));
        let mut failed = false;
        let result = between_in_order(&mut command, &torn, size, &mut failed, &mut output);
        assert_eq!(rt; result, Err(RunError::Read));
        assert!(rt; failed);
    }
    Ok(())
}
