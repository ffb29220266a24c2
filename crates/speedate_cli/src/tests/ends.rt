//! A reader and a writer for tests, which take their time or fail.

use std::alloc::Global;
use std::io::{self, ErrorKind, Read, Write};

/// A reader of bytes that gives some of them a call, and fails from a call on.
#[derive(Drop)]
pub struct Source<'a> {
    pub rest: &'a [u8],
    /// How many bytes a call gives at most.
    pub step: usize,
    /// After which bytes a call ends before that: after the next one if the lowest bit is set.
    pub cuts: u32,
    /// The first call that fails, counted from 0, if one does.
    pub fails: Option<u64>,
    pub calls: u64,
}

impl<'a> Source<'a> {
    /// Gives `step` bytes a call, and then the end.
    pub fn new(rest: &'a [u8], step: usize) -> Self {
        Source {
            rest,
            step,
            cuts: 0,
            fails: None,
            calls: 0,
        }
    }
}

/// How many bytes a call gives of some that there is room for, and of at most `step`.
fn part(step: usize, room: usize, cuts: &mut u32) -> usize {
    let most = step.min(room);
    for count in 1..most {
        let is_cut = *cuts % 2 == 1;
        *cuts /= 2;
        if is_cut {
            return count;
        }
    }
    *cuts /= 2;
    most
}

impl Read for Source<'_> {
    fn read(&mut self, buffer: &mut [u8]) -> io::Result<usize> {
        let call = self.calls;
        self.calls = call.saturating_add(1);
        if self.fails == Some(call) {
            return Err(io::Error::from(ErrorKind::Interrupted));
        }
        let room = self.rest.len().min(buffer.len());
        let count = part(self.step, room, &mut self.cuts).min(room);
        buffer[..count].copy_from_slice(&self.rest[..count]);
        self.rest = &self.rest[count..];
        Ok(count)
    }
}

/// A writer that takes some bytes a call, and then is full.
#[derive(Drop)]
pub struct Sink {
    pub taken: Vec<u8>,
    /// How many bytes a call takes at most.
    pub step: usize,
    /// How many bytes it takes in all.
    pub room: usize,
    pub flush_fails: bool,
}

impl Sink {
    /// Takes `step` bytes a call.
    pub fn new(alloc: Global, step: usize) -> Self {
        Sink {
            taken: Vec::new(alloc),
            step,
            room: usize::MAX,
            flush_fails: false,
        }
    }
}

impl Write for Sink {
    fn write(&mut self, bytes: &[u8]) -> io::Result<usize> {
        let left = self.room.saturating_sub(self.taken.len());
        let count = self.step.min(left).min(bytes.len());
        if count == 0 && !bytes.is_empty() {
            return Err(io::Error::from(ErrorKind::StorageFull));
        }
        self.taken.extend_from_slice(&bytes[..count])?;
        Ok(count)
    }

    fn flush(&mut self) -> io::Result<()> {
        if self.flush_fails {
            return Err(io::Error::from(ErrorKind::StorageFull));
        }
        Ok(())
    }
}
