//! Readers and writers for tests, which are slow or fail, and the comparison of results.

use std::alloc::Global;
use std::fmt::Debug;
use std::io::{self, ErrorKind, Read, Write};
use std::process::Abort;

/// Some calls of a reader or a writer, counted from 0.
#[derive(Clone, Copy, Debug)]
pub enum Calls {
    None,
    One(u64),
    From(u64),
}

impl Calls {
    /// Whether this call is one of them: 3 is one of `From(2)`, but not of `One(2)`.
    pub fn has(self, call: u64) -> bool {
        match self {
            Calls::None => false,
            Calls::One(one) => call == one,
            Calls::From(first) => call >= first,
        }
    }
}

/// A reader that returns a few bytes a call, and counts its calls.
#[derive(Drop)]
pub struct Source<'a> {
    pub rest: &'a [u8],
    pub step: usize,
    /// Which calls fail.
    pub fails: Calls,
    /// Which calls return 0, as at the end of the bytes.
    pub pauses: Calls,
    /// Whether the end of the bytes is a failure.
    pub ends: bool,
    pub calls: u64,
    /// How many bytes the last call returned.
    pub latest: usize,
}

impl<'a> Source<'a> {
    /// Returns `step` bytes a call, and then the end.
    pub fn new(bytes: &'a [u8], step: usize) -> Self {
        Source {
            rest: bytes,
            step,
            fails: Calls::None,
            pauses: Calls::None,
            ends: true,
            calls: 0,
            latest: 0,
        }
    }
}

impl Read for Source<'_> {
    fn read(&mut self, buffer: &mut [u8]) -> io::Result<usize> {
        let call = self.calls;
        self.calls = call.saturating_add(1);
        if self.fails.has(call) || (self.rest.is_empty() && !self.ends) {
            return Err(io::Error::from(ErrorKind::Interrupted));
        }
        if self.pauses.has(call) {
            return Ok(0);
        }
        let count = self.step.min(self.rest.len()).min(buffer.len());
        buffer[..count].copy_from_slice(&self.rest[..count]);
        self.rest = &self.rest[count..];
        self.latest = count;
        Ok(count)
    }
}

/// A writer that accepts a few bytes a call, and counts its calls.
#[derive(Drop)]
pub struct Sink {
    pub taken: Vec<u8>,
    pub step: usize,
    /// Which writes fail.
    pub fails: Calls,
    /// Which writes accept nothing.
    pub refuses: Calls,
    pub flush_fails: bool,
    pub calls: u64,
    pub flushes: u64,
}

impl Sink {
    /// Accepts `step` bytes a call.
    pub fn new(alloc: Global, step: usize) -> Self {
        Sink {
            taken: Vec::new(alloc),
            step,
            fails: Calls::None,
            refuses: Calls::None,
            flush_fails: false,
            calls: 0,
            flushes: 0,
        }
    }
}

impl Write for Sink {
    fn write(&mut self, bytes: &[u8]) -> io::Result<usize> {
        let call = self.calls;
        self.calls = call.saturating_add(1);
        if self.fails.has(call) {
            return Err(io::Error::from(ErrorKind::BrokenPipe));
        }
        if self.refuses.has(call) {
            return Ok(0);
        }
        let count = self.step.min(bytes.len());
        self.taken.extend_from_slice(&bytes[..count])?;
        Ok(count)
    }

    fn flush(&mut self) -> io::Result<()> {
        self.flushes = self.flushes.saturating_add(1);
        if self.flush_fails {
            return Err(io::Error::from(ErrorKind::BrokenPipe));
        }
        Ok(())
    }
}

/// Stops the test unless what was found is what the row wants.
pub fn same<T: PartialEq + Debug + Copy, Row: Debug, R: Abort>(
    rt: &R,
    found: T,
    want: T,
    row: &Row,
) {
    assert_eq!(rt; found, want, "{row:?}");
}
