//! Readers and writers that remember whether they have failed.

ghost use Rattle.std.specs.Prelude.{◌≡◌, ◌+◌, ◌-◌, ◌^◌, ◌<◌, ◌≤◌, ◌||◌, false, length, is_ok, is_err, IsErr, IfOk};
ghost use Rattle.std.specs.Io.{ReadsAtMost, WritesAtMost};
ghost use Rattle.std.specs.Io.KnownBytes.{ReadConsumes, WriteAppends, Keeps};
ghost use Rattle.speedate_stream.specs.Watch.{one_more};

use std::io::{Read, Write};
use std::marker::Model;

/// The error of a [`Watched`]: its reader or writer failed, and no byte was read or written.
#[derive(Clone, Copy, Debug, PartialEq, Eq)]
pub struct Failed;

/// A reader or a writer that remembers whether a call of it has failed, and whether the last write
/// or flush was a flush that returned Ok. It counts its reads and flushes, up to `u64::MAX`.
#[derive(Drop)]
pub struct Watched<T> {
    inner: T,
    failed: bool,
    flushed: bool,
    reads: u64,
    flushes: u64,
}

impl<T> Model for Watched<T> {
    ghost use Rattle.speedate_stream.specs.Watch.{Watch};

    ghost Value = { Watch T };

    ghost view = { λ w. record {
      inner = w.inner;
      failed = w.failed;
      flushed = w.flushed;
      reads = w.reads;
      flushes = w.flushes;
    } };
}

impl<T> Watched<T> {
    /// Watches `inner`, which has not failed, has not been read and has not been flushed.
    pub fn new(inner: T) -> Self
        ensures new { result ≡ record {
          inner = inner;
          failed = false;
          flushed = false;
          reads = 0;
          flushes = 0;
        } }
    {
        Watched {
            inner,
            failed: false,
            flushed: false,
            reads: 0,
            flushes: 0,
        }
    }

    /// Whether a call has returned [`Failed`].
    pub fn failed(&self) -> bool
        ensures failed { result ≡ self.now.failed }
    {
        self.failed
    }

    /// Returns the reader or writer that was watched.
    pub fn into_inner(self) -> T
        ensures inner { result ≡ self.inner }
    {
        let Watched { inner, .. } = self;
        inner
    }
}

impl<R: Read> Watched<R> {
    /// Reads into `buffer`, and returns how many bytes were read, which are at its front. If it has
    /// room, 0 means the end of the input.
    ///
    /// Fails with `Failed` if the reader returns an error. After `u64::MAX` reads it fails without
    /// a call of the reader, which is left as it was.
    pub fn read(&mut self, buffer: &mut [u8]) -> Result<usize, Failed>
        ensures bound { ReadsAtMost result buffer.new }
        ensures bytes { ReadConsumes (R.remaining self.old.inner) (R.remaining self.new.inner)
            result buffer.new }
        ensures failed { self.new.failed ≡ (self.old.failed || is_err result) }
        ensures flushed { self.new.flushed ≡ self.old.flushed }
        ensures flushes { self.new.flushes ≡ self.old.flushes }
        ensures counted { self.old.reads < 2 ^ 64 - 1 → self.new.reads ≡ self.old.reads + 1 }
        ensures limited { self.new.reads < 2 ^ 64 }
        ensures refused { 2 ^ 64 - 1 ≤ self.old.reads →
            IsErr result × (self.new.inner ≡ self.old.inner) }
    {
        if self.reads < u64::MAX {
            self.reads += 1;
            // A further read after one that failed, or that gave nothing, would meet the clauses.
            if let Ok(count) = self.inner.read(buffer) {
                return Ok(count);
            }
        }
        self.failed = true;
        Err(Failed)
    }
}

impl<W: Write> Watched<W> {
    /// Writes the first of `bytes`, and returns how many: at least one, unless `bytes` is empty.
    ///
    /// Fails with `Failed` if the writer returns an error, or accepts none of some bytes.
    pub fn write(&mut self, bytes: &[u8]) -> Result<usize, Failed>
        ensures bound { WritesAtMost result bytes.now }
        ensures bytes { WriteAppends (W.contents self.old.inner) (W.contents self.new.inner)
            result bytes.now }
        ensures progress { IfOk result (λ count. 0 < length bytes.now → 0 < count) }
        ensures failed { self.new.failed ≡ (self.old.failed || is_err result) }
        ensures flushed { self.new.flushed ≡ false }
        ensures flushes { self.new.flushes ≡ self.old.flushes }
        ensures reads { self.new.reads ≡ self.old.reads }
    {
        self.flushed = false;
        // A flush after an error (or in `finish`), a second write after one, or an error without a
        // call would meet the clauses: they say what an error leaves, not when it comes.
        match self.inner.write(bytes) {
            Ok(count) if count > 0 || bytes.is_empty() => Ok(count),
            _ => {
                self.failed = true;
                Err(Failed)
            }
        }
    }

    /// Flushes the writer, which changes no bytes. Fails with `Failed` if it returns an error.
    ///
    /// A flush after `u64::MAX` others is not counted.
    pub fn flush(&mut self) -> Result<(), Failed>
        ensures bytes { Keeps (W.contents self.old.inner) (W.contents self.new.inner) }
        ensures failed { self.new.failed ≡ (self.old.failed || is_err result) }
        ensures flushed { self.new.flushed ≡ is_ok result }
        ensures counted { self.new.flushes ≡ one_more self.old.flushes }
        ensures reads { self.new.reads ≡ self.old.reads }
    {
        self.flushes = self.flushes.saturating_add(1);
        // Two flushes, or none (`self.flushed = true; Ok(())`), would meet the clauses.
        self.flushed = self.inner.flush().is_ok();
        if self.flushed {
            return Ok(());
        }
        self.failed = true;
        Err(Failed)
    }
}
