//! What is read: standard input or a file.

ghost use Rattle.std.specs.Prelude.{◌≡◌};

use crate::reason::Reason;
use crate::unread_zone::{FirstZone, LOOKED_AT};
use speedate_commands::status::are_one;
use std::fs::{self, File, OpenOptions};
use std::io::{self, ErrorKind, Read, Seek, SeekFrom, Stdin};
use std::os::unix::fs::MetadataExt;

/// A file, or standard input.
#[derive(Drop)]
pub enum Input {
    /// Standard input.
    Standard(Stdin),
    /// A file.
    File(File),
}

impl Read for Input {
    fn read(&mut self, buffer: &mut [u8]) -> io::Result<usize> {
        match self {
            Input::Standard(input) => input.read(buffer),
            Input::File(input) => input.read(buffer),
        }
    }
}

impl Seek for Input {
    fn seek(&mut self, place: SeekFrom) -> io::Result<u64> {
        match self {
            // It is read as a whole.
            Input::Standard(_) => Err(io::Error::from(ErrorKind::NotSeekable)),
            Input::File(input) => input.seek(place),
        }
    }
}

/// Opens something that cannot be read in place of standard input, if that is closed: the first file that is opened would
/// be standard input, too.
pub fn hold_input(rt: &HostRuntime) -> Option<File> {
    if fs::metadata(rt, "/dev/stdin").is_ok() {
        return None;
    }
    OpenOptions::new().write(true).open(rt, "/dev/null").ok()
}

/// Opens something that cannot be written in place of standard output, if that is closed: the first file that is opened
/// would be standard output, too.
pub fn hold_output(rt: &HostRuntime) -> Option<File> {
    if fs::metadata(rt, "/dev/stdout").is_ok() {
        return None;
    }
    fs::open(rt, "/dev/null").ok()
}

/// Opens a file, or tells why it cannot be read.
pub fn open_input(rt: &HostRuntime, name: &str) -> Option<Input> {
    if is_output(rt, if name == "-" { "/dev/stdin" } else { name }) {
        tell_output_too(rt, name);
        return None;
    }
    if name == "-" {
        return Some(Input::Standard(rt.stdin()));
    }
    match fs::open(rt, name) {
        Ok(file) => Some(Input::File(file)),
        Err(error) => {
            tell_unopened(rt, name, Reason::new(&error));
            None
        }
    }
}

/// Tells that a file is the output too.
fn tell_output_too(rt: &HostRuntime, name: &str) {
    let _ = eprintln!(rt; "speedate: {name}: is the output too");
}

/// Tells why a file cannot be opened.
fn tell_unopened(rt: &HostRuntime, name: &str, reason: Reason) {
    let _ = eprintln!(rt; "speedate: {name}: cannot be opened: {reason}");
}

/// Whether a file is the one that standard output goes to: reading it would never end.
fn is_output(rt: &HostRuntime, path: &str) -> bool {
    let Ok(output) = fs::metadata(rt, "/dev/stdout") else {
        return false;
    };
    match fs::metadata(rt, path) {
        Ok(file) => {
            let (one, other) = ((file.dev(), file.ino()), (output.dev(), output.ino()));
            output.is_file() && are_one(one, other)
        }
        Err(_) => false,
    }
}

/// A reader that remembers why a read failed, and looks at the first bytes that it reads.
#[derive(Drop)]
pub struct Reasoned<'r, 'a, R> {
    /// The reader.
    pub inner: R,
    /// Why a read failed, if one did.
    pub reason: Option<Reason>,
    /// What is looked for in the first bytes, until they are read.
    first_zone: Option<FirstZone<'r, 'a>>,
}

impl<'r, 'a, R> Reasoned<'r, 'a, R> {
    /// A reader of which nothing was read, and what is looked for in its first bytes.
    pub fn new(inner: R, first_zone: Option<FirstZone<'r, 'a>>) -> Self
        ensures inner { result.inner ≡ inner }
    {
        Reasoned {
            inner,
            reason: None,
            first_zone,
        }
    }
}

impl<R: Read> Read for Reasoned<'_, '_, R> {
    ghost remaining = { λ reader. R.remaining reader.inner };

    fn read(&mut self, buffer: &mut [u8]) -> io::Result<usize> {
        match self.inner.read(buffer) {
            Ok(count) => {
                if let Some(first_zone) = self.first_zone.take() {
                    first_zone.tell(&buffer[..count.min(LOOKED_AT)]);
                }
                Ok(count)
            }
            Err(error) => {
                self.reason = Some(Reason::new(&error));
                Err(error)
            }
        }
    }
}
