//! A file that is read at any byte.

ghost use Rattle.std.specs.Io.{ReadsAtMost};

use crate::reason::Reason;
use speedate_commands::search::ReadAt;
use std::cell::{Cell, RefCell};
use std::io::{self, ErrorKind, Read, Seek, SeekFrom};

/// A file that is moved to a byte before each read. It remembers why a read failed.
#[derive(Drop)]
pub struct Seeking<F> {
    file: RefCell<F>,
    reason: Cell<Option<Reason>>,
}

impl<F> Seeking<F> {
    /// Reads a file from any byte on.
    pub fn new(file: F) -> Self {
        Seeking {
            file: RefCell::new(file),
            reason: Cell::new(None),
        }
    }

    /// Why a read failed, if one did.
    pub fn reason(&self) -> Option<Reason> {
        self.reason.get()
    }
}

impl<F: Read + Seek> Seeking<F> {
    /// Reads from a byte on.
    fn read_from(&self, at: u64, buffer: &mut [u8]) -> io::Result<usize>
        ensures bound { ReadsAtMost result buffer.new }
    {
        let Ok(mut file) = self.file.try_borrow_mut() else {
            return Err(io::Error::from(ErrorKind::ResourceBusy));
        };
        file.seek(SeekFrom::Start(at))?;
        file.read(buffer)
    }
}

impl<F: Read + Seek> ReadAt for Seeking<F> {
    fn read_at(&self, at: u64, buffer: &mut [u8]) -> io::Result<usize> {
        match self.read_from(at, buffer) {
            Ok(count) => Ok(count),
            Err(error) => {
                self.reason.set(Some(Reason::new(&error)));
                Err(error)
            }
        }
    }
}
