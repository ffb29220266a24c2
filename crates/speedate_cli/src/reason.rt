//! Why a file cannot be opened or read.

ghost use Rattle.std.specs.Prelude.{◌≡◌};
ghost use Rattle.std.specs.IoError.{error_kind, raw_os_error};
ghost use Rattle.speedate_cli.specs.Reason.{reason_by_kind, reason_of, reason_text};

use std::fmt;
use std::io::{Error, ErrorKind};

/// Linux's number of the error that the program has too many open files.
const EMFILE: i32 = 24;

/// Linux's number of the error that the system has too many open files.
const ENFILE: i32 = 23;

/// Why a file cannot be opened or read.
#[derive(Clone, Copy)]
pub enum Reason {
    /// It is not there.
    NotFound,
    /// The user may not read it.
    PermissionDenied,
    /// It is a folder.
    IsFolder,
    /// A part of its path is not a folder.
    NotFolder,
    /// Its path has too many links.
    TooManyLinks,
    /// Its name is too long.
    LongName,
    /// Too many files are open.
    TooManyFiles,
    /// The system says something else.
    Other,
}

/// Why, by the kind of an error that is not about the number of open files.
fn reason_by_kind(kind: ErrorKind) -> Reason
    ensures reason { result ≡ reason_by_kind kind }
{
    match kind {
        ErrorKind::NotFound => Reason::NotFound,
        ErrorKind::PermissionDenied => Reason::PermissionDenied,
        ErrorKind::IsADirectory => Reason::IsFolder,
        ErrorKind::NotADirectory => Reason::NotFolder,
        ErrorKind::FilesystemLoop => Reason::TooManyLinks,
        ErrorKind::InvalidFilename => Reason::LongName,
        _ => Reason::Other,
    }
}

impl Reason {
    /// Why, by an error of the system.
    pub fn new(error: &Error) -> Self
        ensures reason { result ≡ reason_of (raw_os_error error.now) (error_kind error.now) }
    {
        match error.raw_os_error() {
            Some(EMFILE | ENFILE) => Reason::TooManyFiles,
            _ => reason_by_kind(error.kind()),
        }
    }

    /// Why, for people.
    pub fn text(self) -> &'static str
        ensures text { result.now ≡ reason_text self }
    {
        match self {
            Reason::NotFound => "not found",
            Reason::PermissionDenied => "permission denied",
            Reason::IsFolder => "is a folder",
            Reason::NotFolder => "a part of its path is not a folder",
            Reason::TooManyLinks => "too many links in its path",
            Reason::LongName => "its name is too long",
            Reason::TooManyFiles => "too many open files",
            Reason::Other => "the system refused it",
        }
    }
}

impl fmt::Display for Reason {
    fn fmt<W: fmt::Write>(&self, f: &mut fmt::Formatter<W>) -> fmt::Result {
        f.write_str(self.text())
    }
}
