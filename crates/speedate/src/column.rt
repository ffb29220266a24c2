//! Columns: the lines of a text as numbers, by one call, and numbers as the lines of a text.

mod clock;
mod date;
mod date_time;
mod duration;
mod front;
mod print;
mod read;
mod texts;
mod time;
mod timestamp;

use arrayvec::ArrayString;
pub use clock::{DateTimeClockPrinter, DateTimeClockReader, DateTimeOffsetReader};
pub use date::{DatePrinter, DateReader};
pub use date_time::{DateTimeParser, DateTimePrinter, DateTimeReader};
pub use duration::{DurationPrinter, DurationReader, duration_microseconds};
pub use front::{DateTimeFront, DateTimeFrontReader};
pub use print::print_column;
pub use read::{read_column, read_column_with_errors};
use speedate_base::faults::ParseError;
pub use texts::read_texts;
pub use time::{TimeOffsetReader, TimeParser, TimePrinter, TimeReader};
pub use timestamp::timestamp_microseconds;

/// How a text is cut into lines: `LineConfig { at_end: true, drops_returns: false }` takes all
/// lines of a file without carriage returns.
#[derive(Clone, Copy, Debug)]
pub struct LineConfig {
    /// Whether the end of the text ends its last line. Otherwise that line is left, since it may go on.
    pub at_end: bool,
    /// Whether a carriage return at the end of a line is dropped, as files of Windows have one.
    pub drops_returns: bool,
}

/// Why a line is refused: `LineError::Parse(ParseError::TooShort)` for an empty one.
#[derive(Clone, Copy, Debug, PartialEq, Eq)]
pub enum LineError {
    /// The text is refused with this error. It is also `TzRequired` for an accepted text without an
    /// offset, where the reader needs one.
    Parse(ParseError),
    /// The number of the value does not fit, such as `P999999999D` in microseconds.
    NumberTooLarge,
}

impl LineError {
    ghost use Rattle.std.specs.Prelude.{◌≡◌};
    ghost use Rattle.speedate.specs.Column.{error_number, line_part_end};

    /// The number of the error: of a refused text [`ParseError::number`], 1 to 42, and 97 for
    /// `LineError::NumberTooLarge`.
    #[inline]
    pub fn number(&self) -> u8
        ensures number { result ≡ error_number self.now }
    {
        match self {
            LineError::Parse(fault) => fault.number(),
            LineError::NumberTooLarge => 97,
        }
    }

    /// Where the part of a line ends that this error is about, which begins at this place: 7 for
    /// `OutOfRangeMonth`, `b"2020-13-01"` and place 5.
    fn part_end(&self, line: &[u8], place: usize) -> usize
        ensures end { result ≡ line_part_end self.now line.now place }
    {
        match self {
            LineError::Parse(fault) => fault.part_end(line, place),
            LineError::NumberTooLarge => line.len(),
        }
    }
}

/// The progress of a column that is read or printed: two dates, each with its line feed, give 2 lines, 22
/// bytes and no error.
#[derive(Clone, Copy, Debug)]
pub struct Progress {
    /// How many lines have a number in the column.
    pub lines: usize,
    /// How many bytes of the text these lines take, with their ends. Of texts at offsets it is the offset at
    /// which the last one ends.
    pub bytes: usize,
    /// The error of the next line, or of the next number, if it ends the column.
    pub error: Option<LineError>,
    /// The byte of the line that ends the column at which the part begins that the error is about: 5 for
    /// `2020-13-01`. It is 0 if no line ends the column, and for a column that is printed.
    pub place: usize,
    /// The byte of that line at which the part ends, the place itself if the part is missing: 7 for
    /// `2020-13-01`.
    pub end: usize,
}

/// Reads a line as a number, as [`DateReader`] reads `1970-01-02` as 1.
pub trait LineReader {
    ghost use Rattle.std.specs.Prelude.{◌≡◌, ℕ, IfSome, List, Result};
    ghost use Rattle.speedate.specs.declared.column.LineError.{LineError};
    ghost use Rattle.speedate.specs.Column.{IsFront};

    /// What a line is read as.
    type Number: Copy;

    // The number of a line, or its error.
    ghost answer: { Self → List ℕ → Result Self.Number LineError };

    // The place for which a line is refused.
    ghost place: { Self → List ℕ → ℕ };

    /// The number of a line, which is given without its end: 1 for `b"1970-01-02"`.
    ///
    /// # Errors
    ///
    /// Those of the texts that the reader takes, and `NumberTooLarge` if the number does not fit.
    fn number(&self, line: &[u8]) -> Result<Self::Number, LineError>
        ensures answer { result ≡ answer self.now line.now };

    /// The number of the line that begins a text, if its first bytes show it, and how many bytes these
    /// are: 1 and 10 for `b"1970-01-02\n1970-01-03"`. They have this number as a line, and hold no line's
    /// end. `None` says nothing of the line, which is then searched for its end, and read by
    /// [`LineReader::number`], as is a line that does not end after these bytes.
    #[inline(always)]
    fn front(&self, text: &[u8]) -> Option<(Self::Number, usize)>
        ensures front { IfSome result (IsFront (answer self.now) text.now) }
    {
        None
    }

    /// The number of a text that offsets cut out, as [`LineReader::number`] gives it of a line. A reader whose
    /// parser is long has another copy of it here, since functions as long as that are inlined only where
    /// they have one caller.
    ///
    /// # Errors
    ///
    /// Those of [`LineReader::number`].
    #[inline(always)]
    fn text_number(&self, text: &[u8]) -> Result<Self::Number, LineError>
        ensures answer { result ≡ answer self.now text.now }
    {
        self.number(text)
    }

    /// The byte at which the error lies for which a line is refused: 5, the month's, for `b"1970-13-01"`.
    ///
    /// It is the place of the error of a text that the reader does not take. If an offset is missing, it is
    /// the end of the date-time or the time, where the offset would begin; if the number does not fit, it is
    /// 0. For a line that is accepted it means nothing.
    fn error_place(&self, line: &[u8]) -> usize
        ensures place { result ≡ place self.now line.now };
}

/// The answer to a line, and how many bytes it takes with its end.
#[derive(Clone, Copy)]
struct Line<N> {
    answer: Result<N, LineError>,
    size: usize,
}

/// How many bytes the longest line of a printer has.
pub const LINE_MAX: usize = 32;

/// Prints a number as a line, as [`DatePrinter`] prints 1 as `1970-01-02`.
pub trait LinePrinter {
    ghost use Rattle.std.specs.Prelude.{◌≡◌, ℕ, [], IfOk, List, Result, length};
    ghost use Rattle.speedate_base.specs.Ascii.{HasNoControl};
    ghost use Rattle.speedate_base.specs.Requirement.{result_map};
    ghost use Rattle.speedate.specs.declared.column.LineError.{LineError};
    ghost use Rattle.speedate.specs.ColumnText.{number_or};

    /// What is printed as a line.
    type Number: Copy;

    // The line of a number, or why it has none.
    ghost line: { Self → Self.Number → Result (List ℕ) LineError };

    // Whether answers to lines, with a number for each refused line, lead back to the numbers.
    ghost leads_back: { Self → (List ℕ → Result Self.Number LineError) → Self.Number → Type 0 };

    /// Puts the line of a number into an empty text, without a line's end: `1970-01-02` for 1.
    ///
    /// # Errors
    ///
    /// Those of a number that is out of the printer's range. The text is then left as it is.
    fn push_line(
        &self,
        number: Self::Number,
        text: &mut ArrayString<LINE_MAX>,
    ) -> Result<(), LineError>
        requires empty { text.old.bytes ≡ [] }
        ensures line { result_map (λ done. text.new.bytes) result ≡ line self.now number }
        ensures no_control { HasNoControl (length text.new.bytes) text.new.bytes }
        ensures reads_back { IfOk result (λ done. (answer : List ℕ → Result Self.Number LineError)
            (refused : Self.Number) → leads_back self.now answer refused
            → number_or refused (answer text.new.bytes) ≡ number) };
}
