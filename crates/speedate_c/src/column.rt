//! Columns as C sees them: what all kinds of them share.

ghost use Rattle.std.specs.Prelude.{◌≡◌, slice_get};
ghost use Rattle.speedate_c.specs.Code.{success};
ghost use Rattle.speedate_c.specs.Column.{IsColumn, column_choices_of, ended_code, parsers};
ghost use Rattle.speedate_c.specs.Column.{progress_part, written_lines};

mod date;
mod date_time;
mod duration;
mod front;
mod texts;
mod time;

use crate::code::{SUCCESS, kind_number, line_error_code};
use crate::config::flag;
use crate::part::{NO_PART, SpeedatePart};
use speedate::{
    CallKind, LineConfig, LinePrinter, LineReader, Progress, print_column, read_column,
    read_column_with_errors,
};

/// How a column is read. In each field but `at_end` 0 means the default.
#[repr(C)]
#[derive(Clone, Copy)]
pub struct SpeedateColumnConfig {
    /// Whether the end of the text ends its last line: 1, the default, or 0 if more text may follow, so that
    /// this line is left.
    pub at_end: u8,
    /// Whether a carriage return at the end of a line is dropped: 1, or 0 if it stays.
    pub drops_returns: u8,
    /// Which dates, times and date-times a line may be: 0 for no timestamps, 1 for timestamps too,
    /// 2 for only times and date-times of RFC 3339, 3 for date-times with zones as programs print them.
    pub parser: u8,
    /// Whether a date-time without an offset is taken to be in UTC: 1, or 0 if it is refused. Only columns
    /// of instants use it.
    pub assumes_utc: u8,
    /// What is done after a line that is refused: 0 if it ends the column, 1 if it gets the smallest
    /// number, and the column goes on, as it does if errors are written.
    pub goes_on: u8,
}

/// How far a column has come.
#[repr(C)]
#[derive(Clone, Copy)]
pub struct SpeedateProgress {
    /// How many lines have a number in the column.
    pub lines: usize,
    /// How many bytes of the text these lines take, with their ends.
    pub bytes: usize,
    /// The code of the error of the next line, if it ends the column, otherwise 0.
    pub error: i32,
    /// The part of that line that the error is about, from the line's beginning on: none if no line ends the
    /// column, and for numbers that are printed.
    pub part: SpeedatePart,
}

/// Which dates, times and date-times a line may be.
#[derive(Clone, Copy)]
enum LineParser {
    /// No timestamps.
    Text,
    /// Timestamps too.
    OrTimestamp,
    /// Only times and date-times of RFC 3339.
    Strict,
    /// Date-times with zones as programs print them.
    Loose,
}

/// What a configuration of columns chooses.
#[derive(Clone, Copy)]
struct ColumnChoices {
    /// How the text is cut into lines.
    lines: LineConfig,
    /// Which dates, times and date-times a line may be.
    parser: LineParser,
    /// Whether a date-time without an offset is taken to be in UTC.
    assumes_utc: bool,
    /// Whether the column goes on after a line that is refused.
    goes_on: bool,
}

impl SpeedateColumnConfig {
    /// What the configuration chooses, if each number has a value.
    fn to_choices(self) -> Option<ColumnChoices>
        ensures choices { result ≡ column_choices_of self }
    {
        let lines = LineConfig {
            at_end: flag(self.at_end)?,
            drops_returns: flag(self.drops_returns)?,
        };
        Some(ColumnChoices {
            lines,
            parser: parser(self.parser)?,
            assumes_utc: flag(self.assumes_utc)?,
            goes_on: flag(self.goes_on)?,
        })
    }
}

/// The parser of a number.
fn parser(number: u8) -> Option<LineParser>
    ensures { result ≡ slice_get parsers number }
{
    match number {
        0 => Some(LineParser::Text),
        1 => Some(LineParser::OrTimestamp),
        2 => Some(LineParser::Strict),
        3 => Some(LineParser::Loose),
        _ => None,
    }
}

impl SpeedateProgress {
    /// The numbers of a progress, and a part.
    fn from_progress(progress: Progress, part: SpeedatePart) -> Self
        ensures lines { result.lines ≡ progress.lines }
        ensures bytes { result.bytes ≡ progress.bytes }
        ensures error { result.error ≡ ended_code progress.error }
        ensures part { result.part ≡ part }
    {
        SpeedateProgress {
            lines: progress.lines,
            bytes: progress.bytes,
            error: match progress.error {
                Some(error) => line_error_code(error),
                None => SUCCESS,
            },
            part,
        }
    }
}

/// The part of the line that ends a column of a kind, if one does.
fn ended_part(progress: &Progress, kind: CallKind) -> SpeedatePart
    ensures part { result ≡ progress_part kind progress.now.error
        (progress.now.place, progress.now.end) }
{
    match progress.error {
        Some(_) => SpeedatePart {
            start: progress.place,
            end: progress.end,
            kind: kind_number(kind),
        },
        None => NO_PART,
    }
}

/// Reads a column, and writes how far it has come, and the number of each line's error too if there is a
/// place for one, and gives the code. A refused line has the number `refused_number`, and the parser is of
/// a kind.
#[inline(always)]
fn write_column<R: LineReader>(
    text: &[u8],
    choices: &ColumnChoices,
    reader: &R,
    kind: CallKind,
    refused_number: R::Number,
    out: &mut [R::Number],
    errors: &mut [u8],
    progress: &mut SpeedateProgress,
) -> i32
    ensures success { result ≡ success }
    ensures column { IsColumn
        (record { answer = R.answer reader.now; place = R.place reader.now; kind = kind })
        choices.now refused_number text.now out.old out.new errors.old errors.new progress.new }
{
    let read = if errors.is_empty() {
        let refused = choices.goes_on.then_some(refused_number);
        read_column(text, choices.lines, reader, refused, out)
    } else {
        read_column_with_errors(text, choices.lines, reader, refused_number, out, errors)
    };
    let part = ended_part(&read, kind);
    *progress = SpeedateProgress::from_progress(read, part);
    SUCCESS
}

/// Prints numbers as lines, and writes how far the text has come, and gives the code.
#[inline(always)]
fn write_lines<P: LinePrinter>(
    numbers: &[P::Number],
    printer: &P,
    buffer: &mut [u8],
    progress: &mut SpeedateProgress,
) -> i32
    ensures written { (result, buffer.new, progress.new)
        ≡ written_lines (P.line printer.now) numbers.now buffer.old }
{
    *progress = SpeedateProgress::from_progress(print_column(numbers, printer, buffer), NO_PART);
    SUCCESS
}
