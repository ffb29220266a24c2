//! Columns of date-times as their clocks show them, and of their offsets.

ghost use Rattle.std.specs.Prelude.{◌≡◌, Ok};
ghost use Rattle.speedate_civil.specs.DateTime.{date_and_time, local_microsecond};
ghost use Rattle.speedate.specs.Column.{offset_as_number};

use super::date_time::push_date_time;
use super::{DateTimeParser, LINE_MAX, LineError, LinePrinter, LineReader};
use arrayvec::ArrayString;
use speedate_base::faults::ParseError;
use speedate_civil::datetime::DateTime;

/// Reads a line as a date-time, and counts the microseconds from 1970-01-01T00:00:00 on the same clock,
/// whatever the offset: 3,600,000,000 for `1970-01-01T01:00`, and for `1970-01-01T01:00+01:00`.
///
/// With the number of a [`DateTimeOffsetReader`] it gives the date-time and its offset, where a
/// [`DateTimeReader`](crate::DateTimeReader) gives only the instant.
#[derive(Clone, Copy, Debug)]
pub struct DateTimeClockReader {
    /// How a line is parsed.
    pub parser: DateTimeParser,
}

/// Reads a line as a date-time, and gives its offset from UTC in seconds, positive east of UTC: 3,600 for
/// `1970-01-01T01:00+01:00`, and 0 for `1970-01-01T00:00Z`. A date-time without an offset is refused, with
/// `TzRequired`. A timestamp has the offset of the configuration.
#[derive(Clone, Copy, Debug)]
pub struct DateTimeOffsetReader {
    /// How a line is parsed.
    pub parser: DateTimeParser,
}

impl LineReader for DateTimeClockReader {
    ghost use Rattle.speedate.specs.Column.{clock_number, date_time_place};

    type Number = i64;

    ghost answer = { clock_number };

    ghost place = { λ reader line. date_time_place reader.parser line };

    fn number(&self, line: &[u8]) -> Result<i64, LineError> {
        match self.parser.parse(line) {
            Ok(value) => Ok(clock_microsecond(&value)),
            Err(fault) => Err(LineError::Parse(fault)),
        }
    }

    fn error_place(&self, line: &[u8]) -> usize {
        self.parser.error_place(line)
    }
}

impl LineReader for DateTimeOffsetReader {
    ghost use Rattle.speedate.specs.Column.{date_time_offset_number, date_time_place};

    type Number = i32;

    ghost answer = { date_time_offset_number };

    ghost place = { λ reader line. date_time_place reader.parser line };

    fn number(&self, line: &[u8]) -> Result<i32, LineError> {
        match self.parser.parse(line) {
            Ok(value) => offset_number(value.time.tz_offset),
            Err(fault) => Err(LineError::Parse(fault)),
        }
    }

    fn error_place(&self, line: &[u8]) -> usize {
        self.parser.error_place(line)
    }
}

/// The microseconds from 1970-01-01T00:00:00 that the clock of a date-time shows.
#[inline(always)]
fn clock_microsecond(value: &DateTime) -> i64
    ensures microsecond { result ≡ local_microsecond (date_and_time value.now) }
{
    1_000_000 * value.timestamp() + i64::from(value.time.microsecond)
}

/// The seconds of an offset, or the error of a line that has none.
#[inline(always)]
pub(super) fn offset_number(offset: Option<i32>) -> Result<i32, LineError>
    ensures number { result ≡ offset_as_number (λ offset. offset) (Ok offset) }
{
    match offset {
        Some(second) => Ok(second),
        None => Err(LineError::Parse(ParseError::TzRequired)),
    }
}

/// Prints microseconds since 1970-01-01T00:00:00 on a clock as date-times without an offset, for
/// [`print_column`](crate::print_column): 1,000,000 as `1970-01-01T00:00:01`. What it refuses, and
/// `i64::MIN`, are as with [`DateTimePrinter`](crate::DateTimePrinter).
#[derive(Clone, Copy, Debug)]
pub struct DateTimeClockPrinter;

impl LinePrinter for DateTimeClockPrinter {
    ghost use Rattle.std.specs.Prelude.{None};
    ghost use Rattle.speedate.specs.ColumnText.{ReadsClocks, date_time_line};

    type Number = i64;

    ghost line = { λ printer number. date_time_line None number };

    ghost leads_back = { λ printer answer refused. ReadsClocks answer refused };

    #[inline(always)]
    fn push_line(&self, number: i64, text: &mut ArrayString<LINE_MAX>) -> Result<(), LineError> {
        push_date_time(number, None, text)
    }
}
