//! Columns of dates.

ghost use Rattle.std.specs.Prelude.{◌≡◌};
ghost use Rattle.speedate_base.specs.Refused.{refused_place};
ghost use Rattle.speedate_civil.specs.Date.{date_answer};

use super::{LINE_MAX, LineError, LinePrinter, LineReader};
use arrayvec::ArrayString;
use speedate_base::config::DateConfig;
use speedate_base::faults::ParseError;
use speedate_base::refusal::Refused;
use speedate_civil::date::Date;
use speedate_civil::form::DateForm;

/// Reads a line as a date, and counts its days from 1970-01-01: 1 for `1970-01-02`, and -1 for
/// `1969-12-31`.
#[derive(Clone, Copy, Debug)]
pub enum DateReader {
    /// Parses only dates, as [`Date::parse_bytes_rfc3339`] does.
    Text,
    /// Parses timestamps too, as [`Date::parse_bytes_with_config`] does.
    OrTimestamp(DateConfig),
}

/// The date from which days are counted.
const EPOCH: Date = Date {
    year: 1970,
    month: 1,
    day: 1,
};

impl LineReader for DateReader {
    ghost use Rattle.speedate.specs.Column.{date_number, date_place};

    type Number = i32;

    ghost answer = { date_number };

    ghost place = { date_place };

    #[inline(always)]
    fn number(&self, line: &[u8]) -> Result<i32, LineError> {
        let date = match self {
            DateReader::Text => Date::parse_bytes_rfc3339(line),
            DateReader::OrTimestamp(config) => Date::parse_bytes_with_config(line, config),
        };
        match date {
            Ok(date) => Ok(date.days_since(&EPOCH)),
            Err(fault) => Err(LineError::Parse(fault)),
        }
    }

    #[inline(always)]
    fn front(&self, text: &[u8]) -> Option<(i32, usize)> {
        match Date::parse_front(text) {
            Ok((date, size)) => Some((date.days_since(&EPOCH), size)),
            Err(_) => None,
        }
    }

    fn error_place(&self, line: &[u8]) -> usize {
        let place = match self {
            DateReader::Text => text_place(line),
            DateReader::OrTimestamp(config) => Date::error_place(line, config),
        };
        place.unwrap_or(line.len())
    }
}

/// The byte at which the error of a line lies that is to be a date, and no timestamp.
fn text_place(line: &[u8]) -> Option<usize>
    ensures place { result ≡ refused_place (date_answer line.now) }
{
    Refused::place_of(Date::parse_or_place(line, DateForm::Text, &DateConfig::default()))
}

/// Prints days since 1970-01-01 as dates, for [`print_column`](crate::print_column): 1 as `1970-01-02`.
/// `i32::MIN` is an empty line, as a column has it of a refused line. A day outside the years 0000 to 9999
/// is refused, with `DateTooSmall` or `DateTooLarge`.
#[derive(Clone, Copy, Debug)]
pub struct DatePrinter;

impl LinePrinter for DatePrinter {
    ghost use Rattle.speedate.specs.ColumnText.{ReadsDates, date_line};

    type Number = i32;

    ghost line = { λ printer number. date_line number };

    ghost leads_back = { λ printer answer refused. ReadsDates answer refused };

    #[inline(always)]
    fn push_line(&self, number: i32, text: &mut ArrayString<LINE_MAX>) -> Result<(), LineError> {
        if number == i32::MIN {
            return Ok(());
        }
        match EPOCH.checked_add_days(number) {
            Some(date) => {
                date.push_onto(text);
                Ok(())
            }
            None => Err(LineError::Parse(if number < 0 {
                ParseError::DateTooSmall
            } else {
                ParseError::DateTooLarge
            })),
        }
    }
}
