//! Columns of durations.

ghost use Rattle.std.specs.Prelude.{◌≡◌};
ghost use Rattle.speedate.specs.Duration.{duration_numbers, signed_amount};
ghost use Rattle.speedate.specs.Column.{number_of_amount};

use super::{LINE_MAX, LineError, LinePrinter, LineReader};
use crate::duration::Duration;
use arrayvec::ArrayString;
use speedate_base::config::TimeConfig;

/// Reads a line as a duration, as [`Duration::parse_bytes_with_config`] does, and counts its
/// microseconds, with the sign: -1,500,000 for `-PT1.5S`. One of 2^63 microseconds or more of either
/// sign, which is over 106,751,991 days, is refused, with `NumberTooLarge`.
#[derive(Clone, Copy, Debug)]
pub struct DurationReader {
    /// How a line is parsed.
    pub config: TimeConfig,
}

impl DurationReader {
    ghost use Rattle.std.specs.Prelude.{◌≡◌};
    ghost use Rattle.speedate.specs.Column.{duration_number};

    /// The number of a line. Each copy has one caller, into which it is inlined.
    #[inline(always)]
    fn number_of<const COPY: u8>(&self, line: &[u8]) -> Result<i64, LineError>
        ensures number { result ≡ duration_number self.now line.now }
    {
        let behavior = self.config.microseconds_precision_overflow_behavior;
        match Duration::parse::<COPY>(line, self.config.iso_order, behavior) {
            Ok(duration) => duration_microseconds(&duration),
            Err(fault) => Err(LineError::Parse(fault)),
        }
    }
}

impl LineReader for DurationReader {
    ghost use Rattle.speedate.specs.Column.{duration_number, duration_place};

    type Number = i64;

    ghost answer = { duration_number };

    ghost place = { duration_place };

    fn number(&self, line: &[u8]) -> Result<i64, LineError> {
        self.number_of::<1>(line)
    }

    fn text_number(&self, text: &[u8]) -> Result<i64, LineError> {
        self.number_of::<2>(text)
    }

    fn error_place(&self, line: &[u8]) -> usize {
        Duration::error_place(line, &self.config).unwrap_or(0)
    }
}

/// The microseconds of a duration, with the sign, as a column has them: -1,500,000 for -PT1.5S.
///
/// # Errors
///
/// `NumberTooLarge` if they are 2^63 or more without the sign, which is over 106,751,991 days.
#[inline(always)]
pub fn duration_microseconds(duration: &Duration) -> Result<i64, LineError>
    ensures number { result ≡ number_of_amount (signed_amount (duration_numbers duration.now)) }
{
    let amount = duration.signed_total_microseconds();
    if amount.unsigned_abs() < 1 << 63 {
        Ok(amount as i64)
    } else {
        Err(LineError::NumberTooLarge)
    }
}

/// The number that a column has of a refused line.
const LEAST: i64 = i64::MIN;

/// Prints microseconds as durations, for [`print_column`](crate::print_column): -1,500,000 as `-PT1.5S`.
/// `i64::MIN` is an empty line, as a column has it of a refused line.
#[derive(Clone, Copy, Debug)]
pub struct DurationPrinter;

impl LinePrinter for DurationPrinter {
    ghost use Rattle.speedate.specs.ColumnText.{ReadsDurations, duration_line};

    type Number = i64;

    ghost line = { λ printer number. duration_line number };

    ghost leads_back = { λ printer answer refused. ReadsDurations answer refused };

    #[inline(always)]
    fn push_line(&self, number: i64, text: &mut ArrayString<LINE_MAX>) -> Result<(), LineError> {
        if number == LEAST {
            return Ok(());
        }
        Duration::from_microseconds(number).push_onto(text);
        Ok(())
    }
}
