//! Columns of the date-times at the front of lines.

use super::date_time::utc_number;
use super::{LineError, LineReader};
use speedate_base::config::{DateTimeConfig, TimeConfig, TimestampUnit};
use speedate_base::faults::ParseError;
use speedate_civil::datetime::{DateTime, loose_front};
use speedate_civil::form::DateTimeForm;

/// The date-time at the front of a line: 1,000,000 and 20 for `1970-01-01T00:00:01Z GET /`.
#[repr(C)]
#[derive(Clone, Copy, Debug, PartialEq, Eq)]
pub struct DateTimeFront {
    /// Its microseconds since 1970-01-01T00:00:00 in UTC.
    pub microseconds: i64,
    /// How many bytes of the line it takes.
    pub size: usize,
}

/// Reads the date-time at the front of a line, whatever follows it, as
/// [`DateTime::parse_front`] does, and counts its microseconds as
/// [`DateTimeReader`](crate::DateTimeReader) does: 1,000,000 and 20 for `1970-01-01T00:00:01Z GET /`. With zones as
/// programs print them it reads as [`DateTime::parse_or_place`] with [`DateTimeForm::LooseFront`].
#[derive(Clone, Copy, Debug)]
pub struct DateTimeFrontReader {
    /// The behavior for digits past the microsecond.
    pub config: TimeConfig,
    /// Whether a date-time without an offset is taken to be in UTC. Otherwise it is refused, with
    /// `TzRequired`.
    pub assumes_utc: bool,
    /// Whether it reads zones as programs print them, and where a date-time has to end, as
    /// [`DateTimeForm::LooseFront`].
    pub is_loose: bool,
}

impl DateTimeFrontReader {
    ghost use Rattle.std.specs.Prelude.{◌≡◌, ◌≤◌, false, IfOk, Ok, length, take};
    ghost use Rattle.speedate_base.specs.Config.{time_choices};
    ghost use Rattle.speedate_base.specs.Refused.{without_place};
    ghost use Rattle.speedate_civil.specs.DateTime.{date_and_time, date_time_answer, ◌gives_front◌};
    ghost use Rattle.speedate.specs.Column.{front_of_line};

    /// Parses the date-time at the front of a line.
    fn parse_front(&self, line: &[u8]) -> Result<(DateTime, usize), ParseError>
        ensures answer { result gives_front without_place (front_of_line self.now.is_loose
            (time_choices self.now.config).behavior line.now) }
        ensures within { IfOk result (λ front. front.1 ≤ length line.now) }
        ensures alone { self.now.is_loose ≡ false → IfOk result (λ front.
            date_time_answer (time_choices self.now.config).behavior (take front.1 line.now)
            ≡ Ok (date_and_time front.0)) }
    {
        if !self.is_loose {
            return DateTime::parse_front(line, &self.config);
        }
        match loose_front(line, self.config.microseconds_precision_overflow_behavior) {
            Ok((value, size)) => Ok((value, size)),
            Err(refused) => Err(refused.fault),
        }
    }
}

impl LineReader for DateTimeFrontReader {
    ghost use Rattle.std.specs.Prelude.{◌≡◌, ◌≤◌, IfOk, Ok, false, length, take};
    ghost use Rattle.speedate.specs.Column.{date_time_front_number, date_time_front_place};
    ghost use Rattle.speedate.specs.Column.{date_time_number, whole_reader};

    type Number = DateTimeFront;

    ghost answer = { date_time_front_number };

    ghost place = { date_time_front_place };

    fn number(&self, line: &[u8]) -> Result<DateTimeFront, LineError>
        ensures answer { result ≡ date_time_front_number self.now line.now }
        ensures within { IfOk result (λ front. front.size ≤ length line.now) }
        ensures alone { self.now.is_loose ≡ false → IfOk result (λ front.
            date_time_number (whole_reader self.now) (take front.size line.now)
            ≡ Ok front.microseconds) }
    {
        match self.parse_front(line) {
            Ok((value, size)) => match utc_number(&value, self.assumes_utc) {
                Ok(microseconds) => Ok(DateTimeFront { microseconds, size }),
                Err(error) => Err(error),
            },
            Err(fault) => Err(LineError::Parse(fault)),
        }
    }

    fn error_place(&self, line: &[u8]) -> usize {
        let config = DateTimeConfig {
            timestamp_unit: TimestampUnit::Infer,
            time_config: self.config,
        };
        let form = if self.is_loose {
            DateTimeForm::LooseFront
        } else {
            DateTimeForm::Front
        };
        DateTime::size_or_place(line, form, &config)
    }
}
