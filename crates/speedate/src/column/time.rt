//! Columns of times of day, and of their offsets.

ghost use Rattle.std.specs.Prelude.{◌≡◌, pos};
ghost use Rattle.speedate_base.specs.Refused.{refused_place};
ghost use Rattle.speedate_civil.specs.Strict.{strict_time_answer};
ghost use Rattle.speedate_civil.specs.Time.{microsecond_of_day, time_of_day};

use super::clock::offset_number;
use super::{LINE_MAX, LineError, LinePrinter, LineReader};
use arrayvec::ArrayString;
use speedate_base::config::{IsoOrder, MicrosecondsPrecisionOverflowBehavior, TimeConfig};
use speedate_base::faults::ParseError;
use speedate_base::refusal::Refused;
use speedate_civil::form::TimeForm;
use speedate_civil::time::Time;

/// The microseconds of a day.
const MICROSECONDS_PER_DAY: i64 = 86_400_000_000;

/// How a column parses its times: `TimeParser::Text(TimeConfig::default())` takes `12:13`.
#[derive(Clone, Copy, Debug)]
pub enum TimeParser {
    /// Texts of RFC 3339, relaxed, as [`Time::parse_bytes_with_config`].
    Text(TimeConfig),
    /// Only texts of RFC 3339, as [`Time::parse_bytes_strict`].
    Strict(MicrosecondsPrecisionOverflowBehavior),
}

impl TimeParser {
    ghost use Rattle.speedate_base.specs.Refused.{without_place};
    ghost use Rattle.speedate_civil.specs.Time.{◌gives◌};
    ghost use Rattle.speedate.specs.Column.{time_of_line, time_place};

    /// Parses a line as a time.
    fn parse(&self, line: &[u8]) -> Result<Time, ParseError>
        ensures answer { result gives without_place (time_of_line self.now line.now) }
    {
        match self {
            TimeParser::Text(config) => Time::parse_bytes_with_config(line, config),
            TimeParser::Strict(behavior) => Time::parse_bytes_strict(line, *behavior),
        }
    }

    /// The byte at which the error of a line lies: where the line ends if it is a time, which then misses
    /// an offset. It is not inlined, so that the readers of times share one copy.
    #[cold]
    #[inline(never)]
    fn error_place(&self, line: &[u8]) -> usize
        ensures place { result ≡ time_place self.now line.now }
    {
        let place = match self {
            TimeParser::Text(config) => Time::error_place(line, config),
            TimeParser::Strict(behavior) => strict_place(line, *behavior),
        };
        place.unwrap_or(line.len())
    }
}

/// The byte at which the error of a line lies that is to be a time of RFC 3339 alone.
fn strict_place(line: &[u8], behavior: MicrosecondsPrecisionOverflowBehavior) -> Option<usize>
    ensures place { result ≡ refused_place (strict_time_answer behavior line.now) }
{
    let config = TimeConfig {
        microseconds_precision_overflow_behavior: behavior,
        unix_timestamp_offset: None,
        iso_order: IsoOrder::Lax,
    };
    Refused::place_of(Time::parse_or_place(line, TimeForm::Strict, &config))
}

/// Reads a line as a time, and counts the microseconds after midnight that its clock shows, whatever the
/// offset: 43,994,500,000 for `12:13:14.5`, and for `12:13:14.5+01:00`. The most is 86,399,999,999.
#[derive(Clone, Copy, Debug)]
pub struct TimeReader {
    /// How a line is parsed.
    pub parser: TimeParser,
}

/// Reads a line as a time, and gives its offset from UTC in seconds, positive east of UTC: 3,600 for
/// `12:13+01:00`, and 0 for `12:13Z`. A time without an offset is refused, with `TzRequired`.
#[derive(Clone, Copy, Debug)]
pub struct TimeOffsetReader {
    /// How a line is parsed.
    pub parser: TimeParser,
}

impl LineReader for TimeReader {
    ghost use Rattle.speedate.specs.Column.{time_number, time_place};

    type Number = i64;

    ghost answer = { time_number };

    ghost place = { λ reader line. time_place reader.parser line };

    fn number(&self, line: &[u8]) -> Result<i64, LineError> {
        match self.parser.parse(line) {
            Ok(time) => Ok(microsecond_of_day(&time)),
            Err(fault) => Err(LineError::Parse(fault)),
        }
    }

    fn error_place(&self, line: &[u8]) -> usize {
        self.parser.error_place(line)
    }
}

impl LineReader for TimeOffsetReader {
    ghost use Rattle.speedate.specs.Column.{time_offset_number, time_place};

    type Number = i32;

    ghost answer = { time_offset_number };

    ghost place = { λ reader line. time_place reader.parser line };

    fn number(&self, line: &[u8]) -> Result<i32, LineError> {
        match self.parser.parse(line) {
            Ok(time) => offset_number(time.tz_offset),
            Err(fault) => Err(LineError::Parse(fault)),
        }
    }

    fn error_place(&self, line: &[u8]) -> usize {
        self.parser.error_place(line)
    }
}

/// The microseconds after midnight that the clock of a time shows.
#[inline(always)]
fn microsecond_of_day(time: &Time) -> i64
    ensures microsecond { result ≡ pos (microsecond_of_day (time_of_day time.now)) }
{
    1_000_000 * i64::from(time.total_seconds()) + i64::from(time.microsecond)
}

/// Prints microseconds after midnight as times, for [`print_column`](crate::print_column): 43,994,500,000 as
/// `12:13:14.500000`. `i64::MIN` is an empty line, as a column has it of a refused line. A number that is not
/// 0 to 86,399,999,999 is refused, with `TimeTooLarge`.
#[derive(Clone, Copy, Debug)]
pub struct TimePrinter;

impl LinePrinter for TimePrinter {
    ghost use Rattle.speedate.specs.ColumnText.{ReadsTimes, time_line};

    type Number = i64;

    ghost line = { λ printer number. time_line number };

    ghost leads_back = { λ printer answer refused. ReadsTimes answer refused };

    #[inline(always)]
    fn push_line(&self, number: i64, text: &mut ArrayString<LINE_MAX>) -> Result<(), LineError> {
        if number == i64::MIN {
            return Ok(());
        }
        if number < 0 || number >= MICROSECONDS_PER_DAY {
            return Err(LineError::Parse(ParseError::TimeTooLarge));
        }
        let second = (number / 1_000_000) as u32;
        let microsecond = (number % 1_000_000) as u32;
        match Time::from_timestamp(second, microsecond) {
            Ok(time) => {
                time.push_onto(text);
                Ok(())
            }
            Err(fault) => Err(LineError::Parse(fault)),
        }
    }
}
