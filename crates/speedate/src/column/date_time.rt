//! Columns of date-times.

ghost use Rattle.std.specs.Prelude.{◌≡◌, ◌+ℤ◌, ◌-ℤ◌, ◌≤ℤ◌, [], IfErr, IfOk, pos};
ghost use Rattle.std.specs.Option.{ForSome};
ghost use Rattle.speedate_base.specs.Offset.{IsOffset};
ghost use Rattle.speedate_base.specs.Timestamp.{IsInYears, first_second, instant_at, last_second};
ghost use Rattle.speedate_base.specs.Timestamp.{unix_instant};
ghost use Rattle.speedate_civil.specs.DateTime.{date_and_time, date_time_at, utc_microsecond};
ghost use Rattle.speedate_civil.specs.DateTime.{utc_second, ◌gives◌};
ghost use Rattle.speedate_civil.specs.Loose.{loose_answer};
ghost use Rattle.speedate_base.specs.Refused.{without_place};
ghost use Rattle.speedate_base.specs.Requirement.{result_map};
ghost use Rattle.speedate.specs.Column.{as_number, with_offset};
ghost use Rattle.speedate.specs.ColumnText.{IsShownLine, date_time_line};

use super::{LINE_MAX, LineError, LinePrinter, LineReader};
use arrayvec::ArrayString;
use speedate_base::config::{
    DateTimeConfig, IsoOrder, MicrosecondsPrecisionOverflowBehavior, TimeConfig, TimestampUnit,
};
use speedate_base::faults::ParseError;
use speedate_base::util::UnixTime;
use speedate_civil::datetime::{
    DateTime, loose_whole, require_standard_date_time, timestamp_instant, utc_front,
};
use speedate_civil::form::DateTimeForm;

/// How a column parses its date-times: `DateTimeParser::Text(TimeConfig::default())` takes
/// `1970-01-01T00:00Z`, and refuses `0`.
#[derive(Clone, Copy, Debug)]
pub enum DateTimeParser {
    /// No timestamps, as [`DateTime::parse_bytes_rfc3339_with_config`].
    Text(TimeConfig),
    /// Timestamps too, as [`DateTime::parse_bytes_with_config`].
    OrTimestamp(DateTimeConfig),
    /// Only texts of RFC 3339, as [`DateTime::parse_bytes_strict`].
    Strict(MicrosecondsPrecisionOverflowBehavior),
    /// No timestamps, but the zones that programs print, as [`DateTime::parse_or_place`] with
    /// [`DateTimeForm::Loose`].
    Loose(MicrosecondsPrecisionOverflowBehavior),
}

impl DateTimeParser {
    ghost use Rattle.std.specs.Prelude.{◌≡◌, IsTrue, Ok};
    ghost use Rattle.speedate_base.specs.Refused.{without_place};
    ghost use Rattle.speedate_civil.specs.DateTime.{◌gives◌};
    ghost use Rattle.speedate.specs.Column.{date_time_of_line, date_time_place, taken_answer};
    ghost use Rattle.speedate.specs.Column.{text_behavior};
    ghost use Rattle.speedate_base.specs.Config.{time_choices};

    /// Parses a line as a date-time.
    pub(super) fn parse(&self, line: &[u8]) -> Result<DateTime, ParseError>
        ensures answer { result gives without_place (date_time_of_line self.now line.now) }
    {
        match self {
            DateTimeParser::OrTimestamp(config) => {
                return DateTime::parse_bytes_with_config(line, config);
            }
            DateTimeParser::Loose(behavior) => return parse_loose(line, *behavior),
            DateTimeParser::Text(_) | DateTimeParser::Strict(_) => {}
        }
        let value = DateTime::parse_bytes_rfc3339_with_config(line, &self.text_config())?;
        match self.require(line) {
            Ok(()) => Ok(value),
            Err(fault) => Err(fault),
        }
    }

    /// How the text of a date-time is parsed, of which `Strict` requires more.
    #[inline(always)]
    fn text_config(&self) -> TimeConfig
        ensures behavior { (time_choices result).behavior ≡ text_behavior self.now }
    {
        match self {
            DateTimeParser::Text(config) => *config,
            DateTimeParser::OrTimestamp(config) => config.time_config,
            DateTimeParser::Strict(behavior) | DateTimeParser::Loose(behavior) => TimeConfig {
                microseconds_precision_overflow_behavior: *behavior,
                unix_timestamp_offset: None,
                iso_order: IsoOrder::Lax,
            },
        }
    }

    /// Requires of a line that is a date-time what this parser requires besides: `Strict`, that it is of
    /// RFC 3339.
    #[inline(always)]
    fn require(&self, line: &[u8]) -> Result<(), ParseError>
        ensures required { result ≡ taken_answer self.now line.now }
    {
        match self {
            DateTimeParser::Strict(_) => require_standard_date_time(line),
            _ => Ok(()),
        }
    }

    /// The byte at which the error of a line lies: where the line ends if it is a date-time, which then
    /// misses an offset. It is not inlined, so that the readers of date-times share one copy.
    #[cold]
    #[inline(never)]
    pub(super) fn error_place(&self, line: &[u8]) -> usize
        ensures place { result ≡ date_time_place self.now line.now }
    {
        let config = DateTimeConfig {
            timestamp_unit: TimestampUnit::Infer,
            time_config: self.text_config(),
        };
        match self {
            DateTimeParser::Text(_) => DateTime::size_or_place(line, DateTimeForm::Text, &config),
            DateTimeParser::OrTimestamp(config) => {
                DateTime::size_or_place(line, DateTimeForm::OrTimestamp, config)
            }
            DateTimeParser::Strict(_) => {
                DateTime::size_or_place(line, DateTimeForm::Strict, &config)
            }
            DateTimeParser::Loose(_) => DateTime::size_or_place(line, DateTimeForm::Loose, &config),
        }
    }

    /// Whether a line that is a date-time is one for this parser.
    #[inline(always)]
    fn takes(&self, line: &[u8]) -> bool
        ensures takes { IsTrue result → taken_answer self.now line.now ≡ Ok tt }
    {
        self.require(line).is_ok()
    }
}

/// Reads a line as a date-time, and counts its microseconds from 1970-01-01T00:00:00 in UTC, as
/// [`DateTime::timestamp_tz_us`] does: 1,000,000 for `1970-01-01T00:00:01Z`, and 0 for
/// `1970-01-01T01:00+01:00`.
#[derive(Clone, Copy, Debug)]
pub struct DateTimeReader {
    /// How a line is parsed.
    pub parser: DateTimeParser,
    /// Whether a date-time without an offset is taken to be in UTC. Otherwise it is refused, with
    /// `TzRequired`.
    pub assumes_utc: bool,
}

impl DateTimeReader {
    ghost use Rattle.std.specs.Prelude.{◌≡◌};
    ghost use Rattle.speedate_base.specs.Config.{choices};
    ghost use Rattle.speedate_base.specs.Refused.{without_place};
    ghost use Rattle.speedate_base.specs.Requirement.{result_and_then, result_map};
    ghost use Rattle.speedate_base.specs.Timestamp.{IsInYears, unix_instant};
    ghost use Rattle.speedate_civil.specs.DateTime.{date_and_time, date_time_at};
    ghost use Rattle.speedate_civil.specs.DateTime.{date_time_by_config, utc_microsecond};
    ghost use Rattle.speedate.specs.Column.{as_number, date_time_number, with_offset};

    /// The number of a line. Each copy has one caller, into which it is inlined.
    #[inline(always)]
    fn number_of<const COPY: u8>(&self, line: &[u8]) -> Result<i64, LineError>
        ensures number { result ≡ date_time_number self.now line.now }
    {
        match &self.parser {
            DateTimeParser::Text(config) => {
                self.counted(DateTime::parse_bytes_rfc3339_with_config(line, config))
            }
            DateTimeParser::OrTimestamp(config) => self.number_or_timestamp::<COPY>(line, config),
            DateTimeParser::Strict(_) | DateTimeParser::Loose(_) => {
                self.counted(self.parser.parse(line))
            }
        }
    }

    /// Turns the answer of a parser into the line's number or error.
    #[inline(always)]
    fn counted(&self, read: Result<DateTime, ParseError>) -> Result<i64, LineError>
        ensures number { result ≡ as_number utc_microsecond (result_and_then
            (with_offset self.now.assumes_utc) (result_map date_and_time read)) }
    {
        match read {
            Ok(value) => utc_number(&value, self.assumes_utc),
            Err(fault) => Err(LineError::Parse(fault)),
        }
    }

    /// The number of a line that may be a timestamp, whose instant is counted without the calendar.
    #[inline(always)]
    fn number_or_timestamp<const COPY: u8>(
        &self,
        line: &[u8],
        config: &DateTimeConfig,
    ) -> Result<i64, LineError>
        ensures number { result ≡ as_number utc_microsecond (result_and_then
            (with_offset self.now.assumes_utc)
            (without_place (date_time_by_config config.now line.now))) }
    {
        match DateTime::parse_bytes_rfc3339_with_config(line, &config.time_config) {
            Ok(value) => utc_number(&value, self.assumes_utc),
            Err(fault) => match timestamp_instant(line, fault, config) {
                Ok(time) => self.timestamp_microsecond(time, config),
                Err(fault) => Err(LineError::Parse(fault)),
            },
        }
    }

    /// The microseconds of a timestamp, with the offset that is attached to it, if it has one or needs none.
    #[inline(always)]
    fn timestamp_microsecond(
        &self,
        time: UnixTime,
        config: &DateTimeConfig,
    ) -> Result<i64, LineError>
        requires within { IsInYears (unix_instant time) }
        ensures number { result ≡ as_number utc_microsecond (with_offset self.now.assumes_utc
            (date_time_at (choices config.now).offset (unix_instant time))) }
    {
        let offset = config.time_config.unix_timestamp_offset;
        if offset.is_none() && !self.assumes_utc {
            return Err(LineError::Parse(ParseError::TzRequired));
        }
        Ok(timestamp_number(time, offset))
    }
}

impl LineReader for DateTimeReader {
    ghost use Rattle.speedate.specs.Column.{date_time_number, date_time_place};

    type Number = i64;

    ghost answer = { date_time_number };

    ghost place = { λ reader line. date_time_place reader.parser line };

    fn number(&self, line: &[u8]) -> Result<i64, LineError> {
        self.number_of::<0>(line)
    }

    fn text_number(&self, text: &[u8]) -> Result<i64, LineError> {
        self.number_of::<1>(text)
    }

    #[inline(always)]
    fn front(&self, text: &[u8]) -> Option<(i64, usize)> {
        let (number, size) = utc_front(text, self.assumes_utc)?;
        if !self.parser.takes(&text[..size]) {
            return None;
        }
        Some((number, size))
    }

    fn error_place(&self, line: &[u8]) -> usize {
        self.parser.error_place(line)
    }
}

/// Parses a line as a date-time with a zone as programs print it.
fn parse_loose(
    line: &[u8],
    behavior: MicrosecondsPrecisionOverflowBehavior,
) -> Result<DateTime, ParseError>
    ensures answer { result gives without_place (loose_answer behavior line.now) }
{
    match loose_whole(line, behavior) {
        Ok(value) => Ok(value),
        Err(refused) => Err(refused.fault),
    }
}

/// The microseconds of a date-time in UTC, if it has an offset or needs none.
#[inline(always)]
pub(super) fn utc_number(value: &DateTime, assumes_utc: bool) -> Result<i64, LineError>
    ensures number { result ≡ as_number utc_microsecond
        (with_offset assumes_utc (date_and_time value.now)) }
{
    if value.time.tz_offset.is_none() && !assumes_utc {
        return Err(LineError::Parse(ParseError::TzRequired));
    }
    Ok(value.timestamp_tz_us())
}

/// The microseconds of the date-time whose clock shows an instant, and which has this offset.
#[inline(always)]
pub(super) fn timestamp_number(time: UnixTime, offset: Option<i32>) -> i64
    requires within { IsInYears (unix_instant time) }
    requires offset { ForSome offset IsOffset }
    ensures number { result ≡ utc_microsecond (date_time_at offset (unix_instant time)) }
{
    1_000_000 * timestamp_second(time, offset) + i64::from(time.microsecond)
}

/// The second in UTC of the date-time whose clock shows an instant, and which has this offset.
#[inline(always)]
fn timestamp_second(time: UnixTime, offset: Option<i32>) -> i64
    requires within { IsInYears (unix_instant time) }
    requires offset { ForSome offset IsOffset }
    ensures second { result ≡ utc_second (date_time_at offset (unix_instant time)) }
    ensures least { (first_second -ℤ pos 86399) ≤ℤ result }
    ensures largest { result ≤ℤ (last_second +ℤ pos 86399) }
{
    time.second - i64::from(offset.unwrap_or(0))
}

/// Prints microseconds since 1970-01-01T00:00:00 in UTC as date-times with `Z`, for
/// [`print_column`](crate::print_column): 1,000,000 as `1970-01-01T00:00:01Z`. `i64::MIN` is an empty line, as
/// a column has it of a refused line. An instant outside the years 0000 to 9999 is refused, with `DateTooSmall`
/// or `DateTooLarge`.
#[derive(Clone, Copy, Debug)]
pub struct DateTimePrinter;

impl LinePrinter for DateTimePrinter {
    ghost use Rattle.std.specs.Prelude.{Some, pos};
    ghost use Rattle.speedate.specs.ColumnText.{ReadsDateTimes, date_time_line};

    type Number = i64;

    ghost line = { λ printer number. date_time_line (Some (pos 0)) number };

    ghost leads_back = { λ printer answer refused. ReadsDateTimes answer refused };

    #[inline(always)]
    fn push_line(&self, number: i64, text: &mut ArrayString<LINE_MAX>) -> Result<(), LineError> {
        push_date_time(number, Some(0), text)
    }
}

/// Puts the date-time with an offset whose clock shows the instant of a number into an empty text.
#[inline(always)]
pub(super) fn push_date_time(
    number: i64,
    offset: Option<i32>,
    text: &mut ArrayString<LINE_MAX>,
) -> Result<(), LineError>
    requires empty { text.old.bytes ≡ [] }
    requires offset { ForSome offset IsOffset }
    ensures line { result_map (λ done. text.new.bytes) result ≡ date_time_line offset number }
    ensures shown { IfOk result (λ done. IsShownLine offset number text.new.bytes) }
    ensures kept { IfErr result (λ error. text.new.bytes ≡ []) }
{
    if number == i64::MIN {
        return Ok(());
    }
    match DateTime::from_unix_time(instant(number), offset) {
        Ok(value) => {
            value.push_onto(text);
            Ok(())
        }
        Err(fault) => Err(LineError::Parse(fault)),
    }
}

/// The instant of microseconds since 1970-01-01T00:00:00.
#[inline(always)]
fn instant(microsecond: i64) -> UnixTime
    ensures instant { unix_instant result ≡ instant_at microsecond }
{
    UnixTime {
        second: microsecond.div_euclid(1_000_000),
        microsecond: microsecond.rem_euclid(1_000_000) as u32,
    }
}
