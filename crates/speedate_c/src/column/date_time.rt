//! Columns of date-times as C sees them: of their instants, of what their clocks show, and of their offsets.

ghost use Rattle.std.specs.Prelude.{◌≡◌, ◌==◌, MatchOption, None, Some, if◌then◌else◌, pos};
ghost use Rattle.speedate.specs.Column.{clock_number, date_time_number, date_time_offset_number};
ghost use Rattle.speedate.specs.Column.{date_time_place};
ghost use Rattle.speedate.specs.Config.{choices};
ghost use Rattle.speedate_c.specs.Code.{config_out_of_range, success};
ghost use Rattle.speedate_c.specs.Column.{IsColumn, chosen_for_clocks, clock_flag};
ghost use Rattle.speedate_c.specs.Column.{date_time_call};
ghost use Rattle.speedate_c.specs.Column.{chosen_for_date_time_offsets, chosen_for_date_times};
ghost use Rattle.speedate_c.specs.Column.{clock_number_by, date_time_number_by};
ghost use Rattle.speedate_c.specs.Column.{date_time_kind, date_time_offset_number_by};
ghost use Rattle.speedate_c.specs.Column.{date_time_place_by};
ghost use Rattle.speedate_c.specs.Column.{written_lines};
ghost use Rattle.speedate.specs.ColumnText.{date_time_line, least_of_32_bits};
ghost use Rattle.speedate.specs.ColumnText.{least_of_64_bits};

use super::{
    ColumnChoices, LineParser, SpeedateColumnConfig, SpeedateProgress, write_column, write_lines,
};
use crate::code::CONFIG_OUT_OF_RANGE;
use crate::config::SpeedateConfig;
use speedate::{
    CallKind, DateTimeClockPrinter, DateTimeClockReader, DateTimeConfig, DateTimeOffsetReader,
    DateTimeParser, DateTimePrinter, DateTimeReader,
};

/// The flag for what the clocks of date-times show.
const CLOCK: u32 = 16;

impl ColumnChoices {
    /// The parser of date-times.
    #[inline(always)]
    fn date_time_parser(&self, config: &DateTimeConfig) -> DateTimeParser
        ensures instants { date_time_number
            (record { parser = result; assumes_utc = self.now.assumes_utc })
            ≡ date_time_number_by (choices config.now) self.now }
        ensures clocks { clock_number (record { parser = result })
            ≡ clock_number_by (choices config.now) self.now.parser }
        ensures offsets { date_time_offset_number (record { parser = result })
            ≡ date_time_offset_number_by (choices config.now) self.now.parser }
        ensures places { date_time_place result
            ≡ date_time_place_by (choices config.now) self.now.parser }
    {
        let time_config = config.time_config;
        match self.parser {
            LineParser::Text => DateTimeParser::Text(time_config),
            LineParser::OrTimestamp => DateTimeParser::OrTimestamp(*config),
            LineParser::Strict => {
                DateTimeParser::Strict(time_config.microseconds_precision_overflow_behavior)
            }
            LineParser::Loose => {
                DateTimeParser::Loose(time_config.microseconds_precision_overflow_behavior)
            }
        }
    }

    /// The reader of date-times.
    #[inline(always)]
    pub(super) fn date_time_reader(&self, config: &DateTimeConfig) -> DateTimeReader
        ensures reads { date_time_number result
            ≡ date_time_number_by (choices config.now) self.now }
        ensures places { date_time_place result.parser
            ≡ date_time_place_by (choices config.now) self.now.parser }
    {
        DateTimeReader {
            parser: self.date_time_parser(config),
            assumes_utc: self.assumes_utc,
        }
    }
}

impl LineParser {
    /// The kind of calls that parse a date-time as this parser does.
    pub(super) fn date_time_kind(self) -> CallKind
        ensures kind { result ≡ date_time_kind self }
    {
        match self {
            LineParser::Text | LineParser::Loose => CallKind::DateTime,
            LineParser::OrTimestamp => CallKind::DateTimeOrTimestamp,
            LineParser::Strict => CallKind::DateTimeStrict,
        }
    }
}

/// Reads a column of date-times.
#[inline(always)]
fn write_instants(
    text: &[u8],
    config: &DateTimeConfig,
    column: &ColumnChoices,
    out: &mut [i64],
    errors: &mut [u8],
    progress: &mut SpeedateProgress,
) -> i32
    ensures success { result ≡ success }
    ensures column { IsColumn (date_time_call (date_time_number_by (choices config.now) column.now)
        (choices config.now) column.now.parser) column.now least_of_64_bits text.now
        out.old out.new errors.old errors.new progress.new }
{
    let reader = column.date_time_reader(config);
    let kind = column.parser.date_time_kind();
    write_column(text, column, &reader, kind, i64::MIN, out, errors, progress)
}

/// Reads a column of what the clocks of date-times show.
#[inline(always)]
fn write_clocks(
    text: &[u8],
    config: &DateTimeConfig,
    column: &ColumnChoices,
    out: &mut [i64],
    errors: &mut [u8],
    progress: &mut SpeedateProgress,
) -> i32
    ensures success { result ≡ success }
    ensures column { IsColumn (date_time_call
        (clock_number_by (choices config.now) column.now.parser)
        (choices config.now) column.now.parser) column.now least_of_64_bits text.now
        out.old out.new errors.old errors.new progress.new }
{
    let parser = column.date_time_parser(config);
    let reader = DateTimeClockReader { parser };
    let kind = column.parser.date_time_kind();
    write_column(text, column, &reader, kind, i64::MIN, out, errors, progress)
}

/// Reads a column of the offsets of date-times.
#[inline(always)]
fn write_offsets(
    text: &[u8],
    config: &DateTimeConfig,
    column: &ColumnChoices,
    out: &mut [i32],
    errors: &mut [u8],
    progress: &mut SpeedateProgress,
) -> i32
    ensures success { result ≡ success }
    ensures column { IsColumn (date_time_call
        (date_time_offset_number_by (choices config.now) column.now.parser)
        (choices config.now) column.now.parser) column.now least_of_32_bits text.now
        out.old out.new errors.old errors.new progress.new }
{
    let parser = column.date_time_parser(config);
    let reader = DateTimeOffsetReader { parser };
    let kind = column.parser.date_time_kind();
    write_column(text, column, &reader, kind, i32::MIN, out, errors, progress)
}

/// Reads the lines of a text as date-times, and writes their microseconds since 1970-01-01T00:00:00 in
/// UTC, as [`read_column`] does by a [`DateTimeReader`]: 1,000,000 for `1970-01-01T00:00:01Z`.
///
/// `CONFIG_OUT_OF_RANGE` if a number of either configuration is out of range. A refused line is not
/// a failure of the call: if it ends the column, the progress has the code of its error, and the part of the
/// line that the error is about.
#[unsafe(no_mangle)]
pub extern "C" fn speedate_datetime_lines(
    text: &[u8],
    config: SpeedateConfig,
    column: SpeedateColumnConfig,
    out: &mut [i64],
    errors: &mut [u8],
    progress: &mut SpeedateProgress,
) -> i32
    ensures answer { MatchOption (chosen_for_date_times config column)
        ((result ≡ config_out_of_range) × (out.new ≡ out.old) × (errors.new ≡ errors.old)
        × (progress.new ≡ progress.old))
        (λ chosen. (result ≡ success) × IsColumn chosen.1 chosen.0 least_of_64_bits text.now
        out.old out.new errors.old errors.new progress.new) }
{
    let config = config_or_return!(config.to_config());
    let choices = config_or_return!(column.to_choices());
    write_instants(text, &config, &choices, out, errors, progress)
}

/// Reads the lines of a text as date-times, and writes the microseconds since 1970-01-01T00:00:00 that
/// their clocks show, whatever the offset, as [`read_column`] does by a [`DateTimeClockReader`]:
/// 3,600,000,000 for `1970-01-01T01:00+01:00`.
///
/// `CONFIG_OUT_OF_RANGE` and refused lines are as in [`speedate_datetime_lines`].
#[unsafe(no_mangle)]
pub extern "C" fn speedate_datetime_clock_column(
    text: &[u8],
    config: SpeedateConfig,
    column: SpeedateColumnConfig,
    out: &mut [i64],
    errors: &mut [u8],
    progress: &mut SpeedateProgress,
) -> i32
    ensures answer { MatchOption (chosen_for_clocks config column)
        ((result ≡ config_out_of_range) × (out.new ≡ out.old) × (errors.new ≡ errors.old)
        × (progress.new ≡ progress.old))
        (λ chosen. (result ≡ success) × IsColumn chosen.1 chosen.0 least_of_64_bits text.now
        out.old out.new errors.old errors.new progress.new) }
{
    let config = config_or_return!(config.to_config());
    let choices = config_or_return!(column.to_choices());
    write_clocks(text, &config, &choices, out, errors, progress)
}

/// Reads the lines of a text as date-times, and writes the seconds of their offsets, as [`read_column`] does
/// by a [`DateTimeOffsetReader`]: 3,600 for `1970-01-01T01:00+01:00`. A timestamp has the offset of `config`.
/// A line without an offset is refused, with the code of `TzRequired`.
///
/// `CONFIG_OUT_OF_RANGE` and refused lines are as in [`speedate_datetime_lines`].
#[unsafe(no_mangle)]
pub extern "C" fn speedate_datetime_offset_lines(
    text: &[u8],
    config: SpeedateConfig,
    column: SpeedateColumnConfig,
    out: &mut [i32],
    errors: &mut [u8],
    progress: &mut SpeedateProgress,
) -> i32
    ensures answer { MatchOption (chosen_for_date_time_offsets config column)
        ((result ≡ config_out_of_range) × (out.new ≡ out.old) × (errors.new ≡ errors.old)
        × (progress.new ≡ progress.old))
        (λ chosen. (result ≡ success) × IsColumn chosen.1 chosen.0 least_of_32_bits text.now
        out.old out.new errors.old errors.new progress.new) }
{
    let config = config_or_return!(config.to_config());
    let choices = config_or_return!(column.to_choices());
    write_offsets(text, &config, &choices, out, errors, progress)
}

/// Prints microseconds since 1970-01-01T00:00:00 as date-times, a line for each: with the flags 0 in UTC, as
/// [`print_column`] does by a [`DateTimePrinter`], `1970-01-01T00:00:01Z` for 1,000,000, and with the
/// flag `CLOCK` without an offset, as by a [`DateTimeClockPrinter`]. `CONFIG_OUT_OF_RANGE` for other flags.
///
/// A number without a line ends the text, as with [`speedate_date_print_column`].
#[unsafe(no_mangle)]
pub extern "C" fn speedate_datetime_print_column(
    microseconds: &[i64],
    flags: u32,
    buffer: &mut [u8],
    progress: &mut SpeedateProgress,
) -> i32
    ensures answer { (result, buffer.new, progress.new)
        ≡ if flags == 0
        then written_lines (date_time_line (Some (pos 0))) microseconds.now buffer.old
        else (if flags == clock_flag
        then written_lines (date_time_line None) microseconds.now buffer.old
        else (config_out_of_range, buffer.old, progress.old)) }
{
    match flags {
        0 => write_lines(microseconds, &DateTimePrinter, buffer, progress),
        CLOCK => write_lines(microseconds, &DateTimeClockPrinter, buffer, progress),
        _ => CONFIG_OUT_OF_RANGE,
    }
}
