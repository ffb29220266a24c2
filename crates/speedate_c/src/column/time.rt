//! Columns of times as C sees them: of what their clocks show, and of their offsets.

ghost use Rattle.std.specs.Option.{option_map};
ghost use Rattle.std.specs.Prelude.{MatchOption, if◌then◌else◌, ◌==◌, ◌≡◌};
ghost use Rattle.speedate.specs.Column.{time_of_line};
ghost use Rattle.speedate.specs.Config.{choices};
ghost use Rattle.speedate_c.specs.Code.{config_out_of_range, success};
ghost use Rattle.speedate_c.specs.Column.{IsColumn, chosen_for_time_offsets};
ghost use Rattle.speedate_c.specs.Column.{chosen_for_times};
ghost use Rattle.speedate_c.specs.Column.{time_by_parser, time_kind, written_lines};
ghost use Rattle.speedate.specs.ColumnText.{least_of_32_bits, least_of_64_bits, time_line};

use super::{
    ColumnChoices, LineParser, SpeedateColumnConfig, SpeedateProgress, write_column, write_lines,
};
use crate::code::CONFIG_OUT_OF_RANGE;
use crate::config::SpeedateConfig;
use speedate::{CallKind, DateTimeConfig, TimeOffsetReader, TimeParser, TimePrinter, TimeReader};

impl ColumnChoices {
    /// The parser of times, if the column has one.
    #[inline(always)]
    pub(super) fn time_parser(&self, config: &DateTimeConfig) -> Option<TimeParser>
        ensures parses { option_map time_of_line result
            ≡ time_by_parser self.now.parser (choices config.now) }
    {
        let time_config = config.time_config;
        match self.parser {
            LineParser::Text => Some(TimeParser::Text(time_config)),
            LineParser::OrTimestamp | LineParser::Loose => None,
            LineParser::Strict => {
                let behavior = time_config.microseconds_precision_overflow_behavior;
                Some(TimeParser::Strict(behavior))
            }
        }
    }
}

impl LineParser {
    /// The kind of calls that parse a time as this parser does.
    pub(super) fn time_kind(self) -> CallKind
        ensures kind { result ≡ time_kind self }
    {
        match self {
            LineParser::Strict => CallKind::TimeStrict,
            LineParser::Text | LineParser::OrTimestamp | LineParser::Loose => CallKind::Time,
        }
    }
}

/// Reads the lines of a text as times, and writes the microseconds after midnight that their clocks show,
/// whatever the offset, as [`read_column`] does by a [`TimeReader`]: 43,994,500,000 for `12:13:14.5`.
///
/// `CONFIG_OUT_OF_RANGE` and refused lines are as in [`speedate_datetime_lines`]; the parsers 1 and 3 are
/// out of range.
#[unsafe(no_mangle)]
pub extern "C" fn speedate_time_lines(
    text: &[u8],
    config: SpeedateConfig,
    column: SpeedateColumnConfig,
    out: &mut [i64],
    errors: &mut [u8],
    progress: &mut SpeedateProgress,
) -> i32
    ensures answer { MatchOption (chosen_for_times config column)
        ((result ≡ config_out_of_range) × (out.new ≡ out.old) × (errors.new ≡ errors.old)
        × (progress.new ≡ progress.old))
        (λ chosen. (result ≡ success) × IsColumn chosen.1 chosen.0 least_of_64_bits text.now
        out.old out.new errors.old errors.new progress.new) }
{
    let config = config_or_return!(config.to_config());
    let choices = config_or_return!(column.to_choices());
    let parser = config_or_return!(choices.time_parser(&config));
    let reader = TimeReader { parser };
    let kind = choices.parser.time_kind();
    write_column(
        text,
        &choices,
        &reader,
        kind,
        i64::MIN,
        out,
        errors,
        progress,
    )
}

/// Reads the lines of a text as times, and writes the seconds of their offsets, as [`read_column`] does by a
/// [`TimeOffsetReader`]: 3,600 for `12:13+01:00`. A line without an offset is refused, with the code of
/// `TzRequired`.
///
/// `CONFIG_OUT_OF_RANGE` and refused lines are as in [`speedate_datetime_lines`]; the parsers 1 and 3 are
/// out of range.
#[unsafe(no_mangle)]
pub extern "C" fn speedate_time_offset_lines(
    text: &[u8],
    config: SpeedateConfig,
    column: SpeedateColumnConfig,
    out: &mut [i32],
    errors: &mut [u8],
    progress: &mut SpeedateProgress,
) -> i32
    ensures answer { MatchOption (chosen_for_time_offsets config column)
        ((result ≡ config_out_of_range) × (out.new ≡ out.old) × (errors.new ≡ errors.old)
        × (progress.new ≡ progress.old))
        (λ chosen. (result ≡ success) × IsColumn chosen.1 chosen.0 least_of_32_bits text.now
        out.old out.new errors.old errors.new progress.new) }
{
    let config = config_or_return!(config.to_config());
    let choices = config_or_return!(column.to_choices());
    let parser = config_or_return!(choices.time_parser(&config));
    let reader = TimeOffsetReader { parser };
    let kind = choices.parser.time_kind();
    write_column(
        text,
        &choices,
        &reader,
        kind,
        i32::MIN,
        out,
        errors,
        progress,
    )
}

/// Prints microseconds after midnight as times, a line for each, as [`print_column`] does
/// by a [`TimePrinter`]: `12:13:14.500000` for 43,994,500,000.
///
/// A number without a line ends the text, as with [`speedate_date_print_column`].
#[unsafe(no_mangle)]
pub extern "C" fn speedate_time_print_column(
    microseconds: &[i64],
    flags: u32,
    buffer: &mut [u8],
    progress: &mut SpeedateProgress,
) -> i32
    ensures answer { (result, buffer.new, progress.new)
        ≡ if flags == 0 then written_lines time_line microseconds.now buffer.old
        else (config_out_of_range, buffer.old, progress.old) }
{
    match flags {
        0 => write_lines(microseconds, &TimePrinter, buffer, progress),
        _ => CONFIG_OUT_OF_RANGE,
    }
}
