//! Columns of dates as C sees them.

ghost use Rattle.std.specs.Prelude.{MatchOption, if◌then◌else◌, ◌==◌, ◌≡◌};
ghost use Rattle.speedate_c.specs.Code.{config_out_of_range, success};
ghost use Rattle.speedate_c.specs.Column.{IsColumn, chosen_for_dates};
ghost use Rattle.speedate_c.specs.Column.{date_kind, date_reader, written_lines};
ghost use Rattle.speedate.specs.ColumnText.{date_line, least_of_32_bits};

use super::{
    ColumnChoices, LineParser, SpeedateColumnConfig, SpeedateProgress, write_column, write_lines,
};
use crate::code::CONFIG_OUT_OF_RANGE;
use crate::config::SpeedateConfig;
use speedate::{CallKind, DateConfig, DatePrinter, DateReader};

impl ColumnChoices {
    /// The reader of dates, if the parser is one of dates. Each text of a date is one of RFC 3339.
    #[inline(always)]
    pub(super) fn date_reader(&self, config: DateConfig) -> Option<DateReader>
        ensures reader { result ≡ date_reader config.timestamp_unit self.now.parser }
    {
        match self.parser {
            LineParser::Text | LineParser::Strict => Some(DateReader::Text),
            LineParser::OrTimestamp => Some(DateReader::OrTimestamp(config)),
            LineParser::Loose => None,
        }
    }
}

impl LineParser {
    /// The kind of calls that parse a date as this parser does.
    pub(super) fn date_kind(self) -> CallKind
        ensures kind { result ≡ date_kind self }
    {
        match self {
            LineParser::OrTimestamp => CallKind::DateOrTimestamp,
            LineParser::Text | LineParser::Strict | LineParser::Loose => CallKind::Date,
        }
    }
}

/// Reads the lines of a text as dates, and writes their days since 1970-01-01, as [`read_column`] does by
/// a [`DateReader`]: 1 for `1970-01-02`.
///
/// `CONFIG_OUT_OF_RANGE` and refused lines are as in [`speedate_datetime_lines`]; the parser 3 is
/// out of range.
#[unsafe(no_mangle)]
pub extern "C" fn speedate_date_lines(
    text: &[u8],
    config: SpeedateConfig,
    column: SpeedateColumnConfig,
    out: &mut [i32],
    errors: &mut [u8],
    progress: &mut SpeedateProgress,
) -> i32
    ensures answer { MatchOption (chosen_for_dates config column)
        ((result ≡ config_out_of_range) × (out.new ≡ out.old) × (errors.new ≡ errors.old)
        × (progress.new ≡ progress.old))
        (λ chosen. (result ≡ success) × IsColumn chosen.1 chosen.0 least_of_32_bits text.now
        out.old out.new errors.old errors.new progress.new) }
{
    let config = config_or_return!(config.to_date_config());
    let choices = config_or_return!(column.to_choices());
    let reader = config_or_return!(choices.date_reader(config));
    let kind = choices.parser.date_kind();
    write_column(
        text,
        &choices,
        &reader,
        kind,
        i32::MIN,
        out,
        errors,
        progress,
    )
}

/// Prints days since 1970-01-01 as dates, a line for each, as [`print_column`] does by a
/// [`DatePrinter`]: `1970-01-02` for 1. `CONFIG_OUT_OF_RANGE` for other flags than 0.
///
/// A number without a line does not make the call fail: it ends the text, and the progress has the
/// code of its error.
#[unsafe(no_mangle)]
pub extern "C" fn speedate_date_print_column(
    days: &[i32],
    flags: u32,
    buffer: &mut [u8],
    progress: &mut SpeedateProgress,
) -> i32
    ensures answer { (result, buffer.new, progress.new)
        ≡ if flags == 0 then written_lines date_line days.now buffer.old
        else (config_out_of_range, buffer.old, progress.old) }
{
    match flags {
        0 => write_lines(days, &DatePrinter, buffer, progress),
        _ => CONFIG_OUT_OF_RANGE,
    }
}
