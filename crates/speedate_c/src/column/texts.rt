//! Columns of texts that offsets cut out of the same bytes, as C sees them.

ghost use Rattle.std.specs.Prelude.{◌≡◌, MatchOption};
ghost use Rattle.speedate.specs.ColumnText.{least_of_32_bits, least_of_64_bits};
ghost use Rattle.speedate.specs.Config.{choices};
ghost use Rattle.speedate_c.specs.Code.{config_out_of_range};
ghost use Rattle.speedate_c.specs.Column.{chosen_for_date_times, chosen_for_dates};
ghost use Rattle.speedate_c.specs.Column.{chosen_for_durations, chosen_for_times};
ghost use Rattle.speedate_c.specs.Column.{date_time_call, date_time_number_by};
ghost use Rattle.speedate_c.specs.Texts.{IsTextsCall};

use super::duration::duration_reader;
use super::{ColumnChoices, SpeedateColumnConfig, SpeedateProgress, ended_part};
use crate::code::{SUCCESS, VALUE_OUT_OF_RANGE};
use crate::config::SpeedateConfig;
use speedate::{CallKind, DateTimeConfig, LineReader, TimeReader, read_texts};

/// Reads a column of texts, and writes how far it has come, and the number of each text's error too if there
/// is a place for one, and gives the code. A refused text has the number `refused_number`, and the parser is
/// of a kind.
#[inline(always)]
fn write_texts<R: LineReader>(
    bytes: &[u8],
    offsets: &[i32],
    column: &ColumnChoices,
    reader: &R,
    kind: CallKind,
    refused_number: R::Number,
    out: &mut [R::Number],
    errors: &mut [u8],
    progress: &mut SpeedateProgress,
) -> i32
    ensures texts { IsTextsCall
        (record { answer = R.answer reader.now; place = R.place reader.now; kind = kind })
        column.now refused_number bytes.now offsets.now out.old out.new errors.old errors.new
        progress.old progress.new result }
{
    let goes_on = column.goes_on || !errors.is_empty();
    let refused = goes_on.then_some(refused_number);
    match read_texts(bytes, offsets, reader, refused, out, errors) {
        Some(read) => {
            let part = ended_part(&read, kind);
            *progress = SpeedateProgress::from_progress(read, part);
            SUCCESS
        }
        None => VALUE_OUT_OF_RANGE,
    }
}

/// Reads a column of date-times.
#[inline(always)]
fn write_instants(
    bytes: &[u8],
    offsets: &[i32],
    config: &DateTimeConfig,
    column: &ColumnChoices,
    out: &mut [i64],
    errors: &mut [u8],
    progress: &mut SpeedateProgress,
) -> i32
    ensures texts { IsTextsCall
        (date_time_call (date_time_number_by (choices config.now) column.now) (choices config.now)
        column.now.parser) column.now least_of_64_bits bytes.now offsets.now out.old out.new
        errors.old errors.new progress.old progress.new result }
{
    let reader = column.date_time_reader(config);
    let kind = column.parser.date_time_kind();
    write_texts(
        bytes,
        offsets,
        column,
        &reader,
        kind,
        i64::MIN,
        out,
        errors,
        progress,
    )
}

/// Reads texts as dates, and writes their days since 1970-01-01, as [`read_texts`] does by a
/// [`DateReader`](speedate::DateReader): 1 for `1970-01-02`.
///
/// Errors are as in [`speedate_datetime_texts`].
#[unsafe(no_mangle)]
pub extern "C" fn speedate_date_texts(
    bytes: &[u8],
    offsets: &[i32],
    config: SpeedateConfig,
    column: SpeedateColumnConfig,
    out: &mut [i32],
    errors: &mut [u8],
    progress: &mut SpeedateProgress,
) -> i32
    ensures answer { MatchOption (chosen_for_dates config column)
        ((result ≡ config_out_of_range) × (out.new ≡ out.old) × (errors.new ≡ errors.old)
        × (progress.new ≡ progress.old))
        (λ chosen. IsTextsCall chosen.1 chosen.0 least_of_32_bits bytes.now offsets.now
        out.old out.new errors.old errors.new progress.old progress.new result) }
{
    let config = config_or_return!(config.to_date_config());
    let choices = config_or_return!(column.to_choices());
    let reader = config_or_return!(choices.date_reader(config));
    let kind = choices.parser.date_kind();
    write_texts(
        bytes,
        offsets,
        &choices,
        &reader,
        kind,
        i32::MIN,
        out,
        errors,
        progress,
    )
}

/// Reads texts as date-times, and writes their microseconds since 1970-01-01T00:00:00 in UTC, as
/// [`read_texts`] does by a [`DateTimeReader`](speedate::DateTimeReader): 1,000,000 for
/// `1970-01-01T00:00:01Z`.
///
/// `CONFIG_OUT_OF_RANGE` if a number of either configuration is out of range, and `VALUE_OUT_OF_RANGE` if
/// an offset is negative, less than the one before it, or beyond the bytes; then nothing is changed. A
/// refused text is not a failure of the call: if it ends the column, the progress has the code of
/// its error, and the part of the text that the error is about. `at_end` and `drops_returns` do nothing.
#[unsafe(no_mangle)]
pub extern "C" fn speedate_datetime_texts(
    bytes: &[u8],
    offsets: &[i32],
    config: SpeedateConfig,
    column: SpeedateColumnConfig,
    out: &mut [i64],
    errors: &mut [u8],
    progress: &mut SpeedateProgress,
) -> i32
    ensures answer { MatchOption (chosen_for_date_times config column)
        ((result ≡ config_out_of_range) × (out.new ≡ out.old) × (errors.new ≡ errors.old)
        × (progress.new ≡ progress.old))
        (λ chosen. IsTextsCall chosen.1 chosen.0 least_of_64_bits bytes.now offsets.now
        out.old out.new errors.old errors.new progress.old progress.new result) }
{
    let config = config_or_return!(config.to_config());
    let choices = config_or_return!(column.to_choices());
    write_instants(bytes, offsets, &config, &choices, out, errors, progress)
}

/// Reads texts as times, and writes the microseconds after midnight that their clocks show, whatever the
/// offset, as [`read_texts`] does by a [`TimeReader`]: 43,994,500,000 for `12:13:14.5`.
///
/// Errors are as in [`speedate_datetime_texts`]; the parsers 1 and 3 are out of range.
#[unsafe(no_mangle)]
pub extern "C" fn speedate_time_texts(
    bytes: &[u8],
    offsets: &[i32],
    config: SpeedateConfig,
    column: SpeedateColumnConfig,
    out: &mut [i64],
    errors: &mut [u8],
    progress: &mut SpeedateProgress,
) -> i32
    ensures answer { MatchOption (chosen_for_times config column)
        ((result ≡ config_out_of_range) × (out.new ≡ out.old) × (errors.new ≡ errors.old)
        × (progress.new ≡ progress.old))
        (λ chosen. IsTextsCall chosen.1 chosen.0 least_of_64_bits bytes.now offsets.now
        out.old out.new errors.old errors.new progress.old progress.new result) }
{
    let config = config_or_return!(config.to_config());
    let choices = config_or_return!(column.to_choices());
    let parser = config_or_return!(choices.time_parser(&config));
    let reader = TimeReader { parser };
    let kind = choices.parser.time_kind();
    write_texts(
        bytes,
        offsets,
        &choices,
        &reader,
        kind,
        i64::MIN,
        out,
        errors,
        progress,
    )
}

/// Reads texts as durations, and writes their microseconds, with the sign, as [`read_texts`] does by a
/// [`DurationReader`](speedate::DurationReader): -1,500,000 for `-PT1.5S`.
///
/// Errors are as in [`speedate_datetime_texts`].
#[unsafe(no_mangle)]
pub extern "C" fn speedate_duration_texts(
    bytes: &[u8],
    offsets: &[i32],
    config: SpeedateConfig,
    column: SpeedateColumnConfig,
    out: &mut [i64],
    errors: &mut [u8],
    progress: &mut SpeedateProgress,
) -> i32
    ensures answer { MatchOption (chosen_for_durations config column)
        ((result ≡ config_out_of_range) × (out.new ≡ out.old) × (errors.new ≡ errors.old)
        × (progress.new ≡ progress.old))
        (λ chosen. IsTextsCall chosen.1 chosen.0 least_of_64_bits bytes.now offsets.now
        out.old out.new errors.old errors.new progress.old progress.new result) }
{
    let config = config_or_return!(config.to_config());
    let choices = config_or_return!(column.to_choices());
    let reader = duration_reader(&config);
    write_texts(
        bytes,
        offsets,
        &choices,
        &reader,
        CallKind::Duration,
        i64::MIN,
        out,
        errors,
        progress,
    )
}
