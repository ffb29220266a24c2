//! Columns of durations as C sees them.

ghost use Rattle.std.specs.Prelude.{MatchOption, if◌then◌else◌, ◌==◌, ◌≡◌};
ghost use Rattle.speedate.specs.Column.{duration_number, duration_place};
ghost use Rattle.speedate.specs.Config.{choices};
ghost use Rattle.speedate_c.specs.Code.{config_out_of_range, success};
ghost use Rattle.speedate_c.specs.Column.{IsColumn, chosen_for_durations};
ghost use Rattle.speedate_c.specs.Column.{duration_number_by, duration_place_by, written_lines};
ghost use Rattle.speedate.specs.ColumnText.{duration_line, least_of_64_bits};

use super::{SpeedateColumnConfig, SpeedateProgress, write_column, write_lines};
use crate::code::CONFIG_OUT_OF_RANGE;
use crate::config::SpeedateConfig;
use speedate::{CallKind, DateTimeConfig, DurationPrinter, DurationReader};

/// The reader of durations.
#[inline(always)]
pub(super) fn duration_reader(config: &DateTimeConfig) -> DurationReader
    ensures reads { duration_number result ≡ duration_number_by (choices config.now) }
    ensures places { duration_place result ≡ duration_place_by (choices config.now) }
{
    DurationReader {
        config: config.time_config,
    }
}

/// Reads the lines of a text as durations, and writes their microseconds, with the sign, as
/// [`read_column`] does by a [`DurationReader`]: -1,500,000 for `-PT1.5S`.
///
/// `CONFIG_OUT_OF_RANGE` and refused lines are as in [`speedate_datetime_lines`].
#[unsafe(no_mangle)]
pub extern "C" fn speedate_duration_lines(
    text: &[u8],
    config: SpeedateConfig,
    column: SpeedateColumnConfig,
    out: &mut [i64],
    errors: &mut [u8],
    progress: &mut SpeedateProgress,
) -> i32
    ensures answer { MatchOption (chosen_for_durations config column)
        ((result ≡ config_out_of_range) × (out.new ≡ out.old) × (errors.new ≡ errors.old)
        × (progress.new ≡ progress.old))
        (λ chosen. (result ≡ success) × IsColumn chosen.1 chosen.0 least_of_64_bits text.now
        out.old out.new errors.old errors.new progress.new) }
{
    let config = config_or_return!(config.to_config());
    let choices = config_or_return!(column.to_choices());
    let reader = duration_reader(&config);
    write_column(
        text,
        &choices,
        &reader,
        CallKind::Duration,
        i64::MIN,
        out,
        errors,
        progress,
    )
}

/// Prints microseconds as durations, a line for each, as [`print_column`] does by a
/// [`DurationPrinter`]: `-PT1.5S` for -1,500,000. Each number has a line.
#[unsafe(no_mangle)]
pub extern "C" fn speedate_duration_print_column(
    microseconds: &[i64],
    flags: u32,
    buffer: &mut [u8],
    progress: &mut SpeedateProgress,
) -> i32
    ensures answer { (result, buffer.new, progress.new)
        ≡ if flags == 0 then written_lines duration_line microseconds.now buffer.old
        else (config_out_of_range, buffer.old, progress.old) }
{
    match flags {
        0 => write_lines(microseconds, &DurationPrinter, buffer, progress),
        _ => CONFIG_OUT_OF_RANGE,
    }
}
