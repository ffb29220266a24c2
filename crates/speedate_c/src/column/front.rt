//! Columns of the date-times at the front of lines as C sees them.

ghost use Rattle.std.specs.Option.{option_map};
ghost use Rattle.std.specs.Prelude.{◌≡◌, MatchOption};
ghost use Rattle.speedate.specs.Config.{choices};
ghost use Rattle.speedate_c.specs.Code.{config_out_of_range, success};
ghost use Rattle.speedate_c.specs.Column.{IsColumn, chosen_for_fronts, front_call, front_call_by};
ghost use Rattle.speedate_c.specs.Column.{no_front};

use super::{ColumnChoices, LineParser, SpeedateColumnConfig, SpeedateProgress, write_column};
use crate::config::SpeedateConfig;
use speedate::{
    CallKind, DateTimeConfig, DateTimeFront as SpeedateDateTimeFront, DateTimeFrontReader,
};

/// What a refused line has in the column.
const NO_FRONT: SpeedateDateTimeFront = SpeedateDateTimeFront {
    microseconds: i64::MIN,
    size: 0,
};

impl ColumnChoices {
    /// The reader of the date-times at the front of lines, if the parser is one of these.
    #[inline(always)]
    fn front_reader(&self, config: &DateTimeConfig) -> Option<DateTimeFrontReader>
        ensures reads { option_map front_call result
            ≡ front_call_by (choices config.now).behavior self.now.assumes_utc self.now.parser }
    {
        match self.parser {
            LineParser::Text => Some(DateTimeFrontReader {
                config: config.time_config,
                assumes_utc: self.assumes_utc,
                is_loose: false,
            }),
            LineParser::Loose => Some(DateTimeFrontReader {
                config: config.time_config,
                assumes_utc: self.assumes_utc,
                is_loose: true,
            }),
            LineParser::OrTimestamp | LineParser::Strict => None,
        }
    }
}

/// Reads the lines of a text that begin with date-times, and writes the microseconds of each since
/// 1970-01-01T00:00:00 in UTC, and how many bytes of its line it takes, as [`read_column`] does by a
/// [`DateTimeFrontReader`]: 1,000,000 and 20 for `1970-01-01T00:00:01Z GET /`.
///
/// `CONFIG_OUT_OF_RANGE` and refused lines are as in [`speedate_datetime_lines`]; the parsers 1 and 2 are
/// out of range. The size of a refused line is 0.
#[unsafe(no_mangle)]
pub extern "C" fn speedate_datetime_front_lines(
    text: &[u8],
    config: SpeedateConfig,
    column: SpeedateColumnConfig,
    out: &mut [SpeedateDateTimeFront],
    errors: &mut [u8],
    progress: &mut SpeedateProgress,
) -> i32
    ensures answer { MatchOption (chosen_for_fronts config column)
        ((result ≡ config_out_of_range) × (out.new ≡ out.old) × (errors.new ≡ errors.old)
        × (progress.new ≡ progress.old))
        (λ chosen. (result ≡ success) × IsColumn chosen.1 chosen.0 no_front text.now
        out.old out.new errors.old errors.new progress.new) }
{
    let config = config_or_return!(config.to_config());
    let choices = config_or_return!(column.to_choices());
    let reader = config_or_return!(choices.front_reader(&config));
    write_column(
        text,
        &choices,
        &reader,
        CallKind::DateTime,
        NO_FRONT,
        out,
        errors,
        progress,
    )
}
