//! Times of day from timestamps, as C sees them.

ghost use Rattle.std.specs.Prelude.{◌≡◌};
ghost use Rattle.speedate.specs.Time.{timestamp_answer};
ghost use Rattle.speedate_c.specs.Written.{written_answer, with_option};
ghost use Rattle.speedate_c.specs.Code.{config_out_of_range};
ghost use Rattle.speedate_c.specs.Config.{choices_of};
ghost use Rattle.speedate_c.specs.Time.{shown_time};

use super::{SpeedateTime, write_time};
use crate::config::SpeedateConfig;
use speedate::Time;

/// The time of the seconds and microseconds after midnight, with the offset of the configuration,
/// as [`Time::from_timestamp_with_config`] gives it: 10:00:06.5 for 36,005 and 1,500,000.
///
/// The errors are that call's; `CONFIG_OUT_OF_RANGE` comes first.
#[unsafe(no_mangle)]
pub extern "C" fn speedate_time_from_timestamp(
    second: u32,
    microsecond: u32,
    config: SpeedateConfig,
    out: &mut SpeedateTime,
) -> i32
    ensures answer { (result, out.new)
        ≡ with_option (choices_of config) (config_out_of_range, out.old)
        (λ config. written_answer shown_time out.old
        (timestamp_answer second microsecond config.offset)) }
{
    let config = config_or_return!(config.to_config());
    let time = Time::from_timestamp_with_config(second, microsecond, &config.time_config);
    write_time(time, out)
}
