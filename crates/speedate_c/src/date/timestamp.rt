//! Dates from timestamps, and back, as C sees them.

ghost use Rattle.std.specs.Prelude.{◌≡◌, slice_get};
ghost use Rattle.speedate.specs.Date.{date_timestamp_answer};
ghost use Rattle.speedate.specs.Calendar.{midnight_millisecond, midnight_second};
ghost use Rattle.speedate_c.specs.Written.{written_answer, written_value, with_option, with_value};
ghost use Rattle.speedate_c.specs.Code.{config_out_of_range, value_out_of_range};
ghost use Rattle.speedate_c.specs.Config.{choices_of, flags};
ghost use Rattle.speedate_c.specs.Date.{date_of, shown_date};

use super::{SpeedateDate, write_date};
use crate::code::VALUE_OUT_OF_RANGE;
use crate::config::{SpeedateConfig, flag};
use speedate::Date;

/// The date of a timestamp in the unit of the configuration, as [`Date::from_timestamp`] gives it:
/// 1970-01-02 for 86,400 seconds. Where `require_exact` is 1 the timestamp has to be a midnight.
///
/// `CONFIG_OUT_OF_RANGE` comes before `VALUE_OUT_OF_RANGE`, for a `require_exact` that is neither 0
/// nor 1, and before the errors of that call.
#[unsafe(no_mangle)]
pub extern "C" fn speedate_date_from_timestamp(
    timestamp: i64,
    require_exact: u8,
    config: SpeedateConfig,
    out: &mut SpeedateDate,
) -> i32
    ensures answer { (result, out.new)
        ≡ with_option (choices_of config) (config_out_of_range, out.old)
        (λ config. with_option (slice_get flags require_exact) (value_out_of_range, out.old)
        (λ exact. written_answer shown_date out.old
        (date_timestamp_answer config.unit exact timestamp))) }
{
    let config = config_or_return!(config.to_date_config());
    let Some(exact) = flag(require_exact) else {
        return VALUE_OUT_OF_RANGE;
    };
    write_date(Date::from_timestamp(timestamp, exact, &config), out)
}

/// The second at which a date begins, as [`Date::timestamp`] gives it: 86,400 for 1970-01-02.
#[unsafe(no_mangle)]
pub extern "C" fn speedate_date_timestamp(date: SpeedateDate, out: &mut i64) -> i32
    ensures answer { (result, out.new) ≡ with_value (date_of date) (value_out_of_range, out.old)
        (λ date. written_value (midnight_second date)) }
{
    write_of!(date => *out = date.timestamp())
}

/// The millisecond at which a date begins, as [`Date::timestamp_ms`] gives it: 86,400,000 for
/// 1970-01-02.
#[unsafe(no_mangle)]
pub extern "C" fn speedate_date_timestamp_ms(date: SpeedateDate, out: &mut i64) -> i32
    ensures answer { (result, out.new) ≡ with_value (date_of date) (value_out_of_range, out.old)
        (λ date. written_value (midnight_millisecond date)) }
{
    write_of!(date => *out = date.timestamp_ms())
}
