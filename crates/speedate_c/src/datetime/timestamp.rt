//! Date-times from timestamps, and back, as C sees them.

ghost use Rattle.std.specs.Prelude.{◌≡◌, Ok, Some, pos};
ghost use Rattle.speedate.specs.Base.{TimestampUnit};
ghost use Rattle.speedate.specs.DateTime.{local_millisecond, local_second, utc_microsecond};
ghost use Rattle.speedate.specs.DateTime.{utc_millisecond, utc_second, date_time_timestamp_answer};
ghost use Rattle.speedate.specs.Requirement.{result_map};
ghost use Rattle.speedate_c.specs.Written.{written_answer, written_value, with_option, with_value};
ghost use Rattle.speedate_c.specs.Code.{config_out_of_range, success, value_out_of_range};
ghost use Rattle.speedate_c.specs.Config.{choices_of};
ghost use Rattle.speedate_c.specs.DateTime.{date_time_of, shown_date_time};

use super::{SpeedateDateTime, write_date_time};
use crate::code::{SUCCESS, fault_code};
use crate::config::SpeedateConfig;
use speedate::{DateTime, DateTimeConfig, TimeConfig, TimestampUnit, timestamp_microseconds};

/// The date-time of a timestamp, in the unit of the configuration, and further microseconds later,
/// with the offset of the configuration, as [`DateTime::from_timestamp_with_config`] gives it:
/// 1970-01-01T00:00:01.000002 for 1 second and 2 microseconds. The offset is attached and shifts
/// nothing.
///
/// The errors are that call's; `CONFIG_OUT_OF_RANGE` comes first.
#[unsafe(no_mangle)]
pub extern "C" fn speedate_datetime_of_timestamp(
    timestamp: i64,
    microsecond: u32,
    config: SpeedateConfig,
    out: &mut SpeedateDateTime,
) -> i32
    ensures answer { (result, out.new)
        ≡ with_option (choices_of config) (config_out_of_range, out.old)
        (λ config. written_answer shown_date_time out.old
        (date_time_timestamp_answer config.unit config.offset microsecond timestamp)) }
{
    let config = config_or_return!(config.to_config());
    let answer = DateTime::from_timestamp_with_config(timestamp, microsecond, &config);
    write_date_time(answer, out)
}

/// The date-time in UTC so many microseconds after 1970-01-01T00:00:00Z, as
/// [`DateTime::from_timestamp_with_config`] gives it: 1970-01-01T00:00:01.500000Z for 1,500,000. It inverts
/// [`speedate_datetime_unix_microseconds`].
///
/// `DateTooSmall` before the year 0000, `DateTooLarge` after the year 9999.
#[unsafe(no_mangle)]
pub extern "C" fn speedate_datetime_from_unix_microseconds(
    microseconds: i64,
    out: &mut SpeedateDateTime,
) -> i32
    ensures answer { (result, out.new) ≡ written_answer shown_date_time out.old
        (date_time_timestamp_answer TimestampUnit.Microsecond (Some (pos 0)) 0 microseconds) }
    ensures leads_back { result ≡ success
        → result_map utc_microsecond (date_time_of out.new) ≡ Ok microseconds }
{
    let mut config = DateTimeConfig::default();
    config.timestamp_unit = TimestampUnit::Microsecond;
    config.time_config.unix_timestamp_offset = Some(0);
    match DateTime::from_timestamp_with_config(microseconds, 0, &config) {
        Ok(value) => {
            *out = SpeedateDateTime::from_value(&value);
            SUCCESS
        }
        Err(fault) => fault_code(fault),
    }
}

/// The microseconds since 1970-01-01T00:00:00 in UTC of the date-time of a timestamp, as
/// [`timestamp_microseconds`] gives them: 1,000,000 for 1 second.
///
/// The errors are that call's; `CONFIG_OUT_OF_RANGE` comes first.
#[unsafe(no_mangle)]
pub extern "C" fn speedate_datetime_timestamp_microseconds(
    timestamp: i64,
    config: SpeedateConfig,
    out: &mut i64,
) -> i32
    ensures answer { (result, out.new)
        ≡ with_option (choices_of config) (config_out_of_range, out.old)
        (λ config. written_answer utc_microsecond out.old
        (date_time_timestamp_answer config.unit config.offset 0 timestamp)) }
{
    let config = config_or_return!(config.to_config());
    match timestamp_microseconds(timestamp, &config) {
        Ok(number) => {
            *out = number;
            SUCCESS
        }
        Err(fault) => fault_code(fault),
    }
}

/// The second since 1970-01-01T00:00:00 that a clock at the offset shows, as
/// [`DateTime::timestamp`] gives it: 86,400 for 1970-01-02T00:00:00+01:00.
#[unsafe(no_mangle)]
pub extern "C" fn speedate_datetime_clock_seconds(value: SpeedateDateTime, out: &mut i64) -> i32
    ensures answer { (result, out.new)
        ≡ with_value (date_time_of value) (value_out_of_range, out.old)
        (λ value. written_value (local_second value)) }
{
    write_of!(value => *out = value.timestamp())
}

/// The millisecond since 1970-01-01T00:00:00 that a clock at the offset shows, as
/// [`DateTime::timestamp_ms`] gives it: 86,400,123 for 1970-01-02T00:00:00.123+01:00.
#[unsafe(no_mangle)]
pub extern "C" fn speedate_datetime_clock_milliseconds(
    value: SpeedateDateTime,
    out: &mut i64,
) -> i32
    ensures answer { (result, out.new)
        ≡ with_value (date_time_of value) (value_out_of_range, out.old)
        (λ value. written_value (local_millisecond value)) }
{
    write_of!(value => *out = value.timestamp_ms())
}

/// The second since 1970-01-01T00:00:00 in UTC, as [`DateTime::timestamp_tz`] gives it: 82,800 for
/// 1970-01-02T00:00:00+01:00.
#[unsafe(no_mangle)]
pub extern "C" fn speedate_datetime_unix_seconds(value: SpeedateDateTime, out: &mut i64) -> i32
    ensures answer { (result, out.new)
        ≡ with_value (date_time_of value) (value_out_of_range, out.old)
        (λ value. written_value (utc_second value)) }
{
    write_of!(value => *out = value.timestamp_tz())
}

/// The millisecond since 1970-01-01T00:00:00 in UTC, as [`DateTime::timestamp_tz_ms`] gives it:
/// 82,800,123 for 1970-01-02T00:00:00.123+01:00.
#[unsafe(no_mangle)]
pub extern "C" fn speedate_datetime_unix_milliseconds(value: SpeedateDateTime, out: &mut i64) -> i32
    ensures answer { (result, out.new)
        ≡ with_value (date_time_of value) (value_out_of_range, out.old)
        (λ value. written_value (utc_millisecond value)) }
{
    write_of!(value => *out = value.timestamp_tz_ms())
}

/// The microsecond since 1970-01-01T00:00:00 in UTC, as [`DateTime::timestamp_tz_us`] gives it:
/// 82,800,123,456 for 1970-01-02T00:00:00.123456+01:00.
#[unsafe(no_mangle)]
pub extern "C" fn speedate_datetime_unix_microseconds(value: SpeedateDateTime, out: &mut i64) -> i32
    ensures answer { (result, out.new)
        ≡ with_value (date_time_of value) (value_out_of_range, out.old)
        (λ value. written_value (utc_microsecond value)) }
{
    write_of!(value => *out = value.timestamp_tz_us())
}
