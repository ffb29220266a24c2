//! Timestamps as columns have them.

ghost use Rattle.std.specs.Prelude.{◌≡◌};
ghost use Rattle.speedate_base.specs.Config.{choices};
ghost use Rattle.speedate_base.specs.Requirement.{result_map};
ghost use Rattle.speedate_civil.specs.DateTime.{date_time_timestamp_answer, utc_microsecond};

use super::date_time::timestamp_number;
use speedate_base::config::DateTimeConfig;
use speedate_base::faults::ParseError;
use speedate_base::util::timestamp_to_seconds_micros;

/// The microseconds from 1970-01-01T00:00:00 in UTC to the date-time of a timestamp, without the
/// calendar: 1,000,000 for 1 and seconds, and -3,599,000,000 at the offset 3,600. It is what
/// [`DateTime::timestamp_tz_us`](crate::DateTime::timestamp_tz_us) gives of
/// [`DateTime::from_timestamp_with_config`](crate::DateTime::from_timestamp_with_config), and without
/// an offset the date-time is taken to be in UTC.
///
/// # Errors
///
/// Those of that call: `DateTooSmall` before the year 0000, `DateTooLarge` after the year 9999.
#[inline(always)]
pub fn timestamp_microseconds(timestamp: i64, config: &DateTimeConfig) -> Result<i64, ParseError>
    ensures answer { result ≡ result_map utc_microsecond (date_time_timestamp_answer
        (choices config.now).unit (choices config.now).offset 0 timestamp) }
{
    let time = timestamp_to_seconds_micros(timestamp, config.timestamp_unit)?;
    let later = time.checked_add_microseconds(0)?;
    let within = later.in_years()?;
    Ok(timestamp_number(within, config.time_config.unix_timestamp_offset))
}
