//! Units of time, and the instants of timestamps.

ghost use Rattle.std.specs.Prelude.{◌≡◌};
ghost use Rattle.speedate_base.specs.Requirement.{result_map};
ghost use Rattle.speedate_base.specs.Timestamp.{instant_answer, unix_instant};

mod decimal_timestamp;
mod rounding;
mod unix_time;

use crate::config::TimestampUnit;
use crate::faults::ParseError;
pub use decimal_timestamp::{decimal_to_seconds_micros, decimal_unit};
pub use rounding::{LARGEST_UNIT_MICROSECONDS, nearest_microseconds, twice_microseconds};
pub use unix_time::{FIRST_SECOND, LAST_SECOND, UnixTime, UnixUnit};

/// The seconds of a day.
pub const SECONDS_PER_DAY: u32 = 86_400;

/// The largest size of a timestamp that is in seconds if its unit is inferred.
const INFERRED_SECONDS_MAX: u64 = 20_000_000_000;

/// The instant of a timestamp, by its unit: second 1 and 500,000 microseconds for 1,500
/// milliseconds.
///
/// An inferred unit is seconds if the timestamp without its sign is at most 20,000,000,000, otherwise
/// milliseconds. Fails with `DateTooSmall` if the unit of `i64::MIN` is to be inferred. The instant may
/// lie outside the years 0000 to 9999.
pub fn timestamp_to_seconds_micros(
    timestamp: i64,
    unit: TimestampUnit,
) -> Result<UnixTime, ParseError>
    ensures answer { result_map unix_instant result ≡ instant_answer unit timestamp }
{
    match unit {
        TimestampUnit::Second => Ok(UnixTime::from_seconds(timestamp)),
        TimestampUnit::Microsecond => Ok(UnixTime::from_microseconds(timestamp)),
        TimestampUnit::Infer if timestamp.unsigned_abs() <= INFERRED_SECONDS_MAX => {
            Ok(UnixTime::from_seconds(timestamp))
        }
        TimestampUnit::Infer if timestamp == i64::MIN => Err(ParseError::DateTooSmall),
        TimestampUnit::Millisecond | TimestampUnit::Infer => {
            Ok(UnixTime::from_milliseconds(timestamp))
        }
    }
}
