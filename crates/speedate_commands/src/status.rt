//! With which status a run ends, which bad values it tells, and which files are one.

ghost use Rattle.std.specs.Prelude.{◌≡◌};
ghost use Rattle.speedate_commands.specs.Status.{are_one, file_status, is_due, lines_status, worse};

use speedate_stream::run::RunError;

/// The status of a run in which a value was bad, was out of order or came after a gap, or a file had no value.
pub const BAD: u8 = 1;

/// The status of a command line that is refused, and of a run whose first value did not fit the bounds.
pub const USAGE: u8 = 2;

/// The status of a run of which a file could not be read.
pub const READ: u8 = 3;

/// The status of a run of which a write failed.
pub const WRITE: u8 = 4;

/// The status by the lines: by how many values were bad, by how many were reported as late or after a gap, and by whether
/// a total has too many days.
pub fn lines_status(bad: u64, reported: u64, is_too_large: bool) -> u8
    ensures status { result ≡ lines_status bad reported is_too_large }
{
    if bad > 0 || reported > 0 || is_too_large {
        BAD
    } else {
        0
    }
}

/// The status by a file: by which end failed, if one did, and by whether no line of the file has a value.
pub fn file_status(ended: Result<(), RunError>, is_without_value: bool) -> u8
    ensures status { result ≡ file_status ended is_without_value }
{
    match ended {
        Ok(()) => { if is_without_value { BAD } else { 0 } }
        Err(RunError::Read) => READ,
        Err(RunError::Write) => WRITE,
    }
}

/// The larger of two statuses.
pub fn worse(one: u8, other: u8) -> u8
    ensures worse { result ≡ worse one other }
{
    if one < other { other } else { one }
}

/// Whether the report at an index is to be told: it is one of those of the bad values, and comes after those that were told.
pub fn is_due(index: u64, told: u64, bad: u64) -> bool
    ensures due { result ≡ is_due index told bad }
{
    told <= index && index < bad
}

/// Whether two files are one, by the number of the device of each, and its number on that device.
pub fn are_one(one: (u64, u64), other: (u64, u64)) -> bool
    ensures same { result ≡ are_one one other }
{
    one.0 == other.0 && one.1 == other.1
}
