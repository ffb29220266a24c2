//! The range of an offset from UTC.

ghost use Rattle.std.specs.Prelude.{◌≡◌, IfOk, Ok};
ghost use Rattle.std.specs.Option.{ForSome};
ghost use Rattle.speedate_base.specs.Offset.{IsOffset, offset_table};
ghost use Rattle.speedate_base.specs.Requirement.{first_fault_or};

use crate::faults::ParseError;
use crate::util::SECONDS_PER_DAY;

/// Refuses an offset of 24 hours or more, in seconds, east or west of UTC: it fails with `OutOfRangeTz`
/// for `Some(86_400)` and `Some(i32::MIN)`. If there is no offset, there is nothing to refuse.
#[inline]
pub fn require_offset(offset: Option<i32>) -> Result<(), ParseError>
    ensures answer { result ≡ first_fault_or (offset_table offset) (Ok tt) }
    ensures range { IfOk result (λ _. ForSome offset IsOffset) }
{
    match offset {
        Some(seconds) if seconds.unsigned_abs() >= SECONDS_PER_DAY => Err(ParseError::OutOfRangeTz),
        _ => Ok(()),
    }
}
