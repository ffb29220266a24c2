//! Parts of texts that are refused, as C sees them.

ghost use Rattle.std.specs.Prelude.{◌≡◌, Some, length};
ghost use Rattle.speedate.specs.Requirement.{result_map};
ghost use Rattle.speedate_c.specs.Code.{fault_code, fault_of, kind_number};
ghost use Rattle.speedate_c.specs.Written.{part_at};

use crate::code::{fault_code, kind_number};
use speedate::{CallKind, Refused};

/// The part of a text for which it is refused.
#[repr(C)]
#[derive(Clone, Copy)]
pub struct SpeedatePart {
    /// The byte at which it begins, or would begin: the place of the error.
    pub start: usize,
    /// The byte at which it ends: the same if nothing is there. In an accepted text, where the value ends.
    pub end: usize,
    /// The number of the kind of the call that refused the text: 0 if no text is refused.
    pub kind: i32,
}

/// What a call writes if it refuses no text.
pub(crate) const NO_PART: SpeedatePart = SpeedatePart {
    start: 0,
    end: 0,
    kind: 0,
};

/// Writes the part for which a call of a kind refuses a text, and gives the code.
pub(crate) fn write_part(
    refused: Refused,
    kind: CallKind,
    text: &[u8],
    part: &mut SpeedatePart,
) -> i32
    ensures code { result ≡ fault_code refused.fault }
    ensures part { part.new ≡ part_at refused.fault kind text.now refused.place }
    ensures reads_back { fault_of result ≡ Some refused.fault }
{
    *part = SpeedatePart {
        start: refused.place,
        end: refused.fault.part_end(text, refused.place),
        kind: kind_number(kind),
    };
    fault_code(refused.fault)
}

/// What a parser of whole texts read, with the size of its text.
#[inline(always)]
pub(crate) fn whole<T: Copy>(value: Result<T, Refused>, text: &[u8]) -> Result<(T, usize), Refused>
    ensures whole { result ≡ result_map (λ value. (value, length text.now)) value }
{
    match value {
        Ok(value) => Ok((value, text.len())),
        Err(refused) => Err(refused),
    }
}
