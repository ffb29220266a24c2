//! Whole numbers as C sees them.

ghost use Rattle.std.specs.Prelude.{◌≡◌};
ghost use Rattle.speedate.specs.Numbers.{whole_number};
ghost use Rattle.speedate_c.specs.Written.{written_value, with_option};
ghost use Rattle.speedate_c.specs.Code.{invalid_integer};

use crate::code::{INVALID_INTEGER, SUCCESS};
use speedate::int_parse_bytes;

/// Parses a whole number from a text, as [`int_parse_bytes`] does: -12 from `-012`.
/// `INVALID_INTEGER` if the text is none, or one that does not fit 64 bits.
#[unsafe(no_mangle)]
pub extern "C" fn speedate_int_parse(text: &[u8], out: &mut i64) -> i32
    ensures answer { (result, out.new)
        ≡ with_option (whole_number text.now) (invalid_integer, out.old) written_value }
{
    let Some(number) = int_parse_bytes(text) else {
        return INVALID_INTEGER;
    };
    *out = number;
    SUCCESS
}
