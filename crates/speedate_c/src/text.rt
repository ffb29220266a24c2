//! Texts in buffers of the caller's, and what is said of codes.

ghost use Rattle.std.specs.Prelude.{◌≡◌, ◌≢◌, ◌+◌, ◌<◌, ◌≤◌, ◌∷◌, ◌++◌, drop, length};
ghost use Rattle.speedate.specs.Part.{part_end};
ghost use Rattle.speedate_c.specs.Written.{written_text, written_value, with_option};
ghost use Rattle.speedate_c.specs.Code.{buffer_too_small, call_kind_of, code_expected, code_row};
ghost use Rattle.speedate_c.specs.Code.{fault_of, success, value_out_of_range};

use crate::code::{
    BUFFER_TOO_SMALL, SUCCESS, VALUE_OUT_OF_RANGE, call_kind_of, code_expected, code_row, fault_of,
};
use crate::part::SpeedatePart;

/// Writes a text and a zero byte after it into a buffer, and its length beside it, and gives the
/// code.
#[inline(always)]
pub(crate) fn write_text(text: &str, buffer: &mut [u8], text_length: &mut usize) -> i32
    ensures after { (result, buffer.new, text_length.new)
        ≡ written_text text.now buffer.old text_length.old }
    ensures room { length text.now < length buffer.old → result ≡ success }
{
    let size = text.len();
    if size >= buffer.len() {
        return BUFFER_TOO_SMALL;
    }
    fill(text, buffer);
    *text_length = size;
    SUCCESS
}

/// Writes a text and a zero byte at the front of a buffer.
#[inline(always)]
fn fill(text: &str, buffer: &mut [u8])
    requires room { length text.now < length buffer.old }
    ensures front { buffer.new ≡ text.now ++ 0 ∷ drop (length text.now + 1) buffer.old }
{
    let size = text.len();
    buffer[..size].copy_from_slice(text.as_bytes());
    buffer[size] = 0;
}

/// Prints the name of a code: `too_short` for 1, `ok` for 0.
///
/// `VALUE_OUT_OF_RANGE` for a number that is not a code, `BUFFER_TOO_SMALL` if the buffer lacks
/// room for the name and a zero byte.
#[unsafe(no_mangle)]
pub extern "C" fn speedate_code_name(code: i32, buffer: &mut [u8], text_length: &mut usize) -> i32
    ensures answer { (result, buffer.new, text_length.new)
        ≡ with_option (code_row code) (value_out_of_range, buffer.old, text_length.old)
        (λ row. written_text row.0 buffer.old text_length.old) }
    ensures room { 64 ≤ length buffer.old → result ≢ buffer_too_small }
{
    let Some((name, _)) = code_row(code) else {
        return VALUE_OUT_OF_RANGE;
    };
    write_text(name, buffer, text_length)
}

/// Prints the documentation text of a code: `input is too short` for 1.
///
/// The refusals are as in [`speedate_code_name`].
#[unsafe(no_mangle)]
pub extern "C" fn speedate_code_documentation(
    code: i32,
    buffer: &mut [u8],
    text_length: &mut usize,
) -> i32
    ensures answer { (result, buffer.new, text_length.new)
        ≡ with_option (code_row code) (value_out_of_range, buffer.old, text_length.old)
        (λ row. written_text row.1 buffer.old text_length.old) }
    ensures room { 64 ≤ length buffer.old → result ≢ buffer_too_small }
{
    let Some((_, documentation)) = code_row(code) else {
        return VALUE_OUT_OF_RANGE;
    };
    write_text(documentation, buffer, text_length)
}

/// Prints what a call expected that gave a code and wrote a part, for people: `month, 01 to 12` for 21. The
/// part has the kind of the call; its place and its end do not matter.
///
/// The refusals are as in [`speedate_code_name`], and `VALUE_OUT_OF_RANGE` for 0 and for another
/// kind.
#[unsafe(no_mangle)]
pub extern "C" fn speedate_code_expected(
    code: i32,
    part: &SpeedatePart,
    buffer: &mut [u8],
    text_length: &mut usize,
) -> i32
    ensures answer { (result, buffer.new, text_length.new)
        ≡ with_option (call_kind_of part.now.kind) (value_out_of_range, buffer.old, text_length.old)
        (λ kind. with_option (code_expected code kind)
        (value_out_of_range, buffer.old, text_length.old)
        (λ text. written_text text buffer.old text_length.old)) }
    ensures room { 64 ≤ length buffer.old → result ≢ buffer_too_small }
{
    let Some(kind) = call_kind_of(part.kind) else {
        return VALUE_OUT_OF_RANGE;
    };
    let Some(text) = code_expected(code, kind) else {
        return VALUE_OUT_OF_RANGE;
    };
    write_text(text, buffer, text_length)
}

/// Writes where the part ends that an error is about, as [`ParseError::part_end`] gives it, in the text
/// that is refused with this code at this place: 7 for 21, `2020-13-01` and place 5.
///
/// `VALUE_OUT_OF_RANGE` for a number that is not an error of the library.
#[unsafe(no_mangle)]
pub extern "C" fn speedate_code_part_end(
    code: i32,
    text: &[u8],
    place: usize,
    end: &mut usize,
) -> i32
    ensures answer { (result, end.new) ≡ with_option (fault_of code) (value_out_of_range, end.old)
        (λ fault. written_value (part_end fault text.now place)) }
{
    let Some(fault) = fault_of(code) else {
        return VALUE_OUT_OF_RANGE;
    };
    *end = fault.part_end(text, place);
    SUCCESS
}
