//! The text of a column.

ghost use Rattle.std.specs.Prelude.{◌≡◌, ◌≤◌, ◌<◌, ◌+◌, ◌++◌, ◌∷◌, ℕ, List, Result, Some, drop, length, take};
ghost use Rattle.speedate_base.specs.Ascii.{line_feed};
ghost use Rattle.speedate.specs.declared.column.LineConfig.{LineConfig};
ghost use Rattle.speedate.specs.declared.column.LineError.{LineError};
ghost use Rattle.speedate.specs.Column.{text_column};
ghost use Rattle.speedate.specs.ColumnText.{column_text};

use super::{LINE_MAX, LinePrinter, Progress};
use arrayvec::ArrayString;

/// Prints numbers as lines, in order, each with a line feed, as many as `out` has room for, and returns how
/// far it came: `1970-01-02\n1970-01-03\n`, 2 lines and 22 bytes, for 1, 2 and
/// [`DatePrinter`](crate::DatePrinter).
///
/// A number that has no line ends the text, and the progress has its error. If there is neither an error
/// nor a line for each number, the next line does not fit: the numbers after those that the progress counts
/// are left for a further call. [`read_column`](crate::read_column) reads the bytes that it counts as the
/// numbers that it counts. The other places of `out` stay as they are.
#[inline(never)]
pub fn print_column<P: LinePrinter>(numbers: &[P::Number], printer: &P, out: &mut [u8]) -> Progress
    ensures text { out.new
        ≡ (column_text (P.line printer.now) (length out.old) numbers.now).text
        ++ drop result.bytes out.old }
    ensures bytes { result.bytes
        ≡ length (column_text (P.line printer.now) (length out.old) numbers.now).text }
    ensures lines { result.lines
        ≡ (column_text (P.line printer.now) (length out.old) numbers.now).lines }
    ensures error { result.error
        ≡ (column_text (P.line printer.now) (length out.old) numbers.now).fault }
    ensures part { (result.place ≡ 0) × (result.end ≡ 0) }
    ensures within { result.lines ≤ length numbers.now }
    ensures reads_back { (answer : List ℕ → Result P.Number LineError) (refused : P.Number)
        (config : LineConfig) → P.leads_back printer.now answer refused
        → (text_column answer config (Some refused) (length numbers.now)
        (take result.bytes out.new)).numbers ≡ take result.lines numbers.now }
{
    let mut lines = 0;
    let mut bytes = 0;
    while lines < numbers.len() {
        let mut line = ArrayString::<LINE_MAX>::new();
        match printer.push_line(numbers[lines], &mut line) {
            Ok(()) => {}
            Err(error) => return Progress {
                lines,
                bytes,
                error: Some(error),
                place: 0,
                end: 0,
            },
        }
        let size = line.len();
        if size >= out.len() - bytes {
            return Progress {
                lines,
                bytes,
                error: None,
                place: 0,
                end: 0,
            };
        }
        put_line(line.as_str(), bytes, out);
        lines += 1;
        bytes += size + 1;
    }
    Progress {
        lines,
        bytes,
        error: None,
        place: 0,
        end: 0,
    }
}

/// Puts a line and a line feed at a place.
#[inline(always)]
fn put_line(line: &str, place: usize, out: &mut [u8])
    requires room { place + length line.now < length out.old }
    ensures put { out.new ≡ take place out.old
        ++ (line.now ++ line_feed ∷ drop (place + length line.now + 1) out.old) }
{
    let end = place + line.len();
    out[place..end].copy_from_slice(line.as_bytes());
    out[end] = b'\n';
}
