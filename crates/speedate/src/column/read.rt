//! The column of a text.

ghost use Rattle.std.specs.Prelude.{◌≡◌, ◌≤◌, ◌++◌, [], IfSome, MatchOption, None, Some, drop, false, length, min, slice_set, take};
ghost use Rattle.speedate_base.specs.Lines.{unfinished_line, whole_lines};
ghost use Rattle.speedate.specs.Column.{HasNoEnd, IsFirstLine, IsFirstLineOf, entry, overwritten};
ghost use Rattle.speedate.specs.Column.{ended_part, text_column};

use super::{Line, LineConfig, LineError, LineReader, Progress};
use speedate_base::lines::{line_end, without_return};
use speedate_base::numbers::byte_at;

/// Reads the whole lines of a text as numbers, in order, as many as `out` has room for, and returns how
/// far it came: the days 1 and 2, and 22 bytes, for `b"1970-01-02\n1970-01-03\n"` and
/// [`DateReader::Text`](crate::DateReader).
///
/// The [lines](docs/GRAMMAR.md#columns) are those that `config` cuts. If `refused` is a number, a refused
/// line gets it, and the column goes on; otherwise it ends the column, and the progress has its error, and
/// the part of the line that the error is about.
/// What follows the bytes that the progress counts is left for a further call. The other places of
/// `out` stay as they are.
#[inline(always)]
pub fn read_column<R: LineReader>(
    text: &[u8],
    config: LineConfig,
    reader: &R,
    refused: Option<R::Number>,
    out: &mut [R::Number],
) -> Progress
    ensures numbers { out.new
        ≡ (text_column (R.answer reader.now) config refused (length out.old) text.now).numbers
        ++ drop result.lines out.old }
    ensures lines { result.lines ≡ length (text_column (R.answer reader.now) config refused
        (length out.old) text.now).numbers }
    ensures error { result.error ≡ (text_column (R.answer reader.now) config refused
        (length out.old) text.now).fault }
    ensures part { (result.place, result.end) ≡ ended_part (R.place reader.now) config
        result.error (drop result.lines (whole_lines config.at_end text.now)) }
    ensures within { result.bytes ≤ length text.now }
    ensures rest { whole_lines config.at_end (drop result.bytes text.now)
        ≡ drop result.lines (whole_lines config.at_end text.now) }
    ensures unfinished { config.at_end ≡ false
        → unfinished_line (drop result.bytes text.now) ≡ unfinished_line text.now }
{
    fill(text, config, reader, refused, out, &mut [])
}

/// Reads the whole lines of a text as numbers, as [`read_column`] does, and writes the number of the
/// error of each line too, by [`LineError::number`], or 0 for none: the days 1 and -1, and the errors 0
/// and 6, for `b"1970-01-02\nnever-ever\n"`, [`DateReader::Text`](crate::DateReader) and -1.
///
/// It reads as many lines as both slices have room for. A refused line gets the number `refused`, and
/// none ends the column.
#[inline(always)]
pub fn read_column_with_errors<R: LineReader>(
    text: &[u8],
    config: LineConfig,
    reader: &R,
    refused: R::Number,
    out: &mut [R::Number],
    errors: &mut [u8],
) -> Progress
    ensures numbers { out.new ≡ (text_column (R.answer reader.now) config (Some refused)
        (min (length out.old) (length errors.old)) text.now).numbers
        ++ drop result.lines out.old }
    ensures errors { errors.new ≡ (text_column (R.answer reader.now) config (Some refused)
        (min (length out.old) (length errors.old)) text.now).errors
        ++ drop result.lines errors.old }
    ensures lines { result.lines ≡ length (text_column (R.answer reader.now) config (Some refused)
        (min (length out.old) (length errors.old)) text.now).numbers }
    ensures error { result.error ≡ None }
    ensures part { (result.place ≡ 0) × (result.end ≡ 0) }
    ensures within { result.bytes ≤ length text.now }
    ensures rest { whole_lines config.at_end (drop result.bytes text.now)
        ≡ drop result.lines (whole_lines config.at_end text.now) }
    ensures unfinished { config.at_end ≡ false
        → unfinished_line (drop result.bytes text.now) ≡ unfinished_line text.now }
{
    let room = out.len().min(errors.len());
    fill(
        text,
        config,
        reader,
        Some(refused),
        &mut out[..room],
        &mut errors[..room],
    )
}

/// Reads the lines of a text as numbers, as many as there is room for, and the numbers of their errors,
/// where there is a place for them. It is not inlined, so that each reader's loop, with the parser in
/// it, is compiled once.
#[inline(never)]
fn fill<R: LineReader>(
    text: &[u8],
    config: LineConfig,
    reader: &R,
    refused: Option<R::Number>,
    out: &mut [R::Number],
    errors: &mut [u8],
) -> Progress
    ensures numbers { out.new ≡ overwritten out.old (text_column (R.answer reader.now) config
        refused (length out.old) text.now).numbers }
    ensures errors { errors.new ≡ overwritten errors.old (text_column (R.answer reader.now) config
        refused (length out.old) text.now).errors }
    ensures lines { result.lines ≡ length (text_column (R.answer reader.now) config refused
        (length out.old) text.now).numbers }
    ensures error { result.error ≡ (text_column (R.answer reader.now) config refused
        (length out.old) text.now).fault }
    ensures part { (result.place, result.end) ≡ ended_part (R.place reader.now) config
        result.error (drop result.lines (whole_lines config.at_end text.now)) }
    ensures within { result.bytes ≤ length text.now }
    ensures rest { whole_lines config.at_end (drop result.bytes text.now)
        ≡ drop result.lines (whole_lines config.at_end text.now) }
    ensures unfinished { config.at_end ≡ false
        → unfinished_line (drop result.bytes text.now) ≡ unfinished_line text.now }
{
    let mut lines = 0;
    let mut rest = text;
    while lines < out.len() {
        let Some(line) = first_line(rest, config, reader) else {
            return Progress {
                lines,
                bytes: text.len() - rest.len(),
                error: None,
                place: 0,
                end: 0,
            };
        };
        let (number, code) = match entry(line.answer, refused) {
            Ok(entry) => entry,
            Err(error) => {
                let (place, end) = refused_part(rest, config, reader, error);
                return Progress {
                    lines,
                    bytes: text.len() - rest.len(),
                    error: Some(error),
                    place,
                    end,
                };
            }
        };
        out[lines] = number;
        put(errors, lines, code);
        lines += 1;
        rest = &rest[line.size..];
    }
    Progress {
        lines,
        bytes: text.len() - rest.len(),
        error: None,
        place: 0,
        end: 0,
    }
}

/// The part of the first line of a text for which it is refused with an error. It is not inlined, so that
/// a reader's loop does not have the parser of places in it.
#[cold]
#[inline(never)]
fn refused_part<R: LineReader>(
    text: &[u8],
    config: LineConfig,
    reader: &R,
    error: LineError,
) -> (usize, usize)
    ensures part { result ≡ ended_part (R.place reader.now) config (Some error)
        (whole_lines config.at_end text.now) }
{
    match first_size(text, config) {
        Some((read, _)) => {
            let line = &text[..read];
            let place = reader.error_place(line);
            (place, error.part_end(line, place))
        }
        None => (0, 0),
    }
}

/// Puts the number of an error at its place, if there is one.
#[inline(always)]
#[tactic(auto, using(std::proofs::lemmas::List::set_past))]
pub(super) fn put(errors: &mut [u8], place: usize, number: u8)
    ensures put { errors.new ≡ slice_set errors.old place number }
{
    if place < errors.len() {
        errors[place] = number;
    }
}

/// The number and the error code that are stored for a line; the code is 0 if the line is accepted.
#[inline(always)]
pub(super) fn entry<N: Copy>(
    answer: Result<N, LineError>,
    refused: Option<N>,
) -> Result<(N, u8), LineError>
    ensures entry { result ≡ entry refused answer }
{
    match (answer, refused) {
        (Ok(number), _) => Ok((number, 0)),
        (Err(error), Some(number)) => Ok((number, error.number())),
        (Err(error), None) => Err(error),
    }
}

/// The first whole line of a text, if it has one. A line whose number its first bytes show is not searched
/// for its end.
#[inline(always)]
fn first_line<R: LineReader>(text: &[u8], config: LineConfig, reader: &R) -> Option<Line<R::Number>>
    ensures line { MatchOption result (whole_lines config.at_end text.now ≡ [])
        (IsFirstLine (R.answer reader.now) config text.now) }
{
    if let Some((number, read)) = reader.front(text) {
        if let Some(size) = size_with_end(text, read, config) {
            return Some(Line {
                answer: Ok(number),
                size,
            });
        }
    }
    searched_line(text, config, reader)
}

/// The first whole line of a text, if it has one, by a search for its end.
#[inline(always)]
fn searched_line<R: LineReader>(
    text: &[u8],
    config: LineConfig,
    reader: &R,
) -> Option<Line<R::Number>>
    ensures line { MatchOption result (whole_lines config.at_end text.now ≡ [])
        (IsFirstLine (R.answer reader.now) config text.now) }
{
    let (read, size) = first_size(text, config)?;
    Some(Line {
        answer: reader.number(&text[..read]),
        size,
    })
}

/// How many bytes are read of the first whole line of a text, if it has one, and how many it takes
/// with its end.
#[inline(always)]
fn first_size(text: &[u8], config: LineConfig) -> Option<(usize, usize)>
    ensures line { MatchOption result (whole_lines config.at_end text.now ≡ [])
        (λ line. IsFirstLineOf config text.now (take line.0 text.now) line.1) }
    ensures within { IfSome result (λ line. line.0 ≤ length text.now) }
{
    let drops = config.drops_returns;
    match line_end(text, 0) {
        Some(end) => Some((without_return(&text[..end], drops).len(), end + 1)),
        None if config.at_end && !text.is_empty() => {
            Some((without_return(text, drops).len(), text.len()))
        }
        None => None,
    }
}

/// If the first line of a text ends after `size` bytes, how many it takes together with its end.
#[inline(always)]
fn size_with_end(text: &[u8], size: usize, config: LineConfig) -> Option<usize>
    requires within { size ≤ length text.now }
    requires no_end { HasNoEnd text.now size }
    ensures line { IfSome result (IsFirstLineOf config text.now (take size text.now)) }
{
    if size == text.len() {
        return config.at_end.then_some(size);
    }
    if text[size] == b'\n' {
        return Some(size + 1);
    }
    if config.drops_returns && text[size] == b'\r' && byte_at(text, size + 1) == b'\n' {
        return Some(size + 2);
    }
    None
}
