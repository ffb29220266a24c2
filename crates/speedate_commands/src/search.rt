//! Lines of a file that are found by their value, without a look at the lines before them.

ghost use Rattle.std.specs.Prelude.{◌≡◌, ℕ, ℤ, ◌+◌, ◌-◌, ◌^◌, ◌<◌, ◌≤◌, ◌||◌, ◌⊎◌, List, Option, None, IfOk, IfSome, is_err, length, min, take, drop};
ghost use Rattle.std.specs.Io.{ReadsAtMost};
ghost use Rattle.std.specs.Io.KnownBytes.{ReadConsumes};
ghost use Rattle.speedate.specs.Lines.{complete_lines};
ghost use Rattle.speedate_commands.specs.InOrder.{EndsFirstLine, HasValueAt, IsBefore, IsFrom, ReadsAt};
ghost use Rattle.speedate_commands.specs.InOrder.{known_part, line_value};
ghost use Rattle.speedate_scan.specs.Reading.{part};

use speedate::line_end;
use speedate_scan::reading::{Reader, Reading};
use speedate_stream::run::head;
use std::io::{self, Read};

/// How many bytes are looked at together.
const BLOCK: usize = 16_384;

/// How often the bytes among which a line is looked for are halved, at most.
const HALVINGS: usize = 64;

/// A text that is read at any byte.
pub trait ReadAt {
    // The text, where it is known.
    ghost text: { Self → Option (List ℕ) } = { λ _. None };

    /// Reads from a byte on, and returns how many bytes were read, which are at the front of the
    /// buffer. If it has room, 0 means that the text ends there, or before.
    fn read_at(&self, at: u64, buffer: &mut [u8]) -> io::Result<usize>
        ensures bound { ReadsAtMost result buffer.new }
        ensures bytes { ReadsAt (text self.now) at result buffer.new };
}

/// Reads from a byte on, and notes if that fails.
fn read_at<S: ReadAt>(
    source: &S,
    at: u64,
    buffer: &mut [u8],
    failed: &mut bool,
) -> io::Result<usize>
    ensures bound { ReadsAtMost result buffer.new }
    ensures bytes { ReadsAt (S.text source.now) at result buffer.new }
    ensures failed { failed.new ≡ (failed.old || is_err result) }
{
    match source.read_at(at, buffer) {
        Ok(count) => Ok(count),
        Err(error) => {
            *failed = true;
            Err(error)
        }
    }
}

/// A reader of the bytes of a text from one place up to another.
#[derive(Drop)]
pub struct Window<'s, S> {
    /// The text.
    pub source: &'s S,
    /// Where the next read begins.
    pub at: u64,
    /// Where the last one ends.
    pub end: u64,
}

impl<S: ReadAt> Read for Window<'_, S> {
    ghost remaining = { λ window.
        known_part (S.text window.source.now) window.at window.end };

    fn read(&mut self, buffer: &mut [u8]) -> io::Result<usize> {
        let room = buffer.len().min(self.end.saturating_sub(self.at) as usize);
        let count = self.source.read_at(self.at, &mut buffer[..room])?;
        self.at += count as u64;
        Ok(count)
    }
}

/// A line with a value.
#[derive(Clone, Copy, Debug)]
pub struct Dated {
    /// Where it begins.
    pub at: u64,
    /// Its value, in nanoseconds as `Found::instant` counts them.
    pub instant: i128,
}

/// Which values are looked for.
#[derive(Clone, Copy)]
pub struct Values<'a> {
    /// How they are read.
    pub reader: Reader<'a>,
    /// Whether they have an offset.
    pub has_offset: bool,
}

/// Where lines are found by a bound.
#[derive(Clone, Copy, Debug)]
pub struct Cut {
    /// Where the search began, or where a line begins whose value is before the bound.
    pub before: u64,
    /// Where a line begins whose value is not before the bound, if one was found.
    pub after: Option<u64>,
}

impl Values<'_> {
    /// The value of a line, if it has one.
    fn of_line(&self, line: &[u8]) -> Option<i128>
        ensures value { result ≡ line_value self.now.reader self.now.has_offset line.now }
    {
        match self.reader.read(head(line)) {
            Reading::Value(found) => {
                if found.offset.is_some() == self.has_offset {
                    Some(found.instant)
                } else {
                    None
                }
            }
            Reading::Bad(_) | Reading::Undated(_) => None,
        }
    }

    /// The first line with a value that begins after a line feed of a block and ends in it.
    fn first_of(&self, block: &[u8]) -> Option<Dated>
        ensures found { IfSome result (λ line. HasValueAt self.now.reader self.now.has_offset
            block.now line.at line.instant) }
    {
        let Some(end) = line_end(block, 0) else {
            return None;
        };
        let mut start = end + 1;
        while let Some(end) = line_end(block, start) {
            if let Some(instant) = self.of_line(&block[start..end]) {
                return Some(Dated {
                    at: start as u64,
                    instant,
                });
            }
            start = end + 1;
        }
        None
    }

    /// The first line with a value after a place, if it lies in the block that is read there.
    fn first_after<S: ReadAt>(
        &self,
        source: &S,
        place: u64,
        failed: &mut bool,
    ) -> io::Result<Option<Dated>>
        ensures found { IfOk result (λ found. IfSome found (λ line. IfSome (S.text source.now)
            (λ text. HasValueAt self.now.reader self.now.has_offset text line.at line.instant))) }
        ensures after { IfOk result (λ found. IfSome found (λ line. place < line.at)) }
        ensures failed { failed.new ≡ (failed.old || is_err result) }
    {
        let mut block = [0; BLOCK];
        let count = read_at(source, place, &mut block, failed)?;
        let Some(line) = self.first_of(&block[..count]) else {
            return Ok(None);
        };
        match place.checked_add(line.at) {
            Some(at) => Ok(Some(Dated {
                at,
                instant: line.instant,
            })),
            None => Ok(None),
        }
    }

    /// Looks for a bound in a text whose values never fall, from one place up to another, by halves.
    pub fn cut<S: ReadAt>(
        &self,
        source: &S,
        bound: i128,
        from: u64,
        to: u64,
        failed: &mut bool,
    ) -> io::Result<Cut>
        ensures from { IfOk result (λ cut. from ≤ cut.before) }
        ensures before { IfOk result (λ cut. (cut.before ≡ from) ⊎ IfSome (S.text source.now)
            (λ text. IsBefore self.now.reader self.now.has_offset text cut.before bound)) }
        ensures later { IfOk result (λ cut. IfSome cut.after (λ at. from ≤ at)) }
        ensures after { IfOk result (λ cut. IfSome cut.after (λ at. IfSome (S.text source.now)
            (λ text. IsFrom self.now.reader self.now.has_offset text at bound))) }
        ensures failed { failed.new ≡ (failed.old || is_err result) }
    {
        let mut before = from;
        let mut high = to;
        let mut after = None;
        for _ in 0..HALVINGS {
            if high <= before || high - before <= BLOCK as u64 {
                break;
            }
            let middle = before + (high - before) / 2;
            match self.first_after(source, middle, failed)? {
                Some(line) if line.instant < bound => before = line.at,
                Some(line) => {
                    after = Some(line.at);
                    high = middle;
                }
                None => high = middle,
            }
        }
        Ok(Cut { before, after })
    }
}

/// Where the second line of a text begins, if its first one is ended by a line feed.
pub fn second_line<S: ReadAt>(source: &S, failed: &mut bool) -> io::Result<Option<u64>>
    ensures second { IfOk result (λ found. IfSome found (λ at. IfSome (S.text source.now)
        (λ text. EndsFirstLine text at))) }
    ensures failed { failed.new ≡ (failed.old || is_err result) }
{
    let mut block = [0; BLOCK];
    let mut at = 0u64;
    for _ in 0..u64::MAX {
        let count = read_at(source, at, &mut block, failed)?;
        if count == 0 {
            break;
        }
        if let Some(end) = line_end(&block[..count], 0) {
            return Ok(at.checked_add(end as u64 + 1));
        }
        at = at.saturating_add(count as u64);
    }
    Ok(None)
}

/// How many line feeds a block has.
fn line_feeds(block: &[u8]) -> usize
    ensures feeds { result ≡ length (complete_lines block.now) }
{
    let mut count = 0;
    let mut start = 0;
    while let Some(end) = line_end(block, start) {
        count += 1;
        start = end + 1;
    }
    count
}

/// The number of a line after those of a text from one place up to another.
pub fn count_lines<S: ReadAt>(
    source: &S,
    number: u64,
    from: u64,
    to: u64,
    failed: &mut bool,
) -> io::Result<u64>
    requires ordered { from ≤ to }
    ensures counted { IfOk result (λ count. IfSome (S.text source.now) (λ text.
        count ≡ min (number + length (complete_lines (part text from to))) (2 ^ 64 - 1))) }
    ensures failed { failed.new ≡ (failed.old || is_err result) }
{
    let mut block = [0; BLOCK];
    let mut number = number;
    let mut at = from;
    while at < to {
        let room = BLOCK.min((to - at) as usize);
        let count = read_at(source, at, &mut block[..room], failed)?;
        if count == 0 {
            break;
        }
        number = number.saturating_add(line_feeds(&block[..count]) as u64);
        at += count as u64;
    }
    Ok(number)
}
