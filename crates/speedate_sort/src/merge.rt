//! The command `merge`: the lines of files that are each in order.

ghost use Rattle.std.specs.Prelude.{◌≡◌, ◌<◌, ◌++◌, ◌==◌, ◌||◌, Err, IfErr, IfOk, IfSome, IsNone, IsSome, None, Ok, OnErr, OnOk, false, if◌then◌else◌, is_err, is_ok, is_some, length, true};
ghost use Rattle.std.specs.Io.KnownBytes.{Appends};
ghost use Rattle.speedate_sort.specs.Merge.{AreAlike, AreAllInOrder, AreKnown, Halt, IsAlike, IsHalt};
ghost use Rattle.speedate_sort.specs.Merge.{IsHaltIn, IsLate, IsNumbered, IsUnread, Merges, MergesUpTo};
ghost use Rattle.speedate_sort.specs.Merge.{Moves, ReadsLine, StaysSettled, are_unlike, bare, best_of, better, due};
ghost use Rattle.speedate_sort.specs.Merge.{ended, files_left, instant_of, instants, merged_text};
ghost use Rattle.speedate_sort.specs.Merge.{number_of, printed_first, settled_by};
ghost use Rattle.speedate_scan.specs.Scan.{is_stopped};
ghost use Rattle.speedate_sort.specs.Base.{Offsets};
ghost use Rattle.speedate_sort.specs.Sort.{key_after, key_of, name_text};
ghost use Rattle.speedate_stream.specs.Run.{AppendsBeginning, OnlyWrites};

use crate::sort::{Keys, Unread};
use speedate_scan::reading::seen;
use speedate_scan::scan::{Offsets, Scan};
use speedate_stream::run::{head, pass, send};
use speedate_stream::{Failed, Pending, Watched};
use std::alloc::{AllocError, Global};
use std::io::{BufRead, ErrorKind, Write};

/// The value before a line.
#[derive(Clone, Copy, Debug, PartialEq, Eq)]
pub struct Before {
    /// The value, in nanoseconds as `Found::instant` counts them.
    pub instant: i128,
    /// The number of its line.
    pub number: u64,
}

/// Why the lines of a source ended before its input.
#[derive(Clone, Copy, Debug, PartialEq, Eq)]
pub enum Halt {
    /// The input failed, or memory ran out.
    Unread(Unread),
    /// A bad value was to end the run.
    Bad,
    /// A value is less than the one before it.
    Late(Before),
    /// The first value has an offset, and those of other sources have none, or the other way round.
    Unlike,
}

/// A source that may have the least line.
#[derive(Clone, Copy, Debug)]
pub struct Best {
    /// Which of the sources it is.
    pub index: usize,
    /// The value of its line.
    pub instant: i128,
}

/// Where a merge ended before its inputs, and why.
#[derive(Clone, Copy, Debug, PartialEq, Eq)]
pub struct Halted {
    /// Which of the sources it is.
    pub index: usize,
    /// Why its lines ended.
    pub halt: Halt,
}

/// What is told of bad values as soon as they are read.
pub trait Reporter {
    ghost use Rattle.std.specs.Prelude.{◌≡◌, ℕ};
    ghost use Rattle.speedate_sort.specs.Base.{Scan};

    // The reporter, once the values of a source are told that are bad after so many others.
    ghost reported: { Self → Scan → ℕ → Self };

    /// Tells the values of a source that are bad after so many others, by what is known of its lines.
    fn report(&mut self, scan: &Scan<'_>, told: u64)
        ensures reported { self.new ≡ reported self.old scan.now told };
}

/// A file of which one line is in memory.
#[derive(Drop)]
pub struct Source<'a, R> {
    /// What the lines after it are read from.
    pub input: R,
    /// What is known of the lines so far. Its instant is the value of the entry of the line.
    pub keys: Keys<'a>,
    /// The line, which a line feed ends; empty if none is left.
    pub line: Vec<u8>,
    /// The number of the last line that has a value.
    pub number: u64,
    /// Whether a read has failed.
    pub failed: bool,
}

/// Ends a line by a line feed, if none ends it.
fn end_line(line: &mut Vec<u8>) -> Result<(), AllocError>
    requires { 0 < length line.old.items }
    ensures { OnOk result (line.new.items ≡ ended line.old.items) }
{
    if line[line.len() - 1] != b'\n' {
        line.push(b'\n')?;
    }
    Ok(())
}

/// Reads the next line in place of another. A last line without line feed gets one; the line is empty if
/// there is none. It is noted if the read fails.
fn read_line<R: BufRead>(input: &mut R, line: &mut Vec<u8>, failed: &mut bool) -> Result<(), Unread>
    ensures line { OnOk result (IsSome (R.remaining input.old) →
        ReadsLine (R.remaining input.old) (R.remaining input.new) line.new.items) }
    ensures intact { OnOk result (failed.new ≡ failed.old) }
    ensures unread { IfErr result (λ unread. IsUnread (Halt.Unread unread) failed.new) }
{
    line.clear();
    match input.read_until(b'\n', line) {
        Ok(0) => Ok(()),
        Ok(_) => {
            if end_line(line).is_err() {
                return Err(Unread::Memory);
            }
            Ok(())
        }
        Err(error) => {
            if error.kind() == ErrorKind::OutOfMemory {
                return Err(Unread::Memory);
            }
            *failed = true;
            Err(Unread::Read)
        }
    }
}

/// Counts a line, which is given without its line feed, and returns whether it is not left out.
fn pass_line(keys: &mut Keys<'_>, number: &mut u64, text: &[u8]) -> bool
    ensures kept { result ≡ is_some (key_of keys.old text.now) }
    ensures after { keys.new ≡ key_after keys.old text.now }
    ensures number { number.new ≡ number_of keys.old number.old text.now }
{
    let line = keys.scan.line(head(text));
    if line.is_value() {
        *number = keys.scan.next_number();
    }
    keys.pass_line(line).is_some()
}

impl<'a, R> Source<'a, R> {
    /// A source of which no line has been read.
    pub fn new(keys: Keys<'a>, input: R, alloc: Global) -> Self
        ensures input { result.input ≡ input }
        ensures keys { result.keys ≡ keys.entry }
        ensures intact { result.failed ≡ false }
    {
        Source {
            input,
            keys,
            line: Vec::new(alloc),
            number: 0,
            failed: false,
        }
    }
}

impl<R: BufRead> Source<'_, R> {
    /// Reads up to the next line that is not left out. Its value is to have an offset as those of the
    /// other sources have one, which the first value of them all decides.
    ///
    /// The lines of the source end before its input if a read fails or memory runs out, after a bad
    /// value if that is to end the run, at a value that is less than the one before it, and at one
    /// that is unlike those of the others. Bad values up to there are told.
    pub fn next<P: Reporter>(&mut self, offsets: &mut Offsets, reporter: &mut P) -> Result<(), Halt>
        ensures moves { OnOk result (IsSome (R.remaining self.old.input) →
            Moves (R.remaining self.old.input) (R.remaining self.new.input)
            self.old.keys self.new.keys self.new.line.items) }
        ensures late { IfErr result (λ halt. IsLate halt self.old.keys self.old.number self.new.keys) }
        ensures number { OnOk result (IsNumbered self.new.keys (bare self.new.line.items)
            self.old.number self.new.number) }
        // A bad value that is to end the run ends the lines, and nothing else does so.
        ensures bad { result ≡ Err Halt.Bad → is_stopped self.new.keys.scan.stop ≡ true }
        ensures stopped { OnOk result (is_stopped self.old.keys.scan.stop ≡ false →
            is_stopped self.new.keys.scan.stop ≡ false) }
        ensures unlike { result ≡ Err Halt.Unlike →
            are_unlike offsets.old self.new.keys.scan.offsets ≡ true }
        ensures alike { OnOk result (are_unlike offsets.old self.new.keys.scan.offsets ≡ false) }
        ensures settled { StaysSettled offsets.old offsets.new }
        // The first value of all sources decides whether values have offsets.
        ensures offsets { offsets.new ≡ (if is_ok result
            then settled_by offsets.old self.new.keys.scan.offsets else offsets.old) }
        // Bad values are told that were read now.
        ensures told { reporter.new ≡ (if self.new.keys.scan.bad == self.old.keys.scan.bad
            then reporter.old
            else P.reported reporter.old self.new.keys.scan self.old.keys.scan.bad) }
        // A read has failed if and only if the answer says so.
        ensures intact { OnOk result (self.new.failed ≡ self.old.failed) }
        ensures unread { IfErr result (λ halt. IsUnread halt self.new.failed) }
    {
        let told = self.keys.scan.bad;
        let advanced = self.advance();
        if self.keys.scan.bad != told {
            reporter.report(&self.keys.scan, told);
        }
        match advanced {
            Ok(()) => {}
            Err(halt) => return Err(halt),
        }
        let own = self.keys.scan.offsets;
        if is_unlike(*offsets, own) {
            return Err(Halt::Unlike);
        }
        if !matches!(offsets, Offsets::Only(_)) {
            *offsets = own;
        }
        Ok(())
    }

    /// Reads up to the next line that is not left out.
    fn advance(&mut self) -> Result<(), Halt>
        ensures moves { OnOk result (IsSome (R.remaining self.old.input) →
            Moves (R.remaining self.old.input) (R.remaining self.new.input)
            self.old.keys self.new.keys self.new.line.items) }
        ensures late { IfErr result (λ halt. IsLate halt self.old.keys self.old.number self.new.keys) }
        ensures number { OnOk result (IsNumbered self.new.keys (bare self.new.line.items)
            self.old.number self.new.number) }
        ensures stopped { OnOk result (is_stopped self.old.keys.scan.stop ≡ false →
            is_stopped self.new.keys.scan.stop ≡ false) }
        ensures bad { result ≡ Err Halt.Bad → is_stopped self.new.keys.scan.stop ≡ true }
        ensures alike { result ≡ Err Halt.Unlike → ⊥ }
        ensures intact { OnOk result (self.new.failed ≡ self.old.failed) }
        ensures unread { IfErr result (λ halt. IsUnread halt self.new.failed) }
    {
        for _ in 0..u64::MAX {
            if let Err(unread) = read_line(&mut self.input, &mut self.line, &mut self.failed) {
                return Err(Halt::Unread(unread));
            }
            if self.line.is_empty() {
                return Ok(());
            }
            let before = Before {
                instant: self.keys.instant,
                number: self.number,
            };
            let end = self.line.len() - 1;
            let is_kept = pass_line(&mut self.keys, &mut self.number, &self.line[..end]);
            if self.keys.scan.is_stopped() {
                return Err(Halt::Bad);
            }
            if self.keys.instant < before.instant {
                return Err(Halt::Late(before));
            }
            if is_kept {
                return Ok(());
            }
        }
        // No further line can be counted.
        Err(Halt::Unread(Unread::Memory))
    }
}

/// The best of some sources, and a further one.
fn better<R>(best: Option<Best>, index: usize, source: &Source<'_, R>) -> Option<Best>
    ensures { result ≡ better best index (instant_of source.now.keys.instant source.now.line.items) }
{
    if source.line.is_empty() {
        return best;
    }
    let instant = source.keys.instant;
    match best {
        Some(found) => {
            if instant < found.instant {
                Some(Best { index, instant })
            } else {
                best
            }
        }
        None => Some(Best { index, instant }),
    }
}

/// The first of the sources with the least line, if one has a line.
fn choose<R>(sources: &[Source<'_, R>]) -> Option<Best>
    ensures best { result ≡ best_of (instants sources.now) }
    ensures within { IfSome result (λ best. best.index < length sources.now) }
{
    let mut best = None;
    for (index, source) in sources.iter().enumerate() {
        best = better(best, index, source);
    }
    best
}

/// Whether one kind of values has offsets, and the other has none.
fn is_unlike(first: Offsets, second: Offsets) -> bool
    ensures { result ≡ are_unlike first second }
{
    match (first, second) {
        (Offsets::Only(first), Offsets::Only(second)) => first != second,
        _ => false,
    }
}

/// Prints bytes, and then others.
fn pass_both<W: Write>(
    first: &[u8],
    second: &[u8],
    pending: &mut Pending,
    output: &mut Watched<W>,
) -> Result<(), Failed>
    ensures printed { OnlyWrites W.contents output.old output.new result pending.new.items
        (pending.old.items ++ (first.now ++ second.now)) }
{
    pass(first, pending, output)?;
    pass(second, pending, output)
}

/// Prints a line, after the name of its file if that is asked for.
fn pass_named<W: Write>(
    keys: &Keys<'_>,
    line: &[u8],
    pending: &mut Pending,
    output: &mut Watched<W>,
) -> Result<(), Failed>
    ensures printed { OnlyWrites W.contents output.old output.new result pending.new.items
        (pending.old.items ++ (name_text keys.now ++ line.now)) }
{
    if !keys.has_name {
        return pass(line, pending, output);
    }
    pass_both(seen(keys.scan.name), b":", pending, output)?;
    pass(line, pending, output)
}

/// Prints the line of a source, and reads up to the next one that is not left out.
fn step<R: BufRead, W: Write, P: Reporter>(
    source: &mut Source<'_, R>,
    offsets: &mut Offsets,
    pending: &mut Pending,
    output: &mut Watched<W>,
    reporter: &mut P,
) -> Result<Option<Halt>, Failed>
    ensures printed { OnlyWrites W.contents output.old output.new result pending.new.items
        (pending.old.items ++ printed_first source.old) }
    ensures moves { IfOk result (λ halt. IsNone halt → IsSome (R.remaining source.old.input) →
        Moves (R.remaining source.old.input) (R.remaining source.new.input)
        source.old.keys source.new.keys source.new.line.items) }
    ensures late { IfOk result (λ halt. IfSome halt (λ halt.
        IsLate halt source.old.keys source.old.number source.new.keys)) }
    ensures alike { IfOk result (λ halt. IsNone halt →
        IsAlike offsets.new source.new.keys.scan.offsets) }
    ensures settled { StaysSettled offsets.old offsets.new }
    ensures halted { IfOk result (λ halt. IfSome halt (λ halt.
        IsHalt offsets.old halt source.new)) }
{
    pass_named(&source.keys, &source.line, pending, output)?;
    Ok(match source.next(offsets, reporter) {
        Ok(()) => None,
        Err(halt) => Some(halt),
    })
}

/// Prints the lines of sources in the order of their values, up to the first line that is out of order.
fn merge_lines<R: BufRead, W: Write, P: Reporter>(
    sources: &mut [Source<'_, R>],
    offsets: &mut Offsets,
    pending: &mut Pending,
    output: &mut Watched<W>,
    reporter: &mut P,
) -> Result<Option<Halted>, Failed>
    ensures merged { IfOk result (λ halted. AreKnown R.remaining sources.old →
        Merges (files_left R.remaining sources.old) (files_left R.remaining sources.new)
        (W.contents output.old.inner) (W.contents output.new.inner)
        pending.old.items pending.new.items halted) }
    ensures beginning { OnErr result (AreKnown R.remaining sources.old → AppendsBeginning
        (W.contents output.old.inner) (W.contents output.new.inner)
        (pending.old.items ++ due (files_left R.remaining sources.old))) }
    ensures failed { output.new.failed ≡ (output.old.failed || is_err result) }
    ensures halted { IfOk result (λ halted. IfSome halted (λ halted.
        IsHaltIn offsets.old halted sources.new)) }
    ensures alike { IfOk result (λ halted. IsNone halted → AreAlike offsets.old sources.old
        → AreAlike offsets.new sources.new) }
    ensures settled { StaysSettled offsets.old offsets.new }
{
    for _ in 0..u64::MAX {
        let Some(best) = choose(sources) else {
            return Ok(None);
        };
        if let Some(halt) = step(&mut sources[best.index], offsets, pending, output, reporter)? {
            return Ok(Some(Halted {
                index: best.index,
                halt,
            }));
        }
    }
    // No further line can be counted.
    Ok(Some(Halted {
        index: 0,
        halt: Halt::Unread(Unread::Memory),
    }))
}

/// Prints the lines of sources in the order of their values, and flushes. Lines of one value stay as the
/// sources have them, one source after the other. `Source::next` must have read the first line of each.
///
/// The first line that is out of order ends the merge, and so does a read that fails: what was printed
/// before is a beginning of what is printed of the lines up to there. Bad values are told as soon as they
/// are read. Fails with `Failed` if a write or the flush fails.
pub fn merge<R: BufRead, W: Write, P: Reporter>(
    sources: &mut [Source<'_, R>],
    mut offsets: Offsets,
    output: &mut Watched<W>,
    reporter: &mut P,
) -> Result<Option<Halted>, Failed>
    // The lines of each source are in order, and what was written are the lines in the order of their
    // values.
    ensures merged { result ≡ Ok None → AreKnown R.remaining sources.old →
        AreAllInOrder (files_left R.remaining sources.old)
        × Appends (W.contents output.old.inner) (W.contents output.new.inner)
        (merged_text (files_left R.remaining sources.old)) }
    // Otherwise what was written is a beginning of that, of the lines up to the first one of each
    // source that is out of order.
    ensures beginning { AreKnown R.remaining sources.old → AppendsBeginning
        (W.contents output.old.inner) (W.contents output.new.inner)
        (due (files_left R.remaining sources.old)) }
    // After a source ended the merge only lines of other sources that are left, and its own, are not
    // written.
    ensures halfway { IfOk result (λ halted. IfSome halted (λ halted.
        AreKnown R.remaining sources.old →
        MergesUpTo (files_left R.remaining sources.old) (files_left R.remaining sources.new)
        (W.contents output.old.inner) (W.contents output.new.inner) halted)) }
    // All values that were read have offsets, or none has one, as it was settled if it was.
    ensures alike { result ≡ Ok None → AreAlike offsets sources.old → (now : Offsets)
        × StaysSettled offsets now × AreAlike now sources.new }
    // Of the source that is named a read has failed, a bad value ended the run, or the last value
    // is earlier than the one before it or unlike those of other sources.
    ensures halted { IfOk result (λ halted. IfSome halted (λ halted.
        IsHaltIn offsets halted sources.new)) }
    ensures flushed { OnOk result (output.new.flushed ≡ true) }
    ensures failed { output.new.failed ≡ (output.old.failed || is_err result) }
{
    let mut pending = Pending::new();
    let halted = merge_lines(sources, &mut offsets, &mut pending, output, reporter)?;
    send(&mut pending, output)?;
    output.flush()?;
    Ok(halted)
}
