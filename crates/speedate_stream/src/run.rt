//! Lines in, and what a machine prints for them out.

ghost use Rattle.std.specs.Prelude.{◌≡◌, ◌+◌, ◌^◌, ◌<◌, ◌≤◌, ◌++◌, [], ◌∷◌, length, take, drop, ◌||◌, true, false, is_err, Err, IfOk, OnOk, OnErr};
ghost use Rattle.std.specs.Option.{ForSome};
ghost use Rattle.std.specs.Io.KnownBytes.{Keeps, IsAtEnd};
ghost use Rattle.arrayvec.specs.ArrayVec.{array_vec_len};
ghost use Rattle.speedate_base.specs.Ascii.{line_feed};
ghost use Rattle.speedate_base.specs.Lines.{IsOneLine, complete_lines, unfinished_line};
ghost use Rattle.speedate_stream.specs.Machine.{head, in_line, part_of, is_passed, line_output, lines_output};
ghost use Rattle.speedate_stream.specs.Machine.{position_from, state_after, ending, after_ending};
ghost use Rattle.speedate_stream.specs.Run.{ReadsAfter, EndsBy, Ends, Writes, OnlyWrites};
ghost use Rattle.speedate_stream.specs.Run.{PrintsProgress, PrintsBeginning};
ghost use Rattle.speedate_stream.specs.Watch.{one_more};

use crate::buffer::{PENDING_MAX, Pending, STEP_MAX, push_bytes};
use crate::machine::{HEAD_MAX, LineMachine, Observer, SEEN_MAX};
use crate::watched::{Failed, Watched};
use speedate_base::lines::line_end;
use std::io::{Read, Write};

/// How many bytes there is room for at each read, at least.
const ROOM: usize = 65536;

/// How many bytes of input lie in memory: the head of an unfinished line, and what one read gives.
const BLOCK: usize = HEAD_MAX + ROOM;

/// Why a run ended before its input.
#[derive(Clone, Copy, Debug, PartialEq, Eq)]
pub enum RunError {
    /// The input failed: what is printed for all that was read has been written.
    Read,
    /// The output failed: what was written is a beginning of what is printed.
    Write,
}

/// The unfinished line of a block.
#[derive(Clone, Copy)]
struct Unfinished {
    /// Where it begins.
    start: usize,
    /// Whether it is printed as it comes, and has been so far.
    passes: bool,
}

/// Prints what the machine prints for each line of the input, up to its end, or until the machine
/// wants no further line.
///
/// A line is ended by a line feed or by the end of the input. What is printed for all complete lines
/// that were read is written before the next read, and then the observer is called. Memory does not grow
/// with a line: one of more than 4,096 bytes is printed as it comes, or its head is kept.
///
/// Fails with `RunError::Read` if a read fails, with `RunError::Write` if a write fails, or the one
/// flush at the end.
pub fn run<M: LineMachine, R: Read, W: Write, O: Observer<M>>(
    machine: &mut M,
    input: &mut Watched<R>,
    output: &mut Watched<W>,
    observer: &mut O,
) -> Result<(), RunError>
    // If neither end had failed before the call, one has failed after it if and only if the answer
    // says so.
    ensures failed { input.old.failed ≡ false → output.old.failed ≡ false →
        EndsBy result input.new.failed output.new.failed }
    // What was printed for all lines was written, or the machine wants no further one. One flush
    // came, after the last write.
    ensures ended { OnOk result (Ends M.machine machine.old machine.new
        (R.remaining input.old.inner) (R.remaining input.new.inner)
        (W.contents output.old.inner) (W.contents output.new.inner)) }
    ensures flushed { OnOk result (output.new.flushed ≡ true) }
    ensures flushed_once { OnOk result (output.new.flushes ≡ one_more output.old.flushes) }
    // After a failed read what was written is what is printed for all that was read, and no flush
    // came.
    ensures read_failed { result ≡ Err RunError.Read →
        PrintsProgress M.machine machine.old machine.new
        (R.remaining input.old.inner) (R.remaining input.new.inner)
        (W.contents output.old.inner) (W.contents output.new.inner) }
    ensures unflushed { result ≡ Err RunError.Read → output.new.flushes ≡ output.old.flushes }
    // After a failed write or flush what was written is a beginning of what was due, and in it all
    // that was due before the last read.
    ensures write_failed { result ≡ Err RunError.Write → PrintsBeginning M.machine machine.old
        (R.remaining input.old.inner) (R.remaining input.new.inner)
        (W.contents output.old.inner) (W.contents output.new.inner) }
{
    let mut block = [0; BLOCK];
    let mut pending = Pending::new();
    let mut kept = 0;
    let mut passes = false;
    while !machine.is_done() {
        observer.before_read(machine);
        let Ok(filled) = fill(input, &mut block, kept) else {
            return Err(RunError::Read);
        };
        if filled == kept {
            return match finish(machine, &block[..kept], passes, &mut pending, output) {
                Ok(()) => Ok(()),
                Err(_) => Err(RunError::Write),
            };
        }
        let Ok(unfinished) = print_block(
            machine,
            &block[..filled],
            kept,
            passes,
            &mut pending,
            output,
        ) else {
            return Err(RunError::Write);
        };
        kept = keep_line(&mut block, unfinished.start, filled);
        passes = unfinished.passes;
    }
    match output.flush() {
        Ok(()) => Ok(()),
        Err(_) => Err(RunError::Write),
    }
}

/// Reads once, after the first `kept` bytes of the block, and returns how many bytes of it are
/// then filled: no more than before at the end of the input.
fn fill<R: Read>(
    input: &mut Watched<R>,
    block: &mut [u8; BLOCK],
    kept: usize,
) -> Result<usize, Failed>
    requires { kept ≤ HEAD_MAX }
    ensures counted { OnOk result (input.new.reads ≡ input.old.reads + 1) }
    ensures limited { input.new.reads < 2 ^ 64 }
    ensures failed { input.new.failed ≡ (input.old.failed || is_err result) }
    ensures unread { OnErr result
        (Keeps (R.remaining input.old.inner) (R.remaining input.new.inner)) }
    ensures filled { IfOk result (λ filled. ReadsAfter (R.remaining input.old.inner)
        (R.remaining input.new.inner) kept filled block.old block.new) }
{
    let count = input.read(&mut block[kept..])?;
    Ok(kept + count)
}

/// Prints the lines of a block, and writes all that is printed. Its first bytes, `seen` of them, hold
/// no line feed; with `passes` it begins within a line that is printed as it comes.
fn print_block<M: LineMachine, W: Write>(
    machine: &mut M,
    text: &[u8],
    seen: usize,
    passes: bool,
    pending: &mut Pending,
    output: &mut Watched<W>,
) -> Result<Unfinished, Failed>
    requires within { seen ≤ length text.now }
    requires one_line { IsOneLine text.now 0 seen }
    requires empty { pending.old.items ≡ [] }
    ensures printed { OnlyWrites W.contents output.old output.new result []
        (position_from M.machine machine.old passes text.now).printed }
    ensures empty { OnOk result (pending.new.items ≡ []) }
    ensures start { IfOk result (λ last. last.start ≤ length text.now) }
    ensures state { OnOk result
        (machine.new ≡ (position_from M.machine machine.old passes text.now).state) }
    ensures passes { IfOk result (λ last.
        last.passes ≡ (position_from M.machine machine.old passes text.now).passes) }
    ensures kept { IfOk result (λ last. head (drop last.start text.now)
        ≡ (position_from M.machine machine.old passes text.now).kept) }
{
    if passes {
        return print_passed(machine, text, pending, output);
    }
    print_lines(machine, text, seen, pending, output)
}

/// Prints a text that begins within a line which is printed as it comes, and writes all that is printed.
fn print_passed<M: LineMachine, W: Write>(
    machine: &mut M,
    text: &[u8],
    pending: &mut Pending,
    output: &mut Watched<W>,
) -> Result<Unfinished, Failed>
    requires empty { pending.old.items ≡ [] }
    ensures printed { OnlyWrites W.contents output.old output.new result []
        (position_from M.machine machine.old true text.now).printed }
    ensures empty { OnOk result (pending.new.items ≡ []) }
    ensures start { IfOk result (λ last. last.start ≤ length text.now) }
    ensures state { OnOk result
        (machine.new ≡ (position_from M.machine machine.old true text.now).state) }
    ensures passes { IfOk result (λ last.
        last.passes ≡ (position_from M.machine machine.old true text.now).passes) }
    ensures kept { IfOk result (λ last. head (drop last.start text.now)
        ≡ (position_from M.machine machine.old true text.now).kept) }
{
    let Some(end) = line_end(text, 0) else {
        write_all(text, output)?;
        return Ok(Unfinished {
            start: text.len(),
            passes: true,
        });
    };
    let next = end + 1;
    write_all(&text[..next], output)?;
    let last = print_lines(machine, &text[next..], 0, pending, output)?;
    Ok(Unfinished {
        start: next + last.start,
        passes: last.passes,
    })
}

/// Prints the lines of a text whose first bytes, `seen` of them, hold no line feed, and writes all that
/// is printed.
fn print_lines<M: LineMachine, W: Write>(
    machine: &mut M,
    text: &[u8],
    seen: usize,
    pending: &mut Pending,
    output: &mut Watched<W>,
) -> Result<Unfinished, Failed>
    requires within { seen ≤ length text.now }
    requires one_line { IsOneLine text.now 0 seen }
    requires empty { pending.old.items ≡ [] }
    ensures printed { OnlyWrites W.contents output.old output.new result []
        (position_from M.machine machine.old false text.now).printed }
    ensures empty { OnOk result (pending.new.items ≡ []) }
    ensures start { IfOk result (λ last. last.start ≤ length text.now) }
    ensures state { OnOk result
        (machine.new ≡ (position_from M.machine machine.old false text.now).state) }
    ensures passes { IfOk result (λ last.
        last.passes ≡ (position_from M.machine machine.old false text.now).passes) }
    ensures kept { IfOk result (λ last. head (drop last.start text.now)
        ≡ (position_from M.machine machine.old false text.now).kept) }
{
    let start = print_complete(machine, text, seen, pending, output)?;
    let passes = begin_line(machine, &text[start..], pending, output)?;
    send(pending, output)?;
    Ok(if passes {
        Unfinished {
            start: text.len(),
            passes,
        }
    } else {
        Unfinished { start, passes }
    })
}

/// Prints the complete lines of a text, and returns where the unfinished line begins. No clause
/// shows that it does not search the first `seen` bytes again.
fn print_complete<M: LineMachine, W: Write>(
    machine: &mut M,
    text: &[u8],
    seen: usize,
    pending: &mut Pending,
    output: &mut Watched<W>,
) -> Result<usize, Failed>
    requires within { seen ≤ length text.now }
    requires one_line { IsOneLine text.now 0 seen }
    requires empty { pending.old.items ≡ [] }
    ensures printed { OnlyWrites W.contents output.old output.new result pending.new.items
        (lines_output M.machine machine.old (complete_lines text.now)) }
    ensures state { OnOk result
        (machine.new ≡ state_after M.machine machine.old (complete_lines text.now)) }
    ensures start { IfOk result (λ start. start ≤ length text.now) }
    ensures unfinished { IfOk result (λ start. drop start text.now ≡ unfinished_line text.now) }
{
    let mut start = 0;
    let mut searched = seen;
    while let Some(end) = line_end(text, searched) {
        print_line(machine, &text[start..end], pending, output)?;
        start = end + 1;
        searched = start;
    }
    Ok(start)
}

/// Prints a line, which is given without its line feed.
#[inline(always)]
fn print_line<M: LineMachine, W: Write>(
    machine: &mut M,
    line: &[u8],
    pending: &mut Pending,
    output: &mut Watched<W>,
) -> Result<(), Failed>
    ensures printed { OnlyWrites W.contents output.old output.new result pending.new.items
        (pending.old.items ++ line_output M.machine machine.old line.now) }
    ensures state { OnOk result (machine.new ≡ M.machine.after machine.old (head line.now)) }
{
    let rest = step(machine, line, pending, output)?;
    if rest.is_none() {
        return Ok(());
    }
    pass_rest(line, rest, pending, output)?;
    end_line(pending, output)
}

/// Begins to print an unfinished line, if it is printed as it comes.
fn begin_line<M: LineMachine, W: Write>(
    machine: &mut M,
    line: &[u8],
    pending: &mut Pending,
    output: &mut Watched<W>,
) -> Result<bool, Failed>
    ensures printed { OnlyWrites W.contents output.old output.new result pending.new.items
        (pending.old.items
        ++ (in_line M.machine machine.old line.now
        (is_passed M.machine machine.old line.now)).printed) }
    ensures state { OnOk result (machine.new
        ≡ (in_line M.machine machine.old line.now
        (is_passed M.machine machine.old line.now)).state) }
    ensures passes { IfOk result (λ passes. passes ≡ is_passed M.machine machine.old line.now) }
{
    if !is_passed(machine, line) {
        return Ok(false);
    }
    let rest = step(machine, line, pending, output)?;
    pass_rest(line, rest, pending, output)?;
    Ok(true)
}

/// Whether an unfinished line is printed as it comes: if a machine does not see all of it, and it is
/// printed itself.
#[inline(always)]
fn is_passed<M: LineMachine>(machine: &M, line: &[u8]) -> bool
    ensures passed { result ≡ is_passed M.machine machine.now line.now }
{
    line.len() > SEEN_MAX && machine.passes(head(line))
}

/// What a machine sees of a line: all of it, or its first 4,097 bytes.
#[inline(always)]
pub fn head(line: &[u8]) -> &[u8]
    ensures head { result.now ≡ head line.now }
    ensures short { length result.now ≤ HEAD_MAX }
    ensures within { length result.now ≤ length line.now }
{
    &line[..line.len().min(HEAD_MAX)]
}

/// Prints what comes before a line itself, and returns from which byte on the line follows.
#[inline(always)]
fn step<M: LineMachine, W: Write>(
    machine: &mut M,
    line: &[u8],
    pending: &mut Pending,
    output: &mut Watched<W>,
) -> Result<Option<usize>, Failed>
    ensures printed { OnlyWrites W.contents output.old output.new result pending.new.items
        (pending.old.items ++ M.machine.text machine.old (head line.now)) }
    ensures state { OnOk result (machine.new ≡ M.machine.after machine.old (head line.now)) }
    ensures rest { IfOk result (λ rest. rest ≡ M.machine.rest machine.old (head line.now)) }
    ensures within { IfOk result (λ rest. ForSome rest (λ from.
        (from ≤ length line.now) × (from ≤ length (head line.now)))) }
{
    make_room(pending, output)?;
    let rest = machine.step(head(line), pending);
    Ok(rest)
}

/// Prints a line from a byte on, if one is given.
#[inline(always)]
fn pass_rest<W: Write>(
    line: &[u8],
    rest: Option<usize>,
    pending: &mut Pending,
    output: &mut Watched<W>,
) -> Result<(), Failed>
    requires within { ForSome rest (λ from.
        (from ≤ length line.now) × (from ≤ length (head line.now))) }
    ensures sent { OnlyWrites W.contents output.old output.new result pending.new.items
        (pending.old.items ++ part_of rest line.now) }
{
    match rest {
        Some(from) => pass(&line[from..], pending, output),
        None => Ok(()),
    }
}

/// Writes the bytes that wait, if there is no room for what a machine prints for a further line.
#[inline(always)]
fn make_room<W: Write>(pending: &mut Pending, output: &mut Watched<W>) -> Result<(), Failed>
    ensures sent { OnlyWrites W.contents output.old output.new result pending.new.items
        pending.old.items }
    ensures room { OnOk result (array_vec_len pending.new + STEP_MAX ≤ PENDING_MAX) }
{
    if pending.remaining_capacity() < STEP_MAX {
        send(pending, output)?;
    }
    Ok(())
}

/// Prints bytes, such as a part of a line: they wait, and where there is no room for them, they are
/// written after those that wait.
///
/// Fails with `Failed` if a write fails.
#[inline(always)]
pub fn pass<W: Write>(
    bytes: &[u8],
    pending: &mut Pending,
    output: &mut Watched<W>,
) -> Result<(), Failed>
    ensures sent { OnlyWrites W.contents output.old output.new result pending.new.items
        (pending.old.items ++ bytes.now) }
{
    if pending.remaining_capacity() < bytes.len() {
        send(pending, output)?;
        return write_all(bytes, output);
    }
    push_bytes(bytes, pending);
    Ok(())
}

/// Ends a line that was printed.
#[inline(always)]
fn end_line<W: Write>(pending: &mut Pending, output: &mut Watched<W>) -> Result<(), Failed>
    ensures sent { OnlyWrites W.contents output.old output.new result pending.new.items
        (pending.old.items ++ line_feed ∷ []) }
{
    if pending.is_full() {
        send(pending, output)?;
    }
    pending.push(b'\n');
    Ok(())
}

/// Writes all bytes that wait.
///
/// Fails with `Failed` if a write fails.
pub fn send<W: Write>(pending: &mut Pending, output: &mut Watched<W>) -> Result<(), Failed>
    ensures sent { OnlyWrites W.contents output.old output.new result [] pending.old.items }
    ensures empty { OnOk result (pending.new.items ≡ []) }
{
    write_all(pending.as_slice(), output)?;
    pending.clear();
    Ok(())
}

/// Writes all of `bytes`.
#[tactic(auto, using(crate::proofs::SentLemmas::writing))]
fn write_all<W: Write>(bytes: &[u8], output: &mut Watched<W>) -> Result<(), Failed>
    ensures sent { OnlyWrites W.contents output.old output.new result [] bytes.now }
{
    let mut rest = bytes;
    while !rest.is_empty() {
        let count = output.write(rest)?;
        rest = &rest[count..];
    }
    Ok(())
}

/// Moves the unfinished line, which is from `start` up to `filled`, to the front of the block,
/// and returns how much of it is kept.
fn keep_line(block: &mut [u8; BLOCK], start: usize, filled: usize) -> usize
    requires ordered { start ≤ filled }
    requires within { filled ≤ BLOCK }
    ensures short { result ≤ HEAD_MAX }
    ensures kept { take result block.new ≡ head (drop start (take filled block.old)) }
{
    let kept = (filled - start).min(HEAD_MAX);
    block.copy_within(start..start + kept, 0);
    kept
}

/// Prints the end of the input, writes all that waits, and flushes.
fn finish<M: LineMachine, W: Write>(
    machine: &mut M,
    last: &[u8],
    passes: bool,
    pending: &mut Pending,
    output: &mut Watched<W>,
) -> Result<(), Failed>
    requires { pending.old.items ≡ [] }
    ensures printed { Writes W.contents output.old output.new result []
        (ending M.machine machine.old passes last.now) }
    ensures state { OnOk result (machine.new ≡ after_ending M.machine machine.old passes last.now) }
    ensures flushed { OnOk result (output.new.flushed ≡ true) }
    ensures flushed_once { OnOk result (output.new.flushes ≡ one_more output.old.flushes) }
{
    print_ending(machine, last, passes, pending, output)?;
    send(pending, output)?;
    output.flush()
}

/// Prints the end of a line that was printed as it came, or a last line that no line feed ends, if there
/// is one.
fn print_ending<M: LineMachine, W: Write>(
    machine: &mut M,
    last: &[u8],
    passes: bool,
    pending: &mut Pending,
    output: &mut Watched<W>,
) -> Result<(), Failed>
    requires { pending.old.items ≡ [] }
    ensures printed { OnlyWrites W.contents output.old output.new result pending.new.items
        (ending M.machine machine.old passes last.now) }
    ensures state { OnOk result (machine.new ≡ after_ending M.machine machine.old passes last.now) }
{
    if passes {
        return end_line(pending, output);
    }
    if last.is_empty() {
        return Ok(());
    }
    print_line(machine, last, pending, output)
}
