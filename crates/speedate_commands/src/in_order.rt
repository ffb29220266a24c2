//! The command `between` over files whose values are in order, which are searched for the bounds.

ghost use Rattle.std.specs.Prelude.{◌≡◌, ℕ, ℤ, ◌+◌, ◌-◌, ◌^◌, ◌<◌, ◌≤◌, ◌||◌, ◌⊎◌, List, Option, None, IfOk, IfSome, OnOk, drop, false, is_err, length, true};
ghost use Rattle.std.specs.Io.KnownBytes.{Appends};
ghost use Rattle.speedate.specs.Lines.{lines};
ghost use Rattle.speedate_commands.specs.Between.{awaits_header, file_text};
ghost use Rattle.speedate_commands.specs.InOrder.{EndsAt, EndsBounded, EndsFound, EndsPart, FailsBy, HasNumbers};
ghost use Rattle.speedate_commands.specs.InOrder.{IsNumber, PrintsFile, PrintsRest, StartsAt, entry_passed};
ghost use Rattle.speedate_commands.specs.InOrder.{is_searched, is_settled, later, moved, renumbered};
ghost use Rattle.speedate_scan.specs.Reading.{part};
ghost use Rattle.speedate_scan.specs.Scan.{has_offsets};

use crate::between::Between;
use crate::search::{ReadAt, Values, Window, count_lines, second_line};
use speedate_scan::scan::{BadLines, Offsets, REPORTS_MAX, Report, Scan};
use speedate_stream::run::{RunError, run};
use speedate_stream::{NoObserver, Watched};
use std::io::{self, Write};

/// Whether values are to have an offset, or to have none, as the bounds have it.
fn is_settled(offsets: Offsets) -> bool
    ensures settled { result ≡ is_settled offsets }
{
    match offsets {
        Offsets::Any | Offsets::AsFirst => false,
        Offsets::Only(_) | Offsets::AsBounds(_) => true,
    }
}

/// Whether a file begins with a header that has not come yet.
fn awaits_header(scan: &Scan<'_>) -> bool
    ensures awaits { result ≡ awaits_header scan.now }
{
    !scan.is_stopped() && scan.has_header && scan.number == 0
}

impl Between<'_> {
    /// Whether a file may be searched: not if the entry before it goes on in it, if all values fit, or
    /// if a bad value would end the run.
    fn is_searched(&self) -> bool
        ensures searched { result ≡ is_searched self.now }
    {
        !self.is_kept && is_settled(self.scan.offsets) && self.scan.bad_lines != BadLines::Stop
    }

    /// Which values are looked for.
    fn values(&self) -> Values<'_>
        ensures reader { result.reader ≡ self.now.scan.reader }
        ensures offset { result.has_offset ≡ has_offsets self.now.scan.offsets }
    {
        Values {
            reader: self.scan.reader,
            has_offset: self.scan.has_offsets(),
        }
    }

    /// Where the part of a file begins that has to be read: at the given byte, or with a line whose
    /// value is before the first bound.
    fn start<S: ReadAt>(
        &self,
        source: &S,
        begin: u64,
        size: u64,
        failed: &mut bool,
    ) -> io::Result<u64>
        ensures ordered { IfOk result (λ start. begin ≤ start) }
        ensures start { IfOk result (λ start.
            StartsAt self.now (S.text source.now) begin start) }
        ensures failed { failed.new ≡ (failed.old || is_err result) }
    {
        match self.bounds.from {
            Some(bound) => {
                let cut = self.values().cut(source, bound, begin, size, failed)?;
                Ok(cut.before)
            }
            None => Ok(begin),
        }
    }

    /// Where it ends: before a line whose value is not before the second bound, or with the file.
    fn end<S: ReadAt>(
        &self,
        source: &S,
        start: u64,
        size: u64,
        failed: &mut bool,
    ) -> io::Result<u64>
        ensures end { IfOk result (λ end. EndsAt self.now (S.text source.now) start end) }
        ensures failed { failed.new ≡ (failed.old || is_err result) }
    {
        let Some(bound) = self.bounds.to else {
            return Ok(u64::MAX);
        };
        let cut = self.values().cut(source, bound, start, size, failed)?;
        match cut.after {
            Some(end) => Ok(end),
            None => Ok(u64::MAX),
        }
    }

    /// Passes over the last entries of a file, whose values are not before the second bound.
    fn pass_entry(&mut self)
        ensures passed { self.new ≡ entry_passed self.old }
    {
        self.is_kept = false;
        self.scan.first.has_value = true;
        self.scan.first.has_entry = true;
        self.scan.offsets = Offsets::Only(self.scan.has_offsets());
    }

    /// The number of the line before a part of a file. The lines before it are counted if numbers of
    /// lines are printed.
    fn number_at<S: ReadAt>(
        &self,
        source: &S,
        begin: u64,
        start: u64,
        failed: &mut bool,
    ) -> io::Result<u64>
        requires ordered { begin ≤ start }
        ensures fits { self.now.scan.number < 2 ^ 64 }
        ensures number { IfOk result (λ number. IfSome (S.text source.now) (λ text.
            IsNumber self.now text begin start number)) }
        ensures failed { failed.new ≡ (failed.old || is_err result) }
    {
        let number = self.scan.number;
        if self.prefix.has_number {
            count_lines(source, number, begin, start, failed)
        } else {
            Ok(number)
        }
    }
}

/// A report, once lines that were not read before its line are counted.
fn later(report: Report, skipped: u64) -> Report
    ensures later { result ≡ later skipped report }
{
    Report {
        number: report.number.saturating_add(skipped),
        bad: report.bad,
    }
}

/// Counts lines that were not read before others, and moves the reports of these, from one on.
fn renumber(scan: &mut Scan<'_>, first: u64, skipped: u64)
    ensures renumbered { scan.new
        ≡ renumbered scan.old skipped (moved 10 first skipped scan.old.reports) }
{
    scan.number = scan.number.saturating_add(skipped);
    for index in 0..REPORTS_MAX {
        if index as u64 >= first {
            scan.reports[index] = later(scan.reports[index], skipped);
        }
    }
}

/// Prints what `between` prints of the lines of a part of a file.
fn print_part<S: ReadAt, W: Write>(
    command: &mut Between<'_>,
    source: &S,
    from: u64,
    to: u64,
    failed: &mut bool,
    output: &mut Watched<W>,
) -> Result<(), RunError>
    ensures ended { OnOk result (IfSome (S.text source.now) (λ text. EndsPart command.old command.new
        (W.contents output.old.inner) (W.contents output.new.inner) (part text from to))) }
    ensures flushed { OnOk result (output.new.flushed ≡ true) }
    ensures failed { output.old.failed ≡ false →
        FailsBy result failed.old failed.new output.new.failed }
{
    let mut window = Watched::new(Window {
        source,
        at: from,
        end: to,
    });
    let ended = run(command, &mut window, output, &mut NoObserver);
    if window.failed() {
        *failed = true;
    }
    ended
}

/// Prints the lines of a part of a file, before which others were not read. If one of them is bad,
/// these are counted, for the numbers of the reports, also if a read or a write failed.
fn print_found<S: ReadAt, W: Write>(
    command: &mut Between<'_>,
    source: &S,
    begin: u64,
    start: u64,
    end: u64,
    failed: &mut bool,
    output: &mut Watched<W>,
) -> Result<(), RunError>
    requires ordered { begin ≤ start }
    ensures ended { OnOk result (IfSome (S.text source.now) (λ text.
        EndsFound command.old command.new (W.contents output.old.inner)
        (W.contents output.new.inner) text begin start end)) }
    // Also if an end fails.
    ensures numbers { IfSome (S.text source.now) (λ text.
        HasNumbers command.old command.new text begin start) }
    ensures flushed { OnOk result (output.new.flushed ≡ true) }
    ensures failed { output.old.failed ≡ false →
        FailsBy result failed.old failed.new output.new.failed }
{
    let told = command.scan.bad;
    let ended = print_part(command, source, start, end, failed, output);
    if command.scan.bad > told && !command.prefix.has_number {
        let mut missed = false;
        match count_lines(source, 0, begin, start, &mut missed) {
            Ok(skipped) => renumber(&mut command.scan, told, skipped),
            // Nobody knows their numbers, so these reports are not told.
            Err(_) => {
                command.scan.bad = told;
                if ended.is_ok() {
                    *failed = true;
                    return Err(RunError::Read);
                }
            }
        }
    }
    ended
}

/// The same, and then, unless the run has ended, passes over the lines after the part, if there are any:
/// an entry begins there that is not printed.
fn print_bounded<S: ReadAt, W: Write>(
    command: &mut Between<'_>,
    source: &S,
    begin: u64,
    start: u64,
    end: u64,
    failed: &mut bool,
    output: &mut Watched<W>,
) -> Result<(), RunError>
    requires ordered { begin ≤ start }
    ensures ended { OnOk result (IfSome (S.text source.now) (λ text.
        EndsBounded command.old command.new (W.contents output.old.inner)
        (W.contents output.new.inner) text begin start end)) }
    ensures flushed { OnOk result (output.new.flushed ≡ true) }
    ensures failed { output.old.failed ≡ false →
        FailsBy result failed.old failed.new output.new.failed }
{
    print_found(command, source, begin, start, end, failed, output)?;
    if end < u64::MAX && !command.scan.is_stopped() {
        command.pass_entry();
    }
    Ok(())
}

/// Prints what `between` prints of a file from a byte on, at which a line begins.
fn print_rest<S: ReadAt, W: Write>(
    command: &mut Between<'_>,
    source: &S,
    begin: u64,
    size: u64,
    failed: &mut bool,
    output: &mut Watched<W>,
) -> Result<(), RunError>
    ensures same { awaits_header command.old.scan ≡ false → OnOk result (IfSome (S.text source.now)
        (λ text. PrintsRest command.old command.new (W.contents output.old.inner)
        (W.contents output.new.inner) text (lines (drop begin text)))) }
    ensures flushed { OnOk result (output.new.flushed ≡ true) }
    ensures failed { output.old.failed ≡ false →
        FailsBy result failed.old failed.new output.new.failed }
{
    let Ok(start) = command.start(source, begin, size, failed) else {
        return Err(RunError::Read);
    };
    let Ok(number) = command.number_at(source, begin, start, failed) else {
        return Err(RunError::Read);
    };
    command.scan.number = number;
    let Ok(end) = command.end(source, start, size, failed) else {
        return Err(RunError::Read);
    };
    print_bounded(command, source, begin, start, end, failed, output)
}

/// Prints what `between` prints of a file with a header.
fn print_headed<S: ReadAt, W: Write>(
    command: &mut Between<'_>,
    source: &S,
    size: u64,
    failed: &mut bool,
    output: &mut Watched<W>,
) -> Result<(), RunError>
    requires awaits { awaits_header command.old.scan ≡ true }
    ensures same { OnOk result (IfSome (S.text source.now) (λ text. PrintsRest command.old command.new
        (W.contents output.old.inner) (W.contents output.new.inner) text (lines text))) }
    ensures flushed { OnOk result (output.new.flushed ≡ true) }
    ensures failed { output.old.failed ≡ false →
        FailsBy result failed.old failed.new output.new.failed }
{
    let Ok(second) = second_line(source, failed) else {
        return Err(RunError::Read);
    };
    let Some(begin) = second else {
        return print_part(command, source, 0, u64::MAX, failed, output);
    };
    print_part(command, source, 0, begin, failed, output)?;
    if command.scan.is_stopped() {
        return Ok(());
    }
    print_rest(command, source, begin, size, failed, output)
}

/// Prints what `between` prints of a file of so many bytes, whose values never fall. It is searched for
/// the bounds, and only a part of it is read. Bad values of what is not read are not noted.
///
/// Fails with `RunError::Read` if a read fails, which is noted in `failed`, with `RunError::Write` if a write or
/// the flush does.
pub fn between_in_order<S: ReadAt, W: Write>(
    command: &mut Between<'_>,
    source: &S,
    size: u64,
    failed: &mut bool,
    output: &mut Watched<W>,
) -> Result<(), RunError>
    // If the values of the file are in order, and no line ends the run, what is printed is what is
    // printed of all lines.
    ensures same { OnOk result (IfSome (S.text source.now) (λ text. PrintsFile command.old command.new
        (W.contents output.old.inner) (W.contents output.new.inner) text)) }
    ensures flushed { OnOk result (output.new.flushed ≡ true) }
    // If the output had not failed before, a read or the output has failed if and only if the answer says so.
    ensures failed { output.old.failed ≡ false →
        FailsBy result failed.old failed.new output.new.failed }
{
    if !command.is_searched() {
        return print_part(command, source, 0, u64::MAX, failed, output);
    }
    if awaits_header(&command.scan) {
        return print_headed(command, source, size, failed, output);
    }
    print_rest(command, source, 0, size, failed, output)
}
