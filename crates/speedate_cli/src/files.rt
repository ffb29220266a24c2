//! Runs of a command over files, one after the other, and what is told of them on standard error.

ghost use Rattle.std.specs.Prelude.{◌≡◌, ◌≤◌, ◌==◌, ℕ, [], List, OnOk, Option, Some, false, true};
ghost use Rattle.speedate_cli.specs.Files.{Leaves, Prints, RunsFile, RunsFiles, about_status};
ghost use Rattle.speedate_cli.specs.Files.{is_over, is_write};
ghost use Rattle.speedate_stream.specs.Run.{Writes};

use crate::input::{Input, Reasoned, open_input};
use crate::reason::Reason;
use crate::seeking::Seeking;
use crate::told::{Reports, tell_counts, tell_file, tell_line, tell_output};
use crate::unread_zone::{FirstZone, LOOKED_AT};
use speedate::CallKind;
use speedate_commands::command::Command;
use speedate_commands::status::{READ, USAGE, WRITE, lines_status, worse};
use speedate_scan::form::Form;
use speedate_scan::scan::{Offsets, Scan, Stop};
use speedate_stream::run::{RunError, send};
use speedate_stream::{Failed, Observer, Pending, Watched};
use std::io::{self, ErrorKind, Read, Seek, SeekFrom, Stdout, Write};

/// Standard output, which remembers whether its reader has gone.
#[derive(Drop)]
pub struct Output<W> {
    /// Standard output.
    pub inner: W,
    /// Whether its reader has gone.
    pub is_closed: bool,
}

impl<W: Write> Write for Output<W> {
    fn write(&mut self, bytes: &[u8]) -> io::Result<usize> {
        let written = self.inner.write(bytes);
        if let Err(error) = &written {
            self.is_closed = error.kind() == ErrorKind::BrokenPipe;
        }
        written
    }

    fn flush(&mut self) -> io::Result<()> {
        self.inner.flush()
    }
}

/// Standard output.
pub fn standard_output(rt: &HostRuntime) -> Watched<Output<Stdout>> {
    Watched::new(Output {
        inner: rt.stdout(),
        is_closed: false,
    })
}

/// The names of the files: without any, standard input.
pub fn names_or_input<'n, 'a>(names: &'n [&'a str]) -> &'n [&'a str] {
    if names.is_empty() { &["-"] } else { names }
}

/// Where files are.
pub trait Files<R: Read> {
    ghost use Rattle.std.specs.Prelude.{◌≡◌, ℕ, IfSome, List, Option};

    // What a file with a name holds, where that is known.
    ghost contents: { Self → List ℕ → Option (List ℕ) };

    /// Opens a file, or tells why it cannot be read.
    fn open(&self, name: &str) -> Option<R>
        ensures contents { IfSome result (λ input. R.remaining input ≡ contents self.now name.now) };
}

/// The files of the system, and standard input.
#[derive(Clone, Copy)]
pub struct System<'r> {
    /// The system.
    pub rt: &'r HostRuntime,
}

impl Files<Input> for System<'_> {
    ghost use Rattle.std.specs.Prelude.{None};

    ghost contents = { λ _ _. None };

    fn open(&self, name: &str) -> Option<Input> {
        open_input(self.rt, name)
    }
}

/// Runs a command over files, and returns the exit status. Without files it reads standard input.
pub fn run_files<'a, C: Command<'a>>(rt: &HostRuntime, command: &mut C, names: &[&'a str]) -> u8
    ensures lines { about_status (C.scan command.new) (C.about command.new) ≤ result }
{
    let mut output = standard_output(rt);
    let names = names_or_input(names);
    let mut status = run_each(rt, command, &System { rt }, names, &mut output);
    if status != WRITE && write_end(command, &mut output).is_err() {
        status = WRITE;
    }
    if status == WRITE {
        status = tell_output(rt, output.into_inner().is_closed);
    }
    worse(status, tell_end(rt, command))
}

/// Runs a command over files, and returns the exit status as far as it is about each of them.
pub fn run_each<'a, C: Command<'a>, R: Read + Seek + Drop, F: Files<R>, W: Write>(
    rt: &HostRuntime,
    command: &mut C,
    files: &F,
    names: &[&'a str],
    output: &mut Watched<W>,
) -> u8
    ensures ran { RunsFiles C.machine C.scan C.begun C.Says C.about (F.contents files.now) names.now
        command.old command.new (W.contents output.old.inner) (W.contents output.new.inner) 0 result }
    // If the output had not failed before, it has failed if and only if the status says so.
    ensures failed { output.old.failed ≡ false → output.new.failed ≡ (result == WRITE) }
{
    let mut status = 0;
    for name in names {
        if is_over(command, status) {
            return status;
        }
        let one = run_file(rt, command, files, name, output);
        status = worse(status, one);
    }
    status
}

/// Whether no further file is opened: a write failed, or the command wants no further line.
fn is_over<'a, C: Command<'a>>(command: &C, status: u8) -> bool
    ensures over { result ≡ is_over C.machine C.scan C.begun C.Says C.about command.now status }
{
    status == WRITE || command.is_done()
}

/// Writes what is printed after the last file.
pub fn write_end<'a, C: Command<'a>, W: Write>(
    command: &C,
    output: &mut Watched<W>,
) -> Result<(), Failed>
    ensures written { Writes W.contents output.old output.new result [] (C.end_text command.now) }
    ensures flushed { OnOk result (output.new.flushed ≡ true) }
{
    let mut end = Pending::new();
    command.push_end(&mut end);
    send(&mut end, output)?;
    output.flush()
}

/// Runs a command over a file, and returns the exit status as far as it is about the file.
fn run_file<'a, C: Command<'a>, R: Read + Seek + Drop, F: Files<R>, W: Write>(
    rt: &HostRuntime,
    command: &mut C,
    files: &F,
    name: &'a str,
    output: &mut Watched<W>,
) -> u8
    ensures ran { RunsFile C.machine C.scan C.begun C.Says C.about name.now
        (F.contents files.now name.now) command.old command.new
        (W.contents output.old.inner) (W.contents output.new.inner) result }
    ensures failed { output.old.failed ≡ false → output.new.failed ≡ (result == WRITE) }
{
    command.begin(name.as_bytes());
    let Some(input) = files.open(name) else {
        return READ;
    };
    let mut reports = Reports {
        rt,
        name: name.as_bytes(),
        told: command.scan().bad,
    };
    let first_zone = first_zone(rt, command);
    let (ended, reason) = run_input(command, input, output, first_zone, &mut reports);
    reports.before_read(command);
    let is_without_value = command.scan().is_without_value();
    tell_file(rt, name, ended, is_without_value, reason)
}

/// Prints what a command prints of an input, and returns also why a read failed, if one did.
fn run_input<'a, C: Command<'a>, R: Read + Seek + Drop, W: Write, O: Observer<C>>(
    command: &mut C,
    input: R,
    output: &mut Watched<W>,
    first_zone: Option<FirstZone<'_, 'a>>,
    observer: &mut O,
) -> (Result<(), RunError>, Option<Reason>)
    ensures left { Leaves C.machine C.scan C.begun C.Says C.about (Some result.0)
        command.old command.new (R.remaining input)
        (W.contents output.old.inner) (W.contents output.new.inner) }
    ensures failed { output.old.failed ≡ false → output.new.failed ≡ is_write result.0 }
{
    if command.about().is_in_order {
        return search_input(command, input, output, first_zone, observer);
    }
    read_input(command, input, output, first_zone, observer)
}

/// Prints what a command prints of an input that is searched. One that cannot be moved in is read as a whole.
fn search_input<'a, C: Command<'a>, R: Read + Seek + Drop, W: Write, O: Observer<C>>(
    command: &mut C,
    mut input: R,
    output: &mut Watched<W>,
    first_zone: Option<FirstZone<'_, 'a>>,
    observer: &mut O,
) -> (Result<(), RunError>, Option<Reason>)
    ensures failed { output.old.failed ≡ false → output.new.failed ≡ is_write result.0 }
{
    let Ok(size) = input.seek(SeekFrom::End(0)) else {
        return read_input(command, input, output, first_zone, observer);
    };
    if let Some(first_zone) = first_zone {
        look_at_first(&mut input, &first_zone);
    }
    let source = Seeking::new(input);
    let ended = command.search(&source, size, &mut false, output);
    (ended, source.reason())
}

/// What is looked for in the first bytes of a file, whose lines have not been read yet: nothing if no date-times are
/// read, or if `check` takes each value by itself.
fn first_zone<'r, 'a, C: Command<'a>>(
    rt: &'r HostRuntime,
    command: &C,
) -> Option<FirstZone<'r, 'a>> {
    let scan = command.scan();
    let about = command.about();
    let is_by_itself = !about.tells_bad && scan.offsets == Offsets::Any;
    if about.kind != CallKind::DateTime || is_by_itself {
        return None;
    }
    Some(FirstZone { rt, scan })
}

/// Looks at the first bytes of an input that is searched, if they can be read: the search tells why one cannot.
fn look_at_first<R: Read + Seek>(input: &mut R, first_zone: &FirstZone<'_, '_>) {
    let mut buffer = [0; LOOKED_AT];
    if input.seek(SeekFrom::Start(0)).is_err() {
        return;
    }
    if let Ok(count) = input.read(&mut buffer) {
        first_zone.tell(&buffer[..count]);
    }
}

/// Prints what a command prints of an input that is read as a whole.
fn read_input<'a, C: Command<'a>, R: Read + Drop, W: Write, O: Observer<C>>(
    command: &mut C,
    input: R,
    output: &mut Watched<W>,
    first_zone: Option<FirstZone<'_, 'a>>,
    observer: &mut O,
) -> (Result<(), RunError>, Option<Reason>)
    ensures left { (rest : Option (List ℕ)) × Prints C.machine C.scan C.begun C.Says C.about result.0
        command.old command.new (R.remaining input) rest
        (W.contents output.old.inner) (W.contents output.new.inner) }
    ensures failed { output.old.failed ≡ false → output.new.failed ≡ is_write result.0 }
{
    let mut input = Watched::new(Reasoned::new(input, first_zone));
    let ended = command.print(&mut input, output, observer);
    (ended, input.into_inner().reason)
}

impl<'a, C: Command<'a>> Observer<C> for Reports<'_, 'a> {
    fn before_read(&mut self, command: &C) {
        let scan = command.scan();
        let about = command.about();
        if about.tells_bad {
            self.tell(&scan, about.kind);
        }
        self.told = scan.bad;
    }
}

/// Tells on standard error what is to be told at the end, and returns the exit status as far as it is
/// about the lines.
fn tell_end<'a, C: Command<'a>>(rt: &HostRuntime, command: &C) -> u8
    ensures status { result ≡ about_status (C.scan command.now) (C.about command.now) }
{
    let scan = command.scan();
    let about = command.about();
    let unfit = match (scan.stop, scan.offsets) {
        (Stop::AtUnfit, Offsets::AsBounds(has_offset)) => Some(has_offset),
        _ => None,
    };
    if let Some(has_offset) = unfit {
        tell_unfit(rt, &scan, has_offset);
    }
    let bad = if about.tells_bad { scan.bad } else { 0 };
    tell_counts(rt, bad, about.before);
    if unfit.is_some() {
        return USAGE;
    }
    if about.is_too_large {
        let _ = eprintln!(rt; "speedate: the total has more than 999,999,999 days");
    }
    lines_status(scan.bad, about.reported, about.is_too_large)
}

/// Tells that the first value does not fit the bounds, which have an offset or have none.
fn tell_unfit(rt: &HostRuntime, scan: &Scan<'_>, has_offset: bool) {
    let advice = if scan.reader.form == Form::Date {
        "the value is a date: give bounds without an offset"
    } else if has_offset {
        "the value has no offset: give --offset, or bounds without one"
    } else {
        "the value has an offset: give bounds with one"
    };
    tell_line(rt, scan, advice);
}
