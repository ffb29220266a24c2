//! The inputs of `sort`, and what is told of them on standard error.

ghost use Rattle.std.specs.Prelude.{◌≡◌, ◌≤◌, ◌==◌, IfOk, Result, false, true};
ghost use Rattle.speedate_commands.specs.Status.{lines_status};
ghost use Rattle.speedate_scan.specs.Scan.{is_stopped, is_without_value};
ghost use Rattle.speedate_sort.specs.Sort.{sorted_text};
ghost use Rattle.speedate_sort.specs.declared.sort.Unsorted.{Unsorted};
ghost use Rattle.speedate_cli.specs.Files.{FileEnd, PrintsSorted, end_status, sorted_status};

use crate::files::{names_or_input, standard_output};
use crate::input::{Input, Reasoned, open_input};
use crate::reason::Reason;
use crate::told::{Reports, tell_counts, tell_file, tell_memory, tell_output};
use crate::unread_zone::FirstZone;
use speedate_commands::status::{READ, WRITE, lines_status, worse};
use speedate_scan::scan::Scan;
use speedate_sort::sort::{KeyedLines, Keys, Unread, Unsorted};
use speedate_stream::Watched;
use speedate_stream::run::RunError;
use std::alloc::AllocError;
use std::io::Write;

/// What follows from it that memory ran out: lines are printed only once all are read.
const NOTHING: &str = ", and nothing is printed";

/// Runs `sort` over files, and returns the exit status. Without files it sorts standard input.
pub fn run_sort<'a>(rt: &HostRuntime, keys: &mut Keys<'a>, files: &[&'a str]) -> u8
    ensures lines { lines_status keys.new.scan.bad 0 false ≤ result }
    // Once a bad value has ended the run, no further file is begun.
    ensures stopped { is_stopped keys.old.scan.stop ≡ true → keys.new ≡ keys.old }
{
    let mut lines = KeyedLines::new(rt.alloc());
    let mut status = 0;
    for name in names_or_input(files) {
        if keys.scan.is_stopped() {
            break;
        }
        match add_file(rt, keys, name, &mut lines) {
            Ok(one) => status = worse(status, one),
            Err(_) => return tell_memory(rt, NOTHING),
        }
    }
    if !keys.scan.is_stopped() {
        status = worse(status, print_all(rt, &mut lines));
    }
    let bad = keys.scan.bad;
    tell_counts(rt, bad, keys.scan.first.lines_before());
    worse(status, lines_status(bad, 0, false))
}

/// Prints the lines in order on standard output, tells if it failed, and returns the exit status as far as it is about
/// that.
fn print_all(rt: &HostRuntime, lines: &mut KeyedLines) -> u8 {
    let mut output = standard_output(rt);
    let status = print_lines(rt, lines, &mut output);
    if status != WRITE {
        return status;
    }
    tell_output(rt, output.into_inner().is_closed)
}

/// Adds the lines of a file, tells what is bad, and returns the exit status as far as it is about the file.
///
/// Fails if memory runs out.
fn add_file<'a>(
    rt: &HostRuntime,
    keys: &mut Keys<'a>,
    name: &'a str,
    lines: &mut KeyedLines,
) -> Result<u8, AllocError>
    ensures status { IfOk result (λ status. (ended : FileEnd)
        × (status ≡ end_status ended (is_without_value keys.new.scan))) }
{
    keys.scan.begin(name.as_bytes());
    let Some(input) = open_input(rt, name) else {
        return Ok(READ);
    };
    let told = keys.scan.bad;
    let (added, reason) = add_input(rt, keys, input, lines);
    tell_bad(rt, name, &keys.scan, told);
    let ended = match added {
        Ok(()) => Ok(()),
        Err(Unread::Read) => Err(RunError::Read),
        Err(Unread::Memory) => return Err(AllocError),
    };
    let is_without_value = keys.scan.is_without_value();
    Ok(tell_file(rt, name, ended, is_without_value, reason))
}

/// Adds the lines of an input, and returns also why a read failed, if one did.
fn add_input<'a>(
    rt: &HostRuntime,
    keys: &mut Keys<'a>,
    input: Input,
    lines: &mut KeyedLines,
) -> (Result<(), Unread>, Option<Reason>) {
    let first_zone = FirstZone {
        rt,
        scan: keys.scan,
    };
    let mut input = Watched::new(Reasoned::new(input, Some(first_zone)));
    let added = lines.add(keys, &mut input);
    (added, input.into_inner().reason)
}

/// Tells the bad values of a file that are among the first, but for those that were told.
fn tell_bad(rt: &HostRuntime, name: &str, scan: &Scan<'_>, told: u64) {
    let reports = Reports {
        rt,
        name: name.as_bytes(),
        told,
    };
    reports.tell(scan, scan.reader.form.call_kind());
}

/// Prints the lines in order, and returns the exit status as far as it is about that.
fn print_lines<W: Write>(rt: &HostRuntime, lines: &mut KeyedLines, output: &mut Watched<W>) -> u8
    ensures printed { (ended : Result (Unit {0}) Unsorted) × (result ≡ sorted_status ended)
        × PrintsSorted ended (W.contents output.old.inner) (W.contents output.new.inner)
        (sorted_text lines.old) }
    ensures failed { output.old.failed ≡ false → output.new.failed ≡ (result == WRITE) }
{
    match lines.print(output) {
        Ok(()) => 0,
        Err(Unsorted::Memory) => tell_memory(rt, NOTHING),
        Err(Unsorted::Write) => WRITE,
    }
}
