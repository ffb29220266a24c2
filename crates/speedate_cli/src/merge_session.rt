//! The inputs of `merge`, and what is told of them on standard error.

ghost use Rattle.std.specs.Prelude.{◌≡◌, ◌<◌, ◌≤◌, IfSome, length};
ghost use Rattle.speedate_cli.specs.Files.{halt_status};

use crate::files::{names_or_input, standard_output};
use crate::input::{Input, Reasoned, open_input};
use crate::reason::Reason;
use crate::told::{Reports, tell_counts, tell_file, tell_line, tell_memory, tell_output};
use crate::unread_zone::FirstZone;
use speedate_commands::order::{Latest, push_late};
use speedate_commands::status::{BAD, READ, lines_status, worse};
use speedate_scan::scan::{Offsets, REPORTS_MAX, Scan};
use speedate_sort::merge::{Before, Halt, Halted, Reporter, Source, merge};
use speedate_sort::sort::{Keys, Unread};
use speedate_stream::Pending;
use speedate_stream::run::RunError;
use std::alloc::AllocError;
use std::io::{BufReader, Write};

/// A source of a file, or of standard input.
type FileSource<'r, 'a> = Source<'a, BufReader<Reasoned<'r, 'a, Input>>>;

/// Runs `merge` over files, and returns the exit status. Without files it reads standard input. All are
/// opened before a line is printed, and none is printed if one cannot be opened or its first line not read.
pub fn run_merge<'a>(rt: &HostRuntime, keys: &Keys<'a>, files: &[&'a str]) -> u8 {
    let files = names_or_input(files);
    let mut sources = Vec::new(rt.alloc());
    match open_sources(rt, keys, files, &mut sources) {
        Ok(0) => merge_opened(rt, files, &mut sources, keys.scan.offsets),
        Ok(status) => status,
        Err(_) => tell_memory(rt, ""),
    }
}

/// Opens each file, and returns the exit status as far as it is about that.
///
/// Fails if memory runs out.
fn open_sources<'r, 'a>(
    rt: &'r HostRuntime,
    keys: &Keys<'a>,
    files: &[&'a str],
    sources: &mut Vec<FileSource<'r, 'a>>,
) -> Result<u8, AllocError> {
    let mut status = 0;
    for name in files {
        match open_source(rt, *keys, name)? {
            Some(source) => sources.push(source)?,
            None => status = READ,
        }
    }
    Ok(status)
}

/// Merges sources of which no line has been read, and returns the exit status.
fn merge_opened(
    rt: &HostRuntime,
    files: &[&str],
    sources: &mut [FileSource<'_, '_>],
    offsets: Offsets,
) -> u8 {
    let mut offsets = offsets;
    let mut first_bad = FirstBad { rt, told: 0 };
    match read_first_lines(sources, &mut offsets, &mut first_bad) {
        Some(halted) => tell_end(rt, files, sources, Some(halted)),
        None => merge_sources(rt, files, sources, offsets, &mut first_bad),
    }
}

/// Reads the first line of each source, up to one whose lines end the merge.
fn read_first_lines(
    sources: &mut [FileSource<'_, '_>],
    offsets: &mut Offsets,
    first_bad: &mut FirstBad<'_>,
) -> Option<Halted> {
    for index in 0..sources.len() {
        if let Err(halt) = sources[index].next(offsets, first_bad) {
            return Some(Halted { index, halt });
        }
    }
    None
}

/// Tells the first bad values of all sources.
#[derive(Drop)]
struct FirstBad<'r> {
    /// What tells.
    rt: &'r HostRuntime,
    /// How many bad values came so far, also those that were not told.
    told: u64,
}

impl Reporter for FirstBad<'_> {
    ghost use Rattle.std.specs.Prelude.{◌+◌, ◌-◌, ◌^◌, min};

    ghost reported = { λ first_bad scan told. record first_bad {
      told = min (first_bad.told + (scan.bad - told)) (2 ^ 64 - 1);
    } };

    fn report(&mut self, scan: &Scan<'_>, told: u64) {
        let reports = Reports {
            rt: self.rt,
            name: scan.name,
            told,
        };
        let mut shown = *scan;
        let left = (REPORTS_MAX as u64).saturating_sub(self.told);
        shown.bad = scan.bad.min(told.saturating_add(left));
        reports.tell(&shown, scan.reader.form.call_kind());
        self.told = self.told.saturating_add(scan.bad.saturating_sub(told));
    }
}

/// Opens a file of which no line has been read, or tells why it cannot be read.
///
/// Fails if memory runs out.
fn open_source<'r, 'a>(
    rt: &'r HostRuntime,
    mut keys: Keys<'a>,
    name: &'a str,
) -> Result<Option<FileSource<'r, 'a>>, AllocError> {
    keys.scan.begin(name.as_bytes());
    let Some(input) = open_input(rt, name) else {
        return Ok(None);
    };
    Ok(Some(source_of(rt, keys, input)?))
}

/// The source of an input of which nothing was read.
///
/// Fails if memory runs out.
fn source_of<'r, 'a>(
    rt: &'r HostRuntime,
    keys: Keys<'a>,
    input: Input,
) -> Result<FileSource<'r, 'a>, AllocError> {
    match BufReader::new(rt.alloc(), looked_at(rt, &keys.scan, input)) {
        Ok(input) => Ok(Source::new(keys, input, rt.alloc())),
        Err(_) => Err(AllocError),
    }
}

/// An input of which nothing was read, whose first bytes are looked at.
fn looked_at<'r, 'a>(
    rt: &'r HostRuntime,
    scan: &Scan<'a>,
    input: Input,
) -> Reasoned<'r, 'a, Input> {
    Reasoned::new(input, Some(FirstZone { rt, scan: *scan }))
}

/// Prints the lines of the sources in order, and returns the exit status as far as it is about that.
fn merge_sources(
    rt: &HostRuntime,
    files: &[&str],
    sources: &mut [FileSource<'_, '_>],
    offsets: Offsets,
    first_bad: &mut FirstBad<'_>,
) -> u8 {
    let mut output = standard_output(rt);
    match merge(sources, offsets, &mut output, first_bad) {
        Ok(halted) => tell_end(rt, files, sources, halted),
        Err(_) => {
            let status = tell_output(rt, output.into_inner().is_closed);
            worse(status, tell_end(rt, files, sources, None))
        }
    }
}

/// Tells how a merge of files ended, and returns the exit status as far as it is about that.
fn tell_end(
    rt: &HostRuntime,
    files: &[&str],
    sources: &[FileSource<'_, '_>],
    halted: Option<Halted>,
) -> u8
    ensures halted { IfSome halted (λ halted. halted.index < length files.now →
        halted.index < length sources.now → halt_status halted.halt ≤ result) }
{
    let mut sums = Sums {
        status: 0,
        bad: 0,
        before: 0,
    };
    for (index, (name, source)) in files.iter().zip(sources).enumerate() {
        sums.add(rt, name, source, is_unread(halted, index));
    }
    let status = worse(sums.status, lines_status(sums.bad, 0, false));
    let status = worse(status, tell_halted(rt, files, sources, halted));
    tell_counts(rt, sums.bad, sums.before);
    status
}

/// What is told of the sources of a merge together.
#[derive(Clone, Copy)]
struct Sums {
    /// The exit status as far as it is about sources without a value.
    status: u8,
    /// How many lines were bad.
    bad: u64,
    /// How many lines were before the first entry.
    before: u64,
}

impl Sums {
    /// Adds those of a source, and tells if it was read to its end and no line has a value.
    fn add(&mut self, rt: &HostRuntime, name: &str, source: &FileSource<'_, '_>, is_unread: bool) {
        let scan = &source.keys.scan;
        self.bad = self.bad.saturating_add(scan.bad);
        self.before = self.before.saturating_add(scan.first.lines_before());
        if source.line.is_empty() && !is_unread {
            let one = tell_file(rt, name, Ok(()), scan.is_without_value(), None);
            self.status = worse(self.status, one);
        }
    }
}

/// Tells why a source ended a merge, if one did, and returns the exit status for that.
fn tell_halted(
    rt: &HostRuntime,
    files: &[&str],
    sources: &[FileSource<'_, '_>],
    halted: Option<Halted>,
) -> u8
    ensures halted { IfSome halted (λ halted. halted.index < length files.now →
        halted.index < length sources.now → halt_status halted.halt ≤ result) }
{
    let Some(Halted { index, halt }) = halted else {
        return 0;
    };
    match (files.get(index), sources.get(index)) {
        (Some(name), Some(source)) => { tell_halt(rt, name, &source.keys, reason_of(source), halt) }
        _ => 0,
    }
}

/// Whether a merge ended since this source could not be read.
fn is_unread(halted: Option<Halted>, source: usize) -> bool {
    matches!(halted, Some(Halted { index, halt: Halt::Unread(_) }) if index == source)
}

/// Why a read of a source failed, if one did.
fn reason_of(source: &FileSource<'_, '_>) -> Option<Reason> {
    source.input.get_ref().reason
}

/// Tells why a source with these keys ended a merge, and returns the exit status for that.
fn tell_halt(
    rt: &HostRuntime,
    name: &str,
    keys: &Keys<'_>,
    reason: Option<Reason>,
    halt: Halt,
) -> u8
    ensures status { result ≡ halt_status halt }
{
    match halt {
        Halt::Unread(Unread::Memory) => return tell_memory(rt, ""),
        Halt::Unread(Unread::Read) => {
            return tell_file(rt, name, Err(RunError::Read), false, reason);
        }
        Halt::Bad => {}
        Halt::Late(before) => tell_before(rt, keys, before),
        Halt::Unlike => tell_unlike(rt, &keys.scan),
    }
    BAD
}

/// Tells where the last value stands, by how much it is before another, and where that stands.
fn tell_before(rt: &HostRuntime, keys: &Keys<'_>, before: Before) {
    let scan = &keys.scan;
    let latest = Latest {
        instant: before.instant,
        offset: None,
        name: scan.name,
        number: before.number,
    };
    let mut text = Pending::new();
    push_late(scan.name, scan.number, keys.instant, &latest, &mut text);
    let _ = rt.stderr().write_all(text.as_slice());
}

/// Tells that the first value of a file does not fit those of the files before it.
fn tell_unlike(rt: &HostRuntime, scan: &Scan<'_>) {
    let advice = if scan.has_offsets() {
        "the value has an offset, and those of another file have none"
    } else {
        "the value has no offset, and those of another file have one: give --offset"
    };
    tell_line(rt, scan, advice);
}
