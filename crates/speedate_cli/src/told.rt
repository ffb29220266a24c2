//! What all commands tell on standard error, and the exit status for it.

ghost use Rattle.std.specs.Prelude.{◌≡◌, ◌≤◌, length};
ghost use Rattle.speedate_commands.specs.Status.{file_status};

use crate::reason::Reason;
use speedate::CallKind;
use speedate_commands::between::Bounds;
use speedate_commands::status::{READ, WRITE, file_status, is_due};
use speedate_scan::print::{push_line_place, push_report};
use speedate_scan::reading::seen;
use speedate_scan::scan::{Report, Scan};
use speedate_stream::run::RunError;
use speedate_stream::{Pending, push_bytes};
use std::io::Write;

/// Tells that the output failed, unless its reader has gone, and returns the exit status.
pub fn tell_output(rt: &HostRuntime, is_closed: bool) -> u8
    ensures status { result ≡ WRITE }
{
    if !is_closed {
        let _ = eprintln!(rt; "speedate: output failed");
    }
    WRITE
}

/// Tells that memory ran out, and what follows from it, and returns the exit status.
pub fn tell_memory(rt: &HostRuntime, consequence: &str) -> u8
    ensures status { result ≡ READ }
{
    let _ = eprintln!(rt; "speedate: memory ran out{consequence}");
    READ
}

/// Tells what is to be told of a file that was opened: why it could not be read, or that no line has a value.
/// Returns the exit status as far as it is about the file.
pub fn tell_file(
    rt: &HostRuntime,
    name: &str,
    ended: Result<(), RunError>,
    is_without_value: bool,
    reason: Option<Reason>,
) -> u8
    ensures status { result ≡ file_status ended is_without_value }
{
    match ended {
        Ok(()) => {
            if is_without_value {
                let _ = eprintln!(rt; "speedate: {name}: no line has a value");
            }
        }
        Err(RunError::Read) => {
            let reason = reason.unwrap_or(Reason::Other);
            let _ = eprintln!(rt; "speedate: {name}: cannot be read: {reason}");
        }
        Err(RunError::Write) => {}
    }
    file_status(ended, is_without_value)
}

/// The bad values of a file: those that are among the first are told, once each.
#[derive(Clone, Copy)]
pub struct Reports<'r, 'a> {
    /// What tells.
    pub rt: &'r HostRuntime,
    /// The name of the file.
    pub name: &'a [u8],
    /// How many values were bad when they were told last.
    pub told: u64,
}

impl Reports<'_, '_> {
    /// Tells the bad values that are among the first, but for those that were told.
    pub fn tell(&self, scan: &Scan<'_>, kind: CallKind) {
        for (index, report) in scan.reports.iter().enumerate() {
            if is_due(index as u64, self.told, scan.bad) {
                self.tell_report(kind, report);
            }
        }
    }

    /// Tells a bad value. If that fails too, only the status is left to tell.
    fn tell_report(&self, kind: CallKind, report: &Report) {
        let mut text = Pending::new();
        push_report(self.name, report.number, &report.bad, kind, &mut text);
        let _ = self.rt.stderr().write_all(text.as_slice());
    }
}

/// Tells something of the last line.
pub fn tell_line(rt: &HostRuntime, scan: &Scan<'_>, told: &str)
    requires short { length told.now ≤ 100 }
{
    let mut text = Pending::new();
    push_bytes(b"speedate: ", &mut text);
    push_line_place(scan.name, scan.number, &mut text);
    push_bytes(b": ", &mut text);
    push_bytes(told.as_bytes(), &mut text);
    push_bytes(b"\n", &mut text);
    let _ = rt.stderr().write_all(text.as_slice());
}

/// Tells that the name of a zone is not read.
pub fn tell_unread_zone(rt: &HostRuntime, name: &[u8], number: u64, zone: &str) {
    let mut text = Pending::new();
    push_bytes(b"speedate: ", &mut text);
    push_line_place(name, number, &mut text);
    push_bytes(b": ", &mut text);
    push_bytes(seen(zone.as_bytes()), &mut text);
    push_bytes(
        b" is not read: --offset gives values an offset\n",
        &mut text,
    );
    let _ = rt.stderr().write_all(text.as_slice());
}

/// Tells that nothing lies between two bounds, if they are the same.
pub fn tell_bounds(rt: &HostRuntime, bounds: &Bounds) {
    if bounds.from.is_some() && bounds.from == bounds.to {
        let _ = eprintln!(rt; "speedate: FROM is TO: nothing lies between them");
    }
}

/// Tells how many lines were bad, and how many were before the first entry, if there were any.
pub fn tell_counts(rt: &HostRuntime, bad: u64, before: u64) {
    tell_count(rt, bad, "bad line", "bad lines");
    tell_count(
        rt,
        before,
        "line before the first entry",
        "lines before the first entry",
    );
}

/// Tells how many lines of a kind there were, if there were any.
fn tell_count(rt: &HostRuntime, count: u64, one: &str, many: &str) {
    if count > 0 {
        let what = if count == 1 { one } else { many };
        let _ = eprintln!(rt; "speedate: {count} {what}");
    }
}
