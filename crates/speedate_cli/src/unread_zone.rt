//! A note on the name of a zone after the first value of a file, which is not read.

ghost use Rattle.std.specs.Prelude.{◌<◌, length};

use crate::told::tell_unread_zone;
use speedate::line_end;
use speedate_civil::time::is_boundary;
use speedate_scan::form::Form;
use speedate_scan::reading::{Reader, Reading};
use speedate_scan::scan::Scan;

/// How many bytes of a file are looked at.
pub const LOOKED_AT: usize = 4096;

/// No line of these bytes has this number, since each has its line feed.
const LINES_END: u64 = 4097;

/// Names of zones that logs print after a clock. The same name can be several offsets, so none is read.
const NAMES: [&str; 34] = [
    "ACDT", "ACST", "AEDT", "AEST", "AKDT", "AKST", "ART", "AWST", "BRT", "BST", "CDT", "CEST",
    "CET", "CST", "EAT", "EDT", "EEST", "EET", "EST", "HKT", "HST", "IST", "JST", "KST", "MDT",
    "MSK", "MST", "NZDT", "NZST", "PDT", "PST", "SAST", "SGT", "WEST",
];

/// What is looked for in the first bytes of a file.
#[derive(Clone, Copy)]
pub struct FirstZone<'r, 'a> {
    /// What tells.
    pub rt: &'r HostRuntime,
    /// How the values of the file are read, whose lines have not been read yet.
    pub scan: Scan<'a>,
}

impl FirstZone<'_, '_> {
    /// Tells the name of a zone after the first value of a text, which begins the file, if `--offset` would give that
    /// value an offset.
    pub fn tell(&self, text: &[u8]) {
        let reader = &self.scan.reader;
        if reader.form != Form::DateTime || reader.offset.is_some() {
            return;
        }
        if let Some((number, zone)) = first_zone(text, reader, self.scan.has_header) {
            tell_unread_zone(self.rt, self.scan.name, number, zone);
        }
    }
}

/// The name of a zone after the first value of a text without an offset, and the number of its line. Only whole lines
/// are looked at.
fn first_zone(text: &[u8], reader: &Reader<'_>, has_header: bool) -> Option<(u64, &'static str)> {
    let mut rest = text;
    for number in 1..LINES_END {
        let Some(end) = line_end(rest, 0) else {
            return None;
        };
        let line = &rest[..end];
        if number > 1 || !has_header {
            if let Reading::Value(found) = reader.read(line) {
                if found.offset.is_some() {
                    return None;
                }
                return zone_name(&line[found.to..]).map(|zone| (number, zone));
            }
        }
        rest = after_line(rest, end);
    }
    None
}

/// What follows the line feed at a place of a text.
fn after_line(text: &[u8], end: usize) -> &[u8]
    requires within { end < length text.now }
{
    &text[end + 1..]
}

/// The name of a zone with which a text begins after a blank: `CET` of `b" CET [1234]"`, none of `b" CETUS"`.
fn zone_name(rest: &[u8]) -> Option<&'static str> {
    let [b' ', text @ ..] = rest else {
        return None;
    };
    for &name in &NAMES {
        if text.starts_with(name.as_bytes()) && is_boundary(&text[name.len()..]) {
            return Some(name);
        }
    }
    None
}
