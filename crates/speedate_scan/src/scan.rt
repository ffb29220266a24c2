//! What each line is to a command, and what is counted of the lines.

ghost use Rattle.std.specs.Prelude.{◌≡◌, ◌+◌, ◌≤◌, ◌<◌, ◌==◌, ◌&&◌, IfSome, length, is_some, not};
ghost use Rattle.std.specs.List.{position};
ghost use Rattle.std.specs.Option.{option_map};
ghost use Rattle.speedate.specs.DateTime.{date_and_time};
ghost use Rattle.speedate_stream.specs.Watch.{one_more};
ghost use Rattle.speedate_scan.specs.Reading.{Found, IsReadWithin, IsWithin};
ghost use Rattle.speedate_scan.specs.Reading.{value_of};
ghost use Rattle.speedate_scan.specs.Scan.{IsFoundWithin, IsLineParsed, has_offsets, is_counted, keeps};
ghost use Rattle.speedate_scan.specs.Scan.{Offsets, counted, fits, found_in, is_stopped, is_value};
ghost use Rattle.speedate_scan.specs.Scan.{before_entry, begun, headers, is_dated, is_found, is_without_value};
ghost use Rattle.speedate_scan.specs.Scan.{judged, line_of, lines_before, valued};
ghost use Rattle.speedate_scan.specs.Scan.{is_clock_byte, noted, offset_place, passed, settled, unfit};

use crate::glance::Glance;
use crate::reading::{Bad, Found, Reader, Reading, Why};
use speedate::{DateTime, ParseError};
use speedate_base::numbers::is_decimal_mark;

/// How many bad values are reported one by one.
pub const REPORTS_MAX: usize = 10;

/// What is done with lines that have no value.
#[derive(Clone, Copy, Debug, PartialEq, Eq)]
pub enum UndatedLines {
    /// They belong to the entry before them.
    Join,
    /// They are left out.
    Drop,
    /// They are bad.
    Bad,
}

/// What is done with lines whose value is bad.
#[derive(Clone, Copy, Debug, PartialEq, Eq)]
pub enum BadLines {
    /// They belong to the entry before them.
    Keep,
    /// The first of them ends the run.
    Stop,
}

/// Which values fit: with an offset or without one.
#[derive(Clone, Copy, Debug, PartialEq, Eq)]
pub enum Offsets {
    /// All values.
    Any,
    /// Those that have one as the first value has, which is still to come.
    AsFirst,
    /// Those that have one, or have none.
    Only(bool),
    /// The same, as the bounds have it, and the first value is still to come. If it does not fit, the
    /// run ends.
    AsBounds(bool),
}

/// Whether the run has ended before its input.
#[derive(Clone, Copy, Debug, PartialEq, Eq)]
pub enum Stop {
    /// It has not.
    No,
    /// A value was bad.
    AtBad,
    /// The first value did not fit the bounds.
    AtUnfit,
}

/// A bad value of a line.
#[derive(Clone, Copy, Debug)]
pub struct Report {
    /// The number of the line.
    pub number: u64,
    /// What is bad.
    pub bad: Bad,
}

/// What is known of the lines up to the first value.
#[derive(Clone, Copy, Debug)]
pub struct First {
    /// Whether a line of the file has a value, which may be bad.
    pub has_value: bool,
    /// Whether an entry has begun, in this file or in one before it.
    pub has_entry: bool,
    /// How many lines came before the first entry.
    pub before: u64,
}

/// What a line is to a command.
#[derive(Clone, Copy)]
pub enum LineKind {
    /// A line after the run has ended.
    Late,
    /// The first line of a file that has a header.
    Header,
    /// A line with a value that fits.
    Value(Found),
    /// A line whose value is bad.
    Bad(Bad),
    /// The line of the first value, which does not fit the bounds.
    Unfit,
    /// A line without a value.
    Undated,
}

/// What is known of the lines so far, and how they are read.
#[derive(Clone, Copy)]
pub struct Scan<'a> {
    /// How values are read.
    pub reader: Reader<'a>,
    /// What is done with lines that have no value.
    pub undated_lines: UndatedLines,
    /// What is done with lines whose value is bad.
    pub bad_lines: BadLines,
    /// Whether the first line of a file is a header.
    pub has_header: bool,
    /// The name of the file.
    pub name: &'a [u8],
    /// How many lines of the file have been read.
    pub number: u64,
    /// Which values fit.
    pub offsets: Offsets,
    /// Whether the run has ended.
    pub stop: Stop,
    /// What is known of the lines up to the first value.
    pub first: First,
    /// How many values were bad.
    pub bad: u64,
    /// The first of them.
    pub reports: [Report; REPORTS_MAX],
}

impl First {
    /// What is known before the first file.
    pub const NOTHING: First = First {
        has_value: false,
        has_entry: false,
        before: 0,
    };

    /// How many lines came before the first entry, after one more that begins none.
    fn before_entry(&self) -> u64
        ensures before { result ≡ before_entry self.now }
    {
        if self.has_entry {
            self.before
        } else {
            self.before.saturating_add(1)
        }
    }

    /// Whether no further line of the file changes what is known of the first value.
    #[inline(always)]
    pub fn is_found(&self) -> bool
        ensures found { result ≡ is_found self.now }
    {
        self.has_value && self.has_entry
    }

    /// How many lines came before the first entry, if one has begun: otherwise 0.
    pub fn lines_before(&self) -> u64
        ensures before { result ≡ lines_before self.now }
    {
        if self.has_entry { self.before } else { 0 }
    }
}

impl Why {
    /// Whether a bad line has a value, which is bad.
    fn is_dated(&self) -> bool
        ensures dated { result ≡ is_dated self.now }
    {
        !matches!(self, Why::Undated(_))
    }
}

/// How many lines of a file are its header.
fn headers(has_header: bool) -> u64
    ensures headers { result ≡ headers has_header }
{
    if has_header { 1 } else { 0 }
}

impl LineKind {
    /// Whether the line has a value.
    pub fn is_value(&self) -> bool
        ensures value { result ≡ is_value self.now }
    {
        matches!(self, LineKind::Value(_))
    }

    /// The value of the line, if it has one that fits.
    pub fn found(&self) -> Option<Found>
        ensures found { result ≡ found_in self.now }
    {
        match self {
            LineKind::Value(found) => Some(*found),
            _ => None,
        }
    }

    /// Whether the line came before the run ended.
    pub fn is_counted(&self) -> bool
        ensures counted { result ≡ is_counted self.now }
    {
        !matches!(self, LineKind::Late)
    }
}

impl Offsets {
    /// Whether a value fits that has an offset, or has none.
    pub(crate) fn fits(self, is_zoned: bool) -> bool
        ensures fits { (found : Found) → is_some found.offset ≡ is_zoned
            → result ≡ fits self found }
    {
        match self {
            Offsets::Any | Offsets::AsFirst => true,
            Offsets::Only(has_offset) | Offsets::AsBounds(has_offset) => { is_zoned == has_offset }
        }
    }

    /// Which values fit after one that fits.
    pub fn settled(self, found: &Found) -> Self
        ensures settled { result ≡ settled self found.now }
    {
        match self {
            Offsets::Any => Offsets::Any,
            _ => Offsets::Only(found.offset.is_some()),
        }
    }
}

/// Whether a byte is one of a clock: a digit, a colon or a decimal mark.
fn is_clock_byte(byte: u8) -> bool
    ensures clock { result ≡ is_clock_byte byte }
{
    byte.is_ascii_digit() || byte == b':' || is_decimal_mark(byte)
}

/// How many bytes of a clock begin a text, if others follow.
fn clock_size(text: &[u8]) -> Option<usize>
    ensures size { result ≡ position (λ byte. not (is_clock_byte byte)) text.now }
    ensures within { IfSome result (λ size. size < length text.now) }
{
    text.iter().position(|&byte| !is_clock_byte(byte))
}

/// Where the offset of a value begins in its text: 20 in `b"2026-11-22T06:10:00 +0100"`. A Unix timestamp is in UTC
/// as a whole.
#[tactic(auto, using(crate::proofs::ScanLemmas::no_offset_in))]
fn offset_place(text: &[u8]) -> usize
    ensures place { result ≡ offset_place text.now }
    ensures within { result ≤ length text.now }
{
    if text.len() < 11 {
        return 0;
    }
    let Some(size) = clock_size(&text[11..]) else {
        return 0;
    };
    let place = 11 + size;
    if text[place] == b' ' {
        place + 1
    } else {
        place
    }
}

/// What is bad about a value that does not fit: that it has no offset, or that it has one.
#[cold]
#[inline(never)]
fn unfit(found: &Found, head: &[u8]) -> Bad
    requires within { IsWithin found.now head.now }
    ensures unfit { result ≡ unfit head.now found.now }
{
    if found.offset.is_some() {
        let place = found.from + offset_place(&head[found.from..found.to]);
        Bad {
            place,
            why: Why::NoOffset,
        }
    } else {
        Bad {
            place: found.to,
            why: Why::Parse(ParseError::TzRequired),
        }
    }
}

impl<'a> Scan<'a> {
    /// Begins a file with this name: its lines are counted anew.
    pub fn begin(&mut self, name: &'a [u8])
        ensures begun { self.new ≡ begun self.old name.entry }
    {
        self.name = name;
        self.number = 0;
        self.first.has_value = false;
    }
}

impl Scan<'_> {
    /// Whether the run has ended.
    pub fn is_stopped(&self) -> bool
        ensures stopped { result ≡ is_stopped self.now.stop }
    {
        match self.stop {
            Stop::No => false,
            Stop::AtBad | Stop::AtUnfit => true,
        }
    }

    /// Whether the lines that were counted are all of a file without any value. A header is not counted.
    pub fn is_without_value(&self) -> bool
        ensures without { result ≡ is_without_value self.now }
    {
        !self.first.has_value && !self.is_stopped() && headers(self.has_header) < self.number
    }

    /// Whether values are to have an offset.
    pub fn has_offsets(&self) -> bool
        ensures has { result ≡ has_offsets self.now.offsets }
    {
        match self.offsets {
            Offsets::Any | Offsets::AsFirst => false,
            Offsets::Only(has_offset) | Offsets::AsBounds(has_offset) => has_offset,
        }
    }

    /// The number of the line that is looked at.
    pub fn next_number(&self) -> u64
        ensures number { result ≡ one_more self.now.number }
    {
        self.number.saturating_add(1)
    }

    /// What a line is, by its head.
    #[inline(always)]
    pub fn line(&self, head: &[u8]) -> LineKind
        ensures line { result ≡ line_of self.now head.now }
        ensures within { IsFoundWithin result head.now }
    {
        match &self.glance(head) {
            Glance::Value(value, from, to) => {
                LineKind::Value(self.reader.found(head, value, *from, *to))
            }
            _ => self.any_line(head).0,
        }
    }

    /// What a line is, by its head, and its value, if it has one, without a first look at what the library reads at
    /// once.
    #[inline(never)]
    #[tactic(auto, unfolding(crate::specs::Scan::line_of))]
    pub fn any_line(&self, head: &[u8]) -> (LineKind, Option<DateTime>)
        ensures line { result.0 ≡ line_of self.now head.now }
        ensures within { IsFoundWithin result.0 head.now }
        ensures value { IsLineParsed (value_of self.now.reader head.now) result.0
            (option_map date_and_time result.1) }
    {
        if self.is_stopped() {
            return (LineKind::Late, None);
        }
        if self.is_at_header() {
            return (LineKind::Header, None);
        }
        let (reading, value) = self.reader.parse(head);
        (self.judged(reading, head), value)
    }

    /// Whether the next line is the header of its file.
    pub(crate) fn is_at_header(&self) -> bool
        ensures header { result ≡ (self.now.has_header && (self.now.number == 0)) }
    {
        self.has_header && self.number == 0
    }

    /// What a line is by what is read of it.
    #[inline(always)]
    pub fn judged(&self, reading: Reading, head: &[u8]) -> LineKind
        requires within { IsReadWithin reading head.now }
        ensures judged { result ≡ judged self.now head.now reading }
        ensures within { IsFoundWithin result head.now }
    {
        match reading {
            Reading::Value(found) => {
                if self.offsets.fits(found.offset.is_some()) {
                    return LineKind::Value(found);
                }
                match self.offsets {
                    Offsets::AsBounds(_) => LineKind::Unfit,
                    _ => LineKind::Bad(unfit(&found, head)),
                }
            }
            Reading::Bad(bad) => LineKind::Bad(bad),
            Reading::Undated(place) => {
                if self.undated_lines == UndatedLines::Bad {
                    let why = Why::Undated(self.reader.form);
                    LineKind::Bad(Bad { place, why })
                } else {
                    LineKind::Undated
                }
            }
        }
    }

    /// Whether a line is not left out: no line after the run has ended, no bad one that ends it, and no undated one
    /// that is to be dropped.
    pub fn keeps(&self, line: &LineKind) -> bool
        ensures keeps { result ≡ keeps self.now line.now }
    {
        match line {
            LineKind::Header | LineKind::Value(_) => true,
            LineKind::Bad(_) => self.bad_lines == BadLines::Keep,
            LineKind::Undated => self.undated_lines != UndatedLines::Drop,
            LineKind::Late | LineKind::Unfit => false,
        }
    }

    /// Counts a line, and notes what is bad about it.
    #[inline(always)]
    #[tactic(auto, unfolding(crate::specs::Scan::passed))]
    pub fn pass(&mut self, line: LineKind)
        ensures passed { self.new ≡ passed self.old line }
    {
        match line {
            LineKind::Late => {}
            LineKind::Header => self.count(),
            LineKind::Undated => {
                self.first.before = self.first.before_entry();
                self.count();
            }
            LineKind::Value(found) => self.pass_value(&found),
            LineKind::Bad(bad) => {
                if self.bad_lines == BadLines::Stop {
                    self.stop = Stop::AtBad;
                }
                self.first.has_value |= bad.why.is_dated();
                self.first.before = self.first.before_entry();
                self.note(bad);
            }
            LineKind::Unfit => {
                self.stop = Stop::AtUnfit;
                self.first.has_value = true;
                self.count();
            }
        }
    }

    /// Counts a line with this value.
    #[inline(always)]
    #[tactic(auto, unfolding(crate::specs::Scan::passed))]
    pub fn pass_value(&mut self, found: &Found)
        ensures passed { self.new ≡ passed self.old (LineKind.Value found.now) }
    {
        self.offsets = self.offsets.settled(found);
        self.count_value();
    }

    /// Counts a line that has a value.
    #[inline(always)]
    pub fn count_value(&mut self)
        ensures counted { self.new ≡ valued self.old }
    {
        self.first.has_value = true;
        self.first.has_entry = true;
        self.count();
    }

    /// Counts a line.
    pub fn count(&mut self)
        ensures counted { self.new ≡ counted self.old }
    {
        self.number = self.number.saturating_add(1);
    }

    /// Counts a line whose value is bad, and keeps the report if it is one of the first.
    fn note(&mut self, bad: Bad)
        ensures noted { self.new ≡ noted self.old bad }
    {
        self.count();
        if self.bad < REPORTS_MAX as u64 {
            let number = self.number;
            self.reports[self.bad as usize] = Report { number, bad };
        }
        self.bad = self.bad.saturating_add(1);
    }
}
