//! The command `summary`: how many lines and values there are, the earliest and the latest, and the longest
//! gap.

ghost use Rattle.std.specs.Prelude.{◌≡◌, ◌+◌, ◌++◌, ◌≤◌, length};
ghost use Rattle.arrayvec.specs.ArrayVec.{array_vec_len};
ghost use Rattle.speedate.specs.DateTime.{◌gives◌};
ghost use Rattle.speedate_commands.specs.Summary.{clock_at, clock_second, count_text};
ghost use Rattle.speedate_commands.specs.Summary.{counts_text, earlier_of, gap_end, gap_length, gap_size, later_of};
ghost use Rattle.speedate_commands.specs.Summary.{gap_text, within_64_bits};
ghost use Rattle.speedate_commands.specs.Summary.{instant_text, is_undated, longest_size};
ghost use Rattle.speedate_commands.specs.Summary.{longest_text, longest_with, one_more_if, shown_at};
ghost use Rattle.speedate_commands.specs.Summary.{summary_after, summary_machine, summary_text, named_text};

use crate::command::{About, Command};
use crate::nanosecond::{
    DATE_TIME_MAX, digits_needed, distance, past_second, push_date_time, push_duration_between,
};
use crate::order::{Latest, Order};
use crate::search::ReadAt;
use speedate::{DateTime, DateTimeConfig, ParseError, TimeConfig, TimestampUnit};
use speedate_scan::glance::Glance;
use speedate_scan::print::{push_line_place, push_number};
use speedate_scan::reading::Found;
use speedate_scan::scan::{LineKind, Scan};
use speedate_stream::run::{RunError, run};
use speedate_stream::{LineMachine, Observer, PENDING_MAX, Pending, Watched, push_bytes};
use std::io::{Read, Write};

/// No summary is longer.
pub const SUMMARY_MAX: usize = 4453;

/// Two values, one after the other.
#[derive(Clone, Copy)]
pub struct Gap<'a> {
    /// The nanosecond of the first, as `Found::instant` counts it.
    pub from: i128,
    /// The second.
    pub to: Latest<'a>,
}

/// Counts the lines and their values, and prints none.
#[derive(Clone, Copy)]
pub struct Summary<'a> {
    /// The last value, and how many were earlier than the one before.
    pub order: Order<'a>,
    /// How many lines there were.
    pub lines: u64,
    /// How many of them have a value that fits.
    pub values: u64,
    /// How many of them have no value.
    pub undated: u64,
    /// The earliest value, if there is one.
    pub earliest: Option<Latest<'a>>,
    /// The latest.
    pub latest: Option<Latest<'a>>,
    /// The longest gap between a value and a later one that comes next, if there is one.
    pub longest: Option<Gap<'a>>,
}

/// A count, with one more if there is one.
fn one_more_if(is_one: bool, count: u64) -> u64
    ensures count { result ≡ one_more_if is_one count }
{
    if is_one {
        count.saturating_add(1)
    } else {
        count
    }
}

/// Whether a line has no value.
fn is_undated(line: &LineKind) -> bool
    ensures undated { result ≡ is_undated line.now }
{
    matches!(line, LineKind::Undated)
}

impl Gap<'_> {
    /// How many nanoseconds it has.
    fn size(&self) -> i128
        ensures size { result ≡ gap_size self.now }
    {
        distance(self.from, self.to.instant)
    }
}

impl<'a> Summary<'a> {
    /// Keeps a value, if it is the earliest.
    fn keep_earliest(&mut self, value: &Latest<'a>)
        ensures kept { self.new ≡ record self.old {
          earliest = Some (earlier_of self.old.earliest value.now);
        } }
    {
        let is_earlier = match &self.earliest {
            Some(kept) => value.instant < kept.instant,
            None => true,
        };
        if is_earlier {
            self.earliest = Some(*value);
        }
    }

    /// Keeps a value, if it is the latest.
    fn keep_latest(&mut self, value: &Latest<'a>)
        ensures kept { self.new ≡ record self.old {
          latest = Some (later_of self.old.latest value.now);
        } }
    {
        let is_later = match &self.latest {
            Some(kept) => kept.instant < value.instant,
            None => true,
        };
        if is_later {
            self.latest = Some(*value);
        }
    }

    /// How many nanoseconds the longest gap has: 0 if there is none.
    fn longest_size(&self) -> i128
        ensures size { result ≡ longest_size self.now.longest }
    {
        match &self.longest {
            Some(gap) => gap.size(),
            None => 0,
        }
    }

    /// Keeps the gap before a value, if it is the longest.
    fn keep_longest(&mut self, value: &Latest<'a>)
        ensures kept { self.new ≡ record self.old {
          longest = longest_with self.old.longest self.old.order.latest value.now;
        } }
    {
        let Some(before) = &self.order.latest else {
            return;
        };
        let from = before.instant;
        if self.longest_size() < distance(from, value.instant) {
            self.longest = Some(Gap { from, to: *value });
        }
    }

    /// Adds a line with this value.
    #[inline(always)]
    fn add_value(&mut self, found: &Found)
        ensures added { self.new ≡ summary_after self.old (LineKind.Value found.now) }
    {
        let value = Latest::new(&self.order.scan, found);
        self.keep_earliest(&value);
        self.keep_latest(&value);
        self.keep_longest(&value);
        self.lines = self.lines.saturating_add(1);
        self.values = self.values.saturating_add(1);
        self.order.pass_value(&value, found);
    }

    /// Adds any line, by its head.
    #[inline(never)]
    fn add_any(&mut self, head: &[u8])
        ensures added { self.new ≡ summary_machine.after self.old head.now }
    {
        let (line, _) = self.order.scan.any_line(head);
        self.add(line);
    }

    /// Adds a line.
    fn add(&mut self, line: LineKind)
        ensures added { self.new ≡ summary_after self.old line }
    {
        if let LineKind::Value(found) = &line {
            return self.add_value(found);
        }
        self.lines = one_more_if(line.is_counted(), self.lines);
        self.undated = one_more_if(is_undated(&line), self.undated);
        self.order.pass(line);
    }

    /// Appends the summary.
    #[tactic(auto, unfolding(crate::specs::Summary::summary_text), using(std::proofs::Common::append_assoc))]
    pub fn push_onto(&self, pending: &mut Pending)
        requires room { array_vec_len pending.old + SUMMARY_MAX ≤ PENDING_MAX }
        ensures pushed { pending.new.items ≡ pending.old.items ++ summary_text self.now }
        ensures length { array_vec_len pending.new ≤ array_vec_len pending.old + SUMMARY_MAX }
    {
        self.push_counts(pending);
        push_named(b"earliest ", &self.earliest, pending);
        push_named(b"latest ", &self.latest, pending);
        push_longest(&self.longest, pending);
    }

    /// Appends the counts, each with its name.
    #[tactic(auto, unfolding(crate::specs::Summary::counts_text), using(std::proofs::Common::append_assoc))]
    fn push_counts(&self, pending: &mut Pending)
        requires room { array_vec_len pending.old + 170 ≤ PENDING_MAX }
        ensures pushed { pending.new.items ≡ pending.old.items ++ counts_text self.now }
        ensures length { array_vec_len pending.new ≤ array_vec_len pending.old + 170 }
    {
        push_count(b"lines ", self.lines, pending);
        push_count(b"values ", self.values, pending);
        push_count(b"undated ", self.undated, pending);
        push_count(b"bad ", self.order.scan.bad, pending);
        push_count(b"out of order ", self.order.late, pending);
    }
}

/// Appends a count with its name, which has at most 13 bytes: `lines 3`, and a line feed.
#[tactic(auto, unfolding(crate::specs::Summary::count_text), using(std::proofs::Common::append_assoc))]
fn push_count(name: &[u8], count: u64, pending: &mut Pending)
    requires short { length name.now ≤ 13 }
    requires room { array_vec_len pending.old + 34 ≤ PENDING_MAX }
    ensures pushed { pending.new.items ≡ pending.old.items ++ count_text name.now count }
    ensures length { array_vec_len pending.new ≤ array_vec_len pending.old + 34 }
{
    push_bytes(name, pending);
    push_number(count, pending);
    push_bytes(b"\n", pending);
}

/// Appends a value with its name, which has at most 9 bytes, if there is one: `latest
/// 2026-11-22T06:10:00Z`, and a line feed.
#[tactic(auto, unfolding(crate::specs::Summary::named_text), using(std::proofs::Common::append_assoc))]
fn push_named(name: &[u8], value: &Option<Latest<'_>>, pending: &mut Pending)
    requires short { length name.now ≤ 9 }
    requires room { array_vec_len pending.old + 52 ≤ PENDING_MAX }
    ensures pushed { pending.new.items ≡ pending.old.items ++ named_text name.now value.now }
    ensures length { array_vec_len pending.new ≤ array_vec_len pending.old + 52 }
{
    if let Some(value) = value {
        push_bytes(name, pending);
        push_instant(value.offset, value.instant, pending);
        push_bytes(b"\n", pending);
    }
}

/// Appends the date-time of a value: `2026-11-22T06:10:00Z`.
#[tactic(auto, unfolding(crate::specs::Summary::instant_text))]
fn push_instant(offset: Option<i32>, instant: i128, pending: &mut Pending)
    requires room { array_vec_len pending.old + DATE_TIME_MAX ≤ PENDING_MAX }
    ensures pushed { pending.new.items ≡ pending.old.items ++ instant_text offset instant }
    ensures length { array_vec_len pending.new ≤ array_vec_len pending.old + DATE_TIME_MAX }
{
    if let Ok(shown) = shown_at(offset, instant) {
        let nanosecond = past_second(instant);
        push_date_time(digits_needed(nanosecond), nanosecond, &shown, pending);
    }
}

/// The date-time by which an instant is shown, without its fraction: in UTC if it has an offset, or at its own offset if
/// UTC is not in the years 0000 to 9999. Without an offset, as a clock shows it.
#[tactic(auto, unfolding(crate::specs::Summary::shown_at))]
fn shown_at(offset: Option<i32>, instant: i128) -> Result<DateTime, ParseError>
    ensures shown { result gives shown_at offset instant }
{
    let Some(own) = offset else {
        return clock_at(None, instant);
    };
    match clock_at(Some(0), instant) {
        Ok(utc) => Ok(utc),
        Err(_) => clock_at(Some(own), instant),
    }
}

/// What a clock at an offset shows at an instant, without the fraction, in the years 0000 to 9999.
#[tactic(auto, unfolding(crate::specs::Summary::clock_at))]
fn clock_at(offset: Option<i32>, instant: i128) -> Result<DateTime, ParseError>
    ensures clock { result gives clock_at offset instant }
{
    let config = DateTimeConfig {
        timestamp_unit: TimestampUnit::Second,
        time_config: TimeConfig::default(),
    };
    match DateTime::from_timestamp_with_config(clock_second(offset, instant), 0, &config) {
        Ok(shown) => shown.with_timezone_offset(offset),
        Err(fault) => Err(fault),
    }
}

/// The whole second that a clock at an offset shows: one beyond 64 bits is the nearest that fits them.
fn clock_second(offset: Option<i32>, instant: i128) -> i64
    ensures clock { result ≡ clock_second offset instant }
{
    within_64_bits(instant.div_euclid(1_000_000_000) + i128::from(offset.unwrap_or(0)))
}

/// A number, or the nearest one that fits 64 bits.
fn within_64_bits(number: i128) -> i64
    ensures within { result ≡ within_64_bits number }
{
    if number < i128::from(i64::MIN) {
        i64::MIN
    } else if number > i128::from(i64::MAX) {
        i64::MAX
    } else {
        number as i64
    }
}

/// Appends the longest gap, if there is one.
#[tactic(auto, unfolding(crate::specs::Summary::longest_text))]
fn push_longest(longest: &Option<Gap<'_>>, pending: &mut Pending)
    requires room { array_vec_len pending.old + 4179 ≤ PENDING_MAX }
    ensures pushed { pending.new.items ≡ pending.old.items ++ longest_text longest.now }
    ensures length { array_vec_len pending.new ≤ array_vec_len pending.old + 4179 }
{
    if let Some(gap) = longest {
        push_gap(gap, pending);
    }
}

/// Appends how long a gap is, and where it ends: `longest gap PT10S before app.log:7`, and a line feed.
fn push_gap(gap: &Gap<'_>, pending: &mut Pending)
    requires room { array_vec_len pending.old + 4179 ≤ PENDING_MAX }
    ensures pushed { pending.new.items ≡ pending.old.items ++ gap_text gap.now }
    ensures length { array_vec_len pending.new ≤ array_vec_len pending.old + 4179 }
{
    push_gap_length(b"longest gap ", gap, pending);
    push_gap_end(gap, pending);
}

/// Appends how long a gap is, after a name: `longest gap PT10S`.
#[tactic(auto, unfolding(crate::specs::Summary::gap_length), using(std::proofs::Common::append_assoc))]
fn push_gap_length(name: &[u8], gap: &Gap<'_>, pending: &mut Pending)
    requires room { array_vec_len pending.old + length name.now + 41 ≤ PENDING_MAX }
    ensures pushed { pending.new.items ≡ pending.old.items ++ gap_length name.now gap.now }
    ensures length { array_vec_len pending.new ≤ array_vec_len pending.old + length name.now + 41 }
{
    push_bytes(name, pending);
    push_duration_between(gap.from, gap.to.instant, pending);
}

/// Appends where a gap ends: ` before app.log:7`, and a line feed.
#[tactic(auto, unfolding(crate::specs::Summary::gap_end), using(std::proofs::Common::append_assoc))]
fn push_gap_end(gap: &Gap<'_>, pending: &mut Pending)
    requires room { array_vec_len pending.old + 4126 ≤ PENDING_MAX }
    ensures pushed { pending.new.items ≡ pending.old.items ++ gap_end gap.now }
    ensures length { array_vec_len pending.new ≤ array_vec_len pending.old + 4126 }
{
    push_bytes(b" before ", pending);
    push_line_place(gap.to.name, gap.to.number, pending);
    push_bytes(b"\n", pending);
}

impl LineMachine for Summary<'_> {
    ghost use Rattle.speedate_commands.specs.Summary.{summary_machine};

    ghost machine = { summary_machine };

    fn is_done(&self) -> bool {
        self.order.scan.is_stopped()
    }

    fn passes(&self, _head: &[u8]) -> bool {
        false
    }

    fn step(&mut self, head: &[u8], _pending: &mut Pending) -> Option<usize> {
        match &self.order.scan.glance(head) {
            Glance::Value(value, from, to) => {
                let found = self.order.scan.reader.found(head, value, *from, *to);
                self.add_value(&found);
            }
            Glance::Undated(_) => self.add(LineKind::Undated),
            Glance::Unknown => self.add_any(head),
        }
        None
    }
}

impl<'a> Command<'a> for Summary<'a> {
    ghost use Rattle.speedate_commands.specs.Summary.{summary_about, summary_begun, summary_says, summary_text};
    ghost use Rattle.speedate_commands.specs.Runs.{SearchesNone};

    ghost scan = { λ summary. summary.order.scan };

    ghost begun = { summary_begun };

    ghost Says = { summary_says };

    ghost Searches = { SearchesNone };

    ghost about = { summary_about };

    ghost end_text = { summary_text };

    fn scan(&self) -> Scan<'a> {
        self.order.scan
    }

    fn begin(&mut self, name: &'a [u8]) {
        self.order.scan.begin(name);
    }

    fn about(&self) -> About {
        About {
            kind: self.order.scan.reader.form.call_kind(),
            tells_bad: true,
            before: 0,
            reported: self.order.late,
            is_too_large: false,
            is_in_order: false,
        }
    }

    fn print<R: Read, W: Write, O: Observer<Self>>(
        &mut self,
        input: &mut Watched<R>,
        output: &mut Watched<W>,
        observer: &mut O,
    ) -> Result<(), RunError> {
        run(self, input, output, observer)
    }

    fn search<S: ReadAt, W: Write>(
        &mut self,
        _source: &S,
        _size: u64,
        _failed: &mut bool,
        _output: &mut Watched<W>,
    ) -> Result<(), RunError> {
        Ok(())
    }

    fn push_end(&self, pending: &mut Pending) {
        self.push_onto(pending);
    }
}
