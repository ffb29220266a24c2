//! The command `check`: a report of each bad value and, if these are asked for, of each value that is
//! earlier than the one before, or comes too long after it.

ghost use Rattle.std.specs.Prelude.{◌≡◌, ◌+◌, ◌++◌, ◌≤◌, int_lt, true};
ghost use Rattle.arrayvec.specs.ArrayVec.{array_vec_len};
ghost use Rattle.speedate_commands.specs.Check.{bad_report, check_after, check_machine};
ghost use Rattle.speedate_commands.specs.Check.{check_text, compares, cut_value, cutting};
ghost use Rattle.speedate_commands.specs.Check.{gaps_after, is_after_gap, is_plain, line_text};
ghost use Rattle.speedate_commands.specs.Check.{reported, value_report};
ghost use Rattle.speedate_commands.specs.Nanosecond.{distance};

use crate::command::{About, Command};
use crate::nanosecond::distance;
use crate::order::{APART_MAX, Order, push_gap, push_late};
use crate::search::ReadAt;
use speedate::MicrosecondsPrecisionOverflowBehavior;
use speedate_scan::print::{REPORT_MAX, push_report};
use speedate_scan::reading::{Bad, Found, Reader};
use speedate_scan::scan::{LineKind, Offsets, Scan};
use speedate_stream::run::{RunError, run};
use speedate_stream::{LineMachine, Observer, PENDING_MAX, Pending, STEP_MAX, Watched};
use std::io::{Read, Write};

/// Prints a report of each bad value, and of values by the one before, and no line itself.
#[derive(Clone, Copy)]
pub struct Check<'a> {
    /// What is known of the lines so far, and the value before if values are compared.
    pub order: Order<'a>,
    /// Whether values are reported that are earlier than the one before.
    pub reports_late: bool,
    /// The longest time between two values, in nanoseconds, if a value after a longer one is reported.
    pub gap: Option<i128>,
    /// How many values came more than that after the one before.
    pub gaps: u64,
}

/// Whether a value comes more than so many nanoseconds after another.
fn is_past_gap(from: i128, to: i128, gap: i128) -> bool
    ensures past { result ≡ int_lt gap (distance from to) }
{
    gap < distance(from, to)
}

/// The same lines, in which digits past the microsecond are cut off.
fn cut_scan<'a>(scan: &Scan<'a>) -> Scan<'a>
    ensures cutting { result ≡ cutting scan.now }
{
    let mut cut = *scan;
    cut.reader = Reader {
        place: scan.reader.place,
        form: scan.reader.form,
        behavior: MicrosecondsPrecisionOverflowBehavior::Truncate,
        offset: scan.reader.offset,
    };
    cut
}

impl Check<'_> {
    /// Whether values are compared with the one before.
    #[inline(always)]
    fn compares(&self) -> bool
        ensures compares { result ≡ compares self.now }
    {
        self.reports_late || self.gap.is_some()
    }

    /// Whether a value comes more than a gap after the one before.
    fn is_after_gap(&self, instant: i128) -> bool
        ensures after { result ≡ is_after_gap self.now.gap instant self.now.order.latest }
    {
        match (self.gap, &self.order.latest) {
            (Some(gap), Some(latest)) => is_past_gap(latest.instant, instant, gap),
            _ => false,
        }
    }

    /// Appends the report of a value, by the one before.
    fn push_value(&self, instant: i128, pending: &mut Pending)
        requires room { array_vec_len pending.old + APART_MAX ≤ PENDING_MAX }
        ensures pushed { pending.new.items
            ≡ pending.old.items ++ value_report self.now instant self.now.order.latest }
        ensures length { array_vec_len pending.new ≤ array_vec_len pending.old + APART_MAX }
    {
        let Some(latest) = &self.order.latest else {
            return;
        };
        let scan = &self.order.scan;
        if self.reports_late && instant < latest.instant {
            push_late(scan.name, scan.next_number(), instant, latest, pending);
        } else if self.is_after_gap(instant) {
            push_gap(scan.name, scan.next_number(), instant, latest, pending);
        }
    }

    /// Appends the report of a bad value.
    fn push_bad(&self, bad: &Bad, pending: &mut Pending)
        requires room { array_vec_len pending.old + REPORT_MAX ≤ PENDING_MAX }
        ensures pushed { pending.new.items
            ≡ pending.old.items ++ bad_report self.now.order.scan bad.now }
        ensures length { array_vec_len pending.new ≤ array_vec_len pending.old + REPORT_MAX }
    {
        let scan = &self.order.scan;
        push_report(
            scan.name,
            scan.next_number(),
            bad,
            scan.reader.form.call_kind(),
            pending,
        );
    }

    /// Appends what is reported of a line by itself, or by the value before.
    fn push_line(&self, line: &LineKind, pending: &mut Pending)
        requires room { array_vec_len pending.old + APART_MAX ≤ PENDING_MAX }
        ensures pushed { pending.new.items ≡ pending.old.items ++ line_text self.now line.now }
        ensures length { array_vec_len pending.new ≤ array_vec_len pending.old + APART_MAX }
    {
        match line {
            LineKind::Bad(bad) => self.push_bad(bad, pending),
            LineKind::Value(found) => self.push_value(found.instant, pending),
            _ => {}
        }
    }

    /// Appends what is reported of a line, of which this value is to be compared although its digits are bad.
    #[tactic(auto, using(std::proofs::Common::append_assoc))]
    fn push_text(&self, line: &LineKind, cut: &Option<Found>, pending: &mut Pending)
        requires room { array_vec_len pending.old + STEP_MAX ≤ PENDING_MAX }
        ensures pushed { pending.new.items
            ≡ pending.old.items ++ check_text self.now line.now cut.now }
        ensures length { array_vec_len pending.new ≤ array_vec_len pending.old + STEP_MAX }
    {
        self.push_line(line, pending);
        if let Some(found) = cut {
            self.push_value(found.instant, pending);
        }
    }

    /// The value of a bad line that is to be compared, since only its digits past the microsecond are bad.
    fn cut_value(&self, head: &[u8], line: &LineKind) -> Option<Found>
        ensures cut { result ≡ cut_value self.now head.now line.now }
    {
        let scan = &self.order.scan;
        if !self.compares()
            || scan.reader.behavior != MicrosecondsPrecisionOverflowBehavior::Error
        {
            return None;
        }
        match line {
            LineKind::Bad(_) => cut_scan(scan).line(head).found(),
            _ => None,
        }
    }

    /// How many values were reported as earlier than the one before, or as after a gap.
    fn reported(&self) -> u64
        ensures reported { result ≡ reported self.now }
    {
        let late = if self.reports_late {
            self.order.late
        } else {
            0
        };
        late.saturating_add(self.gaps)
    }

    /// How many values came after a gap, after a line that has this value to be compared.
    fn gaps_after(&self, found: &Option<Found>) -> u64
        ensures gaps { result ≡ gaps_after self.now found.now }
    {
        match found {
            Some(found) if self.is_after_gap(found.instant) => self.gaps.saturating_add(1),
            _ => self.gaps,
        }
    }

    /// Whether each value is looked at by itself, all fit, the first one came, and the run has not ended.
    #[inline(always)]
    fn is_plain(&self) -> bool
        ensures plain { result ≡ is_plain self.now }
    {
        !self.compares()
            && matches!(self.order.scan.offsets, Offsets::Any)
            && self.order.scan.first.is_found()
            && !self.order.scan.is_stopped()
    }

    /// Reports and counts a line by what is bad about it.
    #[inline(always)]
    #[tactic(auto, using(crate::proofs::CheckLemmas::plain_text, crate::proofs::CheckLemmas::plain_bad_text, crate::proofs::CheckLemmas::plain_after, crate::proofs::CheckLemmas::plain_bad_after, crate::proofs::CheckLemmas::plain_offsets))]
    fn pass_plain(&mut self, head: &[u8], pending: &mut Pending)
        requires plain { is_plain self.old ≡ true }
        requires room { array_vec_len pending.old + STEP_MAX ≤ PENDING_MAX }
        ensures after { self.new ≡ check_machine.after self.old head.now }
        ensures pushed { pending.new.items
            ≡ pending.old.items ++ check_machine.text self.old head.now }
        ensures length { array_vec_len pending.new ≤ array_vec_len pending.old + STEP_MAX }
    {
        match self.order.scan.what_is_bad(head) {
            Some(bad) => {
                self.push_bad(&bad, pending);
                self.order.scan.pass(LineKind::Bad(bad));
            }
            None => self.order.scan.count(),
        }
    }

    /// Reports and counts a line by its value, too.
    #[inline(never)]
    fn pass_any(&mut self, head: &[u8], pending: &mut Pending)
        requires room { array_vec_len pending.old + STEP_MAX ≤ PENDING_MAX }
        ensures after { self.new ≡ check_machine.after self.old head.now }
        ensures pushed { pending.new.items
            ≡ pending.old.items ++ check_machine.text self.old head.now }
        ensures length { array_vec_len pending.new ≤ array_vec_len pending.old + STEP_MAX }
    {
        let line = self.order.scan.line(head);
        let cut = self.cut_value(head, &line);
        self.push_text(&line, &cut, pending);
        self.pass(line, &cut);
    }

    /// Counts a line, of which this value is to be compared although its digits are bad.
    fn pass(&mut self, line: LineKind, cut: &Option<Found>)
        ensures after { self.new ≡ check_after self.old line cut.now }
    {
        if !self.compares() {
            self.order.scan.pass(line);
            return;
        }
        match cut {
            Some(found) => {
                self.gaps = self.gaps_after(cut);
                self.order.pass_cut(line, found);
            }
            None => {
                self.gaps = self.gaps_after(&line.found());
                self.order.pass(line);
            }
        }
    }
}

impl LineMachine for Check<'_> {
    ghost use Rattle.speedate_commands.specs.Check.{check_machine};

    ghost machine = { check_machine };

    fn is_done(&self) -> bool {
        self.order.scan.is_stopped()
    }

    fn passes(&self, _head: &[u8]) -> bool {
        false
    }

    fn step(&mut self, head: &[u8], pending: &mut Pending) -> Option<usize> {
        if self.is_plain() {
            self.pass_plain(head, pending);
        } else {
            self.pass_any(head, pending);
        }
        None
    }
}

impl<'a> Command<'a> for Check<'a> {
    ghost use Rattle.std.specs.Prelude.{[]};
    ghost use Rattle.speedate_commands.specs.Check.{check_about, check_begun, check_says};
    ghost use Rattle.speedate_commands.specs.Runs.{SearchesNone};

    ghost scan = { λ check. check.order.scan };

    ghost begun = { check_begun };

    ghost Says = { check_says };

    ghost Searches = { SearchesNone };

    ghost about = { check_about };

    ghost end_text = { λ _. [] };

    fn scan(&self) -> Scan<'a> {
        self.order.scan
    }

    fn begin(&mut self, name: &'a [u8]) {
        self.order.scan.begin(name);
    }

    fn about(&self) -> About {
        About {
            kind: self.order.scan.reader.form.call_kind(),
            tells_bad: false,
            before: self.order.scan.first.lines_before(),
            reported: self.reported(),
            is_too_large: false,
            is_in_order: false,
        }
    }

    fn print<R: Read, W: Write, O: Observer<Self>>(
        &mut self,
        input: &mut Watched<R>,
        output: &mut Watched<W>,
        observer: &mut O,
    ) -> Result<(), RunError> {
        run(self, input, output, observer)
    }

    fn search<S: ReadAt, W: Write>(
        &mut self,
        _source: &S,
        _size: u64,
        _failed: &mut bool,
        _output: &mut Watched<W>,
    ) -> Result<(), RunError> {
        Ok(())
    }

    fn push_end(&self, _pending: &mut Pending) {}
}
