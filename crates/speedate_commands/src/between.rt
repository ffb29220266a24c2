//! The command `between`: the entries whose value lies between two bounds.

ghost use Rattle.std.specs.Prelude.{◌≡◌, ◌+◌, ◌++◌, ◌≤◌, [], IfSome, None, Some, if◌then◌else◌};
ghost use Rattle.arrayvec.specs.ArrayVec.{array_vec_len};
ghost use Rattle.speedate_stream.specs.Watch.{one_more};
ghost use Rattle.speedate_scan.specs.Print.{prefix_text};
ghost use Rattle.speedate_commands.specs.Between.{between_after, between_machine, between_rest};
ghost use Rattle.speedate_commands.specs.Between.{between_text, is_begun, is_open};
ghost use Rattle.speedate_commands.specs.Between.{kept_after, lies_between, prints};

use crate::command::{About, Command};
use crate::in_order::between_in_order;
use crate::search::ReadAt;
use speedate_scan::glance::Glance;
use speedate_scan::print::{PREFIX_MAX, Prefix};
use speedate_scan::reading::Found;
use speedate_scan::scan::{LineKind, Scan};
use speedate_stream::run::{RunError, run};
use speedate_stream::{LineMachine, Observer, PENDING_MAX, Pending, STEP_MAX, Watched};
use std::io::{Read, Write};

/// Two bounds, in nanoseconds as [`Found::instant`] counts them. A bound that is absent is open.
#[derive(Clone, Copy, Debug)]
pub struct Bounds {
    /// The first nanosecond that lies between them.
    pub from: Option<i128>,
    /// The first nanosecond that does not any more.
    pub to: Option<i128>,
}

/// Prints the lines of the entries whose value lies between two bounds. An entry is a line with a value,
/// and the lines without one after it.
#[derive(Clone, Copy)]
pub struct Between<'a> {
    /// What is known of the lines so far.
    pub scan: Scan<'a>,
    /// The bounds.
    pub bounds: Bounds,
    /// What is printed before each line.
    pub prefix: Prefix,
    /// Whether the entry is printed.
    pub is_kept: bool,
    /// Whether the values of a file never fall, so that it is searched.
    pub is_in_order: bool,
}

impl Bounds {
    /// Whether a value lies between the bounds: `FROM <= value < TO`.
    fn holds(&self, found: &Found) -> bool
        ensures between { result ≡ lies_between self.now found.now.instant }
    {
        self.is_begun(found.instant) && self.is_open(found.instant)
    }

    /// Whether a nanosecond is not before the first bound.
    fn is_begun(&self, instant: i128) -> bool
        ensures begun { result ≡ is_begun self.now.from instant }
    {
        match self.from {
            None => true,
            Some(from) => from <= instant,
        }
    }

    /// Whether a nanosecond is before the second bound.
    fn is_open(&self, instant: i128) -> bool
        ensures open { result ≡ is_open self.now.to instant }
    {
        match self.to {
            None => true,
            Some(to) => instant < to,
        }
    }
}

impl Between<'_> {
    /// Whether the entry of a line is printed.
    fn kept_after(&self, line: &LineKind) -> bool
        ensures kept { result ≡ kept_after self.now line.now }
    {
        match line {
            LineKind::Value(found) => self.bounds.holds(found),
            _ => self.is_kept,
        }
    }

    /// Whether a line is printed, by whether its entry is.
    fn prints(&self, line: &LineKind, kept: bool) -> bool
        requires kept { kept ≡ kept_after self.now line.now }
        ensures prints { result ≡ prints self.now line.now }
    {
        match line {
            LineKind::Header => true,
            LineKind::Value(_) => kept,
            LineKind::Bad(_) | LineKind::Undated => self.is_kept && self.scan.keeps(line),
            LineKind::Late | LineKind::Unfit => false,
        }
    }

    /// Appends the prefix of a line if it is printed, and returns the byte from which on it follows.
    fn push_prefix(&self, is_printed: bool, pending: &mut Pending) -> Option<usize>
        requires room { array_vec_len pending.old + PREFIX_MAX ≤ PENDING_MAX }
        ensures pushed { pending.new.items ≡ pending.old.items ++ (if is_printed
            then prefix_text self.now.prefix self.now.scan.name.now (one_more self.now.scan.number)
            else []) }
        ensures rest { result ≡ (if is_printed then Some 0 else None) }
    {
        if !is_printed {
            return None;
        }
        self.prefix
            .push_onto(self.scan.name, self.scan.next_number(), pending);
        Some(0)
    }

    /// Prints what comes before a line with this value, counts the line, and returns the byte from which on it follows.
    #[inline(always)]
    fn pass_value(&mut self, found: &Found, pending: &mut Pending) -> Option<usize>
        requires room { array_vec_len pending.old + STEP_MAX ≤ PENDING_MAX }
        ensures after { self.new ≡ between_after self.old (LineKind.Value found.now) }
        ensures text { pending.new.items
            ≡ pending.old.items ++ between_text self.old (LineKind.Value found.now) }
        ensures rest { result ≡ between_rest self.old (LineKind.Value found.now) }
        ensures within { IfSome result (λ from. from ≡ 0) }
    {
        let kept = self.bounds.holds(found);
        let rest = self.push_prefix(kept, pending);
        self.is_kept = kept;
        self.scan.pass_value(found);
        rest
    }

    /// The same for a line by what it is.
    #[inline(always)]
    fn pass_line(&mut self, line: LineKind, pending: &mut Pending) -> Option<usize>
        requires room { array_vec_len pending.old + STEP_MAX ≤ PENDING_MAX }
        ensures after { self.new ≡ between_after self.old line }
        ensures text { pending.new.items ≡ pending.old.items ++ between_text self.old line }
        ensures rest { result ≡ between_rest self.old line }
        ensures within { IfSome result (λ from. from ≡ 0) }
    {
        let kept = self.kept_after(&line);
        let rest = self.push_prefix(self.prints(&line, kept), pending);
        self.is_kept = kept;
        self.scan.pass(line);
        rest
    }

    /// The same for any line, by its head.
    #[inline(never)]
    fn pass_any(&mut self, head: &[u8], pending: &mut Pending) -> Option<usize>
        requires room { array_vec_len pending.old + STEP_MAX ≤ PENDING_MAX }
        ensures after { self.new ≡ between_machine.after self.old head.now }
        ensures text { pending.new.items
            ≡ pending.old.items ++ between_machine.text self.old head.now }
        ensures rest { result ≡ between_machine.rest self.old head.now }
        ensures within { IfSome result (λ from. from ≡ 0) }
    {
        let (line, _) = self.scan.any_line(head);
        self.pass_line(line, pending)
    }
}

impl LineMachine for Between<'_> {
    ghost use Rattle.speedate_commands.specs.Between.{between_machine};

    ghost machine = { between_machine };

    fn is_done(&self) -> bool {
        self.scan.is_stopped()
    }

    fn passes(&self, head: &[u8]) -> bool {
        let line = self.scan.line(head);
        self.prints(&line, self.kept_after(&line))
    }

    fn step(&mut self, head: &[u8], pending: &mut Pending) -> Option<usize> {
        match &self.scan.glance(head) {
            Glance::Value(value, from, to) => {
                let found = self.scan.reader.found(head, value, *from, *to);
                self.pass_value(&found, pending)
            }
            Glance::Undated(_) => self.pass_line(LineKind::Undated, pending),
            Glance::Unknown => self.pass_any(head, pending),
        }
    }
}

impl<'a> Command<'a> for Between<'a> {
    ghost use Rattle.std.specs.Prelude.{[]};
    ghost use Rattle.speedate_commands.specs.Between.{between_about, between_begun, between_says};
    ghost use Rattle.speedate_commands.specs.InOrder.{PrintsFile};

    ghost scan = { λ between. between.scan };

    ghost begun = { between_begun };

    ghost Says = { between_says };

    ghost Searches = { PrintsFile };

    ghost about = { between_about };

    ghost end_text = { λ _. [] };

    fn scan(&self) -> Scan<'a> {
        self.scan
    }

    fn begin(&mut self, name: &'a [u8]) {
        self.scan.begin(name);
    }

    fn about(&self) -> About {
        About {
            kind: self.scan.reader.form.call_kind(),
            tells_bad: true,
            before: self.scan.first.before,
            reported: 0,
            is_too_large: false,
            is_in_order: self.is_in_order,
        }
    }

    fn print<R: Read, W: Write, O: Observer<Self>>(
        &mut self,
        input: &mut Watched<R>,
        output: &mut Watched<W>,
        observer: &mut O,
    ) -> Result<(), RunError> {
        run(self, input, output, observer)
    }

    fn search<S: ReadAt, W: Write>(
        &mut self,
        source: &S,
        size: u64,
        failed: &mut bool,
        output: &mut Watched<W>,
    ) -> Result<(), RunError> {
        between_in_order(self, source, size, failed, output)
    }

    fn push_end(&self, _pending: &mut Pending) {}
}
