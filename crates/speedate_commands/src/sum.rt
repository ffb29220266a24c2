//! The command `sum`: the total of the durations of lines.

ghost use Rattle.std.specs.Prelude.{◌≡◌, ◌+◌, ◌++◌, ◌≤◌};
ghost use Rattle.arrayvec.specs.ArrayVec.{array_vec_len};
ghost use Rattle.speedate.specs.Ascii.{capital_d};
ghost use Rattle.speedate.specs.Duration.{counted_text, duration_numbers, rest_text, start_text};
ghost use Rattle.speedate.specs.Requirement.{result_map};
ghost use Rattle.speedate_commands.specs.Sum.{after_hours, in_days, in_hours, is_too_large};
ghost use Rattle.speedate_commands.specs.Sum.{sum_after};
ghost use Rattle.speedate_commands.specs.Sum.{total_after, total_answer, total_text, with_amount};

use crate::command::{About, Command};
use crate::search::ReadAt;
use speedate::{CallKind, Duration, ParseError, Time};
use speedate_scan::print::push_number;
use speedate_scan::scan::{LineKind, Scan};
use speedate_stream::run::{RunError, run};
use speedate_stream::{LineMachine, Observer, PENDING_MAX, Pending, Watched, push_bytes};
use std::io::{Read, Write};

/// The total and its line feed are not longer.
pub const TOTAL_MAX: usize = 55;

/// No further duration is added to a total of as many microseconds: it could no longer fit an `i128`.
const TOTAL_END: u128 = 1 << 126;

/// Adds up the durations of lines, and prints no line.
#[derive(Clone, Copy)]
pub struct Sum<'a> {
    /// What is known of the lines so far.
    pub scan: Scan<'a>,
    /// The total so far, in microseconds, unless it is too large.
    pub total: Option<i128>,
    /// Whether the total is printed in hours.
    pub has_hours: bool,
}

/// A total with one more duration.
fn with_amount(total: Option<i128>, duration: &Duration) -> Option<i128>
    ensures total { result ≡ with_amount total (duration_numbers duration.now) }
{
    match total {
        Some(total) if total.unsigned_abs() < TOTAL_END => {
            Some(total + duration.signed_total_microseconds())
        }
        _ => None,
    }
}

/// Appends the start of a duration: `P`, or `-P`.
fn push_start(positive: bool, pending: &mut Pending)
    requires room { array_vec_len pending.old + 2 ≤ PENDING_MAX }
    ensures pushed { pending.new.items ≡ pending.old.items ++ start_text positive }
    ensures length { array_vec_len pending.new ≤ array_vec_len pending.old + 2 }
{
    let start: &[u8] = if positive { b"P" } else { b"-P" };
    push_bytes(start, pending);
}

/// Appends the days of a duration, if it has any: `400D`.
#[tactic(auto, using(std::proofs::Common::append_assoc))]
fn push_days(days: u32, pending: &mut Pending)
    requires room { array_vec_len pending.old + 21 ≤ PENDING_MAX }
    ensures pushed { pending.new.items ≡ pending.old.items ++ counted_text days capital_d }
    ensures length { array_vec_len pending.new ≤ array_vec_len pending.old + 21 }
{
    if days > 0 {
        push_number(u64::from(days), pending);
        push_bytes(b"D", pending);
    }
}

/// Appends what follows the days of a duration: `T1H`. A duration of nothing has `T0S`, so that `P` does
/// not stand alone.
fn push_clock(duration: &Duration, pending: &mut Pending)
    requires room { array_vec_len pending.old + 31 ≤ PENDING_MAX }
    ensures pushed { pending.new.items
        ≡ pending.old.items ++ rest_text (duration_numbers duration.now) }
    ensures length { array_vec_len pending.new ≤ array_vec_len pending.old + 31 }
{
    if duration.day > 0 && duration.second == 0 && duration.microsecond == 0 {
        return;
    }
    let clock = Duration {
        positive: true,
        day: 0,
        second: duration.second,
        microsecond: duration.microsecond,
    };
    push_bytes(&clock.to_text().as_str().as_bytes()[1..], pending);
}

/// Appends a duration without years: `P400DT1H`.
#[tactic(auto, unfolding(crate::specs::Sum::in_days), using(std::proofs::Common::append_assoc))]
fn push_in_days(duration: &Duration, pending: &mut Pending)
    requires room { array_vec_len pending.old + 54 ≤ PENDING_MAX }
    ensures pushed { pending.new.items
        ≡ pending.old.items ++ in_days (duration_numbers duration.now) }
    ensures length { array_vec_len pending.new ≤ array_vec_len pending.old + 54 }
{
    push_start(duration.positive, pending);
    push_days(duration.day, pending);
    push_clock(duration, pending);
}

/// Appends what follows the hours of a duration in hours: `:30:00`.
fn push_after_hours(duration: &Duration, pending: &mut Pending)
    requires room { array_vec_len pending.old + 31 ≤ PENDING_MAX }
    ensures pushed { pending.new.items
        ≡ pending.old.items ++ after_hours (duration_numbers duration.now) }
    ensures length { array_vec_len pending.new ≤ array_vec_len pending.old + 31 }
{
    let clock = Time {
        hour: 0,
        minute: (duration.second / 60 % 60) as u8,
        second: (duration.second % 60) as u8,
        microsecond: duration.microsecond,
        tz_offset: None,
    };
    push_bytes(&clock.to_text().as_str().as_bytes()[2..], pending);
}

/// Appends a duration in hours: `-75:30:00`.
#[tactic(auto, unfolding(crate::specs::Sum::in_hours), using(std::proofs::Common::append_assoc))]
fn push_in_hours(duration: &Duration, pending: &mut Pending)
    requires room { array_vec_len pending.old + 54 ≤ PENDING_MAX }
    ensures pushed { pending.new.items
        ≡ pending.old.items ++ in_hours (duration_numbers duration.now) }
    ensures length { array_vec_len pending.new ≤ array_vec_len pending.old + 54 }
{
    let minus: &[u8] = if duration.positive { b"" } else { b"-" };
    push_bytes(minus, pending);
    push_number(
        24 * u64::from(duration.day) + u64::from(duration.second / 3600),
        pending,
    );
    push_after_hours(duration, pending);
}

impl Sum<'_> {
    /// Adds the duration of a line, and counts the line.
    fn add(&mut self, amount: Result<Duration, LineKind>)
        ensures added { self.new ≡ sum_after self.old (result_map duration_numbers amount) }
    {
        match amount {
            Ok(duration) => {
                self.total = with_amount(self.total, &duration);
                self.scan.count_value();
            }
            Err(line) => self.scan.pass(line),
        }
    }

    /// The total as a duration.
    ///
    /// Fails with `DurationDaysTooLarge` if it has more than 999,999,999 days.
    fn total(&self) -> Result<Duration, ParseError>
        ensures answer { result_map duration_numbers result ≡ total_answer self.now.total }
    {
        match self.total {
            Some(total) => Duration::from_signed_microseconds(total),
            None => Err(ParseError::DurationDaysTooLarge),
        }
    }

    /// Whether no total is printed because it has more than 999,999,999 days.
    fn is_too_large(&self) -> bool
        ensures large { result ≡ is_too_large self.now }
    {
        !self.scan.is_stopped() && self.total().is_err()
    }

    /// Appends the total and a line feed: `P400DT1H30M`, without years, so that a sum takes it again, or in hours. It
    /// appends nothing if the total has more than 999,999,999 days, or if the run ended at a bad value.
    #[tactic(auto, unfolding(crate::specs::Sum::total_text), using(std::proofs::Common::append_assoc))]
    pub fn push_onto(&self, pending: &mut Pending)
        requires room { array_vec_len pending.old + TOTAL_MAX ≤ PENDING_MAX }
        ensures pushed { pending.new.items ≡ pending.old.items ++ total_text self.now }
        ensures length { array_vec_len pending.new ≤ array_vec_len pending.old + TOTAL_MAX }
    {
        if self.scan.is_stopped() {
            return;
        }
        if let Ok(total) = self.total() {
            if self.has_hours {
                push_in_hours(&total, pending);
            } else {
                push_in_days(&total, pending);
            }
            push_bytes(b"\n", pending);
        }
    }
}

impl LineMachine for Sum<'_> {
    ghost use Rattle.speedate_commands.specs.Sum.{sum_machine};

    ghost machine = { sum_machine };

    fn is_done(&self) -> bool {
        self.scan.is_stopped()
    }

    fn passes(&self, _head: &[u8]) -> bool {
        false
    }

    fn step(&mut self, head: &[u8], _pending: &mut Pending) -> Option<usize> {
        let amount = self.scan.amount(head);
        self.add(amount);
        None
    }
}

impl<'a> Command<'a> for Sum<'a> {
    ghost use Rattle.speedate_commands.specs.Sum.{sum_about, sum_begun, sum_says, total_text};
    ghost use Rattle.speedate_commands.specs.Runs.{SearchesNone};

    ghost scan = { λ sum. sum.scan };

    ghost begun = { sum_begun };

    ghost Says = { sum_says };

    ghost Searches = { SearchesNone };

    ghost about = { sum_about };

    ghost end_text = { total_text };

    fn scan(&self) -> Scan<'a> {
        self.scan
    }

    fn begin(&mut self, name: &'a [u8]) {
        self.scan.begin(name);
    }

    fn about(&self) -> About {
        About {
            kind: CallKind::Duration,
            tells_bad: true,
            before: 0,
            reported: 0,
            is_too_large: self.is_too_large(),
            is_in_order: false,
        }
    }

    fn print<R: Read, W: Write, O: Observer<Self>>(
        &mut self,
        input: &mut Watched<R>,
        output: &mut Watched<W>,
        observer: &mut O,
    ) -> Result<(), RunError> {
        run(self, input, output, observer)
    }

    fn search<S: ReadAt, W: Write>(
        &mut self,
        _source: &S,
        _size: u64,
        _failed: &mut bool,
        _output: &mut Watched<W>,
    ) -> Result<(), RunError> {
        Ok(())
    }

    fn push_end(&self, pending: &mut Pending) {
        self.push_onto(pending);
    }
}
