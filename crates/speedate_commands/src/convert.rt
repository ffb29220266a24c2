//! The command `convert`: each line with its value written anew.

ghost use Rattle.std.specs.Prelude.{◌≡◌, ◌+◌, ◌++◌, ◌≤◌, IfSome, Ok, Some, length, take};
ghost use Rattle.std.specs.Option.{option_map};
ghost use Rattle.arrayvec.specs.ArrayVec.{array_vec_len};
ghost use Rattle.speedate.specs.DateTime.{date_and_time};
ghost use Rattle.speedate.specs.Requirement.{result_map};
ghost use Rattle.speedate_commands.specs.Convert.{convert_line, convert_machine};
ghost use Rattle.speedate_commands.specs.Convert.{convert_rest, convert_text, library_digits, own_digits};
ghost use Rattle.speedate_commands.specs.Convert.{target_place, targeted, text_of, text_with, written_digits};
ghost use Rattle.speedate_commands.specs.Convert.{written_of, written_text, written_value};
ghost use Rattle.speedate_scan.specs.Reading.{IsWithin, value_of};
ghost use Rattle.speedate_scan.specs.Scan.{IsFoundWithin, line_of, passed};

use crate::command::{About, Command};
use crate::nanosecond::{DATE_TIME_MAX, past_second, push_date_time};
use crate::search::ReadAt;
use speedate::{DateTime, FractionDigits};
use speedate_scan::form::Form;
use speedate_scan::fraction::fraction_size;
use speedate_scan::glance::Glance;
use speedate_scan::print::Prefix;
use speedate_scan::reading::{Bad, Found, Why};
use speedate_scan::scan::{LineKind, Scan};
use speedate_stream::run::{RunError, run};
use speedate_stream::{LineMachine, Observer, PENDING_MAX, Pending, STEP_MAX, Watched, push_bytes};
use std::io::{Read, Write};

/// At which offset values are written.
#[derive(Clone, Copy, Debug)]
pub enum Target {
    /// Each at its own.
    Own,
    /// All at this one, in seconds.
    Offset(i32),
}

/// Prints each line with its value written anew, and its other bytes as they are.
#[derive(Clone, Copy)]
pub struct Convert<'a> {
    /// What is known of the lines so far.
    pub scan: Scan<'a>,
    /// What is printed before each line.
    pub prefix: Prefix,
    /// At which offset values are written.
    pub target: Target,
    /// With how many digits after the second, at most nine, if not with as many as there are.
    pub digits: Option<usize>,
}

/// The byte to report of a value that cannot be written: the end of one without an offset, or else its
/// first byte.
fn target_place(found: &Found) -> usize
    ensures place { result ≡ target_place found.now }
{
    if found.offset.is_some() {
        found.from
    } else {
        found.to
    }
}

/// The bytes of a line before its value.
fn before_value<'h>(head: &'h [u8], found: &Found) -> &'h [u8]
    requires { IsWithin found.now head.now }
    ensures text { result.now ≡ take found.now.from head.now }
    ensures short { length result.now ≤ 4096 }
{
    &head[..found.from]
}

impl Target {
    /// A value as it is written.
    fn targeted(&self, found: &Found, value: DateTime) -> Result<DateTime, Bad>
        ensures value { result_map date_and_time result
            ≡ targeted self.now found.now (date_and_time value) }
    {
        let Target::Offset(offset) = self else {
            return Ok(value);
        };
        match value.in_timezone(*offset) {
            Ok(moved) => Ok(moved),
            Err(fault) => Err(Bad {
                place: target_place(found),
                why: Why::Parse(fault),
            }),
        }
    }
}

/// How many digits a value has after its second: those of its text, at most nine; a Unix timestamp has six, or none if
/// its microsecond is 0.
fn own_digits(form: Form, text: &[u8], microsecond: u32) -> usize
    ensures digits { result ≡ own_digits form text.now microsecond }
    ensures most { result ≤ 9 }
{
    match form {
        Form::DateTime | Form::Strict | Form::Date => fraction_size(text).min(9),
        Form::Timestamp(_) => if microsecond == 0 { 0 } else { 6 },
    }
}

/// With how many digits after its second a value is written: with its own, if none are asked for.
fn written_digits(asked: Option<usize>, own: usize) -> usize
    requires most { own ≤ 9 }
    ensures digits { result ≡ written_digits asked own }
    ensures most { result ≤ 9 }
{
    match asked {
        Some(count) => count.min(9),
        None => own,
    }
}

/// The digits after a second that the library prints, if it prints so many.
fn library_digits(count: usize) -> Option<FractionDigits>
    ensures digits { result ≡ library_digits count }
{
    match count {
        0 => Some(FractionDigits::Zero),
        3 => Some(FractionDigits::Three),
        6 => Some(FractionDigits::Six),
        _ => None,
    }
}

/// Appends a date-time with so many digits of its instant.
fn push_with_digits(count: usize, instant: i128, value: &DateTime, pending: &mut Pending)
    requires most { count ≤ 9 }
    requires room { array_vec_len pending.old + DATE_TIME_MAX ≤ PENDING_MAX }
    ensures pushed { pending.new.items ≡ pending.old.items
        ++ text_with (library_digits count) count instant (date_and_time value.now) }
    ensures length { array_vec_len pending.new ≤ array_vec_len pending.old + DATE_TIME_MAX }
{
    match library_digits(count) {
        Some(digits) => {
            push_bytes(
                value.to_text_with_digits(digits).as_str().as_bytes(),
                pending,
            );
        }
        None => push_date_time(count, past_second(instant), value, pending),
    }
}

/// Appends a value with so many digits of its instant: a date for dates, otherwise a date-time.
#[tactic(auto, unfolding(crate::specs::Convert::written_text))]
fn push_value(form: Form, count: usize, instant: i128, value: &DateTime, pending: &mut Pending)
    requires most { count ≤ 9 }
    requires room { array_vec_len pending.old + DATE_TIME_MAX ≤ PENDING_MAX }
    ensures pushed { pending.new.items
        ≡ pending.old.items ++ written_text form count instant (date_and_time value.now) }
    ensures length { array_vec_len pending.new ≤ array_vec_len pending.old + DATE_TIME_MAX }
{
    match form {
        Form::Date => push_bytes(value.date.to_text().as_str().as_bytes(), pending),
        _ => push_with_digits(count, instant, value, pending),
    }
}

impl Convert<'_> {
    /// Appends a value that was found in a line, as it is written.
    fn push_written(&self, head: &[u8], found: &Found, value: &DateTime, pending: &mut Pending)
        requires within { IsWithin found.now head.now }
        requires room { array_vec_len pending.old + DATE_TIME_MAX ≤ PENDING_MAX }
        ensures pushed { pending.new.items ≡ pending.old.items
            ++ text_of self.now head.now found.now (Some (date_and_time value.now)) }
        ensures length { array_vec_len pending.new ≤ array_vec_len pending.old + DATE_TIME_MAX }
    {
        let form = self.scan.reader.form;
        let text = &head[found.from..found.to];
        let own = own_digits(form, text, value.time.microsecond);
        let count = written_digits(self.digits, own);
        push_value(form, count, found.instant, value, pending);
    }

    /// The value of a line as it is written, if it can be written.
    #[inline(always)]
    #[tactic(auto, unfolding(crate::specs::Convert::written_value))]
    fn written(&self, head: &[u8], found: &Found, value: DateTime) -> Option<DateTime>
        requires line { line_of self.now.scan head.now ≡ LineKind.Value found.now }
        requires value { value_of self.now.scan.reader head.now found.now
            ≡ Ok (date_and_time value, found.now.to) }
        ensures line { IfSome result (λ it. convert_line self.now head.now
            ≡ LineKind.Value found.now) }
        ensures value { IfSome result (λ it. written_value self.now head.now found.now
            ≡ Ok (date_and_time it)) }
    {
        match self.target.targeted(found, value) {
            Ok(written) => Some(written),
            Err(_) => None,
        }
    }

    /// What a line is, and its value as it is written: a line whose value cannot be written is bad.
    #[tactic(auto, unfolding(crate::specs::Convert::written_value))]
    fn line(&self, head: &[u8]) -> (LineKind, Option<DateTime>)
        ensures line { result.0 ≡ convert_line self.now head.now }
        ensures within { IsFoundWithin result.0 head.now }
        ensures value { option_map date_and_time result.1 ≡ written_of self.now head.now result.0 }
    {
        let (line, value) = self.scan.any_line(head);
        let (LineKind::Value(found), Some(value)) = (&line, value) else {
            return (line, None);
        };
        match self.target.targeted(found, value) {
            Ok(value) => (line, Some(value)),
            Err(bad) => (LineKind::Bad(bad), None),
        }
    }

    /// Appends what stands before the rest of a line, and returns the byte from which on that follows.
    fn push_line(
        &self,
        head: &[u8],
        line: &LineKind,
        value: &Option<DateTime>,
        pending: &mut Pending,
    ) -> Option<usize>
        requires within { IsFoundWithin line.now head.now }
        requires value { option_map date_and_time value.now ≡ written_of self.now head.now line.now }
        requires room { array_vec_len pending.old + STEP_MAX ≤ PENDING_MAX }
        ensures pushed { pending.new.items
            ≡ pending.old.items ++ convert_text self.now head.now line.now }
        ensures length { array_vec_len pending.new ≤ array_vec_len pending.old + STEP_MAX }
        ensures rest { result ≡ convert_rest self.now line.now }
        ensures within { IfSome result (λ from. from ≤ length head.now) }
    {
        if !self.scan.keeps(line) {
            return None;
        }
        self.prefix
            .push_onto(self.scan.name, self.scan.next_number(), pending);
        let LineKind::Value(found) = line else {
            return Some(0);
        };
        push_bytes(before_value(head, found), pending);
        if let Some(value) = value {
            self.push_written(head, found, value, pending);
        }
        Some(found.to)
    }

    /// Prints what comes before the rest of a line with this value, which is written so, counts the line, and returns the
    /// byte from which on the rest follows.
    #[inline(always)]
    fn pass_value(
        &mut self,
        head: &[u8],
        found: &Found,
        value: &DateTime,
        pending: &mut Pending,
    ) -> Option<usize>
        requires within { IsWithin found.now head.now }
        requires value { written_value self.old head.now found.now ≡ Ok (date_and_time value.now) }
        requires room { array_vec_len pending.old + STEP_MAX ≤ PENDING_MAX }
        ensures after { self.new
            ≡ record self.old { scan = passed self.old.scan (LineKind.Value found.now) } }
        ensures text { pending.new.items
            ≡ pending.old.items ++ convert_text self.old head.now (LineKind.Value found.now) }
        ensures rest { result ≡ convert_rest self.old (LineKind.Value found.now) }
        ensures within { IfSome result (λ from. from ≤ length head.now) }
    {
        self.prefix
            .push_onto(self.scan.name, self.scan.next_number(), pending);
        push_bytes(before_value(head, found), pending);
        self.push_written(head, found, value, pending);
        self.scan.pass_value(found);
        Some(found.to)
    }

    /// The same for any line, by its head.
    #[inline(never)]
    fn pass_any(&mut self, head: &[u8], pending: &mut Pending) -> Option<usize>
        requires room { array_vec_len pending.old + STEP_MAX ≤ PENDING_MAX }
        ensures after { self.new ≡ convert_machine.after self.old head.now }
        ensures text { pending.new.items
            ≡ pending.old.items ++ convert_machine.text self.old head.now }
        ensures rest { result ≡ convert_machine.rest self.old head.now }
        ensures within { IfSome result (λ from. from ≤ length head.now) }
    {
        let (line, value) = self.line(head);
        self.pass_line(head, line, value, pending)
    }

    /// The same for a line by what it is, and its value as it is written.
    #[inline(always)]
    fn pass_line(
        &mut self,
        head: &[u8],
        line: LineKind,
        value: Option<DateTime>,
        pending: &mut Pending,
    ) -> Option<usize>
        requires within { IsFoundWithin line head.now }
        requires value { option_map date_and_time value ≡ written_of self.old head.now line }
        requires room { array_vec_len pending.old + STEP_MAX ≤ PENDING_MAX }
        ensures after { self.new ≡ record self.old { scan = passed self.old.scan line } }
        ensures text { pending.new.items ≡ pending.old.items ++ convert_text self.old head.now line }
        ensures rest { result ≡ convert_rest self.old line }
        ensures within { IfSome result (λ from. from ≤ length head.now) }
    {
        let rest = self.push_line(head, &line, &value, pending);
        self.scan.pass(line);
        rest
    }
}

impl LineMachine for Convert<'_> {
    ghost use Rattle.speedate_commands.specs.Convert.{convert_machine};

    ghost machine = { convert_machine };

    fn is_done(&self) -> bool {
        self.scan.is_stopped()
    }

    fn passes(&self, head: &[u8]) -> bool {
        let (line, _) = self.line(head);
        self.scan.keeps(&line)
    }

    fn step(&mut self, head: &[u8], pending: &mut Pending) -> Option<usize> {
        match &self.scan.glance(head) {
            Glance::Value(value, from, to) => {
                let found = self.scan.reader.found(head, value, *from, *to);
                match self.written(head, &found, *value) {
                    Some(value) => self.pass_value(head, &found, &value, pending),
                    None => self.pass_any(head, pending),
                }
            }
            Glance::Undated(_) => self.pass_line(head, LineKind::Undated, None, pending),
            Glance::Unknown => self.pass_any(head, pending),
        }
    }
}

impl<'a> Command<'a> for Convert<'a> {
    ghost use Rattle.std.specs.Prelude.{[]};
    ghost use Rattle.speedate_commands.specs.Convert.{convert_about, convert_begun, convert_says};
    ghost use Rattle.speedate_commands.specs.Runs.{SearchesNone};

    ghost scan = { λ convert. convert.scan };

    ghost begun = { convert_begun };

    ghost Says = { convert_says };

    ghost Searches = { SearchesNone };

    ghost about = { convert_about };

    ghost end_text = { λ _. [] };

    fn scan(&self) -> Scan<'a> {
        self.scan
    }

    fn begin(&mut self, name: &'a [u8]) {
        self.scan.begin(name);
    }

    fn about(&self) -> About {
        About {
            kind: self.scan.reader.form.call_kind(),
            tells_bad: true,
            before: self.scan.first.lines_before(),
            reported: 0,
            is_too_large: false,
            is_in_order: false,
        }
    }

    fn print<R: Read, W: Write, O: Observer<Self>>(
        &mut self,
        input: &mut Watched<R>,
        output: &mut Watched<W>,
        observer: &mut O,
    ) -> Result<(), RunError> {
        run(self, input, output, observer)
    }

    fn search<S: ReadAt, W: Write>(
        &mut self,
        _source: &S,
        _size: u64,
        _failed: &mut bool,
        _output: &mut Watched<W>,
    ) -> Result<(), RunError> {
        Ok(())
    }

    fn push_end(&self, _pending: &mut Pending) {}
}
