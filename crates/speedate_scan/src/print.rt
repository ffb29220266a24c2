//! What is printed of names, numbers and bad values.

ghost use Rattle.std.specs.Prelude.{◌≡◌, ◌+◌, ◌++◌, ◌≤◌, [], ◌∷◌, length, decimal, take};
ghost use Rattle.arrayvec.specs.ArrayVec.{array_vec_len};
ghost use Rattle.speedate_scan.specs.Print.{bad_text, expected_by, line_place, nine_digits, prefix_text};
ghost use Rattle.speedate_scan.specs.Print.{report_text};
ghost use Rattle.speedate_scan.specs.Print.{shown_name, with_colon};

use crate::field::{bytes_after, first_bytes};
use crate::form::Form;
use crate::reading::{Bad, Why, seen};
use itoa::Buffer;
use speedate::{CallKind, ParseError};
use speedate_stream::{PENDING_MAX, Pending, push_bytes};

/// What is printed before each line.
#[derive(Clone, Copy, Debug)]
pub struct Prefix {
    /// The name of the file.
    pub has_name: bool,
    /// The number of the line.
    pub has_number: bool,
}

/// No prefix is longer.
pub const PREFIX_MAX: usize = 4118;

/// The name of a file and the number of a line are not longer.
pub const LINE_PLACE_MAX: usize = 4117;

/// No report is longer.
pub const REPORT_MAX: usize = 4213;

/// Appends a number in decimal digits.
pub fn push_number(number: u64, pending: &mut Pending)
    requires room { array_vec_len pending.old + 20 ≤ PENDING_MAX }
    ensures pushed { pending.new.items ≡ pending.old.items ++ decimal number }
    ensures length { array_vec_len pending.new ≤ array_vec_len pending.old + 20 }
{
    let mut buffer = Buffer::new();
    push_bytes(buffer.format(number).as_bytes(), pending);
}

/// Appends the first of the nine digits of a number below 1,000,000,000: `0001` of 123,456.
pub fn push_nine_digits(count: usize, number: u32, pending: &mut Pending)
    requires most { count ≤ 9 }
    requires room { array_vec_len pending.old + 9 ≤ PENDING_MAX }
    ensures pushed { pending.new.items ≡ pending.old.items ++ take count (nine_digits number) }
    ensures length { array_vec_len pending.new ≤ array_vec_len pending.old + 9 }
{
    let mut buffer = Buffer::new();
    let digits = buffer.format(1_000_000_000 + u64::from(number)).as_bytes();
    push_bytes(first_bytes(bytes_after(digits, 1), count), pending);
}

/// Appends the name of a file: of a longer one the first 4,096 bytes.
pub fn push_name(name: &[u8], pending: &mut Pending)
    requires room { array_vec_len pending.old + 4096 ≤ PENDING_MAX }
    ensures pushed { pending.new.items ≡ pending.old.items ++ shown_name name.now }
    ensures length { array_vec_len pending.new ≤ array_vec_len pending.old + 4096 }
{
    push_bytes(seen(name), pending);
}

impl Prefix {
    /// Appends the prefix of a line.
    #[tactic(auto, unfolding(crate::specs::Print::prefix_text), using(std::proofs::Common::append_assoc))]
    pub fn push_onto(&self, name: &[u8], number: u64, pending: &mut Pending)
        requires room { array_vec_len pending.old + PREFIX_MAX ≤ PENDING_MAX }
        ensures pushed { pending.new.items
            ≡ pending.old.items ++ prefix_text self.now name.now number }
        ensures length { array_vec_len pending.new ≤ array_vec_len pending.old + PREFIX_MAX }
    {
        self.push_name_onto(name, pending);
        self.push_number_onto(number, pending);
    }

    /// Appends the name of the file and a colon, if it is asked for.
    #[tactic(auto, using(std::proofs::Common::append_assoc))]
    fn push_name_onto(&self, name: &[u8], pending: &mut Pending)
        requires room { array_vec_len pending.old + 4097 ≤ PENDING_MAX }
        ensures pushed { pending.new.items
            ≡ pending.old.items ++ with_colon self.now.has_name (shown_name name.now) }
        ensures length { array_vec_len pending.new ≤ array_vec_len pending.old + 4097 }
    {
        if self.has_name {
            push_name(name, pending);
            push_bytes(b":", pending);
        }
    }

    /// Appends the number of the line and a colon, if it is asked for.
    #[tactic(auto, using(std::proofs::Common::append_assoc))]
    fn push_number_onto(&self, number: u64, pending: &mut Pending)
        requires room { array_vec_len pending.old + 21 ≤ PENDING_MAX }
        ensures pushed { pending.new.items
            ≡ pending.old.items ++ with_colon self.now.has_number (decimal number) }
        ensures length { array_vec_len pending.new ≤ array_vec_len pending.old + 21 }
    {
        if self.has_number {
            push_number(number, pending);
            push_bytes(b":", pending);
        }
    }
}

impl Why {
    /// What was expected, for people, in at most 63 bytes.
    #[tactic(auto, unfolding(crate::specs::Print::expected_by))]
    pub fn expected(&self, kind: CallKind) -> &'static str
        ensures text { result.now ≡ expected_by self.now kind }
        ensures short { length result.now ≤ 63 }
    {
        match self {
            Why::Parse(fault) => fault.expected(kind),
            Why::Within => "a value within the first 4,080 bytes",
            Why::End => "the end of the value",
            Why::Undated(Form::Timestamp(_)) => "a Unix timestamp, as --kind says",
            Why::Undated(_) => ParseError::TooShort.expected(kind),
            Why::Clock => "a time, as in 2026-11-22T06:10, or --kind date",
            Why::HalfDay => "a clock of 24 hours, without AM or PM",
            Why::NoOffset => "no offset",
            Why::NoYearsOrMonths => "a duration without years and months",
            Why::NoClock => "no clock after days with a minus",
            Why::SixDigits => "at most six digits of a fraction",
        }
    }
}

impl Form {
    ghost use Rattle.speedate_scan.specs.Print.{call_kind};

    /// The kind of call that reads values of this form.
    pub fn call_kind(self) -> CallKind
        ensures kind { result ≡ call_kind self }
    {
        match self {
            Form::DateTime => CallKind::DateTime,
            Form::Strict => CallKind::DateTimeStrict,
            Form::Date => CallKind::Date,
            Form::Timestamp(_) => CallKind::DateTime,
        }
    }
}

/// Appends where a line stands: `app.log:3`.
#[tactic(auto, unfolding(crate::specs::Print::line_place), using(std::proofs::Common::append_assoc))]
pub fn push_line_place(name: &[u8], number: u64, pending: &mut Pending)
    requires room { array_vec_len pending.old + LINE_PLACE_MAX ≤ PENDING_MAX }
    ensures pushed { pending.new.items ≡ pending.old.items ++ line_place name.now number }
    ensures length { array_vec_len pending.new ≤ array_vec_len pending.old + LINE_PLACE_MAX }
{
    push_name(name, pending);
    push_bytes(b":", pending);
    push_number(number, pending);
}

/// Appends the column of a byte, which counts from 1, and what was expected there.
#[tactic(auto, unfolding(crate::specs::Print::bad_text), using(std::proofs::Common::append_assoc))]
fn push_bad(bad: &Bad, kind: CallKind, pending: &mut Pending)
    requires room { array_vec_len pending.old + 94 ≤ PENDING_MAX }
    ensures pushed { pending.new.items ≡ pending.old.items ++ bad_text bad.now kind }
    ensures length { array_vec_len pending.new ≤ array_vec_len pending.old + 94 }
{
    push_number((bad.place as u64).saturating_add(1), pending);
    push_bytes(b": expected ", pending);
    push_bytes(bad.why.expected(kind).as_bytes(), pending);
}

/// Appends the report of a bad value: `app.log:3:1: expected month, 01 to 12`, and a line feed.
#[tactic(auto, unfolding(crate::specs::Print::report_text), using(std::proofs::Common::append_assoc))]
pub fn push_report(name: &[u8], number: u64, bad: &Bad, kind: CallKind, pending: &mut Pending)
    requires room { array_vec_len pending.old + REPORT_MAX ≤ PENDING_MAX }
    ensures pushed { pending.new.items
        ≡ pending.old.items ++ report_text name.now number bad.now kind }
    ensures length { array_vec_len pending.new ≤ array_vec_len pending.old + REPORT_MAX }
{
    push_line_place(name, number, pending);
    push_bytes(b":", pending);
    push_bad(bad, kind, pending);
    push_bytes(b"\n", pending);
}
