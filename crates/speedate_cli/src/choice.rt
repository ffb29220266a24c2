//! What the text of an option chooses.

ghost use Rattle.std.specs.Prelude.{◌≡◌};
ghost use Rattle.speedate_cli.specs.Choice.{bad_of, digits_of, form_of, fraction_of, gap_of};
ghost use Rattle.speedate_cli.specs.Choice.{hours_of, kind_of, named_unit, undated_of, unit_of};
ghost use Rattle.speedate_cli.specs.Word.{is_word};

use speedate::{MicrosecondsPrecisionOverflowBehavior, TimestampUnit};
use speedate_scan::amount::exact_between;
use speedate_scan::form::Form;
use speedate_scan::reading::Bad;
use speedate_scan::scan::{BadLines, UndatedLines};

/// Why a gap is refused.
#[derive(Clone, Copy)]
pub enum BadGap {
    /// It is not an exact duration.
    Bad(Bad),
    /// It has a minus.
    Negative,
}

/// Whether a text is a word.
pub fn is_word(text: &[u8], word: &[u8]) -> bool
    ensures word { result ≡ is_word text.now word.now }
{
    text == word
}

/// The unit of Unix timestamps of a kind: `b"seconds"`, and others.
pub fn unit_of(text: &[u8]) -> Option<TimestampUnit>
    ensures unit { result ≡ unit_of text.now }
{
    if is_word(text, b"seconds") {
        Some(TimestampUnit::Second)
    } else if is_word(text, b"milliseconds") {
        Some(TimestampUnit::Millisecond)
    } else if is_word(text, b"microseconds") {
        Some(TimestampUnit::Microsecond)
    } else {
        None
    }
}

/// The name of a unit of Unix timestamps, as a kind has it.
pub fn unit_name(unit: TimestampUnit) -> &'static str
    ensures name { unit_of result.now ≡ named_unit unit }
{
    match unit {
        TimestampUnit::Second | TimestampUnit::Infer => "seconds",
        TimestampUnit::Millisecond => "milliseconds",
        TimestampUnit::Microsecond => "microseconds",
    }
}

/// What values of a kind are: `b"datetime"`, `b"date"`, or the name of a unit.
pub fn kind_of(text: &[u8]) -> Option<Form>
    ensures kind { result ≡ kind_of text.now }
{
    if is_word(text, b"datetime") {
        Some(Form::DateTime)
    } else if is_word(text, b"date") {
        Some(Form::Date)
    } else {
        match unit_of(text) {
            Some(unit) => Some(Form::Timestamp(unit)),
            None => None,
        }
    }
}

/// What values of a kind are, by whether a date-time has to be one of RFC 3339 alone.
pub fn form_of(kind: Form, is_strict: bool) -> Form
    ensures form { result ≡ form_of kind is_strict }
{
    match kind {
        Form::DateTime if is_strict => Form::Strict,
        _ => kind,
    }
}

/// What is done with digits past the microsecond: six digits of a second are the most.
pub fn digits_of(text: &[u8]) -> Option<MicrosecondsPrecisionOverflowBehavior>
    ensures digits { result ≡ digits_of text.now }
{
    if is_word(text, b"6") {
        Some(MicrosecondsPrecisionOverflowBehavior::Error)
    } else {
        None
    }
}

/// What is done with lines that have no value.
pub fn undated_of(text: &[u8]) -> Option<UndatedLines>
    ensures undated { result ≡ undated_of text.now }
{
    if is_word(text, b"join") {
        Some(UndatedLines::Join)
    } else if is_word(text, b"drop") {
        Some(UndatedLines::Drop)
    } else if is_word(text, b"bad") {
        Some(UndatedLines::Bad)
    } else {
        None
    }
}

/// What is done with lines whose value is bad.
pub fn bad_of(text: &[u8]) -> Option<BadLines>
    ensures bad { result ≡ bad_of text.now }
{
    if is_word(text, b"keep") {
        Some(BadLines::Keep)
    } else if is_word(text, b"stop") {
        Some(BadLines::Stop)
    } else {
        None
    }
}

/// Whether a total is printed in hours.
pub fn hours_of(text: &[u8]) -> Option<bool>
    ensures hours { result ≡ hours_of text.now }
{
    if is_word(text, b"text") {
        Some(false)
    } else if is_word(text, b"hours") {
        Some(true)
    } else {
        None
    }
}

/// With how many digits after their second values are written.
pub fn fraction_of(text: &[u8]) -> Option<usize>
    ensures fraction { result ≡ fraction_of text.now }
{
    if is_word(text, b"0") {
        Some(0)
    } else if is_word(text, b"3") {
        Some(3)
    } else if is_word(text, b"6") {
        Some(6)
    } else if is_word(text, b"9") {
        Some(9)
    } else {
        None
    }
}

/// The nanoseconds of a gap: 1,500,000,000 of `b"PT1.5S"`.
pub fn gap_of(text: &[u8]) -> Result<i128, BadGap>
    ensures gap { result ≡ gap_of text.now }
{
    match exact_between(text, 0, text.len()) {
        Ok(duration) => {
            if duration.positive {
                Ok(1000 * duration.signed_total_microseconds())
            } else {
                Err(BadGap::Negative)
            }
        }
        Err(bad) => Err(BadGap::Bad(bad)),
    }
}
