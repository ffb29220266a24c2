//! The codes that calls answer, and their names.

ghost use Rattle.std.specs.Option.{option_map};
ghost use Rattle.std.specs.Prelude.{◌≡◌, ◌≤◌, IfSome, Some, length, slice_get};
ghost use Rattle.speedate_c.specs.Code.{call_kind_of, code_expected, code_row, fault_code};
ghost use Rattle.speedate_c.specs.Code.{fault_of, kind_number, line_error_code, order_number};
ghost use Rattle.speedate_c.specs.Code.{refusal_expected, refusal_row};

use speedate::{CallKind, LineError, ParseError};
use std::cmp::Ordering;

/// What was asked for is written.
pub(crate) const SUCCESS: i32 = 0;

/// The number of a line does not fit 64 bits.
pub(crate) const NUMBER_TOO_LARGE: i32 = 97;

/// A text is not a whole number that fits 64 bits.
pub(crate) const INVALID_INTEGER: i32 = 98;

/// The years 0000 to 9999 do not have this date.
pub(crate) const NO_SUCH_DATE: i32 = 99;

/// A value or a flag of the caller's is out of range.
pub(crate) const VALUE_OUT_OF_RANGE: i32 = 101;

/// A number of the caller's configuration has no meaning.
pub(crate) const CONFIG_OUT_OF_RANGE: i32 = 102;

/// A text does not fit into the caller's buffer.
pub(crate) const BUFFER_TOO_SMALL: i32 = 103;

/// The forms in which a text is read: no timestamps,
pub(crate) const TEXT: i32 = 0;

/// timestamps too,
pub(crate) const OR_TIMESTAMP: i32 = 1;

/// RFC 3339 and nothing else,
pub(crate) const STRICT: i32 = 2;

/// a value with a zone as programs print it,
pub(crate) const LOOSE: i32 = 3;

/// the value with which a text begins,
pub(crate) const FRONT: i32 = 4;

/// and such a value with a zone as programs print it.
pub(crate) const LOOSE_FRONT: i32 = 5;

/// A list of errors by their names.
macro_rules! faults {
    ($($name:ident)*) => {
        [$(ParseError::$name),*]
    };
}

/// The errors in the order of their numbers.
const FAULTS: [ParseError; 42] = faults! {
    TooShort ExtraCharacters InvalidCharDateTimeSep InvalidCharDateSep DateNotExact
    InvalidCharYear InvalidCharMonth InvalidCharDay
    InvalidCharTimeSep InvalidCharHour InvalidCharMinute InvalidCharSecond InvalidCharSecondFraction
    InvalidCharTzSign InvalidCharTzHour InvalidCharTzMinute OutOfRangeTzMinute OutOfRangeTz
    TzRequired SystemTimeError
    OutOfRangeMonth OutOfRangeDay OutOfRangeHour OutOfRangeMinute OutOfRangeSecond
    SecondFractionTooLong SecondFractionMissing MillisecondFractionTooLong
    DurationInvalidNumber DurationTRepeated DurationInvalidFraction
    DurationInvalidTimeUnit DurationInvalidDateUnit DurationInvalidDays
    DurationValueTooLarge DurationHourValueTooLarge DurationDaysTooLarge
    DateTooSmall DateTooLarge TimeTooLarge DurationUnitOrder MicrosecondFractionTooLong
};

/// The code of an error, its number: 1 for `TooShort`.
pub(crate) fn fault_code(fault: ParseError) -> i32
    ensures code { result ≡ fault_code fault }
    ensures reads_back { fault_of result ≡ Some fault }
{
    i32::from(fault.number())
}

/// The code of an error of a line, its number: 97 for `NumberTooLarge`.
pub(crate) fn line_error_code(error: LineError) -> i32
    ensures code { result ≡ line_error_code error }
{
    i32::from(error.number())
}

/// The error of a code.
pub(crate) fn fault_of(code: i32) -> Option<ParseError>
    ensures fault { result ≡ fault_of code }
{
    if code < 1 {
        return None;
    }
    fault_at(&FAULTS, (code.unsigned_abs() - 1) as usize)
}

/// The error at a place of a list.
fn fault_at(faults: &[ParseError], place: usize) -> Option<ParseError>
    ensures fault { result ≡ slice_get faults.now place }
{
    faults.get(place).copied()
}

/// The name and the documentation text of a code.
pub(crate) fn code_row(code: i32) -> Option<(&'static str, &'static str)>
    ensures row { option_map (λ row. (row.0.now, row.1.now)) result ≡ code_row code }
    ensures short { IfSome result (λ row. (length row.0.now ≤ 63) × (length row.1.now ≤ 63)) }
{
    match fault_of(code) {
        Some(fault) => Some((fault.name(), fault.get_documentation()?)),
        None => refusal_row(code),
    }
}

/// The name and the documentation text of a code that is not an error.
fn refusal_row(code: i32) -> Option<(&'static str, &'static str)>
    ensures row { option_map (λ row. (row.0.now, row.1.now)) result ≡ refusal_row code }
    ensures short { IfSome result (λ row. (length row.0.now ≤ 63) × (length row.1.now ≤ 63)) }
{
    Some(match code {
        SUCCESS => ("ok", "success"),
        NUMBER_TOO_LARGE => (
            "number_too_large",
            "the number of a line does not fit 64 bits",
        ),
        INVALID_INTEGER => (
            "invalid_integer",
            "no whole number, or one that does not fit 64 bits",
        ),
        NO_SUCH_DATE => ("no_such_date", "the years 0000 to 9999 have no such date"),
        VALUE_OUT_OF_RANGE => ("value_out_of_range", "a value or a flag is out of range"),
        CONFIG_OUT_OF_RANGE => (
            "config_out_of_range",
            "a number of the configuration is out of range",
        ),
        BUFFER_TOO_SMALL => ("buffer_too_small", "the buffer is too small for the text"),
        _ => return None,
    })
}

/// The kinds of calls in the order of their numbers.
const CALL_KINDS: [CallKind; 9] = [
    CallKind::Values,
    CallKind::Date,
    CallKind::DateOrTimestamp,
    CallKind::Time,
    CallKind::TimeStrict,
    CallKind::DateTime,
    CallKind::DateTimeOrTimestamp,
    CallKind::DateTimeStrict,
    CallKind::Duration,
];

/// The kind of calls that has a number.
pub(crate) fn call_kind_of(number: i32) -> Option<CallKind>
    ensures kind { result ≡ call_kind_of number }
{
    if number < 0 {
        return None;
    }
    call_kind_at(&CALL_KINDS, number.unsigned_abs() as usize)
}

/// The number of a kind of calls.
pub(crate) fn kind_number(kind: CallKind) -> i32
    ensures number { result ≡ kind_number kind }
    ensures reads_back { call_kind_of result ≡ Some kind }
{
    match kind {
        CallKind::Values => 0,
        CallKind::Date => 1,
        CallKind::DateOrTimestamp => 2,
        CallKind::Time => 3,
        CallKind::TimeStrict => 4,
        CallKind::DateTime => 5,
        CallKind::DateTimeOrTimestamp => 6,
        CallKind::DateTimeStrict => 7,
        CallKind::Duration => 8,
    }
}

/// The kind at a place of a list.
fn call_kind_at(kinds: &[CallKind], place: usize) -> Option<CallKind>
    ensures kind { result ≡ slice_get kinds.now place }
{
    kinds.get(place).copied()
}

/// What a call of a kind expected where it gave a code.
pub(crate) fn code_expected(code: i32, kind: CallKind) -> Option<&'static str>
    ensures text { option_map (λ text. text.now) result ≡ code_expected code kind }
    ensures short { IfSome result (λ text. length text.now ≤ 63) }
{
    match fault_of(code) {
        Some(fault) => Some(fault.expected(kind)),
        None => refusal_expected(code),
    }
}

/// What was expected, of a code that is not an error.
fn refusal_expected(code: i32) -> Option<&'static str>
    ensures text { option_map (λ text. text.now) result ≡ refusal_expected code }
    ensures short { IfSome result (λ text. length text.now ≤ 63) }
{
    Some(match code {
        NUMBER_TOO_LARGE => "a duration of less than 2^63 microseconds",
        INVALID_INTEGER => "a whole number that fits 64 bits",
        NO_SUCH_DATE => "a date in the years 0000 to 9999",
        VALUE_OUT_OF_RANGE => "values within their ranges, and flags of 0 or 1",
        CONFIG_OUT_OF_RANGE => "a form, flags and a configuration that the call has",
        BUFFER_TOO_SMALL => "a buffer with room for the text and a zero byte",
        _ => return None,
    })
}

/// The number of an order: -1, 0 or 1.
pub(crate) fn order_number(order: Ordering) -> i32
    ensures number { result ≡ order_number order }
{
    match order {
        Ordering::Less => -1,
        Ordering::Equal => 0,
        Ordering::Greater => 1,
    }
}
