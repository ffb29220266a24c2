//! The errors: why a text or a number was refused.

ghost use Rattle.std.specs.Prelude.{◌≡◌};

mod config_error;
mod expected;
mod part;

pub use config_error::ConfigError;
pub use expected::CallKind;
use std::fmt;

/// Why a text or a number was refused. Every refusal has exactly one of these, and `docs/GRAMMAR.md`
/// has an example of each.
///
/// It is printed by its snake-case name, as `too_short` for `TooShort`. It does not implement
/// `Hash`; the name serves as a key, since no two errors have the same.
#[derive(Clone, Copy, Debug, PartialEq, Eq)]
pub enum ParseError {
    /// The text ends before what it must hold.
    TooShort,
    /// Bytes are left over after a whole value.
    ExtraCharacters,
    /// The byte between date and time is not a separator: `T`, `t`, a space or `_`; for the strict
    /// parsers `T` or `t`.
    InvalidCharDateTimeSep,
    /// A `-` is missing between year, month and day.
    InvalidCharDateSep,
    /// A timestamp that has to be a date is not a midnight, or a duration that has to be whole days is
    /// not.
    DateNotExact,
    /// The year is not four digits.
    InvalidCharYear,
    /// The month is not two digits.
    InvalidCharMonth,
    /// The day is not two digits.
    InvalidCharDay,
    /// The `:` between hour and minute is missing, or for the strict parsers the second.
    InvalidCharTimeSep,
    /// The hour is not two digits, or in the clock of a duration no digits.
    InvalidCharHour,
    /// The minute is not two digits.
    InvalidCharMinute,
    /// The second is not two digits.
    InvalidCharSecond,
    /// Kept for its name: no call returns it.
    InvalidCharSecondFraction,
    /// What follows a time does not begin an offset; or for the strict parsers the decimal mark is a comma, or
    /// the sign of the offset is U+2212.
    InvalidCharTzSign,
    /// The hour of an offset is not two digits.
    InvalidCharTzHour,
    /// The minute of an offset is not two digits, or for the strict parsers its `:` is missing.
    InvalidCharTzMinute,
    /// The minute of an offset is over 59.
    OutOfRangeTzMinute,
    /// An offset is 24 hours or more.
    OutOfRangeTz,
    /// An offset is missing: of a value that is to be moved to another one, or of a text for the strict
    /// parsers.
    TzRequired,
    /// The clock returns no moment, for example because it is before 1970.
    SystemTimeError,
    /// The month is not 1 to 12.
    OutOfRangeMonth,
    /// The month does not have this day.
    OutOfRangeDay,
    /// The hour is over 23.
    OutOfRangeHour,
    /// The minute is over 59.
    OutOfRangeMinute,
    /// The second is over 59.
    OutOfRangeSecond,
    /// A fraction of a second has more than six digits, or more than twelve bytes follow the first `:` in
    /// the clock of a duration, which the configuration refuses.
    SecondFractionTooLong,
    /// No digit follows the decimal mark after a second.
    SecondFractionMissing,
    /// A fraction of a millisecond has more than three digits, and the configuration refuses them.
    MillisecondFractionTooLong,
    /// A number of a duration does not begin with a digit.
    DurationInvalidNumber,
    /// A duration has a second `T`.
    DurationTRepeated,
    /// A component follows one with a fraction.
    DurationInvalidFraction,
    /// A component after `T` has no designator of hours, minutes or seconds.
    DurationInvalidTimeUnit,
    /// A component before `T` has no designator of years, months, weeks or days.
    DurationInvalidDateUnit,
    /// The days of a duration are not followed by a form of `d`, `day` or `days`.
    DurationInvalidDays,
    /// A number or a sum of a duration is over 4,294,967,295.
    DurationValueTooLarge,
    /// The hours of a clock are over 2,400,000,000 or have more than ten digits, or are over 23 after days.
    DurationHourValueTooLarge,
    /// A duration has more than 999,999,999 days.
    DurationDaysTooLarge,
    /// A date lies before the year 0000: of a timestamp, at another offset, or after a duration.
    DateTooSmall,
    /// A date lies after the year 9999: of a timestamp or a moment, at another offset, after a duration,
    /// or by its year.
    DateTooLarge,
    /// A time of day, or a sum on the way to it, is too large; a microsecond is over 999,999; or a clock at
    /// another offset shows another day.
    TimeTooLarge,
    /// A component of a duration is out of order, or repeated, and the configuration refuses that.
    DurationUnitOrder,
    /// A timestamp in microseconds has a digit after its point, and the configuration refuses it.
    MicrosecondFractionTooLong,
}

/// The match by which a column of the table is read: `name` or `documentation`.
macro_rules! column {
    ($fault:expr, name; $($variant:ident $name:literal $documentation:literal)*) => {
        match $fault {
            $(ParseError::$variant => $name,)*
        }
    };
    ($fault:expr, documentation; $($variant:ident $name:literal $documentation:literal)*) => {
        match $fault {
            $(ParseError::$variant => $documentation,)*
        }
    };
}

/// The text of an error in a column of the table.
macro_rules! text {
    ($fault:expr, $column:ident) => {
        column! { $fault, $column;
            TooShort                    "too_short"                      "input is too short"
            ExtraCharacters             "extra_characters"               "unexpected extra characters at the end of the input"
            InvalidCharDateTimeSep      "invalid_char_date_time_sep"     "invalid datetime separator, expected `T`, `t`, `_` or space"
            InvalidCharDateSep          "invalid_char_date_sep"          "invalid date separator, expected `-`"
            DateNotExact                "date_not_exact"                 "Timestamp is not an exact date"
            InvalidCharYear             "invalid_char_year"              "invalid character in year"
            InvalidCharMonth            "invalid_char_month"             "invalid character in month"
            InvalidCharDay              "invalid_char_day"               "invalid character in day"
            InvalidCharTimeSep          "invalid_char_time_sep"          "invalid time separator, expected `:`"
            InvalidCharHour             "invalid_char_hour"              "invalid character in hour"
            InvalidCharMinute           "invalid_char_minute"            "invalid character in minute"
            InvalidCharSecond           "invalid_char_second"            "invalid character in second"
            InvalidCharSecondFraction   "invalid_char_second_fraction"   "invalid character in second fraction"
            InvalidCharTzSign           "invalid_char_tz_sign"           "invalid timezone sign"
            InvalidCharTzHour           "invalid_char_tz_hour"           "invalid timezone hour"
            InvalidCharTzMinute         "invalid_char_tz_minute"         "invalid timezone minute"
            OutOfRangeTzMinute          "out_of_range_tz_minute"         "timezone minute value is outside expected range of 0-59"
            OutOfRangeTz                "out_of_range_tz"                "timezone offset must be less than 24 hours"
            TzRequired                  "tz_required"                    "timezone is required to adjust to a new timezone"
            SystemTimeError             "system_time_error"              "Error getting system time"
            OutOfRangeMonth             "out_of_range_month"             "month value is outside expected range of 1-12"
            OutOfRangeDay               "out_of_range_day"               "day value is outside expected range"
            OutOfRangeHour              "out_of_range_hour"              "hour value is outside expected range of 0-23"
            OutOfRangeMinute            "out_of_range_minute"            "minute value is outside expected range of 0-59"
            OutOfRangeSecond            "out_of_range_second"            "second value is outside expected range of 0-59"
            SecondFractionTooLong       "second_fraction_too_long"       "second fraction value is more than 6 digits long"
            SecondFractionMissing       "second_fraction_missing"        "second fraction digits missing after `.`"
            MillisecondFractionTooLong  "millisecond_fraction_too_long"  "millisecond fraction value is more than 3 digits long"
            DurationInvalidNumber       "duration_invalid_number"        "invalid digit in duration"
            DurationTRepeated           "duration_t_repeated"            "`t` character repeated in duration"
            DurationInvalidFraction     "duration_invalid_fraction"      "quantity fraction invalid in duration"
            DurationInvalidTimeUnit     "duration_invalid_time_unit"     "quantity invalid in time part of duration"
            DurationInvalidDateUnit     "duration_invalid_date_unit"     "quantity invalid in date part of duration"
            DurationInvalidDays         "duration_invalid_days"          "\"day\" identifier in duration not correctly formatted"
            DurationValueTooLarge       "duration_value_too_large"       "a numeric value in the duration is too large"
            DurationHourValueTooLarge   "duration_hour_value_too_large"  "durations may not exceed 999,999,999 hours"
            DurationDaysTooLarge        "duration_days_too_large"        "durations may not exceed 999,999,999 days"
            DateTooSmall                "date_too_small"                 "dates before 0000 are not supported as unix timestamps"
            DateTooLarge                "date_too_large"                 "dates after 9999 are not supported as unix timestamps"
            TimeTooLarge                "time_too_large"                 "numeric times may not exceed 86,399 seconds"
            DurationUnitOrder           "duration_unit_order"            "quantities out of order or repeated in duration"
            MicrosecondFractionTooLong  "microsecond_fraction_too_long"  "microsecond timestamps may not have fraction digits"
        }
    };
}

impl ParseError {
    ghost use Rattle.std.specs.Prelude.{◌≤◌, IfSome, length, Some};
    ghost use Rattle.std.specs.Option.{option_map};
    ghost use Rattle.speedate_base.specs.Fault.{fault_documentation, fault_name, fault_number};

    /// The snake-case name, of at most 29 bytes: `too_short` for `ParseError::TooShort`. No other error
    /// has it.
    pub fn name(&self) -> &'static str
        ensures name { result.now ≡ fault_name self.now }
        ensures short { length result.now ≤ 29 }
        ensures distinct { (other : ParseError) → result.now ≡ fault_name other → self.now ≡ other }
    {
        self.name_text()
    }

    /// The documentation text, of at most 63 bytes, which every error has: `input is too short` for
    /// `ParseError::TooShort`. It needs no trait in scope.
    pub fn get_documentation(&self) -> Option<&'static str>
        ensures text { option_map (λ text. text.now) result ≡ Some (fault_documentation self.now) }
        ensures short { IfSome result (λ text. length text.now ≤ 63) }
    {
        Some(self.documentation_text())
    }

    /// The number, by which C and columns name the error: 1 for `ParseError::TooShort`, the first, and
    /// 42 for `ParseError::MicrosecondFractionTooLong`, the last.
    #[inline]
    pub fn number(&self) -> u8
        ensures number { result ≡ fault_number self.now }
        ensures small { result ≤ 42 }
    {
        *self as u8 + 1
    }

    /// The name in the table.
    fn name_text(&self) -> &'static str
        ensures name { result.now ≡ fault_name self.now }
    {
        text!(self, name)
    }

    /// The documentation text in the table.
    fn documentation_text(&self) -> &'static str
        ensures documentation { result.now ≡ fault_documentation self.now }
    {
        text!(self, documentation)
    }
}

impl fmt::Display for ParseError {
    ghost use Rattle.std.specs.Prelude.{Some};
    ghost use Rattle.speedate_base.specs.Fault.{fault_name};

    ghost output = { λ fault. Some (fault_name fault) };

    fn fmt<W: fmt::Write>(&self, f: &mut fmt::Formatter<W>) -> fmt::Result {
        f.pad(self.name())
    }
}

impl std::error::Error for ParseError {}
