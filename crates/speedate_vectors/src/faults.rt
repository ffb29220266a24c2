//! The errors by name, their documentation texts, what was expected, and which part of a text they are about.

use crate::rows::same;
use crate::shown::expect_written;
use speedate::CallKind;
use speedate::ConfigError::{
    UnknownMicrosecondsPrecisionOverflowBehaviorString, UnknownTimestampUnitString,
};
use speedate::ParseError::{self, *};

/// All errors, in the order of their rows.
const FAULTS: [[ParseError; 2]; 21] = [
    [TooShort, ExtraCharacters],
    [InvalidCharDateTimeSep, InvalidCharDateSep],
    [DateNotExact, InvalidCharYear],
    [InvalidCharMonth, InvalidCharDay],
    [InvalidCharTimeSep, InvalidCharHour],
    [InvalidCharMinute, InvalidCharSecond],
    [InvalidCharSecondFraction, InvalidCharTzSign],
    [InvalidCharTzHour, InvalidCharTzMinute],
    [OutOfRangeTzMinute, OutOfRangeTz],
    [TzRequired, SystemTimeError],
    [OutOfRangeMonth, OutOfRangeDay],
    [OutOfRangeHour, OutOfRangeMinute],
    [OutOfRangeSecond, SecondFractionTooLong],
    [SecondFractionMissing, MillisecondFractionTooLong],
    [DurationInvalidNumber, DurationTRepeated],
    [DurationInvalidFraction, DurationInvalidTimeUnit],
    [DurationInvalidDateUnit, DurationInvalidDays],
    [DurationValueTooLarge, DurationHourValueTooLarge],
    [DurationDaysTooLarge, DateTooSmall],
    [DateTooLarge, TimeTooLarge],
    [DurationUnitOrder, MicrosecondFractionTooLong],
];

/// What Display writes of each, and its documentation text.
const TEXTS: &str = "\
too_short                      input is too short
extra_characters               unexpected extra characters at the end of the input
invalid_char_date_time_sep     invalid datetime separator, expected `T`, `t`, `_` or space
invalid_char_date_sep          invalid date separator, expected `-`
date_not_exact                 Timestamp is not an exact date
invalid_char_year              invalid character in year
invalid_char_month             invalid character in month
invalid_char_day               invalid character in day
invalid_char_time_sep          invalid time separator, expected `:`
invalid_char_hour              invalid character in hour
invalid_char_minute            invalid character in minute
invalid_char_second            invalid character in second
invalid_char_second_fraction   invalid character in second fraction
invalid_char_tz_sign           invalid timezone sign
invalid_char_tz_hour           invalid timezone hour
invalid_char_tz_minute         invalid timezone minute
out_of_range_tz_minute         timezone minute value is outside expected range of 0-59
out_of_range_tz                timezone offset must be less than 24 hours
tz_required                    timezone is required to adjust to a new timezone
system_time_error              Error getting system time
out_of_range_month             month value is outside expected range of 1-12
out_of_range_day               day value is outside expected range
out_of_range_hour              hour value is outside expected range of 0-23
out_of_range_minute            minute value is outside expected range of 0-59
out_of_range_second            second value is outside expected range of 0-59
second_fraction_too_long       second fraction value is more than 6 digits long
second_fraction_missing        second fraction digits missing after `.`
millisecond_fraction_too_long  millisecond fraction value is more than 3 digits long
duration_invalid_number        invalid digit in duration
duration_t_repeated            `t` character repeated in duration
duration_invalid_fraction      quantity fraction invalid in duration
duration_invalid_time_unit     quantity invalid in time part of duration
duration_invalid_date_unit     quantity invalid in date part of duration
duration_invalid_days          \"day\" identifier in duration not correctly formatted
duration_value_too_large       a numeric value in the duration is too large
duration_hour_value_too_large  durations may not exceed 999,999,999 hours
duration_days_too_large        durations may not exceed 999,999,999 days
date_too_small                 dates before 0000 are not supported as unix timestamps
date_too_large                 dates after 9999 are not supported as unix timestamps
time_too_large                 numeric times may not exceed 86,399 seconds
duration_unit_order            quantities out of order or repeated in duration
microsecond_fraction_too_long  microsecond timestamps may not have fraction digits";

#[test]
fn of_texts_that_are_read(rt: HostRuntime) {
    same(&rt, TEXTS.lines().count(), 42, "how many faults");
    for (fault, row) in FAULTS.iter().flatten().zip(TEXTS.lines()) {
        let (name, documentation) = row.split_once(' ').expect(&rt, row);
        same(&rt, fault.name(), name, row);
        let documentation = Some(documentation.trim_start());
        same(&rt, fault.get_documentation(), documentation, row);
        expect_written(&rt, fault, name);
    }
}

#[test]
fn of_choices(rt: HostRuntime) {
    let fault = UnknownTimestampUnitString;
    same(&rt, fault.get_documentation(), None, fault);
    expect_written(&rt, &fault, "unknown_timestamp_unit_string");
    let fault = UnknownMicrosecondsPrecisionOverflowBehaviorString;
    same(&rt, fault.get_documentation(), None, fault);
    let name = "unknown_microseconds_precision_overflow_behavior_string";
    expect_written(&rt, &fault, name);
}

/// What calls on date-times expect, where each error of the rows above is given.
const EXPECTED: &str = "\
a date-time: YYYY-MM-DDTHH:MM or YYYY-MM-DDTHH:MM:SS\n\
nothing more\n\
T, t, _ or a space, then a time\n\
a hyphen, as in YYYY-MM-DD\n\
a date, or a timestamp at midnight\n\
four digits of the year\n\
two digits of the month\n\
two digits of the day\n\
a colon, as in HH:MM\n\
two digits of the hour\n\
two digits of the minute\n\
two digits of the second\n\
digits of the second's fraction\n\
after the clock at most an offset: Z or +01:00\n\
two digits of the offset's hour\n\
two digits of the offset's minute\n\
the offset's minute, 00 to 59\n\
an offset of less than 24 hours\n\
an offset: Z or +01:00\n\
a clock that shows 1970 or later\n\
month, 01 to 12\n\
a day that the month has\n\
hour, 00 to 23\n\
minute, 00 to 59\n\
second, 00 to 59\n\
at most six digits of a second's fraction\n\
a digit of the second's fraction\n\
at most three digits of a millisecond's fraction\n\
digits of a number, as in P1D or 1 day\n\
no second T\n\
no further component after a fraction\n\
H, M or S\n\
Y, M, W or D; H, M or S after a T\n\
d, day or days; a clock alone is 01:30 or longer\n\
numbers and sums of at most 4,294,967,295\n\
hours: up to 23 after days, or 10 digits up to 2,400,000,000\n\
at most 999,999,999 days\n\
a date in the years 0000 to 9999\n\
a date in the years 0000 to 9999\n\
a time within the day: 00:00:00 to 23:59:59.999999\n\
each unit once, in the order Y, M, W, D, T, H, M, S\n\
no digit of a microsecond's fraction";

/// What calls of another kind expect.
const EXPECTED_BY: [(ParseError, CallKind, &str); 26] = [
    (TooShort, CallKind::Values, "a longer text"),
    (TooShort, CallKind::Date, "a date: YYYY-MM-DD"),
    (
        TooShort,
        CallKind::DateOrTimestamp,
        "a date, YYYY-MM-DD, or a whole number",
    ),
    (TooShort, CallKind::Time, "a time: HH:MM or HH:MM:SS"),
    (
        TooShort,
        CallKind::TimeStrict,
        "a time with an offset: HH:MM:SSZ or HH:MM:SS+01:00",
    ),
    (
        TooShort,
        CallKind::DateTimeOrTimestamp,
        "a date-time, as YYYY-MM-DDTHH:MM:SS, or a number",
    ),
    (
        TooShort,
        CallKind::DateTimeStrict,
        "a date-time with an offset, as YYYY-MM-DDTHH:MM:SSZ",
    ),
    (
        TooShort,
        CallKind::Duration,
        "more of a duration, as in P1DT2H, 01:30:00 or 2 days, 10:20",
    ),
    (
        DateNotExact,
        CallKind::Values,
        "a timestamp at midnight, or a duration of whole days",
    ),
    (
        InvalidCharDateTimeSep,
        CallKind::DateTimeStrict,
        "T or t, then a time",
    ),
    (
        InvalidCharTimeSep,
        CallKind::TimeStrict,
        "a colon, as in HH:MM:SS",
    ),
    (
        InvalidCharTimeSep,
        CallKind::DateTimeStrict,
        "a colon, as in HH:MM:SS",
    ),
    (InvalidCharTimeSep, CallKind::Time, "a colon, as in HH:MM"),
    (
        InvalidCharHour,
        CallKind::Duration,
        "digits of the hours, then a colon",
    ),
    (InvalidCharHour, CallKind::Time, "two digits of the hour"),
    (
        InvalidCharTzSign,
        CallKind::TimeStrict,
        "after the clock an offset in ASCII, Z or -01:00; no comma",
    ),
    (
        InvalidCharTzSign,
        CallKind::DateTimeOrTimestamp,
        "after the clock at most an offset: Z or +01:00",
    ),
    (
        InvalidCharTzMinute,
        CallKind::DateTimeStrict,
        "the offset's minute after a colon, as in +01:00",
    ),
    (TzRequired, CallKind::Values, "a value that has an offset"),
    (TzRequired, CallKind::TimeStrict, "an offset: Z or +01:00"),
    (
        SecondFractionTooLong,
        CallKind::Duration,
        "after the hours at most MM:SS.ffffff, as in 01:30:00.123456",
    ),
    (
        SecondFractionTooLong,
        CallKind::DateTimeOrTimestamp,
        "at most six digits of a second's fraction",
    ),
    (
        DurationValueTooLarge,
        CallKind::Values,
        "the numbers of a duration within their ranges",
    ),
    (
        DurationHourValueTooLarge,
        CallKind::Duration,
        "hours: up to 23 after days, or 10 digits up to 2,400,000,000",
    ),
    (OutOfRangeMonth, CallKind::Date, "month, 01 to 12"),
    (
        TimeTooLarge,
        CallKind::Values,
        "a time within the day: 00:00:00 to 23:59:59.999999",
    ),
];

#[test]
fn what_date_times_expect(rt: HostRuntime) {
    same(&rt, EXPECTED.lines().count(), 42, "how many phrases");
    for (fault, phrase) in FAULTS.iter().flatten().zip(EXPECTED.lines()) {
        same(&rt, fault.expected(CallKind::DateTime), phrase, phrase);
    }
}

#[test]
fn what_other_calls_expect(rt: HostRuntime) {
    for (fault, kind, phrase) in EXPECTED_BY {
        same(&rt, fault.expected(kind), phrase, phrase);
    }
}

/// An error of each kind, a text that has it, and where the part begins and ends that it is about. The errors
/// stand in the order of their rows.
const PARTS: [(ParseError, &str, usize, usize); 42] = [
    (TooShort, "2020-1-1", 8, 8),
    (ExtraCharacters, "2020-01-01T12:13", 10, 16),
    (InvalidCharDateTimeSep, "2020-02-29x12:13", 10, 11),
    (InvalidCharDateSep, "2020/01/01", 4, 5),
    (DateNotExact, "86401", 0, 5),
    (InvalidCharYear, "202x-01-01", 0, 4),
    (InvalidCharMonth, "2020-1x-01", 5, 7),
    (InvalidCharDay, "2020-01-1x", 8, 10),
    (InvalidCharTimeSep, "12.13", 2, 3),
    (InvalidCharHour, "1:13:14", 0, 1),
    (InvalidCharMinute, "12:1:14", 3, 5),
    (InvalidCharSecond, "12:13:4", 6, 7),
    (InvalidCharSecondFraction, "12:13:14.x5", 9, 10),
    (InvalidCharTzSign, "12:13:14 +01:00", 8, 9),
    (InvalidCharTzHour, "12:13+1:00", 6, 8),
    (InvalidCharTzMinute, "12:13+01:x0", 9, 11),
    (OutOfRangeTzMinute, "12:13+01:60", 9, 11),
    (OutOfRangeTz, "12:13+24:00", 6, 8),
    (TzRequired, "12:13:14.5", 10, 10),
    (SystemTimeError, "x", 0, 0),
    (OutOfRangeMonth, "2020-13-01", 5, 7),
    (OutOfRangeDay, "2021-02-29T12:13", 8, 10),
    (OutOfRangeHour, "24:00", 0, 2),
    (OutOfRangeMinute, "12:60", 3, 5),
    (OutOfRangeSecond, "23:59:60Z", 6, 8),
    (SecondFractionTooLong, "12:13:14.1234567890Z", 15, 19),
    (SecondFractionMissing, "12:13:14.", 9, 9),
    (MillisecondFractionTooLong, "20000000001.00000", 15, 17),
    (DurationInvalidNumber, "P-1D", 1, 2),
    (DurationTRepeated, "PT1HT1M", 4, 5),
    (DurationInvalidFraction, "P1.5DT12H", 6, 8),
    (DurationInvalidTimeUnit, "PT1", 3, 3),
    (DurationInvalidDateUnit, "P1H", 2, 3),
    (DurationInvalidDays, "1  day", 2, 3),
    (DurationValueTooLarge, "P1DT4294967296S", 4, 14),
    (DurationHourValueTooLarge, "1 day, 24:00", 7, 9),
    (DurationDaysTooLarge, "-1000000000d", 1, 11),
    (DateTooSmall, "-62167219200001", 0, 15),
    (DateTooLarge, "253402300800000.5", 0, 17),
    (TimeTooLarge, "86400", 0, 5),
    (DurationUnitOrder, "P1D1Y", 4, 5),
    (MicrosecondFractionTooLong, "1.0", 2, 3),
];

/// Parts that are missing or cut off, or end within a character, and hours of any length.
const OTHER_PARTS: [(ParseError, &str, usize, usize); 22] = [
    (ExtraCharacters, "2020-01-01", 10, 10),
    (InvalidCharDateTimeSep, "2020-02-29", 10, 10),
    (InvalidCharDateTimeSep, "2020-02-29–12:13", 10, 13),
    (InvalidCharDateSep, "2020\u{fe0f}", 4, 7),
    (InvalidCharDateSep, "2020\u{1f4c5}", 4, 8),
    (InvalidCharYear, "202é-01-01", 0, 5),
    (InvalidCharYear, "20", 0, 2),
    (InvalidCharMonth, "2020-é-01", 5, 7),
    (InvalidCharMonth, "2020-0é-01", 5, 8),
    (InvalidCharHour, "1x:30:00", 0, 2),
    (InvalidCharHour, "1234567x90:00", 0, 10),
    (InvalidCharHour, "1234567x901:00", 0, 1),
    (InvalidCharHour, "1h30m", 1, 2),
    (InvalidCharHour, "12345", 5, 5),
    (InvalidCharHour, ":30:00", 0, 1),
    (InvalidCharHour, "é2.13", 0, 2),
    (InvalidCharTzSign, "12:13:14−01:00", 8, 11),
    (SecondFractionTooLong, "00:0ééééééé", 15, 16),
    (DurationHourValueTooLarge, "x0000000001:00", 0, 1),
    (DurationInvalidDays, "1 döy", 3, 5),
    (OutOfRangeMonth, "2020-1", 5, 6),
    (OutOfRangeMonth, "2020", 5, 5),
];

#[test]
fn which_part_an_error_is_about(rt: HostRuntime) {
    for (fault, part) in FAULTS.iter().flatten().zip(PARTS) {
        same(&rt, *fault, part.0, part.1);
    }
    for (fault, text, place, end) in PARTS {
        same(&rt, fault.part_end(text.as_bytes(), place), end, text);
    }
}

#[test]
fn other_parts(rt: HostRuntime) {
    for (fault, text, place, end) in OTHER_PARTS {
        same(&rt, fault.part_end(text.as_bytes(), place), end, text);
    }
}
