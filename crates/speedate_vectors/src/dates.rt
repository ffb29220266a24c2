//! Dates from texts, numbers and timestamps, and days counted.

use crate::rows::{expect, expect_front, expect_or_none, parsed, quoted, same, value, words};
use speedate::{Date, DateConfig, is_leap_year, month_length};

/// Texts that are no numbers, and the answer of each parser.
const TEXTS: &str = "\
'0000-02-29'   0000-02-29
'0400-02-29'   0400-02-29
'1600-02-29'   1600-02-29
'2000-02-29'   2000-02-29
'2004-02-29'   2004-02-29
''             too_short
'2000:12:1'    too_short
'xxxx:12:31'   invalid_char_year
'2020x12:13'   invalid_char_date_sep
'2020-1x_01'   invalid_char_month
'2020-12x13'   invalid_char_date_sep
'2020-13-0x'   invalid_char_day
'2020-13-01'   out_of_range_month
'2020-04-31'   out_of_range_day
'2003-02-29'   out_of_range_day
'1900-02-29'   out_of_range_day
'1201-02-29'   out_of_range_day
'0100-02-29'   out_of_range_day
'2020-04-01 '  extra_characters
'+202-01-01'   invalid_char_year
'2020-00-00'   out_of_range_month
'2020-01-00'   out_of_range_day";

/// A unit, a text that may be a timestamp, and the answer.
const NUMBERS: &str = "\
infer  '1654560000'           2022-06-07
infer  '20044800000'          1970-08-21
infer  '19999872000'          2603-10-10
infer  '20000000000'          date_not_exact
infer  '1654560000.0'         invalid_char_date_sep
s      '1640995200'           2022-01-01
us     '1654560000000000'     2022-06-07
us     '1654560000000001'     date_not_exact
infer  '0'                    1970-01-01
infer  '-86400'               1969-12-31
infer  '253402300800000'      date_too_large
infer  '9223372036854775808'  invalid_char_date_sep
infer  '+'                    too_short
ms     '1640995200'           date_not_exact";

/// Texts, and the date at their front with its bytes, or the error.
const FRONTS: &str = "\
'2026-11-22 opening balance'  2026-11-22 10
'2026-11-223'                 2026-11-22 10
' 2026-11-22'                 invalid_char_year
'2026-02-29 rent'             out_of_range_day";

/// A unit, whether the timestamp has to be exact, the timestamp, and the answer.
const TIMESTAMPS: &str = "\
infer  any    -9223372036854775808  date_too_small
infer  any    253402300799000       9999-12-31
infer  any    253402300800000       date_too_large
infer  any    -20000000000          1336-03-23
infer  any    -20000000001          1969-05-14
infer  exact  1654560000001         date_not_exact
infer  exact  253402300800001       date_too_large
ms     any    -1                    1969-12-31
s      any    253402300800          date_too_large
s      any    -62167219201          date_too_small
us     any    253402300799999999    9999-12-31
us     any    253402300800000000    date_too_large
us     any    -62167219200000001    date_too_small
us     exact  1                     date_not_exact";

/// A year, a month, a day, and their date.
const PARTS: &str = "\
0      1   1   0000-01-01
2020   2   29  2020-02-29
2021   1   0   out_of_range_day
2021   13  32  out_of_range_month
10000  13  32  date_too_large";

/// Day numbers, their dates, the days of the year, the seconds of midnight, and the next days.
const DAYS: &str = "\
0        0000-01-01  1    -62167219200  0000-01-02
59       0000-02-29  60   -62162121600  0000-03-01
36524    0099-12-31  365  -59011545600  0100-01-01
36525    0100-01-01  1    -59011459200  0100-01-02
36583    0100-02-28  59   -59006448000  0100-03-01
36584    0100-03-01  60   -59006361600  0100-03-02
73049    0200-01-01  1    -55855785600  0200-01-02
146096   0399-12-31  365  -49544524800  0400-01-01
146097   0400-01-01  1    -49544438400  0400-01-02
719528   1970-01-01  1    0             1970-01-02
730484   1999-12-31  365  946598400     2000-01-01
737790   2020-01-01  1    1577836800    2020-01-02
738155   2020-12-31  366  1609372800    2021-01-01
3652424  9999-12-31  365  253402214400  none";

/// A date, a number of days, and the date that many days later.
const ADDED: &str = "\
2020-02-28  2            2020-03-01
2020-03-01  -2           2020-02-28
0000-01-01  3652424      9999-12-31
9999-12-31  1            none
2020-01-01  -2147483648  none";

#[test]
fn texts(rt: HostRuntime) {
    for row in TEXTS.lines() {
        let (_, text, want) = quoted(&rt, row);
        expect(&rt, Date::parse_str_rfc3339(&text), want, row);
        expect(&rt, Date::parse_str(&text), want, row);
    }
}

#[test]
fn bytes(rt: HostRuntime) {
    let read = Date::parse_bytes_rfc3339(b"1654560000");
    expect(&rt, read, "invalid_char_date_sep", "no number");
    let read = Date::parse_bytes(&[0xff; 10]);
    expect(&rt, read, "invalid_char_year", "ten bytes ff");
}

#[test]
fn numbers(rt: HostRuntime) {
    for row in NUMBERS.lines() {
        let (unit, text, want) = quoted(&rt, row);
        let unit = value(&rt, unit);
        let config = DateConfig::builder().timestamp_unit(unit).build();
        expect(&rt, Date::parse_str_with_config(&text, &config), want, row);
        let read = Date::parse_bytes_with_config(text.as_bytes(), &config);
        expect(&rt, read, want, row);
        if config == DateConfig::default() {
            expect(&rt, Date::parse_str(&text), want, row);
            expect(&rt, text.parse::<Date>(), want, row);
        }
    }
}

#[test]
fn fronts(rt: HostRuntime) {
    for row in FRONTS.lines() {
        let (_, text, want) = quoted(&rt, row);
        expect_front(&rt, Date::parse_front(text.as_bytes()), want, row);
    }
}

#[test]
fn timestamps(rt: HostRuntime) {
    for row in TIMESTAMPS.lines() {
        let [unit, exact, timestamp, want, ..] = words(row);
        let unit = value(&rt, unit);
        let config = DateConfig::builder().timestamp_unit(unit).build();
        let answer = Date::from_timestamp(value(&rt, timestamp), exact == "exact", &config);
        expect(&rt, answer, want, row);
    }
}

#[test]
fn parts(rt: HostRuntime) {
    for row in PARTS.lines() {
        let [year, month, day, want, ..] = words(row);
        let answer = Date::new(value(&rt, year), value(&rt, month), value(&rt, day));
        expect(&rt, answer, want, row);
    }
}

#[test]
fn days(rt: HostRuntime) {
    for row in DAYS.lines() {
        let [number, text, ordinal, second, next, ..] = words(row);
        let date: Date = parsed(&rt, text);
        let (number, second): (u32, i64) = (value(&rt, number), value(&rt, second));
        same(&rt, date.day_number(), number, row);
        expect_or_none(&rt, Date::from_day_number(number), text, row);
        same(&rt, date.ordinal_day(), value(&rt, ordinal), row);
        same(&rt, date.timestamp(), second, row);
        same(&rt, date.timestamp_ms(), second.saturating_mul(1000), row);
        expect_or_none(&rt, date.next_day(), next, row);
    }
}

#[test]
fn last_day_and_leap_years(rt: HostRuntime) {
    same(&rt, Date::from_day_number(3_652_425), None, "3652425");
    assert!(rt; is_leap_year(2020) && !is_leap_year(1900) && month_length(2000, 2) == 29);
}

#[test]
fn days_added(rt: HostRuntime) {
    for row in ADDED.lines() {
        let [date, days, want, ..] = words(row);
        let (date, days): (Date, i32) = (parsed(&rt, date), value(&rt, days));
        let later = date.checked_add_days(days);
        expect_or_none(&rt, later, want, row);
        if let Some(later) = later {
            same(&rt, later.days_since(&date), days, row);
        }
    }
}
