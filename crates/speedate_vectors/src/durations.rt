//! Durations from texts and numbers, their totals, and what lies a duration apart.

use crate::rows::{expect, parsed, quoted, same, time_config, value, words};
use speedate::Duration;

/// Texts, and the answer of each parser.
const TEXTS: &str = "\
':01:03'                          PT1M3S
'+01:02:03'                       PT1H2M3S
'24:01:03'                        P1DT1M3S
'00:00:00,1234'                   PT0.1234S
'1000000000:00:00'                P114155Y91DT16H
'2400000000:01:03.654321'         P273972Y220DT1M3.654321S
'1 Days'                          P1D
'1DAYS'                           P1D
'1 day,'                          P1D
'1 day, 1:00:42'                  P1DT1H42S
'-1 day 00:00:42'                 -P1DT42S
''                                too_short
'1:00'                            duration_invalid_days
'100000000000:01:03'              duration_hour_value_too_large
'1000xxx000:01:03'                invalid_char_hour
'1 10:10'                         invalid_char_hour
'00:60:03'                        out_of_range_minute
'00:60:x'                         out_of_range_minute
'00:00:60'                        out_of_range_second
'00:00:00.'                       second_fraction_missing
'00:01:03x'                       extra_characters
'18446744073709551616 day 12:00'  duration_value_too_large
'x day, 1:00:42'                  duration_invalid_number
'1 x'                             duration_invalid_days
'1da'                             duration_invalid_days
'1 DAys'                          duration_invalid_days
'1dx'                             too_short
'1 day 00:'                       too_short
'1 day 00:xx'                     invalid_char_minute
'1d 24:01:03'                     duration_hour_value_too_large
'1000000000 days'                 duration_days_too_large
'P1M'                             P30D
'P1W'                             P7D
'PT90M'                           PT1H30M
'PT86500S'                        P1DT1M40S
'P1DT'                            P1D
'P1DT24H'                         P2D
'PT4294967295S'                   P136Y70DT6H28M15S
'P1.Y'                            P1Y
'P0.1Y'                           P36DT12H
'P1,1D'                           P1DT2H24M
'P123.8Y'                         P123Y292D
'P1.1W'                           P7DT16H48M
'P1.123W'                         P7DT20H39M50.4S
'P1.1DT'                          P1DT2H24M
'PT0.0000005S'                    PT0.000001S
'-PT0.0000005S'                   -PT0.000001S
'PT20.1253395S'                   PT20.12534S
'P'                               too_short
'PT'                              too_short
'+PT'                             too_short
'PTT'                             duration_t_repeated
'P1DT1MT1S'                       duration_t_repeated
'PD'                              duration_invalid_number
'P1'                              duration_invalid_date_unit
'P1T'                             duration_invalid_date_unit
'P1DT1X'                          duration_invalid_time_unit
'PT1.1MX'                         duration_invalid_number
'P1DT1.1M1S'                      duration_invalid_fraction
'P99999999999X'                   duration_value_too_large
'P11767033Y'                      duration_days_too_large
'P11767034Y'                      duration_value_too_large
'PT4294967296S'                   duration_value_too_large
'PT4294967295.9999999S'           duration_value_too_large
'PT0.<9*5000>S'                   PT1S
'P0.<9*5000>Y'                    P1Y
'P<0*5000>1D'                     P1D
'PT0.0000004<9*1000>S'            PT0S
'0000000001:00'                   PT1H
'-PT0S'                           -PT0S
'-0d'                             -PT0S
'p1d'                             duration_invalid_number
'00:00:00d'                       duration_invalid_days
'00000000001:00'                  duration_hour_value_too_large
'2400000001:'                     duration_hour_value_too_large
'00000:'                          too_short
'00:x0'                           invalid_char_minute
'00:00:'                          invalid_char_second
'00:00:60.'                       out_of_range_second
'00:00:00,x'                      second_fraction_missing
' 1 day'                          duration_invalid_number
'4294967296x d'                   duration_value_too_large
'1 dayS'                          too_short
'1 day 1:00'                      too_short
'1 day 24:60'                     out_of_range_minute
'1000000000 days 00:60'           out_of_range_minute
'PT59.9999999S'                   PT1M
'P1y'                             duration_invalid_date_unit
'P1..1D'                          duration_invalid_date_unit
'P4294967295X'                    duration_invalid_date_unit
'PT1D'                            duration_invalid_time_unit
'PT71582789M'                     duration_value_too_large
'P1.D1D'                          duration_invalid_fraction
'P4294967295DT86399S'             duration_days_too_large
'P4294967295DT86400S'             duration_value_too_large";

/// A configuration that is not the default one, a text, the answer by default, and the one with it.
const CONFIGURED: &str = "\
truncate - lax     '00:00:00.1234567'    second_fraction_too_long       PT0.123456S
truncate - lax     '00:00:00.123456x'    second_fraction_too_long       extra_characters
truncate - lax     '00:00:00.<9*5000>'   second_fraction_too_long       PT0.999999S
truncate - lax     '00:00:00.<9*5000>x'  second_fraction_too_long       extra_characters
error    - strict  'P1Y2M3W4DT5H6M7S'    P1Y85DT5H6M7S                  P1Y85DT5H6M7S
error    - strict  'P1MT1M'              P30DT1M                        P30DT1M
error    - strict  'P3D2M1YT6S5M4H'      P1Y63DT4H5M6S                  duration_unit_order
error    - strict  'P1Y2Y'               P3Y                            duration_unit_order
error    - strict  'PT1S1M'              PT1M1S                         duration_unit_order
error    - strict  'P1D1X'               duration_invalid_date_unit     duration_invalid_date_unit
error    - strict  'P1.5D1Y'             duration_invalid_fraction      duration_invalid_fraction
error    - strict  'P1D4294967295Y'      duration_value_too_large       duration_unit_order
error    - strict  'P1D1YX'              duration_invalid_number        duration_unit_order
error    - strict  '1 day 24:00:00'      duration_hour_value_too_large  duration_hour_value_too_large";

/// A sign, days, seconds and microseconds, and the duration that they are.
const PARTS: &str = "\
-  0           0           0          -PT0S
-  1           86500       1000123    -P2DT1M41.000123S
+  999999999   86399       999999     P2739726Y9DT23H59M59.999999S
+  999999999   86399       1000000    duration_days_too_large
+  4294967295  86400       0          duration_value_too_large
+  4294967295  4294967295  905969663  duration_value_too_large";

/// Durations, and their seconds, microseconds of a second, milliseconds and microseconds, with the sign.
const TOTALS: &str = "\
-PT0S                          0                0        0                   0
-PT1.001S                      -1               -1000    -1001               -1001000
-P2739726Y9DT23H59M59.999999S  -86399999999999  -999999  -86399999999999999  -86399999999999999999";

/// Microseconds, and the duration of that length.
const LENGTHS: &str = "\
0                                         PT0S
-1                                        -PT0.000001S
-1001000                                  -PT1.001S
9223372036854775807                       P292471Y76DT4H54.775807S
9223372036854775808                       P292471Y76DT4H54.775808S
-9223372036854775808                      -P292471Y76DT4H54.775808S
-9223372036854775809                      -P292471Y76DT4H54.775809S
86399999999999999999                      P2739726Y9DT23H59M59.999999S
-86399999999999999999                     -P2739726Y9DT23H59M59.999999S
86400000000000000000                      duration_days_too_large
-86400000000000000000                     duration_days_too_large
170141183460469231731687303715884105727   duration_days_too_large
-170141183460469231731687303715884105728  duration_days_too_large";

/// Two date-times, and the duration from the one to the other.
const BETWEEN: &str = "\
2020-01-01T12:00:00               2020-01-01T12:00:00+01:00  -PT1H
2020-01-01T12:00:00Z              2020-01-01T13:00:00+01:00  PT0S
2020-02-28T23:59:59.999999Z       2020-03-01T00:00:00Z       P1DT0.000001S
9999-12-31T23:59:59.999999-23:59  0000-01-01T00:00:00+23:59  -P10006Y236DT23H57M59.999999S";

/// A date-time, a duration, and the date-time that long after it.
const AFTER: &str = "\
2020-02-29T23:30:00+01:00         PT1H          2020-03-01T00:30:00+01:00
2020-01-01T00:00:00.25Z           -PT0.5S       2019-12-31T23:59:59.750000Z
9999-12-31T23:59:59.999999-23:59  PT0.000001S   date_too_large
0000-01-01T00:00:00+23:59         -PT0.000001S  date_too_small";

/// Two dates, and the duration from the one to the other.
const BETWEEN_DATES: &str = "\
2020-02-28  2020-03-01  P2D
2020-03-01  2020-02-28  -P2D
2020-01-01  2020-01-01  PT0S
0000-01-01  9999-12-31  P10006Y234D";

/// A date, a duration, and the date that long after it.
const AFTER_DATE: &str = "\
2020-03-01  -P2D         2020-02-28
2020-02-28  PT36H        date_not_exact
9999-12-31  P1D          date_too_large
2020-01-01  -999999999d  date_too_small";

#[test]
fn texts(rt: HostRuntime) {
    for row in TEXTS.lines() {
        let (_, text, want) = quoted(&rt, row);
        expect(&rt, Duration::parse_str(&text), want, row);
        expect(&rt, text.parse::<Duration>(), want, row);
    }
}

#[test]
fn bytes_that_are_no_text(rt: HostRuntime) {
    let read = Duration::parse_bytes(&[0xff; 5]);
    expect(&rt, read, "invalid_char_hour", "five bytes ff");
}

#[test]
fn configured_texts(rt: HostRuntime) {
    for row in CONFIGURED.lines() {
        let (config, text, wants) = quoted(&rt, row);
        let [by_default, configured, ..] = words(wants);
        expect(&rt, Duration::parse_str(&text), by_default, row);
        let config = time_config(&rt, config);
        let read = Duration::parse_bytes_with_config(text.as_bytes(), &config);
        expect(&rt, read, configured, row);
    }
}

#[test]
fn parts(rt: HostRuntime) {
    for row in PARTS.lines() {
        let [sign, day, second, microsecond, want, ..] = words(row);
        let (day, second) = (value(&rt, day), value(&rt, second));
        let made = Duration::new(sign == "+", day, second, value(&rt, microsecond));
        expect(&rt, made, want, row);
    }
}

#[test]
fn totals(rt: HostRuntime) {
    for row in TOTALS.lines() {
        let [text, second, part, millisecond, microsecond, ..] = words(row);
        let length: Duration = parsed(&rt, text);
        same(&rt, length.signed_total_seconds(), value(&rt, second), row);
        same(&rt, length.signed_microseconds(), value(&rt, part), row);
        same(&rt, length.signed_total_ms(), value(&rt, millisecond), row);
        let total = length.signed_total_microseconds();
        same(&rt, total, value(&rt, microsecond), row);
    }
}

/// Durations, and their sum, or the error.
const SUMS: &str = "\
-PT0S                           -PT0S                           PT0S
PT2H                            -PT30M                          PT1H30M
-PT0.5S                         -PT0.75S                        -PT1.25S
PT23H59M59.999999S              PT0.000001S                     P1D
-P2739726Y9DT23H59M59.999999S   -PT0.000001S                    duration_days_too_large
P2739726Y9DT23H59M59.999999S    PT0.000001S                     duration_days_too_large";

#[test]
fn sums(rt: HostRuntime) {
    same(
        &rt,
        Duration::sum(&[]),
        Duration::new(true, 0, 0, 0),
        "none",
    );
    for row in SUMS.lines() {
        let [first, second, want, ..] = words(row);
        let first: Duration = parsed(&rt, first);
        let second: Duration = parsed(&rt, second);
        expect(&rt, Duration::sum(&[first, second]), want, row);
        let three = [first, second, second.negated()];
        same(&rt, Duration::sum(&three), Duration::sum(&[first]), row);
    }
}

#[test]
fn lengths(rt: HostRuntime) {
    for row in LENGTHS.lines() {
        let [microseconds, want, ..] = words(row);
        let length = Duration::from_signed_microseconds(value(&rt, microseconds));
        expect(&rt, length, want, row);
    }
}

#[test]
fn between(rt: HostRuntime) {
    for row in BETWEEN.lines() {
        let [start, end, want, ..] = words(row);
        let length = Duration::between(&parsed(&rt, start), &parsed(&rt, end));
        expect(&rt, Ok(length), want, row);
    }
}

#[test]
fn between_dates(rt: HostRuntime) {
    for row in BETWEEN_DATES.lines() {
        let [start, end, want, ..] = words(row);
        let length = Duration::between_dates(&parsed(&rt, start), &parsed(&rt, end));
        expect(&rt, Ok(length), want, row);
    }
}

#[test]
fn after(rt: HostRuntime) {
    for row in AFTER.lines() {
        let [start, length, want, ..] = words(row);
        let (start, length): (_, Duration) = (parsed(&rt, start), parsed(&rt, length));
        expect(&rt, length.after(&start), want, row);
        expect(&rt, length.negated().before(&start), want, row);
    }
}

#[test]
fn after_date(rt: HostRuntime) {
    for row in AFTER_DATE.lines() {
        let [start, length, want, ..] = words(row);
        let (start, length): (_, Duration) = (parsed(&rt, start), parsed(&rt, length));
        expect(&rt, length.after_date(&start), want, row);
        expect(&rt, length.negated().before_date(&start), want, row);
    }
}
