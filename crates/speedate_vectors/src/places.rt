//! The places of errors: refused texts of each row of each table, and the byte at which the error lies.

use crate::rows::{date_time_config, quoted, same, time_config, value, words};
use speedate::{
    Date, DateConfig, DateForm, DateTime, DateTimeConfig, DateTimeForm, Duration, ParseError,
    Refused, Time, TimeForm, TimestampUnit,
};
use std::fmt::Debug;
use std::process::Abort;

/// Texts that are refused as a date of RFC 3339, as a date or a timestamp, and at the front: the place of
/// each error, and none for `-`.
const DATES: &str = "\
''                      0  0  0
'x'                     1  1  1
'2020-1-1'              8  8  8
'2026-11-2'             9  9  9
'202x-01-01'            0  0  0
'+202-01-01'            0  0  0
'2020/01/01'            4  4  4
'2020x1x-01'            4  4  4
'2020-1x-01'            5  5  5
'2020-01/01'            7  7  7
'2020-01-1x'            8  8  8
'2020-13-0x'            8  8  8
'2020-13-01'            5  5  5
'2020-00-00'            5  5  5
'2021-02-29'            8  8  8
'2020-04-31'            8  8  8
'2020-01-01T12:13'      10 10 -
'2020-01-01 '           10 10 -
'2020-02-29'            -  -  -
'1'                     1  0  1
'+'                     1  1  1
'86400'                 5  -  5
'1654560000.0'          4  4  4
'20200229'              8  0  8
'253402300800000'       4  0  4
'-62167219200001'       0  0  0
'9223372036854775808'   4  4  4
'9223372036854775807'   4  0  4
'-9223372036854775808'  0  0  0";

/// A behavior, and texts that are refused as a time, as one of RFC 3339 alone, and at the front: the place
/// of each error.
const TIMES: &str = "\
error     ''                      0  0  0
error     '12:1'                  4  4  4
error     '1:13:14'               0  0  0
error     '12.13'                 2  2  2
error     '12:1:14'               3  3  3
error     '1x:1y'                 0  0  0
error     '24:1y'                 3  3  3
error     '24:60'                 0  0  0
error     '12:60:99'              3  3  3
error     '12:13:4'               6  6  6
error     '12:13:'                6  6  6
error     '12:13: x'              6  6  6
error     '23:59:60'              6  6  6
error     '12:13:60.'             6  6  6
error     '12:13:14.'             9  9  9
error     '12:13:14,x'            9  9  9
error     '12:13:14.1234567'      15 15 15
error     '12:13:14.1234567890x'  15 15 15
truncate  '12:13:14.1234567'      -  16 -
truncate  '12:13:14.1234567x'     16 16 -
truncate  '12:13:14.'             9  9  9
error     '12:13x'                5  5  -
error     '12:13.5'               5  5  -
error     '12:13:14 +01:00'       8  8  -
error     '12:13:14.5x'           10 10 -
error     '12:13:14.5.5'          10 10 -
error     '12:13+'                6  6  6
error     '12:13+1:00'            6  6  6
error     '12:00:00-ERROR'        9  9  9
error     '12:13:14.123456-'      16 16 16
error     '12:13+01'              8  8  8
error     '12:13+01:'             9  9  9
error     '12:13+01:x'            9  9  9
error     '12:13+01x'             8  8  8
error     '12:13+01:60'           9  9  9
error     '12:13+0160'            8  8  8
error     '12:13+99:99'           9  9  9
error     '12:13+24:00'           6  6  6
error     '12:00:00+25:00'        9  9  9
error     '12:13Z+01:00'          6  6  -
error     '12:13z '               6  6  -
error     '12:13+01:00x'          11 11 -
error     '12:13+0100x'           10 10 -
error     '12:13−'                8  8  8
error     '12:13−1:00'            8  8  8
error     '12:13−01:6'            11 11 11
error     '12:13−01:60'           11 11 11
error     '12:13−0160'            10 10 10
error     '12:13−24:00'           8  8  8
error     '12:13−01:00x'          13 13 -
error     '00:0ééééééé'           3  3  3
error     'éé:éé'                 0  0  0
error     '12:13'                 -  5  -
error     '12:13Z'                -  5  -
error     '12:13+01:00'           -  5  -
error     '12:13:14,5Z'           -  8  -
error     '12:13:14,5'            -  8  -
error     '12:13:14'              -  8  -
error     '12:13:14.5'            -  10 -
error     '12:13:14.123456'       -  15 -
error     '12:13:14−01:00'        -  8  -
error     '12:13:14.25−0100'      -  11 -
error     '12:13:14+0100'         -  11 -
error     '12:13:14.25+0100'      -  14 -
error     '12:13:14z'             -  -  -
error     '12:13:14.5-01:00'      -  -  -";

/// A behavior, and texts that are refused as a date-time, as one of RFC 3339 alone, and at the front: the
/// place of each error.
const DATE_TIMES: &str = "\
error     ''                                 0  0  0
error     '2020-02-2'                        9  9  9
error     '2020-13-01T24:00'                 5  5  5
error     '2021-02-29T12:13'                 8  8  8
error     '20200229T121314Z'                 4  4  4
error     '2020-02-29'                       10 10 10
error     '2020-02-29x12:13'                 10 10 10
error     '2020-02-29T'                      11 11 11
error     '2020-02-29T12Z'                   14 14 14
error     '2020-02-29T24:00'                 11 11 11
error     '2020-02-29T12-13'                 13 13 13
error     '2020-02-29T12:60'                 14 14 14
error     '2020-02-29T12:13:60'              17 17 17
error     '2020-02-29T12:13:14.'             20 20 20
error     '2020-02-29T12:13:14.123456789Z'   26 26 26
truncate  '2020-02-29T12:13:14.123456789Z'   -  -  -
error     '2020-02-29T12:13:14 +01:00'       19 19 -
error     '2020-02-29 12:13:14+00'           22 22 22
error     '2020-02-29T12:13:14+1:00'         20 20 20
error     '2026-11-22T12:00:00-ERROR'        20 20 20
error     '2020-02-29T12:13:14+24:00'        20 20 20
error     '2020-02-29T12:13:14+01:60'        23 23 23
error     '2020-02-29T12:13:14−01:60'        25 25 25
error     '2020-02-29T12:13:14ZZ'            20 20 -
error     '2020-02-29T12:13:14.5+01:00 GET'  27 27 -
error     '2020-01-01 12:13:14Z'             -  10 -
error     '2020-01-01_12:13'                 -  10 -
error     '2020-02-29T12:13+01:00'           -  16 -
error     '2020-02-29t12:13:14,5Z'           -  19 -
error     '2020-02-29T12:13:14'              -  19 -
error     '2020-02-29T12:13:14.5'            -  21 -
error     '2020-02-29T12:13:14−01:00'        -  19 -
error     '2020-02-29T12:13:14+0100'         -  22 -
error     '2020-02-29T12:13:14.25+0100'      -  25 -
error     '2020-02-29T12:13:14Z'             -  -  -";

/// A unit and a behavior, and texts that are refused as a date-time or a timestamp: the place of each error.
const TIMESTAMPS: &str = "\
infer error     '1'                      -
infer error     'x'                      1
infer error     '1.0000000'              8
infer error     '-1.00000001'            9
infer error     '.1234567'               7
infer error     '20000000001.0000'       15
infer truncate  '20000000001.0000'       -
s     error     '20000000001.0000000'    18
us    error     '1.0'                    2
us    error     '1.'                     -
ms    error     '+1.2345'                6
infer error     '1e5'                    3
infer error     '253402300800000'        0
infer error     '-62167219200001'        0
infer error     '-9223372036854775808'   0
infer error     '9223372036854775808'    4
infer error     '99999999999999999.5'    0
infer error     '-99999999999999999.5'   0
us    truncate  '-99999999999999999999.' 0
infer error     '2020-02-29T12:13:60'    17
infer error     '2020-02-29 '            11
infer error     '2020-02-29T12:13'       -";

/// A behavior and an order, and texts that are refused as an ISO 8601 duration: the place of each error.
const ISO_DURATIONS: &str = "\
error    - lax    ''                                   0
error    - lax    '-'                                  1
error    - lax    '+'                                  1
error    - lax    'P'                                  1
error    - lax    '-P'                                 2
error    - lax    'PT'                                 2
error    - lax    'PTT'                                2
error    - lax    'P1DT1HT'                            6
error    - lax    'PD'                                 1
error    - lax    'P-1D'                               1
error    - lax    'P1D-1D'                             3
error    - lax    'PY1D'                               1
error    - lax    'P1DT1HxM'                           6
error    - lax    'P1'                                 2
error    - lax    'P1D1'                               4
error    - lax    'P12.5'                              5
error    - lax    'P1D1Q'                              4
error    - lax    '+P1D1Q'                             5
error    - lax    'P1.5X'                              4
error    - lax    'P1.'                                3
error    - lax    'P1H'                                2
error    - lax    'PT1D'                               3
error    - lax    'PT1'                                3
error    - lax    'PT12.25D'                           7
error    - lax    'P1é'                                2
error    - lax    'Pé'                                 1
error    - lax    'P4294967296D'                       1
error    - lax    '-P1D4294967296D'                    4
error    - lax    'P4294967296Q'                       1
error    - lax    'P1.D1Y'                             4
error    - lax    'P1.5DT1H'                           6
error    - lax    'P1.5DT1Q'                           6
error    - lax    'P4294967295D1D'                     12
error    - lax    'PT4294967295S1S'                    13
error    - lax    'P1Y4294967295D'                     3
error    - lax    'P1D12.5Y'                           -
error    - lax    'P1000000000D'                       1
error    - lax    'P1000000000DT1S'                    1
error    - lax    'P999999999DT86399S'                 -
error    - lax    'P999999999DT86400S'                 12
error    - lax    '-P999999999DT86400S1S'              13
error    - lax    'P999999999DT23H60M60M'              15
error    - lax    'P1D999999999D1D'                    3
error    - lax    'P4294967295DT86400S'                13
error    - lax    'PT4294967295.9999999S'              2
error    - lax    'PT4294967295S0.9999999S'            13
error    - lax    'P4294967295DT4294967295S0.9999999S' 24
error    - lax    'P4294967295DT86399.9999999S'        13
error    - strict 'P1D1Y'                              4
error    - strict 'P1Y1Y'                              4
error    - strict 'PT1M1H'                             5
error    - strict 'P1D12.5Y'                           7
error    - strict 'P1D1Q'                              4
error    - strict 'P1D1'                               4
error    - strict 'P1D4294967296Y'                     3
error    - strict 'P1M1YT1D'                           4
error    - strict 'P1Y1DT1H'                           -
truncate - lax    'PT0.12345678Q'                      12";

/// The same for texts that are refused as days, with a clock or alone.
const DAYS: &str = "\
error    - lax    'days'                   0
error    - lax    'p1d'                    0
error    - lax    '4294967296d'            0
error    - lax    '1'                      1
error    - lax    '12 '                    3
error    - lax    '1:30'                   1
error    - lax    '1é'                     1
error    - lax    '1  day'                 2
error    - lax    '1 x d'                  2
error    - lax    '1 dax'                  3
error    - lax    '1da'                    2
error    - lax    '1D aye'                 6
error    - lax    '1 dAy'                  3
error    - lax    '1dAY'                   -
error    - lax    '1 d a'                  5
error    - lax    '1 day 1:30'             10
error    - lax    '1 day,'                 -
error    - lax    '1 days,,10:20'          7
error    - lax    '1d12345'                7
error    - lax    '1 day, 24:60'           10
error    - lax    '1 day, 24:00'           7
error    - lax    '-1 day, 24:00'          8
error    - lax    '1d2400000001:00'        2
error    - lax    '1 day, 10:20:30x'       15
error    - lax    '1 day 10:20:30.1234567' 21
truncate - lax    '1 day 10:20:30.1234567' -
error    - lax    '999999999d'             -
error    - lax    '1000000000d'            0
error    - lax    '-1000000000 days'       1
error    - lax    '1000000000d 24:00'      12
error    - lax    '1000000000d 23:00'      0";

/// The same for texts that are refused as a clock.
const CLOCKS: &str = "\
error    - lax    '12345'             5
error    - lax    '-12345'            6
error    - lax    '12x45'             2
error    - lax    'abcefg'            0
error    - lax    '1h30m'             1
error    - lax    'x12:30'            0
error    - lax    '1x:30:00'          0
error    - lax    '1x:30:99'          0
error    - lax    '00000000001:00'    0
error    - lax    'xxxxxxxxxxx:00'    0
error    - lax    '2400000001:00'     0
error    - lax    '2400000001:'       0
error    - lax    '2400000000:00'     -
error    - lax    '00:00:00.1234567'  15
error    - lax    '-00:00:00.1234567' 16
error    - lax    '01:03.123456789'   5
error    - lax    '01:03.1234567890'  15
error    - lax    '00:0xxxxxxxxxxxx'  15
error    - lax    '0000:'             5
error    - lax    '0000:1'            6
error    - lax    '00:1x:00'          3
error    - lax    '00:60:00'          3
error    - lax    ':60:00'            1
error    - lax    ':3000'             3
error    - lax    '00:0ééé'           3
error    - lax    '00:0ééééééé'       15
error    - lax    '00:00:1'           6
error    - lax    '00:00:'            6
error    - lax    '00:00:60'          6
error    - lax    '00:00:00.'         9
error    - lax    '100:00:00,'        10
error    - lax    '00:00x'            5
error    - lax    '00:00:00x'         8
error    - lax    '00:00:00.5x'       10
truncate - lax    '00:00:00.1234567'  -
truncate - lax    '00:00:00.1234567x' 16
truncate - lax    '00:00:00.123456x'  15
error    - strict '01:30'             -";

/// The place is to be the one that the row wants.
fn expect_place<R: Abort>(rt: &R, found: Option<usize>, want: &str, row: &str) {
    match found {
        Some(place) => same(rt, place, value(rt, want), row),
        None => same(rt, "-", want, row),
    }
}

/// The value or the error is to be that of the parser, and the place the one that the row wants.
fn expect_both<T: PartialEq + Debug + Copy, R: Abort>(
    rt: &R,
    found: Result<T, Refused>,
    parsed: Result<T, ParseError>,
    want: &str,
    row: &str,
) {
    expect_place(rt, Refused::place_of(found), want, row);
    match found {
        Ok(value) => same(rt, Ok(value), parsed, row),
        Err(refused) => same(rt, Err(refused.fault), parsed, row),
    }
}

/// What a call gives that returns the size of the value too, which is that of the text.
fn alone<T: Copy>(parsed: Result<T, ParseError>, text: &[u8]) -> Result<(T, usize), ParseError> {
    match parsed {
        Ok(value) => Ok((value, text.len())),
        Err(fault) => Err(fault),
    }
}

#[test]
fn dates_or_places(rt: HostRuntime) {
    let config = DateConfig::default();
    for row in DATES.lines() {
        let (_, text, wants) = quoted(&rt, row);
        let [whole, relaxed, front, ..] = words(wants);
        let text = text.as_bytes();
        let found = Date::parse_or_place(text, DateForm::Text, &config);
        expect_both(
            &rt,
            found,
            alone(Date::parse_bytes_rfc3339(text), text),
            whole,
            row,
        );
        let found = Date::parse_or_place(text, DateForm::OrTimestamp, &config);
        expect_both(
            &rt,
            found,
            alone(Date::parse_bytes(text), text),
            relaxed,
            row,
        );
        let found = Date::parse_or_place(text, DateForm::Front, &config);
        expect_both(&rt, found, Date::parse_front(text), front, row);
    }
}

#[test]
fn times_or_places(rt: HostRuntime) {
    for row in TIMES.lines() {
        let (behavior, text, wants) = quoted(&rt, row);
        let [relaxed, strict, front, ..] = words(wants);
        let (text, config) = (text.as_bytes(), time_config(&rt, behavior));
        let parsed = alone(Time::parse_bytes_with_config(text, &config), text);
        let found = Time::parse_or_place(text, TimeForm::Text, &config);
        expect_both(&rt, found, parsed, relaxed, row);
        let parsed = alone(Time::parse_bytes_strict(text, value(&rt, behavior)), text);
        let found = Time::parse_or_place(text, TimeForm::Strict, &config);
        expect_both(&rt, found, parsed, strict, row);
        let found = Time::parse_or_place(text, TimeForm::Front, &config);
        expect_both(&rt, found, Time::parse_front(text, &config), front, row);
    }
}

/// The size of the value, or the place of the error, by itself too.
fn expect_date_time<R: Abort>(
    rt: &R,
    (text, form, config): (&[u8], DateTimeForm, &DateTimeConfig),
    parsed: Result<(DateTime, usize), ParseError>,
    want: &str,
    row: &str,
) {
    let found = DateTime::parse_or_place(text, form, config);
    let size_or_place = match found {
        Ok((_, size)) => size,
        Err(refused) => refused.place,
    };
    same(
        rt,
        DateTime::size_or_place(text, form, config),
        size_or_place,
        row,
    );
    expect_both(rt, found, parsed, want, row);
}

#[test]
fn date_times_or_places(rt: HostRuntime) {
    for row in DATE_TIMES.lines() {
        let (behavior, text, wants) = quoted(&rt, row);
        let [relaxed, strict, front, ..] = words(wants);
        let time_config = time_config(&rt, behavior);
        let text = text.as_bytes();
        let config = DateTimeConfig::builder().time_config(time_config).build();
        let parsed = DateTime::parse_bytes_rfc3339_with_config(text, &config.time_config);
        let call = (text, DateTimeForm::Text, &config);
        expect_date_time(&rt, call, alone(parsed, text), relaxed, row);
        let parsed = DateTime::parse_bytes_strict(text, value(&rt, behavior));
        let call = (text, DateTimeForm::Strict, &config);
        expect_date_time(&rt, call, alone(parsed, text), strict, row);
        let parsed = DateTime::parse_front(text, &config.time_config);
        expect_date_time(
            &rt,
            (text, DateTimeForm::Front, &config),
            parsed,
            front,
            row,
        );
    }
}

#[test]
fn timestamps_or_places(rt: HostRuntime) {
    for row in TIMESTAMPS.lines() {
        let (config, text, want) = quoted(&rt, row);
        let (text, config) = (text.as_bytes(), date_time_config(&rt, config.trim()));
        let parsed = alone(DateTime::parse_bytes_with_config(text, &config), text);
        let call = (text, DateTimeForm::OrTimestamp, &config);
        expect_date_time(&rt, call, parsed, want, row);
    }
}

#[test]
fn durations_or_places(rt: HostRuntime) {
    for rows in [ISO_DURATIONS, DAYS, CLOCKS] {
        for row in rows.lines() {
            let (choices, text, want) = quoted(&rt, row);
            let (text, config) = (text.as_bytes(), time_config(&rt, choices));
            let parsed = Duration::parse_bytes_with_config(text, &config);
            expect_both(
                &rt,
                Duration::parse_or_place(text, &config),
                parsed,
                want,
                row,
            );
        }
    }
}

#[test]
fn dates(rt: HostRuntime) {
    for row in DATES.lines() {
        let (_, text, wants) = quoted(&rt, row);
        let [_, relaxed, ..] = words(wants);
        let place = Date::error_place(text.as_bytes(), &DateConfig::default());
        expect_place(&rt, place, relaxed, row);
    }
}

#[test]
fn dates_of_a_unit(rt: HostRuntime) {
    let config = DateConfig {
        timestamp_unit: TimestampUnit::Millisecond,
    };
    expect_place(&rt, Date::error_place(b"86400000", &config), "-", "ms");
    expect_place(&rt, Date::error_place(b"86400", &config), "0", "ms");
}

#[test]
fn times(rt: HostRuntime) {
    for row in TIMES.lines() {
        let (behavior, text, wants) = quoted(&rt, row);
        let [relaxed, ..] = words(wants);
        let (text, config) = (text.as_bytes(), time_config(&rt, behavior));
        expect_place(&rt, Time::error_place(text, &config), relaxed, row);
    }
}

#[test]
fn date_times(rt: HostRuntime) {
    for row in DATE_TIMES.lines() {
        let (behavior, text, wants) = quoted(&rt, row);
        let [_, strict, ..] = words(wants);
        let place = DateTime::error_place_strict(text.as_bytes(), value(&rt, behavior));
        expect_place(&rt, place, strict, row);
    }
}

#[test]
fn timestamps(rt: HostRuntime) {
    for row in TIMESTAMPS.lines() {
        let (config, text, want) = quoted(&rt, row);
        let config = date_time_config(&rt, config.trim());
        let place = DateTime::error_place(text.as_bytes(), &config);
        expect_place(&rt, place, want, row);
    }
}

#[test]
fn durations(rt: HostRuntime) {
    for rows in [ISO_DURATIONS, DAYS, CLOCKS] {
        for row in rows.lines() {
            let (choices, text, want) = quoted(&rt, row);
            let config = time_config(&rt, choices);
            let place = Duration::error_place(text.as_bytes(), &config);
            expect_place(&rt, place, want, row);
        }
    }
}
