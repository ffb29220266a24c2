//! Date-times from texts, timestamps and clocks, their timestamps, and other offsets.

use crate::rows::{
    date_time_config, expect, expect_front, parsed, quoted, same, time_config, value, words,
};
use speedate::{Date, DateTime, DateTimeConfig, IntFloat, Moment, ParseError, float_parse_str};
use speedate_civil::datetime::full_front;

/// Texts that are no timestamps, and the answer of each parser.
const TEXTS: &str = "\
'2022-01-01T12:13:14Z'                     2022-01-01T12:13:14Z
'2022-01-01t12:13:14z'                     2022-01-01T12:13:14Z
'2022-01-01 12:13:14+0000'                 2022-01-01T12:13:14Z
'2000-02-29 12:13:14-0830'                 2000-02-29T12:13:14-08:30
'2020-01-01_12:13+1234'                    2020-01-01T12:13:00+12:34
'2020-01-01T12:13:14.123456\u{2212}02:15'  2020-01-01T12:13:14.123456-02:15
'202x-01-01'                               invalid_char_year
'2020-01-01x'                              invalid_char_date_time_sep
'2020-01-01T12:0'                          too_short
'2020-01-01Txx:00'                         invalid_char_hour
'2020-13-01x12:00'                         out_of_range_month
'2020-01-01T12:00:00+x'                    invalid_char_tz_hour
'2020-01-01T12:00:00+00x'                  invalid_char_tz_minute
'2020-01-01T12:00:00+00:60'                out_of_range_tz_minute
'2020-01-01T12:00:00+99:59'                out_of_range_tz
'2020-01-01T12:00:00-24:00'                out_of_range_tz
'2020-01-01T12:00:00Z '                    extra_characters
'99999999999999999999'                     invalid_char_date_sep
'1.5e3'                                    too_short
'2020_01-01'                               invalid_char_date_sep
'2020-13-0xT12:00'                         invalid_char_day
'2021-02-29x12:00'                         out_of_range_day";

/// A unit, a behavior, where there is one an offset, a text that may be a timestamp, and the answer.
const CONFIGURED: &str = "\
infer  error             '0'                              1970-01-01T00:00:00
infer  error             '1654646404'                     2022-06-08T00:00:04
infer  error             '1654646404.'                    2022-06-08T00:00:04
infer  error             '1654646404.5'                   2022-06-08T00:00:04.500000
infer  error             '-.5'                            1969-12-31T23:59:59.500000
infer  error             '1654646404.1234567'             second_fraction_too_long
infer  error             '-1654646404.123456'             1917-07-26T23:59:55.876544
infer  error             '-15356304000.505050'            1483-05-18T23:59:59.494950
infer  error             '1654646404123.4567'             millisecond_fraction_too_long
infer  error             '-1654646404000.123'             1917-07-26T23:59:55.999877
infer  error             '20000000000.0'                  2603-10-11T11:33:20
infer  error             '20000000000.5'                  1970-08-20T11:33:20.000500
infer  error             '-20000000000'                   1336-03-23T12:26:40
infer  error             '253402300799999.9999'           millisecond_fraction_too_long
infer  error             '-62167219200000.0004'           millisecond_fraction_too_long
infer  error             '99999999999999999999.0'         date_too_large
infer  error             '20000000000.<0*1000>1'          millisecond_fraction_too_long
infer  error             '20000000000.<0*1001>'           second_fraction_too_long
infer  error             '-<9*3000>.0'                    date_too_small
infer  error             '<0*3000>1.5'                    1970-01-01T00:00:01.500000
infer  error     3600    '1654646404'                     2022-06-08T00:00:04+01:00
infer  error     3600    '2022-01-01T12:13:14'            2022-01-01T12:13:14
infer  error             '.5'                             1970-01-01T00:00:00.500000
infer  error             '-20000000000.0'                 1336-03-23T12:26:40
infer  error             '-20000000000.1'                 1969-05-14T12:26:39.999900
infer  error             '253402300799999.999'            9999-12-31T23:59:59.999999
infer  error             '-62167219200000.001'            date_too_small
infer  truncate          '0.0000005'                      1970-01-01T00:00:00.000001
infer  truncate          '-0.0000005'                     1970-01-01T00:00:00
infer  truncate          '0.00000049'                     1970-01-01T00:00:00
infer  truncate          '0.1234567'                      1970-01-01T00:00:00.123457
infer  truncate          '0.12345678'                     1970-01-01T00:00:00.123457
infer  truncate          '0.123456789'                    1970-01-01T00:00:00.123457
infer  truncate          '0.000000499999999'              1970-01-01T00:00:00
infer  truncate          '0.0000005000000000'             1970-01-01T00:00:00.000001
infer  truncate          '-0.00000050000000'              1970-01-01T00:00:00
infer  truncate          '-0.0000005000000001'            1969-12-31T23:59:59.999999
infer  truncate          '20000000000.0000001'            1970-08-20T11:33:20
infer  truncate          '253402300799999.9999'           date_too_large
infer  truncate          '-62167219200000.0004'           0000-01-01T00:00:00
infer  truncate          '2020-01-01T12:13:14.1234567Z'   2020-01-01T12:13:14.123456Z
infer  truncate          '0.<9*5000>'                     1970-01-01T00:00:01
infer  truncate          '20000000000.<0*1000>1'          1970-08-20T11:33:20
infer  truncate          '20000000000.<0*1001>'           2603-10-11T11:33:20
infer  truncate          '-0.0000005<0*1000>1'            1969-12-31T23:59:59.999999
infer  truncate  0       '1689102037.5586429'             2023-07-11T19:00:37.558643Z
infer  truncate          '-62167219200000.0006'           date_too_small
s      error             '20000000000.5'                  2603-10-11T11:33:20.500000
s      error             '253402300800.'                  date_too_large
s      error             '-62167219200.000001'            date_too_small
s      error             '99999999999999999999.0000000'   second_fraction_too_long
s      truncate          '-62167219200.0000005'           0000-01-01T00:00:00
s      truncate          '253402300799.9999994<9*1000>'   9999-12-31T23:59:59.999999
s      truncate          '253402300799.<9*5000>'          date_too_large
s      truncate          '-62167219200.0000005<0*1000>1'  date_too_small
s      truncate          '253402300799.9999995'           date_too_large
ms     error             '1.0005'                         millisecond_fraction_too_long
ms     error     0       '1641039194000'                  2022-01-01T12:13:14Z
ms     error             '1.5'                            1970-01-01T00:00:00.001500
ms     truncate          '0.0005'                         1970-01-01T00:00:00.000001
ms     truncate          '-0.0005'                        1970-01-01T00:00:00
us     error             '-1'                             1969-12-31T23:59:59.999999
us     error             '1654646404123456'               2022-06-08T00:00:04.123456
us     error             '253402300799999999'             9999-12-31T23:59:59.999999
us     error             '253402300800000000'             date_too_large
us     error             '-62167219200000000'             0000-01-01T00:00:00
us     error             '-62167219200000001'             date_too_small
us     error             '9223372036854775807'            date_too_large
us     error             '-9223372036854775808'           date_too_small
us     error             '1.'                             1970-01-01T00:00:00.000001
us     error             '1.0'                            microsecond_fraction_too_long
us     error             '253402300800000000.0'           microsecond_fraction_too_long
us     truncate          '0.5'                            1970-01-01T00:00:00.000001
us     truncate          '-0.5'                           1970-01-01T00:00:00
us     truncate          '-0.5<0*1000>1'                  1969-12-31T23:59:59.999999
us     truncate          '253402300799999999.4'           9999-12-31T23:59:59.999999
us     truncate          '253402300799999999.5'           date_too_large
us     truncate          '-62167219200000000.5'           0000-01-01T00:00:00
us     truncate          '-62167219200000000.51'          date_too_small";

/// A unit and a behavior, a decimal, and what it gives: no digits are counted.
const DECIMALS: &str = "\
infer  error  '1654646404.1234567'  2022-06-08T00:00:04.123457
s      error  '-0.0000004'          1970-01-01T00:00:00
ms     error  '-125.5'              1969-12-31T23:59:59.874500
us     error  '1.0'                 1970-01-01T00:00:00.000001";

/// Texts, and the date-time at their front with its bytes, or the error.
const FRONTS: &str = "\
'2026-11-22T12:13:14.5+01:00 GET /'  2026-11-22T12:13:14.500000+01:00 27
'2026-11-22_12:13_x'                 2026-11-22T12:13:00 16
'2026-11-22'                         invalid_char_date_time_sep
'2026-11-22 opening balance'         invalid_char_hour
'2026-11-22T12:13:14.1234567 x'      second_fraction_too_long";

/// Texts, and what `full_front` finds at their front, with its bytes; `too_short` stands for `None`.
const FULL_FRONTS: &str = "\
'2026-11-22T12:13:14Z GET /index.html 200'      2026-11-22T12:13:14Z 20
'2026-11-22t12:13:14+01:00 GET /index.html'     2026-11-22T12:13:14+01:00 25
'2026-11-22 12:13:14.123456-0130 GET /'         2026-11-22T12:13:14.123456-01:30 31
'2026-11-22_12:13:14,5 opening balance 1.00'    2026-11-22T12:13:14.500000 21
'2026-11-22T12:13:14 GET /index.html 200 OK'    2026-11-22T12:13:14 19
'2026-11-22T12:13:14Z GET /index.htm'           2026-11-22T12:13:14Z 20
'2026-11-22T12:13:14Z GET /index.ht'            2026-11-22T12:13:14Z 20
'2026-11-22T12:13:14'                           2026-11-22T12:13:14 19
'2026-11-22 12:13:14.123456-01:30'              2026-11-22T12:13:14.123456-01:30 32
'2026-11-22 12:13:14,5+0100'                    2026-11-22T12:13:14.500000+01:00 26
'2026-11-22T12:13:14+01:0'                      too_short
'2026-11-22T12:13:14.'                          too_short
'2026-11-22T12:13:1'                            too_short
'2026-11-22T12:13Z'                             too_short
'2026-11-22T12:13Z GET /index.html 200 OK'      too_short
'2026-11-22T12:13:14.1234567Z GET /index.html'  too_short
'2026-02-29T12:13:14Z GET /index.html 200'      too_short";

/// Texts, those of RFC 3339 and of JSON Schema's tests among them, and the answers of the relaxed parser and
/// of the strict one, which takes those of RFC 3339 alone. A second 60 is one of the standard, and refused.
const STRICT: &str = "\
'1985-04-12T23:20:50.52Z'           1985-04-12T23:20:50.520000Z       1985-04-12T23:20:50.520000Z
'1996-12-19T16:39:57-08:00'         1996-12-19T16:39:57-08:00         1996-12-19T16:39:57-08:00
'1990-12-31T23:59:60Z'              out_of_range_second               out_of_range_second
'2020-01-01_12:13:14Z'              2020-01-01T12:13:14Z              invalid_char_date_time_sep
'2020-01-01T12:13Z'                 2020-01-01T12:13:00Z              invalid_char_time_sep
'2020-01-01T12:13:14'               2020-01-01T12:13:14               tz_required
'1963-06-19T08:30:06.283185Z'       1963-06-19T08:30:06.283185Z       1963-06-19T08:30:06.283185Z
'1963-06-19t08:30:06.283185z'       1963-06-19T08:30:06.283185Z       1963-06-19T08:30:06.283185Z
'1963-06-19T08:30:06Z'              1963-06-19T08:30:06Z              1963-06-19T08:30:06Z
'1937-01-01T12:00:27.87+00:20'      1937-01-01T12:00:27.870000+00:20  1937-01-01T12:00:27.870000+00:20
'1990-12-31T15:59:50.123-08:00'     1990-12-31T15:59:50.123000-08:00  1990-12-31T15:59:50.123000-08:00
'1998-12-31T23:59:60Z'              out_of_range_second               out_of_range_second
'1998-12-31T15:59:60.123-08:00'     out_of_range_second               out_of_range_second
'1998-12-31T23:59:61Z'              out_of_range_second               out_of_range_second
'1998-12-31T23:58:60Z'              out_of_range_second               out_of_range_second
'1990-02-31T15:59:59.123-08:00'     out_of_range_day                  out_of_range_day
'1990-12-31T15:59:59-24:00'         out_of_range_tz                   out_of_range_tz
'1963-06-19T08:30:06.28123+01:00Z'  extra_characters                  extra_characters
'06/19/1963 08:30:06 PST'           invalid_char_year                 invalid_char_year
'2013-350T01:01:01'                 invalid_char_date_sep             invalid_char_date_sep
'1963-6-19T08:30:06.283185Z'        invalid_char_month                invalid_char_month
'1963-06-1T08:30:06.283185Z'        invalid_char_day                  invalid_char_day
'1963-06-1\u{9ea}T00:00:00Z'        invalid_char_day                  invalid_char_day
'1963-06-11T0\u{9ea}:00:00Z'        invalid_char_hour                 invalid_char_hour
'+11963-06-19T08:30:06.283185Z'     invalid_char_year                 invalid_char_year
'2020-01-01 12:13'                  2020-01-01T12:13:00               invalid_char_date_time_sep
'2020-01-01_x2:13:14Z'              invalid_char_hour                 invalid_char_hour
'2020-01-01T12:13'                  2020-01-01T12:13:00               invalid_char_time_sep
'2020-01-01T12:13:14+010'           invalid_char_tz_minute            invalid_char_tz_minute";

/// A unit, a timestamp, microseconds beside it, and what they give.
const TIMESTAMPS: &str = "\
infer  -1                    1667444     1970-01-01T00:00:00.667444
infer  1095216660480         3221223     2004-09-15T02:51:03.701223
infer  -11676095999          4291493     1600-01-01T00:00:05.291493
infer  9223372036854775807   4294967295  time_too_large
s      9223372036854775807   0           date_too_large
s      9223372036854775807   1000000     time_too_large
us     1                     4294967295  time_too_large
us     -62167219200000001    1           0000-01-01T00:00:00";

/// Date-times, the seconds and milliseconds that a clock at the offset shows, and those in UTC with the
/// microseconds.
const COUNTED: &str = "\
1970-01-02T00:00:00.123+01:00     86400  86400123  82800  82800123  82800123000
1970-01-02T00:00:00.123456+01:00  86400  86400123  82800  82800123  82800123456
1969-12-31T23:59:59.999-00:01     -1     -1        59     59999     59999000
1969-12-31T23:59:59.999999        -1     -1        -1     -1        -1";

/// A date-time, an offset, the date-time with it, and the one that a clock at it shows then.
const OFFSETS: &str = "\
3000-01-01T00:00:00Z       -3600        3000-01-01T00:00:00-01:00  2999-12-31T23:00:00-01:00
2020-02-28T23:30:00+01:00  5400         2020-02-28T23:30:00+01:30  2020-02-29T00:00:00+01:30
9999-12-31T23:30:00Z       3600         9999-12-31T23:30:00+01:00  date_too_large
0000-01-01T00:30:00Z       -3600        0000-01-01T00:30:00-01:00  date_too_small
2020-01-01T00:00:00        0            2020-01-01T00:00:00Z       tz_required
2020-01-01T00:00:00Z       -2147483648  out_of_range_tz            out_of_range_tz";

/// A clock's second and microsecond, an offset, and the date-time there.
const MOMENTS: &str = "\
0                     0    0      1970-01-01T00:00:00Z
1654619320            123  3600   2022-06-07T17:28:40.000123+01:00
1654646399            0    3600   2022-06-08T00:59:59+01:00
32503680000           0    0      3000-01-01T00:00:00Z
0                     0    86400  out_of_range_tz
253402300799          0    60     date_too_large
253402300800          0    0      date_too_large
18446744073709551615  0    0      date_too_large";

#[test]
fn texts(rt: HostRuntime) {
    for row in TEXTS.lines() {
        let (_, text, want) = quoted(&rt, row);
        expect(&rt, DateTime::parse_str_rfc3339(&text), want, row);
        expect(&rt, text.parse::<DateTime>(), want, row);
        let read = DateTime::parse_str(&text);
        expect(&rt, read, want, row);
        if let Ok(read) = read {
            let zero = read.time.tz_offset == Some(0);
            same(&rt, zero, want.ends_with('Z'), row);
        }
    }
}

#[test]
fn bytes(rt: HostRuntime) {
    let read = DateTime::parse_bytes(b"2020-01-01T12:13:14.123456\xe2\x88");
    expect(&rt, read, "invalid_char_tz_sign", "half a minus sign");
    let read = DateTime::parse_bytes_rfc3339(b"0");
    expect(&rt, read, "too_short", "no number");
}

#[test]
fn configured_texts(rt: HostRuntime) {
    for row in CONFIGURED.lines() {
        let (config, text, want) = quoted(&rt, row);
        let config = date_time_config(&rt, config);
        let read = DateTime::parse_str_with_config(&text, &config);
        expect(&rt, read, want, row);
        let read = DateTime::parse_bytes_with_config(text.as_bytes(), &config);
        expect(&rt, read, want, row);
        if config == DateTimeConfig::default() {
            expect(&rt, DateTime::parse_str(&text), want, row);
        }
        if text.contains('T') {
            let config = config.time_config;
            let read = DateTime::parse_bytes_rfc3339_with_config(text.as_bytes(), &config);
            expect(&rt, read, want, row);
        }
    }
}

/// What a decimal gives.
fn of_decimal(text: &str, config: &DateTimeConfig) -> Result<DateTime, ParseError> {
    match float_parse_str(text) {
        IntFloat::Float(decimal) => DateTime::from_decimal_with_config(decimal, config),
        _ => Err(ParseError::TooShort),
    }
}

#[test]
fn decimals(rt: HostRuntime) {
    for row in DECIMALS.lines() {
        let (config, text, want) = quoted(&rt, row);
        let config = date_time_config(&rt, config);
        expect(&rt, of_decimal(&text, &config), want, row);
    }
}

#[test]
fn fronts(rt: HostRuntime) {
    let config = time_config(&rt, "error");
    for row in FRONTS.lines() {
        let (_, text, want) = quoted(&rt, row);
        let read = DateTime::parse_front(text.as_bytes(), &config);
        expect_front(&rt, read, want, row);
    }
}

#[test]
fn full_fronts(rt: HostRuntime) {
    for row in FULL_FRONTS.lines() {
        let (_, text, want) = quoted(&rt, row);
        let read = full_front(text.as_bytes()).ok_or(ParseError::TooShort);
        expect_front(&rt, read, want, row);
    }
}

#[test]
fn strict_texts(rt: HostRuntime) {
    for row in STRICT.lines() {
        let (_, text, wants) = quoted(&rt, row);
        let [relaxed, strict, ..] = words(wants);
        expect(&rt, DateTime::parse_str_rfc3339(&text), relaxed, row);
        let read = DateTime::parse_bytes_strict(text.as_bytes(), value(&rt, "error"));
        expect(&rt, read, strict, row);
    }
}

#[test]
fn timestamps(rt: HostRuntime) {
    for row in TIMESTAMPS.lines() {
        let [unit, timestamp, microsecond, want, ..] = words(row);
        let unit = value(&rt, unit);
        let config = DateTimeConfig::builder().timestamp_unit(unit).build();
        let (timestamp, microsecond) = (value(&rt, timestamp), value(&rt, microsecond));
        let read = DateTime::from_timestamp_with_config(timestamp, microsecond, &config);
        expect(&rt, read, want, row);
        if config == DateTimeConfig::default() {
            let read = DateTime::from_timestamp(timestamp, microsecond);
            expect(&rt, read, want, row);
        }
    }
}

#[test]
fn counted(rt: HostRuntime) {
    for row in COUNTED.lines() {
        let [
            text,
            second,
            millisecond,
            utc_second,
            utc_millisecond,
            utc_microsecond,
        ] = words(row);
        let shown: DateTime = parsed(&rt, text);
        same(&rt, shown.timestamp(), value(&rt, second), row);
        same(&rt, shown.timestamp_ms(), value(&rt, millisecond), row);
        same(&rt, shown.timestamp_tz(), value(&rt, utc_second), row);
        let found = shown.timestamp_tz_ms();
        same(&rt, found, value(&rt, utc_millisecond), row);
        let found = shown.timestamp_tz_us();
        same(&rt, found, value(&rt, utc_microsecond), row);
    }
}

#[test]
fn offsets(rt: HostRuntime) {
    for row in OFFSETS.lines() {
        let [time, offset, shown, moved, ..] = words(row);
        let (time, offset): (DateTime, i32) = (parsed(&rt, time), value(&rt, offset));
        expect(&rt, time.with_timezone_offset(Some(offset)), shown, row);
        expect(&rt, time.in_timezone(offset), moved, row);
    }
}

#[test]
fn clocks(rt: HostRuntime) {
    for row in MOMENTS.lines() {
        let [second, microsecond, offset, want, ..] = words(row);
        let moment = Moment::new(value(&rt, second), value(&rt, microsecond));
        let (moment, offset) = (moment.ok().expect(&rt, row), value(&rt, offset));
        expect(&rt, DateTime::now_at(moment, offset), want, row);
        expect(&rt, DateTime::now(|| Some(moment), offset), want, row);
        let day = want.split_once('T').unwrap_or((want, "")).0;
        expect(&rt, Date::today(|| Some(moment), offset), day, row);
    }
}

#[test]
fn clocks_that_fail(rt: HostRuntime) {
    let want = "system_time_error";
    expect(&rt, DateTime::now(|| None, 86_400), want, want);
    expect(&rt, Date::today(|| None, 0), want, want);
    let refused = Moment::new(u64::MAX, 1_000_000);
    same(&rt, refused, Err(ParseError::TimeTooLarge), "a second more");
}
