//! Times of day from texts, numbers and timestamps, what has gone by since midnight, and other offsets.

use crate::rows::{expect, expect_front, offset, parsed, quoted, same, time_config, value, words};
use speedate::{Time, TimeConfig};

/// A behavior, an offset for timestamps, a text, and the answer.
const TEXTS: &str = "\
error     -  '12:13'                   12:13:00
error     -  '12:13:14.000500'         12:13:14.000500
error     -  '12:13:14,5z'             12:13:14.500000Z
error     -  '12:13Z'                  12:13:00Z
error     -  '12:00:00+0130'           12:00:00+01:30
error     -  '12:00:00.5\u{2212}0130'  12:00:00.500000-01:30
error     -  '12:00:00-00:00'          12:00:00Z
error     0  '12:13:12'                12:13:12
error     -  'xxx'                     too_short
error     -  'xx:12'                   invalid_char_hour
error     -  '12x12'                   invalid_char_time_sep
error     -  '12345'                   invalid_char_time_sep
error     -  '12:x0'                   invalid_char_minute
error     -  '24:00'                   out_of_range_hour
error     -  '24:60'                   out_of_range_hour
error     -  '23:60:00'                out_of_range_minute
error     -  '12:60:x'                 out_of_range_minute
error     -  '12:13:x'                 invalid_char_second
error     -  '23:59:60'                out_of_range_second
error     -  '12:13:12.'               second_fraction_missing
error     -  '12:13:12.1234567'        second_fraction_too_long
error     -  '24:13:12.1234567'        out_of_range_hour
error     -  '12:13x'                  invalid_char_tz_sign
error     -  '12:13:12\u{2013}01:00'   invalid_char_tz_sign
error     -  '12:13\u{2212}'           invalid_char_tz_hour
error     -  '12:13+0x'                invalid_char_tz_hour
error     -  '12:13+02'                invalid_char_tz_minute
error     -  '12:00:00+24:60'          out_of_range_tz_minute
error     -  '12:00:00-24:00'          out_of_range_tz
error     -  '12:00:00Z '              extra_characters
truncate  -  '12:13:12.1234567'        12:13:12.123456
truncate  -  '12:13:12.9999999'        12:13:12.999999
truncate  -  '12:13:12.1234567x'       invalid_char_tz_sign";

/// A behavior, a text, and the time at its front with its bytes, or the error.
const FRONTS: &str = "\
error     '12:13.5'                  12:13:00 5
error     '12:13-0130 x'             12:13:00-01:30 10
error     '12:13:14,5x'              12:13:14.500000 10
error     '12:13:14\u{2212}01:30 x'  12:13:14-01:30 16
error     '12:13:14.1234567 x'       second_fraction_too_long
error     '12:00:00-ERROR'           invalid_char_tz_hour
truncate  '12:13:14.<9*5000> x'      12:13:14.999999 5009";

/// A behavior, texts, those of JSON Schema's tests among them, and the answers of the relaxed parser and of
/// the strict one, which takes those of RFC 3339 alone. A second 60 is a time of the standard, and refused.
const STRICT: &str = "\
error     '08:30:06.283185z'         08:30:06.283185Z          08:30:06.283185Z
error     '12:13Z'                   12:13:00Z                 invalid_char_time_sep
error     '12:13:14,5Z'              12:13:14.500000Z          invalid_char_tz_sign
error     '12:13:14.5\u{2212}01:30'  12:13:14.500000-01:30     invalid_char_tz_sign
error     '01:02:03+0030'            01:02:03+00:30            invalid_char_tz_minute
error     '12:00:00'                 12:00:00                  tz_required
error     '12:13:14.1234567'         second_fraction_too_long  second_fraction_too_long
truncate  '12:13:14.1234567Z'        12:13:14.123456Z          12:13:14.123456Z
error     '08:30:06Z'                08:30:06Z                 08:30:06Z
error     '08:30:06z'                08:30:06Z                 08:30:06Z
error     '23:20:50.52Z'             23:20:50.520000Z          23:20:50.520000Z
error     '08:30:06.283185Z'         08:30:06.283185Z          08:30:06.283185Z
error     '08:30:06+00:20'           08:30:06+00:20            08:30:06+00:20
error     '08:30:06-08:00'           08:30:06-08:00            08:30:06-08:00
error     '23:59:60Z'                out_of_range_second       out_of_range_second
error     '23:59:60+00:00'           out_of_range_second       out_of_range_second
error     '22:59:60Z'                out_of_range_second       out_of_range_second
error     '00:00:61Z'                out_of_range_second       out_of_range_second
error     '008:030:006Z'             invalid_char_time_sep     invalid_char_time_sep
error     '8:3:6Z'                   invalid_char_hour         invalid_char_hour
error     '8:0030:6Z'                invalid_char_hour         invalid_char_hour
error     '08:30:06-8:000'           invalid_char_tz_hour      invalid_char_tz_hour
error     '24:00:00Z'                out_of_range_hour         out_of_range_hour
error     '00:60:00Z'                out_of_range_minute       out_of_range_minute
error     '01:02:03+24:00'           out_of_range_tz           out_of_range_tz
error     '01:02:03+00:60'           out_of_range_tz_minute    out_of_range_tz_minute
error     '01:02:03Z+00:30'          extra_characters          extra_characters
error     '08:30:06 PST'             invalid_char_tz_sign      invalid_char_tz_sign
error     '01:01:01,1111'            01:01:01.111100           invalid_char_tz_sign
error     '12:00:00.52'              12:00:00.520000           tz_required
error     '1\u{9e8}:00:00Z'          invalid_char_hour         invalid_char_hour
error     '0\u{9ea}:00:00Z'          invalid_char_hour         invalid_char_hour
error     '08:30:06#00:20'           invalid_char_tz_sign      invalid_char_tz_sign
error     'ab:cd:ef'                 invalid_char_hour         invalid_char_hour
error     '01:02:03+00'              invalid_char_tz_minute    invalid_char_tz_minute
error     '12:13:1'                  invalid_char_second       invalid_char_second
error     '12:13x1'                  invalid_char_tz_sign      invalid_char_tz_sign
error     '12:13Z   '                extra_characters          extra_characters
error     '12:13:14,'                second_fraction_missing   second_fraction_missing
error     '12:13:14,1234567Z'        second_fraction_too_long  second_fraction_too_long
error     '12:13:14.5\u{2212}0130'   12:13:14.500000-01:30     invalid_char_tz_sign
error     '12:13:14\u{2212}x'        invalid_char_tz_hour      invalid_char_tz_hour
error     '12:13:14+0160'            out_of_range_tz_minute    out_of_range_tz_minute
error     '12:13:14+2400'            out_of_range_tz           out_of_range_tz
error     '12:13:14+0100x'           extra_characters          extra_characters
error     '12:13:14-00:00'           12:13:14Z                 12:13:14Z";

/// A behavior and an offset, seconds and microseconds after midnight, and the answer.
const TIMESTAMPS: &str = "\
error  -       36005       1500000     10:00:06.500000
error  -       86390       10000000    time_too_large
error  -       86400       0           time_too_large
error  -       4294967295  4294967295  time_too_large
error  0       1           2           00:00:01.000002Z
error  -86399  1           2           00:00:01.000002-23:59";

/// A time, and its hour, minute, second, microsecond and offset.
const PARTS: &str = "\
23:59:59.999999+23:59  23  59  59  999999   86340
out_of_range_hour      24  60  60  1000000  86400
out_of_range_minute    23  60  60  1000000  86400
out_of_range_second    23  59  60  1000000  86400
time_too_large         23  59  59  1000000  86400
out_of_range_tz        23  59  59  999999   86400";

/// Times, and the seconds and the milliseconds since midnight.
const SINCE_MIDNIGHT: &str = "\
01:02:03.040000-01:00  3723   3723040
23:59:59.999999        86399  86399999";

/// A time, an offset, the time with it, and the time that a clock at it shows then.
const OFFSETS: &str = "\
15:00:00.567Z   3600         15:00:00.567000+01:00  16:00:00.567000+01:00
10:00:00+01:00  7200         10:00:00+02:00         11:00:00+02:00
12:00:00Z       90           12:00:00+00:01         12:01:30+00:01
12:00:00Z       -30          12:00:00-00:00         11:59:30-00:00
12:00:00Z       -86399       12:00:00-23:59         time_too_large
23:30:00Z       3600         23:30:00+01:00         time_too_large
00:30:00+01:00  0            00:30:00Z              time_too_large
12:00:00        0            12:00:00Z              tz_required
12:00:00        86400        out_of_range_tz        out_of_range_tz
12:00:00Z       86400        out_of_range_tz        out_of_range_tz
12:00:00Z       -2147483648  out_of_range_tz        out_of_range_tz";

#[test]
fn texts(rt: HostRuntime) {
    for row in TEXTS.lines() {
        let (config, text, want) = quoted(&rt, row);
        let config = time_config(&rt, config);
        let read = Time::parse_bytes_with_config(text.as_bytes(), &config);
        expect(&rt, read, want, row);
        if config == TimeConfig::default() {
            expect(&rt, Time::parse_str(&text), want, row);
            expect(&rt, text.parse::<Time>(), want, row);
        }
        if let Ok(read) = read {
            same(&rt, read.tz_offset == Some(0), want.ends_with('Z'), row);
        }
    }
}

#[test]
fn bytes_that_are_no_text(rt: HostRuntime) {
    let read = Time::parse_bytes(b"12:13\xe2");
    expect(&rt, read, "invalid_char_tz_sign", "e2");
    let read = Time::parse_bytes(b"12:13\xe2\x88");
    expect(&rt, read, "invalid_char_tz_sign", "e2 88");
    let read = Time::parse_bytes(b"12:13\xe2\x88\x93");
    expect(&rt, read, "invalid_char_tz_sign", "e2 88 93");
    let read = Time::parse_bytes(b"12:13\xe2\x88\x92");
    expect(&rt, read, "invalid_char_tz_hour", "e2 88 92");
}

#[test]
fn fronts(rt: HostRuntime) {
    for row in FRONTS.lines() {
        let (behavior, text, want) = quoted(&rt, row);
        let read = Time::parse_front(text.as_bytes(), &time_config(&rt, behavior));
        expect_front(&rt, read, want, row);
    }
}

#[test]
fn strict_texts(rt: HostRuntime) {
    for row in STRICT.lines() {
        let (behavior, text, wants) = quoted(&rt, row);
        let [relaxed, strict, ..] = words(wants);
        let config = time_config(&rt, behavior);
        let read = Time::parse_bytes_with_config(text.as_bytes(), &config);
        expect(&rt, read, relaxed, row);
        let read = Time::parse_bytes_strict(text.as_bytes(), value(&rt, behavior));
        expect(&rt, read, strict, row);
    }
}

#[test]
fn timestamps(rt: HostRuntime) {
    for row in TIMESTAMPS.lines() {
        let [_, offset, second, microsecond, want, ..] = words(row);
        let config = time_config(&rt, row);
        let (second, microsecond) = (value(&rt, second), value(&rt, microsecond));
        let read = Time::from_timestamp_with_config(second, microsecond, &config);
        expect(&rt, read, want, row);
        if offset == "-" {
            expect(&rt, Time::from_timestamp(second, microsecond), want, row);
        }
    }
}

#[test]
fn parts(rt: HostRuntime) {
    for row in PARTS.lines() {
        let [want, hour, minute, second, microsecond, word] = words(row);
        let (hour, minute, second) = (value(&rt, hour), value(&rt, minute), value(&rt, second));
        let (microsecond, offset) = (value(&rt, microsecond), offset(&rt, word));
        let answer = Time::new(hour, minute, second, microsecond, offset);
        expect(&rt, answer, want, row);
    }
}

#[test]
fn since_midnight(rt: HostRuntime) {
    for row in SINCE_MIDNIGHT.lines() {
        let [time, second, millisecond, ..] = words(row);
        let time: Time = parsed(&rt, time);
        same(&rt, time.total_seconds(), value(&rt, second), row);
        same(&rt, time.total_ms(), value(&rt, millisecond), row);
    }
}

#[test]
fn offsets(rt: HostRuntime) {
    for row in OFFSETS.lines() {
        let [time, offset, shown, moved, ..] = words(row);
        let (time, offset): (Time, i32) = (parsed(&rt, time), value(&rt, offset));
        expect(&rt, time.with_timezone_offset(Some(offset)), shown, row);
        expect(&rt, time.in_timezone(offset), moved, row);
    }
}
