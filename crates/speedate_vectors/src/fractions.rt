//! Fractions of 0 to 40 digits, compared with a loop over their digits.

use crate::rows::{date_time_config, parsed, quoted, same, value, words};
use speedate::{DateTime, Duration};
use std::alloc::{AllocError, Global};
use std::process::Abort;

/// A unit of timestamps, and of how many digits of a fraction its whole microseconds are.
const UNITS: [(&str, usize); 3] = [("s truncate", 6), ("ms truncate", 3), ("us truncate", 0)];

/// Digits on both sides of sixteen, and the microseconds of a timestamp with this fraction of a second,
/// and of its negative: if two are equally near, the later one.
const SECONDS: &str = "\
'<0*16>'             0        0
'<0*17>'             0        0
'<9*16>'             1000000  1000000
'<9*17>'             1000000  1000000
'0000005<0*9>'       1        0
'0000005<0*10>'      1        0
'0000005<0*33>'      1        0
'0000005<0*8>1'      1        1
'0000005<0*9>1'      1        1
'0000005<0*33>1'     1        1
'0000004<9*9>'       0        0
'0000004<9*10>'      0        0
'0000004<9*33>'      0        0
'1234565<0*9>'       123457   123456
'1234565<0*10>'      123457   123456
'1234565<0*9>9'      123457   123457
'1234564<9*9>8'      123456   123456
'500000<0*10>1'      500000   500000";

/// Durations about half a microsecond long, below it, above it and just that, and a few longer ones, and
/// the nearest microsecond: digits on both sides of sixteen tell it.
const HALVES: &str = "\
'P0.0000000000057870D'                          0
'P0.0000000000057871D'                          1
'P0.00000000000578703D'                         0
'P0.00000000000578704D'                         1
'P0.00000000000578<703*12>D'                    0
'P0.00000000000578<703*11>704D'                 1
'P0.0000000000008267W'                          0
'P0.0000000000008268W'                          1
'P0.00000000000082671W'                         0
'P0.00000000000082672W'                         1
'P0.0000000000000158Y'                          0
'P0.0000000000000159Y'                          1
'P0.00000000000001585Y'                         0
'P0.00000000000001586Y'                         1
'P0.0000000000000158548959918822Y'              0
'P0.0000000000000158548959918823Y'              1
'-P0.0000000000000158548959918822Y'             0
'-P0.0000000000000158548959918823Y'             -1
'P0.0000000000001<0*30>Y'                       3
'P0.0000000000009<9*30>Y'                       32
'P0.000000000000826719576719576W'               0
'P0.000000000000826719576719577W'               1
'P0.00000000001<0*30>W'                         6
'PT0.0000005<0*9>S'                             1
'PT0.0000004<9*9>S'                             0
'PT0.0000005<0*10>S'                            1
'PT0.0000004<9*10>S'                            0
'-PT0.0000005<0*10>S'                           -1
'-PT0.0000004<9*10>S'                           0";

/// By which each drawn number follows from the one before.
const FACTOR: u64 = 6_364_136_223_846_793_005;

/// The digit at a place of a fraction.
fn digit(digits: &str, place: usize) -> i64 {
    let digit = digits.as_bytes().get(place).copied().unwrap_or(b'0');
    i64::from(digit.saturating_sub(b'0'))
}

/// The microseconds of three units and a fraction, digit by digit: so many digits are whole
/// microseconds, and a half more goes away from zero where `up` says so.
fn by_digits(digits: &str, places: usize, up: bool) -> i64 {
    let mut size: i64 = 3;
    for place in 0..places {
        size = size.saturating_mul(10).saturating_add(digit(digits, place));
    }
    let mut more = up;
    for place in places.saturating_add(1)..digits.len() {
        more |= digit(digits, place) > 0;
    }
    let next = digit(digits, places);
    let rounds = next > 5 || (next == 5 && more);
    size.saturating_add(i64::from(rounds))
}

/// Whole seconds and microseconds beside them as microseconds.
fn microseconds(second: i64, microsecond: i64) -> i64 {
    second.saturating_mul(1_000_000).saturating_add(microsecond)
}

/// The microseconds of the timestamp that `front` and the digits are, with this unit and behavior.
fn timestamp<R: AllocGlobal + Abort>(rt: &R, front: &str, digits: &str, unit: &str) -> i64 {
    let config = date_time_config(rt, unit);
    let text = format!(in rt.alloc(); "{front}{digits}");
    let text = text.ok().expect(rt, front);
    let read = DateTime::parse_str_with_config(&text, &config).ok();
    let read = read.expect(rt, "a date-time");
    microseconds(read.timestamp(), i64::from(read.time.microsecond))
}

/// The microseconds of the duration that `front`, the digits and `S` are.
fn duration<R: AllocGlobal + Abort>(rt: &R, front: &str, digits: &str) -> i64 {
    let text = format!(in rt.alloc(); "{front}{digits}S");
    let text = text.ok().expect(rt, front);
    let read = Duration::parse_str(&text).ok().expect(rt, "a duration");
    let microsecond = i64::from(read.signed_microseconds());
    microseconds(read.signed_total_seconds(), microsecond)
}

/// Compares timestamps and durations of both signs. Of two that are equally near, a timestamp is the later
/// one, and a duration the one away from zero.
fn expect_digits<R: AllocGlobal + Abort>(rt: &R, digits: &str) {
    for (unit, places) in UNITS {
        let want = by_digits(digits, places, true);
        same(rt, timestamp(rt, "3.", digits, unit), want, digits);
        let want = by_digits(digits, places, false).saturating_mul(-1);
        same(rt, timestamp(rt, "-3.", digits, unit), want, digits);
    }
    let want = by_digits(digits, 6, true);
    same(rt, duration(rt, "PT3.", digits), want, digits);
    let want = want.saturating_mul(-1);
    same(rt, duration(rt, "-PT3.", digits), want, digits);
}

/// The digit at a place of a fraction of this kind, where this one was drawn.
fn digit_at(place: usize, kind: usize, drawn: u8) -> char {
    let digit = match kind {
        0 => 9,
        // a half of a microsecond of each unit, and mostly zeros or nines
        1..4 => if place == UNITS[kind - 1].1 { 5 } else { 0 },
        4..16 => if drawn < 8 { 0 } else { drawn },
        16..28 => if drawn < 8 { 9 } else { drawn },
        _ => drawn,
    };
    char::from(b'0'.saturating_add(digit))
}

/// So many digits of this kind, which are drawn.
fn drawn_digits(
    alloc: Global,
    state: &mut u64,
    length: usize,
    kind: usize,
) -> Result<String, AllocError> {
    let mut digits = String::new(alloc);
    for place in 0..length {
        *state = state.wrapping_mul(FACTOR).wrapping_add(1);
        let drawn = (*state >> 33) % 10;
        digits.push(digit_at(place, kind, drawn as u8))?;
    }
    Ok(digits)
}

#[test]
fn fractions(rt: HostRuntime) -> Result<(), AllocError> {
    let mut state: u64 = 20_240_601;
    for length in 0..41 {
        for kind in 0..40 {
            let digits = drawn_digits(rt.alloc(), &mut state, length, kind)?;
            expect_digits(&rt, &digits);
        }
    }
    Ok(())
}

#[test]
fn sixteen_digits(rt: HostRuntime) {
    for row in SECONDS.lines() {
        let (_, digits, sizes) = quoted(&rt, row);
        let [size, below, ..] = words(sizes);
        let want = microseconds(3, value(&rt, size));
        same(&rt, timestamp(&rt, "3.", &digits, "s truncate"), want, row);
        let want = microseconds(3, value(&rt, below)).saturating_mul(-1);
        same(&rt, timestamp(&rt, "-3.", &digits, "s truncate"), want, row);
    }
    for row in HALVES.lines() {
        let (_, text, want) = quoted(&rt, row);
        let read: Duration = parsed(&rt, &text);
        same(&rt, read.signed_total_seconds(), 0, row);
        same(&rt, read.signed_microseconds(), value(&rt, want), row);
    }
}
