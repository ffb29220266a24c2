//! What Display writes, the same in every form, and the sizes of printed texts.

use crate::rows::{parsed, same, words};
use arrayvec::ArrayString;
use speedate::{Date, DateTime, Duration, FractionDigits, ParseError, Time};
use std::fmt::{Display, Write};
use std::process::Abort;

/// Texts, each of which is that of its value.
const TEXTS: &str = "\
date       0000-02-29
time       00:00:00
time       01:02:03.000040Z
time       23:59:59.999999-23:59
date-time  0000-01-01T00:00:00
date-time  2020-02-29T12:00:00.500000+01:30
duration   PT0S
duration   -PT0S
duration   P364DT1H0.1205S
duration   -P2739725Y1DT0.000001S";

/// Times, and their texts with zero digits, three and six.
const TIMES: &str = "\
12:13:14.678901+01:30  12:13:14+01:30  12:13:14.678+01:30  12:13:14.678901+01:30
12:13:14               12:13:14        12:13:14.000        12:13:14.000000
23:59:59.999999-23:59  23:59:59-23:59  23:59:59.999-23:59  23:59:59.999999-23:59
00:00:00.012003        00:00:00        00:00:00.012        00:00:00.012003
00:00:00.000999        00:00:00        00:00:00.000        00:00:00.000999";

/// The same of date-times.
const DATE_TIMES: &str = "\
2020-02-29T12:13:14.5Z      2020-02-29T12:13:14Z  2020-02-29T12:13:14.500Z  2020-02-29T12:13:14.500000Z
0000-01-01T00:00            0000-01-01T00:00:00   0000-01-01T00:00:00.000   0000-01-01T00:00:00.000000
9999-12-31T23:59:59.9996    9999-12-31T23:59:59   9999-12-31T23:59:59.999   9999-12-31T23:59:59.999600";

/// What `{}` writes is to be the text, and an error where there is no room.
pub fn expect_written<T: Display, R: AllocGlobal + Abort>(rt: &R, value: &T, want: &str) {
    let written = format!(in rt.alloc(); "{value}");
    same(rt, written.ok().expect(rt, want).as_str(), want, want);
    let mut none = ArrayString::<0>::new();
    assert!(rt; write!(none, "{value}").is_err(), "{want}");
}

/// A value is to be written as the text, whatever precision, sign, width, fill or form is asked for.
fn expect_shown<T: Display, R: AllocGlobal + Abort>(rt: &R, value: &T, want: &str) {
    expect_written(rt, value, want);
    let shown = format!(in rt.alloc(); "{value:.3} {value:+} {value:08} {value:#} {value:*>40}");
    for text in shown.ok().expect(rt, want).split(' ') {
        same(rt, text, want, want);
    }
}

#[test]
fn texts(rt: HostRuntime) {
    for row in TEXTS.lines() {
        let [kind, text, ..] = words(row);
        match kind {
            "date" => expect_shown(&rt, &parsed::<Date, _>(&rt, text), text),
            "time" => expect_shown(&rt, &parsed::<Time, _>(&rt, text), text),
            "date-time" => expect_shown(&rt, &parsed::<DateTime, _>(&rt, text), text),
            _ => expect_shown(&rt, &parsed::<Duration, _>(&rt, text), text),
        }
    }
}

#[test]
fn digits_of_times(rt: HostRuntime) {
    for row in TIMES.lines() {
        let [time, zero, three, six, ..] = words(row);
        let time: Time = parsed(&rt, time);
        let text = time.to_text_with_digits(FractionDigits::Zero);
        same(&rt, text.as_str(), zero, row);
        let text = time.to_text_with_digits(FractionDigits::Three);
        same(&rt, text.as_str(), three, row);
        let text = time.to_text_with_digits(FractionDigits::Six);
        same(&rt, text.as_str(), six, row);
    }
}

#[test]
fn digits_of_date_times(rt: HostRuntime) {
    for row in DATE_TIMES.lines() {
        let [value, zero, three, six, ..] = words(row);
        let value: DateTime = parsed(&rt, value);
        let text = value.to_text_with_digits(FractionDigits::Zero);
        same(&rt, text.as_str(), zero, row);
        let text = value.to_text_with_digits(FractionDigits::Three);
        same(&rt, text.as_str(), three, row);
        let text = value.to_text_with_digits(FractionDigits::Six);
        same(&rt, text.as_str(), six, row);
    }
}

#[test]
fn longest_texts(rt: HostRuntime) -> Result<(), ParseError> {
    let date: ArrayString<10> = Date::parse_str("9999-12-31")?.to_text();
    let time: ArrayString<21> = Time::parse_str("23:59:59.999999-23:59")?.to_text();
    let date_time = DateTime::parse_str("9999-12-31T23:59:59.999999-23:59")?;
    let date_time: ArrayString<32> = date_time.to_text();
    let duration = Duration::parse_str("-P2739725Y364DT23H59M59.999999S")?;
    let duration: ArrayString<31> = duration.to_text();
    let sizes = [date.len(), time.len(), date_time.len(), duration.len()];
    same(&rt, sizes, [10, 21, 32, 31], "sizes");
    Ok(())
}
