//! Columns of numbers from the lines of a text.

use crate::rows::{date_time_config, quoted, same, time_config, value, words};
use speedate::{
    DateConfig, DateReader, DateTimeFront, DateTimeFrontReader, DateTimeParser, DateTimeReader,
    DurationReader, LineConfig, LineError, LineReader, MicrosecondsPrecisionOverflowBehavior,
    Progress, TimeConfig, read_column, read_column_with_errors, timestamp_microseconds,
};
use std::fmt::Debug;
use std::process::Abort;

/// How many numbers there is room for.
pub const ROOM: usize = 3;

/// How many bytes a text of a row has at most.
pub const TEXT_MAX: usize = 120;

/// The bytes of a text, in which `|` stands for a line feed and `~` for a carriage return, and how many
/// they are.
pub fn spelled(text: &str) -> ([u8; TEXT_MAX], usize) {
    let mut bytes = [0; TEXT_MAX];
    let mut size = 0;
    for byte in text.as_bytes() {
        if size < bytes.len() {
            bytes[size] = match *byte {
                b'|' => b'\n',
                b'~' => b'\r',
                other => other,
            };
            size += 1;
        }
    }
    (bytes, size)
}

/// How the words of a row cut its text into lines.
pub fn line_config(words: &str) -> LineConfig {
    LineConfig {
        at_end: words.contains("end"),
        drops_returns: words.contains("return"),
    }
}

/// The name of an error, and `-` for none.
pub fn error_name(error: Option<LineError>) -> &'static str {
    match error {
        None => "-",
        Some(LineError::Parse(fault)) => fault.name(),
        Some(LineError::NumberTooLarge) => "number_too_large",
    }
}

/// What a line is read as, which a word of a row tells.
pub trait Entry: Copy + PartialEq + Debug {
    /// What a word tells.
    fn of_word<R: Abort>(rt: &R, word: &str) -> Self
    where
        Self: Sized;
}

impl Entry for i32 {
    fn of_word<R: Abort>(rt: &R, word: &str) -> Self {
        value(rt, word)
    }
}

impl Entry for i64 {
    fn of_word<R: Abort>(rt: &R, word: &str) -> Self {
        value(rt, word)
    }
}

impl Entry for DateTimeFront {
    fn of_word<R: Abort>(rt: &R, word: &str) -> Self {
        let (microseconds, size) = word.split_once(':').expect(rt, word);
        DateTimeFront {
            microseconds: value(rt, microseconds),
            size: value(rt, size),
        }
    }
}

/// The column of a text, and its first numbers.
pub fn column<L: LineReader>(
    text: &str,
    config: LineConfig,
    reader: &L,
    skipped: Option<L::Number>,
    out: &mut [L::Number],
) -> Progress {
    let (bytes, size) = spelled(text);
    match bytes.get(..size) {
        Some(lines) => read_column(lines, config, reader, skipped, out),
        None => Progress {
            lines: 0,
            bytes: 0,
            error: None,
            place: 0,
            end: 0,
        },
    }
}

/// The column of a row's text is to have so many lines, so many bytes, that error and these numbers.
pub fn expect_column<L: LineReader, R: AllocGlobal + Abort>(
    rt: &R,
    reader: &L,
    refused: L::Number,
    out: &mut [L::Number],
    row: &str,
)
where
    L::Number: Entry,
{
    let (cut, text, want) = quoted(rt, row);
    let skipped = if cut.contains("skip") {
        Some(refused)
    } else {
        None
    };
    let progress = column(&text, line_config(cut), reader, skipped, out);
    let [lines, taken, error, first, second, third] = words(want);
    let numbers = [first, second, third];
    same(rt, progress.lines, value(rt, lines), row);
    same(rt, progress.bytes, value(rt, taken), row);
    same(rt, error_name(progress.error), error, row);
    for place in 0..ROOM {
        if place < progress.lines {
            let number = out.get(place).copied();
            same(rt, number, Some(Entry::of_word(rt, numbers[place])), row);
        }
    }
}

/// The days of four of five lines, and the numbers of their errors.
fn days_and_errors(text: &str) -> (Progress, [i32; 5], [u8; 4]) {
    let mut days = [5; 5];
    let mut errors = [9; 4];
    let reader = DateReader::OrTimestamp(DateConfig::default());
    let progress = with_errors(text, &reader, &mut days, &mut errors);
    (progress, days, errors)
}

/// The column of a text with its errors.
fn with_errors(text: &str, reader: &DateReader, days: &mut [i32], errors: &mut [u8]) -> Progress {
    let (bytes, size) = spelled(text);
    match bytes.get(..size) {
        Some(lines) => {
            read_column_with_errors(lines, line_config("end"), reader, -7, days, errors)
        }
        None => Progress {
            lines: 0,
            bytes: 0,
            error: None,
            place: 0,
            end: 0,
        },
    }
}

/// Each row of dates and their days: how the text is cut, and whether a refused line is skipped; the
/// text; how many lines and bytes it takes, the error, and the numbers, -7 for a refused line.
const DATES: &str = "\
'' 0 0 -
'1970-01-01' 0 0 -
end '1970-01-01' 1 10 - 0
'1970-01-02|1969-12-31|' 2 22 - 1 -1
'1970-01-02|1969-12-31' 1 11 - 1
end '0000-01-01|9999-12-31' 2 21 - -719528 2932896
end '1970-01-01|1970-01-02|1970-01-03|1970-01-04' 3 33 - 0 1 2
end '1970-01-02|2021-02-29|1970-01-03' 1 11 out_of_range_day 1
skip '1970-01-02|2021-02-29|1970-01-03|' 3 33 - 1 -7 2
skip end '|x' 2 2 - -7 -7
end '|' 0 0 too_short
end '1970-01-02~|1970-01-03' 0 0 extra_characters
return '1970-01-02~|1970-01-03~|' 2 24 - 1 2
return '1970-01-02~' 0 0 -
return end '1970-01-02~|1970-01-03~' 2 23 - 1 2
return end '1970-01-02~~|1970-01-03' 0 0 extra_characters
end '1970-01-02 |1970-01-03' 0 0 extra_characters
end '1970-01|-02' 0 0 too_short
end '1970-x|1-02' 0 0 too_short
end '1970-x1-02|' 0 0 invalid_char_month
'1970-01-0~|' 0 0 invalid_char_day
return '1970-01-0~|' 0 0 too_short
skip '1970-13-01|1970-13-01x|1970-01-02|' 3 34 - -7 -7 1
end '86400' 0 0 too_short";

/// The same with timestamps in seconds.
const DATES_OR_TIMESTAMPS: &str = "\
end '86400|1970-01-01|172800' 3 23 - 1 0 2
skip '86400|1970-01-01|1|' 3 19 - 1 0 -7
skip end '1970-01-01x|1970-13-01|2592000' 3 30 - -7 -7 30
end '1970-02-30|' 0 0 out_of_range_day
end '1970-01-01 |' 0 0 extra_characters
end '1' 0 0 date_not_exact";

/// Each row of date-times and their microseconds, with digits past the sixth dropped.
const DATE_TIMES: &str = "\
end '1970-01-01T00:00:01Z|1970-01-01T01:00+01:00' 2 43 - 1000000 0
end '1970-01-01 00:00:00.000001-00:01|1969-12-31T23:59:59.9999999z' 2 61 - 60000001 -1
end '1970-01-01T00:00Z|1970-01-01T00:00' 1 18 tz_required 0
skip end '1970-01-01T00:00|1970-01-01T00:00+00:60|1970-01-01' 3 50 - -7 -7 -7
return '1970-01-01t00:00Z~|1970-01-01_00:00:02,5-0000~|1970' 2 47 - 0 2500000
'1970-01-01T00:00Z|1970-01-01T00:00:01Z' 1 18 - 0
end '0000-01-01T00:00Z|9999-12-31T23:59:59.999999Z' 2 45 - -62167219200000000 253402300799999999
end '1970-01-01T00:00Z |' 0 0 extra_characters
end '1970-01-01T00:00 Z|' 0 0 invalid_char_tz_sign
end '1970-01-01T00:00|Z' 0 0 tz_required
end '1970-01-01T00:00:|0' 0 0 invalid_char_second
end '1970-01-01T00:0|0Z..' 0 0 too_short
end '1970-01-01T00:0x:00Z' 0 0 invalid_char_minute
end '1970-01-01T00:00:00.|123456789Z' 0 0 second_fraction_missing
skip '1970-13-01T00:00:00Z|1970-01-01T24:00:00Z|1970-01-01T00:00:00Z,|' 3 64 - -7 -7 -7
end '1' 0 0 too_short";

/// The same where a date-time without an offset is taken to be in UTC, and timestamps are parsed, in
/// milliseconds.
const NAIVE_DATE_TIMES: &str = "\
end '1970-01-01T00:00:01|1|-1.5' 3 26 - 1000000 1000 -1500
end '1970-01-01T00:00:01|1970-01-01T00:00:01+00:01|x' 2 46 too_short 1000000 -59000000
end '1970-01-01T00:00:00.1234567|' 0 0 second_fraction_too_long
end '1970-01-01T00:00:00.123|4567' 2 28 - 123000 4567000
skip end '1970-13-01T00:00:00|1970-01-01T00:00:00x|1970-01-01_' 3 52 - -7 -7 -7
end '1970-01-01 00:00:01|1970-01-01T00:00:02Z|1970-19-01T00:00:00' 2 41 out_of_range_month 1000000 2000000
end '1970-01-01T00:00|1970-01-01_00:00:01' 2 36 - 0 1000000
end '1971-02-29 00:00:00|' 0 0 out_of_range_day
end '1970-01-01A00:00:00|' 0 0 invalid_char_date_time_sep
end '1970-01-01T24:00:00|' 0 0 out_of_range_hour
end '1970-01-01T00:60:00|' 0 0 out_of_range_minute
end '1970-01-01T00:00:60|' 0 0 out_of_range_second
end '1970-01-01T00:00;00|' 0 0 invalid_char_tz_sign
end '1970-01-01T00:00:00+24:00|' 0 0 out_of_range_tz
end '1970-01-01T00:00:00.|1' 0 0 second_fraction_missing
end '1654646404|1654646404123|1654646404' 3 35 - 1654646404000 1654646404123000 1654646404000
end '1654646404x|1654646404' 0 0 invalid_char_date_sep
end '999999999999999|1970' 0 0 date_too_large";

/// Each row of date-times of RFC 3339 alone.
const STRICT_DATE_TIMES: &str = "\
end '1970-01-01T00:00:01Z|1970-01-01 00:00:01Z' 1 21 invalid_char_date_time_sep 1000000
end '1970-01-01T00:00:00.1234567Z' 0 0 second_fraction_too_long
end '1970-01-01T00:00:00+01:00|1970-01-01t00:00:00.5z|1970-01-01T00:00:00+0100' 2 49 invalid_char_tz_minute -3600000000 500000
end '1970-01-01T00:00Z|' 0 0 invalid_char_time_sep
end '1970-01-01T00:00:00|Z' 0 0 tz_required
end '1970-01-01T00:00:00Z |' 0 0 extra_characters
end '1970-01-01 00:00:00x|' 0 0 invalid_char_tz_sign
return '1970-01-01T00:00:00Z~|1970-01-32T00:00:00Z~|' 1 22 out_of_range_day 0
end '1' 0 0 too_short";

/// Each row of lines that begin with a date-time, and the microseconds and bytes of each, with digits past
/// the sixth dropped.
const FRONTS: &str = "\
end '1970-01-01T00:00:01Z GET /|1970-01-01T01:00+01:00' 2 49 - 1000000:20 0:22
end '1970-01-01 00:00:00.1234567Zx|1970-01-01T00:00Z1970|1970-01-01T00:00-00:01+1|' 3 77 - 123456:28 0:17 60000000:22
end '1970-01-01T00:00Z|1970-01-01T00:00 +01:00 x' 1 18 tz_required 0:17
skip end '1970-01-01|x|2021-02-29T00:00Z x|' 3 33 - -7:0 -7:0 -7:0
skip '1970-01-01T00:00:0x|1970-01-01T00:00Z+24:00|1970-01-01T00:00Z' 2 44 - -7:0 0:17
return '1970-01-01T00:00Z~|1970-01-01t00:00z~x~|' 2 40 - 0:17 0:17
end '1970-01-01T00:00|Z' 0 0 tz_required
end '|1970-01-01T00:00Z' 0 0 too_short
end '1 x' 0 0 too_short";

/// The same where a date-time without an offset is taken to be in UTC, and no digit is dropped.
const NAIVE_FRONTS: &str = "\
end '1970-01-01T00:00:01 GET /|1970-01-01_00:00 +01:00|1970-01-01T00:00+01:00' 3 72 - 1000000:19 0:16 -3600000000:22
end '1970-01-01T00:00,|1970-01-01T00:00:00.1234567 x' 1 18 second_fraction_too_long 0:16
end '1970-01-01T00:00:00.|5' 0 0 second_fraction_missing";

/// The same with zones as programs print them.
const LOOSE_FRONTS: &str = "\
end '1970-01-01 00:00:01 UTC GET|1970-01-01 01:00:00+01 x|1970-01-01 00:00:00 -0100,' 3 79 - 1000000:23 0:22 3600000000:25
end '1970-01-01T00:00:01Z|1970-01-01 00:00:01 x' 1 21 tz_required 1000000:20
end '1970-01-01 00:00:01 PM' 0 0 extra_characters
end '1970-01-01 00:00:01Zx' 0 0 extra_characters";

/// Each row of date-times with zones as programs print them, and their microseconds.
const LOOSE_DATE_TIMES: &str = "\
end '1970-01-01 00:00:01 UTC|1970-01-01T01:00+01|1970-01-01 00:00:00 -0100' 3 69 - 1000000 0 3600000000
end '1970-01-01T00:00:02Z|2021-02-29 00:00:00 UTC' 1 21 out_of_range_day 2000000
end '1970-01-01 00:00:01 UTC|1970-01-01 00:00:01 UTC x' 1 24 extra_characters 1000000
end '1970-01-01 00:00:01' 0 0 tz_required
end '1' 0 0 too_short";

/// Each row of durations and their microseconds.
const DURATIONS: &str = "\
end 'PT1S|-1 day|-PT1.5S' 3 19 - 1000000 -86400000000 -1500000
end '106751991 days 04:00:54.775807|-106751991 days 04:00:54.775807' 2 62 - 9223372036854775807 -9223372036854775807
end '106751991 days 04:00:54.775808' 0 0 number_too_large
skip end '-106751991 days 04:00:54.775808|x|P999999999D' 3 45 - -7 -7 -7";

#[test]
fn dates_are_days(rt: HostRuntime) {
    for row in DATES.lines() {
        expect_column(&rt, &DateReader::Text, -7, &mut [-7; ROOM], row);
    }
    let config = DateConfig::builder()
        .timestamp_unit(value(&rt, "s"))
        .build();
    for row in DATES_OR_TIMESTAMPS.lines() {
        expect_column(
            &rt,
            &DateReader::OrTimestamp(config),
            -7,
            &mut [-7; ROOM],
            row,
        );
    }
}

#[test]
fn date_times_are_microseconds(rt: HostRuntime) {
    let reader = DateTimeReader {
        parser: DateTimeParser::Text(time_config(&rt, "truncate")),
        assumes_utc: false,
    };
    for row in DATE_TIMES.lines() {
        expect_column(&rt, &reader, -7, &mut [-7; ROOM], row);
    }
}

#[test]
fn date_times_without_an_offset_are_in_utc(rt: HostRuntime) {
    let reader = DateTimeReader {
        parser: DateTimeParser::OrTimestamp(date_time_config(&rt, "ms error")),
        assumes_utc: true,
    };
    for row in NAIVE_DATE_TIMES.lines() {
        expect_column(&rt, &reader, -7, &mut [-7; ROOM], row);
    }
}

#[test]
fn loose_date_times_are_microseconds(rt: HostRuntime) {
    let reader = DateTimeReader {
        parser: DateTimeParser::Loose(MicrosecondsPrecisionOverflowBehavior::Error),
        assumes_utc: false,
    };
    for row in LOOSE_DATE_TIMES.lines() {
        expect_column(&rt, &reader, -7, &mut [-7; ROOM], row);
    }
}

#[test]
fn strict_date_times_are_microseconds(rt: HostRuntime) {
    let reader = DateTimeReader {
        parser: DateTimeParser::Strict(MicrosecondsPrecisionOverflowBehavior::Error),
        assumes_utc: false,
    };
    for row in STRICT_DATE_TIMES.lines() {
        expect_column(&rt, &reader, -7, &mut [-7; ROOM], row);
    }
}

/// Expects the rows of date-times at the front of lines.
fn expect_fronts<R: AllocGlobal + Abort>(rt: &R, reader: &DateTimeFrontReader, rows: &str) {
    let refused = DateTimeFront {
        microseconds: -7,
        size: 0,
    };
    for row in rows.lines() {
        expect_column(rt, reader, refused, &mut [refused; ROOM], row);
    }
}

#[test]
fn fronts_are_microseconds_and_bytes(rt: HostRuntime) {
    let reader = DateTimeFrontReader {
        config: time_config(&rt, "truncate"),
        assumes_utc: false,
        is_loose: false,
    };
    expect_fronts(&rt, &reader, FRONTS);
    let reader = DateTimeFrontReader {
        config: TimeConfig::default(),
        assumes_utc: true,
        is_loose: false,
    };
    expect_fronts(&rt, &reader, NAIVE_FRONTS);
    let reader = DateTimeFrontReader {
        config: TimeConfig::default(),
        assumes_utc: false,
        is_loose: true,
    };
    expect_fronts(&rt, &reader, LOOSE_FRONTS);
}

#[test]
fn durations_are_microseconds(rt: HostRuntime) {
    let reader = DurationReader {
        config: TimeConfig::default(),
    };
    for row in DURATIONS.lines() {
        expect_column(&rt, &reader, -7, &mut [-7; ROOM], row);
    }
}

#[test]
fn errors_are_numbered(rt: HostRuntime) {
    let (progress, days, errors) = days_and_errors("1970-01-02||1|2021-02-29|1970-01-01");
    same(&rt, (progress.lines, progress.bytes), (4, 25), "progress");
    same(&rt, days, [1, -7, -7, -7, 5], "days");
    same(&rt, errors, [0, 1, 5, 22], "errors");
}

/// A configuration, a timestamp, and its number in a column of date-times, or the name of its error.
const TIMESTAMPS: &str = "\
s error - lax 1 1000000
ms error - lax -1500 -1500000
us error - lax -1500001 -1500001
s error 3600 lax 1 -3599000000
infer error 0 lax 20000000000 20000000000000000
infer error 0 lax 20000000001 20000000001000
infer error 0 lax -9223372036854775808 date_too_small
s error 0 lax 253402300799 253402300799000000
s error 0 lax 253402300800 date_too_large
s error -86399 lax 253402300799 253402387198000000
s error 0 lax -62167219200 -62167219200000000
s error 0 lax -62167219201 date_too_small
us error 0 lax 9223372036854775807 date_too_large";

#[test]
fn timestamps_are_microseconds(rt: HostRuntime) {
    for row in TIMESTAMPS.lines() {
        let [_, _, _, _, timestamp, want, ..] = words(row);
        match timestamp_microseconds(value(&rt, timestamp), &date_time_config(&rt, row)) {
            Ok(number) => same(&rt, number, value(&rt, want), row),
            Err(fault) => same(&rt, fault.name(), want, row),
        }
    }
}
