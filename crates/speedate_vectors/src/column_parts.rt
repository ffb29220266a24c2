//! The part of the line that ends a column.

use crate::columns::{ROOM, column, error_name, line_config};
use crate::rows::{date_time_config, quoted, same, value, words};
use speedate::{
    DateConfig, DateReader, DateTimeClockReader, DateTimeFront, DateTimeFrontReader,
    DateTimeOffsetReader, DateTimeParser, DateTimeReader, DurationReader, LineReader,
    MicrosecondsPrecisionOverflowBehavior, TimeConfig, TimeOffsetReader, TimeParser, TimeReader,
};
use std::process::Abort;

/// Each row of dates: how the text is cut; the text; how many lines it has before the one that ends the
/// column, its error, and where the part of the error begins and ends.
const DATE_PARTS: &str = "\
end '1970-01-02|1969-12-31|2020-13-01|1970-01-01' 2 out_of_range_month 5 7
end '1970-01-02|1969-12-31' 2 - 0 0
'1970-01-02|2020-13-01' 1 - 0 0
end '1970-01-02~|' 0 extra_characters 10 11
return '1970-01-02~|1970-01-02 ~|' 1 extra_characters 10 11
return '1970-01-02~|1970-01-0~|' 1 too_short 9 9
return end '1970-01-02~|1970-x1-02~' 1 invalid_char_month 5 7
end '1970-01-02||1970-01-02' 1 too_short 0 0";

/// The same with timestamps in seconds.
const DATE_OR_TIMESTAMP_PARTS: &str = "\
end '86400|1' 1 date_not_exact 0 1
end '86400|1970-02-30|' 1 out_of_range_day 8 10";

/// The same of date-times.
const DATE_TIME_PARTS: &str = "\
end '1970-01-01T00:00Z|1970-01-01T00:00' 1 tz_required 16 16
return '1970-01-01T00:00Z~|1970-01-01T00:00:01~|' 1 tz_required 19 19
end '1970-01-01T24:00Z' 0 out_of_range_hour 11 13";

/// The same of the offsets of date-times with timestamps in milliseconds, at no offset.
const OFFSET_PARTS: &str = "\
end '1970-01-01T00:00Z|1970-01-01T00:00' 1 tz_required 16 16
end '1970-01-01T00:00Z|-1.5' 1 tz_required 4 4
end '1970-01-01A00:00Z' 0 invalid_char_date_time_sep 10 11";

/// The same of the clocks of date-times of RFC 3339 alone.
const STRICT_CLOCK_PARTS: &str = "\
end '1970-01-01T00:00:01Z|1970-01-01T00:00:01' 1 tz_required 19 19
end '1970-01-01 00:00:01Z' 0 invalid_char_date_time_sep 10 11";

/// The same of date-times at the front of lines.
const FRONT_PARTS: &str = "\
end '1970-01-01T00:00Z x|1970-01-01T00:00 +01:00 x' 1 tz_required 16 16
return '1970-01-01T00:00Z~|1970-01-01T00:00:01~|' 1 tz_required 19 19
end '1970-01-01T00:60Z x' 0 out_of_range_minute 14 16";

/// The same of times.
const TIME_PARTS: &str = "\
end '00:00|24:00' 1 out_of_range_hour 0 2";

/// The same of the offsets of times of RFC 3339 alone.
const TIME_OFFSET_PARTS: &str = "\
end '00:00:01Z|00:00:01' 1 tz_required 8 8
end '00:01Z' 0 invalid_char_time_sep 5 6";

/// The same of durations.
const DURATION_PARTS: &str = "\
return 'PT1S~|P999999999D~|' 1 number_too_large 0 11
end 'PT1S|PT1S1X' 1 duration_invalid_time_unit 5 6";

/// The column of a row's text is to have so many lines, that error, and its part between these bytes of
/// the line after them.
fn expect_part<L: LineReader, R: AllocGlobal + Abort>(
    rt: &R,
    reader: &L,
    out: &mut [L::Number],
    row: &str,
) {
    let (cut, text, want) = quoted(rt, row);
    let progress = column(&text, line_config(cut), reader, None, out);
    let [lines, error, place, end, _, _] = words(want);
    same(rt, progress.lines, value(rt, lines), row);
    same(rt, error_name(progress.error), error, row);
    same(rt, progress.place, value(rt, place), row);
    same(rt, progress.end, value(rt, end), row);
}

#[test]
fn parts_of_dates(rt: HostRuntime) {
    for row in DATE_PARTS.lines() {
        expect_part(&rt, &DateReader::Text, &mut [-7; ROOM], row);
    }
    let config = DateConfig::builder()
        .timestamp_unit(value(&rt, "s"))
        .build();
    for row in DATE_OR_TIMESTAMP_PARTS.lines() {
        expect_part(&rt, &DateReader::OrTimestamp(config), &mut [-7; ROOM], row);
    }
}

#[test]
fn parts_of_date_times(rt: HostRuntime) {
    let reader = DateTimeReader {
        parser: DateTimeParser::Text(TimeConfig::default()),
        assumes_utc: false,
    };
    for row in DATE_TIME_PARTS.lines() {
        expect_part(&rt, &reader, &mut [-7; ROOM], row);
    }
}

#[test]
fn parts_of_clocks_and_offsets(rt: HostRuntime) {
    let parser = DateTimeParser::OrTimestamp(date_time_config(&rt, "ms error"));
    for row in OFFSET_PARTS.lines() {
        expect_part(&rt, &DateTimeOffsetReader { parser }, &mut [-7; ROOM], row);
    }
    let parser = DateTimeParser::Strict(MicrosecondsPrecisionOverflowBehavior::Error);
    for row in STRICT_CLOCK_PARTS.lines() {
        expect_part(&rt, &DateTimeClockReader { parser }, &mut [-7; ROOM], row);
    }
}

#[test]
fn parts_of_fronts(rt: HostRuntime) {
    let reader = DateTimeFrontReader {
        config: TimeConfig::default(),
        assumes_utc: false,
        is_loose: false,
    };
    let none = DateTimeFront {
        microseconds: -7,
        size: 0,
    };
    for row in FRONT_PARTS.lines() {
        expect_part(&rt, &reader, &mut [none; ROOM], row);
    }
}

#[test]
fn parts_of_times(rt: HostRuntime) {
    let parser = TimeParser::Text(TimeConfig::default());
    for row in TIME_PARTS.lines() {
        expect_part(&rt, &TimeReader { parser }, &mut [-7; ROOM], row);
    }
    let parser = TimeParser::Strict(MicrosecondsPrecisionOverflowBehavior::Error);
    for row in TIME_OFFSET_PARTS.lines() {
        expect_part(&rt, &TimeOffsetReader { parser }, &mut [-7; ROOM], row);
    }
}

#[test]
fn parts_of_durations(rt: HostRuntime) {
    let reader = DurationReader {
        config: TimeConfig::default(),
    };
    for row in DURATION_PARTS.lines() {
        expect_part(&rt, &reader, &mut [-7; ROOM], row);
    }
}
