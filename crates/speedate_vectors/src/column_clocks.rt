//! Columns of clocks and of offsets.

use crate::columns::{ROOM, expect_column};
use crate::rows::{date_time_config, time_config};
use speedate::{
    DateTimeClockReader, DateTimeOffsetReader, DateTimeParser,
    MicrosecondsPrecisionOverflowBehavior, TimeOffsetReader, TimeParser, TimeReader,
};
use std::process::Abort;

/// Each row of date-times and the microseconds that their clocks show, with digits past the sixth dropped.
const CLOCKS: &str = "\
end '1970-01-01T01:00+01:00|1970-01-01T00:00:01|1969-12-31T23:59:59.9999999-23:59' 3 76 - 3600000000 1000000 -1
end '0000-01-01T00:00+23:59|9999-12-31T23:59:59.999999-23:59' 2 55 - -62167219200000000 253402300799999999
return '1970-01-01_00:00:02,5-0000~|1970-01-01t00:00z~|1970' 2 47 - 2500000 0
skip end '1970-01-01T24:00|1970-01-01T00:00x|1970-01-01T00:00+24:00' 3 57 - -7 -7 -7
end '1' 0 0 too_short";

/// The same with timestamps in milliseconds at an offset of an hour, which moves no clock.
const CLOCKS_OR_TIMESTAMPS: &str = "\
end '1|-1.5|1970-01-01T00:00:01-01:00' 3 32 - 1000 -1500 1000000
end '999999999999999|1970' 0 0 date_too_large
end '1970-01-01T00:00:00.1234567|' 0 0 second_fraction_too_long";

/// The same of RFC 3339 alone.
const STRICT_CLOCKS: &str = "\
end '1970-01-01T00:00:01-01:00|1970-01-01T00:00:01' 1 26 tz_required 1000000
end '1970-01-01 00:00:01Z' 0 0 invalid_char_date_time_sep";

/// Each row of date-times and the seconds of their offsets, with digits past the sixth dropped.
const OFFSETS: &str = "\
end '1970-01-01T01:00+01:00|1970-01-01T00:00:01Z|1969-12-31T23:59:59.9999999-23:59' 3 77 - 3600 0 -86340
end '1970-01-01T00:00-00:00|1970-01-01T00:00' 1 23 tz_required 0
skip end '1970-01-01T00:00|1970-01-01T00:00+24:00|1970-01-01T00:00+0530' 3 61 - -7 -7 19800
return '1970-01-01T00:00− 01:00~|' 0 0 invalid_char_tz_hour
end '1' 0 0 too_short";

/// The same with timestamps in milliseconds, at an offset of an hour.
const OFFSETS_OR_TIMESTAMPS: &str = "\
end '1|-1.5|1970-01-01T00:00:01-01:00' 3 32 - 3600 3600 -3600
end '1|1970-01-01T00:00:01' 1 2 tz_required 3600";

/// The same of RFC 3339 alone.
const STRICT_OFFSETS: &str = "\
end '1970-01-01T00:00:01-01:00|1970-01-01T00:00:01' 1 26 tz_required -3600
end '1970-01-01T00:00:01+0100' 0 0 invalid_char_tz_minute";

/// Each row of times and the microseconds that their clocks show, with digits past the sixth dropped.
const TIMES: &str = "\
end '12:13:14.5|12:13:14.5+01:00|00:00' 3 33 - 43994500000 43994500000 0
end '23:59:59.9999999|23:59:59,000001-23:59|00:00:00.000001Z' 3 55 - 86399999999 86399000001 1
'00:01|00:02' 1 6 - 60000000
return '00:01~|00:02Z~|' 2 15 - 60000000 120000000
skip end '24:00|00:00x|00:00+24:00' 3 24 - -7 -7 -7
end '00:00|1970-01-01T00:00' 1 6 invalid_char_time_sep 0
end '|' 0 0 too_short";

/// The same of RFC 3339 alone.
const STRICT_TIMES: &str = "\
end '00:00:01+01:00|00:00:01' 1 15 tz_required 1000000
end '00:00:01.1234567Z' 0 0 second_fraction_too_long
end '00:01Z' 0 0 invalid_char_time_sep";

/// Each row of times and the seconds of their offsets, with digits past the sixth dropped.
const TIME_OFFSETS: &str = "\
end '12:13+01:00|12:13:14.1234567Z|00:00-23:59' 3 41 - 3600 0 -86340
end '00:00-00:00|00:00' 1 12 tz_required 0
skip end '00:00|00:00+24:00|00:00+0530' 3 28 - -7 -7 19800";

/// The same of RFC 3339 alone.
const STRICT_TIME_OFFSETS: &str = "\
end '00:00:01-01:00|00:00:01' 1 15 tz_required -3600
end '00:00:01+0100' 0 0 invalid_char_tz_minute";

/// Expects the rows of date-times as their clocks show them.
fn expect_clocks<R: AllocGlobal + Abort>(rt: &R, parser: DateTimeParser, rows: &str) {
    let reader = DateTimeClockReader { parser };
    for row in rows.lines() {
        expect_column(rt, &reader, -7, &mut [-7; ROOM], row);
    }
}

/// Expects the rows of the offsets of date-times.
fn expect_offsets<R: AllocGlobal + Abort>(rt: &R, parser: DateTimeParser, rows: &str) {
    let reader = DateTimeOffsetReader { parser };
    for row in rows.lines() {
        expect_column(rt, &reader, -7, &mut [-7; ROOM], row);
    }
}

#[test]
fn clocks_and_offsets(rt: HostRuntime) {
    let parser = DateTimeParser::Text(time_config(&rt, "truncate"));
    expect_clocks(&rt, parser, CLOCKS);
    expect_offsets(&rt, parser, OFFSETS);
}

#[test]
fn clocks_and_offsets_of_timestamps(rt: HostRuntime) {
    let parser = DateTimeParser::OrTimestamp(date_time_config(&rt, "ms error 3600"));
    expect_clocks(&rt, parser, CLOCKS_OR_TIMESTAMPS);
    expect_offsets(&rt, parser, OFFSETS_OR_TIMESTAMPS);
}

#[test]
fn strict_clocks_and_offsets(rt: HostRuntime) {
    let parser = DateTimeParser::Strict(MicrosecondsPrecisionOverflowBehavior::Error);
    expect_clocks(&rt, parser, STRICT_CLOCKS);
    expect_offsets(&rt, parser, STRICT_OFFSETS);
}

/// Expects the rows of times.
fn expect_times<R: AllocGlobal + Abort>(rt: &R, parser: TimeParser, rows: &str) {
    let reader = TimeReader { parser };
    for row in rows.lines() {
        expect_column(rt, &reader, -7, &mut [-7; ROOM], row);
    }
}

/// Expects the rows of the offsets of times.
fn expect_time_offsets<R: AllocGlobal + Abort>(rt: &R, parser: TimeParser, rows: &str) {
    let reader = TimeOffsetReader { parser };
    for row in rows.lines() {
        expect_column(rt, &reader, -7, &mut [-7; ROOM], row);
    }
}

#[test]
fn times_and_offsets(rt: HostRuntime) {
    let parser = TimeParser::Text(time_config(&rt, "truncate"));
    expect_times(&rt, parser, TIMES);
    expect_time_offsets(&rt, parser, TIME_OFFSETS);
}

#[test]
fn strict_times_and_offsets(rt: HostRuntime) {
    let parser = TimeParser::Strict(MicrosecondsPrecisionOverflowBehavior::Error);
    expect_times(&rt, parser, STRICT_TIMES);
    expect_time_offsets(&rt, parser, STRICT_TIME_OFFSETS);
}
