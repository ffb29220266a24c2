//! Columns of numbers in print.

use crate::columns::{TEXT_MAX, error_name, spelled};
use crate::rows::{quoted, same, value, words};
use speedate::{
    DatePrinter, DateTimeClockPrinter, DateTimePrinter, DurationPrinter, LinePrinter, TimePrinter,
    print_column,
};
use std::process::Abort;

/// Each row of two microseconds in print: the room and the numbers; the text of their date-times; how many
/// lines and bytes it has, and the error.
const PRINTED_DATE_TIMES: &str = "\
60 1000000 -1 '1970-01-01T00:00:01Z|1969-12-31T23:59:59.999999Z|' 2 49 -
48 1000000 -1 '1970-01-01T00:00:01Z|' 1 21 -
60 -9223372036854775808 0 '|1970-01-01T00:00:00Z|' 2 22 -
60 -62167219200000000 -62167219200000001 '0000-01-01T00:00:00Z|' 1 21 date_too_small
60 253402300800000000 0 '' 0 0 date_too_large";

/// The same of date-times without an offset.
const PRINTED_CLOCKS: &str =
    "60 1500000 0 '1970-01-01T00:00:01.500000|1970-01-01T00:00:00|' 2 47 -";

/// The same of times.
const PRINTED_TIMES: &str = "\
60 43994500000 86399999999 '12:13:14.500000|23:59:59.999999|' 2 32 -
60 0 86400000000 '00:00:00|' 1 9 time_too_large
60 -1 0 '' 0 0 time_too_large";

/// The same of durations.
const PRINTED_DURATIONS: &str = "\
60 -1500000 9223372036854775807 '-PT1.5S|P292471Y76DT4H54.775807S|' 2 33 -
5 0 -9223372036854775808 'PT0S|' 1 5 -
6 0 -9223372036854775808 'PT0S||' 2 6 -";

/// Numbers in print are to have a row's text, lines, bytes and error.
fn expect_printed<P: LinePrinter<Number = i64>, R: AllocGlobal + Abort>(
    rt: &R,
    printer: &P,
    row: &str,
) {
    let (left, text, want) = quoted(rt, row);
    let [room, first, second, ..] = words(left);
    let [lines, taken, error, ..] = words(want);
    let numbers = [value(rt, first), value(rt, second)];
    let room: usize = value(rt, room);
    let mut out = [0; TEXT_MAX];
    let progress = print_column(&numbers, printer, &mut out[..room.min(TEXT_MAX)]);
    let (bytes, size) = spelled(&text);
    same(rt, progress.lines, value(rt, lines), row);
    same(rt, progress.bytes, value(rt, taken), row);
    same(rt, error_name(progress.error), error, row);
    same(rt, out.get(..progress.bytes), bytes.get(..size), row);
}

#[test]
fn date_times_in_print(rt: HostRuntime) {
    for row in PRINTED_DATE_TIMES.lines() {
        expect_printed(&rt, &DateTimePrinter, row);
    }
    for row in PRINTED_CLOCKS.lines() {
        expect_printed(&rt, &DateTimeClockPrinter, row);
    }
}

#[test]
fn times_and_durations_in_print(rt: HostRuntime) {
    for row in PRINTED_TIMES.lines() {
        expect_printed(&rt, &TimePrinter, row);
    }
    for row in PRINTED_DURATIONS.lines() {
        expect_printed(&rt, &DurationPrinter, row);
    }
}

#[test]
fn dates_in_print(rt: HostRuntime) {
    let mut out = [0; 40];
    let progress = print_column(&[1, i32::MIN, -719_528, 2_932_897], &DatePrinter, &mut out);
    same(&rt, progress.lines, 3, "dates");
    same(&rt, error_name(progress.error), "date_too_large", "dates");
    let want = b"1970-01-02\n\n0000-01-01\n";
    same(&rt, out.get(..progress.bytes), want.get(..23), "dates");
}
