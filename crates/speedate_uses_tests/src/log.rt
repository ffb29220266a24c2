//! Lines between two date-times, an entry, and date-times by instant.

use crate::checks::{same, value};
use linked_list_allocator::LocalHeap;
use speedate::{DateTime, TimeConfig};
use speedate_uses::log::{lines_between, log_entry, sort_by_instant};

/// Lines of a log, and whether they lie between 12:13:14 and 12:13:16 in UTC on 22 November 2026.
const LOG: &str = "\
2026-11-22T12:13:14Z GET /            yes
2026-11-22 12:13:15.9999994321 GET /  yes
2026-11-22T12:13:16.000001Z GET /     no
2026-11-22T12:13:14+01:00 GET /       no
2026-11-22T12:13: GET /               no";

#[test]
fn lines_of_a_log(rt: HostRuntime) {
    let first: DateTime = value(&rt, "2026-11-22T12:13:14Z");
    let last: DateTime = value(&rt, "2026-11-22T12:13:16Z");
    let config = TimeConfig::builder()
        .microseconds_precision_overflow_behavior(value(&rt, "truncate"))
        .build();
    for row in LOG.lines() {
        let (line, kept) = row.rsplit_once(' ').expect(&rt, row);
        let found = lines_between(rt.alloc(), &[line.as_bytes()], &config, &first, &last);
        let found = found.ok().expect(&rt, row);
        same(&rt, found.is_empty(), kept == "no", row);
    }
    let entry = log_entry(b"2026-11-22T12:13:14Z GET /", &config);
    let (value, rest) = entry.ok().expect(&rt, "an entry");
    same(&rt, value, first, "an entry");
    same(&rt, rest, b" GET /".as_slice(), "an entry");
}

#[test]
fn date_times_by_instant(rt: HostRuntime) {
    let noon: DateTime = value(&rt, "2026-11-22T12:00:00");
    let east: DateTime = value(&rt, "2026-11-22T12:30:00+01:00");
    let later: DateTime = value(&rt, "2026-11-22T12:00:00.000001Z");
    let mut times = [later, noon, east];
    let sorted = sort_by_instant(rt.alloc(), &mut times);
    assert!(rt; sorted.is_ok() && times == [east, noon, later]);
}

/// Which order a list of date-times has.
const ORDERS: [&str; 6] = [
    "rises",
    "falls",
    "rises but one",
    "falls but two at one instant",
    "at one instant",
    "mixed",
];

/// Lists on both sides of twenty date-times, which are sorted without memory, and a longer one, at two
/// offsets. Each is sorted in heaps of all sizes, so that each request is the first to fail in some of
/// them: an allocator that refuses a named request would be `unsafe`. A sort that calculates each key at each comparison makes one request, or none if the list rises
/// or falls: both are to succeed in the same heaps, and to leave the same list.
#[test]
fn many_date_times_by_instant(rt: HostRuntime) {
    let noon: DateTime = value(&rt, "2026-11-22T12:00:00Z");
    for order in ORDERS {
        let mut times = [noon; 48];
        for place in 0..48_u32 {
            times[place as usize] = moved(&noon, second(order, place), place % 2);
        }
        for size in [19, 20, 21, 22, 48] {
            for bytes in (0..80 * 48).step_by(16) {
                let mut model = times;
                let heap = LocalHeap::new(rt.alloc(), bytes).ok().expect(&rt, order);
                let by_key = model[..size].sort_by_key(&heap, |time| {
                    (time.timestamp_tz(), time.time.microsecond)
                });
                let mut found = times;
                let heap = LocalHeap::new(rt.alloc(), bytes).ok().expect(&rt, order);
                let sorted = sort_by_instant(&heap, &mut found[..size]);
                assert!(rt;
                    sorted.is_ok() == by_key.is_ok()
                        && (sorted.is_ok() || bytes < 2_000)
                        && found == model,
                    "{order}, {size} in {bytes} bytes"
                );
            }
        }
    }
}

/// The second of a date-time in a list of such an order.
fn second(order: &str, place: u32) -> u32 {
    match order {
        "rises" => place,
        "falls" => 48_u32.saturating_sub(place),
        "rises but one" if place == 9 => 0,
        "rises but one" => place,
        "falls but two at one instant" => 48_u32.saturating_sub(place.max(1)),
        "mixed" => place.wrapping_mul(29) % 48,
        _ => 0,
    }
}

/// A date-time so many seconds later, as a clock so many hours east of UTC shows it.
fn moved(start: &DateTime, seconds: u32, hours: u32) -> DateTime {
    let second = start.timestamp_tz() + i64::from(seconds);
    let value = DateTime::from_timestamp(second, 0).unwrap_or(*start);
    let value = value.with_timezone_offset(Some(0)).unwrap_or(value);
    value
        .in_timezone(if hours == 0 { 0 } else { 3_600 })
        .unwrap_or(value)
}
