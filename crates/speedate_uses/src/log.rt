//! A log: lines that begin with date-times, taken apart and chosen.

ghost use Rattle.std.specs.Prelude.{◌≡◌, ℕ, IfOk, List, OnErr, OnOk, drop, filter};
ghost use Rattle.std.specs.List.{IsAllAdjacentAnswer};
ghost use Rattle.std.specs.List.Sorted.{IsPermutation, IsSortedByKey, IsStableByKey};
ghost use Rattle.std.specs.Ordering.{is_lt};
ghost use Rattle.speedate.specs.Config.{time_choices};
ghost use Rattle.speedate.specs.DateTime.{DateAndTime, date_and_time, date_time_front, date_time_instant_order};
ghost use Rattle.speedate.specs.Refused.{without_place};
ghost use Rattle.speedate.specs.Requirement.{result_map};
ghost use Rattle.speedate_uses.specs.Log.{instant_key, instant_key_order, is_between, local_key};

use speedate::{DateTime, ParseError, TimeConfig};
use std::alloc::{AllocError, Allocator};
use std::cmp::Ordering;

/// How many date-times are sorted without memory.
const FEW: usize = 20;

/// The date-time at the front of a line of a log, and what follows it there: 12:13:14 in UTC on
/// 22 November 2026, and ` GET /`, of `2026-11-22T12:13:14Z GET /`.
pub fn log_entry<'a>(
    line: &'a [u8],
    config: &TimeConfig,
) -> Result<(DateTime, &'a [u8]), ParseError>
    ensures entry { result_map {B = DateAndTime × List ℕ}
        (λ entry. (date_and_time entry.0, entry.1.now)) result
        ≡ result_map (λ front. (front.0, drop front.1 line.now))
        (without_place (date_time_front (time_choices config.now).behavior line.now)) }
{
    let (value, size) = DateTime::parse_front(line, config)?;
    Ok((value, &line[size..]))
}

/// A date-time, and its second and microsecond in UTC and as its clock shows them: the keys of its
/// instant, so that the keys of two bounds are calculated once for all lines.
#[derive(Clone, Copy)]
struct Moments {
    value: DateTime,
    utc: (i64, u32),
    local: (i64, u32),
    ghost utc_is: { (utc.0, utc.1) ≡ instant_key (date_and_time value) },
    ghost local_is: { (local.0, local.1) ≡ local_key (date_and_time value) },
}

impl Moments {
    /// The moments of a date-time.
    #[inline(always)]
    fn of(value: &DateTime) -> Self
        ensures value { result.value ≡ value.now }
    {
        Moments {
            value: *value,
            utc: instant_key(value),
            local: (value.timestamp(), value.time.microsecond),
        }
    }

    /// The order of two date-times, as in [`DateTime::cmp_instant`].
    #[inline(always)]
    fn cmp(&self, other: &Self) -> Ordering
        ensures order { result ≡ date_time_instant_order (date_and_time self.now.value)
            (date_and_time other.now.value) }
    {
        if self.value.time.tz_offset.is_some() && other.value.time.tz_offset.is_some() {
            self.utc.cmp(&other.utc)
        } else {
            self.local.cmp(&other.local)
        }
    }
}

/// What determines the instant of a date-time: its second in UTC and its microsecond.
#[inline(always)]
fn instant_key(value: &DateTime) -> (i64, u32)
    ensures key { (result.0, result.1) ≡ instant_key (date_and_time value.now) }
{
    (value.timestamp_tz(), value.time.microsecond)
}

/// Whether a line of a log begins with a date-time between two others, both among them, by instant:
/// `2026-11-22T12:13:14Z GET /` lies between 12:13 and 12:14 in UTC on that day.
pub fn is_between(line: &[u8], config: &TimeConfig, first: &DateTime, last: &DateTime) -> bool
    ensures kept { result ≡ is_between (time_choices config.now).behavior
        (date_and_time first.now) (date_and_time last.now) line.now }
{
    match DateTime::parse_front(line, config) {
        Ok((value, _)) => first.cmp_instant(&value).is_le() && value.cmp_instant(last).is_le(),
        Err(_) => false,
    }
}

/// The answer of [`is_between`], by bounds whose instants are calculated.
#[inline(always)]
fn lies_between(line: &[u8], config: &TimeConfig, first: &Moments, last: &Moments) -> bool
    ensures kept { result ≡ is_between (time_choices config.now).behavior
        (date_and_time first.now.value) (date_and_time last.now.value) line.now }
{
    match DateTime::parse_front(line, config) {
        Ok((value, _)) => {
            let value = Moments::of(&value);
            first.cmp(&value).is_le() && value.cmp(last).is_le()
        }
        Err(_) => false,
    }
}

/// The lines of a log that [`is_between`] keeps, in their order.
pub fn lines_between<'a, A: Allocator>(
    alloc: A,
    lines: &[&'a [u8]],
    config: &TimeConfig,
    first: &DateTime,
    last: &DateTime,
) -> Result<Vec<&'a [u8], A>, AllocError>
    ensures kept { IfOk result (λ kept. kept.items
        ≡ filter (λ line. is_between (time_choices config.now).behavior
        (date_and_time first.now) (date_and_time last.now) line.now) lines.now) }
{
    let first = Moments::of(first);
    let last = Moments::of(last);
    lines
        .iter()
        .copied()
        .filter(|line| lies_between(line, config, &first, &last))
        .collect(alloc)
}

/// Whether each date-time of a log is earlier than the one before it, by instant.
fn are_falling(times: &[DateTime]) -> bool
    ensures fall { IsAllAdjacentAnswer (λ time next answer. answer ≡ is_lt
        (instant_key_order (instant_key (date_and_time next)) (instant_key (date_and_time time))))
        times.now result }
{
    if times.is_empty() {
        return true;
    }
    let mut last = instant_key(&times[0]);
    for place in 1..times.len() {
        let next = instant_key(&times[place]);
        if !next.cmp(&last).is_lt() {
            return false;
        }
        last = next;
    }
    true
}

/// Sorts the date-times of a log by instant, the earliest first; date-times of one instant stay in
/// their order. One without an offset is taken to be in UTC.
///
/// The key, the second in UTC and the microsecond, has an order whatever the offsets are.
/// `DateTime::cmp_instant` has none over date-times with and without an offset.
pub fn sort_by_instant<A: Allocator>(alloc: A, times: &mut [DateTime]) -> Result<(), AllocError>
    ensures same { IsPermutation times.old times.new }
    ensures sorted { OnOk result (IsSortedByKey (λ time. instant_key (date_and_time time))
        instant_key_order times.new) }
    ensures stable { IsStableByKey (λ time. instant_key (date_and_time time)) instant_key_order
        times.old times.new }
    ensures err { OnErr result (times.new ≡ times.old) }
{
    if times.len() > FEW {
        if times.is_sorted_by_key(|time| instant_key(time)) {
            return Ok(());
        }
        if are_falling(times) {
            times.reverse();
            return Ok(());
        }
        if times
            .sort_by_cached_key(&alloc, |time| instant_key(time))
            .is_ok()
        {
            return Ok(());
        }
    }
    // Few need no memory, and if there is no room for the keys of many, there may be for this.
    times.sort_by_key(alloc, |time| instant_key(time))
}
