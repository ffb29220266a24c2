//! The orders of dates, of times and date-times by instant, and of durations.

use crate::rows::{HasText, parsed, same, words};
use speedate::{Date, DateTime, Duration, ParseError, Time};
use std::cmp::Ordering;
use std::process::Abort;

const DATES: &str = "\
0000-12-31  <  0001-01-01
2020-03-01  >  2020-02-29
2020-02-29  =  2020-02-29";

const TIMES: &str = "\
12:00:00         <  12:00:00.000001
00:00:00-01:00   <  00:30:00
00:30:00         <  01:00:00Z
00:00:00-01:00   =  01:00:00Z
12:00:00+01:00   =  11:00:00Z";

const DATE_TIMES: &str = "\
2022-01-01T23:00:00Z       >  2022-01-02T01:00:00+03:00
2022-01-01T23:00:00        <  2022-01-02T01:00:00+03:00
1996-12-19T16:39:57-08:00  =  1996-12-20T00:39:57Z";

const DURATIONS: &str = "\
-P4D  <  -P3D
P1D   >  PT1S
-PT0S <  PT0S
PT0S  =  PT0S";

/// How a row writes an order.
fn sign(order: Ordering) -> &'static str {
    match order {
        Ordering::Less => "<",
        Ordering::Equal => "=",
        Ordering::Greater => ">",
    }
}

/// The values of each row are to be in its order.
fn expect_orders<T: HasText + Ord, R: Abort>(rt: &R, rows: &str) {
    for row in rows.lines() {
        let [one, order, two, ..] = words(row);
        let (one, two): (T, T) = (parsed(rt, one), parsed(rt, two));
        same(rt, sign(one.cmp(&two)), order, row);
        same(rt, one < two, order == "<", row);
        same(rt, one == two, order == "=", row);
    }
}

#[test]
fn dates(rt: HostRuntime) {
    expect_orders::<Date, _>(&rt, DATES);
}

#[test]
fn times(rt: HostRuntime) {
    for row in TIMES.lines() {
        let [one, order, two, ..] = words(row);
        let (one, two): (Time, Time) = (parsed(&rt, one), parsed(&rt, two));
        same(&rt, sign(one.cmp_instant(&two)), order, row);
        // without offsets they sort as their texts
        if one.tz_offset.is_none() && two.tz_offset.is_none() {
            let texts = one.to_text().as_bytes().cmp(two.to_text().as_bytes());
            same(&rt, sign(texts), order, row);
        }
    }
}

#[test]
fn date_times(rt: HostRuntime) {
    for row in DATE_TIMES.lines() {
        let [one, order, two, ..] = words(row);
        let (one, two): (DateTime, DateTime) = (parsed(&rt, one), parsed(&rt, two));
        same(&rt, sign(one.cmp_instant(&two)), order, row);
    }
}

#[test]
fn durations(rt: HostRuntime) -> Result<(), ParseError> {
    let longer = Duration::new(false, 4, 0, 0)?;
    let shorter = Duration::new(false, 3, 0, 0)?;
    same(&rt, sign(longer.cmp(&shorter)), "<", "four days back");
    expect_orders::<Duration, _>(&rt, DURATIONS);
    Ok(())
}
