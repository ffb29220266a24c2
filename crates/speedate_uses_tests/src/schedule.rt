//! When a job runs next.

use crate::checks::{same, value};
use speedate::{DateTime, Duration};
use speedate_uses::schedule::next_run;

/// When a job ran last, how often it runs, now, and when it runs next. The last rows are on both sides
/// of 2 ^ 63 microseconds, and at the longest length.
const RUNS: &str = "\
2026-11-22T12:00:00Z       PT1H   2026-11-22T12:00:00Z       2026-11-22T13:00:00Z
2026-11-22T12:00:00Z       PT1H   2026-11-22T11:00:00Z       2026-11-22T13:00:00Z
2026-01-01T00:00:00Z       PT7M   2026-01-02T00:00:00Z       2026-01-02T00:02:00Z
2026-11-22T12:00:00+01:00  PT6H   2026-11-22T12:00:00-05:00  2026-11-23T00:00:00+01:00
9999-12-31T22:00:00Z       PT1H   9999-12-31T23:00:00Z       date_too_large
2026-11-22T12:00:00Z       -PT1H  2026-11-22T12:30:00Z       none
0000-01-01T00:00:00Z  P106751991DT4H0M54.775807S    0000-01-01T00:00:00Z  date_too_large
0000-01-01T00:00:00Z  P106751991DT4H0M54.775808S    0000-01-01T00:00:00Z  date_too_large
0000-01-01T00:00:00Z  -P106751991DT4H0M54.775808S   9999-12-31T23:59:59Z  none
0000-01-01T00:00:00Z  -P106751991DT4H0M54.775809S   9999-12-31T23:59:59Z  none
0000-01-01T00:00:00Z  P999999999DT23H59M59.999999S  9999-12-31T23:59:59Z  date_too_large
9999-12-31T23:59:59Z  P999999999DT23H59M59.999999S  0000-01-01T00:00:00Z  date_too_large";

#[test]
fn runs(rt: HostRuntime) {
    for row in RUNS.lines() {
        let mut words = row.split_whitespace();
        let last: DateTime = value(&rt, words.next().unwrap_or(""));
        let every: Duration = value(&rt, words.next().unwrap_or(""));
        let now: DateTime = value(&rt, words.next().unwrap_or(""));
        let want = words.next().unwrap_or("");
        match next_run(&last, &every, &now) {
            Ok(Some(time)) => same(&rt, time.to_text().as_str(), want, row),
            Ok(None) => same(&rt, "none", want, row),
            Err(fault) => same(&rt, fault.name(), want, row),
        }
    }
}
