//! Lines in order, amounts in cents, and entries by date.

use crate::checks::{same, value};
use speedate_uses::ledger::{Entry, are_in_order, cents, sort_by_date};
use std::process::Abort;

#[test]
fn lines_of_a_ledger(rt: HostRuntime) {
    let mut lines = [b"2026-11-22 rent".as_slice(), b"2026-12-01 food"];
    same(&rt, are_in_order(&lines), true, "in order");
    lines[1] = b"2026-11-21 food";
    same(&rt, are_in_order(&lines), false, "not in order");
    lines[1] = b"2026-11-31 food";
    same(&rt, are_in_order(&lines), false, "no date");
}

#[test]
fn amounts_in_cents(rt: HostRuntime) {
    same(&rt, cents(b"-42.50"), Some(-4_250), "two places");
    same(&rt, cents(b"12"), Some(1_200), "a whole number");
    same(&rt, cents(b"12.345"), None, "no whole number of cents");
    same(&rt, cents(b"12 EUR"), None, "no number");
}

fn entry<R: Abort>(rt: &R, date: &str, amount: &[u8]) -> Entry {
    let date = value(rt, date);
    let cents = cents(amount).expect(rt, "an amount");
    Entry { date, cents }
}

#[test]
fn entries_by_date(rt: HostRuntime) {
    let food = entry(&rt, "2026-11-30", b"-42.50");
    let rent = entry(&rt, "2026-12-01", b"-900");
    let wages = entry(&rt, "2026-12-01", b"2500.0");
    let mut entries = [rent, wages, food];
    assert!(rt; sort_by_date(rt.alloc(), &mut entries).is_ok());
    for (entry, want) in entries.iter().zip([food, rent, wages]) {
        same(&rt, entry.date, want.date, "the date");
        same(&rt, entry.cents, want.cents, "the amount");
    }
}
