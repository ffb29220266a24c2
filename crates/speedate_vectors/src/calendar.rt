//! The walk over the calendar, beside the civil dates of `jiff`.

use crate::rows::same;
use jiff::civil;
use speedate::Date;
use std::process::Abort;

/// The date in `jiff`'s civil calendar.
fn civil_date(date: &Date) -> Result<civil::Date, jiff::Error> {
    civil::Date::new(date.year as i16, date.month as i8, date.day as i8)
}

/// The days from the one date to the other in `jiff`'s civil calendar.
fn civil_days(date: &Date, other: &Date) -> Result<i32, jiff::Error> {
    let days = civil_date(date)?.until(civil_date(other)?)?;
    Ok(days.get_days())
}

fn expect_day<R: Abort>(rt: &R, date: &Date, day: civil::Date, number: u32) {
    same(rt, Date::from_day_number(number), Some(*date), number);
    let found = (date.year as i16, date.month as i8, date.day as i8);
    same(rt, found, (day.year(), day.month(), day.day()), number);
}

/// Each day, from the first to the last.
fn expect_each_day<R: Abort>(rt: &R) {
    let mut next = Date::from_day_number(0);
    let mut civil = civil::Date::new(0, 1, 1).ok();
    for number in 0..3_652_425 {
        let date = next.expect(rt, "a date");
        let day = civil.expect(rt, "a date");
        expect_day(rt, &date, day, number);
        next = date.next_day();
        civil = day.tomorrow().ok();
    }
    assert!(rt; next.is_none() && civil.is_none());
}

/// The days between dates all over the calendar.
fn expect_days_between<R: Abort>(rt: &R) {
    for step in 0..20_000 {
        let date = Date::from_day_number(step * 7_919 % 3_652_425).expect(rt, "a date");
        let other = Date::from_day_number(step * 104_729 % 3_652_425).expect(rt, "a date");
        let days = civil_days(&date, &other).ok().expect(rt, "days");
        same(rt, other.days_since(&date), days, step);
        same(rt, date.checked_add_days(days), Some(other), step);
    }
}

#[test]
fn the_calendar_is_that_of_jiff(rt: HostRuntime) {
    expect_each_day(&rt);
    expect_days_between(&rt);
}
