//! A ledger: lines that begin with dates, in order and sorted, and amounts in cents.

ghost use Rattle.std.specs.Prelude.{◌≡◌, ℕ, ◌<◌, List, OnErr, OnOk, length, slice_index_or};
ghost use Rattle.std.specs.Borrow.{Bor};
ghost use Rattle.std.specs.List.{IsAllAdjacentAnswer};
ghost use Rattle.std.specs.List.Sorted.{IsPermutation, IsSortedByKey, IsStableByKey};
ghost use Rattle.speedate.specs.Date.{date_front, ymd, ◌gives_front◌};
ghost use Rattle.speedate.specs.Refused.{without_place};
ghost use Rattle.speedate.specs.Requirement.{result_map, with_size};
ghost use Rattle.speedate.specs.Calendar.{date_order};
ghost use Rattle.speedate.specs.Numbers.{number_answer, scaled_number};
ghost use Rattle.speedate_uses.specs.Ledger.{dates_in_order, is_in_order};

use speedate::{Date, ParseError, float_parse_bytes};
use std::alloc::{AllocError, Allocator};

/// What the front of a line is read as.
type Front = Result<(Date, usize), ParseError>;

/// Whether two lines of a ledger begin with dates, and the second's is not before the first's: false
/// for `2026-11-22 opening balance` and `2026-11-21 rent`.
pub fn is_in_order(line: &[u8], next: &[u8]) -> bool
    ensures order { result ≡ is_in_order line.now next.now }
{
    are_dates_in_order(&Date::parse_front(line), &Date::parse_front(next))
}

/// Whether two fronts are dates, and the second is not before the first.
#[inline(always)]
fn are_dates_in_order(front: &Front, next: &Front) -> bool
    ensures order { result ≡ dates_in_order (result_map (with_size ymd) front.now)
        (result_map (with_size ymd) next.now) }
{
    match (front, next) {
        (Ok((date, _)), Ok((later, _))) => date.cmp(later).is_le(),
        _ => false,
    }
}

/// Whether the lines of a ledger are in order, each and the next one: false where one of several
/// begins with no date. Each line is parsed once.
pub fn are_in_order(lines: &[&[u8]]) -> bool
    ensures order { IsAllAdjacentAnswer
        (λ line next answer. answer ≡ is_in_order line.now next.now) lines.now result }
{
    if lines.is_empty() {
        return true;
    }
    let mut last = front_at(lines, 0);
    for place in 1..lines.len() {
        let next = front_at(lines, place);
        if !are_dates_in_order(&last, &next) {
            return false;
        }
        last = next;
    }
    true
}

/// What the front of a line at a place is read as.
#[inline(always)]
fn front_at(lines: &[&[u8]], place: usize) -> Front
    requires { place < length lines.now }
    ensures front { (line : Bor (List ℕ))
        → result gives_front without_place
        (date_front (slice_index_or lines.now place line).now) }
{
    Date::parse_front(lines[place])
}

/// An entry of a ledger: 42.50 paid on 30 November 2026 has the date 2026-11-30 and -4,250 cents.
#[derive(Clone, Copy, Debug)]
pub struct Entry {
    /// The day of the entry.
    pub date: Date,
    /// The amount, negative if it was paid.
    pub cents: i64,
}

/// An amount in cents: -4,250 for `-42.50`, and 1,200 for `12`. `None` for `12.345`, which is not a
/// whole number of cents, and for a text that is not a number.
pub fn cents(amount: &[u8]) -> Option<i64>
    ensures cents { result ≡ scaled_number 2 (number_answer amount.now) }
{
    float_parse_bytes(amount).scaled(2)
}

/// Sorts the entries of a ledger by date, the earliest first. Those of one day stay in their order.
pub fn sort_by_date<A: Allocator>(alloc: A, entries: &mut [Entry]) -> Result<(), AllocError>
    ensures same { IsPermutation entries.old entries.new }
    ensures sorted { OnOk result (IsSortedByKey (λ entry. ymd entry.date) date_order entries.new) }
    ensures stable { IsStableByKey (λ entry. ymd entry.date) date_order entries.old entries.new }
    ensures err { OnErr result (entries.new ≡ entries.old) }
{
    entries.sort_by_key(alloc, |entry| entry.date)
}
