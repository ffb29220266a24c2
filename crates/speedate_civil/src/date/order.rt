//! The order of dates: by year, month and day, as their texts and their day numbers are.

ghost use Rattle.std.specs.Prelude.{◌≡◌, ◌+◌, ◌*◌, Some};
ghost use Rattle.std.proofs.Common.{rules};
ghost use Rattle.std.specs.Cmp.{po, on_total};
ghost use Rattle.std.specs.Cmp.Lexicographic.{slice_cmp};
ghost use Rattle.std.specs.Cmp.Rules.{comparing};
ghost use Rattle.std.specs.Ordering.{nat_cmp, on, as_partial_cmp};
ghost use Rattle.speedate_civil.specs.Date.{ymd, date_text};
ghost use Rattle.speedate_civil.specs.Calendar.{date_order, date_order-total, day_number};

use super::Date;
use std::cmp::Ordering;

impl Date {
    /// A number by which dates are compared at once: the year, the month and the day one after another.
    #[inline(always)]
    fn order_key(&self) -> u32
        ensures { result ≡ 65536 * self.now.year + 256 * self.now.month + self.now.day }
    {
        65_536 * u32::from(self.year) + 256 * u32::from(self.month) + u32::from(self.day)
    }
}

impl Ord for Date {
    ghost cmp = { on ymd date_order };

    ghost total = { on_total ymd date_order-total };

    ghost matches_partial_cmp = { Prim.search (comparing, rules) };

    ghost matches_eq = { Prim.search (comparing, rules) };

    /// Compares two dates, by year, then by month, then by day: 2020-02-29 is less than 2020-03-01.
    /// Their texts, as bytes, and their day numbers compare in the same way.
    fn cmp(&self, other: &Date) -> Ordering
        ensures order { result ≡ date_order (ymd self.now) (ymd other.now) }
        ensures text_order { result
            ≡ slice_cmp nat_cmp (date_text (ymd self.now)) (date_text (ymd other.now)) }
        ensures day_order { result
            ≡ nat_cmp (day_number (ymd self.now)) (day_number (ymd other.now)) }
    {
        self.order_key().cmp(&other.order_key())
    }
}

impl PartialOrd for Date {
    ghost partial_cmp = { as_partial_cmp (on ymd date_order) };

    ghost laws = { po (on_total ymd date_order-total) (Prim.search (comparing, rules)) };

    /// The answer of [`Date::cmp`], in `Some`: `Some(Ordering::Less)` for 2020-02-29 and 2020-03-01.
    fn partial_cmp(&self, other: &Date) -> Option<Ordering>
        ensures order { result ≡ Some (date_order (ymd self.now) (ymd other.now)) }
        ensures text_order { result
            ≡ Some (slice_cmp nat_cmp (date_text (ymd self.now)) (date_text (ymd other.now))) }
        ensures day_order { result
            ≡ Some (nat_cmp (day_number (ymd self.now)) (day_number (ymd other.now))) }
    {
        Some(self.cmp(other))
    }
}
