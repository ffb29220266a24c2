//! The order of durations.

ghost use Rattle.std.specs.Prelude.{◌≡◌, Some};
ghost use Rattle.std.proofs.Common.{rules};
ghost use Rattle.std.specs.Cmp.{po, on_total};
ghost use Rattle.std.specs.Cmp.Rules.{comparing};
ghost use Rattle.std.specs.Ordering.{on, as_partial_cmp, bool_cmp, int_cmp, ordering_then};
ghost use Rattle.speedate.specs.Duration.{duration_numbers, signed_amount};
ghost use Rattle.speedate.specs.DurationNumbers.{duration_order, duration_order-same};
ghost use Rattle.speedate.specs.DurationNumbers.{duration_order-total, signed_day, signed_second};
ghost use Rattle.speedate.specs.DurationNumbers.{signed_microsecond};

use super::Duration;
use std::cmp::Ordering;

/// What durations are ordered by.
#[derive(Clone, Copy, PartialEq, Eq, PartialOrd, Ord)]
struct Key {
    positive: bool,
    day: i32,
    second: i32,
    microsecond: i32,
}

impl Duration {
    fn key(&self) -> Key
        ensures positive { result.positive ≡ self.now.positive }
        ensures day { result.day ≡ signed_day (duration_numbers self.now) }
        ensures second { result.second ≡ signed_second (duration_numbers self.now) }
        ensures microsecond { result.microsecond ≡ signed_microsecond (duration_numbers self.now) }
    {
        let sign = if self.positive { 1 } else { -1 };
        Key {
            positive: self.positive,
            day: sign * self.day as i32,
            second: sign * self.second as i32,
            microsecond: sign * self.microsecond as i32,
        }
    }
}

impl Ord for Duration {
    ghost cmp = { on duration_numbers duration_order };

    ghost total = { on_total duration_numbers duration_order-total };

    ghost matches_partial_cmp = { Prim.search (comparing, rules) };

    ghost matches_eq = { λ first second.
        duration_order-same (duration_numbers first) (duration_numbers second) };

    /// Which of two durations is the smaller one: a negative one before a positive one, the shorter
    /// of two positive ones, and the longer of two negative ones. Negative zero is before positive
    /// zero: -PT2S, -PT1S, -PT0S, PT0S and PT1S are in order.
    fn cmp(&self, other: &Duration) -> Ordering
        ensures order { result
            ≡ duration_order (duration_numbers self.now) (duration_numbers other.now) }
        ensures length { result ≡ ordering_then
            (int_cmp (signed_amount (duration_numbers self.now))
            (signed_amount (duration_numbers other.now)))
            (bool_cmp self.now.positive other.now.positive) }
    {
        self.key().cmp(&other.key())
    }
}

impl PartialOrd for Duration {
    ghost partial_cmp = { as_partial_cmp (on duration_numbers duration_order) };

    ghost laws = { po (on_total duration_numbers duration_order-total)
        (λ first second. duration_order-same (duration_numbers first) (duration_numbers second)) };

    /// What [`Duration::cmp`] returns, since any two durations have an order:
    /// `Some(Ordering::Less)` for -PT0S and PT0S.
    fn partial_cmp(&self, other: &Duration) -> Option<Ordering>
        ensures order { result
            ≡ Some (duration_order (duration_numbers self.now) (duration_numbers other.now)) }
        ensures length { result ≡ Some (ordering_then
            (int_cmp (signed_amount (duration_numbers self.now))
            (signed_amount (duration_numbers other.now)))
            (bool_cmp self.now.positive other.now.positive)) }
    {
        Some(self.cmp(other))
    }
}
