//! The order of times by the instant at which they lie.

use super::Time;
use speedate_base::util::UnixTime;
use std::cmp::Ordering;

impl Time {
    ghost use Rattle.std.specs.Prelude.{◌≡◌, None, Some, neg_ℤ, pos};
    ghost use Rattle.std.specs.Cmp.Lexicographic.{slice_cmp};
    ghost use Rattle.std.specs.Ordering.{nat_cmp, ordering_reverse};
    ghost use Rattle.speedate_base.specs.Timestamp.{unix_instant};
    ghost use Rattle.speedate_civil.specs.Instant.{BothOrNeither, IsBeforeNextOnly, IsNotAfter};
    ghost use Rattle.speedate_civil.specs.Time.{time_of_day, time_text, Time, time_instant};
    ghost use Rattle.speedate_civil.specs.Time.{time_instant_order, minute_time};

    /// Compares two times by instant: in UTC if both have an offset, and otherwise as clocks show them.
    /// So 12:00:00+01:00 is less than 11:30:00Z, and 11:30:00 is less than 12:00:00+01:00. Each time is
    /// taken to be one of the same day at its offset.
    ///
    /// Times without offsets compare as their texts do, as bytes. Times that all have an offset, or
    /// that all have none, can be sorted by it: the order is then transitive. Across both it is
    /// not: 00:00:00-01:00 is less than 00:30:00, which is less than 01:00:00Z, and the first is
    /// equal to the last. Times with different offsets can be equal here, while `==` distinguishes
    /// them: so this is a call, and not an order trait.
    pub fn cmp_instant(&self, other: &Time) -> Ordering
        ensures order { result ≡ time_instant_order (time_of_day self.now) (time_of_day other.now) }
        ensures text_order { self.now.tz_offset ≡ None → other.now.tz_offset ≡ None
            → result ≡ slice_cmp nat_cmp (time_text (time_of_day self.now))
            (time_text (time_of_day other.now)) }
        ensures reversed { time_instant_order (time_of_day other.now) (time_of_day self.now)
            ≡ ordering_reverse result }
        ensures transitive { (third : Time) → BothOrNeither self.now.tz_offset other.now.tz_offset
            → BothOrNeither other.now.tz_offset third.tz_offset → IsNotAfter result
            → IsNotAfter (time_instant_order (time_of_day other.now) (time_of_day third))
            → IsNotAfter (time_instant_order (time_of_day self.now) (time_of_day third)) }
        ensures across { IsBeforeNextOnly time_instant_order
            (minute_time 0 0 (Some (neg_ℤ (pos 3600)))) (minute_time 0 30 None)
            (minute_time 1 0 (Some (pos 0))) }
    {
        let is_utc = self.tz_offset.is_some() && other.tz_offset.is_some();
        self.instant(is_utc).cmp_instant(&other.instant(is_utc))
    }

    /// The instant of the time on 1970-01-01, in UTC or as a clock shows it; an absent offset is 0.
    fn instant(&self, is_utc: bool) -> UnixTime
        ensures { unix_instant result ≡ time_instant is_utc (time_of_day self.now) }
    {
        let second = i64::from(self.total_seconds());
        let offset = i64::from(self.tz_offset.unwrap_or(0));
        UnixTime {
            second: if is_utc { second - offset } else { second },
            microsecond: self.microsecond,
        }
    }
}
