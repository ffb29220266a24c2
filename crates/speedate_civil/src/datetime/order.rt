//! The order of date-times by the instant at which they lie.

use super::DateTime;
use speedate_base::util::UnixTime;
use std::cmp::Ordering;

impl DateTime {
    ghost use Rattle.std.specs.Prelude.{◌≡◌, None, Some, neg_ℤ, pos};
    ghost use Rattle.std.specs.Cmp.Lexicographic.{slice_cmp};
    ghost use Rattle.std.specs.Ordering.{nat_cmp, ordering_reverse};
    ghost use Rattle.speedate_base.specs.Timestamp.{unix_instant};
    ghost use Rattle.speedate_civil.specs.DateTime.{date_and_time, date_time_text};
    ghost use Rattle.speedate_civil.specs.DateTime.{date_time_instant, date_time_instant_order};
    ghost use Rattle.speedate_civil.specs.DateTime.{DateTime};
    ghost use Rattle.speedate_civil.specs.Instant.{BothOrNeither, IsBeforeNextOnly, IsNotAfter};
    ghost use Rattle.speedate_civil.specs.Calendar.{Ymd};
    ghost use Rattle.speedate_civil.specs.Time.{minute_time};

    /// Compares two date-times by instant: in UTC if both have an offset, and otherwise as clocks show
    /// them. So 2022-01-02T01:00:00+03:00 is less than 2022-01-01T23:00:00Z, and 2022-01-01T23:00:00 is
    /// less than 2022-01-02T01:00:00+03:00.
    ///
    /// Date-times without offsets compare as their texts do, as bytes. Date-times that all have an
    /// offset, or that all have none, can be sorted by it: the order is then transitive. Across
    /// both it is not, as [`Time::cmp_instant`] shows. Date-times with different offsets can be
    /// equal here, while `==` distinguishes them: so this is a call, and not an order trait.
    pub fn cmp_instant(&self, other: &DateTime) -> Ordering
        ensures order { result
            ≡ date_time_instant_order (date_and_time self.now) (date_and_time other.now) }
        ensures text_order { self.now.time.tz_offset ≡ None → other.now.time.tz_offset ≡ None
            → result ≡ slice_cmp nat_cmp (date_time_text (date_and_time self.now))
            (date_time_text (date_and_time other.now)) }
        ensures reversed { date_time_instant_order (date_and_time other.now)
            (date_and_time self.now) ≡ ordering_reverse result }
        ensures transitive { (third : DateTime)
            → BothOrNeither self.now.time.tz_offset other.now.time.tz_offset
            → BothOrNeither other.now.time.tz_offset third.time.tz_offset → IsNotAfter result
            → IsNotAfter (date_time_instant_order (date_and_time other.now) (date_and_time third))
            → IsNotAfter (date_time_instant_order (date_and_time self.now) (date_and_time third)) }
        ensures across { (date : Ymd) → IsBeforeNextOnly date_time_instant_order
            (record { date = date; time = minute_time 0 0 (Some (neg_ℤ (pos 3600))) })
            (record { date = date; time = minute_time 0 30 None })
            (record { date = date; time = minute_time 1 0 (Some (pos 0)) }) }
    {
        let is_utc = self.time.tz_offset.is_some() && other.time.tz_offset.is_some();
        self.instant(is_utc).cmp_instant(&other.instant(is_utc))
    }

    /// The instant of the date-time, in UTC or as a clock shows it; an absent offset is 0.
    fn instant(&self, is_utc: bool) -> UnixTime
        ensures { unix_instant result ≡ date_time_instant is_utc (date_and_time self.now) }
    {
        UnixTime {
            second: if is_utc {
                self.timestamp_tz()
            } else {
                self.timestamp()
            },
            microsecond: self.time.microsecond,
        }
    }
}
