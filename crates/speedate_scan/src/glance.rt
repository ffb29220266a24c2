//! What is known of a line at a glance: a value of the usual form, or that there is none.

ghost use Rattle.std.specs.Prelude.{◌≡◌, ◌≤◌, IfErr, IfOk, Ok, drop, false, length, true};
ghost use Rattle.speedate.specs.DateTime.{date_and_time};
ghost use Rattle.speedate_scan.specs.Reading.{Found, IfUndated, IfValue, IsWithin, Place, Reading, claims};
ghost use Rattle.speedate_scan.specs.Reading.{found_at, read, read_claim, seen, value_at, value_of};
ghost use Rattle.speedate_scan.specs.Scan.{LineKind, bad_of, line_of};

use crate::claim::{Wanted, claim_after, claims, length_before_value, may_claim};
use crate::reading::{Bad, Place, Reader, assume, can_end, is_cut, is_longer, seen};
use crate::scan::{LineKind, Scan, UndatedLines};
use speedate::DateTime;

/// What is known of a line at a glance.
#[derive(Clone, Copy)]
pub enum Glance {
    /// It has this value, which stands from one byte up to another.
    Value(DateTime, usize, usize),
    /// It has no value: the byte at which one would begin.
    Undated(usize),
    /// It has to be read.
    Unknown,
}

impl Reader<'_> {
    /// What is known of a line, by its head, without parsing its value part by part.
    #[inline(always)]
    #[tactic(auto, unfolding(crate::specs::Reading::value_at), using(crate::proofs::SeenLemmas::seen_within))]
    pub fn glance(&self, head: &[u8]) -> Glance
        ensures read { IfValue result (λ value from to. read self.now head.now
            ≡ Reading.Value (found_at self.now.form head.now (date_and_time value) from to)) }
        ensures value { IfValue result (λ value from to. value_of self.now head.now
            (found_at self.now.form head.now (date_and_time value) from to)
            ≡ Ok (date_and_time value, to)) }
        ensures within { IfValue result (λ value from to. IsWithin
            (found_at self.now.form head.now (date_and_time value) from to) head.now) }
        ensures undated { IfUndated result (λ place. read self.now head.now
            ≡ Reading.Undated place) }
    {
        let start = match self.start(head) {
            Ok(start) => start,
            Err(glance) => return glance,
        };
        let text = &seen(head)[start..];
        // Most lines without a value begin otherwise.
        if !may_claim(self.form, text) {
            return self.unclaimed(start);
        }
        let (value, size) = match self.form.usual(text) {
            Some((value, size)) => (value, size),
            None => {
                if !claims(self.form, text) {
                    return self.unclaimed(start);
                }
                match self.form.accepted(text, self.behavior) {
                    Some((value, size)) => (value, size),
                    None => return Glance::Unknown,
                }
            }
        };
        let to = start + size;
        if is_cut(head, to) || !can_end(self.form, &head[to..]) {
            return Glance::Unknown;
        }
        Glance::Value(assume(self.offset, value), start, to)
    }

    /// The byte at which a value would begin in a line, by its head, or what is known of a line in which none is claimed.
    #[inline(always)]
    #[tactic(auto, unfolding(crate::specs::Reading::read, crate::specs::Reading::value_of))]
    fn start(&self, head: &[u8]) -> Result<usize, Glance>
        ensures read { IfOk result (λ start.
            claims self.now.form (drop start (seen head.now)) ≡ true
            → read self.now head.now ≡ read_claim self.now head.now (Ok start)) }
        ensures value { (found : Found) → IfOk result (λ start. value_of self.now head.now found
            ≡ value_at self.now head.now found.from) }
        ensures within { IfOk result (λ start. start ≤ length (seen head.now)) }
        ensures bare { IfOk result (λ start. self.now.place ≡ Place.Front
            → claims self.now.form (drop start (seen head.now)) ≡ false
            → read self.now head.now ≡ Reading.Undated start) }
        ensures none { IfErr result (λ glance. IfValue glance (λ value from to. ⊥)) }
        ensures undated { IfErr result (λ glance. IfUndated glance (λ place. read self.now head.now
            ≡ Reading.Undated place)) }
    {
        match self.place {
            Place::Front => Ok(length_before_value(seen(head))),
            Place::After(word) => match claim_after(Wanted::Value(self.form), word, seen(head)) {
                Some(start) => Ok(start),
                None if is_longer(head) => Err(Glance::Unknown),
                None => Err(Glance::Undated(head.len())),
            },
            Place::Field(_) => Err(Glance::Unknown),
        }
    }

    /// What is known of a line in which no value is claimed at the byte at which one would begin.
    #[inline(always)]
    fn unclaimed(&self, start: usize) -> Glance
        ensures none { IfValue result (λ value from to. ⊥) }
        ensures front { IfUndated result (λ place. self.now.place ≡ Place.Front) }
        ensures start { IfUndated result (λ place. place ≡ start) }
    {
        match self.place {
            Place::Front => Glance::Undated(start),
            Place::After(_) | Place::Field(_) => Glance::Unknown,
        }
    }
}

impl Scan<'_> {
    /// What is known of a line, by its head, without parsing its value part by part: a value that fits, or that it has
    /// none and is not bad for that.
    #[inline(always)]
    #[tactic(auto, unfolding(crate::specs::Scan::line_of))]
    pub fn glance(&self, head: &[u8]) -> Glance
        ensures line { IfValue result (λ value from to. line_of self.now head.now ≡ LineKind.Value
            (found_at self.now.reader.form head.now (date_and_time value) from to)) }
        ensures value { IfValue result (λ value from to. value_of self.now.reader head.now
            (found_at self.now.reader.form head.now (date_and_time value) from to)
            ≡ Ok (date_and_time value, to)) }
        ensures within { IfValue result (λ value from to. IsWithin
            (found_at self.now.reader.form head.now (date_and_time value) from to) head.now) }
        ensures undated { IfUndated result (λ place. line_of self.now head.now
            ≡ LineKind.Undated) }
    {
        if self.is_stopped() || self.is_at_header() {
            return Glance::Unknown;
        }
        let glance = self.reader.glance(head);
        let is_known = match &glance {
            Glance::Value(value, _, _) => self.offsets.fits(value.time.tz_offset.is_some()),
            Glance::Undated(_) => self.undated_lines != UndatedLines::Bad,
            Glance::Unknown => false,
        };
        if is_known { glance } else { Glance::Unknown }
    }

    /// What is bad about a line, by its head, if something is.
    #[inline(always)]
    pub fn what_is_bad(&self, head: &[u8]) -> Option<Bad>
        ensures bad { result ≡ bad_of (line_of self.now head.now) }
    {
        match self.glance(head) {
            Glance::Value(_, _, _) | Glance::Undated(_) => None,
            Glance::Unknown => self.any_bad(head),
        }
    }

    /// The same, without a first look at what is known at a glance.
    #[inline(never)]
    fn any_bad(&self, head: &[u8]) -> Option<Bad>
        ensures bad { result ≡ bad_of (line_of self.now head.now) }
    {
        match self.any_line(head).0 {
            LineKind::Bad(bad) => Some(bad),
            _ => None,
        }
    }
}
