//! Durations without their sign, and which form a text has.

ghost use Rattle.std.specs.Prelude.{◌≡◌, ◌+◌, ◌-◌, ◌^◌, ◌≤◌, IfErr, length, min};
ghost use Rattle.std.specs.List.{list_any};
ghost use Rattle.speedate_base.specs.Digits.{run_length, run_value};
ghost use Rattle.speedate_base.specs.Refused.{seen_as};
ghost use Rattle.speedate_base.specs.Requirement.{shifted};
ghost use Rattle.speedate.specs.ClockForm.{clock_form};
ghost use Rattle.speedate.specs.DayForm.{is_day_letter};
ghost use Rattle.speedate.specs.Duration.{has_days, days_or_clock, unsigned_answer};

use super::days::is_day_letter;
use super::iso::Sums;
use speedate_base::config::{IsoOrder, MicrosecondsPrecisionOverflowBehavior as Behavior};
use speedate_base::faults::ParseError;
use speedate_base::numbers::{DigitRun, byte_at, digit_run};
use speedate_base::refusal::Refusal;

/// An amount of time as a text says it: days, seconds and microseconds of any size.
#[derive(Clone, Copy)]
pub(super) struct UnsignedDuration {
    pub(super) day: u32,
    pub(super) second: u32,
    pub(super) microsecond: u32,
}

impl UnsignedDuration {
    /// Parses a duration after its sign, which begins at `start` of the whole text, in the form that its
    /// text has.
    #[inline(always)]
    #[tactic(auto, unfolding(crate::specs::Duration::unsigned_answer), using(crate::proofs::DurationPlaceLemmas::part_rules))]
    pub(super) fn parse<E: Refusal, const COPY: u8>(
        bytes: &[u8],
        order: IsoOrder,
        start: usize,
        behavior: Behavior,
    ) -> Result<Self, E>
        requires { start + length bytes.now + 16 ≤ usize.MAX }
        ensures answer { result
            ≡ seen_as (shifted start E.refusal) (unsigned_answer order behavior bytes.now) }
        ensures placed { IfErr result (E.lies_within (start + length bytes.now)) }
    {
        if byte_at(bytes, 0) == b'P' {
            return Sums::parse(&bytes[1..], order, start + bytes.len());
        }
        Self::days_or_clock::<E, COPY>(bytes, start, behavior)
    }

    /// Parses a duration of days, or one that a clock shows, which begins at `start` of the whole text.
    #[inline(always)]
    #[tactic(auto, unfolding(crate::specs::Duration::days_or_clock))]
    fn days_or_clock<E: Refusal, const COPY: u8>(
        bytes: &[u8],
        start: usize,
        behavior: Behavior,
    ) -> Result<Self, E>
        requires { start + length bytes.now + 16 ≤ usize.MAX }
        ensures answer { result
            ≡ seen_as (shifted start E.refusal) (days_or_clock behavior bytes.now) }
        ensures placed { IfErr result (E.lies_within (start + length bytes.now)) }
    {
        if bytes.is_empty() {
            return Err(E::refuse_at(ParseError::TooShort, start));
        }
        let number = digit_run(bytes);
        if byte_at(bytes, number.length) == b':' {
            let clock = Self::from_clock::<E>(bytes, number, start, behavior);
            // A clock lacks letters, so it is not searched for one.
            if clock.is_ok() {
                return clock;
            }
        }
        if has_days(bytes, number.length) {
            return Self::from_days(bytes, number, start, behavior);
        }
        // As the answer itself, the call's result would keep the answer in memory on the other ways too.
        let clock = Self::refused_clock::<E>(bytes, number, start, behavior);
        clock
    }

    /// Parses a refused clock again, for its error: out of line, so that it does not lengthen the way of
    /// a clock that is parsed.
    #[inline(never)]
    fn refused_clock<E: Refusal>(
        bytes: &[u8],
        hours: DigitRun,
        start: usize,
        behavior: Behavior,
    ) -> Result<Self, E>
        requires length { hours.length ≡ run_length bytes.now 0 }
        requires value { hours.value ≡ min (run_value bytes.now 0) (2 ^ 64 - 1) }
        requires start { start + length bytes.now + 16 ≤ usize.MAX }
        ensures answer { result
            ≡ seen_as (shifted start E.refusal) (clock_form behavior bytes.now) }
        ensures placed { IfErr result (E.lies_within (start + length bytes.now)) }
    {
        Self::from_clock(bytes, hours, start, behavior)
    }
}

/// Whether a text has days, whose first digits end at `end`: the letter of a day is anywhere in it,
/// or it is too short for a clock.
#[tactic(auto, using(crate::proofs::ClockFormLemmas::letter_rules))]
pub(super) fn has_days(bytes: &[u8], end: usize) -> bool
    requires end { end ≡ run_length bytes.now 0 }
    requires within { end ≤ length bytes.now }
    ensures { result ≡ has_days bytes.now }
{
    bytes.len() < 5 || has_day_letter(&bytes[end..])
}

/// Whether the letter of a day is anywhere in a text.
fn has_day_letter(bytes: &[u8]) -> bool
    ensures { result ≡ list_any is_day_letter bytes.now }
{
    bytes.iter().any(|&byte| is_day_letter(byte))
}
