//! The form of a duration as a clock shows it.

ghost use Rattle.std.specs.Prelude.{◌≡◌, ◌+◌, ◌-◌, ◌^◌, ◌<◌, ◌≤◌, length, min, false, Ok, Err, IfErr, IfOk, IsTrue};
ghost use Rattle.speedate_base.specs.Digits.{run_length, run_value};
ghost use Rattle.speedate_base.specs.Refused.{seen_as};
ghost use Rattle.speedate_base.specs.Requirement.{first_refusal_or, shifted};
ghost use Rattle.speedate.specs.ClockForm.{colon_place, has_hours, hours_table, after_hours};
ghost use Rattle.speedate.specs.ClockForm.{clock_form};

use super::unsigned::UnsignedDuration;
use speedate_base::config::MicrosecondsPrecisionOverflowBehavior as Behavior;
use speedate_base::faults::ParseError;
use speedate_base::numbers::{DigitRun, byte_at, first_colon, takes_digits};
use speedate_base::refusal::Refusal;
use speedate_civil::time::PureTime;

/// How many bytes the hours have at most.
const HOURS_LENGTH_MAX: usize = 10;

/// How many hours a clock shows at most.
const HOURS_MAX: u64 = 2_400_000_000;

/// How many bytes follow the hours at most if digits are refused, as in `01:03.123456`.
const REST_LENGTH_MAX: usize = 12;

impl UnsignedDuration {
    /// Parses a duration as a clock shows it, whose hours are the digits at its front, and which begins at
    /// `start` of the whole text: a day, an hour and three seconds from `b"25:00:03"`.
    #[inline(always)]
    pub(super) fn from_clock<E: Refusal>(
        bytes: &[u8],
        hours: DigitRun,
        start: usize,
        behavior: Behavior,
    ) -> Result<Self, E>
        requires length { hours.length ≡ run_length bytes.now 0 }
        requires value { hours.value ≡ min (run_value bytes.now 0) (2 ^ 64 - 1) }
        requires start { start + length bytes.now + 16 ≤ usize.MAX }
        ensures answer { result
            ≡ seen_as (shifted start E.refusal) (clock_form behavior bytes.now) }
        ensures placed { IfErr result (E.lies_within (start + length bytes.now)) }
    {
        let end = hours_end::<E>(bytes, hours.length, start)?;
        if hours.value > HOURS_MAX {
            return Err(E::refuse_at(ParseError::DurationHourValueTooLarge, start));
        }
        Self::after_hours(
            &bytes[end + 1..],
            hours.value as u32,
            start + (end + 1),
            behavior,
        )
    }

    /// Parses what follows the hours of a clock, from its minute on, which begins at `start` of the whole
    /// text: all of `rest`.
    #[inline(always)]
    #[tactic(auto, using(crate::proofs::ClockFormLemmas::rest_rules))]
    fn after_hours<E: Refusal>(
        rest: &[u8],
        hours: u32,
        start: usize,
        behavior: Behavior,
    ) -> Result<Self, E>
        requires hours { hours ≤ 2400000000 }
        requires start { start + length rest.now + 16 ≤ usize.MAX }
        ensures answer { result
            ≡ seen_as (shifted start E.refusal) (after_hours behavior hours rest.now) }
        ensures placed { IfErr result (E.lies_within (start + length rest.now)) }
    {
        if !takes_digits(behavior, rest.len(), REST_LENGTH_MAX) {
            return Err(E::refuse_at(ParseError::SecondFractionTooLong, start + REST_LENGTH_MAX));
        }
        if rest.len() < 2 {
            return Err(E::refuse_at(ParseError::TooShort, start + rest.len()));
        }
        let clock = PureTime::minute_front_at::<E>(rest, start, behavior)?;
        if clock.size != rest.len() {
            return Err(E::refuse_at(ParseError::ExtraCharacters, start + clock.size));
        }
        Ok(UnsignedDuration {
            day: hours / 24,
            second: 3600 * (hours % 24) + 60 * u32::from(clock.minute) + u32::from(clock.second),
            microsecond: clock.microsecond,
        })
    }
}

/// Where the hours at the front end, whose digits end at `end`: at the `:` that follows them. They begin at
/// `start` of the whole text.
#[inline(always)]
fn hours_end<E: Refusal>(bytes: &[u8], end: usize, start: usize) -> Result<usize, E>
    requires end { end ≡ run_length bytes.now 0 }
    requires start { start + length bytes.now ≤ usize.MAX }
    ensures answer { result ≡ first_refusal_or (shifted start E.refusal) (hours_table bytes.now)
        (Ok (colon_place bytes.now)) }
    ensures within { IfOk result (λ place. place < length bytes.now) }
    ensures placed { IfErr result (E.lies_within (start + length bytes.now)) }
{
    if bytes.len() < 5 {
        return Err(E::refuse_at(ParseError::TooShort, start + bytes.len()));
    }
    if !has_hours(bytes, end) {
        return Err(hours_refusal(bytes, end, start));
    }
    Ok(end)
}

/// Whether the digits at the front, which end at `end`, are at most ten, and `:` follows them.
#[inline(always)]
#[tactic(auto, using(crate::proofs::ClockFormLemmas::hours_rules))]
fn has_hours(bytes: &[u8], end: usize) -> bool
    requires { end ≡ run_length bytes.now 0 }
    ensures value { result ≡ has_hours bytes.now }
    ensures length { IsTrue result → end ≡ colon_place bytes.now }
    ensures within { IsTrue result → end < length bytes.now }
{
    byte_at(bytes, end) == b':' && end <= HOURS_LENGTH_MAX
}

/// The refusal of a clock that does not begin with hours and a `:`. Its first digits end at `end`.
fn hours_refusal<E: Refusal>(bytes: &[u8], end: usize, start: usize) -> E
    requires end { end ≡ run_length bytes.now 0 }
    requires start { start + length bytes.now ≤ usize.MAX }
    requires long { 5 ≤ length bytes.now }
    requires other { has_hours bytes.now ≡ false }
    ensures refusal { Err result ≡ first_refusal_or (shifted start E.refusal)
        (hours_table bytes.now) (Ok (colon_place bytes.now)) }
    ensures placed { E.lies_within (start + length bytes.now) result }
{
    match first_colon(bytes) {
        None => E::refuse_at(ParseError::InvalidCharHour, start + end),
        Some(place) if place > HOURS_LENGTH_MAX => {
            E::refuse_at(ParseError::DurationHourValueTooLarge, start)
        }
        Some(_) => E::refuse_at(ParseError::InvalidCharHour, start),
    }
}
