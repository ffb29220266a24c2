//! The form of a duration that begins with days.

ghost use Rattle.std.specs.Prelude.{◌≡◌, ◌-◌, ◌^◌, ◌≤◌, ◌+◌, length, min, Some, None, IfSome, IfErr, IfOk, if◌then◌else◌};
ghost use Rattle.speedate_base.specs.Digits.{run_length, run_value};
ghost use Rattle.speedate_base.specs.Refused.{seen_as};
ghost use Rattle.speedate_base.specs.Requirement.{shifted};
ghost use Rattle.speedate.specs.DayForm.{size_of_one, day_endings, gaps, has_whole_ending};
ghost use Rattle.speedate.specs.DayForm.{IsWholeDays, is_day_letter, days_front};
ghost use Rattle.speedate.specs.DayForm.{after_days, day_form};

use super::unsigned::UnsignedDuration;
use speedate_base::config::MicrosecondsPrecisionOverflowBehavior as Behavior;
use speedate_base::faults::ParseError;
use speedate_base::numbers::{DigitRun, byte_at, digit_run};
use speedate_base::refusal::Refusal;

impl UnsignedDuration {
    /// Parses a duration whose days, the digits at its front, come first, and which begins at `start` of
    /// the whole text: a day and ten hours from `b"1 day, 10:00"`.
    #[inline(always)]
    #[tactic(auto, unfolding(crate::specs::DayForm::day_form), using(crate::proofs::DurationPlaceLemmas::part_rules))]
    pub(super) fn from_days<E: Refusal>(
        bytes: &[u8],
        days: DigitRun,
        start: usize,
        behavior: Behavior,
    ) -> Result<Self, E>
        requires length { days.length ≡ run_length bytes.now 0 }
        requires value { days.value ≡ min (run_value bytes.now 0) (2 ^ 64 - 1) }
        requires start { start + length bytes.now + 16 ≤ usize.MAX }
        ensures answer { result ≡ seen_as (shifted start E.refusal) (day_form behavior bytes.now) }
        ensures placed { IfErr result (E.lies_within (start + length bytes.now)) }
    {
        // Most durations of days end with the letter.
        if let Some(day) = whole_days(bytes, days) {
            return Ok(UnsignedDuration {
                day,
                second: 0,
                microsecond: 0,
            });
        }
        let (days, size) = days_at_front::<E>(bytes, days, start)?;
        Self::after_days(&bytes[size..], days, start + size, behavior)
    }

    /// Parses what follows the days, from `start` of the whole text on, nothing or a clock of fewer than 24
    /// hours, and joins the two.
    #[inline(always)]
    #[tactic(auto, unfolding(crate::specs::DayForm::after_days), using(speedate_base::proofs::RefusalLemmas::seen_then))]
    fn after_days<E: Refusal>(
        rest: &[u8],
        days: u32,
        start: usize,
        behavior: Behavior,
    ) -> Result<Self, E>
        requires { start + length rest.now + 16 ≤ usize.MAX }
        ensures answer { result
            ≡ seen_as (shifted start E.refusal) (after_days behavior days rest.now) }
        ensures placed { IfErr result (E.lies_within (start + length rest.now)) }
    {
        if rest.is_empty() {
            return Ok(UnsignedDuration {
                day: days,
                second: 0,
                microsecond: 0,
            });
        }
        let clock = Self::from_clock::<E>(rest, digit_run(rest), start, behavior)?;
        if clock.day != 0 {
            return Err(E::refuse_at(ParseError::DurationHourValueTooLarge, start));
        }
        Ok(UnsignedDuration { day: days, ..clock })
    }
}

/// The days of a text that is only the digits at its front and the letter of a day.
#[inline(always)]
fn whole_days(bytes: &[u8], days: DigitRun) -> Option<u32>
    requires length { days.length ≡ run_length bytes.now 0 }
    requires value { days.value ≡ min (run_value bytes.now 0) (2 ^ 64 - 1) }
    ensures days { IfSome result (IsWholeDays bytes.now) }
{
    if days.length + 1 != bytes.len() {
        return None;
    }
    if !is_day_letter(bytes[days.length]) || days.length == 0 || days.value > u64::from(u32::MAX) {
        return None;
    }
    Some(days.value as u32)
}

/// How many days the digits at the front are, and how many bytes they take with the word and the gap that
/// follow them. They begin at `start` of the whole text.
#[inline(always)]
fn days_at_front<E: Refusal>(bytes: &[u8], days: DigitRun, start: usize) -> Result<(u32, usize), E>
    requires length { days.length ≡ run_length bytes.now 0 }
    requires value { days.value ≡ min (run_value bytes.now 0) (2 ^ 64 - 1) }
    requires start { start + length bytes.now + 16 ≤ usize.MAX }
    ensures answer { result ≡ seen_as (shifted start E.refusal) (days_front bytes.now) }
    ensures within { IfOk result (λ days. days.1 ≤ length bytes.now) }
    ensures placed { IfErr result (E.lies_within (start + length bytes.now)) }
{
    if days.length == 0 {
        return Err(E::refuse_at(ParseError::DurationInvalidNumber, start));
    }
    if days.value > u64::from(u32::MAX) {
        return Err(E::refuse_at(ParseError::DurationValueTooLarge, start));
    }
    let letter = days.length + usize::from(bytes[days.length..].starts_with(b" "));
    if !is_day_letter(byte_at(bytes, letter)) {
        return Err(E::refuse_at(ParseError::DurationInvalidDays, start + letter));
    }
    let ending = letter + 1;
    let Some(size) = ending_size(&bytes[ending..]) else {
        return Err(E::refuse_at(ParseError::DurationInvalidDays, start + ending));
    };
    let gap = ending + size;
    Ok((days.value as u32, gap + gap_size(&bytes[gap..])))
}

/// Whether a byte is the letter of a day.
#[inline(always)]
pub(super) fn is_day_letter(byte: u8) -> bool
    ensures { result ≡ is_day_letter byte }
{
    byte == b'd' || byte == b'D'
}

/// The length of the longest of `ays`, `ay`, `AYS` and `AY` that begins a text: 0 if no `a` or `A`
/// does. `None` if a word goes on in another way.
#[inline(always)]
fn ending_size(text: &[u8]) -> Option<usize>
    ensures size { result
        ≡ (if has_whole_ending text.now then Some (size_of_one day_endings text.now) else None) }
    ensures within { IfSome result (λ size. size ≤ length text.now) }
{
    match text {
        [b'a', b'y', b's', ..] | [b'A', b'Y', b'S', ..] => Some(3),
        [b'a', b'y', ..] | [b'A', b'Y', ..] => Some(2),
        [b'a' | b'A', ..] => None,
        _ => Some(0),
    }
}

/// How many bytes the comma, the space, or both, between days and a clock have: 0 if a text begins with
/// neither.
#[inline(always)]
fn gap_size(text: &[u8]) -> usize
    ensures size { result ≡ size_of_one gaps text.now }
    ensures within { result ≤ length text.now }
{
    match text {
        [b',', b' ', ..] => 2,
        [b',' | b' ', ..] => 1,
        _ => 0,
    }
}
