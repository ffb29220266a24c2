//! Times of day without their offsets, at the front of a text.

ghost use Rattle.std.specs.Prelude.{◌≡◌, ◌+◌, ◌≤◌, ◌==◌, ◌||◌, ℕ, IfErr, IfOk, IfSome, IsTrue, Ok, length, drop, codes};
ghost use Rattle.speedate_base.specs.Digits.{run_length, run_digits, fraction_value};
ghost use Rattle.speedate_base.specs.Digits.{two_digit_value, eight_at, fit_length};
ghost use Rattle.speedate_base.specs.Refused.{seen_as, without_place};

use super::Time;
use speedate_base::config::MicrosecondsPrecisionOverflowBehavior as Behavior;
use speedate_base::faults::ParseError;
use speedate_base::numbers::{
    Fraction, LANES, byte_at, digit_pairs, eight_bytes, first_eight, fit_length, is_decimal_mark,
    takes_digits,
};
use speedate_base::refusal::Refusal;
use std::simd::prelude::*;

/// A clock within a longer text: its time of day, without an offset, and how many bytes it takes.
/// [`PureTime::parse`] returns it.
#[derive(Clone, Copy, Debug)]
pub struct PureTime {
    /// The hour, 0 to 23.
    pub hour: u8,
    /// The minute, 0 to 59.
    pub minute: u8,
    /// The second, 0 to 59.
    pub second: u8,
    /// The microsecond, 0 to 999,999.
    pub microsecond: u32,
    /// How many bytes of the text it takes.
    pub size: usize,
    pub ghost hour_in_range: { hour ≤ 23 },
    pub ghost minute_in_range: { minute ≤ 59 },
    pub ghost second_in_range: { second ≤ 59 },
    pub ghost microsecond_in_range: { microsecond ≤ 999999 },
}

/// What follows the minute of a clock: a second and a microsecond, 0 if there are none, and how many
/// bytes the clock takes from its minute on.
#[derive(Clone, Copy)]
struct AfterMinute {
    second: u8,
    microsecond: u32,
    size: usize,
    ghost second_in_range: { second ≤ 59 },
    ghost microsecond_in_range: { microsecond ≤ 999999 },
}

/// The second after the minute of a clock.
#[derive(Clone, Copy)]
enum SecondField {
    /// No `:`, so the second is missing.
    Absent,
    /// A `:`, but not two digits after it.
    Faulty,
    /// A `:` and the two digits of this number.
    Number(u8),
}

impl PureTime {
    ghost use Rattle.std.specs.Option.{ForSome};
    ghost use Rattle.speedate_base.specs.Offset.{IsOffset, IsWholeMinutes};
    ghost use Rattle.speedate_base.specs.Requirement.{first_refusal_or, result_map, shifted};
    ghost use Rattle.speedate_civil.specs.ParserParts.{clock_after, second_of};
    ghost use Rattle.speedate_civil.specs.Time.{clock_front, minute_clock};
    ghost use Rattle.speedate_civil.specs.Time.{minute_front, second_table};
    ghost use Rattle.speedate_civil.specs.Time.{clock_parts, has_decimal_mark, time_of_day};
    ghost use Rattle.speedate_civil.specs.Time.{clock_with_offset};

    /// Parses the clock that begins at `place`, whatever follows it: 12:13:14 and a half, in ten bytes,
    /// from `b"P12:13:14.5Z"` at place 1.
    ///
    /// The errors are as in [`Time::parse_str`](crate::time::Time::parse_str) up to
    /// `SecondFractionTooLong`, which only the behavior `Error` gives.
    #[inline(always)]
    #[tactic(auto, using(std::proofs::lemmas::List::take_rest))]
    pub fn parse(bytes: &[u8], place: usize, behavior: Behavior) -> Result<Self, ParseError>
        requires { place ≤ length bytes.now }
        ensures answer { result_map clock_parts result
            ≡ without_place (clock_front behavior (drop place bytes.now)) }
        ensures within { IfOk result (λ time. place + time.size ≤ length bytes.now) }
    {
        Self::front_at(&bytes[place..], 0, behavior)
    }

    /// Parses the clock at the front of a text, which begins at `start` of the whole, whatever follows it: 12:13:14,
    /// in eight bytes, from `b"12:13:14Z"`.
    ///
    /// The errors are as in [`PureTime::parse`], each with its place in the whole.
    #[inline(always)]
    pub fn front_at<E: Refusal>(text: &[u8], start: usize, behavior: Behavior) -> Result<Self, E>
        requires { start + length text.now + 16 ≤ usize.MAX }
        ensures answer { result_map clock_parts result
            ≡ seen_as (shifted start E.refusal) (clock_front behavior text.now) }
        ensures placed { IfErr result (E.lies_within (start + length text.now)) }
        ensures within { IfOk result (λ time. time.size ≤ length text.now) }
    {
        if text.len() < 5 {
            return Err(E::refuse_at(ParseError::TooShort, start + text.len()));
        }
        let front = eight_bytes(text, 0);
        let fits = fit_length(front, u8x8::from_array(*b"00:00:00"));
        if fits < 5 {
            return match fits {
                0 | 1 => Err(E::refuse_at(ParseError::InvalidCharHour, start)),
                2 => Err(E::refuse_at(ParseError::InvalidCharTimeSep, start + 2)),
                _ => Err(E::refuse_at(ParseError::InvalidCharMinute, start + 3)),
            };
        }
        Self::with_minute(front, fits, text, start, behavior)
    }

    /// What [`PureTime::front_at`] does, for a text of which the first eight bytes are given, and
    /// how many of them fit `00:00:00`: at least the minute's.
    #[inline(always)]
    pub(super) fn with_minute<E: Refusal>(
        front: u8x8,
        fits: usize,
        text: &[u8],
        start: usize,
        behavior: Behavior,
    ) -> Result<Self, E>
        requires front { front ≡ eight_at text.now 0 }
        requires long { 5 ≤ length text.now }
        requires looks { fits ≡ fit_length (codes "00:00:00") front }
        requires minute { 5 ≤ fits }
        requires start { start + length text.now + 16 ≤ usize.MAX }
        ensures answer { result_map clock_parts result
            ≡ seen_as (shifted start E.refusal) (clock_front behavior text.now) }
        ensures placed { IfErr result (E.lies_within (start + length text.now)) }
        ensures within { IfOk result (λ time. time.size ≤ length text.now) }
    {
        let pattern = u8x8::from_array(*b"00:00:00");
        let [hour, _, _, minute, _, _, _, _] = digit_pairs(front, pattern, 5);
        if hour > 23 {
            return Err(E::refuse_at(ParseError::OutOfRangeHour, start));
        }
        if minute > 59 {
            return Err(E::refuse_at(ParseError::OutOfRangeMinute, start + 3));
        }
        let second = SecondField::in_front(front, fits, 3);
        let after = Self::after_minute::<E>(second, text, 3, start + 3, behavior)?;
        Ok(PureTime {
            hour,
            minute,
            second: after.second,
            microsecond: after.microsecond,
            size: 3 + after.size,
        })
    }

    /// The clock at the front of a text that looks like one with its second, if its hour is below 24 and
    /// its fraction has at most six digits.
    #[inline(always)]
    pub(crate) fn of_digits(text: &[u8]) -> Option<Self>
        requires long { 24 ≤ length text.now }
        requires looks { fit_length (codes "00:00:00") (eight_at text.now 0) ≡ 8 }
        requires minute { two_digit_value text.now 3 ≤ 59 }
        requires second { two_digit_value text.now 6 ≤ 59 }
        ensures clock { IfSome result (λ clock. (behavior : Behavior)
            → clock_front behavior text.now ≡ Ok (clock_parts clock)) }
        ensures short { IfSome result (λ clock. clock.size ≤ 15) }
    {
        let form = u8x8::from_array(*b"00:00:00");
        let [hour, _, _, minute, _, _, second, _] = digit_pairs(first_eight(text), form, LANES);
        if hour >= 24 {
            return None;
        }
        if !is_decimal_mark(byte_at(text, 8)) {
            return Some(PureTime {
                hour,
                minute,
                second,
                microsecond: 0,
                size: 8,
            });
        }
        let fraction = Fraction::read_short(text, 9)?;
        Some(PureTime {
            hour,
            minute,
            second,
            microsecond: fraction.microsecond,
            size: 9 + fraction.length,
        })
    }

    /// The same, if no fraction follows its second.
    #[inline(always)]
    pub(crate) fn without_fraction(text: &[u8]) -> Option<Self>
        requires long { 8 ≤ length text.now }
        requires looks { fit_length (codes "00:00:00") (eight_at text.now 0) ≡ 8 }
        requires minute { two_digit_value text.now 3 ≤ 59 }
        requires second { two_digit_value text.now 6 ≤ 59 }
        ensures clock { IfSome result (λ clock. (behavior : Behavior)
            → clock_front behavior text.now ≡ Ok (clock_parts clock)) }
        ensures size { IfSome result (λ clock. clock.size ≡ 8) }
    {
        let form = u8x8::from_array(*b"00:00:00");
        let [hour, _, _, minute, _, _, second, _] = digit_pairs(first_eight(text), form, LANES);
        if hour >= 24 || is_decimal_mark(byte_at(text, 8)) {
            return None;
        }
        Some(PureTime {
            hour,
            minute,
            second,
            microsecond: 0,
            size: 8,
        })
    }

    /// Parses a clock from its minute on, which begins at `place`, whatever follows it; its hour is 0.
    /// It is 13 minutes and 14 seconds, in five bytes, from `b"12:13:14"` at place 3.
    ///
    /// The errors are `InvalidCharMinute`, if two digits do not begin there, and then those of
    /// [`Time::parse_str`](crate::time::Time::parse_str) from `OutOfRangeMinute` to
    /// `SecondFractionTooLong`, which only the behavior `Error` gives.
    #[inline(always)]
    #[tactic(auto, using(std::proofs::lemmas::List::take_rest))]
    pub fn parse_from_minute(
        bytes: &[u8],
        place: usize,
        behavior: Behavior,
    ) -> Result<Self, ParseError>
        requires { place ≤ length bytes.now }
        ensures answer { result_map clock_parts result
            ≡ without_place (minute_front behavior (drop place bytes.now)) }
        ensures within { IfOk result (λ time. place + time.size ≤ length bytes.now) }
    {
        Self::minute_front_at(&bytes[place..], 0, behavior)
    }

    /// Parses the clock, from its minute on, at the front of a text, which begins at `start` of the whole,
    /// whatever follows it; its hour is 0. It is 13 minutes and 14 seconds, in five bytes, from `b"13:14"`.
    ///
    /// The errors are as in [`PureTime::parse_from_minute`].
    #[inline(always)]
    pub fn minute_front_at<E: Refusal>(
        rest: &[u8],
        start: usize,
        behavior: Behavior,
    ) -> Result<Self, E>
        requires { start + length rest.now + 16 ≤ usize.MAX }
        ensures answer { result_map clock_parts result
            ≡ seen_as (shifted start E.refusal) (minute_front behavior rest.now) }
        ensures placed { IfErr result (E.lies_within (start + length rest.now)) }
        ensures within { IfOk result (λ time. time.size ≤ length rest.now) }
    {
        let front = eight_bytes(rest, 0);
        let pattern = u8x8::from_array(*b"00:00:00");
        let fits = fit_length(front, pattern);
        if fits < 2 {
            return Err(E::refuse_at(ParseError::InvalidCharMinute, start));
        }
        let [minute, _, _, _, _, _, _, _] = digit_pairs(front, pattern, 2);
        if minute > 59 {
            return Err(E::refuse_at(ParseError::OutOfRangeMinute, start));
        }
        let second = SecondField::in_front(front, fits, 0);
        let after = Self::after_minute::<E>(second, rest, 0, start, behavior)?;
        Ok(PureTime {
            hour: 0,
            minute,
            second: after.second,
            microsecond: after.microsecond,
            size: after.size,
        })
    }

    /// The time of day with this offset, if there is one.
    #[inline(always)]
    pub(crate) fn at_offset(self, tz_offset: Option<i32>) -> Time
        requires { ForSome tz_offset IsOffset }
        ensures time { time_of_day result ≡ clock_with_offset (clock_parts self) tz_offset }
        ensures minutes { IsWholeMinutes tz_offset → IsWholeMinutes result.tz_offset }
    {
        Time {
            hour: self.hour,
            minute: self.minute,
            second: self.second,
            microsecond: self.microsecond,
            tz_offset,
        }
    }

    /// Tests the range of the second that follows the minute at the front of a text, and parses the
    /// fraction after it. The minute begins at `minute` of the text, and at `start` of the whole.
    #[inline(always)]
    fn after_minute<E: Refusal>(
        second: SecondField,
        bytes: &[u8],
        minute: usize,
        start: usize,
        behavior: Behavior,
    ) -> Result<AfterMinute, E>
        requires start { start + 16 ≤ usize.MAX }
        requires minute { minute + 2 ≤ length bytes.now }
        requires second { second ≡ second_of (drop minute bytes.now) }
        ensures answer { result_map (clock_after (two_digit_value (drop minute bytes.now) 0)) result
            ≡ first_refusal_or (shifted start E.refusal)
            (second_table behavior (drop minute bytes.now))
            (Ok (minute_clock (drop minute bytes.now))) }
        ensures placed { (size : ℕ) → start + length (drop minute bytes.now) ≤ size
            → IfErr result (E.lies_within size) }
        ensures within { IfOk result (λ after. minute + after.size ≤ length bytes.now) }
    {
        let second = match second {
            SecondField::Number(second) => second,
            SecondField::Faulty => return Err(E::refuse_at(
                ParseError::InvalidCharSecond,
                start + 3,
            )),
            SecondField::Absent => {
                return Ok(AfterMinute {
                    second: 0,
                    microsecond: 0,
                    size: 2,
                });
            }
        };
        if second > 59 {
            return Err(E::refuse_at(ParseError::OutOfRangeSecond, start + 3));
        }
        if !Self::has_decimal_mark(&bytes[minute..]) {
            return Ok(AfterMinute {
                second,
                microsecond: 0,
                size: 5,
            });
        }
        let fraction = fraction_after_second(bytes, minute);
        if fraction.length == 0 {
            return Err(E::refuse_at(ParseError::SecondFractionMissing, start + 6));
        }
        if !takes_digits(behavior, fraction.length, 6) {
            return Err(E::refuse_at(ParseError::SecondFractionTooLong, start + 12));
        }
        Ok(AfterMinute {
            second,
            microsecond: fraction.microsecond,
            size: 6 + fraction.length,
        })
    }

    /// Whether a decimal mark, `.` or `,`, follows the second of a time that is given from its minute on.
    fn has_decimal_mark(rest: &[u8]) -> bool
        ensures value { result ≡ has_decimal_mark rest.now }
        ensures there { IsTrue result → 6 ≤ length rest.now }
    {
        is_decimal_mark(byte_at(rest, 5))
    }
}

impl SecondField {
    ghost use Rattle.speedate_civil.specs.ParserParts.{second_of};

    /// The second that follows the minute at place 0 or 3 of the front of a text, whose first `fits`
    /// bytes are as in `00:00:00`: 14 for `b"12:13:14"` and place 3, and none for `b"13Z"` and place 0.
    #[inline(always)]
    fn in_front(front: u8x8, fits: usize, minute: usize) -> Self
        requires fits { fits ≡ fit_length (codes "00:00:00") front }
        requires minute { IsTrue ((minute == 0) || (minute == 3)) }
        requires there { minute + 2 ≤ fits }
        ensures second { result ≡ second_of (drop minute front) }
    {
        match fits - minute {
            5.. => {
                let numbers = digit_pairs(front, u8x8::from_array(*b"00:00:00"), minute + 5);
                SecondField::Number(numbers[minute + 3])
            }
            2 => SecondField::Absent,
            _ => SecondField::Faulty,
        }
    }
}

/// The fraction that follows the decimal mark of a clock whose minute begins at `minute`: three digits
/// that mean 120,000 microseconds for `b"12:13:14.120Z"` at place 3.
#[inline(always)]
fn fraction_after_second(bytes: &[u8], minute: usize) -> Fraction
    requires { minute + 6 ≤ length bytes.now }
    ensures length { result.length ≡ run_length (drop minute bytes.now) 6 }
    ensures microsecond { result.microsecond
        ≡ fraction_value 6 (run_digits (drop minute bytes.now) 6) }
    ensures within { minute + 6 + result.length ≤ length bytes.now }
    ensures small { result.microsecond ≤ 999999 }
{
    Fraction::read(bytes, minute + 6)
}
