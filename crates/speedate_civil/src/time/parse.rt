//! Parsers of times of day: of texts, of strict texts of RFC 3339, and at the front of a text.

ghost use Rattle.std.specs.Prelude.{◌≡◌, ◌≤◌, ◌+◌, ◌↔◌, ℕ, IfErr, IfOk, IfSome, IsOk, Ok, drop, take, length};
ghost use Rattle.speedate_base.specs.Ascii.{HasNoControl};
ghost use Rattle.speedate_base.specs.Config.{time_choices};
ghost use Rattle.speedate_base.specs.Offset.{IsWholeMinutes};
ghost use Rattle.speedate_base.specs.Requirement.{first_place, first_refusal_or, moved, shifted};
ghost use Rattle.speedate_civil.specs.Base.{Behavior};
ghost use Rattle.speedate_civil.specs.Strict.{strict_offset, strict_time, strict_time_answer};
ghost use Rattle.speedate_civil.specs.Strict.{IsFullTime};
ghost use Rattle.speedate_civil.specs.Time.{clock_parts, time_after_clock, time_of_day};
ghost use Rattle.speedate_civil.specs.Time.{TimeOfDay, time_front, time_answer};
ghost use Rattle.speedate_civil.specs.Time.{◌gives◌, ◌gives_front◌};
ghost use Rattle.speedate_base.specs.Refused.{seen_as, without_place};

use super::offset::{end_fault, has_minus_sign, is_utc, parse_offset};
use super::{PureTime, Time};
use speedate_base::config::{MicrosecondsPrecisionOverflowBehavior, TimeConfig};
use speedate_base::faults::ParseError;
use speedate_base::numbers::{byte_at, run_end};
use speedate_base::refusal::Refusal;
use std::str::FromStr;

impl Time {
    /// Parses a time from a text: 12:13:14 and a half, an hour east of UTC, from `"12:13:14.5+01:00"`.
    ///
    /// The form is RFC 3339's full-time, `HH:MM:SS` with an optional fraction and an offset,
    /// relaxed: the second, the offset and the `:` of the offset may be left out, the decimal mark
    /// may be a comma, and the sign of the offset may be U+2212. It is narrower in two ways: a
    /// fraction has at most six digits, and a second 60 is refused.
    ///
    /// # Errors
    ///
    /// In the order of [their tables](docs/GRAMMAR.md#time), which have an example of each:
    ///
    /// - `TooShort` if the text has fewer than five bytes;
    /// - `InvalidCharHour`, `InvalidCharTimeSep` and `InvalidCharMinute`, from the left, for the first
    ///   part that is not two digits, or not a `:`;
    /// - `OutOfRangeHour` if the hour is over 23;
    /// - `OutOfRangeMinute` if the minute is over 59;
    /// - `InvalidCharSecond` if a `:` follows the minute, and two digits do not follow it;
    /// - `OutOfRangeSecond` if the second is over 59;
    /// - `SecondFractionMissing` if no digit follows a decimal mark;
    /// - `SecondFractionTooLong` if more than six digits follow it;
    /// - `InvalidCharTzSign` if what follows the clock does not begin an offset;
    /// - `InvalidCharTzHour` if two digits do not follow the sign of an offset;
    /// - `InvalidCharTzMinute` if an optional `:` and two digits do not follow these;
    /// - `OutOfRangeTzMinute` if the minutes of the offset are over 59;
    /// - `OutOfRangeTz` if the offset is 24 hours or more;
    /// - `ExtraCharacters` if something follows the offset.
    #[inline(always)]
    pub fn parse_str(text: &str) -> Result<Self, ParseError>
        ensures answer { result gives without_place (time_answer Behavior.Error text.now) }
        ensures minutes { IfOk result (λ time. IsWholeMinutes time.tz_offset) }
    {
        Self::parse_bytes(text.as_bytes())
    }

    /// Parses a time from bytes: 12:13:00 from `b"12:13"`. The bytes need not be text. The form is
    /// as in [`Time::parse_str`].
    ///
    /// # Errors
    ///
    /// Those of [`Time::parse_str`], in its order.
    #[inline(always)]
    pub fn parse_bytes(bytes: &[u8]) -> Result<Self, ParseError>
        ensures answer { result gives without_place (time_answer Behavior.Error bytes.now) }
        ensures minutes { IfOk result (λ time. IsWholeMinutes time.tz_offset) }
    {
        Self::parse_whole(bytes, MicrosecondsPrecisionOverflowBehavior::Error)
    }

    /// Parses a time from bytes, by a configuration: 12:13:12.123456 from `b"12:13:12.1234567"`
    /// with the behavior `Truncate`, which drops the digits of a second past the sixth. The bytes
    /// need not be text. The form is as in [`Time::parse_str`]. The offset of the configuration
    /// does not matter.
    ///
    /// # Errors
    ///
    /// Those of [`Time::parse_str`], in its order, but with `Truncate` not `SecondFractionTooLong`.
    #[inline(always)]
    pub fn parse_bytes_with_config(bytes: &[u8], config: &TimeConfig) -> Result<Self, ParseError>
        ensures answer { result
            gives without_place (time_answer (time_choices config.now).behavior bytes.now) }
        ensures minutes { IfOk result (λ time. IsWholeMinutes time.tz_offset) }
    {
        Self::parse_whole(bytes, config.microseconds_precision_overflow_behavior)
    }

    /// Parses a time from bytes that are a full-time of RFC 3339 5.6: 12:13:14 and a half, an hour east
    /// of UTC, from `b"12:13:14.5+01:00"`. The bytes need not be text.
    ///
    /// It accepts the texts of RFC 3339 and no others, with two exceptions: a second 60 is refused,
    /// and the behavior `Error` refuses a fraction of more than six digits. The value is as in
    /// [`Time::parse_bytes_with_config`] with this behavior.
    ///
    /// # Errors
    ///
    /// First those of [`Time::parse_str`], in its order, but with `Truncate` not
    /// `SecondFractionTooLong`. Other texts are refused,
    /// [in this order](docs/GRAMMAR.md#rfc-3339-alone):
    ///
    /// - with `InvalidCharTimeSep`, if there is no second;
    /// - with `InvalidCharTzSign`, if the decimal mark is a comma;
    /// - with `TzRequired`, if there is no offset;
    /// - with `InvalidCharTzSign`, if the sign of the offset is U+2212;
    /// - with `InvalidCharTzMinute`, if no `:` follows the hour of the offset.
    #[inline(always)]
    pub fn parse_bytes_strict(
        bytes: &[u8],
        behavior: MicrosecondsPrecisionOverflowBehavior,
    ) -> Result<Self, ParseError>
        ensures answer { result gives without_place (strict_time_answer behavior bytes.now) }
        ensures standard { IsOk result ↔ IsFullTime behavior bytes.now }
        ensures minutes { IfOk result (λ time. IsWholeMinutes time.tz_offset) }
    {
        Self::strict(bytes, behavior)
    }

    /// Parses the time at the front of a text, whatever follows it, and returns how many bytes it takes:
    /// 12:13:14.5 an hour east of UTC, and 16, from `b"12:13:14.5+01:00 GET /"`.
    ///
    /// Once a byte begins a further part of the time, that part must be valid: two digits after a
    /// `:` that follows the minute, a digit after a decimal mark that follows the second, an offset
    /// from a sign on; `Z` or `z` is an offset too. Any other byte after the clock, or none,
    /// [ends](docs/GRAMMAR.md#at-the-front-of-an-input) a time without an offset.
    ///
    /// # Errors
    ///
    /// Those of [`Time::parse_str`], in its order, except `InvalidCharTzSign` and `ExtraCharacters`;
    /// with `Truncate` there is no `SecondFractionTooLong`.
    #[inline(always)]
    pub fn parse_front(bytes: &[u8], config: &TimeConfig) -> Result<(Self, usize), ParseError>
        ensures answer { result
            gives_front without_place (time_front (time_choices config.now).behavior
            bytes.now) }
        ensures within { IfOk result (λ front. front.1 ≤ length bytes.now) }
        ensures whole { (time : TimeOfDay)
            → (time_answer (time_choices config.now).behavior bytes.now ≡ Ok time)
            ↔ (result gives_front Ok (time, length bytes.now)) }
        ensures alone { IfOk result (λ front.
            time_answer (time_choices config.now).behavior (take front.1 bytes.now)
            ≡ Ok (time_of_day front.0)) }
        ensures no_control { IfOk result (λ front. HasNoControl front.1 bytes.now) }
        ensures minutes { IfOk result (λ front. IsWholeMinutes front.0.tz_offset) }
    {
        Self::front(bytes, config.microseconds_precision_overflow_behavior)
    }

    /// Parses the time that takes all the bytes.
    #[inline(always)]
    #[tactic(auto, using(speedate_base::proofs::RefusalLemmas::seen_then))]
    pub(super) fn parse_whole<E: Refusal>(
        bytes: &[u8],
        behavior: MicrosecondsPrecisionOverflowBehavior,
    ) -> Result<Self, E>
        ensures answer { result gives seen_as E.refusal (time_answer behavior bytes.now) }
        ensures placed { IfErr result (E.lies_within (length bytes.now)) }
        ensures minutes { IfOk result (λ time. IsWholeMinutes time.tz_offset) }
    {
        Self::alone(Self::front::<E>(bytes, behavior), bytes)
    }

    /// The time at the front of a text, if nothing follows it.
    #[inline(always)]
    pub(super) fn alone<E: Refusal>(
        front: Result<(Self, usize), E>,
        bytes: &[u8],
    ) -> Result<Self, E>
        ensures answer { (behavior : Behavior)
            → front gives_front seen_as E.refusal (time_front behavior bytes.now)
            → result gives seen_as E.refusal (time_answer behavior bytes.now) }
        ensures placed { IfOk front (λ front. front.1 ≤ length bytes.now)
            → IfErr front (E.lies_within (length bytes.now))
            → IfErr result (E.lies_within (length bytes.now)) }
        ensures value { IfOk result (λ value. front ≡ Ok (value, length bytes.now)) }
    {
        match front {
            Ok((time, size)) => {
                if size == bytes.len() {
                    Ok(time)
                } else {
                    Err(E::refuse_at(end_fault(time.tz_offset), size))
                }
            }
            Err(refusal) => Err(refusal),
        }
    }

    /// Parses the time at the front of a text, and how many bytes it takes, whatever follows it.
    #[inline(always)]
    pub(super) fn front<E: Refusal>(
        bytes: &[u8],
        behavior: MicrosecondsPrecisionOverflowBehavior,
    ) -> Result<(Self, usize), E>
        ensures answer { result gives_front seen_as E.refusal (time_front behavior bytes.now) }
        ensures placed { IfErr result (E.lies_within (length bytes.now)) }
        ensures within { IfOk result (λ front. front.1 ≤ length bytes.now) }
        ensures minutes { IfOk result (λ front. IsWholeMinutes front.0.tz_offset) }
    {
        Self::front_at(bytes, 0, behavior)
    }

    /// Parses the time at the front of a text, which begins at `start` of the whole, and how many bytes it
    /// takes, whatever follows it.
    #[inline(always)]
    #[tactic(auto, using(speedate_base::proofs::RefusalLemmas::seen_then))]
    pub(crate) fn front_at<E: Refusal>(
        text: &[u8],
        start: usize,
        behavior: MicrosecondsPrecisionOverflowBehavior,
    ) -> Result<(Self, usize), E>
        requires { start + length text.now + 16 ≤ usize.MAX }
        ensures answer { result
            gives_front seen_as (shifted start E.refusal) (time_front behavior text.now) }
        ensures placed { IfErr result (E.lies_within (start + length text.now)) }
        ensures within { IfOk result (λ front. front.1 ≤ length text.now) }
        ensures minutes { IfOk result (λ front. IsWholeMinutes front.0.tz_offset) }
    {
        let clock = PureTime::front_at::<E>(text, start, behavior)?;
        Self::after_clock(clock, text, start)
    }

    /// The time of the clock at the front of a text, which begins at `start` of the whole, and the offset that
    /// follows it, and how many bytes it takes.
    #[inline(always)]
    fn after_clock<E: Refusal>(
        clock: PureTime,
        text: &[u8],
        start: usize,
    ) -> Result<(Self, usize), E>
        requires size { clock.size ≤ length text.now }
        requires start { start + length text.now + 16 ≤ usize.MAX }
        ensures answer { result
            gives_front seen_as (shifted start E.refusal) (time_after_clock text.now
            (clock_parts clock)) }
        ensures placed { IfErr result (E.lies_within (start + length text.now)) }
        ensures within { IfOk result (λ front. front.1 ≤ length text.now) }
        ensures minutes { IfOk result (λ front. IsWholeMinutes front.0.tz_offset) }
    {
        let (tz_offset, offset_size) = parse_offset::<E>(text, clock.size, start + clock.size)?;
        Ok((clock.at_offset(tz_offset), clock.size + offset_size))
    }

    /// Parses the time of RFC 3339 that takes all the bytes.
    #[inline(always)]
    #[tactic(auto, using(speedate_base::proofs::RefusalLemmas::seen_then))]
    pub(super) fn strict<E: Refusal>(
        bytes: &[u8],
        behavior: MicrosecondsPrecisionOverflowBehavior,
    ) -> Result<Self, E>
        ensures answer { result gives seen_as E.refusal (strict_time_answer behavior bytes.now) }
        ensures placed { IfErr result (E.lies_within (length bytes.now)) }
        ensures minutes { IfOk result (λ time. IsWholeMinutes time.tz_offset) }
    {
        let time = Self::parse_whole::<E>(bytes, behavior)?;
        Self::require_strict::<E>(bytes, 0)?;
        Ok(time)
    }

    /// The time that a text is, if the text is one of RFC 3339.
    #[inline(always)]
    pub(super) fn standard<E: Refusal>(time: Self, bytes: &[u8]) -> Result<Self, E>
        ensures answer { (behavior : Behavior)
            → time_answer behavior bytes.now ≡ Ok (time_of_day time)
            → result gives seen_as E.refusal (strict_time_answer behavior bytes.now) }
        ensures placed { (behavior : Behavior)
            → time_answer behavior bytes.now ≡ Ok (time_of_day time)
            → IfErr result (E.lies_within (length bytes.now)) }
        ensures same { IfOk result (λ read. read ≡ time) }
    {
        match Self::require_strict::<E>(bytes, 0) {
            Ok(()) => Ok(time),
            Err(refusal) => Err(refusal),
        }
    }

    /// Refuses a text that is parsed as a time, but is none of RFC 3339. It begins at `start` of the
    /// whole text.
    #[inline(always)]
    pub(crate) fn require_strict<E: Refusal>(text: &[u8], start: usize) -> Result<(), E>
        requires { start + 12 + length text.now ≤ usize.MAX }
        ensures answer { result
            ≡ first_refusal_or (shifted start E.refusal) (strict_time text.now) (Ok tt) }
        ensures placed { (size : ℕ)
            → IfSome (first_place (strict_time text.now)) (λ place. start + place ≤ size)
            → IfErr result (E.lies_within size) }
    {
        if byte_at(text, 5) != b':' {
            return Err(E::refuse_at(ParseError::InvalidCharTimeSep, start + 5));
        }
        match byte_at(text, 8) {
            b',' => Err(E::refuse_at(ParseError::InvalidCharTzSign, start + 8)),
            b'.' => Self::require_strict_offset(text, run_end(text, 9), start),
            _ => Self::require_strict_offset(text, 8, start),
        }
    }

    /// Refuses an offset that is parsed at `place`, but is none of RFC 3339.
    fn require_strict_offset<E: Refusal>(text: &[u8], place: usize, start: usize) -> Result<(), E>
        requires { start + place + 3 ≤ usize.MAX }
        ensures answer { result ≡ first_refusal_or (shifted start E.refusal)
            (moved place (strict_offset (drop place text.now))) (Ok tt) }
        ensures placed { (size : ℕ)
            → IfSome (first_place (moved place (strict_offset (drop place text.now))))
            (λ place. start + place ≤ size)
            → IfErr result (E.lies_within size) }
    {
        if place >= text.len() {
            return Err(E::refuse_at(ParseError::TzRequired, start + place));
        }
        if has_minus_sign(text, place) {
            return Err(E::refuse_at(ParseError::InvalidCharTzSign, start + place));
        }
        if is_utc(text[place]) || byte_at(text, place + 3) == b':' {
            Ok(())
        } else {
            Err(E::refuse_at(ParseError::InvalidCharTzMinute, start + (place + 3)))
        }
    }
}

impl FromStr for Time {
    type Err = ParseError;

    ghost use Rattle.speedate_civil.specs.Time.{time_answer, ◌gives◌};

    ghost from_str_gives = { λ text result.
        result gives without_place (time_answer Behavior.Error text) };

    /// The answer of [`Time::parse_str`]: `"12:13Z".parse()` gives 12:13:00 in UTC.
    ///
    /// # Errors
    ///
    /// Those of [`Time::parse_str`], in its order.
    fn from_str(text: &str) -> Result<Self, ParseError> {
        Self::parse_str(text)
    }
}
