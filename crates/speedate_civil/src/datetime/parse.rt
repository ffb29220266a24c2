//! Parsers of date-times: of texts of RFC 3339, relaxed or strict, at the front of a text, and of
//! timestamps.

ghost use Rattle.std.specs.Prelude.{◌≡◌, ◌+◌, ◌≤◌, ◌↔◌, ◌==◌, ◌||◌, ℕ, Err, IfErr, IfOk, IfSome, IsOk, IsTrue, None, Ok, OnOk, drop, length, slice_index, take};
ghost use Rattle.speedate_base.specs.Ascii.{HasNoControl, capital_t, small_t};
ghost use Rattle.speedate_base.specs.Config.{choices, time_choices};
ghost use Rattle.speedate_base.specs.Numbers.{NoNumber, number_answer};
ghost use Rattle.speedate_base.specs.Offset.{IsWholeMinutes};
ghost use Rattle.speedate_base.specs.Requirement.{first_fault_or, first_place, first_refusal_or};
ghost use Rattle.speedate_base.specs.Requirement.{result_map, shifted, with_size};
ghost use Rattle.speedate_civil.specs.Base.{Behavior, TimestampUnit};
ghost use Rattle.speedate_civil.specs.DateTime.{DateAndTime, date_and_time, date_time_answer};
ghost use Rattle.speedate_civil.specs.DateTime.{date_time_by_config};
ghost use Rattle.speedate_civil.specs.DateTime.{date_time_front};
ghost use Rattle.speedate_civil.specs.DateTime.{date_time_or_timestamp};
ghost use Rattle.speedate_civil.specs.DateTime.{is_separator, separator_table, ◌gives_front◌};
ghost use Rattle.speedate_civil.specs.DateTime.{◌gives◌};
ghost use Rattle.speedate_civil.specs.Strict.{IsDateTime, strict_date_time};
ghost use Rattle.speedate_civil.specs.Strict.{strict_date_time_answer};
ghost use Rattle.speedate_civil.specs.Time.{time_front, time_of_day};
ghost use Rattle.speedate_base.specs.Refused.{first_refused_or, from_byte, seen_as, without_place};

use super::DateTime;
use crate::date::Date;
use crate::time::{Time, end_fault};
use speedate_base::config::{DateTimeConfig, MicrosecondsPrecisionOverflowBehavior, TimeConfig};
use speedate_base::faults::ParseError;
use speedate_base::numbers::byte_at;
use speedate_base::refusal::Refusal;
use std::str::FromStr;

/// The place of the separator, after the ten bytes of a date.
pub(super) const SEPARATOR_PLACE: usize = 10;

/// The place of the time, after the separator.
pub(super) const TIME_PLACE: usize = 11;

impl DateTime {
    /// Parses a date-time from a text, which may be a timestamp: 12:13:14 on 29 February 2020 from
    /// `"2020-02-29T12:13:14"`, and midnight on 7 June 2022 from `"1654560000"`.
    ///
    /// A text that is not a date-time but a number, whole or decimal as `"1654560000.5"`, is a Unix
    /// timestamp: in seconds if the number without its sign is at most 20,000,000,000, otherwise in
    /// milliseconds. At most six digits follow the point of seconds, and three the point of
    /// milliseconds.
    ///
    /// # Errors
    ///
    /// For a timestamp the errors of [this table](docs/GRAMMAR.md#timestamps), in the order of its
    /// rows. For any other text the errors of [a date](docs/GRAMMAR.md#date) except
    /// `ExtraCharacters`, then `InvalidCharDateTimeSep` if no separator follows, then those of
    /// [a time](docs/GRAMMAR.md#time).
    #[inline(always)]
    pub fn parse_str(text: &str) -> Result<Self, ParseError>
        ensures answer { result
            gives without_place (date_time_or_timestamp TimestampUnit.Infer Behavior.Error None
            text.now) }
        ensures minutes { IfOk result (λ value. IsWholeMinutes value.time.tz_offset) }
    {
        Self::parse_bytes(text.as_bytes())
    }

    /// Parses a date-time from bytes, which may be a timestamp: 1970-01-01T00:00:01 from `b"1"`.
    /// The bytes need not be text. The forms are as in [`DateTime::parse_str`].
    ///
    /// # Errors
    ///
    /// Those of [`DateTime::parse_str`], in its order.
    #[inline(always)]
    pub fn parse_bytes(bytes: &[u8]) -> Result<Self, ParseError>
        ensures answer { result
            gives without_place (date_time_or_timestamp TimestampUnit.Infer Behavior.Error None
            bytes.now) }
        ensures minutes { IfOk result (λ value. IsWholeMinutes value.time.tz_offset) }
    {
        Self::parse_bytes_with_config(bytes, &DateTimeConfig::default())
    }

    /// Parses a date-time from a text, which may be a timestamp, by a configuration:
    /// 1970-01-01T00:00:01+01:00 from `"1"` with the offset 3,600.
    ///
    /// The configuration has the unit of timestamps, their offset, which is attached and shifts
    /// nothing, and the behavior for digits past the microsecond. `Truncate` drops them in a text,
    /// but rounds a timestamp to the nearest microsecond. The offset and the unit do not matter to
    /// texts of a date-time.
    ///
    /// # Errors
    ///
    /// Those of [`DateTime::parse_str`], in its order. Only with the behavior `Error` are digits past the
    /// microsecond refused: with `SecondFractionTooLong`, or, in a timestamp of another unit,
    /// `MillisecondFractionTooLong` or `MicrosecondFractionTooLong`.
    #[inline(always)]
    pub fn parse_str_with_config(text: &str, config: &DateTimeConfig) -> Result<Self, ParseError>
        ensures answer { result gives without_place (date_time_by_config config.now text.now) }
        ensures minutes { IsWholeMinutes (choices config.now).offset
            → IfOk result (λ value. IsWholeMinutes value.time.tz_offset) }
    {
        Self::parse_bytes_with_config(text.as_bytes(), config)
    }

    /// Parses a date-time from bytes, which may be a timestamp, by a configuration:
    /// 1970-01-01T00:00:00.001000 from `b"1"` in milliseconds. The bytes need not be text. The
    /// configuration is used as by [`DateTime::parse_str_with_config`].
    ///
    /// # Errors
    ///
    /// Those of [`DateTime::parse_str_with_config`], in its order.
    #[inline(always)]
    pub fn parse_bytes_with_config(
        bytes: &[u8],
        config: &DateTimeConfig,
    ) -> Result<Self, ParseError>
        ensures answer { result gives without_place (date_time_by_config config.now bytes.now) }
        ensures minutes { IsWholeMinutes (choices config.now).offset
            → IfOk result (λ value. IsWholeMinutes value.time.tz_offset) }
    {
        Self::whole_or_timestamp(bytes, config)
    }

    /// Parses a date-time from a text, and no timestamp: 12:13:14 on 29 February 2020 in UTC from
    /// `"2020-02-29T12:13:14Z"`.
    ///
    /// The form is RFC 3339's date-time, [relaxed](docs/GRAMMAR.md#date-time): a date, a separator,
    /// which is `T`, `t`, a space or `_`, and a time.
    ///
    /// # Errors
    ///
    /// In the order in which they are looked for:
    ///
    /// - those of [`Date::parse_str_rfc3339`] except `ExtraCharacters`;
    /// - `InvalidCharDateTimeSep` if no separator follows the date;
    /// - those of [`Time::parse_str`] for what follows the separator.
    #[inline(always)]
    pub fn parse_str_rfc3339(text: &str) -> Result<Self, ParseError>
        ensures answer { result gives without_place (date_time_answer Behavior.Error text.now) }
        ensures minutes { IfOk result (λ value. IsWholeMinutes value.time.tz_offset) }
    {
        Self::parse_bytes_rfc3339(text.as_bytes())
    }

    /// Parses a date-time from bytes, and no timestamp: 12:13 on 1 January 2020 from
    /// `b"2020-01-01_12:13"`. The bytes need not be text. The form is as in
    /// [`DateTime::parse_str_rfc3339`].
    ///
    /// # Errors
    ///
    /// The errors of [a date](docs/GRAMMAR.md#date) except `ExtraCharacters`, then
    /// `InvalidCharDateTimeSep` if no separator follows, then those of
    /// [a time](docs/GRAMMAR.md#time).
    #[inline(always)]
    pub fn parse_bytes_rfc3339(bytes: &[u8]) -> Result<Self, ParseError>
        ensures answer { result gives without_place (date_time_answer Behavior.Error bytes.now) }
        ensures minutes { IfOk result (λ value. IsWholeMinutes value.time.tz_offset) }
        ensures no_number { OnOk result (number_answer bytes.now ≡ NoNumber) }
    {
        Self::parse_bytes_rfc3339_with_config(bytes, &TimeConfig::default())
    }

    /// Parses a date-time from bytes, and no timestamp, by a configuration: 12:13:12.123456 on 1
    /// January 2020 from `b"2020-01-01T12:13:12.1234567"` with the behavior `Truncate`, which drops
    /// the digits of a second past the sixth. The bytes need not be text. The form is as in
    /// [`DateTime::parse_str_rfc3339`]. The offset of the configuration does not matter.
    ///
    /// # Errors
    ///
    /// The errors of [a date](docs/GRAMMAR.md#date) except `ExtraCharacters`, then
    /// `InvalidCharDateTimeSep` if no separator follows, then those of
    /// [a time](docs/GRAMMAR.md#time), where with `Truncate` there is no `SecondFractionTooLong`.
    #[inline(always)]
    pub fn parse_bytes_rfc3339_with_config(
        bytes: &[u8],
        config: &TimeConfig,
    ) -> Result<Self, ParseError>
        ensures answer { result
            gives without_place (date_time_answer (time_choices config.now).behavior
            bytes.now) }
        ensures minutes { IfOk result (λ value. IsWholeMinutes value.time.tz_offset) }
        ensures no_number { OnOk result (number_answer bytes.now ≡ NoNumber) }
    {
        Self::parse_whole(bytes, config.microseconds_precision_overflow_behavior)
    }

    /// Parses a date-time from bytes that are a date-time of RFC 3339 5.6, and no timestamp: 12:13:14 on
    /// 29 February 2020 in UTC from `b"2020-02-29T12:13:14Z"`. The bytes need not be text.
    ///
    /// It accepts the texts of RFC 3339 and no others, with the two exceptions of
    /// [`Time::parse_bytes_strict`]. The value is as in
    /// [`DateTime::parse_bytes_rfc3339_with_config`] with this behavior.
    ///
    /// # Errors
    ///
    /// The errors of [a date](docs/GRAMMAR.md#date) except `ExtraCharacters`, then
    /// `InvalidCharDateTimeSep` if no separator follows, then those of
    /// [a time](docs/GRAMMAR.md#time). A text that has none of these has the errors of
    /// [this table](docs/GRAMMAR.md#rfc-3339-alone), in the order of its rows:
    /// `InvalidCharDateTimeSep` if neither `T` nor `t` parts date and time, then those that
    /// [`Time::parse_bytes_strict`] lists.
    #[inline(always)]
    pub fn parse_bytes_strict(
        bytes: &[u8],
        behavior: MicrosecondsPrecisionOverflowBehavior,
    ) -> Result<Self, ParseError>
        ensures answer { result gives without_place (strict_date_time_answer behavior bytes.now) }
        ensures standard { IsOk result ↔ IsDateTime behavior bytes.now }
        ensures minutes { IfOk result (λ value. IsWholeMinutes value.time.tz_offset) }
    {
        Self::strict(bytes, behavior)
    }

    /// Parses the date-time at the front of a text, whatever follows it, and returns how many bytes it
    /// takes: 12:13:14.5 on 22 November 2026, an hour east of UTC, and 27, from
    /// `b"2026-11-22T12:13:14.5+01:00 GET /"`. It parses no timestamps.
    ///
    /// It [ends](docs/GRAMMAR.md#at-the-front-of-an-input) where [`Time::parse_front`] ends.
    ///
    /// # Errors
    ///
    /// The errors of [a date](docs/GRAMMAR.md#date) except `ExtraCharacters`, then
    /// `InvalidCharDateTimeSep` if no separator follows, then those of
    /// [a time](docs/GRAMMAR.md#time) except `InvalidCharTzSign` and `ExtraCharacters`.
    #[inline(always)]
    pub fn parse_front(bytes: &[u8], config: &TimeConfig) -> Result<(Self, usize), ParseError>
        ensures answer { result
            gives_front without_place (date_time_front (time_choices config.now).behavior
            bytes.now) }
        ensures within { IfOk result (λ front. front.1 ≤ length bytes.now) }
        ensures whole { (value : DateAndTime)
            → (date_time_answer (time_choices config.now).behavior bytes.now ≡ Ok value)
            ↔ (result gives_front Ok (value, length bytes.now)) }
        ensures alone { IfOk result (λ front.
            date_time_answer (time_choices config.now).behavior (take front.1 bytes.now)
            ≡ Ok (date_and_time front.0)) }
        ensures no_control { IfOk result (λ front. HasNoControl front.1 bytes.now) }
        ensures minutes { IfOk result (λ front. IsWholeMinutes front.0.time.tz_offset) }
        ensures no_number { OnOk result (number_answer bytes.now ≡ NoNumber) }
    {
        Self::front(bytes, config.microseconds_precision_overflow_behavior)
    }

    /// Parses the date-time that takes all the bytes.
    #[inline(always)]
    #[tactic(auto, using(speedate_base::proofs::RefusalLemmas::seen_then))]
    pub(super) fn parse_whole<E: Refusal>(
        bytes: &[u8],
        behavior: MicrosecondsPrecisionOverflowBehavior,
    ) -> Result<Self, E>
        ensures answer { result gives seen_as E.refusal (date_time_answer behavior bytes.now) }
        ensures placed { IfErr result (E.lies_within (length bytes.now)) }
        ensures minutes { IfOk result (λ value. IsWholeMinutes value.time.tz_offset) }
        ensures no_number { OnOk result (number_answer bytes.now ≡ NoNumber) }
    {
        Self::alone(Self::front::<E>(bytes, behavior), bytes)
    }

    /// The date-time at the front of a text, if nothing follows it.
    #[inline(always)]
    pub(super) fn alone<E: Refusal>(
        front: Result<(Self, usize), E>,
        bytes: &[u8],
    ) -> Result<Self, E>
        ensures answer { (behavior : Behavior)
            → front gives_front seen_as E.refusal (date_time_front behavior bytes.now)
            → result gives seen_as E.refusal (date_time_answer behavior bytes.now) }
        ensures placed { IfOk front (λ front. front.1 ≤ length bytes.now)
            → IfErr front (E.lies_within (length bytes.now))
            → IfErr result (E.lies_within (length bytes.now)) }
        ensures value { IfOk result (λ value. front ≡ Ok (value, length bytes.now)) }
    {
        match front {
            Ok((value, size)) => {
                if size == bytes.len() {
                    Ok(value)
                } else {
                    Err(E::refuse_at(end_fault(value.time.tz_offset), size))
                }
            }
            Err(refusal) => Err(refusal),
        }
    }

    /// Parses the date-time of RFC 3339 that takes all the bytes.
    #[inline(always)]
    #[tactic(auto, using(speedate_base::proofs::RefusalLemmas::seen_then))]
    pub(super) fn strict<E: Refusal>(
        bytes: &[u8],
        behavior: MicrosecondsPrecisionOverflowBehavior,
    ) -> Result<Self, E>
        ensures answer { result
            gives seen_as E.refusal (strict_date_time_answer behavior bytes.now) }
        ensures placed { IfErr result (E.lies_within (length bytes.now)) }
        ensures minutes { IfOk result (λ value. IsWholeMinutes value.time.tz_offset) }
    {
        let value = Self::parse_whole::<E>(bytes, behavior)?;
        require_strict::<E>(bytes)?;
        Ok(value)
    }

    /// The date-time that a text is, if the text is one of RFC 3339.
    #[inline(always)]
    pub(super) fn standard<E: Refusal>(value: Self, bytes: &[u8]) -> Result<Self, E>
        ensures answer { (behavior : Behavior)
            → date_time_answer behavior bytes.now ≡ Ok (date_and_time value)
            → result gives seen_as E.refusal (strict_date_time_answer behavior bytes.now) }
        ensures placed { (behavior : Behavior)
            → date_time_answer behavior bytes.now ≡ Ok (date_and_time value)
            → IfErr result (E.lies_within (length bytes.now)) }
        ensures same { IfOk result (λ read. read ≡ value) }
    {
        match require_strict::<E>(bytes) {
            Ok(()) => Ok(value),
            Err(refusal) => Err(refusal),
        }
    }

    /// Parses the date-time at the front of a text, and how many bytes it takes, whatever follows it.
    #[inline(always)]
    #[tactic(auto, using(speedate_base::proofs::RefusalLemmas::seen_then))]
    pub(super) fn front<E: Refusal>(
        bytes: &[u8],
        behavior: MicrosecondsPrecisionOverflowBehavior,
    ) -> Result<(Self, usize), E>
        ensures answer { result gives_front seen_as E.refusal (date_time_front behavior bytes.now) }
        ensures placed { IfErr result (E.lies_within (length bytes.now)) }
        ensures within { IfOk result (λ front. front.1 ≤ length bytes.now) }
        ensures minutes { IfOk result (λ front. IsWholeMinutes front.0.time.tz_offset) }
        ensures no_number { OnOk result (number_answer bytes.now ≡ NoNumber) }
    {
        let (date, _) = Date::front_in_date_time::<E>(bytes)?;
        let (time, size) = time_after_date::<E>(bytes, behavior)?;
        Ok((DateTime { date, time }, TIME_PLACE + size))
    }

    /// Parses the date-time, or the timestamp, that takes all the bytes.
    #[inline(always)]
    #[tactic(auto, using(speedate_base::proofs::RefusalLemmas::seen_number))]
    pub(super) fn whole_or_timestamp<E: Refusal>(
        bytes: &[u8],
        config: &DateTimeConfig,
    ) -> Result<Self, E>
        ensures answer { result gives seen_as E.refusal (date_time_by_config config.now bytes.now) }
        ensures placed { IfErr result (E.lies_within (length bytes.now)) }
        ensures minutes { IsWholeMinutes (choices config.now).offset
            → IfOk result (λ value. IsWholeMinutes value.time.tz_offset) }
    {
        let behavior = config.time_config.microseconds_precision_overflow_behavior;
        match Self::parse_whole::<E>(bytes, behavior) {
            Ok(value) => Ok(value),
            Err(refusal) => Self::parse_timestamp(bytes, refusal, config),
        }
    }
}

impl FromStr for DateTime {
    type Err = ParseError;

    ghost from_str_gives = { λ text result.
        result gives without_place
        (date_time_or_timestamp TimestampUnit.Infer Behavior.Error None text) };

    /// The answer of [`DateTime::parse_str`]: `"1654560000".parse()` gives midnight on 7 June 2022.
    ///
    /// # Errors
    ///
    /// Those of [`DateTime::parse_str`], in its order.
    fn from_str(text: &str) -> Result<Self, ParseError> {
        Self::parse_str(text)
    }
}

/// Parses the separator after the date at the front of a text and the time after it, and returns how
/// many bytes the time takes.
#[inline(always)]
fn time_after_date<E: Refusal>(
    bytes: &[u8],
    behavior: MicrosecondsPrecisionOverflowBehavior,
) -> Result<(Time, usize), E>
    requires { 10 ≤ length bytes.now }
    ensures answer { result_map (with_size time_of_day) result
        ≡ seen_as E.refusal (first_refused_or (separator_table bytes.now)
        (from_byte 11 (time_front behavior (drop 11 bytes.now)))) }
    ensures placed { IfErr result (E.lies_within (length bytes.now)) }
    ensures within { IfOk result (λ front. TIME_PLACE + front.1 ≤ length bytes.now) }
    ensures minutes { IfOk result (λ front. IsWholeMinutes front.0.tz_offset) }
{
    if !has_separator(bytes) {
        return Err(E::refuse_at(ParseError::InvalidCharDateTimeSep, SEPARATOR_PLACE));
    }
    Time::front_at(&bytes[TIME_PLACE..], TIME_PLACE, behavior)
}

/// Whether a separator follows the ten bytes of a date: `T`, `t`, a space or `_`.
#[inline(always)]
pub fn has_separator(bytes: &[u8]) -> bool
    ensures value { result ≡ is_separator (slice_index bytes.now 10) }
    ensures there { IsTrue result → 11 ≤ length bytes.now }
{
    let byte = byte_at(bytes, SEPARATOR_PLACE);
    matches!(byte, b'T' | b't' | b' ' | b'_')
}

/// Refuses a text that is parsed as a date-time, but is none of RFC 3339: with `InvalidCharDateTimeSep`
/// for `b"2020-02-29 12:13:14Z"`.
///
/// # Errors
///
/// The errors of [this table](docs/GRAMMAR.md#rfc-3339-alone), in the order of its rows.
#[inline(always)]
pub fn require_standard_date_time(text: &[u8]) -> Result<(), ParseError>
    ensures answer { result ≡ first_fault_or (strict_date_time text.now) (Ok tt) }
{
    require_strict(text)
}

/// What [`require_standard_date_time`] does, with any refusal.
#[inline]
#[tactic(auto, using(std::proofs::lemmas::List::take_rest))]
fn require_strict<E: Refusal>(text: &[u8]) -> Result<(), E>
    ensures answer { result
        ≡ first_refusal_or E.refusal (strict_date_time text.now) (Ok tt) }
    ensures placed { (size : ℕ)
        → IfSome (first_place (strict_date_time text.now)) (λ place. place ≤ size)
        → IfErr result (E.lies_within size) }
{
    if !has_letter_t(text) {
        return Err(E::refuse_at(ParseError::InvalidCharDateTimeSep, SEPARATOR_PLACE));
    }
    Time::require_strict(&text[TIME_PLACE..], TIME_PLACE)
}

/// Whether `T` or `t` follows the ten bytes of a date.
#[inline(always)]
pub(super) fn has_letter_t(text: &[u8]) -> bool
    ensures value { result
        ≡ ((slice_index text.now 10 == capital_t) || (slice_index text.now 10 == small_t)) }
    ensures there { IsTrue result → 11 ≤ length text.now }
{
    let byte = byte_at(text, SEPARATOR_PLACE);
    byte == b'T' || byte == b't'
}
