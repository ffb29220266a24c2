//! Parsers of dates: of texts of RFC 3339, at the front of a text, and of timestamps.

ghost use Rattle.std.specs.Prelude.{◌≡◌, ◌≤◌, ◌↔◌, true, Err, IfErr, IfOk, IfSome, Ok, OnOk, codes, length, take};
ghost use Rattle.speedate_civil.specs.Base.{TimestampUnit};
ghost use Rattle.speedate_base.specs.Ascii.{HasNoControl};
ghost use Rattle.speedate_base.specs.Digits.{eight_at, fit_length, two_digits_at, two_digit_value};
ghost use Rattle.std.specs.Option.{option_map};
ghost use Rattle.speedate_base.specs.Numbers.{NoNumber, number_answer, whole_number};
ghost use Rattle.speedate_base.specs.Requirement.{or_number};
ghost use Rattle.speedate_civil.specs.Calendar.{Ymd};
ghost use Rattle.speedate_base.specs.Refused.{seen_as, without_place};
ghost use Rattle.speedate_civil.specs.Date.{ymd, date_front, date_answer, date_number_answer};
ghost use Rattle.speedate_civil.specs.Date.{date_or_timestamp};
ghost use Rattle.speedate_civil.specs.Date.{◌gives◌, ◌gives_front◌};
ghost use Rattle.speedate_civil.specs.ParserParts.{may_be_number};

use super::{Date, TEXT_LENGTH, is_day};
use speedate_base::config::DateConfig;
use speedate_base::faults::ParseError;
use speedate_base::numbers::{
    LANES, digit_pairs, first_eight, fit_length, int_parse_bytes, two_digits,
};
use speedate_base::refusal::Refusal;
use std::simd::prelude::*;
use std::str::FromStr;

impl Date {
    /// Parses a date from a text, which may be a timestamp: 2020-02-29 from `"2020-02-29"`, and
    /// 2022-06-07 from `"1654560000"`.
    ///
    /// A text that is not a date but a whole number is the timestamp of a midnight, in seconds if
    /// the number without its sign is at most 20,000,000,000, otherwise in milliseconds.
    ///
    /// # Errors
    ///
    /// For a timestamp the errors of [this table](docs/GRAMMAR.md#timestamps), for any other text
    /// the errors of [a date](docs/GRAMMAR.md#date), in the order of the rows.
    pub fn parse_str(text: &str) -> Result<Self, ParseError>
        ensures answer { result
            gives without_place (date_or_timestamp TimestampUnit.Infer text.now) }
    {
        Self::parse_bytes(text.as_bytes())
    }

    /// Parses a date from bytes, which may be a timestamp: 1970-01-02 from `b"86400"`. The bytes
    /// need not be text. The forms are as in [`Date::parse_str`].
    ///
    /// # Errors
    ///
    /// For a timestamp the errors of [this table](docs/GRAMMAR.md#timestamps), for any other text
    /// the errors of [a date](docs/GRAMMAR.md#date), in the order of the rows.
    pub fn parse_bytes(bytes: &[u8]) -> Result<Self, ParseError>
        ensures answer { result
            gives without_place (date_or_timestamp TimestampUnit.Infer bytes.now) }
    {
        Self::parse_bytes_with_config(bytes, &DateConfig::default())
    }

    /// Parses a date from a text, which may be a timestamp in the unit of the configuration: 2022-01-01
    /// from `"1640995200"` in seconds.
    ///
    /// # Errors
    ///
    /// For a timestamp the errors of [this table](docs/GRAMMAR.md#timestamps), for any other text
    /// the errors of [a date](docs/GRAMMAR.md#date), in the order of the rows.
    pub fn parse_str_with_config(text: &str, config: &DateConfig) -> Result<Self, ParseError>
        ensures answer { result
            gives without_place (date_or_timestamp config.now.timestamp_unit text.now) }
    {
        Self::parse_bytes_with_config(text.as_bytes(), config)
    }

    /// Parses a date from bytes, which may be a timestamp in the unit of the configuration: 1970-01-02
    /// from `b"86400000"` in milliseconds. The bytes need not be text.
    ///
    /// # Errors
    ///
    /// For a timestamp the errors of [this table](docs/GRAMMAR.md#timestamps), for any other text
    /// the errors of [a date](docs/GRAMMAR.md#date), in the order of the rows.
    #[inline(always)]
    pub fn parse_bytes_with_config(bytes: &[u8], config: &DateConfig) -> Result<Self, ParseError>
        ensures answer { result
            gives without_place (date_or_timestamp config.now.timestamp_unit bytes.now) }
    {
        Self::whole_or_timestamp(bytes, config)
    }

    /// Parses a date from a text, and no timestamp: 29 February 2020 from `"2020-02-29"`.
    ///
    /// The form is RFC 3339's full-date, `YYYY-MM-DD`.
    ///
    /// # Errors
    ///
    /// In the order of [their table](docs/GRAMMAR.md#date), which has an example of each:
    ///
    /// - `TooShort` if the text has fewer than ten bytes;
    /// - `InvalidCharYear`, `InvalidCharDateSep`, `InvalidCharMonth`, `InvalidCharDateSep` and
    ///   `InvalidCharDay`, from the left, for the first part that is not digits, or not a `-`;
    /// - `OutOfRangeMonth` if the month is not 1 to 12;
    /// - `OutOfRangeDay` if the month does not have this day;
    /// - `ExtraCharacters` if the text has more than ten bytes.
    pub fn parse_str_rfc3339(text: &str) -> Result<Self, ParseError>
        ensures answer { result gives without_place (date_answer text.now) }
    {
        Self::parse_bytes_rfc3339(text.as_bytes())
    }

    /// Parses a date from bytes, and no timestamp: 29 February 2020 from `b"2020-02-29"`. The bytes
    /// need not be text. The form is as in [`Date::parse_str_rfc3339`].
    ///
    /// # Errors
    ///
    /// Those of [`Date::parse_str_rfc3339`], in its order.
    #[inline]
    pub fn parse_bytes_rfc3339(bytes: &[u8]) -> Result<Self, ParseError>
        ensures answer { result gives without_place (date_answer bytes.now) }
        ensures no_number { OnOk result (number_answer bytes.now ≡ NoNumber) }
    {
        Self::whole(bytes)
    }

    /// Parses the date at the front of a text, whatever follows it, and returns how many bytes it takes,
    /// which is always ten: 22 November 2026 and 10 from `b"2026-11-22 opening balance"`. It parses no
    /// timestamps. [Its end](docs/GRAMMAR.md#at-the-front-of-an-input) is this library's own rule.
    ///
    /// # Errors
    ///
    /// Those of [`Date::parse_str_rfc3339`], in its order, except `ExtraCharacters`.
    #[inline]
    pub fn parse_front(bytes: &[u8]) -> Result<(Self, usize), ParseError>
        ensures answer { result gives_front without_place (date_front bytes.now) }
        ensures within { IfOk result (λ front. front.1 ≤ length bytes.now) }
        ensures whole { (date : Ymd)
            → (date_answer bytes.now ≡ Ok date) ↔ (result gives_front Ok (date, length bytes.now)) }
        ensures alone { IfOk result (λ front. date_answer (take front.1 bytes.now)
            ≡ Ok (ymd front.0)) }
        ensures no_control { IfOk result (λ front. HasNoControl front.1 bytes.now) }
    {
        Self::front(bytes)
    }

    /// Parses the date at the front of a date-time, as [`Date::front`] does. It is a function of its own, so
    /// that the compiler inlines it by its size.
    #[inline]
    pub(crate) fn front_in_date_time<E: Refusal>(bytes: &[u8]) -> Result<(Self, usize), E>
        ensures answer { result gives_front seen_as E.refusal (date_front bytes.now) }
        ensures within { IfOk result (λ front. front.1 ≤ length bytes.now) }
        ensures placed { IfErr result (E.lies_within (length bytes.now)) }
    {
        Self::front(bytes)
    }

    /// Parses the date that takes all the bytes.
    #[inline(always)]
    pub(super) fn whole<E: Refusal>(bytes: &[u8]) -> Result<Self, E>
        ensures answer { result gives seen_as E.refusal (date_answer bytes.now) }
        ensures placed { IfErr result (E.lies_within (length bytes.now)) }
    {
        Self::alone(Self::front::<E>(bytes), bytes)
    }

    /// The date at the front of a text, if nothing follows it.
    #[inline(always)]
    pub(super) fn alone<E: Refusal>(
        front: Result<(Self, usize), E>,
        bytes: &[u8],
    ) -> Result<Self, E>
        ensures answer { front gives_front seen_as E.refusal (date_front bytes.now)
            → result gives seen_as E.refusal (date_answer bytes.now) }
        ensures placed { IfOk front (λ front. front.1 ≤ length bytes.now)
            → IfErr front (E.lies_within (length bytes.now))
            → IfErr result (E.lies_within (length bytes.now)) }
        ensures value { IfOk result (λ value. front ≡ Ok (value, length bytes.now)) }
    {
        match front {
            Ok((date, size)) => {
                if size == bytes.len() {
                    Ok(date)
                } else {
                    Err(E::refuse_at(ParseError::ExtraCharacters, size))
                }
            }
            Err(refusal) => Err(refusal),
        }
    }

    /// Parses the date at the front of a text, and how many bytes it takes, whatever follows it.
    #[inline(always)]
    pub(super) fn front<E: Refusal>(bytes: &[u8]) -> Result<(Self, usize), E>
        ensures answer { result gives_front seen_as E.refusal (date_front bytes.now) }
        ensures within { IfOk result (λ front. front.1 ≤ length bytes.now) }
        ensures placed { IfErr result (E.lies_within (length bytes.now)) }
    {
        if bytes.len() < TEXT_LENGTH {
            return Err(E::refuse_at(ParseError::TooShort, bytes.len()));
        }
        let place = fit_length(first_eight(bytes), u8x8::from_array(*b"0000-00-"));
        if place < LANES {
            return match place {
                0..=3 => Err(E::refuse_at(ParseError::InvalidCharYear, 0)),
                4 | 7 => Err(E::refuse_at(ParseError::InvalidCharDateSep, place)),
                _ => Err(E::refuse_at(ParseError::InvalidCharMonth, 5)),
            };
        }
        Self::with_month(bytes)
    }

    /// Parses the date at the front of a text whose first eight bytes are digits and hyphens as a date has
    /// them, up to its month.
    #[inline(always)]
    pub(crate) fn with_month<E: Refusal>(bytes: &[u8]) -> Result<(Self, usize), E>
        requires long { 10 ≤ length bytes.now }
        requires looks { 8 ≤ fit_length (codes "0000-00-") (eight_at bytes.now 0) }
        ensures answer { result gives_front seen_as E.refusal (date_front bytes.now) }
        ensures within { IfOk result (λ front. front.1 ≤ length bytes.now) }
        ensures placed { IfErr result (E.lies_within (length bytes.now)) }
    {
        let form = u8x8::from_array(*b"0000-00-");
        let [century, _, year, _, _, month, _, _] = digit_pairs(first_eight(bytes), form, LANES);
        let year = 100 * u16::from(century) + u16::from(year);
        let Some(day) = two_digits(bytes, 8) else {
            return Err(E::refuse_at(ParseError::InvalidCharDay, 8));
        };
        if month < 1 || month > 12 {
            return Err(E::refuse_at(ParseError::OutOfRangeMonth, 5));
        }
        if !is_day(year, month, day) {
            return Err(E::refuse_at(ParseError::OutOfRangeDay, 8));
        }
        Ok((Date { year, month, day }, TEXT_LENGTH))
    }

    /// The date at the front of a text whose first ten bytes look like one, if it is in the calendar.
    #[inline(always)]
    pub(crate) fn of_digits(bytes: &[u8]) -> Option<Self>
        requires long { 16 ≤ length bytes.now }
        requires looks { 8 ≤ fit_length (codes "0000-00-") (eight_at bytes.now 0) }
        requires day { two_digits_at bytes.now 8 ≡ true }
        ensures date { IfSome result (λ date. date_front bytes.now ≡ Ok (ymd date, 10)) }
    {
        let form = u8x8::from_array(*b"0000-00-");
        let [century, _, year, _, _, month, _, _] = digit_pairs(first_eight(bytes), form, LANES);
        let year = 100 * u16::from(century) + u16::from(year);
        let day = day_in_digits(bytes);
        if month < 1 || month > 12 {
            return None;
        }
        if is_day(year, month, day) {
            Some(Date { year, month, day })
        } else {
            None
        }
    }

    /// Parses the date, or the timestamp, that takes all the bytes.
    #[inline(always)]
    #[tactic(auto, using(speedate_base::proofs::RefusalLemmas::seen_number))]
    pub(super) fn whole_or_timestamp<E: Refusal>(
        bytes: &[u8],
        config: &DateConfig,
    ) -> Result<Self, E>
        ensures answer { result
            gives seen_as E.refusal (date_or_timestamp config.now.timestamp_unit bytes.now) }
        ensures placed { IfErr result (E.lies_within (length bytes.now)) }
    {
        match Self::whole::<E>(bytes) {
            Ok(date) => Ok(date),
            Err(refusal) => Self::parse_timestamp(bytes, refusal, config),
        }
    }

    /// Parses the timestamp that the bytes are, which are refused so as a date.
    pub(super) fn parse_timestamp<E: Refusal>(
        bytes: &[u8],
        refusal: E,
        config: &DateConfig,
    ) -> Result<Self, E>
        requires refused { seen_as E.refusal (date_answer bytes.now) ≡ Err refusal }
        requires placed { E.lies_within (length bytes.now) refusal }
        ensures answer { result
            gives seen_as E.refusal (date_or_timestamp config.now.timestamp_unit bytes.now) }
        ensures placed { IfErr result (E.lies_within (length bytes.now)) }
    {
        if !may_be_number(refusal.fault()) {
            return Err(refusal);
        }
        match int_parse_bytes(bytes) {
            Some(timestamp) => match Self::from_timestamp(timestamp, true, config) {
                Ok(date) => Ok(date),
                Err(fault) => Err(E::refuse_at(fault, 0)),
            },
            None => Err(refusal),
        }
    }
}

impl FromStr for Date {
    type Err = ParseError;

    ghost from_str_gives = { λ text result.
        result gives without_place (date_or_timestamp TimestampUnit.Infer text) };

    /// The answer of [`Date::parse_str`]: `"2020-02-29".parse()` gives 29 February 2020.
    ///
    /// # Errors
    ///
    /// For a timestamp the errors of [this table](docs/GRAMMAR.md#timestamps), for any other text
    /// the errors of [a date](docs/GRAMMAR.md#date), in the order of the rows.
    fn from_str(text: &str) -> Result<Self, ParseError> {
        Self::parse_str(text)
    }
}

/// The day of the date at the front of a text, whose two bytes are digits.
#[inline(always)]
fn day_in_digits(bytes: &[u8]) -> u8
    requires long { 16 ≤ length bytes.now }
    requires digits { two_digits_at bytes.now 8 ≡ true }
    ensures day { result ≡ two_digit_value bytes.now 8 }
{
    let [day, _, _, _, _, _, _, _] = digit_pairs(first_eight(&bytes[8..]), u8x8::splat(b'0'), 2);
    day
}

/// Whether a text that is refused as a date by this error may be a whole number.
pub(crate) fn may_be_number(fault: ParseError) -> bool
    ensures { result ≡ may_be_number fault }
{
    matches!(
        fault,
        ParseError::TooShort | ParseError::InvalidCharYear | ParseError::InvalidCharDateSep
    )
}
