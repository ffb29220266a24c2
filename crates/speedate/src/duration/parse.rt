//! Parsers of durations, in each of their forms.

ghost use Rattle.std.specs.Prelude.{◌≡◌, ℕ, IfOk, List};
ghost use Rattle.speedate_base.specs.Config.{time_choices};
ghost use Rattle.speedate_base.specs.Refused.{without_place};
ghost use Rattle.speedate_base.specs.Requirement.{result_map};
ghost use Rattle.speedate_civil.specs.Base.{Behavior, IsoOrder};
ghost use Rattle.speedate.specs.Duration.{duration_numbers, ◌gives◌, duration_answer};
ghost use Rattle.speedate.specs.Duration.{IsGrammarAnswer};
ghost use Rattle.speedate.specs.DurationNumbers.{signed_form};
ghost use Rattle.speedate.specs.IsoAmount.{IsAmountOf};
ghost use Rattle.speedate.specs.IsoForm.{Item};
ghost use Rattle.speedate.specs.IsoOrder.{AreExchanged, IsAnswerInOrder, IsMadeOf};

use super::unsigned::UnsignedDuration;
use super::{DAYS_MAX, Duration};
use speedate_base::config::{IsoOrder, MicrosecondsPrecisionOverflowBehavior, TimeConfig};
use speedate_base::faults::ParseError;
use speedate_base::numbers::sign;
use speedate_base::util::SECONDS_PER_DAY;
use std::str::FromStr;

impl Duration {
    /// Parses a duration from a text: a day, an hour and 42 seconds from `"1 day, 1:00:42"`.
    ///
    /// One `+` or `-` may come first. What follows has one of three forms, chosen in this order, and is
    /// brought into the ranges of the fields last:
    ///
    /// - **ISO 8601**, if it begins with `P`, as `P1Y2DT3H4M5.5S`: components in any order on their
    ///   side of the `T`. A year has 365 days and a month 30. The last component may have a fraction of
    ///   any length, which is rounded to the nearest microsecond.
    /// - **Days**, if it has a `d` or `D` anywhere, or fewer than five bytes, as `2 days, 10:20`; a
    ///   clock may follow, after a comma, a space, both or neither. The form is this library's own.
    /// - **A clock** otherwise, as `24:01:03.5`: up to 2,400,000,000 hours, and after a `:` the minute,
    ///   second and fraction of a time, without an offset. The form is this library's own.
    ///
    /// # Errors
    ///
    /// `TooShort` if nothing follows the sign; then the errors of the form, in each list in the
    /// order of [its table](docs/GRAMMAR.md#durations), which has an example of each. Last come, of
    /// the sums, `DurationValueTooLarge` if the seconds, or then the days, exceed 4,294,967,295,
    /// and `DurationDaysTooLarge` if the days exceed 999,999,999.
    ///
    /// In an ISO 8601 duration the first item with an error, from the left, gives it:
    ///
    /// - `DurationTRepeated` for a second `T`;
    /// - `DurationInvalidNumber` if a component does not begin with a digit;
    /// - `DurationValueTooLarge` if its number exceeds 4,294,967,295;
    /// - `DurationInvalidFraction` if a component before it has a fraction;
    /// - `DurationInvalidDateUnit` before the `T`, or `DurationInvalidTimeUnit` after it, if the number
    ///   is not followed by a designator of that side;
    /// - `DurationValueTooLarge` if the days or the seconds up to it exceed 4,294,967,295;
    /// - `TooShort`, at the end, if there are no components.
    ///
    /// Of days:
    ///
    /// - `DurationInvalidNumber` if it does not begin with a digit;
    /// - `DurationValueTooLarge` if the number exceeds 4,294,967,295;
    /// - `DurationInvalidDays` if no `d` or `D` follows, after at most one space, or if an `a` or `A`
    ///   follows that and does not begin `ay` or `AY`;
    /// - `TooShort` if the clock after it has fewer than five bytes, then the errors of a clock;
    /// - `DurationHourValueTooLarge` if that clock has 24 hours or more.
    ///
    /// In a clock:
    ///
    /// - `InvalidCharHour` if the `:` is missing;
    /// - `DurationHourValueTooLarge` if more than ten bytes come before it;
    /// - `InvalidCharHour` if these are not digits; without any, the hours are 0;
    /// - `DurationHourValueTooLarge` if they exceed 2,400,000,000;
    /// - `SecondFractionTooLong` if more than 12 bytes follow the `:`, and `TooShort` if fewer than two
    ///   do;
    /// - `InvalidCharMinute`, `OutOfRangeMinute`, `InvalidCharSecond`, `OutOfRangeSecond` and
    ///   `SecondFractionMissing`, as for a time;
    /// - `ExtraCharacters` if something follows the clock.
    #[inline(always)]
    pub fn parse_str(text: &str) -> Result<Self, ParseError>
        ensures answer { result
            gives without_place (duration_answer IsoOrder.Lax Behavior.Error text.now) }
    {
        Self::parse_bytes(text.as_bytes())
    }

    /// Parses a duration from bytes: a negative second from `b"-00:00:01"`. The bytes need not be
    /// text. The forms are as in [`Duration::parse_str`].
    ///
    /// # Errors
    ///
    /// Those of [`Duration::parse_str`], in its order.
    #[inline(always)]
    pub fn parse_bytes(bytes: &[u8]) -> Result<Self, ParseError>
        ensures answer { result
            gives without_place (duration_answer IsoOrder.Lax Behavior.Error bytes.now) }
    {
        Self::parse::<0>(
            bytes,
            IsoOrder::Lax,
            MicrosecondsPrecisionOverflowBehavior::Error,
        )
    }

    /// Parses a duration from bytes, by a configuration: a second and 123,456 microseconds from
    /// `b"00:00:01.1234567"` with the behavior `Truncate`. The bytes need not be text. The offset
    /// does not matter.
    ///
    /// The forms are as in [`Duration::parse_str`]. The behavior `Truncate` drops the digits of a
    /// clock's second past the sixth. To an ISO 8601 duration it does not matter: every digit of
    /// its fraction counts.
    ///
    /// With the order `Strict` each component of an ISO 8601 duration comes at most once, in the order
    /// `Y`, `M`, `W`, `D`, and after the `T` `H`, `M`, `S`. What `Strict` accepts has the same value
    /// with `Lax`; days and clocks are parsed alike with both.
    ///
    /// With the order `Lax` two neighbouring components on one side of the `T`, with no decimal mark in
    /// them or before them, can change places: `b"P1DT2H3M"` and `b"P1DT3M2H"` have the same answer.
    ///
    /// # Errors
    ///
    /// Those of [`Duration::parse_str`], in its order, but with `Truncate` not
    /// `SecondFractionTooLong`. With `Strict` a component out of order, or repeated, as in
    /// `b"P1D1Y"`, is `DurationUnitOrder`, which is looked for after a byte that is not a
    /// designator of its side, and before sums that are too large.
    #[inline(always)]
    pub fn parse_bytes_with_config(bytes: &[u8], config: &TimeConfig) -> Result<Self, ParseError>
        ensures answer { result gives without_place (duration_answer
            (time_choices config.now).order (time_choices config.now).behavior bytes.now) }
        ensures grammar { IsGrammarAnswer (time_choices config.now).order
            (time_choices config.now).behavior bytes.now (result_map duration_numbers result) }
        ensures order { IsAnswerInOrder (time_choices config.now).order
            (time_choices config.now).behavior bytes.now (result_map duration_numbers result) }
        ensures amount { IfOk result (λ value. (items : List Item) → IsMadeOf bytes.now items
            → IsAmountOf bytes.now items (duration_numbers value)) }
        ensures exchanged { (other : List ℕ) → (time_choices config.now).order ≡ IsoOrder.Lax
            → AreExchanged bytes.now other
            → result gives without_place (duration_answer (time_choices config.now).order
            (time_choices config.now).behavior other) }
    {
        Self::parse::<0>(
            bytes,
            config.iso_order,
            config.microseconds_precision_overflow_behavior,
        )
    }

    /// Parses a duration, with or without a sign. The order and the behavior are arguments of their own,
    /// and no configuration: the compiler sees a constant argument, but none in a struct.
    ///
    /// `COPY` changes no answer. It gives columns copies of their own: functions as long as these are
    /// inlined only where they have one caller.
    #[inline(always)]
    #[tactic(auto, using(std::proofs::lemmas::List::take_rest))]
    pub(crate) fn parse<const COPY: u8>(
        bytes: &[u8],
        order: IsoOrder,
        behavior: MicrosecondsPrecisionOverflowBehavior,
    ) -> Result<Self, ParseError>
        ensures answer { result gives without_place (duration_answer order behavior bytes.now) }
    {
        let (negative, size) = sign(bytes);
        let rest = &bytes[size..];
        let amount = UnsignedDuration::parse::<ParseError, COPY>(rest, order, size, behavior)?;
        Self::with_sign(!negative, amount)
    }

    /// Puts the sign on an amount, and brings it into its normal form.
    #[inline(always)]
    pub(super) fn with_sign(positive: bool, amount: UnsignedDuration) -> Result<Self, ParseError>
        ensures answer { result gives signed_form positive amount }
    {
        // Most amounts are in their normal form as they are parsed, and need no division.
        if amount.day <= DAYS_MAX
            && amount.second < SECONDS_PER_DAY
            && amount.microsecond <= 999_999
        {
            return Ok(Duration {
                positive,
                day: amount.day,
                second: amount.second,
                microsecond: amount.microsecond,
            });
        }
        Self::new(positive, amount.day, amount.second, amount.microsecond)
    }
}

impl FromStr for Duration {
    type Err = ParseError;

    ghost from_str_gives = { λ text result.
        result gives without_place (duration_answer IsoOrder.Lax Behavior.Error text) };

    /// The answer of [`Duration::parse_str`]: `"PT90M".parse()` gives an hour and a half.
    ///
    /// # Errors
    ///
    /// Those of [`Duration::parse_str`], in its order.
    fn from_str(text: &str) -> Result<Self, ParseError> {
        Self::parse_str(text)
    }
}
