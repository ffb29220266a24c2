//! Where a text that is refused as a date-time has its error.

ghost use Rattle.std.specs.Prelude.{◌≡◌, ◌≤◌, IfErr, IfOk, IfSome, Ok, length};
ghost use Rattle.speedate_base.specs.Config.{choices};
ghost use Rattle.speedate_base.specs.Offset.{IsWholeMinutes};
ghost use Rattle.speedate_base.specs.Refused.{refused_place};
ghost use Rattle.speedate_civil.specs.DateTime.{DateAndTime, date_time_answer};
ghost use Rattle.speedate_civil.specs.DateTime.{date_time_by_config};
ghost use Rattle.speedate_civil.specs.DateTime.{◌gives◌, ◌gives_front◌};
ghost use Rattle.speedate_civil.specs.Form.{DateTimeForm, date_time_by_form, size_or_place};
ghost use Rattle.speedate_civil.specs.Form.{with_length};
ghost use Rattle.speedate_civil.specs.Loose.{loose_answer};
ghost use Rattle.speedate_civil.specs.Strict.{strict_date_time_answer};

use super::DateTime;
use super::loose::{loose_front, loose_whole};
use crate::form::DateTimeForm;
use speedate_base::config::{DateTimeConfig, MicrosecondsPrecisionOverflowBehavior};
use speedate_base::refusal::Refused;

impl DateTime {
    /// The byte at which the error lies for which [`DateTime::parse_bytes_with_config`] refuses a text,
    /// and `None` for a text that it accepts: 17, the second's, for `b"2020-02-29T12:13:60"`.
    ///
    /// It is the place in the row that names the error, of [a date](docs/GRAMMAR.md#date), the
    /// separator, or [a time](docs/GRAMMAR.md#time), which begins at byte 11. For a timestamp it is
    /// 0, except that digits past the microsecond have their own.
    #[tactic(auto, using(speedate_base::proofs::RefusalLemmas::place_rules))]
    #[inline(always)]
    pub fn error_place(bytes: &[u8], config: &DateTimeConfig) -> Option<usize>
        ensures place { result
            ≡ refused_place (date_time_by_config config.now bytes.now) }
        ensures within { IfSome result (λ place. place ≤ length bytes.now) }
    {
        Refused::place_of(Self::whole_or_timestamp(bytes, config))
    }

    /// The byte at which the error lies for which [`DateTime::parse_bytes_strict`] refuses a text, and
    /// `None` for a text that it accepts: 19, the text's end, where an offset is missing, for
    /// `b"2020-02-29T12:13:14"`.
    ///
    /// It is the place in [the row](docs/GRAMMAR.md#rfc-3339-alone) that names the error.
    #[tactic(auto, using(speedate_base::proofs::RefusalLemmas::place_rules))]
    pub fn error_place_strict(
        bytes: &[u8],
        behavior: MicrosecondsPrecisionOverflowBehavior,
    ) -> Option<usize>
        ensures place { result
            ≡ refused_place (strict_date_time_answer behavior bytes.now) }
        ensures within { IfSome result (λ place. place ≤ length bytes.now) }
    {
        Refused::place_of(Self::strict(bytes, behavior))
    }

    /// Parses a date-time in a form, and gives how many bytes it takes; or the error with the place at which it
    /// lies: 12:13 on 29 February 2020, and 16, from `b"2020-02-29T12:13"` with `DateTimeForm::Text`.
    ///
    /// The value is that of [`DateTime::parse_bytes_rfc3339_with_config`], or with `OrTimestamp`, `Strict` or
    /// `Front` that of [`DateTime::parse_bytes_with_config`], [`DateTime::parse_bytes_strict`] or
    /// [`DateTime::parse_front`]. Only timestamps need the unit and the offset of the configuration.
    ///
    /// With `Loose` the value is the same, but its offset may also be
    /// [a zone as programs print it](docs/GRAMMAR.md#zones-that-programs-print): whole hours after a sign, and after
    /// one blank `UTC`, `GMT`, or a sign with hours and minutes. With `LooseFront` such a date-time begins the text:
    /// 06:10 an hour east of UTC, and 25, from `b"2026-11-22 06:10:00 +0100 GET /"`.
    ///
    /// # Errors
    ///
    /// Those of the same calls, each with [its place](docs/GRAMMAR.md#the-place-of-an-error):
    /// `OutOfRangeSecond` and 17 for `b"2020-02-29T12:13:60"`. With `Loose` and `LooseFront` those of
    /// [`DateTime::parse_bytes_rfc3339_with_config`], except `InvalidCharTzHour` and `InvalidCharTzMinute`, since what
    /// is no zone ends the value. It then has `ExtraCharacters`, or `InvalidCharTzSign` if the value has no offset,
    /// with `LooseFront` only if a letter or a digit follows, or what joins a digit to the value. `AM` and `PM` after a
    /// blank have `ExtraCharacters`.
    #[inline(always)]
    pub fn parse_or_place(
        bytes: &[u8],
        form: DateTimeForm,
        config: &DateTimeConfig,
    ) -> Result<(Self, usize), Refused>
        ensures answer { result
            gives_front date_time_by_form form (choices config.now) bytes.now }
        ensures within { IfErr result (λ refused. refused.place ≤ length bytes.now) }
        ensures size { IfOk result (λ front. front.1 ≤ length bytes.now) }
        ensures minutes { (form ≡ DateTimeForm.OrTimestamp
            → IsWholeMinutes (choices config.now).offset)
            → IfOk result (λ front. IsWholeMinutes front.0.time.tz_offset) }
        ensures loosens { form ≡ DateTimeForm.Loose → (value : DateAndTime)
            → date_time_answer (choices config.now).behavior bytes.now ≡ Ok value
            → result gives_front Ok (value, length bytes.now) }
    {
        Self::in_form::<0>(bytes, form, config)
    }

    /// The byte at which [`DateTime::parse_or_place`] has the error of a text, or at which the value ends of a
    /// text that it accepts: 17 for `b"2020-02-29T12:13:60"`, and 16 for `b"2020-02-29T12:13"`. It has a copy of
    /// that parser which is not inlined, for what is done after an error.
    #[cold]
    #[inline(never)]
    pub fn size_or_place(bytes: &[u8], form: DateTimeForm, config: &DateTimeConfig) -> usize
        ensures place { result
            ≡ size_or_place (date_time_by_form form (choices config.now) bytes.now) }
        ensures within { result ≤ length bytes.now }
    {
        match Self::in_form::<1>(bytes, form, config) {
            Ok((_, size)) => size,
            Err(refused) => refused.place,
        }
    }

    /// The copy of [`DateTime::parse_or_place`] for one caller. A function with two is inlined into neither.
    #[inline(always)]
    #[tactic(auto, using(speedate_base::proofs::RefusalLemmas::seen_placed))]
    fn in_form<const COPY: u8>(
        bytes: &[u8],
        form: DateTimeForm,
        config: &DateTimeConfig,
    ) -> Result<(Self, usize), Refused>
        ensures answer { result
            gives_front date_time_by_form form (choices config.now) bytes.now }
        ensures within { IfErr result (λ refused. refused.place ≤ length bytes.now) }
        ensures size { IfOk result (λ front. front.1 ≤ length bytes.now) }
        ensures minutes { (form ≡ DateTimeForm.OrTimestamp
            → IsWholeMinutes (choices config.now).offset)
            → IfOk result (λ front. IsWholeMinutes front.0.time.tz_offset) }
    {
        let behavior = config.time_config.microseconds_precision_overflow_behavior;
        match form {
            DateTimeForm::Loose => return loose_with_length(bytes, behavior),
            DateTimeForm::LooseFront => return loose_front(bytes, behavior),
            _ => {}
        }
        let front = Self::front(bytes, behavior);
        if matches!(form, DateTimeForm::Front) {
            return front;
        }
        let value = match Self::alone(front, bytes) {
            Ok(value) => match form {
                DateTimeForm::Strict => Self::standard(value, bytes)?,
                _ => value,
            },
            Err(refused) => match form {
                DateTimeForm::OrTimestamp => Self::parse_timestamp(bytes, refused, config)?,
                _ => return Err(refused),
            },
        };
        Ok((value, bytes.len()))
    }
}

/// The date-time that a text is with a zone as programs print it, and the size of the text.
fn loose_with_length(
    bytes: &[u8],
    behavior: MicrosecondsPrecisionOverflowBehavior,
) -> Result<(DateTime, usize), Refused>
    ensures answer { result gives_front with_length bytes.now (loose_answer behavior bytes.now) }
    ensures within { IfErr result (λ refused. refused.place ≤ length bytes.now) }
    ensures size { IfOk result (λ front. front.1 ≤ length bytes.now) }
    ensures minutes { IfOk result (λ front. IsWholeMinutes front.0.time.tz_offset) }
{
    match loose_whole(bytes, behavior) {
        Ok(value) => Ok((value, bytes.len())),
        Err(refused) => Err(refused),
    }
}
