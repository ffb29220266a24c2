//! Where a text that is refused as a time has its error.

ghost use Rattle.std.specs.Prelude.{◌≡◌, ◌≤◌, IfErr, IfOk, IfSome, length};
ghost use Rattle.speedate_base.specs.Config.{time_choices};
ghost use Rattle.speedate_base.specs.Offset.{IsWholeMinutes};
ghost use Rattle.speedate_base.specs.Refused.{refused_place};
ghost use Rattle.speedate_civil.specs.Form.{time_by_form};
ghost use Rattle.speedate_civil.specs.Time.{time_answer, ◌gives◌, ◌gives_front◌};

use super::Time;
use crate::form::TimeForm;
use speedate_base::config::TimeConfig;
use speedate_base::refusal::Refused;

impl Time {
    /// The byte at which the error lies for which [`Time::parse_bytes_with_config`] refuses a text, and
    /// `None` for a text that it accepts: 6, the second's, for `b"12:13:60"`.
    ///
    /// It is the place in [the row](docs/GRAMMAR.md#time) that names the error.
    #[tactic(auto, using(speedate_base::proofs::RefusalLemmas::place_rules))]
    pub fn error_place(bytes: &[u8], config: &TimeConfig) -> Option<usize>
        ensures place { result
            ≡ refused_place (time_answer (time_choices config.now).behavior bytes.now) }
        ensures within { IfSome result (λ place. place ≤ length bytes.now) }
    {
        let behavior = config.microseconds_precision_overflow_behavior;
        Refused::place_of(Self::parse_whole(bytes, behavior))
    }

    /// Parses a time in a form, and gives how many bytes it takes; or the error with the place at which it lies:
    /// 12:13:00 and 5 from `b"12:13"` with `TimeForm::Text`.
    ///
    /// The value is that of [`Time::parse_bytes_with_config`], or with `Strict` or `Front` that of
    /// [`Time::parse_bytes_strict`] or [`Time::parse_front`].
    ///
    /// # Errors
    ///
    /// Those of the same calls, each with [its place](docs/GRAMMAR.md#the-place-of-an-error):
    /// `OutOfRangeSecond` and 6 for `b"12:13:60"`.
    #[inline(always)]
    #[tactic(auto, using(speedate_base::proofs::RefusalLemmas::seen_placed))]
    pub fn parse_or_place(
        bytes: &[u8],
        form: TimeForm,
        config: &TimeConfig,
    ) -> Result<(Self, usize), Refused>
        ensures answer { result
            gives_front time_by_form form (time_choices config.now) bytes.now }
        ensures within { IfErr result (λ refused. refused.place ≤ length bytes.now) }
        ensures size { IfOk result (λ front. front.1 ≤ length bytes.now) }
        ensures minutes { IfOk result (λ front. IsWholeMinutes front.0.tz_offset) }
    {
        let front = Self::front(bytes, config.microseconds_precision_overflow_behavior);
        let value = match Self::alone(front, bytes) {
            Ok(value) if form == TimeForm::Strict => Self::standard(value, bytes)?,
            Ok(value) => value,
            Err(_) if form == TimeForm::Front => return front,
            Err(refused) => return Err(refused),
        };
        Ok((value, bytes.len()))
    }
}
