//! Where a text that is refused as a date has its error.

ghost use Rattle.std.specs.Prelude.{◌≡◌, ◌≤◌, IfErr, IfOk, IfSome, length};
ghost use Rattle.speedate_base.specs.Refused.{refused_place};
ghost use Rattle.speedate_civil.specs.Form.{date_by_form};
ghost use Rattle.speedate_civil.specs.Date.{date_or_timestamp, ◌gives◌, ◌gives_front◌};

use super::Date;
use crate::form::DateForm;
use speedate_base::config::DateConfig;
use speedate_base::refusal::Refused;

impl Date {
    /// The byte at which the error lies for which [`Date::parse_bytes_with_config`] refuses a text, and
    /// `None` for a text that it accepts: 5, the month's, for `b"2020-13-01"`.
    ///
    /// It is the place in [the row](docs/GRAMMAR.md#date) that names the error; of a timestamp,
    /// which is refused as a whole, it is 0.
    #[tactic(auto, using(speedate_base::proofs::RefusalLemmas::place_rules))]
    pub fn error_place(bytes: &[u8], config: &DateConfig) -> Option<usize>
        ensures place { result ≡ refused_place
            (date_or_timestamp config.now.timestamp_unit bytes.now) }
        ensures within { IfSome result (λ place. place ≤ length bytes.now) }
    {
        Refused::place_of(Self::whole_or_timestamp(bytes, config))
    }

    /// Parses a date in a form, and gives how many bytes it takes; or the error with the place at which it lies:
    /// 29 February 2020 and 10 from `b"2020-02-29"` with `DateForm::Text`.
    ///
    /// The value is that of [`Date::parse_bytes_rfc3339`], or with `OrTimestamp` or `Front` that of
    /// [`Date::parse_bytes_with_config`] or [`Date::parse_front`]. Only timestamps need the configuration.
    ///
    /// # Errors
    ///
    /// Those of the same calls, each with [its place](docs/GRAMMAR.md#the-place-of-an-error): `OutOfRangeMonth`
    /// and 5 for `b"2020-13-01"`.
    #[inline(always)]
    #[tactic(auto, using(speedate_base::proofs::RefusalLemmas::seen_placed))]
    pub fn parse_or_place(
        bytes: &[u8],
        form: DateForm,
        config: &DateConfig,
    ) -> Result<(Self, usize), Refused>
        ensures answer { result
            gives_front date_by_form form config.now.timestamp_unit bytes.now }
        ensures within { IfErr result (λ refused. refused.place ≤ length bytes.now) }
        ensures size { IfOk result (λ front. front.1 ≤ length bytes.now) }
    {
        let front = Self::front(bytes);
        if form == DateForm::Front {
            return front;
        }
        let value = match Self::alone(front, bytes) {
            Ok(value) => value,
            Err(refused) if form == DateForm::OrTimestamp => {
                Self::parse_timestamp(bytes, refused, config)?
            }
            Err(refused) => return Err(refused),
        };
        Ok((value, bytes.len()))
    }
}
