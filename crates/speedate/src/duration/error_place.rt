//! Where a text that is refused as a duration has its error.

ghost use Rattle.std.specs.Prelude.{◌≡◌, ◌+◌, ◌≤◌, IfErr, IfSome, length};
ghost use Rattle.speedate_base.specs.Config.{time_choices};
ghost use Rattle.speedate_base.specs.Refused.{from_byte, refused_place};
ghost use Rattle.speedate_base.specs.Requirement.{first_place};
ghost use Rattle.speedate.specs.Duration.{◌gives◌, duration_answer, signed_answer};
ghost use Rattle.speedate.specs.DurationNumbers.{normal_rows};
ghost use Rattle.speedate.specs.DurationPlace.{amount_numbers, amount_place};
ghost use Rattle.speedate.specs.IsoParts.{IsIsoRead, bound_test};

use super::iso::{Bound, first_item};
use super::unsigned::UnsignedDuration;
use super::{DAYS_MAX, Duration};
use speedate_base::config::{
    IsoOrder, MicrosecondsPrecisionOverflowBehavior as Behavior, TimeConfig,
};
use speedate_base::numbers::{byte_at, sign};
use speedate_base::refusal::Refused;

impl Duration {
    /// The byte at which the error lies for which [`Duration::parse_bytes_with_config`] refuses a text,
    /// and `None` for a text that it accepts: 4, the unit's, for `b"P1D1Q"`.
    ///
    /// It is the place in [the row](docs/GRAMMAR.md#durations) that names the error.
    pub fn error_place(bytes: &[u8], config: &TimeConfig) -> Option<usize>
        ensures place { result ≡ refused_place (duration_answer
            (time_choices config.now).order (time_choices config.now).behavior bytes.now) }
        ensures within { IfSome result (λ place. place ≤ length bytes.now) }
    {
        duration_error_place(
            bytes,
            config.iso_order,
            config.microseconds_precision_overflow_behavior,
        )
    }

    /// Parses a duration as [`Duration::parse_bytes_with_config`] does, and gives the place of the error too,
    /// as [`Duration::error_place`] does: an hour and a half from `b"PT90M"`.
    ///
    /// # Errors
    ///
    /// Those of [`Duration::parse_bytes_with_config`], each with its place: `DurationInvalidDateUnit` and
    /// 4 for `b"P1D1Q"`.
    #[tactic(auto, using(std::proofs::lemmas::List::take_rest))]
    pub fn parse_or_place(bytes: &[u8], config: &TimeConfig) -> Result<Self, Refused>
        ensures answer { result gives duration_answer
            (time_choices config.now).order (time_choices config.now).behavior bytes.now }
        ensures within { IfErr result (λ refused. refused.place ≤ length bytes.now) }
    {
        let order = config.iso_order;
        Self::placed(
            bytes,
            order,
            config.microseconds_precision_overflow_behavior,
        )
    }

    /// Parses a duration, or refuses the text with the place.
    #[tactic(auto, using(std::proofs::lemmas::List::take_rest))]
    fn placed(bytes: &[u8], order: IsoOrder, behavior: Behavior) -> Result<Self, Refused>
        ensures answer { result gives duration_answer order behavior bytes.now }
        ensures within { IfErr result (λ refused. refused.place ≤ length bytes.now) }
    {
        let (negative, size) = sign(bytes);
        let rest = &bytes[size..];
        let amount = UnsignedDuration::parse::<Refused, 0>(rest, order, size, behavior)?;
        Self::normal_form(rest, order, size, !negative, amount)
    }

    /// Puts the sign on an amount, which was parsed from a text that begins at `start` of the whole, and
    /// brings it into its normal form.
    fn normal_form(
        text: &[u8],
        order: IsoOrder,
        start: usize,
        positive: bool,
        amount: UnsignedDuration,
    ) -> Result<Self, Refused>
        requires read { IsIsoRead order text.now }
        requires room { start + length text.now ≤ usize.MAX }
        ensures answer { result gives from_byte start (signed_answer
            (amount_place order text.now) positive amount) }
        ensures within { IfErr result (λ refused. refused.place ≤ start + length text.now) }
    {
        match Self::with_sign(positive, amount) {
            Ok(duration) => Ok(duration),
            Err(fault) => match normal_error_place(text, order, amount) {
                Some(place) => Err(Refused {
                    fault,
                    place: start + place,
                }),
                None => Err(Refused {
                    fault,
                    place: start,
                }),
            },
        }
    }
}

/// The place of the error for which a text is refused as a duration.
fn duration_error_place(bytes: &[u8], order: IsoOrder, behavior: Behavior) -> Option<usize>
    ensures place { result ≡ refused_place (duration_answer order behavior bytes.now) }
    ensures within { IfSome result (λ place. place ≤ length bytes.now) }
{
    let (_, size) = sign(bytes);
    let rest = &bytes[size..];
    match UnsignedDuration::parse::<Refused, 0>(rest, order, size, behavior) {
        Err(refused) => Some(refused.place),
        Ok(amount) => match normal_error_place(rest, order, amount) {
            Some(place) => Some(size + place),
            None => None,
        },
    }
}

/// The place of the error for which an amount lacks a normal form, in its text after the sign.
fn normal_error_place(text: &[u8], order: IsoOrder, amount: UnsignedDuration) -> Option<usize>
    requires { IsIsoRead order text.now }
    ensures place { result
        ≡ first_place (normal_rows (amount_place order text.now) (amount_numbers amount)) }
    ensures within { IfSome result (λ place. place ≤ length text.now) }
{
    if !Bound::Seconds.holds(amount) {
        return Some(amount_place(text, order, Bound::Seconds));
    }
    if !Bound::Days(u32::MAX).holds(amount) {
        return Some(amount_place(text, order, Bound::Days(u32::MAX)));
    }
    if !Bound::Days(DAYS_MAX).holds(amount) {
        return Some(amount_place(text, order, Bound::Days(DAYS_MAX)));
    }
    None
}

/// The place at which a duration without its sign no longer keeps to a bound: in an ISO 8601
/// duration the first item after which it does not, and otherwise its front.
fn amount_place(text: &[u8], order: IsoOrder, bound: Bound) -> usize
    requires { IsIsoRead order text.now }
    ensures place { result ≡ amount_place order text.now (bound_test bound) }
    ensures within { result ≤ length text.now }
{
    if byte_at(text, 0) != b'P' {
        return 0;
    }
    1 + first_item(&text[1..], order, bound)
}
