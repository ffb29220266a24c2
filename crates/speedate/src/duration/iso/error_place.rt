//! Where the items of an ISO 8601 duration become too many for its normal form.

ghost use Rattle.std.specs.Prelude.{◌≡◌, ◌≤◌, IsOk, length};
ghost use Rattle.speedate.specs.Duration.{iso_form};
ghost use Rattle.speedate.specs.DurationPlace.{amount_numbers, first_item_after};
ghost use Rattle.speedate.specs.IsoForm.{no_sums};
ghost use Rattle.speedate.specs.IsoParts.{bound_test};

use super::Sums;
use crate::duration::unsigned::UnsignedDuration;
use speedate_base::config::IsoOrder;
use speedate_base::refusal::Refused;
use speedate_base::util::SECONDS_PER_DAY;

/// What the sums of a duration keep to in its normal form.
#[derive(Clone, Copy)]
pub(in crate::duration) enum Bound {
    /// The seconds are counted in 32 bits.
    Seconds,
    /// The days are at most a number.
    Days(u32),
}

impl Bound {
    /// Whether an amount keeps to it, with what is carried into its seconds and days.
    pub(in crate::duration) fn holds(self, amount: UnsignedDuration) -> bool
        ensures { result ≡ bound_test self (amount_numbers amount) }
    {
        let second = u64::from(amount.second) + u64::from(amount.microsecond / 1_000_000);
        match self {
            Bound::Seconds => second <= u64::from(u32::MAX),
            Bound::Days(largest) => {
                u64::from(amount.day) + second / u64::from(SECONDS_PER_DAY) <= u64::from(largest)
            }
        }
    }
}

/// The place of the first item after which the sums do not keep to a bound, in a text that is accepted; and
/// the text's end if they all keep to it.
pub(in crate::duration) fn first_item(body: &[u8], order: IsoOrder, bound: Bound) -> usize
    requires { IsOk (iso_form order body.now) }
    ensures place { result ≡ first_item_after (bound_test bound) 0 (no_sums order) body.now }
    ensures within { result ≤ length body.now }
{
    let mut sums = Sums::none(order);
    let mut place = 0;
    while place < body.len() {
        let Ok((next, size)) = sums.with_item::<Refused>(&body[place..], place) else {
            break;
        };
        if !bound.holds(next.sum()) {
            break;
        }
        sums = next;
        place += size;
    }
    place
}
