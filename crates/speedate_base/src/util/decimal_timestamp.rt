//! Decimal timestamps.

ghost use Rattle.std.specs.Prelude.{◌≡◌, ◌<◌, ◌≤◌, ◌^◌, ◌==◌, ◌*◌, length, IsTrue, IfOk, nat_le};
ghost use Rattle.std.specs.Char.{is_ascii_digit};
ghost use Rattle.std.specs.List.{list_all};
ghost use Rattle.speedate_base.specs.Timestamp.{decimal_row, decimal_instant, unix_row, IsInYears};
ghost use Rattle.speedate_base.specs.Timestamp.{inferred_seconds_max, range_answer, unix_instant};
ghost use Rattle.speedate_base.specs.Digits.{digits_value};
ghost use Rattle.speedate_base.specs.Numbers.{decimal_digits, decimal_value, decimal_scale};
ghost use Rattle.speedate_base.specs.Numbers.{with_sign};
ghost use Rattle.speedate_base.specs.Nearest.{nearest};
ghost use Rattle.speedate_base.specs.Requirement.{result_map};

use super::rounding::{nearest_microseconds, number_to_places};
use super::unix_time::{MICROSECOND, MILLISECOND, SECOND};
use super::{INFERRED_SECONDS_MAX, UnixTime, UnixUnit};
use crate::config::TimestampUnit;
use crate::faults::ParseError;
use crate::numbers::digits::{are_zeros, digits_number};
use crate::numbers::{Decimal, with_sign};

/// This many microseconds before 1970 lie before the year 0000, and this many after it after the year 9999.
const FAR_MICROSECONDS: u64 = 1 << 60;

/// The unit of a decimal timestamp: if it is to be inferred, seconds for `"20000000000.0"` and
/// milliseconds for `"20000000000.1"`.
///
/// An inferred unit is seconds if the decimal without its sign, with all its digits, is at most
/// 20,000,000,000, otherwise milliseconds.
pub fn decimal_unit(decimal: Decimal<'_>, unit: TimestampUnit) -> UnixUnit
    ensures row { unix_row result ≡ decimal_row unit (decimal_value decimal.entry) }
{
    match unit {
        TimestampUnit::Second => SECOND,
        TimestampUnit::Microsecond => MICROSECOND,
        TimestampUnit::Infer if is_inferred_seconds(decimal) => SECOND,
        TimestampUnit::Millisecond | TimestampUnit::Infer => MILLISECOND,
    }
}

/// Whether a decimal timestamp is in seconds if its unit is inferred.
#[tactic(auto, using(crate::proofs::DecimalLemmas::inferred_rules))]
fn is_inferred_seconds(decimal: Decimal<'_>) -> bool
    ensures { result ≡ nat_le (decimal_digits (decimal_value decimal.entry))
        (inferred_seconds_max * decimal_scale (decimal_value decimal.entry)) }
{
    // Ten digits spell less than the bound, and twelve of which the first is not 0 spell more: only
    // eleven digits, or leading zeros, ask for the number.
    if decimal.whole.len() <= 10 {
        return true;
    }
    if decimal.whole.len() >= 12 && decimal.whole[0] != b'0' {
        return false;
    }
    let whole = digits_number(decimal.whole);
    if whole == INFERRED_SECONDS_MAX {
        return are_zeros(decimal.fraction);
    }
    whole < INFERRED_SECONDS_MAX
}

/// The instant of a decimal timestamp, to the nearest microsecond: second -1 and 999,999
/// microseconds for `"-0.0000006"` in seconds. A tie goes to the later microsecond.
///
/// Fails with `DateTooSmall` if that microsecond lies before the year 0000, with `DateTooLarge` if it
/// lies after the year 9999.
pub fn decimal_to_seconds_micros(
    decimal: Decimal<'_>,
    unit: UnixUnit,
) -> Result<UnixTime, ParseError>
    ensures answer { result_map unix_instant result
        ≡ range_answer (decimal_instant (unix_row unit) (decimal_value decimal.entry)) }
    ensures within { IfOk result (λ time. IsInYears (unix_instant time)) }
{
    let whole = digits_number(decimal.whole).saturating_mul(unit.microseconds);
    if whole > FAR_MICROSECONDS {
        return Err(if decimal.negative {
            ParseError::DateTooSmall
        } else {
            ParseError::DateTooLarge
        });
    }
    let size = whole + fraction_microseconds(decimal.fraction, unit, decimal.negative);
    UnixTime::from_microseconds(with_sign(decimal.negative, size)).in_years()
}

/// The microseconds of a fraction of the unit, to the nearest.
#[tactic(auto, using(crate::proofs::NearestLemmas::nearest_filled))]
fn fraction_microseconds(digits: &[u8], unit: UnixUnit, negative: bool) -> u64
    requires { IsTrue (list_all is_ascii_digit digits.now) }
    ensures nearest { with_sign negative result
        ≡ nearest (with_sign negative (digits_value digits.now
        * unit.microseconds)) (10 ^ length digits.now) }
    ensures within { result ≤ 1000000 }
{
    // So few digits are whole microseconds, and need no rounding.
    if digits.len() <= unit.digits {
        return number_to_places(digits, unit.digits);
    }
    nearest_microseconds(digits, unit.microseconds, negative)
}
