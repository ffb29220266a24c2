//! The duration between two values, and the value a duration after another, as C sees them.

ghost use Rattle.std.specs.Prelude.{◌≡◌, neg_ℤ, pos};
ghost use Rattle.std.specs.Option.{option_map};
ghost use Rattle.speedate.specs.Column.{number_of_amount};
ghost use Rattle.speedate.specs.Duration.{amount_answer, date_later, date_time_later};
ghost use Rattle.speedate.specs.Duration.{duration_between, duration_between_dates, negated};
ghost use Rattle.speedate.specs.Duration.{signed_amount, sum_microseconds};
ghost use Rattle.speedate_c.specs.Written.{with_option, with_value, written_answer};
ghost use Rattle.speedate_c.specs.Written.{written_number, written_value};
ghost use Rattle.speedate_c.specs.Code.{value_out_of_range};
ghost use Rattle.speedate_c.specs.Date.{date_of, shown_date};
ghost use Rattle.speedate_c.specs.DateTime.{date_time_of, shown_date_time};
ghost use Rattle.speedate_c.specs.Duration.{duration_of, shown_duration, sum_after};

use crate::code::{SUCCESS, VALUE_OUT_OF_RANGE, line_error_code};
use crate::date::{SpeedateDate, write_date};
use crate::datetime::{SpeedateDateTime, write_date_time};
use crate::duration::{SpeedateDuration, write_duration};
use speedate::{Duration, DurationSum, duration_microseconds};

/// The duration from one date-time to another, by their instants in UTC, as [`Duration::between`]
/// gives it: an hour from 2020-01-01T12:00:00Z to 2020-01-01T12:00:00-01:00.
#[unsafe(no_mangle)]
pub extern "C" fn speedate_duration_between(
    earlier: SpeedateDateTime,
    later: SpeedateDateTime,
    out: &mut SpeedateDuration,
) -> i32
    ensures answer { (result, out.new)
        ≡ with_value (date_time_of earlier) (value_out_of_range, out.old)
        (λ earlier. with_value (date_time_of later) (value_out_of_range, out.old)
        (λ later. written_value (shown_duration (duration_between earlier later)))) }
{
    let earlier = value_or_return!(earlier);
    let later = value_or_return!(later);
    write_duration(Ok(Duration::between(&earlier, &later)), out)
}

/// The date-time a duration later, or earlier if the duration is negative, as [`Duration::after`] gives it:
/// 2020-03-01T00:30:00+01:00 for 2020-02-29T23:30:00+01:00 and an hour. `VALUE_OUT_OF_RANGE` comes before
/// the errors of that call.
#[unsafe(no_mangle)]
pub extern "C" fn speedate_datetime_add(
    value: SpeedateDateTime,
    duration: SpeedateDuration,
    out: &mut SpeedateDateTime,
) -> i32
    ensures answer { (result, out.new)
        ≡ with_value (date_time_of value) (value_out_of_range, out.old)
        (λ value. with_value (duration_of duration) (value_out_of_range, out.old)
        (λ duration. written_answer shown_date_time out.old
        (date_time_later (signed_amount duration) value))) }
{
    let value = value_or_return!(value);
    let duration = value_or_return!(duration);
    write_date_time(duration.after(&value), out)
}

/// The date-time this long before another, or after it if the duration is negative, as
/// [`Duration::before`] gives it: 2020-02-29T23:30:00+01:00 for an hour and
/// 2020-03-01T00:30:00+01:00. `VALUE_OUT_OF_RANGE` comes before the errors of that call.
#[unsafe(no_mangle)]
pub extern "C" fn speedate_duration_before(
    duration: SpeedateDuration,
    start: SpeedateDateTime,
    out: &mut SpeedateDateTime,
) -> i32
    ensures answer { (result, out.new)
        ≡ with_value (duration_of duration) (value_out_of_range, out.old)
        (λ duration. with_value (date_time_of start) (value_out_of_range, out.old)
        (λ start. written_answer shown_date_time out.old
        (date_time_later (neg_ℤ (signed_amount duration)) start))) }
{
    let duration = value_or_return!(duration);
    let start = value_or_return!(start);
    write_date_time(duration.before(&start), out)
}

/// The duration from one date to another, whole days, as [`Duration::between_dates`] gives it: two
/// days from 2020-02-28 to 2020-03-01.
#[unsafe(no_mangle)]
pub extern "C" fn speedate_duration_between_dates(
    earlier: SpeedateDate,
    later: SpeedateDate,
    out: &mut SpeedateDuration,
) -> i32
    ensures answer { (result, out.new) ≡ with_value (date_of earlier) (value_out_of_range, out.old)
        (λ earlier. with_value (date_of later) (value_out_of_range, out.old)
        (λ later. written_value (shown_duration (duration_between_dates earlier later)))) }
{
    let earlier = value_or_return!(earlier);
    let later = value_or_return!(later);
    write_duration(Ok(Duration::between_dates(&earlier, &later)), out)
}

/// The date this many days after another, or before it if the duration is negative, as
/// [`Duration::after_date`] gives it: 2020-03-01 for two days and 2020-02-28. `VALUE_OUT_OF_RANGE`
/// comes before the errors of that call.
#[unsafe(no_mangle)]
pub extern "C" fn speedate_duration_after_date(
    duration: SpeedateDuration,
    start: SpeedateDate,
    out: &mut SpeedateDate,
) -> i32
    ensures answer { (result, out.new)
        ≡ with_value (duration_of duration) (value_out_of_range, out.old)
        (λ duration. with_value (date_of start) (value_out_of_range, out.old)
        (λ start. written_answer shown_date out.old (date_later duration start))) }
{
    let duration = value_or_return!(duration);
    let start = value_or_return!(start);
    write_date(duration.after_date(&start), out)
}

/// The date this many days before another, or after it if the duration is negative, as
/// [`Duration::before_date`] gives it: 2020-02-28 for two days and 2020-03-01. `VALUE_OUT_OF_RANGE`
/// comes before the errors of that call.
#[unsafe(no_mangle)]
pub extern "C" fn speedate_duration_before_date(
    duration: SpeedateDuration,
    start: SpeedateDate,
    out: &mut SpeedateDate,
) -> i32
    ensures answer { (result, out.new)
        ≡ with_value (duration_of duration) (value_out_of_range, out.old)
        (λ duration. with_value (date_of start) (value_out_of_range, out.old)
        (λ start. written_answer shown_date out.old (date_later (negated duration) start))) }
{
    let duration = value_or_return!(duration);
    let start = value_or_return!(start);
    write_date(duration.before_date(&start), out)
}

/// The duration with the other sign, as [`Duration::negated`] gives it: -PT1S for PT1S.
#[unsafe(no_mangle)]
pub extern "C" fn speedate_duration_negate(
    duration: SpeedateDuration,
    out: &mut SpeedateDuration,
) -> i32
    ensures answer { (result, out.new)
        ≡ with_value (duration_of duration) (value_out_of_range, out.old)
        (λ duration. written_value (shown_duration (negated duration))) }
{
    write_of!(duration => *out = SpeedateDuration::from_value(&duration.negated()))
}

/// The duration of a number of microseconds with a sign, as [`Duration::from_signed_microseconds`]
/// gives it: -PT1.5S for -1,500,000.
#[unsafe(no_mangle)]
pub extern "C" fn speedate_duration_from_microseconds(
    microseconds: i64,
    out: &mut SpeedateDuration,
) -> i32
    ensures answer { (result, out.new)
        ≡ written_answer shown_duration out.old (amount_answer microseconds) }
{
    let answer = Duration::from_signed_microseconds(i128::from(microseconds));
    write_duration(answer, out)
}

/// The microseconds of a duration with the sign, as [`duration_microseconds`] returns them: -1,500,000
/// for -PT1.5S.
///
/// `VALUE_OUT_OF_RANGE` if a number of the duration is out of range; `NUMBER_TOO_LARGE` if they are
/// 2^63 or more without the sign.
#[unsafe(no_mangle)]
pub extern "C" fn speedate_duration_microseconds(duration: SpeedateDuration, out: &mut i64) -> i32
    ensures answer { (result, out.new)
        ≡ with_value (duration_of duration) (value_out_of_range, out.old)
        (λ duration. written_number out.old (number_of_amount (signed_amount duration))) }
{
    let duration = value_or_return!(duration);
    match duration_microseconds(&duration) {
        Ok(number) => {
            *out = number;
            SUCCESS
        }
        Err(error) => line_error_code(error),
    }
}

/// The sum of durations, each with its sign, as [`Duration::sum`] gives it: PT1H30M of PT2H and -PT30M, and
/// PT0S of none.
///
/// `VALUE_OUT_OF_RANGE` if a number of one is out of range; then `DurationDaysTooLarge` if the sum has more
/// than 999,999,999 days.
#[unsafe(no_mangle)]
pub extern "C" fn speedate_duration_sum(
    durations: &[SpeedateDuration],
    out: &mut SpeedateDuration,
) -> i32
    ensures answer { (result, out.new)
        ≡ with_option (sum_after (pos 0) durations.now) (value_out_of_range, out.old)
        (λ sum. written_answer shown_duration out.old (amount_answer sum)) }
{
    let Some(sum) = sum_of(durations) else {
        return VALUE_OUT_OF_RANGE;
    };
    write_duration(sum.to_duration(), out)
}

/// The sum of durations, if the numbers of each are in their ranges.
fn sum_of(durations: &[SpeedateDuration]) -> Option<DurationSum>
    ensures sum { option_map sum_microseconds result ≡ sum_after (pos 0) durations.now }
{
    let mut sum = DurationSum::ZERO;
    for duration in durations {
        match duration.to_value() {
            Ok(value) => sum = sum.with(&value),
            Err(_) => return None,
        }
    }
    Some(sum)
}
