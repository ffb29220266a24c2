//! A scheduler: when a job runs next.

ghost use Rattle.std.specs.Prelude.{◌≡◌, ◌↔◌, ◌*◌, ◌<◌, ◌≤◌, ◌<ℤ◌, ◌≤ℤ◌, IfOk, IfSome, None, Ok, int_lt, option_map, pos, unsigned_abs};
ghost use Rattle.speedate.specs.DateTime.{utc_microsecond, date_and_time};
ghost use Rattle.speedate.specs.Duration.{duration_numbers, signed_amount};
ghost use Rattle.speedate.specs.DurationNumbers.{amount_microseconds};
ghost use Rattle.speedate.specs.Requirement.{result_map};
ghost use Rattle.speedate_uses.specs.Schedule.{IsNextRun, next_count, next_run_answer};

use speedate::{DateTime, Duration, ParseError};

/// The next run of a job that last ran at `last` and runs every so often: the first that is later than
/// `now`, as a clock at the offset of `last` shows it. Runs that were missed are left out, and where the
/// clock was set back to before `last`, no run comes twice. There is none if `every` is zero or negative.
///
/// `DateTooLarge` where the run is after the year 9999.
#[tactic(auto, using(crate::proofs::ScheduleLemmas::first_run))]
pub fn next_run(
    last: &DateTime,
    every: &Duration,
    now: &DateTime,
) -> Result<Option<DateTime>, ParseError>
    ensures answer { result_map (option_map date_and_time) result ≡ next_run_answer
        (date_and_time last.now) (duration_numbers every.now) (date_and_time now.now) }
    ensures first { IfOk result (λ next. IfSome next (λ run.
        IsNextRun (utc_microsecond (date_and_time last.now))
        (signed_amount (duration_numbers every.now))
        (utc_microsecond (date_and_time now.now)) (utc_microsecond (date_and_time run)))) }
    ensures offset { IfOk result (λ next. IfSome next (λ run.
        run.time.tz_offset ≡ last.now.time.tz_offset)) }
    ensures none { (result ≡ Ok None) ↔ (signed_amount (duration_numbers every.now) ≤ℤ pos 0) }
{
    if !is_positive(every) {
        return Ok(None);
    }
    let wait = next_wait(&Duration::between(last, now), every);
    Ok(Some(wait.after(last)?))
}

fn is_positive(every: &Duration) -> bool
    ensures { result ≡ int_lt (pos 0) (signed_amount (duration_numbers every.now)) }
{
    every.signed_total_microseconds() > 0
}

/// How long after its last run a job runs next, where so much time has gone by since: the first whole
/// number of times `every` that is longer.
fn next_wait(gone: &Duration, every: &Duration) -> Duration
    requires positive { pos 0 <ℤ signed_amount (duration_numbers every.now) }
    requires days { gone.now.day ≤ 3652426 }
    ensures length { let every = amount_microseconds (duration_numbers every.now) in
        signed_amount (duration_numbers result)
        ≡ pos (next_count every (signed_amount (duration_numbers gone.now)) * every) }
{
    let wait = next_multiple(
        gone.signed_total_microseconds(),
        every.signed_total_microseconds(),
    );
    Duration::from_signed_microseconds(wait).unwrap()
}

/// The first positive multiple of `every` that is larger than `gone`.
fn next_multiple(gone: i128, every: i128) -> i128
    requires positive { pos 0 <ℤ every }
    requires gone { unsigned_abs gone < 86400000000000000000 }
    requires every { unsigned_abs every < 86400000000000000000 }
    ensures { result ≡ pos (next_count (unsigned_abs every) gone * unsigned_abs every) }
{
    match (i64::try_from(gone), i64::try_from(every)) {
        (Ok(gone), Ok(every)) => next_short_multiple(gone, every),
        _ => next_long_multiple(gone, every),
    }
}

/// The first positive multiple of `every` that is larger than `gone`, in 64 bits, which are nearly always
/// enough: a division of 128 bits is a call.
fn next_short_multiple(gone: i64, every: i64) -> i128
    requires positive { pos 0 <ℤ every }
    ensures { result ≡ pos (next_count (unsigned_abs every) gone * unsigned_abs every) }
{
    (i128::from(gone.max(0) / every) + 1) * i128::from(every)
}

/// The first positive multiple of `every` that is larger than `gone`.
fn next_long_multiple(gone: i128, every: i128) -> i128
    requires positive { pos 0 <ℤ every }
    requires gone { unsigned_abs gone < 86400000000000000000 }
    requires every { unsigned_abs every < 86400000000000000000 }
    ensures { result ≡ pos (next_count (unsigned_abs every) gone * unsigned_abs every) }
{
    (gone.max(0) / every + 1) * every
}
