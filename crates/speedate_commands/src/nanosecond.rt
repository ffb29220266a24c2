//! Values and durations in print, with the digits of their nanosecond.

ghost use Rattle.std.specs.Prelude.{◌≡◌, ℕ, ◌+◌, ◌-◌, ◌*◌, ◌/◌, ◌^◌, ◌++◌, ◌<◌, ◌≤◌, length};
ghost use Rattle.std.specs.Cmp.Lexicographic.{slice_cmp};
ghost use Rattle.std.specs.Ordering.{nat_cmp, ordering_then};
ghost use Rattle.arrayvec.specs.ArrayVec.{array_vec_len};
ghost use Rattle.speedate.specs.DateTime.{cut_date_time, date_and_time, date_time_instant_order};
ghost use Rattle.speedate.specs.declared.DateTime.{DateTime};
ghost use Rattle.speedate.specs.declared.FractionDigits.{FractionDigits};
ghost use Rattle.speedate_commands.specs.Nanosecond.{apart, date_time_with, digits_needed, distance};
ghost use Rattle.speedate_commands.specs.Nanosecond.{duration_between, microseconds_text};
ghost use Rattle.speedate_commands.specs.Nanosecond.{past_second, nanoseconds_text, with_fraction};
ghost use Rattle.speedate_commands.specs.Nanosecond.{seconds_text, with_nine_digits};

use speedate::{DateTime, Duration, FractionDigits};
use speedate_scan::field::{bytes_after, first_bytes};
use speedate_scan::print::push_nine_digits;
use speedate_stream::{PENDING_MAX, Pending, push_bytes};

/// No date-time in print is longer.
pub const DATE_TIME_MAX: usize = 42;

/// No duration in print is longer.
pub const DURATION_MAX: usize = 41;

/// The nanoseconds of an instant past its second.
pub fn past_second(instant: i128) -> u32
    ensures nanosecond { result ≡ past_second instant }
{
    match i64::try_from(instant) {
        Ok(near) => near.rem_euclid(1_000_000_000) as u32,
        Err(_) => instant.rem_euclid(1_000_000_000) as u32,
    }
}

/// With how many digits a nanosecond is printed that has none of its own: none, six or nine.
pub fn digits_needed(nanosecond: u32) -> usize
    ensures digits { result ≡ digits_needed nanosecond }
    ensures most { result ≤ 9 }
{
    if nanosecond == 0 {
        0
    } else if nanosecond % 1000 == 0 {
        6
    } else {
        9
    }
}

/// Appends a date-time with so many digits after its second, which are those of a nanosecond. With one
/// count of digits, texts of values with one offset, or with none, compare as the values without their
/// fraction, and then as these digits.
#[tactic(auto, unfolding(crate::specs::Nanosecond::date_time_with))]
pub fn push_date_time(count: usize, nanosecond: u32, value: &DateTime, pending: &mut Pending)
    requires most { count ≤ 9 }
    requires room { array_vec_len pending.old + DATE_TIME_MAX ≤ PENDING_MAX }
    ensures pushed { pending.new.items
        ≡ pending.old.items ++ date_time_with count nanosecond (date_and_time value.now) }
    ensures text_order { (other : DateTime) (other_nanosecond : ℕ)
        → value.now.time.tz_offset ≡ other.time.tz_offset → nanosecond < 1000000000
        → other_nanosecond < 1000000000
        → slice_cmp nat_cmp pending.new.items
        (pending.old.items ++ date_time_with count other_nanosecond (date_and_time other))
        ≡ ordering_then
        (date_time_instant_order (cut_date_time FractionDigits.Zero (date_and_time value.now))
        (cut_date_time FractionDigits.Zero (date_and_time other)))
        (nat_cmp (nanosecond / 10 ^ (9 - count)) (other_nanosecond / 10 ^ (9 - count))) }
    ensures length { array_vec_len pending.new ≤ array_vec_len pending.old + DATE_TIME_MAX }
{
    let text = value.to_text_with_digits(FractionDigits::Zero);
    let bytes = text.as_str().as_bytes();
    if count == 0 {
        push_bytes(bytes, pending);
    } else {
        push_with_fraction(bytes, count, nanosecond, pending);
    }
}

/// Appends a date-time in print that has no fraction, with so many digits of a nanosecond after its second.
#[tactic(auto, using(std::proofs::Common::append_assoc))]
fn push_with_fraction(text: &[u8], count: usize, nanosecond: u32, pending: &mut Pending)
    requires most { count ≤ 9 }
    requires short { length text.now ≤ 32 }
    requires room { array_vec_len pending.old + DATE_TIME_MAX ≤ PENDING_MAX }
    ensures pushed { pending.new.items
        ≡ pending.old.items ++ with_fraction text.now count nanosecond }
    ensures length { array_vec_len pending.new ≤ array_vec_len pending.old + DATE_TIME_MAX }
{
    push_bytes(first_bytes(text, 19), pending);
    push_bytes(b".", pending);
    push_nine_digits(count, nanosecond, pending);
    push_bytes(bytes_after(text, 19), pending);
}

/// The nanoseconds from one instant to another: those beyond 128 bits are the nearest that fit them.
pub fn distance(from: i128, to: i128) -> i128
    ensures distance { result ≡ distance from to }
{
    to.saturating_sub(from)
}

/// Appends a duration of so many microseconds: `PT10S`.
#[tactic(auto, unfolding(crate::specs::Nanosecond::microseconds_text))]
fn push_microseconds(amount: u128, pending: &mut Pending)
    requires fits { amount < 1000000000000000000000000000000000000 }
    requires room { array_vec_len pending.old + 31 ≤ PENDING_MAX }
    ensures pushed { pending.new.items ≡ pending.old.items ++ microseconds_text amount }
    ensures length { array_vec_len pending.new ≤ array_vec_len pending.old + 31 }
{
    if let Ok(duration) = Duration::from_signed_microseconds(amount as i128) {
        push_bytes(duration.to_text().as_str().as_bytes(), pending);
    }
}

/// Appends a duration in print that ends with a fraction of six digits, with nine others.
#[tactic(auto, unfolding(crate::specs::Nanosecond::with_nine_digits), using(std::proofs::Common::append_assoc))]
fn push_with_nine_digits(text: &[u8], nanosecond: u32, pending: &mut Pending)
    requires short { length text.now ≤ 31 }
    requires room { array_vec_len pending.old + DURATION_MAX ≤ PENDING_MAX }
    ensures pushed { pending.new.items
        ≡ pending.old.items ++ with_nine_digits text.now nanosecond }
    ensures length { array_vec_len pending.new ≤ array_vec_len pending.old + DURATION_MAX }
{
    push_bytes(first_bytes(text, text.len().saturating_sub(7)), pending);
    push_nine_digits(9, nanosecond, pending);
    push_bytes(b"S", pending);
}

/// Appends a duration of so many seconds and nanoseconds, with nine digits.
fn push_seconds(seconds: u128, nanosecond: u32, pending: &mut Pending)
    requires fits { seconds < 1000000000000000000000000000000 }
    requires room { array_vec_len pending.old + DURATION_MAX ≤ PENDING_MAX }
    ensures pushed { pending.new.items ≡ pending.old.items
        ++ seconds_text seconds nanosecond }
    ensures length { array_vec_len pending.new ≤ array_vec_len pending.old + DURATION_MAX }
{
    if let Ok(duration) = Duration::from_signed_microseconds((1_000_000 * seconds + 1) as i128) {
        push_with_nine_digits(duration.to_text().as_str().as_bytes(), nanosecond, pending);
    }
}

/// Appends a duration of so many nanoseconds, with nine digits if they are no whole microseconds.
#[tactic(auto, unfolding(crate::specs::Nanosecond::nanoseconds_text))]
fn push_nanoseconds(amount: u128, pending: &mut Pending)
    requires room { array_vec_len pending.old + DURATION_MAX ≤ PENDING_MAX }
    ensures pushed { pending.new.items ≡ pending.old.items ++ nanoseconds_text amount }
    ensures length { array_vec_len pending.new ≤ array_vec_len pending.old + DURATION_MAX }
{
    if amount % 1000 == 0 {
        push_microseconds(amount / 1000, pending);
    } else {
        push_seconds(
            amount / 1_000_000_000,
            (amount % 1_000_000_000) as u32,
            pending,
        );
    }
}

/// Appends the duration between two instants: `PT10S`, or `PT0.000000001S`, with nine digits if it is no number of
/// microseconds.
pub fn push_duration_between(first: i128, second: i128, pending: &mut Pending)
    requires room { array_vec_len pending.old + DURATION_MAX ≤ PENDING_MAX }
    ensures pushed { pending.new.items ≡ pending.old.items ++ duration_between first second }
    ensures length { array_vec_len pending.new ≤ array_vec_len pending.old + DURATION_MAX }
{
    push_nanoseconds(first.abs_diff(second), pending);
}
