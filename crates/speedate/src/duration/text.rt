//! The text of a duration.

ghost use Rattle.std.specs.Prelude.{◌≡◌, ◌≢◌, ◌+◌, ◌++◌, ◌<◌, ◌≤◌, ◌↔◌, length, Some, Result, Ok};
ghost use Rattle.std.specs.Fmt.{decimal};
ghost use Rattle.arrayvec.specs.ArrayString.{array_string_len};
ghost use Rattle.speedate_base.specs.Config.{time_choices};
ghost use Rattle.speedate_base.specs.Digits.{two_digit_text};
ghost use Rattle.speedate.specs.Duration.{counted_text, without_last_zeros, short_fraction_text};
ghost use Rattle.speedate.specs.Duration.{seconds_text, rest_text, duration_text};

use super::Duration;
use arrayvec::ArrayString;
use speedate_civil::text::two_digit_text;
use std::fmt;

/// How many bytes the longest text of a duration has: `-P2739725Y364DT23H59M59.999999S`.
const TEXT_MAX: usize = 31;

/// The days of a year.
const DAYS_PER_YEAR: u32 = 365;

/// Appends a number of at most eight digits, without leading zeros: `120` for 120.
#[inline(always)]
fn push_number<const LENGTH: usize>(number: u32, text: &mut ArrayString<LENGTH>)
    requires few { number < 100000000 }
    requires room { array_string_len text.old + length (decimal number) ≤ LENGTH }
    ensures text { text.new.bytes ≡ text.old.bytes ++ decimal number }
{
    if number < 10_000 {
        push_up_to_four_digits(number, text);
    } else {
        push_up_to_four_digits(number / 10_000, text);
        text.push_str(two_digit_text((number / 100 % 100) as u8));
        text.push_str(two_digit_text((number % 100) as u8));
    }
}

/// Appends a number of at most four digits, without leading zeros.
#[inline(always)]
fn push_up_to_four_digits<const LENGTH: usize>(number: u32, text: &mut ArrayString<LENGTH>)
    requires few { number < 10000 }
    requires room { array_string_len text.old + length (decimal number) ≤ LENGTH }
    ensures text { text.new.bytes ≡ text.old.bytes ++ decimal number }
{
    if number < 100 {
        push_up_to_two_digits(number as u8, text);
    } else {
        push_up_to_two_digits((number / 100) as u8, text);
        text.push_str(two_digit_text((number % 100) as u8));
    }
}

/// Appends a number of one digit or two, without leading zeros.
#[inline(always)]
fn push_up_to_two_digits<const LENGTH: usize>(number: u8, text: &mut ArrayString<LENGTH>)
    requires few { number < 100 }
    requires room { array_string_len text.old + length (decimal number) ≤ LENGTH }
    ensures text { text.new.bytes ≡ text.old.bytes ++ decimal number }
{
    if number < 10 {
        text.push(char::from(b'0' + number));
    } else {
        text.push_str(two_digit_text(number));
    }
}

/// Appends a number and its unit, or nothing for 0: `7D` for 7.
#[inline(always)]
fn push_counted<const LENGTH: usize>(number: u32, unit: char, text: &mut ArrayString<LENGTH>)
    requires few { number < 100000000 }
    requires ascii { unit < 128 }
    requires room { array_string_len text.old + length (counted_text number unit) ≤ LENGTH }
    ensures text { text.new.bytes ≡ text.old.bytes ++ counted_text number unit }
    ensures length { array_string_len text.new
        ≡ array_string_len text.old + length (counted_text number unit) }
{
    if number != 0 {
        push_number(number, text);
        text.push(unit);
    }
}

/// Appends a point and the digits of a microsecond without the zeros at their end, or nothing for 0:
/// `.5` for 500,000.
#[inline(always)]
fn push_fraction<const LENGTH: usize>(microsecond: u32, text: &mut ArrayString<LENGTH>)
    requires small { microsecond ≤ 999999 }
    requires room { array_string_len text.old + 7 ≤ LENGTH }
    ensures text { text.new.bytes ≡ text.old.bytes ++ short_fraction_text microsecond }
{
    if microsecond == 0 {
        return;
    }
    text.push('.');
    let first = (microsecond / 10_000) as u8;
    let second = (microsecond / 100 % 100) as u8;
    let third = (microsecond % 100) as u8;
    if third != 0 {
        text.push_str(two_digit_text(first));
        text.push_str(two_digit_text(second));
        push_last_places(third, text);
    } else if second != 0 {
        text.push_str(two_digit_text(first));
        push_last_places(second, text);
    } else {
        push_last_places(first, text);
    }
}

/// Appends the last two digits of a fraction, or the first of them if the other is 0: `07` for 7 and
/// `7` for 70.
#[inline(always)]
fn push_last_places<const LENGTH: usize>(number: u8, text: &mut ArrayString<LENGTH>)
    requires some { number ≢ 0 }
    requires small { number < 100 }
    requires room { array_string_len text.old + 2 ≤ LENGTH }
    ensures text { text.new.bytes ≡ text.old.bytes ++ without_last_zeros (two_digit_text number) }
{
    if number % 10 == 0 {
        text.push(char::from(b'0' + number / 10));
    } else {
        text.push_str(two_digit_text(number));
    }
}

/// Appends seconds and microseconds, and nothing for none: `7.5S` for 7 and 500,000.
#[inline(always)]
fn push_seconds<const LENGTH: usize>(second: u32, microsecond: u32, text: &mut ArrayString<LENGTH>)
    requires few { second < 60 }
    requires small { microsecond ≤ 999999 }
    requires room { array_string_len text.old + 10 ≤ LENGTH }
    ensures text { text.new.bytes ≡ text.old.bytes ++ seconds_text second microsecond }
    ensures short { array_string_len text.new ≤ array_string_len text.old + 10 }
{
    if second != 0 || microsecond != 0 {
        push_up_to_two_digits(second as u8, text);
        push_fraction(microsecond, text);
        text.push('S');
    }
}

impl Duration {
    ghost use Rattle.speedate_civil.specs.Base.{TimeConfig};
    ghost use Rattle.speedate_base.specs.Requirement.{result_map};
    ghost use Rattle.speedate.specs.Duration.{duration_numbers, duration_answer, Duration};

    /// The canonical text: `-` if the duration is negative, `P`, the years of 365 days and the days,
    /// and after a `T` the hours, minutes and seconds, each if it is not 0: `-P1Y2DT3H4M5.06S`. The
    /// fraction of a second has no zeros at its end. Zero is `PT0S` or `-PT0S`. The text is not
    /// allocated; `.as_str()` is the text.
    ///
    /// Every configuration parses it as the duration. No other duration has the same text.
    pub fn to_text(&self) -> ArrayString<TEXT_MAX>
        ensures text { result.bytes ≡ duration_text (duration_numbers self.now) }
        ensures reads_back { (config : TimeConfig)
            → duration_answer (time_choices config).order (time_choices config).behavior
            result.bytes ≡ Ok (duration_numbers self.now) }
        ensures canonical { (config : TimeConfig)
            → result_map duration_text
            (duration_answer (time_choices config).order (time_choices config).behavior
            result.bytes) ≡ Ok result.bytes }
        ensures distinct { (other : Duration)
            → (result.bytes ≡ duration_text (duration_numbers other))
            ↔ (duration_numbers self.now ≡ duration_numbers other) }
    {
        let mut text = ArrayString::new();
        self.push_onto(&mut text);
        text
    }

    /// Appends the text of [`Duration::to_text`]: `ok ` becomes `ok P1DT2H`. There must be room for 31
    /// bytes, the longest text, which is a condition on the caller.
    #[inline(always)]
    pub fn push_onto<const LENGTH: usize>(&self, text: &mut ArrayString<LENGTH>)
        requires room { array_string_len text.old + TEXT_MAX ≤ LENGTH }
        ensures text { text.new.bytes
            ≡ text.old.bytes ++ duration_text (duration_numbers self.now) }
        ensures short { array_string_len text.new ≤ array_string_len text.old + TEXT_MAX }
    {
        text.push_str(if self.positive { "P" } else { "-P" });
        push_counted(self.day / DAYS_PER_YEAR, 'Y', text);
        push_counted(self.day % DAYS_PER_YEAR, 'D', text);
        self.push_rest(text);
    }

    /// Appends what follows the days.
    #[inline(always)]
    fn push_rest<const LENGTH: usize>(&self, text: &mut ArrayString<LENGTH>)
        requires room { array_string_len text.old + 17 ≤ LENGTH }
        ensures text { text.new.bytes ≡ text.old.bytes ++ rest_text (duration_numbers self.now) }
        ensures short { array_string_len text.new ≤ array_string_len text.old + 17 }
    {
        if self.second == 0 && self.microsecond == 0 {
            if self.day == 0 {
                text.push_str("T0S");
            }
            return;
        }
        text.push('T');
        push_counted(self.second / 3600, 'H', text);
        push_counted(self.second / 60 % 60, 'M', text);
        push_seconds(self.second % 60, self.microsecond, text);
    }
}

impl fmt::Display for Duration {
    ghost use Rattle.speedate.specs.Duration.{duration_numbers};

    ghost output = { λ duration. Some (duration_text (duration_numbers duration)) };

    ghost styled_output = { λ duration _. Some (duration_text (duration_numbers duration)) };

    fn fmt<W: fmt::Write>(&self, f: &mut fmt::Formatter<W>) -> fmt::Result {
        f.write_str(self.to_text().as_str())
    }
}
