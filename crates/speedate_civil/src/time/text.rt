//! The text of a time of day.

ghost use Rattle.std.specs.Prelude.{◌≡◌, ◌≤◌, Some, ℕ, ◌+◌, ◌++◌, ◌↔◌, IsTrue, List, Ok, length};
ghost use Rattle.arrayvec.specs.ArrayString.{array_string_len};
ghost use Rattle.speedate_base.specs.Config.{time_choices};
ghost use Rattle.speedate_civil.specs.Base.{TimeConfig};
ghost use Rattle.speedate_base.specs.Offset.{IsWholeMinutes};
ghost use Rattle.speedate_base.specs.Requirement.{result_map};
ghost use Rattle.speedate_civil.specs.Time.{time_of_day, time_answer, time_front, clock_text};
ghost use Rattle.speedate_civil.specs.Time.{time_text, is_after_time, Time};
ghost use Rattle.speedate_civil.specs.Time.{fraction_text_with, time_text_with, cut_time};

use super::offset::push_offset;
use super::{FractionDigits, Time};
use crate::text::{push_six_digits, push_three_digits, two_digit_text};
use arrayvec::ArrayString;
use std::fmt;

/// How many bytes the longest text of a time has.
const TEXT_MAX: usize = 21;

impl Time {
    /// The canonical text, `HH:MM:SS`, then `.` and six digits if the microsecond is not 0, then the
    /// offset if there is one, `Z`, or a sign, hours and minutes: `12:13:14.500000+01:30`. It is not
    /// allocated; `.as_str()` is the text.
    ///
    /// If the offset is absent or whole minutes, the text reads back as the time. At the front of a
    /// text it parses as itself exactly if the next bytes do not continue it: after an offset
    /// anything may follow; without one neither `Z`, `z` nor a sign, nor a decimal mark after the
    /// second, nor a digit after the fraction. Seconds of an offset are not printed.
    pub fn to_text(&self) -> ArrayString<TEXT_MAX>
        ensures text { result.bytes ≡ time_text (time_of_day self.now) }
        ensures reads_back { IsWholeMinutes self.now.tz_offset → (config : TimeConfig)
            → time_answer (time_choices config).behavior result.bytes ≡ Ok (time_of_day self.now) }
        ensures reads_front { IsWholeMinutes self.now.tz_offset
            → (config : TimeConfig) (rest : List ℕ)
            → IsTrue (is_after_time (time_of_day self.now) rest)
            ↔ (time_front (time_choices config).behavior (result.bytes ++ rest)
            ≡ Ok (time_of_day self.now, length result.bytes)) }
        ensures canonical { IsWholeMinutes self.now.tz_offset → (config : TimeConfig)
            → result_map time_text (time_answer (time_choices config).behavior result.bytes)
            ≡ Ok result.bytes }
        ensures distinct { IsWholeMinutes self.now.tz_offset → (other : Time)
            → IsWholeMinutes other.tz_offset
            → (result.bytes ≡ time_text (time_of_day other))
            ↔ (time_of_day self.now ≡ time_of_day other) }
    {
        let mut text = ArrayString::new();
        self.push_onto(&mut text);
        text
    }

    /// Appends the text of [`Time::to_text`]: `at ` becomes `at 12:13:14Z`. There must be room for 21
    /// bytes, the longest text, which is a condition on the caller.
    #[inline(always)]
    pub fn push_onto<const LENGTH: usize>(&self, text: &mut ArrayString<LENGTH>)
        requires room { array_string_len text.old + TEXT_MAX ≤ LENGTH }
        ensures text { text.new.bytes ≡ text.old.bytes ++ time_text (time_of_day self.now) }
        ensures short { array_string_len text.new ≤ array_string_len text.old + TEXT_MAX }
    {
        self.push_clock(text);
        if self.microsecond != 0 {
            text.push('.');
            push_six_digits(self.microsecond, text);
        }
        push_offset(self.tz_offset, text);
    }

    /// The text with a fixed number of digits after the second, rounded down:
    /// `12:13:14.500+01:30` with `FractionDigits::Three`, also where the fraction is 0, as `.000`.
    /// `FractionDigits::Zero` prints no point. The rest is as in [`Time::to_text`].
    ///
    /// If the offset is absent or whole minutes, the text reads back as the time, with its microsecond
    /// rounded down to these digits.
    pub fn to_text_with_digits(&self, digits: FractionDigits) -> ArrayString<TEXT_MAX>
        ensures text { result.bytes ≡ time_text_with digits (time_of_day self.now) }
        ensures reads_back { IsWholeMinutes self.now.tz_offset → (config : TimeConfig)
            → time_answer (time_choices config).behavior result.bytes
            ≡ Ok (cut_time digits (time_of_day self.now)) }
    {
        let mut text = ArrayString::new();
        self.push_onto_with_digits(digits, &mut text);
        text
    }

    /// Appends the text of [`Time::to_text_with_digits`]: `at ` becomes `at 12:13:14.000Z`. There must be
    /// room for 21 bytes, the longest text, which is a condition on the caller.
    #[inline(always)]
    pub fn push_onto_with_digits<const LENGTH: usize>(
        &self,
        digits: FractionDigits,
        text: &mut ArrayString<LENGTH>,
    )
        requires room { array_string_len text.old + TEXT_MAX ≤ LENGTH }
        ensures text { text.new.bytes
            ≡ text.old.bytes ++ time_text_with digits (time_of_day self.now) }
        ensures short { array_string_len text.new ≤ array_string_len text.old + TEXT_MAX }
    {
        self.push_clock(text);
        push_fraction(self.microsecond, digits, text);
        push_offset(self.tz_offset, text);
    }

    /// Appends the hour, minute and second of the canonical text.
    #[inline(always)]
    fn push_clock<const LENGTH: usize>(&self, text: &mut ArrayString<LENGTH>)
        requires room { array_string_len text.old + 8 ≤ LENGTH }
        ensures text { text.new.bytes ≡ text.old.bytes ++ clock_text (time_of_day self.now) }
        ensures length { array_string_len text.new ≡ array_string_len text.old + 8 }
    {
        text.push_str(two_digit_text(self.hour));
        text.push(':');
        text.push_str(two_digit_text(self.minute));
        text.push(':');
        text.push_str(two_digit_text(self.second));
    }
}

/// Appends a point and the first digits of a microsecond, or nothing for zero digits: `.500` for
/// 500,999 and three.
#[inline(always)]
fn push_fraction<const LENGTH: usize>(
    microsecond: u32,
    digits: FractionDigits,
    text: &mut ArrayString<LENGTH>,
)
    requires small { microsecond ≤ 999999 }
    requires room { array_string_len text.old + 7 ≤ LENGTH }
    ensures text { text.new.bytes ≡ text.old.bytes ++ fraction_text_with digits microsecond }
    ensures short { array_string_len text.new ≤ array_string_len text.old + 7 }
{
    match digits {
        FractionDigits::Zero => {}
        FractionDigits::Three => {
            text.push('.');
            push_three_digits(microsecond / 1000, text);
        }
        FractionDigits::Six => {
            text.push('.');
            push_six_digits(microsecond, text);
        }
    }
}

impl fmt::Display for Time {
    ghost output = { λ time. Some (time_text (time_of_day time)) };

    ghost styled_output = { λ time _. Some (time_text (time_of_day time)) };

    fn fmt<W: fmt::Write>(&self, f: &mut fmt::Formatter<W>) -> fmt::Result {
        f.write_str(self.to_text().as_str())
    }
}
