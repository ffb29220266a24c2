//! The text of a date-time.

ghost use Rattle.std.specs.Prelude.{Some, ℕ, ◌≡◌, ◌≤◌, ◌+◌, ◌++◌, ◌∷◌, ◌↔◌, IsTrue, List, [], Ok, length};
ghost use Rattle.std.specs.Cmp.Lexicographic.{slice_cmp};
ghost use Rattle.std.specs.Ordering.{nat_cmp};
ghost use Rattle.arrayvec.specs.ArrayString.{array_string_len};
ghost use Rattle.speedate_base.specs.Ascii.{capital_t};
ghost use Rattle.speedate_base.specs.Config.{time_choices};
ghost use Rattle.speedate_civil.specs.Base.{TimeConfig, DateTimeConfig};
ghost use Rattle.speedate_base.specs.Offset.{IsWholeMinutes};
ghost use Rattle.speedate_base.specs.Requirement.{result_map};
ghost use Rattle.speedate_civil.specs.Date.{ymd, date_text};
ghost use Rattle.speedate_civil.specs.DateTime.{date_and_time, date_time_answer, date_time_front};
ghost use Rattle.speedate_civil.specs.DateTime.{date_time_text, date_time_by_config, DateTime};
ghost use Rattle.speedate_civil.specs.DateTime.{date_time_text_with, cut_date_time};
ghost use Rattle.speedate_civil.specs.DateTime.{date_time_instant_order};
ghost use Rattle.speedate_civil.specs.Time.{is_after_time};

use super::DateTime;
use crate::time::FractionDigits;
use arrayvec::ArrayString;
use std::fmt;

/// How many bytes the longest text of a date-time has.
const TEXT_MAX: usize = 32;

impl DateTime {
    /// The canonical text, `YYYY-MM-DDTHH:MM:SS`, then `.` and six digits if the microsecond is not 0,
    /// then the offset if there is one: `2020-02-29T12:13:14.500000+01:30`. It is not allocated;
    /// `.as_str()` is the text.
    ///
    /// If the offset is absent or whole minutes, the text reads back as the date-time. At the front
    /// of a text it parses as itself exactly if the next bytes do not continue it;
    /// [`Time::to_text`](crate::time::Time::to_text) says what may follow. Seconds of an offset are
    /// not printed.
    pub fn to_text(&self) -> ArrayString<TEXT_MAX>
        ensures text { result.bytes ≡ date_time_text (date_and_time self.now) }
        ensures reads_back { IsWholeMinutes self.now.time.tz_offset → (config : TimeConfig)
            → date_time_answer (time_choices config).behavior result.bytes
            ≡ Ok (date_and_time self.now) }
        ensures reads_back_with_config { IsWholeMinutes self.now.time.tz_offset
            → (config : DateTimeConfig)
            → date_time_by_config config result.bytes ≡ Ok (date_and_time self.now) }
        ensures reads_front { IsWholeMinutes self.now.time.tz_offset
            → (config : TimeConfig) (rest : List ℕ)
            → IsTrue (is_after_time (date_and_time self.now).time rest)
            ↔ (date_time_front (time_choices config).behavior (result.bytes ++ rest)
            ≡ Ok (date_and_time self.now, length result.bytes)) }
        ensures canonical { IsWholeMinutes self.now.time.tz_offset → (config : DateTimeConfig)
            → result_map date_time_text (date_time_by_config config result.bytes)
            ≡ Ok result.bytes }
        ensures distinct { IsWholeMinutes self.now.time.tz_offset → (other : DateTime)
            → IsWholeMinutes other.time.tz_offset
            → (result.bytes ≡ date_time_text (date_and_time other))
            ↔ (date_and_time self.now ≡ date_and_time other) }
    {
        let mut text = ArrayString::new();
        self.push_onto(&mut text);
        text
    }

    /// Appends the text of [`DateTime::to_text`]: `ok ` becomes `ok 2020-02-29T12:13:14`. There must be
    /// room for 32 bytes, the longest text, which is a condition on the caller.
    #[inline(always)]
    pub fn push_onto<const LENGTH: usize>(&self, text: &mut ArrayString<LENGTH>)
        requires room { array_string_len text.old + TEXT_MAX ≤ LENGTH }
        ensures text { text.new.bytes ≡ text.old.bytes ++ date_time_text (date_and_time self.now) }
    {
        self.push_date(text);
        self.time.push_onto(text);
    }

    /// The text with a fixed number of digits after the second, rounded down:
    /// `2020-02-29T12:13:14.500+01:30` with `FractionDigits::Three`, also where the fraction is 0, as
    /// `.000`. `FractionDigits::Zero` prints no point. The rest is as in [`DateTime::to_text`].
    ///
    /// If the offset is absent or whole minutes, the text reads back as the date-time, with its
    /// microsecond rounded down to these digits. Texts of date-times with one offset, or with none,
    /// compare as these values do, by instant.
    pub fn to_text_with_digits(&self, digits: FractionDigits) -> ArrayString<TEXT_MAX>
        ensures text { result.bytes ≡ date_time_text_with digits (date_and_time self.now) }
        ensures reads_back { IsWholeMinutes self.now.time.tz_offset → (config : TimeConfig)
            → date_time_answer (time_choices config).behavior result.bytes
            ≡ Ok (cut_date_time digits (date_and_time self.now)) }
        ensures reads_back_with_config { IsWholeMinutes self.now.time.tz_offset
            → (config : DateTimeConfig) → date_time_by_config config result.bytes
            ≡ Ok (cut_date_time digits (date_and_time self.now)) }
        ensures text_order { (other : DateTime) → self.now.time.tz_offset ≡ other.time.tz_offset
            → slice_cmp nat_cmp result.bytes (date_time_text_with digits (date_and_time other))
            ≡ date_time_instant_order (cut_date_time digits (date_and_time self.now))
            (cut_date_time digits (date_and_time other)) }
    {
        let mut text = ArrayString::new();
        self.push_onto_with_digits(digits, &mut text);
        text
    }

    /// Appends the text of [`DateTime::to_text_with_digits`]: `ok ` becomes
    /// `ok 2020-02-29T12:13:14.000`. There must be room for 32 bytes, the longest text, which is a
    /// condition on the caller.
    #[inline(always)]
    pub fn push_onto_with_digits<const LENGTH: usize>(
        &self,
        digits: FractionDigits,
        text: &mut ArrayString<LENGTH>,
    )
        requires room { array_string_len text.old + TEXT_MAX ≤ LENGTH }
        ensures text { text.new.bytes
            ≡ text.old.bytes ++ date_time_text_with digits (date_and_time self.now) }
    {
        self.push_date(text);
        self.time.push_onto_with_digits(digits, text);
    }

    /// Appends the date and the letter after it.
    #[inline(always)]
    fn push_date<const LENGTH: usize>(&self, text: &mut ArrayString<LENGTH>)
        requires room { array_string_len text.old + 11 ≤ LENGTH }
        ensures text { text.new.bytes
            ≡ text.old.bytes ++ date_text (ymd self.now.date) ++ capital_t ∷ [] }
        ensures length { array_string_len text.new ≡ array_string_len text.old + 11 }
    {
        self.date.push_onto(text);
        text.push('T');
    }
}

impl fmt::Display for DateTime {
    ghost output = { λ value. Some (date_time_text (date_and_time value)) };

    ghost styled_output = { λ value _. Some (date_time_text (date_and_time value)) };

    fn fmt<W: fmt::Write>(&self, f: &mut fmt::Formatter<W>) -> fmt::Result {
        f.write_str(self.to_text().as_str())
    }
}
