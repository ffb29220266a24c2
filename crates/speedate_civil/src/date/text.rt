//! The text of a date.

ghost use Rattle.std.specs.Prelude.{Some, ℕ, ◌≡◌, ◌≤◌, ◌+◌, ◌++◌, ◌↔◌, List, Ok, length};
ghost use Rattle.arrayvec.specs.ArrayString.{array_string_len};
ghost use Rattle.speedate_civil.specs.Base.{DateConfig};
ghost use Rattle.speedate_base.specs.Requirement.{result_map};
ghost use Rattle.speedate_civil.specs.Date.{ymd, date_front, date_answer, date_text};
ghost use Rattle.speedate_civil.specs.Date.{date_or_timestamp, Date};

use super::Date;
use crate::text::two_digit_text;
use arrayvec::ArrayString;
use std::fmt;

/// How many bytes the text of a date has.
pub(super) const TEXT_LENGTH: usize = 10;

impl Date {
    /// The canonical text, `YYYY-MM-DD`: `2020-02-29` for 29 February 2020. It is not allocated;
    /// `.as_str()` is the text. It reads back as the date under every configuration, and at the front
    /// of a text too, whatever follows it. No other date has the same text.
    pub fn to_text(&self) -> ArrayString<TEXT_LENGTH>
        ensures text { result.bytes ≡ date_text (ymd self.now) }
        ensures reads_back { date_answer result.bytes ≡ Ok (ymd self.now) }
        ensures reads_back_with_config { (config : DateConfig)
            → date_or_timestamp config.timestamp_unit result.bytes ≡ Ok (ymd self.now) }
        ensures reads_front { (rest : List ℕ)
            → date_front (result.bytes ++ rest) ≡ Ok (ymd self.now, length result.bytes) }
        ensures canonical { (config : DateConfig)
            → result_map date_text (date_or_timestamp config.timestamp_unit result.bytes)
            ≡ Ok result.bytes }
        ensures distinct { (other : Date)
            → (result.bytes ≡ date_text (ymd other)) ↔ (ymd self.now ≡ ymd other) }
    {
        let mut text = ArrayString::new();
        self.push_onto(&mut text);
        text
    }

    /// Appends the text of [`Date::to_text`]: `ok ` becomes `ok 2020-02-29`. There must be room for its
    /// ten bytes, which is a condition on the caller.
    #[inline(always)]
    pub fn push_onto<const LENGTH: usize>(&self, text: &mut ArrayString<LENGTH>)
        requires room { array_string_len text.old + TEXT_LENGTH ≤ LENGTH }
        ensures text { text.new.bytes ≡ text.old.bytes ++ date_text (ymd self.now) }
    {
        text.push_str(two_digit_text((self.year / 100) as u8));
        text.push_str(two_digit_text((self.year % 100) as u8));
        text.push('-');
        text.push_str(two_digit_text(self.month));
        text.push('-');
        text.push_str(two_digit_text(self.day));
    }
}

impl fmt::Display for Date {
    ghost output = { λ date. Some (date_text (ymd date)) };

    ghost styled_output = { λ date _. Some (date_text (ymd date)) };

    fn fmt<W: fmt::Write>(&self, f: &mut fmt::Formatter<W>) -> fmt::Result {
        f.write_str(self.to_text().as_str())
    }
}
