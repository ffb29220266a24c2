//! What duration a line has.

ghost use Rattle.std.specs.Prelude.{◌≡◌, ◌+◌, ◌≤◌, ◌==◌, ◌||◌, ◌<◌, IfErr, IfSome, length};
ghost use Rattle.std.specs.List.{position};
ghost use Rattle.speedate.specs.Ascii.{capital_m, capital_t, capital_y};
ghost use Rattle.speedate.specs.Duration.{duration_numbers};
ghost use Rattle.speedate.specs.Requirement.{result_map};
ghost use Rattle.speedate_scan.specs.Amount.{amount_of, before_time, duration_in, duration_whole};
ghost use Rattle.speedate_scan.specs.Amount.{begins_clock, clock_after, clock_after_minus};
ghost use Rattle.speedate_scan.specs.Amount.{exact_between, field_duration, inexact};
ghost use Rattle.speedate_scan.specs.Amount.{is_day_letter, is_iso, judged_amount, seventh_digit};
ghost use Rattle.speedate_base.specs.Digits.{is_decimal_mark};
ghost use Rattle.speedate_scan.specs.Amount.{read_duration, years_or_months};
ghost use Rattle.speedate_scan.specs.Field.{IsFieldWithin};
ghost use Rattle.speedate_scan.specs.Reading.{IsReadWithin, alone, fields_of};

use crate::field::Field;
use crate::form::relaxed;
use crate::reading::{Bad, Reader, Reading, Why, is_cut, not_within, undated_field, without_field};
use crate::scan::{LineKind, Scan};
use speedate::{Duration, MicrosecondsPrecisionOverflowBehavior, ParseError, Refused};
use speedate_base::numbers::{byte_at, is_decimal_mark, sign};

/// Whether a text is one of ISO 8601: it begins with `P`, after its sign.
fn is_iso(text: &[u8]) -> bool
    ensures iso { result ≡ is_iso text.now }
{
    let (_, size) = sign(text);
    byte_at(text, size) == b'P'
}

/// The place of the first `T` of a text.
fn time_place(text: &[u8]) -> Option<usize>
    ensures place { result ≡ position (λ byte. byte == capital_t) text.now }
    ensures within { IfSome result (λ place. place ≤ length text.now) }
{
    text.iter().position(|&byte| byte == b'T')
}

/// The bytes of a text before its first `T`.
fn before_time(text: &[u8]) -> &[u8]
    ensures before { result.now ≡ before_time text.now }
    ensures short { length result.now ≤ length text.now }
{
    match time_place(text) {
        Some(place) => &text[..place],
        None => text,
    }
}

/// The place of the first `Y` or `M` of a text.
fn designator_place(text: &[u8]) -> Option<usize>
    ensures place { result
        ≡ position (λ byte. (byte == capital_y) || (byte == capital_m)) text.now }
    ensures within { IfSome result (λ place. place ≤ length text.now) }
{
    text.iter().position(|&byte| byte == b'Y' || byte == b'M')
}

/// Where the first item of years or months of a duration has its designator: 2 in `b"P1Y"`.
#[tactic(auto, unfolding(crate::specs::Amount::years_or_months))]
fn years_or_months(text: &[u8]) -> Option<usize>
    ensures place { result ≡ years_or_months text.now }
    ensures within { IfSome result (λ place. place ≤ length text.now) }
{
    if is_iso(text) {
        designator_place(before_time(text))
    } else {
        None
    }
}

/// The duration that a text is.
#[tactic(auto, unfolding(crate::specs::Amount::duration_whole))]
fn duration_whole(text: &[u8]) -> Result<Duration, Refused>
    ensures whole { result_map duration_numbers result ≡ duration_whole text.now }
    ensures within { IfErr result (λ refused. refused.place ≤ length text.now) }
{
    Duration::parse_or_place(text, &relaxed(MicrosecondsPrecisionOverflowBehavior::Error))
}

/// Whether a byte is `d` or `D`, with which a word for days begins.
fn is_day_letter(byte: u8) -> bool
    ensures day { result ≡ is_day_letter byte }
{
    byte == b'd' || byte == b'D'
}

/// The place of the first `d` or `D` of a text.
fn day_place(text: &[u8]) -> Option<usize>
    ensures place { result ≡ position is_day_letter text.now }
{
    text.iter().position(|&byte| is_day_letter(byte))
}

/// Whether a clock begins with a byte: its hours may have no digits.
fn begins_clock(byte: u8) -> bool
    ensures begins { result ≡ begins_clock byte }
{
    byte.is_ascii_digit() || byte == b':'
}

/// The place of the first byte of a text with which a clock begins.
fn clock_place(text: &[u8]) -> Option<usize>
    ensures place { result ≡ position begins_clock text.now }
    ensures within { IfSome result (λ place. place < length text.now) }
{
    text.iter().position(|&byte| begins_clock(byte))
}

/// The place of the clock after days, by the place of the letter with which their word begins.
fn clock_after(text: &[u8], day: Option<usize>) -> Option<usize>
    requires day { IfSome day (λ day. day ≤ length text.now) }
    ensures place { result ≡ clock_after text.now day }
    ensures within { IfSome result (λ place. place ≤ length text.now) }
{
    let Some(day) = day else {
        return None;
    };
    match clock_place(&text[day..]) {
        Some(place) => Some(day + place),
        None => None,
    }
}

/// The place of the clock of a text that has days with a minus before it: 8 in `b"-1 day, 23:00:00"`.
#[tactic(auto, unfolding(crate::specs::Amount::clock_after_minus))]
fn clock_after_minus(text: &[u8]) -> Option<usize>
    ensures place { result ≡ clock_after_minus text.now }
    ensures within { IfSome result (λ place. place ≤ length text.now) }
{
    let (is_negative, _) = sign(text);
    if !is_negative || is_iso(text) {
        return None;
    }
    clock_after(text, day_place(text))
}

/// The place of the first decimal mark of a text.
fn mark_place(text: &[u8]) -> Option<usize>
    ensures place { result ≡ position is_decimal_mark text.now }
    ensures within { IfSome result (λ place. place < length text.now) }
{
    text.iter().position(|&byte| is_decimal_mark(byte))
}

/// The place of the seventh digit of the fraction of a text of ISO 8601, if it has so many: 10 in `b"PT0.1234567S"`.
#[tactic(auto, unfolding(crate::specs::Amount::seventh_digit))]
fn seventh_digit(text: &[u8]) -> Option<usize>
    ensures place { result ≡ seventh_digit text.now }
    ensures within { IfSome result (λ place. place ≤ length text.now) }
{
    if !is_iso(text) {
        return None;
    }
    let Some(place) = mark_place(text) else {
        return None;
    };
    if byte_at(text, place + 7).is_ascii_digit() {
        Some(place + 7)
    } else {
        None
    }
}

/// What is not exact about a duration, by its text, which begins at a byte of a line.
#[tactic(auto, unfolding(crate::specs::Amount::inexact))]
fn inexact(text: &[u8], from: usize) -> Option<Bad>
    requires room { from + length text.now ≤ usize.MAX }
    ensures inexact { result ≡ inexact from text.now }
{
    if let Some(place) = years_or_months(text) {
        return Some(Bad {
            place: from + place,
            why: Why::NoYearsOrMonths,
        });
    }
    if let Some(place) = clock_after_minus(text) {
        return Some(Bad {
            place: from + place,
            why: Why::NoClock,
        });
    }
    match seventh_digit(text) {
        Some(place) => Some(Bad {
            place: from + place,
            why: Why::SixDigits,
        }),
        None => None,
    }
}

/// The duration that a part of a line is, by its head, if it is exact.
#[tactic(auto, unfolding(crate::specs::Amount::exact_between))]
pub fn exact_between(head: &[u8], from: usize, to: usize) -> Result<Duration, Bad>
    requires ordered { from ≤ to }
    requires within { to ≤ length head.now }
    ensures exact { result_map duration_numbers result ≡ exact_between head.now from to }
{
    let text = &head[from..to];
    match duration_whole(text) {
        Ok(duration) => match inexact(text, from) {
            Some(bad) => Err(bad),
            None => Ok(duration),
        },
        Err(refused) => Err(Bad {
            place: from + refused.place,
            why: Why::Parse(refused.fault),
        }),
    }
}

/// The duration that a field of a line is, by its head. What comes after the quote that closes the field is
/// bad.
fn duration_alone(head: &[u8], field: &Field) -> Result<Duration, Bad>
    requires ordered { field.now.from ≤ field.now.to }
    requires ends { field.now.to ≤ field.now.end }
    requires within { field.now.end ≤ length head.now }
    ensures alone { result_map duration_numbers result
        ≡ alone field.now (exact_between head.now field.now.from field.now.to) }
{
    match exact_between(head, field.from, field.to) {
        Ok(duration) => {
            if field.goes_on() {
                return Err(Bad {
                    place: field.to + 1,
                    why: Why::Parse(ParseError::ExtraCharacters),
                });
            }
            Ok(duration)
        }
        Err(bad) => Err(bad),
    }
}

/// The duration of a field of a line, by its head, or what is read of a field that has none.
fn field_duration(head: &[u8], field: &Field) -> Result<Duration, Reading>
    requires ordered { field.now.from ≤ field.now.to }
    requires ends { field.now.to ≤ field.now.end }
    requires within { field.now.end ≤ length head.now }
    ensures read { result_map duration_numbers result
        ≡ field_duration head.now field.now }
    ensures within { IfErr result (λ reading. IsReadWithin reading head.now) }
{
    if field.from == field.to {
        return Err(undated_field(field));
    }
    match duration_alone(head, field) {
        Ok(duration) => Ok(duration),
        Err(bad) => Err(Reading::Bad(bad)),
    }
}

/// The duration of a line, by its head and where its field is, or what is read of a line that has none.
#[tactic(auto, using(crate::proofs::SeenLemmas::fields_within, crate::proofs::SeenLemmas::seen_within))]
fn duration_in(head: &[u8], field: Option<Field>) -> Result<Duration, Reading>
    requires within { IfSome field (λ field. IsFieldWithin field (fields_of head.now)) }
    ensures read { result_map duration_numbers result ≡ duration_in head.now field }
    ensures within { IfErr result (λ reading. IsReadWithin reading head.now) }
{
    match field {
        None => Err(without_field(head)),
        Some(field) => {
            if is_cut(head, field.end) {
                return Err(not_within(field.from));
            }
            field_duration(head, &field)
        }
    }
}

impl Reader<'_> {
    /// The duration of a line, by its head, or what is read of a line that has none.
    #[tactic(auto, unfolding(crate::specs::Amount::read_duration))]
    pub fn read_duration(&self, head: &[u8]) -> Result<Duration, Reading>
        ensures read { result_map duration_numbers result ≡ read_duration self.now head.now }
        ensures within { IfErr result (λ reading. IsReadWithin reading head.now) }
    {
        duration_in(head, self.duration_place(head))
    }
}

impl Scan<'_> {
    /// The duration of a line, by its head, or what a line is that has none.
    #[tactic(auto, unfolding(crate::specs::Amount::amount_of))]
    pub fn amount(&self, head: &[u8]) -> Result<Duration, LineKind>
        ensures amount { result_map duration_numbers result ≡ amount_of self.now head.now }
    {
        if self.is_stopped() {
            return Err(LineKind::Late);
        }
        if self.has_header && self.number == 0 {
            return Err(LineKind::Header);
        }
        self.judged_amount(self.reader.read_duration(head), head)
    }

    /// A duration that was read of a line, or what the line is instead.
    fn judged_amount(
        &self,
        read: Result<Duration, Reading>,
        head: &[u8],
    ) -> Result<Duration, LineKind>
        requires within { IfErr read (λ reading. IsReadWithin reading head.now) }
        ensures judged { result_map duration_numbers result
            ≡ judged_amount self.now head.now (result_map duration_numbers read) }
    {
        match read {
            Ok(duration) => Ok(duration),
            Err(reading) => Err(self.judged(reading, head)),
        }
    }
}
