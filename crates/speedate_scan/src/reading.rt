//! What is read of a line.

ghost use Rattle.std.specs.Prelude.{◌≡◌, ◌+◌, ◌-◌, ◌≤◌, ◌||◌, IfErr, IfOk, IfSome, None, Ok, drop, if◌then◌else◌, is_some, length, not, true};
ghost use Rattle.std.specs.Option.{ForSome, option_map, option_map_or};
ghost use Rattle.speedate_base.specs.Offset.{IsOffset, is_offset};
ghost use Rattle.speedate.specs.Requirement.{result_map, with_size};
ghost use Rattle.speedate.specs.DateTime.{date_and_time};
ghost use Rattle.speedate_scan.specs.Field.{IsFieldWithin};
ghost use Rattle.speedate_scan.specs.Reading.{IsParsed, IsReadWithin};
ghost use Rattle.speedate_scan.specs.Reading.{IsWithoutValue, alone, assumed, can_end, fields_of};
ghost use Rattle.speedate_scan.specs.Reading.{found_at, found_from, front_of, has_half_day, instant_of};
ghost use Rattle.speedate_scan.specs.Reading.{is_cut, is_longer, is_without_clock, lacks_clock};
ghost use Rattle.speedate_scan.specs.Reading.{not_within, read, read_claim, read_field};
ghost use Rattle.speedate_scan.specs.Reading.{read_whole, refused_at, seen, undated_field, value_at};
ghost use Rattle.speedate_scan.specs.Reading.{value_between, value_of};
ghost use Rattle.speedate_scan.specs.Reading.{without_field};

use crate::claim::{after_claim, field_claims, front_claim};
use crate::field::{Field, NthField, first_bytes};
use crate::form::Form;
use crate::fraction::value_past_microsecond;
use crate::glance::Glance;
use speedate::{DateTime, MicrosecondsPrecisionOverflowBehavior, ParseError, Refused, Time};
use speedate_base::config::require_offset;
use speedate_base::numbers::byte_at;
use speedate_civil::time::{is_boundary, is_half_day};
use speedate_stream::SEEN_MAX;

/// Where the value of a line begins.
#[derive(Clone, Copy)]
pub enum Place<'a> {
    /// At the front, after a byte order mark and one `[` if they are there.
    Front,
    /// After the first place of this text that a value follows.
    After(&'a [u8]),
    /// It is this field of the line, wholly.
    Field(NthField),
}

/// How the value of a line is read.
#[derive(Clone, Copy)]
pub struct Reader<'a> {
    /// Where it begins.
    pub place: Place<'a>,
    /// What it is.
    pub form: Form,
    /// What is done with digits past the microsecond.
    pub behavior: MicrosecondsPrecisionOverflowBehavior,
    /// The offset, in seconds, that a value without one gets, if it gets one.
    pub offset: Option<i32>,
}

/// What was expected where a value is bad.
#[derive(Clone, Copy, Debug)]
pub enum Why {
    /// What the library expected.
    Parse(ParseError),
    /// A value that ends within the bytes of a line that are looked at.
    Within,
    /// The end of the value.
    End,
    /// A clock after the date, unless values are dates.
    Clock,
    /// A clock of 24 hours: `AM` or `PM` comes after this one.
    HalfDay,
    /// A value of this form.
    Undated(Form),
    /// A value without an offset.
    NoOffset,
    /// A duration that does not say years or months.
    NoYearsOrMonths,
    /// A duration without a clock, since its days have a minus.
    NoClock,
    /// At most six digits of a fraction.
    SixDigits,
}

/// A bad value.
#[derive(Clone, Copy, Debug)]
pub struct Bad {
    /// The byte of the line at which the error lies, from 0.
    pub place: usize,
    /// What was expected there.
    pub why: Why,
}

/// The value of a line.
#[derive(Clone, Copy)]
pub struct Found {
    /// The byte from which on it stands.
    pub from: usize,
    /// The byte up to which it stands.
    pub to: usize,
    /// Its nanosecond from 1970-01-01T00:00:00: in UTC if it has an offset, otherwise as its clock
    /// shows it.
    pub instant: i128,
    /// Its offset, in seconds, if it has one.
    pub offset: Option<i32>,
}

/// What is read of a line.
#[derive(Clone, Copy)]
pub enum Reading {
    /// A value.
    Value(Found),
    /// A value that is refused.
    Bad(Bad),
    /// No value: the byte at which one would begin.
    Undated(usize),
}

/// Whether a value of this form can end before a text: a timestamp before a colon, too.
#[inline(always)]
pub(crate) fn can_end(form: Form, rest: &[u8]) -> bool
    ensures ends { result ≡ can_end form rest.now }
{
    is_boundary(rest) || (matches!(form, Form::Timestamp(_)) && byte_at(rest, 0) == b':')
}

/// Whether a text has a date where a date-time is wanted, by where it was refused: no clock begins after it.
fn lacks_clock(form: Form, text: &[u8], place: usize) -> bool
    requires within { place ≤ length text.now }
    ensures lacks { result ≡ lacks_clock form text.now place }
{
    matches!(form, Form::DateTime) && place >= 10 && is_without_clock(&text[10..])
}

/// Whether no clock begins in what follows a date.
fn is_without_clock(rest: &[u8]) -> bool
    ensures without { result ≡ is_without_clock rest.now }
{
    !byte_at(rest, 1).is_ascii_digit()
        && (matches!(byte_at(rest, 0), b'T' | b't') || is_boundary(rest))
}

/// Whether a text was refused at the half of the day, after a clock of twelve hours.
fn has_half_day(form: Form, text: &[u8], place: usize) -> bool
    requires within { place ≤ length text.now }
    ensures half { result ≡ has_half_day form text.now place }
{
    matches!(form, Form::DateTime) && is_half_day(&text[place..])
}

/// What is bad about a text that was refused and begins at a byte of a line. Where no clock follows a date, the
/// error lies after the date.
fn refused_at(form: Form, text: &[u8], refused: Refused, from: usize) -> Bad
    requires within { refused.place ≤ length text.now }
    requires room { from + length text.now ≤ usize.MAX }
    ensures bad { result ≡ refused_at form text.now refused from }
{
    if lacks_clock(form, text, refused.place) {
        return Bad {
            place: from + 10,
            why: Why::Clock,
        };
    }
    let why = if has_half_day(form, text, refused.place) {
        Why::HalfDay
    } else {
        Why::Parse(refused.fault)
    };
    Bad {
        place: from + refused.place,
        why,
    }
}

/// What is looked at of a line: its first 4,096 bytes.
pub fn seen(head: &[u8]) -> &[u8]
    ensures seen { result.now ≡ seen head.now }
    ensures within { length result.now ≤ length head.now }
    ensures short { length result.now ≤ 4096 }
{
    first_bytes(head, SEEN_MAX)
}

/// Whether a line is longer than what is looked at.
pub fn is_longer(head: &[u8]) -> bool
    ensures longer { result ≡ is_longer head.now }
{
    head.len() > SEEN_MAX
}

/// How many bytes of a longer line may stand before the end of its value. The sixteen bytes after these, which are
/// looked at too, are enough for a zone and for what ends a value.
const VALUE_MAX: usize = SEEN_MAX - 16;

/// Whether a place is after the last one at which the value of a longer line may end.
pub fn is_cut(head: &[u8], place: usize) -> bool
    ensures cut { result ≡ is_cut head.now place }
{
    head.len() > SEEN_MAX && place > VALUE_MAX
}

/// What has the fields of a line: a carriage return at its end belongs to none.
#[tactic(auto, unfolding(crate::specs::Reading::fields_of))]
pub fn fields_of(head: &[u8]) -> &[u8]
    ensures fields { result.now ≡ fields_of head.now }
    ensures within { length result.now ≤ length (seen head.now) }
{
    let text = seen(head);
    let last = text.len().saturating_sub(1);
    if !is_longer(head) && byte_at(text, last) == b'\r' {
        &text[..last]
    } else {
        text
    }
}

/// The nanosecond of a value that has this text: in UTC if it has an offset, otherwise as its clock shows it.
#[inline(always)]
#[tactic(auto, unfolding(crate::specs::Reading::instant_of))]
pub fn instant_of(form: Form, text: &[u8], value: &DateTime) -> i128
    ensures instant { result ≡ instant_of form text.now (date_and_time value.now) }
{
    i128::from(value.timestamp_tz_us()) * 1000 + i128::from(value_past_microsecond(form, text))
}

/// The offset of a value, or else the one that a value without an offset gets, if that is an offset.
#[inline(always)]
fn own_or_assumed(own: Option<i32>, assumed: Option<i32>) -> Option<i32>
    requires own { ForSome own IsOffset }
    ensures offset { result ≡ (if is_some own || not (option_map_or is_offset assumed true)
        then own else assumed) }
    ensures range { ForSome result IsOffset }
{
    if own.is_some() || require_offset(assumed).is_err() {
        own
    } else {
        assumed
    }
}

/// A value with the offset that one without gets, if it gets one.
#[inline(always)]
#[tactic(auto, unfolding(crate::specs::Reading::assumed))]
pub fn assume(offset: Option<i32>, value: DateTime) -> DateTime
    ensures assumed { date_and_time result ≡ assumed offset (date_and_time value) }
{
    // Field by field: what a call returns stays in memory, and with it each value that may be returned in its place.
    let time = Time {
        hour: value.time.hour,
        minute: value.time.minute,
        second: value.time.second,
        microsecond: value.time.microsecond,
        tz_offset: own_or_assumed(value.time.tz_offset, offset),
    };
    let date = value.date;
    DateTime { date, time }
}

/// A value that was found from one byte of a line up to another, by the head of the line.
#[inline(always)]
fn found_at(form: Form, head: &[u8], value: &DateTime, from: usize, to: usize) -> Found
    requires ordered { from ≤ to }
    requires within { to ≤ length head.now }
    ensures found { result ≡ found_at form head.now (date_and_time value.now) from to }
{
    Found {
        from,
        to,
        instant: instant_of(form, &head[from..to], value),
        offset: value.time.tz_offset,
    }
}

/// What is read of a line whose value does not lie within what is looked at.
pub fn not_within(place: usize) -> Reading
    ensures read { result ≡ not_within place }
{
    Reading::Bad(Bad {
        place,
        why: Why::Within,
    })
}

/// What is read of a line in which the field is not found, by its head.
pub fn without_field(head: &[u8]) -> Reading
    ensures read { result ≡ without_field head.now }
    ensures within { IsReadWithin result head.now }
{
    if is_longer(head) {
        return not_within(SEEN_MAX);
    }
    Reading::Undated(fields_of(head).len())
}

/// What is read of a field without a value: what stands after the quote that closes it is bad.
pub fn undated_field(field: &Field) -> Reading
    requires ends { field.now.to ≤ field.now.end }
    ensures read { result ≡ undated_field field.now }
    ensures bare { IsWithoutValue result }
{
    if field.goes_on() {
        return Reading::Bad(Bad {
            place: field.to + 1,
            why: Why::Parse(ParseError::ExtraCharacters),
        });
    }
    Reading::Undated(field.from)
}

/// What is read of a line, by its head, in which a value was parsed from a byte on, or refused.
#[inline(always)]
fn read_as(
    form: Form,
    head: &[u8],
    parsed: Result<(DateTime, usize), Bad>,
    from: usize,
) -> (Reading, Option<DateTime>)
    requires ordered { IfOk parsed (λ found. from ≤ found.1) }
    requires within { IfOk parsed (λ found. found.1 ≤ length head.now) }
    ensures read { result.0
        ≡ found_from form head.now from (result_map (with_size date_and_time) parsed) }
    ensures value { IsParsed (λ found. result_map (with_size date_and_time) parsed) result.0
        (option_map date_and_time result.1) }
{
    match parsed {
        Ok((value, to)) => (
            Reading::Value(found_at(form, head, &value, from, to)),
            Some(value),
        ),
        Err(bad) => (Reading::Bad(bad), None),
    }
}

impl Reader<'_> {
    /// What is read of a line, by its head.
    pub fn read(&self, head: &[u8]) -> Reading
        ensures read { result ≡ read self.now head.now }
        ensures within { IsReadWithin result head.now }
    {
        match &self.glance(head) {
            Glance::Value(value, from, to) => Reading::Value(self.found(head, value, *from, *to)),
            _ => self.parse(head).0,
        }
    }

    /// A value that was found from one byte of a line up to another, by the head of the line.
    #[inline(always)]
    pub fn found(&self, head: &[u8], value: &DateTime, from: usize, to: usize) -> Found
        requires ordered { from ≤ to }
        requires within { to ≤ length head.now }
        ensures found { result ≡ found_at self.now.form head.now (date_and_time value.now) from to }
    {
        found_at(self.form, head, value, from, to)
    }

    /// What is read of a line, by its head, and the value that was parsed, if it has one.
    #[inline(always)]
    #[tactic(auto, unfolding(crate::specs::Reading::read, crate::specs::Reading::value_of))]
    pub fn parse(&self, head: &[u8]) -> (Reading, Option<DateTime>)
        ensures read { result.0 ≡ read self.now head.now }
        ensures within { IsReadWithin result.0 head.now }
        ensures value { IsParsed (value_of self.now head.now) result.0
            (option_map date_and_time result.1) }
    {
        let claim = match self.place {
            Place::Front => front_claim(self.form, head),
            Place::After(word) => after_claim(self.form, word, head),
            // Taken apart, or the compiler keeps the values of both ways in memory.
            Place::Field(which) => {
                let (reading, value) = self.parse_field(head, which.find(fields_of(head)));
                return (reading, value);
            }
        };
        self.parse_claim(head, claim)
    }

    /// What is read of a line, by its head and the byte at which a value is claimed.
    #[inline(always)]
    fn parse_claim(&self, head: &[u8], claim: Result<usize, Reading>) -> (Reading, Option<DateTime>)
        requires start { IfOk claim (λ start. start ≤ length (seen head.now)) }
        requires reading { IfErr claim (λ reading. IsReadWithin reading head.now) }
        requires bare { IfErr claim IsWithoutValue }
        ensures read { result.0 ≡ read_claim self.now head.now claim }
        ensures within { IsReadWithin result.0 head.now }
        ensures value { IsParsed (λ found. value_at self.now head.now found.from)
            result.0 (option_map date_and_time result.1) }
    {
        match claim {
            Ok(start) => {
                let text = &seen(head)[start..];
                let front = self.form.front(text, self.behavior);
                read_as(self.form, head, self.value_at(head, start, front), start)
            }
            Err(reading) => (reading, None),
        }
    }

    /// What is read of a line, by its head and where its field is, if it is there.
    #[tactic(auto, using(crate::proofs::SeenLemmas::fields_within))]
    fn parse_field(&self, head: &[u8], field: Option<Field>) -> (Reading, Option<DateTime>)
        requires within { IfSome field (λ field. IsFieldWithin field (fields_of head.now)) }
        ensures read { result.0 ≡ read_field self.now head.now field }
        ensures within { IsReadWithin result.0 head.now }
        ensures value { IsParsed (λ found. value_between self.now head.now found.from found.to)
            result.0 (option_map date_and_time result.1) }
    {
        match field {
            None => (without_field(head), None),
            Some(field) => {
                if is_cut(head, field.end) {
                    return (not_within(field.from), None);
                }
                self.parse_whole(head, &field)
            }
        }
    }

    /// What is read of a line, by its head and its field, which lies within what is looked at.
    #[tactic(auto, using(crate::proofs::SeenLemmas::seen_within))]
    fn parse_whole(&self, head: &[u8], field: &Field) -> (Reading, Option<DateTime>)
        requires ordered { field.now.from ≤ field.now.to }
        requires ends { field.now.to ≤ field.now.end }
        requires within { field.now.end ≤ length (seen head.now) }
        ensures read { result.0 ≡ read_whole self.now head.now field.now }
        ensures within { IsReadWithin result.0 head.now }
        ensures value { IsParsed (λ found. value_between self.now head.now found.from found.to)
            result.0 (option_map date_and_time result.1) }
    {
        if !field_claims(self.form, &head[field.from..field.to]) {
            return (undated_field(field), None);
        }
        read_as(self.form, head, self.value_alone(head, field), field.from)
    }

    /// The value of a field of a line, by its head, and the byte up to which it stands; what stands after the
    /// quote that closes the field is bad.
    fn value_alone(&self, head: &[u8], field: &Field) -> Result<(DateTime, usize), Bad>
        requires ordered { field.now.from ≤ field.now.to }
        requires ends { field.now.to ≤ field.now.end }
        requires within { field.now.end ≤ length head.now }
        ensures value { result_map (with_size date_and_time) result
            ≡ alone field.now (value_between self.now head.now field.now.from field.now.to) }
        ensures size { IfOk result (λ found. found.1 ≡ field.now.to) }
    {
        match self.value_between(head, field.from, field.to) {
            Ok(found) => {
                if field.goes_on() {
                    return Err(Bad {
                        place: field.to + 1,
                        why: Why::Parse(ParseError::ExtraCharacters),
                    });
                }
                Ok(found)
            }
            Err(bad) => Err(bad),
        }
    }

    /// The value that a part of a line is, by its head, and the byte up to which it stands.
    #[tactic(auto, unfolding(crate::specs::Reading::value_between))]
    fn value_between(&self, head: &[u8], from: usize, to: usize) -> Result<(DateTime, usize), Bad>
        requires ordered { from ≤ to }
        requires within { to ≤ length head.now }
        ensures value { result_map (with_size date_and_time) result
            ≡ value_between self.now head.now from to }
        ensures size { IfOk result (λ found. found.1 ≡ to) }
    {
        match self.form.whole(&head[from..to], self.behavior) {
            Ok(value) => Ok((assume(self.offset, value), to)),
            Err(refused) => Err(refused_at(self.form, &head[from..to], refused, from)),
        }
    }

    /// The value that begins at a byte of a line, by its head and what was read from that byte on, and the byte up to
    /// which it stands.
    #[inline(always)]
    #[tactic(auto, unfolding(crate::specs::Reading::value_at), using(crate::proofs::SeenLemmas::seen_within))]
    fn value_at(
        &self,
        head: &[u8],
        start: usize,
        front: Result<(DateTime, usize), Refused>,
    ) -> Result<(DateTime, usize), Bad>
        requires start { start ≤ length (seen head.now) }
        requires front { result_map (with_size date_and_time) front
            ≡ front_of self.now.form self.now.behavior (drop start (seen head.now)) }
        requires size { IfOk front (λ front. start + front.1 ≤ length (seen head.now)) }
        requires refused { IfErr front (λ refused. start + refused.place ≤ length (seen head.now)) }
        ensures value { result_map (with_size date_and_time) result
            ≡ value_at self.now head.now start }
        ensures ordered { IfOk result (λ found. start ≤ found.1) }
        ensures within { IfOk result (λ found. found.1 ≤ length head.now) }
    {
        match front {
            Ok((value, size)) => {
                if is_cut(head, start + size) {
                    return Err(Bad {
                        place: start,
                        why: Why::Within,
                    });
                }
                let to = start + size;
                if !can_end(self.form, &head[to..]) {
                    return Err(Bad {
                        place: to,
                        why: Why::End,
                    });
                }
                Ok((assume(self.offset, value), to))
            }
            Err(refused) => {
                if is_cut(head, start + refused.place) {
                    return Err(Bad {
                        place: start,
                        why: Why::Within,
                    });
                }
                Err(refused_at(self.form, &seen(head)[start..], refused, start))
            }
        }
    }
}
