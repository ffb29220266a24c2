//! What values are, and how a text is parsed as one.

ghost use Rattle.std.specs.Prelude.{◌≡◌, ◌+◌, ◌≤◌, ℕ, Err, IfErr, IfOk, IfSome, List, Ok, Result, length, true};
ghost use Rattle.speedate_civil.specs.Time.{end_fault};
ghost use Rattle.speedate.specs.Base.{Behavior, IsoOrder};
ghost use Rattle.speedate.specs.Config.{choices, time_choices};
ghost use Rattle.speedate.specs.Requirement.{result_map, with_size};
ghost use Rattle.speedate.specs.Date.{ymd};
ghost use Rattle.speedate.specs.DateTime.{DateAndTime, date_and_time};
ghost use Rattle.speedate.specs.Form.{with_length};
ghost use Rattle.speedate.specs.declared.Refused.{Refused};
ghost use Rattle.speedate.specs.Loose.{loose_value};
ghost use Rattle.speedate_scan.specs.Reading.{claims, claims_date, front_of, library_front};
ghost use Rattle.speedate_scan.specs.Reading.{midnight_front};
ghost use Rattle.speedate_scan.specs.Reading.{midnight_of, midnight_whole, strict_front, strict_whole};
ghost use Rattle.speedate_scan.specs.Reading.{whole_front, whole_of};

use crate::timestamp::{timestamp_front, timestamp_whole};
use speedate::{
    Date, DateConfig, DateForm, DateTime, DateTimeConfig, DateTimeForm, IsoOrder,
    MicrosecondsPrecisionOverflowBehavior, ParseError, Refused, Time, TimeConfig, TimestampUnit,
};
use speedate_base::numbers::byte_at;
use speedate_civil::datetime::{
    accepted_loose_value, full_front, loose_value_by_parts, loose_whole,
    require_standard_date_time, usual_loose_value,
};
use speedate_civil::time::end_fault;

/// What a value is.
#[derive(Clone, Copy, Debug, PartialEq, Eq)]
pub enum Form {
    /// A date-time.
    DateTime,
    /// A date-time of RFC 3339 alone.
    Strict,
    /// A date, whose value is its midnight.
    Date,
    /// A Unix timestamp in a unit, whose value is its date-time in UTC.
    Timestamp(TimestampUnit),
}

impl Form {
    /// The value at the front of a text, and how many bytes it takes, if it is a date-time of the form that most have;
    /// `None` says nothing of the text.
    #[inline(always)]
    pub fn usual(self, text: &[u8]) -> Option<(DateTime, usize)>
        ensures front { (behavior : Behavior) → IfSome result (λ front.
            front_of self behavior text.now ≡ Ok (with_size date_and_time front)) }
        ensures claims { IfSome result (λ front. claims self text.now ≡ true) }
        ensures size { IfSome result (λ front. front.1 ≤ length text.now) }
    {
        // A fraction of more than six digits is not of that form.
        if !matches!(self, Form::DateTime) || byte_at(text, 26).is_ascii_digit() {
            return None;
        }
        usual_front(text)
    }

    /// The value at the front of a text, and how many bytes it takes, if the library reads it at once; `None` says nothing
    /// of the text.
    #[inline(never)]
    pub fn accepted(
        self,
        text: &[u8],
        behavior: MicrosecondsPrecisionOverflowBehavior,
    ) -> Option<(DateTime, usize)>
        ensures front { IfSome result (λ front. front_of self behavior text.now
            ≡ Ok (with_size date_and_time front)) }
        ensures size { IfSome result (λ front. front.1 ≤ length text.now) }
    {
        match self {
            Form::DateTime => accepted_loose_value(text, behavior),
            _ => self.front(text, behavior).ok(),
        }
    }

    /// The value at the front of a text, and how many bytes it takes: a date-time is read part by part, as of a text
    /// that [`Form::accepted`] says nothing of.
    #[inline(never)]
    pub fn front(
        self,
        text: &[u8],
        behavior: MicrosecondsPrecisionOverflowBehavior,
    ) -> Result<(DateTime, usize), Refused>
        ensures front { result_map (with_size date_and_time) result
            ≡ front_of self behavior text.now }
        ensures size { IfOk result (λ front. front.1 ≤ length text.now) }
        ensures within { IfErr result (λ refused. refused.place ≤ length text.now) }
    {
        match self {
            Form::DateTime => loose_value_by_parts(text, behavior),
            Form::Strict => strict_front(text, behavior),
            Form::Date => midnight_front(text),
            Form::Timestamp(unit) => timestamp_front(text, unit, behavior),
        }
    }

    /// The value that a text is.
    pub fn whole(
        self,
        text: &[u8],
        behavior: MicrosecondsPrecisionOverflowBehavior,
    ) -> Result<DateTime, Refused>
        ensures whole { result_map date_and_time result ≡ whole_of self behavior text.now }
        ensures within { IfErr result (λ refused. refused.place ≤ length text.now) }
    {
        match self {
            Form::DateTime => loose_whole(text, behavior),
            Form::Strict => strict_whole(text, behavior),
            Form::Date => midnight_whole(text),
            Form::Timestamp(unit) => timestamp_whole(text, unit, behavior),
        }
    }
}

/// How values are read whose own text is not one of RFC 3339 alone.
pub fn relaxed(behavior: MicrosecondsPrecisionOverflowBehavior) -> TimeConfig
    ensures behavior { (time_choices result).behavior ≡ behavior }
    ensures order { (time_choices result).order ≡ IsoOrder.Lax }
{
    TimeConfig {
        microseconds_precision_overflow_behavior: behavior,
        unix_timestamp_offset: None,
        iso_order: IsoOrder::Lax,
    }
}

/// The date-time at the front of a text, and how many bytes it takes, if it has the form that most have; `None` says
/// nothing of the text.
#[inline(always)]
fn usual_front(text: &[u8]) -> Option<(DateTime, usize)>
    ensures front { (behavior : Behavior) → IfSome result (λ front.
        loose_value behavior text.now ≡ Ok (with_size date_and_time front)) }
    ensures claims { IfSome result (λ front. claims_date text.now ≡ true) }
    ensures within { IfSome result (λ front. front.1 ≤ length text.now) }
{
    match usual_loose_value(text) {
        Some((value, size)) => Some((value, size)),
        None => None,
    }
}

/// The value at the front of a text, which takes so many bytes, if nothing follows it.
pub(crate) fn whole_front(text: &[u8], value: DateTime, size: usize) -> Result<DateTime, Refused>
    requires size { size ≤ length text.now }
    ensures whole { result_map date_and_time result
        ≡ whole_front text.now (date_and_time value, size) }
    ensures within { IfErr result (λ refused. refused.place ≤ length text.now) }
{
    if size != text.len() {
        let fault = end_fault(value.time.tz_offset);
        return Err(Refused { fault, place: size });
    }
    Ok(value)
}

/// How the library reads a text that is no timestamp.
fn texts(behavior: MicrosecondsPrecisionOverflowBehavior) -> DateTimeConfig
    ensures behavior { (choices result).behavior ≡ behavior }
{
    DateTimeConfig {
        timestamp_unit: TimestampUnit::Infer,
        time_config: relaxed(behavior),
    }
}

/// The value that the library read of a text as a whole.
#[inline(always)]
pub(crate) fn value_of(read: Result<(DateTime, usize), Refused>) -> Result<DateTime, Refused>
    ensures value { (text : List ℕ) → (answer : Result DateAndTime Refused)
        → result_map (with_size date_and_time) read ≡ with_length text answer
        → result_map date_and_time result ≡ answer }
    ensures same { IfErr result (λ refused. read ≡ Err refused) }
{
    match read {
        Ok((value, _)) => Ok(value),
        Err(refused) => Err(refused),
    }
}

/// The date-time that the library reads at the front of a text, and how many bytes it takes.
#[tactic(auto, unfolding(crate::specs::Reading::library_front))]
fn library_front(
    text: &[u8],
    behavior: MicrosecondsPrecisionOverflowBehavior,
) -> Result<(DateTime, usize), Refused>
    ensures front { result_map (with_size date_and_time) result ≡ library_front behavior text.now }
    ensures size { IfOk result (λ front. front.1 ≤ length text.now) }
    ensures within { IfErr result (λ refused. refused.place ≤ length text.now) }
{
    match full_front(text) {
        Some((value, size)) => Ok((value, size)),
        None => DateTime::parse_or_place(text, DateTimeForm::Front, &texts(behavior)),
    }
}

/// The date-time of RFC 3339 that a text is.
#[tactic(auto, unfolding(crate::specs::Reading::strict_whole))]
fn strict_whole(
    text: &[u8],
    behavior: MicrosecondsPrecisionOverflowBehavior,
) -> Result<DateTime, Refused>
    ensures whole { result_map date_and_time result ≡ strict_whole behavior text.now }
    ensures within { IfErr result (λ refused. refused.place ≤ length text.now) }
{
    value_of(DateTime::parse_or_place(text, DateTimeForm::Strict, &texts(behavior)))
}

/// The date-time at the front of a text, whose own text is one of RFC 3339 alone.
#[tactic(auto, unfolding(crate::specs::Reading::strict_front))]
fn strict_front(
    text: &[u8],
    behavior: MicrosecondsPrecisionOverflowBehavior,
) -> Result<(DateTime, usize), Refused>
    ensures front { result_map (with_size date_and_time) result ≡ strict_front behavior text.now }
    ensures size { IfOk result (λ front. front.1 ≤ length text.now) }
    ensures within { IfErr result (λ refused. refused.place ≤ length text.now) }
{
    let (value, size) = match library_front(text, behavior) {
        Ok(front) => front,
        Err(refused) => return Err(refused),
    };
    let own = &text[..size];
    match require_standard_date_time(own) {
        Ok(()) => Ok((value, size)),
        // Again, for the place.
        Err(_) => match strict_whole(own, behavior) {
            Ok(value) => Ok((value, size)),
            Err(refused) => Err(refused),
        },
    }
}

/// The midnight of the date at the front of a text, and how many bytes the date takes.
#[tactic(auto, unfolding(crate::specs::Reading::midnight_front))]
fn midnight_front(text: &[u8]) -> Result<(DateTime, usize), Refused>
    ensures front { result_map (with_size date_and_time) result ≡ midnight_front text.now }
    ensures size { IfOk result (λ front. front.1 ≤ length text.now) }
    ensures within { IfErr result (λ refused. refused.place ≤ length text.now) }
{
    match Date::parse_or_place(text, DateForm::Front, &DateConfig::default()) {
        Ok((date, size)) => Ok((midnight_of(date), size)),
        Err(refused) => Err(refused),
    }
}

/// The midnight of the date that a text is.
#[tactic(auto, unfolding(crate::specs::Reading::midnight_whole))]
fn midnight_whole(text: &[u8]) -> Result<DateTime, Refused>
    ensures whole { result_map date_and_time result ≡ midnight_whole text.now }
    ensures within { IfErr result (λ refused. refused.place ≤ length text.now) }
{
    match Date::parse_or_place(text, DateForm::Text, &DateConfig::default()) {
        Ok((date, _)) => Ok(midnight_of(date)),
        Err(refused) => Err(refused),
    }
}

/// The midnight of a date.
pub fn midnight_of(date: Date) -> DateTime
    ensures midnight { date_and_time result ≡ midnight_of (ymd date) }
{
    let time = Time {
        hour: 0,
        minute: 0,
        second: 0,
        microsecond: 0,
        tz_offset: None,
    };
    DateTime { date, time }
}
