//! What the options of a command line ask for.

ghost use Rattle.std.specs.Prelude.{◌≡◌};
ghost use Rattle.speedate_cli.specs.Bound.{bound_form, bound_value, bounds_kind_of, claims_number};
ghost use Rattle.speedate_cli.specs.Bound.{bounds_of, closed, is_local, is_open};
ghost use Rattle.speedate_cli.specs.Field.{separator_of};
ghost use Rattle.speedate_cli.specs.Offset.{is_utc, offset_of};

use self::Refusal::Usage;
use crate::choice::{
    BadGap, bad_of, digits_of, form_of, fraction_of, gap_of, hours_of, is_word, kind_of,
    undated_of, unit_name,
};
use crate::idle::{Asked, BoundsKind, Idle, Kind};
use clap::ArgMatches;
use speedate::{CallKind, MicrosecondsPrecisionOverflowBehavior, Refused, TimestampUnit};
use speedate_base::numbers::byte_at;
use speedate_civil::time::zone_front;
use speedate_commands::between::Bounds;
use speedate_commands::convert::Target;
use speedate_scan::claim::{claims, claims_date, field_claims};
use speedate_scan::field::{NthField, QUOTE};
use speedate_scan::form::Form;
use speedate_scan::print::Prefix;
use speedate_scan::reading::{Place, Reader, assume, instant_of};
use speedate_scan::scan::{BadLines, Offsets, UndatedLines};
use speedate_scan::timestamp::fewest_digits;
use std::fmt;

/// What the command line asks for that every command has.
#[derive(Clone, Copy)]
pub struct Options<'a> {
    /// How values are read.
    pub reader: Reader<'a>,
    /// What is done with lines that have no value.
    pub undated_lines: UndatedLines,
    /// What is done with lines whose value is bad.
    pub bad_lines: BadLines,
    /// Whether the first line of a file is a header.
    pub has_header: bool,
    /// What is printed before each line.
    pub prefix: Prefix,
}

/// Why the command line is refused.
#[derive(Clone, Copy)]
pub enum Refusal {
    /// For people.
    Usage(&'static str),
    /// An option can have no effect.
    Idle(Idle),
    /// A bound of this name is bad.
    Bound(&'static str, BadBound),
    /// The duration of a gap is bad.
    Gap(BadGap),
}

/// What is bad about a bound.
#[derive(Clone, Copy)]
pub enum BadBound {
    /// What this kind of call expected, and at which byte.
    Refused(CallKind, Refused),
    /// It is a number with fewer digits than the Unix timestamps of lines in this unit.
    FewDigits(TimestampUnit),
}

impl fmt::Display for Refusal {
    fn fmt<W: fmt::Write>(&self, f: &mut fmt::Formatter<W>) -> fmt::Result {
        match self {
            Refusal::Usage(text) => f.write_str(text),
            Refusal::Idle(idle) => f.write_str(idle.text()),
            Refusal::Bound(name, bad) => write_bound(name, *bad, f),
            Refusal::Gap(bad) => write_gap(*bad, f),
        }
    }
}

/// Writes why a bound of this name is refused.
fn write_bound<W: fmt::Write>(name: &str, bad: BadBound, f: &mut fmt::Formatter<W>) -> fmt::Result {
    match bad {
        BadBound::Refused(kind, refused) => {
            write_expected(name, refused.place, refused.fault.expected(kind), f)
        }
        BadBound::FewDigits(unit) => write_few_digits(name, unit, f),
    }
}

/// Writes that a bound of this name has few digits for a Unix timestamp.
fn write_few_digits<W: fmt::Write>(
    name: &str,
    unit: TimestampUnit,
    f: &mut fmt::Formatter<W>,
) -> fmt::Result {
    let unit_name = unit_name(unit);
    let digits = fewest_digits(unit);
    write!(
        f,
        "{name}:1: expected {unit_name} since 1970: at least {digits} digits, or a date-time"
    )
}

/// Writes why a gap is refused.
fn write_gap<W: fmt::Write>(bad: BadGap, f: &mut fmt::Formatter<W>) -> fmt::Result {
    match bad {
        BadGap::Bad(bad) => {
            write_expected("--gap", bad.place, bad.why.expected(CallKind::Duration), f)
        }
        BadGap::Negative => f.write_str("--gap:1: expected a duration without a minus"),
    }
}

/// Writes what was expected at a byte of what has this name.
fn write_expected<W: fmt::Write>(
    name: &str,
    place: usize,
    expected: &str,
    f: &mut fmt::Formatter<W>,
) -> fmt::Result {
    let column = place.saturating_add(1);
    write!(f, "{name}:{column}: expected {expected}")
}

/// What every command has, by what is done with digits past the microsecond.
pub fn common<'a>(
    matches: &ArgMatches<'a>,
    kind: Kind,
    behavior: MicrosecondsPrecisionOverflowBehavior,
) -> Result<Options<'a>, Refusal> {
    if let Some(idle) = asked(matches, kind)?.idle() {
        return Err(Refusal::Idle(idle));
    }
    options_of(matches, behavior)
}

/// What every command has, where each option can have an effect.
fn options_of<'a>(
    matches: &ArgMatches<'a>,
    behavior: MicrosecondsPrecisionOverflowBehavior,
) -> Result<Options<'a>, Refusal> {
    let reader = reader(matches, behavior)?;
    Ok(Options {
        reader,
        undated_lines: undated_lines(matches)?,
        bad_lines: bad_lines(matches)?,
        has_header: matches.get_flag("header"),
        prefix: prefix(matches),
    })
}

/// What is printed before each line.
fn prefix(matches: &ArgMatches<'_>) -> Prefix {
    Prefix {
        has_name: matches.get_flag("name"),
        has_number: matches.get_flag("number"),
    }
}

/// Whether an option with a value is given.
fn is_given(matches: &ArgMatches<'_>, name: &str) -> bool {
    matches.get_str(name).is_some()
}

/// The value of an option, or what stands for it if it is not given.
fn given_or<'a>(matches: &ArgMatches<'a>, name: &str, default: &'a str) -> &'a [u8] {
    matches.get_str(name).unwrap_or(default).as_bytes()
}

/// What is asked for that may make an option idle.
fn asked(matches: &ArgMatches<'_>, kind: Kind) -> Result<Asked, Refusal> {
    let form = form(matches)?;
    let undated = undated_lines(matches)?;
    let bad = bad_lines(matches)?;
    Ok(asked_by(matches, kind, form, undated, bad))
}

/// What is asked for, by what values are, and by what is done with lines that have no good value.
fn asked_by(
    matches: &ArgMatches<'_>,
    kind: Kind,
    form: Form,
    undated: UndatedLines,
    bad: BadLines,
) -> Asked {
    Asked {
        kind,
        has_field: is_given(matches, "field"),
        compares: compares(matches),
        bounds: bounds_kind(matches, form),
        is_in_order: matches.get_flag("in-order"),
        is_date: form == Form::Date,
        is_timestamp: is_timestamp(form),
        is_whole: is_whole(form),
        is_strict: matches.get_flag("strict"),
        has_offset: is_given(matches, "offset"),
        has_target: is_given(matches, "to"),
        is_target_utc: is_target_utc(matches),
        has_fraction: is_given(matches, "fraction"),
        has_digits: is_given(matches, "digits"),
        undated: is_given(matches, "undated").then_some(undated),
        bad: is_given(matches, "bad").then_some(bad),
    }
}

/// Whether values are compared with those before them.
fn compares(matches: &ArgMatches<'_>) -> bool {
    matches.get_flag("order") || is_given(matches, "gap")
}

/// Whether values are Unix timestamps.
fn is_timestamp(form: Form) -> bool {
    matches!(form, Form::Timestamp(_))
}

/// Whether values have no digit past the microsecond.
fn is_whole(form: Form) -> bool {
    matches!(
        form,
        Form::Date | Form::Timestamp(TimestampUnit::Microsecond)
    )
}

/// Whether `--to` asks for UTC.
fn is_target_utc(matches: &ArgMatches<'_>) -> bool {
    match matches.get_str("to") {
        Some(text) => offset_of(text.as_bytes()) == Some(0),
        None => false,
    }
}

/// What the bounds are, if the command has bounds.
fn bounds_kind(matches: &ArgMatches<'_>, form: Form) -> Option<BoundsKind> {
    let from = matches.get_str("FROM")?;
    let to = matches.get_str("TO")?;
    Some(bounds_kind_of(from.as_bytes(), to.as_bytes(), form))
}

/// What two bounds are, by their texts.
fn bounds_kind_of(from: &[u8], to: &[u8], form: Form) -> BoundsKind
    ensures kind { result ≡ bounds_kind_of form from.now to.now }
{
    if is_open(from) && is_open(to) {
        BoundsKind::Open
    } else if is_local(from, form) || is_local(to, form) {
        BoundsKind::Local
    } else {
        BoundsKind::Fixed
    }
}

/// Whether a bound is open.
fn is_open(text: &[u8]) -> bool
    ensures open { result ≡ is_open text.now }
{
    is_word(text, b"..")
}

/// Whether a bound is a date, or a date-time without an offset.
fn is_local(text: &[u8], form: Form) -> bool
    ensures local { result ≡ is_local form text.now }
{
    if is_open(text) || claims_number(text, form) {
        return false;
    }
    let form = bound_form(text, form);
    match form.whole(text, MicrosecondsPrecisionOverflowBehavior::Truncate) {
        Ok(value) => value.time.tz_offset.is_none(),
        Err(_) => true,
    }
}

/// How values are read.
fn reader<'a>(
    matches: &ArgMatches<'a>,
    behavior: MicrosecondsPrecisionOverflowBehavior,
) -> Result<Reader<'a>, Refusal> {
    Ok(Reader {
        place: place(matches)?,
        form: form(matches)?,
        behavior,
        offset: offset(matches)?,
    })
}

/// Where the value of a line begins.
fn place<'a>(matches: &ArgMatches<'a>) -> Result<Place<'a>, Refusal> {
    match (matches.get_str("after"), matches.get_str("field")) {
        (Some(_), Some(_)) => Err(Usage("--after and --field exclude each other")),
        (None, Some(text)) => place_in_field(matches, text),
        (after, None) => place_without_field(matches, after),
    }
}

/// Where the value of a line begins that is a field.
fn place_in_field<'a>(matches: &ArgMatches<'a>, text: &str) -> Result<Place<'a>, Refusal> {
    Ok(Place::Field(NthField {
        number: field_number(text)?,
        separator: separator(matches)?,
    }))
}

/// Where the value of a line begins that is no field.
fn place_without_field<'a>(
    matches: &ArgMatches<'a>,
    after: Option<&'a str>,
) -> Result<Place<'a>, Refusal> {
    if is_given(matches, "separator") {
        return Err(Usage("--separator wants --field"));
    }
    match after {
        Some(text) => place_after(text),
        None => Ok(Place::Front),
    }
}

/// The place after a text.
fn place_after(text: &str) -> Result<Place<'_>, Refusal> {
    if text.is_empty() {
        Err(Usage("--after wants a text that is not empty"))
    } else if text.as_bytes().contains(&b'\n') {
        Err(Usage("--after wants a text without a line feed, which no line has"))
    } else {
        Ok(Place::After(text.as_bytes()))
    }
}

/// The number of a field.
fn field_number(text: &str) -> Result<usize, Refusal> {
    match text.parse::<usize>() {
        Ok(number) if number > 0 => Ok(number),
        _ => Err(Usage("--field is a number, and the first field is 1")),
    }
}

/// The byte between two fields.
fn separator(matches: &ArgMatches<'_>) -> Result<u8, Refusal> {
    separator_of(given_or(matches, "separator", ",")).ok_or(Usage(
        "--separator is one byte that is no quote and ends no line, or \\t for a tab",
    ))
}

/// The byte between two fields, by its text: a tab is `\t` too.
fn separator_of(text: &[u8]) -> Option<u8>
    ensures separator { result ≡ separator_of text.now }
{
    if is_word(text, b"\\t") {
        return Some(b'\t');
    }
    let byte = byte_at(text, 0);
    if text.len() == 1 && byte != QUOTE && byte != b'\n' && byte != b'\r' {
        Some(byte)
    } else {
        None
    }
}

/// What a value is.
fn form(matches: &ArgMatches<'_>) -> Result<Form, Refusal> {
    match kind_of(given_or(matches, "kind", "datetime")) {
        Some(kind) => Ok(form_of(kind, matches.get_flag("strict"))),
        None => Err(Usage("--kind is datetime, date, seconds, milliseconds or microseconds")),
    }
}

/// What `check` does with digits past the microsecond.
pub fn behavior(
    matches: &ArgMatches<'_>,
) -> Result<MicrosecondsPrecisionOverflowBehavior, Refusal> {
    match matches.get_str("digits") {
        None => Ok(MicrosecondsPrecisionOverflowBehavior::Truncate),
        Some(text) => digits_of(text.as_bytes()).ok_or(Usage("--digits is 6")),
    }
}

/// The offset of values and bounds that have none.
fn offset(matches: &ArgMatches<'_>) -> Result<Option<i32>, Refusal> {
    match matches.get_str("offset") {
        None => Ok(None),
        Some(text) => match offset_of(text.as_bytes()) {
            Some(offset) => Ok(Some(offset)),
            None => Err(Usage(
                "--offset is an offset as values have it, Z, +01:00, +0100 or +01, or utc",
            )),
        },
    }
}

/// What is done with lines that have no value.
fn undated_lines(matches: &ArgMatches<'_>) -> Result<UndatedLines, Refusal> {
    let default = if is_given(matches, "field") {
        "bad"
    } else {
        "join"
    };
    undated_of(given_or(matches, "undated", default)).ok_or(Usage("--undated is join, drop or bad"))
}

/// What is done with lines whose value is bad.
fn bad_lines(matches: &ArgMatches<'_>) -> Result<BadLines, Refusal> {
    bad_of(given_or(matches, "bad", "keep")).ok_or(Usage("--bad is keep or stop"))
}

/// Whether a total is printed in hours.
pub fn has_hours(matches: &ArgMatches<'_>) -> Result<bool, Refusal> {
    hours_of(given_or(matches, "to", "text")).ok_or(Usage("--to is text or hours"))
}

/// The longest time between two values, in nanoseconds, if a value after a longer one is reported.
pub fn gap(matches: &ArgMatches<'_>) -> Result<Option<i128>, Refusal> {
    let Some(text) = matches.get_str("gap") else {
        return Ok(None);
    };
    match gap_of(text.as_bytes()) {
        Ok(gap) => Ok(Some(gap)),
        Err(bad) => Err(Refusal::Gap(bad)),
    }
}

/// With how many digits after their second values are written, if not with as many as they have.
pub fn fraction_digits(matches: &ArgMatches<'_>) -> Result<Option<usize>, Refusal> {
    let Some(text) = matches.get_str("fraction") else {
        return Ok(None);
    };
    match fraction_of(text.as_bytes()) {
        Some(count) => Ok(Some(count)),
        None => Err(Usage("--fraction is 0, 3, 6 or 9")),
    }
}

/// At which offset values are written.
pub fn target(matches: &ArgMatches<'_>) -> Result<Target, Refusal> {
    match matches.get_str("to") {
        None | Some("text") => Ok(Target::Own),
        Some(text) => match offset_of(text.as_bytes()) {
            Some(offset) => Ok(Target::Offset(offset)),
            None => Err(Usage(
                "--to is text, or an offset as values have it, Z, +01:00, +0100 or +01, or utc",
            )),
        },
    }
}

/// Whether a text is `utc` or `UTC`.
fn is_utc(text: &[u8]) -> bool
    ensures utc { result ≡ is_utc text.now }
{
    is_word(text, b"utc") || is_word(text, b"UTC")
}

/// The seconds of an offset as values may have it right after their clock, or of `utc`: 3,600 of `+01:00`.
fn offset_of(text: &[u8]) -> Option<i32>
    ensures offset { result ≡ offset_of text.now }
{
    if is_utc(text) {
        return Some(0);
    }
    if byte_at(text, 0) == b' ' {
        return None;
    }
    match zone_front(text, 0) {
        Ok((offset, size)) if size == text.len() => offset,
        _ => None,
    }
}

/// A bound: its nanosecond, and whether it has an offset, or open.
type Bound = Option<(i128, bool)>;

/// The bounds of `between`, and which values fit them.
pub fn bounds(matches: &ArgMatches<'_>, reader: &Reader<'_>) -> Result<(Bounds, Offsets), Refusal> {
    let from = bound_of("FROM", matches.get_str("FROM"), reader)?;
    let to = bound_of("TO", matches.get_str("TO"), reader)?;
    match bounds_of(from, to) {
        Ok(bounds) => Ok(bounds),
        Err(unordered) => Err(unordered_refusal(unordered)),
    }
}

/// Why the command line is refused for its bounds.
fn unordered_refusal(unordered: Unordered) -> Refusal {
    match unordered {
        Unordered::Mixed => Usage(
            "FROM and TO both have an offset or neither; --offset gives them one",
        ),
        Unordered::Reversed => Usage("FROM is after TO"),
    }
}

/// Why two bounds are refused together.
#[derive(Clone, Copy)]
pub enum Unordered {
    /// Only one of them has an offset.
    Mixed,
    /// The first is after the second.
    Reversed,
}

/// Two bounds that were read, and which values fit them.
fn bounds_of(from: Bound, to: Bound) -> Result<(Bounds, Offsets), Unordered>
    ensures bounds { result ≡ bounds_of from to }
{
    match (from, to) {
        (Some((first, has_offset)), Some((second, second_has_offset))) => {
            if has_offset != second_has_offset {
                return Err(Unordered::Mixed);
            }
            if first > second {
                return Err(Unordered::Reversed);
            }
            Ok(closed(Some(first), Some(second), has_offset))
        }
        (Some((first, has_offset)), None) => Ok(closed(Some(first), None, has_offset)),
        (None, Some((second, has_offset))) => Ok(closed(None, Some(second), has_offset)),
        (None, None) => {
            let bounds = Bounds {
                from: None,
                to: None,
            };
            Ok((bounds, Offsets::Any))
        }
    }
}

/// Bounds of which at least one is not open, and which values fit them.
fn closed(from: Option<i128>, to: Option<i128>, has_offset: bool) -> (Bounds, Offsets)
    ensures bounds { result ≡ closed from to has_offset }
{
    (Bounds { from, to }, Offsets::AsBounds(has_offset))
}

/// A bound by its name and its text.
fn bound_of(name: &'static str, text: Option<&str>, reader: &Reader<'_>) -> Result<Bound, Refusal> {
    let Some(text) = text else {
        return Ok(None);
    };
    if is_open(text.as_bytes()) {
        return Ok(None);
    }
    match bound_value(text.as_bytes(), reader.form, reader.offset) {
        Ok(bound) => Ok(Some(bound)),
        Err(bad) => Err(Refusal::Bound(name, bad)),
    }
}

/// The nanosecond of a bound that is not open, and whether it has an offset, by what values are, and by the offset
/// that one without gets. A date is its midnight. Where values are Unix timestamps, a number is one too, and has as many
/// digits as theirs: one with fewer is mostly in another unit.
fn bound_value(text: &[u8], form: Form, offset: Option<i32>) -> Result<(i128, bool), BadBound>
    ensures value { result ≡ bound_value form offset text.now }
{
    let form = bound_form(text, form);
    if let Form::Timestamp(unit) = form {
        if !claims(form, text) {
            return Err(BadBound::FewDigits(unit));
        }
    }
    match form.whole(text, MicrosecondsPrecisionOverflowBehavior::Truncate) {
        Ok(value) => {
            let value = assume(offset, value);
            let instant = instant_of(form, text, &value);
            Ok((instant, value.time.tz_offset.is_some()))
        }
        Err(refused) => Err(BadBound::Refused(form.call_kind(), refused)),
    }
}

/// What a bound is, by what values are: a number is as they are, and a text of at most ten bytes is a date.
fn bound_form(text: &[u8], form: Form) -> Form
    ensures form { result ≡ bound_form form text.now }
{
    if claims_number(text, form) {
        form
    } else if text.len() > 10 {
        Form::DateTime
    } else {
        Form::Date
    }
}

/// Whether values are numbers, and a text begins with one and not with a date.
fn claims_number(text: &[u8], form: Form) -> bool
    ensures number { result ≡ claims_number form text.now }
{
    field_claims(form, text) && !claims_date(text)
}
