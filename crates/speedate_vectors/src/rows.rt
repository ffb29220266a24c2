//! Tables of tests. A table is a text, and each of its lines a row: words, and where a text is read that
//! text in quotes, the answer to it last. `<9*5000>` in quotes stands for 5,000 times `9`.

use speedate::{Date, DateTime, DateTimeConfig, Duration, IsoOrder, ParseError, Time, TimeConfig};
use std::fmt::{Debug, Display};
use std::process::Abort;
use std::str::FromStr;

/// What stands before the text in quotes, that text, and what stands after it.
pub fn quoted<'a, R: AllocGlobal + Abort>(rt: &R, row: &'a str) -> (&'a str, String, &'a str) {
    let (before, rest) = row.split_once('\'').expect(rt, row);
    let (text, after) = rest.rsplit_once('\'').expect(rt, row);
    (before.trim_end(), spelled(rt, text), after.trim_start())
}

/// The text with what is repeated in it.
fn spelled<R: AllocGlobal + Abort>(rt: &R, text: &str) -> String {
    let (front, rest) = text.split_once('<').unwrap_or((text, ">"));
    let (run, back) = rest.split_once('>').expect(rt, text);
    let (repeated, count) = run.split_once('*').unwrap_or(("", "0"));
    let run = repeated.repeat(rt.alloc(), value(rt, count));
    let run = run.ok().expect(rt, text);
    let whole = format!(in rt.alloc(); "{front}{run}{back}");
    whole.ok().expect(rt, text)
}

/// The first six words of a row, and no text for those that it lacks.
pub fn words(row: &str) -> [&str; 6] {
    let mut words = [""; 6];
    for (place, word) in row.split_whitespace().enumerate() {
        if place < words.len() {
            words[place] = word;
        }
    }
    words
}

/// The number that a word is, or the choice of its name, which is to be one.
pub fn value<T: FromStr, R: Abort>(rt: &R, word: &str) -> T
where
    T::Err: Drop,
{
    T::from_str(word).ok().expect(rt, word)
}

/// The value that a text is, by the `parse_str` of its type, which is to be one.
pub fn parsed<T: HasText, R: Abort>(rt: &R, text: &str) -> T {
    T::parse(text).ok().expect(rt, text)
}

/// An offset in seconds, and none for `-` and for no word.
pub fn offset<R: Abort>(rt: &R, word: &str) -> Option<i32> {
    if word.is_empty() || word == "-" {
        return None;
    }
    Some(value(rt, word))
}

/// The configuration of a behavior, an offset and an order of components.
pub fn time_config<R: Abort>(rt: &R, row: &str) -> TimeConfig {
    let [behavior, offset_word, order, ..] = words(row);
    let builder = TimeConfig::builder()
        .microseconds_precision_overflow_behavior(value(rt, behavior))
        .iso_order(IsoOrder::from_name(order).unwrap_or_default())
        .try_unix_timestamp_offset(offset(rt, offset_word));
    builder.ok().expect(rt, row).build()
}

/// The configuration of a unit, a behavior and an offset.
pub fn date_time_config<R: Abort>(rt: &R, row: &str) -> DateTimeConfig {
    let (unit, rest) = row.split_once(' ').expect(rt, row);
    DateTimeConfig::builder()
        .timestamp_unit(value(rt, unit))
        .time_config(time_config(rt, rest))
        .build()
}

/// What was found is to be what the row wants.
pub fn same<T: PartialEq + Debug + Copy, W: Display + Copy, R: Abort>(
    rt: &R,
    found: T,
    want: T,
    row: W,
) {
    assert_eq!(rt; found, want, "{row}");
}

/// A value that a text is, and that is printed as one.
pub trait HasText: Copy {
    /// The answer of `parse_str`.
    fn parse(text: &str) -> Result<Self, ParseError>
    where
        Self: Sized;

    /// The text that `to_text` gives is to be the one that the row wants.
    fn expect_text<R: Abort>(&self, rt: &R, want: &str, row: &str);
}

impl HasText for Date {
    fn parse(text: &str) -> Result<Self, ParseError> {
        Self::parse_str(text)
    }

    fn expect_text<R: Abort>(&self, rt: &R, want: &str, row: &str) {
        same(rt, self.to_text().as_str(), want, row);
    }
}

impl HasText for Time {
    fn parse(text: &str) -> Result<Self, ParseError> {
        Self::parse_str(text)
    }

    fn expect_text<R: Abort>(&self, rt: &R, want: &str, row: &str) {
        same(rt, self.to_text().as_str(), want, row);
    }
}

impl HasText for DateTime {
    fn parse(text: &str) -> Result<Self, ParseError> {
        Self::parse_str(text)
    }

    fn expect_text<R: Abort>(&self, rt: &R, want: &str, row: &str) {
        same(rt, self.to_text().as_str(), want, row);
    }
}

impl HasText for Duration {
    fn parse(text: &str) -> Result<Self, ParseError> {
        Self::parse_str(text)
    }

    fn expect_text<R: Abort>(&self, rt: &R, want: &str, row: &str) {
        same(rt, self.to_text().as_str(), want, row);
    }
}

/// The answer to a row is to be the value that is printed so, or the error of that name.
pub fn expect<T: HasText, R: Abort>(rt: &R, answer: Result<T, ParseError>, want: &str, row: &str) {
    match answer {
        Ok(value) => value.expect_text(rt, want, row),
        Err(fault) => same(rt, fault.name(), want, row),
    }
}

/// What a row gives is to be the value that is printed so, or none.
pub fn expect_or_none<T: HasText, R: Abort>(rt: &R, found: Option<T>, want: &str, row: &str) {
    match found {
        Some(value) => value.expect_text(rt, want, row),
        None => same(rt, "none", want, row),
    }
}

/// The answer to a row is to be the value that is printed so and that many bytes, or the error of that name.
pub fn expect_front<T: HasText, R: Abort>(
    rt: &R,
    answer: Result<(T, usize), ParseError>,
    want: &str,
    row: &str,
) {
    let [want, size, ..] = words(want);
    if let Ok((_, taken)) = answer {
        same(rt, taken, value(rt, size), row);
    }
    expect(rt, answer.map(|front| front.0), want, row);
}
