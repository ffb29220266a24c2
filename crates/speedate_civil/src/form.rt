//! How a text is read.

/// How [`Date::parse_or_place`](crate::date::Date::parse_or_place) reads a text. The default is the text of a
/// date alone.
#[derive(Clone, Copy, Debug, PartialEq, Eq, Default)]
pub enum DateForm {
    /// The whole text is a date, and no number is a timestamp.
    #[default]
    Text,
    /// The whole text is a date, or a timestamp in the unit of the configuration, which has to be a midnight.
    OrTimestamp,
    /// The text begins with a date, whatever follows it.
    Front,
}

/// How [`Time::parse_or_place`](crate::time::Time::parse_or_place) reads a text. The default is the text of a
/// time alone.
#[derive(Clone, Copy, Debug, PartialEq, Eq, Default)]
pub enum TimeForm {
    /// The whole text is a time.
    #[default]
    Text,
    /// The whole text is a time with an offset, of RFC 3339 and nothing else.
    Strict,
    /// The text begins with a time, whatever follows it.
    Front,
}

/// How [`DateTime::parse_or_place`](crate::datetime::DateTime::parse_or_place) reads a text. The default is the
/// text of a date-time alone.
#[derive(Clone, Copy, Debug, PartialEq, Eq, Default)]
pub enum DateTimeForm {
    /// The whole text is a date-time, and no number is a timestamp.
    #[default]
    Text,
    /// The whole text is a date-time, or a timestamp in the unit of the configuration, to which it gives the
    /// offset of the configuration.
    OrTimestamp,
    /// The whole text is a date-time of RFC 3339 and nothing else.
    Strict,
    /// The text begins with a date-time, whatever follows it. It is never a timestamp.
    Front,
    /// The whole text is a date-time with [a zone as programs print it](docs/GRAMMAR.md#zones-that-programs-print):
    /// `2026-11-22 06:10:00 +0100`, `.. UTC`, `..+01`. No number is a timestamp.
    Loose,
    /// The text begins with such a date-time, as a line of a log does, and neither a letter nor a digit follows it, nor a
    /// `.`, `:`, `+` or `-` with a digit.
    LooseFront,
}
