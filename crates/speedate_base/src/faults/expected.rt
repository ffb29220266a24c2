//! What was expected where a text, or a value, is refused.

ghost use Rattle.std.specs.Prelude.{◌≡◌, ◌≤◌, length};
ghost use Rattle.speedate_base.specs.Expected.{expected_shape, expected_text, is_duration};
ghost use Rattle.speedate_base.specs.Expected.{is_of_texts, is_strict};

use super::ParseError;

/// The kind of a call, on which it depends what the call expected.
#[derive(Clone, Copy, Debug)]
pub enum CallKind {
    /// It takes values or numbers, and no text.
    Values,
    /// It parses dates, at the front of a text too.
    Date,
    /// It parses dates and timestamps.
    DateOrTimestamp,
    /// It parses times, at the front of a text too.
    Time,
    /// It parses only times of RFC 3339.
    TimeStrict,
    /// It parses date-times, at the front of a text too.
    DateTime,
    /// It parses date-times and timestamps.
    DateTimeOrTimestamp,
    /// It parses only date-times of RFC 3339.
    DateTimeStrict,
    /// It parses durations.
    Duration,
}

impl CallKind {
    /// Whether the call parses only texts of RFC 3339.
    fn is_strict(self) -> bool
        ensures is { result ≡ is_strict self }
    {
        matches!(self, CallKind::TimeStrict | CallKind::DateTimeStrict)
    }

    /// Whether the call parses durations.
    fn is_duration(self) -> bool
        ensures is { result ≡ is_duration self }
    {
        matches!(self, CallKind::Duration)
    }

    /// Whether the call parses texts.
    fn is_of_texts(self) -> bool
        ensures is { result ≡ is_of_texts self }
    {
        !matches!(self, CallKind::Values)
    }

    /// The shape of the texts that the call parses.
    fn shape(self) -> &'static str
        ensures shape { result.now ≡ expected_shape self }
        ensures short { length result.now ≤ 63 }
    {
        match self {
            CallKind::Values => "a longer text",
            CallKind::Date => "a date: YYYY-MM-DD",
            CallKind::DateOrTimestamp => "a date, YYYY-MM-DD, or a whole number",
            CallKind::Time => "a time: HH:MM or HH:MM:SS",
            CallKind::TimeStrict => "a time with an offset: HH:MM:SSZ or HH:MM:SS+01:00",
            CallKind::DateTime => "a date-time: YYYY-MM-DDTHH:MM or YYYY-MM-DDTHH:MM:SS",
            CallKind::DateTimeOrTimestamp => "a date-time, as YYYY-MM-DDTHH:MM:SS, or a number",
            CallKind::DateTimeStrict => "a date-time with an offset, as YYYY-MM-DDTHH:MM:SSZ",
            CallKind::Duration => "more of a duration, as in P1DT2H, 01:30:00 or 2 days, 10:20",
        }
    }
}

impl ParseError {
    /// What a call of this kind expected where the text, or the value, is refused: a phrase for people, of
    /// at most 63 bytes. `month, 01 to 12` for `ParseError::OutOfRangeMonth` and `CallKind::Date`.
    pub fn expected(&self, kind: CallKind) -> &'static str
        ensures text { result.now ≡ expected_text self.now kind }
        ensures short { length result.now ≤ 63 }
    {
        match self {
            ParseError::TooShort => kind.shape(),
            ParseError::ExtraCharacters => "nothing more",
            ParseError::InvalidCharDateTimeSep if kind.is_strict() => "T or t, then a time",
            ParseError::InvalidCharDateTimeSep => "T, t, _ or a space, then a time",
            ParseError::InvalidCharDateSep => "a hyphen, as in YYYY-MM-DD",
            ParseError::DateNotExact if kind.is_of_texts() => "a date, or a timestamp at midnight",
            ParseError::DateNotExact => "a timestamp at midnight, or a duration of whole days",
            ParseError::InvalidCharYear => "four digits of the year",
            ParseError::InvalidCharMonth => "two digits of the month",
            ParseError::InvalidCharDay => "two digits of the day",
            ParseError::InvalidCharTimeSep if kind.is_strict() => "a colon, as in HH:MM:SS",
            ParseError::InvalidCharTimeSep => "a colon, as in HH:MM",
            ParseError::InvalidCharHour if kind.is_duration() =>
                "digits of the hours, then a colon",
            ParseError::InvalidCharHour => "two digits of the hour",
            ParseError::InvalidCharMinute => "two digits of the minute",
            ParseError::InvalidCharSecond => "two digits of the second",
            ParseError::InvalidCharSecondFraction => "digits of the second's fraction",
            ParseError::InvalidCharTzSign if kind.is_strict() =>
                "after the clock an offset in ASCII, Z or -01:00; no comma",
            ParseError::InvalidCharTzSign => "after the clock at most an offset: Z or +01:00",
            ParseError::InvalidCharTzHour => "two digits of the offset's hour",
            ParseError::InvalidCharTzMinute if kind.is_strict() =>
                "the offset's minute after a colon, as in +01:00",
            ParseError::InvalidCharTzMinute => "two digits of the offset's minute",
            ParseError::OutOfRangeTzMinute => "the offset's minute, 00 to 59",
            ParseError::OutOfRangeTz => "an offset of less than 24 hours",
            ParseError::TzRequired if kind.is_of_texts() => "an offset: Z or +01:00",
            ParseError::TzRequired => "a value that has an offset",
            ParseError::SystemTimeError => "a clock that shows 1970 or later",
            ParseError::OutOfRangeMonth => "month, 01 to 12",
            ParseError::OutOfRangeDay => "a day that the month has",
            ParseError::OutOfRangeHour => "hour, 00 to 23",
            ParseError::OutOfRangeMinute => "minute, 00 to 59",
            ParseError::OutOfRangeSecond => "second, 00 to 59",
            ParseError::SecondFractionTooLong if kind.is_duration() =>
                "after the hours at most MM:SS.ffffff, as in 01:30:00.123456",
            ParseError::SecondFractionTooLong => "at most six digits of a second's fraction",
            ParseError::SecondFractionMissing => "a digit of the second's fraction",
            ParseError::MillisecondFractionTooLong =>
                "at most three digits of a millisecond's fraction",
            ParseError::DurationInvalidNumber => "digits of a number, as in P1D or 1 day",
            ParseError::DurationTRepeated => "no second T",
            ParseError::DurationInvalidFraction => "no further component after a fraction",
            ParseError::DurationInvalidTimeUnit => "H, M or S",
            ParseError::DurationInvalidDateUnit => "Y, M, W or D; H, M or S after a T",
            ParseError::DurationInvalidDays => "d, day or days; a clock alone is 01:30 or longer",
            ParseError::DurationValueTooLarge if kind.is_of_texts() =>
                "numbers and sums of at most 4,294,967,295",
            ParseError::DurationValueTooLarge => "the numbers of a duration within their ranges",
            ParseError::DurationHourValueTooLarge =>
                "hours: up to 23 after days, or 10 digits up to 2,400,000,000",
            ParseError::DurationDaysTooLarge => "at most 999,999,999 days",
            ParseError::DateTooSmall => "a date in the years 0000 to 9999",
            ParseError::DateTooLarge => "a date in the years 0000 to 9999",
            ParseError::TimeTooLarge => "a time within the day: 00:00:00 to 23:59:59.999999",
            ParseError::DurationUnitOrder => "each unit once, in the order Y, M, W, D, T, H, M, S",
            ParseError::MicrosecondFractionTooLong => "no digit of a microsecond's fraction",
        }
    }
}
