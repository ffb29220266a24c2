//! Dates, times of day, date-times, durations and numbers, parsed from bytes; all but the numbers are
//! printed, each value as exactly one text. A port of the Rust crate `speedate` 0.18.0.
//!
//! ```
//! let date = Date::parse_str("2020-02-29")?;          // year 2020, month 2, day 29
//! let text = date.to_text();                          // text.as_str() is "2020-02-29"
//! let refused = Date::parse_str("2021-02-29");        // Err(ParseError::OutOfRangeDay)
//! let value = DateTime::parse_str("1654646404")?;     // 2022-06-08T00:00:04
//! let duration = Duration::parse_str("PT90M")?;       // an hour and a half, printed as PT1H30M
//! ```
//!
//! Nothing is allocated, and no clock is read: [`DateTime::now`] and [`Date::today`] take the clock
//! as an argument. Years are 0000 to 9999. Without floats, a decimal timestamp, and a fraction of
//! an ISO 8601 duration, becomes its nearest microsecond by all its digits.
//!
//! - [`Date`]: a day of the calendar, with day numbers, days added and counted, and an order.
//! - [`Time`]: a time of day, with an offset from UTC or without one.
//! - [`DateTime`]: a date and a time, with timestamps, moves to other offsets, and the order by
//!   instant.
//! - [`Duration`]: days, seconds and microseconds with a sign, the duration between two values, and the
//!   value a duration after another.
//! - [`Decimal`], [`IntFloat`], [`int_parse_bytes`] and [`float_parse_bytes`]: numbers as texts.
//! - [`read_column`] and [`read_column_with_errors`]: the lines of a text as numbers, by a
//!   [`DateReader`], a [`DateTimeReader`], a [`DateTimeClockReader`], a [`DateTimeOffsetReader`], a
//!   [`DateTimeFrontReader`], a [`TimeReader`], a [`TimeOffsetReader`] or a [`DurationReader`];
//!   [`read_texts`] reads texts that offsets cut out of the same bytes; [`line_end`] finds the end of a
//!   line.
//! - [`FractionDigits`]: how many digits of a second's fraction are printed.
//! - [`DateConfig`], [`TimeConfig`], [`DateTimeConfig`] and their builders: how texts are parsed.
//! - [`ParseError`], [`ConfigError`]: the errors. A text that is refused has exactly one, and each has
//!   a name, such as `out_of_range_day`, and by the [`CallKind`] a phrase on what was expected. A
//!   [`Refused`] has its place too.
//!
//! # Parsers and configurations
//!
//! `parse_str` and `parse_bytes` have the default configuration; `text.parse()` is `parse_str`.
//! These take a configuration:
//!
//! - a [`DateConfig`]: `parse_str_with_config`, `parse_bytes_with_config` and `from_timestamp` of
//!   [`Date`];
//! - a [`TimeConfig`]: `parse_bytes_with_config` of [`Time`] and [`Duration`], `parse_front` of
//!   [`Time`] and [`DateTime`], `from_timestamp_with_config` of [`Time`], and
//!   `parse_bytes_rfc3339_with_config` of [`DateTime`];
//! - a [`DateTimeConfig`]: `parse_str_with_config`, `parse_bytes_with_config`,
//!   `from_timestamp_with_config` and `from_decimal_with_config` of [`DateTime`].
//!
//! A whole number in place of a date or a date-time, or a decimal in place of a date-time, is a Unix
//! timestamp: seconds, milliseconds or microseconds since 1970-01-01T00:00:00 in UTC, and by default
//! seconds if it is at most 20,000,000,000 without its sign, otherwise milliseconds. The calls with
//! `rfc3339` in their names, `parse_bytes_strict` and `parse_front` parse no timestamps.
//!
//! # Documents
//!
//! `docs/GRAMMAR.md` has the texts and the errors, as tables; `docs/RATTLE.md` the first check,
//! which call does what, and callers; `docs/DIFFERENCES.md` what differs from the Rust crate. Some of its calls
//! have another name here: `to_string` is `to_text`, `from_float_with_config` is
//! [`DateTime::from_decimal_with_config`], and `<` of times and date-times is `cmp_instant`.
#![tactic(auto)]

mod column;
mod duration;

pub use column::{
    DatePrinter, DateReader, DateTimeClockPrinter, DateTimeClockReader, DateTimeFront,
    DateTimeFrontReader, DateTimeOffsetReader, DateTimeParser, DateTimePrinter, DateTimeReader,
    DurationPrinter, DurationReader, LINE_MAX, LineConfig, LineError, LinePrinter, LineReader,
    Progress, TimeOffsetReader, TimeParser, TimePrinter, TimeReader, duration_microseconds,
    print_column, read_column, read_column_with_errors, read_texts, timestamp_microseconds,
};
pub use duration::{DAYS_MAX, Duration, DurationSum};
pub use speedate_base::config::{
    DateConfig, DateConfigBuilder, DateTimeConfig, DateTimeConfigBuilder, IsoOrder,
    MicrosecondsPrecisionOverflowBehavior, TimeConfig, TimeConfigBuilder, TimestampUnit,
};
pub use speedate_base::faults::{CallKind, ConfigError, ParseError};
pub use speedate_base::lines::line_end;
pub use speedate_base::numbers::{
    Decimal, IntFloat, float_parse_bytes, float_parse_str, int_parse_bytes, int_parse_str,
};
pub use speedate_base::refusal::Refused;
pub use speedate_civil::date::{Date, is_leap_year, month_length};
pub use speedate_civil::datetime::{DateTime, Moment};
pub use speedate_civil::form::{DateForm, DateTimeForm, TimeForm};
pub use speedate_civil::time::{FractionDigits, Time};
