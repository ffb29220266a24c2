//! Date-times from timestamps, as numbers and as texts, and back.

ghost use Rattle.std.specs.Option.{ForSome};
ghost use Rattle.std.specs.Prelude.{◌≡◌, ◌≤◌, ◌≤ℤ◌, ◌+ℤ◌, ◌-ℤ◌, ◌*ℤ◌, Ok, IfErr, IfOk, None, length, pos, Err};
ghost use Rattle.speedate_base.specs.Config.{choices};
ghost use Rattle.speedate_base.specs.Nearest.{IsNearest};
ghost use Rattle.speedate_base.specs.Numbers.{decimal_scale, decimal_value, number_answer};
ghost use Rattle.speedate_base.specs.Offset.{IsOffset, IsWholeMinutes};
ghost use Rattle.speedate_base.specs.Requirement.{or_number, result_map};
ghost use Rattle.speedate_base.specs.Timestamp.{IsInYears, decimal_instant, decimal_numerator};
ghost use Rattle.speedate_base.specs.Timestamp.{decimal_row, first_second, last_second};
ghost use Rattle.speedate_base.specs.Timestamp.{unix_instant, unix_row};
ghost use Rattle.speedate_civil.specs.Base.{TimestampUnit};
ghost use Rattle.speedate_civil.specs.DateTime.{IsShownAt, date_and_time, date_time_answer};
ghost use Rattle.speedate_civil.specs.DateTime.{date_time_at, date_time_by_config};
ghost use Rattle.speedate_civil.specs.DateTime.{date_time_decimal_answer, decimal_instant_answer};
ghost use Rattle.speedate_civil.specs.DateTime.{date_time_timestamp_answer};
ghost use Rattle.speedate_civil.specs.DateTime.{instant_date_time, local_microsecond};
ghost use Rattle.speedate_civil.specs.DateTime.{local_millisecond, local_second, meant_microsecond};
ghost use Rattle.speedate_civil.specs.DateTime.{number_instant, utc_microsecond};
ghost use Rattle.speedate_civil.specs.DateTime.{utc_millisecond, utc_second, whole_instant};
ghost use Rattle.speedate_civil.specs.DateTime.{◌gives◌};
ghost use Rattle.speedate_base.specs.Refused.{seen_as};
ghost use Rattle.std.specs.Option.{option_map};

use super::DateTime;
use crate::date::{Date, may_be_number};
use crate::time::Time;
use speedate_base::config::{DateTimeConfig, MicrosecondsPrecisionOverflowBehavior, TimestampUnit};
use speedate_base::faults::ParseError;
use speedate_base::numbers::{Decimal, IntFloat, float_parse_bytes, takes_digits};
use speedate_base::refusal::Refusal;
use speedate_base::util::{
    UnixTime, UnixUnit, decimal_to_seconds_micros, decimal_unit, timestamp_to_seconds_micros,
};

impl DateTime {
    /// The date-time of a Unix timestamp, whose unit is inferred, and additional microseconds, without
    /// an offset: 1970-01-01T00:00:00.667444 for -1 and 1,667,444 microseconds.
    ///
    /// # Errors
    ///
    /// Those of [`DateTime::from_timestamp_with_config`], in its order.
    pub fn from_timestamp(timestamp: i64, timestamp_microsecond: u32) -> Result<Self, ParseError>
        ensures answer { result gives date_time_timestamp_answer TimestampUnit.Infer None
            timestamp_microsecond timestamp }
        ensures instant { IfOk result (λ value. local_microsecond (date_and_time value)
            ≡ meant_microsecond TimestampUnit.Infer timestamp_microsecond timestamp) }
    {
        let config = DateTimeConfig::default();
        Self::from_timestamp_with_config(timestamp, timestamp_microsecond, &config)
    }

    /// The date-time of a Unix timestamp, in the unit of the configuration, and additional
    /// microseconds, with the configured offset: 1970-01-01T00:00:01.000002+01:00 for one second,
    /// two microseconds and the offset 3,600. The offset is stored; the clock reading does not
    /// change.
    ///
    /// A timestamp counts from 1970-01-01T00:00:00, with 86,400 seconds in each day.
    ///
    /// # Errors
    ///
    /// In the order in which they are looked for:
    ///
    /// - `DateTooSmall` if the unit of `i64::MIN` is to be inferred;
    /// - `TimeTooLarge` if the microseconds of the timestamp and the additional ones exceed `u32::MAX`
    ///   together, or if the seconds and those carried exceed `i64::MAX`;
    /// - `DateTooSmall` if the sum lies before the year 0000;
    /// - `DateTooLarge` if it lies after the year 9999.
    #[inline(always)]
    pub fn from_timestamp_with_config(
        timestamp: i64,
        timestamp_microsecond: u32,
        config: &DateTimeConfig,
    ) -> Result<Self, ParseError>
        ensures answer { result gives date_time_timestamp_answer (choices config.now).unit
            (choices config.now).offset timestamp_microsecond timestamp }
        ensures instant { IfOk result (λ value. local_microsecond (date_and_time value)
            ≡ meant_microsecond (choices config.now).unit timestamp_microsecond timestamp) }
        ensures minutes { IsWholeMinutes (choices config.now).offset
            → IfOk result (λ value. IsWholeMinutes value.time.tz_offset) }
    {
        let time = timestamp_to_seconds_micros(timestamp, config.timestamp_unit)?;
        let later = time.checked_add_microseconds(timestamp_microsecond)?;
        Self::from_unix_time(later, config.time_config.unix_timestamp_offset)
    }

    /// The date-time of a decimal Unix timestamp, in the unit of the configuration, to the nearest
    /// microsecond: 1969-12-31T23:59:59.874500 for the decimal of `"-125.5"` in milliseconds. The
    /// configured offset is stored; the clock reading does not change. It replaces
    /// `from_float_with_config` of the Rust crate.
    ///
    /// All digits count, however many there are, with either behavior. A tie goes to the later
    /// microsecond. An inferred unit is seconds if the decimal without its sign is at most
    /// 20,000,000,000, otherwise milliseconds.
    ///
    /// # Errors
    ///
    /// `DateTooSmall` if that microsecond lies before the year 0000, `DateTooLarge` if it lies after the
    /// year 9999.
    pub fn from_decimal_with_config(
        decimal: Decimal<'_>,
        config: &DateTimeConfig,
    ) -> Result<Self, ParseError>
        ensures answer { result gives date_time_decimal_answer (choices config.now).unit
            (choices config.now).offset (decimal_value decimal.entry) }
        ensures nearest { IfOk result (λ value. IsNearest
            (decimal_numerator (decimal_row (choices config.now).unit (decimal_value decimal.entry))
            (decimal_value decimal.entry)) (decimal_scale (decimal_value decimal.entry))
            (local_microsecond (date_and_time value))) }
    {
        let unit = decimal_unit(decimal, config.timestamp_unit);
        Self::at_decimal(decimal, unit, config.time_config.unix_timestamp_offset)
    }

    /// The date-time of a decimal timestamp in a unit that is known, with the offset attached.
    fn at_decimal(
        decimal: Decimal<'_>,
        unit: UnixUnit,
        offset: Option<i32>,
    ) -> Result<Self, ParseError>
        requires { ForSome offset IsOffset }
        ensures answer { result gives instant_date_time offset
            (decimal_instant (unix_row unit) (decimal_value decimal.entry)) }
        ensures minutes { IsWholeMinutes offset
            → IfOk result (λ value. IsWholeMinutes value.time.tz_offset) }
    {
        let time = decimal_to_seconds_micros(decimal, unit)?;
        Ok(Self::from_instant(time, offset))
    }

    /// The date-time whose clock shows an instant, with the offset attached: 1970-01-01T00:00:01+01:00
    /// for second 1 and the offset 3,600. Fails with `DateTooSmall` before the year 0000, with
    /// `DateTooLarge` after the year 9999. The offset is less than 24 hours, which is a condition on the
    /// caller.
    #[inline(always)]
    pub fn from_unix_time(time: UnixTime, offset: Option<i32>) -> Result<Self, ParseError>
        requires { ForSome offset IsOffset }
        ensures answer { result gives instant_date_time offset (unix_instant time) }
        ensures shown { IfOk result (λ value.
            IsShownAt offset (unix_instant time) (date_and_time value)) }
    {
        let within = time.in_years()?;
        Ok(Self::from_instant(within, offset))
    }

    /// The date-time at an instant of the years 0000 to 9999, with the offset attached.
    #[inline(always)]
    pub(super) fn from_instant(time: UnixTime, offset: Option<i32>) -> Self
        requires within { IsInYears (unix_instant time) }
        requires offset { ForSome offset IsOffset }
        ensures value { date_and_time result ≡ date_time_at offset (unix_instant time) }
        ensures shown { IsShownAt offset (unix_instant time) (date_and_time result) }
    {
        let (date, second) = Date::from_second(time.second);
        let time = Time::from_second(second, time.microsecond, offset);
        DateTime { date, time }
    }

    /// Parses the timestamp that the bytes are, which are refused so as a date-time.
    ///
    /// The instant comes back from a call, and its date and time are calculated here, so that they go
    /// straight to where the caller wants them.
    #[inline(always)]
    pub(super) fn parse_timestamp<E: Refusal>(
        bytes: &[u8],
        refusal: E,
        config: &DateTimeConfig,
    ) -> Result<Self, E>
        requires refused { seen_as E.refusal
            (date_time_answer (choices config.now).behavior bytes.now)
            ≡ Err refusal }
        requires placed { E.lies_within (length bytes.now) refusal }
        ensures answer { result gives seen_as E.refusal (date_time_by_config config.now bytes.now) }
        ensures placed { IfErr result (E.lies_within (length bytes.now)) }
        ensures minutes { IsWholeMinutes (choices config.now).offset
            → IfOk result (λ value. IsWholeMinutes value.time.tz_offset) }
    {
        let time = timestamp_instant(bytes, refusal, config)?;
        Ok(Self::from_instant(time, config.time_config.unix_timestamp_offset))
    }

    /// The second since 1970-01-01T00:00:00 that a clock at the offset shows: 86,400 for
    /// 1970-01-02T00:00:00+01:00. It is a Unix timestamp if the offset is absent or 0; for others
    /// [`DateTime::timestamp_tz`] is. [`DateTime::from_timestamp_with_config`], in seconds and with
    /// the microsecond, returns a date-time without an offset again.
    pub fn timestamp(&self) -> i64
        ensures second { result ≡ local_second (date_and_time self.now) }
        ensures least { first_second ≤ℤ result }
        ensures largest { result ≤ℤ last_second }
        ensures leads_back { self.now.time.tz_offset ≡ None
            → date_time_timestamp_answer TimestampUnit.Second None self.now.time.microsecond result
            ≡ Ok (date_and_time self.now) }
    {
        self.date.timestamp() + i64::from(self.time.total_seconds())
    }

    /// The millisecond since 1970-01-01T00:00:00 that a clock at the offset shows, rounded down:
    /// 86,400,123 for 1970-01-02T00:00:00.123+01:00.
    pub fn timestamp_ms(&self) -> i64
        ensures millisecond { result ≡ local_millisecond (date_and_time self.now) }
    {
        1000 * self.timestamp() + i64::from(self.time.microsecond / 1000)
    }

    /// The Unix timestamp, in seconds since 1970-01-01T00:00:00 in UTC: 82,800 for
    /// 1970-01-02T00:00:00+01:00. A date-time without an offset is taken to be in UTC.
    pub fn timestamp_tz(&self) -> i64
        ensures second { result ≡ utc_second (date_and_time self.now) }
        ensures least { (first_second -ℤ pos 86399) ≤ℤ result }
        ensures largest { result ≤ℤ (last_second +ℤ pos 86399) }
    {
        self.timestamp() - i64::from(self.time.tz_offset.unwrap_or(0))
    }

    /// The Unix timestamp, in milliseconds, rounded down: 82,800,123 for 1970-01-02T00:00:00.123+01:00.
    /// A date-time without an offset is taken to be in UTC.
    pub fn timestamp_tz_ms(&self) -> i64
        ensures millisecond { result ≡ utc_millisecond (date_and_time self.now) }
    {
        1000 * self.timestamp_tz() + i64::from(self.time.microsecond / 1000)
    }

    /// The Unix timestamp, in microseconds: 82,800,123,456 for 1970-01-02T00:00:00.123456+01:00. A
    /// date-time without an offset is taken to be in UTC.
    pub fn timestamp_tz_us(&self) -> i64
        ensures microsecond { result ≡ utc_microsecond (date_and_time self.now) }
        ensures least { (pos 1000000 *ℤ (first_second -ℤ pos 86399)) ≤ℤ result }
        ensures largest { result ≤ℤ (pos 1000000 *ℤ (last_second +ℤ pos 86399) +ℤ pos 999999) }
    {
        1_000_000 * self.timestamp_tz() + i64::from(self.time.microsecond)
    }
}

/// The instant of the timestamp that the bytes are, as the clock of its date-time shows it: second 1 for
/// `b"1"` in seconds, whatever the offset is. The bytes are refused so as a date-time, which is a
/// condition on the caller.
///
/// # Errors
///
/// This refusal if they are not a number, and otherwise the errors of
/// [this table](docs/GRAMMAR.md#timestamps), in the order of its rows.
#[inline(always)]
pub fn timestamp_instant<E: Refusal>(
    bytes: &[u8],
    refusal: E,
    config: &DateTimeConfig,
) -> Result<UnixTime, E>
    requires refused { seen_as E.refusal (date_time_answer (choices config.now).behavior bytes.now)
        ≡ Err refusal }
    requires placed { E.lies_within (length bytes.now) refusal }
    ensures answer { result_map (date_time_at (choices config.now).offset)
        (result_map unix_instant result)
        ≡ seen_as E.refusal (date_time_by_config config.now bytes.now) }
    ensures within { IfOk result (λ time. IsInYears (unix_instant time)) }
    ensures placed { IfErr result (E.lies_within (length bytes.now)) }
{
    if !may_be_number(refusal.fault()) {
        return Err(refusal);
    }
    let behavior = config.time_config.microseconds_precision_overflow_behavior;
    let time = parse_unix_time(bytes, refusal, config.timestamp_unit, behavior)?;
    Ok(time)
}

/// Parses the instant of the timestamp that the bytes are. Fails with this refusal if they are not
/// a number.
fn parse_unix_time<E: Refusal>(
    bytes: &[u8],
    refusal: E,
    unit: TimestampUnit,
    behavior: MicrosecondsPrecisionOverflowBehavior,
) -> Result<UnixTime, E>
    requires placed { E.lies_within (length bytes.now) refusal }
    ensures answer { result_map unix_instant result
        ≡ or_number (option_map (seen_as E.refusal)
        (number_instant unit behavior bytes.now (number_answer bytes.now)))
        (Err refusal) }
    ensures within { IfOk result (λ time. IsInYears (unix_instant time)) }
    ensures placed { IfErr result (E.lies_within (length bytes.now)) }
{
    match float_parse_bytes(bytes) {
        IntFloat::Int(timestamp) => match whole_unix_time(timestamp, unit) {
            Ok(time) => Ok(time),
            Err(fault) => Err(E::refuse_at(fault, 0)),
        },
        IntFloat::Float(decimal) => decimal_unix_time(bytes, decimal, unit, behavior),
        IntFloat::Err => Err(refusal),
    }
}

/// The instant of a whole timestamp.
#[inline(always)]
fn whole_unix_time(timestamp: i64, unit: TimestampUnit) -> Result<UnixTime, ParseError>
    ensures answer { result_map unix_instant result ≡ whole_instant unit timestamp }
    ensures within { IfOk result (λ time. IsInYears (unix_instant time)) }
{
    let time = timestamp_to_seconds_micros(timestamp, unit)?;
    time.checked_add_microseconds(0)?.in_years()
}

/// The instant of the decimal timestamp that the bytes are, whose digits are counted if those past the
/// microsecond are refused.
fn decimal_unix_time<E: Refusal>(
    bytes: &[u8],
    decimal: Decimal<'_>,
    unit: TimestampUnit,
    behavior: MicrosecondsPrecisionOverflowBehavior,
) -> Result<UnixTime, E>
    requires { length decimal.fraction.now ≤ length bytes.now }
    ensures answer { result_map unix_instant result
        ≡ seen_as E.refusal (decimal_instant_answer (decimal_row unit (decimal_value decimal.entry))
        behavior bytes.now (decimal_value decimal.entry)) }
    ensures within { IfOk result (λ time. IsInYears (unix_instant time)) }
    ensures placed { IfErr result (E.lies_within (length bytes.now)) }
{
    let unit = decimal_unit(decimal, unit);
    let digits = decimal.fraction.len();
    if !takes_digits(behavior, digits, unit.digits) {
        return Err(E::refuse_at(unit.too_long, bytes.len() - digits + unit.digits));
    }
    match decimal_to_seconds_micros(decimal, unit) {
        Ok(time) => Ok(time),
        Err(fault) => Err(E::refuse_at(fault, 0)),
    }
}
