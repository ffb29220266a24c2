//! The calls that a newcomer makes first, a test for each type. The reference shows each part beside
//! the calls that stand in it first, with `assert_eq!` for `assert_same`.

use arrayvec::ArrayString;
use speedate::{
    CallKind, Date, DateConfig, DateTime, DateTimeConfig, Duration, IntFloat, IsoOrder,
    MicrosecondsPrecisionOverflowBehavior, Moment, ParseError, Time, TimeConfig, TimestampUnit,
    float_parse_str, int_parse_str,
};
use std::cmp::Ordering;
use std::fmt::Debug;
use std::process::Abort;

/// What was found is to be what is wanted. A failure shows both, and no two calls of a test want the same,
/// so that it tells the place. An `assert_eq!` at each place would make the proof several times longer.
fn assert_same<T: PartialEq + Debug + Copy, R: Abort>(rt: &R, found: T, want: T) {
    assert_eq!(rt; found, want);
}

#[test]
fn date(rt: HostRuntime) -> Result<(), ParseError> {
    let date = Date::parse_str("2020-02-29")?;
    assert_same(&rt, (date.year, date.month, date.day), (2020, 2, 29));
    let refused = Date::parse_str("2021-02-29");
    assert_same(&rt, refused, Err(ParseError::OutOfRangeDay));

    let text = Date::new(2020, 2, 29)?.to_text();
    assert_same(&rt, text.as_str(), "2020-02-29");

    let refused = Date::parse_str_rfc3339("1654560000");
    assert_same(&rt, refused, Err(ParseError::InvalidCharDateSep));

    let date = Date::parse_bytes(b"1654560000")?;
    assert_same(&rt, date.to_text().as_str(), "2022-06-07");

    let (date, size) = Date::parse_front(b"2026-11-22 opening balance")?;
    assert_same(&rt, (date.to_text().as_str(), size), ("2026-11-22", 10));

    let date = Date::from_timestamp(-1, false, &DateConfig::default())?;
    assert_same(&rt, date.to_text().as_str(), "1969-12-31");

    let start = Date::new(2020, 2, 28)?;
    let end = Date::new(2020, 3, 1)?;
    assert_same(&rt, end.days_since(&start), 2);
    assert_same(&rt, start.checked_add_days(2), Some(end));

    let date = Date::new(1999, 12, 31)?;
    assert_same(&rt, date.next_day(), Some(Date::new(2000, 1, 1)?));

    let number = Date::new(2020, 1, 1)?.day_number();
    assert_same(&rt, number, 737_790);
    let date = Date::new(2020, 1, 1)?;
    assert_same(&rt, Date::from_day_number(number), Some(date));

    let mut text = ArrayString::<32>::new();
    text.push_str("due ");
    Date::new(2020, 2, 29)?.push_onto(&mut text);
    assert_same(&rt, text.as_str(), "due 2020-02-29");

    Ok(())
}

#[test]
fn time(rt: HostRuntime) -> Result<(), ParseError> {
    let time = Time::parse_str("12:13:14.5+01:00")?;
    assert_same(&rt, (time.hour, time.minute, time.second), (12, 13, 14));
    let (microsecond, offset) = (time.microsecond, time.tz_offset);
    assert_same(&rt, (microsecond, offset), (500_000, Some(3_600)));
    let refused = Time::parse_str("24:00");
    assert_same(&rt, refused, Err(ParseError::OutOfRangeHour));

    let text = Time::new(12, 13, 14, 500_000, Some(3_600))?.to_text();
    assert_same(&rt, text.as_str(), "12:13:14.500000+01:00");

    let time = Time::parse_bytes(b"12:13")?;
    assert_same(&rt, time, Time::new(12, 13, 0, 0, None)?);

    let config = TimeConfig::builder()
        .microseconds_precision_overflow_behavior(MicrosecondsPrecisionOverflowBehavior::Truncate)
        .build();
    let time = Time::parse_bytes_with_config(b"12:13:14.123456789", &config)?;
    assert_same(&rt, time.microsecond, 123_456);

    let config = TimeConfig::default();
    let (time, size) = Time::parse_front(b"12:13:14Z GET /", &config)?;
    assert_same(&rt, (time.to_text().as_str(), size), ("12:13:14Z", 9));

    let behavior = MicrosecondsPrecisionOverflowBehavior::Error;
    let refused = Time::parse_bytes_strict(b"12:13Z", behavior);
    assert_same(&rt, refused, Err(ParseError::InvalidCharTimeSep));

    let time = Time::from_timestamp(36_005, 1_500_000)?;
    assert_same(&rt, time.to_text().as_str(), "10:00:06.500000");

    let time = Time::parse_str("15:00:00Z")?.in_timezone(3_600)?;
    assert_same(&rt, time.to_text().as_str(), "16:00:00+01:00");

    let time = Time::parse_str("15:00:00Z")?.with_timezone_offset(Some(3_600))?;
    assert_same(&rt, time.to_text().as_str(), "15:00:00+01:00");

    let order = Time::parse_str("12:00+01:00")?.cmp_instant(&Time::parse_str("11:30Z")?);
    assert_same(&rt, order, Ordering::Less);

    let time = Time::new(12, 13, 14, 500_000, None)?;
    let totals = (time.total_seconds(), time.total_ms());
    assert_same(&rt, totals, (43_994, 43_994_500));

    Ok(())
}

#[test]
fn date_time(rt: HostRuntime) -> Result<(), ParseError> {
    let value = DateTime::parse_str("2020-02-29T12:13:14Z")?;
    assert_same(&rt, value.date, Date::new(2020, 2, 29)?);
    assert_same(&rt, value.time, Time::new(12, 13, 14, 0, Some(0))?);
    let value = DateTime::parse_str("1654646404.5")?;
    assert_same(&rt, value.to_text().as_str(), "2022-06-08T00:00:04.500000");

    let refused = DateTime::parse_str_rfc3339("1654646404.5");
    assert_same(&rt, refused, Err(ParseError::InvalidCharDateSep));

    let value = DateTime::parse_bytes(b"2020-01-01 12:13")?;
    assert_same(&rt, value.to_text().as_str(), "2020-01-01T12:13:00");

    let config = TimeConfig::default();
    let (value, size) = DateTime::parse_front(b"2026-11-22T12:13:14Z GET /", &config)?;
    let text = value.to_text();
    assert_same(&rt, (text.as_str(), size), ("2026-11-22T12:13:14Z", 20));

    let behavior = MicrosecondsPrecisionOverflowBehavior::Truncate;
    let value = DateTime::parse_bytes_strict(b"2020-02-29T12:13:14.1234567Z", behavior)?;
    assert_same(&rt, value.time.microsecond, 123_456);
    let refused = DateTime::parse_bytes_strict(b"2020-02-29 12:13:14Z", behavior);
    assert_same(&rt, refused, Err(ParseError::InvalidCharDateTimeSep));

    let config = DateTimeConfig::builder()
        .timestamp_unit(TimestampUnit::Millisecond)
        .time_config(TimeConfig::builder().unix_timestamp_offset(Some(0)).build())
        .build();
    let value = DateTime::parse_str_with_config("1", &config)?;
    let text = value.to_text();
    assert_same(&rt, text.as_str(), "1970-01-01T00:00:00.001000Z");

    let value = DateTime::from_timestamp(1_654_646_404, 0)?;
    assert_same(&rt, value.to_text().as_str(), "2022-06-08T00:00:04");

    let value = DateTime::parse_str("1970-01-02T00:00:00+01:00")?;
    let seconds = (value.timestamp_tz(), value.timestamp());
    assert_same(&rt, seconds, (82_800, 86_400));

    let value = DateTime::parse_str("2020-01-01T23:30:00Z")?.in_timezone(3_600)?;
    assert_same(&rt, value.to_text().as_str(), "2020-01-02T00:30:00+01:00");

    let earlier = DateTime::parse_str("2022-01-02T01:00:00+03:00")?;
    let later = DateTime::parse_str("2022-01-01T23:00:00Z")?;
    assert_same(&rt, earlier.cmp_instant(&later), Ordering::Less);
    let mut values = [later, earlier];
    let sorted = values.sort_by(rt.alloc(), |one, two| one.cmp_instant(two));
    assert!(rt; sorted.is_ok() && values == [earlier, later]);

    let moment = Moment::new(1_654_646_399, 0)?;
    let value = DateTime::now(|| Some(moment), 3_600)?;
    assert_same(&rt, value.to_text().as_str(), "2022-06-08T00:59:59+01:00");

    Ok(())
}

#[test]
fn duration(rt: HostRuntime) -> Result<(), ParseError> {
    let length = Duration::parse_str("PT90M")?;
    assert_same(&rt, length.to_text().as_str(), "PT1H30M");
    let length = Duration::parse_str("1 day, 1:00:42")?;
    assert_same(&rt, length.to_text().as_str(), "P1DT1H42S");
    let refused = Duration::parse_str("1:30");
    assert_same(&rt, refused, Err(ParseError::DurationInvalidDays));

    let length = Duration::new(true, 1, 86_500, 1_000_123)?;
    let numbers = (length.day, length.second, length.microsecond);
    assert_same(&rt, numbers, (2, 101, 123));

    let length = Duration::parse_bytes(b"-00:00:01")?;
    assert_same(&rt, (length.positive, length.second), (false, 1));

    let config = TimeConfig::builder().iso_order(IsoOrder::Strict).build();
    let refused = Duration::parse_bytes_with_config(b"P1D1Y", &config);
    assert_same(&rt, refused, Err(ParseError::DurationUnitOrder));

    let start = DateTime::parse_str("2020-02-29T23:30:00+01:00")?;
    let length = Duration::parse_str("PT1H")?;
    let end = length.after(&start)?;
    assert_same(&rt, end.to_text().as_str(), "2020-03-01T00:30:00+01:00");
    assert_same(&rt, length.before(&end)?, start);
    assert_same(&rt, Duration::between(&start, &end), length);

    let start = Date::parse_str("2020-02-28")?;
    let length = Duration::parse_str("P2D")?;
    let end = length.after_date(&start)?;
    assert_same(&rt, end.to_text().as_str(), "2020-03-01");
    assert_same(&rt, Duration::between_dates(&start, &end), length);

    let length = Duration::parse_str("-P1DT1.5S")?;
    assert_same(&rt, length.signed_total_seconds(), -86_401);
    assert_same(&rt, length.signed_total_ms(), -86_401_500);

    let length = Duration::parse_str("-PT1.5S")?;
    let total = length.signed_total_microseconds();
    assert_same(&rt, total, -1_500_000);
    let length = Duration::from_signed_microseconds(4_500_000)?;
    assert_same(&rt, length.to_text().as_str(), "PT4.5S");

    Ok(())
}

#[test]
fn parse_error(rt: HostRuntime) {
    let fault = ParseError::TooShort;
    assert_same(&rt, fault.name(), "too_short");
    assert_same(&rt, fault.get_documentation(), Some("input is too short"));
    let phrase = fault.expected(CallKind::Date);
    assert_same(&rt, phrase, "a date: YYYY-MM-DD");
    let end = ParseError::OutOfRangeMonth.part_end(b"2020-13-01", 5);
    assert_same(&rt, end, 7);
}

#[test]
fn numbers(rt: HostRuntime) {
    assert_same(&rt, int_parse_str("-012"), Some(-12));
    assert_same(&rt, int_parse_str("1.5"), None);

    assert!(rt; matches!(float_parse_str("12"), IntFloat::Int(12)));
    assert!(rt; matches!(float_parse_str("-1.50"), IntFloat::Float(_)));
    assert!(rt; float_parse_str("1.5e3").is_err());

    assert_same(&rt, float_parse_str("12.50").scaled(2), Some(1_250));
    assert!(rt; float_parse_str("12.345").scaled(2).is_none());
}
