//! The traits of each type that `speedate` gives out.

use speedate::{
    CallKind, ConfigError, Date, DateConfig, DateConfigBuilder, DatePrinter, DateReader, DateTime,
    DateTimeClockPrinter, DateTimeClockReader, DateTimeConfig, DateTimeConfigBuilder,
    DateTimeFront, DateTimeFrontReader, DateTimeOffsetReader, DateTimeParser, DateTimePrinter,
    DateTimeReader, Decimal, Duration, DurationPrinter, DurationReader, DurationSum,
    FractionDigits, IntFloat, IsoOrder, LineConfig, LineError, LinePrinter, LineReader,
    MicrosecondsPrecisionOverflowBehavior, Moment, ParseError, Progress, Refused, Time, TimeConfig,
    TimeConfigBuilder, TimeOffsetReader, TimeParser, TimePrinter, TimeReader, TimestampUnit,
};
use std::error::Error;
use std::fmt::{Debug, Display};
use std::str::FromStr;

fn is_copied<T: Copy + Debug>() {}

fn is_reader<T: Copy + Debug + LineReader>() {}

fn is_printer<T: Copy + Debug + LinePrinter>() {}

fn is_value<T: Copy + Debug + Eq>() {}

fn is_choice<T: Copy + Debug + Eq + Default>() {}

fn has_default<T: Default>() {}

fn is_text<T: FromStr + Display>() {}

fn is_named<T: FromStr>() {}

fn is_error<T: Error + Copy + Eq>() {}

#[test]
fn each_type_has_its_traits() {
    is_copied::<(Decimal<'_>, IntFloat<'_>)>();
    is_copied::<(LineConfig, Progress, DateTimeParser, TimeParser, CallKind)>();
    is_reader::<DateReader>();
    is_reader::<DateTimeReader>();
    is_reader::<DateTimeClockReader>();
    is_reader::<DateTimeOffsetReader>();
    is_reader::<DateTimeFrontReader>();
    is_reader::<TimeReader>();
    is_reader::<TimeOffsetReader>();
    is_reader::<DurationReader>();
    is_printer::<DatePrinter>();
    is_printer::<DateTimePrinter>();
    is_printer::<DateTimeClockPrinter>();
    is_printer::<TimePrinter>();
    is_printer::<DurationPrinter>();
    is_value::<
        (
            LineError,
            Refused,
            DurationSum,
            DateTimeFront,
            FractionDigits,
        ),
    >();
    is_value::<(Date, Time, DateTime, Duration, Moment)>();
    is_choice::<TimestampUnit>();
    is_choice::<MicrosecondsPrecisionOverflowBehavior>();
    is_choice::<IsoOrder>();
    is_choice::<(DateConfig, TimeConfig, DateTimeConfig)>();
    has_default::<(DateConfigBuilder, TimeConfigBuilder, DateTimeConfigBuilder)>();
    is_text::<Date>();
    is_text::<Time>();
    is_text::<DateTime>();
    is_text::<Duration>();
    is_named::<TimestampUnit>();
    is_named::<MicrosecondsPrecisionOverflowBehavior>();
    is_error::<ParseError>();
    is_error::<ConfigError>();
}
