//! Laws of equality, of cloning, of defaults and of `<`. Each function makes the calls that its laws
//! are about, and a clause of its contract is a law. A derived `clone` asks each field for its own.

ghost use Rattle.std.specs.Prelude.{◌≡◌, ◌<◌, ◌↔◌, IsTrue, Ok};
ghost use Rattle.speedate.specs.Config.{choices, default_choices, time_choices};
ghost use Rattle.speedate.specs.Date.{ymd};
ghost use Rattle.speedate.specs.DateTime.{date_and_time};
ghost use Rattle.speedate.specs.Calendar.{day_number};
ghost use Rattle.speedate.specs.Duration.{duration_numbers};
ghost use Rattle.speedate.specs.Time.{time_of_day};

use speedate::{
    CallKind, ConfigError, Date, DateConfig, DateConfigBuilder, DateForm, DatePrinter, DateReader,
    DateTime, DateTimeClockPrinter, DateTimeClockReader, DateTimeConfig, DateTimeConfigBuilder,
    DateTimeForm, DateTimeFront, DateTimeFrontReader, DateTimeOffsetReader, DateTimeParser,
    DateTimePrinter, DateTimeReader, Decimal, Duration, DurationPrinter, DurationReader,
    DurationSum, FractionDigits, IntFloat, IsoOrder, LineConfig, LineError,
    MicrosecondsPrecisionOverflowBehavior, Moment, ParseError, Progress, Refused, Time, TimeConfig,
    TimeConfigBuilder, TimeForm, TimeOffsetReader, TimeParser, TimePrinter, TimeReader,
    TimestampUnit,
};
use speedate_base::numbers::{DigitRun, Fraction};
use speedate_base::util::{UnixTime, UnixUnit};
use speedate_civil::time::PureTime;
use std::alloc::AllocError;

/// A value of each type that is compared or cloned.
#[derive(Clone, Drop)]
pub struct Each<'a> {
    /// The errors.
    pub faults: (ParseError, ConfigError),
    /// An error with its place, and the kind of call for which it is described.
    pub refusals: (Refused, CallKind),
    /// The choices.
    pub choices: (
        MicrosecondsPrecisionOverflowBehavior,
        IsoOrder,
        TimestampUnit,
    ),
    /// How a text is read.
    pub forms: (DateForm, TimeForm, DateTimeForm),
    /// The configurations.
    pub configs: (DateConfig, TimeConfig, DateTimeConfig),
    /// The builders of configurations.
    pub builders: (DateConfigBuilder, TimeConfigBuilder, DateTimeConfigBuilder),
    /// What is parsed and computed.
    pub values: (Date, Time, DateTime, Moment, Duration, DurationSum),
    /// With how many digits a second is printed.
    pub digits: FractionDigits,
    /// How columns are read.
    pub readers: (LineConfig, DateReader, DateTimeReader, DurationReader),
    /// How columns of clocks and of offsets are read.
    pub clocks: (
        DateTimeClockReader,
        DateTimeOffsetReader,
        TimeReader,
        TimeOffsetReader,
    ),
    /// How columns of fronts are read, and what they hold.
    pub fronts: (DateTimeFrontReader, DateTimeFront),
    /// How columns parse their lines.
    pub parsers: (DateTimeParser, TimeParser),
    /// How columns are printed.
    pub printers: (
        DatePrinter,
        DateTimePrinter,
        DateTimeClockPrinter,
        TimePrinter,
        DurationPrinter,
    ),
    /// How far they come.
    pub columns: (Progress, LineError),
    /// What is parsed as a number.
    pub numbers: (Decimal<'a>, IntFloat<'a>),
    /// What the lower crates parse and compute.
    pub parts: (UnixTime, UnixUnit, DigitRun, Fraction, PureTime),
}

/// A second value of each type that is the same.
pub fn clone_each<'a>(each: &Each<'a>) -> Result<Each<'a>, AllocError>
    ensures clone { result ≡ Ok each.now }
{
    each.clone()
}

/// Whether the errors are equal, and the choices: false for two variants.
pub fn same_choices(first: &Each<'_>, second: &Each<'_>) -> (bool, bool, bool, bool, bool)
    ensures fault { IsTrue result.0 ↔ (first.now.faults.0 ≡ second.now.faults.0) }
    ensures config_error { IsTrue result.1 ↔ (first.now.faults.1 ≡ second.now.faults.1) }
    ensures behavior { IsTrue result.2 ↔ (first.now.choices.0 ≡ second.now.choices.0) }
    ensures iso_order { IsTrue result.3 ↔ (first.now.choices.1 ≡ second.now.choices.1) }
    ensures unit { IsTrue result.4 ↔ (first.now.choices.2 ≡ second.now.choices.2) }
{
    (
        first.faults.0 == second.faults.0,
        first.faults.1 == second.faults.1,
        first.choices.0 == second.choices.0,
        first.choices.1 == second.choices.1,
        first.choices.2 == second.choices.2,
    )
}

/// Whether the forms are equal: false for two variants.
pub fn same_forms(first: &Each<'_>, second: &Each<'_>) -> (bool, bool, bool)
    ensures date { IsTrue result.0 ↔ (first.now.forms.0 ≡ second.now.forms.0) }
    ensures time { IsTrue result.1 ↔ (first.now.forms.1 ≡ second.now.forms.1) }
    ensures date_time { IsTrue result.2 ↔ (first.now.forms.2 ≡ second.now.forms.2) }
{
    (
        first.forms.0 == second.forms.0,
        first.forms.1 == second.forms.1,
        first.forms.2 == second.forms.2,
    )
}

/// Whether two errors with their places are equal: false if only the places are.
pub fn same_refused(first: &Refused, second: &Refused) -> bool
    ensures same { IsTrue result ↔ (first.now ≡ second.now) }
{
    first == second
}

/// Whether two errors of lines are equal: false if one is that of a text, and the other is not.
pub fn same_line_error(first: &LineError, second: &LineError) -> bool
    ensures same { IsTrue result ↔ (first.now ≡ second.now) }
{
    first == second
}

/// Whether two date-times at the front of lines are equal: false if their sizes differ.
pub fn same_front(first: &DateTimeFront, second: &DateTimeFront) -> bool
    ensures same { IsTrue result ↔ (first.now ≡ second.now) }
{
    first == second
}

/// Whether two configurations of dates are equal: false if their units differ.
pub fn same_date_config(first: &DateConfig, second: &DateConfig) -> bool
    ensures same { IsTrue result ↔ (first.now ≡ second.now) }
{
    first == second
}

/// Whether two configurations are equal: false if one has no offset and the other the offset 0.
pub fn same_time_config(first: &TimeConfig, second: &TimeConfig) -> bool
    ensures same { IsTrue result ↔ (first.now ≡ second.now) }
{
    first == second
}

/// Whether two configurations of date-times are equal: false if their units differ.
pub fn same_date_time_config(first: &DateTimeConfig, second: &DateTimeConfig) -> bool
    ensures same { IsTrue result
        ↔ ((first.now.timestamp_unit ≡ second.now.timestamp_unit)
        × (first.now.time_config.microseconds_precision_overflow_behavior
        ≡ second.now.time_config.microseconds_precision_overflow_behavior)
        × (first.now.time_config.unix_timestamp_offset
        ≡ second.now.time_config.unix_timestamp_offset)
        × (first.now.time_config.iso_order ≡ second.now.time_config.iso_order)) }
{
    first == second
}

/// Whether two dates are equal: false if their days differ.
pub fn same_date(first: &Date, second: &Date) -> bool
    ensures same { IsTrue result ↔ (ymd first.now ≡ ymd second.now) }
{
    first == second
}

/// Whether two times are equal: false if one has no offset and the other the offset 0.
pub fn same_time(first: &Time, second: &Time) -> bool
    ensures same { IsTrue result ↔ (time_of_day first.now ≡ time_of_day second.now) }
{
    first == second
}

/// Whether two date-times are equal: false if their offsets differ.
pub fn same_date_time(first: &DateTime, second: &DateTime) -> bool
    ensures same { IsTrue result ↔ (date_and_time first.now ≡ date_and_time second.now) }
{
    first == second
}

/// Whether two moments are equal: false if their microseconds differ.
pub fn same_moment(first: &Moment, second: &Moment) -> bool
    ensures same { IsTrue result ↔ (first.now ≡ second.now) }
{
    first == second
}

/// Whether two durations are equal: false for `PT0S` and `-PT0S`.
pub fn same_duration(first: &Duration, second: &Duration) -> bool
    ensures same { IsTrue result ↔ (duration_numbers first.now ≡ duration_numbers second.now) }
{
    first == second
}

/// Whether two sums of durations are equal: false for 1 second and 1,000,000 microseconds.
pub fn same_sum(first: &DurationSum, second: &DurationSum) -> bool
    ensures same { IsTrue result ↔ (first.now ≡ second.now) }
{
    first == second
}

/// Whether two numbers of digits are equal: false for three and six.
pub fn same_digits(first: &FractionDigits, second: &FractionDigits) -> bool
    ensures same { IsTrue result ↔ (first.now ≡ second.now) }
{
    first == second
}

/// Whether two instants are equal: false if their microseconds differ.
pub fn same_unix_time(first: &UnixTime, second: &UnixTime) -> bool
    ensures same { IsTrue result ↔ (first.now ≡ second.now) }
{
    first == second
}

/// Whether the first date is before the second, which it is if and only if its day number is smaller:
/// 2020-02-29 is before 2020-03-01.
pub fn earlier_date(first: &Date, second: &Date) -> bool
    ensures days { IsTrue result ↔ day_number (ymd first.now) < day_number (ymd second.now) }
{
    first < second
}

/// The default choices: digits of a second past the sixth are refused, the unit is inferred, and
/// components come in any order.
pub fn defaults() -> (
    MicrosecondsPrecisionOverflowBehavior,
    TimestampUnit,
    IsoOrder,
)
    ensures behavior { result.0 ≡ MicrosecondsPrecisionOverflowBehavior.Error }
    ensures unit { result.1 ≡ TimestampUnit.Infer }
    ensures order { result.2 ≡ IsoOrder.Lax }
{
    Default::default()
}

/// The default forms: the whole text is a value, and no number is a timestamp.
pub fn default_forms() -> (DateForm, TimeForm, DateTimeForm)
    ensures date { result.0 ≡ DateForm.Text }
    ensures time { result.1 ≡ TimeForm.Text }
    ensures date_time { result.2 ≡ DateTimeForm.Text }
{
    Default::default()
}

/// The default configurations, and those of their builders: each choice is its default.
pub fn default_configs() -> (
    (DateConfig, DateConfigBuilder),
    (TimeConfig, TimeConfigBuilder),
    (DateTimeConfig, DateTimeConfigBuilder),
)
    ensures date { (result.0.0.timestamp_unit ≡ TimestampUnit.Infer)
        × (result.0.1.timestamp_unit ≡ TimestampUnit.Infer) }
    ensures time { (time_choices result.1.0 ≡ default_choices)
        × (time_choices result.1.1 ≡ default_choices) }
    ensures date_time { (choices result.2.0 ≡ default_choices)
        × (choices result.2.1 ≡ default_choices) }
{
    Default::default()
}
