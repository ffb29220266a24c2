//! Configurations: the unit of timestamps, how times are parsed, and which offset the values of
//! timestamps get.

ghost use Rattle.std.specs.Prelude.{◌≡◌, Ok};
ghost use Rattle.std.specs.Option.{ForSome};
ghost use Rattle.speedate_base.specs.Offset.{IsOffset, offset_table};
ghost use Rattle.speedate_base.specs.Requirement.{first_fault_or, result_map};

mod choice;
mod date_time;
mod offset;

use crate::faults::ParseError;
pub use date_time::{DateTimeConfig, DateTimeConfigBuilder};
pub use offset::require_offset;
use std::marker::Model;

/// The unit of a timestamp: what a number in place of a date or a date-time counts. The default infers
/// it.
///
/// `"ms".parse()` gives `TimestampUnit::Millisecond`, as [`TimestampUnit::name`] writes it.
#[derive(Clone, Copy, Debug, PartialEq, Eq, Default)]
pub enum TimestampUnit {
    /// Seconds since 1970-01-01T00:00:00.
    Second,
    /// Milliseconds since 1970-01-01T00:00:00.
    Millisecond,
    /// Microseconds since 1970-01-01T00:00:00.
    Microsecond,
    /// Seconds if the timestamp without its sign is at most 20,000,000,000, otherwise milliseconds.
    /// Microseconds are never inferred.
    #[default]
    Infer,
}

/// What is done with digits past the microsecond: those after the sixth digit of a fraction of a
/// second, after the third of a millisecond, and any of a microsecond. The default refuses them.
///
/// `"truncate".parse()` gives `MicrosecondsPrecisionOverflowBehavior::Truncate`. In an ISO 8601
/// duration every digit counts, with either behavior.
#[derive(Clone, Copy, Debug, PartialEq, Eq, Default)]
pub enum MicrosecondsPrecisionOverflowBehavior {
    /// They are dropped in the text of a time, of a date-time or of a clock. A decimal timestamp is
    /// rounded to the nearest microsecond by all its digits.
    Truncate,
    /// The text is refused, also if the digits are zeros.
    #[default]
    Error,
}

/// Whether the components of an ISO 8601 duration have to come in order. The default takes any order.
///
/// `IsoOrder::from_name("strict")` gives `IsoOrder::Strict`.
#[derive(Clone, Copy, Debug, PartialEq, Eq, Default)]
pub enum IsoOrder {
    /// They may come in any order on their side of the `T`, and more than once, as in `P1D1Y`.
    #[default]
    Lax,
    /// Each comes at most once, in this order: years, months, weeks, days, and after the `T` hours, minutes,
    /// seconds.
    Strict,
}

/// How dates are parsed: the unit of timestamps. The default infers it;
/// `DateConfig::builder().timestamp_unit(TimestampUnit::Second).build()` takes seconds.
#[derive(Clone, Copy, Debug, PartialEq, Eq, Default)]
pub struct DateConfig {
    /// The unit of timestamps.
    pub timestamp_unit: TimestampUnit,
}

impl DateConfig {
    /// A builder of a configuration: `DateConfig::builder().build()` is the default one.
    pub fn builder() -> DateConfigBuilder
        ensures default { result.timestamp_unit ≡ TimestampUnit.Infer }
    {
        DateConfigBuilder::new()
    }
}

/// Builds a [`DateConfig`] from the unit that is set, or the default one.
#[derive(Clone, Copy, Debug, Default)]
pub struct DateConfigBuilder {
    config: DateConfig,
}

impl Model for DateConfigBuilder {
    ghost use Rattle.std.specs.Prelude.{refl};
    ghost use Rattle.speedate_base.specs.declared.config.DateConfig.{DateConfig};

    ghost Value = { DateConfig };

    ghost view = { λ builder. builder.config };

    ghost inverse = { λ config. record { config = config } };
}

impl DateConfigBuilder {
    /// A builder of the default configuration; `DateConfig::builder()` is the same.
    pub fn new() -> Self
        ensures default { result.timestamp_unit ≡ TimestampUnit.Infer }
    {
        Self::default()
    }

    /// Sets the unit of timestamps: with `timestamp_unit(TimestampUnit::Millisecond)`, `86400000` is
    /// 1970-01-02.
    pub fn timestamp_unit(mut self, unit: TimestampUnit) -> Self
        ensures unit { result.timestamp_unit ≡ unit }
    {
        self.config.timestamp_unit = unit;
        self
    }

    /// The configuration with the unit that was set last, or the default one:
    /// `DateConfig::builder().build()` infers the unit.
    pub fn build(self) -> DateConfig
        ensures built { result ≡ self }
    {
        self.config
    }
}

/// How times, date-times and durations are parsed: what is done with digits past the microsecond, which
/// offset the value of a timestamp gets, and whether the components of a duration have to come in order.
///
/// The default refuses such digits, attaches no offset, and takes any order;
/// `TimeConfig::builder().unix_timestamp_offset(Some(3600)).build()` attaches one hour. The type
/// holds offsets of less than 24 hours and no others.
#[derive(Clone, Copy, Debug, PartialEq, Eq)]
pub struct TimeConfig {
    /// What is done with digits past the microsecond.
    pub microseconds_precision_overflow_behavior: MicrosecondsPrecisionOverflowBehavior,
    /// The offset that the value of a timestamp gets, in seconds: none, or one of less than 24
    /// hours. It does not change the clock reading, and does not matter to other texts.
    pub unix_timestamp_offset: Option<i32>,
    /// Whether the components of an ISO 8601 duration have to come in order.
    pub iso_order: IsoOrder,
    pub ghost offset_in_range: { ForSome unix_timestamp_offset IsOffset },
}

impl TimeConfig {
    ghost use Rattle.speedate_base.specs.Config.{default_choices, time_choices};

    /// A builder of a configuration: `TimeConfig::builder().build()` is the default one.
    pub fn builder() -> TimeConfigBuilder
        ensures default { time_choices result ≡ default_choices }
    {
        TimeConfigBuilder::new()
    }
}

impl Default for TimeConfig {
    ghost use Rattle.speedate_base.specs.Config.{default_choices, time_choices};

    ghost is_default = { λ config. time_choices config ≡ default_choices };

    /// Digits past the microsecond are refused, the value of a timestamp gets no offset, and components
    /// may come in any order.
    fn default() -> Self {
        TimeConfig {
            microseconds_precision_overflow_behavior: Default::default(),
            unix_timestamp_offset: None,
            iso_order: Default::default(),
        }
    }
}

/// Builds a [`TimeConfig`] from the values that are set, and defaults for the others.
#[derive(Clone, Copy, Debug, Default)]
pub struct TimeConfigBuilder {
    config: TimeConfig,
}

impl Model for TimeConfigBuilder {
    ghost use Rattle.std.specs.Prelude.{refl};
    ghost use Rattle.speedate_base.specs.declared.config.TimeConfig.{TimeConfig};

    ghost Value = { TimeConfig };

    ghost view = { λ builder. builder.config };

    ghost inverse = { λ config. record { config = config } };
}

impl TimeConfigBuilder {
    ghost use Rattle.speedate_base.specs.Config.{default_choices, time_choices, with_behavior};
    ghost use Rattle.speedate_base.specs.Config.{with_offset, with_order};

    /// A builder of the default configuration; `TimeConfig::builder()` is the same.
    pub fn new() -> Self
        ensures default { time_choices result ≡ default_choices }
    {
        Self::default()
    }

    /// Sets what is done with digits past the microsecond: with `Truncate`, `12:13:12.1234567` is
    /// 12:13:12.123456.
    pub fn microseconds_precision_overflow_behavior(
        mut self,
        behavior: MicrosecondsPrecisionOverflowBehavior,
    ) -> Self
        ensures choices { time_choices result ≡ with_behavior behavior (time_choices self) }
    {
        self.config.microseconds_precision_overflow_behavior = behavior;
        self
    }

    /// Sets the offset, in seconds, that the value of a timestamp gets: none, or one of less than 24
    /// hours, which is a condition on the caller. With `Some(-3600)`, `0` is 1970-01-01T00:00:00-01:00.
    pub fn unix_timestamp_offset(mut self, offset: Option<i32>) -> Self
        requires { ForSome offset IsOffset }
        ensures choices { time_choices result ≡ with_offset offset (time_choices self) }
    {
        self.config.unix_timestamp_offset = offset;
        self
    }

    /// Sets the offset, in seconds, that the value of a timestamp gets: none, or one of any size, which
    /// is tested.
    ///
    /// # Errors
    ///
    /// `OutOfRangeTz` if it is 24 hours or more, as `Some(86_400)` is.
    pub fn try_unix_timestamp_offset(self, offset: Option<i32>) -> Result<Self, ParseError>
        ensures choices { result_map time_choices result
            ≡ first_fault_or (offset_table offset) (Ok (with_offset offset (time_choices self))) }
    {
        require_offset(offset)?;
        Ok(self.unix_timestamp_offset(offset))
    }

    /// Sets whether the components of an ISO 8601 duration have to come in order: with `Strict`,
    /// `P1D1Y` fails with `DurationUnitOrder`.
    pub fn iso_order(mut self, order: IsoOrder) -> Self
        ensures choices { time_choices result ≡ with_order order (time_choices self) }
    {
        self.config.iso_order = order;
        self
    }

    /// The configuration of the values that were set last, and of defaults for the others:
    /// `TimeConfig::builder().build()` attaches no offset.
    pub fn build(self) -> TimeConfig
        ensures built { result ≡ self }
    {
        self.config
    }
}
