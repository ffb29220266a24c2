//! Configurations of date-times.

ghost use Rattle.std.specs.Prelude.{◌≡◌};
ghost use Rattle.speedate_base.specs.Config.{choices, default_choices, unit_and_time};

use super::{TimeConfig, TimestampUnit};
use std::marker::Model;

/// How date-times are parsed: the unit of timestamps, and a [`TimeConfig`] for the texts and for the
/// offset that the value of a timestamp gets. The default infers the unit, and has the default
/// `TimeConfig`; `DateTimeConfig::builder().timestamp_unit(TimestampUnit::Second).build()` takes
/// seconds.
#[derive(Clone, Copy, Debug, PartialEq, Eq, Default)]
pub struct DateTimeConfig {
    /// The unit of timestamps.
    pub timestamp_unit: TimestampUnit,
    /// How the texts of date-times are parsed, and which offset the value of a timestamp gets.
    pub time_config: TimeConfig,
}

impl DateTimeConfig {
    /// A builder of a configuration: `DateTimeConfig::builder().build()` is the default one.
    pub fn builder() -> DateTimeConfigBuilder
        ensures default { choices result ≡ default_choices }
    {
        DateTimeConfigBuilder::new()
    }
}

/// Builds a [`DateTimeConfig`] from the values that are set, and defaults for the others.
#[derive(Clone, Copy, Debug, Default)]
pub struct DateTimeConfigBuilder {
    config: DateTimeConfig,
}

impl Model for DateTimeConfigBuilder {
    ghost use Rattle.std.specs.Prelude.{refl};
    ghost use Rattle.speedate_base.specs.declared.config.date_time.DateTimeConfig.{DateTimeConfig};

    ghost Value = { DateTimeConfig };

    ghost view = { λ builder. builder.config };

    ghost inverse = { λ config. record { config = config } };
}

impl DateTimeConfigBuilder {
    /// A builder of the default configuration; `DateTimeConfig::builder()` is the same.
    pub fn new() -> Self
        ensures default { choices result ≡ default_choices }
    {
        Self::default()
    }

    /// Sets the unit of timestamps: with `timestamp_unit(TimestampUnit::Millisecond)`, `1` is
    /// 1970-01-01T00:00:00.001000.
    pub fn timestamp_unit(mut self, unit: TimestampUnit) -> Self
        ensures choices { choices result ≡ unit_and_time unit self.time_config }
    {
        self.config.timestamp_unit = unit;
        self
    }

    /// Sets how the texts of date-times are parsed, and which offset the value of a timestamp gets: none
    /// with `time_config(TimeConfig::default())`.
    pub fn time_config(mut self, config: TimeConfig) -> Self
        ensures choices { choices result ≡ unit_and_time self.timestamp_unit config }
    {
        self.config.time_config = config;
        self
    }

    /// The configuration of the values that were set last, and of defaults for the others:
    /// `DateTimeConfig::builder().build()` infers the unit.
    pub fn build(self) -> DateTimeConfig
        ensures built { result ≡ self }
    {
        self.config
    }
}
