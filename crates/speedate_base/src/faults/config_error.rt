//! The errors of the texts by which configurations are chosen.

ghost use Rattle.std.specs.Prelude.{◌≡◌, Some, None};
ghost use Rattle.speedate_base.specs.Fault.{config_error_name};

use std::fmt;

/// Why the text of a choice was refused. Every refusal has exactly one of these.
///
/// It is printed by its snake-case name, as `unknown_timestamp_unit_string` for
/// `UnknownTimestampUnitString`.
#[derive(Clone, Copy, Debug, PartialEq, Eq)]
pub enum ConfigError {
    /// The text names no behavior for digits past the microsecond.
    UnknownMicrosecondsPrecisionOverflowBehaviorString,
    /// The text names no unit of timestamps.
    UnknownTimestampUnitString,
}

impl ConfigError {
    /// The snake-case name: `unknown_timestamp_unit_string` for
    /// `ConfigError::UnknownTimestampUnitString`. No other error has it.
    pub fn name(&self) -> &'static str
        ensures name { result.now ≡ config_error_name self.now }
        ensures distinct { (other : ConfigError) → result.now ≡ config_error_name other
            → self.now ≡ other }
    {
        match self {
            ConfigError::UnknownMicrosecondsPrecisionOverflowBehaviorString => {
                "unknown_microseconds_precision_overflow_behavior_string"
            }
            ConfigError::UnknownTimestampUnitString => "unknown_timestamp_unit_string",
        }
    }

    /// The documentation text: always `None`, since these errors have none.
    pub fn get_documentation(&self) -> Option<&'static str>
        ensures none { result ≡ None }
    {
        None
    }
}

impl fmt::Display for ConfigError {
    ghost output = { λ fault. Some (config_error_name fault) };

    fn fmt<W: fmt::Write>(&self, f: &mut fmt::Formatter<W>) -> fmt::Result {
        f.pad(self.name())
    }
}

impl std::error::Error for ConfigError {}
