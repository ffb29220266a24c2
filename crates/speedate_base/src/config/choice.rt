//! The names of the units of timestamps, the behaviors and the orders of components, and how a text
//! chooses one of them.

ghost use Rattle.std.specs.Prelude.{◌≡◌, Contains, Ok, Some};
ghost use Rattle.speedate_base.specs.Config.{◌chooses◌, unit_choices, unit_answer};
ghost use Rattle.speedate_base.specs.Config.{behavior_choices, behavior_answer, order_choices};
ghost use Rattle.speedate_base.specs.Config.{order_answer};

use super::{IsoOrder, MicrosecondsPrecisionOverflowBehavior, TimestampUnit};
use crate::faults::ConfigError;
use std::str::FromStr;

impl TimestampUnit {
    /// The name, in small letters: `ms` for `TimestampUnit::Millisecond`. It reads back as the unit.
    pub fn name(&self) -> &'static str
        ensures name { Contains unit_choices (result.now chooses self.now) }
        ensures reads_back { unit_answer result.now ≡ Ok self.now }
    {
        match self {
            TimestampUnit::Second => "s",
            TimestampUnit::Millisecond => "ms",
            TimestampUnit::Microsecond => "us",
            TimestampUnit::Infer => "infer",
        }
    }
}

impl FromStr for TimestampUnit {
    type Err = ConfigError;

    ghost from_str_gives = { λ text result. result ≡ unit_answer text };

    /// The unit that a text names, in ASCII letters of any case: `TimestampUnit::Millisecond` for
    /// `"ms"`, and the others for `"s"`, `"us"` and `"infer"`.
    ///
    /// # Errors
    ///
    /// `UnknownTimestampUnitString` for any other text.
    fn from_str(text: &str) -> Result<Self, ConfigError> {
        if "s".eq_ignore_ascii_case(text) {
            Ok(TimestampUnit::Second)
        } else if "ms".eq_ignore_ascii_case(text) {
            Ok(TimestampUnit::Millisecond)
        } else if "us".eq_ignore_ascii_case(text) {
            Ok(TimestampUnit::Microsecond)
        } else if "infer".eq_ignore_ascii_case(text) {
            Ok(TimestampUnit::Infer)
        } else {
            Err(ConfigError::UnknownTimestampUnitString)
        }
    }
}

impl MicrosecondsPrecisionOverflowBehavior {
    /// The name, in small letters: `truncate` for `MicrosecondsPrecisionOverflowBehavior::Truncate`.
    /// It reads back as the behavior.
    pub fn name(&self) -> &'static str
        ensures name { Contains behavior_choices (result.now chooses self.now) }
        ensures reads_back { behavior_answer result.now ≡ Ok self.now }
    {
        match self {
            MicrosecondsPrecisionOverflowBehavior::Truncate => "truncate",
            MicrosecondsPrecisionOverflowBehavior::Error => "error",
        }
    }
}

impl FromStr for MicrosecondsPrecisionOverflowBehavior {
    type Err = ConfigError;

    ghost from_str_gives = { λ text result. result ≡ behavior_answer text };

    /// The behavior that a text names, in ASCII letters of any case: `Truncate` for `"truncate"`, and
    /// `Error` for `"error"`.
    ///
    /// # Errors
    ///
    /// `UnknownMicrosecondsPrecisionOverflowBehaviorString` for any other text.
    fn from_str(text: &str) -> Result<Self, ConfigError> {
        if "truncate".eq_ignore_ascii_case(text) {
            Ok(MicrosecondsPrecisionOverflowBehavior::Truncate)
        } else if "error".eq_ignore_ascii_case(text) {
            Ok(MicrosecondsPrecisionOverflowBehavior::Error)
        } else {
            Err(ConfigError::UnknownMicrosecondsPrecisionOverflowBehaviorString)
        }
    }
}

impl IsoOrder {
    /// The name, in small letters: `strict` for `IsoOrder::Strict`. It reads back as the order.
    pub fn name(&self) -> &'static str
        ensures name { Contains order_choices (result.now chooses self.now) }
        ensures reads_back { order_answer result.now ≡ Some self.now }
    {
        match self {
            IsoOrder::Lax => "lax",
            IsoOrder::Strict => "strict",
        }
    }

    /// The order that a text names, in ASCII letters of any case: `Lax` for `"lax"`, and `Strict` for
    /// `"strict"`. `None` for any other text.
    pub fn from_name(text: &str) -> Option<Self>
        ensures answer { result ≡ order_answer text.now }
    {
        if "lax".eq_ignore_ascii_case(text) {
            Some(IsoOrder::Lax)
        } else if "strict".eq_ignore_ascii_case(text) {
            Some(IsoOrder::Strict)
        } else {
            None
        }
    }
}
