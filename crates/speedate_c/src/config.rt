//! Configurations from outside.

ghost use Rattle.std.specs.Option.{ForSome, option_map};
ghost use Rattle.std.specs.Prelude.{◌≡◌, ◌==◌, IfSome, None, Some, if◌then◌else◌, is_some, slice_get, true};
ghost use Rattle.speedate.specs.Config.{choices};
ghost use Rattle.speedate.specs.Offset.{IsOffset};
ghost use Rattle.speedate_c.specs.Config.{behaviors, choices_of, flags, offset_by_flag, orders};
ghost use Rattle.speedate_c.specs.Config.{units};

use speedate::{
    DateConfig, DateTimeConfig, IsoOrder, MicrosecondsPrecisionOverflowBehavior, ParseError,
    TimeConfig, TimestampUnit,
};

/// How texts and timestamps are parsed. In each field 0 means the default.
#[repr(C)]
#[derive(Clone, Copy)]
pub struct SpeedateConfig {
    /// The offset that the value of a timestamp gets, in seconds.
    pub timestamp_offset: i32,
    /// Whether the value of a timestamp gets that offset: 1, or 0 for none.
    pub has_timestamp_offset: u8,
    /// The unit of timestamps: 0 to infer it, 1 for seconds, 2 for milliseconds, 3 for
    /// microseconds.
    pub timestamp_unit: u8,
    /// What is done with digits past the microsecond: 0 to refuse them, 1 to drop them.
    pub overflow_behavior: u8,
    /// The order of the components of a duration: 0 for any, 1 for the strict one.
    pub iso_order: u8,
}

impl SpeedateConfig {
    /// The configuration of date-times, if each number has a value.
    #[inline(always)]
    pub(crate) fn to_config(self) -> Option<DateTimeConfig>
        ensures choices { option_map choices result ≡ choices_of self }
    {
        if !self.has_values() {
            return None;
        }
        Some(DateTimeConfig {
            timestamp_unit: unit(self.timestamp_unit),
            time_config: TimeConfig {
                microseconds_precision_overflow_behavior: behavior(self.overflow_behavior),
                unix_timestamp_offset: self.offset(),
                iso_order: order(self.iso_order),
            },
        })
    }

    /// The configuration of dates, if each number has a value: those that dates do not use too.
    #[inline(always)]
    pub(crate) fn to_date_config(self) -> Option<DateConfig>
        ensures unit { option_map (λ config. config.timestamp_unit) result
            ≡ option_map (λ config. config.unit) (choices_of self) }
    {
        if !self.has_values() {
            return None;
        }
        Some(DateConfig {
            timestamp_unit: unit(self.timestamp_unit),
        })
    }

    /// The offset that a timestamp gets, if each number has a value.
    #[inline(always)]
    fn offset(self) -> Option<i32>
        requires { is_some (choices_of self) ≡ true }
        ensures range { ForSome result IsOffset }
        ensures value { result
            ≡ if self.has_timestamp_offset == 0 then None else Some self.timestamp_offset }
    {
        match self.has_timestamp_offset {
            0 => None,
            _ => Some(self.timestamp_offset),
        }
    }

    /// Whether each number has a value. One test is enough if the numbers of timestamps are 0, as they
    /// mostly are.
    #[inline(always)]
    fn has_values(self) -> bool
        ensures value { result ≡ is_some (choices_of self) }
    {
        let is_of_texts = self.timestamp_offset == 0
            && self.has_timestamp_offset == 0
            && self.timestamp_unit == 0
            && self.overflow_behavior <= 1
            && self.iso_order <= 1;
        is_of_texts || self.has_values_apart()
    }

    /// Whether each number has a value, out of line, so that it keeps no registers from the calls.
    #[cold]
    #[inline(never)]
    fn has_values_apart(self) -> bool
        ensures value { result ≡ is_some (choices_of self) }
    {
        let offset = match self.has_timestamp_offset {
            0 => true,
            1 => TimeConfig::builder()
                .try_unix_timestamp_offset(Some(self.timestamp_offset))
                .is_ok(),
            _ => false,
        };
        offset && self.timestamp_unit <= 3 && self.overflow_behavior <= 1 && self.iso_order <= 1
    }
}

/// The unit of a number that has one.
#[inline(always)]
fn unit(number: u8) -> TimestampUnit
    ensures { IfSome (slice_get units number) (λ unit. result ≡ unit) }
{
    match number {
        1 => TimestampUnit::Second,
        2 => TimestampUnit::Millisecond,
        3 => TimestampUnit::Microsecond,
        _ => TimestampUnit::Infer,
    }
}

/// The behavior of a number that has one.
#[inline(always)]
fn behavior(number: u8) -> MicrosecondsPrecisionOverflowBehavior
    ensures { IfSome (slice_get behaviors number) (λ behavior. result ≡ behavior) }
{
    match number {
        0 => MicrosecondsPrecisionOverflowBehavior::Error,
        _ => MicrosecondsPrecisionOverflowBehavior::Truncate,
    }
}

/// The order of a number that has one.
#[inline(always)]
fn order(number: u8) -> IsoOrder
    ensures { IfSome (slice_get orders number) (λ order. result ≡ order) }
{
    match number {
        0 => IsoOrder::Lax,
        _ => IsoOrder::Strict,
    }
}

/// What a flag says.
pub(crate) fn flag(number: u8) -> Option<bool>
    ensures { result ≡ slice_get flags number }
{
    match number {
        0 => Some(false),
        1 => Some(true),
        _ => None,
    }
}

/// An offset by its flag and its seconds, of any size: none if the flag is 0, whatever the seconds.
/// `OutOfRangeTz` if the flag is neither 0 nor 1.
pub(crate) fn offset(flag: u8, seconds: i32) -> Result<Option<i32>, ParseError>
    ensures answer { result ≡ offset_by_flag flag seconds }
{
    match flag {
        0 => Ok(None),
        1 => Ok(Some(seconds)),
        _ => Err(ParseError::OutOfRangeTz),
    }
}
