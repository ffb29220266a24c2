//! The form of a duration that ISO 8601 has.

ghost use Rattle.std.specs.Prelude.{◌≡◌, ◌+◌, ◌-◌, ◌*◌, ◌<◌, ◌≤◌, length, take, drop, IsTrue, true, false, Ok, IfErr, IfOk, IfSome, Some, None, [], if◌then◌else◌};
ghost use Rattle.std.specs.Char.{is_ascii_digit};
ghost use Rattle.std.specs.List.{list_all};
ghost use Rattle.speedate_base.specs.Digits.{fraction_value, is_decimal_mark};
ghost use Rattle.std.specs.Option.{option_map, is_some};
ghost use Rattle.speedate_base.specs.Refused.{from_byte, placed, seen_as};
ghost use Rattle.speedate_base.specs.Requirement.{result_map, shifted, with_size};
ghost use Rattle.speedate.specs.IsoForm.{Component, TimeDesignator, units, unit_in, fraction_size};
ghost use Rattle.speedate.specs.IsoForm.{unit_seconds, next_units_after, fraction_seconds};
ghost use Rattle.speedate.specs.IsoForm.{fraction_microseconds, component_at, item_at, are_counted};
ghost use Rattle.speedate.specs.IsoForm.{no_sums, with_number, with_item, sums_amount};

mod error_place;

use super::unsigned::UnsignedDuration;
pub(super) use error_place::{Bound, first_item};
use speedate_base::config::IsoOrder;
use speedate_base::faults::ParseError;
use speedate_base::numbers::{Fraction, byte_at, digit_run, is_decimal_mark, up_to_six_digits};
use speedate_base::refusal::Refusal;
use speedate_base::util::{SECONDS_PER_DAY, twice_microseconds};

/// How many digits of a fraction of a second are whole microseconds.
const MICROSECOND_LENGTH: usize = 6;

/// The units of dates, each at the last three bits of its designator: the designator, the place among
/// them, days and seconds. The other entries repeat the month, whose bits differ, so no byte finds them.
///
/// This is a table since a jump to each unit is hard to predict where many are mixed.
static DATE_UNITS: [(u8, u32, u32, u32); 8] = [
    (b'M', 1, 30, 0),
    (b'Y', 0, 365, 0),
    (b'M', 1, 30, 0),
    (b'M', 1, 30, 0),
    (b'D', 3, 1, 0),
    (b'M', 1, 30, 0),
    (b'M', 1, 30, 0),
    (b'W', 2, 7, 0),
];

/// The same of the units of times, with minutes in the other entries.
static TIME_UNITS: [(u8, u32, u32, u32); 8] = [
    (b'H', 0, 0, 3600),
    (b'M', 1, 0, 60),
    (b'M', 1, 0, 60),
    (b'S', 2, 0, 1),
    (b'M', 1, 0, 60),
    (b'M', 1, 0, 60),
    (b'M', 1, 0, 60),
    (b'M', 1, 0, 60),
];

/// A unit of time: its designator, its place among the units of its side, and what one of it is, whole
/// days or seconds.
#[derive(Clone, Copy)]
struct DurationUnit {
    designator: u8,
    place: u32,
    day: u32,
    second: u32,
    ghost place_small: { place ≤ 3 },
    ghost day_small: { day ≤ 365 },
    ghost second_small: { second ≤ 3600 },
    ghost one_small: { 86400 * day + second ≤ 31536000 },
}

impl DurationUnit {
    ghost use Rattle.speedate.specs.IsoParts.{unit_parts, IsUnitOf};

    /// The unit of a designator, before the `T` or after it.
    #[inline(always)]
    fn from_designator(designator: u8, is_time: bool) -> Option<Self>
        ensures unit { option_map unit_parts result ≡ unit_in (units is_time) designator }
        ensures side { IfSome result (λ unit. IsUnitOf is_time unit) }
        ensures designator { IfSome result (λ unit. unit.designator ≡ designator) }
    {
        let units = if is_time { &TIME_UNITS } else { &DATE_UNITS };
        let (letter, place, day, second) = units[usize::from(designator % 8)];
        if letter != designator {
            return None;
        }
        Some(DurationUnit {
            designator,
            place,
            day,
            second,
        })
    }

    /// The whole seconds of a fraction of this unit, and the microseconds that are nearest to what is
    /// left: a million of them if that rounds up to a second. The fraction is given by its digits, and
    /// by the microseconds of a second that the first six of them are.
    #[inline(always)]
    fn fraction(&self, digits: &[u8], microseconds: u32) -> (u32, u32)
        requires digits { IsTrue (list_all is_ascii_digit digits.now) }
        requires microseconds { microseconds ≡ fraction_value 6 digits.now }
        requires small { microseconds ≤ 999999 }
        ensures second { result.0 ≡ fraction_seconds (unit_parts self.now) digits.now }
        ensures microsecond { result.1 ≡ fraction_microseconds (unit_parts self.now) digits.now }
        ensures second_small { result.0 ≤ 31536000 }
        ensures microsecond_small { result.1 ≤ 1000000 }
    {
        // Six digits or fewer are whole microseconds, and need no rounding.
        if digits.len() > MICROSECOND_LENGTH {
            return self.long_fraction(digits);
        }
        let all = self.seconds() * u64::from(microseconds);
        let whole = all / 1_000_000;
        (whole as u32, (all - 1_000_000 * whole) as u32)
    }

    /// The whole seconds and the microseconds of a fraction of this unit that has any number of digits:
    /// out of line, since it is long, and few fractions have more than six. It cuts off whole seconds
    /// first, because `nearest_microseconds` does not show whether rounding reached a second.
    #[inline(never)]
    fn long_fraction(&self, digits: &[u8]) -> (u32, u32)
        requires { IsTrue (list_all is_ascii_digit digits.now) }
        ensures second { result.0 ≡ fraction_seconds (unit_parts self.now) digits.now }
        ensures microsecond { result.1 ≡ fraction_microseconds (unit_parts self.now) digits.now }
        ensures second_small { result.0 ≤ 31536000 }
        ensures microsecond_small { result.1 ≤ 1000000 }
    {
        let twice = twice_microseconds(digits, 1_000_000 * self.seconds(), false);
        let whole = twice / 2_000_000;
        (whole as u32, ((twice + 1) / 2 - 1_000_000 * whole) as u32)
    }

    /// The seconds of one of this unit.
    #[inline(always)]
    fn seconds(&self) -> u64
        ensures second { result ≡ unit_seconds (unit_parts self.now) }
        ensures small { result ≤ 31536000 }
    {
        u64::from(SECONDS_PER_DAY * self.day + self.second)
    }
}

/// What the items of a duration add up to.
#[derive(Clone, Copy)]
pub(super) struct Sums {
    /// The order in which components have to come.
    order: IsoOrder,
    /// The first place of this side whose unit may still come.
    next_place: u32,
    /// Whether there was a `T`.
    is_time: bool,
    /// Whether a component had a fraction.
    has_fraction: bool,
    /// Whether there was a component.
    has_component: bool,
    /// The days.
    day: u32,
    /// The seconds.
    second: u32,
    /// The microseconds, up to a whole second.
    microsecond: u32,
    ghost microsecond_small: { microsecond ≤ (if has_fraction then 1000000 else 0) },
}

impl Sums {
    ghost use Rattle.speedate.specs.Duration.{iso_from, iso_form};
    ghost use Rattle.speedate.specs.IsoParts.{unit_parts, IsUnitOf, sums_parts, item_front_or};

    /// Parses all items of a duration, and adds them up. The text ends at `end` of the whole.
    ///
    /// Most texts are whole numbers of few digits with their designators, a `T`, and such components
    /// again. These come first: such a number times its unit fits 32 bits, which leaves the test of the
    /// sum. What is left is parsed item by item.
    #[inline(always)]
    pub(super) fn parse<E: Refusal>(
        body: &[u8],
        order: IsoOrder,
        end: usize,
    ) -> Result<UnsignedDuration, E>
        requires { length body.now ≤ end }
        ensures answer { result
            ≡ seen_as (shifted (end - length body.now) E.refusal) (iso_form order body.now) }
        ensures placed { IfErr result (E.lies_within end) }
    {
        let none = Sums::none(order);
        let (days, rest) = none.with_short_components(body);
        let (sums, rest) = days.with_short_time(rest);
        sums.parse_items(rest, end)
    }

    /// The sums of no items.
    #[inline(always)]
    fn none(order: IsoOrder) -> Self
        ensures sums { sums_parts result ≡ no_sums order }
    {
        Sums {
            order,
            next_place: 0,
            is_time: false,
            has_fraction: false,
            has_component: false,
            day: 0,
            second: 0,
            microsecond: 0,
        }
    }

    /// The sums with the short components after a `T`, if a first one begins a text, and what follows them.
    #[inline(always)]
    fn with_short_time(self, text: &[u8]) -> (Self, &[u8])
        ensures answer { from_byte (length text.now - length result.1.now)
            (iso_from (sums_parts result.0) result.1.now)
            ≡ iso_from (sums_parts self) text.now }
        ensures within { length result.1.now ≤ length text.now }
    {
        match text {
            [b'T', rest @ ..] if !self.is_time => self.begin_time().with_short_components(rest),
            _ => (self, text),
        }
    }

    /// The sums with the short components that begin a text, as many as there are, and what follows
    /// them. The rest of the text is returned, and not a size, which each step of the loop would have to
    /// add up.
    #[inline(always)]
    fn with_short_components(self, text: &[u8]) -> (Self, &[u8])
        ensures answer { from_byte (length text.now - length result.1.now)
            (iso_from (sums_parts result.0) result.1.now)
            ≡ iso_from (sums_parts self) text.now }
        ensures within { length result.1.now ≤ length text.now }
    {
        let mut sums = self;
        let mut rest = text;
        while let Some((next, size)) = sums.with_short_component(rest) {
            sums = next;
            rest = &rest[size..];
        }
        (sums, rest)
    }

    /// The sums with the component that begins a text, and how many bytes it has, if it is a whole
    /// number of one to six digits with its designator, and nothing is wrong in it.
    #[inline(always)]
    fn with_short_component(self, text: &[u8]) -> Option<(Self, usize)>
        ensures item { IfSome result (λ next. Ok (sums_parts next.0, next.1)
            ≡ item_front_or placed (sums_parts self) (item_at text.now)) }
        ensures some { IfSome result (λ next. 0 < next.1) }
        ensures within { IfSome result (λ next. next.1 ≤ length text.now) }
    {
        let (number, size) = up_to_six_digits(text)?;
        if size == 0 {
            return None;
        }
        let unit = DurationUnit::from_designator(byte_at(text, size), self.is_time)?;
        if self.has_fraction || !self.takes(&unit) {
            return None;
        }
        Some((self.with_whole(number, &unit)?, size + 1))
    }

    /// The sums after the `T`.
    #[inline(always)]
    fn begin_time(self) -> Self
        ensures sums { sums_parts result ≡ with_item TimeDesignator (sums_parts self) }
    {
        let mut sums = self;
        sums.is_time = true;
        sums.next_place = 0;
        sums
    }

    /// Whether a unit of this side may still come.
    #[inline(always)]
    #[tactic(auto, using(crate::proofs::IsoItemLemmas::place_rules))]
    fn takes(&self, unit: &DurationUnit) -> bool
        requires { IsUnitOf self.now.is_time unit.now }
        ensures taken { result
            ≡ is_some (unit_in (sums_parts self.now).next_units unit.now.designator) }
        ensures place { IsTrue result → self.now.next_place ≤ unit.now.place }
    {
        self.next_place <= unit.place
    }

    /// The first place of this side whose unit may still come after one of them.
    #[inline(always)]
    fn place_after(&self, unit: &DurationUnit) -> u32
        requires unit { IsUnitOf self.now.is_time unit.now }
        requires place { self.now.next_place ≤ unit.now.place }
        ensures units { drop result (units self.now.is_time)
            ≡ next_units_after self.now.order self.now.is_time unit.now.designator
            (sums_parts self.now).next_units }
    {
        match self.order {
            IsoOrder::Lax => 0,
            IsoOrder::Strict => unit.place + 1,
        }
    }

    /// The sums with a number of a unit, or `None` if they do not fit 32 bits.
    #[inline(always)]
    fn with_whole(self, number: u32, unit: &DurationUnit) -> Option<Self>
        requires none { self.has_fraction ≡ false }
        requires unit { IsUnitOf self.is_time unit.now }
        requires place { self.next_place ≤ unit.now.place }
        requires short { number < 1000000 }
        ensures sums { IfSome result (λ sums. sums_parts sums
            ≡ with_number (unit_parts unit.now) number [] (sums_parts self)) }
        ensures counted { is_some result
            ≡ are_counted (with_number (unit_parts unit.now) number [] (sums_parts self)) }
    {
        let mut sums = self;
        sums.next_place = self.place_after(unit);
        sums.has_component = true;
        sums.day = self.day.checked_add(number * unit.day)?;
        sums.second = self.second.checked_add(number * unit.second)?;
        Some(sums)
    }

    /// The amount of sums.
    #[inline(always)]
    fn sum(self) -> UnsignedDuration
        ensures amount { result ≡ sums_amount (sums_parts self) }
    {
        UnsignedDuration {
            day: self.day,
            second: self.second,
            microsecond: self.microsecond,
        }
    }

    /// Parses the items of a text one by one, with all that may be wrong in them, and adds them. The text
    /// ends at `end` of the whole.
    #[inline(always)]
    fn parse_items<E: Refusal>(self, text: &[u8], end: usize) -> Result<UnsignedDuration, E>
        requires { length text.now ≤ end }
        ensures answer { result
            ≡ seen_as (shifted (end - length text.now) E.refusal)
            (iso_from (sums_parts self) text.now) }
        ensures placed { IfErr result (E.lies_within end) }
    {
        let mut sums = self;
        let mut rest = text;
        while !rest.is_empty() {
            let (next, size) = sums.with_item::<E>(rest, end - rest.len())?;
            sums = next;
            rest = &rest[size..];
        }
        if !sums.has_component {
            return Err(E::refuse_at(ParseError::TooShort, end));
        }
        Ok(sums.sum())
    }

    /// The sums with the item that begins a text, and how many bytes it has. The text begins at `start` of
    /// the whole.
    #[inline(always)]
    fn with_item<E: Refusal>(self, text: &[u8], start: usize) -> Result<(Self, usize), E>
        requires some { 0 < length text.now }
        requires start { start + length text.now ≤ usize.MAX }
        ensures item { result_map (with_size sums_parts) result
            ≡ item_front_or (shifted start E.refusal) (sums_parts self) (item_at text.now) }
        ensures some { IfOk result (λ next. 0 < next.1) }
        ensures within { IfOk result (λ next. next.1 ≤ length text.now) }
        ensures placed { IfErr result (E.lies_within (start + length text.now)) }
    {
        if text[0] != b'T' {
            return self.with_component(text, start);
        }
        if self.is_time {
            return Err(E::refuse_at(ParseError::DurationTRepeated, start));
        }
        Ok((self.begin_time(), 1))
    }

    /// The sums with the component that begins a text, and how many bytes it has. The text begins at `start`
    /// of the whole.
    #[inline(always)]
    #[tactic(auto, using(crate::proofs::IsoItemLemmas::component_rules))]
    fn with_component<E: Refusal>(self, text: &[u8], start: usize) -> Result<(Self, usize), E>
        requires { start + length text.now ≤ usize.MAX }
        ensures item { result_map (with_size sums_parts) result
            ≡ item_front_or (shifted start E.refusal) (sums_parts self)
            (Component (component_at text.now)) }
        ensures some { IfOk result (λ next. 0 < next.1) }
        ensures within { IfOk result (λ next. next.1 ≤ length text.now) }
        ensures placed { IfErr result (E.lies_within (start + length text.now)) }
    {
        let number = digit_run(text);
        if number.length == 0 {
            return Err(E::refuse_at(ParseError::DurationInvalidNumber, start));
        }
        if number.value > u64::from(u32::MAX) {
            return Err(E::refuse_at(ParseError::DurationValueTooLarge, start));
        }
        if self.has_fraction {
            return Err(E::refuse_at(ParseError::DurationInvalidFraction, start));
        }
        let rest = &text[number.length..];
        let (microseconds, size) = fraction_at_front(rest);
        let unit_fault = if self.is_time {
            ParseError::DurationInvalidTimeUnit
        } else {
            ParseError::DurationInvalidDateUnit
        };
        let place = number.length + size;
        let Some(unit) = DurationUnit::from_designator(byte_at(rest, size), self.is_time) else {
            return Err(E::refuse_at(unit_fault, start + place));
        };
        if !self.takes(&unit) {
            return Err(E::refuse_at(ParseError::DurationUnitOrder, start + place));
        }
        let number = number.value as u32;
        let Some(sums) = self.with_number(number, &unit, &rest[..size], microseconds) else {
            return Err(E::refuse_at(ParseError::DurationValueTooLarge, start));
        };
        Ok((sums, place + 1))
    }

    /// The sums with a number of a unit, and a fraction of it, which is nothing or a decimal mark and
    /// digits, or `None` if they do not fit 32 bits; `microseconds` is what the digits are of a second.
    #[inline(always)]
    fn with_number(
        self,
        number: u32,
        unit: &DurationUnit,
        fraction: &[u8],
        microseconds: u32,
    ) -> Option<Self>
        requires none { self.has_fraction ≡ false }
        requires unit { IsUnitOf self.is_time unit.now }
        requires place { self.next_place ≤ unit.now.place }
        requires digits { IsTrue (list_all is_ascii_digit (drop 1 fraction.now)) }
        requires microseconds { microseconds ≡ fraction_value 6 (drop 1 fraction.now) }
        requires small { microseconds ≤ 999999 }
        ensures sums { option_map sums_parts result
            ≡ (if are_counted
            (with_number (unit_parts unit.now) number fraction.now (sums_parts self))
            then Some (with_number (unit_parts unit.now) number fraction.now (sums_parts self))
            else None) }
    {
        let (whole, microsecond) = match fraction {
            [] => (0, 0),
            [_, digits @ ..] => unit.fraction(digits, microseconds),
        };
        let number = u64::from(number);
        let day = u64::from(self.day)
            + number * u64::from(unit.day)
            + u64::from(whole / SECONDS_PER_DAY);
        let second = u64::from(self.second)
            + number * u64::from(unit.second)
            + u64::from(whole % SECONDS_PER_DAY);
        if day > u64::from(u32::MAX) || second > u64::from(u32::MAX) {
            return None;
        }
        Some(Sums {
            order: self.order,
            next_place: self.place_after(unit),
            is_time: self.is_time,
            has_fraction: !fraction.is_empty(),
            has_component: true,
            day: day as u32,
            second: second as u32,
            microsecond,
        })
    }
}

/// The microseconds of a second that the first six digits of the fraction at the front of a text are, and
/// how many bytes it has with its decimal mark: 120,000 and 4 for `b".120S"`, and 0 and 0 if there is none.
#[inline(always)]
fn fraction_at_front(text: &[u8]) -> (u32, usize)
    ensures microseconds { result.0
        ≡ fraction_value 6 (drop 1 (take (fraction_size text.now) text.now)) }
    ensures small { result.0 ≤ 999999 }
    ensures length { result.1 ≡ fraction_size text.now }
    ensures within { result.1 ≤ length text.now }
{
    if !is_decimal_mark(byte_at(text, 0)) {
        return (0, 0);
    }
    let fraction = Fraction::read(text, 1);
    (fraction.microsecond, 1 + fraction.length)
}
