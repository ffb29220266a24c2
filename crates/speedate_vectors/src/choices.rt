//! Units, behaviors and orders by their names, and the offsets that a configuration takes.

use crate::rows::{offset, same, words};
use speedate::ConfigError::{
    UnknownMicrosecondsPrecisionOverflowBehaviorString, UnknownTimestampUnitString,
};
use speedate::IsoOrder::{self, Lax, Strict};
use speedate::MicrosecondsPrecisionOverflowBehavior::{self, Error, Truncate};
use speedate::TimeConfig;
use speedate::TimestampUnit::{self, Infer, Microsecond, Millisecond, Second};
use std::str::FromStr;

/// Texts, and the unit that each names, if it names one.
const UNITS: [(&str, Option<TimestampUnit>); 8] = [
    ("s", Some(Second)),
    ("ms", Some(Millisecond)),
    ("MS", Some(Millisecond)),
    ("us", Some(Microsecond)),
    ("US", Some(Microsecond)),
    ("inFer", Some(Infer)),
    ("x", None),
    ("\u{17f}", None),
];

/// Texts, and the behavior that each names, if it names one.
const BEHAVIORS: [(&str, Option<MicrosecondsPrecisionOverflowBehavior>); 3] = [
    ("TRUNCATE", Some(Truncate)),
    ("eRRor", Some(Error)),
    ("errors", None),
];

/// Texts, and the order that each names, if it names one.
const ORDERS: [(&str, Option<IsoOrder>); 3] = [
    ("lax", Some(Lax)),
    ("STRICT", Some(Strict)),
    ("strictly", None),
];

/// Offsets, and how a configuration takes them.
const OFFSETS: &str = "\
-            taken
86399        taken
-86400       out_of_range_tz
-2147483648  out_of_range_tz";

#[test]
fn units_of_names(rt: HostRuntime) {
    for (text, unit) in UNITS {
        let want = unit.ok_or(UnknownTimestampUnitString);
        same(&rt, TimestampUnit::from_str(text), want, text);
    }
}

#[test]
fn behaviors_of_names(rt: HostRuntime) {
    for (text, behavior) in BEHAVIORS {
        let want = behavior.ok_or(UnknownMicrosecondsPrecisionOverflowBehaviorString);
        let read = MicrosecondsPrecisionOverflowBehavior::from_str(text);
        same(&rt, read, want, text);
    }
}

#[test]
fn orders_of_names(rt: HostRuntime) {
    for (text, order) in ORDERS {
        same(&rt, IsoOrder::from_name(text), order, text);
    }
}

#[test]
fn names_of_choices(rt: HostRuntime) {
    same(&rt, Microsecond.name(), "us", "a unit");
    same(&rt, Truncate.name(), "truncate", "a behavior");
    same(&rt, Strict.name(), "strict", "an order");
}

#[test]
fn offsets_of_configurations(rt: HostRuntime) {
    for row in OFFSETS.lines() {
        let [word, want, ..] = words(row);
        let offset = offset(&rt, word);
        match TimeConfig::builder().try_unix_timestamp_offset(offset) {
            Ok(builder) => {
                same(&rt, "taken", want, row);
                same(&rt, builder.build().unix_timestamp_offset, offset, row);
            }
            Err(fault) => same(&rt, fault.name(), want, row),
        }
    }
}
