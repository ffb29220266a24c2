//! The library as C functions, for `c/speedate.h`: each call on texts, numbers and plain structs,
//! which answers 0 or why it refuses.
#![tactic(auto)]

ghost use Rattle.std.specs.Prelude.{◌≡◌, pos};

/// The value of a struct of the caller's. The call ends with `VALUE_OUT_OF_RANGE` if there is none.
macro_rules! value_or_return {
    ($given:expr) => {
        match $given.to_value() {
            Ok(value) => value,
            Err(_) => return $crate::code::VALUE_OUT_OF_RANGE,
        }
    };
}

/// The configuration of the caller's numbers. The call ends with `CONFIG_OUT_OF_RANGE` if there is none.
macro_rules! config_or_return {
    ($config:expr) => {
        match $config {
            Some(config) => config,
            None => return $crate::code::CONFIG_OUT_OF_RANGE,
        }
    };
}

/// The value of an answer. The call ends with the code of the error if there is none.
macro_rules! answer_or_return {
    ($answer:expr) => {
        match $answer {
            Ok(value) => value,
            Err(fault) => return $crate::code::fault_code(fault),
        }
    };
}

/// The code of an answer.
macro_rules! code_of {
    ($answer:expr) => {{
        let _ = answer_or_return!($answer);
        $crate::code::SUCCESS
    }};
}

/// Writes what is computed of the values of structs of the caller's, and gives the code.
macro_rules! write_of {
    ($($value:ident),+ => *$out:ident = $written:expr) => {{
        $(let $value = value_or_return!($value);)+
        *$out = $written;
        $crate::code::SUCCESS
    }};
}

/// Prints a time by the parts that its text has. In each arm the compiler knows the size of the text,
/// so it writes the text into the buffer itself, and copies none.
macro_rules! print_by_parts {
    ($time:expr, $parts:ident => $print:expr) => {
        match ($time.microsecond, $time.tz_offset) {
            (0, None) => print_by_parts!($time, 0, None, $parts => $print),
            (0, Some(0)) => print_by_parts!($time, 0, Some(0), $parts => $print),
            (0, offset) => print_by_parts!($time, 0, offset, $parts => $print),
            (micros, None) => print_by_parts!($time, micros, None, $parts => $print),
            (micros, Some(0)) => print_by_parts!($time, micros, Some(0), $parts => $print),
            (micros, offset) => print_by_parts!($time, micros, offset, $parts => $print),
        }
    };
    ($time:expr, $microsecond:expr, $offset:expr, $parts:ident => $print:expr) => {{
        let $parts = $crate::time::with_parts(&$time, $microsecond, $offset);
        $print
    }};
}

mod arithmetic;
mod code;
mod column;
mod config;
mod date;
mod datetime;
mod duration;
mod number;
mod part;
mod ranges;
mod text;
mod time;

/// The version of the library, the macro `SPEEDATE_VERSION_NUMBER` of `c/speedate.h`: a million times the
/// major number, a thousand times the minor one and the patch, which is not a code.
#[unsafe(no_mangle)]
pub extern "C" fn speedate_version() -> i32
    ensures version { result ≡ pos 1000000 }
{
    1_000_000
}
