//! What the parsers and printers of the library are built on: the errors, the configurations, whole
//! numbers and decimals, digits and bytes at places of a text, the ends of lines, the instants of
//! timestamps, and the rounding of fractions.
//!
//! A crate that parses dates or times needs only `speedate`, which exports the errors, the
//! configurations and the numbers. Use this crate to parse or print other forms.
#![tactic(auto)]

pub mod config;
pub mod faults;
pub mod lines;
pub mod numbers;
pub mod refusal;
pub mod util;
