//! Dates, times of day and date-times: their values, their texts, and the calendar that dates lie in.
//!
//! A crate that parses dates or times needs only `speedate`, which re-exports these types. Use this
//! crate to parse or print other forms: it has a clock within a longer text, the date-time at an
//! instant, and the pieces of printed texts.
#![tactic(auto)]

pub mod date;
pub mod datetime;
pub mod form;
pub mod text;
pub mod time;
