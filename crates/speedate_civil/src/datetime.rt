//! Date-times: a date and a time of day, with or without an offset from UTC.

mod error_place;
mod full_clock;
mod loose;
mod now;
mod order;
mod parse;
mod text;
mod timestamp;
mod timezone;

use crate::date::Date;
use crate::time::Time;
pub use full_clock::{full_front, utc_front};
pub use loose::{
    accepted_loose_value, loose_front, loose_value_by_parts, loose_whole, usual_loose_value,
};
pub use now::Moment;
pub use parse::{has_separator, require_standard_date_time};
pub use timestamp::timestamp_instant;

/// A date and a time of day, with an offset from UTC or without one.
///
/// It is parsed by [`DateTime::parse_str`], or without timestamps by [`DateTime::parse_str_rfc3339`], and
/// made from a [`Date`] and a [`Time`] by their fields: `DateTime { date, time }`. It is printed as
/// `YYYY-MM-DDTHH:MM:SS`, with the fraction and the offset of its time:
/// `2020-02-29T12:13:14.500000+01:30`. Display writes this text, whatever width and fill are asked for.
///
/// `==` compares the fields. There is no `<`: [`DateTime::cmp_instant`] orders date-times. Nor does
/// it implement `Hash`: as a key use the fields, or the printed text if offsets are whole minutes.
#[derive(Clone, Copy, Debug, PartialEq, Eq)]
pub struct DateTime {
    /// The date, as a clock at the offset shows it.
    pub date: Date,
    /// The time of day, as that clock shows it, and the offset.
    pub time: Time,
}
