//! What the lines of a text are to the commands of the program `speedate`. [`reading`] says what the value of a
//! line is, by [`claim`], [`form`], [`timestamp`], [`fraction`] and [`field`], and [`glance`] what is known of
//! it without parsing part by part; [`amount`] says what its duration is, by [`duration_place`], [`scan`] what a line is
//! to a command, and [`print`] how names, numbers and bad values are printed.
#![tactic(auto)]

pub mod amount;
pub mod claim;
pub mod duration_place;
pub mod field;
pub mod form;
pub mod fraction;
pub mod glance;
pub mod print;
pub mod reading;
pub mod scan;
pub mod timestamp;
