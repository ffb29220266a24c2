//! What the commands [`sort`] and [`merge`] of the program `speedate` print for the lines of their inputs.
#![tactic(auto)]

pub mod merge;
pub mod sort;
