//! What the commands of the program `speedate` print for the lines of their inputs: [`between`], [`check`],
//! [`convert`], [`sum`] and [`summary`]. [`order`] compares a value with the one before, [`nanosecond`] prints
//! values and durations, [`command`] has what a run over files needs of a command, [`in_order`] does what `between --in-order` does, and [`status`] has the exit status.
#![tactic(auto)]

pub mod between;
pub mod check;
pub mod command;
pub mod convert;
pub mod in_order;
pub mod nanosecond;
pub mod order;
pub mod search;
pub mod status;
pub mod sum;
pub mod summary;
