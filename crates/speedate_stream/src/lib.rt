//! Programs over lines: a [`LineMachine`] says what is printed for each line; [`run::run`] reads
//! the lines of an input, writes what is printed, and says why it ended.
#![tactic(auto)]

mod buffer;
mod machine;
pub mod run;
mod watched;

pub use buffer::{PENDING_MAX, Pending, STEP_MAX, push_bytes};
pub use machine::{HEAD_MAX, LineMachine, NoObserver, Observer, SEEN_MAX};
pub use watched::{Failed, Watched};
