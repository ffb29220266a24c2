//! Uses of the library, as crates of other workspaces would write them: each file is one use, with
//! its tests in `speedate_uses_tests`. `docs/RATTLE.md` shows a part of one.
#![tactic(auto)]

pub mod ledger;
pub mod log;
pub mod schedule;
