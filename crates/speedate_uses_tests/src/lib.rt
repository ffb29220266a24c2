//! Tests of the callers in `speedate_uses`, each in a file of its caller's name.
#![tactic(auto)]

#[cfg(test)]
mod checks;
#[cfg(test)]
mod ledger;
#[cfg(test)]
mod log;
#[cfg(test)]
mod schedule;
