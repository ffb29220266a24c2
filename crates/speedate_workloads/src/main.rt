//! Runs a workload: `speedate_workloads columns 1 10` reads ten rounds of columns that are drawn from the
//! seed 1, and prints a digest of all that was read. `all` runs each workload.
#![tactic(auto)]

mod awkward;
mod columns;
mod draw;
mod fields;
mod jobs;
mod ledger;
mod log;
mod pieces;

use draw::Digest;
use speedate::int_parse_str;
use std::alloc::{AllocError, Global};
use std::io;
use std::process::ExitCode;

/// The workloads.
const NAMES: [&str; 6] = ["columns", "log", "ledger", "fields", "jobs", "awkward"];

fn main(rt: HostRuntime) -> io::Result<ExitCode> {
    let words: Vec<String> = std::env::args(&rt)?.collect(rt.alloc())?;
    let [_, name, seed, rounds] = words.as_slice() else {
        eprintln!(rt; "usage: speedate_workloads NAME SEED ROUNDS")?;
        return Ok(ExitCode::from(2));
    };
    let seed = number(seed.as_str());
    let rounds = number(rounds.as_str());
    let mut is_known = false;
    for known in NAMES {
        if name.as_str() == known || name.as_str() == "all" {
            let digest = digest(rt.alloc(), known, seed, rounds)?.number;
            println!(rt; "{known} {digest}")?;
            is_known = true;
        }
    }
    if is_known {
        return Ok(ExitCode::SUCCESS);
    }
    let name = name.as_str();
    eprintln!(rt; "there is no workload {name}")?;
    Ok(ExitCode::from(2))
}

/// The digest of a workload, by its name.
fn digest(alloc: Global, name: &str, seed: u64, rounds: u64) -> Result<Digest, AllocError> {
    match name {
        "columns" => Ok(columns::run(seed, rounds)),
        "log" => log::run(alloc, seed, rounds),
        "ledger" => ledger::run(alloc, seed, rounds),
        "fields" => Ok(fields::run(seed, rounds)),
        "jobs" => Ok(jobs::run(seed, rounds)),
        _ => Ok(awkward::run(seed, rounds)),
    }
}

/// The number that a word is, or 0.
fn number(word: &str) -> u64 {
    int_parse_str(word).unwrap_or(0).unsigned_abs()
}
