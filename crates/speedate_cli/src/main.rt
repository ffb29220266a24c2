//! Selects, sorts, merges, converts, checks and sums up lines by their date-times, and adds up their durations.
#![tactic(auto)]

mod choice;
mod commands;
mod files;
mod idle;
mod input;
mod merge_session;
mod options;
mod program;
mod reason;
mod seeking;
mod sort_session;
#[cfg(test)]
mod tests;
mod told;
mod unread_zone;

use clap::ArgMatches;
use commands::{
    first_between, first_check, first_convert, first_keys, first_merge, first_sum, first_summary,
};
use options::Refusal;
use speedate_commands::status::USAGE;
use std::alloc::AllocError;
use std::env::Env;
use std::io::{ErrorKind, Write};
use std::process::ExitCode;

/// No argument is longer: Linux allows 131,072 bytes with the zero that ends one.
const ARGUMENT_MAX: usize = 131_072;

fn main(rt: HostRuntime) -> anyhow::Result<ExitCode> {
    let alloc = rt.alloc();
    let words: Vec<String> = match std::env::args(&rt) {
        Ok(words) => words.collect(alloc)?,
        Err(error) if error.kind() == ErrorKind::InvalidData => {
            tell_argument(&rt)?;
            return Ok(ExitCode::from(USAGE));
        }
        Err(error) => return Err(error.into()),
    };
    Ok(ExitCode::from(run_words(&rt, words.as_slice())?))
}

/// Runs what a command line asks for, and returns the exit status.
fn run_words(rt: &HostRuntime, words: &[String]) -> Result<u8, AllocError> {
    let program = program::program(rt.alloc())?;
    match program.try_get_matches_from(words) {
        Ok(matches) => Ok(run_matches(rt, &matches)),
        Err(error) => Ok(tell(rt, &error)),
    }
}

/// Runs the command that was given, and returns the exit status.
fn run_matches(rt: &HostRuntime, matches: &ArgMatches<'_>) -> u8 {
    let Some((name, given)) = matches.subcommand() else {
        return USAGE;
    };
    match run(rt, name, given) {
        Ok(status) => status,
        Err(refusal) => {
            let _ = eprintln!(rt; "error: {name}: {refusal}");
            USAGE
        }
    }
}

/// Tells what the command line asks for in place of a command, or why it is refused, and returns the exit
/// status.
fn tell(rt: &HostRuntime, error: &clap::Error) -> u8 {
    let told = error.print(rt);
    if error.use_stderr() {
        return USAGE;
    }
    match told {
        Ok(()) => 0,
        Err(failure) => told::tell_output(rt, failure.kind() == ErrorKind::BrokenPipe),
    }
}

/// Tells the first argument that is not UTF-8.
fn tell_argument(rt: &HostRuntime) -> Result<(), AllocError> {
    let mut argument = vec![in rt.alloc(); 0u8; ARGUMENT_MAX]?;
    for index in 0..usize::MAX {
        let Ok(size) = rt.arg(index, &mut argument) else {
            break;
        };
        let text = &argument[..size];
        if std::str::from_utf8(text).is_err() {
            tell_text(rt, text);
            break;
        }
    }
    Ok(())
}

/// Tells an argument that is not UTF-8.
fn tell_text(rt: &HostRuntime, text: &[u8]) {
    let mut stderr = rt.stderr();
    let _ = stderr.write_all(b"error: an argument is not UTF-8: ");
    let _ = stderr.write_all(text);
    let _ = stderr.write_all(b"\n");
}

/// Runs a command by its name and what it was given, and returns the exit status.
fn run(rt: &HostRuntime, name: &str, given: &ArgMatches<'_>) -> Result<u8, Refusal> {
    let _input = input::hold_input(rt);
    let _output = input::hold_output(rt);
    run_command(rt, name, given, given.get_strs("FILE").unwrap_or(&[]))
}

/// Runs a command over these files.
fn run_command<'a>(
    rt: &HostRuntime,
    name: &str,
    given: &ArgMatches<'a>,
    files: &[&'a str],
) -> Result<u8, Refusal> {
    match name {
        "between" => run_between(rt, given, files),
        "check" => run_check(rt, given, files),
        "convert" => run_convert(rt, given, files),
        "merge" => run_merge(rt, given, files),
        "sum" => run_sum(rt, given, files),
        "sort" => run_sort(rt, given, files),
        _ => run_summary(rt, given, files),
    }
}

/// Runs the command `between`.
fn run_between<'a>(
    rt: &HostRuntime,
    given: &ArgMatches<'a>,
    files: &[&'a str],
) -> Result<u8, Refusal> {
    let mut between = first_between(given)?;
    told::tell_bounds(rt, &between.bounds);
    Ok(files::run_files(rt, &mut between, files))
}

/// Runs the command `check`.
fn run_check<'a>(
    rt: &HostRuntime,
    given: &ArgMatches<'a>,
    files: &[&'a str],
) -> Result<u8, Refusal> {
    let mut check = first_check(given)?;
    Ok(files::run_files(rt, &mut check, files))
}

/// Runs the command `convert`.
fn run_convert<'a>(
    rt: &HostRuntime,
    given: &ArgMatches<'a>,
    files: &[&'a str],
) -> Result<u8, Refusal> {
    let mut convert = first_convert(given)?;
    Ok(files::run_files(rt, &mut convert, files))
}

/// Runs the command `sum`.
fn run_sum<'a>(rt: &HostRuntime, given: &ArgMatches<'a>, files: &[&'a str]) -> Result<u8, Refusal> {
    let mut sum = first_sum(given)?;
    Ok(files::run_files(rt, &mut sum, files))
}

/// Runs the command `summary`.
fn run_summary<'a>(
    rt: &HostRuntime,
    given: &ArgMatches<'a>,
    files: &[&'a str],
) -> Result<u8, Refusal> {
    let mut summary = first_summary(given)?;
    Ok(files::run_files(rt, &mut summary, files))
}

/// Runs the command `merge`.
fn run_merge<'a>(
    rt: &HostRuntime,
    given: &ArgMatches<'a>,
    files: &[&'a str],
) -> Result<u8, Refusal> {
    let keys = first_merge(given)?;
    Ok(merge_session::run_merge(rt, &keys, files))
}

/// Runs the command `sort`.
fn run_sort<'a>(
    rt: &HostRuntime,
    given: &ArgMatches<'a>,
    files: &[&'a str],
) -> Result<u8, Refusal> {
    let mut keys = first_keys(given)?;
    Ok(sort_session::run_sort(rt, &mut keys, files))
}
