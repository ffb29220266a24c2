//! Each command before its first line, by what was given.

ghost use Rattle.std.specs.Prelude.{◌≡◌, ◌||◌, IfOk, if◌then◌else◌, is_some};
ghost use Rattle.speedate_commands.specs.Base.{Offsets};

use crate::idle::Kind;
use crate::options::Refusal::Usage;
use crate::options::{self, Options, Refusal};
use clap::ArgMatches;
use speedate::MicrosecondsPrecisionOverflowBehavior::{Error, Truncate};
use speedate_commands::between::Between;
use speedate_commands::check::Check;
use speedate_commands::convert::Convert;
use speedate_commands::order::Order;
use speedate_commands::sum::Sum;
use speedate_commands::summary::Summary;
use speedate_scan::reading::{Bad, Why};
use speedate_scan::scan::{First, Offsets, REPORTS_MAX, Report, Scan, Stop};
use speedate_sort::sort::Keys;

/// The command `between` before the first line.
pub fn first_between<'a>(given: &ArgMatches<'a>) -> Result<Between<'a>, Refusal> {
    let options = options::common(given, Kind::Prints, Truncate)?;
    let (bounds, offsets) = options::bounds(given, &options.reader)?;
    Ok(Between {
        scan: first_scan(&options, offsets),
        bounds,
        prefix: options.prefix,
        is_kept: false,
        is_in_order: given.get_flag("in-order"),
    })
}

/// The command `check` before the first line.
pub fn first_check<'a>(given: &ArgMatches<'a>) -> Result<Check<'a>, Refusal>
    // Only if values are compared all have an offset, or none has one.
    ensures offsets { IfOk result (λ check. check.order.scan.offsets
        ≡ (if check.reports_late || is_some check.gap then Offsets.AsFirst else Offsets.Any)) }
{
    let options = options::common(given, Kind::Checks, options::behavior(given)?)?;
    let reports_late = given.get_flag("order");
    let gap = options::gap(given)?;
    let offsets = if reports_late || gap.is_some() {
        Offsets::AsFirst
    } else {
        Offsets::Any
    };
    Ok(Check {
        order: first_order(first_scan(&options, offsets)),
        reports_late,
        gap,
        gaps: 0,
    })
}

/// The command `convert` before the first line.
pub fn first_convert<'a>(given: &ArgMatches<'a>) -> Result<Convert<'a>, Refusal>
    ensures offsets { IfOk result (λ convert. convert.scan.offsets ≡ Offsets.Any) }
{
    let options = options::common(given, Kind::Prints, Truncate)?;
    Ok(Convert {
        scan: first_scan(&options, Offsets::Any),
        prefix: options.prefix,
        target: options::target(given)?,
        digits: options::fraction_digits(given)?,
    })
}

/// What the command `merge` knows before the first line of each file.
pub fn first_merge<'a>(given: &ArgMatches<'a>) -> Result<Keys<'a>, Refusal>
    ensures offsets { IfOk result (λ keys. keys.scan.offsets ≡ Offsets.AsFirst) }
{
    let keys = first_keys(given)?;
    if has_input_twice(given.get_strs("FILE").unwrap_or(&[])) {
        return Err(Usage("standard input can be merged once"));
    }
    Ok(keys)
}

/// Whether standard input is among these files more than once.
fn has_input_twice(names: &[&str]) -> bool {
    let mut is_given = false;
    for &name in names {
        let is_input = name == "-";
        if is_input && is_given {
            return true;
        }
        is_given = is_given || is_input;
    }
    false
}

/// What is known of the order of values before the first line.
fn first_order(scan: Scan<'_>) -> Order<'_>
    ensures scan { result.scan ≡ scan.entry }
{
    Order {
        scan,
        latest: None,
        late: 0,
    }
}

/// The command `sum` before the first line.
pub fn first_sum<'a>(given: &ArgMatches<'a>) -> Result<Sum<'a>, Refusal> {
    let options = options::common(given, Kind::Reports, Error)?;
    Ok(Sum {
        scan: first_scan(&options, Offsets::Any),
        total: Some(0),
        has_hours: options::has_hours(given)?,
    })
}

/// What the command `sort` knows before the first line.
pub fn first_keys<'a>(given: &ArgMatches<'a>) -> Result<Keys<'a>, Refusal>
    ensures offsets { IfOk result (λ keys. keys.scan.offsets ≡ Offsets.AsFirst) }
{
    let options = options::common(given, Kind::Prints, Truncate)?;
    if options.has_header && given.get_strs("FILE").unwrap_or(&[]).len() > 1 {
        return Err(Usage("--header goes with one FILE"));
    }
    Ok(Keys {
        scan: first_scan(&options, Offsets::AsFirst),
        instant: i128::MIN,
        has_name: options.prefix.has_name,
    })
}

/// The command `summary` before the first line.
pub fn first_summary<'a>(given: &ArgMatches<'a>) -> Result<Summary<'a>, Refusal>
    ensures offsets { IfOk result (λ summary. summary.order.scan.offsets ≡ Offsets.AsFirst) }
{
    let options = options::common(given, Kind::Reports, Truncate)?;
    Ok(Summary {
        order: first_order(first_scan(&options, Offsets::AsFirst)),
        lines: 0,
        values: 0,
        undated: 0,
        earliest: None,
        latest: None,
        longest: None,
    })
}

/// What is known before the first line.
fn first_scan<'a>(options: &Options<'a>, offsets: Offsets) -> Scan<'a>
    ensures offsets { result.offsets ≡ offsets }
{
    let nothing = Report {
        number: 0,
        bad: Bad {
            place: 0,
            why: Why::Within,
        },
    };
    Scan {
        reader: options.reader,
        undated_lines: options.undated_lines,
        bad_lines: options.bad_lines,
        has_header: options.has_header,
        name: b"-",
        number: 0,
        offsets,
        stop: Stop::No,
        first: First::NOTHING,
        bad: 0,
        reports: [nothing; REPORTS_MAX],
    }
}
