//! The command line: its commands, and their options.

use clap::{Arg, ArgAction, Command};
use std::alloc::{AllocError, Global};

/// Whether a command prints lines of its input.
#[derive(Clone, Copy)]
enum Prints {
    /// It prints none.
    Nothing,
    /// It prints them, after the name of their file if that is asked for.
    Lines,
    /// It prints them, also after their number if that is asked for.
    NumberedLines,
}

/// A command that was made, unless memory ran out. It is passed on as it is: at each `?` the prover would see three copies
/// of its long type.
type Made<'a> = Result<Command<'a>, AllocError>;

/// What is given with an argument.
#[derive(Clone, Copy)]
enum Given {
    /// Nothing.
    Alone,
    /// A value of this name.
    Value(&'static str),
    /// A value of this name, which may begin with a hyphen.
    AnyValue(&'static str),
}

/// An argument: its name, what is given with it, and its help.
type Row = (&'static str, Given, &'static str);

/// What `between` has before what every command has.
const BETWEEN: [Row; 1] = [(
    "in-order",
    Given::Alone,
    "The values of each file never fall: search for FROM and TO",
)];

/// What `check` has before what every command has.
const CHECK: [Row; 3] = [
    (
        "order",
        Given::Alone,
        "Also report each value that is earlier than the one before",
    ),
    (
        "gap",
        Given::AnyValue("DURATION"),
        "Also report each value that comes more than this after the one before",
    ),
    (
        "digits",
        Given::Value("6"),
        "Also report values with digits past the microsecond",
    ),
];

/// What `convert` has before what every command has.
const CONVERT: [Row; 2] = [
    (
        "to",
        Given::AnyValue("WHAT"),
        "How a value is written: text, utc, or an offset +HH:MM [default: text]",
    ),
    (
        "fraction",
        Given::Value("N"),
        "Exactly 0, 3, 6 or 9 digits of a second, rounded down [default: as many as the value has]",
    ),
];

/// How the total of `sum` is written.
const TOTAL: [Row; 1] = [(
    "to",
    Given::Value("WHAT"),
    "How the total is written: text, or hours [default: text]",
)];

/// Where the value of a line begins.
const PLACE: [Row; 3] = [
    (
        "after",
        Given::AnyValue("TEXT"),
        "The value comes after the first TEXT of a line that a value follows",
    ),
    (
        "field",
        Given::Value("N"),
        "The value is all of field N, which may be quoted as in CSV",
    ),
    (
        "separator",
        Given::AnyValue("C"),
        "What separates fields; \\t is a tab [default: a comma]",
    ),
];

/// How date-times are read.
const VALUES: [Row; 3] = [
    (
        "kind",
        Given::Value("KIND"),
        "datetime, date, seconds, milliseconds or microseconds [default: datetime]",
    ),
    ("strict", Given::Alone, "Accept only RFC 3339"),
    (
        "offset",
        Given::AnyValue("OFFSET"),
        "The offset of what has none: utc, or +HH:MM",
    ),
];

/// What is done with lines that have no good value, if none is printed.
const REPORTED: [Row; 2] = [
    (
        "undated",
        Given::Value("WHAT"),
        "Only bad: lines without a value are bad; with --field also join or drop: they are not",
    ),
    (
        "bad",
        Given::Value("WHAT"),
        "Only stop: end at the first bad value",
    ),
];

/// What is done with lines that have no good value, if lines are printed.
const PRINTED: [Row; 2] = [
    (
        "undated",
        Given::Value("WHAT"),
        "Lines without a value: join, drop or bad [default: join, with --field bad]",
    ),
    (
        "bad",
        Given::Value("WHAT"),
        "Lines with a bad value: keep or stop [default: keep]",
    ),
];

/// Whether a file has a header.
const HEADER: [Row; 1] = [(
    "header",
    Given::Alone,
    "The first line of each file has no value",
)];

/// The commands.
#[derive(Clone, Copy)]
enum Name {
    /// `between`.
    Between,
    /// `check`.
    Check,
    /// `convert`.
    Convert,
    /// `merge`.
    Merge,
    /// `sort`.
    Sort,
    /// `sum`.
    Sum,
    /// `summary`.
    Summary,
}

/// Each command, as the help has them.
const NAMES: [Name; 7] = [
    Name::Between,
    Name::Check,
    Name::Convert,
    Name::Merge,
    Name::Sort,
    Name::Sum,
    Name::Summary,
];

/// The program's command line.
pub fn program<'a>(alloc: Global) -> Result<Command<'a>, AllocError> {
    let mut program = without_commands(alloc)?;
    for name in NAMES {
        program = with_command(alloc, program, name)?;
    }
    Ok(program)
}

/// The program's command line with one more of its commands.
fn with_command<'a>(
    alloc: Global,
    program: Command<'a>,
    name: Name,
) -> Result<Command<'a>, AllocError> {
    program.subcommand(command(alloc, name)?)
}

/// The program's command line without its commands.
fn without_commands<'a>(alloc: Global) -> Result<Command<'a>, AllocError> {
    Ok(with_required_command(named(alloc)?))
}

/// The command line of a program of this name.
fn named<'a>(alloc: Global) -> Result<Command<'a>, AllocError> {
    Command::new(alloc, "speedate")
        .version("1.0.0")
        .bin_name("speedate")
}

/// A command line that says what the program does, and that a command is required.
fn with_required_command(program: Command<'_>) -> Command<'_> {
    program
        .about(
            "Selects, sorts, merges, converts, checks and sums up lines by their date-times, and adds up durations",
        )
        .subcommand_required(true)
        .arg_required_else_help(true)
}

/// A command by its name.
fn command<'a>(alloc: Global, name: Name) -> Result<Command<'a>, AllocError> {
    match name {
        Name::Between => between(alloc),
        Name::Check => check(alloc),
        Name::Convert => convert(alloc),
        Name::Merge => merge(alloc),
        Name::Sort => sort(alloc),
        Name::Sum => sum(alloc),
        Name::Summary => summary(alloc),
    }
}

/// The command `between`.
fn between<'a>(alloc: Global) -> Result<Command<'a>, AllocError> {
    let command = Command::new(alloc, "between")
        .about("Print entries between two times")
        .after_help("Prints the entries with FROM <= instant < TO; a bound of .. is open");
    let command = with_bound(alloc, Ok(command), "FROM");
    let command = with_bound(alloc, command, "TO");
    with_common(alloc, command, &BETWEEN, Prints::NumberedLines)
}

/// The command `check`.
fn check<'a>(alloc: Global) -> Result<Command<'a>, AllocError> {
    let command = Command::new(alloc, "check")
        .about("Report bad values, and late ones and gaps")
        .after_help("Prints FILE:LINE:COLUMN: expected .. for each bad value");
    with_common(alloc, Ok(command), &CHECK, Prints::Nothing)
}

/// The command `convert`.
fn convert<'a>(alloc: Global) -> Result<Command<'a>, AllocError> {
    let command = Command::new(alloc, "convert")
        .about("Rewrite each value in one form")
        .after_help("Prints each line with its value written anew, the other bytes as they are");
    with_common(alloc, Ok(command), &CONVERT, Prints::NumberedLines)
}

/// The command `merge`.
fn merge<'a>(alloc: Global) -> Result<Command<'a>, AllocError> {
    let command = Command::new(alloc, "merge")
        .about("Merge files that are in order")
        .after_help(
            "Prints the entries of all files in the order of their values; each file is in order",
        );
    with_common(alloc, Ok(command), &[], Prints::Lines)
}

/// The command `sum`.
fn sum<'a>(alloc: Global) -> Result<Command<'a>, AllocError> {
    let command = Command::new(alloc, "sum")
        .about("Add up the durations of lines")
        .after_help(
            "Prints the exact total of durations, one in each line; years and months are bad",
        );
    let command = with_rows(alloc, Ok(command), &PLACE);
    let command = with_rows(alloc, command, &TOTAL);
    with_lines_and_files(alloc, command, Prints::Nothing)
}

/// The command `sort`.
fn sort<'a>(alloc: Global) -> Result<Command<'a>, AllocError> {
    let command = Command::new(alloc, "sort")
        .about("Sort entries by their values")
        .after_help(
            "Prints the entries of all files in the order of their values; reads them into memory",
        );
    with_common(alloc, Ok(command), &[], Prints::Lines)
}

/// The command `summary`.
fn summary<'a>(alloc: Global) -> Result<Command<'a>, AllocError> {
    let command = Command::new(alloc, "summary")
        .about("Count lines, show earliest and latest")
        .after_help(
            "Prints how many lines and values there are, the earliest, the latest and the longest gap",
        );
    with_common(alloc, Ok(command), &[], Prints::Nothing)
}

/// A command with these arguments, and with what every command about date-times has.
fn with_common<'a>(alloc: Global, command: Made<'a>, rows: &[Row], prints: Prints) -> Made<'a> {
    let command = with_rows(alloc, command, rows);
    let command = with_rows(alloc, command, &PLACE);
    let command = with_rows(alloc, command, &VALUES);
    with_lines_and_files(alloc, command, prints)
}

/// A command with what is done with lines, and its files.
fn with_lines_and_files<'a>(alloc: Global, command: Made<'a>, prints: Prints) -> Made<'a> {
    let command = with_lines(alloc, command, prints);
    let command = with_rows(alloc, command, &HEADER);
    with_files(alloc, with_prefix(alloc, command, prints))
}

/// A command with what is done with lines that have no good value.
fn with_lines<'a>(alloc: Global, command: Made<'a>, prints: Prints) -> Made<'a> {
    match prints {
        Prints::Nothing => with_rows(alloc, command, &REPORTED),
        Prints::Lines | Prints::NumberedLines => with_rows(alloc, command, &PRINTED),
    }
}

/// A command that prints the number and the name of a line before it, if that is asked for.
fn with_prefix<'a>(alloc: Global, command: Made<'a>, prints: Prints) -> Made<'a> {
    match prints {
        Prints::NumberedLines => with_name(alloc, with_number(alloc, command)),
        Prints::Lines => with_name(alloc, command),
        Prints::Nothing => command,
    }
}

/// A command with these arguments.
fn with_rows<'a>(alloc: Global, command: Made<'a>, rows: &[Row]) -> Made<'a> {
    let mut command = command?;
    for row in rows {
        command = command.arg(argument(alloc, *row))?;
    }
    Ok(command)
}

/// An argument by its row.
fn argument<'a>(alloc: Global, row: Row) -> Arg<'a> {
    let (name, given, help) = row;
    match given {
        Given::Alone => flag(alloc, name).help(help),
        Given::Value(value) => valued(alloc, name, value).help(help),
        Given::AnyValue(value) => any_valued(alloc, name, value).help(help),
    }
}

/// A command with its files.
fn with_files<'a>(alloc: Global, command: Made<'a>) -> Made<'a> {
    command?.arg(
        Arg::new(alloc, "FILE")
            .action(ArgAction::Append)
            .num_args(0..)
            .help("The files; none, or -, is standard input"),
    )
}

/// A command that prints the number of a line before it, if that is asked for.
fn with_number<'a>(alloc: Global, command: Made<'a>) -> Made<'a> {
    command?.arg(
        flag(alloc, "number")
            .short('n')
            .help("The line's number before each line"),
    )
}

/// A command that prints the name of a line's file before it, if that is asked for.
fn with_name<'a>(alloc: Global, command: Made<'a>) -> Made<'a> {
    command?.arg(
        flag(alloc, "name")
            .short('H')
            .help("The file's name before each line"),
    )
}

/// An option without a value.
fn flag<'a>(alloc: Global, name: &'a str) -> Arg<'a> {
    Arg::new(alloc, name).long(name).action(ArgAction::SetTrue)
}

/// An option with a value.
fn valued<'a>(alloc: Global, name: &'a str, value: &'a str) -> Arg<'a> {
    Arg::new(alloc, name)
        .long(name)
        .value_name(value)
        .action(ArgAction::Set)
}

/// An option with a value that may begin with a hyphen.
fn any_valued<'a>(alloc: Global, name: &'a str, value: &'a str) -> Arg<'a> {
    valued(alloc, name, value).allow_hyphen_values(true)
}

/// A command with a bound of this name.
fn with_bound<'a>(alloc: Global, command: Made<'a>, name: &'a str) -> Made<'a> {
    command?.arg(
        Arg::new(alloc, name)
            .required(true)
            .action(ArgAction::Set)
            .allow_negative_numbers(true)
            .help("A date-time, a date, which is its midnight, a number if values are, or .."),
    )
}
