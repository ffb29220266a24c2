//! Options that can have no effect.

ghost use Rattle.std.specs.Prelude.{◌≡◌};
ghost use Rattle.speedate_cli.specs.Idle.{about_dates, about_lines, about_offset, about_search};
ghost use Rattle.speedate_cli.specs.Idle.{are_local, are_open, ends_at_bad, idle};
ghost use Rattle.speedate_cli.specs.Idle.{is_offset_of_numbers};

use speedate_scan::scan::{BadLines, UndatedLines};

/// What a command does with the lines of its input.
#[derive(Clone, Copy, PartialEq, Eq)]
pub enum Kind {
    /// It prints them.
    Prints,
    /// It prints none, but what it says of their values.
    Reports,
    /// It prints what is bad about each value by itself and, if that is asked for, by the one before.
    Checks,
}

/// What the two bounds of a command are.
#[derive(Clone, Copy)]
pub enum BoundsKind {
    /// Both are open.
    Open,
    /// Each is open, a number, or a date-time with an offset.
    Fixed,
    /// At least one is a date, or a date-time without an offset.
    Local,
}

/// What a command line asks for that may make an option idle.
#[derive(Clone, Copy)]
pub struct Asked {
    /// What the command does with lines.
    pub kind: Kind,
    /// Whether the value is a field.
    pub has_field: bool,
    /// Whether `--order` or `--gap` is given.
    pub compares: bool,
    /// What the bounds are, if the command has bounds.
    pub bounds: Option<BoundsKind>,
    /// Whether each file is searched for its bounds.
    pub is_in_order: bool,
    /// Whether values are dates.
    pub is_date: bool,
    /// Whether values are Unix timestamps.
    pub is_timestamp: bool,
    /// Whether values have no digit past the microsecond: dates, and Unix timestamps in microseconds.
    pub is_whole: bool,
    /// Whether values are of RFC 3339 alone.
    pub is_strict: bool,
    /// Whether values that have no offset get one.
    pub has_offset: bool,
    /// Whether `--to` is given.
    pub has_target: bool,
    /// Whether `--to` asks for UTC.
    pub is_target_utc: bool,
    /// Whether `--fraction` is given.
    pub has_fraction: bool,
    /// Whether `--digits` is given.
    pub has_digits: bool,
    /// What `--undated` asks for, if it is given.
    pub undated: Option<UndatedLines>,
    /// What `--bad` asks for, if it is given.
    pub bad: Option<BadLines>,
}

/// An option that can have no effect.
#[derive(Clone, Copy)]
pub enum Idle {
    /// `--strict` for dates.
    StrictOfDates,
    /// `--fraction` for dates.
    FractionOfDates,
    /// `--offset` for dates.
    OffsetOfDates,
    /// `--to` for dates.
    TargetOfDates,
    /// `--to` for Unix timestamps, if it asks for UTC.
    TargetOfTimestamps,
    /// `--offset` for values that all have an offset.
    OffsetOfStrict,
    /// `--strict` for Unix timestamps.
    StrictOfTimestamps,
    /// `--offset` for Unix timestamps, where no bound may need one.
    OffsetOfTimestamps,
    /// `--offset` for values that are not compared.
    OffsetOfCheck,
    /// `--offset` between open bounds.
    OffsetOfOpen,
    /// `--digits` for values that have no digit past the microsecond.
    DigitsOfWhole,
    /// `--in-order` between open bounds.
    SearchOfOpen,
    /// `--in-order` where a bad value ends the run, so that no line is passed over.
    SearchOfStop,
    /// `--undated` where no line is printed.
    Undated,
    /// `--bad` where no line is printed.
    Bad,
}

/// Whether at least one bound is a date, or a date-time without an offset.
fn are_local(bounds: Option<BoundsKind>) -> bool
    ensures local { result ≡ are_local bounds }
{
    matches!(bounds, Some(BoundsKind::Local))
}

/// Whether both bounds are open.
fn are_open(bounds: Option<BoundsKind>) -> bool
    ensures open { result ≡ are_open bounds }
{
    matches!(bounds, Some(BoundsKind::Open))
}

/// Whether a bad value is to end the run.
fn ends_at_bad(bad: Option<BadLines>) -> bool
    ensures ends { result ≡ ends_at_bad bad }
{
    matches!(bad, Some(BadLines::Stop))
}

impl Asked {
    /// An option that can have no effect, if there is one.
    pub fn idle(&self) -> Option<Idle>
        ensures idle { result ≡ idle self.now }
    {
        if let Some(found) = self.about_dates() {
            return Some(found);
        }
        if let Some(found) = self.about_offset() {
            return Some(found);
        }
        if let Some(found) = self.about_search() {
            return Some(found);
        }
        self.about_lines()
    }

    /// An option about clocks and offsets, where values are dates.
    fn about_dates(&self) -> Option<Idle>
        ensures idle { result ≡ about_dates self.now }
    {
        if !self.is_date {
            None
        } else if self.is_strict {
            Some(Idle::StrictOfDates)
        } else if self.has_fraction {
            Some(Idle::FractionOfDates)
        } else if self.has_offset {
            Some(Idle::OffsetOfDates)
        } else if self.has_target {
            Some(Idle::TargetOfDates)
        } else {
            None
        }
    }

    /// Whether `--offset` is given, and no bound may need it.
    fn is_offset_of_numbers(&self) -> bool
        ensures idle { result ≡ is_offset_of_numbers self.now }
    {
        self.has_offset && self.is_timestamp && !are_local(self.bounds)
    }

    /// `--offset` where each value has an offset, no values are compared or all fit, and `--strict` and `--to utc` for
    /// Unix timestamps.
    fn about_offset(&self) -> Option<Idle>
        ensures idle { result ≡ about_offset self.now }
    {
        if self.is_strict && self.is_timestamp {
            Some(Idle::StrictOfTimestamps)
        } else if self.is_target_utc && self.is_timestamp {
            Some(Idle::TargetOfTimestamps)
        } else if self.has_offset && self.is_strict {
            Some(Idle::OffsetOfStrict)
        } else if self.is_offset_of_numbers() {
            Some(Idle::OffsetOfTimestamps)
        } else if self.has_offset && self.kind == Kind::Checks && !self.compares {
            Some(Idle::OffsetOfCheck)
        } else if self.has_offset && are_open(self.bounds) {
            Some(Idle::OffsetOfOpen)
        } else {
            None
        }
    }

    /// `--digits` for values without such digits, and `--in-order` where nothing is searched.
    fn about_search(&self) -> Option<Idle>
        ensures idle { result ≡ about_search self.now }
    {
        if self.has_digits && self.is_whole {
            Some(Idle::DigitsOfWhole)
        } else if self.is_in_order && are_open(self.bounds) {
            Some(Idle::SearchOfOpen)
        } else if self.is_in_order && ends_at_bad(self.bad) {
            Some(Idle::SearchOfStop)
        } else {
            None
        }
    }

    /// What is to be done with lines, where none is printed. A field without a value is bad unless
    /// `--undated` says otherwise.
    fn about_lines(&self) -> Option<Idle>
        ensures idle { result ≡ about_lines self.now }
    {
        if self.kind == Kind::Prints {
            return None;
        }
        match (self.undated, self.bad) {
            (Some(UndatedLines::Join | UndatedLines::Drop), _) if !self.has_field => {
                Some(Idle::Undated)
            }
            (_, Some(BadLines::Keep)) => Some(Idle::Bad),
            _ => None,
        }
    }
}

impl Idle {
    /// Why it is refused, for people.
    pub fn text(self) -> &'static str {
        match self {
            Idle::StrictOfDates => "--strict has no effect with --kind date",
            Idle::FractionOfDates => "--fraction has no effect with --kind date",
            Idle::OffsetOfDates => "--offset has no effect with --kind date",
            Idle::TargetOfDates => "--to has no effect with --kind date",
            Idle::TargetOfTimestamps =>
                "--to utc has no effect with --kind seconds, milliseconds or microseconds: each value is in UTC",
            Idle::OffsetOfStrict => "--offset has no effect with --strict: each value has one",
            Idle::StrictOfTimestamps =>
                "--strict has no effect with --kind seconds, milliseconds or microseconds",
            Idle::OffsetOfTimestamps =>
                "--offset has no effect with --kind seconds, milliseconds or microseconds: each value is in UTC",
            Idle::OffsetOfCheck => "--offset has no effect without --order or --gap",
            Idle::OffsetOfOpen => "--offset has no effect if both bounds are open",
            Idle::DigitsOfWhole =>
                "--digits has no effect with --kind date or microseconds, which have no such digits",
            Idle::SearchOfOpen => "--in-order has no effect if both bounds are open",
            Idle::SearchOfStop =>
                "--in-order has no effect with --bad stop: each file is read as a whole",
            Idle::Undated => "--undated can only be bad, since no line is printed",
            Idle::Bad => "--bad can only be stop, since no line is printed",
        }
    }
}
