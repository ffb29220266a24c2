//! The order of values: each one, and the one before.

ghost use Rattle.std.specs.Prelude.{◌≡◌, ◌+◌, ◌++◌, ◌≤◌, if◌then◌else◌, length};
ghost use Rattle.arrayvec.specs.ArrayVec.{array_vec_len};
ghost use Rattle.speedate_commands.specs.Order.{apart_text, distance_text, gap_text};
ghost use Rattle.speedate_stream.specs.Watch.{one_more};
ghost use Rattle.speedate_commands.specs.Order.{is_before, is_late, late_text, latest_of, order_after};
ghost use Rattle.speedate_commands.specs.Order.{order_after_cut, value_after};

use crate::nanosecond::push_duration_between;
use speedate_scan::print::push_line_place;
use speedate_scan::reading::Found;
use speedate_scan::scan::{LineKind, Scan};
use speedate_stream::{PENDING_MAX, Pending, push_bytes};

/// How many bytes the report of a value by the one before takes at most.
pub const APART_MAX: usize = 8286;

/// A value, and where it stands.
#[derive(Clone, Copy)]
pub struct Latest<'a> {
    /// The value, in nanoseconds as `Found::instant` counts them.
    pub instant: i128,
    /// Its offset, in seconds, if it has one.
    pub offset: Option<i32>,
    /// The name of its file.
    pub name: &'a [u8],
    /// The number of its line.
    pub number: u64,
}

/// What is known of values in the order of their lines.
#[derive(Clone, Copy)]
pub struct Order<'a> {
    /// What is known of the lines so far.
    pub scan: Scan<'a>,
    /// The value before, if there is one.
    pub latest: Option<Latest<'a>>,
    /// How many values were earlier than the one before.
    pub late: u64,
}

impl<'a> Latest<'a> {
    /// The value of the line that is looked at, with where it stands.
    pub fn new(scan: &Scan<'a>, found: &Found) -> Self
        ensures latest { result ≡ latest_of scan.now found.now }
    {
        Latest {
            instant: found.instant,
            offset: found.offset,
            name: scan.name,
            number: scan.next_number(),
        }
    }
}

impl<'a> Order<'a> {
    /// Whether a value at this instant is earlier than the one before.
    fn is_before(&self, instant: i128) -> bool
        ensures before { result ≡ is_before instant self.now.latest }
    {
        match &self.latest {
            Some(latest) => instant < latest.instant,
            None => false,
        }
    }

    /// Whether a line has a value that is earlier than the one before.
    fn is_late(&self, line: &LineKind) -> bool
        ensures late { result ≡ is_late self.now line.now }
    {
        match line {
            LineKind::Value(found) => self.is_before(found.instant),
            _ => false,
        }
    }

    /// The value before the next line.
    fn value_after(&self, line: &LineKind) -> Option<Latest<'a>>
        ensures value { result ≡ value_after self.now line.now }
    {
        match line {
            LineKind::Value(found) => Some(Latest::new(&self.scan, found)),
            _ => self.latest,
        }
    }

    /// How many values were earlier than the one before, with one more if there is one.
    fn late_with(&self, is_late: bool) -> u64
        ensures late { result ≡ (if is_late then one_more self.now.late else self.now.late) }
    {
        if is_late {
            self.late.saturating_add(1)
        } else {
            self.late
        }
    }

    /// Compares the value of a line with the one before, and counts the line.
    pub fn pass(&mut self, line: LineKind)
        ensures passed { self.new ≡ order_after self.old line }
    {
        self.late = self.late_with(self.is_late(&line));
        self.latest = self.value_after(&line);
        self.scan.pass(line);
    }

    /// Compares this value of a line with the one before, and counts the line as what it is, although it is bad: the value
    /// settles which values fit, as a good one does.
    pub fn pass_cut(&mut self, line: LineKind, found: &Found)
        ensures passed { self.new ≡ order_after_cut self.old line found.now }
    {
        let value = Latest::new(&self.scan, found);
        let offsets = self.scan.offsets.settled(found);
        self.late = self.late_with(self.is_before(found.instant));
        self.latest = Some(value);
        self.scan.pass(line);
        self.scan.offsets = offsets;
    }

    /// The same for a line with this value, by what was found of it.
    #[inline(always)]
    pub fn pass_value(&mut self, value: &Latest<'a>, found: &Found)
        requires value { value.now ≡ latest_of self.old.scan found.now }
        ensures passed { self.new ≡ order_after self.old (LineKind.Value found.now) }
    {
        self.late = self.late_with(self.is_before(value.instant));
        self.latest = Some(*value);
        self.scan.pass_value(found);
    }
}

/// Appends where a value stands that is earlier than the one before, by how much, and where that stands:
/// `app.log:7: PT10S before app.log:6`, and a line feed.
pub fn push_late(
    name: &[u8],
    number: u64,
    instant: i128,
    latest: &Latest<'_>,
    pending: &mut Pending,
)
    requires room { array_vec_len pending.old + APART_MAX ≤ PENDING_MAX }
    ensures pushed { pending.new.items
        ≡ pending.old.items ++ late_text name.now number instant latest.now }
    ensures length { array_vec_len pending.new ≤ array_vec_len pending.old + APART_MAX }
{
    let instants = (instant, latest.instant);
    push_apart(name, number, instants, b" before ", latest, pending);
}

/// Appends where a value stands that comes after another, how long after it, and where that stands:
/// `app.log:7: PT1H after app.log:6`, and a line feed.
pub fn push_gap(name: &[u8], number: u64, instant: i128, latest: &Latest<'_>, pending: &mut Pending)
    requires room { array_vec_len pending.old + APART_MAX ≤ PENDING_MAX }
    ensures pushed { pending.new.items
        ≡ pending.old.items ++ gap_text name.now number instant latest.now }
    ensures length { array_vec_len pending.new ≤ array_vec_len pending.old + APART_MAX }
{
    let instants = (latest.instant, instant);
    push_apart(name, number, instants, b" after ", latest, pending);
}

/// Appends where a value stands, how far two instants are apart, the words after that, and where the other value
/// stands.
#[tactic(auto, unfolding(crate::specs::Order::apart_text), using(std::proofs::Common::append_assoc))]
fn push_apart(
    name: &[u8],
    number: u64,
    instants: (i128, i128),
    words: &[u8],
    latest: &Latest<'_>,
    pending: &mut Pending,
)
    requires room { array_vec_len pending.old + APART_MAX ≤ PENDING_MAX }
    requires short { length words.now ≤ 8 }
    ensures pushed { pending.new.items ≡ pending.old.items
        ++ apart_text name.now number (distance_text instants.0 instants.1 words.now) latest.now }
    ensures length { array_vec_len pending.new ≤ array_vec_len pending.old + APART_MAX }
{
    push_line_place(name, number, pending);
    push_distance(instants.0, instants.1, words, pending);
    push_line_place(latest.name, latest.number, pending);
    push_bytes(b"\n", pending);
}

/// Appends how far two instants are apart, and the words after that: `: PT10S before `.
#[tactic(auto, unfolding(crate::specs::Order::distance_text), using(std::proofs::Common::append_assoc))]
fn push_distance(first: i128, second: i128, words: &[u8], pending: &mut Pending)
    requires room { array_vec_len pending.old + 51 ≤ PENDING_MAX }
    requires short { length words.now ≤ 8 }
    ensures pushed { pending.new.items
        ≡ pending.old.items ++ distance_text first second words.now }
    ensures length { array_vec_len pending.new ≤ array_vec_len pending.old + 51 }
{
    push_bytes(b": ", pending);
    push_duration_between(first, second, pending);
    push_bytes(words, pending);
}
