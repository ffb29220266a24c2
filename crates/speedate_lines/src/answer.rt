//! The answer to a line.

ghost use Rattle.std.specs.Option.{option_map};
ghost use Rattle.std.specs.Prelude.{◌≡◌, ◌+◌, ◌≤◌, true, false, length, take, drop, bytes_eq, MatchOption, [], ◌∷◌, ◌++◌};
ghost use Rattle.arrayvec.specs.ArrayVec.{array_vec_len};
ghost use Rattle.speedate.specs.Ascii.{line_feed};
ghost use Rattle.speedate_lines.specs.Answer.{err_answer, kind_and_text, kinds, line_answer};
ghost use Rattle.speedate_lines.specs.Answer.{ok_answer, reply_to};

use speedate::{Date, DateTime, Duration, IsoOrder, Time, TimeConfig};
use speedate_stream::{LineMachine, PENDING_MAX, Pending, SEEN_MAX, push_bytes};

/// No printed value or name of an error has more bytes.
const TEXT_MAX: usize = 32;

/// No answer has more bytes: `ok ` or `err `, a text, and a line feed.
pub const ANSWER_MAX: usize = 4 + TEXT_MAX + 1;

/// The kinds of lines.
#[derive(Clone, Copy)]
enum Kind {
    Date,
    Time,
    DateTime,
    Duration,
    StrictDuration,
}

/// The machine of the program: it answers each line, and keeps nothing.
#[derive(Clone, Copy)]
pub struct Answering;

impl LineMachine for Answering {
    ghost use Rattle.std.specs.Prelude.{◌≡◌, ◌+◌, ◌++◌, ◌≤◌, IfSome, length, is_some};
    ghost use Rattle.arrayvec.specs.ArrayVec.{array_vec_len};
    ghost use Rattle.speedate_lines.specs.Answer.{answering};

    ghost machine = { answering };

    fn is_done(&self) -> bool {
        false
    }

    fn passes(&self, _head: &[u8]) -> bool {
        false
    }

    #[inline(always)]
    fn step(&mut self, head: &[u8], pending: &mut Pending) -> Option<usize> {
        answer_line(head, pending);
        None
    }
}

/// Appends the answer to a line, which is given without its line feed, and a line feed: for
/// `date 2020-02-29`, `ok 2020-02-29`.
#[inline(always)]
pub fn answer_line(line: &[u8], pending: &mut Pending)
    requires { array_vec_len pending.old + ANSWER_MAX ≤ PENDING_MAX }
    ensures answered { pending.new.items
        ≡ pending.old.items ++ (line_answer line.now ++ line_feed ∷ []) }
{
    if line.len() > SEEN_MAX {
        return refuse("line_too_long", pending);
    }
    match kind_of(line) {
        Some((kind, text)) => answer_text(kind, text, pending),
        None => refuse("unknown_kind", pending),
    }
}

/// The kind whose word and a space begin a line, and the text after those.
#[inline(always)]
#[tactic(auto, unfolding(crate::specs::Answer::kind_and_text))]
fn kind_of(line: &[u8]) -> Option<(Kind, &[u8])>
    ensures kind { option_map (λ found. (found.0, found.1.now)) result
        ≡ kind_and_text kinds line.now }
{
    if let Some(text) = text_after(line, b"date ") {
        Some((Kind::Date, text))
    } else if let Some(text) = text_after(line, b"time ") {
        Some((Kind::Time, text))
    } else if let Some(text) = text_after(line, b"datetime ") {
        Some((Kind::DateTime, text))
    } else if let Some(text) = text_after(line, b"duration ") {
        Some((Kind::Duration, text))
    } else if let Some(text) = text_after(line, b"duration-strict ") {
        Some((Kind::StrictDuration, text))
    } else {
        None
    }
}

/// The text after `front`, if the line begins with it. The length is known, so that the test is one
/// comparison or two.
#[inline(always)]
fn text_after<'a, const LENGTH: usize>(line: &'a [u8], front: &[u8; LENGTH]) -> Option<&'a [u8]>
    ensures cases { MatchOption result (bytes_eq (take LENGTH line.now) front.now ≡ false)
        (λ text. (bytes_eq (take LENGTH line.now) front.now ≡ true)
        × (text.now ≡ drop LENGTH line.now)) }
{
    match line.split_first_chunk::<LENGTH>() {
        Some((first, text)) if first == front => Some(text),
        _ => None,
    }
}

/// Appends the answer to a text, from the result of its parser.
macro_rules! answer {
    ($read:expr, $pending:ident) => {
        match $read {
            Ok(value) => accept(value.to_text().as_str(), $pending),
            Err(fault) => refuse(fault.name(), $pending),
        }
    };
}

/// Appends the answer to a text of a kind.
#[inline(always)]
fn answer_text(kind: Kind, text: &[u8], pending: &mut Pending)
    requires { array_vec_len pending.old + ANSWER_MAX ≤ PENDING_MAX }
    ensures answered { pending.new.items
        ≡ pending.old.items ++ (reply_to kind text.now ++ line_feed ∷ []) }
{
    match kind {
        Kind::Date => answer!(Date::parse_bytes(text), pending),
        Kind::Time => answer!(Time::parse_bytes(text), pending),
        Kind::DateTime => answer!(DateTime::parse_bytes(text), pending),
        Kind::Duration => answer!(Duration::parse_bytes(text), pending),
        Kind::StrictDuration => {
            let config = TimeConfig::builder().iso_order(IsoOrder::Strict).build();
            answer!(Duration::parse_bytes_with_config(text, &config), pending)
        }
    }
}

/// Appends the answer to an accepted text: its printed value.
fn accept(text: &str, pending: &mut Pending)
    requires short { length text.now ≤ TEXT_MAX }
    requires room { array_vec_len pending.old + ANSWER_MAX ≤ PENDING_MAX }
    ensures answered { pending.new.items
        ≡ pending.old.items ++ (ok_answer text.now ++ line_feed ∷ []) }
{
    push_bytes(b"ok ", pending);
    push_bytes(text.as_bytes(), pending);
    pending.push(b'\n');
}

/// Appends the answer to a refused line: the name of the error.
fn refuse(name: &str, pending: &mut Pending)
    requires short { length name.now ≤ TEXT_MAX }
    requires room { array_vec_len pending.old + ANSWER_MAX ≤ PENDING_MAX }
    ensures answered { pending.new.items
        ≡ pending.old.items ++ (err_answer name.now ++ line_feed ∷ []) }
{
    push_bytes(b"err ", pending);
    push_bytes(name.as_bytes(), pending);
    pending.push(b'\n');
}
