//! The command `sort`: the entries of all files in the order of their values.

ghost use Rattle.std.specs.Prelude.{◌≡◌, ◌-◌, ◌++◌, ◌<◌, ◌≤◌, ℤ, All, Err, IfOk, List, OnOk, [], ◌∷◌, drop, false, length, map, slice_index, true};
ghost use Rattle.std.specs.Io.KnownBytes.{Appends, IsAtEnd};
ghost use Rattle.std.specs.List.Sorted.{IsPermutation};
ghost use Rattle.speedate.specs.Ascii.{line_feed};
ghost use Rattle.speedate.specs.Lines.{complete_lines, lines, unfinished_line};
ghost use Rattle.speedate_scan.specs.Entries.{Marked};
ghost use Rattle.speedate_scan.specs.Print.{shown_name, with_colon};
ghost use Rattle.speedate_sort.specs.Sort.{Adds, FailsBy, IsPlaced, Keyed, bare_lines, file_lines, in_order, prefixed};
ghost use Rattle.speedate_sort.specs.Sort.{instant_after, is_earlier, kept_instant, key_after};
ghost use Rattle.speedate_sort.specs.Sort.{key_of, keyed, keys_after, line_at, lines_at, part};
ghost use Rattle.speedate_sort.specs.Sort.{FailsRead, IsBegun, Reads, UnlessMemory};
ghost use Rattle.speedate_sort.specs.Sort.{sorted_entries, sorted_text, texts};
ghost use Rattle.speedate_scan.specs.Scan.{line_of, passed};
ghost use Rattle.speedate_stream.specs.Run.{AppendsBeginning, OnlyWrites, Writes};

use speedate::line_end;
use speedate_scan::glance::Glance;
use speedate_scan::reading::{Found, seen};
use speedate_scan::scan::{LineKind, Scan};
use speedate_stream::run::{head, pass, send};
use speedate_stream::{Failed, Pending, Watched};
use std::alloc::{AllocError, Global};
use std::io::{Read, Write};
use std::marker::Model;

/// What is known of the lines so far.
#[derive(Clone, Copy)]
pub struct Keys<'a> {
    /// What each line is to a command, and what is counted of the lines.
    pub scan: Scan<'a>,
    /// The value of the entry that has begun, in nanoseconds as `Found::instant` counts them; the least
    /// number before the first entry.
    pub instant: i128,
    /// Whether the name of its file is printed before each line.
    pub has_name: bool,
}

/// Where a line stands in a text.
#[derive(Clone, Copy, Debug)]
pub struct Place {
    /// The value of its entry.
    pub instant: i128,
    /// Where it begins.
    pub from: usize,
    /// Where the next one begins: the byte after its line feed.
    pub to: usize,
}

/// Why the lines of an input were not added.
#[derive(Clone, Copy, Debug, PartialEq, Eq)]
pub enum Unread {
    /// The input failed: the complete lines that were read are added.
    Read,
    /// Memory ran out.
    Memory,
}

/// Why lines were not printed.
#[derive(Clone, Copy, Debug, PartialEq, Eq)]
pub enum Unsorted {
    /// Memory ran out, and nothing was written.
    Memory,
    /// The output failed: what was written is a beginning of what is printed.
    Write,
}

/// Lines in memory, each with the value of its entry.
#[derive(Drop)]
pub struct KeyedLines {
    text: Vec<u8>,
    places: Vec<Place>,
    alloc: Global,
}

impl Model for KeyedLines {
    ghost Value = { List Keyed };

    ghost view = { λ lines. lines_at lines.text.items lines.places.items };

    ghost invariant = { λ lines. All (IsPlaced lines.text.items) lines.places.items };
}

impl Keys<'_> {
    /// The value of the entry of a line.
    fn instant_after(&self, line: &LineKind) -> i128
        ensures instant { result ≡ instant_after self.now.instant line.now }
    {
        match line {
            LineKind::Value(found) => found.instant,
            _ => self.instant,
        }
    }

    /// Counts a line, and returns the value of its entry, or `None` if the line is left out.
    fn pass(&mut self, line: &[u8]) -> Option<i128>
        ensures key { result ≡ key_of self.old line.now }
        ensures after { self.new ≡ key_after self.old line.now }
    {
        let head = head(line);
        match &self.scan.glance(head) {
            Glance::Value(value, from, to) => {
                let found = self.scan.reader.found(head, value, *from, *to);
                Some(self.pass_value(&found))
            }
            Glance::Undated(_) => self.pass_line(LineKind::Undated),
            Glance::Unknown => self.pass_any(head),
        }
    }

    /// Counts a line with this value, and returns the value.
    #[inline(always)]
    fn pass_value(&mut self, found: &Found) -> i128
        ensures instant { result ≡ found.now.instant }
        ensures after { self.new ≡ record self.old {
          scan = passed self.old.scan (LineKind.Value found.now);
          instant = found.now.instant;
        } }
    {
        self.scan.pass_value(found);
        self.instant = found.instant;
        found.instant
    }

    /// Counts a line by its head, and returns the value of its entry, or `None` if the line is left out.
    #[inline(never)]
    fn pass_any(&mut self, head: &[u8]) -> Option<i128>
        ensures key { result ≡ kept_instant self.old (line_of self.old.scan head.now) }
        ensures after { self.new ≡ record self.old {
          scan = passed self.old.scan (line_of self.old.scan head.now);
          instant = instant_after self.old.instant (line_of self.old.scan head.now);
        } }
    {
        let (line, _) = self.scan.any_line(head);
        self.pass_line(line)
    }

    /// Counts a line by what it is, and returns the value of its entry, or `None` if the line is left
    /// out.
    pub fn pass_line(&mut self, line: LineKind) -> Option<i128>
        ensures key { result ≡ kept_instant self.old line }
        ensures after { self.new ≡ record self.old {
          scan = passed self.old.scan line;
          instant = instant_after self.old.instant line;
        } }
    {
        let instant = self.instant_after(&line);
        let is_kept = self.scan.keeps(&line);
        self.scan.pass(line);
        self.instant = instant;
        if is_kept { Some(instant) } else { None }
    }
}

/// The name of a file and a colon.
fn name_prefix(name: &[u8], alloc: Global) -> Result<Vec<u8>, AllocError>
    ensures prefix { IfOk result (λ prefix. prefix.items ≡ with_colon true (shown_name name.now)) }
{
    let mut prefix = Vec::new(alloc);
    prefix.extend_from_slice(seen(name))?;
    prefix.push(b':')?;
    Ok(prefix)
}

/// Adds a line of a text, which is ended by the line feed at `end`, unless it is left out.
fn place_line(
    keys: &mut Keys<'_>,
    text: &[u8],
    from: usize,
    end: usize,
    places: &mut Vec<Place>,
) -> Result<(), AllocError>
    requires ordered { from ≤ end }
    requires inside { end < length text.now }
    requires ends { slice_index text.now end ≡ line_feed }
    requires within { All (IsPlaced text.now) places.old.items }
    ensures within { All (IsPlaced text.now) places.new.items }
    ensures keys { keys.new ≡ key_after keys.old (part text.now from end) }
    ensures placed { OnOk result (lines_at text.now places.new.items
        ≡ lines_at text.now places.old.items
        ++ bare_lines keys.old (part text.now from end ∷ [])) }
{
    if let Some(instant) = keys.pass(&text[from..end]) {
        places.push(Place {
            instant,
            from,
            to: end + 1,
        })?;
    }
    Ok(())
}

/// Adds the complete lines of a text from a byte on, and returns where the unfinished line begins.
fn place_complete(
    keys: &mut Keys<'_>,
    text: &[u8],
    from: usize,
    places: &mut Vec<Place>,
) -> Result<usize, AllocError>
    requires inside { from ≤ length text.now }
    requires within { All (IsPlaced text.now) places.old.items }
    ensures within { All (IsPlaced text.now) places.new.items }
    ensures keys { OnOk result (keys.new ≡ keys_after keys.old (complete_lines (drop from text.now))) }
    ensures placed { OnOk result (lines_at text.now places.new.items
        ≡ lines_at text.now places.old.items
        ++ bare_lines keys.old (complete_lines (drop from text.now))) }
    ensures start { IfOk result (λ start. start ≤ length text.now) }
    ensures rest { IfOk result (λ start. drop start text.now ≡ unfinished_line (drop from text.now)) }
{
    let mut start = from;
    while let Some(end) = line_end(text, start) {
        place_line(keys, text, start, end, places)?;
        start = end + 1;
    }
    Ok(start)
}

/// Adds the lines of a text from a byte on. A last line without line feed gets one.
fn place_all(
    keys: &mut Keys<'_>,
    text: &mut Vec<u8>,
    from: usize,
    places: &mut Vec<Place>,
) -> Result<(), AllocError>
    requires inside { from ≤ length text.old.items }
    requires within { All (IsPlaced text.old.items) places.old.items }
    ensures within { All (IsPlaced text.new.items) places.new.items }
    ensures keys { OnOk result (keys.new ≡ keys_after keys.old (lines (drop from text.old.items))) }
    ensures placed { OnOk result (lines_at text.new.items places.new.items
        ≡ lines_at text.old.items places.old.items
        ++ bare_lines keys.old (lines (drop from text.old.items))) }
{
    let start = place_complete(keys, text, from, places)?;
    let end = text.len();
    if start < end {
        text.push(b'\n')?;
        place_line(keys, text, start, end, places)?;
    }
    Ok(())
}

/// Brings places into the order of the values of their lines. Those of one value stay as they are.
fn sort_places(places: &mut Vec<Place>) -> Result<(), AllocError>
    ensures permutation { IsPermutation places.old.items places.new.items }
    ensures sorted { OnOk result (places.new.items ≡ in_order is_earlier places.old.items) }
{
    places.sort_by_key(|place| place.instant)
}

/// Adds the line at a place of another text, after a prefix.
fn append_line(
    text: &mut Vec<u8>,
    places: &mut Vec<Place>,
    prefix: &[u8],
    other: &[u8],
    place: &Place,
) -> Result<(), AllocError>
    requires within { All (IsPlaced text.old.items) places.old.items }
    requires other { IsPlaced other.now place.now }
    ensures within { All (IsPlaced text.new.items) places.new.items }
    ensures appended { OnOk result (lines_at text.new.items places.new.items
        ≡ lines_at text.old.items places.old.items
        ++ prefixed prefix.now (line_at other.now place.now) ∷ []) }
{
    let from = text.len();
    text.extend_from_slice(prefix)?;
    text.extend_from_slice(&other[place.from..place.to])?;
    let to = text.len();
    let instant = place.instant;
    places.push(Place { instant, from, to })?;
    Ok(())
}

/// Adds the lines at places of another text, each after a prefix.
fn append_places(
    text: &mut Vec<u8>,
    places: &mut Vec<Place>,
    prefix: &[u8],
    other: &[u8],
    others: &[Place],
) -> Result<(), AllocError>
    requires within { All (IsPlaced text.old.items) places.old.items }
    requires others { All (IsPlaced other.now) others.now }
    ensures within { All (IsPlaced text.new.items) places.new.items }
    ensures appended { OnOk result (lines_at text.new.items places.new.items
        ≡ lines_at text.old.items places.old.items
        ++ map (prefixed prefix.now) (lines_at other.now others.now)) }
{
    for place in others {
        append_line(text, places, prefix, other, place)?;
    }
    Ok(())
}

/// Writes the lines at places of a text, one after the other.
fn write_places<W: Write>(
    text: &[u8],
    places: &[Place],
    output: &mut Watched<W>,
) -> Result<(), Failed>
    requires within { All (IsPlaced text.now) places.now }
    ensures sent { OnlyWrites W.contents output.old output.new result []
        (texts (lines_at text.now places.now)) }
{
    let mut pending = Pending::new();
    for place in places {
        pass(&text[place.from..place.to], &mut pending, output)?;
    }
    send(&mut pending, output)
}

/// Writes the lines at places of a text, one after the other, and flushes.
fn print_places<W: Write>(
    text: &[u8],
    places: &[Place],
    output: &mut Watched<W>,
) -> Result<(), Failed>
    requires within { All (IsPlaced text.now) places.now }
    ensures printed { Writes W.contents output.old output.new result []
        (texts (lines_at text.now places.now)) }
    ensures flushed { OnOk result (output.new.flushed ≡ true) }
{
    write_places(text, places, output)?;
    output.flush()
}

/// How many bytes are read together.
const BLOCK: usize = 65_536;

/// Appends to a text what an input gives up to its end.
fn read_all<R: Read>(input: &mut Watched<R>, text: &mut Vec<u8>) -> Result<(), Unread>
    // Unless memory runs out, what was read was appended.
    ensures read { UnlessMemory result (Reads (R.remaining input.old.inner)
        (R.remaining input.new.inner) text.old.items text.new.items) }
    ensures kept { IsBegun text.old.items text.new.items }
    ensures ended { OnOk result (IsAtEnd (R.remaining input.new.inner)) }
    ensures failed { FailsRead result input.old.failed input.new.failed }
    ensures memory { result ≡ Err Unread.Memory → input.new.failed ≡ input.old.failed }
{
    let mut block = [0; BLOCK];
    loop {
        let Ok(count) = input.read(&mut block) else {
            return Err(Unread::Read);
        };
        if count == 0 {
            return Ok(());
        }
        if text.extend_from_slice(&block[..count]).is_err() {
            return Err(Unread::Memory);
        }
    }
}

impl KeyedLines {
    /// No lines.
    pub fn new(alloc: Global) -> Self
        ensures empty { result ≡ [] }
    {
        KeyedLines {
            text: Vec::new(alloc),
            places: Vec::new(alloc),
            alloc,
        }
    }

    /// Adds the lines of an input, which is read to its end, each after the name of its file if `keys` asks for that.
    ///
    /// Fails with `Unread::Read` if a read fails: the complete lines that were read are added. Fails
    /// with `Unread::Memory` if memory runs out.
    pub fn add<R: Read>(
        &mut self,
        keys: &mut Keys<'_>,
        input: &mut Watched<R>,
    ) -> Result<(), Unread>
        ensures added { OnOk result (Adds file_lines lines self.old self.new keys.old keys.new
            (R.remaining input.old.inner) (R.remaining input.new.inner)) }
        ensures ended { OnOk result (IsAtEnd (R.remaining input.new.inner)) }
        ensures failed { FailsRead result input.old.failed input.new.failed }
        ensures read_failed { result ≡ Err Unread.Read → Adds file_lines complete_lines self.old
            self.new keys.old keys.new (R.remaining input.old.inner) (R.remaining input.new.inner) }
    {
        if keys.has_name {
            return self.add_named(keys, input);
        }
        self.add_bare(keys, input)
    }

    /// Adds the lines of an input, each after the name of its file.
    #[tactic(auto, unfolding(crate::specs::Sort::file_lines))]
    fn add_named<R: Read>(
        &mut self,
        keys: &mut Keys<'_>,
        input: &mut Watched<R>,
    ) -> Result<(), Unread>
        requires named { keys.old.has_name ≡ true }
        ensures added { OnOk result (Adds file_lines lines self.old self.new keys.old keys.new
            (R.remaining input.old.inner) (R.remaining input.new.inner)) }
        ensures ended { OnOk result (IsAtEnd (R.remaining input.new.inner)) }
        ensures failed { FailsRead result input.old.failed input.new.failed }
        ensures read_failed { result ≡ Err Unread.Read → Adds file_lines complete_lines self.old
            self.new keys.old keys.new (R.remaining input.old.inner) (R.remaining input.new.inner) }
    {
        let Ok(prefix) = name_prefix(keys.scan.name, self.alloc) else {
            return Err(Unread::Memory);
        };
        let mut bare = KeyedLines::new(self.alloc);
        let added = bare.add_bare(keys, input);
        if self.append(&bare, &prefix).is_err() {
            return Err(Unread::Memory);
        }
        added
    }

    /// Adds other lines, each after a prefix.
    fn append(&mut self, others: &KeyedLines, prefix: &[u8]) -> Result<(), AllocError>
        ensures appended { OnOk result (self.new
            ≡ self.old ++ map (prefixed prefix.now) others.now) }
    {
        append_places(
            &mut self.text,
            &mut self.places,
            prefix,
            &others.text,
            &others.places,
        )
    }

    /// Adds the lines of an input as they are.
    fn add_bare<R: Read>(
        &mut self,
        keys: &mut Keys<'_>,
        input: &mut Watched<R>,
    ) -> Result<(), Unread>
        ensures added { OnOk result (Adds bare_lines lines self.old self.new keys.old keys.new
            (R.remaining input.old.inner) (R.remaining input.new.inner)) }
        ensures ended { OnOk result (IsAtEnd (R.remaining input.new.inner)) }
        ensures failed { FailsRead result input.old.failed input.new.failed }
        ensures read_failed { result ≡ Err Unread.Read → Adds bare_lines complete_lines self.old
            self.new keys.old keys.new (R.remaining input.old.inner) (R.remaining input.new.inner) }
    {
        let from = self.text.len();
        match read_all(input, &mut self.text) {
            Ok(()) => {
                if place_all(keys, &mut self.text, from, &mut self.places).is_err() {
                    return Err(Unread::Memory);
                }
                Ok(())
            }
            Err(Unread::Memory) => Err(Unread::Memory),
            Err(Unread::Read) => {
                if place_complete(keys, &self.text, from, &mut self.places).is_err() {
                    return Err(Unread::Memory);
                }
                Err(Unread::Read)
            }
        }
    }

    /// Writes the lines in the order of the values of their entries, and flushes. Lines of entries of one
    /// value stay in the order in which they were added.
    ///
    /// Fails with `Unsorted::Memory` if memory runs out, and then nothing is written, and with
    /// `Unsorted::Write` if a write or the flush fails.
    pub fn print<W: Write>(&mut self, output: &mut Watched<W>) -> Result<(), Unsorted>
        ensures sorted { OnOk result (Appends (W.contents output.old.inner)
            (W.contents output.new.inner) (sorted_text self.old)) }
        // The lines of files are then entries in the order of their values, each whole.
        ensures entries { OnOk result ((instant : ℤ) (lines : List Marked)
            → self.old ≡ keyed instant lines
            → Appends (W.contents output.old.inner) (W.contents output.new.inner)
            (sorted_entries instant lines)) }
        ensures flushed { OnOk result (output.new.flushed ≡ true) }
        ensures memory { result ≡ Err Unsorted.Memory → output.new ≡ output.old }
        // If the output had not failed before, it has failed if and only if the answer says so.
        ensures failed { output.old.failed ≡ false → FailsBy result output.new.failed }
        ensures write_failed { result ≡ Err Unsorted.Write → AppendsBeginning
            (W.contents output.old.inner) (W.contents output.new.inner) (sorted_text self.old) }
    {
        if sort_places(&mut self.places).is_err() {
            return Err(Unsorted::Memory);
        }
        if print_places(&self.text, &self.places, output).is_err() {
            return Err(Unsorted::Write);
        }
        Ok(())
    }
}
