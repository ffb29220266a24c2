//! Pieces that texts are put together from, and values.

use crate::draw::{Draw, place};
use speedate::{Date, DateTime, Duration, Time};

/// How many pieces of a kind there are.
pub const COUNT: usize = 1024;

/// How many bytes a text has room for.
pub const TEXT_MAX: usize = 65536;

/// A text that is put together.
#[derive(Drop)]
pub struct Text {
    bytes: [u8; TEXT_MAX],
    size: usize,
}

impl Text {
    /// An empty text.
    pub fn new() -> Self {
        Text {
            bytes: [0; TEXT_MAX],
            size: 0,
        }
    }

    /// Makes the text empty.
    pub fn clear(&mut self) {
        self.size = 0;
    }

    /// Whether there is room for so many bytes more.
    #[inline(always)]
    pub fn has_room(&self, count: usize) -> bool {
        self.size <= TEXT_MAX && count <= TEXT_MAX - self.size
    }

    /// Appends a piece, if there is room for it.
    #[inline(always)]
    pub fn push<const SIZE: usize>(&mut self, piece: &[u8; SIZE]) {
        if SIZE <= TEXT_MAX && self.size <= TEXT_MAX - SIZE {
            self.bytes[self.size..self.size + SIZE].copy_from_slice(piece);
            self.size += SIZE;
        }
    }

    /// Appends bytes, if there is room for them.
    #[inline(always)]
    pub fn push_bytes(&mut self, bytes: &[u8]) {
        if self.size <= TEXT_MAX && bytes.len() <= TEXT_MAX - self.size {
            let end = self.size + bytes.len();
            self.bytes[self.size..end].copy_from_slice(bytes);
            self.size = end;
        }
    }

    /// What has been put together.
    #[inline(always)]
    pub fn as_bytes(&self) -> &[u8] {
        &self.bytes[..self.size.min(TEXT_MAX)]
    }
}

/// Pieces of texts, and values, of each kind as many.
#[derive(Drop)]
pub struct Pieces {
    /// Dates of a hundred years.
    pub dates: [[u8; 10]; COUNT],
    /// Days one after another.
    pub days: [[u8; 10]; COUNT],
    /// Clocks of a day, the earliest first.
    pub clocks: [[u8; 8]; COUNT],
    /// Six digits.
    pub sixes: [[u8; 6]; COUNT],
    /// Three digits.
    pub threes: [[u8; 3]; COUNT],
    /// Offsets of whole quarters of an hour.
    pub offsets: [[u8; 6]; COUNT],
    /// Durations as they are printed, 12 bytes each: `PT07H30M15S\n`.
    pub lengths: [[u8; 12]; COUNT],
    /// Dates of a hundred years.
    pub date_values: [Date; COUNT],
    /// Times of day with offsets.
    pub time_values: [Time; COUNT],
}

impl Pieces {
    /// Draws all pieces.
    pub fn new(draw: &mut Draw) -> Self {
        let mut pieces = Pieces {
            dates: [*b"1970-01-01"; COUNT],
            days: [*b"1970-01-01"; COUNT],
            clocks: [*b"00:00:00"; COUNT],
            sixes: [*b"000000"; COUNT],
            threes: [*b"000"; COUNT],
            offsets: [*b"+00:00"; COUNT],
            lengths: [*b"PT07H30M15S\n"; COUNT],
            date_values: [FIRST_DATE; COUNT],
            time_values: [MIDNIGHT; COUNT],
        };
        for k in 0..COUNT {
            pieces.fill(k, draw);
        }
        pieces
    }

    /// Draws the pieces at a place.
    fn fill(&mut self, k: usize, draw: &mut Draw) {
        let at = place(k as u64);
        let date = drawn_date(draw);
        self.date_values[at] = date;
        self.dates[at] = date_piece(&date);
        self.days[at] = date_piece(&FIRST_DATE.checked_add_days(at as i32).unwrap_or(FIRST_DATE));
        let time = drawn_time(at, draw);
        self.time_values[at] = time;
        self.clocks[at] = clock_piece(&time);
        let [a, b, c] = [draw.below(100), draw.below(100), draw.below(100)];
        let ([a, d], [b, e], [c, f]) = (pair(a as u8), pair(b as u8), pair(c as u8));
        self.sixes[at] = [a, d, b, e, c, f];
        self.threes[at] = [d, e, f];
        let [h, i] = pair(draw.below(14) as u8);
        let [m, n] = pair(15 * draw.below(4) as u8);
        let sign = if draw.below(2) == 0 { b'+' } else { b'-' };
        self.offsets[at] = [sign, h, i, b':', m, n];
        let [h, i] = pair(draw.below(24) as u8);
        let [m, n] = pair(draw.below(60) as u8);
        let [s, t] = pair(draw.below(60) as u8);
        self.lengths[at] = [b'P', b'T', h, i, b'H', m, n, b'M', s, t, b'S', b'\n'];
    }

    /// A date-time by the last twenty bits of a number.
    #[inline(always)]
    pub fn date_time(&self, bits: u64) -> DateTime {
        DateTime {
            date: self.date_values[place(bits)],
            time: self.time_values[place(bits >> 10)],
        }
    }
}

/// The date where none is drawn.
const FIRST_DATE: Date = Date {
    year: 1970,
    month: 1,
    day: 1,
};

/// The time where none is drawn.
const MIDNIGHT: Time = Time {
    hour: 0,
    minute: 0,
    second: 0,
    microsecond: 0,
    tz_offset: Some(0),
};

/// A day of the years 1970 to 2069.
fn drawn_date(draw: &mut Draw) -> Date {
    let year = 1970 + draw.below(100);
    let month = 1 + draw.below(12);
    let day = 1 + draw.below(28);
    Date::new(year as u16, month as u8, day as u8).unwrap_or(FIRST_DATE)
}

/// A time of day with an offset, later for a later place.
fn drawn_time(at: usize, draw: &mut Draw) -> Time {
    let second = 84 * place(at as u64) as u32 + draw.below(84);
    let microsecond = draw.below(1_000_000);
    let offset = 900 * (draw.below(113) as i32 - 56);
    match Time::from_timestamp(second, microsecond) {
        Ok(time) => time.with_timezone_offset(Some(offset)).unwrap_or(MIDNIGHT),
        Err(_) => MIDNIGHT,
    }
}

/// A duration of at most ten years, by a number.
#[inline(always)]
pub fn duration(bits: u64) -> Duration {
    Duration {
        positive: bits & 7 != 0,
        day: ((bits >> 3) & 4095) as u32,
        second: ((bits >> 15) & 65535) as u32,
        microsecond: ((bits >> 31) & 524_287) as u32,
    }
}

/// The text of a date.
fn date_piece(date: &Date) -> [u8; 10] {
    let [a, b] = pair((date.year / 100 % 100) as u8);
    let [c, d] = pair((date.year % 100) as u8);
    let [m, n] = pair(date.month % 100);
    let [t, u] = pair(date.day % 100);
    [a, b, c, d, b'-', m, n, b'-', t, u]
}

/// The text of a clock.
fn clock_piece(time: &Time) -> [u8; 8] {
    let [h, i] = pair(time.hour % 100);
    let [m, n] = pair(time.minute % 100);
    let [s, t] = pair(time.second % 100);
    [h, i, b':', m, n, b':', s, t]
}

/// The two digits of a number.
fn pair(number: u8) -> [u8; 2] {
    [b'0' + number / 10 % 10, b'0' + number % 10]
}
