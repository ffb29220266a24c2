//! Numbers that are drawn from a seed, and the digest of results.

ghost use Rattle.std.specs.Prelude.{◌<◌};

use speedate::{Date, DateTime, Duration, ParseError, Time};

/// Numbers drawn from a seed, by the method SplitMix64.
#[derive(Clone, Copy)]
pub struct Draw {
    state: u64,
}

impl Draw {
    /// Begins with a seed.
    pub fn new(seed: u64) -> Self {
        Draw { state: seed }
    }

    /// The next number.
    #[inline(always)]
    pub fn number(&mut self) -> u64 {
        self.state = self.state.wrapping_add(0x9e37_79b9_7f4a_7c15);
        let mixed = (self.state ^ (self.state >> 30)).wrapping_mul(0xbf58_476d_1ce4_e5b9);
        let mixed = (mixed ^ (mixed >> 27)).wrapping_mul(0x94d0_49bb_1331_11eb);
        mixed ^ (mixed >> 31)
    }

    /// The next number below a limit.
    #[inline(always)]
    pub fn below(&mut self, limit: u32) -> u32
        requires { 0 < limit }
        ensures { result < limit }
    {
        (self.number() & 0xffff_ffff) as u32 % limit
    }
}

/// A place among 1,024 by the last ten bits of a number.
#[inline(always)]
pub fn place(bits: u64) -> usize
    ensures { result < 1024 }
{
    (bits & 0xffff_ffff) as usize % 1024
}

/// Whether something happens that does once in 64 times, by the last six bits of a number.
#[inline(always)]
pub fn is_rare(bits: u64) -> bool {
    bits & 63 == 0
}

/// A number for all results, each in its order.
#[derive(Clone, Copy)]
pub struct Digest {
    pub number: u64,
}

impl Digest {
    /// The digest of no results.
    pub fn new() -> Self {
        Digest { number: 0 }
    }

    /// Counts a number in.
    #[inline(always)]
    pub fn add(&mut self, number: u64) {
        self.number = (self.number.rotate_left(5) ^ number).wrapping_mul(0x517c_c1b7_2722_0a95);
    }

    /// Counts a number with a sign in.
    #[inline(always)]
    pub fn add_signed(&mut self, number: i64) {
        self.add(u64::from_le_bytes(number.to_le_bytes()));
    }

    /// Counts a text in: its bytes, eight at a time, and how many it has.
    #[inline(always)]
    pub fn add_text(&mut self, text: &[u8]) {
        let mut rest = text;
        for _ in 0..text.len() / 8 {
            if let Some((eight, others)) = rest.split_first_chunk::<8>() {
                self.add(u64::from_le_bytes(*eight));
                rest = others;
            }
        }
        for byte in rest {
            self.add(u64::from(*byte));
        }
        self.add(text.len() as u64);
    }

    /// Counts a date in.
    #[inline(always)]
    pub fn add_date(&mut self, date: &Date) {
        self.add(date_number(date));
    }

    /// Counts a time in.
    #[inline(always)]
    pub fn add_time(&mut self, time: &Time) {
        let clock = 65_536 * u64::from(time.hour)
            + 256 * u64::from(time.minute)
            + u64::from(time.second);
        self.add(1_048_576 * clock + u64::from(time.microsecond));
        self.add_signed(i64::from(time.tz_offset.unwrap_or(86_400)));
    }

    /// Counts a date-time in.
    #[inline(always)]
    pub fn add_date_time(&mut self, value: &DateTime) {
        self.add_date(&value.date);
        self.add_time(&value.time);
    }

    /// Counts a duration in.
    #[inline(always)]
    pub fn add_duration(&mut self, duration: &Duration) {
        self.add(2 * u64::from(duration.day) + u64::from(duration.positive));
        self.add(1_048_576 * u64::from(duration.second) + u64::from(duration.microsecond));
    }

    /// Counts an error in.
    #[inline(always)]
    pub fn add_fault(&mut self, fault: ParseError) {
        self.add(u64::from(fault.number()));
    }

    /// Counts a date-time or an error in.
    #[inline(always)]
    pub fn add_answer(&mut self, answer: &Result<DateTime, ParseError>) {
        match answer {
            Ok(value) => self.add_date_time(value),
            Err(fault) => self.add_fault(*fault),
        }
    }
}

/// The fields of a date as one number.
#[inline(always)]
fn date_number(date: &Date) -> u64 {
    65_536 * u64::from(date.year) + 256 * u64::from(date.month) + u64::from(date.day)
}
