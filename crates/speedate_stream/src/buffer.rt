//! The buffer of what is printed.

ghost use Rattle.std.specs.Prelude.{◌≡◌, ℕ, ◌+◌, ◌++◌, ◌<◌, ◌≤◌, ◌==◌, [], ◌∷◌, length, take};
ghost use Rattle.arrayvec.specs.ArrayVec.{ArrayVec, array_vec_len};
ghost use Rattle.speedate_stream.specs.declared.buffer.TheConstants.{PENDING_MAX};

use std::marker::Model;

/// How many bytes a machine may print for a line, besides the line itself.
pub const STEP_MAX: usize = 16_640;

/// How many bytes there is room for: 65,499 that are gathered before they are written, and what a
/// machine prints for one more line.
pub const PENDING_MAX: usize = 65_499 + STEP_MAX;

/// Bytes that wait to be written, at most [`PENDING_MAX`] of them. Contracts speak of them as of an
/// `ArrayVec`. Unlike one it does not blank the bytes that it drops.
#[derive(Drop)]
pub struct Pending {
    bytes: [u8; PENDING_MAX],
    len: usize,
}

impl Model for Pending {
    ghost Value = { ArrayVec ℕ };

    ghost view = { λ pending. record { items = take pending.len pending.bytes } };

    ghost invariant = { λ pending. pending.len ≤ PENDING_MAX };
}

impl Pending {
    /// A buffer in which nothing waits.
    pub fn new() -> Self
        ensures empty { result.items ≡ [] }
    {
        Pending {
            bytes: [0; PENDING_MAX],
            len: 0,
        }
    }

    /// Whether there is no room for a further byte.
    #[inline(always)]
    pub(crate) fn is_full(&self) -> bool
        ensures full { result ≡ (array_vec_len self.now == PENDING_MAX) }
        ensures most { array_vec_len self.now ≤ PENDING_MAX }
    {
        self.len == PENDING_MAX
    }

    /// For how many further bytes there is room.
    #[inline(always)]
    pub(crate) fn remaining_capacity(&self) -> usize
        ensures room { result + array_vec_len self.now ≡ PENDING_MAX }
    {
        PENDING_MAX - self.len
    }

    /// The bytes.
    #[inline(always)]
    pub fn as_slice(&self) -> &[u8]
        ensures bytes { result.now ≡ self.now.items }
    {
        &self.bytes[..self.len]
    }

    /// Drops all bytes.
    #[inline(always)]
    pub(crate) fn clear(&mut self)
        ensures empty { self.new.items ≡ [] }
    {
        self.len = 0;
    }

    /// Appends a byte. There must be room for it.
    #[inline(always)]
    pub fn push(&mut self, byte: u8)
        requires room { array_vec_len self.old < PENDING_MAX }
        ensures pushed { self.new.items ≡ self.old.items ++ byte ∷ [] }
        ensures length { array_vec_len self.new ≡ array_vec_len self.old + 1 }
    {
        self.bytes[self.len] = byte;
        self.len += 1;
    }
}

/// Appends bytes to those that wait: `ok ` and then a text, for an answer. There must be room.
#[inline(always)]
pub fn push_bytes(bytes: &[u8], pending: &mut Pending)
    requires room { array_vec_len pending.old + length bytes.now ≤ PENDING_MAX }
    ensures pushed { pending.new.items ≡ pending.old.items ++ bytes.now }
    ensures length { array_vec_len pending.new ≡ array_vec_len pending.old + length bytes.now }
{
    let end = pending.len + bytes.len();
    pending.bytes[pending.len..end].copy_from_slice(bytes);
    pending.len = end;
}
