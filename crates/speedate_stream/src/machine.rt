//! What a program prints for each line.

use crate::buffer::{PENDING_MAX, Pending, STEP_MAX};

/// How many bytes a line may have of which a machine sees all.
pub const SEEN_MAX: usize = 4096;

/// How many bytes a machine sees of a line: of a longer one enough to show that it is longer.
pub const HEAD_MAX: usize = SEEN_MAX + 1;

/// What a program prints for each line, one after the other.
pub trait LineMachine {
    ghost use Rattle.std.specs.Prelude.{◌≡◌, ◌+◌, ◌++◌, ◌≤◌, ℕ, IfSome, length, is_some};
    ghost use Rattle.arrayvec.specs.ArrayVec.{array_vec_len};
    ghost use Rattle.speedate_stream.specs.Machine.{Machine};

    // What the machine does with a line, by its state and the head of the line.
    ghost machine: { Machine Self };

    /// Whether the machine wants no further line.
    fn is_done(&self) -> bool
        ensures done { result ≡ machine.done self.now };

    /// Whether the line itself is printed, or a part of it, by its head: then a line of more than 4,096
    /// bytes is printed as it comes.
    fn passes(&self, head: &[u8]) -> bool
        requires short { length head.now ≤ HEAD_MAX }
        ensures passes { result ≡ is_some (machine.rest self.now head.now) };

    /// Prints what comes before the line itself, by its first 4,097 bytes, and returns the byte from
    /// which on the line follows, with a line feed, or `None` if it does not.
    fn step(&mut self, head: &[u8], pending: &mut Pending) -> Option<usize>
        requires short { length head.now ≤ HEAD_MAX }
        requires room { array_vec_len pending.old + STEP_MAX ≤ PENDING_MAX }
        ensures after { self.new ≡ machine.after self.old head.now }
        ensures text { pending.new.items ≡ pending.old.items ++ machine.text self.old head.now }
        ensures rest { result ≡ machine.rest self.old head.now }
        ensures within { IfSome result (λ from. from ≤ length head.now) };
}

/// Watches a machine while it runs: a program that reports on standard error what the machine has noted.
pub trait Observer<M> {
    /// Is called before each read, when all that was due has been written.
    fn before_read(&mut self, machine: &M);
}

/// Watches nothing.
#[derive(Clone, Copy)]
pub struct NoObserver;

impl<M> Observer<M> for NoObserver {
    fn before_read(&mut self, _machine: &M) {}
}
