//! What a command is to a run over files.

use crate::search::ReadAt;
use crate::summary::SUMMARY_MAX;
use speedate::CallKind;
use speedate_scan::scan::Scan;
use speedate_stream::run::RunError;
use speedate_stream::{LineMachine, Observer, PENDING_MAX, Pending, Watched};
use std::io::{Read, Write};

/// What a run over files has to know of a command.
#[derive(Clone, Copy, Debug)]
pub struct About {
    /// What kind of call reads the values.
    pub kind: CallKind,
    /// Whether bad values are reported on standard error.
    pub tells_bad: bool,
    /// How many lines are told to be before the first entry.
    pub before: u64,
    /// How many values were reported as earlier than the one before, or as after a gap.
    pub reported: u64,
    /// Whether what was to be printed after the last file has too many days.
    pub is_too_large: bool,
    /// Whether the values of each file never fall, so that it is searched.
    pub is_in_order: bool,
}

/// A command over the lines of files, one after the other.
pub trait Command<'a>: LineMachine + Sized {
    ghost use Rattle.std.specs.Prelude.{◌≡◌, ◌+◌, ◌++◌, ◌≤◌, ℕ, Err, IfSome, List, OnOk, Option, false, true};
    ghost use Rattle.std.specs.Borrow.{Bor};
    ghost use Rattle.arrayvec.specs.ArrayVec.{array_vec_len};
    ghost use Rattle.speedate_commands.specs.Base.{Scan};
    ghost use Rattle.speedate_commands.specs.InOrder.{FailsBy};
    ghost use Rattle.speedate_commands.specs.Runs.{About, EndsSaying};
    ghost use Rattle.speedate_stream.specs.Run.{EndsBy, PrintsBeginning, PrintsProgress};

    // What is known of the lines so far.
    ghost scan: { Self → Scan };

    // What is known when a file with a name begins.
    ghost begun: { Self → Bor (List ℕ) → Self };

    // What is said of the lines of a file: what is known after them, and what is printed.
    ghost Says: { Self → List (List ℕ) → Self → List ℕ → Type 0 };

    // What is printed of the text of a file that is searched, and what is known after it.
    ghost Searches: { Self → Self → Option (List ℕ) → Option (List ℕ) → List ℕ → Type 0 };

    // What a run has to know of the command.
    ghost about: { Self → About };

    // What is printed after the last file.
    ghost end_text: { Self → List ℕ };

    /// What is known of the lines so far.
    fn scan(&self) -> Scan<'a>
        ensures scan { result ≡ scan self.now };

    /// Begins a file with this name.
    fn begin(&mut self, name: &'a [u8])
        ensures begun { self.new ≡ begun self.old name.entry };

    /// What a run has to know of the command.
    fn about(&self) -> About
        ensures about { result ≡ about self.now };

    /// Prints what the command prints of an input.
    ///
    /// Fails with `RunError::Read` if a read fails, with `RunError::Write` if a write or the flush does.
    fn print<R: Read, W: Write, O: Observer<Self>>(
        &mut self,
        input: &mut Watched<R>,
        output: &mut Watched<W>,
        observer: &mut O,
    ) -> Result<(), RunError>
        // If neither end had failed before, one has failed if and only if the answer says so.
        ensures failed { input.old.failed ≡ false → output.old.failed ≡ false →
            EndsBy result input.new.failed output.new.failed }
        ensures ended { OnOk result (EndsSaying Self.machine Says self.old self.new
            (R.remaining input.old.inner) (R.remaining input.new.inner)
            (W.contents output.old.inner) (W.contents output.new.inner)) }
        ensures flushed { OnOk result (output.new.flushed ≡ true) }
        // After a failed read what was written is what is printed for all that was read.
        ensures read_failed { result ≡ Err RunError.Read → PrintsProgress Self.machine self.old self.new
            (R.remaining input.old.inner) (R.remaining input.new.inner)
            (W.contents output.old.inner) (W.contents output.new.inner) }
        // After a failed write it is a beginning of what was due.
        ensures write_failed { result ≡ Err RunError.Write → PrintsBeginning Self.machine self.old
            (R.remaining input.old.inner) (R.remaining input.new.inner)
            (W.contents output.old.inner) (W.contents output.new.inner) };

    /// Prints what the command prints of a file of so many bytes, which is searched, and nothing if it searches none.
    /// It is noted in `failed` if a read fails.
    fn search<S: ReadAt, W: Write>(
        &mut self,
        source: &S,
        size: u64,
        failed: &mut bool,
        output: &mut Watched<W>,
    ) -> Result<(), RunError>
        // If the output had not failed before, a read or the output has failed if and only if the answer says so.
        ensures failed { output.old.failed ≡ false →
            FailsBy result failed.old failed.new output.new.failed }
        ensures searched { OnOk result (IfSome (S.text source.now) (λ text.
            Searches self.old self.new (W.contents output.old.inner)
            (W.contents output.new.inner) text)) };

    /// Appends what is printed after the last file.
    fn push_end(&self, pending: &mut Pending)
        requires room { array_vec_len pending.old + SUMMARY_MAX ≤ PENDING_MAX }
        ensures pushed { pending.new.items ≡ pending.old.items ++ end_text self.now };
}
