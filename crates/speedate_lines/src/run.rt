//! Lines in, answers out.

ghost use Rattle.std.specs.Prelude.{◌≡◌, true, false, Err, IfSome, OnOk};
ghost use Rattle.std.specs.Io.KnownBytes.{Appends, IsAtEnd};
ghost use Rattle.speedate.specs.Lines.{lines};
ghost use Rattle.speedate_lines.specs.Answer.{answers};
ghost use Rattle.speedate_lines.specs.Run.{AnswersCompleteLines, AnswersBeginning};
ghost use Rattle.speedate_stream.specs.Run.{EndsBy};
ghost use Rattle.speedate_stream.specs.Watch.{one_more};

use crate::answer::Answering;
use speedate_stream::run::RunError;
use speedate_stream::{NoObserver, Watched};
use std::io::{Read, Write};

/// Answers each line of the input, up to its end.
///
/// A line ends with a line feed or with the input, its answer with a line feed. For the input
/// `date 2020-02-29` the output is `ok 2020-02-29` and a line feed.
///
/// - `date TEXT`, `time TEXT`, `datetime TEXT` and `duration TEXT`: `ok` and the printed value, or
///   `err` and the name of the error.
/// - `duration-strict TEXT`: the same, but the components must come in order.
/// - A line of more than 4,096 bytes: `err line_too_long`.
/// - Any other line: `err unknown_kind`.
///
/// Every complete line that was read is answered before the next read. Fails with `RunError::Read` if a
/// read fails, with `RunError::Write` if a write fails, or the one flush at the end.
pub fn run<R: Read, W: Write>(
    input: &mut Watched<R>,
    output: &mut Watched<W>,
) -> Result<(), RunError>
    // If neither end had failed before the call, one has failed after it if and only if the answer
    // says so.
    ensures failed { input.old.failed ≡ false → output.old.failed ≡ false →
        EndsBy result input.new.failed output.new.failed }
    // All input was read, and what was written is the answers to its lines. One flush came, after
    // the last write.
    ensures read { OnOk result (IsAtEnd (R.remaining input.new.inner)) }
    ensures answered { OnOk result (IfSome (R.remaining input.old.inner) (λ text.
        Appends (W.contents output.old.inner) (W.contents output.new.inner)
        (answers (lines text)))) }
    ensures flushed { OnOk result (output.new.flushed ≡ true) }
    ensures flushed_once { OnOk result (output.new.flushes ≡ one_more output.old.flushes) }
    // After a failed read what was written is the answers to all complete lines that were read, and
    // no flush came.
    ensures read_failed { result ≡ Err RunError.Read →
        AnswersCompleteLines (R.remaining input.old.inner) (R.remaining input.new.inner)
        (W.contents output.old.inner) (W.contents output.new.inner) }
    ensures unflushed { result ≡ Err RunError.Read → output.new.flushes ≡ output.old.flushes }
    // After a failed write or flush what was written is a beginning of the answers that were due,
    // and in it all that were due before the last read.
    ensures write_failed { result ≡ Err RunError.Write →
        AnswersBeginning (R.remaining input.old.inner) (R.remaining input.new.inner)
        (W.contents output.old.inner) (W.contents output.new.inner) }
{
    let mut machine = Answering;
    match speedate_stream::run::run(&mut machine, input, output, &mut NoObserver) {
        Ok(()) => Ok(()),
        Err(error) => Err(error),
    }
}

#[cfg(test)]
mod tests;
