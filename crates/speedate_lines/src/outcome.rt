//! How the program ends.

ghost use Rattle.std.specs.Prelude.{◌≡◌};
ghost use Rattle.speedate_lines.specs.Run.{outcome_of};

use speedate_stream::run::RunError;

/// The exit status after a run, and the text for standard error: 0 and an empty text if it answered
/// every line; 1 and `input failed` after a failed read; 2 and `output failed` after a failed write.
pub fn outcome(ended: Result<(), RunError>) -> (u8, &'static str)
    ensures tells { (result.0, result.1.now) ≡ outcome_of ended }
{
    match ended {
        Ok(()) => (0, ""),
        Err(RunError::Read) => (1, "input failed"),
        Err(RunError::Write) => (2, "output failed"),
    }
}
