//! Laws of equality and cloning. Each function makes the one call that its law is about, and its
//! contract is the law.

ghost use Rattle.std.specs.Prelude.{◌≡◌, ◌↔◌, IsTrue, Ok};

use speedate_stream::Failed;
use speedate_stream::run::RunError;
use std::alloc::AllocError;

/// Whether two reasons for which a run ended are equal: false for `Read` and `Write`.
pub fn same_run_error(first: &RunError, second: &RunError) -> bool
    ensures same { IsTrue result ↔ (first.now ≡ second.now) }
{
    first == second
}

/// A copy of the reason: `Read` for `Read`.
pub fn clone_run_error(reason: &RunError) -> Result<RunError, AllocError>
    ensures clone { result ≡ Ok reason.now }
{
    reason.clone()
}

/// Whether two [`Failed`] are equal: always.
pub fn same_failed(first: &Failed, second: &Failed) -> bool
    ensures same { IsTrue result }
{
    first == second
}

/// A copy of a [`Failed`].
pub fn clone_failed(failed: &Failed) -> Result<Failed, AllocError>
    ensures clone { result ≡ Ok failed.now }
{
    failed.clone()
}
