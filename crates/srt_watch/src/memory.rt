//! Evidence that memory was refused.

ghost use Rattle.std.specs.Prelude.{◌≡◌, Ok, IfOk, IfErr, IsErr};

use std::alloc::{AllocError, AllocFailed};

/// Evidence that an allocation failed: it is made of the error of one alone.
#[derive(Clone, Copy, Drop)]
pub(crate) struct WantOfMemory {
    marker: (),
}

/// Evidence that an allocation for a route failed: it is made of the error of one alone.
#[derive(Clone, Copy, Drop)]
pub(crate) struct WantForRoute {
    marker: (),
}

impl From<AllocError> for WantOfMemory {
    fn from(_error: AllocError) -> WantOfMemory {
        WantOfMemory { marker: () }
    }
}

impl From<AllocError> for WantForRoute {
    fn from(_error: AllocError) -> WantForRoute {
        WantForRoute { marker: () }
    }
}

impl<T: Drop> From<AllocFailed<T>> for WantForRoute {
    fn from(_failed: AllocFailed<T>) -> WantForRoute {
        WantForRoute { marker: () }
    }
}

/// Returns what an allocation returned; in place of its error, evidence of that.
pub(crate) fn or_want_of_memory<T>(outcome: Result<T, AllocError>) -> Result<T, WantOfMemory>
    ensures made { IfOk result (λ made. outcome ≡ Ok made) }
    ensures refused { IfErr result (λ _. IsErr outcome) }
{
    match outcome {
        Ok(made) => Ok(made),
        Err(error) => Err(WantOfMemory::from(error)),
    }
}
