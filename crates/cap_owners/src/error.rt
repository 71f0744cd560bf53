//! Why there is no text of a run.
ghost use Rattle.std.specs.Prelude.{◌≡◌};
ghost use Rattle.cap_owners.specs.declared.error.OwnersError.TheVariants.{OutOfMemory};

use std::alloc::AllocError;
use thiserror::Error;

/// Why there is no text of a run with its accounts.
#[derive(Clone, Copy, Debug, PartialEq, Eq, Error)]
pub enum OwnersError {
    /// The arguments and the heap don't meet what `main` requires.
    #[error("main's precondition is not met")]
    Start,
    #[error("out of memory")]
    OutOfMemory,
}

impl From<AllocError> for OwnersError {
    ghost from_gives = { λ _ e. e ≡ OutOfMemory };

    fn from(_e: AllocError) -> OwnersError {
        OwnersError::OutOfMemory
    }
}
