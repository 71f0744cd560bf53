//! Why a part of a step comes to nothing.
ghost use Rattle.std.specs.Prelude.{◌≡◌};
ghost use Rattle.cap_owners_values.specs.declared.error.TraceError.TheVariants.{OutOfMemory};

use std::alloc::{AllocError, AllocFailed};
use thiserror::Error;

/// Why a part of a step comes to nothing along a derivation.
#[derive(Clone, Copy, Debug, PartialEq, Eq, Error)]
pub enum TraceError {
    /// A number leaves 128 bits, or a share is to be halved that can't be over the one denominator.
    #[error("a number leaves its bounds")]
    PastWidth,
    /// The derivation doesn't tell of the step.
    #[error("the derivation does not tell of the step")]
    Untold,
    #[error("out of memory")]
    OutOfMemory,
}

impl From<AllocError> for TraceError {
    ghost from_gives = { λ _ e. e ≡ OutOfMemory };

    fn from(_e: AllocError) -> TraceError {
        TraceError::OutOfMemory
    }
}

impl<T: Drop> From<AllocFailed<T>> for TraceError {
    ghost from_gives = { λ _ e. e ≡ OutOfMemory };

    fn from(_e: AllocFailed<T>) -> TraceError {
        TraceError::OutOfMemory
    }
}
