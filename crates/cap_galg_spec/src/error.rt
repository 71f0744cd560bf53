//! Why two guards have no composition.
ghost use Rattle.std.specs.Prelude.{◌≡◌};
ghost use Rattle.cap_galg_spec.specs.declared.error.GuardError.TheVariants.{OutOfMemory};

use std::alloc::{AllocError, AllocFailed};
use thiserror::Error;

/// Why there is no element.
#[derive(Clone, Copy, Debug, PartialEq, Eq, Error)]
pub enum GuardError {
    /// The elements compose, and in their composition the denominator of a sum in lowest terms, or
    /// a count, passes 64 bits.
    #[error("a number passes 64 bits")]
    Wide,
    /// Memory ran out.
    #[error("out of memory")]
    OutOfMemory,
}

impl From<AllocError> for GuardError {
    ghost from_gives = { λ _ e. e ≡ OutOfMemory };

    fn from(_e: AllocError) -> GuardError {
        GuardError::OutOfMemory
    }
}

impl<T: Drop> From<AllocFailed<T>> for GuardError {
    ghost from_gives = { λ _ e. e ≡ OutOfMemory };

    fn from(_e: AllocFailed<T>) -> GuardError {
        GuardError::OutOfMemory
    }
}
