//! Why arithmetic on terms has no result.
ghost use Rattle.std.specs.Prelude.{◌≡◌};
ghost use Rattle.cap_lin.specs.declared.error.LinError.TheVariants.{OutOfMemory};

use std::alloc::{AllocError, AllocFailed};
use thiserror::Error;

/// Why there is no term or row.
#[derive(Clone, Copy, Debug, PartialEq, Eq, Error)]
pub enum LinError {
    /// A number leaves 128 signed bits: the first sum or product that does, by its two operands.
    #[error("{0} and {1} make a number past 128 bits")]
    Wide(i128, i128),
    #[error("out of memory")]
    OutOfMemory,
}

impl From<AllocError> for LinError {
    ghost from_gives = { λ _ e. e ≡ OutOfMemory };

    fn from(_e: AllocError) -> LinError {
        LinError::OutOfMemory
    }
}

impl<T: Drop> From<AllocFailed<T>> for LinError {
    ghost from_gives = { λ _ e. e ≡ OutOfMemory };

    fn from(_e: AllocFailed<T>) -> LinError {
        LinError::OutOfMemory
    }
}
