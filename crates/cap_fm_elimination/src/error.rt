//! Why the solver has no answer.
ghost use Rattle.std.specs.Prelude.{◌≡◌};
ghost use Rattle.cap_fm_elimination.specs.declared.error.SolveError.TheVariants.{OutOfMemory};

use cap_lin::LinError;
use std::alloc::{AllocError, AllocFailed};
use thiserror::Error;

/// Why elimination has no answer.
#[derive(Clone, Copy, Debug, PartialEq, Eq, Error)]
pub enum SolveError {
    /// A number leaves 128 signed bits: the first sum or product that does, by its two operands.
    #[error("{0} and {1} make a number past 128 bits")]
    Wide(i128, i128),
    /// One elimination has more than 4,096 rows.
    #[error("more than 4096 rows")]
    Rows,
    /// Memory ran out.
    #[error("out of memory")]
    OutOfMemory,
}

impl From<AllocError> for SolveError {
    ghost from_gives = { λ _ e. e ≡ OutOfMemory };

    fn from(_e: AllocError) -> SolveError {
        SolveError::OutOfMemory
    }
}

impl<T: Drop> From<AllocFailed<T>> for SolveError {
    ghost from_gives = { λ _ e. e ≡ OutOfMemory };

    fn from(_e: AllocFailed<T>) -> SolveError {
        SolveError::OutOfMemory
    }
}

impl From<LinError> for SolveError {
    ghost use Rattle.cap_fm_elimination.specs.Errors.{solve_error};

    ghost from_gives = { λ e f. f ≡ solve_error e };

    fn from(e: LinError) -> SolveError {
        match e {
            LinError::Wide(a, b) => SolveError::Wide(a, b),
            LinError::OutOfMemory => SolveError::OutOfMemory,
        }
    }
}
