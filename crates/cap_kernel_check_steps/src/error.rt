//! What is told of a derivation that isn't accepted.
ghost use Rattle.std.specs.Prelude.{◌≡◌};
ghost use Rattle.cap_kernel_check_steps.specs.declared.error.CheckError.TheVariants.{OutOfMemory};

use std::alloc::{AllocError, AllocFailed};
use thiserror::Error;

/// Why trees of choices are not valid derivations, with the number of a node: nodes are numbered
/// from 1 in preorder, over all trees.
#[derive(Clone, Copy, Debug, PartialEq, Eq, Error)]
pub enum CheckError {
    /// The first node whose choice does not apply, or that stands deeper than a thousand; or the
    /// first that the trees of a unit have or would have whose roots have a term past 128 bits.
    #[error("node {0} fails")]
    Node(u64),
    /// The first node that is left over, or one more than the last before one that is missing; 1
    /// where there are more trees or fewer than roots.
    #[error("the shape is wrong at node {0}")]
    Shape(u64),
    #[error("out of memory")]
    OutOfMemory,
}

impl From<AllocError> for CheckError {
    ghost from_gives = { λ _ e. e ≡ OutOfMemory };

    fn from(_e: AllocError) -> CheckError {
        CheckError::OutOfMemory
    }
}

impl<T: Drop> From<AllocFailed<T>> for CheckError {
    ghost from_gives = { λ _ e. e ≡ OutOfMemory };

    fn from(_e: AllocFailed<T>) -> CheckError {
        CheckError::OutOfMemory
    }
}
