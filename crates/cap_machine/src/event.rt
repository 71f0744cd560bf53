//! Entries of a schedule, what a step does, and why one can't be made.
ghost use Rattle.std.specs.Prelude.{◌≡◌};
ghost use Rattle.cap_machine.specs.declared.event.StepError.TheVariants.{OutOfMemory};
ghost use Rattle.cap_machine.specs.Errors.{step_error};

use cap_lin::LinError;
use cap_syntax::Place;
use std::alloc::{AllocError, AllocFailed};
use thiserror::Error;

/// The choice of a step: a thread, counted from 0, and the base address of what it allocates, which
/// is given exactly where its next statement is an allocation.
#[derive(Clone, Copy, Debug, PartialEq, Eq)]
pub struct Entry {
    pub thread: u32,
    pub base: Option<i128>,
}

/// The next statement of a thread: the number of its function, its number within the function, its
/// place, and the number of its cells where it is an allocation.
#[derive(Clone, Copy, Debug, PartialEq, Eq)]
pub struct Ahead {
    pub function: u32,
    pub number: u32,
    pub place: Place,
    pub cells: Option<u32>,
}

/// What a step did. Addresses come before values.
#[derive(Clone, Copy, PartialEq, Eq)]
pub enum Event {
    Set(i128),
    Read(i128, i128),
    Write(i128, i128),
    Cas(i128, bool),
    /// A sum in a cell, with what it held before.
    Faa(i128, i128),
    /// A cell that is gone.
    Dispose(i128),
    Alloc(i128),
    Call,
    Fork(u32),
    Branch(bool),
    Assert,
    Return(i128),
    End(i128),
    /// A fault: the access to an absent address.
    Bad(i128),
    /// A fault: an assertion that does not hold, by the place of its statement.
    Failed(Place),
}

/// Why there is no step. The machine is then as it was.
#[derive(Clone, Copy, Debug, PartialEq, Eq, Error)]
pub enum StepError {
    #[error("not enabled")]
    NotEnabled,
    #[error("a number leaves 128 bits")]
    Wide,
    #[error("out of memory")]
    OutOfMemory,
}

impl From<LinError> for StepError {
    ghost from_gives = { λ e s. s ≡ step_error e };

    fn from(e: LinError) -> StepError {
        match e {
            LinError::Wide(_, _) => StepError::Wide,
            LinError::OutOfMemory => StepError::OutOfMemory,
        }
    }
}

impl From<AllocError> for StepError {
    ghost from_gives = { λ _ s. s ≡ OutOfMemory };

    fn from(_e: AllocError) -> StepError {
        StepError::OutOfMemory
    }
}

impl<T: Drop> From<AllocFailed<T>> for StepError {
    ghost from_gives = { λ _ s. s ≡ OutOfMemory };

    fn from(_e: AllocFailed<T>) -> StepError {
        StepError::OutOfMemory
    }
}
