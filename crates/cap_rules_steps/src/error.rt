//! Why a choice leaves no goals.
ghost use Rattle.std.specs.Prelude.{◌≡◌};
ghost use Rattle.cap_rules_steps.specs.declared.error.RuleError.TheVariants.{OutOfMemory};
ghost use Rattle.cap_rules_steps.specs.Errors.{rule_error};

use cap_lin::LinError;
use std::alloc::{AllocError, AllocFailed};
use thiserror::Error;

/// Why a choice has no subgoals: the first failure of its rule.
#[derive(Clone, Copy, Debug, PartialEq, Eq, Error)]
pub enum RuleError {
    #[error("the rule does not apply")]
    NotApplicable,
    /// A number leaves 128 signed bits: the first sum or product that does, by its two operands.
    #[error("{0} and {1} make a number past 128 bits")]
    Wide(i128, i128),
    #[error("out of memory")]
    OutOfMemory,
}

impl From<LinError> for RuleError {
    ghost from_gives = { λ e r. r ≡ rule_error e };

    fn from(e: LinError) -> RuleError {
        match e {
            LinError::Wide(a, b) => RuleError::Wide(a, b),
            LinError::OutOfMemory => RuleError::OutOfMemory,
        }
    }
}

impl From<AllocError> for RuleError {
    ghost from_gives = { λ _ e. e ≡ OutOfMemory };

    fn from(_e: AllocError) -> RuleError {
        RuleError::OutOfMemory
    }
}

impl<T: Drop> From<AllocFailed<T>> for RuleError {
    ghost from_gives = { λ _ e. e ≡ OutOfMemory };

    fn from(_e: AllocFailed<T>) -> RuleError {
        RuleError::OutOfMemory
    }
}
