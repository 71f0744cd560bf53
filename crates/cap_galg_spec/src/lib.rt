//! Guard algebras by definition, with their laws, and what a type of parts of a guard offers.
#![tactic(auto)]

mod error;
mod fraction;
mod guard;

pub use error::GuardError;
pub use fraction::{Fraction, common_divisor};
pub use guard::Guard;
