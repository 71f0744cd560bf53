//! The rows of a proof that it cannot do without.
#![tactic(auto)]

mod laws;
mod leaving;

pub use laws::{cores_are_irreducible, decided_are_cores};
pub use leaving::core;
