//! The rules of derivations by which regions are opened and closed and statements act on cells:
//! what a choice leaves of a goal.
#![tactic(auto)]

mod heads;
mod opening;

pub use opening::{open_proofs, open_subgoals};
