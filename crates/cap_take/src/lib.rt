//! The rules of derivations at items of assertions that are given up: what a choice leaves of a
//! goal.
#![tactic(auto)]

mod cells;
mod comparing;
mod heads;
mod take;

pub use take::{take_proofs, take_subgoals};
