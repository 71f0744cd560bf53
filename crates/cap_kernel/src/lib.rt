//! The kernel of derivations: what each choice leaves of a goal.
#![tactic(auto)]

mod rules;

pub use rules::{proofs, subgoals};
