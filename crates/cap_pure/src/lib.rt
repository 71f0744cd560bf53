//! The rules of derivations at statements that touch no cell, at heads of loops and at
//! contradictory rows: what a choice leaves of a goal.
#![tactic(auto)]

mod allocation;
mod calls;
mod contradiction;
mod loops;
mod pure;
mod statements;
mod straight;
mod upcoming;

pub use pure::{pure_proofs, pure_subgoals};
