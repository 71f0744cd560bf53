//! What several rules at statements have in common: the subgoals that a branch and a loop's head
//! leave, by a comparison, and the tasks of a fork, which a call has too.
#![tactic(auto)]

mod branching;
mod forking;

pub use branching::branches;
pub use forking::fork_tasks;
