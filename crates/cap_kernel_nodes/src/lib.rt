//! The nodes of derivations, each with its goal, in preorder.
#![tactic(auto)]

mod ahead;
mod goals;
mod laws;
mod walk;

pub use goals::{goals_left, roots_of};
pub use laws::{nodes_are_proven, program_nodes_are_proven};
pub use walk::{GoalNode, NodeWalk};
