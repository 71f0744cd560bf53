//! How a walk through a tree of a derivation passes a node: to which child it goes, and the values of
//! the variables that are new there.
#![tactic(auto)]

mod ahead;
mod closing;
mod giving;
mod items;
mod lookup;
mod pass;
mod statement;
mod taking;
mod walk;

pub use pass::pass_task;
pub use walk::{Taking, Walk};
