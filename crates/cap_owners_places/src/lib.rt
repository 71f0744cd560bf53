//! Trees of a derivation, each node with its goal, so that walks need not make goals again.
#![tactic(auto)]

mod placed;
mod roots;
mod tree;
mod units;

pub use placed::Placed;
pub use roots::{Roots, place_trees};
