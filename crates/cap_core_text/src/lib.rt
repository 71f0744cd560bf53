//! Which rows the proofs of a unit need, as lines.
#![tactic(auto)]

mod laws;
mod lines;
mod node;
mod proof;

pub use laws::proofs_have_cores;
pub use lines::push_core_lines;
