//! Symbolic guards: parts of guards whose amounts are linear terms.
#![tactic(auto)]

mod clash;
mod combine;
mod compatible;
mod full;
mod laws;
mod merging;
mod piece;
mod rows;
mod spans;

pub use compatible::compat;
pub use full::full_pieces;
pub use laws::{composed_parts_hold_both, right_full_pieces_compose, wanted_atoms_are_compatible};
pub use merging::merge;
pub use piece::{Form, Piece};
