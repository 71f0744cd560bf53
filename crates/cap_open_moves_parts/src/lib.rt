//! What a move by which an opened region is closed matches: the parts of its action, and the guards
//! that were held before the step.
#![tactic(auto)]

mod parts;

pub use parts::{MovePart, asks_indices, held_before, parts_of};
