//! The refusal of a text: the first of all that is wrong in it.
#![tactic(auto)]

mod actions;
mod bodies;
mod cases;
mod functions;
mod indices;
mod laws;
mod regions;
mod types;
mod whole;

pub use laws::functions_are_noted;
pub use types::note_region_type;
pub use whole::note_function;
