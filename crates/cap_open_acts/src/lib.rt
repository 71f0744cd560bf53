//! A statement acts on a cell, with the marks that tell the opened regions from other ones.
#![tactic(auto)]

mod acting;
mod closing;
mod marking;

pub use acting::act;
pub use marking::full_marks;
