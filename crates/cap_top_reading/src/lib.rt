//! What the bytes of a text are: a tree, the program for which it stands, or refused.
#![tactic(auto)]

mod laws;
mod reading;
mod refusal;

pub use laws::programs_of_texts_are_well_formed;
pub use reading::{read_program, read_tree};
pub use refusal::{Refusal, refusal_text};
