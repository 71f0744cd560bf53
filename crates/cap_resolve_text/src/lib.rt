//! All that is wrong in a text.
#![tactic(auto)]

mod precondition;
mod texts;
mod trees;
mod words;

pub use trees::{has_main, note_tree};
