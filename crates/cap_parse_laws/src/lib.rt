//! Reading a text's tokens from left to right, as a definition, and where a text goes wrong.
#![tactic(auto)]

mod class;
mod laws;

pub use class::{Class, are_same, class_of, keyword_class};
pub use laws::{canonical_texts_read_back, texts_are_read_as_spelled, texts_go_wrong_at_one_token};
