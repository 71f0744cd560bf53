//! The canonical text of a tree.
#![tactic(auto)]

mod assertion;
mod list;
mod program;
mod region;
mod statement;
mod tail;
mod term;
mod text;

pub use program::print;
