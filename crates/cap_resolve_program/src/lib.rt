//! The program of a tree that is not refused.
#![tactic(auto)]

mod parts;
mod program;
mod tables;

pub use program::build_program;
