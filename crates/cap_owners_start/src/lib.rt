//! Whether the start of a run meets what a function requires, and by what.
#![tactic(auto)]

mod cells;
mod meeting;
mod start;

pub use start::meet_requires;
