//! Regions that are created where a fact of them is given up.
#![tactic(auto)]

mod begun;
mod created;

pub use created::create;
