//! Derivations as lines of JSON: read line by line.
#![tactic(auto)]

mod cursor;
mod entire;
mod first;
mod found;

pub use cursor::{Cursor, DerivError, MOST_NODES};
pub use entire::{Lines, read};
