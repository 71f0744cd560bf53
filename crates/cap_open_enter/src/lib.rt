//! The region of a fact is opened at a statement on a cell; and facts and cells by their numbers,
//! and the address of such a statement.
#![tactic(auto)]

mod entering;
mod lookup;

pub use entering::{clear_before, enter};
pub use lookup::{cell_at, fact_at, heap_address};
