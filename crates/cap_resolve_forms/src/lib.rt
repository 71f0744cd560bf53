//! The linear forms of terms, and the terms whose numbers leave 128 bits.
#![tactic(auto)]

mod exact;
mod forms;
mod long;
mod names;
mod widths;

pub use widths::{is_wide, linear, note_term};
