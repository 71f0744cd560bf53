//! The rules of derivations at guards that are given up: a guard is taken out of a piece that is
//! held, or the guards of one side of a sum are converted to those of the other side.
#![tactic(auto)]

mod converting;
mod cuts;
mod forms;
mod fulls;
mod guards;
mod sides;
mod spans;
mod sums;

pub use converting::convert;
pub use guards::guard;
