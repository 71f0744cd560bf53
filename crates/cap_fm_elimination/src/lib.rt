//! Elimination: the variables of rows go, one after the other, and a contradiction has a leaf.
#![tactic(auto)]

mod arising;
mod bounds;
mod eliminate;
mod entry;
mod equations;
mod error;
mod leaf;
mod numbered;
mod stage;

pub use eliminate::{refuted, terms_ascend};
pub use error::SolveError;
