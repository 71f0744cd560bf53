//! The search for trees of the roots of a unit: depth first, with a budget of visits; and whether
//! nothing meets the precondition of `main`.
#![tactic(auto)]

mod judging;
mod leaf;
mod obligation;
mod places;
mod seeking;
mod start;
mod verdict;
mod walk;

pub use judging::judge;
pub use obligation::{Need, Obligation};
pub use start::empty_start;
pub use verdict::Verdict;
