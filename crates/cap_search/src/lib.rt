//! The search for derivations: the verdict on a unit, within a budget of visits; and whether
//! nothing meets the precondition of `main`.
#![tactic(auto)]

mod finding;
mod program;

pub use cap_search_trees::{Need, Obligation, Verdict, empty_start};
pub use finding::search;
