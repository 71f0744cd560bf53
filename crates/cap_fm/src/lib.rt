//! The solver: whether rows exclude every valuation.
#![tactic(auto)]

mod solver;

pub use cap_fm_elimination::SolveError;
pub use solver::{Answer, solve};
