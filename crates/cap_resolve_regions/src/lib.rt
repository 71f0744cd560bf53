//! The region types of a tree's program: their cases and their actions.
#![tactic(auto)]

mod cases;
mod known;
mod regions;
mod types;
mod whole;

pub use known::{names_of_action, names_of_case};
pub use types::cases_of;
pub use whole::build_region;
