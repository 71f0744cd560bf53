//! What is answered to `owners`, and what the answers promise.
#![tactic(auto)]

mod laws;
mod listing;
mod owning;

pub use laws::{accepted_have_trees, judged_have_owners, owners_are_told, refused_starts_are_none};
pub use listing::{Listed, list};
pub use owning::owners;
