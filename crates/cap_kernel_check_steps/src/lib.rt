//! The steps of the judge of derivations: what stands at roots, what a choice leaves, what is owed,
//! the record of a walk, and trees that grow from choices; with the definitions of what is told of
//! trees and of choices, and their laws.
#![tactic(auto)]

mod debt;
mod error;
mod gather;
mod growth;
mod laws;
mod left;
mod owing;
mod preorder;
mod shaping;
mod start;
mod walk;

pub use debt::Debt;
pub use error::CheckError;
pub use gather::{push_functions, push_regions};
pub use laws::{
    faulty_are_invalid, judged_are_valid, judgements_are_one, valid_trees_are_one, walks_tell,
};
pub use left::goals_left;
pub use owing::{debts_left, first_owed, owed_at, replace_first};
pub use shaping::shape_at;
pub use start::Start;
pub use walk::Walk;
