//! The goals from which the trees of a unit grow.
#![tactic(auto)]

mod function;
mod goal;
mod loops;
mod made;
mod region;
mod store;
mod unit;

pub use goal::goal_of;
pub use unit::roots;
