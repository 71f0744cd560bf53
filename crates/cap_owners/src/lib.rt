//! The text of a run with its accounts: who owns what at its start and after each of its steps.
#![tactic(auto)]

mod account;
mod beginning;
mod error;
mod frame;
mod loops;
mod moves;
mod owned;
mod start;
mod step;
mod track;

pub use error::OwnersError;
pub use owned::{Owned, owners};
