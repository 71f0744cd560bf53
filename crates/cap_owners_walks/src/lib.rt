//! Walks through trees of a derivation, along what a run brings.
#![tactic(auto)]

mod begin;
mod frame;
mod given;
mod halt;
mod node;
mod opened;
mod quiet;
mod regions;

pub use begin::beginning;
pub use frame::walk_frame;
pub use given::{GivenAssertion, fill_now};
pub use halt::Halt;
