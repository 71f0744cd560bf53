//! The closure of a fact: what may be known of its state after steps of others, and the
//! certificates with which it is settled.
#![tactic(auto)]

mod asking;
mod closing;
mod settling;
mod starting;
mod surviving;
mod testing;

pub use closing::{Closed, Closure, closure_of};
