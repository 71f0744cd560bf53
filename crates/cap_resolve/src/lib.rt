//! The program for which a tree stands, or its refusal.
#![tactic(auto)]

mod error;
mod resolving;

pub use error::ResolveError;
pub use resolving::resolve;
