//! The choices that a search may try at a goal: which rules apply there, each with the certificates
//! of its proofs, and which limits were passed while they were decided.
#![tactic(auto)]

mod claims;
mod clashing;
mod facts;
mod heads;
mod heap;
mod items;
mod listing;
mod offers;
mod scanning;
mod shifting;
mod sums;
mod trying;

pub use offers::{Offers, offered};
