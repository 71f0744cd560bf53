//! The states that a fact may have after steps of others: what may be known of them, and what has
//! to hold for that to stay true.
#![tactic(auto)]

mod candidate;
mod finding;
mod naming;
mod proving;
mod system;
mod wanting;

pub use candidate::Candidate;
pub use finding::{candidates, candidates_of, later_state};
pub use naming::{NamedTerms, action_names};
pub use proving::{prove_at, prove_kept, prove_stable};
pub use system::system as action_system;
