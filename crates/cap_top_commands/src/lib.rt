//! What each command answers to the bytes of its files, and what the answers promise.
#![tactic(auto)]

mod answer;
mod beginning;
mod checking;
mod cores;
mod derivation;
mod laws;
mod outlining;
mod output;
mod replaying;
mod status;
mod straying;
mod trying;

pub use answer::{show, verify};
pub use beginning::{Begun, begin};
pub use checking::{bad_lines, check};
pub use cores::core;
pub use derivation::derive;
pub use laws::{
    accepted_are_safe, checked_are_outlined, cores_are_told, derived_are_accepted,
    empty_answers_have_no_start, good_answers_are_safe, good_trials_are_safe, outlines_are_told,
    safe_texts_have_no_stray, strays_fault,
};
pub use outlining::{outline, rejected};
pub use output::Output;
pub use replaying::play;
pub use status::Status;
pub use straying::stray;
pub use trying::trial;
