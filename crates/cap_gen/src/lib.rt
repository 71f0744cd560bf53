//! Inputs that are made from a number.
#![tactic(auto)]

mod trial;

pub use trial::trial_text;
