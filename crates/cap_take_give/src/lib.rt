//! The rule at an assertion that is given: its names get variables, and its items are assumed.
#![tactic(auto)]

mod giving;
mod splitting;
mod walk;

pub use walk::give;
