//! Choices of a derivation, from the tokens of a line.
#![tactic(auto)]

mod certs;
mod choices;
mod values;

pub use choices::choice;
pub use values::{Fault, close, long, number, open, text};
