//! The outline of a derivation: of each function each statement, with the states that stand there.
#![tactic(auto)]

mod gather;
mod gathered;
mod held;
mod names;
mod points;
mod state;
mod statements;
mod terms;
mod text;

pub use text::outline;
