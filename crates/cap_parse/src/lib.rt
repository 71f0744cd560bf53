//! From the tokens of a text to its tree.
#![tactic(auto)]

mod assertion;
mod cursor;
mod program;
mod region;
mod seen;
mod statement;
mod term;
mod text;

pub use text::{ParseError, parse};
