//! Names and literals, each with its place.
// Tokens whose text varies.

use cap_syntax::{Place, Text};

/// A name where it stands.
#[derive(Drop)]
pub struct Word {
    pub text: Text,
    pub place: Place,
}

/// A number where it stands: its digits and its value.
#[derive(Drop)]
pub struct Literal {
    pub text: Text,
    pub value: u64,
    pub place: Place,
}
