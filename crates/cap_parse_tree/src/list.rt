//! Trees of lists, with their tokens.
// Lists of parts. Each has, in the order of the text, the places of its own tokens and its parts.

use cap_syntax::Place;

/// A part, and others, each behind its separator.
#[derive(Drop)]
pub struct Separated<T> {
    pub first: T,
    pub more: Vec<(Place, T)>,
}

/// Parts in parentheses, with commas between them, or none.
#[derive(Drop)]
pub struct Listed<T> {
    pub open: Place,
    pub parts: Option<Separated<T>>,
    pub close: Place,
}

/// Parts in braces, behind a keyword.
#[derive(Drop)]
pub struct Group<T> {
    pub key: Place,
    pub open: Place,
    pub parts: Vec<T>,
    pub close: Place,
}
