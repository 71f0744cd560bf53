//! Trees of terms, comparisons and slots.
// Terms and comparisons. Each node has, in the order of the text, the places of its own tokens and
// its parts.

use crate::word::{Literal, Word};
use cap_syntax::Place;

/// A number, `1p`, a name, or a term in parentheses.
#[cycle(terms)]
#[derive(Drop)]
pub enum Factor {
    Number(Literal),
    WholeShare(Place),
    Name(Word),
    Bracketed(Place, Box<Term>, Place),
}

/// `*`, and a factor.
#[cycle(terms)]
#[derive(Drop)]
pub struct Times {
    pub star: Place,
    pub factor: Factor,
}

/// Factors with `*` between them.
#[cycle(terms)]
#[derive(Drop)]
pub struct Product {
    pub first: Factor,
    pub more: Vec<Times>,
}

/// `+` or `-`.
#[derive(Clone, Copy, Debug, PartialEq, Eq)]
pub enum Sign {
    Plus,
    Minus,
}

/// A sign, and a product.
#[cycle(terms)]
#[derive(Drop)]
pub struct Addend {
    pub sign: Sign,
    pub place: Place,
    pub product: Product,
}

/// Products with signs between them, the first behind `-` or nothing.
#[cycle(terms)]
pub struct Term {
    pub minus: Option<Place>,
    pub first: Product,
    pub more: Vec<Addend>,
}

impl Drop for Term {
    #[cycle(dropped_terms)]
    fn drop(self) {
        let Term {
            minus: _,
            first: _,
            more: _,
        } = self;
    }
}

/// `=`, `!=`, `<`, `<=`, `>` or `>=`.
#[derive(Clone, Copy, Debug, PartialEq, Eq)]
pub enum Relation {
    Equal,
    Unequal,
    Less,
    AtMost,
    Greater,
    AtLeast,
}

/// Two terms, and the relation between them.
pub struct Comparison {
    pub left: Term,
    pub relation: Relation,
    pub place: Place,
    pub right: Term,
}

impl Drop for Comparison {
    fn drop(self) {
        let Comparison {
            left: _,
            relation: _,
            place: _,
            right: _,
        } = self;
    }
}

/// `_`, or a term.
#[derive(Drop)]
pub enum Slot {
    Any(Place),
    Is(Term),
}
