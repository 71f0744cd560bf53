//! Trees of guards, items and assertions.
// Assertions. Each node has, in the order of the text, the places of its own tokens and its parts.

use crate::list::Separated;
use crate::term::{Comparison, Slot, Term};
use crate::word::Word;
use cap_syntax::Place;

/// `src`, `tok`, `at` or `from`.
#[derive(Clone, Copy, Debug, PartialEq, Eq)]
pub enum Counted {
    Source,
    Tokens,
    At,
    From,
}

/// A guard's name alone, with an amount in brackets, or with a count or an index in brackets behind
/// `src`, `tok`, `at` or `from`.
pub enum GuardAtom {
    Alone(Word),
    Amount(Word, Place, Slot, Place),
    Count(Counted, Place, Word, Place, Slot, Place),
}

impl Drop for GuardAtom {
    fn drop(self) {
        match self {
            GuardAtom::Alone(_)
            | GuardAtom::Amount(_, _, _, _)
            | GuardAtom::Count(_, _, _, _, _, _) => {}
        }
    }
}

/// Guards with `*` between them, in parentheses or not.
pub enum Guards {
    Bare(Separated<GuardAtom>),
    Bracketed(Place, Separated<GuardAtom>, Place),
}

impl Drop for Guards {
    fn drop(self) {
        match self {
            Guards::Bare(_) | Guards::Bracketed(_, _, _) => {}
        }
    }
}

/// A part of an assertion. `Fact` is a region type's name, `(`, the region, a comma and a slot for
/// each argument, `;`, the slot of the state, `)`. `Guards` is a region, `@`, its guards. `Cell` is an
/// address, `|->`, a slot. `Choose` is a comparison, `?`, a side, `:`, the other side.
#[cycle(items)]
pub enum Item {
    True(Place),
    False(Place),
    Fact(Word, Place, Word, Vec<(Place, Slot)>, Place, Slot, Place),
    Guards(Word, Place, Guards),
    Cell(Term, Place, Slot),
    Compare(Comparison),
    Choose(Comparison, Place, Side, Place, Side),
}

impl Drop for Item {
    #[cycle(dropped_items)]
    fn drop(self) {
        match self {
            Item::True(_)
            | Item::False(_)
            | Item::Fact(_, _, _, _, _, _, _)
            | Item::Guards(_, _, _)
            | Item::Cell(_, _, _)
            | Item::Compare(_)
            | Item::Choose(_, _, _, _, _) => {}
        }
    }
}

/// `&*&`, and an item.
#[cycle(items)]
#[derive(Drop)]
pub struct And {
    pub place: Place,
    pub item: Item,
}

/// Items with `&*&` between them.
#[cycle(items)]
#[derive(Drop)]
pub struct Assertion {
    pub first: Item,
    pub more: Vec<And>,
}

/// An assertion in braces.
#[cycle(items)]
#[derive(Drop)]
pub struct Side {
    pub open: Place,
    pub assertion: Box<Assertion>,
    pub close: Place,
}

/// A keyword, an assertion, `;`.
#[derive(Drop)]
pub struct Clause {
    pub key: Place,
    pub assertion: Assertion,
    pub semicolon: Place,
}
