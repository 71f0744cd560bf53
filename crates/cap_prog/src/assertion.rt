//! Comparisons, slots, guards and assertions over numbered variables.
use cap_lin::{Op, Sort, Term};
use cap_syntax::Place;

/// A comparison: its two sides, their sort, and the place of the left one.
pub struct Comp {
    pub left: Term,
    pub op: Op,
    pub right: Term,
    pub sort: Sort,
    pub place: Place,
}

impl Drop for Comp {
    fn drop(self) {
        let Comp {
            left: _,
            op: _,
            right: _,
            sort: _,
            place: _,
        } = self;
    }
}

/// A value that an assertion states: any at all, which is written `_`, or that of a term.
#[derive(Drop)]
pub enum Slot {
    Any,
    Is(Term),
}

/// What is asked of a guard: the whole of a unique one; an amount of a divisible one; of a counting
/// one the source with a count of tokens out, or a count of tokens; of an indexed one an index, or
/// all indices from one on.
pub enum Asked {
    One,
    Share(Slot),
    Src(Slot),
    Tok(Slot),
    At(Slot),
    From(Slot),
}

impl Drop for Asked {
    fn drop(self) {
        match self {
            Asked::One
            | Asked::Share(_)
            | Asked::Src(_)
            | Asked::Tok(_)
            | Asked::At(_)
            | Asked::From(_) => {}
        }
    }
}

/// An item of an assertion. A variable is numbered as in the terms around it; region types,
/// functions and the atoms of a region type are numbered from 0.
#[cycle(assertion)]
pub enum Item {
    Compare(Comp),
    /// A conditional: the items where its comparison holds, and those where it does not. Neither side
    /// has names of its own.
    Choose(Comp, Assertion, Assertion),
    /// A region fact: its place, the variable that names the region, its type, its arguments without
    /// the region, and its state.
    Fact(Place, u32, u32, Vec<Slot>, Slot),
    /// A guard atom: its place, the variable that names the region, its type, the atom, and what is
    /// asked of it.
    Atom(Place, u32, u32, u32, Asked),
    /// A cell: its place, its address, and what it holds.
    Cell(Place, Term, Slot),
}

impl Drop for Item {
    fn drop(self) {
        match self {
            Item::Compare(_)
            | Item::Choose(_, _, _)
            | Item::Fact(_, _, _, _, _)
            | Item::Atom(_, _, _, _, _)
            | Item::Cell(_, _, _) => {}
        }
    }
}

/// An assertion: the sorts of the names that are new in it, and its items. The names belong to what
/// follows `ensures` or `invariant`; other assertions have none, and contracts see only their items.
#[cycle(assertion)]
#[derive(Drop)]
pub struct Assertion {
    pub names: Vec<Sort>,
    pub items: Vec<Item>,
}
