//! Trees of region types: guards, cases and actions.
// Region types. Each node has, in the order of the text, the places of its own tokens and its parts.

use crate::assertion::{Assertion, GuardAtom};
use crate::list::{Group, Separated};
use crate::term::{Comparison, Term};
use crate::word::Word;
use cap_syntax::Place;

/// A guard that a region type declares: `G`, `%G`, `|G|`, `[G]`, or an algebra in parentheses.
#[cycle(algebras)]
#[derive(Drop)]
pub enum Declared {
    Unique(Word),
    Divisible(Place, Word),
    Counting(Place, Word, Place),
    Indexed(Place, Word, Place),
    Bracketed(Place, Box<Algebra>, Place),
}

/// `*`, and a guard.
#[cycle(algebras)]
#[derive(Drop)]
pub struct Both {
    pub star: Place,
    pub declared: Declared,
}

/// Guards with `*` between them.
#[cycle(algebras)]
#[derive(Drop)]
pub struct Joint {
    pub first: Declared,
    pub more: Vec<Both>,
}

/// `+`, and a product of guards.
#[cycle(algebras)]
#[derive(Drop)]
pub struct Either {
    pub plus: Place,
    pub joint: Joint,
}

/// Products of guards with `+` between them.
#[cycle(algebras)]
pub struct Algebra {
    pub first: Joint,
    pub more: Vec<Either>,
}

impl Drop for Algebra {
    #[cycle(dropped_algebras)]
    fn drop(self) {
        let Algebra { first: _, more: _ } = self;
    }
}

/// `when`, and comparisons with commas between them.
pub struct When {
    pub key: Place,
    pub comparisons: Separated<Comparison>,
}

impl Drop for When {
    fn drop(self) {
        let When {
            key: _,
            comparisons: _,
        } = self;
    }
}

/// A state, perhaps conditions, `:`, what the region then owns, `;`.
pub struct Case {
    pub state: Term,
    pub when: Option<When>,
    pub colon: Place,
    pub assertion: Assertion,
    pub semicolon: Place,
}

impl Drop for Case {
    fn drop(self) {
        let Case {
            state: _,
            when: _,
            colon: _,
            assertion: _,
            semicolon: _,
        } = self;
    }
}

/// Guards with `*` between them, `:`, the state before, `~>`, the state behind, perhaps conditions,
/// `;`.
pub struct Action {
    pub guards: Separated<GuardAtom>,
    pub colon: Place,
    pub source: Term,
    pub arrow: Place,
    pub target: Term,
    pub when: Option<When>,
    pub semicolon: Place,
}

impl Drop for Action {
    fn drop(self) {
        let Action {
            guards: _,
            colon: _,
            source: _,
            arrow: _,
            target: _,
            when: _,
            semicolon: _,
        } = self;
    }
}

/// A region type: `region`, its name, its parameters in parentheses, and in braces `guards`, an
/// algebra, `;`, the cases and the actions.
pub struct Region {
    pub key: Place,
    pub name: Word,
    pub open: Place,
    pub parameters: Separated<Word>,
    pub close: Place,
    pub brace: Place,
    pub guards: Place,
    pub algebra: Algebra,
    pub semicolon: Place,
    pub cases: Group<Case>,
    pub actions: Group<Action>,
    pub end: Place,
}

impl Drop for Region {
    fn drop(self) {
        let Region {
            key: _,
            name: _,
            open: _,
            parameters: _,
            close: _,
            brace: _,
            guards: _,
            algebra: _,
            semicolon: _,
            cases: _,
            actions: _,
            end: _,
        } = self;
    }
}
