//! Region types: parameters, guards, cases and actions.
use crate::assertion::{Asked, Assertion, Comp};
use cap_galg::Algebra;
use cap_lin::{Sort, Term};
use cap_syntax::{Place, Text};

/// A type of shared regions: its name, the number of its parameters, of which the first is the region
/// itself, the algebra of its guards and the names of the algebra's atoms, its cases and its actions,
/// and the place of its first token. Its variables are its parameters, numbered from 0, and then the
/// names of the case or the action at hand.
pub struct RegionType {
    pub name: Text,
    pub params: u32,
    pub algebra: Algebra,
    pub atoms: Vec<Text>,
    pub cases: Vec<Case>,
    pub actions: Vec<Action>,
    pub place: Place,
}

impl Drop for RegionType {
    fn drop(self) {
        let RegionType {
            name: _,
            params: _,
            algebra: _,
            atoms: _,
            cases: _,
            actions: _,
            place: _,
        } = self;
    }
}

/// A case of an interpretation: where the state is that of the term and the comparisons hold, the
/// region owns the items. It has the sorts of its names; its place is that of its term.
pub struct Case {
    pub names: Vec<Sort>,
    pub state: Term,
    pub when: Vec<Comp>,
    pub items: Assertion,
    pub place: Place,
}

impl Drop for Case {
    fn drop(self) {
        let Case {
            names: _,
            state: _,
            when: _,
            items: _,
            place: _,
        } = self;
    }
}

/// An action: where the comparisons hold, who has the guards may change the state from the source to
/// the target. A guard is an atom's number with what is asked of it. It has the sorts of its names;
/// its place is that of its guards.
pub struct Action {
    pub names: Vec<Sort>,
    pub guards: Vec<(u32, Asked)>,
    pub source: Term,
    pub target: Term,
    pub when: Vec<Comp>,
    pub place: Place,
}

impl Drop for Action {
    fn drop(self) {
        let Action {
            names: _,
            guards: _,
            source: _,
            target: _,
            when: _,
            place: _,
        } = self;
    }
}
