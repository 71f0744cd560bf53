//! What a search that failed still had to show, and where.
use cap_syntax::Place;

/// What a goal lacks for which no choice is offered.
#[derive(Clone, Copy, Debug, PartialEq, Eq)]
pub enum Need {
    Fact,
    Cell,
    Region,
    Guard,
    Move,
    State,
}

/// What is left open: the place of the statement at which it arose, what is needed there, and the
/// place of the item that needs it.
#[derive(Clone, Copy, Debug, PartialEq, Eq)]
pub struct Obligation {
    pub statement: Place,
    pub need: Need,
    pub item: Place,
}
