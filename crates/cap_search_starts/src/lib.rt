//! A law of starts of a program, the contract of a function that does nothing.
#![tactic(auto)]

ghost use Rattle.cap_search_starts.specs.Laws.{EmptyStartsAreNone};

/// Where the precondition of `main` is found empty, no start meets it: no arguments, no heap and no
/// values of its names. That is said of preconditions whose terms are in order.
pub fn empty_starts_are_none()
    ensures { EmptyStartsAreNone }
{}
