//! Laws of closures, each the contract of a function that does nothing.
#![tactic(auto)]

ghost use Rattle.cap_closure_laws.specs.Largest.{ClosuresAreLargest};

/// The candidates that a closure leaves settle the fact, and are the largest list of candidates
/// that does: where no decision on the way and no term of an action's system passes a limit, and
/// the state's lists have room for what is added to them.
pub fn closures_are_largest()
    ensures { ClosuresAreLargest }
{}
