//! What the states of a derivation tell of each run. Laws alone, each the contract of a function that
//! does nothing.
#![tactic(auto)]

ghost use Rattle.cap_outline_laws.specs.Laws.{DerivationsOutline};

/// A law: by a valid derivation of a program each run of it, from each start, of every length and
/// along every schedule, has accounts as those of a safe program, by which, whenever a thread comes
/// to a statement, one of the derivation's states at the statement holds of its frame.
pub fn derivations_outline()
    ensures { DerivationsOutline }
{}
