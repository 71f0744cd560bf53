//! Laws of what choices prove, also where some of their marks are 0; each is the contract of a function
//! that does nothing.
#![tactic(auto)]

ghost use Rattle.cap_rules_marks.specs.Proven.{ProvenHaveSubgoals, SubgoalsAreProven};

use cap_rules::{subgoals_succeed, successes_are_subgoals};

/// A choice that has subgoals proves what its rule owes: there is one certificate or mark for each
/// owed list, each certificate and each mark that isn't 0 refutes its list, and there is room for the
/// variables of the marks 0.
pub fn subgoals_are_proven()
    ensures { SubgoalsAreProven }
{
    subgoals_succeed();
}

/// A choice that proves what its rule owes has subgoals.
pub fn proven_have_subgoals()
    ensures { ProvenHaveSubgoals }
{
    successes_are_subgoals();
}
