//! Laws of the definitions of the rules: where the parts of all terms of a goal ascend, they do in all
//! that a rule makes of it, and in the roots of a program.
#![tactic(auto)]

ghost use Rattle.cap_rules_ascending.specs.Laws.{OwedAscend, SubgoalsAscend, RootsAscend};

/// In all lists of rows that a choice owes the terms ascend, where those of its goal do.
pub fn owed_rows_ascend()
    ensures { OwedAscend }
{}

/// The terms of subgoals ascend, where those of their goal do.
pub fn subgoals_ascend()
    ensures { SubgoalsAscend }
{}

/// The terms of the roots of a program ascend, where those that its region types write do.
pub fn roots_ascend()
    ensures { RootsAscend }
{}
