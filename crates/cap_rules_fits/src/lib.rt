//! Laws of states and goals that fit a program, each the contract of a function that does nothing.
#![tactic(auto)]

ghost use Rattle.cap_rules_fits.specs.Roots.{RootsFit};
ghost use Rattle.cap_rules_fits.specs.Kept.{RootsAreKept, SubgoalsAreKept};

/// The goals from which the trees of a program's units grow fit the program.
pub fn roots_fit()
    ensures { RootsFit }
{}

/// They are kept: they fit the program, and none of them is in the middle of closing a region.
pub fn roots_are_kept()
    ensures { RootsAreKept }
{}

/// Where a goal is kept, that is, fits the program and checks a move before all but what the move
/// gives up, the subgoals of each choice are kept.
pub fn subgoals_are_kept()
    ensures { SubgoalsAreKept }
{}
