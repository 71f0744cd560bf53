//! The search for derivations, said by definitions: the tree that it finds, the goals that it visits
//! in their order, and the verdict on a unit; and laws of them, each the contract of a function that
//! does nothing.
#![tactic(auto)]

ghost use Rattle.cap_search_spec.specs.Laws.{
  FoundAreFirst,
  FirstAreGuided,
  FirstAreUnique,
  GuidedAreDerivations,
  GuidedAreFound,
  ProvedAreValid,
  DeepIsSeen,
  StuckIsFurthest,
  WalksFollowVisits,
  WalksTellVerdicts,
};

/// The trees of a unit that is proved take the first possible choice at each node.
pub fn found_trees_are_first()
    ensures { FoundAreFirst }
{}

/// Such a tree takes an offered choice at each node.
pub fn first_trees_are_guided()
    ensures { FirstAreGuided }
{}

/// There is one such tree of a goal.
pub fn first_trees_are_unique()
    ensures { FirstAreUnique }
{}

/// A guided tree is a derivation: each choice applies, its children are trees of its subgoals, and no
/// node is too deep.
pub fn guided_trees_are_derivations()
    ensures { GuidedAreDerivations }
{}

/// Where each root has a guided tree and the cost is within the budget, the unit is proved.
pub fn guided_trees_are_found()
    ensures { GuidedAreFound }
{}

/// Where all units are proved, their trees are a valid derivation of the program.
pub fn proved_units_are_valid()
    ensures { ProvedAreValid }
{}

/// Deep comes only where a visit is too deep.
pub fn deep_visits_are_seen()
    ensures { DeepIsSeen }
{}

/// Stuck comes only within the budget and without a cause before it, with the first leaf of the
/// failing tree among those with the greatest number.
pub fn stuck_leaves_are_furthest()
    ensures { StuckIsFurthest }
{}

/// The record that a search keeps goes over the visits of the search, in their order.
pub fn walks_follow_visits()
    ensures { WalksFollowVisits }
{}

/// The verdict is told by the record at the end of a search, and by the trees that were found.
pub fn walks_tell_verdicts()
    ensures { WalksTellVerdicts }
{}
