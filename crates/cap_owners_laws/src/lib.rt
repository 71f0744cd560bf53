//! What the text of a run with its accounts promises. Laws alone, each the contract of a function
//! that does nothing.
#![tactic(auto)]

ghost use Rattle.cap_owners_laws.specs.Examples.{GuardExamples, StartExamples};
ghost use Rattle.cap_owners_laws.specs.Laws.{
  FramesKeep,
  OthersKeep,
  RunsAreTheMachines,
  StartsAreExact,
};
ghost use Rattle.cap_owners_laws.specs.Owned.{OwnedRunsAreShown};

/// A law: the text goes along the machine's own run. Each step has the line that it has in a
/// replay, and behind it one account, which says of each frame that there is after the step what it
/// has; the run ends where the machine's does, unless it ends before as too wide or as not told of.
pub fn runs_are_the_machines()
    ensures { RunsAreTheMachines }
{}

/// A law: a first track comes only where the arguments and the heap are a start of main, by the
/// values that its fixed names get, and its account is the first one of such a run, of one frame;
/// and a start is refused only where it is none, whatever values the fixed names have.
pub fn starts_are_exact()
    ensures { StartsAreExact }
{}

/// A law: a step leaves the frames of all other threads as they are, with what they own and the
/// values of their fixed names.
pub fn others_keep()
    ensures { OthersKeep }
{}

/// A law: of its own thread a step leaves the frames below the stepping one as they are, but for
/// the caller at a return; that one, and a stepping frame that stays, keep the values of their
/// fixed names.
pub fn frames_keep()
    ensures { FramesKeep }
{}

/// A law: where each run has valid accounts that follow one another, and each start is told of, the
/// text shows just these, behind the line of each step, and ends where the machine does or where a
/// number leaves its bounds; and it is none only where the schedule's start is none.
pub fn owned_runs_are_shown()
    ensures { OwnedRunsAreShown }
{}

/// Examples of texts: a product with an amount, a source and tokens, a set of indices, both sides of
/// a sum and all of one, and shares of names in lowest terms.
pub fn guards_are_shown()
    ensures { GuardExamples }
{}

/// Examples of starts: an argument that main's `requires` excludes, and one at which it is too
/// wide.
pub fn starts_are_refused()
    ensures { StartExamples }
{}
