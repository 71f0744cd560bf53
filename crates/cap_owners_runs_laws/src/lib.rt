//! What is promised of runs with their accounts, and of their texts. Laws alone, each the contract
//! of a function that does nothing.
#![tactic(auto)]

ghost use Rattle.cap_owners_laws.specs.Owned.{RunsAreOwned, StartsAreTold, TextsAreOwned};
ghost use Rattle.cap_owners_runs_laws.specs.Laws.{ProgramsAreTextual};

use cap_owners_laws::owned_runs_are_shown;

/// A law: by a valid derivation of a textual program each run from each start that is met, of every
/// length and along every schedule, has a track, unless a number leaves its bounds: no step is a
/// fault, each account is valid and follows the one before by the step, calls, forks and returns
/// meet their contracts, and each frame is at a node of the derivation whose state holds of it.
pub fn runs_are_owned()
    ensures { RunsAreOwned }
{}

/// A law: in a text's program main asks for comparisons and cells alone, each name of which gets
/// its value from the first cell in whose slot it stands. So by a valid derivation it is told of
/// each start whether it is met, unless a number leaves 128 bits.
pub fn starts_are_told()
    ensures { StartsAreTold }
{}

/// A law: the text of a run with its accounts shows just that, and is none only where the arguments
/// and the heap are no start of main.
pub fn texts_are_owned()
    ensures { TextsAreOwned }
{
    runs_are_owned();
    starts_are_told();
    owned_runs_are_shown();
}

/// A law: the programs that trees of texts stand for are textual.
pub fn programs_are_textual()
    ensures { ProgramsAreTextual }
{}
