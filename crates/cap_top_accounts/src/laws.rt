//! Laws: what the text of a run with its accounts shows, that a start is refused only where it is
//! none, and that there is an answer to each schedule.
ghost use Rattle.cap_top_accounts.specs.Laws.{AcceptedHaveTrees, JudgedHaveOwners};
ghost use Rattle.cap_top_accounts.specs.Laws.{OwnersAreTold, RefusedStartsAreNone};

use cap_account::derivations_are_sound;
use cap_deriv_write::readings_are_lines;
use cap_kernel_check::judged_are_valid;
use cap_owners_laws::starts_are_exact;
use cap_owners_runs_laws::{programs_are_textual, texts_are_owned};
use cap_top_reading::programs_of_texts_are_well_formed;

/// A law: what `owners` says of the text of a program, where it is the text of a run, is what that
/// program's run along the schedule writes, with its accounts by a valid derivation: no step is a
/// fault, each has its line, and behind it comes the account after it, which is valid, has a track
/// along the derivation, and follows the one before.
pub fn owners_are_told()
    ensures { OwnersAreTold }
{
    derivations_are_sound();
    readings_are_lines();
    programs_of_texts_are_well_formed();
    texts_are_owned();
    programs_are_textual();
}

/// A law: a start is refused only where it is none: whatever values the names of `main`'s
/// `requires` have, it isn't met.
pub fn refused_starts_are_none()
    ensures { RefusedStartsAreNone }
{
    starts_are_exact();
}

/// A law: `owners` says something of each schedule for a program and of all choices that are
/// judged.
pub fn judged_have_owners()
    ensures { JudgedHaveOwners }
{
    judged_are_valid();
}

/// A law: lines that `check` accepts are those of valid trees.
pub fn accepted_have_trees()
    ensures { AcceptedHaveTrees }
{
    judged_are_valid();
}
