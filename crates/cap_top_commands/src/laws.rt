//! Laws: a good answer means a safe program, `check` accepts what `derive` writes, a program that is
//! said to have an empty precondition has no start, a schedule that is drawn ends in a fault, the rows
//! that a proof is said to need are needed, and the states of an outline hold in every run.
ghost use Rattle.cap_top_commands.specs.Answers.{AcceptedAreSafe, DerivedAreAccepted};
ghost use Rattle.cap_top_commands.specs.Answers.{GoodAnswersAreSafe, GoodTrialsAreSafe};
ghost use Rattle.cap_top_commands.specs.Answers.{EmptyAnswersHaveNoStart, IsVerified, IsDerived};
ghost use Rattle.cap_top_commands.specs.Answers.{SafeTextsHaveNoStray, StraysFault};
ghost use Rattle.cap_top_commands.specs.Needed.{CoresAreTold};
ghost use Rattle.cap_top_commands.specs.Outlines.{CheckedAreOutlined, OutlinesAreTold};

use cap_account::derivations_are_sound;
use cap_deriv_write::readings_are_lines;
use cap_gen_schedules::{
    found_schedules_are_read_back, found_schedules_fault, safe_programs_have_none,
};
use cap_kernel_check::{judged_are_valid, judgements_are_one};
use cap_outline_laws::derivations_outline;
use cap_search_starts::empty_starts_are_none;
use cap_top_reading::programs_of_texts_are_well_formed;
use cap_top_report::{found_trees_are_valid, proved_have_cores};

/// A law: what `verify` says with a good status is said of the text of a program that is safe.
pub fn good_answers_are_safe()
    ensures { GoodAnswersAreSafe }
{
    derivations_are_sound();
    found_trees_are_valid();
    programs_of_texts_are_well_formed();
}

/// A law: what a trial says with a good status is said of the text of a program that is safe.
pub fn good_trials_are_safe()
    ensures { GoodTrialsAreSafe }
{
    derivations_are_sound();
    found_trees_are_valid();
    programs_of_texts_are_well_formed();
}

/// A law: what `check` says with a good status is said of a valid derivation of a program that is
/// safe.
pub fn accepted_are_safe()
    ensures { AcceptedAreSafe }
{
    derivations_are_sound();
    judged_are_valid();
    readings_are_lines();
    programs_of_texts_are_well_formed();
}

/// A law: what `derive` says of a text's program with a good status is accepted by `check` of that
/// program.
pub fn derived_are_accepted()
    ensures { DerivedAreAccepted }
{
    found_trees_are_valid();
    judged_are_valid();
    judgements_are_one();
    readings_are_lines();
}

/// A law: where `verify` or `derive` says of a text that the precondition of `main` is empty, no
/// start of its program meets it.
pub fn empty_answers_have_no_start()
    ensures verified { EmptyAnswersHaveNoStart IsVerified }
    ensures derived { EmptyAnswersHaveNoStart IsDerived }
{
    empty_starts_are_none();
    programs_of_texts_are_well_formed();
}

/// A law: what `stray` says with status 1 is a schedule along which the program of the text comes to
/// a fault at the last entry.
pub fn strays_fault()
    ensures { StraysFault }
{
    found_schedules_fault();
    found_schedules_are_read_back();
}

/// A law: `stray` says no schedule of the text of a safe program.
pub fn safe_texts_have_no_stray()
    ensures { SafeTextsHaveNoStray }
{
    safe_programs_have_none();
}

/// A law: what `core` says of the text of a program is its report with the lines of its proofs, each
/// of which names the rows that this proof can't do without, and that suffice.
pub fn cores_are_told()
    ensures { CoresAreTold }
{
    good_answers_are_safe();
    proved_have_cores();
    programs_of_texts_are_well_formed();
}

/// A law: `outline` says something of all lines of which `check` does, and with the same status.
pub fn checked_are_outlined()
    ensures { CheckedAreOutlined }
{
    judged_are_valid();
}

/// A law: what `outline` says of a text's program with a good status is the outline of a valid
/// derivation, whose states hold in every run of that program.
pub fn outlines_are_told()
    ensures { OutlinesAreTold }
{
    derivations_are_sound();
    derivations_outline();
    readings_are_lines();
    programs_of_texts_are_well_formed();
}
