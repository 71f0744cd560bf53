//! Laws of drawn schedules, each the contract of a function that does nothing.
ghost use Rattle.cap_gen_schedules.specs.Laws.{FoundSchedulesFault, FoundSchedulesAreWithinLimits};
ghost use Rattle.cap_gen_schedules.specs.Laws.{FoundSchedulesAreReadBack, SafeProgramsHaveNone};

use cap_replay_schedules::written_schedules_are_read_back;

/// The run along a schedule that is found ends in a fault, at its last entry.
pub fn found_schedules_fault()
    ensures { FoundSchedulesFault }
{}

/// A schedule that is found is within the limits of those that are read back: its numbers are within
/// their bits, and it has no arguments, no cells and no more entries than a schedule may have.
pub fn found_schedules_are_within_limits()
    ensures { FoundSchedulesAreWithinLimits }
{}

/// What is written of a schedule that is found is read as that schedule.
pub fn found_schedules_are_read_back()
    ensures { FoundSchedulesAreReadBack }
{
    written_schedules_are_read_back();
    found_schedules_are_within_limits();
}

/// No schedule is found of a safe program whose `main` has no parameters and an empty `requires`.
pub fn safe_programs_have_none()
    ensures { SafeProgramsHaveNone }
{}
