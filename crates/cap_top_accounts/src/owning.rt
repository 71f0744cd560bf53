//! What is answered to `owners`.
ghost use Rattle.std.specs.Prelude.{◌≡◌, ◌≢◌, ◌≤◌, ℕ, List, IfOk, IsSomeAnd, MatchResult, map};
ghost use Rattle.std.specs.Prelude.{Ok, length, pos, slice_get};
ghost use Rattle.cap_prog.specs.Views.{program_view};
ghost use Rattle.cap_goal.specs.Trees.{bundle_view};
ghost use Rattle.cap_goal.specs.Views.{choice_view};
ghost use Rattle.cap_rules.specs.Valid.{Valid};
ghost use Rattle.cap_machine.specs.Cells.{AscendsFrom};
ghost use Rattle.cap_replay_schedules.specs.Reading.{most_entries, IsReadAs, read};
ghost use Rattle.cap_replay_schedules.specs.declared.reading.ScheduleError.TheVariants.{OutOfMemory};
ghost use Rattle.cap_owners_spec.specs.Owners.{owners_text};
ghost use Rattle.cap_top_commands.specs.Answers.{IsOnly};
ghost use Rattle.cap_top_commands.specs.Output.{owners_output, schedule_output};
ghost use Rattle.cap_top_commands.specs.Owners.{IsOwners};
ghost use Rattle.cap_top_commands.specs.Views.{output_view};

use cap_deriv::Lines;
use cap_goal::Bundle;
use cap_kernel_check::{judged_are_valid, judgements_are_one, shape, valid_trees_are_one};
use cap_owners::{OwnersError, owners as owners_of};
use cap_prog::Program;
use cap_replay::Played;
use cap_replay_schedules::{Schedule, ScheduleError, fits, read_schedule};
use cap_top_commands::{Output, rejected};
use std::alloc::{AllocError, Global};

/// What is said of bytes that are no schedule, unless for want of memory.
fn bad_schedule<'a>(error: ScheduleError) -> Result<Output<'a>, AllocError>
    ensures { MatchResult result
        (λ o. (output_view o ≡ schedule_output error) × (error ≢ OutOfMemory))
        (λ _. error ≡ OutOfMemory) }
{
    match error {
        ScheduleError::OutOfMemory => Err(AllocError),
        error => Ok(Output::BadSchedule(error)),
    }
}

/// What is said of a run along a schedule, by a derivation that is valid.
fn owners_by<'a>(
    alloc: Global,
    program: &Program,
    bundle: &Bundle,
    schedule: &Schedule,
) -> Result<Output<'a>, AllocError>
    requires valid { Valid (program_view program.now) (bundle_view bundle.now) }
    requires arguments { let p = program_view program.now in
        IsSomeAnd (slice_get p.functions p.main) (λ f. length schedule.now.args.items ≡ f.params) }
    requires addresses { AscendsFrom (pos 0) schedule.now.heap.items }
    requires entries { length schedule.now.entries.items ≤ most_entries }
    ensures { IfOk result (λ o. output_view o ≡ owners_output
        (owners_text (program_view program.now) (bundle_view bundle.now) schedule.now)) }
{
    match owners_of(alloc, program, bundle, schedule) {
        Ok(owned) => Ok(Output::Played(Played {
            text: owned.text,
            end: owned.end,
        })),
        Err(OwnersError::Start) => Ok(Output::NoStart),
        Err(OwnersError::OutOfMemory) => Err(AllocError),
    }
}

/// What is said of a derivation with these lines, and of a schedule for the program. Once the trees
/// of the lines are known the lines are dropped, as they may be long.
fn owners_along<'a>(
    alloc: Global,
    program: &Program,
    lines: Lines,
    schedule: &Schedule,
) -> Result<Output<'a>, AllocError>
    requires arguments { let p = program_view program.now in
        IsSomeAnd (slice_get p.functions p.main) (λ f. length schedule.now.args.items ≡ f.params) }
    requires addresses { AscendsFrom (pos 0) schedule.now.heap.items }
    requires entries { length schedule.now.entries.items ≤ most_entries }
    ensures { let p = program_view program.now in
        let choices = map choice_view lines.choices.items in
        (bytes : List ℕ) → IsReadAs (Ok schedule.now) (read bytes)
        → IfOk result (λ o. IsOnly (IsOwners p lines.trees choices bytes) (output_view o)) }
{
    judged_are_valid();
    judgements_are_one();
    valid_trees_are_one();
    let found = shape(alloc, program, lines.trees, &lines.choices);
    drop(lines);
    match found {
        Ok(bundle) => owners_by(alloc, program, &bundle, schedule),
        Err(error) => rejected(error),
    }
}

/// What is said of a derivation with these lines, of a program, and of the bytes of a schedule: why
/// they are none for the program; what `check` says of the lines, where they are not accepted; that
/// the start is none; or what the run along the schedule writes, with who owns what at its start
/// and after each step. The only error is want of memory.
pub fn owners<'a>(
    alloc: Global,
    program: &Program,
    lines: Lines,
    bytes: &[u8],
) -> Result<Output<'a>, AllocError>
    ensures { let p = program_view program.now in
        let choices = map choice_view lines.choices.items in
        IfOk result (λ o. IsOnly (IsOwners p lines.trees choices bytes.now) (output_view o)) }
{
    match read_schedule(alloc, bytes) {
        Ok(schedule) => {
            if fits(program, &schedule) {
                owners_along(alloc, program, lines, &schedule)
            } else {
                Ok(Output::BadSchedule(ScheduleError::BadLine(1)))
            }
        }
        Err(error) => bad_schedule(error),
    }
}
