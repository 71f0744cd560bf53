//! What is answered to `outline`.
ghost use Rattle.std.specs.Prelude.{◌≡◌, ◌≢◌, ℕ, List, Err, IfOk, MatchResult, map};
ghost use Rattle.cap_prog.specs.Views.{program_view};
ghost use Rattle.cap_goal.specs.Views.{choice_view};
ghost use Rattle.cap_deriv.specs.Told.{told_by_bytes, opening_told, choices_told, all_told};
ghost use Rattle.cap_kernel_check_steps.specs.declared.error.CheckError.TheVariants.{OutOfMemory};
ghost use Rattle.cap_top_commands.specs.Answers.{IsOnly};
ghost use Rattle.cap_top_commands.specs.Outlines.{IsOutline};
ghost use Rattle.cap_top_commands.specs.Output.{judged_output};
ghost use Rattle.cap_top_commands.specs.Views.{output_view};

use crate::checking::bad_lines;
use crate::output::Output;
use cap_deriv::{Lines, read};
use cap_kernel_check::{
    CheckError, judged_are_valid, judgements_are_one, shape, valid_trees_are_one,
};
use cap_outline::outline as outline_of;
use cap_prog::Program;
use std::alloc::{AllocError, Global};

/// What is said of lines that are not accepted, unless for want of memory, which is the only error.
pub fn rejected<'a>(error: CheckError) -> Result<Output<'a>, AllocError>
    ensures { MatchResult result
        (λ o. (output_view o ≡ judged_output (Err error)) × (error ≢ OutOfMemory))
        (λ _. error ≡ OutOfMemory) }
{
    match error {
        CheckError::OutOfMemory => Err(AllocError),
        error => Ok(Output::Judged(Err(error))),
    }
}

/// What is said of bytes that have these lines. Once their trees are known the lines are dropped,
/// as they may be long.
fn outline_lines<'a>(
    alloc: Global,
    program: &Program,
    lines: Lines,
) -> Result<Output<'a>, AllocError>
    ensures { let choices = map choice_view lines.choices.items in
        (bytes : List ℕ)
        → told_by_bytes bytes ≡ opening_told lines.trees (choices_told choices all_told)
        → IfOk result
        (λ o. IsOnly (IsOutline (program_view program.now) bytes) (output_view o)) }
{
    judged_are_valid();
    judgements_are_one();
    valid_trees_are_one();
    let found = shape(alloc, program, lines.trees, &lines.choices);
    drop(lines);
    match found {
        Ok(bundle) => Ok(Output::Outlined(outline_of(alloc, program, &bundle)?)),
        Err(error) => rejected(error),
    }
}

/// What is said of the outline of a derivation of these bytes, of a program: what `check` says, where
/// it is not accepted, and otherwise the states of its trees at each statement. The only error is
/// want of memory.
pub fn outline<'a>(alloc: Global, program: &Program, bytes: &[u8]) -> Result<Output<'a>, AllocError>
    ensures { IfOk result (λ o.
        IsOnly (IsOutline (program_view program.now) bytes.now) (output_view o)) }
{
    judged_are_valid();
    judgements_are_one();
    match read(alloc, bytes) {
        Ok(lines) => outline_lines(alloc, program, lines),
        Err(error) => bad_lines(error),
    }
}
