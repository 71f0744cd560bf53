//! The judge of a derivation's lines, one after another.
ghost use Rattle.std.specs.Prelude.{◌≡◌, ◌≢◌, IfOk, MatchResult};
ghost use Rattle.cap_deriv.specs.declared.cursor.DerivError.TheVariants.{OutOfMemory};
ghost use Rattle.cap_top_commands.specs.Output.{bad_derivation_output};
ghost use Rattle.cap_prog.specs.Views.{program_view};
ghost use Rattle.cap_goal.specs.Views.{choice_view};
ghost use Rattle.cap_kernel_check_steps.specs.Judges.{JudgesNext};
ghost use Rattle.cap_kernel_check.specs.JudgeViews.{judge_view};
ghost use Rattle.cap_top_commands.specs.Answers.{IsOnly};
ghost use Rattle.cap_top_commands.specs.Derivations.{IsChecked};
ghost use Rattle.cap_top_commands.specs.Views.{output_view};

use crate::output::Output;
use cap_deriv::{Cursor, DerivError};
use cap_goal::Choice;
use cap_kernel_check::{Judge, judgements_are_one};
use cap_prog::Program;
use std::alloc::{AllocError, Global};

/// What is said of bytes that are no derivation's lines, unless for want of memory, which is the
/// only error.
pub fn bad_lines<'a>(error: DerivError) -> Result<Output<'a>, AllocError>
    ensures { MatchResult result
        (λ o. (output_view o ≡ bad_derivation_output error) × (error ≢ OutOfMemory))
        (λ _. error ≡ OutOfMemory) }
{
    match error {
        DerivError::OutOfMemory => Err(AllocError),
        error => Ok(Output::BadDerivation(error)),
    }
}

/// Takes a choice to the judge.
fn take(judge: &mut Judge<'_>, choice: Choice) -> Result<(), AllocError>
    ensures { IfOk result (λ _. JudgesNext
        (judge_view judge.old) (choice_view choice) (judge_view judge.new)) }
{
    judge.push(&choice)
}

/// What is said of a derivation of these bytes, of a program. It is judged line by line, and no more
/// is kept than what is owed after the lines so far. A bad line is refused wherever a node failed.
/// The only error is want of memory.
pub fn check<'a>(alloc: Global, program: &Program, bytes: &[u8]) -> Result<Output<'a>, AllocError>
    ensures { IfOk result (λ o.
        IsOnly (IsChecked (program_view program.now) bytes.now) (output_view o)) }
{
    judgements_are_one();
    let mut cursor = match Cursor::start(alloc, bytes) {
        Ok(cursor) => cursor,
        Err(error) => return bad_lines(error),
    };
    let mut judge = Judge::start(alloc, program, cursor.trees())?;
    'lines: loop {
        match cursor.next() {
            Ok(Some(choice)) => take(&mut judge, choice)?,
            Ok(None) => return Ok(Output::Judged(judge.finish())),
            Err(error) => return bad_lines(error),
        }
    }
}
