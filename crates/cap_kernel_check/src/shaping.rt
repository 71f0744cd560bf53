//! The trees that have choices in preorder.
ghost use Rattle.std.specs.Prelude.{◌≡◌, ◌≢◌, Err, IfErr, IfOk, length, map};
ghost use Rattle.cap_prog.specs.Views.{program_view};
ghost use Rattle.cap_goal.specs.Trees.{bundle_view};
ghost use Rattle.cap_goal.specs.Views.{choice_view};
ghost use Rattle.cap_rules.specs.Valid.{Valid};
ghost use Rattle.cap_kernel_check_steps.specs.declared.error.CheckError.TheVariants.{OutOfMemory};
ghost use Rattle.cap_kernel_check_steps.specs.Judges.{Judged};
ghost use Rattle.cap_kernel_check_steps.specs.Owed.{preorder};

use crate::gather::starts;
use cap_goal::{Bundle, Choice};
use cap_kernel_check_steps::{CheckError, shape_at};
use cap_prog::Program;
use std::alloc::Global;

/// The valid trees of a program that have these choices in preorder: a judge accepts the choices
/// of so many trees exactly where there are such, and they are the only ones. Otherwise it answers
/// as the judge does.
pub fn shape(
    alloc: Global,
    program: &Program,
    trees: u32,
    choices: &[Choice],
) -> Result<Bundle, CheckError>
    ensures valid { IfOk result (λ b. Valid (program_view program.now) (bundle_view b)) }
    ensures many { IfOk result (λ b. length (bundle_view b) ≡ trees) }
    ensures choices { IfOk result (λ b. preorder (bundle_view b) ≡ map choice_view choices.now) }
    ensures refused { IfErr result (λ e. e ≢ OutOfMemory →
        Judged (program_view program.now) trees (map choice_view choices.now) (Err e)) }
{
    let starts = starts(alloc, program)?;
    if starts.len() != trees as usize {
        return Err(CheckError::Shape(1));
    }
    shape_at(alloc, program, &starts, choices)
}
