//! What a choice leaves of a goal.
ghost use Rattle.std.specs.Prelude.{◌≡◌, ◌≢◌, IfOk, None, option_map};
ghost use Rattle.std.specs.Prelude.{[], length};
ghost use Rattle.cap_prog.specs.Views.{program_view};
ghost use Rattle.cap_goal_spec.specs.Fits.{HasRoom};
ghost use Rattle.cap_goal.specs.Views.{goal_view, choice_view};
ghost use Rattle.cap_rules_steps.specs.Goals.{goals_view};
ghost use Rattle.cap_rules_steps.specs.declared.error.RuleError.TheVariants.{OutOfMemory};
ghost use Rattle.cap_rules_fits.specs.Kept.{IsKept};
ghost use Rattle.cap_kernel_check_steps.specs.Views.{AreKept};
ghost use Rattle.cap_kernel_check_steps.specs.Walks.{Leaves};

use cap_goal::{Choice, Goal};
use cap_kernel::subgoals;
use cap_prog::{Program, well_formed};
use cap_rules_fits::subgoals_are_kept;
use cap_rules_steps::RuleError;
use std::alloc::{AllocError, Global};

// Where a choice has no subgoals, it doesn't apply, or memory is wanting.
fn refused<'a>(error: RuleError) -> Result<Option<Vec<Goal<'a>>>, AllocError>
    ensures { IfOk result (λ o. (o ≡ None) × (error ≢ OutOfMemory)) }
{
    match error {
        RuleError::OutOfMemory => Err(AllocError),
        RuleError::NotApplicable | RuleError::Wide(_, _) => Ok(None),
    }
}

/// What a choice leaves of a goal whose state has room, which is kept where the goal is; none where
/// the choice doesn't apply, or a term of it is past 128 bits. The only error is want of memory.
#[inline(never)]
pub fn goals_left<'a>(
    alloc: Global,
    program: &'a Program,
    goal: &Goal<'a>,
    choice: &Choice,
) -> Result<Option<Vec<Goal<'a>>>, AllocError>
    requires { HasRoom goal.now.state }
    ensures left { IfOk result (λ o. Leaves (program_view program.now) (goal_view goal.now)
        (choice_view choice.now) (option_map goals_view o)) }
    ensures kept { IsKept (program_view program.now) (goal_view goal.now)
        → IfOk result (λ o. AreKept (program_view program.now) (option_map goals_view o)) }
{
    well_formed(program);
    subgoals_are_kept();
    match subgoals(alloc, program, goal, choice) {
        Ok(goals) => Ok(Some(goals)),
        Err(error) => refused(error),
    }
}
