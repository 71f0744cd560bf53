//! Two subgoals: one in which a comparison holds, and one in which it doesn't.
ghost use Rattle.cap_goal.specs.Views.{tasks_view};
ghost use Rattle.cap_rules.specs.Rules.{branches};
ghost use Rattle.cap_rules_steps.specs.Goals.{goals_view};
ghost use Rattle.cap_rules_steps.specs.Walks.{Makes, seen};

use cap_goal::{Goal, State, Task};
use cap_prog::Comp;
use cap_rules_steps::{RuleError, add_goal, copy_with_row, opposite, row_here};
use std::alloc::Global;

/// A subgoal in which the comparison holds, by the store, and then one in which its opposite does,
/// each with its tasks, of which the last comes first; none where no task has anything to be done.
/// `NotApplicable` comes where the state's list of rows is full, `Wide` where a result leaves 128
/// bits before that.
pub fn branches<'a>(
    alloc: Global,
    state: &State,
    comparison: &Comp,
    then_tasks: Vec<Task<'a>>,
    else_tasks: Vec<Task<'a>>,
) -> Result<Vec<Goal<'a>>, RuleError>
    ensures { Makes (seen goals_view result) (branches state.now comparison.now
        (tasks_view then_tasks.entry.items) (tasks_view else_tasks.entry.items)) }
{
    let row = row_here(alloc, state, comparison.op, comparison)?;
    let first = copy_with_row(state, row)?;
    let row = row_here(alloc, state, opposite(comparison.op), comparison)?;
    let second = copy_with_row(state, row)?;
    let mut goals = Vec::new(alloc);
    add_goal(&mut goals, first, then_tasks)?;
    add_goal(&mut goals, second, else_tasks)?;
    Ok(goals)
}
