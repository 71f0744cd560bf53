//! Comparisons and conditionals that are given up.
ghost use Rattle.std.specs.Prelude.{◌≡◌, ◌++◌, IfOk, OnOk, map};
ghost use Rattle.cap_prog.specs.Views.{items_view};
ghost use Rattle.cap_goal.specs.Views.{goal_view};
ghost use Rattle.cap_goal_spec.specs.States.{goals_of};
ghost use Rattle.cap_rules.specs.Rules.{at_fact, at_cases};
ghost use Rattle.cap_rules_steps.specs.Goals.{goals_view};
ghost use Rattle.cap_rules_steps.specs.Walks.{Makes, Claims, seen};
ghost use Rattle.cap_take_items.specs.Views.{remaining_view, side_tasks};

use cap_goal::{Goal, State};
use cap_prog::{Assertion, Comp};
use cap_rules_steps::{Ledger, RuleError, add_goal, copy_with_row, opposite, prove};
use cap_take_holdings::row_at;
use cap_take_items::{Remaining, goes, tasks_after};
use std::alloc::{AllocError, Global};

/// The comparison is claimed.
pub(crate) fn fact<'t, 'a>(
    alloc: Global,
    ledger: &mut Ledger,
    state: &State,
    comparison: &Comp,
    rest: &Remaining<'t, 'a>,
) -> Result<Vec<Goal<'a>>, RuleError>
    ensures { Claims (seen goals_view result) ledger.old ledger.new
        (at_fact state.now comparison.now (remaining_view rest.now)) }
{
    let row = row_at(alloc, state, rest.env, comparison.op, comparison)?;
    prove(alloc, ledger, state.rows(), &row)?;
    let next = state.copy()?;
    Ok(goes(alloc, next, rest)?)
}

// Adds a goal in which the items of one side come first.
fn add_side<'t, 'a>(
    alloc: Global,
    goals: &mut Vec<Goal<'a>>,
    state: State,
    side: &'a Assertion,
    rest: &Remaining<'t, 'a>,
) -> Result<(), AllocError>
    ensures { OnOk result (map goal_view goals.new.items ≡ map goal_view goals.old.items
        ++ goals_of state (side_tasks (items_view side.now) (remaining_view rest.now))) }
{
    let tasks = tasks_after(alloc, side, rest)?;
    add_goal(goals, state, tasks)
}

// A goal in which the items of one side come first, and one in which those of the other do.
fn sides<'t, 'a>(
    alloc: Global,
    first: State,
    second: State,
    then_items: &'a Assertion,
    else_items: &'a Assertion,
    rest: &Remaining<'t, 'a>,
) -> Result<Vec<Goal<'a>>, AllocError>
    ensures { IfOk result (λ gs. map goal_view gs.items
        ≡ goals_of first (side_tasks (items_view then_items.now) (remaining_view rest.now))
        ++ goals_of second (side_tasks (items_view else_items.now) (remaining_view rest.now))) }
{
    let mut goals = Vec::new(alloc);
    add_side(alloc, &mut goals, first, then_items, rest)?;
    add_side(alloc, &mut goals, second, else_items, rest)?;
    Ok(goals)
}

/// A subgoal in which the comparison holds and its items are given up, and one for the other side.
pub(crate) fn cases<'t, 'a>(
    alloc: Global,
    state: &State,
    comparison: &Comp,
    then_items: &'a Assertion,
    else_items: &'a Assertion,
    rest: &Remaining<'t, 'a>,
) -> Result<Vec<Goal<'a>>, RuleError>
    ensures { Makes (seen goals_view result) (at_cases state.now comparison.now
        (items_view then_items.now) (items_view else_items.now) (remaining_view rest.now)) }
{
    let row = row_at(alloc, state, rest.env, comparison.op, comparison)?;
    let first = copy_with_row(state, row)?;
    let row = row_at(alloc, state, rest.env, opposite(comparison.op), comparison)?;
    let second = copy_with_row(state, row)?;
    Ok(sides(alloc, first, second, then_items, else_items, rest)?)
}
