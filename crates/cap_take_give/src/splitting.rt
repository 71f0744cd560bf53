//! Conditionals that are given: the goal splits in two.
ghost use Rattle.std.specs.Prelude.{◌≡◌, ◌++◌, IfOk, OnOk, map};
ghost use Rattle.cap_prog.specs.Program.{none, append_items};
ghost use Rattle.cap_prog.specs.Views.{item_view, items_view};
ghost use Rattle.cap_goal.specs.Views.{items_in, goal_view, tasks_view};
ghost use Rattle.cap_goal_spec.specs.States.{goals_of};
ghost use Rattle.cap_rules.specs.Giving.{give_sides as sides_given};
ghost use Rattle.cap_rules.specs.Making.{with_comparison};
ghost use Rattle.cap_rules_steps.specs.Goals.{goals_view};
ghost use Rattle.cap_rules_steps.specs.Walks.{Makes, seen};
ghost use Rattle.cap_take_give.specs.Splits.{behind_view, sides_view, tasks_ahead, side_tasks};
ghost use Rattle.cap_take_give.specs.Splits.{sides_split, split_given};
ghost use Rattle.cap_take_give.specs.Splits.{conditional_seen, conditional_of};

use crate::giving::give_sides;
use cap_goal::{Goal, Items, State, Task};
use cap_lin::{Op, Row, Sort, Term};
use cap_prog::{Assertion, Comp, Item};
use cap_rules_steps::{RuleError, add_goal, copy_tasks, copy_with_row, opposite};
use std::alloc::{AllocError, Global};

/// What is left behind an item that is given: the items behind it, the number of their environment,
/// the number of the statement, and the tasks behind.
#[derive(Drop)]
pub(crate) struct Behind<'t, 'a> {
    pub(crate) items: Items<'a>,
    pub(crate) env: u32,
    pub(crate) at: u32,
    pub(crate) tasks: &'t [Task<'a>],
}

/// A conditional: its comparison, and its sides.
#[derive(Clone, Copy)]
pub(crate) struct Conditional<'a> {
    pub(crate) comparison: &'a Comp,
    pub(crate) then_items: &'a Assertion,
    pub(crate) else_items: &'a Assertion,
}

/// The conditional that an item is, if it is one.
pub(crate) fn as_conditional<'a>(item: &'a Item) -> Option<Conditional<'a>>
    ensures { conditional_seen result ≡ conditional_of (item_view item.now) }
{
    match item {
        Item::Choose(comparison, then_items, else_items) => Some(Conditional {
            comparison,
            then_items,
            else_items,
        }),
        Item::Compare(_)
        | Item::Fact(_, _, _, _, _)
        | Item::Atom(_, _, _, _, _)
        | Item::Cell(_, _, _) => None,
    }
}

// A state in which the names of a comparison are bound, and what its sides stand for there.
#[derive(Drop)]
struct Sides {
    state: State,
    left: Term,
    right: Term,
}

// What the sides of a comparison stand for, in a copy of the state.
fn sides_of(alloc: Global, state: &State, env: u32, comparison: &Comp) -> Result<Sides, RuleError>
    ensures { Makes (seen sides_view result) (sides_given state.now env comparison.now) }
{
    let mut state = state.copy()?;
    let sides = give_sides(alloc, &mut state, env, comparison)?;
    Ok(Sides {
        state,
        left: sides.0,
        right: sides.1,
    })
}

// A copy of their state, in which this operator holds between the sides.
#[tactic(auto, using(cap_rules_steps::proofs::Walking::making))]
fn state_with(alloc: Global, sides: &Sides, op: Op, sort: Sort) -> Result<State, RuleError>
    ensures { Makes result
        (with_comparison sides.now.state sides.now.left op sides.now.right sort) }
{
    let row = Row::of(alloc, &sides.left, op, &sides.right, sort)?;
    copy_with_row(&sides.state, row)
}

// The items of an assertion, and behind them those that are left.
fn items_after<'t, 'a>(
    alloc: Global,
    assertion: &'a Assertion,
    behind: &Behind<'t, 'a>,
) -> Result<Items<'a>, AllocError>
    ensures { IfOk result (λ is. items_in is.lists.items none
        ≡ append_items (items_view assertion.now) (behind_view behind.now).items) }
{
    let mut lists = Vec::from_slice(alloc, &behind.items.lists)?;
    lists.push(assertion.items.as_slice())?;
    Ok(Items { lists })
}

// The tasks in which these items are given first.
fn tasks_of<'t, 'a>(
    alloc: Global,
    items: Items<'a>,
    behind: &Behind<'t, 'a>,
) -> Result<Vec<Task<'a>>, AllocError>
    ensures { IfOk result (λ v. tasks_view v.items ≡ tasks_ahead
        (items_in items.entry.lists.items none) (behind_view behind.now)) }
{
    let mut tasks = copy_tasks(alloc, behind.tasks)?;
    tasks.push(Task::Give(items, behind.env, behind.at))?;
    Ok(tasks)
}

// The tasks in which the items of one side are given first, and behind them those that are left.
fn tasks_after<'t, 'a>(
    alloc: Global,
    side: &'a Assertion,
    behind: &Behind<'t, 'a>,
) -> Result<Vec<Task<'a>>, AllocError>
    ensures { IfOk result (λ v. tasks_view v.items
        ≡ side_tasks (items_view side.now) (behind_view behind.now)) }
{
    let items = items_after(alloc, side, behind)?;
    tasks_of(alloc, items, behind)
}

// Adds a goal in which the items of one side are given first.
fn add_side<'t, 'a>(
    alloc: Global,
    goals: &mut Vec<Goal<'a>>,
    state: State,
    side: &'a Assertion,
    behind: &Behind<'t, 'a>,
) -> Result<(), AllocError>
    ensures { OnOk result (map goal_view goals.new.items ≡ map goal_view goals.old.items
        ++ goals_of state (side_tasks (items_view side.now) (behind_view behind.now))) }
{
    let tasks = tasks_after(alloc, side, behind)?;
    add_goal(goals, state, tasks)
}

// A goal in which the items of one side are given first, and one in which those of the other are.
fn goals_after<'t, 'a>(
    alloc: Global,
    first: State,
    second: State,
    then_items: &'a Assertion,
    else_items: &'a Assertion,
    behind: &Behind<'t, 'a>,
) -> Result<Vec<Goal<'a>>, AllocError>
    ensures { IfOk result (λ gs. map goal_view gs.items
        ≡ goals_of first (side_tasks (items_view then_items.now) (behind_view behind.now))
        ++ goals_of second (side_tasks (items_view else_items.now) (behind_view behind.now))) }
{
    let mut goals = Vec::new(alloc);
    add_side(alloc, &mut goals, first, then_items, behind)?;
    add_side(alloc, &mut goals, second, else_items, behind)?;
    Ok(goals)
}

// A subgoal in which the comparison holds between its sides, and one in which its opposite does.
fn split_between<'t, 'a>(
    alloc: Global,
    sides: &Sides,
    comparison: &Comp,
    then_items: &'a Assertion,
    else_items: &'a Assertion,
    behind: &Behind<'t, 'a>,
) -> Result<Vec<Goal<'a>>, RuleError>
    ensures { Makes (seen goals_view result) (sides_split (sides_view sides.now) comparison.now
        (items_view then_items.now) (items_view else_items.now) (behind_view behind.now)) }
{
    let first = state_with(alloc, sides, comparison.op, comparison.sort)?;
    let second = state_with(alloc, sides, opposite(comparison.op), comparison.sort)?;
    Ok(goals_after(alloc, first, second, then_items, else_items, behind)?)
}

/// A subgoal in which the comparison holds and its items are given, and one for the other side.
pub(crate) fn split<'t, 'a>(
    alloc: Global,
    state: &State,
    comparison: &Comp,
    then_items: &'a Assertion,
    else_items: &'a Assertion,
    behind: &Behind<'t, 'a>,
) -> Result<Vec<Goal<'a>>, RuleError>
    ensures { Makes (seen goals_view result) (split_given state.now comparison.now
        (items_view then_items.now) (items_view else_items.now) (behind_view behind.now)) }
{
    let sides = sides_of(alloc, state, behind.env, comparison)?;
    split_between(alloc, &sides, comparison, then_items, else_items, behind)
}
