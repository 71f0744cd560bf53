//! What is left of an assertion that is given up.
ghost use Rattle.std.specs.Prelude.{◌≡◌, [], IfOk, map};
ghost use Rattle.cap_prog.specs.Program.{none, item as first_item, append_items};
ghost use Rattle.cap_prog.specs.Views.{item_view, items_view};
ghost use Rattle.cap_goal.specs.Views.{items_in, goal_view, tasks_view};
ghost use Rattle.cap_rules_steps.specs.cap_goal_spec.States.{goals_of};
ghost use Rattle.cap_take_items.specs.Views.{remaining_view, with_items, tasks_ahead, side_tasks};
ghost use Rattle.cap_take_items.specs.Views.{tasks_with};

use cap_goal::{Goal, Items, State, Task};
use cap_prog::{Assertion, Item};
use cap_rules_steps::{copy_tasks, leaves};
use std::alloc::{AllocError, Global};
use std::slice;

/// What is left of an assertion behind the item that is given up: its items, the number of their
/// environment, how many creations are left, the number of the statement, and the tasks behind.
#[derive(Drop)]
pub struct Remaining<'t, 'a> {
    pub items: Items<'a>,
    pub env: u32,
    pub creations: u32,
    pub at: u32,
    pub tasks: &'t [Task<'a>],
}

// The items that are left, once more.
fn items_left<'t, 'a>(alloc: Global, rest: &Remaining<'t, 'a>) -> Result<Items<'a>, AllocError>
    ensures { IfOk result
        (λ is. items_in is.lists.items none ≡ (remaining_view rest.now).items) }
{
    let lists = Vec::from_slice(alloc, &rest.items.lists)?;
    Ok(Items { lists })
}

// The items of an assertion, and behind them those that are left.
fn items_after<'t, 'a>(
    alloc: Global,
    assertion: &'a Assertion,
    rest: &Remaining<'t, 'a>,
) -> Result<Items<'a>, AllocError>
    ensures { IfOk result (λ is. items_in is.lists.items none
        ≡ append_items (items_view assertion.now) (remaining_view rest.now).items) }
{
    let mut lists = Vec::from_slice(alloc, &rest.items.lists)?;
    lists.push(assertion.items.as_slice())?;
    Ok(Items { lists })
}

/// The item in front of those that are left.
pub fn items_with<'t, 'a>(
    alloc: Global,
    item: &'a Item,
    rest: &Remaining<'t, 'a>,
) -> Result<Items<'a>, AllocError>
    ensures { IfOk result (λ is. items_in is.lists.items none
        ≡ first_item (item_view item.now) (remaining_view rest.now).items) }
{
    let mut lists = Vec::from_slice(alloc, &rest.items.lists)?;
    lists.push(slice::from_ref(item))?;
    Ok(Items { lists })
}

// The tasks in which these items come first.
fn tasks_of<'t, 'a>(
    alloc: Global,
    items: Items<'a>,
    rest: &Remaining<'t, 'a>,
) -> Result<Vec<Task<'a>>, AllocError>
    ensures { IfOk result (λ v. tasks_view v.items ≡ tasks_ahead
        (with_items (items_in items.entry.lists.items none) (remaining_view rest.now))) }
{
    let mut tasks = copy_tasks(alloc, rest.tasks)?;
    tasks.push(Task::Take(items, rest.env, rest.creations, rest.at))?;
    Ok(tasks)
}

/// The tasks in which the items of an assertion come first, and behind them those that are left.
pub fn tasks_after<'t, 'a>(
    alloc: Global,
    assertion: &'a Assertion,
    rest: &Remaining<'t, 'a>,
) -> Result<Vec<Task<'a>>, AllocError>
    ensures { IfOk result (λ v. tasks_view v.items
        ≡ side_tasks (items_view assertion.now) (remaining_view rest.now)) }
{
    let items = items_after(alloc, assertion, rest)?;
    tasks_of(alloc, items, rest)
}

/// The item goes.
pub fn goes<'t, 'a>(
    alloc: Global,
    state: State,
    rest: &Remaining<'t, 'a>,
) -> Result<Vec<Goal<'a>>, AllocError>
    ensures { IfOk result
        (λ gs. map goal_view gs.items ≡ goals_of state (tasks_ahead (remaining_view rest.now))) }
{
    let items = items_left(alloc, rest)?;
    let tasks = tasks_of(alloc, items, rest)?;
    leaves(alloc, state, tasks)
}

/// The item stays, in front of those that are left.
pub fn stays<'t, 'a>(
    alloc: Global,
    state: State,
    item: &'a Item,
    rest: &Remaining<'t, 'a>,
) -> Result<Vec<Goal<'a>>, AllocError>
    ensures { IfOk result (λ gs. map goal_view gs.items
        ≡ goals_of state (tasks_with (item_view item.now) (remaining_view rest.now))) }
{
    let items = items_with(alloc, item, rest)?;
    let tasks = tasks_of(alloc, items, rest)?;
    leaves(alloc, state, tasks)
}
