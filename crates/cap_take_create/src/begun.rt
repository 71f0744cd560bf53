//! The tasks of a region that is created.
ghost use Rattle.std.specs.Prelude.{◌≡◌, ◌∷◌, IfOk};
ghost use Rattle.cap_prog.specs.Views.{item_view, items_view};
ghost use Rattle.cap_goal.specs.Views.{tasks_view};
ghost use Rattle.cap_goal_spec.specs.States.{PlainState};
ghost use Rattle.cap_rules.specs.Rules.{stays};
ghost use Rattle.cap_take_items.specs.Views.{remaining_view};
ghost use Rattle.cap_take_create.specs.Creating.{begun_tasks};

use cap_goal::{Task, items_of};
use cap_lin::Term;
use cap_prog::{Assertion, Item};
use cap_rules_steps::copy_tasks;
use cap_take_items::{Remaining, items_with};
use std::alloc::{AllocError, Global};

// The tasks in which the item is given up again, with so many creations left.
fn tasks_again<'t, 'a>(
    alloc: Global,
    item: &'a Item,
    left: u32,
    rest: &Remaining<'t, 'a>,
) -> Result<Vec<Task<'a>>, AllocError>
    ensures { IfOk result (λ v. (s : PlainState) → tasks_view v.items
        ≡ stays s (item_view item.now) left (remaining_view rest.now)
        ∷ (remaining_view rest.now).tasks) }
{
    let items = items_with(alloc, item, rest)?;
    let mut tasks = copy_tasks(alloc, rest.tasks)?;
    tasks.push(Task::Take(items, rest.env, left, rest.at))?;
    Ok(tasks)
}

// The tasks in which the items of a case are given up by the environment of a number, then the fact
// of the created region is stated, and then the item is given up again.
pub(crate) fn tasks_begun<'t, 'a>(
    alloc: Global,
    items: &'a Assertion,
    kind: u32,
    case: u32,
    env: u32,
    created: Term,
    item: &'a Item,
    left: u32,
    rest: &Remaining<'t, 'a>,
) -> Result<Vec<Task<'a>>, AllocError>
    ensures { IfOk result (λ v. (s : PlainState) → tasks_view v.items
        ≡ begun_tasks s (items_view items.now) kind case env created (item_view item.now) left
        (remaining_view rest.now)) }
{
    let items = items_of(alloc, items)?;
    let mut tasks = tasks_again(alloc, item, left, rest)?;
    tasks.push(Task::Made(kind, case, env, created, rest.at))?;
    tasks.push(Task::Take(items, env, left, rest.at))?;
    Ok(tasks)
}
