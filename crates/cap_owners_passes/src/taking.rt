//! An assertion is taken, item by item.
ghost use Rattle.std.specs.Prelude.{◌≡◌, List, Some, slice_get, ℕ};
ghost use Rattle.cap_goal.specs.Views.{choice_view, items_in, tasks_view};
ghost use Rattle.cap_goal_spec.specs.Choices.{by_create};
ghost use Rattle.cap_goal_spec.specs.States.{PlainState, PlainTask, to_take};
ghost use Rattle.cap_prog.specs.Program.{Items as PlainItems, none, PlainProgram};
ghost use Rattle.cap_prog.specs.Views.{item_view, program_view};
ghost use Rattle.cap_owners_spec.specs.Walks.{Interpreting, pass_item, pass_task, Taking};
ghost use Rattle.cap_owners_passes.specs.Views.{creates_by, Passes};

use crate::ahead::first_item;
use crate::items::{Setting, take_item};
use crate::lookup::env_at;
use crate::walk::Walk;
use cap_goal::{Choice, Env, Items, State, Task};
use cap_owners_fill::names_in;
use cap_owners_values::TraceError;
use cap_prog::{Item, Program};
use std::alloc::Global;

// Whether the choice creates a region.
fn creates(choice: &Choice) -> bool
    ensures { result ≡ creates_by (choice_view choice.now) }
{
    match choice {
        Choice::Create(_) => true,
        _ => false,
    }
}

// A region is created, where a fact is taken.
fn pass_created(
    alloc: Global,
    item: &Item,
    walk: &mut Walk<'_>,
) -> Result<Option<usize>, TraceError>
    ensures { (p : PlainProgram) (s : PlainState) (case : ℕ) (more : PlainItems) (e left n : ℕ)
        (ts : List PlainTask) (t : Taking) → Passes result walk.new
        (pass_item p s (by_create case) (item_view item.now) more e left n ts t walk.old) }
{
    match item {
        Item::Fact(_, _, _, _, _) => {
            walk.create(alloc)?;
            Ok(Some(0))
        }
        Item::Compare(_)
        | Item::Choose(_, _, _)
        | Item::Atom(_, _, _, _, _)
        | Item::Cell(_, _, _) => Err(TraceError::Untold),
    }
}

/// The item that comes first is taken. `Untold` comes where there is none.
pub(crate) fn pass_taken(
    alloc: Global,
    program: &Program,
    state: &State,
    choice: &Choice,
    items: &Items<'_>,
    env: u32,
    behind: &[Task<'_>],
    walk: &mut Walk<'_>,
) -> Result<Option<usize>, TraceError>
    ensures { (enter : Interpreting) (left n : ℕ) → Passes result walk.new
        (pass_task enter (program_view program.now) state.now (choice_view choice.now)
        (to_take (items_in items.now.lists.items none) env left n) (tasks_view behind.now)
        walk.old) }
{
    let Some((item, is_last)) = first_item(items) else {
        return Err(TraceError::Untold);
    };
    let none = Env {
        terms: Vec::new(alloc),
    };
    let env = env_at(state, env, &none);
    let Some(mut top) = walk.end_taking() else {
        return Err(TraceError::Untold);
    };
    let names = names_in(alloc, &walk.values, env)?;
    if creates(choice) {
        walk.go_on_taking(top)?;
        return pass_created(alloc, item, walk);
    }
    top.fill.names = names;
    let at = Setting {
        program,
        state,
        env,
        values: &walk.values,
    };
    let taken = take_item(alloc, &at, choice, item, is_last, behind, &mut top)?;
    walk.go_on_taking(top)?;
    walk.bring_new(taken.new)?;
    Ok(taken.child)
}
