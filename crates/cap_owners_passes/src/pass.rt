//! A node is passed.
ghost use Rattle.std.specs.Prelude.{◌≡◌, Bool, false, List, ℕ};
ghost use Rattle.cap_goal.specs.Views.{block_in, choice_view, items_in, task_view, tasks_view};
ghost use Rattle.cap_goal_spec.specs.States.{Home, PlainState, PlainTask, to_close};
ghost use Rattle.cap_goal_spec.specs.States.{to_give, to_make, to_rest, to_run, to_shift, to_turn};
ghost use Rattle.cap_prog.specs.Program.{Block, done, none, PlainProgram};
ghost use Rattle.cap_prog.specs.Views.{program_view};
ghost use Rattle.cap_owners_spec.specs.Walks.{Interpreting, pass_task, pass_tasks, pass_turn};
ghost use Rattle.cap_owners_passes.specs.Views.{enters_at, enters_for, Passes};

use crate::ahead::first_statement;
use crate::closing::{Made, pass_made, pass_settle, pass_shift};
use crate::giving::pass_give;
use crate::statement::{branch_child, pass_statement};
use crate::taking::pass_taken;
use crate::walk::Walk;
use cap_goal::{Choice, Items, Point, State, Task};
use cap_owners_values::TraceError;
use cap_prog::Program;
use std::alloc::Global;

// At the statement that comes first, by the event of the next step.
fn at_run(
    alloc: Global,
    state: &State,
    choice: &Choice,
    point: &Point<'_>,
    walk: &mut Walk<'_>,
) -> Result<Option<usize>, TraceError>
    ensures { (enter : Interpreting) (p : PlainProgram) (h : Home) (ts : List PlainTask) →
        enters_for (choice_view choice.now) (to_run h (block_in point.now.lists.items done))
        ≡ false → Passes result walk.new (pass_task enter p state.now (choice_view choice.now)
        (to_run h (block_in point.now.lists.items done)) ts walk.old) }
{
    let Some(statement) = first_statement(point) else {
        return Err(TraceError::Untold);
    };
    let Some(event) = walk.next_event() else {
        return Err(TraceError::Untold);
    };
    pass_statement(alloc, state, choice, &statement.act, event, walk)
}

// By the side that the next step took.
fn pass_turn(walk: &mut Walk<'_>) -> Result<Option<usize>, TraceError>
    ensures { Passes result walk.new (pass_turn walk.old.events walk.old) }
{
    let Some(event) = walk.next_event() else {
        return Err(TraceError::Untold);
    };
    Ok(Some(branch_child(event)?))
}

// At a loop whose invariant was given.
fn at_turn(choice: &Choice, walk: &mut Walk<'_>) -> Result<Option<usize>, TraceError>
    ensures { (enter : Interpreting) (p : PlainProgram) (s : PlainState) (h : Home) (b : Block)
        (ts : List PlainTask) → Passes result walk.new
        (pass_task enter p s (choice_view choice.now) (to_turn h b) ts walk.old) }
{
    match choice {
        Choice::Turn => pass_turn(walk),
        _ => Err(TraceError::Untold),
    }
}

// At an assertion that is given.
fn at_give(
    alloc: Global,
    state: &State,
    choice: &Choice,
    items: &Items<'_>,
    env: u32,
    behind: &[Task<'_>],
    walk: &mut Walk<'_>,
) -> Result<Option<usize>, TraceError>
    ensures { (enter : Interpreting) (p : PlainProgram) (n : ℕ) → Passes result walk.new
        (pass_task enter p state.now (choice_view choice.now)
        (to_give (items_in items.now.lists.items none) env n) (tasks_view behind.now) walk.old) }
{
    match choice {
        Choice::Give => pass_give(alloc, state, items, env, behind, walk),
        _ => Err(TraceError::Untold),
    }
}

// At a region that is to be closed.
fn at_close(
    alloc: Global,
    choice: &Choice,
    walk: &mut Walk<'_>,
) -> Result<Option<usize>, TraceError>
    ensures { (enter : Interpreting) (p : PlainProgram) (s : PlainState) (any : Bool) (n : ℕ)
        (ts : List PlainTask) → Passes result walk.new
        (pass_task enter p s (choice_view choice.now) (to_close any n) ts walk.old) }
{
    match choice {
        Choice::Pick(_, _, _) => {
            walk.begin_taking(alloc)?;
            Ok(Some(0))
        }
        _ => Err(TraceError::Untold),
    }
}

// At a move that is to be checked.
fn at_shift(
    alloc: Global,
    program: &Program,
    state: &State,
    choice: &Choice,
    opened: u32,
    case: u32,
    env: u32,
    walk: &mut Walk<'_>,
) -> Result<Option<usize>, TraceError>
    ensures { (enter : Interpreting) (move n : ℕ) (ts : List PlainTask) → Passes result walk.new
        (pass_task enter (program_view program.now) state.now (choice_view choice.now)
        (to_shift opened case move env n) ts walk.old) }
{
    match choice {
        Choice::Shift(_, _) => {
            let Some(top) = walk.end_taking() else {
                return Err(TraceError::Untold);
            };
            pass_shift(alloc, program, state, opened, case, env, top, walk)
        }
        _ => Err(TraceError::Untold),
    }
}

// At a region that was created.
fn at_made(
    alloc: Global,
    program: &Program,
    state: &State,
    choice: &Choice,
    made: &Made<'_>,
    walk: &mut Walk<'_>,
) -> Result<Option<usize>, TraceError>
    ensures { (enter : Interpreting) (n : ℕ) (ts : List PlainTask) → Passes result walk.new
        (pass_task enter (program_view program.now) state.now (choice_view choice.now)
        (to_make made.now.kind made.now.case made.now.env made.now.term.now n) ts walk.old) }
{
    match choice {
        Choice::Made(_) => {
            let Some(top) = walk.end_taking() else {
                return Err(TraceError::Untold);
            };
            pass_made(alloc, program, state, made, top, walk)
        }
        _ => Err(TraceError::Untold),
    }
}

// At a fact that is to be settled.
fn at_rest(
    state: &State,
    choice: &Choice,
    fact: u32,
    walk: &mut Walk<'_>,
) -> Result<Option<usize>, TraceError>
    ensures { (enter : Interpreting) (p : PlainProgram) (n : ℕ) (ts : List PlainTask) →
        Passes result walk.new
        (pass_task enter p state.now (choice_view choice.now) (to_rest fact n) ts walk.old) }
{
    match choice {
        Choice::Settle(_, _) => pass_settle(state, fact, walk),
        Choice::Keep(_) => Ok(Some(0)),
        _ => Err(TraceError::Untold),
    }
}

// At a task, behind which there may be other ones.
fn pass_head(
    alloc: Global,
    program: &Program,
    state: &State,
    choice: &Choice,
    head: &Task<'_>,
    behind: &[Task<'_>],
    walk: &mut Walk<'_>,
) -> Result<Option<usize>, TraceError>
    requires { enters_for (choice_view choice.now) (task_view head.now) ≡ false }
    ensures { (enter : Interpreting) → Passes result walk.new
        (pass_task enter (program_view program.now) state.now (choice_view choice.now)
        (task_view head.now) (tasks_view behind.now) walk.old) }
{
    match head {
        Task::Run(_, point) => at_run(alloc, state, choice, point, walk),
        Task::Turn(_, _) => at_turn(choice, walk),
        Task::Give(items, env, _) => at_give(alloc, state, choice, items, *env, behind, walk),
        Task::Take(items, env, _, _) => {
            pass_taken(alloc, program, state, choice, items, *env, behind, walk)
        }
        Task::Made(kind, case, env, term, _) => {
            let made = Made {
                kind: *kind,
                case: *case,
                env: *env,
                term,
            };
            at_made(alloc, program, state, choice, &made, walk)
        }
        Task::Close(_, _) => at_close(alloc, choice, walk),
        Task::Shift(opened, case, _, env, _) => {
            at_shift(alloc, program, state, choice, *opened, *case, *env, walk)
        }
        Task::Rest(fact, _) => at_rest(state, choice, *fact, walk),
    }
}

/// A walk passes a node that doesn't enter a region: the number of the child to which it goes, if
/// the choice leaves one. The last of the tasks is the head. `PastWidth` comes where a number leaves
/// its bounds, and `Untold` where the choice, the tasks and the step don't fit one another or a
/// number names nothing; want of memory may come in any case. After an error the walk is lost.
pub fn pass_task(
    alloc: Global,
    program: &Program,
    state: &State,
    choice: &Choice,
    tasks: &[Task<'_>],
    walk: &mut Walk<'_>,
) -> Result<Option<usize>, TraceError>
    requires { enters_at (choice_view choice.now) (tasks_view tasks.now) ≡ false }
    ensures { (enter : Interpreting) → Passes result walk.new
        (pass_tasks enter (program_view program.now) state.now (choice_view choice.now)
        (tasks_view tasks.now) walk.old) }
{
    match tasks {
        [] => Err(TraceError::Untold),
        [behind @ .., head] => pass_head(alloc, program, state, choice, head, behind, walk),
    }
}
