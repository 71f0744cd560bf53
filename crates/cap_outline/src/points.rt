//! The statement at which a goal stands.
ghost use Rattle.std.specs.Prelude.{◌≡◌, IfOk, option_map};
ghost use Rattle.cap_goal.specs.Views.{goal_view, home_view, task_view, tasks_view};
ghost use Rattle.cap_outline.specs.Views.{spot_view};
ghost use Rattle.cap_outline_spec.specs.Standing.{first_number as number_of_first, point_at};
ghost use Rattle.cap_outline_spec.specs.Standing.{point_of, point_of_first, point_of_task};
ghost use Rattle.cap_rules_steps.specs.Goals.{point_view};

use cap_goal::{Goal, Home, Point, Task};
use cap_rules_steps::next_statement;
use std::alloc::{AllocError, Global};

/// A statement by its number, and a tree of its function.
#[derive(Clone, Copy)]
pub(crate) struct Spot {
    pub home: Home,
    pub number: u32,
}

// The number of the statement that comes first, if there is one.
fn first_number(alloc: Global, point: &Point<'_>) -> Result<Option<u32>, AllocError>
    ensures { IfOk result (λ number. number ≡ number_of_first (point_view point.now)) }
{
    match next_statement(alloc, point)? {
        None => Ok(None),
        Some((statement, _rest)) => Ok(Some(statement.number)),
    }
}

// The statement that comes first, if there is one.
fn first_spot(alloc: Global, home: Home, point: &Point<'_>) -> Result<Option<Spot>, AllocError>
    ensures { IfOk result (λ spot. option_map spot_view spot
        ≡ point_at (home_view home) (number_of_first (point_view point.now))) }
{
    match first_number(alloc, point)? {
        None => Ok(None),
        Some(number) => Ok(Some(Spot { home, number })),
    }
}

// The statement at which a task stands, if it stands at one.
fn spot_of_task(alloc: Global, task: &Task<'_>) -> Result<Option<Spot>, AllocError>
    ensures { IfOk result
        (λ spot. option_map spot_view spot ≡ point_of_task (task_view task.now)) }
{
    match task {
        Task::Run(home, point) => first_spot(alloc, *home, point),
        Task::Turn(home, point) => first_spot(alloc, *home, point),
        Task::Give(_, _, _)
        | Task::Take(_, _, _, _)
        | Task::Made(_, _, _, _, _)
        | Task::Close(_, _)
        | Task::Shift(_, _, _, _, _)
        | Task::Rest(_, _) => Ok(None),
    }
}

// The statement at which the last task stands, if it stands at one.
fn spot_of_last(alloc: Global, tasks: &Vec<Task<'_>>) -> Result<Option<Spot>, AllocError>
    ensures { IfOk result
        (λ spot. option_map spot_view spot ≡ point_of_first (tasks_view tasks.now.items)) }
{
    match tasks.last() {
        None => Ok(None),
        Some(task) => spot_of_task(alloc, task),
    }
}

/// The statement at which a goal stands, if it stands at one: no region is open, and statements are
/// to be run, or the invariant of a loop was given. The only error is want of memory.
pub(crate) fn spot_of(alloc: Global, goal: &Goal<'_>) -> Result<Option<Spot>, AllocError>
    ensures { IfOk result (λ spot. option_map spot_view spot ≡ point_of (goal_view goal.now)) }
{
    match goal.state.opened() {
        [] => spot_of_last(alloc, &goal.tasks),
        [_, ..] => Ok(None),
    }
}
