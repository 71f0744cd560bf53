//! The statement that comes first at a goal.
ghost use Rattle.std.specs.Prelude.{◌≡◌, ◌∷◌, IfOk};
ghost use Rattle.cap_prog.specs.Program.{append};
ghost use Rattle.cap_prog.specs.Views.{block_view};
ghost use Rattle.cap_goal_spec.specs.States.{to_run};
ghost use Rattle.cap_goal.specs.Views.{home_view, task_view, tasks_view};
ghost use Rattle.cap_rules_steps.specs.Goals.{point_view};
ghost use Rattle.cap_pure.specs.Heads.{upcoming_view, upcoming_seen, upcoming_in, running};
ghost use Rattle.cap_pure.specs.Heads.{tasks_behind};

use cap_goal::{Home, Point, Task};
use cap_prog::Statement;
use cap_rules_steps::{copy_point, copy_tasks, next_statement};
use std::alloc::{AllocError, Global};

/// The statement that comes first in a tree of this home, the statements behind it, and the tasks
/// behind those, the last of which comes first.
#[derive(Drop)]
pub(crate) struct Upcoming<'t, 'a> {
    pub(crate) home: Home,
    pub(crate) statement: &'a Statement,
    pub(crate) rest: Point<'a>,
    pub(crate) tasks: &'t [Task<'a>],
}

/// The first statement of a point, if there is one.
pub(crate) fn upcoming_in<'t, 'a>(
    alloc: Global,
    home: Home,
    point: &Point<'a>,
    tasks: &'t [Task<'a>],
) -> Result<Option<Upcoming<'t, 'a>>, AllocError>
    ensures { IfOk result (λ next. upcoming_seen next
        ≡ upcoming_in (home_view home) (point_view point.now) (tasks_view tasks.now)) }
{
    match next_statement(alloc, point)? {
        None => Ok(None),
        Some((statement, rest)) => Ok(Some(Upcoming {
            home,
            statement,
            rest,
            tasks,
        })),
    }
}

/// The first statement that is to be run, where statements are run first.
pub(crate) fn running<'t, 'a>(
    alloc: Global,
    head: &Task<'a>,
    behind: &'t [Task<'a>],
) -> Result<Option<Upcoming<'t, 'a>>, AllocError>
    ensures { IfOk result
        (λ next. upcoming_seen next ≡ running (task_view head.now) (tasks_view behind.now)) }
{
    match head {
        Task::Run(home, point) => upcoming_in(alloc, *home, point, behind),
        Task::Turn(_, _)
        | Task::Give(_, _, _)
        | Task::Take(_, _, _, _)
        | Task::Made(_, _, _, _, _)
        | Task::Close(_, _)
        | Task::Shift(_, _, _, _, _)
        | Task::Rest(_, _) => Ok(None),
    }
}

/// A point in which the statements of a block come first.
pub(crate) fn entered<'a>(
    alloc: Global,
    block: &'a [Statement],
    point: &Point<'a>,
) -> Result<Point<'a>, AllocError>
    ensures { IfOk result
        (λ p. point_view p ≡ append (block_view block.now) (point_view point.now)) }
{
    let mut inner = copy_point(alloc, point)?;
    inner.lists.push(block)?;
    Ok(inner)
}

/// The tasks in which these statements are run first.
pub(crate) fn run_before<'a>(
    alloc: Global,
    home: Home,
    point: Point<'a>,
    behind: &[Task<'a>],
) -> Result<Vec<Task<'a>>, AllocError>
    ensures { IfOk result (λ v. tasks_view v.items
        ≡ to_run (home_view home) (point_view point.entry) ∷ tasks_view behind.now) }
{
    let mut tasks = copy_tasks(alloc, behind)?;
    tasks.push(Task::Run(home, point))?;
    Ok(tasks)
}

/// The tasks behind the statement, in which the statements behind it are run first.
pub(crate) fn tasks_behind<'t, 'a>(
    alloc: Global,
    next: &Upcoming<'t, 'a>,
) -> Result<Vec<Task<'a>>, AllocError>
    ensures { IfOk result (λ v. tasks_view v.items ≡ tasks_behind (upcoming_view next.now)) }
{
    let rest = copy_point(alloc, &next.rest)?;
    run_before(alloc, next.home, rest, next.tasks)
}

/// The tasks in which the statements of a block are run first, and then those behind the statement.
pub(crate) fn tasks_within<'t, 'a>(
    alloc: Global,
    next: &Upcoming<'t, 'a>,
    block: &'a [Statement],
) -> Result<Vec<Task<'a>>, AllocError>
    ensures { IfOk result (λ v. tasks_view v.items
        ≡ to_run (upcoming_view next.now).home
        (append (block_view block.now) (upcoming_view next.now).rest)
        ∷ (upcoming_view next.now).tasks) }
{
    let inner = entered(alloc, block, &next.rest)?;
    run_before(alloc, next.home, inner, next.tasks)
}
