//! The heads of goals at which a region is opened or closed, or a statement acts on a cell.
ghost use Rattle.std.specs.Prelude.{◌≡◌, ◌∷◌, drop, IfOk, option_map};
ghost use Rattle.cap_goal.specs.Views.{home_view, task_view, tasks_view};
ghost use Rattle.cap_goal_spec.specs.States.{to_run};
ghost use Rattle.cap_rules_steps.specs.Goals.{point_view};
ghost use Rattle.cap_rules_steps.specs.Walks.{Makes, seen};
ghost use Rattle.cap_open.specs.Heads.{ahead_view, ahead_in, ahead_at, ahead_of};
ghost use Rattle.cap_open.specs.Heads.{run_at, run_view, statement_ahead};
ghost use Rattle.cap_open.specs.Heads.{closing_view, closing_at as closing_in, closing_of};
ghost use Rattle.cap_open.specs.Heads.{shifting_view, shifting_at as shifting_in, shifting_of};

use cap_goal::{Home, Point, Task};
use cap_prog::{Act, Statement};
use cap_rules_steps::{RuleError, copy_point, copy_tasks, next_statement};
use std::alloc::{AllocError, Global};

/// The statement that comes first, with its number, and the point behind it.
#[derive(Drop)]
pub(crate) struct Ahead<'a> {
    pub(crate) home: Home,
    pub(crate) number: u32,
    pub(crate) act: &'a Act,
    pub(crate) rest: Point<'a>,
}

// This statement comes first, and the point is behind it.
fn with_statement<'a>(home: Home, statement: &'a Statement, rest: Point<'a>) -> Ahead<'a>
    ensures { ahead_view result
        ≡ statement_ahead (home_view home) statement.now (point_view rest.entry) }
{
    Ahead {
        home,
        number: statement.number,
        act: &statement.act,
        rest,
    }
}

// The statement that comes first at a point of a body.
#[tactic(auto, using(cap_rules_steps::proofs::Walking::making))]
fn ahead_in<'a>(alloc: Global, home: Home, point: &Point<'a>) -> Result<Ahead<'a>, RuleError>
    ensures { Makes (seen ahead_view result) (ahead_in (home_view home) (point_view point.now)) }
{
    match next_statement(alloc, point)? {
        None => Err(RuleError::NotApplicable),
        Some((statement, rest)) => Ok(with_statement(home, statement, rest)),
    }
}

// The statements that are to be run, and the function at home.
fn run_of<'t, 'a>(task: &'t Task<'a>) -> Option<(Home, &'t Point<'a>)>
    ensures { option_map run_view result ≡ run_at (task_view task.now) }
{
    match task {
        Task::Run(home, point) => Some((*home, point)),
        Task::Turn(_, _)
        | Task::Give(_, _, _)
        | Task::Take(_, _, _, _)
        | Task::Made(_, _, _, _, _)
        | Task::Close(_, _)
        | Task::Shift(_, _, _, _, _)
        | Task::Rest(_, _) => None,
    }
}

// The statement of a task.
fn ahead_at<'a>(alloc: Global, task: &Task<'a>) -> Result<Ahead<'a>, RuleError>
    ensures { Makes (seen ahead_view result) (ahead_at (task_view task.now)) }
{
    match run_of(task) {
        None => Err(RuleError::NotApplicable),
        Some((home, point)) => ahead_in(alloc, home, point),
    }
}

/// The statement that comes first in the tasks.
pub(crate) fn ahead_of<'a>(alloc: Global, tasks: &[Task<'a>]) -> Result<Ahead<'a>, RuleError>
    ensures { Makes (seen ahead_view result) (ahead_of (tasks_view tasks.now)) }
{
    match tasks {
        [] => Err(RuleError::NotApplicable),
        [.., head] => ahead_at(alloc, head),
    }
}

/// The tasks behind the first one.
pub(crate) fn behind<'t, 'a>(tasks: &'t [Task<'a>]) -> &'t [Task<'a>]
    ensures { tasks_view result.now ≡ drop 1 (tasks_view tasks.now) }
{
    match tasks {
        [] => tasks,
        [rest @ .., _] => rest,
    }
}

/// What is behind a statement is run, and then come the tasks behind.
pub(crate) fn with_run<'a>(
    alloc: Global,
    home: Home,
    rest: &Point<'a>,
    behind: &[Task<'a>],
) -> Result<Vec<Task<'a>>, AllocError>
    ensures { IfOk result (λ v. tasks_view v.items
        ≡ to_run (home_view home) (point_view rest.now) ∷ tasks_view behind.now) }
{
    let mut tasks = copy_tasks(alloc, behind)?;
    let point = copy_point(alloc, rest)?;
    tasks.push(Task::Run(home, point))?;
    Ok(tasks)
}

/// How an opened region may be closed, by any move or only as it was, and the number of the
/// statement at which it was opened.
#[derive(Clone, Copy)]
pub(crate) struct Closing {
    pub(crate) any: bool,
    pub(crate) number: u32,
}

// How a region may be closed, where that is the task.
fn closing_at(task: &Task<'_>) -> Result<Closing, RuleError>
    ensures { Makes (seen closing_view result) (closing_in (task_view task.now)) }
{
    match task {
        Task::Close(any, number) => Ok(Closing {
            any: *any,
            number: *number,
        }),
        Task::Run(_, _) => Err(RuleError::NotApplicable),
        Task::Turn(_, _) => Err(RuleError::NotApplicable),
        Task::Give(_, _, _) => Err(RuleError::NotApplicable),
        Task::Take(_, _, _, _) => Err(RuleError::NotApplicable),
        Task::Made(_, _, _, _, _) => Err(RuleError::NotApplicable),
        Task::Shift(_, _, _, _, _) => Err(RuleError::NotApplicable),
        Task::Rest(_, _) => Err(RuleError::NotApplicable),
    }
}

/// How a region may be closed, where that is the first of the tasks.
pub(crate) fn closing_of(tasks: &[Task<'_>]) -> Result<Closing, RuleError>
    ensures { Makes (seen closing_view result) (closing_of (tasks_view tasks.now)) }
{
    match tasks {
        [] => Err(RuleError::NotApplicable),
        [.., head] => closing_at(head),
    }
}

/// A move that is to be checked: the opened region, its case, the move, and the environment, by
/// their numbers.
#[derive(Clone, Copy)]
pub(crate) struct Shifting {
    pub(crate) opened: u32,
    pub(crate) case: u32,
    pub(crate) action: u32,
    pub(crate) env: u32,
}

// The move that is to be checked, where that is the task.
fn shifting_at(task: &Task<'_>) -> Result<Shifting, RuleError>
    ensures { Makes (seen shifting_view result) (shifting_in (task_view task.now)) }
{
    match task {
        Task::Shift(opened, case, action, env, _) => Ok(Shifting {
            opened: *opened,
            case: *case,
            action: *action,
            env: *env,
        }),
        Task::Run(_, _) => Err(RuleError::NotApplicable),
        Task::Turn(_, _) => Err(RuleError::NotApplicable),
        Task::Give(_, _, _) => Err(RuleError::NotApplicable),
        Task::Take(_, _, _, _) => Err(RuleError::NotApplicable),
        Task::Made(_, _, _, _, _) => Err(RuleError::NotApplicable),
        Task::Close(_, _) => Err(RuleError::NotApplicable),
        Task::Rest(_, _) => Err(RuleError::NotApplicable),
    }
}

/// The move that is to be checked, where that is the first of the tasks.
pub(crate) fn shifting_of(tasks: &[Task<'_>]) -> Result<Shifting, RuleError>
    ensures { Makes (seen shifting_view result) (shifting_of (tasks_view tasks.now)) }
{
    match tasks {
        [] => Err(RuleError::NotApplicable),
        [.., head] => shifting_at(head),
    }
}
