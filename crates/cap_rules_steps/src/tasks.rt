//! Tasks once more, and goals of them.
ghost use Rattle.std.specs.Prelude.{◌≡◌, ◌++◌, ℕ, map, IfOk, OnOk, length};
ghost use Rattle.cap_rules.specs.cap_goal_spec.States.{PlainState, goal_of, goals_of};
ghost use Rattle.cap_goal.specs.Views.{goal_view, task_view, tasks_view};
ghost use Rattle.cap_rules_steps.specs.Goals.{goal_at, head_is_done};

use cap_goal::{Goal, Items, Point, State, Task};
use std::alloc::{AllocError, Global};

fn copy_items<'a>(alloc: Global, items: &Items<'a>) -> Result<Items<'a>, AllocError>
    ensures { IfOk result (λ i. i.lists.items ≡ items.now.lists.items) }
{
    Ok(Items {
        lists: Vec::from_slice(alloc, &items.lists)?,
    })
}

/// The same point once more.
pub fn copy_point<'a>(alloc: Global, point: &Point<'a>) -> Result<Point<'a>, AllocError>
    ensures { IfOk result (λ p. p.lists.items ≡ point.now.lists.items) }
{
    Ok(Point {
        lists: Vec::from_slice(alloc, &point.lists)?,
    })
}

fn copy_task<'a>(alloc: Global, task: &Task<'a>) -> Result<Task<'a>, AllocError>
    ensures { IfOk result (λ t. task_view t ≡ task_view task.now) }
{
    match task {
        Task::Run(home, point) => Ok(Task::Run(*home, copy_point(alloc, point)?)),
        Task::Turn(home, point) => Ok(Task::Turn(*home, copy_point(alloc, point)?)),
        Task::Give(items, env, at) => Ok(Task::Give(copy_items(alloc, items)?, *env, *at)),
        Task::Take(items, env, left, at) => {
            Ok(Task::Take(copy_items(alloc, items)?, *env, *left, *at))
        }
        Task::Made(kind, case, env, term, at) => {
            Ok(Task::Made(*kind, *case, *env, term.copy(alloc)?, *at))
        }
        Task::Close(any, at) => Ok(Task::Close(*any, *at)),
        Task::Shift(opened, case, action, env, at) => {
            Ok(Task::Shift(*opened, *case, *action, *env, *at))
        }
        Task::Rest(from, at) => Ok(Task::Rest(*from, *at)),
    }
}

/// The same tasks once more.
pub fn copy_tasks<'a>(alloc: Global, tasks: &[Task<'a>]) -> Result<Vec<Task<'a>>, AllocError>
    ensures { IfOk result (λ v. map task_view v.items ≡ map task_view tasks.now) }
{
    let mut copies = Vec::new(alloc);
    for task in tasks {
        copies.push(copy_task(alloc, task)?)?;
    }
    Ok(copies)
}

// Whether there is nothing to be done at the last task.
fn ends_done(tasks: &Vec<Task<'_>>, facts: usize) -> bool
    ensures { result ≡ head_is_done facts (tasks_view tasks.now.items) }
{
    match tasks.last() {
        None => false,
        Some(task) => task.is_done(facts),
    }
}

// Removes the last tasks at which there is nothing to be done.
fn remove_done(tasks: &mut Vec<Task<'_>>, facts: usize)
    ensures { (s : PlainState) → length s.facts ≡ facts →
        goal_of s (tasks_view tasks.old.items) ≡ goal_at s (tasks_view tasks.new.items) }
{
    while ends_done(tasks, facts) {
        drop(tasks.pop());
    }
}

/// Adds the goal of these tasks, the last of which is its head, unless nothing is to be done.
pub fn add_goal<'a>(
    goals: &mut Vec<Goal<'a>>,
    state: State,
    tasks: Vec<Task<'a>>,
) -> Result<(), AllocError>
    ensures { OnOk result (map goal_view goals.new.items
        ≡ map goal_view goals.old.items ++ goals_of state (tasks_view tasks.entry.items)) }
{
    let mut tasks = tasks;
    remove_done(&mut tasks, state.facts().len());
    if tasks.is_empty() {
        drop(tasks);
        drop(state);
        return Ok(());
    }
    goals.push(Goal { state, tasks })?;
    Ok(())
}

/// The goal of these tasks alone, unless nothing is to be done.
pub fn leaves<'a>(
    alloc: Global,
    state: State,
    tasks: Vec<Task<'a>>,
) -> Result<Vec<Goal<'a>>, AllocError>
    ensures { IfOk result
        (λ gs. map goal_view gs.items ≡ goals_of state (tasks_view tasks.entry.items)) }
{
    let mut goals = Vec::new(alloc);
    add_goal(&mut goals, state, tasks)?;
    Ok(goals)
}
