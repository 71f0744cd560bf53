//! What is offered by the head of a goal's tasks.
ghost use Rattle.std.specs.Prelude.{IfOk};
ghost use Rattle.cap_prog.specs.Program.{none};
ghost use Rattle.cap_prog.specs.Views.{program_view};
ghost use Rattle.cap_goal_spec.specs.Fits.{HasRoom};
ghost use Rattle.cap_goal.specs.Views.{goal_view, items_in, task_view, tasks_view};
ghost use Rattle.cap_rules_steps.specs.Goals.{point_view};
ghost use Rattle.cap_offer_spec.specs.Listing.{closings as closings_in};
ghost use Rattle.cap_offer_spec.specs.Scanning.{tried_all as all_tried};
ghost use Rattle.cap_offer_spec.specs.Offering.{at_task as task_at, at_tasks as tasks_at};
ghost use Rattle.cap_closure_decide.specs.Noting.{Adds};
ghost use Rattle.cap_offer.specs.Heads.{at_block, at_items, at_head};
ghost use Rattle.cap_offer.specs.Views.{choices_view};

use crate::facts::at_fact;
use crate::heap::at_statement;
use crate::items::{at_item, first_item};
use crate::listing::closings;
use crate::shifting::at_shift;
use crate::trying::{only, tried_all, tried_alone};
use cap_closure_decide::{Notes, decided};
use cap_goal::{Choice, Goal, Items, Point, Task};
use cap_prog::Program;
use cap_rules_steps::next_statement;
use std::alloc::{AllocError, Global};

// At the statement that comes first.
fn at_point(
    alloc: Global,
    program: &Program,
    goal: &Goal<'_>,
    point: &Point<'_>,
    notes: &mut Notes,
) -> Result<Vec<Choice>, AllocError>
    requires { HasRoom goal.now.state }
    ensures { IfOk result (λ v. Adds notes.old notes.new (choices_view v.items)
        (at_block (program_view program.now) (goal_view goal.now) (point_view point.now))) }
{
    match next_statement(alloc, point)? {
        None => Ok(Vec::new(alloc)),
        Some((statement, rest)) => {
            drop(rest);
            at_statement(alloc, program, goal, &statement.act, notes)
        }
    }
}

// At the item that comes first.
fn at_first_item(
    alloc: Global,
    program: &Program,
    goal: &Goal<'_>,
    items: &Items<'_>,
    env: u32,
    notes: &mut Notes,
) -> Result<Vec<Choice>, AllocError>
    requires { HasRoom goal.now.state }
    ensures { IfOk result (λ v. Adds notes.old notes.new (choices_view v.items)
        (at_items (program_view program.now) (goal_view goal.now) env
        (items_in items.now.lists.items none))) }
{
    match first_item(alloc, items)? {
        None => Ok(Vec::new(alloc)),
        Some(item) => at_item(alloc, program, goal, env, item, notes),
    }
}

// At a region that is to be closed.
fn at_close(
    alloc: Global,
    program: &Program,
    goal: &Goal<'_>,
    notes: &mut Notes,
) -> Result<Vec<Choice>, AllocError>
    requires { HasRoom goal.now.state }
    ensures { IfOk result (λ v. Adds notes.old notes.new (choices_view v.items)
        (all_tried (program_view program.now) (goal_view goal.now)
        (closings_in (program_view program.now) goal.now.state))) }
{
    let choices = closings(alloc, program, &goal.state)?;
    tried_all(alloc, program, goal, choices, notes)
}

// By the head.
fn at_task(
    alloc: Global,
    program: &Program,
    goal: &Goal<'_>,
    task: &Task<'_>,
    notes: &mut Notes,
) -> Result<Vec<Choice>, AllocError>
    requires { HasRoom goal.now.state }
    ensures { IfOk result (λ v. Adds notes.old notes.new (choices_view v.items)
        (task_at (program_view program.now) (goal_view goal.now) (task_view task.now))) }
{
    match task {
        Task::Run(_, point) => at_point(alloc, program, goal, point, notes),
        Task::Turn(_, _) => tried_alone(alloc, program, goal, Choice::Turn, notes),
        Task::Give(_, _, _) => tried_alone(alloc, program, goal, Choice::Give, notes),
        Task::Take(items, env, _, _) => at_first_item(alloc, program, goal, items, *env, notes),
        Task::Made(_, _, _, _, _) => {
            tried_alone(alloc, program, goal, Choice::Made(Vec::new(alloc)), notes)
        }
        Task::Close(_, _) => at_close(alloc, program, goal, notes),
        Task::Shift(opened, case, by, env, _) => {
            at_shift(alloc, program, goal, *opened, *case, *by, *env, notes)
        }
        Task::Rest(number, _) => at_fact(alloc, program, &goal.state, *number, notes),
    }
}

// A contradiction among the rows is decided first; where there is one, nothing else is looked at.
fn unless_absurd(
    alloc: Global,
    program: &Program,
    goal: &Goal<'_>,
    task: &Task<'_>,
    notes: &mut Notes,
) -> Result<Vec<Choice>, AllocError>
    requires { HasRoom goal.now.state }
    ensures { IfOk result (λ v. Adds notes.old notes.new (choices_view v.items)
        (at_head (program_view program.now) (goal_view goal.now) (task_view task.now))) }
{
    match decided(alloc, goal.state.rows(), notes)? {
        Some(cert) => only(alloc, Some(Choice::Absurd(cert))),
        None => at_task(alloc, program, goal, task, notes),
    }
}

/// What is offered at a goal with these tasks, of which the last comes first.
pub(crate) fn at_tasks(
    alloc: Global,
    program: &Program,
    goal: &Goal<'_>,
    tasks: &[Task<'_>],
    notes: &mut Notes,
) -> Result<Vec<Choice>, AllocError>
    requires { HasRoom goal.now.state }
    ensures { IfOk result (λ v. Adds notes.old notes.new (choices_view v.items)
        (tasks_at (program_view program.now) (goal_view goal.now) (tasks_view tasks.now))) }
{
    match tasks {
        [] => Ok(Vec::new(alloc)),
        [.., task] => unless_absurd(alloc, program, goal, task, notes),
    }
}
