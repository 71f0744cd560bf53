//! What is to be done at a fork.
ghost use Rattle.std.specs.Prelude.{◌≡◌, ◌∷◌, IfOk};
ghost use Rattle.cap_prog.specs.Views.{function_view};
ghost use Rattle.cap_goal.specs.Views.{tasks_view};
ghost use Rattle.cap_goal_spec.specs.States.{to_take, to_rest};

use cap_goal::{Task, items_of};
use cap_prog::Function;
use std::alloc::{AllocError, Global};

/// What is to be done at a fork before the tasks behind it: in the environment of this number the
/// precondition is given up, in which three creations are allowed, and then all facts are settled.
/// Both arise at the statement of number `at`.
pub fn fork_tasks<'a>(
    alloc: Global,
    function: &'a Function,
    env: u32,
    at: u32,
    tasks: Vec<Task<'a>>,
) -> Result<Vec<Task<'a>>, AllocError>
    ensures { IfOk result (λ v. tasks_view v.items
        ≡ to_take (function_view function.now).requires env 3 at
        ∷ to_rest 0 at
        ∷ tasks_view tasks.entry.items) }
{
    let mut tasks = tasks;
    tasks.push(Task::Rest(0, at))?;
    let before = items_of(alloc, &function.requires_)?;
    tasks.push(Task::Take(before, env, 3, at))?;
    Ok(tasks)
}
