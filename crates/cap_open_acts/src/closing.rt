//! What is to be done after a statement.
ghost use Rattle.std.specs.Prelude.{◌≡◌, IfOk};
ghost use Rattle.cap_goal.specs.Views.{tasks_view};
ghost use Rattle.cap_rules_steps.specs.cap_rules.Closing.{closing};

use cap_goal::{Fact, Task};
use cap_rules_steps::copy_tasks;
use std::alloc::{AllocError, Global};

/// Each opened region is closed by any move, then all facts are settled, and then come these tasks.
pub(crate) fn closing_tasks<'a>(
    alloc: Global,
    opened: &[Fact],
    at: u32,
    behind: &[Task<'a>],
) -> Result<Vec<Task<'a>>, AllocError>
    ensures { IfOk result
        (λ v. tasks_view v.items ≡ closing opened.now at (tasks_view behind.now)) }
{
    let mut tasks = copy_tasks(alloc, behind)?;
    tasks.push(Task::Rest(0, at))?;
    for region in opened {
        let _region = region;
        tasks.push(Task::Close(true, at))?;
    }
    Ok(tasks)
}
