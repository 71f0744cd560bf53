//! The goal of tasks, where there are any.
ghost use Rattle.std.specs.Prelude.{◌≡◌, ◌≤◌, length, take, option_map};
ghost use Rattle.cap_goal_spec.specs.States.{goal_of as goal_of_tasks};
ghost use Rattle.cap_goal.specs.Views.{tasks_view, goal_view};
ghost use Rattle.cap_goal_roots.specs.Views.{without_done};

use cap_goal::{Goal, State, Task};

// How many tasks are left without those that are first and have nothing to do, where there are so
// many facts. The last task is to be done first.
fn left_over(tasks: &[Task<'_>], facts: usize) -> usize
    ensures within { result ≤ length tasks.now }
    ensures left { tasks_view (take result tasks.now) ≡ without_done facts (tasks_view tasks.now) }
{
    let mut left = tasks.len();
    while left > 0 && tasks[left - 1].is_done(facts) {
        left -= 1;
    }
    left
}

/// The goal of these tasks, the last of which is to be done first. Tasks with nothing to do are
/// removed as long as one is first, and without tasks there is no goal. It takes no memory.
pub fn goal_of<'a>(state: State, mut tasks: Vec<Task<'a>>) -> Option<Goal<'a>>
    ensures { option_map goal_view result ≡ goal_of_tasks state (tasks_view tasks.entry.items) }
{
    let left = left_over(&tasks, state.facts().len());
    if left == 0 {
        return None;
    }
    tasks.truncate(left);
    Some(Goal { state, tasks })
}
