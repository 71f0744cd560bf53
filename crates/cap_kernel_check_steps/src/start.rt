//! Where the tree of a root starts: at a goal, at none, or where none can be made.
ghost use Rattle.std.specs.Prelude.{◌≡◌, option_map};
ghost use Rattle.cap_goal.specs.Views.{goal_view};
ghost use Rattle.cap_kernel_check_steps.specs.Starts.{start_of as start_of_root};
ghost use Rattle.cap_kernel_check_steps.specs.Views.{start_view};

use cap_goal::Goal;

/// What stands at a root: nothing is to be done, or a goal, or the unit has a term past 128 bits
/// there, so that no choice applies at any of its roots.
#[derive(Drop)]
pub enum Start<'a> {
    NoTasks,
    At(Goal<'a>),
    Barred,
}

/// A root without tasks has no goal.
pub(crate) fn start_of<'a>(root: Option<Goal<'a>>) -> Start<'a>
    ensures { start_view result ≡ start_of_root (option_map goal_view root.entry) }
{
    match root {
        None => Start::NoTasks,
        Some(goal) => Start::At(goal),
    }
}
