//! What a node says of a walk.
ghost use Rattle.std.specs.Prelude.{◌≡◌, false, MatchOption, option_copied, option_map, slice_get};
ghost use Rattle.cap_prog.specs.Program.{PlainProgram};
ghost use Rattle.cap_goal.specs.Views.{choice_view, task_view, tasks_view};
ghost use Rattle.cap_goal_spec.specs.States.{PlainState};
ghost use Rattle.cap_owners_spec.specs.Walks.{pass_enter, pass_tasks, Interpreting, Walk};
ghost use Rattle.cap_owners_spec.specs.Walks.{stops as stops_in, stops_at as stops_task};
ghost use Rattle.cap_owners_passes.specs.Views.{enters_at};
ghost use Rattle.cap_owners_places.specs.Places.{child_in, goal_in};
ghost use Rattle.cap_owners_places.specs.Views.{placed_view};
ghost use Rattle.cap_owners_walks.specs.Nodes.{opened_fact};

use cap_goal::{Choice, Task};
use cap_owners_passes::Walk;
use cap_owners_places::Placed;

// Whether a walk stops at a task.
fn stops_at(seating: bool, task: &Task<'_>, walk: &Walk<'_>) -> bool
    ensures { result ≡ stops_task seating (task_view task.now) walk.now }
{
    match task {
        Task::Run(_, _) | Task::Turn(_, _) => walk.events.is_empty(),
        Task::Give(_, _, _) => walk.fill.is_none(),
        Task::Rest(_, _) => seating && walk.events.is_empty(),
        Task::Take(_, _, _, _)
        | Task::Made(_, _, _, _, _)
        | Task::Close(_, _)
        | Task::Shift(_, _, _, _, _) => false,
    }
}

// Whether a walk stops where this is still to be done; the last task is the head.
fn stops_before(seating: bool, tasks: &[Task<'_>], walk: &Walk<'_>) -> bool
    ensures { result ≡ stops_in seating (tasks_view tasks.now) walk.now }
{
    match tasks {
        [] => false,
        [.., head] => stops_at(seating, head, walk),
    }
}

/// Whether a walk stops at a node. It takes no memory.
pub(crate) fn stops(seating: bool, place: &Placed<'_>, walk: &Walk<'_>) -> bool
    ensures { result ≡ stops_in seating (goal_in (placed_view place.now)).tasks walk.now }
{
    stops_before(seating, &place.goal.tasks, walk)
}

// The node of this number, if there is one.
fn place_at<'t, 'a>(places: &'t [Placed<'a>], number: usize) -> Option<&'t Placed<'a>>
    ensures { option_copied result ≡ slice_get places.now number }
{
    places.get(number)
}

/// The child of this number, if there is one. It takes no memory.
pub(crate) fn child_at<'t, 'a>(
    place: &'t Placed<'a>,
    number: Option<usize>,
) -> Option<&'t Placed<'a>>
    ensures { option_map (λ q. placed_view q.now) result
        ≡ child_in (placed_view place.now) number }
{
    match number {
        None => None,
        Some(number) => place_at(&place.children, number),
    }
}

// The fact whose region a choice opens, by its number.
fn opened_fact(choice: &Choice) -> Option<u32>
    ensures { result ≡ opened_fact (choice_view choice.now) }
{
    match choice {
        Choice::Enter(fact, _) => Some(*fact),
        _ => None,
    }
}

/// The fact whose region is entered at a node, by its number, and `None` where none is. It takes no
/// memory.
pub(crate) fn entered_fact(choice: &Choice, tasks: &[Task<'_>]) -> Option<u32>
    ensures { MatchOption result
        (enters_at (choice_view choice.now) (tasks_view tasks.now) ≡ false)
        (λ i. (enter : Interpreting) (p : PlainProgram) (s : PlainState) (w : Walk) →
        pass_tasks enter p s (choice_view choice.now) (tasks_view tasks.now) w
        ≡ pass_enter enter p s i w) }
{
    match tasks {
        [.., Task::Run(..)] => opened_fact(choice),
        _ => None,
    }
}
