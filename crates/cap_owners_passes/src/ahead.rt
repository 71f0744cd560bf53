//! What comes first at a goal, and whether a goal is left.
ghost use Rattle.std.specs.Prelude.{◌≡◌};
ghost use Rattle.std.specs.List.{list_all};
ghost use Rattle.cap_goal.specs.Views.{block_in, is_done, items_in, task_view, tasks_view};
ghost use Rattle.cap_goal_spec.specs.States.{goals_of};
ghost use Rattle.cap_prog.specs.Program.{done, none};
ghost use Rattle.cap_rules.specs.Making.{is_empty};
ghost use Rattle.cap_owners_passes.specs.Views.{child_of, first_act, first_item, item_seen};
ghost use Rattle.cap_owners_passes.specs.Views.{statement_seen};

use cap_goal::{Items, Point, State, Task};
use cap_prog::{Item, Statement};

/// The first item, if there is one, and whether none follows it.
pub(crate) fn first_item<'a>(items: &Items<'a>) -> Option<(&'a Item, bool)>
    ensures { item_seen result ≡ first_item (items_in items.now.lists.items none) }
{
    let mut first = None;
    for list in &items.lists {
        match list {
            [] => {}
            [item] => first = Some((item, first.is_none())),
            [item, ..] => first = Some((item, false)),
        }
    }
    first
}

/// The first statement, if there is one.
pub(crate) fn first_statement<'a>(point: &Point<'a>) -> Option<&'a Statement>
    ensures { statement_seen result ≡ first_act (block_in point.now.lists.items done) }
{
    let mut first = None;
    for list in &point.lists {
        if let [statement, ..] = list {
            first = Some(statement);
        }
    }
    first
}

// Whether nothing is to be done at each of these tasks, where there are so many facts.
fn all_done(tasks: &[Task<'_>], facts: usize) -> bool
    ensures { result ≡ list_all (λ t. is_done facts (task_view t)) tasks.now }
{
    tasks.iter().all(|task| task.is_done(facts))
}

/// Whether these tasks leave no goal.
#[tactic(auto, using(crate::proofs::Firsts::tasks_left))]
pub(crate) fn are_done(tasks: &[Task<'_>], state: &State) -> bool
    ensures { result ≡ is_empty (goals_of state.now (tasks_view tasks.now)) }
{
    all_done(tasks, state.facts().len())
}

/// The child of a side of a conditional, by whether it holds and whether the goal of the side where
/// it does is missing.
pub(crate) fn child_of(holds: bool, missing: bool) -> Option<usize>
    ensures { result ≡ child_of holds missing }
{
    if holds {
        if missing { None } else { Some(0) }
    } else if missing {
        Some(0)
    } else {
        Some(1)
    }
}
