//! The items of an assertion that is given, one after the other.
ghost use Rattle.std.specs.Prelude.{◌≡◌, IfOk};
ghost use Rattle.cap_prog.specs.Program.{none};
ghost use Rattle.cap_prog.specs.Views.{program_view};
ghost use Rattle.cap_goal.specs.Views.{items_in, tasks_view};
ghost use Rattle.cap_goal_spec.specs.States.{goals_of};
ghost use Rattle.cap_rules.specs.Giving.{give};
ghost use Rattle.cap_rules_steps.specs.Goals.{goals_view};
ghost use Rattle.cap_rules_steps.specs.Walks.{Makes, seen};

use crate::giving::give_item;
use crate::splitting::{Behind, as_conditional, split};
use cap_goal::{Goal, Items, State, Task};
use cap_prog::Program;
use cap_rules_steps::{RuleError, copy_tasks, leaves};
use cap_take_items::next_item;
use std::alloc::{AllocError, Global};

// The items once more.
fn copy_items<'a>(alloc: Global, items: &Items<'a>) -> Result<Items<'a>, AllocError>
    ensures { IfOk result (λ is. is.lists.items ≡ items.now.lists.items) }
{
    let lists = Vec::from_slice(alloc, &items.lists)?;
    Ok(Items { lists })
}

// The goal in which the tasks behind come first, unless nothing is to be done.
fn leaves_behind<'a>(
    alloc: Global,
    state: State,
    behind: &[Task<'a>],
) -> Result<Vec<Goal<'a>>, AllocError>
    ensures { IfOk result (λ gs. goals_view gs ≡ goals_of state (tasks_view behind.now)) }
{
    let tasks = copy_tasks(alloc, behind)?;
    leaves(alloc, state, tasks)
}

/// The subgoals where these items are to be given in the environment of a number: the items up to
/// the first conditional are assumed, each unbound name and each `_` by a fresh variable; at a
/// conditional there are two subgoals, one for each side. `NotApplicable` comes where a list of the
/// state is full and at a guard of a type that the program lacks; `Wide` where a result leaves 128
/// bits before that.
pub fn give<'a>(
    alloc: Global,
    program: &'a Program,
    state: &State,
    items: &Items<'a>,
    env: u32,
    at: u32,
    behind: &[Task<'a>],
) -> Result<Vec<Goal<'a>>, RuleError>
    ensures { Makes (seen goals_view result) (give (program_view program.now) state.now env at
        (tasks_view behind.now) (items_in items.now.lists.items none)) }
{
    let mut given = state.copy()?;
    let mut left = copy_items(alloc, items)?;
    while let Some((item, more)) = next_item(alloc, &left)? {
        match as_conditional(item) {
            Some(choice) => {
                let rest = Behind {
                    items: more,
                    env,
                    at,
                    tasks: behind,
                };
                return split(
                    alloc,
                    &given,
                    choice.comparison,
                    choice.then_items,
                    choice.else_items,
                    &rest,
                );
            }
            None => give_item(alloc, program, &mut given, env, item)?,
        }
        left = more;
    }
    Ok(leaves_behind(alloc, given, behind)?)
}
