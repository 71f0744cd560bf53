//! Trees at their goals.
ghost use Rattle.std.specs.Prelude.{◌≡◌, IfOk, map};
ghost use Rattle.cap_prog.specs.Views.{program_view};
ghost use Rattle.cap_goal.specs.Trees.{node_view, nodes_view};
ghost use Rattle.cap_goal.specs.Views.{goal_view};
ghost use Rattle.cap_rules_steps.specs.Goals.{goals_view};
ghost use Rattle.cap_owners_places.specs.Places.{all_placed_at, placed_at, places_of};
ghost use Rattle.cap_owners_places.specs.Proven.{AllAreProven, IsProven};
ghost use Rattle.cap_owners_places.specs.Views.{placed_view};

use crate::placed::Placed;
use cap_goal::{Goal, Node};
use cap_kernel_nodes::goals_left;
use cap_prog::Program;
use std::alloc::{AllocError, Global};

/// A tree at its goal, with the goals of all its nodes. The only error is want of memory.
#[cycle(place)]
pub(crate) fn place_tree<'a>(
    alloc: Global,
    program: &'a Program,
    goal: Goal<'a>,
    node: &'a Node,
) -> Result<Placed<'a>, AllocError>
    requires { IsProven (program_view program.now) (node_view node.now) (goal_view goal) }
    ensures { IfOk result (λ q. placed_view q
        ≡ placed_at (program_view program.now) (node_view node.now) (goal_view goal.entry)) }
{
    let goals = goals_left(alloc, program, &goal, &node.choice)?;
    let children = place_all(alloc, program, goals, &node.children)?;
    Ok(Placed {
        goal,
        choice: &node.choice,
        children,
    })
}

// Trees beside their goals.
#[cycle(place)]
fn place_all<'a>(
    alloc: Global,
    program: &'a Program,
    goals: Vec<Goal<'a>>,
    nodes: &'a [Node],
) -> Result<Vec<Placed<'a>>, AllocError>
    requires { AllAreProven (program_view program.now) (nodes_view nodes.now)
        (goals_view goals) }
    ensures { IfOk result (λ v. places_of (map placed_view v.items)
        ≡ all_placed_at (program_view program.now) (nodes_view nodes.now)
        (goals_view goals.entry)) }
{
    let mut places = Vec::with_capacity(alloc, nodes.len())?;
    let mut goals = goals.into_iter();
    for node in nodes {
        let Some(goal) = goals.next() else {
            break;
        };
        places.push(place_tree(alloc, program, goal, node)?)?;
    }
    Ok(places)
}
