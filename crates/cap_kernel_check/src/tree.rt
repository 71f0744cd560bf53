//! A walk over a tree beside the goals that are owed.
ghost use Rattle.std.specs.Prelude.{map};
ghost use Rattle.std.specs.List.{AllByRecursion};
ghost use Rattle.cap_prog.specs.Views.{program_view};
ghost use Rattle.cap_goal.specs.Trees.{node_view, nodes_view};
ghost use Rattle.cap_goal.specs.Views.{goal_view};
ghost use Rattle.cap_rules_fits.specs.Kept.{IsKept};
ghost use Rattle.cap_kernel_check_steps.specs.Views.{Walked, walk_view};
ghost use Rattle.cap_kernel_check_steps.specs.Walks.{After, entered, Visits, VisitsAll};

use cap_goal::{Goal, Node};
use cap_kernel_check_steps::{CheckError, Walk, goals_left};
use cap_prog::Program;
use std::alloc::Global;

/// Walks over the tree of a goal, below which there is room for so many levels.
#[cycle(walk)]
pub(crate) fn visit<'a>(
    alloc: Global,
    program: &'a Program,
    goal: &Goal<'a>,
    node: &Node,
    room: usize,
    walk: &mut Walk,
) -> Result<(), CheckError>
    requires { IsKept (program_view program.now) (goal_view goal.now) }
    ensures { Walked walk.new result (Visits (program_view program.now) (walk_view walk.old) room
        (node_view node.now) (goal_view goal.now)) }
{
    if room == 0 {
        return walk.fail();
    }
    match goals_left(alloc, program, goal, &node.choice)? {
        None => walk.fail(),
        Some(goals) => below(alloc, program, &goals, &node.children, room - 1, walk),
    }
}

// A node's choice applies, and the walk goes on below it.
#[cycle(walk)]
fn below<'a>(
    alloc: Global,
    program: &'a Program,
    goals: &[Goal<'a>],
    nodes: &[Node],
    room: usize,
    walk: &mut Walk,
) -> Result<(), CheckError>
    requires { AllByRecursion (IsKept (program_view program.now)) (map goal_view goals.now) }
    ensures { Walked walk.new result (After (entered (walk_view walk.old))
        (λ v. VisitsAll (program_view program.now) v room (nodes_view nodes.now)
        (map goal_view goals.now))) }
{
    walk.enter()?;
    visit_all(alloc, program, goals, nodes, room, walk)
}

// Trees of goals, one after the other.
#[cycle(walk)]
fn visit_all<'a>(
    alloc: Global,
    program: &'a Program,
    goals: &[Goal<'a>],
    nodes: &[Node],
    room: usize,
    walk: &mut Walk,
) -> Result<(), CheckError>
    requires { AllByRecursion (IsKept (program_view program.now)) (map goal_view goals.now) }
    ensures { Walked walk.new result (VisitsAll (program_view program.now) (walk_view walk.old) room
        (nodes_view nodes.now) (map goal_view goals.now)) }
{
    for (index, node) in nodes.iter().enumerate() {
        match goals.get(index) {
            None => return walk.surplus(room),
            Some(goal) => visit(alloc, program, goal, node, room, walk)?,
        }
    }
    if nodes.len() < goals.len() {
        walk.lack();
    }
    Ok(())
}
