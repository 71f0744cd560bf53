//! Trees that grow from choices in preorder.
ghost use Rattle.std.specs.Prelude.{◌≤◌, map};
ghost use Rattle.std.specs.List.{AllByRecursion};
ghost use Rattle.cap_prog.specs.Views.{program_view};
ghost use Rattle.cap_goal.specs.Views.{goal_view};
ghost use Rattle.cap_rules.specs.Valid.{deepest};
ghost use Rattle.cap_rules_fits.specs.Kept.{IsKept};
ghost use Rattle.cap_kernel_check_steps.specs.Views.{StartIsKept, start_view, starts_view};
ghost use Rattle.cap_kernel_check_steps.specs.GrowthViews.{Grows, GrowsAll};
ghost use Rattle.cap_kernel_check_steps.specs.GrowthViews.{GrowsAtRoot, GrowsAtRoots};
ghost use Rattle.cap_kernel_check_steps.specs.GrowthViews.{preorder_view};

use crate::error::CheckError;
use crate::left::goals_left;
use crate::preorder::Preorder;
use crate::start::Start;
use cap_goal::{DEEPEST, Goal, Node};
use cap_prog::Program;
use std::alloc::Global;

// The tree of a goal that has so many nodes above it.
#[cycle(growth)]
fn grow<'a>(
    alloc: Global,
    program: &'a Program,
    above: u32,
    goal: &Goal<'a>,
    choices: &mut Preorder<'_>,
) -> Result<Node, CheckError>
    requires shallow { above ≤ deepest }
    requires kept { IsKept (program_view program.now) (goal_view goal.now) }
    ensures { Grows (program_view program.now) above (goal_view goal.now)
        (preorder_view choices.old) result (preorder_view choices.new) }
{
    let Some(choice) = choices.next() else {
        return Err(CheckError::Shape(choices.number()));
    };
    if above == DEEPEST {
        return Err(CheckError::Node(choices.passed()));
    }
    let Some(goals) = goals_left(alloc, program, goal, choice)? else {
        return Err(CheckError::Node(choices.passed()));
    };
    let children = grow_all(alloc, program, above + 1, &goals, choices)?;
    Ok(Node {
        choice: choice.copy(alloc)?,
        children,
    })
}

// The trees of goals, one after another.
#[cycle(growth)]
fn grow_all<'a>(
    alloc: Global,
    program: &'a Program,
    above: u32,
    goals: &[Goal<'a>],
    choices: &mut Preorder<'_>,
) -> Result<Vec<Node>, CheckError>
    requires shallow { above ≤ deepest }
    requires kept { AllByRecursion (IsKept (program_view program.now)) (map goal_view goals.now) }
    ensures { GrowsAll (program_view program.now) above (map goal_view goals.now)
        (preorder_view choices.old) result (preorder_view choices.new) }
{
    let mut nodes = Vec::with_capacity(alloc, goals.len())?;
    for goal in goals {
        nodes.push(grow(alloc, program, above, goal, choices)?)?;
    }
    Ok(nodes)
}

// The tree of a root, if it has tasks.
fn grow_at_root<'a>(
    alloc: Global,
    program: &'a Program,
    start: &Start<'a>,
    choices: &mut Preorder<'_>,
) -> Result<Option<Node>, CheckError>
    requires { StartIsKept (program_view program.now) (start_view start.now) }
    ensures { GrowsAtRoot (program_view program.now) (start_view start.now)
        (preorder_view choices.old) result (preorder_view choices.new) }
{
    match start {
        Start::NoTasks => Ok(None),
        Start::At(goal) => Ok(Some(grow(alloc, program, 0, goal, choices)?)),
        Start::Barred => Err(CheckError::Node(choices.number())),
    }
}

/// The trees of all roots, one after another.
pub(crate) fn grow_at_roots<'a>(
    alloc: Global,
    program: &'a Program,
    starts: &[Start<'a>],
    choices: &mut Preorder<'_>,
) -> Result<Vec<Option<Node>>, CheckError>
    requires { AllByRecursion (StartIsKept (program_view program.now)) (starts_view starts.now) }
    ensures { GrowsAtRoots (program_view program.now) (starts_view starts.now)
        (preorder_view choices.old) result (preorder_view choices.new) }
{
    let mut trees = Vec::with_capacity(alloc, starts.len())?;
    for start in starts {
        trees.push(grow_at_root(alloc, program, start, choices)?)?;
    }
    Ok(trees)
}
