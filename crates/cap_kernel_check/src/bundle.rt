//! A walk over the trees of all units, and what it tells.
ghost use Rattle.std.specs.Prelude.{◌≡◌, length, map};
ghost use Rattle.std.specs.List.{AllByRecursion};
ghost use Rattle.cap_prog.specs.Views.{program_view};
ghost use Rattle.cap_goal.specs.Trees.{bundle_view};
ghost use Rattle.cap_goal.specs.Views.{goal_view};
ghost use Rattle.cap_rules_fits.specs.Kept.{IsKept};
ghost use Rattle.cap_kernel_check_steps.specs.Checks.{Checked, Concluded};
ghost use Rattle.cap_kernel_check_steps.specs.Starts.{at_goal, no_tasks};
ghost use Rattle.cap_kernel_check_steps.specs.Views.{StartIsKept, Walked, start_view, starts_view};
ghost use Rattle.cap_kernel_check_steps.specs.Views.{tree_view, walk_view};
ghost use Rattle.cap_kernel_check_steps.specs.Walks.{IsEnd, VisitsStart, VisitsStarts};

use crate::gather::starts;
use crate::tree::visit;
use cap_goal::{Bundle, DEEPEST, Goal, Node};
use cap_kernel_check_steps::{CheckError, Start, Walk, faulty_are_invalid, walks_tell};
use cap_prog::Program;
use std::alloc::Global;

// A root without tasks has no tree.
fn visit_nothing(program: &Program, tree: &Option<Node>, walk: &mut Walk) -> Result<(), CheckError>
    ensures { Walked walk.new result (VisitsStart (program_view program.now) (walk_view walk.old)
        (tree_view tree.now) no_tasks) }
{
    match tree {
        None => Ok(()),
        Some(_) => walk.misfit(),
    }
}

// A goal at a root has a tree.
fn visit_goal<'a>(
    alloc: Global,
    program: &'a Program,
    tree: &Option<Node>,
    goal: &Goal<'a>,
    walk: &mut Walk,
) -> Result<(), CheckError>
    requires { IsKept (program_view program.now) (goal_view goal.now) }
    ensures { Walked walk.new result (VisitsStart (program_view program.now) (walk_view walk.old)
        (tree_view tree.now) (at_goal (goal_view goal.now))) }
{
    match tree {
        None => {
            walk.lack();
            Ok(())
        }
        Some(node) => visit(alloc, program, goal, node, DEEPEST as usize, walk),
    }
}

// The tree of a root.
fn visit_start<'a>(
    alloc: Global,
    program: &'a Program,
    tree: &Option<Node>,
    start: &Start<'a>,
    walk: &mut Walk,
) -> Result<(), CheckError>
    requires { StartIsKept (program_view program.now) (start_view start.now) }
    ensures { Walked walk.new result (VisitsStart (program_view program.now) (walk_view walk.old)
        (tree_view tree.now) (start_view start.now)) }
{
    match start {
        Start::NoTasks => visit_nothing(program, tree, walk),
        Start::At(goal) => visit_goal(alloc, program, tree, goal, walk),
        Start::Barred => walk.bar(),
    }
}

/// The trees of all roots, as many as there are.
pub(crate) fn visit_starts<'a>(
    alloc: Global,
    program: &'a Program,
    trees: &[Option<Node>],
    starts: &[Start<'a>],
    walk: &mut Walk,
) -> Result<(), CheckError>
    requires kept { AllByRecursion
        (StartIsKept (program_view program.now)) (starts_view starts.now) }
    requires many { length trees.now ≡ length starts.now }
    ensures { Walked walk.new result (VisitsStarts (program_view program.now) (walk_view walk.old)
        (map tree_view trees.now) (starts_view starts.now)) }
{
    for (index, tree) in trees.iter().enumerate() {
        visit_start(alloc, program, tree, &starts[index], walk)?;
    }
    Ok(())
}

// A walk to the end.
fn walk_all<'a>(
    alloc: Global,
    program: &'a Program,
    trees: &[Option<Node>],
    starts: &[Start<'a>],
) -> Result<(), CheckError>
    requires kept { AllByRecursion
        (StartIsKept (program_view program.now)) (starts_view starts.now) }
    requires many { length trees.now ≡ length starts.now }
    ensures { Concluded result (IsEnd (program_view program.now) (map tree_view trees.now)
        (starts_view starts.now)) }
{
    let mut walk = Walk::new();
    match visit_starts(alloc, program, trees, starts, &mut walk) {
        Ok(()) => walk.end(),
        Err(error) => Err(error),
    }
}

/// Whether trees are valid derivations of all units of a program, one for each root, in the order
/// of the text. `Shape(1)` comes where there are not as many as roots, and otherwise `Node` or
/// `Shape` by the first node at which there is a fault: `Node` where a choice does not apply or a
/// node stands deeper than a thousand, or where a unit has a term past 128 bits at its roots;
/// `Shape` where a node is left over, or one is missing before it.
pub fn check(alloc: Global, program: &Program, bundle: &Bundle) -> Result<(), CheckError>
    ensures { Checked (program_view program.now) (bundle_view bundle.now) result }
{
    walks_tell();
    faulty_are_invalid();
    let starts = starts(alloc, program)?;
    if bundle.trees.len() != starts.len() {
        return Err(CheckError::Shape(1));
    }
    walk_all(alloc, program, &bundle.trees, &starts)
}
