//! Trees that are still to come, with their goals.
ghost use Rattle.std.specs.Prelude.{◌≡◌, ◌++◌, IfOk, option_map, reverse};
ghost use Rattle.cap_prog.specs.Program.{PlainProgram};
ghost use Rattle.cap_goal.specs.Trees.{node_view, nodes_view};
ghost use Rattle.cap_goal_roots.specs.Views.{root_view, roots_view};
ghost use Rattle.cap_rules_steps.specs.Goals.{goals_view};
ghost use Rattle.cap_rules_nodes.specs.Nodes.{all_nodes_at, all_root_nodes, root_nodes};
ghost use Rattle.cap_kernel_nodes.specs.Views.{all_tree_nodes, trees_lent};

use cap_goal::{Goal, Node};
use std::alloc::{AllocError, Global};

/// A tree, with its goal.
#[derive(Drop)]
pub(crate) struct GoalTree<'a> {
    pub goal: Goal<'a>,
    pub node: &'a Node,
}

// Appends the tree of a root, unless it has no goal or no tree.
fn push_root<'a>(
    rooted: &mut Vec<GoalTree<'a>>,
    root: Option<Goal<'a>>,
    tree: &'a Option<Node>,
) -> Result<(), AllocError>
    ensures { IfOk result (λ _. (p : PlainProgram) → all_tree_nodes p rooted.new.items
        ≡ all_tree_nodes p rooted.old.items
        ++ root_nodes p (option_map node_view tree.now) (root_view root.entry)) }
{
    if let (Some(goal), Some(node)) = (root, tree) {
        rooted.push(GoalTree { goal, node })?;
    }
    Ok(())
}

/// The trees of roots beside their goals, the first of them last.
pub(crate) fn trees_at_roots<'a>(
    alloc: Global,
    roots: Vec<Option<Goal<'a>>>,
    trees: &'a [Option<Node>],
) -> Result<Vec<GoalTree<'a>>, AllocError>
    ensures { IfOk result (λ v. (p : PlainProgram) → all_tree_nodes p (reverse v.items)
        ≡ all_root_nodes p (trees_lent trees.now) (roots_view roots.entry.items)) }
{
    let mut rooted = Vec::new(alloc);
    for (root, tree) in roots.into_iter().zip(trees) {
        push_root(&mut rooted, root, tree)?;
    }
    rooted.reverse();
    Ok(rooted)
}

// Trees beside their goals, the first of them last.
fn trees_beside<'a>(
    alloc: Global,
    goals: Vec<Goal<'a>>,
    nodes: &'a [Node],
) -> Result<Vec<GoalTree<'a>>, AllocError>
    ensures { IfOk result (λ v. (p : PlainProgram) → all_tree_nodes p (reverse v.items)
        ≡ all_nodes_at p (nodes_view nodes.now) (goals_view goals.entry)) }
{
    let mut trees = Vec::with_capacity(alloc, nodes.len())?;
    for (goal, node) in goals.into_iter().zip(nodes) {
        trees.push(GoalTree { goal, node })?;
    }
    trees.reverse();
    Ok(trees)
}

/// Appends trees beside their goals, the first of them last, so that they come next.
pub(crate) fn push_trees<'a>(
    alloc: Global,
    ahead: &mut Vec<GoalTree<'a>>,
    goals: Vec<Goal<'a>>,
    nodes: &'a [Node],
) -> Result<(), AllocError>
    ensures { IfOk result (λ _. (p : PlainProgram) → all_tree_nodes p (reverse ahead.new.items)
        ≡ all_nodes_at p (nodes_view nodes.now) (goals_view goals.entry)
        ++ all_tree_nodes p (reverse ahead.old.items)) }
{
    let mut trees = trees_beside(alloc, goals, nodes)?;
    ahead.append(&mut trees)
}
