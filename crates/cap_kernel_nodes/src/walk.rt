//! A walk over the nodes of the trees of a unit or of a program.
ghost use Rattle.std.specs.Prelude.{◌≡◌, IfOk, None};
ghost use Rattle.std.specs.List.{AllByRecursion};
ghost use Rattle.cap_lin.specs.Steps.{first_wide};
ghost use Rattle.cap_prog.specs.Views.{program_view};
ghost use Rattle.cap_goal_spec.specs.Roots.{all_roots_steps, roots_steps};
ghost use Rattle.cap_goal.specs.Views.{unit_view};
ghost use Rattle.cap_goal_roots.specs.Units.{HasUnit};
ghost use Rattle.cap_kernel_nodes.specs.Laws.{NodeIsProven};
ghost use Rattle.cap_rules_nodes.specs.Nodes.{program_nodes, unit_nodes};
ghost use Rattle.cap_kernel_nodes.specs.Views.{behind_next, nodes_ahead, trees_lent};

use crate::ahead::{GoalTree, push_trees, trees_at_roots};
use crate::goals::{all_roots, goals_left, roots_of};
use cap_goal::{Choice, Goal, Node, Unit};
use cap_prog::Program;
use std::alloc::{AllocError, Global};

/// A node of a tree: its goal, and the choice that is taken there.
#[derive(Drop)]
pub struct GoalNode<'a> {
    pub goal: Goal<'a>,
    pub choice: &'a Choice,
}

/// A walk over the nodes of the trees of a unit or of a program, in preorder. It keeps the trees that
/// are still to come, the next one last, so it takes no stack however deep they are.
#[derive(Drop)]
pub struct NodeWalk<'a> {
    ahead: Vec<GoalTree<'a>>,
}

impl<'a> NodeWalk<'a> {
    /// The walk over the trees of a unit, one for each root, before all nodes. The only error is
    /// want of memory.
    #[tactic(auto, unfolding(cap_rules_nodes::specs::Nodes::unit_nodes))]
    pub fn start(
        alloc: Global,
        program: &'a Program,
        unit: Unit,
        trees: &'a [Option<Node>],
    ) -> Result<NodeWalk<'a>, AllocError>
        requires there { HasUnit (program_view program.now) (unit_view unit) }
        requires narrow { first_wide (roots_steps (program_view program.now) (unit_view unit))
            ≡ None }
        ensures { let p = program_view program.now in IfOk result
            (λ w. nodes_ahead p w ≡ unit_nodes p (unit_view unit) (trees_lent trees.now)) }
    {
        let roots = roots_of(alloc, program, unit)?;
        Ok(NodeWalk {
            ahead: trees_at_roots(alloc, roots, trees)?,
        })
    }

    /// The walk over the trees of all units of a program, one for each root, before all nodes. The
    /// only error is want of memory.
    #[tactic(auto, unfolding(cap_rules_nodes::specs::Nodes::program_nodes))]
    pub fn start_program(
        alloc: Global,
        program: &'a Program,
        trees: &'a [Option<Node>],
    ) -> Result<NodeWalk<'a>, AllocError>
        requires { first_wide (all_roots_steps (program_view program.now)) ≡ None }
        ensures { let p = program_view program.now in IfOk result
            (λ w. nodes_ahead p w ≡ program_nodes p (trees_lent trees.now)) }
    {
        let roots = all_roots(alloc, program)?;
        Ok(NodeWalk {
            ahead: trees_at_roots(alloc, roots, trees)?,
        })
    }

    /// The next node, if there is one. The only error is want of memory, after which the walk has
    /// lost its place.
    pub fn next(
        &mut self,
        alloc: Global,
        program: &'a Program,
    ) -> Result<Option<GoalNode<'a>>, AllocError>
        requires { let p = program_view program.now in
            AllByRecursion (NodeIsProven p) (nodes_ahead p self.old) }
        ensures { let p = program_view program.now in IfOk result
            (λ n. nodes_ahead p self.old ≡ behind_next n (nodes_ahead p self.new)) }
    {
        let Some(GoalTree { goal, node }) = self.ahead.pop() else {
            return Ok(None);
        };
        let goals = goals_left(alloc, program, &goal, &node.choice)?;
        push_trees(alloc, &mut self.ahead, goals, &node.children)?;
        Ok(Some(GoalNode {
            goal,
            choice: &node.choice,
        }))
    }
}
