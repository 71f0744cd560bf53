//! The lines of a derivation's states, gathered by the statements at which they stand.
ghost use Rattle.std.specs.Prelude.{◌≡◌, ◌++◌, ℕ, IfOk};
ghost use Rattle.std.specs.List.{AllByRecursion};
ghost use Rattle.cap_prog.specs.Views.{program_view};
ghost use Rattle.cap_goal.specs.Views.{goal_view};
ghost use Rattle.cap_kernel_nodes.specs.Laws.{NodeIsProven};
ghost use Rattle.cap_kernel_nodes.specs.Views.{nodes_ahead};
ghost use Rattle.cap_outline.specs.Gathered.{gathered_at, goal_lines, names_of as names_at};
ghost use Rattle.cap_outline.specs.Gathered.{nodes_lines};

use crate::gathered::Gathered;
use crate::points::spot_of;
use crate::state::state_line;
use cap_goal::Goal;
use cap_kernel_nodes::NodeWalk;
use cap_prog::Program;
use cap_syntax::Text;
use std::alloc::{AllocError, Global};

// The names of a function's variables, by the function's number.
fn names_of<'a>(program: &'a Program, function: u32) -> &'a [Text]
    ensures { result.now ≡ names_at (program_view program.now) function }
{
    match program.functions().get(function as usize) {
        None => &[],
        Some(function) => &function.variables,
    }
}

// Gathers the line of a goal's state, if the goal stands at a statement.
fn gather_goal(
    alloc: Global,
    gathered: &mut Gathered,
    program: &Program,
    goal: &Goal<'_>,
) -> Result<(), AllocError>
    ensures { IfOk result (λ _. (f k : ℕ) → gathered_at gathered.new f k
        ≡ gathered_at gathered.old f k
        ++ goal_lines (program_view program.now) f k (goal_view goal.now)) }
{
    let Some(spot) = spot_of(alloc, goal)? else {
        return Ok(());
    };
    let function = spot.home.function;
    let line = state_line(alloc, program, names_of(program, function), &goal.state)?;
    gathered.put(function as usize, spot.number as usize, &line)
}

/// Gathers the lines of the nodes that are still to come. The only error is want of memory.
pub(crate) fn gather<'a>(
    alloc: Global,
    program: &'a Program,
    mut walk: NodeWalk<'a>,
) -> Result<Gathered, AllocError>
    requires { let p = program_view program.now in
        AllByRecursion (NodeIsProven p) (nodes_ahead p walk) }
    ensures { let p = program_view program.now in IfOk result (λ g. (f k : ℕ) →
        gathered_at g f k ≡ nodes_lines p f k (nodes_ahead p walk.entry)) }
{
    let mut gathered = Gathered::new(alloc);
    'nodes: while let Some(node) = walk.next(alloc, program)? {
        gather_goal(alloc, &mut gathered, program, &node.goal)?;
    }
    Ok(gathered)
}
