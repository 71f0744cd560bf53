//! The lines of a unit's proofs.
ghost use Rattle.std.specs.Prelude.{◌≡◌, ◌++◌, ◌+◌, IfOk, OnOk};
ghost use Rattle.std.specs.List.{AllByRecursion};
ghost use Rattle.cap_prog.specs.Views.{program_view};
ghost use Rattle.cap_goal.specs.Views.{unit_view};
ghost use Rattle.cap_goal_roots.specs.Units.{HasUnit};
ghost use Rattle.cap_kernel_nodes.specs.Laws.{NodeIsProven, UnitDerives};
ghost use Rattle.cap_kernel_nodes.specs.Views.{nodes_ahead, trees_lent};
ghost use Rattle.cap_core_text.specs.Lines.{core_lines, node_lines};

use crate::node::push_node;
use cap_goal::{Node, Unit};
use cap_kernel_nodes::{NodeWalk, nodes_are_proven};
use cap_prog::{Program, well_formed};
use std::alloc::{AllocError, Global};

// The number after this one; one past 64 bits counts as want of memory.
fn next_number(number: u64) -> Result<u64, AllocError>
    ensures { IfOk result (λ next. next ≡ number + 1) }
{
    match number.checked_add(1) {
        Some(next) => Ok(next),
        None => Err(AllocError),
    }
}

// Writes the lines of the nodes that are still to come.
fn push_nodes<'a>(
    alloc: Global,
    text: &mut Vec<u8>,
    program: &'a Program,
    mut walk: NodeWalk<'a>,
) -> Result<(), AllocError>
    requires { let p = program_view program.now in
        AllByRecursion (NodeIsProven p) (nodes_ahead p walk) }
    ensures { let p = program_view program.now in OnOk result
        (text.new.items ≡ text.old.items ++ node_lines p 1 (nodes_ahead p walk.entry)) }
{
    let mut number: u64 = 0;
    'nodes: while let Some(node) = walk.next(alloc, program)? {
        number = next_number(number)?;
        push_node(alloc, text, program, number, &node)?;
    }
    Ok(())
}

/// Writes a line for each proof of the trees of a unit, which are valid: the number of its node in
/// preorder and its own, each from 1, and the numbers of the rows of its core, from 0, or the limit
/// that is passed before they are found. The only error is want of memory.
pub fn push_core_lines(
    alloc: Global,
    text: &mut Vec<u8>,
    program: &Program,
    unit: Unit,
    trees: &[Option<Node>],
) -> Result<(), AllocError>
    requires there { HasUnit (program_view program.now) (unit_view unit) }
    requires valid { UnitDerives (program_view program.now) (unit_view unit) (trees_lent trees.now) }
    ensures { let p = program_view program.now in OnOk result (text.new.items
        ≡ text.old.items ++ core_lines p (unit_view unit) (trees_lent trees.now)) }
{
    well_formed(program);
    nodes_are_proven();
    let walk = NodeWalk::start(alloc, program, unit, trees)?;
    push_nodes(alloc, text, program, walk)
}
