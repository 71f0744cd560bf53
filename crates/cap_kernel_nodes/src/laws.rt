//! Laws of the nodes of valid trees.
ghost use Rattle.cap_kernel_nodes.specs.Laws.{NodesAreProven, ProgramNodesAreProven};

use cap_rules_fits::{roots_are_kept, subgoals_are_kept};
use cap_rules_marks::subgoals_are_proven;

/// A law: at each node of valid trees of a unit the goal fits the program, and the choice proves
/// what its rule owes.
pub fn nodes_are_proven()
    ensures { NodesAreProven }
{
    roots_are_kept();
    subgoals_are_kept();
    subgoals_are_proven();
}

/// A law: so it is at each node of valid trees of all units of a program.
pub fn program_nodes_are_proven()
    ensures { ProgramNodesAreProven }
{
    roots_are_kept();
    subgoals_are_kept();
    subgoals_are_proven();
}
