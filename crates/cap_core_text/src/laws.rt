//! A law of the proofs of valid trees.
ghost use Rattle.cap_core_text.specs.Laws.{ProofsHaveCores};

use cap_core::{cores_are_irreducible, decided_are_cores};
use cap_kernel_nodes::nodes_are_proven;
use cap_rules_ascending::{owed_rows_ascend, roots_ascend, subgoals_ascend};

/// A law: at each node of valid trees of a unit the rows of each proof are infeasible, as a
/// certificate refutes them (Farkas' lemma); and where no limit is passed, the core's rows are, and
/// without any one of them they are not. The terms that the program's region types write are in
/// order.
pub fn proofs_have_cores()
    ensures { ProofsHaveCores }
{
    nodes_are_proven();
    owed_rows_ascend();
    subgoals_ascend();
    roots_ascend();
    decided_are_cores();
    cores_are_irreducible();
}
