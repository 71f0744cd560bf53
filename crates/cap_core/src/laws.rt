//! Laws: what is decided is a core, and a core is needed as a whole.
ghost use Rattle.cap_core.specs.Core.{CoresAreIrreducible};
ghost use Rattle.cap_core.specs.Deciding.{DecidedAreCores};

/// A law: the core of infeasible rows is infeasible, and without any one of its rows it is not, so
/// that no certificate can do without that row (Farkas' lemma: rows are infeasible exactly where a
/// certificate refutes them).
pub fn cores_are_irreducible()
    ensures { CoresAreIrreducible }
{}

/// A law: where no decision passes a limit, what the decisions leave of rows, in whose terms the
/// variables ascend, is their core.
pub fn decided_are_cores()
    ensures { DecidedAreCores }
{}
