//! Laws of the trees that are found.
ghost use Rattle.cap_top_report.specs.Laws.{FoundAreValid, ProvedDerive, ProvedHaveCores};

use cap_core_text::proofs_have_cores;
use cap_rules_ascending::roots_ascend;
use cap_search_spec::{found_trees_are_first, proved_units_are_valid};

/// A law: where each unit of a program is proved, and the parts of the terms of its region types are
/// in order, the trees that are found are a valid derivation of all its units.
pub fn found_trees_are_valid()
    ensures { FoundAreValid }
{
    proved_units_are_valid();
}

/// A law: where the parts of the terms of a program's region types are in order, the trees by which
/// one of its units is proved are valid derivations of it.
pub fn proved_units_derive()
    ensures { ProvedDerive }
{
    roots_ascend();
    found_trees_are_first();
}

/// A law: of each unit of such a program that is proved, the rows of each proof are infeasible, as a
/// certificate refutes them; and where no limit is passed, the rows of the core are, and without any
/// one of them they are not.
pub fn proved_have_cores()
    ensures { ProvedHaveCores }
{
    proofs_have_cores();
    proved_units_derive();
}
