//! Laws of symbolic guards, each the contract of a function that does nothing.
ghost use Rattle.std.specs.Prelude.{ℕ};
ghost use Rattle.cap_lin.specs.Linear.{Linear};
ghost use Rattle.cap_galg.specs.Algebras.{PlainAlgebra, sum, atoms};
ghost use Rattle.cap_gsolve.specs.Pieces.{pieces_of, full_forms};
ghost use Rattle.cap_gsolve.specs.Meaning.{AreAll, CompatMeans, PartsCompose};

/// All of a sum's right side is all of the sum, as all of its left side is: under each valuation
/// the full pieces of the right side, whose atoms come behind the left side's, compose to the full
/// element of the sum.
pub fn right_full_pieces_compose()
    ensures { (a b : PlainAlgebra) (r : Linear) (k : ℕ) →
        AreAll (sum a b) r k (pieces_of r k (full_forms b (atoms a))) }
{}

/// Where wanted atoms of a region compose with the pieces that are held, they are compatible with
/// these, and the rows of compatibility hold.
pub fn wanted_atoms_are_compatible()
    ensures { CompatMeans }
{}

/// What two parts of the guards hold is held together by the part that they compose to.
pub fn composed_parts_hold_both()
    ensures { PartsCompose }
{}
