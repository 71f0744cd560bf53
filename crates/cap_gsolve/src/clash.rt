//! Whether two forms of one part of a guard can't be held together.
ghost use Rattle.std.specs.Prelude.{◌≡◌};
ghost use Rattle.cap_galg.specs.Views.{algebra_view};
ghost use Rattle.cap_gsolve.specs.Merge.{clashes_at as parts_clash, clashes as some_clash};

use crate::piece::{Form, Piece};
use cap_galg::Algebra;
use cap_lin::Term;

// Whether a piece and the form of an atom are surely some parts on two sides of a sum.
fn clashes_at(
    algebra: &Algebra,
    piece: &Piece,
    region: &Term,
    kind: u32,
    atom: u32,
    form: &Form,
) -> bool
    ensures { let a = algebra_view algebra.now in
        result ≡ parts_clash a region.now kind atom form.now piece.now }
{
    piece.is_of(region, kind)
        && algebra.are_apart(atom, piece.atom)
        && form.is_surely_some()
        && piece.form.is_surely_some()
}

/// Whether some piece stands on another side of a sum than a form, both surely some parts.
pub fn clashes(
    algebra: &Algebra,
    pieces: &[Piece],
    region: &Term,
    kind: u32,
    atom: u32,
    form: &Form,
) -> bool
    ensures { let a = algebra_view algebra.now in
        result ≡ some_clash a pieces.now region.now kind atom form.now }
{
    pieces.iter().any(|piece| clashes_at(algebra, piece, region, kind, atom, form))
}
