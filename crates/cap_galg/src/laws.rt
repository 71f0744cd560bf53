//! Laws of guard elements, each the contract of a function that does nothing.
ghost use Rattle.std.specs.Prelude.{◌≡◌, ℕ, List, Some, false};
ghost use Rattle.std.specs.List.{All};
ghost use Rattle.cap_galg_spec.specs.Elements.{Element, bind, compose, is_wide, on_left, on_right};
ghost use Rattle.cap_galg_spec.specs.Elements.{index_set};
ghost use Rattle.cap_galg_spec.specs.Algebras.{PlainAlgebra, sum, full, AtMost};
ghost use Rattle.cap_galg.specs.Lists.{compose_all};
ghost use Rattle.cap_galg.specs.Portions.{Portion, IsPortion, held_elements, wanted_elements};

use cap_galg_spec::Guard;

/// Where held pieces compose all together, and of each one an element of its atom is wanted that is
/// at most the held one, the wanted elements compose all together, to an element that is at most
/// what is held. Each wanted element has a held piece of its own: where two are wanted of one atom,
/// one held piece must not serve twice. Of a piece that isn't wanted, nothing is.
pub fn portions_compose()
    ensures { (a : PlainAlgebra) (ps : List Portion) (y : Element) → All (IsPortion a) ps →
        compose_all (held_elements a ps) ≡ Some y →
        (z : Element) × (compose_all (wanted_elements a ps) ≡ Some z) × AtMost a z y }
{}

/// On either side of a sum the full element becomes the full element of the sum, so that all of one
/// side may be given back as all of the other.
pub fn fulls_of_both_sides()
    ensures { (a b : PlainAlgebra) →
        (on_left (full a) ≡ full (sum a b)) × (on_right (full b) ≡ full (sum a b)) }
{}

/// Two parts of an indexed guard are never Wide: no number of theirs is bounded.
pub fn sets_of_indices_are_narrow()
    ensures { (xs ys : List ℕ) → is_wide (index_set xs) (index_set ys) ≡ false }
{}

/// Of three parts of a guard, it is the same to compose the first with the second and then with the
/// third, and the first with what the second and the third compose to; also whether they compose.
pub fn parts_are_associative<A: Guard>()
    ensures { (x y z : A) →
        bind (compose (A.element x) (A.element y)) (λ u. compose u (A.element z))
        ≡ bind (compose (A.element y) (A.element z)) (λ u. compose (A.element x) u) }
{}
