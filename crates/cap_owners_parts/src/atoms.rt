//! Elements of one atom of an algebra, and full elements.
ghost use Rattle.std.specs.Prelude.{◌≡◌, ◌-◌, ◌==◌, if◌then◌else◌, IfOk};
ghost use Rattle.cap_galg.specs.Elements.{both, nothing, share};
ghost use Rattle.cap_galg.specs.Fractions.{fraction};
ghost use Rattle.cap_galg.specs.Algebras.{at_atom, atom_element, full};
ghost use Rattle.cap_galg.specs.Views.{algebra_view};
ghost use Rattle.cap_owners_parts.specs.declared.atoms.Placed.TheVariants.{Here, Past};
ghost use Rattle.cap_owners_parts.specs.Composed.{IsPlaced};
ghost use Rattle.cap_owners_parts.specs.Views.{element_view};

use crate::element::{Element, OVER, on_left, on_right};
use crate::indices::Indices;
use cap_galg::Algebra;
use std::alloc::{AllocError, Global};

// Where the walk for an atom has come to: the element with this atom, or how many atoms come before
// it after those that were passed, and the atom's own element.
#[derive(Drop)]
enum Placed {
    Here(Element),
    Past(u32, Element),
}

/// The element of an algebra in which one atom has an element, and no other has any.
pub(crate) fn atom_element(
    alloc: Global,
    algebra: &Algebra,
    atom: u32,
    element: Element,
) -> Result<Element, AllocError>
    ensures { IfOk result (λ x. element_view x
        ≡ atom_element (algebra_view algebra.now) atom (element_view element)) }
{
    if element.is_unit() {
        return Ok(Element::Nothing);
    }
    at_atom(alloc, algebra, atom, element)
}

fn at_atom(
    alloc: Global,
    algebra: &Algebra,
    atom: u32,
    element: Element,
) -> Result<Element, AllocError>
    ensures { IfOk result (λ x. element_view x
        ≡ at_atom (algebra_view algebra.now) atom (element_view element)) }
{
    match algebra {
        Algebra::Unique | Algebra::Divisible | Algebra::Counting | Algebra::Indexed => Ok(element),
        Algebra::Pair(a, b) => match walk_to(alloc, a, atom, element)? {
            Placed::Here(x) => with_none(alloc, x),
            Placed::Past(rest, element) => none_with(alloc, at_atom(alloc, b, rest, element)?),
        },
        Algebra::Either(a, b) => match walk_to(alloc, a, atom, element)? {
            Placed::Here(x) => on_left(alloc, x),
            Placed::Past(rest, element) => on_right(alloc, at_atom(alloc, b, rest, element)?),
        },
    }
}

fn walk_to(
    alloc: Global,
    algebra: &Algebra,
    atom: u32,
    element: Element,
) -> Result<Placed, AllocError>
    ensures { IfOk result (IsPlaced (algebra_view algebra.now) atom (element_view element)) }
{
    match algebra {
        Algebra::Unique | Algebra::Divisible | Algebra::Counting | Algebra::Indexed => {
            Ok(at_leaf(atom, element))
        }
        Algebra::Pair(a, b) => match walk_to(alloc, a, atom, element)? {
            Placed::Here(x) => Ok(Placed::Here(with_none(alloc, x)?)),
            Placed::Past(rest, element) => match walk_to(alloc, b, rest, element)? {
                Placed::Here(y) => Ok(Placed::Here(none_with(alloc, y)?)),
                Placed::Past(rest, element) => Ok(Placed::Past(rest, element)),
            },
        },
        Algebra::Either(a, b) => match walk_to(alloc, a, atom, element)? {
            Placed::Here(x) => Ok(Placed::Here(on_left(alloc, x)?)),
            Placed::Past(rest, element) => match walk_to(alloc, b, rest, element)? {
                Placed::Here(y) => Ok(Placed::Here(on_right(alloc, y)?)),
                Placed::Past(rest, element) => Ok(Placed::Past(rest, element)),
            },
        },
    }
}

fn at_leaf(atom: u32, element: Element) -> Placed
    ensures { result ≡ (if atom == 0 then Here element else Past (atom - 1) element) }
{
    if atom == 0 {
        Placed::Here(element)
    } else {
        Placed::Past(atom - 1, element)
    }
}

fn with_none(alloc: Global, element: Element) -> Result<Element, AllocError>
    ensures { IfOk result (λ x. element_view x ≡ both (element_view element) nothing) }
{
    let none = Box::new(alloc, Element::Nothing)?;
    Ok(Element::Both(Box::new(alloc, element)?, none))
}

fn none_with(alloc: Global, element: Element) -> Result<Element, AllocError>
    ensures { IfOk result (λ x. element_view x ≡ both nothing (element_view element)) }
{
    let none = Box::new(alloc, Element::Nothing)?;
    Ok(Element::Both(none, Box::new(alloc, element)?))
}

/// All of an algebra's guards.
pub(crate) fn full_element(alloc: Global, algebra: &Algebra) -> Result<Element, AllocError>
    ensures { IfOk result (λ x. element_view x ≡ full (algebra_view algebra.now)) }
{
    match algebra {
        Algebra::Unique => Ok(Element::One),
        Algebra::Divisible => Ok(all()),
        Algebra::Counting => Ok(Element::Src(0)),
        Algebra::Indexed => Ok(Element::Indices(Indices::from(alloc, 0)?)),
        Algebra::Pair(a, b) => {
            let first = Box::new(alloc, full_element(alloc, a)?)?;
            let second = Box::new(alloc, full_element(alloc, b)?)?;
            Ok(Element::Both(first, second))
        }
        Algebra::Either(_, _) => Ok(Element::Whole),
    }
}

// All of a divisible guard.
fn all() -> Element
    ensures { element_view result ≡ share (fraction 1 1) }
{
    Element::Share(OVER)
}
