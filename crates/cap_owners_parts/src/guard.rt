//! What a part has of one region's guards.
ghost use Rattle.std.specs.Prelude.{◌≡◌, true, IfOk, Some, option_map};
ghost use Rattle.cap_galg.specs.Algebras.{atom_element};
ghost use Rattle.cap_prog.specs.Views.{program_view};
ghost use Rattle.cap_machine_accounts.specs.Parts.{algebra_of, guard_of as made_guard};
ghost use Rattle.cap_owners_spec.specs.Filling.{counts_fit, joined};
ghost use Rattle.cap_owners_values.specs.Views.{Traces};
ghost use Rattle.cap_owners_parts.specs.Views.{element_view, guard_view};

use crate::atoms::atom_element;
use crate::element::Element;
use cap_owners_values::TraceError;
use cap_prog::Program;
use std::alloc::{AllocError, Global};

/// What a part has of one region's guards: the number of the region's type, and an element of its
/// algebra that is not the unit.
#[derive(Drop)]
pub struct Guard {
    pub(crate) kind: u32,
    pub(crate) element: Element,
}

impl Guard {
    /// The same guard once more.
    pub(crate) fn copy(&self, alloc: Global) -> Result<Guard, AllocError>
        ensures same { IfOk result (λ g. guard_view g ≡ guard_view self.now) }
        ensures fits { counts_fit (element_view self.now.element) ≡ true }
    {
        let element = self.element.copy(alloc)?;
        Ok(Guard {
            kind: self.kind,
            element,
        })
    }

    // This guard with an element of a type's guards that is not the unit.
    fn with_element(
        &self,
        alloc: Global,
        kind: u32,
        element: &Element,
    ) -> Result<Option<Guard>, TraceError>
        ensures { Traces result (option_map guard_view) (joined (Some (guard_view self.now))
            (Some (record { kind = kind; element = element_view element.now }))) }
    {
        if self.kind != kind {
            return Err(TraceError::Untold);
        }
        let whole = self.element.compose(alloc, element)?;
        Ok(guard_of(kind, whole))
    }
}

// No guard is the one unit of all region types.
fn guard_of(kind: u32, element: Element) -> Option<Guard>
    ensures { option_map guard_view result ≡ made_guard kind (element_view element) }
{
    if element.is_unit() {
        return None;
    }
    Some(Guard { kind, element })
}

/// What a guard that is held, if one is, and an element of a type's guards compose to. `Untold`
/// comes where they don't, and `PastWidth` where they do and a count leaves 128 bits.
pub(crate) fn join(
    alloc: Global,
    held: Option<&Guard>,
    kind: u32,
    element: Element,
) -> Result<Option<Guard>, TraceError>
    requires fits { counts_fit (element_view element) ≡ true }
    ensures { Traces result (option_map guard_view)
        (joined (option_map (λ g. guard_view g.now) held.entry)
        (made_guard kind (element_view element))) }
{
    match held {
        None => Ok(guard_of(kind, element)),
        Some(guard) => {
            if element.is_unit() {
                return Ok(Some(guard.copy(alloc)?));
            }
            guard.with_element(alloc, kind, &element)
        }
    }
}

/// The element of a region type's guards in which one atom has an element, and no other has any. A
/// type that there is not has one unique guard.
pub(crate) fn kind_element(
    alloc: Global,
    program: &Program,
    kind: u32,
    atom: u32,
    element: Element,
) -> Result<Element, AllocError>
    ensures { IfOk result (λ x. element_view x ≡ atom_element
        (algebra_of (program_view program.now) kind) atom (element_view element)) }
{
    match program.regions().get(kind as usize) {
        None => Ok(element),
        Some(region) => atom_element(alloc, &region.algebra, atom, element),
    }
}
