//! Slots: a term, a new name, or any value.
ghost use Rattle.std.specs.Prelude.{◌≡◌, IfOk, map};
ghost use Rattle.std.specs.List.{AllByRecursion};
ghost use Rattle.cap_parse_tree.specs.Views.{behind_view, slot_view};
ghost use Rattle.cap_resolve_spec.specs.Program.{slot_program};
ghost use Rattle.cap_resolve_functions.specs.Narrow.{IsNarrowSlot, IsNarrowPart};

use crate::terms::build_term;
use cap_parse_tree::Slot as SlotTree;
use cap_prog::Slot;
use cap_resolve_terms::Scope;
use cap_syntax::Place;
use std::alloc::{AllocError, Global};

/// The slot of a tree.
pub(crate) fn build_slot(
    alloc: Global,
    scope: &Scope<'_>,
    slot: &SlotTree,
) -> Result<Slot, AllocError>
    requires { IsNarrowSlot scope.now (slot_view slot.now) }
    ensures { IfOk result (λ s. s ≡ slot_program scope.now (slot_view slot.now)) }
{
    match slot {
        SlotTree::Any(_) => Ok(Slot::Any),
        SlotTree::Is(given) => Ok(Slot::Is(build_term(alloc, scope, given)?)),
    }
}

/// The slots of a list, each behind its comma.
pub(crate) fn build_slots(
    alloc: Global,
    scope: &Scope<'_>,
    list: &[(Place, SlotTree)],
) -> Result<Vec<Slot>, AllocError>
    requires { AllByRecursion (IsNarrowPart scope.now) (map (behind_view slot_view) list.now) }
    ensures { IfOk result (λ made. made.items
        ≡ map (λ a. slot_program scope.now a.1) (map (behind_view slot_view) list.now)) }
{
    let mut made = Vec::new(alloc);
    for part in list {
        made.push(build_slot(alloc, scope, &part.1)?)?;
    }
    Ok(made)
}
