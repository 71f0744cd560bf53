//! The names that a case or an action knows.
ghost use Rattle.std.specs.Prelude.{◌≡◌, IfOk};
ghost use Rattle.cap_parse_tree.specs.Views.{case_view, action_view};
ghost use Rattle.cap_resolve_parts.specs.Views.{parts_view};
ghost use Rattle.cap_resolve_tables.specs.Tables.{numbered_view, types_of};
ghost use Rattle.cap_resolve_tables.specs.Views.{occurrences_view};
ghost use Rattle.cap_resolve_regions.specs.Cases.{known_by_case, known_by_action};

use cap_parse_tree::{Action, Case};
use cap_resolve_parts::{Placed, atoms_of, comparisons_of, whole_name};
use cap_resolve_scopes::{
    action_occurrences, assertion_occurrences, bound_scope, case_occurrences, counted_names,
    known_in_action, known_in_case,
};
use cap_resolve_tables::{Numbered, Occurrence, Types, new_names};
use cap_resolve_terms::Scope;
use std::alloc::{AllocError, Global};

/// The new names that a case knows.
pub fn names_of_case<'a>(
    alloc: Global,
    scope: &Scope<'_>,
    types: Types<'_, '_, 'a>,
    parts: &[Placed<'a>],
    case: &'a Case,
) -> Result<Vec<Occurrence<'a>>, AllocError>
    ensures { IfOk result (λ names. occurrences_view names.items
        ≡ known_by_case scope.now (types_of types.entry) (parts_view parts.now)
        (case_view case.now)) }
{
    let when = comparisons_of(alloc, &case.when)?;
    let inner = assertion_occurrences(alloc, types, parts)?;
    let bound = bound_scope(alloc, inner.as_slice())?;
    let list = case_occurrences(alloc, &case.state, when.as_slice(), types, parts)?;
    let new = new_names(alloc, scope, list.as_slice())?;
    known_in_case(alloc, &bound, whole_name(&case.state), new.as_slice())
}

/// The new names that an action knows.
pub fn names_of_action<'a>(
    alloc: Global,
    scope: &Scope<'_>,
    region: Numbered<'_, '_>,
    action: &'a Action,
) -> Result<Vec<Occurrence<'a>>, AllocError>
    ensures { IfOk result (λ names. occurrences_view names.items
        ≡ known_by_action scope.now (numbered_view region.entry) (action_view action.now)) }
{
    let when = comparisons_of(alloc, &action.when)?;
    let guards = atoms_of(alloc, &action.guards)?;
    let counted = counted_names(alloc, region, guards.as_slice())?;
    let bound = bound_scope(alloc, counted.as_slice())?;
    let list = action_occurrences(
        alloc,
        region,
        guards.as_slice(),
        &action.source,
        &action.target,
        when.as_slice(),
    )?;
    let new = new_names(alloc, scope, list.as_slice())?;
    known_in_action(
        alloc,
        &bound,
        whole_name(&action.source),
        whole_name(&action.target),
        new.as_slice(),
    )
}
