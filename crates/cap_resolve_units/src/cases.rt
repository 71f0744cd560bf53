//! What is wrong in a case.
ghost use Rattle.std.specs.Prelude.{◌≡◌, ◌++◌, fold, filter, IfOk, OnOk};
ghost use Rattle.cap_parse_tree.specs.Views.{term_view};
ghost use Rattle.cap_resolve_spec.specs.Finding.{note};
ghost use Rattle.cap_resolve_spec.specs.Names.{whole_numbers};
ghost use Rattle.cap_resolve_spec.specs.Parts.{whole_name as name_of_whole};
ghost use Rattle.cap_resolve_terms.specs.Views.{noted_view};
ghost use Rattle.cap_resolve_parts.specs.Views.{comparisons_view, parts_view, words_view, word_seen};
ghost use Rattle.cap_resolve_tables.specs.Tables.{regions_of, types_of};
ghost use Rattle.cap_resolve_tables.specs.Views.{occurrences_view};
ghost use Rattle.cap_resolve_scopes.specs.Lists.{is_known_with};
ghost use Rattle.cap_resolve_units.specs.Parts.{case_names, late_names, names_part, case_part};
ghost use Rattle.cap_resolve_units.specs.Parts.{known_part};

use crate::regions::note_known_case;
use cap_parse_tree::{Comparison, Term, Word};
use cap_resolve_findings::{note_ret, note_unknown};
use cap_resolve_parts::{Placed, whole_name};
use cap_resolve_scopes::{
    assertion_occurrences, bound_late, bound_scope, case_occurrences, known_in_case,
    unknown_in_case,
};
use cap_resolve_tables::{Occurrence, RegionTable, Types, new_names};
use cap_resolve_terms::{Noted, Scope};
use std::alloc::{AllocError, Global};

fn case_new<'a>(
    alloc: Global,
    scope: &Scope<'_>,
    types: Types<'_, '_, 'a>,
    state: &'a Term,
    when: &[&'a Comparison],
    parts: &[Placed<'a>],
) -> Result<Vec<Occurrence<'a>>, AllocError>
    ensures { IfOk result (λ names. occurrences_view names.items
        ≡ case_names scope.now (types_of types.entry) (term_view state.now)
        (comparisons_view when.now) (parts_view parts.now)) }
{
    let all = case_occurrences(alloc, state, when, types, parts)?;
    new_names(alloc, scope, all.as_slice())
}

fn case_late<'a>(
    alloc: Global,
    scope: &Scope<'_>,
    inner: &[Occurrence<'a>],
) -> Result<Vec<Occurrence<'a>>, AllocError>
    ensures { IfOk result (λ names. occurrences_view names.items
        ≡ late_names scope.now (occurrences_view inner.now)) }
{
    let bound = bound_scope(alloc, inner)?;
    let first = new_names(alloc, scope, inner)?;
    bound_late(alloc, &bound, first.as_slice())
}

fn note_names<'a>(
    noted: &mut Noted<'a>,
    alloc: Global,
    bound: &Scope<'_>,
    whole: Option<&Word>,
    new: &[Occurrence<'a>],
    late: &[Occurrence<'a>],
) -> Result<(), AllocError>
    ensures { OnOk result (noted_view noted.new ≡ fold note (noted_view noted.old)
        (names_part bound.now (word_seen whole.entry) (occurrences_view new.now)
        (occurrences_view late.now))) }
{
    let unknown = unknown_in_case(alloc, bound, whole, new)?;
    note_unknown(noted, unknown.as_slice());
    note_unknown(noted, late);
    note_ret(noted, new);
    Ok(())
}

fn note_case_of<'a>(
    noted: &mut Noted<'a>,
    alloc: Global,
    regions: &RegionTable<'a>,
    own: &Word,
    types: Types<'_, '_, 'a>,
    parameters: &[&'a Word],
    bound: &Scope<'a>,
    new: &[Occurrence<'a>],
    late: &[Occurrence<'a>],
    state: &'a Term,
    when: &[&'a Comparison],
    parts: &[Placed<'a>],
) -> Result<(), AllocError>
    ensures { OnOk result (noted_view noted.new ≡ fold note (noted_view noted.old)
        (names_part bound.now (name_of_whole (term_view state.now)) (occurrences_view new.now)
        (occurrences_view late.now)
        ++ known_part (regions_of regions.now) own.now (types_of types.entry)
        (words_view parameters.now)
        (filter (is_known_with bound.now (name_of_whole (term_view state.now)))
        (occurrences_view new.now)) (term_view state.now)
        (comparisons_view when.now) (parts_view parts.now))) }
{
    note_names(noted, alloc, bound, whole_name(state), new, late)?;
    let known = known_in_case(alloc, bound, whole_name(state), new)?;
    let names = known.as_slice();
    note_known_case(
        noted, alloc, regions, own, types, parameters, names, state, when, parts,
    )?;
    Ok(())
}

/// Notes what is wrong in a case, where the scope is that of the parameters.
pub(crate) fn note_case<'a>(
    noted: &mut Noted<'a>,
    alloc: Global,
    regions: &RegionTable<'a>,
    own: &Word,
    types: Types<'_, '_, 'a>,
    parameters: &[&'a Word],
    scope: &Scope<'a>,
    state: &'a Term,
    when: &[&'a Comparison],
    parts: &[Placed<'a>],
) -> Result<(), AllocError>
    requires { scope.now ≡ whole_numbers (words_view parameters.now) }
    ensures { OnOk result (noted_view noted.new ≡ fold note (noted_view noted.old)
        (case_part (regions_of regions.now) own.now (types_of types.entry)
        (words_view parameters.now) (term_view state.now) (comparisons_view when.now)
        (parts_view parts.now))) }
{
    let inner = assertion_occurrences(alloc, types, parts)?;
    let bound = bound_scope(alloc, inner.as_slice())?;
    let late = case_late(alloc, scope, inner.as_slice())?;
    let new = case_new(alloc, scope, types, state, when, parts)?;
    note_case_of(
        noted,
        alloc,
        regions,
        own,
        types,
        parameters,
        &bound,
        new.as_slice(),
        late.as_slice(),
        state,
        when,
        parts,
    )?;
    Ok(())
}
