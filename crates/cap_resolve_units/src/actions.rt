//! What is wrong in an action.
ghost use Rattle.std.specs.Prelude.{◌≡◌, ◌++◌, fold, filter, IfOk, OnOk};
ghost use Rattle.cap_parse_tree.specs.Views.{term_view};
ghost use Rattle.cap_resolve_spec.specs.Finding.{note};
ghost use Rattle.cap_resolve_spec.specs.Names.{whole_numbers};
ghost use Rattle.cap_resolve_spec.specs.Parts.{whole_name as name_of_whole};
ghost use Rattle.cap_resolve_terms.specs.Views.{noted_view};
ghost use Rattle.cap_resolve_parts.specs.Views.{comparisons_view, guards_view, words_view, word_seen};
ghost use Rattle.cap_resolve_tables.specs.Tables.{numbered_view};
ghost use Rattle.cap_resolve_tables.specs.Views.{occurrences_view};
ghost use Rattle.cap_resolve_scopes.specs.Lists.{is_whole_with};
ghost use Rattle.cap_resolve_units.specs.Parts.{action_names, action_names_part, action_part};
ghost use Rattle.cap_resolve_units.specs.Parts.{whole_action_of, whole_action_part};

use crate::indices::note_indices;
use crate::regions::note_known_action;
use cap_parse_tree::{Comparison, GuardAtom, Term, Word};
use cap_resolve_findings::{note_ret, note_unknown};
use cap_resolve_parts::whole_name;
use cap_resolve_scopes::{
    action_occurrences, bound_scope, counted_names, known_in_action, unknown_in_action,
};
use cap_resolve_tables::{Numbered, Occurrence, new_names};
use cap_resolve_terms::{Noted, Scope};
use std::alloc::{AllocError, Global};

fn action_new<'a>(
    alloc: Global,
    scope: &Scope<'_>,
    region: Numbered<'_, '_>,
    atoms: &[&'a GuardAtom],
    source: &'a Term,
    target: &'a Term,
    when: &[&'a Comparison],
) -> Result<Vec<Occurrence<'a>>, AllocError>
    ensures { IfOk result (λ names. occurrences_view names.items
        ≡ action_names scope.now (numbered_view region.entry) (guards_view atoms.now)
        (term_view source.now) (term_view target.now) (comparisons_view when.now)) }
{
    let all = action_occurrences(alloc, region, atoms, source, target, when)?;
    new_names(alloc, scope, all.as_slice())
}

fn note_action_names<'a>(
    noted: &mut Noted<'a>,
    alloc: Global,
    bound: &Scope<'_>,
    source: Option<&Word>,
    target: Option<&Word>,
    new: &[Occurrence<'a>],
) -> Result<(), AllocError>
    ensures { OnOk result (noted_view noted.new ≡ fold note (noted_view noted.old)
        (action_names_part bound.now (word_seen source.entry) (word_seen target.entry)
        (occurrences_view new.now))) }
{
    let unknown = unknown_in_action(alloc, bound, source, target, new)?;
    note_unknown(noted, unknown.as_slice());
    note_ret(noted, new);
    Ok(())
}

fn note_action_of<'a>(
    noted: &mut Noted<'a>,
    alloc: Global,
    region: Numbered<'_, '_>,
    parameters: &[&'a Word],
    bound: &Scope<'a>,
    new: &[Occurrence<'a>],
    atoms: &[&'a GuardAtom],
    source: &'a Term,
    target: &'a Term,
    when: &[&'a Comparison],
) -> Result<(), AllocError>
    ensures { OnOk result (noted_view noted.new ≡ fold note (noted_view noted.old)
        (action_names_part bound.now (name_of_whole (term_view source.now))
        (name_of_whole (term_view target.now)) (occurrences_view new.now)
        ++ action_part (numbered_view region.entry) (words_view parameters.now)
        (filter (is_whole_with bound.now (name_of_whole (term_view source.now))
        (name_of_whole (term_view target.now))) (occurrences_view new.now))
        (guards_view atoms.now) (term_view source.now) (term_view target.now)
        (comparisons_view when.now))) }
{
    let first = whole_name(source);
    let last = whole_name(target);
    note_action_names(noted, alloc, bound, first, last, new)?;
    let known = known_in_action(alloc, bound, first, last, new)?;
    let names = known.as_slice();
    note_known_action(
        noted, alloc, region, parameters, names, atoms, source, target, when,
    )?;
    Ok(())
}

/// Notes what is wrong in an action whose new names are these, but for its indices.
fn note_action_with<'a>(
    noted: &mut Noted<'a>,
    alloc: Global,
    region: Numbered<'_, '_>,
    parameters: &[&'a Word],
    new: &[Occurrence<'a>],
    atoms: &[&'a GuardAtom],
    source: &'a Term,
    target: &'a Term,
    when: &[&'a Comparison],
) -> Result<(), AllocError>
    ensures { OnOk result (noted_view noted.new ≡ fold note (noted_view noted.old)
        (whole_action_of (numbered_view region.entry) (words_view parameters.now)
        (occurrences_view new.now) (guards_view atoms.now) (term_view source.now)
        (term_view target.now) (comparisons_view when.now))) }
{
    let counted = counted_names(alloc, region, atoms)?;
    let bound = bound_scope(alloc, counted.as_slice())?;
    note_action_of(
        noted, alloc, region, parameters, &bound, new, atoms, source, target, when,
    )?;
    Ok(())
}

/// Notes what is wrong in an action, where the scope is that of the parameters.
pub(crate) fn note_action<'a>(
    noted: &mut Noted<'a>,
    alloc: Global,
    region: Numbered<'_, '_>,
    parameters: &[&'a Word],
    scope: &Scope<'a>,
    atoms: &[&'a GuardAtom],
    source: &'a Term,
    target: &'a Term,
    when: &[&'a Comparison],
) -> Result<(), AllocError>
    requires { scope.now ≡ whole_numbers (words_view parameters.now) }
    ensures { OnOk result (noted_view noted.new ≡ fold note (noted_view noted.old)
        (whole_action_part (numbered_view region.entry) (words_view parameters.now)
        (guards_view atoms.now) (term_view source.now) (term_view target.now)
        (comparisons_view when.now))) }
{
    note_indices(
        noted,
        alloc,
        scope,
        whole_name(source),
        whole_name(target),
        atoms,
    )?;
    let new = action_new(alloc, scope, region, atoms, source, target, when)?;
    let names = new.as_slice();
    note_action_with(
        noted, alloc, region, parameters, names, atoms, source, target, when,
    )?;
    Ok(())
}
