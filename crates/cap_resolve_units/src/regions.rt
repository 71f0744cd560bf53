//! What is wrong in the names of a region type's cases and actions.
ghost use Rattle.std.specs.Prelude.{◌≡◌, ◌++◌, fold, flat_map, map, OnOk, IfOk};
ghost use Rattle.cap_parse_tree.specs.Views.{term_view};
ghost use Rattle.cap_resolve_spec.specs.Finding.{note};
ghost use Rattle.cap_resolve_spec.specs.Names.{whole_numbers, word_place};
ghost use Rattle.cap_resolve_spec.specs.Terms.{terms_findings, comparison_wanted};
ghost use Rattle.cap_resolve_spec.specs.Items.{scope_of};
ghost use Rattle.cap_resolve_terms.specs.Views.{noted_view};
ghost use Rattle.cap_resolve_parts.specs.Views.{comparisons_view, guards_view, parts_view, words_view};
ghost use Rattle.cap_resolve_tables.specs.Tables.{numbered_view, regions_of, types_of};
ghost use Rattle.cap_resolve_tables.specs.Views.{occurrences_view};
ghost use Rattle.cap_resolve_findings.specs.Clauses.{counted_findings};
ghost use Rattle.cap_resolve_units.specs.Parts.{case_terms, case_contents, known_part};
ghost use Rattle.cap_resolve_units.specs.Parts.{action_terms, action_part};

use cap_lin::Sort;
use cap_parse_tree::{Comparison, GuardAtom, Term, Word};
use cap_resolve_findings::{
    Reading, note_atom_terms, note_atoms, note_atoms_twice, note_comparison, note_counted,
    note_item_terms, note_items,
};
use cap_resolve_forms::note_term;
use cap_resolve_parts::Placed;
use cap_resolve_tables::{Numbered, Occurrence, RegionTable, Types, push_known, push_whole};
use cap_resolve_terms::{Noted, Scope};
use cap_syntax::Place;
use std::alloc::{AllocError, Global};

pub(crate) fn places_of(alloc: Global, words: &[&Word]) -> Result<Vec<Place>, AllocError>
    ensures { IfOk result (λ places. places.items ≡ map word_place (words_view words.now)) }
{
    let mut places = Vec::new(alloc);
    for word in words {
        places.push(word.place)?;
    }
    Ok(places)
}

/// The scope of parameters, and of these names behind them.
fn scope_of_names<'a>(
    alloc: Global,
    parameters: &[&'a Word],
    known: &[Occurrence<'a>],
) -> Result<Scope<'a>, AllocError>
    ensures { IfOk result (λ s. s ≡ whole_numbers (words_view parameters.now)
        ++ scope_of (occurrences_view known.now)) }
{
    let mut scope = Scope::new(alloc);
    push_whole(&mut scope, parameters)?;
    push_known(&mut scope, known)?;
    Ok(scope)
}

fn note_comparisons<'a>(
    noted: &mut Noted<'_>,
    alloc: Global,
    scope: &Scope<'a>,
    comparisons: &[&'a Comparison],
) -> Result<(), AllocError>
    ensures { OnOk result (noted_view noted.new ≡ fold note (noted_view noted.old)
        (terms_findings scope.now
        (flat_map (comparison_wanted scope.now) (comparisons_view comparisons.now)))) }
{
    for comparison in comparisons {
        note_comparison(noted, alloc, scope, comparison)?;
    }
    Ok(())
}

fn note_case_terms<'a>(
    noted: &mut Noted<'_>,
    alloc: Global,
    types: Types<'_, '_, 'a>,
    scope: &Scope<'a>,
    state: &'a Term,
    when: &[&'a Comparison],
    parts: &[Placed<'a>],
) -> Result<(), AllocError>
    ensures { OnOk result (noted_view noted.new ≡ fold note (noted_view noted.old)
        (terms_findings scope.now (case_terms (types_of types.entry) scope.now
        (term_view state.now) (comparisons_view when.now) (parts_view parts.now)))) }
{
    note_term(noted, alloc, scope, Some(Sort::Int), state)?;
    note_comparisons(noted, alloc, scope, when)?;
    note_item_terms(noted, alloc, types, scope, parts)?;
    Ok(())
}

fn note_places<'a>(
    noted: &mut Noted<'_>,
    alloc: Global,
    parameters: &[&'a Word],
    known: &[Occurrence<'a>],
) -> Result<(), AllocError>
    ensures { OnOk result (noted_view noted.new ≡ fold note (noted_view noted.old)
        (counted_findings (map word_place (words_view parameters.now))
        (occurrences_view known.now))) }
{
    let places = places_of(alloc, parameters)?;
    note_counted(noted, alloc, places.as_slice(), known)?;
    Ok(())
}

fn note_case_contents<'a>(
    noted: &mut Noted<'a>,
    alloc: Global,
    reading: Reading<'_, '_, '_, 'a>,
    own: &Word,
    state: &'a Term,
    when: &[&'a Comparison],
    parts: &[Placed<'a>],
) -> Result<(), AllocError>
    ensures { OnOk result (noted_view noted.new ≡ fold note (noted_view noted.old)
        (case_contents (regions_of reading.entry.regions.now) own.now
        (types_of reading.entry.types) reading.entry.scope.now (term_view state.now)
        (comparisons_view when.now) (parts_view parts.now))) }
{
    note_items(noted, alloc, reading, Some(own), parts)?;
    note_case_terms(
        noted,
        alloc,
        reading.types,
        reading.scope,
        state,
        when,
        parts,
    )?;
    Ok(())
}

/// Notes what is wrong in a case that knows these names, but for the names themselves.
pub(crate) fn note_known_case<'a>(
    noted: &mut Noted<'a>,
    alloc: Global,
    regions: &RegionTable<'a>,
    own: &Word,
    types: Types<'_, '_, 'a>,
    parameters: &[&'a Word],
    known: &[Occurrence<'a>],
    state: &'a Term,
    when: &[&'a Comparison],
    parts: &[Placed<'a>],
) -> Result<(), AllocError>
    ensures { OnOk result (noted_view noted.new ≡ fold note (noted_view noted.old)
        (known_part (regions_of regions.now) own.now (types_of types.entry)
        (words_view parameters.now) (occurrences_view known.now) (term_view state.now)
        (comparisons_view when.now) (parts_view parts.now))) }
{
    note_places(noted, alloc, parameters, known)?;
    let scope = scope_of_names(alloc, parameters, known)?;
    let reading = Reading {
        regions,
        types,
        scope: &scope,
    };
    note_case_contents(noted, alloc, reading, own, state, when, parts)?;
    Ok(())
}

fn note_action_terms<'a>(
    noted: &mut Noted<'_>,
    alloc: Global,
    region: Numbered<'_, '_>,
    scope: &Scope<'a>,
    atoms: &[&'a GuardAtom],
    source: &'a Term,
    target: &'a Term,
    when: &[&'a Comparison],
) -> Result<(), AllocError>
    ensures { OnOk result (noted_view noted.new ≡ fold note (noted_view noted.old)
        (terms_findings scope.now (action_terms (numbered_view region.entry) scope.now
        (guards_view atoms.now) (term_view source.now) (term_view target.now)
        (comparisons_view when.now)))) }
{
    note_atom_terms(noted, alloc, scope, Some(region), atoms)?;
    note_term(noted, alloc, scope, Some(Sort::Int), source)?;
    note_term(noted, alloc, scope, Some(Sort::Int), target)?;
    note_comparisons(noted, alloc, scope, when)?;
    Ok(())
}

/// Notes what is wrong in an action that knows these names, but for the names themselves.
pub(crate) fn note_known_action<'a>(
    noted: &mut Noted<'a>,
    alloc: Global,
    region: Numbered<'_, '_>,
    parameters: &[&'a Word],
    known: &[Occurrence<'a>],
    atoms: &[&'a GuardAtom],
    source: &'a Term,
    target: &'a Term,
    when: &[&'a Comparison],
) -> Result<(), AllocError>
    ensures { OnOk result (noted_view noted.new ≡ fold note (noted_view noted.old)
        (action_part (numbered_view region.entry) (words_view parameters.now)
        (occurrences_view known.now) (guards_view atoms.now) (term_view source.now)
        (term_view target.now) (comparisons_view when.now))) }
{
    note_places(noted, alloc, parameters, known)?;
    note_atoms(noted, region, atoms);
    note_atoms_twice(noted, alloc, atoms)?;
    let scope = scope_of_names(alloc, parameters, known)?;
    note_action_terms(noted, alloc, region, &scope, atoms, source, target, when)?;
    Ok(())
}
