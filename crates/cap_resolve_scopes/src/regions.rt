//! The names that the cases and actions of a region type know.
ghost use Rattle.std.specs.Prelude.{◌≡◌, ◌++◌, filter, flat_map, not, false, Some, IfOk};
ghost use Rattle.std.specs.Prelude.{OnOk};
ghost use Rattle.cap_parse_tree.specs.Views.{guard_view, term_view};
ghost use Rattle.cap_resolve_spec.specs.Parts.{whole_name as name_of_whole, term_words, is_word as named};
ghost use Rattle.cap_resolve_spec.specs.Parts.{comparison_words};
ghost use Rattle.cap_resolve_spec.specs.Items.{unbound, occurrences, atom_occurrences};
ghost use Rattle.cap_resolve_spec.specs.Regions.{counted_in};
ghost use Rattle.cap_resolve_parts.specs.Views.{comparisons_view, guards_view, parts_view, word_seen};
ghost use Rattle.cap_resolve_tables.specs.Tables.{numbered_view, types_of};
ghost use Rattle.cap_resolve_tables.specs.Views.{occurrence_view, occurrences_view};
ghost use Rattle.cap_resolve_scopes.specs.Lists.{is_known_with, is_whole_with, is_late_with};
ghost use Rattle.cap_resolve_scopes.specs.Lists.{bound_entries, with_kept};

use cap_lin::Sort;
use cap_parse_tree::{Comparison, GuardAtom, Term, Word};
use cap_resolve_parts::{Placed, has_index, whole_name};
use cap_resolve_tables::{
    Numbered, Occurrence, Types, bound_names, push_atom, push_atoms, push_comparison, push_known,
    push_occurrences, push_term,
};
use cap_resolve_terms::Scope;
use std::alloc::{AllocError, Global};

fn push_comparisons<'a>(
    alloc: Global,
    list: &mut Vec<Occurrence<'a>>,
    comparisons: &[&'a Comparison],
) -> Result<(), AllocError>
    ensures { OnOk result (occurrences_view list.new.items ≡ occurrences_view list.old.items
        ++ unbound (flat_map comparison_words (comparisons_view comparisons.now))) }
{
    for comparison in comparisons {
        push_comparison(alloc, list, comparison)?;
    }
    Ok(())
}

/// The names of a case's assertion.
pub fn assertion_occurrences<'a>(
    alloc: Global,
    types: Types<'_, '_, 'a>,
    parts: &[Placed<'a>],
) -> Result<Vec<Occurrence<'a>>, AllocError>
    ensures { IfOk result (λ list. occurrences_view list.items
        ≡ occurrences (types_of types.entry) (parts_view parts.now)) }
{
    let mut list = Vec::new(alloc);
    push_occurrences(alloc, &mut list, types, parts)?;
    Ok(list)
}

fn push_state<'a>(
    alloc: Global,
    list: &mut Vec<Occurrence<'a>>,
    state: &'a Term,
    when: &[&'a Comparison],
) -> Result<(), AllocError>
    ensures { OnOk result (occurrences_view list.new.items ≡ occurrences_view list.old.items
        ++ unbound (term_words (term_view state.now)
        ++ flat_map comparison_words (comparisons_view when.now))) }
{
    push_term(alloc, list, false, Sort::Int, state)?;
    push_comparisons(alloc, list, when)?;
    Ok(())
}

/// The names of a case: those of its state and conditions, and then those of its assertion.
pub fn case_occurrences<'a>(
    alloc: Global,
    state: &'a Term,
    when: &[&'a Comparison],
    types: Types<'_, '_, 'a>,
    parts: &[Placed<'a>],
) -> Result<Vec<Occurrence<'a>>, AllocError>
    ensures { IfOk result (λ list. occurrences_view list.items
        ≡ unbound (term_words (term_view state.now)
        ++ flat_map comparison_words (comparisons_view when.now))
        ++ occurrences (types_of types.entry) (parts_view parts.now)) }
{
    let mut list = Vec::new(alloc);
    push_state(alloc, &mut list, state, when)?;
    push_occurrences(alloc, &mut list, types, parts)?;
    Ok(list)
}

fn push_counted<'a>(
    alloc: Global,
    list: &mut Vec<Occurrence<'a>>,
    region: Numbered<'_, '_>,
    atom: &'a GuardAtom,
) -> Result<(), AllocError>
    ensures { OnOk result (occurrences_view list.new.items ≡ occurrences_view list.old.items
        ++ counted_in (Some (numbered_view region.entry)) (guard_view atom.now)) }
{
    if has_index(atom) {
        return Ok(());
    }
    push_atom(alloc, list, false, Some(region), atom)
}

/// The names in the amounts and counts of an action's guards, and none of those in indices.
pub fn counted_names<'a>(
    alloc: Global,
    region: Numbered<'_, '_>,
    atoms: &[&'a GuardAtom],
) -> Result<Vec<Occurrence<'a>>, AllocError>
    ensures { IfOk result (λ list. occurrences_view list.items
        ≡ flat_map (counted_in (Some (numbered_view region.entry))) (guards_view atoms.now)) }
{
    let mut list = Vec::new(alloc);
    for atom in atoms {
        push_counted(alloc, &mut list, region, atom)?;
    }
    Ok(list)
}

fn push_ends<'a>(
    alloc: Global,
    list: &mut Vec<Occurrence<'a>>,
    source: &'a Term,
    target: &'a Term,
    when: &[&'a Comparison],
) -> Result<(), AllocError>
    ensures { OnOk result (occurrences_view list.new.items ≡ occurrences_view list.old.items
        ++ unbound (term_words (term_view source.now)
        ++ (term_words (term_view target.now)
        ++ flat_map comparison_words (comparisons_view when.now)))) }
{
    push_term(alloc, list, false, Sort::Int, source)?;
    push_state(alloc, list, target, when)?;
    Ok(())
}

/// The names of an action: those of its guards, its states and its conditions.
pub fn action_occurrences<'a>(
    alloc: Global,
    region: Numbered<'_, '_>,
    atoms: &[&'a GuardAtom],
    source: &'a Term,
    target: &'a Term,
    when: &[&'a Comparison],
) -> Result<Vec<Occurrence<'a>>, AllocError>
    ensures { IfOk result (λ list. occurrences_view list.items
        ≡ flat_map (atom_occurrences false (Some (numbered_view region.entry)))
        (guards_view atoms.now)
        ++ unbound (term_words (term_view source.now)
        ++ (term_words (term_view target.now)
        ++ flat_map comparison_words (comparisons_view when.now)))) }
{
    let mut list = Vec::new(alloc);
    push_atoms(alloc, &mut list, false, Some(region), atoms)?;
    push_ends(alloc, &mut list, source, target, when)?;
    Ok(list)
}

/// The scope of the names among these that are bound where they occur.
pub fn bound_scope<'a>(alloc: Global, names: &[Occurrence<'a>]) -> Result<Scope<'a>, AllocError>
    ensures { IfOk result (λ s. s ≡ bound_entries (occurrences_view names.now)) }
{
    let bound = bound_names(alloc, names)?;
    let mut scope = Scope::new(alloc);
    push_known(&mut scope, bound.as_slice())?;
    Ok(scope)
}

fn is_word(name: &[u8], word: Option<&Word>) -> bool
    ensures { result ≡ named name.now (word_seen word.entry) }
{
    match word {
        None => false,
        Some(word) => name == word.text.as_bytes(),
    }
}

fn is_known(bound: &Scope<'_>, whole: Option<&Word>, name: Occurrence<'_>) -> bool
    ensures { result ≡ is_known_with bound.now (word_seen whole.entry)
        (occurrence_view name.entry) }
{
    let text = name.word.text.as_bytes();
    bound.knows(text) || is_word(text, whole)
}

fn is_whole(
    bound: &Scope<'_>,
    source: Option<&Word>,
    target: Option<&Word>,
    name: Occurrence<'_>,
) -> bool
    ensures { result ≡ is_whole_with bound.now (word_seen source.entry)
        (word_seen target.entry) (occurrence_view name.entry) }
{
    let text = name.word.text.as_bytes();
    is_word(text, source) || is_word(text, target) || bound.knows(text)
}

fn is_late(bound: &Scope<'_>, name: Occurrence<'_>) -> bool
    ensures { result ≡ is_late_with bound.now (occurrence_view name.entry) }
{
    bound.knows(name.word.text.as_bytes()) && !name.bound
}

fn keep_if<'a>(
    kept: &mut Vec<Occurrence<'a>>,
    wanted: bool,
    name: Occurrence<'a>,
) -> Result<(), AllocError>
    ensures { OnOk result (occurrences_view kept.new.items
        ≡ with_kept wanted (occurrences_view kept.old.items) (occurrence_view name.entry)) }
{
    if wanted {
        kept.push(name)?;
    }
    Ok(())
}

/// The new names that a case knows: those that are bound in its assertion, and its whole state.
pub fn known_in_case<'a>(
    alloc: Global,
    bound: &Scope<'_>,
    whole: Option<&Word>,
    names: &[Occurrence<'a>],
) -> Result<Vec<Occurrence<'a>>, AllocError>
    ensures { IfOk result (λ kept. occurrences_view kept.items
        ≡ filter (is_known_with bound.now (word_seen whole.entry))
        (occurrences_view names.now)) }
{
    let mut kept = Vec::new(alloc);
    for name in names {
        let wanted = is_known(bound, whole, *name);
        keep_if(&mut kept, wanted, *name)?;
    }
    Ok(kept)
}

/// The new names that a case does not know.
pub fn unknown_in_case<'a>(
    alloc: Global,
    bound: &Scope<'_>,
    whole: Option<&Word>,
    names: &[Occurrence<'a>],
) -> Result<Vec<Occurrence<'a>>, AllocError>
    ensures { IfOk result (λ kept. occurrences_view kept.items
        ≡ filter (λ o. not (is_known_with bound.now (word_seen whole.entry) o))
        (occurrences_view names.now)) }
{
    let mut kept = Vec::new(alloc);
    for name in names {
        let wanted = is_known(bound, whole, *name);
        keep_if(&mut kept, !wanted, *name)?;
    }
    Ok(kept)
}

/// The names that are bound somewhere, but not where they occur first.
pub fn bound_late<'a>(
    alloc: Global,
    bound: &Scope<'_>,
    names: &[Occurrence<'a>],
) -> Result<Vec<Occurrence<'a>>, AllocError>
    ensures { IfOk result (λ kept. occurrences_view kept.items
        ≡ filter (is_late_with bound.now)
        (occurrences_view names.now)) }
{
    let mut kept = Vec::new(alloc);
    for name in names {
        let wanted = is_late(bound, *name);
        keep_if(&mut kept, wanted, *name)?;
    }
    Ok(kept)
}

/// The new names that an action knows: its whole states, and whole amounts and counts.
pub fn known_in_action<'a>(
    alloc: Global,
    bound: &Scope<'_>,
    source: Option<&Word>,
    target: Option<&Word>,
    names: &[Occurrence<'a>],
) -> Result<Vec<Occurrence<'a>>, AllocError>
    ensures { IfOk result (λ kept. occurrences_view kept.items
        ≡ filter (is_whole_with bound.now (word_seen source.entry)
        (word_seen target.entry))
        (occurrences_view names.now)) }
{
    let mut kept = Vec::new(alloc);
    for name in names {
        let wanted = is_whole(bound, source, target, *name);
        keep_if(&mut kept, wanted, *name)?;
    }
    Ok(kept)
}

/// The new names that an action does not know.
pub fn unknown_in_action<'a>(
    alloc: Global,
    bound: &Scope<'_>,
    source: Option<&Word>,
    target: Option<&Word>,
    names: &[Occurrence<'a>],
) -> Result<Vec<Occurrence<'a>>, AllocError>
    ensures { IfOk result (λ kept. occurrences_view kept.items
        ≡ filter (λ o. not (is_whole_with bound.now (word_seen source.entry)
        (word_seen target.entry) o))
        (occurrences_view names.now)) }
{
    let mut kept = Vec::new(alloc);
    for name in names {
        let wanted = is_whole(bound, source, target, *name);
        keep_if(&mut kept, !wanted, *name)?;
    }
    Ok(kept)
}
