//! What is wrong in the terms of comparisons, atoms and items.
ghost use Rattle.std.specs.Prelude.{◌≡◌, ◌∷◌, ◌++◌, fold, map};
ghost use Rattle.std.specs.Prelude.{flat_map, option_map, OnOk, Some};
ghost use Rattle.cap_lin.specs.declared.row.Sort.TheVariants.{Int};
ghost use Rattle.cap_galg.specs.Views.{atom_view};
ghost use Rattle.cap_parse_tree.specs.Views.{guard_view, item_view, slot_view, comparison_view};
ghost use Rattle.cap_parse_tree.specs.Views.{held_view, term_view};
ghost use Rattle.cap_resolve_spec.specs.Finding.{note};
ghost use Rattle.cap_resolve_spec.specs.Parts.{held_atoms};
ghost use Rattle.cap_resolve_spec.specs.Terms.{terms_findings, slot_wanted, comparison_wanted};
ghost use Rattle.cap_resolve_spec.specs.Terms.{wanted_as};
ghost use Rattle.cap_resolve_spec.specs.Items.{atom_wanted, item_wanted, type_of, kind_sort as sort_of_kind};
ghost use Rattle.cap_resolve_terms.specs.Views.{noted_view};
ghost use Rattle.cap_resolve_parts.specs.Views.{guards_view, parts_view, terms_view};
ghost use Rattle.cap_resolve_tables.specs.Tables.{numbered_seen, types_of};
ghost use Rattle.cap_resolve_findings.specs.Facts.{argument_wanted};

use cap_galg::Atom;
use cap_lin::Sort;
use cap_parse_tree::{Comparison, GuardAtom, Guards, Item, Slot, Term};
use cap_resolve_forms::note_term;
use cap_resolve_parts::{Placed, atoms_held};
use cap_resolve_tables::{Numbered, Types, kind_of_atom};
use cap_resolve_terms::{Noted, Scope, term_sort};
use cap_syntax::Place;
use std::alloc::{AllocError, Global};

fn note_slot<'a>(
    noted: &mut Noted<'_>,
    alloc: Global,
    scope: &Scope<'a>,
    sort: Option<Sort>,
    slot: &'a Slot,
) -> Result<(), AllocError>
    ensures { OnOk result (noted_view noted.new ≡ fold note (noted_view noted.old)
        (terms_findings scope.now (slot_wanted sort (slot_view slot.now)))) }
{
    match slot {
        Slot::Any(_) => Ok(()),
        Slot::Is(term) => {
            note_term(noted, alloc, scope, sort, term)?;
            Ok(())
        }
    }
}

/// Notes what is wrong in the sides of a comparison.
pub fn note_comparison<'a>(
    noted: &mut Noted<'_>,
    alloc: Global,
    scope: &Scope<'a>,
    comparison: &'a Comparison,
) -> Result<(), AllocError>
    ensures { OnOk result (noted_view noted.new ≡ fold note (noted_view noted.old)
        (terms_findings scope.now
        (comparison_wanted scope.now (comparison_view comparison.now)))) }
{
    let sort = term_sort(scope, &comparison.left);
    note_term(noted, alloc, scope, sort, &comparison.left)?;
    note_term(noted, alloc, scope, sort, &comparison.right)?;
    Ok(())
}

/// Notes what is wrong in terms that are wanted as whole numbers.
pub(crate) fn note_terms<'a>(
    noted: &mut Noted<'_>,
    alloc: Global,
    scope: &Scope<'a>,
    terms: &[&'a Term],
) -> Result<(), AllocError>
    ensures { OnOk result (noted_view noted.new ≡ fold note (noted_view noted.old)
        (terms_findings scope.now (map (wanted_as (Some Int)) (terms_view terms.now)))) }
{
    for term in terms {
        note_term(noted, alloc, scope, Some(Sort::Int), term)?;
    }
    Ok(())
}

/// The sort of what a guard of this kind holds.
fn kind_sort(kind: Option<Atom>) -> Option<Sort>
    ensures { result ≡ option_map sort_of_kind (option_map atom_view kind) }
{
    match kind {
        None => None,
        Some(Atom::Divisible) => Some(Sort::Perm),
        Some(Atom::Unique) | Some(Atom::Counting) | Some(Atom::Indexed) => Some(Sort::Int),
    }
}

fn note_atom_slot<'a>(
    noted: &mut Noted<'_>,
    alloc: Global,
    scope: &Scope<'a>,
    region: Option<Numbered<'_, '_>>,
    atom: &'a GuardAtom,
) -> Result<(), AllocError>
    ensures { OnOk result (noted_view noted.new ≡ fold note (noted_view noted.old)
        (terms_findings scope.now
        (atom_wanted (numbered_seen region.entry) (guard_view atom.now)))) }
{
    let sort = kind_sort(kind_of_atom(region, atom));
    match atom {
        GuardAtom::Alone(_) => Ok(()),
        GuardAtom::Amount(_, _, slot, _) => note_slot(noted, alloc, scope, sort, slot),
        GuardAtom::Count(_, _, _, _, slot, _) => note_slot(noted, alloc, scope, sort, slot),
    }
}

/// Notes what is wrong in the terms of atoms, where their guards are those of the region type.
pub fn note_atom_terms<'a>(
    noted: &mut Noted<'_>,
    alloc: Global,
    scope: &Scope<'a>,
    region: Option<Numbered<'_, '_>>,
    atoms: &[&'a GuardAtom],
) -> Result<(), AllocError>
    ensures { OnOk result (noted_view noted.new ≡ fold note (noted_view noted.old)
        (terms_findings scope.now
        (flat_map (atom_wanted (numbered_seen region.entry)) (guards_view atoms.now)))) }
{
    for atom in atoms {
        note_atom_slot(noted, alloc, scope, region, atom)?;
    }
    Ok(())
}

fn note_arguments<'a>(
    noted: &mut Noted<'_>,
    alloc: Global,
    scope: &Scope<'a>,
    arguments: &'a Vec<(Place, Slot)>,
) -> Result<(), AllocError>
    ensures { OnOk result (noted_view noted.new ≡ fold note (noted_view noted.old)
        (terms_findings scope.now (argument_wanted arguments.now.items))) }
{
    for argument in arguments {
        note_slot(noted, alloc, scope, Some(Sort::Int), &argument.1)?;
    }
    Ok(())
}

fn note_fact_terms<'a>(
    noted: &mut Noted<'_>,
    alloc: Global,
    scope: &Scope<'a>,
    arguments: &'a Vec<(Place, Slot)>,
    state: &'a Slot,
) -> Result<(), AllocError>
    ensures { OnOk result (noted_view noted.new ≡ fold note (noted_view noted.old)
        (terms_findings scope.now (argument_wanted arguments.now.items
        ++ slot_wanted (Some Int) (slot_view state.now)))) }
{
    note_arguments(noted, alloc, scope, arguments)?;
    note_slot(noted, alloc, scope, Some(Sort::Int), state)?;
    Ok(())
}

fn note_held_terms<'a>(
    noted: &mut Noted<'_>,
    alloc: Global,
    types: Types<'_, '_, 'a>,
    scope: &Scope<'a>,
    name: &[u8],
    held: &'a Guards,
) -> Result<(), AllocError>
    ensures { OnOk result (noted_view noted.new ≡ fold note (noted_view noted.old)
        (terms_findings scope.now
        (flat_map (atom_wanted (type_of (types_of types.entry) name.now))
        (held_atoms (held_view held.now))))) }
{
    let atoms = atoms_held(alloc, held)?;
    note_atom_terms(noted, alloc, scope, types.type_of(name), atoms.as_slice())?;
    Ok(())
}

fn note_cell_terms<'a>(
    noted: &mut Noted<'_>,
    alloc: Global,
    scope: &Scope<'a>,
    term: &'a Term,
    slot: &'a Slot,
) -> Result<(), AllocError>
    ensures { OnOk result (noted_view noted.new ≡ fold note (noted_view noted.old)
        (terms_findings scope.now (wanted_as (Some Int) (term_view term.now)
        ∷ slot_wanted (Some Int) (slot_view slot.now)))) }
{
    note_term(noted, alloc, scope, Some(Sort::Int), term)?;
    note_slot(noted, alloc, scope, Some(Sort::Int), slot)?;
    Ok(())
}

#[tactic(auto, using(cap_parse_tree::specs::declared::assertion::Item::TheFolds::the_lemmas))]
fn note_terms_of_item<'a>(
    noted: &mut Noted<'_>,
    alloc: Global,
    types: Types<'_, '_, 'a>,
    scope: &Scope<'a>,
    item: &'a Item,
) -> Result<(), AllocError>
    ensures { OnOk result (noted_view noted.new ≡ fold note (noted_view noted.old)
        (terms_findings scope.now
        (item_wanted (types_of types.entry) scope.now (item_view item.now)))) }
{
    match item {
        Item::True(_) | Item::False(_) => Ok(()),
        Item::Fact(_, _, _, arguments, _, state, _) => {
            note_fact_terms(noted, alloc, scope, arguments, state)
        }
        Item::Guards(word, _, held) => {
            note_held_terms(noted, alloc, types, scope, word.text.as_bytes(), held)
        }
        Item::Cell(term, _, slot) => note_cell_terms(noted, alloc, scope, term, slot),
        Item::Compare(comparison) => note_comparison(noted, alloc, scope, comparison),
        Item::Choose(comparison, _, _, _, _) => note_comparison(noted, alloc, scope, comparison),
    }
}

/// Notes what is wrong in the terms of items.
pub fn note_item_terms<'a>(
    noted: &mut Noted<'_>,
    alloc: Global,
    types: Types<'_, '_, 'a>,
    scope: &Scope<'a>,
    parts: &[Placed<'a>],
) -> Result<(), AllocError>
    ensures { OnOk result (noted_view noted.new ≡ fold note (noted_view noted.old)
        (terms_findings scope.now (flat_map (λ i. item_wanted (types_of types.entry) scope.now i.1)
        (parts_view parts.now)))) }
{
    for part in parts {
        note_terms_of_item(noted, alloc, types, scope, part.item)?;
    }
    Ok(())
}
