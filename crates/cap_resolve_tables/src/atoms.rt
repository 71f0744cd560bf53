//! Atoms and comparisons, with the region types to which they belong.
ghost use Rattle.std.specs.Prelude.{◌≡◌, ◌∷◌, ◌++◌, flat_map, false, option_map, OnOk};
ghost use Rattle.cap_galg.specs.Views.{atom_view};
ghost use Rattle.cap_lin.specs.declared.row.Sort.TheVariants.{Int};
ghost use Rattle.cap_parse_tree.specs.Views.{guard_view, item_view, slot_view, held_view};
ghost use Rattle.cap_parse_tree.specs.Views.{comparison_view, term_view};
ghost use Rattle.cap_resolve_spec.specs.Parts.{comparison_words, held_atoms, term_words};
ghost use Rattle.cap_resolve_spec.specs.Items.{declared_kind, amount_sort as sort_of_amount, unbound};
ghost use Rattle.cap_resolve_spec.specs.Items.{atom_occurrences, item_occurrences, slot_occurrences};
ghost use Rattle.cap_resolve_spec.specs.Items.{occurrences as occurrences_in, occurs, type_of};
ghost use Rattle.cap_resolve_parts.specs.Views.{guards_view, parts_view};
ghost use Rattle.cap_resolve_tables.specs.Tables.{numbered_seen, types_of};
ghost use Rattle.cap_resolve_tables.specs.Views.{occurrences_view, argument_occurrences};

use crate::occurrences::{Occurrence, push_slot, push_term, push_unbound};
use crate::tables::{Numbered, Types};
use cap_galg::Atom;
use cap_lin::Sort;
use cap_parse_tree::{Comparison, GuardAtom, Guards, Item, Slot, Term, Word};
use cap_resolve_parts::{Placed, atom_word, atoms_held, push_comparison_words};
use cap_syntax::Place;
use std::alloc::{AllocError, Global};

/// The kind that a region type declares for a guard, if there is a region type and it declares the
/// guard.
pub fn kind_of_atom(region: Option<Numbered<'_, '_>>, atom: &GuardAtom) -> Option<Atom>
    ensures { option_map atom_view result
        ≡ declared_kind (numbered_seen region.entry) (guard_view atom.now) }
{
    match region {
        None => None,
        Some(region) => region.region.guard_kind(atom_word(atom).text.as_bytes()),
    }
}

fn amount_sort(kind: Option<Atom>, atom: &GuardAtom) -> Sort
    ensures { result ≡ sort_of_amount (option_map atom_view kind) (guard_view atom.now) }
{
    match kind {
        Some(Atom::Divisible) => match atom {
            GuardAtom::Amount(_, _, _, _) => Sort::Perm,
            GuardAtom::Alone(_) | GuardAtom::Count(_, _, _, _, _, _) => Sort::Int,
        },
        Some(Atom::Unique) | Some(Atom::Counting) | Some(Atom::Indexed) | None => Sort::Int,
    }
}

/// Puts the names of an atom behind the occurrences, where its guard is one of the region type, if
/// there is one.
pub fn push_atom<'a>(
    alloc: Global,
    list: &mut Vec<Occurrence<'a>>,
    inside: bool,
    region: Option<Numbered<'_, '_>>,
    atom: &'a GuardAtom,
) -> Result<(), AllocError>
    ensures { OnOk result (occurrences_view list.new.items
        ≡ occurrences_view list.old.items
        ++ atom_occurrences inside (numbered_seen region.entry) (guard_view atom.now)) }
{
    let sort = amount_sort(kind_of_atom(region, atom), atom);
    match atom {
        GuardAtom::Alone(_) => Ok(()),
        GuardAtom::Amount(_, _, slot, _) => push_slot(alloc, list, inside, sort, slot),
        GuardAtom::Count(_, _, _, _, slot, _) => push_slot(alloc, list, inside, sort, slot),
    }
}

/// Puts the names of atoms behind the occurrences, where their guards are those of the region type,
/// if there is one.
pub fn push_atoms<'a>(
    alloc: Global,
    list: &mut Vec<Occurrence<'a>>,
    inside: bool,
    region: Option<Numbered<'_, '_>>,
    atoms: &[&'a GuardAtom],
) -> Result<(), AllocError>
    ensures { OnOk result (occurrences_view list.new.items
        ≡ occurrences_view list.old.items
        ++ flat_map (atom_occurrences inside (numbered_seen region.entry))
        (guards_view atoms.now)) }
{
    for atom in atoms {
        push_atom(alloc, list, inside, region, atom)?;
    }
    Ok(())
}

fn push_arguments<'a>(
    alloc: Global,
    list: &mut Vec<Occurrence<'a>>,
    inside: bool,
    arguments: &'a Vec<(Place, Slot)>,
) -> Result<(), AllocError>
    ensures { OnOk result (occurrences_view list.new.items
        ≡ occurrences_view list.old.items
        ++ argument_occurrences inside arguments.now.items) }
{
    for argument in arguments {
        push_slot(alloc, list, inside, Sort::Int, &argument.1)?;
    }
    Ok(())
}

/// Puts the names of a comparison behind the occurrences; it binds none.
pub fn push_comparison<'a>(
    alloc: Global,
    list: &mut Vec<Occurrence<'a>>,
    comparison: &'a Comparison,
) -> Result<(), AllocError>
    ensures { OnOk result (occurrences_view list.new.items
        ≡ occurrences_view list.old.items
        ++ unbound (comparison_words (comparison_view comparison.now))) }
{
    let mut words = Vec::new(alloc);
    push_comparison_words(&mut words, comparison)?;
    push_unbound(list, words.as_slice())
}

fn push_held<'a>(
    alloc: Global,
    list: &mut Vec<Occurrence<'a>>,
    types: Types<'_, '_, 'a>,
    inside: bool,
    word: &'a Word,
    held: &'a Guards,
) -> Result<(), AllocError>
    ensures { OnOk result (occurrences_view list.new.items
        ≡ occurrences_view list.old.items
        ++ occurs false Int word.now
        ∷ flat_map (atom_occurrences inside (type_of (types_of types.entry) word.now.text))
        (held_atoms (held_view held.now))) }
{
    list.push(Occurrence {
        word,
        bound: false,
        sort: Sort::Int,
    })?;
    let atoms = atoms_held(alloc, held)?;
    let region = types.type_of(word.text.as_bytes());
    push_atoms(alloc, list, inside, region, atoms.as_slice())?;
    Ok(())
}

fn push_cell<'a>(
    alloc: Global,
    list: &mut Vec<Occurrence<'a>>,
    inside: bool,
    term: &'a Term,
    slot: &'a Slot,
) -> Result<(), AllocError>
    ensures { OnOk result (occurrences_view list.new.items
        ≡ occurrences_view list.old.items
        ++ (unbound (term_words (term_view term.now))
        ++ slot_occurrences inside Int (slot_view slot.now))) }
{
    push_term(alloc, list, false, Sort::Int, term)?;
    push_slot(alloc, list, inside, Sort::Int, slot)?;
    Ok(())
}

#[tactic(auto, using(cap_parse_tree::specs::declared::assertion::Item::TheFolds::the_lemmas))]
fn push_item<'a>(
    alloc: Global,
    list: &mut Vec<Occurrence<'a>>,
    types: Types<'_, '_, 'a>,
    inside: bool,
    item: &'a Item,
) -> Result<(), AllocError>
    ensures { OnOk result (occurrences_view list.new.items
        ≡ occurrences_view list.old.items
        ++ item_occurrences (types_of types.entry) (inside, item_view item.now)) }
{
    match item {
        Item::True(_) | Item::False(_) => Ok(()),
        Item::Fact(_, _, word, arguments, _, state, _) => {
            list.push(Occurrence {
                word,
                bound: !inside,
                sort: Sort::Int,
            })?;
            push_arguments(alloc, list, inside, arguments)?;
            push_slot(alloc, list, inside, Sort::Int, state)
        }
        Item::Guards(word, _, held) => push_held(alloc, list, types, inside, word, held),
        Item::Cell(term, _, slot) => push_cell(alloc, list, inside, term, slot),
        Item::Compare(comparison) => push_comparison(alloc, list, comparison),
        Item::Choose(comparison, _, _, _, _) => push_comparison(alloc, list, comparison),
    }
}

/// Puts the names of items behind the occurrences, where these types are told of names before `@`.
pub fn push_occurrences<'a>(
    alloc: Global,
    list: &mut Vec<Occurrence<'a>>,
    types: Types<'_, '_, 'a>,
    parts: &[Placed<'a>],
) -> Result<(), AllocError>
    ensures { OnOk result (occurrences_view list.new.items
        ≡ occurrences_view list.old.items
        ++ occurrences_in (types_of types.entry) (parts_view parts.now)) }
{
    for part in parts {
        push_item(alloc, list, types, part.inside, part.item)?;
    }
    Ok(())
}
