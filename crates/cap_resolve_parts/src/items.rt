//! The parts of assertions: items, atoms and their places.
ghost use Rattle.std.specs.Prelude.{◌≡◌, ◌++◌, false, IfOk, OnOk};
ghost use Rattle.cap_parse_tree.specs.Views.{item_view, assertion_view, side_view, guard_view};
ghost use Rattle.cap_parse_tree.specs.Views.{held_view};
ghost use Rattle.cap_resolve_spec.specs.Parts.{item_parts, assertion_parts, side_parts, clause_parts};
ghost use Rattle.cap_resolve_spec.specs.Parts.{held_atoms};
ghost use Rattle.cap_resolve_spec.specs.Parts.{item_place as place_of, atom_word as word_of};
ghost use Rattle.cap_resolve_spec.specs.Parts.{atom_place as place_of_atom};
ghost use Rattle.cap_resolve_spec.specs.Items.{counts_indices as indices_counted};
ghost use Rattle.cap_resolve_spec.specs.Items.{has_index as index_stands};
ghost use Rattle.cap_resolve_parts.specs.Views.{parts_view, clause_seen, guards_view};

use crate::lists::atoms_of;
use crate::terms::term_place;
use cap_parse_tree::{Assertion, Clause, Counted, GuardAtom, Guards, Item, Side, Word};
use cap_syntax::Place;
use std::alloc::{AllocError, Global};

/// An item, and whether it stands in a side of a conditional.
#[derive(Clone, Copy)]
pub struct Placed<'a> {
    pub inside: bool,
    pub item: &'a Item,
}

#[cycle(items)]
fn push_item<'a>(
    parts: &mut Vec<Placed<'a>>,
    inside: bool,
    item: &'a Item,
) -> Result<(), AllocError>
    ensures { OnOk result (parts_view parts.new.items
        ≡ parts_view parts.old.items ++ item_parts inside (item_view item.now)) }
{
    parts.push(Placed { inside, item })?;
    match item {
        Item::Choose(_, _, first, _, second) => {
            push_side(parts, first)?;
            push_side(parts, second)?;
            Ok(())
        }
        Item::True(_) | Item::False(_) | Item::Fact(_, _, _, _, _, _, _) => Ok(()),
        Item::Guards(_, _, _) | Item::Cell(_, _, _) | Item::Compare(_) => Ok(()),
    }
}

#[cycle(items)]
fn push_assertion<'a>(
    parts: &mut Vec<Placed<'a>>,
    inside: bool,
    assertion: &'a Assertion,
) -> Result<(), AllocError>
    ensures { OnOk result (parts_view parts.new.items
        ≡ parts_view parts.old.items ++ assertion_parts inside (assertion_view assertion.now)) }
{
    push_item(parts, inside, &assertion.first)?;
    for and in &assertion.more {
        push_item(parts, inside, &and.item)?;
    }
    Ok(())
}

#[cycle(items)]
fn push_side<'a>(parts: &mut Vec<Placed<'a>>, side: &'a Side) -> Result<(), AllocError>
    ensures { OnOk result (parts_view parts.new.items
        ≡ parts_view parts.old.items ++ side_parts (side_view side.now)) }
{
    push_assertion(parts, true, &side.assertion)
}

/// The items of an assertion at any depth, in the order of the text, and of each whether it stands
/// in a side. A conditional comes before the items of its sides.
pub fn placed_items<'a>(
    alloc: Global,
    assertion: &'a Assertion,
) -> Result<Vec<Placed<'a>>, AllocError>
    ensures { IfOk result (λ parts. parts_view parts.items
        ≡ assertion_parts false (assertion_view assertion.now)) }
{
    let mut parts = Vec::new(alloc);
    push_assertion(&mut parts, false, assertion)?;
    Ok(parts)
}

/// The items of a clause at any depth; of an absent one there are none.
pub fn items_of_clause<'a>(
    alloc: Global,
    clause: Option<&'a Clause>,
) -> Result<Vec<Placed<'a>>, AllocError>
    ensures { IfOk result (λ parts. parts_view parts.items
        ≡ clause_parts (clause_seen clause.entry)) }
{
    match clause {
        None => Ok(Vec::new(alloc)),
        Some(clause) => placed_items(alloc, &clause.assertion),
    }
}

/// The place of an item's first token.
#[tactic(auto, using(cap_parse_tree::specs::declared::assertion::Item::TheFolds::the_lemmas))]
pub fn item_place(item: &Item) -> Place
    ensures { result ≡ place_of (item_view item.now) }
{
    match item {
        Item::True(place) | Item::False(place) => *place,
        Item::Fact(word, _, _, _, _, _, _) => word.place,
        Item::Guards(word, _, _) => word.place,
        Item::Cell(term, _, _) => term_place(term),
        Item::Compare(comparison) => term_place(&comparison.left),
        Item::Choose(comparison, _, _, _, _) => term_place(&comparison.left),
    }
}

/// The name of a guard.
pub fn atom_word(atom: &GuardAtom) -> &Word
    ensures { result.now ≡ word_of (guard_view atom.now) }
{
    match atom {
        GuardAtom::Alone(word) => word,
        GuardAtom::Amount(word, _, _, _) => word,
        GuardAtom::Count(_, _, word, _, _, _) => word,
    }
}

/// The place of a guard's first token.
pub fn atom_place(atom: &GuardAtom) -> Place
    ensures { result ≡ place_of_atom (guard_view atom.now) }
{
    match atom {
        GuardAtom::Alone(word) => word.place,
        GuardAtom::Amount(word, _, _, _) => word.place,
        GuardAtom::Count(_, place, _, _, _, _) => *place,
    }
}

/// Whether what is counted are indices, which stand behind `at` and `from`.
pub fn counts_indices(counted: Counted) -> bool
    ensures { result ≡ indices_counted counted }
{
    match counted {
        Counted::At | Counted::From => true,
        Counted::Source | Counted::Tokens => false,
    }
}

/// Whether `at` or `from` stands before the guard's name.
pub fn has_index(atom: &GuardAtom) -> bool
    ensures { result ≡ index_stands (guard_view atom.now) }
{
    match atom {
        GuardAtom::Alone(_) | GuardAtom::Amount(_, _, _, _) => false,
        GuardAtom::Count(counted, _, _, _, _, _) => counts_indices(*counted),
    }
}

/// The guards behind an `@`, in the order of the text.
pub fn atoms_held<'a>(alloc: Global, guards: &'a Guards) -> Result<Vec<&'a GuardAtom>, AllocError>
    ensures { IfOk result (λ atoms. guards_view atoms.items ≡ held_atoms (held_view guards.now)) }
{
    match guards {
        Guards::Bare(list) => atoms_of(alloc, list),
        Guards::Bracketed(_, list, _) => atoms_of(alloc, list),
    }
}
