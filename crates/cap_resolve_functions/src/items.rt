//! The items of an assertion.
ghost use Rattle.std.specs.Prelude.{◌≡◌, ◌∷◌, ◌++◌, [], IfOk, OnOk, map};
ghost use Rattle.std.specs.List.{AllByRecursion};
ghost use Rattle.cap_prog.specs.Program.{append_items};
ghost use Rattle.cap_prog.specs.Program as plain;
ghost use Rattle.cap_prog.specs.Views.{item_view as seen, items_view as items_of_side};
ghost use Rattle.cap_parse_tree.specs.Tree.{parts_of};
ghost use Rattle.cap_parse_tree.specs.Views.{term_view, slot_view, behind_view, guard_view, held_view};
ghost use Rattle.cap_parse_tree.specs.Views.{several_view, item_view, assertion_view, side_view};
ghost use Rattle.cap_parse_tree.specs.Views.{comparison_view};
ghost use Rattle.cap_resolve_spec.specs.Parts.{held_atoms, term_place as place_of};
ghost use Rattle.cap_resolve_spec.specs.Names.{variable_of};
ghost use Rattle.cap_resolve_spec.specs.Linear.{term_form};
ghost use Rattle.cap_resolve_spec.specs.Items.{type_of};
ghost use Rattle.cap_resolve_spec.specs.Program.{slot_program, type_number, atoms_program, lone};
ghost use Rattle.cap_resolve_spec.specs.Program.{guard_number, asked_program, false_comparison};
ghost use Rattle.cap_resolve_spec.specs.Program.{comparison_program};
ghost use Rattle.cap_resolve_tables.specs.Tables.{regions_of, types_of, numbered_view};
ghost use Rattle.cap_resolve_functions.specs.Views.{items_seen, item_read, assertion_read, side_read, atom_built};
ghost use Rattle.cap_resolve_functions.specs.Narrow.{HasFew, IsNarrow, IsNarrowComparison};
ghost use Rattle.cap_resolve_functions.specs.Narrow.{IsNarrowSlot, IsNarrowPart, IsNarrowGuard};
ghost use Rattle.cap_resolve_functions.specs.Narrow.{IsNarrowItem, IsNarrowAssertion, IsNarrowSide};

use crate::comparisons::build_comparison;
use crate::guards::build_asked;
use crate::reading::Reading;
use crate::slots::{build_slot, build_slots};
use crate::terms::build_term;
use cap_lin::{Op, Sort, Term as Linear};
use cap_parse_tree::{
    Assertion as AssertionTree, Comparison, GuardAtom, Guards, Item as ItemTree, Separated, Side,
    Slot, Term, Word,
};
use cap_prog::{Assertion, Comp, Item};
use cap_resolve_parts::{atom_word, term_place};
use cap_resolve_tables::Numbered;
use cap_resolve_terms::Scope;
use cap_syntax::Place;
use std::alloc::{AllocError, Global};

#[tactic(auto, using(crate::proofs::ItemLists::pushed))]
fn push(items: &mut Vec<Item>, item: Item) -> Result<(), AllocError>
    ensures { OnOk result
        (items_seen items.new.items ≡ append_items (items_seen items.old.items) (lone (seen item))) }
{
    items.push(item)?;
    Ok(())
}

/// `false` is 0 = 1.
fn build_false(alloc: Global, place: Place) -> Item
    ensures { seen result ≡ plain.compare (false_comparison place) }
{
    Item::Compare(Comp {
        left: Linear::constant(alloc, 0),
        op: Op::Eq,
        right: Linear::constant(alloc, 1),
        sort: Sort::Int,
        place,
    })
}

fn build_fact(
    alloc: Global,
    reading: &Reading<'_, '_, '_>,
    key: &Word,
    region: &Word,
    arguments: &[(Place, Slot)],
    state: &Slot,
) -> Result<Item, AllocError>
    requires few { HasFew reading.now.scope.now }
    requires arguments { AllByRecursion (IsNarrowPart reading.now.scope.now)
        (map (behind_view slot_view) arguments.now) }
    requires state { IsNarrowSlot reading.now.scope.now (slot_view state.now) }
    ensures { IfOk result (λ i. seen i ≡ plain.fact key.now.place
        (variable_of reading.now.scope.now region.now.text)
        (type_number (regions_of reading.now.regions.now) key.now.text)
        (map (λ a. slot_program reading.now.scope.now a.1) (map (behind_view slot_view) arguments.now))
        (slot_program reading.now.scope.now (slot_view state.now))) }
{
    let arguments = build_slots(alloc, reading.scope, arguments)?;
    let state = build_slot(alloc, reading.scope, state)?;
    let variable = reading.scope.variable(region.text.as_bytes());
    let number = reading.regions.number(key.text.as_bytes());
    Ok(Item::Fact(key.place, variable, number, arguments, state))
}

fn build_cell(
    alloc: Global,
    scope: &Scope<'_>,
    address: &Term,
    slot: &Slot,
) -> Result<Item, AllocError>
    requires address { IsNarrow scope.now (term_view address.now) }
    requires slot { IsNarrowSlot scope.now (slot_view slot.now) }
    ensures { IfOk result (λ i. seen i ≡ plain.cell (place_of (term_view address.now))
        (term_form scope.now (term_view address.now)) (slot_program scope.now (slot_view slot.now))) }
{
    let place = term_place(address);
    let address = build_term(alloc, scope, address)?;
    let slot = build_slot(alloc, scope, slot)?;
    Ok(Item::Cell(place, address, slot))
}

fn build_atom(
    alloc: Global,
    scope: &Scope<'_>,
    region: &Word,
    type_: Numbered<'_, '_>,
    guard: &GuardAtom,
) -> Result<Item, AllocError>
    requires { IsNarrowGuard scope.now (guard_view guard.now) }
    ensures { IfOk result (λ i. seen i
        ≡ atom_built (numbered_view type_.entry) scope.now region.now (guard_view guard.now)) }
{
    let asked = build_asked(alloc, scope, guard)?;
    let variable = scope.variable(region.text.as_bytes());
    let atom = type_.region.guard_number(atom_word(guard).text.as_bytes());
    Ok(Item::Atom(region.place, variable, type_.number, atom, asked))
}

fn push_atom(
    alloc: Global,
    scope: &Scope<'_>,
    items: &mut Vec<Item>,
    region: &Word,
    type_: Numbered<'_, '_>,
    guard: &GuardAtom,
) -> Result<(), AllocError>
    requires { IsNarrowGuard scope.now (guard_view guard.now) }
    ensures { OnOk result (map seen items.new.items ≡ map seen items.old.items
        ++ (atom_built (numbered_view type_.entry) scope.now region.now (guard_view guard.now)
        ∷ [])) }
{
    let atom = build_atom(alloc, scope, region, type_, guard)?;
    items.push(atom)?;
    Ok(())
}

fn push_atoms(
    alloc: Global,
    scope: &Scope<'_>,
    items: &mut Vec<Item>,
    region: &Word,
    type_: Numbered<'_, '_>,
    guards: &Separated<GuardAtom>,
) -> Result<(), AllocError>
    requires { AllByRecursion (IsNarrowGuard scope.now)
        (parts_of (several_view guard_view guards.now)) }
    ensures { OnOk result (map seen items.new.items ≡ map seen items.old.items
        ++ map (atom_built (numbered_view type_.entry) scope.now region.now)
        (parts_of (several_view guard_view guards.now))) }
{
    push_atom(alloc, scope, items, region, type_, &guards.first)?;
    for part in &guards.more {
        push_atom(alloc, scope, items, region, type_, &part.1)?;
    }
    Ok(())
}

/// Without a type there is no atom.
#[tactic(auto, using(crate::proofs::ItemLists::pushed, crate::proofs::ItemLists::atoms_behind))]
fn push_guards(
    alloc: Global,
    reading: &Reading<'_, '_, '_>,
    items: &mut Vec<Item>,
    region: &Word,
    guards: &Guards,
) -> Result<(), AllocError>
    requires { AllByRecursion (IsNarrowGuard reading.now.scope.now)
        (held_atoms (held_view guards.now)) }
    ensures { OnOk result (items_seen items.new.items ≡ append_items (items_seen items.old.items)
        (atoms_program (type_of (types_of reading.now.types) region.now.text) reading.now.scope.now
        region.now (held_atoms (held_view guards.now)))) }
{
    match reading.types.type_of(region.text.as_bytes()) {
        None => Ok(()),
        Some(type_) => match guards {
            Guards::Bare(guards) | Guards::Bracketed(_, guards, _) => {
                push_atoms(alloc, reading.scope, items, region, type_, guards)
            }
        },
    }
}

fn build_choose(
    alloc: Global,
    scope: &Scope<'_>,
    comparison: &Comparison,
    first: Assertion,
    second: Assertion,
) -> Result<Item, AllocError>
    requires { IsNarrowComparison scope.now (comparison_view comparison.now) }
    ensures { IfOk result
        (λ i. seen i ≡ plain.choose (comparison_program scope.now (comparison_view comparison.now))
        (items_of_side first) (items_of_side second)) }
{
    let comparison = build_comparison(alloc, scope, comparison)?;
    Ok(Item::Choose(comparison, first, second))
}

#[cycle(items)]
fn build_side(
    alloc: Global,
    side: &Side,
    reading: &Reading<'_, '_, '_>,
) -> Result<Assertion, AllocError>
    requires { IsNarrowSide reading.now.scope.now (side_view side.now) }
    ensures { IfOk result (λ a. items_of_side a ≡ side_read reading.now (side_view side.now)) }
{
    let mut items = Vec::new(alloc);
    push_items(alloc, &side.assertion, reading, &mut items)?;
    Ok(Assertion {
        names: Vec::new(alloc),
        items,
    })
}

#[cycle(items)]
fn push_item(
    alloc: Global,
    item: &ItemTree,
    reading: &Reading<'_, '_, '_>,
    items: &mut Vec<Item>,
) -> Result<(), AllocError>
    requires { IsNarrowItem reading.now.scope.now (item_view item.now) }
    ensures { OnOk result (items_seen items.new.items ≡ append_items (items_seen items.old.items)
        (item_read reading.now (item_view item.now))) }
{
    match item {
        ItemTree::True(_) => Ok(()),
        ItemTree::False(place) => push(items, build_false(alloc, *place)),
        ItemTree::Fact(key, _, region, arguments, _, state, _) => {
            let fact = build_fact(alloc, reading, key, region, arguments.as_slice(), state)?;
            push(items, fact)
        }
        ItemTree::Guards(region, _, guards) => push_guards(alloc, reading, items, region, guards),
        ItemTree::Cell(address, _, slot) => {
            let cell = build_cell(alloc, reading.scope, address, slot)?;
            push(items, cell)
        }
        ItemTree::Compare(comparison) => {
            let comparison = build_comparison(alloc, reading.scope, comparison)?;
            push(items, Item::Compare(comparison))
        }
        ItemTree::Choose(comparison, _, first, _, second) => {
            let first = build_side(alloc, first, reading)?;
            let second = build_side(alloc, second, reading)?;
            let choose = build_choose(alloc, reading.scope, comparison, first, second)?;
            push(items, choose)
        }
    }
}

/// Puts the items of an assertion behind the items.
#[cycle(items)]
pub fn push_items(
    alloc: Global,
    assertion: &AssertionTree,
    reading: &Reading<'_, '_, '_>,
    items: &mut Vec<Item>,
) -> Result<(), AllocError>
    requires { IsNarrowAssertion reading.now.scope.now (assertion_view assertion.now) }
    ensures { OnOk result (items_seen items.new.items ≡ append_items (items_seen items.old.items)
        (assertion_read reading.now (assertion_view assertion.now))) }
{
    push_item(alloc, &assertion.first, reading, items)?;
    for and in &assertion.more {
        push_item(alloc, &and.item, reading, items)?;
    }
    Ok(())
}
