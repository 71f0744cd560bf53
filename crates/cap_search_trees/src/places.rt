//! The places at which what is left open is printed.
ghost use Rattle.std.specs.Prelude.{◌≡◌, ◌<◌, ◌++◌, IfOk, slice_get, unwrap_or};
ghost use Rattle.cap_prog.specs.Parts.{all_statements};
ghost use Rattle.cap_prog.specs.Views.{act_view, block_view, function_view, item_view, items_view};
ghost use Rattle.cap_prog.specs.Views.{program_view, region_view, statement_view};
ghost use Rattle.cap_goal.specs.Views.{unit_view};
ghost use Rattle.cap_search_spec.specs.Leaves.{first_place as first_item_place, nowhere};
ghost use Rattle.cap_search_spec.specs.Leaves.{obligation_of as obligation_at_leaf};
ghost use Rattle.cap_search_spec.specs.Leaves.{place_of_item as item_place};
ghost use Rattle.cap_search_spec.specs.Leaves.{root_places as places_of_roots};
ghost use Rattle.cap_search_spec.specs.Leaves.{function_places as places_of_function};
ghost use Rattle.cap_search_spec.specs.Leaves.{statement_place as place_at};
ghost use Rattle.cap_search_spec.specs.Leaves.{region_places as places_of_region, statements_of};
ghost use Rattle.cap_search_trees.specs.Places.{act_places, block_places};
ghost use Rattle.cap_search_trees.specs.Places.{numbered, numbered_within};
ghost use Rattle.cap_search_trees.specs.Views.{leaf_view, obligation_view};

use crate::leaf::Leaf;
use crate::obligation::Obligation;
use cap_goal::Unit;
use cap_prog::{Act, Assertion, Function, Item, Program, RegionType, Statement};
use cap_syntax::Place;
use std::alloc::{AllocError, Global};

/// Where nothing stands.
const NOWHERE: Place = Place { line: 1, column: 1 };

fn place_of_item(item: &Item) -> Place
    ensures { result ≡ item_place (item_view item.now) }
{
    match item {
        Item::Compare(comparison) | Item::Choose(comparison, _, _) => comparison.place,
        Item::Fact(place, _, _, _, _) | Item::Atom(place, _, _, _, _) | Item::Cell(place, _, _) => {
            *place
        }
    }
}

// The place of an assertion's first item, or of its function where there is none.
fn first_place(function: &Function, assertion: &Assertion) -> Place
    ensures { result ≡ first_item_place (function_view function.now) (items_view assertion.now) }
{
    match assertion.items.as_slice() {
        [] => function.place,
        [item, ..] => place_of_item(item),
    }
}

// Appends the places of the roots of the loops in a statement.
#[cycle(places)]
fn push_places_within(
    places: &mut Vec<Place>,
    function: &Function,
    act: &Act,
) -> Result<(), AllocError>
    ensures { IfOk result (λ _. places.new.items ≡ places.old.items
        ++ act_places (function_view function.now) (act_view act.now)) }
{
    match act {
        Act::If(_, yes, no) => {
            push_places(places, function, yes)?;
            push_places(places, function, no)
        }
        Act::While(_, invariant, body) => {
            let place = first_place(function, invariant);
            places.push(place)?;
            places.push(place)?;
            push_places(places, function, body)
        }
        Act::Set(_, _)
        | Act::Read(_, _)
        | Act::Write(_, _)
        | Act::Cas(_, _, _, _)
        | Act::Faa(_, _, _)
        | Act::Dispose(_)
        | Act::Alloc(_, _)
        | Act::Call(_, _, _)
        | Act::Fork(_, _)
        | Act::Assert(_)
        | Act::Return(_) => Ok(()),
    }
}

// Appends the places of the roots of the loops in a list, in the order of the text.
#[cycle(places)]
fn push_places(
    places: &mut Vec<Place>,
    function: &Function,
    list: &[Statement],
) -> Result<(), AllocError>
    ensures { IfOk result (λ _. places.new.items ≡ places.old.items
        ++ block_places (function_view function.now) (block_view list.now)) }
{
    for statement in list {
        push_places_within(places, function, &statement.act)?;
    }
    Ok(())
}

fn function_places(alloc: Global, function: &Function) -> Result<Vec<Place>, AllocError>
    ensures { IfOk result
        (λ v. v.items ≡ places_of_function (Some (function_view function.now))) }
{
    let before = first_place(function, &function.requires_);
    let mut places = Vec::new(alloc);
    places.push(before)?;
    places.push(first_place(function, &function.ensures_))?;
    places.push(before)?;
    push_places(&mut places, function, &function.body)?;
    Ok(places)
}

fn region_places(alloc: Global, region: &RegionType) -> Result<Vec<Place>, AllocError>
    ensures { IfOk result (λ v. v.items ≡ places_of_region (Some (region_view region.now))) }
{
    let mut places = Vec::new(alloc);
    for case in &region.cases {
        places.push(case.place)?;
    }
    Ok(places)
}

// For each root of a unit, in their order, the place that is printed outside a body.
fn root_places(alloc: Global, program: &Program, unit: Unit) -> Result<Vec<Place>, AllocError>
    ensures { IfOk result
        (λ v. v.items ≡ places_of_roots (program_view program.now) (unit_view unit)) }
{
    match unit {
        Unit::Region(number) => match program.regions().get(number as usize) {
            None => Ok(Vec::new(alloc)),
            Some(region) => region_places(alloc, region),
        },
        Unit::Function(number) => match program.functions().get(number as usize) {
            None => Ok(Vec::new(alloc)),
            Some(function) => function_places(alloc, function),
        },
    }
}

// The place of the statement of a number within a statement.
#[cycle(numbers)]
fn place_within(act: &Act, number: u32) -> Option<Place>
    ensures { result ≡ numbered_within number (act_view act.now) }
{
    match act {
        Act::If(_, yes, no) => match place_in(yes, number) {
            Some(place) => Some(place),
            None => place_in(no, number),
        },
        Act::While(_, _, body) => place_in(body, number),
        Act::Set(_, _)
        | Act::Read(_, _)
        | Act::Write(_, _)
        | Act::Cas(_, _, _, _)
        | Act::Faa(_, _, _)
        | Act::Dispose(_)
        | Act::Alloc(_, _)
        | Act::Call(_, _, _)
        | Act::Fork(_, _)
        | Act::Assert(_)
        | Act::Return(_) => None,
    }
}

// The place of the statement of a number in a list.
#[cycle(numbers)]
fn place_in(list: &[Statement], number: u32) -> Option<Place>
    ensures { result ≡ numbered number (all_statements (block_view list.now)) }
{
    for statement in list {
        if statement.number == number {
            return Some(statement.place);
        }
        match place_within(&statement.act, number) {
            Some(place) => return Some(place),
            None => {}
        }
    }
    None
}

// The place of the statement of a number in a unit.
fn numbered_place(program: &Program, unit: Unit, number: u32) -> Place
    ensures { result ≡ unwrap_or
        (numbered number (statements_of (program_view program.now) (unit_view unit))) nowhere }
{
    match unit {
        Unit::Region(_) => NOWHERE,
        Unit::Function(function) => match program.functions().get(function as usize) {
            None => NOWHERE,
            Some(function) => place_in(&function.body, number).unwrap_or(NOWHERE),
        },
    }
}

// The place of a root.
fn root_place(
    alloc: Global,
    program: &Program,
    unit: Unit,
    root: usize,
) -> Result<Place, AllocError>
    ensures { IfOk result (λ place. place
        ≡ place_at (program_view program.now) (unit_view unit) root 0) }
{
    let places = root_places(alloc, program, unit)?;
    match places.get(root) {
        None => Ok(NOWHERE),
        Some(place) => Ok(*place),
    }
}

fn statement_place(
    alloc: Global,
    program: &Program,
    unit: Unit,
    root: usize,
    number: u32,
) -> Result<Place, AllocError>
    ensures { IfOk result (λ place. place
        ≡ place_at (program_view program.now) (unit_view unit) root number) }
{
    if number == 0 {
        root_place(alloc, program, unit, root)
    } else {
        Ok(numbered_place(program, unit, number))
    }
}

/// What is printed of a leaf in the tree of a root.
pub(crate) fn obligation_of(
    alloc: Global,
    program: &Program,
    unit: Unit,
    root: usize,
    leaf: Leaf,
) -> Result<Obligation, AllocError>
    ensures { IfOk result (λ o. obligation_view o
        ≡ obligation_at_leaf (program_view program.now) (unit_view unit) root (leaf_view leaf)) }
{
    let statement = statement_place(alloc, program, unit, root, leaf.statement)?;
    Ok(Obligation {
        statement,
        need: leaf.need,
        item: leaf.item.unwrap_or(statement),
    })
}
