//! An item is taken.
ghost use Rattle.std.specs.Prelude.{◌≡◌, ◌&&◌, false, List, map, OnOk, Some, ℕ};
ghost use Rattle.cap_farkas.specs.declared.cert.Cert.{Cert};
ghost use Rattle.cap_goal.specs.Views.{choice_view, has_no_items, tasks_view};
ghost use Rattle.cap_goal_spec.specs.Choices.{by_cases, by_cell, by_convert, by_fact, by_guard};
ghost use Rattle.cap_goal_spec.specs.Choices.{by_region};
ghost use Rattle.cap_goal_spec.specs.States.{goals_of, PlainState, PlainTask};
ghost use Rattle.cap_prog.specs.Program.{choose, Items, items_of, PlainProgram};
ghost use Rattle.cap_prog.specs.Views.{item_view, items_view, program_view};
ghost use Rattle.cap_rules.specs.Making.{env_at, is_empty as is_nothing};
ghost use Rattle.cap_owners_spec.specs.Filling.{met};
ghost use Rattle.cap_owners_spec.specs.Walks.{asked_reading, pass_cell, pass_guard, pass_item};
ghost use Rattle.cap_owners_spec.specs.Walks.{pass_piece, pass_region, Walk};
ghost use Rattle.cap_owners_passes.specs.Views.{asks_tokens, creates_by, Takes, with_values};
ghost use Rattle.cap_owners_values.specs.Views.{value_view};

use crate::ahead::{are_done, child_of};
use crate::lookup::member;
use crate::walk::Taking;
use cap_goal::{Choice, Env, State, Task};
use cap_owners_fill::{Fill, atom_met, halves, meet_region, meet_slot};
use cap_owners_values::{TraceError, Value, Values};
use cap_prog::{Asked, Assertion, Comp, Item, Program, Slot};
use std::alloc::{AllocError, Global};

/// What is known where an item is taken: the program, the state, what the assertion's names stand
/// for, and the values of the variables.
#[derive(Clone, Copy)]
pub(crate) struct Setting<'s> {
    pub(crate) program: &'s Program,
    pub(crate) state: &'s State,
    pub(crate) env: &'s Env,
    pub(crate) values: &'s Values,
}

/// Where a walk goes once an item is taken: the number of the child, if the choice leaves one, and
/// the value of the variable that is new, if there is one.
#[derive(Clone, Copy)]
pub(crate) struct Taken {
    pub(crate) child: Option<usize>,
    pub(crate) new: Option<Value>,
}

// To the only child, with the value of a new variable, if there is one.
fn goes(new: Option<Value>) -> Taken
    ensures child { result.child ≡ Some 0 }
    ensures new { result.new ≡ new }
{
    Taken {
        child: Some(0),
        new,
    }
}

// ---- cells, regions and guards

fn take_cell(
    at: &Setting<'_>,
    number: u32,
    slot: &Slot,
    top: &mut Taking,
) -> Result<Taken, TraceError>
    ensures { (w : Walk) → Takes result (with_values w at.now.values.now) top.new
        (pass_cell at.now.state.now at.now.env.now number slot.now top.old
        (with_values w at.now.values.now)) }
{
    let cell = member(at.state.cells(), number)?;
    let address = at.values.number_in(&cell.0)?;
    let value = at.values.number_in(&cell.1)?;
    meet_slot(&mut top.fill, at.env, slot, Value::Number(value))?;
    top.part.put_cell(address, value)?;
    Ok(goes(None))
}

fn take_region(
    at: &Setting<'_>,
    number: u32,
    region: u32,
    args: &[Slot],
    slot: &Slot,
    top: &mut Taking,
) -> Result<Taken, TraceError>
    ensures { (w : Walk) → Takes result (with_values w at.now.values.now) top.new
        (pass_region at.now.state.now at.now.env.now number region args.now slot.now top.old
        (with_values w at.now.values.now)) }
{
    let fact = member(at.state.facts(), number)?;
    let there = at.values.number_in(&fact.region)?;
    let state = at.values.number_in(&fact.state)?;
    meet_region(&mut top.fill, at.values, at.env, region, args, slot, fact)?;
    top.fill.facts.push((there, state))?;
    Ok(goes(None))
}

// What is asked of a guard is met by a value. Of a unique one nothing is open.
fn meet_asked(fill: &mut Fill, env: &Env, asked: &Asked, value: Value) -> Result<(), AllocError>
    ensures { OnOk result
        (fill.new ≡ met (asked_reading env.now asked.now) (value_view value) fill.old) }
{
    match asked {
        Asked::One => Ok(()),
        Asked::Share(slot)
        | Asked::Src(slot)
        | Asked::Tok(slot)
        | Asked::At(slot)
        | Asked::From(slot) => meet_slot(fill, env, slot, value),
    }
}

// Some of a piece is taken, or all of it.
fn take_piece(
    alloc: Global,
    at: &Setting<'_>,
    number: u32,
    kind: u32,
    atom: u32,
    asked: &Asked,
    top: &mut Taking,
) -> Result<Taken, TraceError>
    ensures { (w : Walk) → Takes result (with_values w at.now.values.now) top.new
        (pass_piece (program_view at.now.program.now) at.now.state.now at.now.env.now number kind
        atom asked.now top.old (with_values w at.now.values.now)) }
{
    let piece = member(at.state.guards(), number)?;
    let region = at.values.number_in(&piece.region)?;
    let value = atom_met(at.values, &top.fill.names, &piece.form, at.env, asked)?;
    top.part
        .put_asked(alloc, at.program, region, kind, atom, asked, value)?;
    meet_asked(&mut top.fill, at.env, asked, value)?;
    let new = if halves(at.env, asked) {
        Some(value)
    } else {
        None
    };
    Ok(goes(new))
}

// Whether tokens are asked for.
fn asks_tokens(asked: &Asked) -> bool
    ensures { result ≡ asks_tokens asked.now }
{
    match asked {
        Asked::Tok(_) => true,
        Asked::One | Asked::Share(_) | Asked::Src(_) | Asked::At(_) | Asked::From(_) => false,
    }
}

// In way 2 no token is taken.
fn take_guard(
    alloc: Global,
    at: &Setting<'_>,
    number: u32,
    way: u32,
    kind: u32,
    atom: u32,
    asked: &Asked,
    top: &mut Taking,
) -> Result<Taken, TraceError>
    ensures { (w : Walk) → Takes result (with_values w at.now.values.now) top.new
        (pass_guard (program_view at.now.program.now) at.now.state.now at.now.env.now number way
        kind atom asked.now top.old (with_values w at.now.values.now)) }
{
    if way == 2 && asks_tokens(asked) {
        return Ok(goes(None));
    }
    take_piece(alloc, at, number, kind, atom, asked, top)
}

// Whether there is no item in the list.
fn is_empty(items: &[Item]) -> bool
    ensures { result ≡ has_no_items (items_of (map item_view items.now)) }
{
    items.is_empty()
}

// Whether there is no item in the assertion.
fn has_no_items(assertion: &Assertion) -> bool
    ensures { result ≡ has_no_items (items_view assertion.now) }
{
    is_empty(&assertion.items)
}

// Whether nothing is left to be done on a side of a conditional: neither its items, nor those
// behind the conditional, nor the tasks behind these.
fn leaves_nothing(side: &Assertion, is_last: bool, behind: &[Task<'_>], state: &State) -> bool
    ensures { result ≡ (is_last && (has_no_items (items_view side.now)
        && is_nothing (goals_of state.now (tasks_view behind.now)))) }
{
    is_last && has_no_items(side) && are_done(behind, state)
}

// A conditional is gone on with at the side that holds. The goal of the side where its comparison
// holds is missing where nothing is left to be done there.
fn take_side(
    state: &State,
    comparison: &Comp,
    holding: &Assertion,
    is_last: bool,
    behind: &[Task<'_>],
    names: &Values,
) -> Result<Taken, TraceError>
    ensures { (p : PlainProgram) (failing more : Items) (e left n : ℕ) (t : Taking) (w : Walk) →
        has_no_items more ≡ is_last → t.fill.names ≡ names.now → Takes result w t
        (pass_item p state.now by_cases (choose comparison.now (items_view holding.now) failing)
        more e left n (tasks_view behind.now) t w) }
{
    let holds = names.holds(comparison)?;
    let missing = leaves_nothing(holding, is_last, behind, state);
    Ok(Taken {
        child: child_of(holds, missing),
        new: None,
    })
}

// ---- items that their choices fit

fn at_comparison(item: &Item) -> Result<Taken, TraceError>
    ensures { (p : PlainProgram) (s : PlainState) (certs : List Cert) (more : Items) (e left n : ℕ)
        (ts : List PlainTask) (t : Taking) (w : Walk) → Takes result w t
        (pass_item p s (by_fact certs) (item_view item.now) more e left n ts t w) }
{
    match item {
        Item::Compare(_) => Ok(goes(None)),
        Item::Choose(_, _, _)
        | Item::Fact(_, _, _, _, _)
        | Item::Atom(_, _, _, _, _)
        | Item::Cell(_, _, _) => Err(TraceError::Untold),
    }
}

fn at_conditional(
    at: &Setting<'_>,
    item: &Item,
    is_last: bool,
    behind: &[Task<'_>],
    names: &Values,
) -> Result<Taken, TraceError>
    ensures { (p : PlainProgram) (more : Items) (e left n : ℕ) (t : Taking) (w : Walk) →
        has_no_items more ≡ is_last → t.fill.names ≡ names.now → Takes result w t
        (pass_item p at.now.state.now by_cases (item_view item.now) more e left n
        (tasks_view behind.now) t w) }
{
    match item {
        Item::Choose(comparison, holding, _) => {
            take_side(at.state, comparison, holding, is_last, behind, names)
        }
        Item::Compare(_)
        | Item::Fact(_, _, _, _, _)
        | Item::Atom(_, _, _, _, _)
        | Item::Cell(_, _, _) => Err(TraceError::Untold),
    }
}

fn at_cell(
    at: &Setting<'_>,
    number: u32,
    item: &Item,
    top: &mut Taking,
) -> Result<Taken, TraceError>
    ensures { (p : PlainProgram) (certs : List Cert) (more : Items) (e left n : ℕ)
        (ts : List PlainTask) (w : Walk) → env_at at.now.state.now e ≡ at.now.env.now →
        Takes result (with_values w at.now.values.now) top.new
        (pass_item p at.now.state.now (by_cell number certs) (item_view item.now) more e left n ts
        top.old (with_values w at.now.values.now)) }
{
    match item {
        Item::Cell(_, _, slot) => take_cell(at, number, slot, top),
        Item::Compare(_)
        | Item::Choose(_, _, _)
        | Item::Fact(_, _, _, _, _)
        | Item::Atom(_, _, _, _, _) => Err(TraceError::Untold),
    }
}

fn at_fact(
    at: &Setting<'_>,
    number: u32,
    item: &Item,
    top: &mut Taking,
) -> Result<Taken, TraceError>
    ensures { (p : PlainProgram) (certs : List Cert) (more : Items) (e left n : ℕ)
        (ts : List PlainTask) (w : Walk) → env_at at.now.state.now e ≡ at.now.env.now →
        Takes result (with_values w at.now.values.now) top.new
        (pass_item p at.now.state.now (by_region number certs) (item_view item.now) more e left n ts
        top.old (with_values w at.now.values.now)) }
{
    match item {
        Item::Fact(_, region, _, args, slot) => take_region(at, number, *region, args, slot, top),
        Item::Compare(_)
        | Item::Choose(_, _, _)
        | Item::Atom(_, _, _, _, _)
        | Item::Cell(_, _, _) => Err(TraceError::Untold),
    }
}

fn at_guard(
    alloc: Global,
    at: &Setting<'_>,
    number: u32,
    way: u32,
    item: &Item,
    top: &mut Taking,
) -> Result<Taken, TraceError>
    ensures { (certs : List Cert) (more : Items) (e left n : ℕ) (ts : List PlainTask)
        (w : Walk) → env_at at.now.state.now e ≡ at.now.env.now →
        Takes result (with_values w at.now.values.now) top.new
        (pass_item (program_view at.now.program.now) at.now.state.now (by_guard number way certs)
        (item_view item.now) more e left n ts top.old (with_values w at.now.values.now)) }
{
    match item {
        Item::Atom(_, _, kind, atom, asked) => {
            take_guard(alloc, at, number, way, *kind, *atom, asked, top)
        }
        Item::Compare(_)
        | Item::Choose(_, _, _)
        | Item::Fact(_, _, _, _, _)
        | Item::Cell(_, _, _) => Err(TraceError::Untold),
    }
}

fn at_converted(item: &Item) -> Result<Taken, TraceError>
    ensures { (p : PlainProgram) (s : PlainState) (sum side : ℕ) (certs : List Cert) (more : Items)
        (e left n : ℕ) (ts : List PlainTask) (t : Taking) (w : Walk) → Takes result w t
        (pass_item p s (by_convert sum side certs) (item_view item.now) more e left n ts t w) }
{
    match item {
        Item::Atom(_, _, _, _, _) => Ok(goes(None)),
        Item::Compare(_)
        | Item::Choose(_, _, _)
        | Item::Fact(_, _, _, _, _)
        | Item::Cell(_, _, _) => Err(TraceError::Untold),
    }
}

// ---- all items

/// An item is taken, behind which there may be other ones, by a choice that creates no region.
/// `Untold` comes where the choice doesn't fit the item.
pub(crate) fn take_item(
    alloc: Global,
    at: &Setting<'_>,
    choice: &Choice,
    item: &Item,
    is_last: bool,
    behind: &[Task<'_>],
    top: &mut Taking,
) -> Result<Taken, TraceError>
    requires { creates_by (choice_view choice.now) ≡ false }
    ensures { (more : Items) (e left n : ℕ) (w : Walk) → has_no_items more ≡ is_last →
        env_at at.now.state.now e ≡ at.now.env.now →
        Takes result (with_values w at.now.values.now) top.new
        (pass_item (program_view at.now.program.now) at.now.state.now (choice_view choice.now)
        (item_view item.now) more e left n (tasks_view behind.now) top.old
        (with_values w at.now.values.now)) }
{
    match choice {
        Choice::Fact(_) => at_comparison(item),
        Choice::Cases => at_conditional(at, item, is_last, behind, &top.fill.names),
        Choice::Cell(number, _) => at_cell(at, *number, item, top),
        Choice::Region(number, _) => at_fact(at, *number, item, top),
        Choice::Guard(number, way, _) => at_guard(alloc, at, *number, *way, item, top),
        Choice::Convert(_, _, _) => at_converted(item),
        Choice::Absurd(_)
        | Choice::Clash(_, _, _)
        | Choice::Set
        | Choice::Alloc
        | Choice::Assert(_)
        | Choice::If
        | Choice::Loop
        | Choice::Turn
        | Choice::Call
        | Choice::Fork
        | Choice::Return
        | Choice::Enter(_, _)
        | Choice::Act(_, _, _)
        | Choice::Pick(_, _, _)
        | Choice::Shift(_, _)
        | Choice::Settle(_, _)
        | Choice::Keep(_)
        | Choice::Give
        | Choice::Create(_)
        | Choice::Made(_) => Err(TraceError::Untold),
    }
}
