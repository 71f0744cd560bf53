//! Assertions that are given: their names get variables, and their items are assumed.
ghost use Rattle.std.specs.Prelude.{◌≡◌, IfOk, None, is_some};
ghost use Rattle.cap_lin.specs.Exact.{IsExact};
ghost use Rattle.cap_lin.specs.Linear.{variable};
ghost use Rattle.cap_lin.specs.declared.row.Sort.TheVariants.{Int};
ghost use Rattle.cap_prog.specs.Views.{item_view, program_view};
ghost use Rattle.cap_goal_spec.specs.Environments.{term_of as term_in_env, term_in, term_in_steps};
ghost use Rattle.cap_rules.specs.Giving.{name_as as named_as, name_parts as parts_named};
ghost use Rattle.cap_rules.specs.Giving.{give_term as term_given, give_slot as slot_given};
ghost use Rattle.cap_rules.specs.Giving.{give_slots as slots_given, give_form as form_given};
ghost use Rattle.cap_rules.specs.Giving.{give_sides as sides_given, give_item as item_given};
ghost use Rattle.cap_rules.specs.Making.{env_at as env_in};
ghost use Rattle.cap_rules_steps.specs.Places.{terms_view};
ghost use Rattle.cap_rules_steps.specs.Walks.{Makes, giving, seen};
ghost use Rattle.cap_take_give.specs.Given.{gives, comparison_given, fact_given};
ghost use Rattle.cap_take_give.specs.Given.{atom_given, cell_given};
ghost use Rattle.cap_prog.specs.declared.assertion.Asked.TheVariants as asked_as;

use cap_goal::{Env, State};
use cap_gsolve::{Form, Piece};
use cap_lin::{LinError, Op, Sort, Term};
use cap_prog::{Asked, Comp, Item, Program, Slot};
use cap_rules_steps::{
    RuleError, term_of, value_by, with_cell, with_comparison, with_env_at, with_sort,
};
use cap_take_holdings::{bind_open, copy_env, env_at, fact_of, with_fact, with_piece};
use std::alloc::Global;

// Whether the environment of a number binds a name.
fn is_bound(alloc: Global, state: &State, env: u32, name: u32) -> bool
    ensures { result ≡ is_some (term_in_env (env_in state.now env) name) }
{
    let none = Env {
        terms: Vec::new(alloc),
    };
    term_of(env_at(state, env, &none), name).is_some()
}

// What a term stands for, by the environment of a number.
fn value_at(alloc: Global, state: &State, env: u32, term: &Term) -> Result<Term, LinError>
    ensures { IsExact result (term_in_steps (env_in state.now env) term.now)
        (term_in (env_in state.now env) term.now) }
{
    let none = Env {
        terms: Vec::new(alloc),
    };
    value_by(alloc, env_at(state, env, &none), term)
}

// The name gets a fresh variable of this sort.
fn name_fresh(
    alloc: Global,
    state: &mut State,
    env: u32,
    sort: Sort,
    name: u32,
) -> Result<(), RuleError>
    ensures { Makes (giving result state.new) (named_as state.old env sort name None) }
{
    let mut names = copy_env(alloc, state, env)?;
    let fresh = with_sort(alloc, state, sort)?;
    bind_open(alloc, &mut names, Some(name), &fresh)?;
    with_env_at(state, env, names)?;
    Ok(())
}

// The name gets a fresh variable of this sort, if it is unbound.
fn name_as(
    alloc: Global,
    state: &mut State,
    env: u32,
    sort: Sort,
    name: u32,
) -> Result<(), RuleError>
    ensures { Makes (giving result state.new)
        (named_as state.old env sort name (term_in_env (env_in state.old env) name)) }
{
    if is_bound(alloc, state, env, name) {
        return Ok(());
    }
    name_fresh(alloc, state, env, sort, name)
}

// Each unbound name of a term gets a fresh variable of this sort.
fn name_parts(
    alloc: Global,
    state: &mut State,
    env: u32,
    sort: Sort,
    term: &Term,
) -> Result<(), RuleError>
    ensures { Makes (giving result state.new) (parts_named state.old env sort term.now.parts) }
{
    for part in term.parts() {
        name_as(alloc, state, env, sort, part.0)?;
    }
    Ok(())
}

// What a term stands for, once its names are bound.
fn give_term(
    alloc: Global,
    state: &mut State,
    env: u32,
    sort: Sort,
    term: &Term,
) -> Result<Term, RuleError>
    ensures { Makes (gives result state.new) (term_given state.old env sort term.now) }
{
    name_parts(alloc, state, env, sort, term)?;
    Ok(value_at(alloc, state, env, term)?)
}

// What a slot stands for, once its names are bound; `_` is a fresh variable.
fn give_slot(
    alloc: Global,
    state: &mut State,
    env: u32,
    sort: Sort,
    slot: &Slot,
) -> Result<Term, RuleError>
    ensures { Makes (gives result state.new) (slot_given state.old env sort slot.now) }
{
    match slot {
        Slot::Any => with_sort(alloc, state, sort),
        Slot::Is(term) => give_term(alloc, state, env, sort, term),
    }
}

// What slots stand for, one after the other.
fn give_slots(
    alloc: Global,
    state: &mut State,
    env: u32,
    slots: &[Slot],
) -> Result<Vec<Term>, RuleError>
    ensures { Makes (gives (seen terms_view result) state.new)
        (slots_given state.old env slots.now) }
{
    let mut terms = Vec::new(alloc);
    for slot in slots {
        terms.push(give_slot(alloc, state, env, Sort::Int, slot)?)?;
    }
    Ok(terms)
}

// One index is given.
fn give_index(alloc: Global, state: &mut State, env: u32, slot: &Slot) -> Result<Form, RuleError>
    ensures { Makes (gives result state.new) (form_given state.old env (asked_as.At slot.now)) }
{
    let index = give_slot(alloc, state, env, Sort::Int, slot)?;
    let step = Term::constant(alloc, 1);
    let next = index.add(alloc, &step)?;
    Ok(Form::Span(index, Some(next)))
}

// How much of a guard is given.
fn give_form(alloc: Global, state: &mut State, env: u32, asked: &Asked) -> Result<Form, RuleError>
    ensures { Makes (gives result state.new) (form_given state.old env asked.now) }
{
    match asked {
        Asked::One => Ok(Form::One),
        Asked::Share(slot) => Ok(Form::Share(give_slot(alloc, state, env, Sort::Perm, slot)?)),
        Asked::Src(slot) => Ok(Form::Src(give_slot(alloc, state, env, Sort::Int, slot)?)),
        Asked::Tok(slot) => Ok(Form::Tok(give_slot(alloc, state, env, Sort::Int, slot)?)),
        Asked::At(slot) => give_index(alloc, state, env, slot),
        Asked::From(slot) => Ok(Form::Span(give_slot(alloc, state, env, Sort::Int, slot)?, None)),
    }
}

// What the two sides of a comparison stand for.
pub(crate) fn give_sides(
    alloc: Global,
    state: &mut State,
    env: u32,
    comparison: &Comp,
) -> Result<(Term, Term), RuleError>
    ensures { Makes (gives result state.new)
        (sides_given state.old env comparison.now) }
{
    let left = give_term(alloc, state, env, comparison.sort, &comparison.left)?;
    let right = give_term(alloc, state, env, comparison.sort, &comparison.right)?;
    Ok((left, right))
}

// A comparison holds.
fn give_comparison(
    alloc: Global,
    state: &mut State,
    env: u32,
    comparison: &Comp,
) -> Result<(), RuleError>
    ensures { Makes (giving result state.new) (comparison_given state.old env comparison.now) }
{
    let sides = give_sides(alloc, state, env, comparison)?;
    with_comparison(
        alloc,
        state,
        &sides.0,
        comparison.op,
        &sides.1,
        comparison.sort,
    )
}

// What the variable that names a region stands for.
fn give_region(alloc: Global, state: &mut State, env: u32, region: u32) -> Result<Term, RuleError>
    ensures { Makes (gives result state.new) (term_given state.old env Int (variable region)) }
{
    let name = Term::var(alloc, region)?;
    give_term(alloc, state, env, Sort::Int, &name)
}

// What is known of a region.
fn give_fact(
    alloc: Global,
    state: &mut State,
    env: u32,
    region: u32,
    kind: u32,
    args: &[Slot],
    slot: &Slot,
) -> Result<(), RuleError>
    ensures { Makes (giving result state.new)
        (fact_given state.old env region kind args.now slot.now) }
{
    let region = give_region(alloc, state, env, region)?;
    let args = give_slots(alloc, state, env, args)?;
    let last = give_slot(alloc, state, env, Sort::Int, slot)?;
    with_fact(alloc, state, fact_of(region, kind, args, last))
}

// A piece of a guard.
fn give_atom(
    alloc: Global,
    program: &Program,
    state: &mut State,
    env: u32,
    region: u32,
    kind: u32,
    atom: u32,
    asked: &Asked,
) -> Result<(), RuleError>
    ensures { Makes (giving result state.new) (atom_given (program_view program.now) state.old env
        region kind atom asked.now) }
{
    let region = give_region(alloc, state, env, region)?;
    let form = give_form(alloc, state, env, asked)?;
    let piece = Piece {
        region,
        kind,
        atom,
        form,
    };
    with_piece(alloc, program, state, &piece)
}

// A cell at an address that is at least 1.
fn give_cell(
    alloc: Global,
    state: &mut State,
    env: u32,
    address: &Term,
    content: &Slot,
) -> Result<(), RuleError>
    ensures { Makes (giving result state.new) (cell_given state.old env address.now content.now) }
{
    let address = give_term(alloc, state, env, Sort::Int, address)?;
    let content = give_slot(alloc, state, env, Sort::Int, content)?;
    let one = Term::constant(alloc, 1);
    with_cell(state, address.copy(alloc)?, content)?;
    with_comparison(alloc, state, &address, Op::Ge, &one, Sort::Int)
}

/// Assumes an item in the environment of a number; nothing of a conditional.
pub(crate) fn give_item(
    alloc: Global,
    program: &Program,
    state: &mut State,
    env: u32,
    item: &Item,
) -> Result<(), RuleError>
    ensures { Makes (giving result state.new)
        (item_given (program_view program.now) state.old env (item_view item.now)) }
{
    match item {
        Item::Compare(comparison) => give_comparison(alloc, state, env, comparison),
        Item::Choose(_, _, _) => Ok(()),
        Item::Fact(_, region, kind, args, slot) => {
            give_fact(alloc, state, env, *region, *kind, args, slot)
        }
        Item::Atom(_, region, kind, atom, asked) => {
            give_atom(alloc, program, state, env, *region, *kind, *atom, asked)
        }
        Item::Cell(_, address, content) => give_cell(alloc, state, env, address, content),
    }
}
