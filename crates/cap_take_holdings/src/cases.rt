//! Environments of region types: the region and its arguments, and the names of a case.
ghost use Rattle.std.specs.Prelude.{◌≡◌, ◌==◌, ◌||◌, ◌++◌, IfOk, OnOk, None, if◌then◌else◌};
ghost use Rattle.std.specs.List.{list_any};
ghost use Rattle.cap_prog.specs.Views.{item_view, items_view, case_view, region_view};
ghost use Rattle.cap_rules_steps.specs.cap_goal_spec.Environments.{bound, is_slot as slot_names};
ghost use Rattle.cap_rules_steps.specs.cap_goal_spec.Environments.{binds as item_binds};
ghost use Rattle.cap_rules_steps.specs.cap_goal_spec.Environments.{asked_slot as slot_of};
ghost use Rattle.cap_rules_steps.specs.cap_goal_spec.Environments.{is_bound_by as bound_by};
ghost use Rattle.cap_rules_steps.specs.cap_goal_spec.Environments.{region_env as env_of_region};
ghost use Rattle.cap_rules_steps.specs.cap_rules.Taking.{binds_all as binds_each};
ghost use Rattle.cap_take_holdings.specs.Holdings.{names_given};

use crate::matching::lone_name;
use cap_goal::{Env, Fact};
use cap_lin::Term;
use cap_prog::{Asked, Assertion, Case, Item, RegionType, Slot};
use std::alloc::{AllocError, Global};

// Whether the slot is this name alone.
fn is_slot(name: u64, slot: &Slot) -> bool
    ensures { result ≡ slot_names name slot.now }
{
    match slot {
        Slot::Any => false,
        Slot::Is(term) => match lone_name(term) {
            None => false,
            Some(lone) => u64::from(lone) == name,
        },
    }
}

// Whether this name alone is what is asked of a guard.
fn is_asked(name: u64, asked: &Asked) -> bool
    ensures { result ≡ slot_names name (slot_of asked.now) }
{
    match asked {
        Asked::One => false,
        Asked::Share(slot) => is_slot(name, slot),
        Asked::Src(slot) => is_slot(name, slot),
        Asked::Tok(slot) => is_slot(name, slot),
        Asked::At(slot) => is_slot(name, slot),
        Asked::From(slot) => is_slot(name, slot),
    }
}

// Whether one of the slots is this name alone.
fn is_among(name: u64, slots: &[Slot]) -> bool
    ensures { result ≡ list_any (slot_names name) slots.now }
{
    slots.iter().any(|slot| is_slot(name, slot))
}

// Whether the name is that of a fact's region, or alone one of its slots.
fn is_of_fact(name: u64, region: u32, args: &[Slot], state: &Slot) -> bool
    ensures { result ≡ ((region == name) || (list_any (slot_names name) args.now
        || slot_names name state.now)) }
{
    if u64::from(region) == name {
        return true;
    }
    if is_among(name, args) {
        return true;
    }
    is_slot(name, state)
}

// Whether the name has a binding position in the item.
fn binds(name: u64, item: &Item) -> bool
    ensures { result ≡ item_binds name (item_view item.now) }
{
    match item {
        Item::Compare(_) => false,
        Item::Choose(_, _, _) => false,
        Item::Fact(_, region, _, args, state) => is_of_fact(name, *region, args, state),
        Item::Atom(_, _, _, _, asked) => is_asked(name, asked),
        Item::Cell(_, _, content) => is_slot(name, content),
    }
}

// Whether the name has a binding position outside the sides of conditionals.
fn is_bound_by(name: u64, assertion: &Assertion) -> bool
    ensures { result ≡ bound_by name (items_view assertion.now) }
{
    for item in &assertion.items {
        if binds(name, item) {
            return true;
        }
    }
    false
}

/// Whether each name of the case has a binding position outside the sides of conditionals.
pub fn binds_all(region: &RegionType, case: &Case) -> bool
    ensures { result ≡ binds_each (region_view region.now) (case_view case.now) }
{
    for place in 0..case.names.len() {
        if !is_bound_by(region.params as u64 + place as u64, &case.items) {
            return false;
        }
    }
    true
}

// What a name stands for, once more.
fn copy_term(alloc: Global, term: &Option<Term>) -> Result<Option<Term>, AllocError>
    ensures { IfOk result (λ t. t ≡ term.now) }
{
    match term {
        None => Ok(None),
        Some(term) => Ok(Some(term.copy(alloc)?)),
    }
}

// Binds names to these terms.
fn push_bound(
    alloc: Global,
    names: &mut Vec<Option<Term>>,
    terms: &[Term],
) -> Result<(), AllocError>
    ensures { OnOk result (names.new.items ≡ names.old.items ++ bound terms.now) }
{
    for term in terms {
        names.push(Some(term.copy(alloc)?))?;
    }
    Ok(())
}

/// The environment of a region type: the region of a fact and its arguments, and then these names.
pub fn region_env(alloc: Global, fact: &Fact, names: Vec<Option<Term>>) -> Result<Env, AllocError>
    ensures { IfOk result (λ e. e ≡ env_of_region fact.now names.items) }
{
    let mut names = names;
    let mut terms = Vec::new(alloc);
    terms.push(Some(fact.region.copy(alloc)?))?;
    push_bound(alloc, &mut terms, &fact.args)?;
    terms.append(&mut names)?;
    Ok(Env { terms })
}

// What a name of a case is given: nothing, where it has a binding position.
fn name_given(
    alloc: Global,
    name: u64,
    case: &Case,
    other: &Option<Term>,
) -> Result<Option<Term>, AllocError>
    ensures { IfOk result (λ t. t
        ≡ (if bound_by name (case_view case.now).items then None else other.now)) }
{
    if is_bound_by(name, &case.items) {
        return Ok(None);
    }
    copy_term(alloc, other)
}

// The names of a case: those with a binding position are unbound.
fn names_of(
    alloc: Global,
    region: &RegionType,
    case: &Case,
    other: &Option<Term>,
) -> Result<Vec<Option<Term>>, AllocError>
    ensures { IfOk result (λ v. v.items
        ≡ names_given (region_view region.now) (case_view case.now) other.now) }
{
    let mut names = Vec::new(alloc);
    for place in 0..case.names.len() {
        let name = region.params as u64 + place as u64;
        names.push(name_given(alloc, name, case, other)?)?;
    }
    Ok(names)
}

/// The environment of a case of a fact's region. Its names with a binding position outside the
/// sides of conditionals are unbound; the others have this term, if there is one.
pub fn case_env(
    alloc: Global,
    region: &RegionType,
    case: &Case,
    fact: &Fact,
    other: &Option<Term>,
) -> Result<Env, AllocError>
    ensures { IfOk result (λ e. e ≡ env_of_region fact.now
        (names_given (region_view region.now) (case_view case.now) other.now)) }
{
    let names = names_of(alloc, region, case, other)?;
    region_env(alloc, fact, names)
}
