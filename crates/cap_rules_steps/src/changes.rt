//! Changes of a state, one thing each.
ghost use Rattle.std.specs.Prelude.{◌≡◌, IfOk, length};
ghost use Rattle.cap_rules.specs.Making.{fresh, with_sort, with_sorts, with_row, with_rows};
ghost use Rattle.cap_rules.specs.Making.{with_comparison, with_local, with_destination, with_cell};
ghost use Rattle.cap_rules.specs.Making.{with_env, with_env_at, with_differing};
ghost use Rattle.cap_rules_steps.specs.Walks.{Makes, giving};

use crate::error::RuleError;
use cap_goal::{Env, Fact, LONGEST_LIST, State};
use cap_lin::{Op, Row, Sort, Term};
use std::alloc::{AllocError, Global};

/// Adds a fresh variable of this sort to the state.
#[tactic(auto, using(crate::proofs::Walking::making))]
pub fn with_sort(alloc: Global, state: &mut State, sort: Sort) -> Result<Term, RuleError>
    ensures makes { Makes (giving result state.new) (with_sort state.old sort) }
    ensures fresh { IfOk result (λ t. t ≡ fresh state.old) }
{
    let count = state.sorts().len();
    if count >= LONGEST_LIST {
        return Err(RuleError::NotApplicable);
    }
    let variable = Term::var(alloc, count as u32)?;
    state.add_sorts(sort)?;
    Ok(variable)
}

/// Adds fresh variables of these sorts to the state.
pub fn with_sorts(alloc: Global, state: &mut State, sorts: &[Sort]) -> Result<(), RuleError>
    ensures { Makes (giving result state.new) (with_sorts state.old sorts.now) }
{
    for sort in sorts {
        with_sort(alloc, state, *sort)?;
    }
    Ok(())
}

/// Adds a row to the state.
#[tactic(auto, using(crate::proofs::Walking::making))]
pub fn with_row(state: &mut State, row: Row) -> Result<(), RuleError>
    ensures { Makes (giving result state.new) (with_row state.old row) }
{
    if state.rows().len() >= LONGEST_LIST {
        return Err(RuleError::NotApplicable);
    }
    state.add_rows(row)?;
    Ok(())
}

/// A copy of the state with another row.
#[tactic(auto, using(crate::proofs::Walking::making))]
pub fn copy_with_row(state: &State, row: Row) -> Result<State, RuleError>
    ensures { Makes result (with_row state.now row) }
{
    let mut copy = state.copy()?;
    with_row(&mut copy, row)?;
    Ok(copy)
}

/// Adds rows to the state.
pub fn with_rows(alloc: Global, state: &mut State, rows: &[Row]) -> Result<(), RuleError>
    ensures { Makes (giving result state.new) (with_rows state.old rows.now) }
{
    for row in rows {
        with_row(state, row.copy(alloc)?)?;
    }
    Ok(())
}

/// Adds the row of a comparison to the state.
#[tactic(auto, using(crate::proofs::Walking::making))]
pub fn with_comparison(
    alloc: Global,
    state: &mut State,
    left: &Term,
    op: Op,
    right: &Term,
    sort: Sort,
) -> Result<(), RuleError>
    ensures { Makes (giving result state.new) (with_comparison state.old left.now op right.now sort) }
{
    let row = Row::of(alloc, left, op, right, sort)?;
    with_row(state, row)
}

/// Gives a parameter or local another value. Nothing changes where the state has no such place.
pub fn with_local(state: &mut State, local: u32, value: Term) -> Result<(), AllocError>
    ensures { IfOk result (λ _. state.new ≡ with_local state.old local value) }
{
    if (local as usize) < state.store().len() {
        state.put_store(local, value)?;
    }
    Ok(())
}

/// Gives the destination of a call, if it has one, a value.
pub fn with_destination(
    state: &mut State,
    destination: Option<u32>,
    value: Term,
) -> Result<(), AllocError>
    ensures { IfOk result (λ _. state.new ≡ with_destination state.old destination value) }
{
    match destination {
        None => {
            drop(value);
            Ok(())
        }
        Some(local) => with_local(state, local, value),
    }
}

/// Adds a cell to the state.
#[tactic(auto, using(crate::proofs::Walking::making))]
pub fn with_cell(state: &mut State, address: Term, content: Term) -> Result<(), RuleError>
    ensures { Makes (giving result state.new) (with_cell state.old address content) }
{
    if state.cells().len() >= LONGEST_LIST {
        return Err(RuleError::NotApplicable);
    }
    state.add_cells((address, content))?;
    Ok(())
}

/// Adds an environment to the state, and gives its number.
#[tactic(auto, using(crate::proofs::Walking::making))]
pub fn with_env(state: &mut State, env: Env) -> Result<u32, RuleError>
    ensures makes { Makes (giving result state.new) (with_env state.old env) }
    ensures place { IfOk result (λ place. place ≡ length state.old.envs) }
{
    let place = state.envs().len();
    if place >= LONGEST_LIST {
        return Err(RuleError::NotApplicable);
    }
    state.add_envs(env)?;
    Ok(place as u32)
}

/// Replaces an environment. Nothing changes where the state has no such place.
pub fn with_env_at(state: &mut State, place: u32, env: Env) -> Result<(), AllocError>
    ensures { IfOk result (λ _. state.new ≡ with_env_at state.old place env) }
{
    if (place as usize) < state.envs().len() {
        state.put_envs(place, env)?;
    }
    Ok(())
}

/// Adds a row each that a term differs from the facts' regions.
pub fn with_differing(
    alloc: Global,
    state: &mut State,
    term: &Term,
    facts: &[Fact],
) -> Result<(), RuleError>
    ensures { Makes (giving result state.new) (with_differing state.old term.now facts.now) }
{
    for fact in facts {
        with_comparison(alloc, state, term, Op::Ne, &fact.region, Sort::Int)?;
    }
    Ok(())
}
