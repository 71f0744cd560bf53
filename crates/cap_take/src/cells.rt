//! Cells that are given up.
ghost use Rattle.std.specs.Prelude.{◌≡◌, IfOk, remove, slice_get};
ghost use Rattle.cap_rules.specs.Attempts.{found};
ghost use Rattle.cap_rules.specs.Making.{env_at, match_slot, with_env_at};
ghost use Rattle.cap_rules.specs.Rules.{at_cell};
ghost use Rattle.cap_rules_steps.specs.Goals.{goals_view};
ghost use Rattle.cap_rules_steps.specs.Walks.{Makes, Claims, seen};
ghost use Rattle.cap_take_items.specs.Views.{remaining_view};
ghost use Rattle.cap_take.specs.Views.{cell_view};

use cap_goal::{Env, Goal, State};
use cap_lin::Term;
use cap_prog::Slot;
use cap_rules_steps::{Ledger, RuleError, prove_equal, with_env_at};
use cap_take_holdings::{copy_env, determined_at, match_slot};
use cap_take_items::{Remaining, goes};
use std::alloc::{AllocError, Global};

// A cell, where there is one of this number.
fn cell_at(state: &State, number: u32) -> Result<&(Term, Term), RuleError>
    ensures { Makes (seen cell_view result) (found (slice_get state.now.cells number)) }
{
    if number as usize >= state.cells().len() {
        return Err(RuleError::NotApplicable);
    }
    Ok(&state.cells()[number as usize])
}

// The environment of a number, its names matched by a slot against a term.
fn matched(
    alloc: Global,
    ledger: &mut Ledger,
    state: &State,
    env: u32,
    slot: &Slot,
    term: &Term,
) -> Result<Env, RuleError>
    ensures { Claims result ledger.old ledger.new
        (match_slot state.now.rows (env_at state.now env) slot.now term.now) }
{
    let mut names = copy_env(alloc, state, env)?;
    match_slot(alloc, ledger, state.rows(), &mut names, slot, term)?;
    Ok(names)
}

// The state without a cell, and with another environment.
fn without_cell(state: &State, number: u32, env: u32, names: Env) -> Result<State, AllocError>
    ensures { IfOk result (λ s. s ≡ with_env_at
        (record state.now { cells = remove state.now.cells number }) env names) }
{
    let mut next = state.copy()?;
    remove_cell(&mut next, number)?;
    with_env_at(&mut next, env, names)?;
    Ok(next)
}

// Removes a cell. Nothing changes where there is none of this number.
fn remove_cell(state: &mut State, number: u32) -> Result<(), AllocError>
    ensures { IfOk result (λ _. state.new
        ≡ record state.old { cells = remove state.old.cells number }) }
{
    if (number as usize) < state.cells().len() {
        state.cut_cells(number)?;
    }
    Ok(())
}

/// A cell goes: its address is claimed to be that of the item, and what it holds is matched.
pub(crate) fn cell<'t, 'a>(
    alloc: Global,
    ledger: &mut Ledger,
    state: &State,
    number: u32,
    address: &Term,
    content: &Slot,
    rest: &Remaining<'t, 'a>,
) -> Result<Vec<Goal<'a>>, RuleError>
    ensures { Claims (seen goals_view result) ledger.old ledger.new
        (at_cell state.now number address.now content.now (remaining_view rest.now)) }
{
    let there = cell_at(state, number)?;
    let value = determined_at(alloc, state, rest.env, address)?;
    prove_equal(alloc, ledger, state, &value, &there.0)?;
    let names = matched(alloc, ledger, state, rest.env, content, &there.1)?;
    let next = without_cell(state, number, rest.env, names)?;
    Ok(goes(alloc, next, rest)?)
}
