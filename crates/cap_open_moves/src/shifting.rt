//! The move by which an opened region is closed is checked.
ghost use Rattle.std.specs.Prelude.{◌≡◌, IfOk, [], remove, if◌then◌else◌};
ghost use Rattle.cap_prog.specs.Views.{case_view, program_view, region_view};
ghost use Rattle.cap_goal.specs.Views.{tasks_view};
ghost use Rattle.cap_rules.specs.Closing.{with_closed as state_closed};
ghost use Rattle.cap_rules.specs.Making.{is_empty};
ghost use Rattle.cap_rules.specs.Rules.{at_shift};
ghost use Rattle.cap_rules_steps.specs.Goals.{goals_view};
ghost use Rattle.cap_rules_steps.specs.Walks.{Makes, Claims, seen};
ghost use Rattle.cap_open_moves.specs.Moves.{moved as goals_moved, shifted as goals_shifted};

use crate::lookup::case_at;
use crate::moving::{Move, prove_move};
use cap_goal::{Fact, Goal, State, Task};
use cap_lin::Term;
use cap_open_enter::{clear_before, fact_at};
use cap_prog::{Case, Program, RegionType};
use cap_rules_steps::{Ledger, RuleError, copy_tasks, leaves, region_at};
use cap_take_holdings::{determined_at, prove_comparisons_at, with_fact};
use std::alloc::{AllocError, Global};

// Removes an opened region. Nothing changes where there is none of this number.
fn remove_opened(state: &mut State, opened: u32) -> Result<(), AllocError>
    ensures { IfOk result (λ _. state.new
        ≡ record state.old { opened = remove state.old.opened opened }) }
{
    if (opened as usize) < state.opened().len() {
        state.cut_opened(opened)?;
    }
    Ok(())
}

// Where no region is opened any more, the step ends, and what was held before it is forgotten.
fn end_step(state: &mut State) -> Result<(), AllocError>
    ensures { IfOk result (λ _. state.new ≡ record state.old {
      before = if is_empty state.old.opened then [] else state.old.before;
    }) }
{
    if state.opened().is_empty() {
        clear_before(state)?;
    }
    Ok(())
}

/// The state in which an opened region is closed in a new state.
pub(crate) fn with_closed(
    alloc: Global,
    state: &State,
    opened: u32,
    fact: &Fact,
    new: &Term,
) -> Result<State, RuleError>
    ensures { Makes result (state_closed state.now opened fact.now new.now) }
{
    let mut next = state.copy()?;
    remove_opened(&mut next, opened)?;
    let closed = fact.with_state(alloc, new)?;
    with_fact(alloc, &mut next, closed)?;
    end_step(&mut next)?;
    Ok(next)
}

// The goal of these tasks, in which an opened region is closed by a move to a new state.
fn moved<'a>(
    alloc: Global,
    ledger: &mut Ledger,
    region: &RegionType,
    state: &State,
    opened: u32,
    fact: &Fact,
    new: &Term,
    by: Move<'_>,
    behind: &[Task<'a>],
) -> Result<Vec<Goal<'a>>, RuleError>
    ensures { Claims (seen goals_view result) ledger.old ledger.new (goals_moved
        (region_view region.now) state.now opened fact.now new.now by.entry.action
        by.entry.spans.now (tasks_view behind.now)) }
{
    prove_move(alloc, ledger, region, state, fact, new, by)?;
    let next = with_closed(alloc, state, opened, fact, new)?;
    let tasks = copy_tasks(alloc, behind)?;
    Ok(leaves(alloc, next, tasks)?)
}

// The goal of these tasks, in which an opened region is closed in a case by a move.
fn shifted<'a>(
    alloc: Global,
    ledger: &mut Ledger,
    region: &RegionType,
    state: &State,
    opened: u32,
    fact: &Fact,
    case: &Case,
    by: Move<'_>,
    env: u32,
    behind: &[Task<'a>],
) -> Result<Vec<Goal<'a>>, RuleError>
    ensures { Claims (seen goals_view result) ledger.old ledger.new (goals_shifted
        (region_view region.now) state.now opened fact.now (case_view case.now)
        by.entry.action by.entry.spans.now env (tasks_view behind.now)) }
{
    prove_comparisons_at(alloc, ledger, state, env, &case.when)?;
    let new = determined_at(alloc, state, env, &case.state)?;
    moved(alloc, ledger, region, state, opened, fact, &new, by, behind)
}

/// The goal in which an opened region is closed in the state of a case. It is claimed that the
/// case's comparisons hold in an environment, and that the move leads from the old state to that of
/// the case: move 0 keeps the state, and an action needs its guards among those held before the
/// step, its indices out of the pieces that the move names. `NotApplicable` comes where the opened
/// region, the case or the move isn't there, where a name that is needed is unbound, where such a
/// guard was not held, where a piece that is named isn't there or isn't of its atom, where there are
/// not as many as indexed atoms, and where a list of the state is full; `Wide` where a result leaves
/// 128 bits before that.
pub fn shift<'a>(
    alloc: Global,
    ledger: &mut Ledger,
    program: &'a Program,
    state: &State,
    opened: u32,
    case: u32,
    by: Move<'_>,
    env: u32,
    behind: &[Task<'a>],
) -> Result<Vec<Goal<'a>>, RuleError>
    ensures { Claims (seen goals_view result) ledger.old ledger.new (at_shift
        (program_view program.now) state.now by.entry.spans.now opened case by.entry.action env
        (tasks_view behind.now)) }
{
    let fact = fact_at(state.opened(), opened)?;
    let region = region_at(program, fact.kind)?;
    let chosen = case_at(region, case)?;
    shifted(
        alloc, ledger, region, state, opened, fact, chosen, by, env, behind,
    )
}
