//! Moves: an action is allowed by the guards that were held, or the state is kept.
ghost use Rattle.std.specs.Prelude.{◌≡◌, IfOk, [], length};
ghost use Rattle.cap_goal_spec.specs.Environments.{unbound, region_env as env_of_region};
ghost use Rattle.cap_prog.specs.Views.{action_view, region_view};
ghost use Rattle.cap_rules.specs.Closing.{match_ready as ready_matched, match_all as all_matched};
ghost use Rattle.cap_rules.specs.Closing.{prove_action as action_proved, prove_move as move_proved};
ghost use Rattle.cap_rules.specs.Making.{prove_comparisons as comparisons_proved};
ghost use Rattle.cap_rules_steps.specs.Walks.{Claims, giving};
ghost use Rattle.cap_open_moves_parts.specs.Views.{parts_view};
ghost use Rattle.cap_open_moves.specs.Views.{matched_with};
ghost use Rattle.cap_open_moves.specs.Moves.{kept_proved, numbered_proved};

use crate::lookup::action_at;
use crate::matching::{match_part, waits};
use crate::spans::match_spans;
use cap_goal::{Env, Fact, State};
use cap_lin::Term;
use cap_open_moves_parts::{MovePart, parts_of};
use cap_prog::{Action, RegionType};
use cap_rules_steps::{Ledger, RuleError, prove_comparisons, prove_equal};
use cap_take_holdings::region_env;
use std::alloc::{AllocError, Global};

/// A move: 0, which keeps the state, or the number of an action from 1; and for each indexed atom of
/// the action, in their order, the number of a piece of the guards that were held before the step.
#[derive(Clone, Copy)]
pub struct Move<'a> {
    pub action: u32,
    pub spans: &'a [u32],
}

/// Matches the parts that need no other one, and gives those that wait.
pub(crate) fn match_ready<'a>(
    alloc: Global,
    ledger: &mut Ledger,
    state: &State,
    fact: &Fact,
    new: &Term,
    action: &'a Action,
    env: &mut Env,
    parts: &[MovePart<'a>],
) -> Result<Vec<MovePart<'a>>, RuleError>
    ensures { Claims (matched_with result env.new) ledger.old ledger.new
        (ready_matched state.now fact.now new.now (action_view action.now) env.old []
        (parts_view parts.now)) }
{
    let mut waiting = Vec::new(alloc);
    for part in parts {
        if waits(env, action, *part) {
            waiting.push(*part)?;
        } else {
            match_part(alloc, ledger, state, fact, new, action, env, *part)?;
        }
    }
    Ok(waiting)
}

/// Matches parts, one after the other.
pub(crate) fn match_all(
    alloc: Global,
    ledger: &mut Ledger,
    state: &State,
    fact: &Fact,
    new: &Term,
    action: &Action,
    env: &mut Env,
    parts: &[MovePart<'_>],
) -> Result<(), RuleError>
    ensures { Claims (giving result env.new) ledger.old ledger.new
        (all_matched state.now fact.now new.now (action_view action.now) env.old
        (parts_view parts.now)) }
{
    for part in parts {
        match_part(alloc, ledger, state, fact, new, action, env, *part)?;
    }
    Ok(())
}

// So many names, all unbound.
fn unbound_names(alloc: Global, count: usize) -> Result<Vec<Option<Term>>, AllocError>
    ensures { IfOk result (λ v. v.items ≡ unbound count) }
{
    let mut names = Vec::new(alloc);
    for step in 0..count {
        let _step = step;
        names.push(None)?;
    }
    Ok(names)
}

/// The environment of an action, none of whose names is bound.
pub(crate) fn start_env(alloc: Global, fact: &Fact, action: &Action) -> Result<Env, AllocError>
    ensures { IfOk result (λ e. e
        ≡ env_of_region fact.now (unbound (length (action_view action.now).names))) }
{
    let names = unbound_names(alloc, action.names.len())?;
    region_env(alloc, fact, names)
}

/// Claims that the comparisons of an action hold, by its environment.
pub(crate) fn prove_when(
    alloc: Global,
    ledger: &mut Ledger,
    state: &State,
    env: &Env,
    action: &Action,
) -> Result<(), RuleError>
    ensures { Claims (giving result tt) ledger.old ledger.new
        (comparisons_proved state.now.rows env.now (action_view action.now).when) }
{
    prove_comparisons(alloc, ledger, state.rows(), env, &action.when)
}

// Claims that an action leads from the old state to the new one, by what was held, its indexed atoms
// out of these pieces.
fn prove_action(
    alloc: Global,
    ledger: &mut Ledger,
    state: &State,
    fact: &Fact,
    new: &Term,
    action: &Action,
    spans: &[u32],
) -> Result<(), RuleError>
    ensures { Claims (giving result tt) ledger.old ledger.new
        (action_proved state.now fact.now new.now (action_view action.now) spans.now) }
{
    let mut env = start_env(alloc, fact, action)?;
    let parts = parts_of(alloc, action)?;
    let waiting = match_ready(alloc, ledger, state, fact, new, action, &mut env, &parts)?;
    match_all(alloc, ledger, state, fact, new, action, &mut env, &waiting)?;
    match_spans(alloc, ledger, state, fact, &env, &action.guards, spans)?;
    prove_when(alloc, ledger, state, &env, action)
}

// Claims that the action of a number leads from the old state to the new one.
fn prove_numbered(
    alloc: Global,
    ledger: &mut Ledger,
    region: &RegionType,
    state: &State,
    fact: &Fact,
    new: &Term,
    number: u32,
    spans: &[u32],
) -> Result<(), RuleError>
    ensures { Claims (giving result tt) ledger.old ledger.new (numbered_proved
        (region_view region.now) state.now fact.now new.now number spans.now) }
{
    let action = action_at(region, number)?;
    prove_action(alloc, ledger, state, fact, new, action, spans)
}

// Claims that a region keeps its state. No piece is named.
fn prove_kept(
    alloc: Global,
    ledger: &mut Ledger,
    state: &State,
    fact: &Fact,
    new: &Term,
    spans: &[u32],
) -> Result<(), RuleError>
    ensures { Claims (giving result tt) ledger.old ledger.new
        (kept_proved state.now fact.now new.now spans.now) }
{
    if !spans.is_empty() {
        return Err(RuleError::NotApplicable);
    }
    prove_equal(alloc, ledger, state, new, &fact.state)
}

/// Claims that a move leads from the old state of an opened region to a new one: move 0 keeps the
/// state, and each other one is an action, which the guards held before the step allow.
pub(crate) fn prove_move(
    alloc: Global,
    ledger: &mut Ledger,
    region: &RegionType,
    state: &State,
    fact: &Fact,
    new: &Term,
    by: Move<'_>,
) -> Result<(), RuleError>
    ensures { Claims (giving result tt) ledger.old ledger.new (move_proved
        (region_view region.now) state.now fact.now new.now by.entry.action by.entry.spans.now) }
{
    if by.action == 0 {
        return prove_kept(alloc, ledger, state, fact, new, by.spans);
    }
    prove_numbered(
        alloc,
        ledger,
        region,
        state,
        fact,
        new,
        by.action - 1,
        by.spans,
    )
}
