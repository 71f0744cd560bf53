//! A move up to its indexed atoms, all of it but what is proved of these, and one of them out of one
//! piece.
ghost use Rattle.std.specs.Prelude.{[], ◌∷◌, filter};
ghost use Rattle.cap_prog.specs.Views.{action_view, case_view};
ghost use Rattle.cap_rules.specs.Closing.{is_indexed, match_spans as spans_matched};
ghost use Rattle.cap_rules_steps.specs.Walks.{Makes, Claims, giving, seen};
ghost use Rattle.cap_offer_spec.specs.Turning.{up_to_spans as turn_of, but_spans as all_but_spans};
ghost use Rattle.cap_offer_spec.specs.Turning.{indices_known as known_indices};
ghost use Rattle.cap_open_moves.specs.Views.{turn_view};

use crate::moving::{match_all, match_ready, prove_when, start_env};
use crate::shifting::with_closed;
use crate::spans::{index_of, match_span};
use cap_goal::{Env, Fact, State};
use cap_lin::Term;
use cap_open_moves_parts::{asks_indices, parts_of};
use cap_prog::{Action, Asked, Case};
use cap_rules_steps::{Ledger, RuleError, determined, prove_comparisons};
use std::alloc::Global;

/// What is known when the turn of an action's indexed atoms comes: the new state of the region, and
/// what the action's names stand for.
#[derive(Drop)]
pub struct Turn {
    pub state: Term,
    pub env: Env,
}

/// What is known of a region that is closed in a case by an action when the turn of the indexed
/// atoms comes. It is claimed what the move claims before that: that the case's comparisons hold in
/// this environment, and that the other atoms, the source and the target match.
pub fn up_to_spans(
    alloc: Global,
    ledger: &mut Ledger,
    state: &State,
    fact: &Fact,
    case: &Case,
    env: &Env,
    action: &Action,
) -> Result<Turn, RuleError>
    ensures { Claims (seen turn_view result) ledger.old ledger.new
        (turn_of state.now fact.now (case_view case.now) env.now (action_view action.now)) }
{
    prove_comparisons(alloc, ledger, state.rows(), env, &case.when)?;
    let new = determined(alloc, env, &case.state)?;
    let mut names = start_env(alloc, fact, action)?;
    let parts = parts_of(alloc, action)?;
    let waiting = match_ready(alloc, ledger, state, fact, &new, action, &mut names, &parts)?;
    match_all(
        alloc, ledger, state, fact, &new, action, &mut names, &waiting,
    )?;
    Ok(Turn {
        state: new,
        env: names,
    })
}

// Whether the indices that are asked are known: each stands for a term.
fn indices_known(alloc: Global, env: &Env, guards: &[(u32, Asked)]) -> Result<(), RuleError>
    ensures { Makes (giving result tt) (known_indices env.now (filter is_indexed guards.now)) }
{
    for guard in guards {
        if asks_indices(&guard.1) {
            let index = index_of(alloc, env, &guard.1)?;
            drop(index);
        }
    }
    Ok(())
}

/// The state in which an opened region is closed in a case by an action. All is claimed that the
/// move claims but what it claims of the action's indexed atoms, whose indices have to be known.
pub fn but_spans(
    alloc: Global,
    ledger: &mut Ledger,
    state: &State,
    opened: u32,
    fact: &Fact,
    case: &Case,
    env: &Env,
    action: &Action,
) -> Result<State, RuleError>
    ensures { Claims result ledger.old ledger.new (all_but_spans state.now opened fact.now
        (case_view case.now) env.now (action_view action.now)) }
{
    let turn = up_to_spans(alloc, ledger, state, fact, case, env, action)?;
    indices_known(alloc, &turn.env, &action.guards)?;
    prove_when(alloc, ledger, state, &turn.env, action)?;
    with_closed(alloc, state, opened, fact, &turn.state)
}

/// Claims that an indexed atom of the fact's region is in the piece of a number among those that
/// were held before the step.
pub fn match_piece(
    alloc: Global,
    ledger: &mut Ledger,
    state: &State,
    fact: &Fact,
    env: &Env,
    guard: &(u32, Asked),
    number: u32,
) -> Result<(), RuleError>
    ensures { Claims (giving result tt) ledger.old ledger.new
        (spans_matched state.now fact.now env.now (guard.now ∷ []) (number ∷ [])) }
{
    match_span(alloc, ledger, state, fact, env, guard, &[number], 0)
}
