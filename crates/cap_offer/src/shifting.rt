//! At moves: the pieces that an action's indexed atoms are taken out of are found first.
ghost use Rattle.std.specs.Prelude.{◌≡◌, [], ◌∷◌, IfOk, Some, filter, slice_get};
ghost use Rattle.std.specs.List.{list_any};
ghost use Rattle.cap_prog.specs.Views.{action_view, case_view, program_view, region_view};
ghost use Rattle.cap_goal_spec.specs.Fits.{HasRoom};
ghost use Rattle.cap_goal.specs.Views.{goal_view};
ghost use Rattle.cap_rules.specs.Closing.{indexed_of, is_indexed, match_spans};
ghost use Rattle.cap_rules_steps.specs.Judging.{IsTold};
ghost use Rattle.cap_rules_steps.specs.Walks.{seen};
ghost use Rattle.cap_offer_spec.specs.Deciding.{succeeds as is_proved};
ghost use Rattle.cap_offer_spec.specs.Offering.{at_shift as shift_at};
ghost use Rattle.cap_offer_spec.specs.Shifting.{first_span as span_of};
ghost use Rattle.cap_offer_spec.specs.Shifting.{spans_found as found_spans, spans_by as by_spans};
ghost use Rattle.cap_offer_spec.specs.Shifting.{spans_of as of_spans, spans_in as in_spans};
ghost use Rattle.cap_offer_spec.specs.Shifting.{spans_for as for_spans, action_of as action_by};
ghost use Rattle.cap_offer_spec.specs.Turning.{up_to_spans as turn_before};
ghost use Rattle.cap_closure_decide.specs.Noting.{Adds};
ghost use Rattle.cap_offer.specs.Turns.{Turns, lists_before, turn_lists, turned_spans};
ghost use Rattle.cap_offer.specs.Views.{action_in, case_in, choices_view, numbers_seen};

use crate::claims::env_at;
use crate::listing::{count, type_at};
use crate::trying::tried_alone;
use cap_closure_decide::{Notes, certified, decided_all};
use cap_goal::{Choice, Env, Fact, Goal, State};
use cap_lin::Row;
use cap_open_moves::{Turn, but_spans, match_piece, up_to_spans};
use cap_open_moves_parts::asks_indices;
use cap_prog::{Action, Asked, Case, Program, RegionType};
use cap_rules_steps::{Ledger, RuleError};
use std::alloc::{AllocError, Global};

// Whether an indexed atom is proved to be in the piece of a number among those that were held.
fn is_within(
    alloc: Global,
    state: &State,
    fact: &Fact,
    env: &Env,
    guard: &(u32, Asked),
    number: u32,
    notes: &mut Notes,
) -> Result<bool, AllocError>
    ensures { IfOk result (λ b. Adds notes.old notes.new b (is_proved
        (match_spans state.now fact.now env.now (guard.now ∷ []) (number ∷ [])))) }
{
    let mut ledger = Ledger::new(alloc);
    let outcome = match_piece(alloc, &mut ledger, state, fact, env, guard, number);
    let certs = certified(alloc, outcome, ledger, notes)?;
    Ok(certs.is_some())
}

// The first piece that was held, by its number, of which an indexed atom is proved.
#[tactic(auto, unfolding(cap_offer_spec::specs::Shifting::first_span))]
fn first_span(
    alloc: Global,
    state: &State,
    fact: &Fact,
    env: &Env,
    guard: &(u32, Asked),
    notes: &mut Notes,
) -> Result<Option<u32>, AllocError>
    ensures { IfOk result (λ j. Adds notes.old notes.new j
        (span_of state.now fact.now env.now guard.now 0 state.now.before)) }
{
    let pieces = count(state.before().len())?;
    for number in 0..pieces {
        let found = is_within(alloc, state, fact, env, guard, number, notes)?;
        if found {
            return Ok(Some(number));
        }
    }
    Ok(None)
}

// For each indexed atom among guards, in their order, the first piece of which it is proved.
#[tactic(auto, unfolding(cap_offer_spec::specs::Shifting::spans_found))]
fn spans_found(
    alloc: Global,
    state: &State,
    fact: &Fact,
    env: &Env,
    guards: &[(u32, Asked)],
    notes: &mut Notes,
) -> Result<Option<Vec<u32>>, AllocError>
    ensures { IfOk result (λ js. Adds notes.old notes.new (numbers_seen js)
        (found_spans state.now fact.now env.now (filter is_indexed guards.now))) }
{
    let mut spans = Vec::new(alloc);
    for guard in guards {
        if asks_indices(&guard.1) {
            match first_span(alloc, state, fact, env, guard, notes)? {
                Some(number) => spans.push(number)?,
                None => return Ok(None),
            }
        }
    }
    Ok(Some(spans))
}

// What is known when the turn of the indexed atoms comes, and the lists that are owed before it; or
// the first failure among all terms but those of the spans.
fn turn_of(
    alloc: Global,
    state: &State,
    opened: u32,
    fact: &Fact,
    case: &Case,
    env: &Env,
    action: &Action,
) -> Result<(Turn, Vec<Vec<Row>>), RuleError>
    ensures lists { IsTold (seen turn_lists result) (lists_before state.now opened fact.now
        (case_view case.now) env.now (action_view action.now)) }
    ensures turn { Turns result
        (turn_before state.now fact.now (case_view case.now) env.now (action_view action.now)) }
{
    let mut ledger = Ledger::new(alloc);
    let turn = up_to_spans(alloc, &mut ledger, state, fact, case, env, action)?;
    let mut all = Ledger::new(alloc);
    but_spans(alloc, &mut all, state, opened, fact, case, env, action)?;
    Ok((turn, ledger.into_lists()))
}

// The pieces of the action's indexed atoms, of which there are some.
fn spans_by_turn(
    alloc: Global,
    state: &State,
    opened: u32,
    fact: &Fact,
    case: &Case,
    env: &Env,
    action: &Action,
    notes: &mut Notes,
) -> Result<Option<Vec<u32>>, AllocError>
    ensures { IfOk result (λ js. Adds notes.old notes.new (numbers_seen js)
        (turned_spans state.now opened fact.now (case_view case.now) env.now
        (action_view action.now))) }
{
    match turn_of(alloc, state, opened, fact, case, env, action) {
        Err(error) => {
            notes.note_failure(error)?;
            Ok(None)
        }
        Ok((turn, lists)) => match decided_all(alloc, &lists, notes)? {
            Some(_) => spans_found(alloc, state, fact, &turn.env, &action.guards, notes),
            None => Ok(None),
        },
    }
}

// Whether indices are asked of some guard.
fn asks_some(guards: &[(u32, Asked)]) -> bool
    ensures { result ≡ list_any is_indexed guards.now }
{
    guards.iter().any(|guard| asks_indices(&guard.1))
}

// The pieces of the action's indexed atoms.
fn spans_by(
    alloc: Global,
    state: &State,
    opened: u32,
    fact: &Fact,
    case: &Case,
    env: &Env,
    action: &Action,
    notes: &mut Notes,
) -> Result<Option<Vec<u32>>, AllocError>
    ensures { IfOk result (λ js. Adds notes.old notes.new (numbers_seen js)
        (by_spans state.now opened fact.now (case_view case.now) env.now (action_view action.now)
        (indexed_of (action_view action.now)))) }
{
    if asks_some(&action.guards) {
        spans_by_turn(alloc, state, opened, fact, case, env, action, notes)
    } else {
        Ok(Some(Vec::new(alloc)))
    }
}

// The pieces of the move's indexed atoms: none where it keeps the state.
fn spans_of(
    alloc: Global,
    state: &State,
    opened: u32,
    fact: &Fact,
    env: &Env,
    case: Option<&Case>,
    action: Option<&Action>,
    notes: &mut Notes,
) -> Result<Option<Vec<u32>>, AllocError>
    ensures { IfOk result (λ js. Adds notes.old notes.new (numbers_seen js)
        (of_spans state.now opened fact.now env.now (case_in case.entry)
        (action_in action.entry))) }
{
    match case {
        None => Ok(Some(Vec::new(alloc))),
        Some(case) => match action {
            None => Ok(Some(Vec::new(alloc))),
            Some(action) => spans_by(alloc, state, opened, fact, case, env, action, notes),
        },
    }
}

// A case of a region type, if there is one of this number.
fn case_at(region: &RegionType, number: u32) -> Option<&Case>
    ensures { case_in result ≡ slice_get (region_view region.now).cases number }
{
    if number as usize >= region.cases.len() {
        return None;
    }
    Some(&region.cases[number as usize])
}

// The action of a move, if it has one and that is there.
fn action_of(region: &RegionType, by: u32) -> Option<&Action>
    ensures { action_in result ≡ action_by (region_view region.now) by }
{
    if by == 0 || by as usize > region.actions.len() {
        return None;
    }
    Some(&region.actions[by as usize - 1])
}

// The pieces of the indexed atoms of a move of the fact's region, which is of this type.
fn spans_in(
    alloc: Global,
    region: &RegionType,
    state: &State,
    opened: u32,
    case: u32,
    by: u32,
    env: u32,
    fact: &Fact,
    notes: &mut Notes,
) -> Result<Option<Vec<u32>>, AllocError>
    ensures { IfOk result (λ js. Adds notes.old notes.new (numbers_seen js)
        (in_spans state.now opened case by env fact.now (Some (region_view region.now)))) }
{
    let none = Env {
        terms: Vec::new(alloc),
    };
    let env = env_at(state, env, &none);
    let case = case_at(region, case);
    let action = action_of(region, by);
    spans_of(alloc, state, opened, fact, env, case, action, notes)
}

// The pieces of the indexed atoms of a move of an opened region.
fn spans_for(
    alloc: Global,
    program: &Program,
    state: &State,
    opened: u32,
    case: u32,
    by: u32,
    env: u32,
    notes: &mut Notes,
) -> Result<Option<Vec<u32>>, AllocError>
    ensures { IfOk result (λ js. Adds notes.old notes.new (numbers_seen js)
        (for_spans (program_view program.now) state.now opened case by env
        (slice_get state.now.opened opened))) }
{
    let facts = state.opened();
    if opened as usize >= facts.len() {
        return Ok(None);
    }
    let fact = &facts[opened as usize];
    match type_at(program, fact.kind) {
        None => Ok(None),
        Some(region) => spans_in(alloc, region, state, opened, case, by, env, fact, notes),
    }
}

/// What is offered where an opened region is closed in a case by a move: to name the pieces that
/// are found for the move's indexed atoms.
#[tactic(auto, unfolding(cap_offer_spec::specs::Scanning::tried_all))]
pub(crate) fn at_shift(
    alloc: Global,
    program: &Program,
    goal: &Goal<'_>,
    opened: u32,
    case: u32,
    by: u32,
    env: u32,
    notes: &mut Notes,
) -> Result<Vec<Choice>, AllocError>
    requires { HasRoom goal.now.state }
    ensures { IfOk result (λ v. Adds notes.old notes.new (choices_view v.items)
        (shift_at (program_view program.now) (goal_view goal.now) opened case by env)) }
{
    match spans_for(alloc, program, &goal.state, opened, case, by, env, notes)? {
        None => Ok(Vec::new(alloc)),
        Some(spans) => {
            let choice = Choice::Shift(Vec::new(alloc), spans);
            tried_alone(alloc, program, goal, choice, notes)
        }
    }
}
