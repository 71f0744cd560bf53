//! Indices that are taken out of a span.
ghost use Rattle.std.specs.Prelude.{◌≡◌, Some, IfOk};
ghost use Rattle.cap_goal_spec.specs.Environments.{one_value, settled, open_to};
ghost use Rattle.cap_rules.specs.Making.{sum};
ghost use Rattle.cap_rules.specs.Taking.{prove_end as end_proved, cut_index as index_cut};
ghost use Rattle.cap_rules.specs.Taking.{cut_onwards as onwards_cut};
ghost use Rattle.cap_rules_steps.specs.Walks.{Makes, Claims, giving, seen};
ghost use Rattle.cap_take_holdings.specs.Seen.{reading_view};
ghost use Rattle.cap_take_guards.specs.Views.{cut_view};
ghost use Rattle.cap_take_guards.specs.Cuts.{has_room as room};

use crate::cuts::{Cut, Left, all_named, all_of, leaving, naming};
use cap_goal::{Env, LONGEST_LIST, State};
use cap_gsolve::Form;
use cap_lin::{Op, Row, Sort, Term};
use cap_rules_steps::{Ledger, RuleError, prove_that, value_by};
use cap_take_holdings::Reading;
use std::alloc::{AllocError, Global};

// ---- ends

fn copy_end(alloc: Global, end: &Option<Term>) -> Result<Option<Term>, AllocError>
    ensures { IfOk result (λ copy. copy ≡ end.now) }
{
    match end {
        None => Ok(None),
        Some(end) => Ok(Some(end.copy(alloc)?)),
    }
}

// The index behind one.
fn next_index(alloc: Global, index: &Term) -> Result<Term, RuleError>
    ensures { Makes result (sum index.now one_value) }
{
    let one = Term::constant(alloc, 1);
    Ok(index.add(alloc, &one)?)
}

// A term is claimed to be at most the end of a span, if that has one.
fn prove_end(
    alloc: Global,
    ledger: &mut Ledger,
    rows: &[Row],
    end: &Option<Term>,
    next: &Term,
) -> Result<(), RuleError>
    ensures { Claims (giving result tt) ledger.old ledger.new
        (end_proved rows.now end.now next.now) }
{
    match end {
        None => Ok(()),
        Some(end) => prove_that(alloc, ledger, rows, next, Op::Le, end, Sort::Int),
    }
}

// The rule applies only where one piece more has room.
#[tactic(auto, using(cap_rules_steps::proofs::Walking::making))]
fn has_room(state: &State) -> Result<(), RuleError>
    ensures { Makes (giving result tt) (room state.now) }
{
    if state.guards().len() >= LONGEST_LIST {
        return Err(RuleError::NotApplicable);
    }
    Ok(())
}

// ---- one index

// All of a span goes, which is claimed to be the index that a term stands for.
fn whole_index(
    alloc: Global,
    ledger: &mut Ledger,
    state: &State,
    env: &Env,
    start: &Term,
    end: &Term,
    term: &Term,
) -> Result<Cut, RuleError>
    ensures { Claims (seen cut_view result) ledger.old ledger.new
        (index_cut state.now env.now start.now (Some end.now) 0 (settled term.now)) }
{
    let index = value_by(alloc, env, term)?;
    prove_that(
        alloc,
        ledger,
        state.rows(),
        start,
        Op::Eq,
        &index,
        Sort::Int,
    )?;
    let next = next_index(alloc, &index)?;
    prove_that(alloc, ledger, state.rows(), end, Op::Eq, &next, Sort::Int)?;
    Ok(leaving(alloc, state, env, Left::Nothing)?)
}

// An index goes, which is claimed to be in a span: what is in front of it stays, and what is behind.
fn index_within(
    alloc: Global,
    ledger: &mut Ledger,
    state: &State,
    env: &Env,
    start: &Term,
    end: &Option<Term>,
    term: &Term,
) -> Result<Cut, RuleError>
    ensures { Claims (seen cut_view result) ledger.old ledger.new
        (index_cut state.now env.now start.now end.now 1 (settled term.now)) }
{
    let index = value_by(alloc, env, term)?;
    prove_that(
        alloc,
        ledger,
        state.rows(),
        start,
        Op::Le,
        &index,
        Sort::Int,
    )?;
    let next = next_index(alloc, &index)?;
    prove_end(alloc, ledger, state.rows(), end, &next)?;
    has_room(state)?;
    let first = start.copy(alloc)?;
    let last = copy_end(alloc, end)?;
    let front = Form::Span(first, Some(index));
    let behind = Form::Span(next, last);
    Ok(leaving(alloc, state, env, Left::Both(front, behind))?)
}

// The first index of a span goes, which is claimed to be in it; the name of an open slot gets it.
fn first_index(
    alloc: Global,
    ledger: &mut Ledger,
    state: &State,
    env: &Env,
    start: &Term,
    end: &Option<Term>,
    name: Option<u32>,
) -> Result<Cut, RuleError>
    ensures { Claims (seen cut_view result) ledger.old ledger.new
        (index_cut state.now env.now start.now end.now 1 (open_to name)) }
{
    let next = next_index(alloc, start)?;
    prove_end(alloc, ledger, state.rows(), end, &next)?;
    let last = copy_end(alloc, end)?;
    let same = state.copy()?;
    let behind = Form::Span(next, last);
    Ok(naming(alloc, same, env, name, start, Left::One(behind))?)
}

// All of a span with an end.
fn index_alone(
    alloc: Global,
    ledger: &mut Ledger,
    state: &State,
    env: &Env,
    start: &Term,
    end: &Option<Term>,
    term: &Term,
) -> Result<Cut, RuleError>
    ensures { Claims (seen cut_view result) ledger.old ledger.new
        (index_cut state.now env.now start.now end.now 0 (settled term.now)) }
{
    match end {
        None => Err(RuleError::NotApplicable),
        Some(end) => whole_index(alloc, ledger, state, env, start, end, term),
    }
}

// The index that a term stands for, of a span.
fn index_by(
    alloc: Global,
    ledger: &mut Ledger,
    state: &State,
    env: &Env,
    start: &Term,
    end: &Option<Term>,
    way: u32,
    term: &Term,
) -> Result<Cut, RuleError>
    ensures { Claims (seen cut_view result) ledger.old ledger.new
        (index_cut state.now env.now start.now end.now way (settled term.now)) }
{
    match way {
        0 => index_alone(alloc, ledger, state, env, start, end, term),
        1 => index_within(alloc, ledger, state, env, start, end, term),
        _ => Err(RuleError::NotApplicable),
    }
}

// Any index, of a span.
fn index_as(
    alloc: Global,
    ledger: &mut Ledger,
    state: &State,
    env: &Env,
    start: &Term,
    end: &Option<Term>,
    way: u32,
    name: Option<u32>,
) -> Result<Cut, RuleError>
    ensures { Claims (seen cut_view result) ledger.old ledger.new
        (index_cut state.now env.now start.now end.now way (open_to name)) }
{
    match way {
        1 => first_index(alloc, ledger, state, env, start, end, name),
        _ => Err(RuleError::NotApplicable),
    }
}

/// An index, of a span: all of the span by way 0, a part by way 1.
pub(crate) fn cut_index(
    alloc: Global,
    ledger: &mut Ledger,
    state: &State,
    env: &Env,
    start: &Term,
    end: &Option<Term>,
    way: u32,
    reading: Reading<'_>,
) -> Result<Cut, RuleError>
    ensures { Claims (seen cut_view result) ledger.old ledger.new
        (index_cut state.now env.now start.now end.now way (reading_view reading.entry)) }
{
    match reading {
        Reading::Settled(term) => index_by(alloc, ledger, state, env, start, end, way, term),
        Reading::OpenTo(name) => index_as(alloc, ledger, state, env, start, end, way, name),
        Reading::Stuck => Err(RuleError::NotApplicable),
    }
}

// ---- all indices from one on

// Those from the index on that a term stands for, which is claimed to be in a span without an end:
// what is in front of it stays.
fn onwards_within(
    alloc: Global,
    ledger: &mut Ledger,
    state: &State,
    env: &Env,
    start: &Term,
    term: &Term,
) -> Result<Cut, RuleError>
    ensures { Claims (seen cut_view result) ledger.old ledger.new
        (onwards_cut state.now env.now start.now 1 (settled term.now)) }
{
    let index = value_by(alloc, env, term)?;
    prove_that(
        alloc,
        ledger,
        state.rows(),
        start,
        Op::Le,
        &index,
        Sort::Int,
    )?;
    let front = Form::Span(start.copy(alloc)?, Some(index));
    Ok(leaving(alloc, state, env, Left::One(front))?)
}

// Those from what a term stands for on, of a span without an end.
fn onwards_by(
    alloc: Global,
    ledger: &mut Ledger,
    state: &State,
    env: &Env,
    start: &Term,
    way: u32,
    term: &Term,
) -> Result<Cut, RuleError>
    ensures { Claims (seen cut_view result) ledger.old ledger.new
        (onwards_cut state.now env.now start.now way (settled term.now)) }
{
    match way {
        0 => all_of(alloc, ledger, state, env, start, Sort::Int, term),
        1 => onwards_within(alloc, ledger, state, env, start, term),
        _ => Err(RuleError::NotApplicable),
    }
}

// Those from any index on, of a span without an end.
fn onwards_as(
    alloc: Global,
    state: &State,
    env: &Env,
    start: &Term,
    way: u32,
    name: Option<u32>,
) -> Result<Cut, RuleError>
    ensures { Makes (seen cut_view result)
        (onwards_cut state.now env.now start.now way (open_to name)) }
{
    match way {
        0 => Ok(all_named(alloc, state, env, start, name)?),
        _ => Err(RuleError::NotApplicable),
    }
}

/// All indices from one on, of a span without an end: all of the span by way 0, a part by way 1.
pub(crate) fn cut_onwards(
    alloc: Global,
    ledger: &mut Ledger,
    state: &State,
    env: &Env,
    start: &Term,
    way: u32,
    reading: Reading<'_>,
) -> Result<Cut, RuleError>
    ensures { Claims (seen cut_view result) ledger.old ledger.new
        (onwards_cut state.now env.now start.now way (reading_view reading.entry)) }
{
    match reading {
        Reading::Settled(term) => onwards_by(alloc, ledger, state, env, start, way, term),
        Reading::OpenTo(name) => onwards_as(alloc, state, env, start, way, name),
        Reading::Stuck => Err(RuleError::NotApplicable),
    }
}
