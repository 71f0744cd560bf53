//! Indexed atoms of an action, out of the pieces that a move names.
ghost use Rattle.std.specs.Prelude.{◌≡◌, ◌<◌, OnOk, filter, length, slice_get};
ghost use Rattle.cap_goal_spec.specs.Environments.{asked_slot};
ghost use Rattle.cap_gsolve.specs.declared.piece.Form.TheVariants.{Span};
ghost use Rattle.cap_prog.specs.declared.assertion.Asked.TheVariants.{At, From};
ghost use Rattle.cap_rules.specs.Attempts.{found, need};
ghost use Rattle.cap_rules.specs.Making.{determined_slot as slot_determined};
ghost use Rattle.cap_rules.specs.Closing.{is_indexed, prove_below as below_proved};
ghost use Rattle.cap_rules.specs.Closing.{prove_within as within_proved};
ghost use Rattle.cap_rules.specs.Closing.{match_spans as spans_matched};
ghost use Rattle.cap_rules_steps.specs.Walks.{Makes, Claims, giving};
ghost use Rattle.cap_open_moves.specs.Moves.{one_span};

use crate::lookup::piece_at;
use cap_goal::{Env, Fact, State};
use cap_gsolve::Form;
use cap_lin::{Op, Sort, Term};
use cap_open_moves_parts::{asks_indices, held_before};
use cap_prog::Asked;
use cap_rules_steps::{Ledger, RuleError, determined_slot, prove_that};
use std::alloc::Global;

/// What the slot of what is asked stands for.
pub(crate) fn index_of(alloc: Global, env: &Env, asked: &Asked) -> Result<Term, RuleError>
    ensures { Makes result (slot_determined env.now (asked_slot asked.now)) }
{
    match asked {
        Asked::One => Err(RuleError::NotApplicable),
        Asked::Share(slot) => determined_slot(alloc, env, slot),
        Asked::Src(slot) => determined_slot(alloc, env, slot),
        Asked::Tok(slot) => determined_slot(alloc, env, slot),
        Asked::At(slot) => determined_slot(alloc, env, slot),
        Asked::From(slot) => determined_slot(alloc, env, slot),
    }
}

// Claims that an index is below the end of a span, if that has one.
fn prove_below(
    alloc: Global,
    ledger: &mut Ledger,
    state: &State,
    end: &Option<Term>,
    index: &Term,
) -> Result<(), RuleError>
    ensures { Claims (giving result tt) ledger.old ledger.new
        (below_proved state.now end.now index.now) }
{
    match end {
        None => Ok(()),
        Some(end) => {
            let one = Term::constant(alloc, 1);
            let next = index.add(alloc, &one)?;
            prove_that(alloc, ledger, state.rows(), &next, Op::Le, end, Sort::Int)
        }
    }
}

// Claims that an index is in a span.
fn index_within(
    alloc: Global,
    ledger: &mut Ledger,
    state: &State,
    form: &Form,
    index: &Term,
) -> Result<(), RuleError>
    ensures { (x : _) → Claims (giving result tt) ledger.old ledger.new
        (within_proved state.now (At x) form.now index.now) }
{
    match form {
        Form::Span(start, end) => {
            prove_that(alloc, ledger, state.rows(), start, Op::Le, index, Sort::Int)?;
            prove_below(alloc, ledger, state, end, index)
        }
        Form::One => Err(RuleError::NotApplicable),
        Form::Share(_) => Err(RuleError::NotApplicable),
        Form::Src(_) => Err(RuleError::NotApplicable),
        Form::Tok(_) => Err(RuleError::NotApplicable),
    }
}

// Claims that all indices from one on are among those from a start on. A span with an end lacks
// some of them.
fn prove_onwards(
    alloc: Global,
    ledger: &mut Ledger,
    state: &State,
    start: &Term,
    end: &Option<Term>,
    index: &Term,
) -> Result<(), RuleError>
    ensures { (x : _) → Claims (giving result tt) ledger.old ledger.new
        (within_proved state.now (From x) (Span start.now end.now) index.now) }
{
    match end {
        None => prove_that(alloc, ledger, state.rows(), start, Op::Le, index, Sort::Int),
        Some(_) => Err(RuleError::NotApplicable),
    }
}

// Claims that all indices from one on are in a span.
fn onwards_within(
    alloc: Global,
    ledger: &mut Ledger,
    state: &State,
    form: &Form,
    index: &Term,
) -> Result<(), RuleError>
    ensures { (x : _) → Claims (giving result tt) ledger.old ledger.new
        (within_proved state.now (From x) form.now index.now) }
{
    match form {
        Form::Span(start, end) => prove_onwards(alloc, ledger, state, start, end, index),
        Form::One => Err(RuleError::NotApplicable),
        Form::Share(_) => Err(RuleError::NotApplicable),
        Form::Src(_) => Err(RuleError::NotApplicable),
        Form::Tok(_) => Err(RuleError::NotApplicable),
    }
}

// Claims that what is asked is in a span.
fn prove_within(
    alloc: Global,
    ledger: &mut Ledger,
    state: &State,
    asked: &Asked,
    form: &Form,
    index: &Term,
) -> Result<(), RuleError>
    ensures { Claims (giving result tt) ledger.old ledger.new
        (within_proved state.now asked.now form.now index.now) }
{
    match asked {
        Asked::At(_) => index_within(alloc, ledger, state, form, index),
        Asked::From(_) => onwards_within(alloc, ledger, state, form, index),
        Asked::One => Err(RuleError::NotApplicable),
        Asked::Share(_) => Err(RuleError::NotApplicable),
        Asked::Src(_) => Err(RuleError::NotApplicable),
        Asked::Tok(_) => Err(RuleError::NotApplicable),
    }
}

// The rule applies only where this holds.
fn needed(holds: bool) -> Result<(), RuleError>
    ensures { Makes (giving result tt) (need holds) }
{
    if holds {
        Ok(())
    } else {
        Err(RuleError::NotApplicable)
    }
}

// The number at a place, where there is one.
fn number_at(numbers: &[u32], place: usize) -> Result<u32, RuleError>
    ensures makes { Makes result (found (slice_get numbers.now place)) }
    ensures there { OnOk result (place < length numbers.now) }
{
    if place >= numbers.len() {
        return Err(RuleError::NotApplicable);
    }
    Ok(numbers[place])
}

/// An indexed atom of the fact's region, out of the piece whose number stands at a place.
pub(crate) fn match_span(
    alloc: Global,
    ledger: &mut Ledger,
    state: &State,
    fact: &Fact,
    env: &Env,
    guard: &(u32, Asked),
    spans: &[u32],
    place: usize,
) -> Result<(), RuleError>
    ensures claims { Claims (giving result tt) ledger.old ledger.new
        (one_span state.now fact.now env.now guard.now spans.now place) }
    ensures there { OnOk result (place < length spans.now) }
{
    let index = index_of(alloc, env, &guard.1)?;
    let number = number_at(spans, place)?;
    let piece = piece_at(held_before(state), number)?;
    needed(piece.is_of_atom(&fact.region, fact.kind, guard.0))?;
    prove_within(alloc, ledger, state, &guard.1, &piece.form, &index)
}

/// The indexed atoms among guards, in their order, each out of the piece of its number. The rule
/// applies only where there are as many numbers.
pub(crate) fn match_spans(
    alloc: Global,
    ledger: &mut Ledger,
    state: &State,
    fact: &Fact,
    env: &Env,
    guards: &[(u32, Asked)],
    spans: &[u32],
) -> Result<(), RuleError>
    ensures { Claims (giving result tt) ledger.old ledger.new
        (spans_matched state.now fact.now env.now (filter is_indexed guards.now) spans.now) }
{
    let mut named = 0;
    for guard in guards {
        if asks_indices(&guard.1) {
            match_span(alloc, ledger, state, fact, env, guard, spans, named)?;
            named += 1;
        }
    }
    needed(named == spans.len())
}
