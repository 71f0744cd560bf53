//! A statement is passed, by the event of its step.
ghost use Rattle.std.specs.Prelude.{◌≡◌, ◌++◌, IfOk, List, map, OnOk, ℕ};
ghost use Rattle.std.specs.List.{zip};
ghost use Rattle.cap_farkas.specs.declared.cert.Cert.{Cert};
ghost use Rattle.cap_goal.specs.Views.{choice_view};
ghost use Rattle.cap_goal_spec.specs.Choices.{by_act, by_alloc, by_assert, by_call, by_fork, by_if};
ghost use Rattle.cap_goal_spec.specs.Choices.{by_loop, by_return, by_set};
ghost use Rattle.cap_goal_spec.specs.States.{PlainState};
ghost use Rattle.cap_machine.specs.declared.event.Event.{Event};
ghost use Rattle.cap_prog.specs.Program.{alloc as allocates, PlainAct};
ghost use Rattle.cap_prog.specs.Views.{act_view};
ghost use Rattle.cap_rules.specs.Closing.{of_type, rivals};
ghost use Rattle.cap_owners_spec.specs.Walks.{act_child, mark_values, pass_callee, pass_statement};
ghost use Rattle.cap_owners_spec.specs.Walks.{result_for, taken_side, Walk};
ghost use Rattle.cap_owners_passes.specs.Views.{branch_child, facts_lent, marks_with, Passes};
ghost use Rattle.cap_owners_values.specs.Views.{Traces, value_view};

use crate::lookup::local_at;
use crate::walk::Walk;
use cap_farkas::Cert;
use cap_goal::{Choice, Fact, State};
use cap_machine::Event;
use cap_owners_values::{TraceError, Value, Values};
use cap_prog::Act;
use std::alloc::{AllocError, Global};

// The child of a comparison's side.
fn taken_side(taken: bool) -> usize
    ensures { result ≡ taken_side taken }
{
    if taken { 0 } else { 1 }
}

/// The child of the side that a step took. `Untold` comes where it took none.
pub(crate) fn branch_child(event: Event) -> Result<usize, TraceError>
    ensures { Traces result (λ i. i) (branch_child event) }
{
    match event {
        Event::Branch(taken) => Ok(taken_side(taken)),
        _ => Err(TraceError::Untold),
    }
}

// ---- statements that do nothing to the heap

fn pass_set(act: &Act) -> Result<Option<usize>, TraceError>
    ensures { (s : PlainState) (event : Event) (w : Walk) →
        Passes result w (pass_statement s by_set (act_view act.now) event w) }
{
    match act {
        Act::Set(_, _) => Ok(Some(0)),
        _ => Err(TraceError::Untold),
    }
}

fn pass_assert(act: &Act) -> Result<Option<usize>, TraceError>
    ensures { (s : PlainState) (certs : List Cert) (event : Event) (w : Walk) →
        Passes result w (pass_statement s (by_assert certs) (act_view act.now) event w) }
{
    match act {
        Act::Assert(_) => Ok(Some(0)),
        _ => Err(TraceError::Untold),
    }
}

// The base of the cells is the value of a new variable.
fn pass_base(event: Event, walk: &mut Walk<'_>) -> Result<Option<usize>, TraceError>
    ensures { (s : PlainState) (x n : ℕ) →
        Passes result walk.new (pass_statement s by_alloc (allocates x n) event walk.old) }
{
    match event {
        Event::Alloc(base) => {
            walk.bring(Value::Number(base))?;
            Ok(Some(0))
        }
        _ => Err(TraceError::Untold),
    }
}

fn pass_alloc(act: &Act, event: Event, walk: &mut Walk<'_>) -> Result<Option<usize>, TraceError>
    ensures { (s : PlainState) →
        Passes result walk.new (pass_statement s by_alloc (act_view act.now) event walk.old) }
{
    match act {
        Act::Alloc(_, _) => pass_base(event, walk),
        _ => Err(TraceError::Untold),
    }
}

fn pass_if(act: &Act, event: Event) -> Result<Option<usize>, TraceError>
    ensures { (s : PlainState) (w : Walk) →
        Passes result w (pass_statement s by_if (act_view act.now) event w) }
{
    match act {
        Act::If(_, _, _) => Ok(Some(branch_child(event)?)),
        _ => Err(TraceError::Untold),
    }
}

// The invariant is to be taken.
fn pass_loop(alloc: Global, act: &Act, walk: &mut Walk<'_>) -> Result<Option<usize>, TraceError>
    ensures { (s : PlainState) (event : Event) →
        Passes result walk.new (pass_statement s by_loop (act_view act.now) event walk.old) }
{
    match act {
        Act::While(_, _, _) => {
            walk.take_alone(alloc)?;
            Ok(Some(0))
        }
        _ => Err(TraceError::Untold),
    }
}

// What is promised is to be taken.
fn pass_return(alloc: Global, act: &Act, walk: &mut Walk<'_>) -> Result<Option<usize>, TraceError>
    ensures { (s : PlainState) (event : Event) →
        Passes result walk.new (pass_statement s by_return (act_view act.now) event walk.old) }
{
    match act {
        Act::Return(_) => {
            walk.take_alone(alloc)?;
            Ok(Some(0))
        }
        _ => Err(TraceError::Untold),
    }
}

// ---- calls and forks

// The result of a call, for now the destination's old value.
fn result_for(
    alloc: Global,
    state: &State,
    destination: Option<u32>,
    walk: &Walk<'_>,
) -> Result<Value, TraceError>
    ensures { Traces result value_view (result_for state.now destination walk.now) }
{
    match destination {
        None => Ok(Value::Number(0)),
        Some(local) => Ok(Value::Number(local_at(alloc, state, local, &walk.values)?)),
    }
}

// What a callee requires is to be taken.
fn pass_callee(
    alloc: Global,
    state: &State,
    destination: Option<u32>,
    walk: &mut Walk<'_>,
) -> Result<Option<usize>, TraceError>
    ensures { Passes result walk.new (pass_callee state.now destination walk.old) }
{
    let value = result_for(alloc, state, destination, walk)?;
    walk.call(alloc, value)?;
    Ok(Some(0))
}

fn pass_call(
    alloc: Global,
    state: &State,
    act: &Act,
    walk: &mut Walk<'_>,
) -> Result<Option<usize>, TraceError>
    ensures { (event : Event) →
        Passes result walk.new
        (pass_statement state.now by_call (act_view act.now) event walk.old) }
{
    match act {
        Act::Call(destination, _, _) => pass_callee(alloc, state, *destination, walk),
        _ => Err(TraceError::Untold),
    }
}

fn pass_fork(
    alloc: Global,
    state: &State,
    act: &Act,
    walk: &mut Walk<'_>,
) -> Result<Option<usize>, TraceError>
    ensures { (event : Event) →
        Passes result walk.new
        (pass_statement state.now by_fork (act_view act.now) event walk.old) }
{
    match act {
        Act::Fork(_, _) => pass_callee(alloc, state, None, walk),
        _ => Err(TraceError::Untold),
    }
}

// ---- heap statements

// Adds the facts of an opened region's type.
fn push_rivals<'a>(
    rivals: &mut Vec<&'a Fact>,
    opened: &Fact,
    facts: &'a [Fact],
) -> Result<(), AllocError>
    ensures { OnOk result (facts_lent rivals.new.items
        ≡ facts_lent rivals.old.items ++ of_type opened.now.kind facts.now) }
{
    for fact in facts {
        if fact.kind == opened.kind {
            rivals.push(fact)?;
        }
    }
    Ok(())
}

// For each opened region the facts of its type, in order.
fn rivals<'a>(alloc: Global, state: &'a State) -> Result<Vec<&'a Fact>, AllocError>
    ensures { IfOk result (λ v. facts_lent v.items ≡ map (λ x. x.fact) (rivals state.now)) }
{
    let mut all = Vec::new(alloc);
    for opened in state.opened() {
        push_rivals(&mut all, opened, state.facts())?;
    }
    Ok(all)
}

// Adds the value of a new variable, for a fact without a certificate: for now the state in which
// its region is.
fn push_mark(
    values: &mut Values,
    fact: &Fact,
    mark: &Option<Cert>,
    walk: &Walk<'_>,
) -> Result<(), TraceError>
    ensures { Traces result (λ _. values.new)
        (marks_with walk.now fact.now mark.now values.old) }
{
    if mark.is_none() {
        let number = walk.values.number_in(&fact.region)?;
        let state = walk.state_at(number)?;
        values.push(Value::Number(state))?;
    }
    Ok(())
}

// The values of the new variables, by the marks.
fn mark_values(
    alloc: Global,
    state: &State,
    marks: &[Option<Cert>],
    walk: &Walk<'_>,
) -> Result<Values, TraceError>
    ensures { Traces result (λ v. v) (mark_values walk.now (zip (rivals state.now) marks.now)) }
{
    let rivals = rivals(alloc, state)?;
    let mut values = Values::new(alloc);
    for number in 0..marks.len() {
        if number >= rivals.len() {
            return Ok(values);
        }
        push_mark(&mut values, rivals[number], &marks[number], walk)?;
    }
    Ok(values)
}

// The child of a heap statement.
fn act_child(event: Event) -> usize
    ensures { result ≡ act_child event }
{
    match event {
        Event::Cas(_, swapped) => taken_side(swapped),
        _ => 0,
    }
}

fn pass_act(
    alloc: Global,
    state: &State,
    marks: &[Option<Cert>],
    event: Event,
    walk: &mut Walk<'_>,
) -> Result<Option<usize>, TraceError>
    ensures { (cell : ℕ) (certs : List Cert) (a : PlainAct) → Passes result walk.new
        (pass_statement state.now (by_act cell certs marks.now) a event walk.old) }
{
    let values = mark_values(alloc, state, marks, walk)?;
    walk.bring_all(&values)?;
    Ok(Some(act_child(event)))
}

// ---- all statements

/// A statement is passed by the event of its step. `Untold` comes where the choice, the statement
/// and the event don't fit one another.
pub(crate) fn pass_statement(
    alloc: Global,
    state: &State,
    choice: &Choice,
    act: &Act,
    event: Event,
    walk: &mut Walk<'_>,
) -> Result<Option<usize>, TraceError>
    ensures { Passes result walk.new (pass_statement state.now (choice_view choice.now)
        (act_view act.now) event walk.old) }
{
    match choice {
        Choice::Set => pass_set(act),
        Choice::Alloc => pass_alloc(act, event, walk),
        Choice::Assert(_) => pass_assert(act),
        Choice::If => pass_if(act, event),
        Choice::Loop => pass_loop(alloc, act, walk),
        Choice::Call => pass_call(alloc, state, act, walk),
        Choice::Fork => pass_fork(alloc, state, act, walk),
        Choice::Return => pass_return(alloc, act, walk),
        Choice::Act(_, _, marks) => pass_act(alloc, state, marks, event, walk),
        Choice::Absurd(_)
        | Choice::Clash(_, _, _)
        | Choice::Turn
        | Choice::Enter(_, _)
        | Choice::Pick(_, _, _)
        | Choice::Shift(_, _)
        | Choice::Settle(_, _)
        | Choice::Keep(_)
        | Choice::Give
        | Choice::Fact(_)
        | Choice::Cases
        | Choice::Cell(_, _)
        | Choice::Region(_, _)
        | Choice::Guard(_, _, _)
        | Choice::Convert(_, _, _)
        | Choice::Create(_)
        | Choice::Made(_) => Err(TraceError::Untold),
    }
}
