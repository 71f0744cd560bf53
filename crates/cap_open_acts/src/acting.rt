//! A statement acts on a cell.
ghost use Rattle.std.specs.Prelude.{◌≡◌, ◌++◌, [], ◌∷◌, IfOk, OnOk, flat_map, map, option_map};
ghost use Rattle.cap_lin.specs.Linear.{number};
ghost use Rattle.cap_rules_steps.specs.cap_goal_spec.Environments.{zero_value, one_value};
ghost use Rattle.cap_prog.specs.Views.{act_view};
ghost use Rattle.cap_goal.specs.Views.{goal_view, tasks_view};
ghost use Rattle.cap_rules_steps.specs.cap_goal_spec.Fits.{HasRoom};
ghost use Rattle.cap_rules_steps.specs.cap_goal_spec.States.{goals_of};
ghost use Rattle.cap_rules_steps.specs.cap_rules.Closing.{acted as states_after, closing};
ghost use Rattle.cap_rules_steps.specs.cap_rules.Closing.{rivals as rivals_of};
ghost use Rattle.cap_rules_steps.specs.cap_rules.Closing.{with_content as with_content_of};
ghost use Rattle.cap_rules_steps.specs.cap_rules.Closing.{with_marks as marked_by};
ghost use Rattle.cap_rules_steps.specs.cap_rules.Making.{with_comparison};
ghost use Rattle.cap_rules_steps.specs.cap_rules.Making.{with_local as with_local_of};
ghost use Rattle.cap_rules_steps.specs.Goals.{goals_view};
ghost use Rattle.cap_rules_steps.specs.Walks.{Makes, Claims, seen};
ghost use Rattle.cap_open_acts.specs.Steps.{act_at, added, disposed, written, swapped, swapped_by};
ghost use Rattle.cap_open_acts.specs.Acts.{heap_act_view, heap_act_of, heap_acted};
ghost use Rattle.cap_open_acts.specs.Views.{outcomes_view};

use crate::closing::closing_tasks;
use crate::marking::{rivals, with_marks};
use cap_goal::{Fact, Goal, State, Task};
use cap_lin::{Op, Sort, Term};
use cap_open_enter::{cell_at, heap_address};
use cap_prog::Act;
use cap_rules_steps::{
    Ledger, RuleError, add_goal, prove_equal, value_here, with_comparison, with_local,
};
use std::alloc::{AllocError, Global};

/// The states after a statement: one, and for a compare-and-swap that fails another one.
#[derive(Drop)]
pub(crate) struct Outcomes {
    pub(crate) done: State,
    pub(crate) failed: Option<State>,
}

// Gives a cell another content. Nothing changes where there is none of this number.
fn with_content(
    alloc: Global,
    state: &mut State,
    number: u32,
    cell: &(Term, Term),
    content: Term,
) -> Result<(), AllocError>
    ensures { IfOk result (λ _. state.new
        ≡ with_content_of state.old number cell.now content) }
{
    let address = cell.0.copy(alloc)?;
    if (number as usize) < state.cells().len() {
        state.put_cells(number, (address, content))?;
    }
    Ok(())
}

// The local becomes what the cell holds.
fn read(alloc: Global, state: &State, local: u32, cell: &(Term, Term)) -> Result<State, AllocError>
    ensures { IfOk result (λ s. s ≡ with_local_of state.now local cell.now.1) }
{
    let mut next = state.copy()?;
    with_local(&mut next, local, cell.1.copy(alloc)?)?;
    Ok(next)
}

// The cell holds the value of a term.
fn write(
    alloc: Global,
    state: &State,
    number: u32,
    cell: &(Term, Term),
    term: &Term,
) -> Result<State, RuleError>
    ensures { Makes result (written state.now number cell.now term.now) }
{
    let content = value_here(alloc, state, term)?;
    let mut next = state.copy()?;
    with_content(alloc, &mut next, number, cell, content)?;
    Ok(next)
}

// A copy of the state in which the cell's content compares so with a value.
fn compared(
    alloc: Global,
    state: &State,
    cell: &(Term, Term),
    op: Op,
    value: &Term,
) -> Result<State, RuleError>
    ensures { Makes result (with_comparison state.now cell.now.1 op value.now Sort.Int) }
{
    let mut next = state.copy()?;
    with_comparison(alloc, &mut next, &cell.1, op, value, Sort::Int)?;
    Ok(next)
}

// The state in which the local tells, by 1 or 0, whether a compare-and-swap stored something.
fn told(alloc: Global, state: State, local: u32, flag: i128) -> Result<State, AllocError>
    ensures { IfOk result (λ s. s ≡ with_local_of state local (number flag)) }
{
    let mut next = state;
    with_local(&mut next, local, Term::constant(alloc, flag))?;
    Ok(next)
}

// The state in which the cell holds the new value, and the local tells so.
fn stored(
    alloc: Global,
    state: State,
    place: u32,
    cell: &(Term, Term),
    local: u32,
    content: Term,
) -> Result<State, AllocError>
    ensures { IfOk result (λ s. s
        ≡ with_local_of (with_content_of state place cell.now content) local one_value) }
{
    let mut next = state;
    with_content(alloc, &mut next, place, cell, content)?;
    told(alloc, next, local, 1)
}

// The state in which the cell held the old value and now holds the new one, and the one in which it
// didn't.
fn swap_outcomes(
    alloc: Global,
    done: State,
    failed: State,
    place: u32,
    cell: &(Term, Term),
    local: u32,
    content: Term,
) -> Result<Outcomes, AllocError>
    ensures { IfOk result (λ o. outcomes_view o
        ≡ with_local_of (with_content_of done place cell.now content) local one_value
        ∷ with_local_of failed local zero_value ∷ []) }
{
    let done = stored(alloc, done, place, cell, local, content)?;
    let failed = told(alloc, failed, local, 0)?;
    Ok(Outcomes {
        done,
        failed: Some(failed),
    })
}

// What a compare-and-swap leaves, where this value is expected.
fn swap_by(
    alloc: Global,
    state: &State,
    place: u32,
    cell: &(Term, Term),
    local: u32,
    expected: &Term,
    new: &Term,
) -> Result<Outcomes, RuleError>
    ensures { Makes (seen outcomes_view result)
        (swapped_by state.now place cell.now local expected.now new.now) }
{
    let done = compared(alloc, state, cell, Op::Eq, expected)?;
    let content = value_here(alloc, state, new)?;
    let failed = compared(alloc, state, cell, Op::Ne, expected)?;
    Ok(swap_outcomes(alloc, done, failed, place, cell, local, content)?)
}

// The local tells, by 1 or 0, whether the cell held the old value; where it did it holds the new
// one.
fn swap(
    alloc: Global,
    state: &State,
    place: u32,
    cell: &(Term, Term),
    local: u32,
    old: &Term,
    new: &Term,
) -> Result<Outcomes, RuleError>
    ensures { Makes (seen outcomes_view result)
        (swapped state.now place cell.now local old.now new.now) }
{
    let expected = value_here(alloc, state, old)?;
    swap_by(alloc, state, place, cell, local, &expected, new)
}

// The local gets the cell's value, and the cell that value plus a term's.
fn add(
    alloc: Global,
    state: &State,
    number: u32,
    cell: &(Term, Term),
    local: u32,
    term: &Term,
) -> Result<State, RuleError>
    ensures { Makes result (added state.now number cell.now local term.now) }
{
    let more = value_here(alloc, state, term)?;
    let sum = cell.1.add(alloc, &more)?;
    let mut next = state.copy()?;
    with_content(alloc, &mut next, number, cell, sum)?;
    with_local(&mut next, local, cell.1.copy(alloc)?)?;
    Ok(next)
}

// The cell goes. Nothing changes where there is none of this number.
fn dispose(state: &State, number: u32) -> Result<State, AllocError>
    ensures { IfOk result (λ s. s ≡ disposed state.now number) }
{
    let mut next = state.copy()?;
    if number as usize >= next.cells().len() {
        return Ok(next);
    }
    next.cut_cells(number)?;
    Ok(next)
}

/// What a statement does to the cell at its address: it reads it into a local, writes a term, swaps
/// a new term in for an old one and tells a local so, reads it into a local and adds a term, or
/// disposes of it.
#[derive(Clone, Copy)]
pub(crate) enum HeapAct<'a> {
    Read(u32),
    Write(&'a Term),
    Cas(u32, &'a Term, &'a Term),
    Faa(u32, &'a Term),
    Dispose,
}

// What the statement does to a cell, if it does something to one.
fn heap_act(act: &Act) -> Option<HeapAct<'_>>
    ensures { option_map heap_act_view result ≡ heap_act_of (act_view act.now) }
{
    match act {
        Act::Read(local, _) => Some(HeapAct::Read(*local)),
        Act::Write(_, term) => Some(HeapAct::Write(term)),
        Act::Cas(local, _, old, new) => Some(HeapAct::Cas(*local, old, new)),
        Act::Faa(local, _, term) => Some(HeapAct::Faa(*local, term)),
        Act::Dispose(_) => Some(HeapAct::Dispose),
        Act::Set(_, _)
        | Act::Call(_, _, _)
        | Act::Alloc(_, _)
        | Act::Fork(_, _)
        | Act::If(_, _, _)
        | Act::While(_, _, _)
        | Act::Assert(_)
        | Act::Return(_) => None,
    }
}

// The one state after a statement.
fn only(done: State) -> Outcomes
    ensures { outcomes_view result ≡ done ∷ [] }
{
    Outcomes { done, failed: None }
}

// The states after what a statement does to a cell.
fn acted_by(
    alloc: Global,
    state: &State,
    number: u32,
    cell: &(Term, Term),
    act: HeapAct<'_>,
) -> Result<Outcomes, RuleError>
    ensures { Makes (seen outcomes_view result)
        (heap_acted state.now number cell.now (heap_act_view act.entry)) }
{
    match act {
        HeapAct::Read(local) => {
            let done = read(alloc, state, local, cell)?;
            Ok(only(done))
        }
        HeapAct::Write(term) => {
            let done = write(alloc, state, number, cell, term)?;
            Ok(only(done))
        }
        HeapAct::Cas(local, old, new) => swap(alloc, state, number, cell, local, old, new),
        HeapAct::Faa(local, term) => {
            let done = add(alloc, state, number, cell, local, term)?;
            Ok(only(done))
        }
        HeapAct::Dispose => {
            let done = dispose(state, number)?;
            Ok(only(done))
        }
    }
}

// The states after a statement on a cell.
fn acted(
    alloc: Global,
    state: &State,
    number: u32,
    cell: &(Term, Term),
    act: &Act,
) -> Result<Outcomes, RuleError>
    ensures { Makes (seen outcomes_view result)
        (states_after state.now number cell.now (act_view act.now)) }
{
    match heap_act(act) {
        None => Err(RuleError::NotApplicable),
        Some(done) => acted_by(alloc, state, number, cell, done),
    }
}

// Adds a goal in which the opened regions are closed and all facts are settled before the tasks.
fn add_outcome<'a>(
    alloc: Global,
    goals: &mut Vec<Goal<'a>>,
    state: State,
    opened: &[Fact],
    at: u32,
    tasks: &[Task<'a>],
) -> Result<(), AllocError>
    ensures { OnOk result (map goal_view goals.new.items ≡ map goal_view goals.old.items
        ++ goals_of state (closing opened.now at (tasks_view tasks.now))) }
{
    let tasks = closing_tasks(alloc, opened, at, tasks)?;
    add_goal(goals, state, tasks)
}

// A goal for each state.
fn goals_after<'a>(
    alloc: Global,
    outcomes: Outcomes,
    opened: &[Fact],
    at: u32,
    tasks: &[Task<'a>],
) -> Result<Vec<Goal<'a>>, AllocError>
    ensures { IfOk result (λ gs. map goal_view gs.items
        ≡ flat_map (λ s. goals_of s (closing opened.now at (tasks_view tasks.now)))
        (outcomes_view outcomes)) }
{
    let mut goals = Vec::new(alloc);
    add_outcome(alloc, &mut goals, outcomes.done, opened, at, tasks)?;
    if let Some(failed) = outcomes.failed {
        add_outcome(alloc, &mut goals, failed, opened, at, tasks)?;
    }
    Ok(goals)
}

// The state in which the marks of pairs of regions are taken.
fn marked(
    alloc: Global,
    ledger: &mut Ledger,
    state: &State,
    marks: &[bool],
) -> Result<State, RuleError>
    requires { HasRoom state.now }
    ensures { Claims result ledger.old ledger.new
        (marked_by state.now (rivals_of state.now) marks.now) }
{
    let pairs = rivals(alloc, state)?;
    let mut next = state.copy()?;
    with_marks(alloc, ledger, &mut next, &pairs, marks)?;
    Ok(next)
}

/// A statement acts on a cell, which is claimed to be at its address. Each fact whose type is that
/// of an opened region is of another one, by a mark, or loose from now on.
pub fn act<'a>(
    alloc: Global,
    ledger: &mut Ledger,
    state: &State,
    number: u32,
    marks: &[bool],
    act: &Act,
    at: u32,
    tasks: &[Task<'a>],
) -> Result<Vec<Goal<'a>>, RuleError>
    requires { HasRoom state.now }
    ensures { Claims (seen goals_view result) ledger.old ledger.new
        (act_at state.now number marks.now at (act_view act.now) (tasks_view tasks.now)) }
{
    let address = heap_address(act)?;
    let cell = cell_at(state.cells(), number)?;
    let place = value_here(alloc, state, address)?;
    prove_equal(alloc, ledger, state, &cell.0, &place)?;
    let next = marked(alloc, ledger, state, marks)?;
    let outcomes = acted(alloc, &next, number, cell, act)?;
    Ok(goals_after(alloc, outcomes, state.opened(), at, tasks)?)
}
