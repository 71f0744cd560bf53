//! New cells.
ghost use Rattle.std.specs.Prelude.{◌≡◌, pos};
ghost use Rattle.cap_lin.specs.Linear.{number};
ghost use Rattle.cap_goal.specs.Views.{tasks_view};
ghost use Rattle.cap_rules.specs.Rules.{with_new_cells, at_alloc};
ghost use Rattle.cap_rules_steps.specs.Goals.{goals_view};
ghost use Rattle.cap_rules_steps.specs.Walks.{Makes, giving, seen};
ghost use Rattle.cap_pure.specs.Statements.{with_new_cell};

use cap_goal::{Goal, State, Task};
use cap_lin::{Op, Sort, Term};
use cap_rules_steps::{RuleError, leaves, with_cell, with_comparison, with_local, with_sort};
use std::alloc::Global;

// A number.
fn whole(alloc: Global, step: u32) -> Term
    ensures { result ≡ number (pos step) }
{
    Term::constant(alloc, i128::from(step))
}

// Adds a cell of value 0 at this number behind an address.
fn with_new_cell(alloc: Global, state: &mut State, base: &Term, step: u32) -> Result<(), RuleError>
    ensures { Makes (giving result state.new) (with_new_cell base.now step state.old) }
{
    let offset = whole(alloc, step);
    let address = base.add(alloc, &offset)?;
    with_cell(state, address, Term::constant(alloc, 0))
}

// Adds cells of value 0 from an address on.
fn with_new_cells(
    alloc: Global,
    state: &mut State,
    base: &Term,
    count: u32,
) -> Result<(), RuleError>
    ensures { Makes (giving result state.new) (with_new_cells state.old base.now 0 count) }
{
    for step in 0..count {
        with_new_cell(alloc, state, base, step)?;
    }
    Ok(())
}

/// The local becomes the address of fresh cells.
pub(crate) fn allocate<'a>(
    alloc: Global,
    state: &State,
    local: u32,
    count: u32,
    tasks: Vec<Task<'a>>,
) -> Result<Vec<Goal<'a>>, RuleError>
    ensures { Makes (seen goals_view result)
        (at_alloc state.now local count (tasks_view tasks.entry.items)) }
{
    let mut next = state.copy()?;
    let base = with_sort(alloc, &mut next, Sort::Int)?;
    let one = Term::constant(alloc, 1);
    with_comparison(alloc, &mut next, &base, Op::Ge, &one, Sort::Int)?;
    with_new_cells(alloc, &mut next, &base, count)?;
    with_local(&mut next, local, base)?;
    Ok(leaves(alloc, next, tasks)?)
}
