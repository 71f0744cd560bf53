//! Assignments and assertions.
ghost use Rattle.cap_goal.specs.Views.{tasks_view};
ghost use Rattle.cap_pure.specs.Statements.{at_set, at_assert};
ghost use Rattle.cap_rules_steps.specs.Goals.{goals_view};
ghost use Rattle.cap_rules_steps.specs.Walks.{Makes, Claims, seen};

use cap_goal::{Goal, State, Task};
use cap_lin::Term;
use cap_prog::Comp;
use cap_rules_steps::{Ledger, RuleError, leaves, prove, row_here, value_here, with_local};
use std::alloc::Global;

/// The local becomes the term's value.
pub(crate) fn set<'a>(
    alloc: Global,
    state: &State,
    local: u32,
    term: &Term,
    tasks: Vec<Task<'a>>,
) -> Result<Vec<Goal<'a>>, RuleError>
    ensures { Makes (seen goals_view result)
        (at_set state.now local term.now (tasks_view tasks.entry.items)) }
{
    let value = value_here(alloc, state, term)?;
    let mut next = state.copy()?;
    with_local(&mut next, local, value)?;
    Ok(leaves(alloc, next, tasks)?)
}

/// The comparison is claimed.
pub(crate) fn check<'a>(
    alloc: Global,
    ledger: &mut Ledger,
    state: &State,
    comparison: &Comp,
    tasks: Vec<Task<'a>>,
) -> Result<Vec<Goal<'a>>, RuleError>
    ensures { Claims (seen goals_view result) ledger.old ledger.new
        (at_assert state.now comparison.now (tasks_view tasks.entry.items)) }
{
    let row = row_here(alloc, state, comparison.op, comparison)?;
    prove(alloc, ledger, state.rows(), &row)?;
    let next = state.copy()?;
    Ok(leaves(alloc, next, tasks)?)
}
