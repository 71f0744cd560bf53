//! Goals that cannot be met.
ghost use Rattle.std.specs.Prelude.{slice_get};
ghost use Rattle.cap_rules.specs.Attempts.{found};
ghost use Rattle.cap_rules.specs.Rules.{at_absurd};
ghost use Rattle.cap_rules_steps.specs.Goals.{goals_view};
ghost use Rattle.cap_rules_steps.specs.Walks.{Makes, Claims, seen};
ghost use Rattle.cap_pure.specs.Statements.{two_cells, cell_view};

use cap_goal::{Goal, State};
use cap_lin::Term;
use cap_rules_steps::{Ledger, RuleError, prove_equal, refute};
use std::alloc::Global;

/// The rows contradict each other.
pub(crate) fn absurd<'a>(
    alloc: Global,
    ledger: &mut Ledger,
    state: &State,
) -> Result<Vec<Goal<'a>>, RuleError>
    ensures { Claims (seen goals_view result) ledger.old ledger.new (at_absurd state.now) }
{
    refute(alloc, ledger, state.rows())?;
    Ok(Vec::new(alloc))
}

// A cell, where there is one of this number.
#[tactic(auto, using(cap_rules_steps::proofs::Walking::making))]
fn cell_at(state: &State, number: u32) -> Result<&(Term, Term), RuleError>
    ensures { Makes (seen cell_view result) (found (slice_get state.now.cells number)) }
{
    if number as usize >= state.cells().len() {
        return Err(RuleError::NotApplicable);
    }
    Ok(&state.cells()[number as usize])
}

/// Two cells are claimed to be at one address; the first has the lower number.
pub(crate) fn clash<'a>(
    alloc: Global,
    ledger: &mut Ledger,
    state: &State,
    first: u32,
    second: u32,
) -> Result<Vec<Goal<'a>>, RuleError>
    ensures { Claims (seen goals_view result) ledger.old ledger.new
        (two_cells state.now first second) }
{
    if first >= second {
        return Err(RuleError::NotApplicable);
    }
    let one = cell_at(state, first)?;
    let other = cell_at(state, second)?;
    prove_equal(alloc, ledger, state, &one.0, &other.0)?;
    Ok(Vec::new(alloc))
}
