//! Terms of assertions, by an environment.
ghost use Rattle.std.specs.Prelude.{◌≡◌};
ghost use Rattle.std.specs.Option.{option_copied};
ghost use Rattle.cap_lin.specs.Exact.{IsExact};
ghost use Rattle.cap_rules.specs.cap_goal_spec.Environments.{zero_value, term_of, bound_term, is_determined};
ghost use Rattle.cap_rules.specs.cap_goal_spec.Environments.{term_in, term_in_steps};
ghost use Rattle.cap_rules.specs.Making.{determined, determined_slot, row_by, rows_by};
ghost use Rattle.cap_rules.specs.Making.{prove_comparisons};
ghost use Rattle.cap_rules_steps.specs.Places.{rows_view};
ghost use Rattle.cap_rules_steps.specs.Walks.{Makes, Claims, seen, giving};

use crate::error::RuleError;
use crate::ledger::{Ledger, prove};
use crate::terms::with_multiple;
use cap_goal::Env;
use cap_lin::{LinError, Op, Row, Term};
use cap_prog::{Comp, Slot};
use std::alloc::Global;

/// The term of a name, if it is bound. It takes no memory.
pub fn term_of(env: &Env, name: u32) -> Option<&Term>
    ensures { option_copied result ≡ term_of env.now name }
{
    let name = name as usize;
    if name >= env.terms.len() {
        return None;
    }
    match &env.terms[name] {
        None => None,
        Some(term) => Some(term),
    }
}

/// Whether each name of the term is bound. It takes no memory.
pub fn is_determined(env: &Env, term: &Term) -> bool
    ensures { result ≡ is_determined env.now term.now }
{
    for part in term.parts() {
        if term_of(env, part.0).is_none() {
            return false;
        }
    }
    true
}

// The term of a name, or 0 where it is unbound.
fn bound_term<'a>(env: &'a Env, name: u32, zero: &'a Term) -> &'a Term
    requires { zero.now ≡ zero_value }
    ensures { result.now ≡ bound_term env.now name }
{
    match term_of(env, name) {
        None => zero,
        Some(term) => term,
    }
}

/// What a term stands for, with 0 in the place of unbound names.
pub fn value_by(alloc: Global, env: &Env, term: &Term) -> Result<Term, LinError>
    ensures { IsExact result (term_in_steps env.now term.now) (term_in env.now term.now) }
{
    let zero = Term::constant(alloc, 0);
    let mut sum = Term::constant(alloc, term.constant_part());
    for part in term.parts() {
        let (variable, coefficient) = *part;
        let there = bound_term(env, variable, &zero);
        sum = with_multiple(alloc, &sum, there, coefficient)?;
    }
    Ok(sum)
}

/// What a term stands for, where each of its names is bound.
#[tactic(auto, using(crate::proofs::Walking::making))]
pub fn determined(alloc: Global, env: &Env, term: &Term) -> Result<Term, RuleError>
    ensures { Makes result (determined env.now term.now) }
{
    if !is_determined(env, term) {
        return Err(RuleError::NotApplicable);
    }
    Ok(value_by(alloc, env, term)?)
}

/// What a slot stands for, where each of its names is bound.
#[tactic(auto, using(crate::proofs::Walking::making))]
pub fn determined_slot(alloc: Global, env: &Env, slot: &Slot) -> Result<Term, RuleError>
    ensures { Makes result (determined_slot env.now slot.now) }
{
    match slot {
        Slot::Any => Err(RuleError::NotApplicable),
        Slot::Is(term) => determined(alloc, env, term),
    }
}

/// The row of an assertion's comparison, by an environment, with this operator.
pub fn row_by(alloc: Global, env: &Env, op: Op, comparison: &Comp) -> Result<Row, RuleError>
    ensures { Makes result (row_by env.now op comparison.now) }
{
    let left = determined(alloc, env, &comparison.left)?;
    let right = determined(alloc, env, &comparison.right)?;
    Ok(Row::of(alloc, &left, op, &right, comparison.sort)?)
}

/// The rows of comparisons, by an environment.
pub fn rows_by(alloc: Global, env: &Env, comparisons: &[Comp]) -> Result<Vec<Row>, RuleError>
    ensures { Makes (seen rows_view result) (rows_by env.now comparisons.now) }
{
    let mut rows = Vec::new(alloc);
    for comparison in comparisons {
        rows.push(row_by(alloc, env, comparison.op, comparison)?)?;
    }
    Ok(rows)
}

/// Claims that the rows prove comparisons, one after the other.
pub fn prove_comparisons(
    alloc: Global,
    ledger: &mut Ledger,
    rows: &[Row],
    env: &Env,
    comparisons: &[Comp],
) -> Result<(), RuleError>
    ensures { Claims (giving result tt) ledger.old ledger.new
        (prove_comparisons rows.now env.now comparisons.now) }
{
    for comparison in comparisons {
        let row = row_by(alloc, env, comparison.op, comparison)?;
        prove(alloc, ledger, rows, &row)?;
    }
    Ok(())
}
