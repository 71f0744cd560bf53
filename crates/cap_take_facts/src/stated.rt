//! A created region is stated, once its case is given up.
ghost use Rattle.std.specs.Prelude.{◌≡◌, drop, map, take, IfOk};
ghost use Rattle.cap_prog.specs.Views.{case_view, program_view};
ghost use Rattle.cap_goal.specs.Views.{goal_view, tasks_view};
ghost use Rattle.cap_goal_spec.specs.States.{goals_of};
ghost use Rattle.cap_rules.specs.Attempts.{each, found};
ghost use Rattle.cap_rules.specs.Making.{env_at as env_in, prove_comparisons};
ghost use Rattle.cap_rules.specs.Making.{with_fact as fact_added};
ghost use Rattle.cap_rules.specs.Rules.{args_in, at_made};
ghost use Rattle.cap_rules_steps.specs.Goals.{goals_view};
ghost use Rattle.cap_rules_steps.specs.Places.{terms_view};
ghost use Rattle.cap_rules_steps.specs.Walks.{Makes, Claims, giving, seen};

use crate::lookup::case_at;
use cap_goal::{Env, Fact, Goal, State, Task};
use cap_lin::Term;
use cap_prog::{Case, Program};
use cap_rules_steps::{Ledger, RuleError, copy_tasks, leaves, region_at};
use cap_take_holdings::{determined_at, env_at, fact_of, prove_comparisons_at, with_fact};
use std::alloc::{AllocError, Global};

// What a name stands for, where it is bound.
fn bound_term(alloc: Global, name: &Option<Term>) -> Result<Term, RuleError>
    ensures { Makes result (found name.now) }
{
    match name {
        None => Err(RuleError::NotApplicable),
        Some(term) => Ok(term.copy(alloc)?),
    }
}

// What names stand for, where each of them is bound.
fn bound_terms(alloc: Global, names: &[Option<Term>]) -> Result<Vec<Term>, RuleError>
    ensures { Makes (seen terms_view result) (each found names.now) }
{
    let mut terms = Vec::new(alloc);
    for name in names {
        terms.push(bound_term(alloc, name)?)?;
    }
    Ok(terms)
}

// The names behind the first one.
fn behind_first(names: &[Option<Term>]) -> &[Option<Term>]
    ensures { result.now ≡ drop 1 names.now }
{
    match names {
        [] => names,
        [_, behind @ ..] => behind,
    }
}

// The first names, so many of them.
fn first_names(names: &[Option<Term>], count: u32) -> &[Option<Term>]
    ensures { result.now ≡ take count names.now }
{
    let count = count as usize;
    if count < names.len() {
        &names[..count]
    } else {
        names
    }
}

// The arguments of the region, in the environment of its case.
fn args_of(alloc: Global, env: &Env, params: u32) -> Result<Vec<Term>, RuleError>
    ensures { Makes (seen terms_view result) (args_in env.now params) }
{
    let names = first_names(behind_first(&env.terms), params.saturating_sub(1));
    bound_terms(alloc, names)
}

// The same in the environment of a number.
fn args_at(alloc: Global, state: &State, env: u32, params: u32) -> Result<Vec<Term>, RuleError>
    ensures { Makes (seen terms_view result) (args_in (env_in state.now env) params) }
{
    let none = Env {
        terms: Vec::new(alloc),
    };
    args_of(alloc, env_at(state, env, &none), params)
}

// The state with a fact more.
fn with_stated(alloc: Global, state: &State, fact: Fact) -> Result<State, RuleError>
    ensures { Makes result (fact_added state.now fact) }
{
    let mut next = state.copy()?;
    with_fact(alloc, &mut next, fact)?;
    Ok(next)
}

// Only these tasks are left.
fn left<'a>(alloc: Global, state: State, behind: &[Task<'a>]) -> Result<Vec<Goal<'a>>, AllocError>
    ensures { IfOk result (λ gs. map goal_view gs.items ≡ goals_of state (tasks_view behind.now)) }
{
    let tasks = copy_tasks(alloc, behind)?;
    leaves(alloc, state, tasks)
}

// Claims the condition of a case, by the environment of a number.
fn prove_condition(
    alloc: Global,
    ledger: &mut Ledger,
    state: &State,
    env: u32,
    case: &Case,
) -> Result<(), RuleError>
    ensures { Claims (giving result tt) ledger.old ledger.new
        (prove_comparisons state.now.rows (env_in state.now env) (case_view case.now).when) }
{
    prove_comparisons_at(alloc, ledger, state, env, &case.when)
}

/// The fact of a created region is stated: by the environment of its case the case's condition is
/// claimed, and the fact has the arguments and the state that stand there. `NotApplicable` comes
/// where there is no such region type or case, where a name of the condition, the state or an
/// argument is unbound, and where a list of the state is full; `Wide` where a result leaves 128
/// bits before that.
pub fn made<'a>(
    alloc: Global,
    ledger: &mut Ledger,
    program: &'a Program,
    state: &State,
    kind: u32,
    case: u32,
    env: u32,
    created: &Term,
    behind: &[Task<'a>],
) -> Result<Vec<Goal<'a>>, RuleError>
    ensures { Claims (seen goals_view result) ledger.old ledger.new (at_made
        (program_view program.now) state.now kind case env created.now (tasks_view behind.now)) }
{
    let region = region_at(program, kind)?;
    let there = case_at(region, case)?;
    prove_condition(alloc, ledger, state, env, there)?;
    let value = determined_at(alloc, state, env, &there.state)?;
    let args = args_at(alloc, state, env, region.params)?;
    let fact = fact_of(created.copy(alloc)?, kind, args, value);
    let next = with_stated(alloc, state, fact)?;
    Ok(left(alloc, next, behind)?)
}
