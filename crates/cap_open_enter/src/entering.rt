//! Regions are opened.
ghost use Rattle.std.specs.Prelude.{◌≡◌, ◌<◌, ◌≤◌, ◌++◌, ◌∷◌, [], length, map, IfOk, OnOk};
ghost use Rattle.std.specs.Prelude.{MatchResult, ◌+◌};
ghost use Rattle.cap_prog.specs.Views.{act_view, case_view, items_view, program_view};
ghost use Rattle.cap_goal.specs.Views.{tasks_view};
ghost use Rattle.cap_rules_steps.specs.cap_goal_spec.Environments.{bound};
ghost use Rattle.cap_rules_steps.specs.cap_goal_spec.Fits.{HasRoom};
ghost use Rattle.cap_rules_steps.specs.cap_goal_spec.States.{longest_list, to_give};
ghost use Rattle.cap_rules_steps.specs.cap_rules.Closing.{of_type, prove_other as proved_other};
ghost use Rattle.cap_rules_steps.specs.cap_rules.Closing.{with_opened as opened_state};
ghost use Rattle.cap_rules_steps.specs.cap_rules.Closing.{in_case as state_in_case};
ghost use Rattle.cap_rules_steps.specs.cap_rules.Closing.{case_names as names_of_case};
ghost use Rattle.cap_rules_steps.specs.cap_rules.Closing.{case_goals as goals_of_cases};
ghost use Rattle.cap_rules_steps.specs.Goals.{goals_view};
ghost use Rattle.cap_rules_steps.specs.Walks.{Makes, Claims, giving, seen};
ghost use Rattle.cap_open_enter.specs.Steps.{enter_at};
ghost use Rattle.cap_open_enter.specs.Parts.{one_other, step_begun, case_known};

use crate::lookup::{fact_at, heap_address};
use cap_goal::{Env, Fact, Goal, State, Task, items_of};
use cap_gsolve::Piece;
use cap_lin::{LinError, Op, Sort, Term};
use cap_prog::{Act, Assertion, Case, Program};
use cap_rules_steps::{
    Ledger, RuleError, add_goal, copy_tasks, determined, prove_differ, region_at, rows_by,
    variables, with_comparison, with_env, with_rows, with_sorts,
};
use std::alloc::{AllocError, Global};

// The most regions that are opened in one step.
const MOST_OPENED: usize = 2;

// Claims that a fact's region is another than an opened one, where they are of one type.
fn prove_one_other(
    alloc: Global,
    ledger: &mut Ledger,
    state: &State,
    fact: &Fact,
    other: &Fact,
) -> Result<(), RuleError>
    ensures { Claims (giving result tt) ledger.old ledger.new
        (one_other state.now fact.now other.now) }
{
    if other.kind != fact.kind {
        return Ok(());
    }
    prove_differ(alloc, ledger, state, &fact.region, &other.region)
}

// Claims that a fact's region is another than each opened one of its type.
fn prove_other(
    alloc: Global,
    ledger: &mut Ledger,
    state: &State,
    fact: &Fact,
    opened: &[Fact],
) -> Result<(), RuleError>
    ensures { Claims (giving result tt) ledger.old ledger.new
        (proved_other state.now fact.now (of_type fact.now.kind opened.now)) }
{
    for other in opened {
        prove_one_other(alloc, ledger, state, fact, other)?;
    }
    Ok(())
}

/// Forgets the guards that were held before. A place past 32 bits counts as want of memory.
pub fn clear_before(state: &mut State) -> Result<(), AllocError>
    ensures { IfOk result (λ _. state.new ≡ record state.old { before = [] }) }
{
    while !state.before().is_empty() {
        match u32::try_from(state.before().len() - 1) {
            Ok(last) => state.cut_before(last)?,
            Err(_) => return Err(AllocError),
        }
    }
    Ok(())
}

// Adds guards to those that were held before.
fn add_before(alloc: Global, state: &mut State, guards: &[Piece]) -> Result<(), AllocError>
    requires { length state.old.before + length guards.now ≤ longest_list }
    ensures { IfOk result (λ _. state.new
        ≡ record state.old { before = state.old.before ++ guards.now }) }
{
    for piece in guards {
        state.add_before(piece.copy(alloc)?)?;
    }
    Ok(())
}

// The guards that are held are those that were held before the step.
fn begin_step(alloc: Global, state: &mut State, guards: &[Piece]) -> Result<(), AllocError>
    requires { length guards.now ≤ longest_list }
    ensures { IfOk result (λ _. state.new ≡ record state.old { before = guards.now }) }
{
    clear_before(state)?;
    add_before(alloc, state, guards)
}

// A copy of the state in which a step has begun.
fn begun(alloc: Global, state: &State) -> Result<State, AllocError>
    requires { length state.now.guards ≤ longest_list }
    ensures { IfOk result (λ s. s ≡ step_begun state.now) }
{
    let mut next = state.copy()?;
    if !state.opened().is_empty() {
        return Ok(next);
    }
    begin_step(alloc, &mut next, state.guards())?;
    Ok(next)
}

// The state in which a fact's region is opened.
fn with_opened(alloc: Global, state: &State, number: u32, fact: &Fact) -> Result<State, AllocError>
    requires guards { length state.now.guards ≤ longest_list }
    requires exists { number < length state.now.facts }
    requires two { length state.now.opened < 2 }
    ensures { IfOk result (λ s. s ≡ opened_state state.now number fact.now) }
{
    let mut next = begun(alloc, state)?;
    next.cut_facts(number)?;
    next.add_opened(fact.copy(alloc)?)?;
    Ok(next)
}

// Binds names to these terms.
fn push_bound(
    alloc: Global,
    names: &mut Vec<Option<Term>>,
    terms: &[Term],
) -> Result<(), AllocError>
    ensures { OnOk result (names.new.items ≡ names.old.items ++ bound terms.now) }
{
    for term in terms {
        names.push(Some(term.copy(alloc)?))?;
    }
    Ok(())
}

// The region and its arguments, and then fresh variables for the names of a case.
fn case_names(alloc: Global, state: &State, fact: &Fact, case: &Case) -> Result<Env, LinError>
    requires { length state.now.sorts ≤ longest_list }
    ensures { MatchResult result (λ e. e ≡ names_of_case state.now fact.now (case_view case.now))
        (λ e. e ≡ LinError.OutOfMemory) }
{
    let fresh = variables(alloc, state.sorts().len() as u32, case.names.len())?;
    let mut terms = Vec::new(alloc);
    terms.push(Some(fact.region.copy(alloc)?))?;
    push_bound(alloc, &mut terms, &fact.args)?;
    push_bound(alloc, &mut terms, &fresh)?;
    Ok(Env { terms })
}

// Adds what is known where the opened region is in a case, and the environment.
fn with_case(
    alloc: Global,
    state: &mut State,
    fact: &Fact,
    case: &Case,
    names: Env,
) -> Result<(), RuleError>
    ensures { Makes (giving result state.new)
        (case_known state.old fact.now (case_view case.now) names) }
{
    let term = determined(alloc, &names, &case.state)?;
    with_comparison(alloc, state, &fact.state, Op::Eq, &term, Sort::Int)?;
    let rows = rows_by(alloc, &names, &case.when)?;
    with_rows(alloc, state, &rows)?;
    with_env(state, names)?;
    Ok(())
}

// The opened region is in this case.
fn in_case(alloc: Global, state: &State, fact: &Fact, case: &Case) -> Result<State, RuleError>
    requires { length state.now.sorts ≤ longest_list }
    ensures { Makes result (state_in_case state.now fact.now (case_view case.now)) }
{
    let mut next = state.copy()?;
    with_sorts(alloc, &mut next, &case.names)?;
    let names = case_names(alloc, state, fact, case)?;
    with_case(alloc, &mut next, fact, case, names)?;
    Ok(next)
}

// The items of an assertion are given before the tasks.
fn with_give<'a>(
    alloc: Global,
    assertion: &'a Assertion,
    env: u32,
    at: u32,
    behind: &[Task<'a>],
) -> Result<Vec<Task<'a>>, AllocError>
    ensures { IfOk result (λ v. tasks_view v.items
        ≡ to_give (items_view assertion.now) env at ∷ tasks_view behind.now) }
{
    let mut tasks = copy_tasks(alloc, behind)?;
    let items = items_of(alloc, assertion)?;
    tasks.push(Task::Give(items, env, at))?;
    Ok(tasks)
}

// A goal for each case in which the opened region may be.
pub(crate) fn case_goals<'a>(
    alloc: Global,
    state: &State,
    fact: &Fact,
    at: u32,
    tasks: &[Task<'a>],
    cases: &'a [Case],
) -> Result<Vec<Goal<'a>>, RuleError>
    requires sorts { length state.now.sorts ≤ longest_list }
    requires envs { length state.now.envs ≤ longest_list }
    ensures { Makes (seen goals_view result) (goals_of_cases state.now fact.now at
        (tasks_view tasks.now) (map case_view cases.now)) }
{
    let env = state.envs().len() as u32;
    let mut goals = Vec::new(alloc);
    for case in cases {
        let next = in_case(alloc, state, fact, case)?;
        let given = with_give(alloc, &case.items, env, at, tasks)?;
        add_goal(&mut goals, next, given)?;
    }
    Ok(goals)
}

/// The region of a fact is opened, of which it is claimed that it is no other opened one.
pub fn enter<'a>(
    alloc: Global,
    ledger: &mut Ledger,
    program: &'a Program,
    state: &State,
    number: u32,
    at: u32,
    act: &Act,
    tasks: &[Task<'a>],
) -> Result<Vec<Goal<'a>>, RuleError>
    requires { HasRoom state.now }
    ensures { Claims (seen goals_view result) ledger.old ledger.new
        (enter_at (program_view program.now) state.now number at (act_view act.now)
        (tasks_view tasks.now)) }
{
    heap_address(act)?;
    if state.opened().len() >= MOST_OPENED {
        return Err(RuleError::NotApplicable);
    }
    let fact = fact_at(state.facts(), number)?;
    let region = region_at(program, fact.kind)?;
    prove_other(alloc, ledger, state, fact, state.opened())?;
    let next = with_opened(alloc, state, number, fact)?;
    case_goals(alloc, &next, fact, at, tasks, &region.cases)
}
