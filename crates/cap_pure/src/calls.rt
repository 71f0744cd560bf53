//! Calls, forks, returns and loops.
ghost use Rattle.std.specs.Prelude.{◌≡◌, [], ◌∷◌, IfOk, length, take};
ghost use Rattle.cap_prog.specs.Views.{items_view, function_view, program_view};
ghost use Rattle.cap_goal.specs.Views.{home_view, tasks_view};
ghost use Rattle.cap_goal_spec.specs.Environments.{own_env, unbound};
ghost use Rattle.cap_goal_spec.specs.States.{to_take, to_rest, to_give};
ghost use Rattle.cap_rules.specs.Making.{with_env};
ghost use Rattle.cap_rules.specs.Rules.{called, own_params};
ghost use Rattle.cap_rules_steps.specs.Goals.{goals_view};
ghost use Rattle.cap_pure.specs.Statements.{at_call, at_fork, at_return};
ghost use Rattle.cap_rules_steps.specs.Walks.{Makes, giving, seen};

use cap_goal::{Env, Goal, Home, State, Task, items_of};
use cap_lin::{Sort, Term};
use cap_prog::{Assertion, Function, Program};
use cap_pure_parts::fork_tasks;
use cap_rules_steps::{
    RuleError, callee_env, function_at, leaves, own_env, value_here, values_here, with_destination,
    with_env, with_sort,
};
use std::alloc::{AllocError, Global};

// The callee's environment is added, by its number, and the destination has the fresh result.
fn called(
    alloc: Global,
    state: &mut State,
    function: &Function,
    args: &[Term],
    destination: Option<u32>,
) -> Result<u32, RuleError>
    ensures makes { Makes (giving result state.new)
        (called state.old (function_view function.now) args.now destination) }
    ensures place { IfOk result (λ place. place ≡ length state.old.envs) }
{
    let values = values_here(alloc, state, args)?;
    let fresh = with_sort(alloc, state, Sort::Int)?;
    let env = callee_env(alloc, function, &values, &fresh)?;
    with_destination(state, destination, fresh)?;
    Ok(with_env(state, env)?)
}

/// The environment of a function at home, with its parameters from the store.
pub(crate) fn at_home(
    alloc: Global,
    state: &mut State,
    function: &Function,
    home: Home,
    locals: Env,
    outcome: Option<Term>,
    new: usize,
) -> Result<u32, RuleError>
    ensures makes { Makes (giving result state.new) (with_env state.old
        (own_env (function_view function.now) (home_view home)
        (own_params state.old (function_view function.now)) locals outcome new)) }
    ensures place { IfOk result (λ place. place ≡ length state.old.envs) }
{
    let params = front(state.store(), function.params as usize);
    let env = own_env(alloc, function, home, params, locals, outcome, new)?;
    with_env(state, env)
}

// The first of these terms, so many.
fn front(terms: &[Term], count: usize) -> &[Term]
    ensures { result.now ≡ take count terms.now }
{
    if count < terms.len() {
        &terms[..count]
    } else {
        terms
    }
}

// What is to be done at a call before the tasks behind it: what a fork does, and then the
// postcondition is assumed.
fn call_tasks<'a>(
    alloc: Global,
    function: &'a Function,
    env: u32,
    at: u32,
    tasks: Vec<Task<'a>>,
) -> Result<Vec<Task<'a>>, AllocError>
    ensures { IfOk result (λ v. tasks_view v.items
        ≡ to_take (function_view function.now).requires env 3 at
        ∷ to_rest 0 at
        ∷ to_give (function_view function.now).ensures.items env at
        ∷ tasks_view tasks.entry.items) }
{
    let mut tasks = tasks;
    let after = items_of(alloc, &function.ensures_)?;
    tasks.push(Task::Give(after, env, at))?;
    fork_tasks(alloc, function, env, at, tasks)
}

/// A call of a function: its precondition is given up, the facts are settled, and its postcondition
/// is assumed.
pub(crate) fn call<'a>(
    alloc: Global,
    program: &'a Program,
    state: &State,
    destination: Option<u32>,
    callee: u32,
    args: &[Term],
    at: u32,
    tasks: Vec<Task<'a>>,
) -> Result<Vec<Goal<'a>>, RuleError>
    ensures { Makes (seen goals_view result) (at_call (program_view program.now) state.now
        destination callee args.now at (tasks_view tasks.entry.items)) }
{
    let function = function_at(program, callee)?;
    let mut next = state.copy()?;
    let env = called(alloc, &mut next, function, args, destination)?;
    let tasks = call_tasks(alloc, function, env, at, tasks)?;
    Ok(leaves(alloc, next, tasks)?)
}

/// A fork of a function: its precondition is given up, and the facts are settled.
pub(crate) fn fork<'a>(
    alloc: Global,
    program: &'a Program,
    state: &State,
    callee: u32,
    args: &[Term],
    at: u32,
    tasks: Vec<Task<'a>>,
) -> Result<Vec<Goal<'a>>, RuleError>
    ensures { Makes (seen goals_view result) (at_fork (program_view program.now) state.now
        callee args.now at (tasks_view tasks.entry.items)) }
{
    let function = function_at(program, callee)?;
    let mut next = state.copy()?;
    let env = called(alloc, &mut next, function, args, None)?;
    let tasks = fork_tasks(alloc, function, env, at, tasks)?;
    Ok(leaves(alloc, next, tasks)?)
}

/// The one task of giving an assertion up.
pub(crate) fn take_task<'a>(
    alloc: Global,
    assertion: &'a Assertion,
    env: u32,
    at: u32,
) -> Result<Vec<Task<'a>>, AllocError>
    ensures { IfOk result
        (λ v. tasks_view v.items ≡ to_take (items_view assertion.now) env 3 at ∷ []) }
{
    let mut tasks = Vec::new(alloc);
    let items = items_of(alloc, assertion)?;
    tasks.push(Task::Take(items, env, 3, at))?;
    Ok(tasks)
}

// The environment in which so many names are unbound.
fn no_names(alloc: Global, count: usize) -> Result<Env, AllocError>
    ensures { IfOk result (λ e. e ≡ unbound count) }
{
    let mut terms = Vec::new(alloc);
    for step in 0..count {
        let _step = step;
        terms.push(None)?;
    }
    Ok(Env { terms })
}

/// A return: the postcondition is given up.
pub(crate) fn give_back<'a>(
    alloc: Global,
    program: &'a Program,
    state: &State,
    home: Home,
    term: &Term,
    at: u32,
) -> Result<Vec<Goal<'a>>, RuleError>
    ensures { Makes (seen goals_view result) (at_return (program_view program.now) state.now
        (home_view home) term.now at) }
{
    let function = function_at(program, home.function)?;
    let value = value_here(alloc, state, term)?;
    let locals = no_names(alloc, function.locals as usize)?;
    let mut next = state.copy()?;
    let new = function.ensures_.names.len();
    let env = at_home(alloc, &mut next, function, home, locals, Some(value), new)?;
    let tasks = take_task(alloc, &function.ensures_, env, at)?;
    Ok(leaves(alloc, next, tasks)?)
}
