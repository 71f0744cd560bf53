//! The roots of a function: its contract, its body, and the invariants of its loops.
ghost use Rattle.std.specs.Prelude.{◌≡◌, ◌++◌, [], ◌∷◌, length, flat_map, IfOk};
ghost use Rattle.std.specs.List.{AllByRecursion};
ghost use Rattle.cap_prog.specs.Program.{done};
ghost use Rattle.cap_prog.specs.Views.{items_view, function_view};
ghost use Rattle.cap_goal_spec.specs.States.{to_give, to_rest, to_take, to_run};
ghost use Rattle.cap_goal_spec.specs.Roots.{loops_in};
ghost use Rattle.cap_goal_spec.specs.Roots.{home_of as home, root_env as env_of_root};
ghost use Rattle.cap_goal_spec.specs.Roots.{root_state as state_of_root, root_store as store_of_root};
ghost use Rattle.cap_goal_spec.specs.Roots.{stability as stable, from_given as given};
ghost use Rattle.cap_goal_spec.specs.Roots.{loop_roots as roots_of_loop};
ghost use Rattle.cap_goal_spec.specs.Roots.{function_roots as roots_of_function, at_entry, at_exit};
ghost use Rattle.cap_goal.specs.Views.{home_view, task_view, tasks_view};
ghost use Rattle.cap_goal_roots.specs.Units.{IsNarrow, LoopIsNarrow};
ghost use Rattle.cap_goal_roots.specs.Views.{root_view, roots_view, knows_view, loop_view, loops_view};

use crate::goal::goal_of;
use crate::loops::{LoopPoint, push_loops};
use crate::made::{bind_variables, leave_unbound, push_ints, push_variables, push_zeros, variable};
use crate::store::{Knows, add_all_sorts, add_all_values};
use cap_goal::{Env, Goal, Home, Point, State, Task, items_of};
use cap_lin::{Sort, Term};
use cap_prog::{Assertion, Function};
use std::alloc::{AllocError, Global};

const ENTRY: Knows = Knows {
    locals: false,
    result: false,
};

const EXIT: Knows = Knows {
    locals: false,
    result: true,
};

const LOOP: Knows = Knows {
    locals: true,
    result: false,
};

fn home_of(knows: Knows, function: &Function, number: u32) -> Home
    requires { IsNarrow (function_view function.now) 0 }
    ensures { home_view result ≡ home (knows_view knows) (function_view function.now) number }
{
    let locals = if knows.locals { function.locals } else { 0 };
    Home {
        function: number,
        fixed: function.params + locals,
    }
}

fn root_sorts(alloc: Global, knows: Knows, function: &Function) -> Result<Vec<Sort>, AllocError>
    requires { IsNarrow (function_view function.now) 0 }
    ensures { IfOk result (λ v. v.items
        ≡ (state_of_root (knows_view knows) (function_view function.now) 0 []).sorts) }
{
    let mut sorts = Vec::new(alloc);
    push_ints(&mut sorts, home_of(knows, function, 0).fixed)?;
    sorts.extend_from_slice(&function.fixed)?;
    if knows.result {
        sorts.push(Sort::Int)?;
    }
    Ok(sorts)
}

fn root_store(alloc: Global, knows: Knows, function: &Function) -> Result<Vec<Term>, AllocError>
    requires { IsNarrow (function_view function.now) 0 }
    ensures { IfOk result (λ v. v.items
        ≡ store_of_root (knows_view knows) (function_view function.now)) }
{
    let mut store = Vec::new(alloc);
    push_variables(alloc, &mut store, 0, function.params)?;
    if knows.locals {
        push_variables(alloc, &mut store, function.params, function.locals)?;
    } else {
        push_zeros(alloc, &mut store, function.locals)?;
    }
    Ok(store)
}

fn root_env(
    alloc: Global,
    knows: Knows,
    function: &Function,
    number: u32,
    new: u32,
) -> Result<Env, AllocError>
    requires { IsNarrow (function_view function.now) new }
    ensures { IfOk result (λ e. e
        ≡ env_of_root (knows_view knows) (function_view function.now) number new) }
{
    let fixed = home_of(knows, function, number).fixed;
    let count = function.fixed.len() as u32;
    let mut terms = Vec::new(alloc);
    bind_variables(alloc, &mut terms, 0, function.params)?;
    if knows.locals {
        bind_variables(alloc, &mut terms, function.params, function.locals)?;
    } else {
        leave_unbound(&mut terms, function.locals)?;
    }
    bind_variables(alloc, &mut terms, fixed, count)?;
    if knows.result {
        bind_variables(alloc, &mut terms, fixed + count, 1)?;
    } else {
        leave_unbound(&mut terms, 1)?;
    }
    leave_unbound(&mut terms, new)?;
    Ok(Env { terms })
}

// The state without environments.
fn root_state(
    alloc: Global,
    knows: Knows,
    function: &Function,
    number: u32,
) -> Result<State, AllocError>
    requires { IsNarrow (function_view function.now) 0 }
    ensures { IfOk result (λ s. s
        ≡ state_of_root (knows_view knows) (function_view function.now) number []) }
{
    let mut state = State::new(alloc)?;
    add_all_sorts(&mut state, &root_sorts(alloc, knows, function)?)?;
    add_all_values(alloc, &mut state, &root_store(alloc, knows, function)?)?;
    Ok(state)
}

// The tasks that make sure that an assertion, once given, can be given up again.
fn stability_tasks<'a>(alloc: Global, assertion: &'a Assertion) -> Result<Vec<Task<'a>>, AllocError>
    ensures { IfOk result (λ v. tasks_view v.items
        ≡ to_give (items_view assertion.now) 0 0
        ∷ to_rest 0 0
        ∷ to_take (items_view assertion.now) 1 0 0
        ∷ []) }
{
    let given = items_of(alloc, assertion)?;
    let taken = items_of(alloc, assertion)?;
    let mut tasks = Vec::new(alloc);
    tasks.push(Task::Take(taken, 1, 0, 0))?;
    tasks.push(Task::Rest(0, 0))?;
    tasks.push(Task::Give(given, 0, 0))?;
    Ok(tasks)
}

// An assertion with so many new names, once given, can be given up again after steps of others.
fn stability<'a>(
    alloc: Global,
    knows: Knows,
    function: &Function,
    number: u32,
    new: u32,
    assertion: &'a Assertion,
) -> Result<Option<Goal<'a>>, AllocError>
    requires { IsNarrow (function_view function.now) new }
    ensures { IfOk result (λ g. root_view g
        ≡ stable (knows_view knows) (function_view function.now) number new
        (items_view assertion.now)) }
{
    let mut state = root_state(alloc, knows, function, number)?;
    state.add_envs(root_env(alloc, knows, function, number, new)?)?;
    state.add_envs(root_env(alloc, knows, function, number, new)?)?;
    let tasks = stability_tasks(alloc, assertion)?;
    Ok(goal_of(state, tasks))
}

// A task, once an assertion with so many new names is given.
fn from_given<'a>(
    alloc: Global,
    knows: Knows,
    function: &Function,
    number: u32,
    new: u32,
    assertion: &'a Assertion,
    task: Task<'a>,
) -> Result<Option<Goal<'a>>, AllocError>
    requires { IsNarrow (function_view function.now) new }
    ensures { IfOk result (λ g. root_view g
        ≡ given (knows_view knows) (function_view function.now) number new
        (items_view assertion.now) (task_view task.entry)) }
{
    let mut tasks = Vec::new(alloc);
    tasks.push(task)?;
    let items = items_of(alloc, assertion)?;
    tasks.push(Task::Give(items, 0, 0))?;
    let mut state = root_state(alloc, knows, function, number)?;
    state.add_envs(root_env(alloc, knows, function, number, new)?)?;
    Ok(goal_of(state, tasks))
}

// Appends the roots of a loop.
fn push_loop_roots<'a>(
    alloc: Global,
    roots: &mut Vec<Option<Goal<'a>>>,
    function: &Function,
    number: u32,
    at: &LoopPoint<'a>,
) -> Result<(), AllocError>
    requires { LoopIsNarrow (function_view function.now) (loop_view at.now) }
    ensures { IfOk result (λ _. roots_view roots.new.items
        ≡ roots_view roots.old.items
        ++ roots_of_loop (function_view function.now) number (loop_view at.now)) }
{
    let new = at.invariant.names.len() as u32;
    roots.push(stability(alloc, LOOP, function, number, new, at.invariant)?)?;
    let lists = Vec::from_slice(alloc, &at.point.lists)?;
    let turn = Task::Turn(home_of(LOOP, function, number), Point { lists });
    roots.push(from_given(alloc, LOOP, function, number, new, at.invariant, turn)?)?;
    Ok(())
}

// Appends the roots of loops.
fn push_all_loop_roots<'a>(
    alloc: Global,
    roots: &mut Vec<Option<Goal<'a>>>,
    function: &Function,
    number: u32,
    loops: &[LoopPoint<'a>],
) -> Result<(), AllocError>
    requires { AllByRecursion
        (LoopIsNarrow (function_view function.now)) (loops_view loops.now) }
    ensures { IfOk result (λ _. roots_view roots.new.items
        ≡ roots_view roots.old.items
        ++ flat_map (roots_of_loop (function_view function.now) number)
        (loops_view loops.now)) }
{
    for at in loops {
        push_loop_roots(alloc, roots, function, number, at)?;
    }
    Ok(())
}

// The loops of a function.
fn loops_of<'a>(alloc: Global, function: &'a Function) -> Result<Vec<LoopPoint<'a>>, AllocError>
    ensures { IfOk result (λ v. loops_view v.items
        ≡ loops_in (function_view function.now).body done) }
{
    let mut loops = Vec::new(alloc);
    push_loops(alloc, &mut loops, &function.body, &[])?;
    Ok(loops)
}

// Running the body.
fn body_task<'a>(alloc: Global, function: &'a Function, number: u32) -> Result<Task<'a>, AllocError>
    requires { IsNarrow (function_view function.now) 0 }
    ensures { IfOk result (λ t. task_view t
        ≡ to_run (home at_entry (function_view function.now) number)
        (function_view function.now).body) }
{
    let mut lists = Vec::new(alloc);
    lists.push(function.body.as_slice())?;
    Ok(Task::Run(home_of(ENTRY, function, number), Point { lists }))
}

// Appends the root of the body.
fn push_body_root<'a>(
    alloc: Global,
    roots: &mut Vec<Option<Goal<'a>>>,
    function: &'a Function,
    number: u32,
) -> Result<(), AllocError>
    requires { IsNarrow (function_view function.now) 0 }
    ensures { IfOk result (λ _. roots_view roots.new.items
        ≡ roots_view roots.old.items
        ++ given at_entry (function_view function.now) number 0
        (function_view function.now).requires
        (to_run (home at_entry (function_view function.now) number)
        (function_view function.now).body)
        ∷ []) }
{
    let run = body_task(alloc, function, number)?;
    roots.push(from_given(alloc, ENTRY, function, number, 0, &function.requires_, run)?)?;
    Ok(())
}

// Appends the roots of the contract: what it states stays true after steps of others.
fn push_contract_roots<'a>(
    alloc: Global,
    roots: &mut Vec<Option<Goal<'a>>>,
    function: &'a Function,
    number: u32,
) -> Result<(), AllocError>
    requires { IsNarrow (function_view function.now)
        (length (function_view function.now).ensures.names) }
    ensures { IfOk result (λ _. roots_view roots.new.items
        ≡ roots_view roots.old.items
        ++ stable at_entry (function_view function.now) number 0
        (function_view function.now).requires
        ∷ stable at_exit (function_view function.now) number
        (length (function_view function.now).ensures.names)
        (function_view function.now).ensures.items
        ∷ []) }
{
    let new = function.ensures_.names.len() as u32;
    roots.push(stability(alloc, ENTRY, function, number, 0, &function.requires_)?)?;
    roots.push(stability(alloc, EXIT, function, number, new, &function.ensures_)?)?;
    Ok(())
}

/// The roots of a function: for its contract, its body, and each loop in the order of the text.
pub fn function_roots<'a>(
    alloc: Global,
    function: &'a Function,
    number: u32,
) -> Result<Vec<Option<Goal<'a>>>, AllocError>
    requires contract { IsNarrow (function_view function.now)
        (length (function_view function.now).ensures.names) }
    requires loops { AllByRecursion (LoopIsNarrow (function_view function.now))
        (loops_in (function_view function.now).body done) }
    ensures { IfOk result (λ v. roots_view v.items
        ≡ roots_of_function (function_view function.now) number) }
{
    let mut roots = Vec::new(alloc);
    push_contract_roots(alloc, &mut roots, function, number)?;
    push_body_root(alloc, &mut roots, function, number)?;
    let loops = loops_of(alloc, function)?;
    push_all_loop_roots(alloc, &mut roots, function, number, &loops)?;
    Ok(roots)
}
