//! Loops, which have trees of their own: a loop that comes first is left to its tree, and at its
//! head in that tree it is entered or left.
ghost use Rattle.std.specs.Prelude.{◌≡◌, IfOk, drop};
ghost use Rattle.cap_prog.specs.Views.{assertion_view, program_view};
ghost use Rattle.cap_goal_spec.specs.Environments.{bound};
ghost use Rattle.cap_goal.specs.Views.{home_view};
ghost use Rattle.cap_rules_steps.specs.Goals.{goals_view, point_view};
ghost use Rattle.cap_rules_steps.specs.Walks.{Makes, seen};
ghost use Rattle.cap_pure.specs.Statements.{at_loop};
ghost use Rattle.cap_pure.specs.Heads.{upcoming_view, all_ahead, loop_rule};

use crate::calls::{at_home, take_task};
use crate::upcoming::{Upcoming, entered, run_before, tasks_behind};
use cap_goal::{Env, Goal, Home, Point, State};
use cap_lin::Term;
use cap_prog::{Act, Assertion, Program};
use cap_pure_parts::branches;
use cap_rules_steps::{RuleError, function_at, leaves};
use std::alloc::{AllocError, Global};

// The terms from a number on.
fn from(terms: &[Term], number: usize) -> &[Term]
    ensures { result.now ≡ drop number terms.now }
{
    if number < terms.len() {
        &terms[number..]
    } else {
        &[]
    }
}

// The environment in which names are bound to these terms.
fn bound_to(alloc: Global, terms: &[Term]) -> Result<Env, AllocError>
    ensures { IfOk result (λ e. e ≡ bound terms.now) }
{
    let mut names = Vec::new(alloc);
    for term in terms {
        names.push(Some(term.copy(alloc)?))?;
    }
    Ok(Env { terms: names })
}

/// A loop that comes first is left to its own tree: its invariant is given up.
pub(crate) fn leave_loop<'a>(
    alloc: Global,
    program: &'a Program,
    state: &State,
    home: Home,
    invariant: &'a Assertion,
    at: u32,
) -> Result<Vec<Goal<'a>>, RuleError>
    ensures { Makes (seen goals_view result) (at_loop (program_view program.now) state.now
        (home_view home) (assertion_view invariant.now) at) }
{
    let function = function_at(program, home.function)?;
    let locals = bound_to(alloc, from(state.store(), function.params as usize))?;
    let mut next = state.copy()?;
    let new = invariant.names.len();
    let env = at_home(alloc, &mut next, function, home, locals, None, new)?;
    let tasks = take_task(alloc, invariant, env, at)?;
    Ok(leaves(alloc, next, tasks)?)
}

/// At the head of a loop its body is run where its comparison holds, and then the loop comes again;
/// what follows it is run where the opposite does. The point is that at which the loop comes first.
pub(crate) fn turn<'t, 'a>(
    alloc: Global,
    state: &State,
    point: &Point<'a>,
    next: &Upcoming<'t, 'a>,
) -> Result<Vec<Goal<'a>>, RuleError>
    requires { point_view point.now ≡ all_ahead (upcoming_view next.now) }
    ensures { Makes (seen goals_view result) (loop_rule state.now (upcoming_view next.now)) }
{
    match &next.statement.act {
        Act::While(comparison, _, body) => {
            let again = entered(alloc, body, point)?;
            let then_tasks = run_before(alloc, next.home, again, next.tasks)?;
            let else_tasks = tasks_behind(alloc, next)?;
            branches(alloc, state, comparison, then_tasks, else_tasks)
        }
        _ => Err(RuleError::NotApplicable),
    }
}
