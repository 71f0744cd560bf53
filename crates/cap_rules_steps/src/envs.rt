//! Environments of calls and of functions at home.
ghost use Rattle.std.specs.Prelude.{◌≡◌, ◌++◌, IfOk, OnOk, MatchResult};
ghost use Rattle.cap_rules.specs.cap_goal_spec.Terms.{variables_from};
ghost use Rattle.cap_rules.specs.cap_goal_spec.Environments.{bound, unbound, callee_env, own_env};
ghost use Rattle.cap_prog.specs.Views.{function_view};
ghost use Rattle.cap_goal.specs.Views.{home_view};

use cap_goal::{Env, Home};
use cap_lin::{LinError, Term};
use cap_prog::Function;
use std::alloc::{AllocError, Global};

// Binds names to these terms.
fn push_bound(
    alloc: Global,
    names: &mut Vec<Option<Term>>,
    terms: &[Term],
) -> Result<(), AllocError>
    ensures { OnOk result (names.new.items ≡ names.old.items ++ bound terms.now) }
{
    for term in terms {
        names.push(Some(term.copy(alloc)?))?;
    }
    Ok(())
}

// Adds names that are bound or not.
fn push_names(names: &mut Vec<Option<Term>>, more: Vec<Option<Term>>) -> Result<(), AllocError>
    ensures { OnOk result (names.new.items ≡ names.old.items ++ more.items) }
{
    let mut more = more;
    names.append(&mut more)?;
    Ok(())
}

// Leaves so many names unbound.
fn push_unbound(names: &mut Vec<Option<Term>>, count: usize) -> Result<(), AllocError>
    ensures { OnOk result (names.new.items ≡ names.old.items ++ unbound count) }
{
    for step in 0..count {
        let _step = step;
        names.push(None)?;
    }
    Ok(())
}

/// The variables from one on, so many. One whose number passes 32 bits counts as want of memory.
pub fn variables(alloc: Global, first: u32, count: usize) -> Result<Vec<Term>, LinError>
    ensures { MatchResult result (λ v. v.items ≡ variables_from first count)
        (λ e. e ≡ LinError.OutOfMemory) }
{
    let mut all = Vec::new(alloc);
    for step in 0..count {
        let number = (first as u64).saturating_add(step as u64);
        if number > u32::MAX as u64 {
            return Err(LinError::OutOfMemory);
        }
        all.push(Term::var(alloc, number as u32)?)?;
    }
    Ok(all)
}

/// The environment of a called function: the arguments and the result; all else is unbound.
pub fn callee_env(
    alloc: Global,
    function: &Function,
    args: &[Term],
    result_term: &Term,
) -> Result<Env, AllocError>
    ensures { IfOk result
        (λ e. e ≡ callee_env (function_view function.now) args.now result_term.now) }
{
    let mut terms = Vec::new(alloc);
    push_bound(alloc, &mut terms, args)?;
    push_unbound(&mut terms, function.locals as usize)?;
    push_unbound(&mut terms, function.fixed.len())?;
    terms.push(Some(result_term.copy(alloc)?))?;
    push_unbound(&mut terms, function.ensures_.names.len())?;
    Ok(Env { terms })
}

/// The environment of a function at home: its parameters, what is bound of its locals, the variables
/// of its fixed names, and perhaps a result; so many new names are unbound. A variable whose number
/// passes 32 bits counts as want of memory.
pub fn own_env(
    alloc: Global,
    function: &Function,
    home: Home,
    params: &[Term],
    locals: Env,
    outcome: Option<Term>,
    new: usize,
) -> Result<Env, LinError>
    ensures { MatchResult result (λ e. e
        ≡ own_env (function_view function.now) (home_view home) params.now locals outcome new)
        (λ e. e ≡ LinError.OutOfMemory) }
{
    let mut terms = Vec::new(alloc);
    push_bound(alloc, &mut terms, params)?;
    push_names(&mut terms, locals.terms)?;
    let fixed = variables(alloc, home.fixed, function.fixed.len())?;
    push_bound(alloc, &mut terms, &fixed)?;
    terms.push(outcome)?;
    push_unbound(&mut terms, new)?;
    Ok(Env { terms })
}
