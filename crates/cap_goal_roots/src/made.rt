//! Lists of variables and terms from which roots are made.
ghost use Rattle.std.specs.Prelude.{◌≡◌, ◌+◌, ◌<◌, ◌^◌, ◌++◌, replicate, IfOk};
ghost use Rattle.cap_lin.specs.Linear.{variable as plain_variable};
ghost use Rattle.cap_goal_spec.specs.Terms.{variables_from};
ghost use Rattle.cap_goal_spec.specs.Environments.{bound, unbound, zero_value};

use cap_lin::{LinError, Sort, Term};
use std::alloc::{AllocError, Global};

/// The term that is a variable.
pub fn variable(alloc: Global, number: u32) -> Result<Term, AllocError>
    ensures { IfOk result (λ t. t ≡ plain_variable number) }
{
    match Term::var(alloc, number) {
        Ok(term) => Ok(term),
        Err(LinError::OutOfMemory) => Err(AllocError),
        Err(LinError::Wide(_, _)) => unreachable!(),
    }
}

/// Appends variables from a number on, so many.
#[tactic(auto, using(crate::proofs::Repeats::variable_on, crate::proofs::Repeats::variables_done))]
pub fn push_variables(
    alloc: Global,
    terms: &mut Vec<Term>,
    first: u32,
    count: u32,
) -> Result<(), AllocError>
    requires { first + count < 2 ^ 32 }
    ensures { IfOk result
        (λ _. terms.new.items ≡ terms.old.items ++ variables_from first count) }
{
    for number in first..first + count {
        terms.push(variable(alloc, number)?)?;
    }
    Ok(())
}

/// Appends the number 0, so often.
#[tactic(auto, using(crate::proofs::Repeats::repeated_more, crate::proofs::Repeats::repeated_done))]
pub fn push_zeros(alloc: Global, terms: &mut Vec<Term>, count: u32) -> Result<(), AllocError>
    ensures { IfOk result (λ _. terms.new.items ≡ terms.old.items ++ replicate count zero_value) }
{
    for _ in 0..count {
        terms.push(Term::constant(alloc, 0))?;
    }
    Ok(())
}

/// Appends the sort of whole numbers, so often.
#[tactic(auto, using(crate::proofs::Repeats::repeated_more, crate::proofs::Repeats::repeated_done))]
pub fn push_ints(sorts: &mut Vec<Sort>, count: u32) -> Result<(), AllocError>
    ensures { IfOk result (λ _. sorts.new.items ≡ sorts.old.items ++ replicate count Sort.Int) }
{
    for _ in 0..count {
        sorts.push(Sort::Int)?;
    }
    Ok(())
}

/// Binds the next names to variables from a number on, so many.
#[tactic(auto, using(crate::proofs::Repeats::bound_more, crate::proofs::Repeats::bound_done))]
pub fn bind_variables(
    alloc: Global,
    env: &mut Vec<Option<Term>>,
    first: u32,
    count: u32,
) -> Result<(), AllocError>
    requires { first + count < 2 ^ 32 }
    ensures { IfOk result
        (λ _. env.new.items ≡ env.old.items ++ bound (variables_from first count)) }
{
    for number in first..first + count {
        env.push(Some(variable(alloc, number)?))?;
    }
    Ok(())
}

/// Leaves the next names unbound, so many.
#[tactic(auto, using(crate::proofs::Repeats::repeated_more, crate::proofs::Repeats::repeated_done))]
pub fn leave_unbound(env: &mut Vec<Option<Term>>, count: u32) -> Result<(), AllocError>
    ensures { IfOk result (λ _. env.new.items ≡ env.old.items ++ unbound count) }
{
    for _ in 0..count {
        env.push(None)?;
    }
    Ok(())
}
