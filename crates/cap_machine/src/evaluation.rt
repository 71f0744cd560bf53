//! The values of terms by a frame's store.
ghost use Rattle.std.specs.Prelude.{◌≡◌, length, map};
ghost use Rattle.std.specs.List.{AllByRecursion};
ghost use Rattle.cap_lin.specs.Linear.{IsBelow};
ghost use Rattle.cap_machine.specs.Machine.{value_in, compared, holds};
ghost use Rattle.cap_machine.specs.Results.{term_steps, terms_steps, comparison_steps};
ghost use Rattle.cap_machine.specs.Errors.{Evaluates};

use crate::event::StepError;
use cap_lin::{Op, Term};
use cap_prog::Comp;
use std::alloc::Global;

/// The term's value.
pub(crate) fn evaluate(term: &Term, store: &[i128]) -> Result<i128, StepError>
    requires { IsBelow (length store.now) term.now }
    ensures { Evaluates result (λ v. v)
        (term_steps store.now term.now) (value_in store.now term.now) }
{
    Ok(term.value(store)?)
}

/// The values of terms.
pub(crate) fn evaluate_all(
    alloc: Global,
    terms: &[Term],
    store: &[i128],
) -> Result<Vec<i128>, StepError>
    requires { AllByRecursion (IsBelow (length store.now)) terms.now }
    ensures { Evaluates result (λ vs. vs.items)
        (terms_steps store.now terms.now) (map (value_in store.now) terms.now) }
{
    let mut values = Vec::new(alloc);
    for term in terms {
        values.push(evaluate(term, store)?)?;
    }
    Ok(values)
}

fn compares(op: Op, left: i128, right: i128) -> bool
    ensures { result ≡ compared op left right }
{
    match op {
        Op::Eq => left == right,
        Op::Ne => left != right,
        Op::Lt => left < right,
        Op::Le => left <= right,
        Op::Gt => left > right,
        Op::Ge => left >= right,
    }
}

/// Whether a comparison holds.
pub(crate) fn holds(comparison: &Comp, store: &[i128]) -> Result<bool, StepError>
    requires left { IsBelow (length store.now) comparison.now.left }
    requires right { IsBelow (length store.now) comparison.now.right }
    ensures { Evaluates result (λ b. b)
        (comparison_steps store.now comparison.now) (holds store.now comparison.now) }
{
    let left = evaluate(&comparison.left, store)?;
    let right = evaluate(&comparison.right, store)?;
    Ok(compares(comparison.op, left, right))
}
