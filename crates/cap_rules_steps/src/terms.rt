//! The values of terms in an environment, as terms over a state's variables.
ghost use Rattle.std.specs.Prelude.{◌≡◌, ◌++◌};
ghost use Rattle.cap_lin.specs.Exact.{IsExact};
ghost use Rattle.cap_lin.specs.Linear.{plus, times};
ghost use Rattle.cap_lin.specs.Steps.{plus_steps, times_steps};
ghost use Rattle.cap_rules.specs.cap_goal_spec.Terms.{term_over, term_over_steps};
ghost use Rattle.cap_rules.specs.cap_goal_spec.Environments.{zero_value};
ghost use Rattle.cap_rules.specs.Making.{in_store, values_here};
ghost use Rattle.cap_rules_steps.specs.Places.{term_among, terms_view};
ghost use Rattle.cap_rules_steps.specs.Walks.{Makes, seen};

use crate::error::RuleError;
use cap_goal::State;
use cap_lin::{LinError, Term};
use std::alloc::Global;

/// The term with these terms in the place of its variables, 0 past their end.
pub fn value_over(alloc: Global, terms: &[Term], term: &Term) -> Result<Term, LinError>
    ensures { IsExact result
        (term_over_steps (term_among terms.now) term.now)
        (term_over (term_among terms.now) term.now) }
{
    let zero = Term::constant(alloc, 0);
    let mut sum = Term::constant(alloc, term.constant_part());
    for part in term.parts() {
        let (variable, coefficient) = *part;
        let there = at(terms, variable, &zero);
        sum = with_multiple(alloc, &sum, there, coefficient)?;
    }
    Ok(sum)
}

// A sum, and to it a multiple of a term, which is made first.
pub(crate) fn with_multiple(
    alloc: Global,
    sum: &Term,
    term: &Term,
    factor: i128,
) -> Result<Term, LinError>
    ensures { IsExact result
        (times_steps factor term.now ++ plus_steps sum.now (times factor term.now))
        (plus sum.now (times factor term.now)) }
{
    let multiple = term.scale(alloc, factor)?;
    sum.add(alloc, &multiple)
}

// The term at a place, or 0 past the end.
fn at<'a>(terms: &'a [Term], place: u32, zero: &'a Term) -> &'a Term
    requires { zero.now ≡ zero_value }
    ensures { result.now ≡ term_among terms.now place }
{
    let place = place as usize;
    if place < terms.len() {
        &terms[place]
    } else {
        zero
    }
}

/// A term of a statement, by the store.
pub fn value_here(alloc: Global, state: &State, term: &Term) -> Result<Term, LinError>
    ensures { IsExact result (term_over_steps (in_store state.now) term.now)
        (term_over (in_store state.now) term.now) }
{
    value_over(alloc, state.store(), term)
}

/// Terms of a statement, by the store.
pub fn values_here(alloc: Global, state: &State, terms: &[Term]) -> Result<Vec<Term>, RuleError>
    ensures { Makes (seen terms_view result) (values_here state.now terms.now) }
{
    let mut values = Vec::new(alloc);
    for term in terms {
        values.push(value_here(alloc, state, term)?)?;
    }
    Ok(values)
}
