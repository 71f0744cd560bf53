//! The guards that an action asks for, and what makes them compatible with those held.
ghost use Rattle.std.specs.Prelude.{◌≡◌, length};
ghost use Rattle.cap_rules.specs.Resting.{rows_over as rows_among, want_slot as slot_wanted};
ghost use Rattle.cap_rules.specs.Resting.{want_form as form_wanted};
ghost use Rattle.cap_rules_steps.specs.Walks.{Makes, seen};
ghost use Rattle.cap_stab_states.specs.Wanting.{row_among, wanted_from};
ghost use Rattle.cap_prog.specs.declared.assertion.Asked.TheVariants as asked_as;

use cap_gsolve::Form;
use cap_lin::{Row, Term};
use cap_prog::{Asked, Comp, Slot};
use cap_rules_steps::{RuleError, value_over};
use std::alloc::Global;

// The row of a comparison of an action, by the terms of its names.
fn row_over(alloc: Global, names: &[Term], comparison: &Comp) -> Result<Row, RuleError>
    ensures { Makes result (row_among names.now comparison.now) }
{
    let left = value_over(alloc, names, &comparison.left)?;
    let right = value_over(alloc, names, &comparison.right)?;
    Ok(Row::of(alloc, &left, comparison.op, &right, comparison.sort)?)
}

// The rows of comparisons of an action.
pub(crate) fn rows_over(
    alloc: Global,
    names: &[Term],
    comparisons: &[Comp],
) -> Result<Vec<Row>, RuleError>
    ensures { Makes (seen (λ v. v.items) result) (rows_among names.now comparisons.now) }
{
    let mut rows = Vec::new(alloc);
    for comparison in comparisons {
        rows.push(row_over(alloc, names, comparison)?)?;
    }
    Ok(rows)
}

// The amount or index that an action wants; this variable stands for `_`.
#[tactic(auto, using(cap_rules_steps::proofs::Walking::making))]
fn want_slot(alloc: Global, names: &[Term], wildcard: u32, slot: &Slot) -> Result<Term, RuleError>
    ensures { Makes result (slot_wanted names.now wildcard slot.now) }
{
    match slot {
        Slot::Any => Ok(Term::var(alloc, wildcard)?),
        Slot::Is(term) => Ok(value_over(alloc, names, term)?),
    }
}

// One index.
#[tactic(auto, using(cap_rules_steps::proofs::Walking::making))]
fn want_index(alloc: Global, names: &[Term], wildcard: u32, slot: &Slot) -> Result<Form, RuleError>
    ensures { Makes result (form_wanted names.now wildcard (asked_as.At slot.now)) }
{
    let index = want_slot(alloc, names, wildcard, slot)?;
    let one = Term::constant(alloc, 1);
    let next = index.add(alloc, &one)?;
    Ok(Form::Span(index, Some(next)))
}

#[tactic(auto, using(cap_rules_steps::proofs::Walking::making))]
fn want_form(alloc: Global, names: &[Term], wildcard: u32, asked: &Asked) -> Result<Form, RuleError>
    ensures { Makes result (form_wanted names.now wildcard asked.now) }
{
    match asked {
        Asked::One => Ok(Form::One),
        Asked::Share(slot) => Ok(Form::Share(want_slot(alloc, names, wildcard, slot)?)),
        Asked::Src(slot) => Ok(Form::Src(want_slot(alloc, names, wildcard, slot)?)),
        Asked::Tok(slot) => Ok(Form::Tok(want_slot(alloc, names, wildcard, slot)?)),
        Asked::At(slot) => want_index(alloc, names, wildcard, slot),
        Asked::From(slot) => Ok(Form::Span(want_slot(alloc, names, wildcard, slot)?, None)),
    }
}

// The guards that an action wants, with a variable for each that stands for its `_`.
pub(crate) fn wanted(
    alloc: Global,
    names: &[Term],
    wildcards: &[u32],
    guards: &[(u32, Asked)],
) -> Result<Vec<(u32, Form)>, RuleError>
    requires { length wildcards.now ≡ length guards.now }
    ensures { Makes (seen (λ v. v.items) result)
        (wanted_from names.now wildcards.now guards.now) }
{
    let mut wanted = Vec::new(alloc);
    for i in 0..guards.len() {
        let (atom, asked) = &guards[i];
        wanted.push((*atom, want_form(alloc, names, wildcards[i], asked)?))?;
    }
    Ok(wanted)
}
