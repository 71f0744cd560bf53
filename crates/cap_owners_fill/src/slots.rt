//! What names and `_` of an assertion are met by when it is taken.
ghost use Rattle.std.specs.Prelude.{◌≡◌, ◌∷◌, ◌++◌, [], map, OnOk, slice_index_or};
ghost use Rattle.cap_goal_spec.specs.Environments.{open_to, reading, stuck};
ghost use Rattle.cap_goal_spec.specs.Terms.{lone_variable};
ghost use Rattle.cap_lin.specs.Linear.{variable};
ghost use Rattle.cap_prog.specs.declared.assertion.Slot.TheVariants.{Is};
ghost use Rattle.cap_owners_spec.specs.Filling.{all_met, atom_met as atom_is_met, met};
ghost use Rattle.cap_owners_spec.specs.Filling.{bound_value as value_bound, count_met as count_is_met};
ghost use Rattle.cap_owners_spec.specs.Filling.{met_at, met_by_term};
ghost use Rattle.cap_owners_spec.specs.Filling.{name_value as value_named, names_in as names_by};
ghost use Rattle.cap_owners_spec.specs.Filling.{share_met as share_is_met};
ghost use Rattle.cap_owners_spec.specs.Walks.{asked_reading};
ghost use Rattle.cap_owners_fill.specs.Views.{halves as halves_share, reading_view};
ghost use Rattle.cap_owners_values.specs.Views.{Traces, value_view};

use crate::fill::Fill;
use crate::reading::{Reading, is_bound, lone_name, read_slot};
use cap_goal::{Env, Fact};
use cap_gsolve::Form;
use cap_lin::Term;
use cap_owners_values::{TraceError, Value, Values, half_of};
use cap_prog::{Asked, Slot};
use std::alloc::{AllocError, Global};

// The value of a term: that of a variable alone may be a share.
fn bound_value(values: &Values, term: &Term) -> Result<Value, TraceError>
    ensures { Traces result value_view
        (value_bound values.now term.now (lone_variable term.now)) }
{
    match lone_name(term) {
        None => Ok(Value::Number(values.number_in(term)?)),
        Some(variable) => Ok(values.at(variable)),
    }
}

// The value of a name; of one that isn't bound it is the number 0.
fn name_value(values: &Values, term: &Option<Term>) -> Result<Value, TraceError>
    ensures { Traces result value_view (value_named values.now term.now) }
{
    match term {
        None => Ok(Value::Number(0)),
        Some(term) => bound_value(values, term),
    }
}

/// The values of an environment's names, by those of variables; of a name that isn't bound it is the
/// number 0. `PastWidth` comes where a term leaves 128 bits, and no other error but want of memory.
pub fn names_in(alloc: Global, values: &Values, env: &Env) -> Result<Values, TraceError>
    ensures { Traces result (λ v. v) (names_by values.now env.now) }
{
    let mut names = Values::new(alloc);
    for term in &env.terms {
        let value = name_value(values, term)?;
        names.push(value)?;
    }
    Ok(names)
}

// A name, or the next `_`, takes a value.
fn meet_at(fill: &mut Fill, name: Option<u32>, value: Value) -> Result<(), AllocError>
    ensures { OnOk result (fill.new ≡ met_at name (value_view value) fill.old) }
{
    match name {
        None => fill.wildcards.push(value),
        Some(name) => {
            fill.names.put(name as usize, value);
            Ok(())
        }
    }
}

/// A slot is met by a value, which its name or `_` takes where it is open. After an error the fill is
/// lost.
pub fn meet_slot(fill: &mut Fill, env: &Env, slot: &Slot, value: Value) -> Result<(), AllocError>
    ensures { OnOk result
        (fill.new ≡ met (reading env.now slot.now) (value_view value) fill.old) }
{
    match read_slot(env, slot) {
        Reading::Settled(_) => Ok(()),
        Reading::OpenTo(name) => meet_at(fill, name, value),
        Reading::Stuck => Ok(()),
    }
}

// A name, or the next `_`, takes the value of a term.
fn meet_at_term(
    fill: &mut Fill,
    values: &Values,
    name: Option<u32>,
    term: &Term,
) -> Result<(), TraceError>
    ensures { Traces result (λ _. fill.new)
        (met_by_term values.now (open_to name) term.now fill.old) }
{
    let number = values.number_in(term)?;
    meet_at(fill, name, Value::Number(number))?;
    Ok(())
}

// The name of a region is met by the value of a term.
fn meet_name(
    fill: &mut Fill,
    values: &Values,
    env: &Env,
    name: u32,
    term: &Term,
) -> Result<(), TraceError>
    ensures { Traces result (λ _. fill.new)
        (met_by_term values.now (reading env.now (Is (variable name))) term.now fill.old) }
{
    if is_bound(env, name) {
        return Ok(());
    }
    meet_at_term(fill, values, Some(name), term)
}

// A slot is met by the value of a term, which is asked for where the slot is open.
fn meet_term(
    fill: &mut Fill,
    values: &Values,
    env: &Env,
    slot: &Slot,
    term: &Term,
) -> Result<(), TraceError>
    ensures { Traces result (λ _. fill.new)
        (met_by_term values.now (reading env.now slot.now) term.now fill.old) }
{
    match read_slot(env, slot) {
        Reading::Settled(_) => Ok(()),
        Reading::OpenTo(name) => meet_at_term(fill, values, name, term),
        Reading::Stuck => Ok(()),
    }
}

// Slots are met by terms, one after the other, as far as there are both.
fn meet_terms(
    fill: &mut Fill,
    values: &Values,
    env: &Env,
    slots: &[Slot],
    terms: &[Term],
) -> Result<(), TraceError>
    ensures { Traces result (λ _. fill.new)
        (all_met values.now (map (reading env.now) slots.now) terms.now fill.old) }
{
    for place in 0..slots.len() {
        if place >= terms.len() {
            return Ok(());
        }
        meet_term(fill, values, env, &slots[place], &terms[place])?;
    }
    Ok(())
}

// What is at a place, or this where the place is behind the end.
fn at_or<'a, T>(all: &'a [T], place: usize, last: &'a T) -> &'a T
    ensures { result.now ≡ slice_index_or all.now place last.now }
{
    if place < all.len() { &all[place] } else { last }
}

/// The slots of a region fact are met by a fact that is held: its region by the variable that names
/// it, its arguments and its state. `PastWidth` comes where a term leaves 128 bits, and no other error
/// but want of memory. After an error the fill is lost.
pub fn meet_region(
    fill: &mut Fill,
    values: &Values,
    env: &Env,
    region: u32,
    args: &[Slot],
    state: &Slot,
    fact: &Fact,
) -> Result<(), TraceError>
    ensures { Traces result (λ _. fill.new) (all_met values.now
        (map (reading env.now) (Is (variable region) ∷ (args.now ++ state.now ∷ [])))
        (fact.now.region ∷ (fact.now.args ++ fact.now.state ∷ [])) fill.old) }
{
    meet_name(fill, values, env, region, &fact.region)?;
    meet_terms(fill, values, env, args, &fact.args)?;
    // Where the fact has fewer arguments its state comes against the next slot, and where it has more
    // the slot of the state comes against the next of them.
    let slot = at_or(args, fact.args.len(), state);
    let term = at_or(&fact.args, args.len(), &fact.state);
    meet_term(fill, values, env, slot, term)
}

// The value at which a count is met: what the slot says, or all that there is.
fn count_met(
    values: &Values,
    names: &Values,
    count: &Term,
    reading: Reading<'_>,
) -> Result<Value, TraceError>
    ensures { Traces result value_view
        (count_is_met values.now names.now count.now (reading_view reading.entry)) }
{
    match reading {
        Reading::Settled(term) => Ok(Value::Number(names.number_in(term)?)),
        Reading::OpenTo(_) => Ok(Value::Number(values.number_in(count)?)),
        Reading::Stuck => Ok(Value::Number(values.number_in(count)?)),
    }
}

// Half of a share.
fn half_met(values: &Values, amount: &Term) -> Result<Value, TraceError>
    ensures { Traces result value_view (share_is_met values.now [] amount.now stuck) }
{
    let share = values.amount_in(amount)?;
    Ok(Value::Share(half_of(share)?))
}

// The value at which a share is met: what the slot says, or half of it.
fn share_met(
    values: &Values,
    names: &Values,
    amount: &Term,
    reading: Reading<'_>,
) -> Result<Value, TraceError>
    ensures { Traces result value_view
        (share_is_met values.now names.now amount.now (reading_view reading.entry)) }
{
    match reading {
        Reading::Settled(term) => Ok(Value::Share(names.amount_in(term)?)),
        Reading::OpenTo(_) => half_met(values, amount),
        Reading::Stuck => half_met(values, amount),
    }
}

// The value at which what is asked of a guard is met by a piece of this form.
fn form_met(
    values: &Values,
    names: &Values,
    form: &Form,
    reading: Reading<'_>,
) -> Result<Value, TraceError>
    ensures { Traces result value_view
        (atom_is_met values.now names.now form.now (reading_view reading.entry)) }
{
    match form {
        Form::One => Ok(Value::Number(0)),
        Form::Share(amount) => share_met(values, names, amount, reading),
        Form::Src(count) => count_met(values, names, count, reading),
        Form::Tok(count) => count_met(values, names, count, reading),
        Form::Span(first, _) => count_met(values, names, first, reading),
    }
}

/// The value at which what is asked of a guard is met by a piece of this form: what its slot says, or
/// all that there is, or half of a share. `PastWidth` comes where a term leaves 128 bits or a share
/// can't be halved, and `Untold` where a share is below 0. It takes no memory.
pub fn atom_met(
    values: &Values,
    names: &Values,
    form: &Form,
    env: &Env,
    asked: &Asked,
) -> Result<Value, TraceError>
    ensures { Traces result value_view (atom_is_met values.now names.now form.now
        (asked_reading env.now asked.now)) }
{
    match asked {
        Asked::One => {
            let zero = Term::constant(*env.terms.allocator(), 0);
            form_met(values, names, form, Reading::Settled(&zero))
        }
        Asked::Share(slot) => form_met(values, names, form, read_slot(env, slot)),
        Asked::Src(slot) => form_met(values, names, form, read_slot(env, slot)),
        Asked::Tok(slot) => form_met(values, names, form, read_slot(env, slot)),
        Asked::At(slot) => form_met(values, names, form, read_slot(env, slot)),
        Asked::From(slot) => form_met(values, names, form, read_slot(env, slot)),
    }
}

/// Whether half of a share is a new variable: an amount is asked for by an open slot. It takes no
/// memory.
pub fn halves(env: &Env, asked: &Asked) -> bool
    ensures { result ≡ halves_share env.now asked.now }
{
    match asked {
        Asked::Share(slot) => match read_slot(env, slot) {
            Reading::Settled(_) => false,
            Reading::OpenTo(_) => true,
            Reading::Stuck => false,
        },
        Asked::One => false,
        Asked::Src(_) => false,
        Asked::Tok(_) => false,
        Asked::At(_) => false,
        Asked::From(_) => false,
    }
}
