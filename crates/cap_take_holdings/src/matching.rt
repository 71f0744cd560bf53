//! Slots of assertions against terms.
ghost use Rattle.std.specs.Prelude.{◌≡◌, IfOk};
ghost use Rattle.cap_rules_steps.specs.cap_goal_spec.Terms.{lone_variable};
ghost use Rattle.cap_rules_steps.specs.cap_goal_spec.Environments.{with_name, settled};
ghost use Rattle.cap_rules_steps.specs.cap_goal_spec.Environments.{reading as slot_reading};
ghost use Rattle.cap_rules_steps.specs.cap_goal_spec.Environments.{bind_open as name_bound};
ghost use Rattle.cap_rules_steps.specs.cap_rules.Making.{match_reading as reading_matched};
ghost use Rattle.cap_rules_steps.specs.cap_rules.Making.{match_slot as slot_matched};
ghost use Rattle.cap_rules_steps.specs.cap_rules.Making.{match_slots as slots_matched};
ghost use Rattle.cap_prog.specs.declared.assertion.Slot.TheVariants.{Is};
ghost use Rattle.cap_rules_steps.specs.Walks.{Claims, giving};
ghost use Rattle.cap_take_holdings.specs.Seen.{slots_view, lent_terms, reading_view};

use cap_goal::Env;
use cap_lin::{Op, Row, Sort, Term};
use cap_prog::Slot;
use cap_rules_steps::{Ledger, RuleError, is_determined, prove_that, value_by};
use std::alloc::{AllocError, Global};

/// What an environment makes of a slot of an assertion.
#[derive(Clone, Copy)]
pub enum Reading<'a> {
    /// A term whose names are all bound.
    Settled(&'a Term),
    /// One unbound name; `_` has none.
    OpenTo(Option<u32>),
    /// Another term with an unbound name.
    Stuck,
}

/// The variable that the term is, alone. It takes no memory.
pub fn lone_name(term: &Term) -> Option<u32>
    ensures { result ≡ lone_variable term.now }
{
    if term.constant_part() != 0 {
        return None;
    }
    match term.parts() {
        [part] => { if part.1 == 1 { Some(part.0) } else { None } }
        _ => None,
    }
}

/// What the environment makes of a term that stands as a slot. It takes no memory.
pub fn read_term<'a>(env: &Env, term: &'a Term) -> Reading<'a>
    ensures { reading_view result ≡ slot_reading env.now (Is term.now) }
{
    if is_determined(env, term) {
        return Reading::Settled(term);
    }
    match lone_name(term) {
        None => Reading::Stuck,
        Some(name) => Reading::OpenTo(Some(name)),
    }
}

/// What the environment makes of a slot. It takes no memory.
pub fn read_slot<'a>(env: &Env, slot: &'a Slot) -> Reading<'a>
    ensures { reading_view result ≡ slot_reading env.now slot.now }
{
    match slot {
        Slot::Any => Reading::OpenTo(None),
        Slot::Is(term) => read_term(env, term),
    }
}

// Binds a name to a term. Nothing changes where there is no such name.
fn bind(alloc: Global, env: &mut Env, name: u32, term: &Term) -> Result<(), AllocError>
    ensures { IfOk result (λ _. env.new ≡ with_name env.old name term.now) }
{
    let name = name as usize;
    if name < env.terms.len() {
        env.terms[name] = Some(term.copy(alloc)?);
    }
    Ok(())
}

/// Binds the name of an open slot, if it has one, to a term. Nothing changes where the environment
/// has no such name.
pub fn bind_open(
    alloc: Global,
    env: &mut Env,
    name: Option<u32>,
    term: &Term,
) -> Result<(), AllocError>
    ensures { IfOk result (λ _. env.new ≡ name_bound env.old name term.now) }
{
    match name {
        None => Ok(()),
        Some(name) => bind(alloc, env, name, term),
    }
}

// Claims that what a term of an assertion stands for equals a term.
fn prove_value(
    alloc: Global,
    ledger: &mut Ledger,
    rows: &[Row],
    env: &Env,
    pattern: &Term,
    term: &Term,
) -> Result<(), RuleError>
    ensures { Claims (giving result env.now) ledger.old ledger.new
        (reading_matched rows.now env.now term.now (settled pattern.now)) }
{
    let value = value_by(alloc, env, pattern)?;
    prove_that(alloc, ledger, rows, &value, Op::Eq, term, Sort::Int)?;
    Ok(())
}

// What an environment makes of a slot, against a term.
fn match_reading(
    alloc: Global,
    ledger: &mut Ledger,
    rows: &[Row],
    env: &mut Env,
    reading: Reading<'_>,
    term: &Term,
) -> Result<(), RuleError>
    ensures { Claims (giving result env.new) ledger.old ledger.new
        (reading_matched rows.now env.old term.now (reading_view reading.entry)) }
{
    match reading {
        Reading::Settled(pattern) => prove_value(alloc, ledger, rows, env, pattern, term),
        Reading::OpenTo(name) => {
            bind_open(alloc, env, name, term)?;
            Ok(())
        }
        Reading::Stuck => Err(RuleError::NotApplicable),
    }
}

/// A term that stands as a slot, against a term: what it stands for is claimed to equal the term,
/// or the name that it is gets bound.
pub fn match_term(
    alloc: Global,
    ledger: &mut Ledger,
    rows: &[Row],
    env: &mut Env,
    pattern: &Term,
    term: &Term,
) -> Result<(), RuleError>
    ensures { Claims (giving result env.new) ledger.old ledger.new
        (slot_matched rows.now env.old (Is pattern.now) term.now) }
{
    let reading = read_term(env, pattern);
    match_reading(alloc, ledger, rows, env, reading, term)
}

/// A slot against a term: what it stands for is claimed to equal the term, or its name is bound.
pub fn match_slot(
    alloc: Global,
    ledger: &mut Ledger,
    rows: &[Row],
    env: &mut Env,
    slot: &Slot,
    term: &Term,
) -> Result<(), RuleError>
    ensures { Claims (giving result env.new) ledger.old ledger.new
        (slot_matched rows.now env.old slot.now term.now) }
{
    let reading = read_slot(env, slot);
    match_reading(alloc, ledger, rows, env, reading, term)
}

/// Slots against terms, one after the other; there have to be as many of either.
pub fn match_slots(
    alloc: Global,
    ledger: &mut Ledger,
    rows: &[Row],
    env: &mut Env,
    slots: &[&Slot],
    terms: &[&Term],
) -> Result<(), RuleError>
    ensures { Claims (giving result env.new) ledger.old ledger.new
        (slots_matched rows.now env.old (slots_view slots.now) (lent_terms terms.now)) }
{
    for place in 0..slots.len() {
        if place >= terms.len() {
            return Err(RuleError::NotApplicable);
        }
        match_slot(alloc, ledger, rows, env, slots[place], terms[place])?;
    }
    if slots.len() < terms.len() {
        return Err(RuleError::NotApplicable);
    }
    Ok(())
}
