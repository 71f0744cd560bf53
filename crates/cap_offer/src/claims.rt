//! Whether a cell has a wanted address.
ghost use Rattle.std.specs.Prelude.{◌≡◌, [], IfOk};
ghost use Rattle.std.specs.Option.{option_copied};
ghost use Rattle.cap_prog.specs.Views.{act_view};
ghost use Rattle.cap_rules.specs.Closing.{address_of as address_in};
ghost use Rattle.cap_rules.specs.Making.{env_at as env_of, determined};
ghost use Rattle.cap_rules_steps.specs.Walks.{Makes, Claims, giving};
ghost use Rattle.cap_offer_spec.specs.Claims.{has_address as address_claim};
ghost use Rattle.cap_offer_spec.specs.Claims.{has_item_address as item_address_claim};
ghost use Rattle.cap_offer_spec.specs.Deciding.{succeeds as is_proved};
ghost use Rattle.cap_closure_decide.specs.Noting.{Adds};
ghost use Rattle.cap_offer.specs.Claiming.{value_claim};
ghost use Rattle.cap_offer.specs.Seeking.{sought_address};
ghost use Rattle.cap_offer.specs.Views.{sought_view};

use crate::scanning::Sought;
use cap_closure_decide::{Notes, certified};
use cap_goal::{Env, State};
use cap_lin::Term;
use cap_prog::Act;
use cap_rules_steps::{Ledger, RuleError, determined, prove_equal, value_here};
use std::alloc::{AllocError, Global};

// The address of a heap statement.
fn address_of(act: &Act) -> Option<&Term>
    ensures { option_copied result ≡ address_in (act_view act.now) }
{
    match act {
        Act::Read(_, address) => Some(address),
        Act::Write(address, _) => Some(address),
        Act::Cas(_, address, _, _) => Some(address),
        Act::Faa(_, address, _) => Some(address),
        Act::Dispose(address) => Some(address),
        Act::Set(_, _)
        | Act::Alloc(_, _)
        | Act::Call(_, _, _)
        | Act::Fork(_, _)
        | Act::If(_, _, _)
        | Act::While(_, _, _)
        | Act::Assert(_)
        | Act::Return(_) => None,
    }
}

// Claims that the cell has this address, a term of a statement.
fn has_value(
    alloc: Global,
    ledger: &mut Ledger,
    state: &State,
    address: &Term,
    cell: &(Term, Term),
) -> Result<(), RuleError>
    ensures { Claims (giving result tt) ledger.old ledger.new
        (value_claim state.now address.now cell.now) }
{
    let value = value_here(alloc, state, address)?;
    prove_equal(alloc, ledger, state, &cell.0, &value)
}

// Claims that the cell has the address of a heap statement.
fn has_address(
    alloc: Global,
    ledger: &mut Ledger,
    state: &State,
    act: &Act,
    cell: &(Term, Term),
) -> Result<(), RuleError>
    ensures { Claims (giving result tt) ledger.old ledger.new
        (address_claim state.now (act_view act.now) cell.now) }
{
    match address_of(act) {
        None => Err(RuleError::NotApplicable),
        Some(address) => has_value(alloc, ledger, state, address, cell),
    }
}

/// The environment of a number, or none of its names past the end.
pub(crate) fn env_at<'a>(state: &'a State, number: u32, none: &'a Env) -> &'a Env
    requires { none.now ≡ [] }
    ensures { result.now ≡ env_of state.now number }
{
    let number = number as usize;
    if number < state.envs().len() {
        &state.envs()[number]
    } else {
        none
    }
}

// What a term stands for, where the environment of a number binds each of its names.
fn value_at(alloc: Global, state: &State, env: u32, term: &Term) -> Result<Term, RuleError>
    ensures { Makes result (determined (env_of state.now env) term.now) }
{
    let none = Env {
        terms: Vec::new(alloc),
    };
    determined(alloc, env_at(state, env, &none), term)
}

// Claims that the cell has the address of an item, by the number of its environment.
fn has_item_address(
    alloc: Global,
    ledger: &mut Ledger,
    state: &State,
    env: u32,
    address: &Term,
    cell: &(Term, Term),
) -> Result<(), RuleError>
    ensures { Claims (giving result tt) ledger.old ledger.new
        (item_address_claim state.now env address.now cell.now) }
{
    let value = value_at(alloc, state, env, address)?;
    prove_equal(alloc, ledger, state, &value, &cell.0)
}

// Claims that the cell has the address that is sought.
fn claim(
    alloc: Global,
    ledger: &mut Ledger,
    state: &State,
    sought: Sought<'_>,
    cell: &(Term, Term),
) -> Result<(), RuleError>
    ensures { Claims (giving result tt) ledger.old ledger.new
        (sought_address state.now (sought_view sought.entry) cell.now) }
{
    match sought {
        Sought::Act(act) => has_address(alloc, ledger, state, act, cell),
        Sought::Item(env, address) => has_item_address(alloc, ledger, state, env, address, cell),
    }
}

/// Whether it is proved that the cell has the address that is sought.
pub(crate) fn has_sought_address(
    alloc: Global,
    state: &State,
    sought: Sought<'_>,
    cell: &(Term, Term),
    notes: &mut Notes,
) -> Result<bool, AllocError>
    ensures { IfOk result (λ b. Adds notes.old notes.new b
        (is_proved (sought_address state.now (sought_view sought.entry) cell.now))) }
{
    let mut ledger = Ledger::new(alloc);
    let outcome = claim(alloc, &mut ledger, state, sought, cell);
    let certs = certified(alloc, outcome, ledger, notes)?;
    Ok(certs.is_some())
}
