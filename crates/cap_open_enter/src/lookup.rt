//! Parts of a state by their numbers, and the address of a statement.
ghost use Rattle.std.specs.Prelude.{◌≡◌, slice_get, option_copied};
ghost use Rattle.cap_prog.specs.Views.{act_view};
ghost use Rattle.cap_rules_steps.specs.cap_rules.Attempts.{found};
ghost use Rattle.cap_rules_steps.specs.cap_rules.Closing.{address_of};
ghost use Rattle.cap_rules_steps.specs.Walks.{Makes, seen};
ghost use Rattle.cap_open_enter.specs.Views.{fact_lent, cell_lent, term_lent};

use cap_goal::Fact;
use cap_lin::Term;
use cap_prog::Act;
use cap_rules_steps::RuleError;

// The address of a statement that works on a cell; no other one has one.
fn address_in(act: &Act) -> Option<&Term>
    ensures { option_copied result ≡ address_of (act_view act.now) }
{
    match act {
        Act::Read(_, address) => Some(address),
        Act::Write(address, _) => Some(address),
        Act::Cas(_, address, _, _) => Some(address),
        Act::Faa(_, address, _) => Some(address),
        Act::Dispose(address) => Some(address),
        Act::Set(_, _)
        | Act::Call(_, _, _)
        | Act::Alloc(_, _)
        | Act::Fork(_, _)
        | Act::If(_, _, _)
        | Act::While(_, _, _)
        | Act::Assert(_)
        | Act::Return(_) => None,
    }
}

/// The address of a statement that works on a cell. `NotApplicable` comes at any other statement.
/// It takes no memory.
pub fn heap_address(act: &Act) -> Result<&Term, RuleError>
    ensures { Makes (seen term_lent result) (found (address_of (act_view act.now))) }
{
    match address_in(act) {
        None => Err(RuleError::NotApplicable),
        Some(address) => Ok(address),
    }
}

/// A fact, where there is one of this number, from 0; otherwise `NotApplicable`. It takes no
/// memory.
pub fn fact_at(facts: &[Fact], number: u32) -> Result<&Fact, RuleError>
    ensures { Makes (seen fact_lent result) (found (slice_get facts.now number)) }
{
    if number as usize >= facts.len() {
        return Err(RuleError::NotApplicable);
    }
    Ok(&facts[number as usize])
}

/// A cell, with its address and its content, where there is one of this number, from 0; otherwise
/// `NotApplicable`. It takes no memory.
pub fn cell_at(cells: &[(Term, Term)], number: u32) -> Result<&(Term, Term), RuleError>
    ensures { Makes (seen cell_lent result) (found (slice_get cells.now number)) }
{
    if number as usize >= cells.len() {
        return Err(RuleError::NotApplicable);
    }
    Ok(&cells[number as usize])
}
