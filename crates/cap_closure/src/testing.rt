//! Tests of a candidate: whether it is proved with the present state, and whether it is proved
//! after an action of others.
ghost use Rattle.std.specs.Prelude.{◌≡◌, ◌≤◌, List, [], ◌∷◌, length, Some, IfOk};
ghost use Rattle.cap_lin.specs.Exact.{IsExact};
ghost use Rattle.cap_lin.specs.Linear.{replaced as replaced_term};
ghost use Rattle.cap_lin.specs.Steps.{replaced_steps};
ghost use Rattle.cap_prog.specs.Program.{PlainRegionType};
ghost use Rattle.cap_prog.specs.Views.{action_view};
ghost use Rattle.cap_goal_spec.specs.States.{PlainFact, longest_list};
ghost use Rattle.cap_rules.specs.Resting.{prove_at, prove_closed as closed_claims};
ghost use Rattle.cap_offer_spec.specs.Claims.{keeps_after as kept_after};
ghost use Rattle.cap_offer_spec.specs.Deciding.{succeeds};
ghost use Rattle.cap_closure_decide.specs.Noting.{Adds};
ghost use Rattle.cap_closure.specs.Asking.{asked_view, IsAsked};

use crate::asking::Asked;
use cap_closure_decide::{Notes, proves};
use cap_goal::{Fact, State};
use cap_lin::{LinError, Row, Term};
use cap_prog::Action;
use cap_rules_steps::{RuleError, value_over};
use std::alloc::{AllocError, Global};

// The row with this term in the place of a variable.
fn replaced(alloc: Global, row: &Row, variable: u32, term: &Term) -> Result<Row, LinError>
    ensures { IsExact result (replaced_steps variable term.now row.now.term)
        (record (row.now) { term = replaced_term variable term.now row.now.term }) }
{
    Ok(Row {
        term: row.term.subst(alloc, variable, term)?,
        kind: row.kind,
        sort: row.sort,
    })
}

/// Whether the rows prove a candidate's row with this term for the later state. The rows are as
/// before, but for want of memory.
pub fn proves_at(
    alloc: Global,
    state: &State,
    rows: &mut Vec<Row>,
    term: &Term,
    row: &Row,
    notes: &mut Notes,
) -> Result<bool, AllocError>
    requires { length state.now.sorts ≤ longest_list }
    ensures rows { IfOk result (λ _. rows.new.items ≡ rows.old.items) }
    ensures proves { IfOk result (λ yes. Adds notes.old notes.new yes
        (succeeds (prove_at state.now rows.old.items term.now (row.now ∷ [])))) }
{
    match replaced(alloc, row, state.sorts().len() as u32, term) {
        Ok(row) => proves(alloc, rows, &row, notes),
        Err(error) => {
            notes.note_failure(RuleError::from(error))?;
            Ok(false)
        }
    }
}

// Whether the rows of an action's system prove a candidate's row with the action's target for the
// later state. The rows are as before, but for want of memory.
fn proves_at_target(
    alloc: Global,
    state: &State,
    rows: &mut Vec<Row>,
    action: &Action,
    names: &[Term],
    row: &Row,
    notes: &mut Notes,
) -> Result<bool, AllocError>
    requires { length state.now.sorts ≤ longest_list }
    ensures rows { IfOk result (λ _. rows.new.items ≡ rows.old.items) }
    ensures proves { IfOk result (λ yes. Adds notes.old notes.new yes (succeeds (closed_claims
        state.now (row.now ∷ []) (action_view action.now) names.now (Some rows.old.items)))) }
{
    match value_over(alloc, names, &action.target) {
        Ok(target) => proves_at(alloc, state, rows, &target, row, notes),
        Err(error) => {
            notes.note_failure(RuleError::from(error))?;
            Ok(false)
        }
    }
}

/// Whether a candidate's row is proved after an action of others, by what is asked of the action;
/// also where nobody else can hold the action's guards. What is asked is as before, but for want of
/// memory.
pub fn keeps_after(
    alloc: Global,
    state: &State,
    action: &Action,
    asked: &mut Asked,
    row: &Row,
    notes: &mut Notes,
) -> Result<bool, AllocError>
    requires { length state.now.sorts ≤ longest_list }
    ensures same { IfOk result (λ _. asked_view asked.new ≡ asked_view asked.old) }
    ensures keeps { (k : PlainRegionType) (f : PlainFact) (known : List Row) →
        IsAsked k state.now f known (action_view action.now) (asked_view asked.old) →
        IfOk result (λ yes. Adds notes.old notes.new yes (succeeds (kept_after k state.now f known
        (action_view action.now) (row.now ∷ [])))) }
{
    match asked.others {
        Ok(true) => {
            proves_at_target(
                alloc,
                state,
                &mut asked.rows,
                action,
                &asked.names,
                row,
                notes,
            )
        }
        Ok(false) => Ok(true),
        Err(error) => {
            notes.note_failure(error)?;
            Ok(false)
        }
    }
}
