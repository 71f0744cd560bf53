//! What has to hold for a candidate, or a state, to stay under an action of others.
ghost use Rattle.std.specs.Prelude.{◌≡◌, ◌≤◌, [], ◌∷◌, length};
ghost use Rattle.cap_prog.specs.Views.{action_view, region_view};
ghost use Rattle.cap_goal_spec.specs.States.{longest_list};
ghost use Rattle.cap_goal_spec.specs.Candidates.{later_state as later_of};
ghost use Rattle.cap_rules.specs.Resting.{prove_at as proved_at, prove_closed as proved_closed};
ghost use Rattle.cap_rules.specs.Resting.{prove_stable as proved_stable, action_names as names_of};
ghost use Rattle.cap_rules.specs.Resting.{prove_same as proved_same, prove_kept as proved_kept};
ghost use Rattle.cap_rules_steps.specs.Walks.{Claims, giving};
ghost use Rattle.cap_stab_states.specs.Asking.{rows_seen};
ghost use Rattle.cap_stab_states.specs.Proving.{proved_one, stable_for, kept_for};

use crate::naming::action_names;
use crate::system::system;
use cap_goal::{Fact, State};
use cap_lin::{Op, Row, Sort, Term};
use cap_prog::{Action, RegionType};
use cap_rules_steps::{Ledger, RuleError, prove, prove_that, value_over};
use std::alloc::Global;

// Claims that the rows prove a candidate, with this term for the later state.
#[tactic(auto, using(cap_rules_steps::proofs::Walking::claiming))]
fn prove_one(
    alloc: Global,
    ledger: &mut Ledger,
    state: &State,
    rows: &[Row],
    term: &Term,
    candidate: &Row,
) -> Result<(), RuleError>
    requires { length state.now.sorts ≤ longest_list }
    ensures { Claims (giving result tt) ledger.old ledger.new
        (proved_one state.now rows.now term.now candidate.now) }
{
    let later = state.sorts().len() as u32;
    let replaced = candidate.term.subst(alloc, later, term)?;
    let row = Row {
        term: replaced,
        kind: candidate.kind,
        sort: candidate.sort,
    };
    prove(alloc, ledger, rows, &row)
}

/// Claims, one candidate after the other, that the rows prove it, with this term for the later
/// state. A candidate's row has the state's next fresh variable for the later state. `Wide` comes
/// where a row with the term in it, or a negation of it, leaves 128 bits; what was claimed before
/// stays in the ledger. No other failure comes but want of memory.
pub fn prove_at(
    alloc: Global,
    ledger: &mut Ledger,
    state: &State,
    rows: &[Row],
    term: &Term,
    named: &[Row],
) -> Result<(), RuleError>
    requires { length state.now.sorts ≤ longest_list }
    ensures { Claims (giving result tt) ledger.old ledger.new
        (proved_at state.now rows.now term.now named.now) }
{
    for candidate in named {
        prove_one(alloc, ledger, state, rows, term, candidate)?;
    }
    Ok(())
}

// Claims that the candidates hold after an action from a system; its target is made only where
// there is a candidate.
#[tactic(auto, using(cap_rules_steps::proofs::Walking::claiming))]
fn prove_closed(
    alloc: Global,
    ledger: &mut Ledger,
    state: &State,
    named: &[Row],
    action: &Action,
    names: &[Term],
    rows: &Option<Vec<Row>>,
) -> Result<(), RuleError>
    requires { length state.now.sorts ≤ longest_list }
    ensures { Claims (giving result tt) ledger.old ledger.new (proved_closed state.now named.now
        (action_view action.now) names.now (rows_seen rows.now)) }
{
    match named {
        [] => Ok(()),
        [_, ..] => match rows {
            None => Ok(()),
            Some(rows) => {
                let target = value_over(alloc, names, &action.target)?;
                prove_at(alloc, ledger, state, rows, &target, named)
            }
        },
    }
}

// Claims that the candidates hold after an action.
fn prove_stable_for(
    alloc: Global,
    ledger: &mut Ledger,
    region: &RegionType,
    state: &State,
    fact: &Fact,
    later: &Term,
    named: &[Row],
    action: &Action,
) -> Result<(), RuleError>
    requires room { length state.now.sorts ≤ longest_list }
    requires later { later.now ≡ later_of state.now }
    ensures { Claims (giving result tt) ledger.old ledger.new (stable_for (region_view region.now)
        state.now fact.now named.now (action_view action.now)) }
{
    let names = action_names(alloc, region, state, fact, action)?;
    let rows = system(
        alloc,
        region,
        state,
        fact,
        later,
        named,
        action,
        &names.terms,
        &names.starts,
    )?;
    prove_closed(alloc, ledger, state, named, action, &names.terms, &rows)
}

/// Claims that the candidates stay true under each action of the region type, in order: where
/// others take the action at a later state of which the candidates hold, its rows prove each
/// candidate of the action's target. Nothing is claimed of an action whose guards nobody else can
/// hold. `later` is the state's next fresh variable. `Wide` comes where a result leaves 128 bits;
/// what was claimed before stays in the ledger. No other failure comes but want of memory.
pub fn prove_stable(
    alloc: Global,
    ledger: &mut Ledger,
    region: &RegionType,
    state: &State,
    fact: &Fact,
    later: &Term,
    named: &[Row],
) -> Result<(), RuleError>
    requires room { length state.now.sorts ≤ longest_list }
    requires later { later.now ≡ later_of state.now }
    ensures { Claims (giving result tt) ledger.old ledger.new (proved_stable
        (region_view region.now) state.now fact.now named.now (region_view region.now).actions) }
{
    for action in &region.actions {
        prove_stable_for(alloc, ledger, region, state, fact, later, named, action)?;
    }
    Ok(())
}

// Claims that the state is the same after an action from a system.
#[tactic(auto, using(cap_rules_steps::proofs::Walking::claiming))]
fn prove_same(
    alloc: Global,
    ledger: &mut Ledger,
    fact: &Fact,
    action: &Action,
    names: &[Term],
    rows: &Option<Vec<Row>>,
) -> Result<(), RuleError>
    ensures { Claims (giving result tt) ledger.old ledger.new
        (proved_same fact.now (action_view action.now) names.now (rows_seen rows.now)) }
{
    match rows {
        None => Ok(()),
        Some(rows) => {
            let target = value_over(alloc, names, &action.target)?;
            prove_that(alloc, ledger, rows, &target, Op::Eq, &fact.state, Sort::Int)
        }
    }
}

// Claims that the state is the same after an action.
fn prove_kept_for(
    alloc: Global,
    ledger: &mut Ledger,
    region: &RegionType,
    state: &State,
    fact: &Fact,
    later: &Term,
    same: &Row,
    known: &[Row],
    action: &Action,
) -> Result<(), RuleError>
    requires room { length state.now.sorts ≤ longest_list }
    requires later { later.now ≡ later_of state.now }
    requires known { known.now ≡ same.now ∷ [] }
    ensures { Claims (giving result tt) ledger.old ledger.new (kept_for (region_view region.now)
        state.now fact.now same.now (action_view action.now)) }
{
    let names = action_names(alloc, region, state, fact, action)?;
    let rows = system(
        alloc,
        region,
        state,
        fact,
        later,
        known,
        action,
        &names.terms,
        &names.starts,
    )?;
    prove_same(alloc, ledger, fact, action, &names.terms, &rows)
}

/// Claims that the fact's state is the same after each action of the region type, in order: where
/// others take the action at this state, its rows prove that the action's target is the state.
/// Nothing is claimed of an action whose guards nobody else can hold. `later` is the state's next
/// fresh variable, `same` the row that it is the fact's state, and `known` has this row alone.
/// `Wide` comes where a result leaves 128 bits; what was claimed before stays in the ledger. No
/// other failure comes but want of memory.
pub fn prove_kept(
    alloc: Global,
    ledger: &mut Ledger,
    region: &RegionType,
    state: &State,
    fact: &Fact,
    later: &Term,
    same: &Row,
    known: &[Row],
) -> Result<(), RuleError>
    requires room { length state.now.sorts ≤ longest_list }
    requires later { later.now ≡ later_of state.now }
    requires known { known.now ≡ same.now ∷ [] }
    ensures { Claims (giving result tt) ledger.old ledger.new (proved_kept
        (region_view region.now) state.now fact.now same.now (region_view region.now).actions) }
{
    for action in &region.actions {
        prove_kept_for(
            alloc, ledger, region, state, fact, later, same, known, action,
        )?;
    }
    Ok(())
}
