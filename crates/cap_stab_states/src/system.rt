//! The rows that hold where others take an action.
ghost use Rattle.std.specs.Prelude.{◌≡◌, ◌∷◌, ◌++◌, length, option_map, IfOk};
ghost use Rattle.cap_prog.specs.Views.{action_view, region_view};
ghost use Rattle.cap_goal_spec.specs.Candidates.{later_state as later_of};
ghost use Rattle.cap_rules.specs.Resting.{first_names, joined_rows, system as system_of};
ghost use Rattle.cap_rules_steps.specs.Walks.{Makes, seen};
ghost use Rattle.cap_stab_states.specs.Asking.{starts_of, rows_seen};

use crate::wanting::{rows_over, wanted};
use cap_goal::{Fact, State};
use cap_gsolve::compat;
use cap_lin::{Op, Row, Sort, Term};
use cap_prog::{Action, RegionType};
use cap_rules_steps::{RuleError, value_over};
use std::alloc::{AllocError, Global};

// Appends copies of rows.
fn push_copies(alloc: Global, rows: &mut Vec<Row>, more: &[Row]) -> Result<(), AllocError>
    ensures { IfOk result (λ _. rows.new.items ≡ rows.old.items ++ more.now) }
{
    for row in more {
        rows.push(row.copy(alloc)?)?;
    }
    Ok(())
}

// The rows of a state, what is known of its later state, and then these rows, where there are any.
fn joined(
    alloc: Global,
    rows: &[Row],
    known: &[Row],
    same: &Row,
    conditions: &[Row],
    compatible: Option<Vec<Row>>,
) -> Result<Option<Vec<Row>>, AllocError>
    ensures { IfOk result (λ o. rows_seen o ≡ joined_rows
        (rows.now ++ (known.now ++ same.now ∷ conditions.now)) (rows_seen compatible)) }
{
    match compatible {
        None => Ok(None),
        Some(more) => {
            let mut all = Vec::new(alloc);
            push_copies(alloc, &mut all, rows)?;
            push_copies(alloc, &mut all, known)?;
            all.push(same.copy(alloc)?)?;
            push_copies(alloc, &mut all, conditions)?;
            push_copies(alloc, &mut all, &more)?;
            Ok(Some(all))
        }
    }
}

/// What holds where others take the action at the later state, of which these rows hold, by terms
/// for the action's names and variables for its wildcards: the state's rows, these rows, that the
/// action's source is the later state, the action's conditions, and what lets its guards stand
/// beside those that are held. None where nobody else can hold its guards. `later` is the state's
/// next fresh variable, and `wildcards` are the variables that `action_names` gives. `Wide` comes
/// where a result leaves 128 bits, and no other failure but want of memory.
pub fn system(
    alloc: Global,
    region: &RegionType,
    state: &State,
    fact: &Fact,
    later: &Term,
    known: &[Row],
    action: &Action,
    names: &[Term],
    wildcards: &[u32],
) -> Result<Option<Vec<Row>>, RuleError>
    requires later { later.now ≡ later_of state.now }
    requires wildcards { wildcards.now
        ≡ starts_of (first_names state.now fact.now) (action_view action.now).guards }
    ensures { Makes (seen rows_seen result) (system_of (region_view region.now) state.now fact.now
        known.now (action_view action.now) names.now) }
{
    let source = value_over(alloc, names, &action.source)?;
    let same = Row::of(alloc, &source, Op::Eq, later, Sort::Int)?;
    let conditions = rows_over(alloc, names, &action.when)?;
    let wanted = wanted(alloc, names, wildcards, &action.guards)?;
    let compatible = compat(
        alloc,
        &region.algebra,
        state.guards(),
        &fact.region,
        fact.kind,
        &wanted,
    )?;
    let all = joined(alloc, state.rows(), known, &same, &conditions, compatible)?;
    Ok(all)
}
