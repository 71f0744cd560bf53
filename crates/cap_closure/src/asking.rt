//! What is asked of the actions of others in a round, made once for all candidates.
ghost use Rattle.std.specs.Prelude.{◌≡◌, ◌≤◌, length, IfOk};
ghost use Rattle.cap_prog.specs.Views.{action_view, region_view};
ghost use Rattle.cap_goal_spec.specs.States.{longest_list};
ghost use Rattle.cap_goal_spec.specs.Candidates.{later_state as later_of};
ghost use Rattle.cap_rules_steps.specs.Walks.{seen};
ghost use Rattle.cap_stab_states.specs.Asking.{rows_seen};
ghost use Rattle.cap_closure.specs.Asking.{asked_view, IsAsked};

use cap_goal::{Fact, State};
use cap_lin::{Row, Term};
use cap_prog::{Action, RegionType};
use cap_rules_steps::RuleError;
use cap_stab_states::{action_names, action_system};
use std::alloc::{AllocError, Global};

/// The terms of an action's names, and its system.
#[derive(Drop)]
pub struct Asked {
    pub names: Vec<Term>,
    /// Whether others can hold the action's guards; or why the action has no system.
    pub others: Result<bool, RuleError>,
    /// The rows of the system, where others can hold the guards.
    pub rows: Vec<Row>,
}

/// What is asked of an action of others, where these rows are known of the later state before it.
pub fn asked_of(
    alloc: Global,
    region: &RegionType,
    state: &State,
    fact: &Fact,
    later: &Term,
    known: &[Row],
    action: &Action,
) -> Result<Asked, AllocError>
    requires room { length state.now.sorts ≤ longest_list }
    requires later { later.now ≡ later_of state.now }
    ensures { IfOk result (λ asked. IsAsked (region_view region.now) state.now fact.now known.now
        (action_view action.now) (asked_view asked)) }
{
    let names = action_names(alloc, region, state, fact, action)?;
    let rows = action_system(
        alloc,
        region,
        state,
        fact,
        later,
        known,
        action,
        &names.terms,
        &names.starts,
    );
    Ok(with_system(alloc, names.terms, rows))
}

fn with_system(alloc: Global, names: Vec<Term>, rows: Result<Option<Vec<Row>>, RuleError>) -> Asked
    ensures { asked_view result ≡ record { names = names.items; rows = seen rows_seen rows } }
{
    match rows {
        Ok(Some(rows)) => Asked {
            names,
            others: Ok(true),
            rows,
        },
        Ok(None) => Asked {
            names,
            others: Ok(false),
            rows: Vec::new(alloc),
        },
        Err(error) => Asked {
            names,
            others: Err(error),
            rows: Vec::new(alloc),
        },
    }
}
