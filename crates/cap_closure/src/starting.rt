//! The candidates that are proved with the present state.
ghost use Rattle.std.specs.Prelude.{◌≡◌, ◌≤◌, ◌+◌, length, drop, option_map, IfOk};
ghost use Rattle.cap_goal_spec.specs.States.{longest_list};
ghost use Rattle.cap_goal_spec.specs.Candidates.{known};
ghost use Rattle.cap_closure_decide.specs.Noting.{Adds};
ghost use Rattle.cap_stab_states.specs.Views.{candidate_view, candidates_view};
ghost use Rattle.cap_closure.specs.Tested.{started_one as one_started, started_from};
ghost use Rattle.cap_closure.specs.Views.{listed_of, list_view};

use crate::testing::proves_at;
use cap_closure_decide::Notes;
use cap_goal::{Fact, State};
use cap_lin::Row;
use cap_stab_states::Candidate;
use std::alloc::{AllocError, Global};

/// A candidate that is still in the list.
#[derive(Drop)]
pub struct Listed {
    pub number: u32,
    pub row: Row,
}

fn copies(alloc: Global, rows: &[Row]) -> Result<Vec<Row>, AllocError>
    ensures { IfOk result (λ all. all.items ≡ rows.now) }
{
    let mut all = Vec::with_capacity(alloc, rows.len())?;
    for row in rows {
        all.push(row.copy(alloc)?)?;
    }
    Ok(all)
}

// The number of the candidate at a place behind candidate 0. One past 32 bits counts as want of
// memory.
fn number_at(place: usize) -> Result<u32, AllocError>
    ensures { IfOk result (λ number. number ≡ place + 1) }
{
    if place >= u32::MAX as usize {
        return Err(AllocError);
    }
    Ok(place as u32 + 1)
}

fn started_row(
    alloc: Global,
    state: &State,
    rows: &mut Vec<Row>,
    fact: &Fact,
    number: u32,
    row: &Row,
    notes: &mut Notes,
) -> Result<Option<Listed>, AllocError>
    requires room { length state.now.sorts ≤ longest_list }
    requires rows { rows.old.items ≡ state.now.rows }
    ensures rows { IfOk result (λ _. rows.new.items ≡ rows.old.items) }
    ensures listed { IfOk result (λ listed. Adds notes.old notes.new
        (option_map listed_of listed)
        (one_started state.now fact.now number (known row.now))) }
{
    if proves_at(alloc, state, rows, &fact.state, row, notes)? {
        let row = row.copy(alloc)?;
        Ok(Some(Listed { number, row }))
    } else {
        Ok(None)
    }
}

// A candidate, where it is proved with the present state from the state's rows, which are lent.
fn started_one(
    alloc: Global,
    state: &State,
    rows: &mut Vec<Row>,
    fact: &Fact,
    number: u32,
    candidate: &Candidate,
    notes: &mut Notes,
) -> Result<Option<Listed>, AllocError>
    requires room { length state.now.sorts ≤ longest_list }
    requires rows { rows.old.items ≡ state.now.rows }
    ensures rows { IfOk result (λ _. rows.new.items ≡ rows.old.items) }
    ensures listed { IfOk result (λ listed. Adds notes.old notes.new
        (option_map listed_of listed)
        (one_started state.now fact.now number (candidate_view candidate.now))) }
{
    match candidate {
        Candidate::Known(row) => started_row(alloc, state, rows, fact, number, row, notes),
        Candidate::Past(first, second) => {
            notes.note_wide(*first, *second);
            Ok(None)
        }
    }
}

// Those of the candidates behind candidate 0 that are proved with the present state.
#[tactic(auto, unfolding(crate::specs::Tested::started_from))]
fn started_behind(
    alloc: Global,
    state: &State,
    fact: &Fact,
    candidates: &[Candidate],
    notes: &mut Notes,
) -> Result<Vec<Listed>, AllocError>
    requires { length state.now.sorts ≤ longest_list }
    ensures { IfOk result (λ list. Adds notes.old notes.new (list_view list.items)
        (started_from state.now fact.now 1 (candidates_view candidates.now))) }
{
    let mut rows = copies(alloc, state.rows())?;
    let mut list = Vec::new(alloc);
    for (place, candidate) in candidates.iter().enumerate() {
        let number = number_at(place)?;
        let started = started_one(alloc, state, &mut rows, fact, number, candidate, notes)?;
        if let Some(listed) = started {
            list.push(listed)?;
        }
    }
    Ok(list)
}

/// Those of the candidates, but for candidate 0, that are proved with the present state.
#[tactic(auto, unfolding(crate::specs::Tested::started_from))]
pub fn started(
    alloc: Global,
    state: &State,
    fact: &Fact,
    candidates: &[Candidate],
    notes: &mut Notes,
) -> Result<Vec<Listed>, AllocError>
    requires { length state.now.sorts ≤ longest_list }
    ensures { IfOk result (λ list. Adds notes.old notes.new (list_view list.items)
        (started_from state.now fact.now 1 (drop 1 (candidates_view candidates.now)))) }
{
    match candidates {
        [] => Ok(Vec::new(alloc)),
        [_, behind @ ..] => started_behind(alloc, state, fact, behind, notes),
    }
}
