//! Rounds, in which the candidates leave that are not proved after each action of others.
ghost use Rattle.std.specs.Prelude.{◌≡◌, ◌≤◌, ◌<◌, length, vec_len, IfOk};
ghost use Rattle.cap_prog.specs.Views.{region_view};
ghost use Rattle.cap_goal_spec.specs.States.{longest_list};
ghost use Rattle.cap_goal_spec.specs.Candidates.{later_state as later_of};
ghost use Rattle.cap_offer_spec.specs.Closures.{rows_of as rows_in, survives as survival};
ghost use Rattle.cap_offer_spec.specs.Closures.{surviving as survivors, rounds as rounds_of};
ghost use Rattle.cap_closure_decide.specs.Noting.{Adds};
ghost use Rattle.cap_closure.specs.Asking.{AreAsked};
ghost use Rattle.cap_closure.specs.Views.{list_view};

use crate::asking::{Asked, asked_of};
use crate::starting::Listed;
use crate::testing::keeps_after;
use cap_closure_decide::Notes;
use cap_goal::{Fact, State};
use cap_lin::{Row, Term};
use cap_prog::RegionType;
use std::alloc::{AllocError, Global};

fn rows_of(alloc: Global, list: &[Listed]) -> Result<Vec<Row>, AllocError>
    ensures { IfOk result (λ rows. rows.items ≡ rows_in (list_view list.now)) }
{
    let mut rows = Vec::with_capacity(alloc, list.len())?;
    for listed in list {
        rows.push(listed.row.copy(alloc)?)?;
    }
    Ok(rows)
}

// What is asked of the action of a place, if it is the first that hasn't been asked.
fn ask_next(
    alloc: Global,
    region: &RegionType,
    state: &State,
    fact: &Fact,
    later: &Term,
    known: &[Row],
    place: usize,
    asked: &mut Vec<Asked>,
) -> Result<(), AllocError>
    requires room { length state.now.sorts ≤ longest_list }
    requires later { later.now ≡ later_of state.now }
    requires place { place < vec_len region.now.actions }
    requires first { place ≤ length asked.old.items }
    requires asked { AreAsked (region_view region.now) state.now fact.now known.now
        asked.old.items }
    ensures asked { IfOk result (λ _. AreAsked (region_view region.now) state.now fact.now
        known.now asked.new.items) }
    ensures there { IfOk result (λ _. place < length asked.new.items) }
{
    if place == asked.len() {
        let action = &region.actions[place];
        let next = asked_of(alloc, region, state, fact, later, known, action)?;
        asked.push(next)?;
    }
    Ok(())
}

// Whether a candidate's row is proved after each action of the region, where these rows are known
// before it; up to the first after which it isn't. What was asked of the first actions is lent, and
// more is asked where it is needed.
#[tactic(auto, unfolding(cap_offer_spec::specs::Closures::survives))]
fn survives(
    alloc: Global,
    region: &RegionType,
    state: &State,
    fact: &Fact,
    later: &Term,
    known: &[Row],
    asked: &mut Vec<Asked>,
    row: &Row,
    notes: &mut Notes,
) -> Result<bool, AllocError>
    requires room { length state.now.sorts ≤ longest_list }
    requires later { later.now ≡ later_of state.now }
    requires asked { AreAsked (region_view region.now) state.now fact.now known.now
        asked.old.items }
    ensures asked { IfOk result (λ _. AreAsked (region_view region.now) state.now fact.now
        known.now asked.new.items) }
    ensures survives { IfOk result (λ yes. Adds notes.old notes.new yes (survival
        (region_view region.now) state.now fact.now known.now row.now
        (region_view region.now).actions)) }
{
    for place in 0..region.actions.len() {
        ask_next(alloc, region, state, fact, later, known, place, asked)?;
        let action = &region.actions[place];
        if !keeps_after(alloc, state, action, &mut asked[place], row, notes)? {
            return Ok(false);
        }
    }
    Ok(true)
}

// The candidates that survive, where these rows are known before each action.
#[tactic(auto, unfolding(cap_offer_spec::specs::Closures::surviving))]
fn surviving(
    alloc: Global,
    region: &RegionType,
    state: &State,
    fact: &Fact,
    later: &Term,
    known: &[Row],
    list: Vec<Listed>,
    notes: &mut Notes,
) -> Result<Vec<Listed>, AllocError>
    requires room { length state.now.sorts ≤ longest_list }
    requires later { later.now ≡ later_of state.now }
    ensures { IfOk result (λ rest. Adds notes.old notes.new (list_view rest.items) (survivors
        (region_view region.now) state.now fact.now known.now (list_view list.items))) }
{
    let mut asked = Vec::new(alloc);
    let mut rest = Vec::new(alloc);
    for listed in list {
        if survives(
            alloc,
            region,
            state,
            fact,
            later,
            known,
            &mut asked,
            &listed.row,
            notes,
        )? {
            rest.push(listed)?;
        } else {
            drop(listed);
        }
    }
    Ok(rest)
}

// One round: those that survive by the rows of the whole list.
fn round(
    alloc: Global,
    region: &RegionType,
    state: &State,
    fact: &Fact,
    later: &Term,
    list: Vec<Listed>,
    notes: &mut Notes,
) -> Result<Vec<Listed>, AllocError>
    requires room { length state.now.sorts ≤ longest_list }
    requires later { later.now ≡ later_of state.now }
    ensures { IfOk result (λ rest. Adds notes.old notes.new (list_view rest.items) (survivors
        (region_view region.now) state.now fact.now (rows_in (list_view list.items))
        (list_view list.items))) }
{
    let known = rows_of(alloc, &list)?;
    surviving(alloc, region, state, fact, later, &known, list, notes)
}

/// The candidates that the rounds leave. There are no more rounds than candidates, since each but
/// the last takes one out.
#[tactic(auto, unfolding(cap_offer_spec::specs::Closures::rounds))]
pub fn rounds(
    alloc: Global,
    region: &RegionType,
    state: &State,
    fact: &Fact,
    later: &Term,
    list: Vec<Listed>,
    notes: &mut Notes,
) -> Result<Vec<Listed>, AllocError>
    requires room { length state.now.sorts ≤ longest_list }
    requires later { later.now ≡ later_of state.now }
    ensures { IfOk result (λ rest. Adds notes.old notes.new (list_view rest.items) (rounds_of
        (region_view region.now) state.now fact.now (length list.items) (list_view list.items))) }
{
    let mut list = list;
    for _turn in 0..list.len() {
        let before = list.len();
        list = round(alloc, region, state, fact, later, list, notes)?;
        if list.len() == before {
            return Ok(list);
        }
    }
    Ok(list)
}
