//! What of a state of a region stays, whatever others do.

ghost use Rattle.std.specs.Prelude.{◌≡◌, length, IfOk};

use cap_closure::{Closure, closure_of};
use cap_closure_decide::Notes;
use cap_galg::Algebra;
use cap_goal::{Fact, State};
use cap_lin::{LinError, Sort, Term};
use cap_prog::{Action, Asked, Name, RegionType};
use cap_syntax::Place;
use std::alloc::{AllocError, Global};
use std::test::Fail;

// G : 0 ~> 1
fn raising(alloc: Global, place: Place) -> Result<Action, AllocError> {
    let mut guards = Vec::new(alloc);
    guards.push((0, Asked::One))?;
    Ok(Action {
        names: Vec::new(alloc),
        guards,
        source: Term::constant(alloc, 0),
        target: Term::constant(alloc, 1),
        when: Vec::new(alloc),
        place,
    })
}

// region R(r) { guards G; interpretation { } actions { G : 0 ~> 1; } }
fn raised_region(alloc: Global) -> Result<RegionType, AllocError> {
    let place = Place { line: 1, column: 1 };
    let mut atoms = Vec::new(alloc);
    atoms.push(Name::from_slice(alloc, b"G")?)?;
    let mut actions = Vec::new(alloc);
    actions.push(raising(alloc, place)?)?;
    Ok(RegionType {
        name: Name::from_slice(alloc, b"R")?,
        params: 1,
        algebra: Algebra::Unique,
        atoms,
        cases: Vec::new(alloc),
        actions,
        place,
    })
}

// That a region is in this state.
fn in_state(alloc: Global, state: i128) -> Result<Fact, LinError> {
    Ok(Fact {
        region: Term::var(alloc, 0)?,
        kind: 0,
        args: Vec::new(alloc),
        state: Term::constant(alloc, state),
        loose: false,
    })
}

// A state of one region.
fn one_region(alloc: Global, state: i128) -> Result<State, LinError>
    ensures sorts { IfOk result (λ s. length s.sorts ≡ 1) }
    ensures facts { IfOk result (λ s. length s.facts ≡ 1) }
{
    let fact = in_state(alloc, state)?;
    let mut all = State::new(alloc)?;
    all.add_sorts(Sort::Int)?;
    all.add_facts(fact)?;
    Ok(all)
}

// What stays of the region in a state.
fn found_at(alloc: Global, number: i128, notes: &mut Notes) -> Result<Closure, Fail> {
    let region = raised_region(alloc)?;
    let state = one_region(alloc, number)?;
    let fact = in_state(alloc, number)?;
    Ok(closure_of(alloc, &region, &state, 0, &fact, notes)?)
}

// How many certificates there are that the state stays.
fn kept(closure: &Closure) -> Option<usize> {
    match closure {
        Closure::Keeps(certs) => Some(certs.len()),
        Closure::Settles(_, _) => None,
    }
}

// The numbers of the candidates that stay, and how many certificates there are of it.
fn settled(closure: &Closure) -> Option<(&[u32], usize)> {
    match closure {
        Closure::Settles(list, Some(certs)) => Some((list.as_slice(), certs.len())),
        Closure::Settles(_, None) | Closure::Keeps(_) => None,
    }
}

// From state 2 nothing is done, since the action is at 0. An equality has two certificates.
#[test]
fn keeps_a_state_that_no_action_leaves(rt: HostRuntime) -> Result<(), Fail> {
    let mut notes = Notes::new();
    let found = found_at(rt.alloc(), 2, &mut notes)?;
    assert_eq!(rt; kept(&found), Some(2));
    assert!(rt; notes.wide().is_none() && !notes.rows());
    Ok(())
}

// From state 0 others may go to 1. The candidates of the later state u are u = 0, 0 <= u, u <= 0,
// 1 <= u and u <= 1, the last two by the action's target. Of the present state the second, third
// and last hold, and the third leaves after one round. Each that stays holds now and after the
// action.
#[test]
fn settles_a_state_that_others_may_raise(rt: HostRuntime) -> Result<(), Fail> {
    let mut notes = Notes::new();
    let found = found_at(rt.alloc(), 0, &mut notes)?;
    assert!(rt; settled(&found) == Some(([1, 4].as_slice(), 4)));
    assert!(rt; notes.wide().is_none() && !notes.rows());
    Ok(())
}
