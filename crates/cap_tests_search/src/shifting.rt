//! The pieces that an offered move names for its indexed atoms.

use cap_goal::{Choice, Env, Fact, Goal, LONGEST_LIST, State, Task};
use cap_gsolve::{Form, Piece};
use cap_lin::{LinError, Sort, Term};
use cap_offer::{Offers, offered};
use cap_top_reading::read_program;
use std::alloc::{AllocError, Global};
use std::test::Fail;

// Both actions raise the state by one, the first with the index that it has, the second with all
// indices of another guard from there on as well.
const DRAWS: &str = "caper 2; region Draws(r) { guards [N] * [M]; interpretation { n : true; }
actions { at N[n] : n ~> n + 1; at N[n] * from M[n] : n ~> n + 1; } }
function main() { }";

// Indices of a guard, by its number: from a start on, and below an end where there is one.
#[derive(Clone, Copy)]
struct Held {
    atom: u32,
    start: i128,
    end: Option<i128>,
}

fn below(atom: u32, start: i128, end: i128) -> Held {
    Held {
        atom,
        start,
        end: Some(end),
    }
}

fn onwards(atom: u32, start: i128) -> Held {
    Held {
        atom,
        start,
        end: None,
    }
}

fn end_of(alloc: Global, held: &Held) -> Option<Term> {
    match held.end {
        Some(end) => Some(Term::constant(alloc, end)),
        None => None,
    }
}

fn piece(alloc: Global, held: &Held) -> Result<Piece, LinError> {
    let form = Form::Span(Term::constant(alloc, held.start), end_of(alloc, held));
    Ok(Piece {
        region: Term::var(alloc, 0)?,
        kind: 0,
        atom: held.atom,
        form,
    })
}

// The region in state 5.
fn in_five(alloc: Global) -> Result<Fact, LinError> {
    Ok(Fact {
        region: Term::var(alloc, 0)?,
        kind: 0,
        args: Vec::new(alloc),
        state: Term::constant(alloc, 5),
        loose: false,
    })
}

// The names of the case: the region, and its new state.
fn names(alloc: Global, state: i128) -> Result<Env, LinError> {
    let mut terms = Vec::new(alloc);
    terms.push(Some(Term::var(alloc, 0)?))?;
    terms.push(Some(Term::constant(alloc, state)))?;
    Ok(Env { terms })
}

// Adds a piece that was held before.
fn hold(alloc: Global, state: &mut State, held: &Held) -> Result<(), LinError> {
    let piece = piece(alloc, held)?;
    if state.before().len() < LONGEST_LIST {
        state.add_before(piece)?;
    }
    Ok(())
}

// The region is opened in state 5, and these pieces were held before.
fn opened_with(alloc: Global, new: i128, held: &[Held]) -> Result<State, LinError> {
    let mut state = State::new(alloc)?;
    state.add_sorts(Sort::Int)?;
    state.add_opened(in_five(alloc)?)?;
    state.add_envs(names(alloc, new)?)?;
    for one in held {
        hold(alloc, &mut state, one)?;
    }
    Ok(state)
}

// What is offered where the region is closed in a new state by a move.
fn offers_by(alloc: Global, by: u32, new: i128, held: &[Held]) -> Result<Offers, Fail> {
    let program = read_program(alloc, DRAWS.as_bytes())?;
    let state = opened_with(alloc, new, held)?;
    if !state.has_room() {
        Err("a state without room")?;
    }
    let mut tasks = Vec::new(alloc);
    tasks.push(Task::Shift(0, 0, by, 0, 0))?;
    let goal = Goal { state, tasks };
    Ok(offered(alloc, &program, &goal)?)
}

// The pieces that the one offered move names, and how many certificates it has.
fn named(offers: &Offers) -> Option<(&[u32], usize)> {
    match offers.choices.as_slice() {
        [Choice::Shift(certs, spans)] => Some((spans.as_slice(), certs.len())),
        _ => None,
    }
}

// That the target is the new state has two certificates, and that a piece with an end has the index
// another two. Index 5 is not in the first two pieces, and in both of the others.
#[test]
fn a_move_names_the_first_piece_with_its_index(rt: HostRuntime) -> Result<(), Fail> {
    let alloc = rt.alloc();
    let held = [onwards(0, 6), below(0, 2, 5), below(0, 4, 6), onwards(0, 5)];
    let offers = offers_by(alloc, 1, 6, &held)?;
    let third: &[u32] = &[2];
    assert_eq!(rt; named(&offers), Some((third, 4)));
    assert!(rt; offers.notes.wide().is_none() && !offers.notes.rows());
    Ok(())
}

// No piece has index 5: one begins behind it, one ends before it, and one is of another guard.
#[test]
fn a_move_needs_a_piece_with_its_index(rt: HostRuntime) -> Result<(), Fail> {
    let held = [onwards(0, 6), below(0, 2, 5), onwards(1, 0)];
    let offers = offers_by(rt.alloc(), 1, 6, &held)?;
    assert_eq!(rt; offers.choices.len(), 0);
    Ok(())
}

// Each guard takes the first piece of its own; all indices from 5 on are in no piece with an end.
#[test]
fn each_guard_names_a_piece_of_its_own(rt: HostRuntime) -> Result<(), Fail> {
    let alloc = rt.alloc();
    let held = [below(1, 0, 9), below(0, 5, 6), onwards(1, 3)];
    let offers = offers_by(alloc, 2, 6, &held)?;
    let two: &[u32] = &[1, 2];
    assert_eq!(rt; named(&offers), Some((two, 5)));
    Ok(())
}

// The first guard's piece is there, and the second one's isn't.
#[test]
fn each_guard_needs_a_piece(rt: HostRuntime) -> Result<(), Fail> {
    let held = [below(0, 5, 6), below(1, 5, 6)];
    let offers = offers_by(rt.alloc(), 2, 6, &held)?;
    assert_eq!(rt; offers.choices.len(), 0);
    Ok(())
}

// The state stays, and no piece is named.
#[test]
fn no_piece_is_named_where_the_state_stays(rt: HostRuntime) -> Result<(), Fail> {
    let alloc = rt.alloc();
    let offers = offers_by(alloc, 0, 5, &[onwards(0, 5)])?;
    let none: &[u32] = &[];
    assert_eq!(rt; named(&offers), Some((none, 2)));
    Ok(())
}

// The least number less 5 leaves 128 bits. That is noted, and the piece is passed over.
#[test]
fn a_piece_past_128_bits_is_passed_over(rt: HostRuntime) -> Result<(), Fail> {
    let alloc = rt.alloc();
    let held = [onwards(0, i128::MIN), below(0, 5, 6)];
    let offers = offers_by(alloc, 1, 6, &held)?;
    let second: &[u32] = &[1];
    assert_eq!(rt; named(&offers), Some((second, 4)));
    assert_eq!(rt; offers.notes.wide(), Some((i128::MIN, -5)));
    Ok(())
}

// The new state isn't the target: the pieces aren't looked at, and nothing is noted.
#[test]
fn no_piece_is_looked_at_before_the_target(rt: HostRuntime) -> Result<(), Fail> {
    let held = [onwards(0, i128::MIN), below(0, 5, 6)];
    let offers = offers_by(rt.alloc(), 1, 7, &held)?;
    assert_eq!(rt; offers.choices.len(), 0);
    assert!(rt; offers.notes.wide().is_none());
    Ok(())
}
