//! Guards that are given up.
ghost use Rattle.std.specs.Prelude.{◌≡◌, ◌<◌, ◌≤◌, ◌⊎◌, [], ◌∷◌, IfOk, length, slice_get};
ghost use Rattle.cap_goal_spec.specs.Environments.{term_of as term_in_env};
ghost use Rattle.cap_goal_spec.specs.States.{longest_list};
ghost use Rattle.cap_rules.specs.Attempts.{found, need};
ghost use Rattle.cap_rules.specs.Making.{env_at};
ghost use Rattle.cap_rules.specs.Rules.{at_guard, at_no_tokens, at_piece};
ghost use Rattle.cap_rules.specs.Taking.{after_cut};
ghost use Rattle.cap_prog.specs.declared.assertion.Asked.TheVariants as asked_as;
ghost use Rattle.cap_rules_steps.specs.Goals.{goals_view};
ghost use Rattle.cap_rules_steps.specs.Walks.{Makes, Claims, giving, seen};
ghost use Rattle.cap_take_items.specs.Views.{remaining_view};
ghost use Rattle.cap_take_guards.specs.Views.{cut_view, left_view, piece_lent, term_lent};
ghost use Rattle.cap_take_guards.specs.Cuts.{is_of_part, with_left as left_there};

use crate::cuts::{Cut, Left};
use crate::forms::cut_form;
use cap_goal::{Env, Goal, State};
use cap_gsolve::{Form, Piece};
use cap_lin::Term;
use cap_prog::{Asked, Slot};
use cap_rules_steps::{Ledger, RuleError, prove_equal, term_of, with_env_at};
use cap_take_holdings::{copy_env, determined_slot_at};
use cap_take_items::{Remaining, goes};
use std::alloc::{AllocError, Global};

// A piece, where there is one of this number.
fn piece_at(state: &State, number: u32) -> Result<&Piece, RuleError>
    ensures { Makes (seen piece_lent result) (found (slice_get state.now.guards number)) }
{
    if number as usize >= state.guards().len() {
        return Err(RuleError::NotApplicable);
    }
    Ok(&state.guards()[number as usize])
}

// Whether a piece is of an atom of guards of a type.
fn is_of_atom(piece: &Piece, kind: u32, atom: u32) -> bool
    ensures { result ≡ is_of_part piece.now kind atom }
{
    piece.kind == kind && piece.atom == atom
}

// The rule applies only where this holds.
fn needed(holds: bool) -> Result<(), RuleError>
    ensures { Makes (giving result tt) (need holds) }
{
    if holds {
        Ok(())
    } else {
        Err(RuleError::NotApplicable)
    }
}

/// The term of a name, where it is bound.
pub(crate) fn bound_term(env: &Env, name: u32) -> Result<&Term, RuleError>
    ensures { Makes (seen term_lent result) (found (term_in_env env.now name)) }
{
    match term_of(env, name) {
        None => Err(RuleError::NotApplicable),
        Some(term) => Ok(term),
    }
}

// The same piece in another form.
fn with_form(alloc: Global, piece: &Piece, form: Form) -> Result<Piece, AllocError>
    ensures { IfOk result (λ q. q ≡ record piece.now { form = form }) }
{
    Ok(Piece {
        region: piece.region.copy(alloc)?,
        kind: piece.kind,
        atom: piece.atom,
        form,
    })
}

// Two forms stay of the piece of a number.
fn put_both(
    alloc: Global,
    state: &mut State,
    number: u32,
    piece: &Piece,
    front: Form,
    behind: Form,
) -> Result<(), AllocError>
    requires there { number < length state.old.guards }
    requires room { length state.old.guards < longest_list }
    ensures { IfOk result (λ _. state.new
        ≡ left_there state.old number piece.now (front ∷ (behind ∷ []))) }
{
    let first = with_form(alloc, piece, front)?;
    let second = with_form(alloc, piece, behind)?;
    state.put_guards(number, first)?;
    let next = number + 1;
    state.insert_guards(next, second)
}

// This stays of the piece of a number.
fn with_left(
    alloc: Global,
    state: &mut State,
    number: u32,
    piece: &Piece,
    left: Left,
) -> Result<(), AllocError>
    requires there { number < length state.old.guards }
    requires room { length (left_view left) ≤ 1 ⊎ length state.old.guards < longest_list }
    ensures { IfOk result (λ _. state.new
        ≡ left_there state.old number piece.now (left_view left)) }
{
    match left {
        Left::Nothing => state.cut_guards(number),
        Left::One(form) => state.put_guards(number, with_form(alloc, piece, form)?),
        Left::Both(front, behind) => put_both(alloc, state, number, piece, front, behind),
    }
}

// The state after a cut of the piece of a number, by the environment of another number.
fn state_after(
    alloc: Global,
    env: u32,
    number: u32,
    piece: &Piece,
    cut: Cut,
) -> Result<State, AllocError>
    requires there { number < length cut.state.guards }
    requires room { length (left_view cut.left) ≤ 1 ⊎ length cut.state.guards < longest_list }
    ensures { IfOk result (λ s. s ≡ after_cut env number piece.now (cut_view cut)) }
{
    let mut next = cut.state;
    with_left(alloc, &mut next, number, piece, cut.left)?;
    with_env_at(&mut next, env, cut.env)?;
    Ok(next)
}

// No tokens are given up, out of nothing.
fn no_tokens<'t, 'a>(
    alloc: Global,
    ledger: &mut Ledger,
    state: &State,
    number: u32,
    slot: &Slot,
    rest: &Remaining<'t, 'a>,
) -> Result<Vec<Goal<'a>>, RuleError>
    ensures { Claims (seen goals_view result) ledger.old ledger.new
        (at_no_tokens state.now number slot.now (remaining_view rest.now)) }
{
    needed(number == 0)?;
    let count = determined_slot_at(alloc, state, rest.env, slot)?;
    let zero = Term::constant(alloc, 0);
    prove_equal(alloc, ledger, state, &count, &zero)?;
    let next = state.copy()?;
    Ok(goes(alloc, next, rest)?)
}

// A guard is taken out of a piece of its atom, whose region is claimed to be the guard's.
fn piece<'t, 'a>(
    alloc: Global,
    ledger: &mut Ledger,
    state: &State,
    number: u32,
    way: u32,
    region: u32,
    kind: u32,
    atom: u32,
    asked: &Asked,
    rest: &Remaining<'t, 'a>,
) -> Result<Vec<Goal<'a>>, RuleError>
    ensures { Claims (seen goals_view result) ledger.old ledger.new (at_piece state.now number way
        region kind atom asked.now (remaining_view rest.now)) }
{
    let there = piece_at(state, number)?;
    needed(is_of_atom(there, kind, atom))?;
    let names = copy_env(alloc, state, rest.env)?;
    let named = bound_term(&names, region)?;
    prove_equal(alloc, ledger, state, &there.region, named)?;
    let cut = cut_form(alloc, ledger, state, &names, asked, &there.form, way)?;
    let next = state_after(alloc, rest.env, number, there, cut)?;
    Ok(goes(alloc, next, rest)?)
}

// Tokens are given up: by way 2 none, and by the others out of a piece.
fn tokens<'t, 'a>(
    alloc: Global,
    ledger: &mut Ledger,
    state: &State,
    number: u32,
    way: u32,
    region: u32,
    kind: u32,
    atom: u32,
    asked: &Asked,
    slot: &Slot,
    rest: &Remaining<'t, 'a>,
) -> Result<Vec<Goal<'a>>, RuleError>
    requires { asked.now ≡ asked_as.Tok slot.now }
    ensures { Claims (seen goals_view result) ledger.old ledger.new (at_guard state.now number way
        region kind atom asked.now (remaining_view rest.now)) }
{
    if way == 2 {
        no_tokens(alloc, ledger, state, number, slot, rest)
    } else {
        piece(
            alloc, ledger, state, number, way, region, kind, atom, asked, rest,
        )
    }
}

/// A guard is given up: by way 0 all of the piece of a number goes, by way 1 a part of it, and by
/// way 2 tokens go that are claimed to be none. Where a piece is taken, its region is claimed to be
/// that of the guard. `NotApplicable` comes where there is no such piece of the guard's atom, where
/// the guard's region or another name that is needed is unbound, where what is asked can't be taken
/// out of the piece so, and where a list of the state is full; `Wide` where a result leaves 128
/// bits before that.
pub fn guard<'t, 'a>(
    alloc: Global,
    ledger: &mut Ledger,
    state: &State,
    number: u32,
    way: u32,
    region: u32,
    kind: u32,
    atom: u32,
    asked: &Asked,
    rest: &Remaining<'t, 'a>,
) -> Result<Vec<Goal<'a>>, RuleError>
    ensures { Claims (seen goals_view result) ledger.old ledger.new (at_guard state.now number way
        region kind atom asked.now (remaining_view rest.now)) }
{
    match asked {
        Asked::Tok(slot) => tokens(
            alloc, ledger, state, number, way, region, kind, atom, asked, slot, rest,
        ),
        Asked::One => piece(
            alloc, ledger, state, number, way, region, kind, atom, asked, rest,
        ),
        Asked::Share(_) => piece(
            alloc, ledger, state, number, way, region, kind, atom, asked, rest,
        ),
        Asked::Src(_) => piece(
            alloc, ledger, state, number, way, region, kind, atom, asked, rest,
        ),
        Asked::At(_) => piece(
            alloc, ledger, state, number, way, region, kind, atom, asked, rest,
        ),
        Asked::From(_) => piece(
            alloc, ledger, state, number, way, region, kind, atom, asked, rest,
        ),
    }
}
