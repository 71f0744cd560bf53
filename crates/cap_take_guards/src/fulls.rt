//! Full pieces that go.
ghost use Rattle.std.specs.Prelude.{◌≡◌, ◌<◌, IfOk, OnOk, length, position, remove};
ghost use Rattle.cap_rules.specs.Attempts.{found};
ghost use Rattle.cap_rules.specs.Taking.{prove_full as full_proved, without_full as all_gone};
ghost use Rattle.cap_rules.specs.Taking.{has_end as ends, may_be_full as full_perhaps};
ghost use Rattle.cap_rules_steps.specs.Walks.{Makes, Claims, giving};
ghost use Rattle.cap_take_guards.specs.Full.{without_one};

use cap_goal::State;
use cap_gsolve::{Form, Piece};
use cap_lin::{Op, Row, Sort, Term};
use cap_rules_steps::{Ledger, RuleError, prove_that};
use std::alloc::{AllocError, Global};

// Whether a form is of indices below an end.
fn has_end(form: &Form) -> bool
    ensures { result ≡ ends form.now }
{
    match form {
        Form::Span(_, Some(_)) => true,
        Form::Span(_, None) => false,
        Form::One => false,
        Form::Share(_) => false,
        Form::Src(_) => false,
        Form::Tok(_) => false,
    }
}

// Whether a piece that is there may be this full one.
fn may_be_full(full: &Piece, there: &Piece) -> bool
    ensures { result ≡ full_perhaps full.now there.now }
{
    there.is_part_of(full) && !has_end(&there.form)
}

// The place of the first piece that may be this full one, if there is one.
fn place_of(pieces: &[Piece], full: &Piece) -> Option<usize>
    ensures { result ≡ position (full_perhaps full.now) pieces.now }
{
    pieces.iter().position(|there| may_be_full(full, there))
}

// Claims that a form is all of its guard. Tokens never are, nor are indices below an end.
fn prove_full(
    alloc: Global,
    ledger: &mut Ledger,
    rows: &[Row],
    form: &Form,
) -> Result<(), RuleError>
    ensures { Claims (giving result tt) ledger.old ledger.new (full_proved rows.now form.now) }
{
    match form {
        Form::One => Ok(()),
        Form::Share(amount) => {
            let one = Term::constant(alloc, 1);
            prove_that(alloc, ledger, rows, amount, Op::Eq, &one, Sort::Perm)
        }
        Form::Src(count) => {
            let zero = Term::constant(alloc, 0);
            prove_that(alloc, ledger, rows, count, Op::Eq, &zero, Sort::Int)
        }
        Form::Span(start, end) => match end {
            None => {
                let first = Term::constant(alloc, 0);
                prove_that(alloc, ledger, rows, start, Op::Eq, &first, Sort::Int)
            }
            Some(_) => Err(RuleError::NotApplicable),
        },
        Form::Tok(_) => Err(RuleError::NotApplicable),
    }
}

// Removes the piece of a place. A place past 32 bits counts as want of memory.
fn remove_piece(state: &mut State, place: usize) -> Result<(), AllocError>
    requires { place < length state.old.guards }
    ensures { IfOk result (λ _. state.new
        ≡ record state.old { guards = remove state.old.guards place }) }
{
    match u32::try_from(place) {
        Ok(number) => state.cut_guards(number),
        Err(_) => Err(AllocError),
    }
}

// A full piece goes, which is claimed to be all of its guard.
fn without_piece(
    alloc: Global,
    ledger: &mut Ledger,
    state: &mut State,
    full: &Piece,
) -> Result<(), RuleError>
    ensures claims { Claims (giving result state.new.guards) ledger.old ledger.new
        (without_one state.old.rows state.old.guards full.now) }
    ensures kept { OnOk result (state.new
        ≡ record state.old { guards = state.new.guards }) }
{
    match place_of(state.guards(), full) {
        None => Err(RuleError::NotApplicable),
        Some(place) => {
            prove_full(alloc, ledger, state.rows(), &state.guards()[place].form)?;
            Ok(remove_piece(state, place)?)
        }
    }
}

/// These full pieces go, each of which is claimed to be all of its guard.
pub(crate) fn without_full(
    alloc: Global,
    ledger: &mut Ledger,
    state: &mut State,
    fulls: &[Piece],
) -> Result<(), RuleError>
    ensures claims { Claims (giving result state.new.guards) ledger.old ledger.new
        (all_gone state.old.rows state.old.guards fulls.now) }
    ensures kept { OnOk result (state.new
        ≡ record state.old { guards = state.new.guards }) }
{
    for full in fulls {
        without_piece(alloc, ledger, state, full)?;
    }
    Ok(())
}
