//! Pieces of guards.
ghost use Rattle.std.specs.Prelude.{◌≡◌, ◌<◌, IfOk, length, slice_set};
ghost use Rattle.cap_prog.specs.Views.{program_view};
ghost use Rattle.cap_gsolve.specs.Merge.{merged as all_merged, place};
ghost use Rattle.cap_rules_steps.specs.cap_rules.Making.{with_piece as piece_added};
ghost use Rattle.cap_rules_steps.specs.cap_rules.Making.{with_pieces as pieces_added};
ghost use Rattle.cap_rules_steps.specs.Walks.{Makes, giving};
ghost use Rattle.cap_take_holdings.specs.Holdings.{with_merged, with_last_piece};

use cap_goal::{LONGEST_LIST, State};
use cap_gsolve::{Piece, merge};
use cap_prog::Program;
use cap_rules_steps::{RuleError, region_at, with_rows};
use std::alloc::{AllocError, Global};

// The place of the piece with which this one becomes one.
fn place_of(pieces: &[Piece], piece: &Piece) -> Option<usize>
    ensures { result ≡ place pieces.now piece.now }
{
    let joined = piece.form.is_joined();
    pieces
        .iter()
        .position(|there| there.is_part_of(piece) && joined)
}

// Replaces the piece of a place. A place past 32 bits counts as want of memory.
fn put_piece(state: &mut State, place: usize, piece: Piece) -> Result<(), AllocError>
    requires { place < length state.old.guards }
    ensures { IfOk result (λ _. state.new
        ≡ record state.old { guards = slice_set state.old.guards place piece }) }
{
    match u32::try_from(place) {
        Ok(number) => state.put_guards(number, piece),
        Err(_) => {
            drop(piece);
            Err(AllocError)
        }
    }
}

// Appends a piece.
fn push_piece(state: &mut State, piece: Piece) -> Result<(), RuleError>
    ensures { Makes (giving result state.new) (with_last_piece state.old piece) }
{
    if state.guards().len() >= LONGEST_LIST {
        return Err(RuleError::NotApplicable);
    }
    state.add_guards(piece)?;
    Ok(())
}

// The pieces become these, with a new one composed in.
fn put_merged(
    alloc: Global,
    state: &mut State,
    merged: &[Piece],
    piece: &Piece,
) -> Result<(), RuleError>
    requires { merged.now ≡ all_merged state.old.guards piece.now }
    ensures { Makes (giving result state.new) (with_merged state.old piece.now) }
{
    match place_of(state.guards(), piece) {
        None => push_piece(state, piece.copy(alloc)?),
        Some(place) => {
            put_piece(state, place, merged[place].copy(alloc)?)?;
            Ok(())
        }
    }
}

/// Composes a piece of guards with those that are there, and adds the rows that then hold.
pub fn with_piece(
    alloc: Global,
    program: &Program,
    state: &mut State,
    piece: &Piece,
) -> Result<(), RuleError>
    ensures { Makes (giving result state.new)
        (piece_added (program_view program.now) state.old piece.now) }
{
    let region = region_at(program, piece.kind)?;
    let (merged, rows) = merge(alloc, &region.algebra, state.guards(), piece)?;
    put_merged(alloc, state, &merged, piece)?;
    with_rows(alloc, state, &rows)
}

/// Composes pieces of guards with those that are there, one after the other.
pub fn with_pieces(
    alloc: Global,
    program: &Program,
    state: &mut State,
    pieces: &[Piece],
) -> Result<(), RuleError>
    ensures { Makes (giving result state.new)
        (pieces_added (program_view program.now) state.old pieces.now) }
{
    for piece in pieces {
        with_piece(alloc, program, state, piece)?;
    }
    Ok(())
}
