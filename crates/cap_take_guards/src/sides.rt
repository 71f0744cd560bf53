//! All of one side of a sum, as pieces.
ghost use Rattle.std.specs.Prelude.{◌≡◌, IfOk, map};
ghost use Rattle.cap_rules.specs.Taking.{side_pieces as pieces_of_side};
ghost use Rattle.cap_gsolve.specs.Pieces.{full_pieces as all_pieces};
ghost use Rattle.cap_take_guards.specs.Sums.{side_view};
ghost use Rattle.cap_take_guards.specs.Full.{moved as moved_piece};

use crate::sums::Side;
use cap_gsolve::{Piece, full_pieces};
use cap_lin::Term;
use std::alloc::{AllocError, Global};

// The same piece so many atoms further. An atom past 32 bits counts as want of memory.
fn moved(alloc: Global, piece: &Piece, atoms: u32) -> Result<Piece, AllocError>
    ensures { IfOk result (λ q. q ≡ moved_piece atoms piece.now) }
{
    match piece.atom.checked_add(atoms) {
        None => Err(AllocError),
        Some(atom) => Ok(Piece {
            region: piece.region.copy(alloc)?,
            kind: piece.kind,
            atom,
            form: piece.form.copy(alloc)?,
        }),
    }
}

// The full pieces of a side, as if its first atom had number 0.
fn full_of(
    alloc: Global,
    side: Side<'_>,
    region: &Term,
    kind: u32,
) -> Result<Vec<Piece>, AllocError>
    ensures { IfOk result (λ ps. ps.items
        ≡ all_pieces (side_view side.entry).algebra region.now kind) }
{
    match full_pieces(alloc, side.algebra, region, kind) {
        Ok(pieces) => Ok(pieces),
        Err(_) => Err(AllocError),
    }
}

// Pieces so many atoms further.
fn all_moved(alloc: Global, pieces: &[Piece], atoms: u32) -> Result<Vec<Piece>, AllocError>
    ensures { IfOk result (λ ps. ps.items ≡ map (moved_piece atoms) pieces.now) }
{
    let mut further = Vec::with_capacity(alloc, pieces.len())?;
    for piece in pieces {
        further.push(moved(alloc, piece, atoms)?)?;
    }
    Ok(further)
}

/// The full pieces of a side of a sum.
pub(crate) fn side_pieces(
    alloc: Global,
    side: Side<'_>,
    region: &Term,
    kind: u32,
) -> Result<Vec<Piece>, AllocError>
    ensures { IfOk result (λ ps. ps.items
        ≡ pieces_of_side (side_view side.entry) region.now kind) }
{
    let all = full_of(alloc, side, region, kind)?;
    all_moved(alloc, &all, side.atom)
}
