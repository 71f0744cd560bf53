//! A piece is added to those that are held.
ghost use Rattle.std.specs.Prelude.{◌≡◌, ◌++◌, ◌∷◌, [], ◌<◌, length, slice_set, IfOk, OnOk};
ghost use Rattle.cap_galg.specs.Views.{algebra_view};
ghost use Rattle.cap_gsolve.specs.Made.{IsMade, Pushes};
ghost use Rattle.cap_gsolve.specs.Meaning.{MergesTo, MergeSuffices};
ghost use Rattle.cap_gsolve.specs.Merge.{form_at, there, joined as pieces_joined, merged};
ghost use Rattle.cap_gsolve.specs.Merge.{lone_rows, combined_rows, met_rows};
ghost use Rattle.cap_gsolve.specs.Merge.{lone_steps, combined_steps, met_steps};
ghost use Rattle.cap_gsolve.specs.Merge.{clash_rows, clash_steps, merge_rows, merge_steps};

use crate::clash::clashes;
use crate::combine::combine;
use crate::piece::{Form, Piece, place_of_atom};
use crate::rows::{push_added, push_false, push_lone};
use crate::spans::push_all_parted;
use cap_galg::Algebra;
use cap_lin::{LinError, Row};
use std::alloc::{AllocError, Global};

// The pieces once more.
fn copies(alloc: Global, pieces: &[Piece]) -> Result<Vec<Piece>, AllocError>
    ensures { IfOk result (λ v. v.items ≡ pieces.now) }
{
    let mut copies = Vec::new(alloc);
    for piece in pieces {
        copies.push(piece.copy(alloc)?)?;
    }
    Ok(copies)
}

// The pieces with a new one at a place, of this form.
fn replaced(
    alloc: Global,
    pieces: &[Piece],
    place: usize,
    piece: &Piece,
    form: Form,
) -> Result<Vec<Piece>, AllocError>
    requires { place < length pieces.now }
    ensures { let piece_there = record piece.now { form = form } in
        IfOk result (λ v. v.items ≡ slice_set pieces.now place piece_there) }
{
    let mut all = copies(alloc, pieces)?;
    let region = piece.region.copy(alloc)?;
    all[place] = Piece {
        region,
        kind: piece.kind,
        atom: piece.atom,
        form,
    };
    Ok(all)
}

// The pieces and a new one, where none of its part is there.
fn appended(
    alloc: Global,
    rows: &mut Vec<Row>,
    pieces: &[Piece],
    piece: &Piece,
) -> Result<Vec<Piece>, LinError>
    ensures exact { IsMade result (lone_steps piece.now.form)
        (λ v. v.items ≡ pieces.now ++ (piece.now ∷ [])) }
    ensures rows { OnOk result (Pushes rows.old rows.new (lone_rows piece.now.form)) }
{
    push_lone(alloc, rows, &piece.form)?;
    let mut all = copies(alloc, pieces)?;
    all.push(piece.copy(alloc)?)?;
    Ok(all)
}

// The pieces with a new one joined to the one at a place.
fn joined(
    alloc: Global,
    rows: &mut Vec<Row>,
    pieces: &[Piece],
    place: usize,
    piece: &Piece,
) -> Result<Vec<Piece>, LinError>
    requires { place < length pieces.now }
    ensures exact { IsMade result
        (combined_steps (form_at pieces.now piece.now place) piece.now.form)
        (λ v. v.items ≡ pieces_joined pieces.now piece.now place) }
    ensures rows { let found = form_at pieces.now piece.now place in
        OnOk result (Pushes rows.old rows.new (combined_rows found piece.now.form)) }
{
    let form = combine(alloc, rows, &pieces[place].form, &piece.form)?;
    Ok(replaced(alloc, pieces, place, piece, form)?)
}

// The pieces with a new one, and the rows that it brings by the piece of its part.
fn met(
    alloc: Global,
    rows: &mut Vec<Row>,
    pieces: &[Piece],
    piece: &Piece,
) -> Result<Vec<Piece>, LinError>
    ensures exact { IsMade result (met_steps (there pieces.now piece.now) piece.now.form)
        (λ v. v.items ≡ merged pieces.now piece.now) }
    ensures rows { let found = there pieces.now piece.now in
        OnOk result (Pushes rows.old rows.new (met_rows found piece.now.form)) }
{
    let joins = piece.form.is_joined();
    match place_of_atom(pieces, &piece.region, piece.kind, piece.atom, joins) {
        Some(place) => joined(alloc, rows, pieces, place, piece),
        None => appended(alloc, rows, pieces, piece),
    }
}

// The row that never holds, where two pieces clash.
fn push_clash(alloc: Global, rows: &mut Vec<Row>, clash: bool) -> Result<(), LinError>
    ensures { IsMade result (clash_steps clash)
        (λ _. Pushes rows.old rows.new (clash_rows clash)) }
{
    if clash {
        push_false(alloc, rows)
    } else {
        Ok(())
    }
}

// What a merge answers, exactly.
fn composed_in(
    alloc: Global,
    algebra: &Algebra,
    pieces: &[Piece],
    piece: &Piece,
) -> Result<(Vec<Piece>, Vec<Row>), LinError>
    ensures { let a = algebra_view algebra.now in
        IsMade result (merge_steps a pieces.now piece.now) (λ r.
        (r.0.items ≡ merged pieces.now piece.now)
        × (r.1.items ≡ merge_rows a pieces.now piece.now)) }
{
    let clash = clashes(
        algebra,
        pieces,
        &piece.region,
        piece.kind,
        piece.atom,
        &piece.form,
    );
    let mut rows = Vec::new(alloc);
    push_added(alloc, &mut rows, &piece.form)?;
    let merged = met(alloc, &mut rows, pieces, piece)?;
    push_all_parted(alloc, &mut rows, pieces, piece)?;
    push_clash(alloc, &mut rows, clash)?;
    Ok((merged, rows))
}

/// The pieces with a new one composed in, and the rows that then hold: that an amount is above 0
/// and, with the share that is there, at most 1, that a count is at least 0, that tokens which come
/// back were out, that a span's start is at least 0 and at most its end, that two spans of one
/// index differ and one that surely has an index ends where one without an end starts, or before,
/// and, for two unique guards, two sources, two spans without an end, or surely some parts on two
/// sides of a sum, a row that never holds. The new piece stands in the place of the piece of its
/// part, or else, as a span always does, as the last. Wide comes where a number of the new form or
/// of a row leaves 128 bits, with the first such number's operands. Where a part of the guards
/// holds the old pieces and the new one together, it holds the merged pieces and the rows hold, if
/// the new piece and each piece of its kind has an atom of the algebra and a form that fits it.
/// Where each of the old pieces has an element and the rows hold, a part that holds the merged
/// pieces holds the old pieces and the new one together.
pub fn merge(
    alloc: Global,
    algebra: &Algebra,
    pieces: &[Piece],
    piece: &Piece,
) -> Result<(Vec<Piece>, Vec<Row>), LinError>
    ensures exact { let a = algebra_view algebra.now in
        IsMade result (merge_steps a pieces.now piece.now) (λ r.
        (r.0.items ≡ merged pieces.now piece.now)
        × (r.1.items ≡ merge_rows a pieces.now piece.now)) }
    ensures means { let a = algebra_view algebra.now in
        IfOk result (λ r. MergesTo a pieces.now piece.now r.0.items r.1.items) }
    ensures suffices { IfOk result (λ r. MergeSuffices pieces.now piece.now r.0.items r.1.items) }
{
    composed_in(alloc, algebra, pieces, piece)
}
