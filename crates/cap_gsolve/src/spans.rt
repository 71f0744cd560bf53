//! Rows about spans of indices beside others of their atom.
ghost use Rattle.std.specs.Prelude.{◌≡◌};
ghost use Rattle.cap_gsolve.specs.Made.{IsMade, Pushes};
ghost use Rattle.cap_gsolve.specs.Pieces.{piece};
ghost use Rattle.cap_gsolve.specs.Merge.{parted_rows, parted_steps, beside};
ghost use Rattle.cap_gsolve.specs.Compat.{off_rows, off_steps, wanted_beside, wanted_beside_steps};

use crate::piece::{Form, Piece, has_one, has_some};
use crate::rows::{push_false, push_row};
use cap_lin::{LinError, Op, Row, Sort, Term};
use std::alloc::Global;

// What holds of a new span and one of its atom that is there.
fn push_parted(alloc: Global, rows: &mut Vec<Row>, there: &Form, new: &Form) -> Result<(), LinError>
    ensures { IsMade result (parted_steps there.now new.now)
        (λ _. Pushes rows.old rows.new (parted_rows there.now new.now)) }
{
    match there {
        Form::One | Form::Share(_) | Form::Src(_) | Form::Tok(_) => Ok(()),
        Form::Span(start, end) => match new {
            Form::One | Form::Share(_) | Form::Src(_) | Form::Tok(_) => Ok(()),
            Form::Span(first, last) => match end {
                None => match last {
                    None => push_false(alloc, rows),
                    Some(last_index) => {
                        if has_some(first, last) {
                            push_row(alloc, rows, last_index, Op::Le, start, Sort::Int)
                        } else {
                            Ok(())
                        }
                    }
                },
                Some(end_index) => match last {
                    None => {
                        if has_some(start, end) {
                            push_row(alloc, rows, end_index, Op::Le, first, Sort::Int)
                        } else {
                            Ok(())
                        }
                    }
                    Some(_) => {
                        if has_one(start, end) && has_one(first, last) {
                            push_row(alloc, rows, start, Op::Ne, first, Sort::Int)
                        } else {
                            Ok(())
                        }
                    }
                },
            },
        },
    }
}

/// What holds of a new span and each of its atom that is there, in order.
pub fn push_all_parted(
    alloc: Global,
    rows: &mut Vec<Row>,
    pieces: &[Piece],
    piece: &Piece,
) -> Result<(), LinError>
    ensures { IsMade result (beside parted_steps pieces.now piece.now)
        (λ _. Pushes rows.old rows.new (beside parted_rows pieces.now piece.now)) }
{
    for there in pieces {
        if there.is_part_of(piece) {
            push_parted(alloc, rows, &there.form, &piece.form)?;
        }
    }
    Ok(())
}

// Where a wanted index composes with a span of its atom that is there.
fn push_off(
    alloc: Global,
    rows: &mut Vec<Row>,
    start: &Term,
    end: &Option<Term>,
    index: &Term,
) -> Result<(), LinError>
    ensures { IsMade result (off_steps start.now end.now index.now)
        (λ _. Pushes rows.old rows.new (off_rows start.now end.now index.now)) }
{
    match end {
        None => {
            let one = Term::constant(alloc, 1);
            let last = start.minus(alloc, &one)?;
            push_row(alloc, rows, index, Op::Le, &last, Sort::Int)
        }
        Some(_) => {
            if has_one(start, end) {
                push_row(alloc, rows, index, Op::Ne, start, Sort::Int)
            } else {
                Ok(())
            }
        }
    }
}

fn push_wanted(
    alloc: Global,
    rows: &mut Vec<Row>,
    there: &Form,
    wanted: &Form,
) -> Result<(), LinError>
    ensures { IsMade result (wanted_beside_steps there.now wanted.now)
        (λ _. Pushes rows.old rows.new (wanted_beside there.now wanted.now)) }
{
    match there {
        Form::One | Form::Share(_) | Form::Src(_) | Form::Tok(_) => Ok(()),
        Form::Span(start, end) => match wanted {
            Form::One | Form::Share(_) | Form::Src(_) | Form::Tok(_) => Ok(()),
            Form::Span(index, last) => {
                if has_one(index, last) {
                    push_off(alloc, rows, start, end, index)
                } else {
                    Ok(())
                }
            }
        },
    }
}

/// Where a wanted index composes with each span of its atom that is there, in order.
pub fn push_all_wanted(
    alloc: Global,
    rows: &mut Vec<Row>,
    pieces: &[Piece],
    region: &Term,
    kind: u32,
    atom: u32,
    wanted: &Form,
) -> Result<(), LinError>
    ensures { let p = piece region.now kind atom wanted.now in
        IsMade result (beside wanted_beside_steps pieces.now p)
        (λ _. Pushes rows.old rows.new (beside wanted_beside pieces.now p)) }
{
    for there in pieces {
        if there.is_of_atom(region, kind, atom) {
            push_wanted(alloc, rows, &there.form, wanted)?;
        }
    }
    Ok(())
}
