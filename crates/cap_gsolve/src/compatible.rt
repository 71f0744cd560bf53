//! The rows by which wanted guards can be held beside the pieces that are held.
ghost use Rattle.std.specs.Prelude.{◌≡◌, option_map, Some, None, IfOk};
ghost use Rattle.cap_galg.specs.Views.{algebra_view};
ghost use Rattle.cap_gsolve.specs.declared.piece.Form.TheVariants.{Share};
ghost use Rattle.cap_gsolve.specs.Made.{IsMade, Pushes};
ghost use Rattle.cap_gsolve.specs.Pieces.{piece as made_piece};
ghost use Rattle.cap_gsolve.specs.Merge.{there};
ghost use Rattle.cap_gsolve.specs.Meaning.{CoversWanted};
ghost use Rattle.cap_gsolve.specs.Compat.{never_compose, clashes_with as some_clash_with};
ghost use Rattle.cap_gsolve.specs.Compat.{clashes_some as some_wanted_clash, meets_endless};
ghost use Rattle.cap_gsolve.specs.Compat.{are_endless as both_endless, wanted_alone};
ghost use Rattle.cap_gsolve.specs.Compat.{wanted_alone_steps};
ghost use Rattle.cap_lin.specs.Rows.{row_of, row_of_steps};
ghost use Rattle.cap_gsolve.specs.Compat.{fits_rows, one_rows, wanted_rows, compat as compat_of};
ghost use Rattle.cap_gsolve.specs.Compat.{fits_steps, one_steps, wanted_steps, compat_steps};

use crate::clash::clashes;
use crate::combine::sum_of_shares;
use crate::piece::{Form, Piece, place_of_atom};
use crate::rows::{push_added, push_row};
use crate::spans::push_all_wanted;
use cap_galg::Algebra;
use cap_lin::{LinError, Op, Row, Sort, Term};
use std::alloc::Global;

// Whether a wanted form never composes with the form of its atom that is there.
fn is_never(there: &Form, wanted: &Form) -> bool
    ensures { result ≡ never_compose (Some there.now) wanted.now }
{
    match wanted {
        Form::One => matches!(there, Form::One),
        Form::Src(_) => match there {
            Form::Src(_) => true,
            Form::One | Form::Share(_) | Form::Tok(_) | Form::Span(_, _) => false,
        },
        Form::Share(_) | Form::Tok(_) | Form::Span(_, _) => false,
    }
}

// Whether the piece of an atom and a wanted form of it never compose.
fn is_never_there(pieces: &[Piece], region: &Term, kind: u32, atom: u32, wanted: &Form) -> bool
    ensures { let found = there pieces.now (made_piece region.now kind atom wanted.now) in
        result ≡ never_compose found wanted.now }
{
    match place_of_atom(pieces, region, kind, atom, wanted.is_joined()) {
        Some(place) => is_never(&pieces[place].form, wanted),
        None => false,
    }
}

// Whether two spans have no end.
fn are_endless(there: &Form, wanted: &Form) -> bool
    ensures { result ≡ both_endless there.now wanted.now }
{
    match there {
        Form::One | Form::Share(_) | Form::Src(_) | Form::Tok(_) => false,
        Form::Span(_, Some(_)) => false,
        Form::Span(_, None) => match wanted {
            Form::One | Form::Share(_) | Form::Src(_) | Form::Tok(_) => false,
            Form::Span(_, Some(_)) => false,
            Form::Span(_, None) => true,
        },
    }
}

// Whether a wanted span without an end meets one of its atom.
fn is_endless_there(pieces: &[Piece], region: &Term, kind: u32, atom: u32, wanted: &Form) -> bool
    ensures { result ≡ meets_endless pieces.now (made_piece region.now kind atom wanted.now) }
{
    pieces.iter().any(|piece| piece.is_of_atom(region, kind, atom)
        && are_endless(&piece.form, wanted))
}

// Whether a wanted form never composes with the pieces.
fn clashes_with(
    algebra: &Algebra,
    pieces: &[Piece],
    region: &Term,
    kind: u32,
    wanted: &(u32, Form),
) -> bool
    ensures { let a = algebra_view algebra.now in
        result ≡ some_clash_with a pieces.now region.now kind wanted.now }
{
    let (atom, form) = wanted;
    is_never_there(pieces, region, kind, *atom, form)
        || (is_endless_there(pieces, region, kind, *atom, form)
            || clashes(algebra, pieces, region, kind, *atom, form))
}

// Whether some wanted form never composes with the pieces.
fn clashes_some(
    algebra: &Algebra,
    pieces: &[Piece],
    region: &Term,
    kind: u32,
    wanted: &[(u32, Form)],
) -> bool
    ensures { let a = algebra_view algebra.now in
        result ≡ some_wanted_clash a pieces.now region.now kind wanted.now }
{
    wanted
        .iter()
        .any(|one| clashes_with(algebra, pieces, region, kind, one))
}

// The row that a wanted share and the share that is there are at most 1 together.
fn push_shares(
    alloc: Global,
    rows: &mut Vec<Row>,
    wanted: &Term,
    there: &Term,
) -> Result<(), LinError>
    ensures { let held = Some (Share there.now) in
        IsMade result (fits_steps held (Share wanted.now))
        (λ _. Pushes rows.old rows.new (fits_rows held (Share wanted.now))) }
{
    sum_of_shares(alloc, rows, wanted, there)?;
    Ok(())
}

// Rows that hold where a wanted form composes, if no form of its atom is there.
fn push_alone(alloc: Global, rows: &mut Vec<Row>, wanted: &Form) -> Result<(), LinError>
    ensures { IsMade result (fits_steps None wanted.now)
        (λ _. Pushes rows.old rows.new (fits_rows None wanted.now)) }
{
    match wanted {
        Form::Share(amount) => {
            let zero = Term::constant(alloc, 0);
            push_shares(alloc, rows, amount, &zero)
        }
        Form::One => Ok(()),
        Form::Src(_) => Ok(()),
        Form::Tok(_) => Ok(()),
        Form::Span(_, _) => Ok(()),
    }
}

// Rows that hold where a wanted form composes with the form of its atom that is there.
fn push_beside(
    alloc: Global,
    rows: &mut Vec<Row>,
    there: &Form,
    wanted: &Form,
) -> Result<(), LinError>
    ensures { IsMade result (fits_steps (Some there.now) wanted.now)
        (λ _. Pushes rows.old rows.new (fits_rows (Some there.now) wanted.now)) }
{
    match wanted {
        Form::One => Ok(()),
        Form::Share(amount) => match there {
            Form::Share(held) => push_shares(alloc, rows, amount, held),
            Form::One | Form::Src(_) | Form::Tok(_) | Form::Span(_, _) => {
                push_alone(alloc, rows, wanted)
            }
        },
        Form::Src(out) => match there {
            Form::Tok(count) => push_row(alloc, rows, count, Op::Le, out, Sort::Int),
            Form::One => Ok(()),
            Form::Share(_) => Ok(()),
            Form::Src(_) => Ok(()),
            Form::Span(_, _) => Ok(()),
        },
        Form::Tok(count) => match there {
            Form::Src(out) => push_row(alloc, rows, count, Op::Le, out, Sort::Int),
            Form::One => Ok(()),
            Form::Share(_) => Ok(()),
            Form::Tok(_) => Ok(()),
            Form::Span(_, _) => Ok(()),
        },
        Form::Span(_, _) => Ok(()),
    }
}

// Rows that hold where a wanted form of an atom composes with the pieces.
fn push_fits(
    alloc: Global,
    rows: &mut Vec<Row>,
    pieces: &[Piece],
    region: &Term,
    kind: u32,
    atom: u32,
    wanted: &Form,
) -> Result<(), LinError>
    ensures { let found = there pieces.now (made_piece region.now kind atom wanted.now) in
        IsMade result (fits_steps found wanted.now)
        (λ _. Pushes rows.old rows.new (fits_rows found wanted.now)) }
{
    match place_of_atom(pieces, region, kind, atom, wanted.is_joined()) {
        Some(place) => push_beside(alloc, rows, &pieces[place].form, wanted),
        None => push_alone(alloc, rows, wanted),
    }
}

// A wanted amount is above 0, a count or index at least 0.
fn push_wanted_alone(alloc: Global, rows: &mut Vec<Row>, wanted: &Form) -> Result<(), LinError>
    ensures { IsMade result (wanted_alone_steps wanted.now)
        (λ _. Pushes rows.old rows.new (wanted_alone wanted.now)) }
{
    match wanted {
        Form::One => push_added(alloc, rows, wanted),
        Form::Share(_) => push_added(alloc, rows, wanted),
        Form::Src(_) => push_added(alloc, rows, wanted),
        Form::Tok(_) => push_added(alloc, rows, wanted),
        Form::Span(start, _) => {
            let zero = Term::constant(alloc, 0);
            push_row(alloc, rows, start, Op::Ge, &zero, Sort::Int)
        }
    }
}

// A wanted amount is above 0 and a count or index at least 0, and then it composes with the pieces.
fn push_one(
    alloc: Global,
    rows: &mut Vec<Row>,
    pieces: &[Piece],
    region: &Term,
    kind: u32,
    wanted: &(u32, Form),
) -> Result<(), LinError>
    ensures { IsMade result (one_steps pieces.now region.now kind wanted.now)
        (λ _. Pushes rows.old rows.new (one_rows pieces.now region.now kind wanted.now)) }
{
    let (atom, form) = wanted;
    push_wanted_alone(alloc, rows, form)?;
    push_fits(alloc, rows, pieces, region, kind, *atom, form)?;
    push_all_wanted(alloc, rows, pieces, region, kind, *atom, form)
}

// The rows of all wanted forms, in their order.
fn push_all(
    alloc: Global,
    rows: &mut Vec<Row>,
    pieces: &[Piece],
    region: &Term,
    kind: u32,
    wanted: &[(u32, Form)],
) -> Result<(), LinError>
    ensures { IsMade result (wanted_steps pieces.now region.now kind wanted.now)
        (λ _. Pushes rows.old rows.new (wanted_rows pieces.now region.now kind wanted.now)) }
{
    for one in wanted {
        push_one(alloc, rows, pieces, region, kind, one)?;
    }
    Ok(())
}

/// Rows that hold where wanted forms, each of an atom, compose with the pieces of a region: that a
/// wanted share is above 0 and, with the share of its atom that is there, at most 1; that a wanted
/// count is at least 0 and tokens are at most as many as their source has out; and that a wanted
/// span starts at 0 or later and, where it is one index, differs from each span of one index of its
/// atom, and comes before one without an end. Nothing comes where some wanted form never composes:
/// the source, the unique guard or a span without an end where there is one, or surely some part
/// where a piece on another side of a sum is surely some part. Wide comes where a sum or a row's
/// number leaves 128 bits, with the first such number's operands. Where the wanted forms' elements
/// compose with the pieces', rows come, and they hold.
pub fn compat(
    alloc: Global,
    algebra: &Algebra,
    pieces: &[Piece],
    region: &Term,
    kind: u32,
    wanted: &[(u32, Form)],
) -> Result<Option<Vec<Row>>, LinError>
    ensures exact { let a = algebra_view algebra.now in
        IsMade result (compat_steps a pieces.now region.now kind wanted.now) (λ o.
        option_map (λ rows. rows.items) o ≡ compat_of a pieces.now region.now kind wanted.now) }
    ensures means { let a = algebra_view algebra.now in
        IfOk result (λ o.
        CoversWanted a pieces.now region.now kind wanted.now (option_map (λ rows. rows.items) o)) }
{
    compared(alloc, algebra, pieces, region, kind, wanted)
}

// What compat answers, exactly.
fn compared(
    alloc: Global,
    algebra: &Algebra,
    pieces: &[Piece],
    region: &Term,
    kind: u32,
    wanted: &[(u32, Form)],
) -> Result<Option<Vec<Row>>, LinError>
    ensures { let a = algebra_view algebra.now in
        IsMade result (compat_steps a pieces.now region.now kind wanted.now) (λ o.
        option_map (λ rows. rows.items) o ≡ compat_of a pieces.now region.now kind wanted.now) }
{
    if clashes_some(algebra, pieces, region, kind, wanted) {
        return Ok(None);
    }
    let mut rows = Vec::new(alloc);
    push_all(alloc, &mut rows, pieces, region, kind, wanted)?;
    Ok(Some(rows))
}
