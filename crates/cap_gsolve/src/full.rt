//! The pieces that make up all guards of a new region.
ghost use Rattle.std.specs.Prelude.{◌≡◌, ◌+◌, ◌∷◌, [], IfOk, MatchResult};
ghost use Rattle.cap_lin.specs.declared.error.LinError.TheVariants.{OutOfMemory};
ghost use Rattle.cap_galg.specs.Views.{algebra_view, atom_count};
ghost use Rattle.cap_gsolve.specs.Made.{Pushes};
ghost use Rattle.cap_gsolve.specs.Meaning.{AreAll};
ghost use Rattle.cap_gsolve.specs.Pieces.{piece, pieces_of, full_forms};
ghost use Rattle.cap_gsolve.specs.Pieces.{full_pieces as pieces_of_all};

use crate::piece::{Form, Piece};
use cap_galg::Algebra;
use cap_lin::{LinError, Term};
use std::alloc::Global;

/// The pieces that hold all of a region's guards: all of each atom, and of a sum its left side. It
/// is never Wide; an atom whose number passes 32 bits counts as want of memory. Under each
/// valuation the pieces compose to the full element.
pub fn full_pieces(
    alloc: Global,
    algebra: &Algebra,
    region: &Term,
    kind: u32,
) -> Result<Vec<Piece>, LinError>
    ensures exact { let all = pieces_of_all (algebra_view algebra.now) region.now kind in
        MatchResult result (λ ps. ps.items ≡ all) (λ e. e ≡ OutOfMemory) }
    ensures means { IfOk result (λ ps. AreAll (algebra_view algebra.now) region.now kind ps.items) }
{
    let mut pieces = Vec::new(alloc);
    push_full(alloc, algebra, region, kind, 0, &mut pieces)?;
    Ok(pieces)
}

// The full pieces of an algebra whose atoms begin at a number, and the number behind them.
fn push_full(
    alloc: Global,
    algebra: &Algebra,
    region: &Term,
    kind: u32,
    first: u64,
    pieces: &mut Vec<Piece>,
) -> Result<u64, LinError>
    ensures { let all = pieces_of region.now kind (full_forms (algebra_view algebra.now) first) in
        MatchResult result
        (λ next. (next ≡ first + atom_count algebra.now) × Pushes pieces.old pieces.new all)
        (λ e. e ≡ OutOfMemory) }
{
    match algebra {
        Algebra::Unique => push(alloc, region, kind, first, Form::One, pieces),
        Algebra::Divisible => {
            let all = Form::Share(Term::constant(alloc, 1));
            push(alloc, region, kind, first, all, pieces)
        }
        Algebra::Counting => {
            let all = Form::Src(Term::constant(alloc, 0));
            push(alloc, region, kind, first, all, pieces)
        }
        Algebra::Indexed => {
            let all = Form::Span(Term::constant(alloc, 0), None);
            push(alloc, region, kind, first, all, pieces)
        }
        Algebra::Pair(a, b) => {
            let second = push_full(alloc, a, region, kind, first, pieces)?;
            push_full(alloc, b, region, kind, second, pieces)
        }
        Algebra::Either(a, b) => {
            let second = push_full(alloc, a, region, kind, first, pieces)?;
            past(b, second)
        }
    }
}

// The piece of one atom, and the number behind it.
fn push(
    alloc: Global,
    region: &Term,
    kind: u32,
    atom: u64,
    form: Form,
    pieces: &mut Vec<Piece>,
) -> Result<u64, LinError>
    ensures { let one = piece region.now kind atom form in
        MatchResult result
        (λ next. (next ≡ atom + 1) × Pushes pieces.old pieces.new (one ∷ []))
        (λ e. e ≡ OutOfMemory) }
{
    if atom > u32::MAX as u64 {
        return Err(LinError::OutOfMemory);
    }
    let region = region.copy(alloc)?;
    pieces.push(Piece {
        region,
        kind,
        atom: atom as u32,
        form,
    })?;
    Ok(atom + 1)
}

// The number behind the algebra's atoms, where they begin at a number.
fn past(algebra: &Algebra, first: u64) -> Result<u64, LinError>
    ensures { MatchResult result
        (λ next. next ≡ first + atom_count algebra.now) (λ e. e ≡ OutOfMemory) }
{
    match algebra {
        Algebra::Unique | Algebra::Divisible | Algebra::Counting | Algebra::Indexed => {
            first.checked_add(1).ok_or(LinError::OutOfMemory)
        }
        Algebra::Pair(a, b) | Algebra::Either(a, b) => past(b, past(a, first)?),
    }
}
