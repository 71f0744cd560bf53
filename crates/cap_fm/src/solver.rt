//! The solver: a certificate that rows have no solution, or the answer that it finds none.
ghost use Rattle.std.specs.Prelude.{◌≡◌, ◌<◌, ◌-◌, ◌^◌, ◌++◌, ◌∷◌, [], IfOk, length, slice_get};
ghost use Rattle.std.specs.Prelude.{Some};
ghost use Rattle.cap_fm_spec.specs.Solving.{RowsAscend, solved as solved_log, split as split_log};
ghost use Rattle.cap_fm_spec.specs.Solving.{refuted as refuted_log};
ghost use Rattle.cap_fm_elimination.specs.Answers.{IsLogged};
ghost use Rattle.cap_fm.specs.Solved.{IsSolved, IsCertified, IsTrueOf, HasSolution};

use cap_farkas::{Cert, Multipliers};
use cap_fm_elimination::{SolveError, refuted, terms_ascend};
use cap_lin::{Kind, Row};
use std::alloc::Global;
use std::slice;

/// What elimination finds of rows.
#[derive(Drop)]
pub enum Answer {
    /// No valuation solves the rows, and the certificate refutes them.
    Empty(Cert),
    /// A rational valuation solves the rows, rows Ne as other than 0.
    Solvable,
}

/// Whether rows exclude every valuation, by the elimination of Fourier and Motzkin. The rows that
/// are not Ne are eliminated, and then, for each row Ne in order, they and the row that its term is
/// below 0; where that is a contradiction, they and the row that its term is above 0.
///
/// Wide has the first result that leaves 128 bits. Rows comes where one elimination has more than
/// 4,096 rows, input rows and combinations with variables together, equal ones counted once. Which
/// of the two comes is by the first event that passes its limit; otherwise Empty comes exactly for
/// infeasible rows.
pub fn solve(alloc: Global, rows: &[Row]) -> Result<Answer, SolveError>
    requires { length rows.now < 2 ^ 32 - 1 }
    ensures exact { IsSolved result (solved_log rows.now) }
    ensures certified { IfOk result (λ answer. IsCertified rows.now answer) }
    ensures infeasible { IfOk result (λ answer. IsTrueOf rows.now answer) }
    ensures solvable { IfOk result (λ answer. HasSolution rows.now answer) }
{
    terms_ascend(rows);
    searched(alloc, rows)
}

fn searched(alloc: Global, rows: &[Row]) -> Result<Answer, SolveError>
    requires few { length rows.now < 2 ^ 32 - 1 }
    requires ascend { RowsAscend rows.now }
    ensures { IsSolved result (solved_log rows.now) }
{
    if let Some(leaf) = refuted_alone(alloc, rows)? {
        return Ok(Answer::Empty(Cert::Leaf(leaf)));
    }
    for place in 0..rows.len() {
        if let Some(cert) = split(alloc, rows, place)? {
            return Ok(Answer::Empty(cert));
        }
    }
    Ok(Answer::Solvable)
}

// The certificate of a row Ne whose term can be neither below 0 nor above 0.
fn split(alloc: Global, rows: &[Row], place: usize) -> Result<Option<Cert>, SolveError>
    requires few { length rows.now < 2 ^ 32 - 1 }
    requires bound { place < length rows.now }
    requires ascend { RowsAscend rows.now }
    ensures { (row : Row) → slice_get rows.now place ≡ Some row →
        IsLogged result (split_log rows.now place row.kind row.sort row.term) }
{
    let row = &rows[place];
    match row.kind {
        Kind::Ne => both_sides(alloc, rows, place),
        _ => Ok(None),
    }
}

fn both_sides(alloc: Global, rows: &[Row], place: usize) -> Result<Option<Cert>, SolveError>
    requires few { length rows.now < 2 ^ 32 - 1 }
    requires bound { place < length rows.now }
    requires ascend { RowsAscend rows.now }
    ensures { (row : Row) → slice_get rows.now place ≡ Some row →
        IsLogged result (split_log rows.now place Kind.Ne row.sort row.term) }
{
    let row = &rows[place];
    let below = row.below_zero(alloc)?;
    match refuted_with(alloc, rows, below)? {
        None => Ok(None),
        Some(below) => {
            let above = row.above_zero(alloc)?;
            match refuted_with(alloc, rows, above)? {
                None => Ok(None),
                Some(above) => Ok(Some(Cert::Split(place as u32, below, above))),
            }
        }
    }
}

fn refuted_alone(alloc: Global, rows: &[Row]) -> Result<Option<Multipliers>, SolveError>
    requires few { length rows.now < 2 ^ 32 - 1 }
    requires ascend { RowsAscend rows.now }
    ensures { IsLogged result (refuted_log rows.now) }
{
    refuted(alloc, rows, &[])
}

// Eliminates the rows with a row behind them.
fn refuted_with(alloc: Global, rows: &[Row], row: Row) -> Result<Option<Multipliers>, SolveError>
    requires few { length rows.now < 2 ^ 32 - 1 }
    requires ascend { RowsAscend rows.now }
    ensures { IsLogged result (refuted_log (rows.now ++ (row ∷ []))) }
{
    refuted(alloc, rows, slice::from_ref(&row))
}
