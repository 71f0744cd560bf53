//! The core of infeasible rows.
ghost use Rattle.std.specs.Prelude.{◌≡◌, ◌<◌, ◌-◌, ◌^◌, IfOk, length};
ghost use Rattle.cap_lin.specs.Solves.{Infeasible};
ghost use Rattle.cap_core.specs.Core.{IsCore, IsIrreducible};
ghost use Rattle.cap_core.specs.Deciding.{Decides, Tries, IsCoreOf};

use crate::laws::cores_are_irreducible;
use cap_fm::{Answer, SolveError, solve};
use cap_lin::Row;
use std::alloc::{AllocError, Global};

fn copies(alloc: Global, rows: &[Row]) -> Result<Vec<Row>, AllocError>
    ensures { IfOk result (λ all. all.items ≡ rows.now) }
{
    let mut all = Vec::new(alloc);
    for row in rows {
        all.push(row.copy(alloc)?)?;
    }
    Ok(all)
}

// Whether rows are infeasible.
fn are_infeasible(alloc: Global, rows: &[Row]) -> Result<bool, SolveError>
    requires { length rows.now < 2 ^ 32 - 1 }
    ensures { Decides rows.now result }
{
    match solve(alloc, rows)? {
        Answer::Empty(_) => Ok(true),
        Answer::Solvable => Ok(false),
    }
}

// Leaves the row at a place out where the others are infeasible, and tells whether it did.
fn leaves_out(alloc: Global, rows: &mut Vec<Row>, place: usize) -> Result<bool, SolveError>
    requires there { place < length rows.old.items }
    requires few { length rows.old.items < 2 ^ 32 - 1 }
    ensures { Tries rows.old.items place rows.new.items result }
{
    let row = rows.remove(place);
    let found = are_infeasible(alloc, rows)?;
    if !found {
        rows.insert(place, row)?;
    }
    Ok(found)
}

/// The numbers, counted from 0, of the rows of the core of infeasible rows, in ascending order: each
/// row in its turn is left out where the rows that are still there are infeasible without it.
///
/// The core is infeasible too, and without any one of its rows it is not. `Wide` and `Rows` come
/// exactly where a decision passes that limit, for the first that one passes.
pub fn core(alloc: Global, rows: &[Row]) -> Result<Vec<u32>, SolveError>
    requires few { length rows.now < 2 ^ 32 - 1 }
    requires infeasible { Infeasible rows.now }
    ensures exact { IsCoreOf result rows.now }
    ensures core { IfOk result (λ numbers. IsCore rows.now numbers.items) }
    ensures irreducible { IfOk result (λ numbers. IsIrreducible rows.now numbers.items) }
{
    cores_are_irreducible();
    let mut left = copies(alloc, rows)?;
    let mut numbers = Vec::new(alloc);
    for number in 0..rows.len() {
        if !leaves_out(alloc, &mut left, numbers.len())? {
            numbers.push(number as u32)?;
        }
    }
    Ok(numbers)
}
