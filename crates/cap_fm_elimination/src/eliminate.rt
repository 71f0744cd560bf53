//! The elimination of all variables of a list of rows, one after the other.
ghost use Rattle.std.specs.Prelude.{◌≤◌, ◌<◌, ◌+◌, ◌^◌, ◌++◌, [], ℕ, List, length};
ghost use Rattle.cap_fm_spec.specs.Elimination.{inputs as inputs_run};
ghost use Rattle.cap_fm_spec.specs.Elimination.{by_variable as by_variable_run};
ghost use Rattle.cap_fm_spec.specs.Elimination.{eliminated as eliminated_run};
ghost use Rattle.cap_fm_spec.specs.Solving.{RowsAscend, refuted as refuted_log};
ghost use Rattle.cap_fm_elimination.specs.Entries.{Entry};
ghost use Rattle.cap_fm_elimination.specs.Views.{stage_view, entries_view, entries_of, IsStageOf};
ghost use Rattle.cap_fm_elimination.specs.Answers.{AllUnits, AllVariables, DoesReach, IsLogged};
ghost use Rattle.cap_fm_elimination.specs.Answers.{IsLeast, AreRows};

use crate::arising::input;
use crate::bounds::by_bounds;
use crate::entry::{Arisen, Present, Reached};
use crate::equations::{by_equation, pivot_of, unit_pivot};
use crate::error::SolveError;
use crate::leaf::leaf;
use crate::numbered::numbered_row;
use crate::stage::Stage;
use bumpalo::Bump;
use cap_farkas::Multipliers;
use cap_lin::Row;
use std::alloc::Global;

// How many bytes an elimination of few rows takes, and how many more for each row.
const ROOM: usize = 512;

const ROOM_OF_ROW: usize = 256;

/// Eliminates the variables of rows with more rows behind them, of which those Ne take no part: the
/// leaf of a contradiction, or None where there is none. A leaf has the numbers of the rows that it
/// adds up, from 0 and those of `more` behind those of `rows`, each with its multiplier. A number
/// takes 32 bits, so there are at most 2^32 rows. The parts of the terms of `rows` have to ascend,
/// which `terms_ascend` tells; of `more` it is found here.
///
/// Wide has the first result that leaves 128 bits, of the combinations, and then of a leaf's
/// multipliers and its check. Rows comes where the elimination has more than 4,096 rows, input rows
/// and combinations with variables together, equal ones counted once. Which of the two comes is by
/// the first event that passes its limit. OutOfMemory may come of any rows, where memory runs out.
pub fn refuted(alloc: Global, rows: &[Row], more: &[Row]) -> Result<Option<Multipliers>, SolveError>
    requires few { length rows.now + length more.now ≤ 2 ^ 32 }
    requires ascend { RowsAscend rows.now }
    ensures { IsLogged result (refuted_log (rows.now ++ more.now)) }
{
    let count = rows.len() + more.len();
    let bump = Bump::try_with_capacity(alloc, ROOM + ROOM_OF_ROW * count)?;
    refuted_within(alloc, &bump, rows, more)
}

// Eliminates the variables, where the arena has what is made on the way.
fn refuted_within(
    alloc: Global,
    bump: &Bump,
    rows: &[Row],
    more: &[Row],
) -> Result<Option<Multipliers>, SolveError>
    requires few { length rows.now + length more.now ≤ 2 ^ 32 }
    requires ascend { RowsAscend rows.now }
    ensures { IsLogged result (refuted_log (rows.now ++ more.now)) }
{
    let mut stage = Stage::with_room(alloc, bump, rows.len() + more.len())?;
    match eliminated(alloc, &mut stage, rows, more)? {
        Reached::Rows(_) => Ok(None),
        Reached::Contradiction(row) => {
            let leaf = leaf(alloc, bump, rows, more, stage.history(), row)?;
            Ok(Some(leaf))
        }
    }
}

fn eliminated<'a>(
    alloc: Global,
    stage: &mut Stage<'a>,
    rows: &'a [Row],
    more: &'a [Row],
) -> Result<Reached<'a>, SolveError>
    requires few { length rows.now + length more.now ≤ 2 ^ 32 }
    requires ascend { RowsAscend rows.now }
    ensures { IsStageOf (length (rows.now ++ more.now)) stage.old [] →
        DoesReach (length (rows.now ++ more.now)) stage.new
        (eliminated_run (rows.now ++ more.now) (stage_view stage.old)) result }
{
    terms_ascend(more);
    match inputs(alloc, stage, rows, more)? {
        Reached::Contradiction(row) => Ok(Reached::Contradiction(row)),
        Reached::Rows(rows) => match by_units(alloc, stage, rows)? {
            Reached::Contradiction(row) => Ok(Reached::Contradiction(row)),
            Reached::Rows(rows) => by_variables(alloc, stage, rows),
        },
    }
}

/// Tells that the parts of each row's term ascend by their variables, which `Term::parts` tells of
/// one term and `refuted` asks of rows. It gives and changes nothing, takes no memory, and holds of
/// any list of rows.
pub fn terms_ascend(rows: &[Row])
    ensures { RowsAscend rows.now }
{
    for row in rows {
        row.term.parts();
    }
}

// The input rows arise, one by one.
fn inputs<'a>(
    alloc: Global,
    stage: &mut Stage<'a>,
    rows: &'a [Row],
    more: &'a [Row],
) -> Result<Reached<'a>, SolveError>
    requires { length rows.now + length more.now ≤ 2 ^ 32 }
    ensures { IsStageOf (length (rows.now ++ more.now)) stage.old [] →
        DoesReach (length (rows.now ++ more.now)) stage.new
        (inputs_run [] 0 (rows.now ++ more.now) (stage_view stage.old)) result }
{
    let count = rows.len() + more.len();
    let mut entries = Vec::with_capacity(stage.bump(), count)?;
    for i in 0..count {
        let row = numbered_row(rows, more, i);
        match input(stage, row, i as u32)? {
            Arisen::LeftOut => {}
            Arisen::Kept(row) => entries.push(row)?,
            Arisen::False(row) => return Ok(Reached::Contradiction(row)),
        }
    }
    Ok(Reached::Rows(entries))
}

// While an equation has a variable with the coefficient 1 or -1, the variable is replaced by it.
// Each turn takes out a row, so there are no more turns than rows.
fn by_units<'a>(
    alloc: Global,
    stage: &mut Stage<'a>,
    rows: Vec<Present, &'a Bump>,
) -> Result<Reached<'a>, SolveError>
    ensures { (inputs : ℕ) → IsStageOf inputs stage.old (entries_of stage.old rows.entry.items) →
        DoesReach inputs stage.new
        (AllUnits (entries_of stage.old rows.entry.items) stage.old) result }
{
    let mut rows = rows;
    for _turn in 0..rows.len() {
        match unit_pivot(stage, &rows) {
            None => break,
            Some(pivot) => match by_equation(alloc, stage, rows, pivot)? {
                Reached::Rows(others) => rows = others,
                Reached::Contradiction(row) => return Ok(Reached::Contradiction(row)),
            },
        }
    }
    Ok(Reached::Rows(rows))
}

// Each variable that still occurs, in ascending order, is eliminated.
fn by_variables<'a>(
    alloc: Global,
    stage: &mut Stage<'a>,
    rows: Vec<Present, &'a Bump>,
) -> Result<Reached<'a>, SolveError>
    ensures { (inputs : ℕ) → IsStageOf inputs stage.old (entries_of stage.old rows.entry.items) →
        AreRows (entries_of stage.old rows.entry.items) →
        DoesReach inputs stage.new (AllVariables (entries_of stage.old rows.entry.items) stage.old)
        result }
{
    let mut rows = rows;
    let mut low: u64 = 0;
    while let Some(variable) = least_variable(stage, &rows, low) {
        match by_variable(alloc, stage, rows, variable)? {
            Reached::Rows(others) => rows = others,
            Reached::Contradiction(row) => return Ok(Reached::Contradiction(row)),
        }
        low = variable as u64 + 1;
    }
    Ok(Reached::Rows(rows))
}

// The least variable of the rows that is at least `low`.
fn least_variable(stage: &Stage, rows: &[Present], low: u64) -> Option<u32>
    ensures { IsLeast low (entries_of stage.now rows.now) result }
{
    let mut least = None;
    for row in rows {
        least = lesser(least, stage.term(row.number).variable_from(low));
    }
    least
}

fn lesser(a: Option<u32>, b: Option<u32>) -> Option<u32>
    ensures { (low : ℕ) (rows more : List Entry) →
        IsLeast low rows a → IsLeast low more b → IsLeast low (rows ++ more) result }
{
    match a {
        None => b,
        Some(x) => match b {
            None => a,
            Some(y) => Some(x.min(y)),
        },
    }
}

fn by_variable<'a>(
    alloc: Global,
    stage: &mut Stage<'a>,
    rows: Vec<Present, &'a Bump>,
    variable: u32,
) -> Result<Reached<'a>, SolveError>
    ensures { (inputs : ℕ) → IsStageOf inputs stage.old (entries_of stage.old rows.entry.items) →
        DoesReach inputs stage.new
        (by_variable_run variable (entries_view (entries_of stage.old rows.entry.items))
        (stage_view stage.old))
        result }
{
    match pivot_of(stage, &rows, variable) {
        Some(pivot) => by_equation(alloc, stage, rows, pivot),
        None => by_bounds(alloc, stage, rows, variable),
    }
}
