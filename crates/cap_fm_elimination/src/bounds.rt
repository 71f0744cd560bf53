//! A variable goes by its bounds: each row below it with each above it (Fourier-Motzkin).
ghost use Rattle.cap_lin.specs.Linear.{coefficient};
ghost use Rattle.std.specs.Prelude.{◌≡◌, ℕ, List, IfOk};
ghost use Rattle.cap_fm_spec.specs.Elimination.{combine_bounds as combine_bounds_run};
ghost use Rattle.cap_fm_spec.specs.Elimination.{combine_each as combine_each_run};
ghost use Rattle.cap_fm_elimination.specs.Entries.{Entry};
ghost use Rattle.cap_fm_elimination.specs.Views.{stage_view, entry_view, entries_view, term_of};
ghost use Rattle.cap_fm_elimination.specs.Views.{entry_of, entries_of, lacking_rows, upper_rows};
ghost use Rattle.cap_fm_elimination.specs.Views.{lower_rows, IsStageOf, AreNumbered, IsNumbered};
ghost use Rattle.cap_fm_elimination.specs.Answers.{AllBounds, DoesArise, DoesReach, DoesEach};

use crate::arising::combine;
use crate::entry::{Arisen, FalseRow, Present, Reached, strictest};
use crate::equations::{leave_all, negated};
use crate::error::SolveError;
use crate::stage::Stage;
use bumpalo::Bump;
use std::alloc::{AllocError, Global};

// The rows without a variable, those with a positive coefficient of it, and those with a negative
// one.
#[derive(Drop)]
struct Parted<'a> {
    without: Vec<Present, &'a Bump>,
    uppers: Vec<Present, &'a Bump>,
    lowers: Vec<Present, &'a Bump>,
}

/// Combines each row with a positive coefficient of the variable with each with a negative one, and
/// takes the rows with the variable out.
pub fn by_bounds<'a>(
    alloc: Global,
    stage: &mut Stage<'a>,
    rows: Vec<Present, &'a Bump>,
    variable: u32,
) -> Result<Reached<'a>, SolveError>
    ensures { (inputs : ℕ) → IsStageOf inputs stage.old (entries_of stage.old rows.entry.items) →
        DoesReach inputs stage.new
        (AllBounds variable (entries_of stage.old rows.entry.items) stage.old) result }
{
    leave_all(stage, &rows, variable);
    let Parted {
        without,
        uppers,
        lowers,
    } = part(stage, rows, variable)?;
    let mut kept = without;
    for upper in &uppers {
        let upper = *upper;
        if let Some(row) = combine_each(alloc, stage, &mut kept, upper, &lowers, variable)? {
            return Ok(Reached::Contradiction(row));
        }
    }
    Ok(Reached::Rows(kept))
}

fn part<'a>(
    stage: &Stage<'a>,
    rows: Vec<Present, &'a Bump>,
    variable: u32,
) -> Result<Parted<'a>, AllocError>
    ensures without { IfOk result (λ p. entries_of stage.now p.without.items
        ≡ lacking_rows variable (entries_of stage.now rows.entry.items)) }
    ensures uppers { IfOk result (λ p. entries_of stage.now p.uppers.items
        ≡ upper_rows variable (entries_of stage.now rows.entry.items)) }
    ensures lowers { IfOk result (λ p. entries_of stage.now p.lowers.items
        ≡ lower_rows variable (entries_of stage.now rows.entry.items)) }
{
    let mut without = Vec::new(stage.bump());
    let mut uppers = Vec::new(stage.bump());
    let mut lowers = Vec::new(stage.bump());
    for row in rows {
        let coefficient = stage.term(row.number).coefficient(variable);
        if coefficient == 0 {
            without.push(row)?;
        } else if coefficient > 0 {
            uppers.push(row)?;
        } else {
            lowers.push(row)?;
        }
    }
    Ok(Parted {
        without,
        uppers,
        lowers,
    })
}

// Combines a row with each of the rows that have a negative coefficient; a false row, if one
// arises.
fn combine_each(
    alloc: Global,
    stage: &mut Stage,
    kept: &mut Vec<Present, &Bump>,
    upper: Present,
    lowers: &[Present],
    variable: u32,
) -> Result<Option<FalseRow>, SolveError>
    ensures { (inputs : ℕ) → IsStageOf inputs stage.old (entries_of stage.old kept.old.items) →
        IsNumbered stage.old (entry_of stage.old upper) →
        AreNumbered stage.old (entries_of stage.old lowers.now) →
        DoesEach inputs stage.old stage.new (entries_of stage.new kept.new.items)
        (combine_each_run variable (entries_view (entries_of stage.old kept.old.items))
        (entry_view (entry_of stage.old upper))
        (entries_view (entries_of stage.old lowers.now)) (stage_view stage.old))
        result }
{
    let positive = stage.term(upper.number).coefficient(variable);
    for lower in lowers {
        match combine_bounds(alloc, stage, upper, positive, *lower, variable)? {
            Arisen::LeftOut => {}
            Arisen::Kept(row) => kept.push(row)?,
            Arisen::False(row) => return Ok(Some(row)),
        }
    }
    Ok(None)
}

fn combine_bounds(
    alloc: Global,
    stage: &mut Stage,
    upper: Present,
    positive: i128,
    lower: Present,
    variable: u32,
) -> Result<Arisen, SolveError>
    ensures { (inputs : ℕ) (present : List Entry) → IsStageOf inputs stage.old present →
        IsNumbered stage.old (entry_of stage.old upper) →
        IsNumbered stage.old (entry_of stage.old lower) →
        positive ≡ coefficient variable (term_of stage.old upper.number).parts →
        DoesArise inputs stage.old stage.new present
        (combine_bounds_run variable (entries_view present)
        (entry_view (entry_of stage.old upper)) (entry_view (entry_of stage.old lower))
        (stage_view stage.old))
        result }
{
    let size = negated(stage.term(lower.number).coefficient(variable))?;
    let kind = strictest(upper.kind, lower.kind);
    combine(alloc, stage, size, upper, positive, lower, kind)
}
