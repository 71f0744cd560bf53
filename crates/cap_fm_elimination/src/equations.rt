//! A variable goes by an equation, which replaces it in all other rows.
ghost use Rattle.std.specs.Prelude.{◌≡◌, ◌<◌, ◌++◌, ◌∷◌, [], ℕ, ℤ, negsuc, ◌*ℤ◌, List, length};
ghost use Rattle.std.specs.Prelude.{Some, None, false, IfSome};
ghost use Rattle.cap_lin.specs.Linear.{is_zero, coefficient};
ghost use Rattle.cap_lin.specs.Steps.{product_of};
ghost use Rattle.cap_fm_spec.specs.Elimination.{chosen, unit_variable as unit_variable_in};
ghost use Rattle.cap_fm_spec.specs.Elimination.{is_unit as is_unit_number, occurring, replacement};
ghost use Rattle.cap_fm_spec.specs.Elimination.{replace_all as replace_all_run};
ghost use Rattle.cap_fm_elimination.specs.Entries.{Entry};
ghost use Rattle.cap_fm_elimination.specs.Views.{stage_view, entry_view, entries_view, term_of};
ghost use Rattle.cap_fm_elimination.specs.Views.{entry_of, entries_of, lacking_rows, IsStageOf};
ghost use Rattle.cap_fm_elimination.specs.Views.{AreNumbered, IsNumbered};
ghost use Rattle.cap_fm_elimination.specs.Answers.{DoesArise, DoesReach, OnlyLeaves, IsPivot};
ghost use Rattle.cap_fm_elimination.specs.Answers.{IsMadeBy};

use crate::arising::combine;
use crate::entry::{Arisen, Present, Reached};
use crate::error::SolveError;
use crate::stage::Stage;
use bumpalo::Bump;
use cap_lin::Kind;
use std::alloc::Global;

/// An equation, by its place among the rows, and a variable that it has.
#[derive(Clone, Copy)]
pub struct Pivot {
    pub place: usize,
    pub variable: u32,
}

/// The first equation with a coefficient 1 or -1, and its least such variable.
pub fn unit_pivot(stage: &Stage, rows: &[Present]) -> Option<Pivot>
    ensures first { IsPivot unit_variable_in (entries_of stage.now rows.now) result }
    ensures bound { IfSome result (λ p. p.place < length rows.now) }
{
    for place in 0..rows.len() {
        if let Some(variable) = unit_variable_of(stage, rows[place]) {
            return Some(Pivot { place, variable });
        }
    }
    None
}

fn unit_variable_of(stage: &Stage, row: Present) -> Option<u32>
    ensures choice { result
        ≡ chosen unit_variable_in row.kind (term_of stage.now row.number).parts }
    ensures has { IfSome result
        (λ x. is_zero (coefficient x (term_of stage.now row.number).parts) ≡ false) }
{
    match row.kind {
        Kind::Eq => unit_variable(stage.term(row.number).parts()),
        _ => None,
    }
}

// The first variable with the coefficient 1 or -1.
fn unit_variable(parts: &[(u32, i128)]) -> Option<u32>
    ensures { result ≡ unit_variable_in parts.now }
{
    for part in parts {
        let (variable, coefficient) = *part;
        if is_unit(coefficient) {
            return Some(variable);
        }
    }
    None
}

fn is_unit(number: i128) -> bool
    ensures { result ≡ is_unit_number number }
{
    number == 1 || number == -1
}

/// The first equation that has the variable.
pub fn pivot_of(stage: &Stage, rows: &[Present], variable: u32) -> Option<Pivot>
    ensures first { IsPivot (occurring variable) (entries_of stage.now rows.now) result }
    ensures bound { IfSome result (λ p. p.place < length rows.now) }
{
    for place in 0..rows.len() {
        if let Some(variable) = variable_of(stage, rows[place], variable) {
            return Some(Pivot { place, variable });
        }
    }
    None
}

// The variable, if the row is an equation that has it.
fn variable_of(stage: &Stage, row: Present, variable: u32) -> Option<u32>
    ensures choice { result
        ≡ chosen (occurring variable) row.kind (term_of stage.now row.number).parts }
    ensures has { IfSome result
        (λ x. is_zero (coefficient x (term_of stage.now row.number).parts) ≡ false) }
{
    match row.kind {
        Kind::Eq => {
            if stage.term(row.number).coefficient(variable) == 0 {
                None
            } else {
                Some(variable)
            }
        }
        _ => None,
    }
}

/// Replaces the variable of an equation in the other rows, and takes the equation out.
pub fn by_equation<'a>(
    alloc: Global,
    stage: &mut Stage<'a>,
    rows: Vec<Present, &'a Bump>,
    pivot: Pivot,
) -> Result<Reached<'a>, SolveError>
    requires { pivot.place < length rows.items }
    ensures { (inputs : ℕ) (before after : List Entry) (equation : Entry) →
        IsStageOf inputs stage.old (entries_of stage.old rows.entry.items) →
        entries_of stage.old rows.entry.items ≡ before ++ (equation ∷ after) →
        pivot.place ≡ length before →
        is_zero (coefficient pivot.variable equation.term.parts) ≡ false →
        DoesReach inputs stage.new
        (replace_all_run pivot.variable (entry_view equation) []
        (entries_view (before ++ after)) (stage_view stage.old))
        result }
{
    leave_all(stage, &rows, pivot.variable);
    let mut rows = rows;
    let equation = rows.remove(pivot.place);
    replace_all(alloc, stage, rows, equation, pivot.variable)
}

/// The rows that have a variable are no longer present.
pub fn leave_all(stage: &mut Stage, rows: &[Present], variable: u32)
    ensures { (inputs : ℕ) → IsStageOf inputs stage.old (entries_of stage.old rows.now) →
        OnlyLeaves inputs stage.old stage.new
        (lacking_rows variable (entries_of stage.old rows.now)) }
{
    for row in rows {
        if stage.term(row.number).coefficient(variable) != 0 {
            stage.leave(row.number);
        }
    }
}

fn replace_all<'a>(
    alloc: Global,
    stage: &mut Stage<'a>,
    rows: Vec<Present, &'a Bump>,
    equation: Present,
    variable: u32,
) -> Result<Reached<'a>, SolveError>
    ensures { (inputs : ℕ) →
        IsStageOf inputs stage.old (lacking_rows variable (entries_of stage.old rows.entry.items)) →
        AreNumbered stage.old (entries_of stage.old rows.entry.items) →
        IsNumbered stage.old (entry_of stage.old equation) →
        DoesReach inputs stage.new
        (replace_all_run variable (entry_view (entry_of stage.old equation)) []
        (entries_view (entries_of stage.old rows.entry.items)) (stage_view stage.old))
        result }
{
    let coefficient = stage.term(equation.number).coefficient(variable);
    let mut replaced = Vec::with_capacity(stage.bump(), rows.len())?;
    for row in rows {
        let own = stage.term(row.number).coefficient(variable);
        if own == 0 {
            // Moved as a whole, a row would take the bytes between its fields along.
            replaced.push(Present {
                kind: row.kind,
                origin: row.origin,
                number: row.number,
            })?;
        } else {
            match replace(alloc, stage, row, own, equation, coefficient)? {
                Arisen::LeftOut => {}
                Arisen::Kept(row) => replaced.push(row)?,
                Arisen::False(row) => return Ok(Reached::Contradiction(row)),
            }
        }
    }
    Ok(Reached::Rows(replaced))
}

// The combination of a row with the equation, by the coefficients that they have of the variable.
fn replace(
    alloc: Global,
    stage: &mut Stage,
    row: Present,
    own: i128,
    equation: Present,
    coefficient: i128,
) -> Result<Arisen, SolveError>
    ensures { (inputs : ℕ) (present : List Entry) → IsStageOf inputs stage.old present →
        IsNumbered stage.old (entry_of stage.old row) →
        IsNumbered stage.old (entry_of stage.old equation) →
        DoesArise inputs stage.old stage.new present
        (replacement (entries_view present) coefficient own
        (entry_view (entry_of stage.old equation)) (entry_view (entry_of stage.old row))
        (stage_view stage.old))
        result }
{
    if coefficient >= 0 {
        let factor = negated(own)?;
        combine(alloc, stage, coefficient, row, factor, equation, row.kind)
    } else {
        let size = negated(coefficient)?;
        combine(alloc, stage, size, row, own, equation, row.kind)
    }
}

/// -1 times a number.
pub fn negated(number: i128) -> Result<i128, SolveError>
    ensures { IsMadeBy (product_of (negsuc 0) number ∷ []) (negsuc 0 *ℤ number) result }
{
    match number.checked_neg() {
        Some(negative) => Ok(negative),
        None => Err(SolveError::Wide(-1, number)),
    }
}
