//! A row that arises in an elimination: an input row, or a combination of two.
ghost use Rattle.std.specs.Prelude.{◌≡◌, ◌<◌, ℕ, List, length, false, true};
ghost use Rattle.cap_fm_spec.specs.Rows.{arise_given, arise_combined, combine as combine_rows};
ghost use Rattle.cap_fm_spec.specs.Rows.{keep as keep_row, look, has_parts, is_present, has_arisen};
ghost use Rattle.cap_fm_spec.specs.Elimination.{input as input_row};
ghost use Rattle.cap_lin.specs.Linear.{Linear, number};
ghost use Rattle.cap_fm_elimination.specs.Entries.{Entry};
ghost use Rattle.cap_fm_elimination.specs.Views.{stage_view, entry_view, entries_view, entry_of};
ghost use Rattle.cap_fm_elimination.specs.Views.{origin_view, row_number, IsStageOf, IsNumbered};
ghost use Rattle.cap_fm_elimination.specs.Views.{IsOrigin};
ghost use Rattle.cap_fm_elimination.specs.Answers.{DoesArise};

use crate::entry::{Arisen, FalseRow, Origin, Present, is_false};
use crate::error::SolveError;
use crate::stage::Stage;
use cap_lin::{Kind, Row, Term};
use std::alloc::Global;

/// An input row arises, which has this number. A row Ne takes no part.
pub fn input<'a>(stage: &mut Stage<'a>, row: &'a Row, number: u32) -> Result<Arisen, SolveError>
    ensures { (inputs : ℕ) (present : List Entry) →
        IsStageOf inputs stage.old present → number < inputs →
        DoesArise inputs stage.old stage.new present
        (input_row (entries_view present) number row.now.kind row.now.term (stage_view stage.old))
        result }
{
    match row.kind {
        Kind::Ne => Ok(Arisen::LeftOut),
        kind => given(stage, &row.term, kind, number),
    }
}

// An input row is counted, and then looked at.
fn given<'a>(
    stage: &mut Stage<'a>,
    term: &'a Term,
    kind: Kind,
    number: u32,
) -> Result<Arisen, SolveError>
    ensures { (inputs : ℕ) (present : List Entry) →
        IsStageOf inputs stage.old present → number < inputs →
        DoesArise inputs stage.old stage.new present
        (arise_given (entries_view present) term.now kind number (stage_view stage.old)) result }
{
    let place = stage.count_given(term, kind)?;
    if stage.is_present(place) {
        return Ok(Arisen::LeftOut);
    }
    let origin = Origin::Given(number);
    if term.parts().is_empty() {
        bare(stage, term.constant_part(), kind, origin)
    } else {
        keep(stage, kind, origin, place)
    }
}

/// The combination `a` times a row plus `b` times another arises. It is counted where it has
/// variables, and left out where it is equal to a row that is present.
pub fn combine(
    alloc: Global,
    stage: &mut Stage,
    a: i128,
    first: Present,
    b: i128,
    second: Present,
    kind: Kind,
) -> Result<Arisen, SolveError>
    ensures { (inputs : ℕ) (present : List Entry) → IsStageOf inputs stage.old present →
        IsNumbered stage.old (entry_of stage.old first) →
        IsNumbered stage.old (entry_of stage.old second) →
        DoesArise inputs stage.old stage.new present
        (combine_rows (entries_view present) a (entry_view (entry_of stage.old first))
        b (entry_view (entry_of stage.old second)) kind (stage_view stage.old))
        result }
{
    let term = stage
        .term(first.number)
        .combination(alloc, a, stage.term(second.number), b)?;
    let origin = Origin::Combined(a, first.origin, b, second.origin);
    if term.parts().is_empty() {
        bare(stage, term.constant_part(), kind, origin)
    } else {
        counted(stage, term, kind, origin)
    }
}

fn counted(stage: &mut Stage, term: Term, kind: Kind, origin: Origin) -> Result<Arisen, SolveError>
    requires { has_parts term ≡ true }
    ensures { (inputs : ℕ) (present : List Entry) → IsStageOf inputs stage.old present →
        IsOrigin inputs (length stage.old.history.items) origin →
        DoesArise inputs stage.old stage.new present
        (arise_combined (entries_view present) term kind (origin_view origin)
        (stage_view stage.old))
        result }
{
    let place = stage.count_made(term, kind)?;
    if stage.is_present(place) {
        Ok(Arisen::LeftOut)
    } else {
        keep(stage, kind, origin, place)
    }
}

// The row of a number, which has variables, is present from now on.
fn keep(stage: &mut Stage, kind: Kind, origin: Origin, number: usize) -> Result<Arisen, SolveError>
    ensures { (inputs : ℕ) (present : List Entry) (term : Linear) →
        IsStageOf inputs stage.old present →
        IsOrigin inputs (length stage.old.history.items) origin →
        has_arisen term kind (stage_view stage.old).arisen ≡ true →
        row_number term kind (stage_view stage.old).arisen ≡ number →
        DoesArise inputs stage.old stage.new present
        (keep_row term kind (origin_view origin) (stage_view stage.old)) result }
{
    stage.enter(number);
    let origin = stage.note(origin)?;
    Ok(Arisen::Kept(Present {
        kind,
        origin,
        number,
    }))
}

// A row without variables, which is a number, is left out where it is true.
fn bare(stage: &mut Stage, constant: i128, kind: Kind, origin: Origin) -> Result<Arisen, SolveError>
    ensures { (inputs : ℕ) (present : List Entry) → IsStageOf inputs stage.old present →
        IsOrigin inputs (length stage.old.history.items) origin →
        DoesArise inputs stage.old stage.new present
        (look (number constant) kind (origin_view origin) (stage_view stage.old)) result }
{
    if is_false(kind, constant) {
        let origin = stage.note(origin)?;
        Ok(Arisen::False(FalseRow {
            constant,
            kind,
            origin,
        }))
    } else {
        Ok(Arisen::LeftOut)
    }
}
