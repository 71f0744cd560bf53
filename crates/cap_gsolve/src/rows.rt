//! Rows about amounts, and lists of rows to which they are added.
ghost use Rattle.std.specs.Prelude.{◌∷◌, []};
ghost use Rattle.cap_lin.specs.Rows.{row_of, row_of_steps};
ghost use Rattle.cap_gsolve.specs.Made.{IsMade, Pushes};
ghost use Rattle.cap_gsolve.specs.Merge.{false_row, end_rows, added_rows, lone_rows};
ghost use Rattle.cap_gsolve.specs.Merge.{false_steps, end_steps, added_steps, lone_steps};

use crate::piece::Form;
use cap_lin::{LinError, Op, Row, Sort, Term};
use std::alloc::Global;

/// Appends the row of a comparison.
pub fn push_row(
    alloc: Global,
    rows: &mut Vec<Row>,
    left: &Term,
    op: Op,
    right: &Term,
    sort: Sort,
) -> Result<(), LinError>
    ensures { IsMade result (row_of_steps left.now op right.now sort)
        (λ _. Pushes rows.old rows.new (row_of left.now op right.now sort ∷ [])) }
{
    let row = Row::of(alloc, left, op, right, sort)?;
    rows.push(row)?;
    Ok(())
}

/// Appends the row that never holds.
pub fn push_false(alloc: Global, rows: &mut Vec<Row>) -> Result<(), LinError>
    ensures { IsMade result false_steps (λ _. Pushes rows.old rows.new (false_row ∷ [])) }
{
    let zero = Term::constant(alloc, 0);
    let one = Term::constant(alloc, 1);
    push_row(alloc, rows, &zero, Op::Eq, &one, Sort::Int)
}

// An end is at least its start.
fn push_end(
    alloc: Global,
    rows: &mut Vec<Row>,
    start: &Term,
    end: &Option<Term>,
) -> Result<(), LinError>
    ensures { IsMade result (end_steps start.now end.now)
        (λ _. Pushes rows.old rows.new (end_rows start.now end.now)) }
{
    match end {
        None => Ok(()),
        Some(end) => push_row(alloc, rows, start, Op::Le, end, Sort::Int),
    }
}

/// An amount is above 0, and a count or start is at least 0.
pub fn push_added(alloc: Global, rows: &mut Vec<Row>, form: &Form) -> Result<(), LinError>
    ensures { IsMade result (added_steps form.now)
        (λ _. Pushes rows.old rows.new (added_rows form.now)) }
{
    let zero = Term::constant(alloc, 0);
    match form {
        Form::One => Ok(()),
        Form::Share(amount) => push_row(alloc, rows, amount, Op::Gt, &zero, Sort::Perm),
        Form::Src(out) => push_row(alloc, rows, out, Op::Ge, &zero, Sort::Int),
        Form::Tok(count) => push_row(alloc, rows, count, Op::Ge, &zero, Sort::Int),
        Form::Span(start, end) => {
            push_row(alloc, rows, start, Op::Ge, &zero, Sort::Int)?;
            push_end(alloc, rows, start, end)
        }
    }
}

/// An amount alone is at most 1.
pub fn push_lone(alloc: Global, rows: &mut Vec<Row>, form: &Form) -> Result<(), LinError>
    ensures { IsMade result (lone_steps form.now)
        (λ _. Pushes rows.old rows.new (lone_rows form.now)) }
{
    match form {
        Form::Share(amount) => {
            let one = Term::constant(alloc, 1);
            push_row(alloc, rows, amount, Op::Le, &one, Sort::Perm)
        }
        Form::One => Ok(()),
        Form::Src(_) => Ok(()),
        Form::Tok(_) => Ok(()),
        Form::Span(_, _) => Ok(()),
    }
}
