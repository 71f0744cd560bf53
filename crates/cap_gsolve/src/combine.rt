//! The form that two forms of one part of a guard become, and the rows that it needs.
ghost use Rattle.std.specs.Prelude.{◌≡◌, ◌++◌, ◌∷◌, [], OnOk};
ghost use Rattle.cap_lin.specs.Linear.{plus, minus};
ghost use Rattle.cap_lin.specs.Steps.{plus_steps, minus_steps};
ghost use Rattle.cap_lin.specs.Rows.{row_of, row_of_steps};
ghost use Rattle.cap_lin.specs.declared.row.Sort.TheVariants.{Int, Perm};
ghost use Rattle.cap_lin.specs.declared.row.Op.TheVariants.{Le as AtMost};
ghost use Rattle.cap_gsolve.specs.Made.{IsMade, Pushes};
ghost use Rattle.cap_gsolve.specs.Merge.{one_term, false_row, false_steps};
ghost use Rattle.cap_gsolve.specs.Merge.{combined, combined_rows, combined_steps};
ghost use Rattle.cap_gsolve.specs.declared.piece.Form.TheVariants.{Share, Src, Tok};

use crate::piece::Form;
use crate::rows::{push_false, push_row};
use cap_lin::{LinError, Op, Row, Sort, Term};
use std::alloc::Global;

/// The sum of two shares, and the row that it is at most 1.
pub fn sum_of_shares(
    alloc: Global,
    rows: &mut Vec<Row>,
    a: &Term,
    b: &Term,
) -> Result<Term, LinError>
    ensures exact { let sum = plus a.now b.now in
        IsMade result
        (plus_steps a.now b.now ++ row_of_steps sum AtMost one_term Perm) (λ t. t ≡ sum) }
    ensures rows { let row = row_of (plus a.now b.now) AtMost one_term Perm in
        OnOk result (Pushes rows.old rows.new (row ∷ [])) }
{
    let sum = a.add(alloc, b)?;
    let one = Term::constant(alloc, 1);
    push_row(alloc, rows, &sum, Op::Le, &one, Sort::Perm)?;
    Ok(sum)
}

// The form of two shares, and the row that they are at most 1.
fn shares(alloc: Global, rows: &mut Vec<Row>, a: &Term, b: &Term) -> Result<Form, LinError>
    ensures exact { let there = Share a.now in
        let new = Share b.now in
        IsMade result (combined_steps there new) (λ f. f ≡ combined there new) }
    ensures rows { OnOk result
        (Pushes rows.old rows.new (combined_rows (Share a.now) (Share b.now))) }
{
    Ok(Form::Share(sum_of_shares(alloc, rows, a, b)?))
}

// The form of some tokens and more of them.
fn tokens(alloc: Global, count: &Term, more: &Term) -> Result<Form, LinError>
    ensures { let there = Tok count.now in
        let new = Tok more.now in
        IsMade result (combined_steps there new) (λ f. f ≡ combined there new) }
{
    Ok(Form::Tok(count.add(alloc, more)?))
}

// The source with the tokens that are out after some came back, and the row that they were out.
fn left_out(alloc: Global, rows: &mut Vec<Row>, out: &Term, back: &Term) -> Result<Form, LinError>
    ensures exact { IsMade result
        (minus_steps out.now back.now ++ row_of_steps back.now AtMost out.now Int)
        (λ f. f ≡ Src (minus out.now back.now)) }
    ensures rows { let row = row_of back.now AtMost out.now Int in
        OnOk result (Pushes rows.old rows.new (row ∷ [])) }
{
    let rest = out.minus(alloc, back)?;
    push_row(alloc, rows, back, Op::Le, out, Sort::Int)?;
    Ok(Form::Src(rest))
}

// The form that is there, where no piece holds both.
fn kept(alloc: Global, rows: &mut Vec<Row>, there: &Form) -> Result<Form, LinError>
    ensures exact { IsMade result false_steps (λ f. f ≡ there.now) }
    ensures rows { OnOk result (Pushes rows.old rows.new (false_row ∷ [])) }
{
    let form = there.copy(alloc)?;
    push_false(alloc, rows)?;
    Ok(form)
}

/// What the form that is there and a new one become, and the rows that then hold.
pub fn combine(
    alloc: Global,
    rows: &mut Vec<Row>,
    there: &Form,
    new: &Form,
) -> Result<Form, LinError>
    ensures exact { IsMade result
        (combined_steps there.now new.now) (λ f. f ≡ combined there.now new.now) }
    ensures rows { OnOk result (Pushes rows.old rows.new (combined_rows there.now new.now)) }
{
    match there {
        Form::One => kept(alloc, rows, there),
        Form::Share(a) => match new {
            Form::Share(b) => shares(alloc, rows, a, b),
            Form::One | Form::Src(_) | Form::Tok(_) | Form::Span(_, _) => kept(alloc, rows, there),
        },
        Form::Src(out) => match new {
            Form::Tok(back) => left_out(alloc, rows, out, back),
            Form::One | Form::Share(_) | Form::Src(_) | Form::Span(_, _) => {
                kept(alloc, rows, there)
            }
        },
        Form::Tok(count) => match new {
            Form::Src(out) => left_out(alloc, rows, out, count),
            Form::Tok(more) => tokens(alloc, count, more),
            Form::One | Form::Share(_) | Form::Span(_, _) => kept(alloc, rows, there),
        },
        Form::Span(_, _) => kept(alloc, rows, there),
    }
}
