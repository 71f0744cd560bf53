//! The text of what a frame has: its variables, cells, facts and guards.
ghost use Rattle.std.specs.Prelude.{◌≡◌, ◌++◌, OnOk, codes, flat_map};
ghost use Rattle.std.specs.List.{zip};
ghost use Rattle.cap_prog.specs.Views.{program_view};
ghost use Rattle.cap_outline_spec.specs.Texts.{amount_text, cell_text, end_text, fact_text};
ghost use Rattle.cap_outline_spec.specs.Texts.{form_text, items_text, piece_text, value_text};

use crate::names::{atom_name, type_name};
use crate::terms::{push_term, push_terms};
use cap_goal::Fact;
use cap_gsolve::{Form, Piece};
use cap_lin::Term;
use cap_prog::Program;
use cap_syntax::Text;
use std::alloc::{AllocError, Global};

// ---- variables and cells

fn push_value(
    alloc: Global,
    text: &mut Vec<u8>,
    name: &Text,
    value: &Term,
) -> Result<(), AllocError>
    ensures { OnOk result (text.new.items ≡ text.old.items ++ value_text (name.now, value.now)) }
{
    text.extend_from_slice(name.as_bytes())?;
    text.extend_from_slice(b" = ")?;
    push_term(alloc, text, value)
}

// Writes the values of variables by their names, each behind a semicolon.
fn push_more_values(
    alloc: Global,
    text: &mut Vec<u8>,
    names: &[Text],
    values: &[Term],
) -> Result<(), AllocError>
    ensures { OnOk result (text.new.items ≡ text.old.items
        ++ flat_map (λ x. codes "; " ++ value_text x) (zip names.now values.now)) }
{
    for (name, value) in names.iter().zip(values) {
        text.extend_from_slice(b"; ")?;
        push_value(alloc, text, name, value)?;
    }
    Ok(())
}

/// Writes the values of variables by their names, with semicolons between them.
pub(crate) fn push_store(
    alloc: Global,
    text: &mut Vec<u8>,
    names: &[Text],
    store: &[Term],
) -> Result<(), AllocError>
    ensures { OnOk result (text.new.items
        ≡ text.old.items ++ items_text value_text (zip names.now store.now)) }
{
    let [name, names @ ..] = names else {
        return Ok(());
    };
    let [value, values @ ..] = store else {
        return Ok(());
    };
    push_value(alloc, text, name, value)?;
    push_more_values(alloc, text, names, values)
}

fn push_cell(alloc: Global, text: &mut Vec<u8>, cell: &(Term, Term)) -> Result<(), AllocError>
    ensures { OnOk result (text.new.items ≡ text.old.items ++ cell_text cell.now) }
{
    push_term(alloc, text, &cell.0)?;
    text.extend_from_slice(b" |-> ")?;
    push_term(alloc, text, &cell.1)
}

// Writes cells, each behind a semicolon.
fn push_more_cells(
    alloc: Global,
    text: &mut Vec<u8>,
    cells: &[(Term, Term)],
) -> Result<(), AllocError>
    ensures { OnOk result (text.new.items
        ≡ text.old.items ++ flat_map (λ x. codes "; " ++ cell_text x) cells.now) }
{
    for cell in cells {
        text.extend_from_slice(b"; ")?;
        push_cell(alloc, text, cell)?;
    }
    Ok(())
}

/// Writes cells, with semicolons between them.
pub(crate) fn push_cells(
    alloc: Global,
    text: &mut Vec<u8>,
    cells: &[(Term, Term)],
) -> Result<(), AllocError>
    ensures { OnOk result (text.new.items ≡ text.old.items ++ items_text cell_text cells.now) }
{
    let [first, more @ ..] = cells else {
        return Ok(());
    };
    push_cell(alloc, text, first)?;
    push_more_cells(alloc, text, more)
}

// ---- facts

fn push_fact(
    alloc: Global,
    text: &mut Vec<u8>,
    program: &Program,
    fact: &Fact,
) -> Result<(), AllocError>
    ensures { OnOk result (text.new.items
        ≡ text.old.items ++ fact_text (program_view program.now) fact.now) }
{
    text.extend_from_slice(type_name(program, fact.kind))?;
    text.extend_from_slice(b"(")?;
    push_terms(alloc, text, &fact.region, &fact.args)?;
    text.extend_from_slice(b"; ")?;
    push_term(alloc, text, &fact.state)?;
    text.extend_from_slice(b")")
}

// Writes facts, each behind a semicolon.
fn push_more_facts(
    alloc: Global,
    text: &mut Vec<u8>,
    program: &Program,
    facts: &[Fact],
) -> Result<(), AllocError>
    ensures { OnOk result (text.new.items ≡ text.old.items
        ++ flat_map (λ x. codes "; " ++ fact_text (program_view program.now) x) facts.now) }
{
    for fact in facts {
        text.extend_from_slice(b"; ")?;
        push_fact(alloc, text, program, fact)?;
    }
    Ok(())
}

/// Writes facts, with semicolons between them.
pub(crate) fn push_facts(
    alloc: Global,
    text: &mut Vec<u8>,
    program: &Program,
    facts: &[Fact],
) -> Result<(), AllocError>
    ensures { OnOk result (text.new.items
        ≡ text.old.items ++ items_text (fact_text (program_view program.now)) facts.now) }
{
    let [first, more @ ..] = facts else {
        return Ok(());
    };
    push_fact(alloc, text, program, first)?;
    push_more_facts(alloc, text, program, more)
}

// ---- guards

// Writes how much of a guard there is.
fn push_amount(alloc: Global, text: &mut Vec<u8>, amount: &Term) -> Result<(), AllocError>
    ensures { OnOk result (text.new.items ≡ text.old.items ++ amount_text amount.now) }
{
    text.extend_from_slice(b"[")?;
    push_term(alloc, text, amount)?;
    text.extend_from_slice(b"]")
}

// Writes the end of a span, where it has one.
fn push_end(alloc: Global, text: &mut Vec<u8>, end: &Option<Term>) -> Result<(), AllocError>
    ensures { OnOk result (text.new.items ≡ text.old.items ++ end_text end.now) }
{
    match end {
        None => Ok(()),
        Some(end) => push_term(alloc, text, end),
    }
}

// Writes how much of a guard of this name there is.
fn push_form(alloc: Global, text: &mut Vec<u8>, name: &[u8], form: &Form) -> Result<(), AllocError>
    ensures { OnOk result (text.new.items ≡ text.old.items ++ form_text name.now form.now) }
{
    match form {
        Form::One => text.extend_from_slice(name),
        Form::Share(amount) => {
            text.extend_from_slice(name)?;
            push_amount(alloc, text, amount)
        }
        Form::Src(count) => {
            text.extend_from_slice(b"src ")?;
            text.extend_from_slice(name)?;
            push_amount(alloc, text, count)
        }
        Form::Tok(count) => {
            text.extend_from_slice(b"tok ")?;
            text.extend_from_slice(name)?;
            push_amount(alloc, text, count)
        }
        Form::Span(start, end) => {
            text.extend_from_slice(name)?;
            text.extend_from_slice(b"{")?;
            push_term(alloc, text, start)?;
            text.extend_from_slice(b"..")?;
            push_end(alloc, text, end)?;
            text.extend_from_slice(b"}")
        }
    }
}

fn push_piece(
    alloc: Global,
    text: &mut Vec<u8>,
    program: &Program,
    piece: &Piece,
) -> Result<(), AllocError>
    ensures { OnOk result (text.new.items
        ≡ text.old.items ++ piece_text (program_view program.now) piece.now) }
{
    push_term(alloc, text, &piece.region)?;
    text.extend_from_slice(b"@")?;
    push_form(
        alloc,
        text,
        atom_name(program, piece.kind, piece.atom),
        &piece.form,
    )
}

// Writes guards, each behind a semicolon.
fn push_more_pieces(
    alloc: Global,
    text: &mut Vec<u8>,
    program: &Program,
    pieces: &[Piece],
) -> Result<(), AllocError>
    ensures { OnOk result (text.new.items ≡ text.old.items
        ++ flat_map (λ x. codes "; " ++ piece_text (program_view program.now) x) pieces.now) }
{
    for piece in pieces {
        text.extend_from_slice(b"; ")?;
        push_piece(alloc, text, program, piece)?;
    }
    Ok(())
}

/// Writes guards, with semicolons between them.
pub(crate) fn push_pieces(
    alloc: Global,
    text: &mut Vec<u8>,
    program: &Program,
    pieces: &[Piece],
) -> Result<(), AllocError>
    ensures { OnOk result (text.new.items
        ≡ text.old.items ++ items_text (piece_text (program_view program.now)) pieces.now) }
{
    let [first, more @ ..] = pieces else {
        return Ok(());
    };
    push_piece(alloc, text, program, first)?;
    push_more_pieces(alloc, text, program, more)
}
