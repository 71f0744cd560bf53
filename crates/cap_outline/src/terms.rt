//! The text of terms and of rows.
ghost use Rattle.std.specs.Prelude.{◌≡◌, ◌∷◌, ◌++◌, OnOk, codes, flat_map};
ghost use Rattle.std.specs.Fmt.{signed_decimal};
ghost use Rattle.std.specs.List.{join_by};
ghost use Rattle.cap_outline_spec.specs.Texts.{items_text, kind_text as text_of_kind, part_text};
ghost use Rattle.cap_outline_spec.specs.Texts.{row_text, term_text};

use cap_lin::{Kind, Row, Term};
use std::alloc::{AllocError, Global};

// Writes a number.
fn push_number(alloc: Global, text: &mut Vec<u8>, number: i128) -> Result<(), AllocError>
    ensures { OnOk result (text.new.items ≡ text.old.items ++ signed_decimal number) }
{
    let number = format!(in alloc; "{number}")?;
    text.extend_from_slice(number.as_bytes())
}

// Writes a variable with its coefficient.
fn push_part(alloc: Global, text: &mut Vec<u8>, part: (u32, i128)) -> Result<(), AllocError>
    ensures { OnOk result (text.new.items ≡ text.old.items ++ part_text part) }
{
    let (variable, coefficient) = part;
    let part = format!(in alloc; "{coefficient}*v{variable}")?;
    text.extend_from_slice(part.as_bytes())
}

// Writes variables with their coefficients, each behind a plus sign.
fn push_more_parts(
    alloc: Global,
    text: &mut Vec<u8>,
    parts: &[(u32, i128)],
) -> Result<(), AllocError>
    ensures { OnOk result (text.new.items
        ≡ text.old.items ++ flat_map (λ q. codes " + " ++ part_text q) parts.now) }
{
    for part in parts {
        text.extend_from_slice(b" + ")?;
        push_part(alloc, text, *part)?;
    }
    Ok(())
}

// Writes variables with their coefficients, with plus signs between them.
fn push_parts(
    alloc: Global,
    text: &mut Vec<u8>,
    first: (u32, i128),
    more: &[(u32, i128)],
) -> Result<(), AllocError>
    ensures { OnOk result (text.new.items
        ≡ text.old.items ++ join_by part_text (codes " + ") (first ∷ more.now)) }
{
    push_part(alloc, text, first)?;
    push_more_parts(alloc, text, more)
}

/// Writes a term: its constant and its variables with their coefficients, in their order, as a sum.
/// A constant 0 is left out unless there is nothing else.
pub(crate) fn push_term(alloc: Global, text: &mut Vec<u8>, term: &Term) -> Result<(), AllocError>
    ensures { OnOk result (text.new.items ≡ text.old.items ++ term_text term.now) }
{
    let constant = term.constant_part();
    let [first, more @ ..] = term.parts() else {
        return push_number(alloc, text, constant);
    };
    if constant == 0 {
        return push_parts(alloc, text, *first, more);
    }
    push_number(alloc, text, constant)?;
    text.extend_from_slice(b" + ")?;
    push_parts(alloc, text, *first, more)
}

/// Writes terms, with commas between them.
pub(crate) fn push_terms(
    alloc: Global,
    text: &mut Vec<u8>,
    first: &Term,
    more: &[Term],
) -> Result<(), AllocError>
    ensures { OnOk result (text.new.items ≡ text.old.items ++ (term_text first.now
        ++ flat_map (λ t. codes ", " ++ term_text t) more.now)) }
{
    push_term(alloc, text, first)?;
    for term in more {
        text.extend_from_slice(b", ")?;
        push_term(alloc, text, term)?;
    }
    Ok(())
}

// What a row says of its term.
fn kind_text(kind: Kind) -> &'static [u8]
    ensures { result.now ≡ text_of_kind kind }
{
    match kind {
        Kind::Le => b" <= 0",
        Kind::Lt => b" < 0",
        Kind::Eq => b" = 0",
        Kind::Ne => b" != 0",
    }
}

fn push_row(alloc: Global, text: &mut Vec<u8>, row: &Row) -> Result<(), AllocError>
    ensures { OnOk result (text.new.items ≡ text.old.items ++ row_text row.now) }
{
    push_term(alloc, text, &row.term)?;
    text.extend_from_slice(kind_text(row.kind))
}

// Writes rows, each behind a semicolon.
fn push_more_rows(alloc: Global, text: &mut Vec<u8>, rows: &[Row]) -> Result<(), AllocError>
    ensures { OnOk result (text.new.items
        ≡ text.old.items ++ flat_map (λ r. codes "; " ++ row_text r) rows.now) }
{
    for row in rows {
        text.extend_from_slice(b"; ")?;
        push_row(alloc, text, row)?;
    }
    Ok(())
}

/// Writes rows, with semicolons between them.
pub(crate) fn push_rows(alloc: Global, text: &mut Vec<u8>, rows: &[Row]) -> Result<(), AllocError>
    ensures { OnOk result (text.new.items ≡ text.old.items ++ items_text row_text rows.now) }
{
    let [first, more @ ..] = rows else {
        return Ok(());
    };
    push_row(alloc, text, first)?;
    push_more_rows(alloc, text, more)
}
