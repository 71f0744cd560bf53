//! Terms and rows as texts, such as `2*v0 + -3 <= 0`.

use cap_lin::{Kind, LinError, Row, Sort, Term};
use std::alloc::{AllocError, Global};

// Puts a number behind a word at the end of a text.
pub fn put(alloc: Global, text: &mut String, word: &str, number: i128) -> Result<(), AllocError> {
    text.push_str(word)?;
    let digits = format!(in alloc; "{number}")?;
    text.push_str(digits.as_str())
}

fn put_part(alloc: Global, text: &mut String, part: &(u32, i128)) -> Result<(), AllocError> {
    if part.1 != 1 {
        put(alloc, text, "", part.1)?;
        text.push_str("*")?;
    }
    put(alloc, text, "v", part.0 as i128)
}

// The parts as the term has them, and its constant, if that is not 0 or stands alone.
pub fn put_term(alloc: Global, text: &mut String, term: &Term) -> Result<(), AllocError> {
    let mut between = "";
    for part in term.parts() {
        text.push_str(between)?;
        put_part(alloc, text, part)?;
        between = " + ";
    }
    if term.constant_part() != 0 || term.parts().is_empty() {
        put(alloc, text, between, term.constant_part())?;
    }
    Ok(())
}

// A row of fractions says so.
pub fn put_row(alloc: Global, text: &mut String, row: &Row) -> Result<(), AllocError> {
    put_term(alloc, text, &row.term)?;
    text.push_str(match row.kind {
        Kind::Le => " <= 0",
        Kind::Lt => " < 0",
        Kind::Eq => " = 0",
        Kind::Ne => " != 0",
    })?;
    text.push_str(match row.sort {
        Sort::Int => "",
        Sort::Perm => " (Perm)",
    })
}

// The rows, with a comma between two.
pub fn put_rows(alloc: Global, text: &mut String, rows: &[Row]) -> Result<(), AllocError> {
    let mut between = "";
    for row in rows {
        text.push_str(between)?;
        put_row(alloc, text, row)?;
        between = ", ";
    }
    Ok(())
}

// The operands of what is wide. Want of memory is handed on.
pub fn put_error(alloc: Global, text: &mut String, error: LinError) -> Result<(), AllocError> {
    match error {
        LinError::Wide(first, second) => {
            put(alloc, text, "wide ", first)?;
            put(alloc, text, " ", second)
        }
        LinError::OutOfMemory => Err(AllocError),
    }
}

// The sum of a constant and of multiples of variables.
pub fn sum(alloc: Global, constant: i128, parts: &[(u32, i128)]) -> Result<Term, LinError> {
    let mut sum = Term::constant(alloc, constant);
    for part in parts {
        let (variable, coefficient) = *part;
        let multiple = Term::var(alloc, variable)?.scale(alloc, coefficient)?;
        sum = sum.add(alloc, &multiple)?;
    }
    Ok(sum)
}
