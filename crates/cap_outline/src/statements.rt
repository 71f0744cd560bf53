//! The text of statements, each with the lines that were gathered of it.
ghost use Rattle.std.specs.Prelude.{◌≡◌, ◌++◌, OnOk};
ghost use Rattle.cap_prog.specs.Parts.{all_statements, block_statements};
ghost use Rattle.cap_prog.specs.Views.{act_view, block_view, statement_view};
ghost use Rattle.cap_outline.specs.Gathered.{gathered_text, gathered_texts};

use crate::gathered::Gathered;
use cap_prog::{Act, Statement};
use std::alloc::{AllocError, Global};

// Writes the lines of a statement.
fn push_statement(
    alloc: Global,
    text: &mut Vec<u8>,
    gathered: &Gathered,
    function: usize,
    statement: &Statement,
) -> Result<(), AllocError>
    ensures { OnOk result (text.new.items ≡ text.old.items
        ++ gathered_text gathered.now function (statement_view statement.now)) }
{
    let place = statement.place;
    let line = format!(in alloc; "at {place}\n")?;
    text.extend_from_slice(line.as_bytes())?;
    text.extend_from_slice(gathered.at(function, statement.number as usize))
}

// Writes the lines of the statements within a statement.
#[cycle(statements)]
fn push_within(
    alloc: Global,
    text: &mut Vec<u8>,
    gathered: &Gathered,
    function: usize,
    act: &Act,
) -> Result<(), AllocError>
    ensures { OnOk result (text.new.items ≡ text.old.items
        ++ gathered_texts gathered.now function (block_statements (act_view act.now))) }
{
    match act {
        Act::If(_, yes, no) => {
            push_statements(alloc, text, gathered, function, yes)?;
            push_statements(alloc, text, gathered, function, no)
        }
        Act::While(_, _, body) => push_statements(alloc, text, gathered, function, body),
        Act::Set(_, _)
        | Act::Read(_, _)
        | Act::Write(_, _)
        | Act::Cas(_, _, _, _)
        | Act::Faa(_, _, _)
        | Act::Dispose(_)
        | Act::Alloc(_, _)
        | Act::Call(_, _, _)
        | Act::Fork(_, _)
        | Act::Assert(_)
        | Act::Return(_) => Ok(()),
    }
}

/// Writes the lines of the statements of a list, also of those within them, in the order of the
/// text.
#[cycle(statements)]
pub(crate) fn push_statements(
    alloc: Global,
    text: &mut Vec<u8>,
    gathered: &Gathered,
    function: usize,
    list: &[Statement],
) -> Result<(), AllocError>
    ensures { OnOk result (text.new.items ≡ text.old.items
        ++ gathered_texts gathered.now function (all_statements (block_view list.now))) }
{
    for statement in list {
        push_statement(alloc, text, gathered, function, statement)?;
        push_within(alloc, text, gathered, function, &statement.act)?;
    }
    Ok(())
}
