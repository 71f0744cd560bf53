//! The number of a loop among those of its function.
ghost use Rattle.std.specs.Prelude.{◌≡◌, ◌++◌, ◌==◌, position, IfOk, OnOk};
ghost use Rattle.cap_prog.specs.Parts.{all_statements, block_statements};
ghost use Rattle.cap_prog.specs.Views.{act_view, block_view, function_view, statement_view};
ghost use Rattle.cap_owners.specs.Loops.{loop_at, loop_numbers, number_if_loop};

use cap_prog::{Act, Function, Statement};
use std::alloc::{AllocError, Global};

// Appends the number of a statement that is a loop.
fn push_own(numbers: &mut Vec<u32>, statement: &Statement) -> Result<(), AllocError>
    ensures { OnOk result (numbers.new.items ≡ numbers.old.items
        ++ number_if_loop statement.now.number (statement_view statement.now).act) }
{
    match &statement.act {
        Act::While(_, _, _) => Ok(numbers.push(statement.number)?),
        Act::Set(_, _)
        | Act::Read(_, _)
        | Act::Write(_, _)
        | Act::Cas(_, _, _, _)
        | Act::Faa(_, _, _)
        | Act::Dispose(_)
        | Act::Alloc(_, _)
        | Act::Call(_, _, _)
        | Act::Fork(_, _)
        | Act::If(_, _, _)
        | Act::Assert(_)
        | Act::Return(_) => Ok(()),
    }
}

// Appends the numbers of the loops within a statement.
#[cycle(loops)]
fn push_within(numbers: &mut Vec<u32>, act: &Act) -> Result<(), AllocError>
    ensures { OnOk result (numbers.new.items
        ≡ numbers.old.items ++ loop_numbers (block_statements (act_view act.now))) }
{
    match act {
        Act::If(_, yes, no) => {
            push_loops(numbers, yes)?;
            push_loops(numbers, no)
        }
        Act::While(_, _, body) => push_loops(numbers, body),
        Act::Set(_, _)
        | Act::Read(_, _)
        | Act::Write(_, _)
        | Act::Cas(_, _, _, _)
        | Act::Faa(_, _, _)
        | Act::Dispose(_)
        | Act::Alloc(_, _)
        | Act::Call(_, _, _)
        | Act::Fork(_, _)
        | Act::Assert(_)
        | Act::Return(_) => Ok(()),
    }
}

// Appends the numbers of the loops of a list of statements, in the order of the text.
#[cycle(loops)]
fn push_loops(numbers: &mut Vec<u32>, list: &[Statement]) -> Result<(), AllocError>
    ensures { OnOk result (numbers.new.items
        ≡ numbers.old.items ++ loop_numbers (all_statements (block_view list.now))) }
{
    for statement in list {
        push_own(numbers, statement)?;
        push_within(numbers, &statement.act)?;
    }
    Ok(())
}

// The first place of a number.
fn place_of(numbers: &[u32], number: u32) -> Option<usize>
    ensures { result ≡ position (λ n. n == number) numbers.now }
{
    numbers.iter().position(|there| *there == number)
}

/// Which loop of a function, from 0 in the order of the text, has a statement of this number. The
/// only error is want of memory.
pub(crate) fn loop_number(
    alloc: Global,
    function: &Function,
    number: Option<u32>,
) -> Result<Option<usize>, AllocError>
    ensures { IfOk result (λ i. i ≡ loop_at (function_view function.now) number) }
{
    let Some(number) = number else {
        return Ok(None);
    };
    let mut numbers = Vec::new(alloc);
    push_loops(&mut numbers, &function.body)?;
    Ok(place_of(&numbers, number))
}
