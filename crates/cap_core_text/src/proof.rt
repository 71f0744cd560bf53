//! The line of a proof.
ghost use Rattle.std.specs.Prelude.{◌≡◌, ◌++◌, [], OnOk, Some, codes};
ghost use Rattle.std.specs.Fmt.{decimal};
ghost use Rattle.cap_lin.specs.Solves.{Infeasible};
ghost use Rattle.cap_fm_spec.specs.Events.{wide};
ghost use Rattle.cap_core_text.specs.Lines.{core_text, found_text, proof_line, spaced};

use cap_core::core;
use cap_fm::SolveError;
use cap_lin::Row;
use std::alloc::{AllocError, Global};

// Writes a number behind a space.
fn push_number(alloc: Global, text: &mut Vec<u8>, number: u32) -> Result<(), AllocError>
    ensures { OnOk result (text.new.items ≡ text.old.items ++ (codes " " ++ decimal number)) }
{
    let number = format!(in alloc; " {number}")?;
    text.extend_from_slice(number.as_bytes())
}

// Writes numbers, each behind a space.
fn push_numbers(alloc: Global, text: &mut Vec<u8>, numbers: &[u32]) -> Result<(), AllocError>
    ensures { OnOk result (text.new.items ≡ text.old.items ++ spaced numbers.now) }
{
    for number in numbers {
        push_number(alloc, text, *number)?;
    }
    Ok(())
}

// Writes the operands of a result that leaves 128 bits.
fn push_wide(alloc: Global, text: &mut Vec<u8>, first: i128, second: i128) -> Result<(), AllocError>
    ensures { OnOk result
        (text.new.items ≡ text.old.items ++ found_text (Some (wide first second)) []) }
{
    let limit = format!(in alloc; " wide {first} {second}")?;
    text.extend_from_slice(limit.as_bytes())
}

// Writes the numbers of the rows of the core of infeasible rows, or the first limit that is passed
// before they are found. Rows past 32 bits count as want of memory.
fn push_core(alloc: Global, text: &mut Vec<u8>, rows: &[Row]) -> Result<(), AllocError>
    requires { Infeasible rows.now }
    ensures { OnOk result (text.new.items ≡ text.old.items ++ core_text rows.now) }
{
    if rows.len() >= u32::MAX as usize {
        return Err(AllocError);
    }
    match core(alloc, rows) {
        Ok(numbers) => push_numbers(alloc, text, &numbers),
        Err(SolveError::Wide(first, second)) => push_wide(alloc, text, first, second),
        Err(SolveError::Rows) => text.extend_from_slice(b" rows 4096"),
        Err(SolveError::OutOfMemory) => Err(AllocError),
    }
}

/// Writes the line of a proof by its number and that of its node, each from 1, of infeasible rows.
/// The only error is want of memory.
pub(crate) fn push_proof(
    alloc: Global,
    text: &mut Vec<u8>,
    node: u64,
    proof: u64,
    rows: &[Row],
) -> Result<(), AllocError>
    requires { Infeasible rows.now }
    ensures { OnOk result (text.new.items ≡ text.old.items ++ proof_line node proof rows.now) }
{
    let title = format!(in alloc; "node {node} proof {proof}:")?;
    text.extend_from_slice(title.as_bytes())?;
    push_core(alloc, text, rows)?;
    text.push(b'\n')?;
    Ok(())
}
