//! The text of a schedule is written line by line.
ghost use Rattle.std.specs.Prelude.{◌≡◌, ◌++◌, IfOk, OnOk, string_bytes, flat_map, codes};
ghost use Rattle.std.specs.Fmt.{signed_decimal};
ghost use Rattle.cap_replay_schedules.specs.Writing.{numbers_text, cell_text, entry_text};
ghost use Rattle.cap_replay_schedules.specs.Writing.{schedule_text as text_of, schedule_view};

use cap_machine::Entry;
use cap_replay_schedules::Schedule;
use std::alloc::{AllocError, Global};

// A number, behind a space.
fn number_text(alloc: Global, number: i128) -> Result<String, AllocError>
    ensures { IfOk result (λ text. string_bytes text ≡ codes " " ++ signed_decimal number) }
{
    format!(in alloc; " {number}")
}

fn cell_text(alloc: Global, address: i128, value: i128) -> Result<String, AllocError>
    ensures { IfOk result (λ text. string_bytes text ≡ cell_text (address, value)) }
{
    let mut text = format!(in alloc; "cell {address}")?;
    let value = number_text(alloc, value)?;
    text.push_str(value.as_str())?;
    Ok(text)
}

fn entry_text(alloc: Global, entry: &Entry) -> Result<String, AllocError>
    ensures { IfOk result (λ text. string_bytes text ≡ entry_text entry.now) }
{
    let thread = entry.thread;
    let mut text = format!(in alloc; "step {thread}")?;
    match entry.base {
        None => Ok(text),
        Some(base) => {
            let base = number_text(alloc, base)?;
            text.push_str(base.as_str())?;
            Ok(text)
        }
    }
}

fn push_line(text: &mut Vec<u8>, line: &str) -> Result<(), AllocError>
    ensures { OnOk result (text.new.items ≡ text.old.items ++ (line.now ++ codes "\n")) }
{
    text.extend_from_slice(line.as_bytes())?;
    text.extend_from_slice(b"\n")
}

fn push_number(alloc: Global, text: &mut Vec<u8>, number: i128) -> Result<(), AllocError>
    ensures { OnOk result
        (text.new.items ≡ text.old.items ++ (codes " " ++ signed_decimal number)) }
{
    let number = number_text(alloc, number)?;
    text.extend_from_slice(number.as_bytes())
}

fn push_numbers(alloc: Global, text: &mut Vec<u8>, numbers: &[i128]) -> Result<(), AllocError>
    ensures { OnOk result (text.new.items ≡ text.old.items ++ numbers_text numbers.now) }
{
    for number in numbers {
        push_number(alloc, text, *number)?;
    }
    Ok(())
}

fn push_cell(alloc: Global, text: &mut Vec<u8>, cell: &(i128, i128)) -> Result<(), AllocError>
    ensures { OnOk result (text.new.items ≡ text.old.items ++ (cell_text cell.now ++ codes "\n")) }
{
    let line = cell_text(alloc, cell.0, cell.1)?;
    push_line(text, line.as_str())
}

fn push_cells(alloc: Global, text: &mut Vec<u8>, cells: &[(i128, i128)]) -> Result<(), AllocError>
    ensures { OnOk result (text.new.items
        ≡ text.old.items ++ flat_map (λ c. cell_text c ++ codes "\n") cells.now) }
{
    for cell in cells {
        push_cell(alloc, text, cell)?;
    }
    Ok(())
}

fn push_entry(alloc: Global, text: &mut Vec<u8>, entry: &Entry) -> Result<(), AllocError>
    ensures { OnOk result
        (text.new.items ≡ text.old.items ++ (entry_text entry.now ++ codes "\n")) }
{
    let line = entry_text(alloc, entry)?;
    push_line(text, line.as_str())
}

fn push_entries(alloc: Global, text: &mut Vec<u8>, entries: &[Entry]) -> Result<(), AllocError>
    ensures { OnOk result (text.new.items
        ≡ text.old.items ++ flat_map (λ e. entry_text e ++ codes "\n") entries.now) }
{
    for entry in entries {
        push_entry(alloc, text, entry)?;
    }
    Ok(())
}

/// The canonical text of a schedule. Where the addresses of its heap are at least 1 and ascend, and
/// there are at most 100,000 entries, it is read as this schedule
/// (`cap_replay::written_schedules_are_read_back`). Each schedule that `stray` finds is one of these
/// (`found_schedules_are_read_back`). The only error is want of memory.
pub fn schedule_text(alloc: Global, schedule: &Schedule) -> Result<Vec<u8>, AllocError>
    ensures { IfOk result (λ text. text.items ≡ text_of (schedule_view schedule.now)) }
{
    let mut text = Vec::from_slice(alloc, b"start")?;
    push_numbers(alloc, &mut text, &schedule.args)?;
    text.extend_from_slice(b"\n")?;
    push_cells(alloc, &mut text, &schedule.heap)?;
    push_entries(alloc, &mut text, &schedule.entries)?;
    text.extend_from_slice(b"end\n")?;
    Ok(text)
}
