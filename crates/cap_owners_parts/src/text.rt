//! The text of parts and of values.
ghost use Rattle.std.specs.Prelude.{◌≡◌, ◌++◌, OnOk, IfOk, flat_map, map};
ghost use Rattle.std.specs.Ordering.{int_cmp};
ghost use Rattle.std.specs.List.{join_by};
ghost use Rattle.std.specs.FinMap.{entries, from_entries};
ghost use Rattle.cap_prog.specs.Views.{program_view};
ghost use Rattle.cap_outline_spec.specs.Texts.{atom_name as name_of_atom};
ghost use Rattle.cap_machine_accounts.specs.Parts.{algebra_of};
ghost use Rattle.cap_owners_spec.specs.Texts.{atom_texts, guard_text, name_value_text};
ghost use Rattle.cap_owners_spec.specs.Texts.{owned_cell_text, part_text};
ghost use Rattle.cap_owners_values.specs.Views.{value_view};
ghost use Rattle.cap_owners_parts.specs.Lines.{part_texts};
ghost use Rattle.cap_owners_parts.specs.Views.{element_view, entry_view, guard_view};

use crate::atom_text::{add_atoms, add_own};
use crate::fraction::{push_number, push_share};
use crate::guard::Guard;
use crate::names::atom_name;
use crate::part::Part;
use cap_owners_values::Value;
use cap_prog::Program;
use std::alloc::{AllocError, Global};
use std::collections::BTreeMap;

/// Writes a part: its cells by their addresses, and then its guards by the numbers of their
/// regions.
pub fn push_part(
    alloc: Global,
    text: &mut Vec<u8>,
    program: &Program,
    part: &Part,
) -> Result<(), AllocError>
    ensures { OnOk result (text.new.items
        ≡ text.old.items ++ part_text (program_view program.now) part.now) }
{
    let texts = part_texts(alloc, program, part)?;
    if texts.is_empty() {
        return text.extend_from_slice(b"nothing");
    }
    push_joined(text, &texts, b", ")
}

/// Writes the value of a name, a share in lowest terms.
pub fn push_value(alloc: Global, text: &mut Vec<u8>, value: Value) -> Result<(), AllocError>
    ensures { OnOk result
        (text.new.items ≡ text.old.items ++ name_value_text (value_view value)) }
{
    match value {
        Value::Number(number) => push_number(alloc, text, number),
        Value::Share(share) => push_share(alloc, text, share),
    }
}

// The texts of cells and of guards.
fn part_texts(alloc: Global, program: &Program, part: &Part) -> Result<Vec<Vec<u8>>, AllocError>
    ensures { IfOk result
        (λ ts. map (λ t. t.items) ts.items ≡ part_texts (program_view program.now) part.now) }
{
    let mut texts = Vec::new(alloc);
    add_cells(alloc, &mut texts, &part.cells)?;
    add_guards(alloc, &mut texts, program, &part.guards)?;
    Ok(texts)
}

fn add_cells(
    alloc: Global,
    texts: &mut Vec<Vec<u8>>,
    cells: &BTreeMap<i128, i128>,
) -> Result<(), AllocError>
    ensures { OnOk result (map (λ t. t.items) texts.new.items ≡ map (λ t. t.items) texts.old.items
        ++ map owned_cell_text (entries (from_entries {R = int_cmp} cells.now.entries))) }
{
    for (address, value) in cells.iter() {
        texts.push(cell_text(alloc, *address, *value)?)?;
    }
    Ok(())
}

fn cell_text(alloc: Global, address: i128, value: i128) -> Result<Vec<u8>, AllocError>
    ensures { IfOk result (λ t. t.items ≡ owned_cell_text (address, value)) }
{
    let mut text = Vec::new(alloc);
    push_number(alloc, &mut text, address)?;
    text.extend_from_slice(b" |-> ")?;
    push_number(alloc, &mut text, value)?;
    Ok(text)
}

fn add_guards(
    alloc: Global,
    texts: &mut Vec<Vec<u8>>,
    program: &Program,
    guards: &BTreeMap<i128, Guard>,
) -> Result<(), AllocError>
    ensures { OnOk result (map (λ t. t.items) texts.new.items ≡ map (λ t. t.items) texts.old.items
        ++ map (guard_text (program_view program.now))
        (entries (from_entries {R = int_cmp} (map entry_view guards.now.entries)))) }
{
    for (region, guard) in guards.iter() {
        texts.push(guard_text(alloc, program, *region, guard)?)?;
    }
    Ok(())
}

fn guard_text(
    alloc: Global,
    program: &Program,
    region: i128,
    guard: &Guard,
) -> Result<Vec<u8>, AllocError>
    ensures { IfOk result
        (λ t. t.items ≡ guard_text (program_view program.now) (region, guard_view guard.now)) }
{
    let texts = guard_atoms(alloc, program, guard)?;
    let mut text = Vec::new(alloc);
    push_number(alloc, &mut text, region)?;
    text.push(b'@')?;
    push_joined(&mut text, &texts, b" * ")?;
    Ok(text)
}

fn guard_atoms(alloc: Global, program: &Program, guard: &Guard) -> Result<Vec<Vec<u8>>, AllocError>
    ensures { let p = program_view program.now in
        IfOk result (λ ts. map (λ t. t.items) ts.items ≡ atom_texts (name_of_atom p guard.now.kind)
        (algebra_of p guard.now.kind) 0 (element_view guard.now.element)) }
{
    let mut texts = Vec::new(alloc);
    match program.regions().get(guard.kind as usize) {
        None => {
            let name = atom_name(program, guard.kind, 0);
            add_own(alloc, &mut texts, name, &guard.element)?;
            Ok(texts)
        }
        Some(region) => {
            let algebra = &region.algebra;
            add_atoms(
                alloc,
                &mut texts,
                program,
                guard.kind,
                algebra,
                0,
                &guard.element,
            )?;
            Ok(texts)
        }
    }
}

// Writes texts, with a separator between them.
fn push_joined(text: &mut Vec<u8>, texts: &[Vec<u8>], separator: &[u8]) -> Result<(), AllocError>
    ensures { OnOk result (text.new.items ≡ text.old.items
        ++ join_by (λ t. t) separator.now (map (λ t. t.items) texts.now)) }
{
    let [first, more @ ..] = texts else {
        return Ok(());
    };
    text.extend_from_slice(first)?;
    push_more(text, more, separator)
}

// Writes texts, each behind a separator.
fn push_more(text: &mut Vec<u8>, texts: &[Vec<u8>], separator: &[u8]) -> Result<(), AllocError>
    ensures { OnOk result (text.new.items ≡ text.old.items
        ++ flat_map (λ t. separator.now ++ t) (map (λ t. t.items) texts.now)) }
{
    for more in texts {
        text.extend_from_slice(separator)?;
        text.extend_from_slice(more)?;
    }
    Ok(())
}
