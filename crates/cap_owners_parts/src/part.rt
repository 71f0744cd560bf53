//! Parts.
ghost use Rattle.std.specs.Prelude.{◌≡◌, ◌∷◌, ◌++◌, [], true, IfOk, OnOk, List, map, ℤ};
ghost use Rattle.std.specs.Ordering.{int_cmp};
ghost use Rattle.std.specs.FinMap.{from_entries, insert};
ghost use Rattle.cap_prog.specs.Views.{program_view};
ghost use Rattle.cap_machine_accounts.specs.Parts.{atom_guard, guard_of, no_part};
ghost use Rattle.cap_machine_accounts.specs.Safety.{whole_part};
ghost use Rattle.cap_owners_spec.specs.Filling.{counts_fit, with_more};
ghost use Rattle.cap_owners_values.specs.Views.{Traces, value_view};
ghost use Rattle.cap_owners_parts.specs.Views.{element_view, entry_view, guard_view};
ghost use Rattle.cap_owners_parts.specs.Views.{with_asked};

use crate::element::Element;
use crate::guard::{Guard, join, kind_element};
use crate::made::asked_element;
use cap_owners_values::{TraceError, Value};
use cap_prog::{Asked, Program};
use std::alloc::{AllocError, Global};
use std::collections::BTreeMap;
use std::marker::Model;

/// What a frame or a region owns: cells by their addresses, and of each region one guard.
pub struct Part {
    pub(crate) cells: BTreeMap<i128, i128>,
    pub(crate) guards: BTreeMap<i128, Guard>,
}

impl Drop for Part {
    fn drop(self) {
        let Part {
            cells: _,
            guards: _,
        } = self;
    }
}

impl Model for Part {
    ghost use Rattle.cap_machine_accounts.specs.Parts.{Part};
    ghost use Rattle.cap_owners_parts.specs.Codes.{part_code};
    ghost use Rattle.cap_owners_parts.specs.Views.{part_of};

    ghost Value = { Part };

    ghost coded = { part_code };

    ghost view = { λ q. part_of q.cells.entries q.guards.entries };
}

impl Part {
    /// Nothing. It takes no memory.
    pub fn new(alloc: Global) -> Part
        ensures { result ≡ no_part }
    {
        Part {
            cells: BTreeMap::new(alloc),
            guards: BTreeMap::new(alloc),
        }
    }

    /// The cells of a whole heap: pairs of an address and its value; of two with one address the
    /// first counts.
    pub fn of_cells(alloc: Global, cells: &[(i128, i128)]) -> Result<Part, AllocError>
        ensures { IfOk result (λ q. q ≡ whole_part (from_entries cells.now)) }
    {
        Ok(Part {
            cells: first_cells(alloc, cells)?,
            guards: BTreeMap::new(alloc),
        })
    }

    /// The same part once more.
    pub fn copy(&self, alloc: Global) -> Result<Part, AllocError>
        ensures { IfOk result (λ q. q ≡ self.now) }
    {
        let cells = copy_cells(alloc, &self.cells)?;
        let guards = copy_guards(alloc, &self.guards)?;
        Ok(Part { cells, guards })
    }

    /// Puts a cell in, in place of the one at its address. After an error the part is lost.
    pub fn put_cell(&mut self, address: i128, value: i128) -> Result<(), AllocError>
        ensures { OnOk result (self.new
            ≡ record self.old { cells = insert self.old.cells address value }) }
    {
        self.cells.insert(address, value)?;
        Ok(())
    }

    /// Puts what is asked of a region's guard in, by the value at which it is met: the number of
    /// the region, its type, the atom. `PastWidth` comes where a count leaves 128 bits, and
    /// `Untold` where the value is none of what is asked or does not go with what the part has of
    /// the region's guards. After an error the part is lost.
    pub fn put_asked(
        &mut self,
        alloc: Global,
        program: &Program,
        region: i128,
        kind: u32,
        atom: u32,
        asked: &Asked,
        value: Value,
    ) -> Result<(), TraceError>
        ensures { Traces result (λ _. self.new) (with_asked (program_view program.now)
            self.old region kind atom asked.now (value_view value)) }
    {
        let element = asked_element(alloc, asked, value)?;
        self.put_atom(alloc, program, region, kind, atom, element)
    }

    /// Puts an element of one atom of a region's guards in. `PastWidth` comes where a count leaves
    /// 128 bits, and `Untold` where the element does not go with what the part has of the region's
    /// guards. After an error the part is lost.
    pub(crate) fn put_atom(
        &mut self,
        alloc: Global,
        program: &Program,
        region: i128,
        kind: u32,
        atom: u32,
        element: Element,
    ) -> Result<(), TraceError>
        requires fits { counts_fit (element_view element) ≡ true }
        ensures { Traces result (λ _. self.new) (with_more self.old region
            (atom_guard (program_view program.now) kind atom (element_view element))) }
    {
        let element = kind_element(alloc, program, kind, atom, element)?;
        self.put_guard(alloc, region, kind, element)
    }

    // Puts an element of a region's guards in.
    fn put_guard(
        &mut self,
        alloc: Global,
        region: i128,
        kind: u32,
        element: Element,
    ) -> Result<(), TraceError>
        requires fits { counts_fit (element_view element) ≡ true }
        ensures { Traces result (λ _. self.new)
            (with_more self.old region (guard_of kind (element_view element))) }
    {
        match join(alloc, self.guards.get(&region), kind, element)? {
            None => {
                self.guards.remove(&region);
                Ok(())
            }
            Some(guard) => {
                self.guards.insert(region, guard)?;
                Ok(())
            }
        }
    }
}

// Cells, of two with one address the first.
fn first_cells(alloc: Global, cells: &[(i128, i128)]) -> Result<BTreeMap<i128, i128>, AllocError>
    ensures { IfOk result (λ m. from_entries {R = int_cmp} m.entries ≡ from_entries cells.now) }
{
    let mut first = BTreeMap::new(alloc);
    for cell in cells {
        put_first(&mut first, cell.0, cell.1)?;
    }
    Ok(first)
}

// Puts a cell in where its address has none.
fn put_first(cells: &mut BTreeMap<i128, i128>, address: i128, value: i128) -> Result<(), AllocError>
    ensures { OnOk result ((es : List (ℤ × ℤ)) →
        from_entries {R = int_cmp} cells.old.entries ≡ from_entries es →
        from_entries {R = int_cmp} cells.new.entries ≡ from_entries (es ++ (address, value) ∷ [])) }
{
    if cells.contains_key(&address) {
        return Ok(());
    }
    cells.insert(address, value)?;
    Ok(())
}

fn copy_cells(
    alloc: Global,
    cells: &BTreeMap<i128, i128>,
) -> Result<BTreeMap<i128, i128>, AllocError>
    ensures { IfOk result
        (λ m. from_entries {R = int_cmp} m.entries ≡ from_entries cells.now.entries) }
{
    let mut copies = BTreeMap::new(alloc);
    for (address, value) in cells.iter() {
        copies.insert(*address, *value)?;
    }
    Ok(copies)
}

fn copy_guards(
    alloc: Global,
    guards: &BTreeMap<i128, Guard>,
) -> Result<BTreeMap<i128, Guard>, AllocError>
    ensures { IfOk result (λ m. from_entries {R = int_cmp} (map entry_view m.entries)
        ≡ from_entries (map entry_view guards.now.entries)) }
{
    let mut copies = BTreeMap::new(alloc);
    for (region, guard) in guards.iter() {
        put_copy(&mut copies, *region, guard.copy(alloc)?)?;
    }
    Ok(copies)
}

// Puts a guard in, in place of the one of its region.
fn put_copy(
    guards: &mut BTreeMap<i128, Guard>,
    region: i128,
    guard: Guard,
) -> Result<(), AllocError>
    ensures { OnOk result (from_entries {R = int_cmp} (map entry_view guards.new.entries)
        ≡ insert (from_entries (map entry_view guards.old.entries)) region (guard_view guard)) }
{
    guards.insert(region, guard)?;
    Ok(())
}
