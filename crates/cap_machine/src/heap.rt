//! The heap.
ghost use Rattle.std.specs.Prelude.{◌≡◌, ◌↔◌, ◌-◌, ◌<◌, pos};
ghost use Rattle.std.specs.Prelude.{◌+ℤ◌, true, is_none, IfOk, IsSome};
ghost use Rattle.std.specs.Prelude.{OnOk, OnErr, IsTrue, ℕ};
ghost use Rattle.std.specs.FinMap as map;
ghost use Rattle.std.specs.FinMap.{get, insert, from_entries};
ghost use Rattle.cap_lin.specs.Steps.{fits};
ghost use Rattle.cap_prog.specs.Program.{alloc};
ghost use Rattle.cap_prog.specs.Views.{act_view};
ghost use Rattle.cap_machine.specs.Machine.{are_free, with_cells};
ghost use Rattle.cap_machine.specs.Cells.{AscendsFrom, IsTop};
ghost use Rattle.cap_machine.specs.Laws.{BaseFits};

use cap_prog::Act;
use std::alloc::{AllocError, Global};
use std::collections::BTreeMap;
use std::marker::Model;

/// The cells, by their addresses.
#[derive(Drop)]
pub(crate) struct Heap {
    cells: BTreeMap<i128, i128>,
}

impl Model for Heap {
    ghost use Rattle.std.specs.Ordering.{int_cmp};
    ghost use Rattle.std.specs.Prelude.{ℤ};
    ghost use Rattle.std.specs.FinMap as map;
    ghost use Rattle.std.specs.Coded.{coded_ℤ};
    ghost use Rattle.cap_machine.specs.Cells.{IsNarrow};

    ghost Value = { map.FinMap int_cmp ℤ };

    ghost coded = { map.code coded_ℤ coded_ℤ };

    ghost view = { λ h. map.from_entries h.cells.entries };

    ghost invariant = { λ h. IsNarrow (map.from_entries h.cells.entries) };
}

impl Heap {
    /// The heap of these cells, whose addresses ascend.
    pub(crate) fn of(alloc: Global, cells: &[(i128, i128)]) -> Result<Heap, AllocError>
        requires { AscendsFrom (pos 0) cells.now }
        ensures { IfOk result (λ h. h ≡ from_entries cells.now) }
    {
        let mut heap = Heap {
            cells: BTreeMap::new(alloc),
        };
        for cell in cells {
            heap.add(cell.0, cell.1)?;
        }
        Ok(heap)
    }

    // Adds a cell, or changes the one at its address.
    fn add(&mut self, address: i128, value: i128) -> Result<(), AllocError>
        ensures ok { OnOk result (self.new ≡ insert self.old address value) }
        ensures err { OnErr result (self.new ≡ self.old) }
    {
        self.cells.insert(address, value)?;
        Ok(())
    }

    /// What the cell at an address holds, if it is there.
    pub(crate) fn get(&self, address: i128) -> Option<i128>
        ensures { result ≡ get self.now address }
    {
        self.cells.get(&address).copied()
    }

    /// Writes to a cell that is there.
    pub(crate) fn write(&mut self, address: i128, value: i128)
        requires { IsSome (get self.old address) }
        ensures { self.new ≡ insert self.old address value }
    {
        let _ = self.cells.insert(address, value);
    }

    /// Takes a cell away.
    pub(crate) fn remove(&mut self, address: i128)
        ensures { self.new ≡ map.remove self.old address }
    {
        self.cells.remove(&address);
    }

    /// Whether no cell is at the addresses from a base on, as many as `count` says. No cell is at
    /// an address past 128 bits.
    pub(crate) fn is_free(&self, base: i128, count: u32) -> bool
        ensures { result ≡ are_free self.now base count }
    {
        if count == 0 {
            return true;
        }
        self.is_free(base, count - 1) && self.is_absent(base, count - 1)
    }

    // Whether no cell is at the address at an offset from a base.
    fn is_absent(&self, base: i128, offset: u32) -> bool
        ensures { result ≡ is_none (get self.now (base +ℤ pos offset)) }
    {
        let cells = &self.cells;
        match base.checked_add(i128::from(offset)) {
            None => true,
            Some(address) => !cells.contains_key(&address),
        }
    }

    /// Whether a base is as a statement takes it: an allocation takes one that is at least 1, from
    /// which on no cell is at the addresses of its cells, and no other statement takes a base.
    pub(crate) fn suits(&self, act: &Act, base: Option<i128>) -> bool
        ensures { IsTrue result ↔ BaseFits self.now (act_view act.now) base }
    {
        match act {
            Act::Alloc(_, count) => self.may_be_at(base, *count),
            Act::Set(_, _)
            | Act::Read(_, _)
            | Act::Write(_, _)
            | Act::Cas(_, _, _, _)
            | Act::Faa(_, _, _)
            | Act::Dispose(_)
            | Act::Call(_, _, _)
            | Act::Fork(_, _)
            | Act::If(_, _, _)
            | Act::While(_, _, _)
            | Act::Assert(_)
            | Act::Return(_) => base.is_none(),
        }
    }

    // Whether new cells may be at a base.
    fn may_be_at(&self, base: Option<i128>, count: u32) -> bool
        ensures { (x : ℕ) → IsTrue result ↔ BaseFits self.now (alloc x count) base }
    {
        match base {
            None => false,
            Some(base) => base >= 1 && self.is_free(base, count),
        }
    }

    /// Adds new cells, which hold 0, at the addresses from a base on. Where memory runs out the
    /// heap is as it was.
    pub(crate) fn allocate(&mut self, base: i128, count: u32) -> Result<(), AllocError>
        requires free { are_free self.old base count ≡ true }
        requires narrow { 0 < count → fits (base +ℤ pos (count - 1)) ≡ true }
        ensures ok { OnOk result (self.new ≡ with_cells self.old base count) }
        ensures err { OnErr result (self.new ≡ self.old) }
    {
        if count == 0 {
            return Ok(());
        }
        let last = base + i128::from(count - 1);
        self.add(last, 0)?;
        if let Err(e) = self.allocate(base, count - 1) {
            self.remove(last);
            return Err(e);
        }
        Ok(())
    }

    /// The greatest address, and none where there is no cell.
    pub(crate) fn top(&self) -> Option<i128>
        ensures { IsTop self.now result }
    {
        match self.cells.last_key_value() {
            None => None,
            Some((address, _)) => Some(*address),
        }
    }
}
