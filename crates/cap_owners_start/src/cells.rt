//! The cells of a heap.
ghost use Rattle.std.specs.Prelude.{◌≡◌, IfOk, OnOk};
ghost use Rattle.std.specs.FinMap as map;
ghost use Rattle.std.specs.FinMap.{from_entries, get, insert};

use std::alloc::{AllocError, Global};
use std::collections::BTreeMap;
use std::marker::Model;

/// Cells, by their addresses.
#[derive(Drop)]
pub(crate) struct Cells {
    cells: BTreeMap<i128, i128>,
}

impl Model for Cells {
    ghost use Rattle.std.specs.Coded.{coded_ℤ};
    ghost use Rattle.std.specs.FinMap as map;
    ghost use Rattle.std.specs.Ordering.{int_cmp};
    ghost use Rattle.std.specs.Prelude.{ℤ};

    ghost Value = { map.FinMap int_cmp ℤ };

    ghost coded = { map.code coded_ℤ coded_ℤ };

    ghost view = { λ h. map.from_entries h.cells.entries };
}

impl Cells {
    /// Cells by pairs of an address and a value; of two pairs with one address the first counts.
    pub(crate) fn of(alloc: Global, pairs: &[(i128, i128)]) -> Result<Cells, AllocError>
        ensures { IfOk result (λ h. h ≡ from_entries pairs.now) }
    {
        let mut cells = Cells {
            cells: BTreeMap::new(alloc),
        };
        let mut count = pairs.len();
        while count > 0 {
            count -= 1;
            cells.put(pairs[count].0, pairs[count].1)?;
        }
        Ok(cells)
    }

    // Puts a cell in, in place of the one at its address.
    fn put(&mut self, address: i128, value: i128) -> Result<(), AllocError>
        ensures { OnOk result (self.new ≡ insert self.old address value) }
    {
        self.cells.insert(address, value)?;
        Ok(())
    }

    /// What the cell at an address holds, if it is there. It takes no memory.
    pub(crate) fn at(&self, address: i128) -> Option<i128>
        ensures { result ≡ get self.now address }
    {
        self.cells.get(&address).copied()
    }

    /// Takes a cell away.
    pub(crate) fn remove(&mut self, address: i128)
        ensures { self.new ≡ map.remove self.old address }
    {
        self.cells.remove(&address);
    }
}
