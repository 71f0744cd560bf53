//! Items that are met, one after the other, by what is known at the start of a run.
ghost use Rattle.std.specs.Prelude.{◌≡◌, slice_get};
ghost use Rattle.cap_machine.specs.Machine.{compared};
ghost use Rattle.cap_prog.specs.Views.{item_view, items_view};
ghost use Rattle.cap_goal_spec.specs.Environments.{reading};
ghost use Rattle.cap_lin.specs.declared.row.Sort.TheVariants.{Int};
ghost use Rattle.cap_owners_spec.specs.Start.{compared_by, compared_shares};
ghost use Rattle.cap_owners_spec.specs.Start.{known_holds as is_known_to_hold};
ghost use Rattle.cap_owners_spec.specs.Start.{known_number as number_known, meets_all, meets_item};
ghost use Rattle.cap_owners_spec.specs.Start.{meets_slot, names_cell};
ghost use Rattle.cap_owners_start.specs.Views.{cell_met, named, outcome};
ghost use Rattle.cap_owners_values.specs.Views.{Traces};

use crate::cells::Cells;
use cap_goal::Env;
use cap_lin::{Op, Sort, Term};
use cap_owners_fill::{Fill, Reading, bind, is_determined, read_slot};
use cap_owners_values::{TraceError, Value};
use cap_prog::{Assertion, Comp, Item, Slot};
use std::alloc::Global;
use std::marker::Model;

/// Which names have values by now, by what the items are met so far, and the cells that are left. In
/// the environment names with values stand for 0.
#[derive(Drop)]
pub(crate) struct Meeting {
    pub(crate) env: Env,
    pub(crate) fill: Fill,
    pub(crate) heap: Cells,
}

impl Model for Meeting {
    ghost use Rattle.std.specs.Coded.{codes, coded_ℤ};
    ghost use Rattle.std.specs.FinMap as map;
    ghost use Rattle.std.specs.Ordering.{int_cmp};
    ghost use Rattle.cap_owners_spec.specs.Start.{Meeting};

    ghost Value = { Meeting };

    ghost coded = { Prim.hlevel (codes, map.code {R = int_cmp} coded_ℤ coded_ℤ) };

    ghost view = { λ m. record { env = m.env; fill = m.fill; heap = m.heap } };
}

fn compares(op: Op, left: i128, right: i128) -> bool
    ensures { result ≡ compared op left right }
{
    match op {
        Op::Eq => left == right,
        Op::Ne => left != right,
        Op::Lt => left < right,
        Op::Le => left <= right,
        Op::Gt => left > right,
        Op::Ge => left >= right,
    }
}

// Whether a comparison of shares holds: only whole ones are known.
fn shares_hold(comparison: &Comp) -> Result<bool, TraceError>
    ensures { Traces result (λ b. b) (compared_shares comparison.now
        comparison.now.left.parts comparison.now.right.parts) }
{
    if !comparison.left.parts().is_empty() {
        return Err(TraceError::Untold);
    }
    if !comparison.right.parts().is_empty() {
        return Err(TraceError::Untold);
    }
    let left = comparison.left.constant_part();
    let right = comparison.right.constant_part();
    Ok(compares(comparison.op, left, right))
}

impl Meeting {
    // The value of a term whose names have values by now.
    fn known_number(&self, term: &Term) -> Result<i128, TraceError>
        ensures { Traces result (λ z. z) (number_known self.now term.now) }
    {
        if !is_determined(&self.env, term) {
            return Err(TraceError::Untold);
        }
        self.fill.names.number_in(term)
    }

    // Whether a comparison of whole numbers holds.
    fn numbers_hold(&self, comparison: &Comp) -> Result<bool, TraceError>
        ensures { Traces result (λ b. b) (compared_by Int self.now comparison.now) }
    {
        let left = self.known_number(&comparison.left)?;
        let right = self.known_number(&comparison.right)?;
        Ok(compares(comparison.op, left, right))
    }

    // Whether a comparison holds.
    fn known_holds(&self, comparison: &Comp) -> Result<bool, TraceError>
        ensures { Traces result (λ b. b) (is_known_to_hold self.now comparison.now) }
    {
        match comparison.sort {
            Sort::Int => self.numbers_hold(comparison),
            Sort::Perm => shares_hold(comparison),
        }
    }

    // A name that has no value yet gets that of a cell. `Untold` comes where it is none of a whole
    // number.
    fn name_cell(&mut self, alloc: Global, name: u32, value: i128) -> Result<(), TraceError>
        ensures { Traces result (λ _. named self.new)
            (names_cell (slice_get self.old.fill.names name) name value self.old) }
    {
        let place = name as usize;
        if place >= self.fill.names.len() {
            return Err(TraceError::Untold);
        }
        match self.fill.names.at(name) {
            Value::Number(_) => {
                bind(alloc, &mut self.env, name);
                self.fill.names.put(place, Value::Number(value));
                Ok(())
            }
            Value::Share(_) => Err(TraceError::Untold),
        }
    }

    // Whether a slot is met by what a cell holds.
    fn meet_slot(&mut self, alloc: Global, slot: &Slot, value: i128) -> Result<bool, TraceError>
        ensures { Traces result (outcome self.new)
            (meets_slot (reading self.old.env slot.now) value self.old) }
    {
        match read_slot(&self.env, slot) {
            Reading::Settled(term) => {
                let number = self.fill.names.number_in(term)?;
                Ok(number == value)
            }
            Reading::OpenTo(None) => {
                self.fill.wildcards.push(Value::Number(value))?;
                Ok(true)
            }
            Reading::OpenTo(Some(name)) => {
                self.name_cell(alloc, name, value)?;
                Ok(true)
            }
            Reading::Stuck => Err(TraceError::Untold),
        }
    }

    // Whether a cell is there, and its content met by what it holds. It is taken away.
    fn meet_cell(
        &mut self,
        alloc: Global,
        address: &Term,
        content: &Slot,
    ) -> Result<bool, TraceError>
        ensures { Traces result (outcome self.new)
            (cell_met address.now content.now self.old) }
    {
        let address = self.known_number(address)?;
        match self.heap.at(address) {
            None => Ok(false),
            Some(value) => {
                if address <= 0 {
                    return Ok(false);
                }
                self.heap.remove(address);
                self.meet_slot(alloc, content, value)
            }
        }
    }

    // Whether an item is met.
    #[cycle(meets)]
    fn meet_item(&mut self, alloc: Global, item: &Item) -> Result<bool, TraceError>
        ensures { Traces result (outcome self.new) (meets_item (item_view item.now) self.old) }
    {
        match item {
            Item::Compare(comparison) => self.known_holds(comparison),
            Item::Choose(comparison, holding, failing) => {
                if self.known_holds(comparison)? {
                    self.meet_all(alloc, holding)
                } else {
                    self.meet_all(alloc, failing)
                }
            }
            Item::Fact(_, _, _, _, _) => Ok(false),
            Item::Atom(_, _, _, _, _) => Err(TraceError::Untold),
            Item::Cell(_, address, content) => self.meet_cell(alloc, address, content),
        }
    }

    /// Whether all items of an assertion are met, one after the other, by which the meeting then is.
    /// `PastWidth` comes where a term leaves 128 bits, and `Untold` where an item asks for what isn't
    /// known at a start: a guard, a share other than the whole one, a term with names that have no
    /// values yet. The meeting is lost after an error, and where an item isn't met.
    #[cycle(meets)]
    pub(crate) fn meet_all(
        &mut self,
        alloc: Global,
        assertion: &Assertion,
    ) -> Result<bool, TraceError>
        ensures { Traces result (outcome self.new)
            (meets_all (items_view assertion.now) self.old) }
    {
        for item in &assertion.items {
            if !self.meet_item(alloc, item)? {
                return Ok(false);
            }
        }
        Ok(true)
    }
}
