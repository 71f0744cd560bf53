//! Where a walk is.
ghost use Rattle.std.specs.Prelude.{◌≡◌, ◌∷◌, [], drop, length, OnOk, slice_get};
ghost use Rattle.cap_owners_spec.specs.Traced.{traced};
ghost use Rattle.cap_owners_spec.specs.Walks.{bringing, descends, nothing_taken, pass_create};
ghost use Rattle.cap_owners_spec.specs.Walks.{state_at, taking, with_region};
ghost use Rattle.cap_owners_passes.specs.Views.{with_new};
ghost use Rattle.cap_owners_values.specs.Views.{value_view, Traces};

use crate::lookup::region_at;
use cap_machine::Event;
use cap_owners_fill::{Fill, Regions, TrackedRegion};
use cap_owners_parts::Part;
use cap_owners_values::{TraceError, Value, Values};
use std::alloc::{AllocError, Global};
use std::marker::Model;

/// What is taken under way: by what its items are met so far, and what they own.
#[derive(Drop)]
pub struct Taking {
    pub fill: Fill,
    pub part: Part,
}

impl Model for Taking {
    ghost use Rattle.std.specs.Coded.{codes};
    ghost use Rattle.cap_owners_parts.specs.Codes.{part_code};
    ghost use Rattle.cap_owners_spec.specs.Walks.{Taking};

    ghost Value = { Taking };

    ghost coded = { Prim.hlevel (codes, part_code) };

    ghost view = { λ t. record {
      fill = t.fill;
      part = t.part;
    } };
}

impl Taking {
    /// Nothing yet. It takes no memory.
    pub fn new(alloc: Global) -> Taking
        ensures { result ≡ nothing_taken }
    {
        Taking {
            fill: Fill::new(alloc),
            part: Part::new(alloc),
        }
    }
}

/// The values of the variables; the regions by now, and the number of the next one; what is taken,
/// the innermost last; by what the next items that are given are met; the frame's own steps that
/// are still to come; and the number of the variable of the result of the last call.
///
/// A region that is made brings a variable, so the number of the next one is at most 1 more than
/// there are regions and values.
#[derive(Drop)]
pub struct Walk<'e> {
    pub values: Values,
    pub regions: Regions,
    pub next: i128,
    pub taken: Vec<Taking>,
    pub fill: Option<Fill>,
    pub events: &'e [Event],
    pub awaited: usize,
}

impl<'e> Model for Walk<'e> {
    ghost use Rattle.std.specs.Coded.{codes};
    ghost use Rattle.std.specs.Prelude.{◌+◌, ◌≤ℤ◌, length, pos, reverse};
    ghost use Rattle.cap_owners_parts.specs.Codes.{part_code};
    ghost use Rattle.cap_owners_spec.specs.Walks.{Walk};

    ghost Value = { Walk };

    ghost coded = { Prim.hlevel (codes, part_code) };

    ghost view = { λ w. record {
      values = w.values;
      regions = w.regions;
      next = w.next;
      taken = reverse w.taken.items;
      fill = w.fill;
      events = w.events.now;
      awaited = w.awaited;
    } };

    ghost invariant = { λ w. w.next ≤ℤ pos (1 + (length w.regions + length w.values)) };
}

// After an error of a call that changes a walk the walk is lost.
impl Walk<'_> {
    // Appends the value of a new variable.
    pub(crate) fn bring(&mut self, value: Value) -> Result<(), AllocError>
        ensures { OnOk result (self.new ≡ bringing self.old (value_view value ∷ [])) }
    {
        self.values.push(value)
    }

    // Appends the value of a new variable, if there is one.
    pub(crate) fn bring_new(&mut self, new: Option<Value>) -> Result<(), AllocError>
        ensures { OnOk result (self.new ≡ with_new self.old new) }
    {
        match new {
            None => Ok(()),
            Some(value) => self.bring(value),
        }
    }

    // Appends the values of new variables.
    pub(crate) fn bring_all(&mut self, values: &Values) -> Result<(), AllocError>
        ensures { OnOk result (self.new ≡ bringing self.old values.now) }
    {
        self.values.append(values)
    }

    // The next of the frame's own steps, which is not to come again.
    pub(crate) fn next_event(&mut self) -> Option<Event>
        ensures event { result ≡ slice_get self.old.events 0 }
        ensures rest { self.new ≡ record self.old { events = drop 1 self.old.events } }
    {
        match self.events {
            [] => None,
            [event, more @ ..] => {
                self.events = more;
                Some(*event)
            }
        }
    }

    // The state of the region of this number.
    pub(crate) fn state_at(&self, number: i128) -> Result<i128, TraceError>
        ensures { Traces result (λ z. z) (state_at self.now number) }
    {
        Ok(region_at(&self.regions, number)?.state)
    }

    // An assertion more is to be taken.
    pub(crate) fn begin_taking(&mut self, alloc: Global) -> Result<(), AllocError>
        ensures { OnOk result (self.new ≡ taking self.old) }
    {
        self.taken.push(Taking::new(alloc))?;
        Ok(())
    }

    // Nothing is taken any more but what an assertion says.
    pub(crate) fn take_alone(&mut self, alloc: Global) -> Result<(), AllocError>
        ensures { OnOk result (self.new ≡ taking (record self.old { taken = [] })) }
    {
        self.taken.clear();
        self.begin_taking(alloc)
    }

    // What is taken last, which is no longer under way.
    pub(crate) fn end_taking(&mut self) -> Option<Taking>
        ensures taken { result ≡ slice_get self.old.taken 0 }
        ensures rest { self.new ≡ record self.old { taken = drop 1 self.old.taken } }
    {
        self.taken.pop()
    }

    // What is taken last is under way again.
    pub(crate) fn go_on_taking(&mut self, top: Taking) -> Result<(), AllocError>
        ensures { OnOk result (self.new ≡ record self.old { taken = top ∷ self.old.taken }) }
    {
        self.taken.push(top)?;
        Ok(())
    }

    // By what items that are given are met, which nothing is any more.
    pub(crate) fn end_giving(&mut self) -> Option<Fill>
        ensures fill { result ≡ self.old.fill }
        ensures rest { self.new ≡ record self.old { fill = None } }
    {
        self.fill.take()
    }

    // By what items that are given next are met, if any are left.
    pub(crate) fn go_on_giving(&mut self, fill: Option<Fill>)
        ensures { self.new ≡ record self.old { fill = fill } }
    {
        self.fill = fill;
    }

    // The next region gets its number, which is the value of a new variable, and its case is taken.
    pub(crate) fn create(&mut self, alloc: Global) -> Result<(), AllocError>
        ensures { OnOk result (pass_create self.old ≡ traced (descends (Some 0) self.new)) }
    {
        let number = self.next;
        self.values.push(Value::Number(number))?;
        let known = self.regions.len() as i128 + self.values.len() as i128;
        prove!(number <= known);
        self.next = number + 1;
        self.begin_taking(alloc)
    }

    // A call's result is a new variable, and what the callee requires is to be taken.
    pub(crate) fn call(&mut self, alloc: Global, value: Value) -> Result<(), AllocError>
        ensures { OnOk result (self.new
            ≡ taking (record (bringing self.old (value_view value ∷ [])) {
              fill = None;
              taken = [];
              awaited = length self.old.values;
            })) }
    {
        self.awaited = self.values.len();
        self.bring(value)?;
        self.fill = None;
        self.take_alone(alloc)
    }

    // Puts a region in its place by its number, where one of this number goes.
    pub(crate) fn put_region(&mut self, region: TrackedRegion) -> Result<(), AllocError>
        ensures { OnOk result (self.new
            ≡ record self.old { regions = with_region region self.old.regions }) }
    {
        self.regions.put(region)
    }
}
