//! The regions of a track.
ghost use Rattle.std.specs.Bool.{MatchBool};
ghost use Rattle.std.specs.Prelude.{◌≡◌, ◌<◌, IfOk, OnErr, OnOk, length, slice_index_or, pos};
ghost use Rattle.std.specs.Prelude.{option_copied, slice_get, []};
ghost use Rattle.cap_owners_spec.specs.Steps.{is_current, is_in_state};
ghost use Rattle.cap_owners_spec.specs.Track.{tracked_at};
ghost use Rattle.cap_owners_spec.specs.Walks.{with_region};
ghost use Rattle.cap_owners_fill.specs.Views.{Ascend, HasAt, IsPlaceOf, numbers};

use crate::fill::Fill;
use cap_owners_parts::Part;
use std::alloc::{AllocError, Global};
use std::marker::Model;
use std::rc::Rc;

/// A region with its part, and the case and what it was by which it owns that. Arguments are without
/// the region itself.
pub struct TrackedRegion {
    pub number: i128,
    pub kind: u32,
    pub args: Vec<i128>,
    pub state: i128,
    pub part: Part,
    pub case: u32,
    pub fill: Fill,
}

impl Drop for TrackedRegion {
    fn drop(self) {
        let TrackedRegion {
            number: _,
            kind: _,
            args: _,
            state: _,
            part: _,
            case: _,
            fill: _,
        } = self;
    }
}

impl Model for TrackedRegion {
    ghost use Rattle.std.specs.Coded.{codes};
    ghost use Rattle.cap_owners_parts.specs.Codes.{part_code};
    ghost use Rattle.cap_owners_spec.specs.Track.{TrackedRegion};

    ghost Value = { TrackedRegion };

    ghost coded = { Prim.hlevel (codes, part_code) };

    ghost view = { λ r. record {
      owned = record {
        region = record {
          number = r.number;
          kind = r.kind;
          args = r.args.items;
          state = r.state;
        };
        part = r.part;
      };
      case = r.case;
      fill = r.fill;
    } };
}

/// Regions by ascending numbers. Copies share them.
#[derive(Drop)]
pub struct Regions {
    regions: Vec<Rc<TrackedRegion>>,
}

impl Model for Regions {
    ghost use Rattle.std.specs.Coded.{codes};
    ghost use Rattle.std.specs.Prelude.{List, map};
    ghost use Rattle.cap_owners_parts.specs.Codes.{part_code};
    ghost use Rattle.cap_owners_spec.specs.Track.{TrackedRegion};
    ghost use Rattle.cap_owners_fill.specs.Views.{Ascend, numbers};

    ghost Value = { List TrackedRegion };

    ghost coded = { Prim.hlevel (codes, part_code) };

    ghost view = { λ r. map (λ x. x.value) r.regions.items };

    ghost invariant = { λ r. Ascend (numbers (map (λ x. x.value) r.regions.items)) };
}

impl Regions {
    /// No regions. It takes no memory.
    pub fn new(alloc: Global) -> Regions
        ensures { result ≡ [] }
    {
        Regions {
            regions: Vec::new(alloc),
        }
    }

    /// The same regions, which the copy shares.
    pub fn copy(&self, alloc: Global) -> Result<Regions, AllocError>
        ensures { IfOk result (λ r. r ≡ self.now) }
    {
        let mut regions = Vec::with_capacity(alloc, self.regions.len())?;
        for region in &self.regions {
            regions.push(region.clone()?)?;
        }
        Ok(Regions { regions })
    }

    /// How many there are. It takes no memory.
    pub fn len(&self) -> usize
        ensures { result ≡ length self.now }
    {
        self.regions.len()
    }

    // The number of the region at a place.
    fn number_at(&self, place: usize) -> i128
        requires { place < length self.now }
        ensures { result ≡ slice_index_or (numbers self.now) place (pos 0) }
    {
        self.regions[place].number
    }

    // How many regions have smaller numbers.
    fn place_of(&self, number: i128) -> usize
        ensures place { IsPlaceOf number (numbers self.now) result }
        ensures ascend { Ascend (numbers self.now) }
    {
        let mut start = 0;
        let mut end = self.regions.len();
        while start < end {
            let middle = start + (end - start) / 2;
            if self.number_at(middle) < number {
                start = middle + 1;
            } else {
                end = middle;
            }
        }
        start
    }

    // Whether the region at a place has this number.
    fn is_at(&self, place: usize, number: i128) -> bool
        ensures { MatchBool result (HasAt number (numbers self.now) place)
            (HasAt number (numbers self.now) place → ⊥) }
    {
        place < self.regions.len() && self.number_at(place) == number
    }

    /// The region at a place from 0 in the order of numbers, if there is one. It takes no memory.
    pub fn get(&self, place: usize) -> Option<&TrackedRegion>
        ensures { option_copied result ≡ slice_get self.now place }
    {
        match self.regions.get(place) {
            None => None,
            Some(region) => Some(region),
        }
    }

    /// The region of this number, if there is one. It takes no memory.
    pub fn at(&self, number: i128) -> Option<&TrackedRegion>
        ensures { option_copied result ≡ tracked_at self.now number }
    {
        let place = self.place_of(number);
        if !self.is_at(place, number) {
            return None;
        }
        Some(&self.regions[place])
    }

    /// Puts a region in its place by its number, where one of this number goes. After an error the
    /// regions are as they were.
    pub fn put(&mut self, region: TrackedRegion) -> Result<(), AllocError>
        ensures put { OnOk result (self.new ≡ with_region region self.old) }
        ensures failed { OnErr result (self.new ≡ self.old) }
    {
        let place = self.place_of(region.number);
        let is_there = self.is_at(place, region.number);
        let region = Rc::new(*self.regions.allocator(), region)?;
        if is_there {
            self.regions[place] = region;
        } else {
            self.regions.insert(place, region)?;
        }
        Ok(())
    }

    // Whether a region is in this state.
    fn is_in_state(&self, number: i128, state: i128) -> bool
        ensures { result ≡ is_in_state state (tracked_at self.now number) }
    {
        match self.at(number) {
            None => false,
            Some(region) => region.state == state,
        }
    }

    /// Whether what is met by this still is: each region of its facts is in the same state. It takes
    /// no memory.
    pub fn is_current(&self, fill: &Fill) -> bool
        ensures { result ≡ is_current self.now fill.now }
    {
        for fact in &fill.facts {
            if !self.is_in_state(fact.0, fact.1) {
                return false;
            }
        }
        true
    }
}
