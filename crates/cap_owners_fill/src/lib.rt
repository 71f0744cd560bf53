//! By what assertions are met along a run, and the regions that own what is theirs by it.
#![tactic(auto)]

mod fill;
mod given;
mod giving;
mod reading;
mod regions;
mod slots;

pub use fill::Fill;
pub use given::{Given, Parting, give_all};
pub use reading::{Reading, bind, is_determined, read_slot};
pub use regions::{Regions, TrackedRegion};
pub use slots::{atom_met, halves, meet_region, meet_slot, names_in};
