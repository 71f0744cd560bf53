//! Schedules of runs: how they are read, and as a law that what is written of one is read as it.
#![tactic(auto)]

mod entries;
mod laws;
mod numbers;
mod reading;

pub use entries::{Schedule, fits};
pub use laws::written_schedules_are_read_back;
pub use reading::{ScheduleError, read_schedule};
