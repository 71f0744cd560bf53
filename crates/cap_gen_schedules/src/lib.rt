//! Schedules that are drawn from a number, the first that ends in a fault, and its text.
#![tactic(auto)]

mod drawing;
mod laws;
mod writing;

pub use drawing::stray;
pub use laws::{
    found_schedules_are_read_back, found_schedules_are_within_limits, found_schedules_fault,
    safe_programs_have_none,
};
pub use writing::schedule_text;
