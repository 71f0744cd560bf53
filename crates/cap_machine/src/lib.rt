//! The machine that runs programs: one step is one statement of one thread.
#![tactic(auto)]

mod acts;
mod evaluation;
mod event;
mod frame;
mod heap;
mod laws;
mod machine;
mod position;
mod step;
mod thread;

pub use event::{Ahead, Entry, Event, StepError};
pub use frame::Frame;
pub use laws::{enabled_entries_step, faults_are_exact, starts_fit, steps_keep_fit};
pub use machine::Machine;
