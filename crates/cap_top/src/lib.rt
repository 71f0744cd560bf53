//! The top call over the whole language, over any shelf and sink.
#![tactic(auto)]

mod fetching;
mod program;

pub use cap_top_commands::Status;
pub use program::run;
