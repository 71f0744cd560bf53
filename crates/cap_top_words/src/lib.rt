//! The words of the command line: which command they are, read by `clap`.
#![tactic(auto)]

mod command;
mod laws;
mod numeral;
mod parser;
mod reading;

pub use command::Command;
pub use laws::commands_are_written;
pub use reading::{DEFAULT_BUDGET, read_command};
