//! The text of a program's run along a schedule.
#![tactic(auto)]

mod playing;

pub use playing::{End, Played, last_line, push_step, replay};
