//! The outside of the program: a shelf of files that are read by name, and a sink that takes what is
//! written; in memory, with calls that fail by their numbers, and over the system's files and standard
//! output.
#![tactic(auto)]

mod given;
mod memory;
mod shelf;
mod system;

pub use memory::{MemoryShelf, MemorySink};
pub use shelf::{FetchError, LONGEST_FILE, PutFailed, Shelf, Sink, answers_are_exact};
pub use system::{FileShelf, StdSink};
