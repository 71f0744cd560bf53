//! Derivations as lines of JSON: written for trees, and read back as they were written.
#![tactic(auto)]

mod certs;
mod choices;
mod laws;
mod preorder;
mod put;
mod values;
mod writing;

pub use laws::{lines_are_forms, readings_are_lines, writings_are_lines, writings_are_read_back};
pub use preorder::node_count;
pub use writing::write;
