//! What is said of the units of a program: a line for each with its verdict, perhaps with the rows
//! that its proofs need, and how many are proved; and the trees by which all of them are.
#![tactic(auto)]

mod cores;
mod counts;
mod derive;
mod laws;
mod lines;
mod report;
mod units;

pub use cores::cores_on;
pub use counts::{Counts, count_on};
pub use derive::{Conclusion, derive_on};
pub use laws::{found_trees_are_valid, proved_have_cores, proved_units_derive};
pub use report::{Report, report_on};
