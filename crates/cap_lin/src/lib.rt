//! Linear terms over variables, and the rows that say what is known of them.
#![tactic(auto)]

mod error;
mod row;
mod term;

pub use error::LinError;
pub use row::{Kind, Op, Row, Sort};
pub use term::Term;
