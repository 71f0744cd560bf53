//! Small parts of guards: sums of shares, tokens that are counted, and the sides of a sum.
#![tactic(auto)]

mod counting;
mod either;
mod shares;

pub use counting::Counting;
pub use either::Either;
pub use shares::{is_at_most, sum};
