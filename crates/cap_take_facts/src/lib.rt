//! Region facts: one that is given up is matched with one that is held, and that of a created region
//! is stated, once its case is given up.
#![tactic(auto)]

mod lookup;
mod matched;
mod stated;

pub use lookup::case_at;
pub use matched::region;
pub use stated::made;
