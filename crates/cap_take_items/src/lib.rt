//! The items of an assertion, one after the other, and what is left of an assertion behind an item
//! that is given up.
#![tactic(auto)]

mod items;
mod remaining;

pub use items::next_item;
pub use remaining::{Remaining, goes, items_with, stays, tasks_after};
