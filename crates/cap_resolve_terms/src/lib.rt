//! The first layer of the resolver: what is found wrong in a text, which names are known, and the
//! sorts of terms.
#![tactic(auto)]

mod finding;
mod leaves;
mod scope;
mod sorts;

pub use finding::{Cause, Finding, Limit, Noted, is_earlier};
pub use scope::{Known, Scope};
pub use sorts::{note_brackets, note_products_of, term_sort};
