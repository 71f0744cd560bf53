//! The program of a tree: each name replaced by what it names, each term by its linear form.
#![tactic(auto)]

mod acts;
mod algebras;
mod assertions;
mod bodies;
mod comparisons;
mod functions;
mod guards;
mod headers;
mod items;
mod lists;
mod reading;
mod slots;
mod terms;
mod whole;

pub use algebras::build_algebra;
pub use comparisons::build_comparisons;
pub use guards::build_asked;
pub use items::push_items;
pub use lists::{build_guard_names, build_sorts};
pub use reading::Reading;
pub use terms::build_term;
pub use whole::build_function;
