//! The names of a text: of region types and their guards, of functions, and of what occurs in an
//! assertion.
#![tactic(auto)]

mod atoms;
mod functions;
mod names;
mod occurrences;
mod regions;
mod tables;
mod types;

pub use atoms::{kind_of_atom, push_atom, push_atoms, push_comparison, push_occurrences};
pub use functions::{function_table, functions_in, regions_in};
pub use names::{push_hidden, push_whole, scope_of_words};
pub use occurrences::{Occurrence, bound_names, new_names, push_known, push_term, push_unbound};
pub use regions::region_table;
pub use tables::{FunctionTable, Numbered, RegionTable, RegionType, Typed, TypedNames, Types};
pub use types::types_told;
