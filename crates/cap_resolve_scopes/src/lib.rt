//! Which names are known where: in a function's contract, its loops and its body, and in the cases
//! and actions of a region type.
#![tactic(auto)]

mod assertions;
mod bodies;
mod regions;

pub use assertions::{new_in, scope_with, words_of_occurrences};
pub use bodies::{
    body_scope, destinations_of, local_words, loop_scope, requires_scope, result_scope,
    statement_words,
};
pub use regions::{
    action_occurrences, assertion_occurrences, bound_late, bound_scope, case_occurrences,
    counted_names, known_in_action, known_in_case, unknown_in_action, unknown_in_case,
};
