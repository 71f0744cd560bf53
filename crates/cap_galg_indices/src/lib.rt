//! Sets of indices that are finite or lack finitely many.
#![tactic(auto)]

mod bounds;
mod indices;
mod laws;
mod merge;

pub use indices::Indices;
pub use laws::{
    all_indices_are_the_full_set, named_sets_have_their_indices, ranges_that_touch_compose,
    sets_are_a_partial_commutative_monoid, sets_compose_to_their_union,
    sets_with_the_same_indices_are_equal, sets_within_others_are_completed,
    tests_speak_of_all_indices,
};
