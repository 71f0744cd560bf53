//! What the tree of a text stands for: the names that are known where they stand, the sorts and the
//! linear forms of terms, what is refused, and the program.
#![tactic(auto)]

mod laws;

pub use laws::{
    linear_forms_have_the_values_of_their_terms, names_stand_for_the_first_that_has_them,
    programs_are_well_formed, refusals_are_first,
};
