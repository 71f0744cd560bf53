//! The parts of a tree at any depth, as lists of references in the order of the text.
#![tactic(auto)]

mod guards;
mod items;
mod lists;
mod statements;
mod terms;

pub use guards::{guard_word, push_algebra};
pub use items::{
    Placed, atom_place, atom_word, atoms_held, counts_indices, has_index, item_place,
    items_of_clause, placed_items,
};
pub use lists::{
    atoms_of, comparisons_of, listed_count, listed_word_count, listed_words, word_count, words_of,
};
pub use statements::{
    callee, cells, destination, invariant, push_block, push_statement_names, push_statement_terms,
    statement_comparison,
};
pub use terms::{push_comparison_words, push_term_words, term_place, whole_name};
