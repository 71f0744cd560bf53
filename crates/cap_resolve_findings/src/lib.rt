//! What is wrong in a text, part by part.
#![tactic(auto)]

mod clauses;
mod items;
mod names;
mod statements;
mod terms;

pub use clauses::{note_assertion, note_contents, note_counted, note_new};
pub use items::{Reading, note_atoms, note_atoms_twice, note_items};
pub use names::{note_parameters, note_past, note_repeated, note_ret, note_unknown};
pub use statements::note_statement;
pub use terms::{note_atom_terms, note_comparison, note_item_terms};
