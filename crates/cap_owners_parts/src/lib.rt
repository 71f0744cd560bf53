//! Parts: what a frame or a region owns, and the text of it.
#![tactic(auto)]

mod atom_text;
mod atoms;
mod bounds;
mod element;
mod fraction;
mod guard;
mod held;
mod indices;
mod made;
mod merge;
mod names;
mod part;
mod text;

pub use guard::Guard;
pub use held::{part_held, put_cells};
pub use part::Part;
pub use text::{push_part, push_value};
