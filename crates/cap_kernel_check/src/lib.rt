//! The judge of derivations: whether trees of choices are valid derivations of all units of a
//! program, and otherwise where they fail first; and the trees of choices in preorder.
#![tactic(auto)]

mod bundle;
mod gather;
mod judge;
mod shaping;
mod tree;

pub use bundle::check;
pub use cap_kernel_check_steps::{
    CheckError, faulty_are_invalid, judged_are_valid, judgements_are_one, valid_trees_are_one,
    walks_tell,
};
pub use judge::Judge;
pub use shaping::shape;
