//! A fact keeps its state or is settled by candidates, and the choices that do so.
#![tactic(auto)]

mod settling;
mod stab;

pub use settling::{keep, settle};
pub use stab::{stab_proofs, stab_subgoals};
