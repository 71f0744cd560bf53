//! What several rules of derivations do with what a goal holds: facts of regions, pieces of guards,
//! and environments of assertions.
#![tactic(auto)]

mod cases;
mod facts;
mod matching;
mod numbered;
mod pieces;

pub use cases::{binds_all, case_env, region_env};
pub use facts::{fact_of, with_fact};
pub use matching::{
    Reading, bind_open, lone_name, match_slot, match_slots, match_term, read_slot, read_term,
};
pub use numbered::{
    copy_env, determined_at, determined_slot_at, env_at, prove_comparisons_at, row_at,
};
pub use pieces::{with_piece, with_pieces};
