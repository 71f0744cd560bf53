//! The steps that rules of derivations share: terms and rows of a goal, changes of its state, and
//! the lists of rows that certificates have to refute.
#![tactic(auto)]

mod bound;
mod changes;
mod envs;
mod error;
mod judging;
mod ledger;
mod parts;
mod points;
mod rows;
mod tasks;
mod terms;

pub use bound::{
    determined, determined_slot, is_determined, prove_comparisons, row_by, rows_by, term_of,
    value_by,
};
pub use changes::{
    copy_with_row, with_cell, with_comparison, with_destination, with_differing, with_env,
    with_env_at, with_local, with_row, with_rows, with_sort, with_sorts,
};
pub use envs::{callee_env, own_env, variables};
pub use error::RuleError;
pub use judging::{judged, told};
pub use ledger::{Ledger, prove, prove_differ, prove_equal, prove_that, refute};
pub use parts::{function_at, region_at};
pub use points::next_statement;
pub use rows::{opposite, row_here};
pub use tasks::{add_goal, copy_point, copy_tasks, leaves};
pub use terms::{value_here, value_over, values_here};
