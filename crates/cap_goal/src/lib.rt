//! States and goals of derivations, the choices that may be made at them, and the goals from which
//! the trees of a unit grow.
#![tactic(auto)]

mod certs;
mod choice;
mod copy;
mod fact;
mod goal;
mod member;
mod shared;
mod state;
mod task;

pub use choice::{Bundle, Choice, DEEPEST, Node, Unit};
pub use fact::{Env, Fact, copy_terms};
pub use goal::Goal;
pub use state::{LONGEST_LIST, State};
pub use task::{Home, Items, Point, Task, is_heap, items_of};
