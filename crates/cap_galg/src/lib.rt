//! Guard algebras: who may change a shared region, and how. What two threads hold composes, or else
//! they never hold it at once.
#![tactic(auto)]

mod algebra;
mod amount;
mod answer;
mod divisible;
mod elem;
mod indexed;
mod laws;
mod node;
mod pair;
mod unique;

pub use algebra::{Algebra, Atom};
pub use amount::Amount;
pub use cap_galg_atoms::{Counting, Either};
pub use cap_galg_spec::{Fraction, Guard, GuardError};
pub use divisible::Divisible;
pub use elem::Elem;
pub use indexed::Indexed;
pub use laws::{
    fulls_of_both_sides, parts_are_associative, portions_compose, sets_of_indices_are_narrow,
};
pub use pair::Pair;
pub use unique::Unique;
