//! The resolved program: names are numbers, and terms are linear.
#![tactic(auto)]

mod assertion;
mod function;
mod program;
mod region;

pub use assertion::{Asked, Assertion, Comp, Item, Slot};
pub use cap_syntax::Text as Name;
pub use function::{Act, Function, Statement};
pub use program::{Program, well_formed};
pub use region::{Action, Case, RegionType};
