//! The values of a track's variables and names, and the numbers that terms have by them.
#![tactic(auto)]

mod error;
mod value;
mod values;

pub use error::TraceError;
pub use value::Value;
pub use values::{Values, half_of};
