//! Closed regions: which case and move is chosen, and that the move is allowed; and how far it is
//! known which pieces the move's indexed atoms are in.
#![tactic(auto)]

mod lookup;
mod matching;
mod moving;
mod picking;
mod shifting;
mod spans;
mod turning;

pub use moving::Move;
pub use picking::pick;
pub use shifting::shift;
pub use turning::{Turn, but_spans, match_piece, up_to_spans};
