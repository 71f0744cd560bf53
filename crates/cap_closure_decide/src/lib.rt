//! What the solver decides for rules: certificates of the lists of rows that are to be refuted, and
//! notes of what passed a limit on the way.
#![tactic(auto)]

mod certifying;
mod deciding;
mod notes;
mod proving;

pub use certifying::{certified, certified_by};
pub use deciding::{decided, decided_all, decided_each};
pub use notes::Notes;
pub use proving::proves;
