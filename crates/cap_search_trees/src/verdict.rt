//! The verdict on a unit.
use crate::obligation::Obligation;
use cap_goal::Node;

/// What a search finds of a unit.
#[derive(Drop)]
pub enum Verdict {
    /// All trees are found, one for each root; a root without tasks has none.
    Proved(Vec<Option<Node>>),
    /// The cost passes this budget.
    Spent(u64),
    /// Some goal stands deeper than a thousand.
    Deep,
    /// A decision or a term met two numbers whose product or sum leaves 128 bits: the first such
    /// pair.
    Wide(i128, i128),
    /// An elimination met more than 4,096 distinct rows.
    Rows,
    /// Nothing of that comes; this is left open.
    Stuck(Obligation),
}
