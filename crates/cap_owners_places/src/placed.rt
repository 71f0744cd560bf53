//! A node with its goal.
use cap_goal::{Choice, Goal};

/// A node of a tree: its goal, the choice that is taken there, and a child for each goal that this
/// leaves.
#[cycle(placed)]
pub struct Placed<'a> {
    pub goal: Goal<'a>,
    pub choice: &'a Choice,
    pub children: Vec<Placed<'a>>,
}

impl Drop for Placed<'_> {
    fn drop(self) {
        let Placed {
            goal: _,
            choice: _,
            children: _,
        } = self;
    }
}
