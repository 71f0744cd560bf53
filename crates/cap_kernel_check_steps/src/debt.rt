//! What is owed after choices.
ghost use Rattle.std.specs.Prelude.{◌≤◌};
ghost use Rattle.cap_rules.specs.Valid.{deepest};

use cap_goal::Goal;

/// A goal that is owed, or none where no choice applies at a root; so many nodes are above it in
/// its tree, at most a thousand.
#[derive(Drop)]
pub struct Debt<'a> {
    pub above: u32,
    pub goal: Option<Goal<'a>>,
    ghost shallow: { above ≤ deepest },
}
