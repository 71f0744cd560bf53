//! The record that a search keeps.
ghost use Rattle.std.specs.Prelude.{◌≡◌, map, option_map};
ghost use Rattle.cap_prog.specs.Views.{program_view};
ghost use Rattle.cap_goal.specs.Views.{choice_view, goal_view};
ghost use Rattle.cap_search_spec.specs.Leaves.{further};
ghost use Rattle.cap_search_spec.specs.Verdicts.{joined};
ghost use Rattle.cap_search_spec.specs.Walks.{at_root, fresh_walk, met};
ghost use Rattle.cap_search_trees.specs.Searching.{Counts};
ghost use Rattle.cap_search_trees.specs.Views.{leaf_view, walk_view};
ghost use Rattle.cap_search_trees.specs.declared.walk.Stop.TheVariants.{OutOfMemory};

use crate::leaf::{Leaf, leaf_at};
use cap_closure_decide::Notes;
use cap_goal::{Choice, Goal};
use cap_prog::Program;
use std::alloc::{AllocError, AllocFailed};

/// Why a search ends before it knows.
#[derive(Clone, Copy)]
pub(crate) enum Stop {
    /// The budget is spent.
    Spent,
    OutOfMemory,
}

impl From<AllocError> for Stop {
    ghost from_gives = { λ _ e. e ≡ OutOfMemory };

    fn from(_e: AllocError) -> Stop {
        Stop::OutOfMemory
    }
}

impl<T: Drop> From<AllocFailed<T>> for Stop {
    ghost from_gives = { λ _ e. e ≡ OutOfMemory };

    fn from(_e: AllocFailed<T>) -> Stop {
        Stop::OutOfMemory
    }
}

/// What is left of the budget, whether a visit was too deep, what was noted, the number of the
/// root, and the leaf of its tree that is to be printed.
#[derive(Clone, Copy)]
pub(crate) struct Walk {
    pub left: u64,
    pub deep: bool,
    pub notes: Notes,
    pub root: usize,
    pub leaf: Option<Leaf>,
}

impl Walk {
    /// Nothing is visited yet.
    pub fn new(budget: u64) -> Walk
        ensures { walk_view result ≡ fresh_walk budget }
    {
        Walk {
            left: budget,
            deep: false,
            notes: Notes::new(),
            root: 0,
            leaf: None,
        }
    }

    /// Begins the tree of a root.
    pub fn start(&mut self, root: usize)
        ensures { walk_view self.new ≡ at_root root (walk_view self.old) }
    {
        self.root = root;
        self.leaf = None;
    }

    /// Counts a visit.
    pub fn count(&mut self) -> Result<(), Stop>
        ensures { Counts self.old self.new result }
    {
        if self.left == 0 {
            return Err(Stop::Spent);
        }
        self.left -= 1;
        Ok(())
    }

    // The first note of each kind stays.
    fn join(&mut self, notes: Notes)
        ensures { walk_view self.new ≡ record (walk_view self.old) {
          notes = joined (walk_view self.old).notes notes;
        } }
    {
        if let Some((first, second)) = notes.wide() {
            self.notes.note_wide(first, second);
        }
        if notes.rows() {
            self.notes.note_rows();
        }
    }

    // Keeps the first leaf among those with the greatest number.
    fn keep(&mut self, leaf: Leaf)
        ensures { walk_view self.new ≡ record (walk_view self.old) {
          leaf = further (walk_view self.old).leaf (leaf_view leaf);
        } }
    {
        match self.leaf {
            Some(kept) if leaf.statement <= kept.statement => {}
            _ => self.leaf = Some(leaf),
        }
    }

    /// What was noted at a goal, and whether it is a leaf.
    pub fn meet(&mut self, program: &Program, goal: &Goal<'_>, choices: &[Choice], notes: Notes)
        ensures { walk_view self.new ≡ met (program_view program.now) (walk_view self.old)
            (goal_view goal.now) (map choice_view choices.now) notes }
    {
        self.join(notes);
        if choices.is_empty() {
            self.keep(leaf_at(program, goal));
        }
    }
}
