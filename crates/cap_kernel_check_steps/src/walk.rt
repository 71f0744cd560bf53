//! How far a walk over trees has come.
ghost use Rattle.std.specs.Prelude.{◌≡◌, IfOk};
ghost use Rattle.cap_kernel_check_steps.specs.Views.{Walked, walk_view};
ghost use Rattle.cap_kernel_check_steps.specs.Walks.{at_node, at_shape, ended, entered};
ghost use Rattle.cap_kernel_check_steps.specs.Walks.{lacking, next_of};
ghost use Rattle.cap_kernel_check_steps.specs.Walks.{passed, surplus as surplus_at, unrooted_at};

use crate::error::CheckError;
use std::alloc::AllocError;

/// How many nodes were passed, and whether one is missing behind them. Nodes are numbered from 1. A
/// number past 64 bits counts as want of memory, the only error beside those that each call tells.
#[derive(Clone, Copy)]
pub struct Walk {
    pub before: u64,
    pub lacks: bool,
}

impl Walk {
    /// Nothing is passed yet.
    pub fn new() -> Walk
        ensures { walk_view result ≡ passed 0 }
    {
        Walk {
            before: 0,
            lacks: false,
        }
    }

    // The number of the next node; one past 64 bits counts as want of memory.
    fn next(&self) -> Result<u64, AllocError>
        ensures { IfOk result (λ k. k ≡ next_of (walk_view self.now)) }
    {
        match self.before.checked_add(1) {
            Some(number) => Ok(number),
            None => Err(AllocError),
        }
    }

    /// The next node fails: `Node` has its number, and Ok never comes.
    pub fn fail(&self) -> Result<(), CheckError>
        ensures { Walked self.now result (λ o. o ≡ at_node (next_of (walk_view self.now))) }
    {
        let number = self.next()?;
        Err(CheckError::Node(number))
    }

    /// The shape is wrong at the next node: `Shape` has its number, and Ok never comes.
    pub fn misfit(&self) -> Result<(), CheckError>
        ensures { Walked self.now result (λ o. o ≡ at_shape (next_of (walk_view self.now))) }
    {
        let number = self.next()?;
        Err(CheckError::Shape(number))
    }

    /// The next node has no goal; there would be room for so many levels. Where that is none, the
    /// node fails (`Node`), and otherwise the shape is wrong there (`Shape`). Ok never comes.
    pub fn surplus(&self, room: usize) -> Result<(), CheckError>
        ensures { Walked self.now result (λ o. o ≡ surplus_at room (walk_view self.now)) }
    {
        if room == 0 {
            self.fail()
        } else {
            self.misfit()
        }
    }

    /// The choice of the next node applies, so the node is passed; but where one is missing before
    /// it, the shape is wrong there (`Shape`).
    pub fn enter(&mut self) -> Result<(), CheckError>
        ensures { Walked self.new result (λ o. o ≡ entered (walk_view self.old)) }
    {
        if self.lacks {
            return self.misfit();
        }
        self.before = self.next()?;
        Ok(())
    }

    /// A node is missing here.
    pub fn lack(&mut self)
        ensures { walk_view self.new ≡ lacking (walk_view self.old) }
    {
        self.lacks = true;
    }

    /// No choice applies at a root: the next node fails (`Node`), or, where one is missing before
    /// it, the shape is wrong there (`Shape`). Ok never comes.
    pub fn bar(&self) -> Result<(), CheckError>
        ensures { Walked self.now result (λ o. o ≡ unrooted_at (walk_view self.now)) }
    {
        if self.lacks {
            self.misfit()
        } else {
            self.fail()
        }
    }

    /// All trees are passed: Ok, unless a node is missing behind the last one (`Shape`).
    pub fn end(&self) -> Result<(), CheckError>
        ensures { Walked self.now result (λ o. o ≡ ended (walk_view self.now)) }
    {
        if self.lacks {
            return self.misfit();
        }
        Ok(())
    }
}
