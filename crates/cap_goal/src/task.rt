//! What is still to be done at a goal, task by task.
ghost use Rattle.std.specs.Prelude.{◌≡◌, IfOk};
ghost use Rattle.cap_prog.specs.Program.{none};
ghost use Rattle.cap_prog.specs.Views.{items_view, statement_view};
ghost use Rattle.cap_goal.specs.Views.{items_in, task_view, has_no_items, is_done, is_heap_act};

use cap_lin::Term;
use cap_prog::{Act, Assertion, Item, Statement};
use std::alloc::{AllocError, Global};

/// A tree's function, and its first variable of a fixed name.
#[derive(Clone, Copy, Debug)]
pub struct Home {
    pub function: u32,
    pub fixed: u32,
}

/// Items that are to be assumed or given up: the lists in which they stand. The last list comes
/// first.
#[derive(Drop)]
pub struct Items<'a> {
    pub lists: Vec<&'a [Item]>,
}

/// Statements that are to be run: the lists in which they stand. The last list comes first, and a
/// loop stands first in the list that its body returns to.
#[derive(Drop)]
pub struct Point<'a> {
    pub lists: Vec<&'a [Statement]>,
}

/// What is to be done at a goal. Environments, opened regions, region types and cases are named by
/// number, from 0. The last number of each but the first two is that of the statement at which the
/// task arose, 0 outside a body.
pub enum Task<'a> {
    /// Run the statements.
    Run(Home, Point<'a>),
    /// At the loop that comes first, its invariant given.
    Turn(Home, Point<'a>),
    /// Assume the items in an environment.
    Give(Items<'a>, u32, u32),
    /// Give the items up in an environment; so many creations are allowed.
    Take(Items<'a>, u32, u32, u32),
    /// State a created region: its type, case, environment and term.
    Made(u32, u32, u32, Term, u32),
    /// Close an opened region, by any move or only as it was.
    Close(bool, u32),
    /// Check a move: the opened region, its case, the move, and the environment.
    Shift(u32, u32, u32, u32, u32),
    /// Settle the facts from a number on.
    Rest(u32, u32),
}

impl Drop for Task<'_> {
    fn drop(self) {
        match self {
            Task::Run(_, _)
            | Task::Turn(_, _)
            | Task::Give(_, _, _)
            | Task::Take(_, _, _, _)
            | Task::Made(_, _, _, _, _)
            | Task::Close(_, _)
            | Task::Shift(_, _, _, _, _)
            | Task::Rest(_, _) => {}
        }
    }
}

impl Items<'_> {
    /// Whether there is no item. It takes no memory.
    pub fn is_empty(&self) -> bool
        ensures { result ≡ has_no_items (items_in self.now.lists.items none) }
    {
        for list in &self.lists {
            if !list.is_empty() {
                return false;
            }
        }
        true
    }
}

/// All items of an assertion. The only error is want of memory.
pub fn items_of<'a>(alloc: Global, assertion: &'a Assertion) -> Result<Items<'a>, AllocError>
    ensures { IfOk result (λ i. items_in i.lists.items none ≡ items_view assertion.now) }
{
    let mut lists = Vec::new(alloc);
    lists.push(assertion.items.as_slice())?;
    Ok(Items { lists })
}

impl Task<'_> {
    /// Whether there is nothing to be done, where there are so many facts. It takes no memory.
    pub fn is_done(&self, facts: usize) -> bool
        ensures { result ≡ is_done facts (task_view self.now) }
    {
        match self {
            Task::Give(items, _, _) | Task::Take(items, _, _, _) => items.is_empty(),
            Task::Rest(from, _) => *from as usize == facts,
            Task::Run(_, _)
            | Task::Turn(_, _)
            | Task::Made(_, _, _, _, _)
            | Task::Close(_, _)
            | Task::Shift(_, _, _, _, _) => false,
        }
    }
}

/// Whether the statement works on a cell: a read, a write, a compare-and-swap, a fetch-and-add or a
/// disposal. It takes no memory.
pub fn is_heap(statement: &Statement) -> bool
    ensures { result ≡ is_heap_act (statement_view statement.now).act }
{
    match &statement.act {
        Act::Read(_, _)
        | Act::Write(_, _)
        | Act::Cas(_, _, _, _)
        | Act::Faa(_, _, _)
        | Act::Dispose(_) => true,
        Act::Set(_, _)
        | Act::Alloc(_, _)
        | Act::Call(_, _, _)
        | Act::Fork(_, _)
        | Act::If(_, _, _)
        | Act::While(_, _, _)
        | Act::Assert(_)
        | Act::Return(_) => false,
    }
}
