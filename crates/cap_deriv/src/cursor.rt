//! A derivation's lines, one after another.
ghost use Rattle.std.specs.Prelude.{◌≡◌, IsErrOf};
ghost use Rattle.cap_deriv.specs.Told.{told_by_bytes};
ghost use Rattle.cap_deriv.specs.declared.cursor.DerivError.TheVariants.{OutOfMemory};

use crate::first::first_line;
use crate::found::{Found, line, opening};
use cap_deriv_choices::Fault;
use cap_goal::Choice;
use json::Scratch;
use std::alloc::{AllocError, AllocFailed, Global};
use std::marker::Model;
use thiserror::Error;

/// The most nodes that a derivation may have, those of all its trees together.
pub const MOST_NODES: u64 = 1_000_000;

/// Why bytes are no derivation: the number of the first line, counted from 1, that is not of its
/// form in its place; no last line; more than 1,000,000 nodes, which is found at the node that
/// passes the limit; or want of memory.
#[derive(Clone, Copy, Debug, PartialEq, Eq, Error)]
pub enum DerivError {
    #[error("line {0}")]
    BadLine(u64),
    #[error("no end")]
    Unended,
    #[error("more than 1000000 nodes")]
    TooMany,
    #[error("out of memory")]
    OutOfMemory,
}

impl From<AllocError> for DerivError {
    ghost from_gives = { λ _ e. e ≡ OutOfMemory };

    fn from(_e: AllocError) -> DerivError {
        DerivError::OutOfMemory
    }
}

impl<T: Drop> From<AllocFailed<T>> for DerivError {
    ghost from_gives = { λ _ e. e ≡ OutOfMemory };

    fn from(_e: AllocFailed<T>) -> DerivError {
        DerivError::OutOfMemory
    }
}

// How a reading ended.
#[derive(Clone, Copy, PartialEq, Eq)]
enum Ended {
    Complete,
    Bad(u64),
    Short,
    Long,
}

impl Ended {
    ghost use Rattle.cap_deriv.specs.Telling.{Tells, IsLastAnswer, told_by_end};

    fn answer(self) -> Result<Option<Choice>, DerivError>
        ensures tells { Tells result (told_by_end self) (told_by_end self) }
        ensures last { IsLastAnswer result }
    {
        match self {
            Ended::Complete => Ok(None),
            Ended::Bad(line) => Err(DerivError::BadLine(line)),
            Ended::Short => Err(DerivError::Unended),
            Ended::Long => Err(DerivError::TooMany),
        }
    }
}

/// A reader of a derivation's choices, in preorder. Contracts see where it stands; the memory that
/// it reads a line with, which is kept from line to line, plays no part in what it tells.
#[derive(Drop)]
pub struct Cursor<'a> {
    alloc: Global,
    scratch: Scratch,
    trees: u32,
    nodes: u64,
    ended: Option<Ended>,
    rest: &'a [u8],
}

impl<'a> Model for Cursor<'a> {
    ghost use Rattle.std.specs.Prelude.{◌≤◌};
    ghost use Rattle.cap_deriv.specs.Standing.{Standing};

    ghost Value = { Standing };

    ghost view = { λ c. record {
      trees = c.trees;
      nodes = c.nodes;
      ended = c.ended;
      rest = c.rest.now;
    } };

    ghost invariant = { λ c. c.nodes ≤ 1000000 };
}

impl<'a> Cursor<'a> {
    ghost use Rattle.cap_deriv.specs.Telling.{Tells, IsLastAnswer, Opens, HasEnded};
    ghost use Rattle.cap_deriv.specs.Telling.{told_by_end, left_to_tell, trees_of_cursor};
    ghost use Rattle.std.specs.Prelude.{Some};

    /// Reads the first line. It answers that there is no end only where there is no line at all.
    pub fn start(alloc: Global, bytes: &'a [u8]) -> Result<Cursor<'a>, DerivError>
        ensures { Opens result (told_by_bytes bytes.entry.now) }
    {
        let Some((first, rest)) = first_line(bytes) else {
            return Err(DerivError::Unended);
        };
        let mut scratch = Scratch::new(alloc);
        match opening(first, &mut scratch) {
            Ok(trees) => Ok(Cursor {
                alloc,
                scratch,
                trees,
                nodes: 0,
                ended: None,
                rest,
            }),
            Err(Fault::Form) => Err(DerivError::BadLine(1)),
            Err(Fault::OutOfMemory) => Err(DerivError::OutOfMemory),
        }
    }

    /// The number of trees that the first line says. It takes no memory.
    pub fn trees(&self) -> u32
        ensures { result ≡ trees_of_cursor self.now }
    {
        self.trees
    }

    fn end(&mut self, ended: Ended) -> Result<Option<Choice>, DerivError>
        ensures tells { Tells result (told_by_end ended) (told_by_end ended) }
        ensures last { IsLastAnswer result }
        ensures ended { self.new.ended ≡ Some ended }
        ensures trees { trees_of_cursor self.new ≡ trees_of_cursor self.old }
    {
        self.ended = Some(ended);
        ended.answer()
    }

    /// The next choice, and `None` where the bytes are read to their end through the last line.
    /// After `None`, or an error other than want of memory, the same answer comes again.
    pub fn next(&mut self) -> Result<Option<Choice>, DerivError>
        ensures tells { Tells result (left_to_tell self.old) (left_to_tell self.new) }
        ensures trees { trees_of_cursor self.new ≡ trees_of_cursor self.old }
        ensures unchanged { IsErrOf result DerivError.OutOfMemory → self.new ≡ self.old }

        // With what `tells` says, the same answer.
        ensures ends { IsLastAnswer result → HasEnded self.new }
        ensures again { HasEnded self.old → IsLastAnswer result }
    {
        if let Some(ended) = self.ended {
            return ended.answer();
        }
        let Some((first, rest)) = first_line(self.rest) else {
            return self.end(Ended::Short);
        };
        match line(self.alloc, first, &mut self.scratch) {
            Ok(Found::Node(choice)) => {
                if self.nodes < MOST_NODES {
                    self.nodes += 1;
                    self.rest = rest;
                    Ok(Some(choice))
                } else {
                    self.end(Ended::Long)
                }
            }
            Ok(Found::End(nodes)) => {
                if nodes != self.nodes {
                    self.end(Ended::Bad(self.nodes + 2))
                } else if first_line(rest).is_none() {
                    self.end(Ended::Complete)
                } else {
                    self.end(Ended::Bad(self.nodes + 3))
                }
            }
            Err(Fault::Form) => self.end(Ended::Bad(self.nodes + 2)),
            Err(Fault::OutOfMemory) => Err(DerivError::OutOfMemory),
        }
    }
}
