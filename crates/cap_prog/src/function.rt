//! Functions: contracts, statements and what these do.
use crate::assertion::{Assertion, Comp};
use cap_lin::{Sort, Term};
use cap_syntax::{Place, Text};

/// A function: its name, the number of its parameters and of its locals, the sorts of its fixed
/// names, which are those that are new in `requires`, the names of all of these, its contract, its
/// body, which ends with its closing return, and the place of its first token. Its variables are its
/// parameters, numbered from 0, then its locals, its fixed names, the result, and last the names of
/// the assertion at hand.
pub struct Function {
    pub name: Text,
    pub params: u32,
    pub locals: u32,
    pub fixed: Vec<Sort>,
    pub variables: Vec<Text>,
    pub requires_: Assertion,
    pub ensures_: Assertion,
    pub body: Vec<Statement>,
    pub place: Place,
}

impl Drop for Function {
    fn drop(self) {
        let Function {
            name: _,
            params: _,
            locals: _,
            fixed: _,
            variables: _,
            requires_: _,
            ensures_: _,
            body: _,
            place: _,
        } = self;
    }
}

/// A statement: its number in text order within its function, from 1, and the place of its first
/// token. The closing return has the place of the body's last brace.
#[cycle(block)]
#[derive(Drop)]
pub struct Statement {
    pub number: u32,
    pub place: Place,
    pub act: Act,
}

/// What a statement does. A destination, which is a local, comes first.
#[cycle(block)]
pub enum Act {
    Set(u32, Term),
    /// Reads the cell at an address.
    Read(u32, Term),
    /// Writes a value, which comes second, to the cell at an address.
    Write(Term, Term),
    /// Compares the cell at an address with a value, and where they are equal swaps in another one.
    Cas(u32, Term, Term, Term),
    /// Reads the cell at an address, and adds a value, which comes last, to what the cell holds.
    Faa(u32, Term, Term),
    /// Takes the cell at an address out of the heap.
    Dispose(Term),
    /// Allocates cells, as many as the second number says.
    Alloc(u32, u32),
    /// Calls a function, by its number, at arguments.
    Call(Option<u32>, u32, Vec<Term>),
    /// Starts a thread that runs a function, by its number, at arguments.
    Fork(u32, Vec<Term>),
    /// Runs the first block where the comparison holds, and else the second.
    If(Comp, Vec<Statement>, Vec<Statement>),
    /// Runs the block as long as the comparison holds, which keeps the invariant.
    While(Comp, Assertion, Vec<Statement>),
    Assert(Comp),
    Return(Term),
}

impl Drop for Act {
    #[cycle(dropped_acts)]
    fn drop(self) {
        match self {
            Act::Set(_, _)
            | Act::Read(_, _)
            | Act::Write(_, _)
            | Act::Cas(_, _, _, _)
            | Act::Faa(_, _, _)
            | Act::Dispose(_)
            | Act::Alloc(_, _)
            | Act::Call(_, _, _)
            | Act::Fork(_, _)
            | Act::If(_, _, _)
            | Act::While(_, _, _)
            | Act::Assert(_)
            | Act::Return(_) => {}
        }
    }
}
