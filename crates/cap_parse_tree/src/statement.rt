//! Trees of statements and blocks.
// Statements. Each node has, in the order of the text, the places of its own tokens and its parts.

use crate::assertion::Clause;
use crate::list::Listed;
use crate::term::{Comparison, Term};
use crate::word::{Literal, Word};
use cap_syntax::Place;

/// What stands behind `:=`: a term; `Load`, an address in brackets; `Alloc`, `alloc ( NUMBER )`;
/// `Cas`, `CAS ( term , term , term )`; `Faa`, `FAA ( term , term )`; `Call`, a function and its
/// arguments.
pub enum Value {
    Term(Term),
    Load(Place, Term, Place),
    Alloc(Place, Place, Literal, Place),
    Cas(Place, Place, Term, Place, Term, Place, Term, Place),
    Faa(Place, Place, Term, Place, Term, Place),
    Call(Word, Listed<Term>),
}

impl Drop for Value {
    fn drop(self) {
        match self {
            Value::Term(_)
            | Value::Load(_, _, _)
            | Value::Alloc(_, _, _, _)
            | Value::Cas(_, _, _, _, _, _, _, _)
            | Value::Faa(_, _, _, _, _, _)
            | Value::Call(_, _) => {}
        }
    }
}

/// A statement. `Assign` is a name, `:=`, a value, `;`. `Store` is an address in brackets, `:=`, a
/// term, `;`. `If` is `if (`, a comparison, `)`, a block and perhaps another behind `else`. `While` is
/// `while (`, a comparison, `)`, perhaps an invariant, and a block.
#[cycle(statements)]
pub enum Statement {
    Assign(Word, Place, Value, Place),
    Store(Place, Term, Place, Place, Term, Place),
    Call(Word, Listed<Term>, Place),
    Fork(Place, Word, Listed<Term>, Place),
    If(Place, Place, Comparison, Place, Block, Option<Else>),
    While(Place, Place, Comparison, Place, Option<Clause>, Block),
    Assert(Place, Comparison, Place),
    Return(Place, Option<Term>, Place),
    Dispose(Place, Place, Term, Place, Place),
}

impl Drop for Statement {
    fn drop(self) {
        match self {
            Statement::Assign(_, _, _, _)
            | Statement::Store(_, _, _, _, _, _)
            | Statement::Call(_, _, _)
            | Statement::Fork(_, _, _, _)
            | Statement::If(_, _, _, _, _, _)
            | Statement::While(_, _, _, _, _, _)
            | Statement::Assert(_, _, _)
            | Statement::Return(_, _, _)
            | Statement::Dispose(_, _, _, _, _) => {}
        }
    }
}

/// Statements in braces.
#[cycle(statements)]
#[derive(Drop)]
pub struct Block {
    pub open: Place,
    pub statements: Vec<Statement>,
    pub close: Place,
}

/// `else`, and a block.
#[cycle(statements)]
#[derive(Drop)]
pub struct Else {
    pub key: Place,
    pub block: Block,
}
