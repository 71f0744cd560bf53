//! Trees of functions and of whole texts.
// Whole texts. Each node has, in the order of the text, the places of its own tokens and its parts.

use crate::assertion::Clause;
use crate::list::Listed;
use crate::region::Region;
use crate::statement::Block;
use crate::word::Word;
use cap_syntax::Place;

/// A function: `function`, its name, its parameters, perhaps `requires` and `ensures`, and its body.
pub struct Function {
    pub key: Place,
    pub name: Word,
    pub parameters: Listed<Word>,
    pub precondition: Option<Clause>,
    pub postcondition: Option<Clause>,
    pub body: Block,
}

impl Drop for Function {
    fn drop(self) {
        let Function {
            key: _,
            name: _,
            parameters: _,
            precondition: _,
            postcondition: _,
            body: _,
        } = self;
    }
}

/// What stands at the top of a text.
#[derive(Drop)]
pub enum Declaration {
    Region(Region),
    Function(Function),
}

/// `caper 2 ;` in front of a text of the second version.
#[derive(Clone, Copy, Debug, PartialEq, Eq)]
pub struct Header {
    pub key: Place,
    pub version: Place,
    pub semicolon: Place,
}

/// The tree of a text.
pub struct Tree {
    pub header: Option<Header>,
    pub declarations: Vec<Declaration>,
}

impl Drop for Tree {
    fn drop(self) {
        let Tree {
            header: _,
            declarations: _,
        } = self;
    }
}
