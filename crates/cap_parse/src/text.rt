//! The tree that tokens spell, or the first token after which no text goes on so.
ghost use Rattle.std.specs.Prelude.{◌≡◌, List, [], ◌∷◌, ◌++◌};
ghost use Rattle.cap_syntax.specs.declared.token.Token.{Token};
ghost use Rattle.cap_syntax.specs.Layout.{EndsOnce};
ghost use Rattle.cap_parse.specs.Parsing.{IsParseOf, IsOnlyParseOf};
ghost use Rattle.cap_parse.specs.Reading.{IsReadingOf};
ghost use Rattle.cap_parse.specs.declared.text.ParseError.TheVariants.{OutOfMemory};

use crate::cursor::{Cursor, Stop};
use crate::seen::Seen;
use cap_parse_laws::{texts_are_read_as_spelled, texts_go_wrong_at_one_token};
use cap_parse_tree::Tree;
use cap_syntax::{Place, Token};
use std::alloc::Global;
use thiserror::Error;

/// Why tokens spell no tree.
#[derive(Clone, Copy, Debug, PartialEq, Eq, Error)]
pub enum ParseError {
    /// The first token after which no text goes on so, or the end of a text that ends too early; its
    /// place.
    #[error("unexpected token")]
    Unexpected(Place),
    /// A bracket that opens while 64 are open; its place.
    #[error("nested too deep")]
    TooDeep(Place),
    /// Memory ran out.
    #[error("out of memory")]
    OutOfMemory,
}

/// How many brackets may be open at once.
const MAX_NESTING: u32 = 64;

/// The tree of these tokens, behind which the text ends at this place.
#[tactic(auto, using(crate::proofs::Exactly::nesting_is))]
fn read(alloc: Global, tokens: &[Token], end: Place) -> Result<Tree, ParseError>
    ensures { IsReadingOf tokens.now end result }
{
    let mut cursor = Cursor {
        alloc,
        rest: Seen::new(tokens),
    };
    match cursor.parts(MAX_NESTING) {
        Ok(tree) => Ok(tree),
        Err(Stop::Unexpected) => Err(ParseError::Unexpected(cursor.rest.place_or(end))),
        Err(Stop::TooDeep) => Err(ParseError::TooDeep(cursor.rest.place_or(end))),
        Err(Stop::OutOfMemory) => Err(ParseError::OutOfMemory),
    }
}

/// The tree that the tokens of a text spell, in one pass and with one token ahead. The list ends with
/// the text's end, which is no part of the tree.
///
/// - `Unexpected`: the first token such that no text of either version of the language has the tokens
///   up to it; at the end of the text, the place behind its last byte.
/// - `TooDeep`: a bracket `(`, `[` or `{` that opens while 64 are open, where some text goes on so.
///
/// The one with the earliest place counts, and at one place `Unexpected`. `OutOfMemory` says that
/// memory ran out.
pub fn parse(alloc: Global, tokens: &[Token]) -> Result<Tree, ParseError>
    requires { EndsOnce tokens.now }

    // The tree is the one that the tokens spell, and a refusal is theirs.
    ensures answers { (before : List Token) (last : Token) → tokens.now ≡ before ++ last ∷ []
        → IsParseOf before last.place result }

    // No other answer is theirs: each refusal comes exactly where they go wrong so.
    ensures only { (before : List Token) (last : Token) → tokens.now ≡ before ++ last ∷ []
        → IsOnlyParseOf before last.place result }
{
    texts_are_read_as_spelled();
    texts_go_wrong_at_one_token();
    match tokens {
        [before @ .., last] => read(alloc, before, last.place),
        [] => unreachable!(),
    }
}
