//! The tree and the program that bytes spell.
ghost use Rattle.std.specs.Prelude.{◌≡◌};
ghost use Rattle.cap_top_reading.specs.Reading.{FindsTree, FindsProgram};
ghost use Rattle.cap_top_reading.specs.Reading.{token_refusal, parse_refusal, resolve_refusal};

use crate::refusal::Refusal;
use cap_parse::{ParseError, parse};
use cap_parse_tree::Tree;
use cap_prog::Program;
use cap_resolve::{ResolveError, resolve};
use cap_syntax::{TokenError, tokens};
use std::alloc::Global;

/// The refusal for which a text has no tokens.
fn token_refusal(error: TokenError) -> Refusal
    ensures { result ≡ token_refusal error }
{
    match error {
        TokenError::BadByte(place) => Refusal::BadByte(place),
        TokenError::LongLiteral(place) => Refusal::LongLiteral(place),
        TokenError::TextTooLong => Refusal::TextTooLong,
        TokenError::OutOfMemory => Refusal::OutOfMemory,
    }
}

/// The refusal for which tokens spell no tree.
fn parse_refusal(error: ParseError) -> Refusal
    ensures { result ≡ parse_refusal error }
{
    match error {
        ParseError::Unexpected(place) => Refusal::Unexpected(place),
        ParseError::TooDeep(place) => Refusal::TooDeep(place),
        ParseError::OutOfMemory => Refusal::OutOfMemory,
    }
}

/// The refusal for which a tree stands for no program.
fn resolve_refusal(error: ResolveError) -> Refusal
    ensures { result ≡ resolve_refusal error }
{
    match error {
        ResolveError::OutOfMemory => Refusal::OutOfMemory,
        error => Refusal::Unresolved(error),
    }
}

/// The tree that a text spells, or the first cause, by its place, for which it spells none.
pub fn read_tree(alloc: Global, bytes: &[u8]) -> Result<Tree, Refusal>
    ensures { FindsTree bytes.now result }
{
    match tokens(alloc, bytes) {
        Ok(tokens) => match parse(alloc, tokens.as_slice()) {
            Ok(tree) => Ok(tree),
            Err(error) => Err(parse_refusal(error)),
        },
        Err(error) => Err(token_refusal(error)),
    }
}

/// The program whose text the bytes are. Where they spell no tree that is the refusal; where they
/// spell one that stands for no program, it is the first cause of that.
pub fn read_program(alloc: Global, bytes: &[u8]) -> Result<Program, Refusal>
    ensures { FindsProgram bytes.now result }
{
    match read_tree(alloc, bytes) {
        Ok(tree) => match resolve(alloc, &tree) {
            Ok(program) => Ok(program),
            Err(error) => Err(resolve_refusal(error)),
        },
        Err(refusal) => Err(refusal),
    }
}
