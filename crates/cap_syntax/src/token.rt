//! Tokens, and why a text has none at a place.
ghost use Rattle.std.specs.Prelude.{◌≡◌};
ghost use Rattle.cap_syntax.specs.declared.token.TokenError.TheVariants.{OutOfMemory};

use crate::place::Place;
use crate::text::Text;
use std::alloc::{AllocError, AllocFailed};
use thiserror::Error;

/// What a token is.
#[derive(Clone, Copy, Debug, PartialEq, Eq)]
pub enum TokenKind {
    /// A letter, then letters, digits and `_`; no keyword.
    Name,
    Keyword,
    /// Digits, of a value up to 9223372036854775807.
    Number,
    /// The whole share, `1p`.
    Share,
    /// `_` alone.
    Wildcard,
    Symbol,
    /// The end of the text, which has no bytes.
    End,
}

/// A token: its bytes, the value of a number, and the place of the first byte. A token that is no
/// number has the value 0.
#[derive(Drop)]
pub struct Token {
    pub kind: TokenKind,
    pub text: Text,
    pub value: u64,
    pub place: Place,
}

/// Why a text has no tokens.
#[derive(Clone, Copy, Debug, PartialEq, Eq, Error)]
pub enum TokenError {
    /// A byte starts no token or may not directly follow the token before it; its place.
    #[error("bad byte")]
    BadByte(Place),
    /// Digits spell more than 9223372036854775807; the place of the first.
    #[error("literal too long")]
    LongLiteral(Place),
    /// The text has more than 1,048,576 bytes.
    #[error("text too long")]
    TextTooLong,
    #[error("out of memory")]
    OutOfMemory,
}

impl From<AllocError> for TokenError {
    ghost from_gives = { λ _ e. e ≡ OutOfMemory };

    fn from(_e: AllocError) -> TokenError {
        TokenError::OutOfMemory
    }
}

impl<T: Drop> From<AllocFailed<T>> for TokenError {
    ghost from_gives = { λ _ e. e ≡ OutOfMemory };

    fn from(_e: AllocFailed<T>) -> TokenError {
        TokenError::OutOfMemory
    }
}
