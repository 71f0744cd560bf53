//! The text of tokens, in lines.
// The canonical text of a tail.

ghost use Rattle.std.specs.Prelude.{◌≡◌, ◌∷◌, [], ◌+◌, ◌^◌, ◌<◌, IfOk};
ghost use Rattle.std.specs.Option.{option_to_list};
ghost use Rattle.cap_parse_tree.specs.Canonical.{is_the_symbol, may_end_line, parentheses_behind};
ghost use Rattle.cap_parse_tree.specs.Canonical.{gap_behind, canonical_from};
ghost use Rattle.cap_parse_tree.specs.Nesting.{is_symbol as is_a_symbol};
ghost use Rattle.cap_parse_print.specs.Pieces.{piece_view, tokens_of};

use crate::tail::{Piece, Tail};
use cap_syntax::TokenKind;
use std::alloc::{AllocError, Global};

fn is_symbol(kind: TokenKind) -> bool
    ensures { result ≡ is_a_symbol kind }
{
    match kind {
        TokenKind::Symbol => true,
        TokenKind::Name
        | TokenKind::Keyword
        | TokenKind::Number
        | TokenKind::Share
        | TokenKind::Wildcard
        | TokenKind::End => false,
    }
}

impl<'a> Piece<'a> {
    /// Whether it is the symbol of this one byte.
    fn is_the_symbol(&self, symbol: u8) -> bool
        ensures { result ≡ is_the_symbol (symbol ∷ []) (piece_view self.now) }
    {
        match self.text {
            [byte] => is_symbol(self.kind) && *byte == symbol,
            [] | [_, _, ..] => false,
        }
    }

    fn may_end_line(&self) -> bool
        ensures { result ≡ may_end_line (piece_view self.now) }
    {
        self.is_the_symbol(b'{') || self.is_the_symbol(b'}') || self.is_the_symbol(b';')
    }

    /// How many parentheses are open behind it, where so many are before it.
    fn parentheses_behind(&self, parentheses: usize) -> usize
        requires { parentheses + 1 < 2 ^ 64 }
        ensures { result ≡ parentheses_behind parentheses (piece_view self.now) }
    {
        if self.is_the_symbol(b'(') {
            parentheses + 1
        } else if self.is_the_symbol(b')') && parentheses > 0 {
            parentheses - 1
        } else {
            parentheses
        }
    }

    /// The byte behind it, where so many parentheses are open before it and the text goes on with
    /// these pieces.
    fn gap(&self, parentheses: usize, rest: &[Piece<'a>]) -> Option<u8>
        ensures { option_to_list result
            ≡ gap_behind parentheses (piece_view self.now) (tokens_of rest.now) }
    {
        if parentheses == 0 && self.may_end_line() {
            Some(b'\n')
        } else if rest.is_empty() {
            None
        } else {
            Some(b' ')
        }
    }
}

impl<'a> Tail<'a> {
    /// The canonical text of the tail.
    pub(crate) fn text(&self, alloc: Global) -> Result<Vec<u8>, AllocError>
        ensures { IfOk result (λ text. text.items ≡ canonical_from 0 self.now) }
    {
        canonical_text(alloc, self.room(), self.pieces())
    }
}

/// The canonical text of these pieces, of which the last of the text comes first. It takes at most
/// `room` bytes.
fn canonical_text(alloc: Global, room: usize, pieces: &[Piece<'_>]) -> Result<Vec<u8>, AllocError>
    ensures { IfOk result (λ text. text.items ≡ canonical_from 0 (tokens_of pieces.now)) }
{
    let mut text = Vec::with_capacity(alloc, room)?;
    let mut parentheses = 0;
    let mut left = pieces;
    while let [rest @ .., piece] = left {
        text.extend_from_slice(piece.text)?;
        if let Some(gap) = piece.gap(parentheses, rest) {
            text.push(gap)?;
        }
        parentheses = piece.parentheses_behind(parentheses);
        left = rest;
    }
    Ok(text)
}
