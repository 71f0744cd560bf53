//! Tokens that are put in front of those that are there.
// The tail of a text, which grows to the front.

ghost use Rattle.std.specs.Prelude.{◌≡◌, ◌∷◌, [], IfOk};
ghost use Rattle.cap_parse_tree.specs.Tokens.{plain_token, name, number, share, wildcard, keyword};
ghost use Rattle.cap_parse_tree.specs.Tokens.{symbol};
ghost use Rattle.cap_parse_print.specs.Pieces.{piece_view, tokens_of};

use cap_parse_tree::{Literal, Word};
use cap_syntax::{Place, TokenKind};
use std::alloc::{AllocError, Global};
use std::marker::Model;

/// A token whose text is lent.
#[derive(Clone, Copy)]
pub(crate) struct Piece<'a> {
    pub(crate) kind: TokenKind,
    pub(crate) text: &'a [u8],
    pub(crate) value: u64,
    pub(crate) place: Place,
}

/// The tokens at the end of a text. Contracts see them as their list, the first of the text first.
#[derive(Drop)]
pub(crate) struct Tail<'a> {
    /// The last of the text first.
    pieces: Vec<Piece<'a>>,
    /// How many bytes the pieces have, with one byte behind each.
    room: usize,
}

impl<'a> Model for Tail<'a> {
    ghost use Rattle.std.specs.Prelude.{List};
    ghost use Rattle.cap_syntax.specs.declared.token.Token.{Token};
    ghost use Rattle.cap_parse_print.specs.Pieces.{tokens_of};

    ghost Value = { List Token };

    ghost view = { λ t. tokens_of t.pieces.items };
}

impl<'a> Tail<'a> {
    pub(crate) fn new(alloc: Global) -> Tail<'a>
        ensures { result ≡ [] }
    {
        Tail {
            pieces: Vec::new(alloc),
            room: 0,
        }
    }

    /// The pieces, of which the last of the text comes first.
    pub(crate) fn pieces(&self) -> &[Piece<'a>]
        ensures { tokens_of result.now ≡ self.now }
    {
        self.pieces.as_slice()
    }

    /// How many bytes the pieces have, with one byte behind each.
    pub(crate) fn room(&self) -> usize {
        self.room
    }

    #[tactic(auto, using(crate::proofs::Tails::tails))]
    fn put(&mut self, piece: Piece<'a>) -> Result<(), AllocError>
        ensures { IfOk result (λ _. self.new ≡ piece_view piece.entry ∷ self.old) }
    {
        self.pieces.push(piece)?;
        self.room = self.room.saturating_add(piece.text.len()).saturating_add(1);
        Ok(())
    }

    fn put_plain(&mut self, kind: TokenKind, text: &'a [u8], place: Place) -> Result<(), AllocError>
        ensures { IfOk result (λ _. self.new ≡ plain_token kind text.now place ∷ self.old) }
    {
        self.put(Piece {
            kind,
            text,
            value: 0,
            place,
        })
    }

    pub(crate) fn name(&mut self, word: &'a Word) -> Result<(), AllocError>
        ensures { IfOk result (λ _. self.new ≡ name word.now ∷ self.old) }
    {
        self.put_plain(TokenKind::Name, word.text.as_bytes(), word.place)
    }

    pub(crate) fn number(&mut self, literal: &'a Literal) -> Result<(), AllocError>
        ensures { IfOk result (λ _. self.new ≡ number literal.now ∷ self.old) }
    {
        self.put(Piece {
            kind: TokenKind::Number,
            text: literal.text.as_bytes(),
            value: literal.value,
            place: literal.place,
        })
    }

    pub(crate) fn share(&mut self, place: Place) -> Result<(), AllocError>
        ensures { IfOk result (λ _. self.new ≡ share place ∷ self.old) }
    {
        self.put_plain(TokenKind::Share, b"1p", place)
    }

    pub(crate) fn wildcard(&mut self, place: Place) -> Result<(), AllocError>
        ensures { IfOk result (λ _. self.new ≡ wildcard place ∷ self.old) }
    {
        self.put_plain(TokenKind::Wildcard, b"_", place)
    }

    pub(crate) fn keyword(&mut self, text: &'a [u8], place: Place) -> Result<(), AllocError>
        ensures { IfOk result (λ _. self.new ≡ keyword text.now place ∷ self.old) }
    {
        self.put_plain(TokenKind::Keyword, text, place)
    }

    pub(crate) fn symbol(&mut self, text: &'a [u8], place: Place) -> Result<(), AllocError>
        ensures { IfOk result (λ _. self.new ≡ symbol text.now place ∷ self.old) }
    {
        self.put_plain(TokenKind::Symbol, text, place)
    }
}
