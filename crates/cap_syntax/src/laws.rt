//! Laws of tokens: each text is read or refused, and printed tokens are read back.
ghost use Rattle.std.specs.Prelude.{ℕ, ◌≤◌, ◌⊎◌, List, [], ◌∷◌, ◌++◌, length, All};
ghost use Rattle.cap_syntax.specs.declared.token.Token.{Token};
ghost use Rattle.cap_syntax.specs.declared.token.TokenError.{TokenError};
ghost use Rattle.cap_syntax.specs.Layout.{end_of, AreTokensOf};
ghost use Rattle.cap_syntax.specs.Printing.{IsSpelled, AreSpaced, ReadsAs, printed, tokens_in};
ghost use Rattle.cap_syntax.specs.Refusal.{max_text, IsFirstCause};

/// A law: a text that isn't too long has tokens, or a first cause of a refusal.
pub fn texts_are_read_or_refused()
    ensures { (bytes : List ℕ) → length bytes ≤ max_text
        → ((all : List Token) × AreTokensOf bytes all) ⊎ ((e : TokenError) × IsFirstCause bytes e) }
{}

/// A law: tokens that are printed with blanks between them are read again, apart from their places.
/// It holds of the tokens of each text, since those are spelled.
pub fn printed_tokens_read_back()
    ensures spelled { (bytes : List ℕ) (ts : List Token) →
        AreTokensOf bytes (ts ++ end_of bytes ∷ []) → All IsSpelled ts }
    ensures read_back { (pieces : List (Token × List ℕ)) →
        All IsSpelled (tokens_in pieces) → AreSpaced pieces
        → ReadsAs (printed pieces) (tokens_in pieces) }
{}
