//! The tokens of a text, or the first place at which there is none.
ghost use Rattle.std.specs.Prelude.{◌≡◌, ℕ, ◌+◌, ◌^◌, ◌<◌, ◌≤◌, ◌++◌, List, length, drop};
ghost use Rattle.std.specs.Prelude.{IfOk, IfErr, IsOkUnless, MatchResult};
ghost use Rattle.cap_syntax.specs.Place.{place_after, StandsAt};
ghost use Rattle.cap_syntax.specs.Refusal.{max_text, IsCause, IsFirstBreak, IsRefusal, UnlessMemory, FailsExactly};
ghost use Rattle.cap_syntax.specs.declared.token.TokenError.{TokenError};
ghost use Rattle.cap_syntax.specs.declared.place.Place.{Place};
ghost use Rattle.cap_syntax.specs.declared.token.Token.{Token};
ghost use Rattle.cap_syntax.specs.Layout.{is_blank, past_gap, IsTokenAt, AreTokensOf, EndsOnce};

use crate::place::Place;
use crate::spelling::{begins_barred, longest_token, value_of};
use crate::text::Text;
use crate::token::{Token, TokenError, TokenKind};
use std::alloc::Global;
use std::rc::Rc;

const MAX_TEXT: usize = 1_048_576;

// The place behind these bytes.
fn moved(place: Place, passed: &[u8]) -> Place
    requires line { place.line + length passed.now < 2 ^ 32 }
    requires column { place.column + length passed.now < 2 ^ 32 }
    ensures { (front : List ℕ) → place ≡ place_after front → result ≡ place_after (front ++ passed.now) }
{
    let mut line = place.line;
    let mut column = place.column;
    for byte in passed {
        if *byte == b'\n' {
            line += 1;
            column = 1;
        } else {
            column += 1;
        }
    }
    Place { line, column }
}

fn is_blank(byte: u8) -> bool
    ensures { result ≡ is_blank byte }
{
    matches!(byte, b' ' | b'\t' | b'\n' | b'\r')
}

// How many bytes of blanks and comments stand at the front.
fn gap_length(rest: &[u8]) -> usize
    ensures within { result ≤ length rest.now }
    ensures past { drop result rest.now ≡ past_gap rest.now }
{
    let mut in_comment = false;
    for (i, byte) in rest.iter().enumerate() {
        if in_comment {
            in_comment = *byte != b'\n';
        } else if rest[i..].starts_with(b"//") {
            in_comment = true;
        } else if !is_blank(*byte) {
            return i;
        }
    }
    rest.len()
}

// What is left behind the blanks and comments at the front, and its place.
fn past_gap(rest: &[u8], place: Place) -> (&[u8], Place)
    requires line { place.line + length rest.now < 2 ^ 32 }
    requires column { place.column + length rest.now < 2 ^ 32 }
    ensures rest { result.0.now ≡ past_gap rest.now }
    ensures place { (bytes : List ℕ) →
        StandsAt bytes rest.now place → StandsAt bytes result.0.now result.1 }
{
    let (gap, after) = rest.split_at(gap_length(rest));
    (after, moved(place, gap))
}

// The token at the front of what is left of the text.
fn next_token(whole: &Rc<Vec<u8>>, rest: &[u8], place: Place) -> Result<Token, TokenError>
    requires stands { StandsAt whole.now.value.items rest.now place }
    requires left { 0 < length rest.now }
    requires line { place.line + length rest.now < 2 ^ 32 }
    requires column { place.column + length rest.now < 2 ^ 32 }
    ensures token { IfOk result (λ t. IsTokenAt place rest.now t) }
    ensures refused { (bytes : List ℕ) → StandsAt bytes rest.now place
        → IfErr result (λ e. UnlessMemory e (IsFirstBreak bytes rest.now e)) }
{
    let Some((kind, length)) = longest_token(rest) else {
        return Err(TokenError::BadByte(place));
    };
    let (text, after) = rest.split_at(length);
    let Some(value) = value_of(kind, text) else {
        return Err(TokenError::LongLiteral(place));
    };
    if begins_barred(kind, after) {
        return Err(TokenError::BadByte(moved(place, text)));
    }
    let start = whole.len() - rest.len();
    let text = Text::part(whole, start, start + length)?;
    Ok(Token {
        kind,
        text,
        value,
        place,
    })
}

// The tokens of a text, or its refusal.
fn scan(alloc: Global, bytes: &[u8]) -> Result<Vec<Token>, TokenError>
    ensures { MatchResult result
        (λ v. (length bytes.now ≤ max_text) × AreTokensOf bytes.now v.items)
        (λ e. UnlessMemory e (IsRefusal bytes.now e)) }
{
    if bytes.len() > MAX_TEXT {
        return Err(TokenError::TextTooLong);
    }
    let whole = Rc::new(alloc, Vec::from_slice(alloc, bytes)?)?;
    let mut tokens = Vec::new(alloc);
    let (mut rest, mut place) = past_gap(bytes, Place { line: 1, column: 1 });
    while !rest.is_empty() {
        let token = next_token(&whole, rest, place)?;
        let (text, after) = rest.split_at(token.text.as_bytes().len());
        (rest, place) = past_gap(after, moved(place, text));
        tokens.push(token)?;
    }
    tokens.push(Token {
        kind: TokenKind::End,
        text: Text::part(&whole, bytes.len(), bytes.len())?,
        value: 0,
        place,
    })?;
    Ok(tokens)
}

/// The tokens of a text, each the longest at its place, and a last one of kind `End` behind the last
/// byte.
///
/// - `TextTooLong`: the text has more than 1,048,576 bytes.
/// - `BadByte`: a byte starts no token, or may not directly follow the token before it: a letter or
///   `_` a number, and a letter, a digit or `_` a whole share or a wildcard.
/// - `LongLiteral`: digits spell more than 9223372036854775807.
///
/// `TextTooLong` comes before the others, and of these the one with the earliest place. `OutOfMemory`
/// says that memory ran out.
pub fn tokens(alloc: Global, bytes: &[u8]) -> Result<Vec<Token>, TokenError>
    ensures ok { IfOk result (λ v. (length bytes.now ≤ max_text) × AreTokensOf bytes.now v.items) }

    // No other list is the text's.
    ensures only { (ts : List Token) → length bytes.now ≤ max_text → AreTokensOf bytes.now ts
        → MatchResult result (λ v. v.items ≡ ts) (λ e. e ≡ TokenError.OutOfMemory) }
    ensures ends { IfOk result (λ v. EndsOnce v.items) }

    // A text that isn't too long and has no bad byte and no long literal is read.
    ensures accepted { length bytes.now ≤ max_text → ((e : TokenError) → IsCause bytes.now e → ⊥)
        → IsOkUnless result TokenError.OutOfMemory }

    // Each refusal comes exactly where it is the text's.
    ensures bad_byte { (place : Place) → FailsExactly result (TokenError.BadByte place) bytes.now }
    ensures long_literal { (place : Place) → FailsExactly result (TokenError.LongLiteral place) bytes.now }
    ensures text_too_long { FailsExactly result TokenError.TextTooLong bytes.now }
{
    scan(alloc, bytes)
}
