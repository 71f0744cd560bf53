//! The longest token at the front of a text, and its value.
ghost use Rattle.std.specs.Prelude.{◌≡◌, ℕ, ◌<◌, ◌≤◌, ◌&&◌, false, length, map, take, nat_le};
ghost use Rattle.std.specs.Prelude.{IsTrue, MatchOption, slice_index};
ghost use Rattle.std.specs.List.{prefix_len, list_all};
ghost use Rattle.std.specs.Char.{is_ascii_alphabetic, is_ascii_digit};
ghost use Rattle.cap_syntax.specs.Spelling.{keywords, symbols, is_one_of, is_word_byte};
ghost use Rattle.cap_syntax.specs.Spelling.{max_literal, number_of, value_of, spells};
ghost use Rattle.cap_syntax.specs.Spelling.{begins_barred, IsLongest, StartsNone};

use crate::token::TokenKind;

const MAX_LITERAL: u64 = 9223372036854775807;

// Whether the text is one of these words.
fn is_any(text: &[u8], words: &[&[u8]]) -> bool
    ensures { result ≡ is_one_of (map (λ word. word.now) words.now) text.now }
{
    words.contains(&text)
}

// Whether the text is a keyword. Only those of its length are compared with it.
fn is_keyword(text: &[u8]) -> bool
    ensures { result ≡ is_one_of keywords text.now }
{
    match text.len() {
        2 => is_any(text, &[b"if"]),
        3 => is_any(text, &[b"CAS", b"src", b"tok"]),
        4 => is_any(text, &[b"when", b"fork", b"else", b"true"]),
        5 => is_any(text, &[b"while", b"alloc", b"false"]),
        6 => is_any(text, &[b"region", b"guards", b"assert", b"return"]),
        7 => is_any(text, &[b"ensures", b"actions"]),
        8 => is_any(text, &[b"function", b"requires"]),
        9 => is_any(text, &[b"invariant"]),
        14 => is_any(text, &[b"interpretation"]),
        _ => false,
    }
}

// Whether the text is a symbol. Only those of its length are compared with it.
fn is_symbol(text: &[u8]) -> bool
    ensures { result ≡ is_one_of symbols text.now }
{
    match text.len() {
        1 => b"(){}[],;:=<>+-*%@?|".contains(&text[0]),
        2 => is_any(text, &[b":=", b"!=", b"<=", b">=", b"~>"]),
        3 => is_any(text, &[b"|->", b"&*&"]),
        _ => false,
    }
}

fn is_word_byte(byte: u8) -> bool
    ensures { result ≡ is_word_byte byte }
{
    byte.is_ascii_alphanumeric() || byte == b'_'
}

fn word_length(rest: &[u8]) -> usize
    ensures { result ≡ prefix_len is_word_byte rest.now }
{
    rest.iter().take_while(|byte| is_word_byte(**byte)).count()
}

fn digits_length(rest: &[u8]) -> usize
    ensures { result ≡ prefix_len is_ascii_digit rest.now }
{
    rest.iter().take_while(|byte| byte.is_ascii_digit()).count()
}

// Whether this many bytes at the front are a symbol.
fn has_symbol(rest: &[u8], n: usize) -> bool
    ensures { result ≡ (nat_le n (length rest.now) && is_one_of symbols (take n rest.now)) }
{
    n <= rest.len() && is_symbol(&rest[..n])
}

// How many bytes the longest symbol at the front has: 0 where there is none.
fn symbol_length(rest: &[u8]) -> usize
    ensures within { result ≤ length rest.now }
    ensures spelled { 0 < result → IsTrue (is_one_of symbols (take result rest.now)) }
    ensures longest { (m : ℕ) → result < m → m ≤ length rest.now
        → is_one_of symbols (take m rest.now) ≡ false }
{
    if has_symbol(rest, 3) {
        3
    } else if has_symbol(rest, 2) {
        2
    } else if has_symbol(rest, 1) {
        1
    } else {
        0
    }
}

// The token that begins with a digit.
fn digits_token(rest: &[u8]) -> (TokenKind, usize)
    requires { IsTrue (is_ascii_digit (slice_index rest.now 0)) }
    ensures { IsLongest result.0 result.1 rest.now }
{
    if rest.starts_with(b"1p") {
        (TokenKind::Share, 2)
    } else {
        (TokenKind::Number, digits_length(rest))
    }
}

// The token that begins with a letter.
fn word_token(rest: &[u8]) -> (TokenKind, usize)
    requires { IsTrue (is_ascii_alphabetic (slice_index rest.now 0)) }
    ensures { IsLongest result.0 result.1 rest.now }
{
    let length = word_length(rest);
    if is_keyword(&rest[..length]) {
        (TokenKind::Keyword, length)
    } else {
        (TokenKind::Name, length)
    }
}

/// The longest token at the front: its kind, and how many bytes it has.
pub fn longest_token(rest: &[u8]) -> Option<(TokenKind, usize)>
    ensures { MatchOption result (StartsNone rest.now) (λ found. IsLongest found.0 found.1 rest.now) }
{
    let first = *rest.first()?;
    if first.is_ascii_alphabetic() {
        Some(word_token(rest))
    } else if first.is_ascii_digit() {
        Some(digits_token(rest))
    } else if first == b'_' {
        Some((TokenKind::Wildcard, 1))
    } else {
        symbol_token(rest)
    }
}

// The symbol at the front of what begins with no letter, digit or `_`.
fn symbol_token(rest: &[u8]) -> Option<(TokenKind, usize)>
    requires { is_word_byte (slice_index rest.now 0) ≡ false }
    ensures { MatchOption result (StartsNone rest.now) (λ found. IsLongest found.0 found.1 rest.now) }
{
    let length = symbol_length(rest);
    if length == 0 {
        None
    } else {
        Some((TokenKind::Symbol, length))
    }
}

// The number that digits spell, or `None` where it is more than a literal may be.
fn number_of(digits: &[u8]) -> Option<u64>
    requires { IsTrue (list_all is_ascii_digit digits.now) }
    ensures { MatchOption result (max_literal < number_of digits.now)
        (λ n. (n ≡ number_of digits.now) × (n ≤ max_literal)) }
{
    let mut number = 0;
    for byte in digits {
        let digit = u64::from(*byte - b'0');
        if number > (MAX_LITERAL - digit) / 10 {
            return None;
        }
        number = 10 * number + digit;
    }
    Some(number)
}

/// What a token of this kind and text counts, or `None` where that is more than a literal may be.
pub fn value_of(kind: TokenKind, text: &[u8]) -> Option<u64>
    requires { IsTrue (spells kind text.now) }
    ensures { MatchOption result (max_literal < value_of kind text.now)
        (λ n. (n ≡ value_of kind text.now) × (n ≤ max_literal)) }
{
    match kind {
        TokenKind::Number => number_of(text),
        _ => Some(0),
    }
}

/// Whether the rest of a text begins with a byte that may not directly follow a token of this kind.
pub fn begins_barred(kind: TokenKind, rest: &[u8]) -> bool
    ensures { result ≡ begins_barred kind rest.now }
{
    let Some(next) = rest.first() else {
        return false;
    };
    match kind {
        TokenKind::Number => next.is_ascii_alphabetic() || *next == b'_',
        TokenKind::Share | TokenKind::Wildcard => is_word_byte(*next),
        TokenKind::Name | TokenKind::Keyword | TokenKind::Symbol | TokenKind::End => false,
    }
}
