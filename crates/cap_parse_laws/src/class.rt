//! Classes of tokens, by which a reader knows what comes next.
ghost use Rattle.std.specs.Prelude.{◌≡◌, [], ◌∷◌, map};
ghost use Rattle.cap_parse_laws.specs.Classes.{class, keyword_class, symbol_class, class_in};
ghost use Rattle.cap_parse_laws.specs.Classes.{class_by, are_same};

use cap_syntax::{Token, TokenKind};

/// What the grammar sees of a token: its kind, or which keyword or symbol it is. `Other` is a token
/// that no text has, and `End` stands behind the last token.
#[derive(Clone, Copy, Debug, PartialEq, Eq)]
pub enum Class {
    Name,
    Number,
    Share,
    Wildcard,
    Region,
    Function,
    Requires,
    Ensures,
    Guards,
    Interpretation,
    Actions,
    When,
    Fork,
    If,
    Else,
    While,
    Invariant,
    Assert,
    Return,
    Alloc,
    Cas,
    True,
    False,
    Source,
    Tokens,
    Caper,
    Two,
    Faa,
    Dispose,
    AtIndex,
    FromIndex,
    Index,
    Open,
    Close,
    OpenBrace,
    CloseBrace,
    OpenBracket,
    CloseBracket,
    Comma,
    Semicolon,
    Colon,
    Becomes,
    Equal,
    Unequal,
    Less,
    AtMost,
    Greater,
    AtLeast,
    Plus,
    Minus,
    Star,
    Percent,
    At,
    Question,
    Bar,
    PointsTo,
    And,
    LeadsTo,
    Other,
    End,
}

/// Whether two classes are the same.
pub fn are_same(a: Class, b: Class) -> bool
    ensures { result ≡ are_same a b }
{
    a == b
}

// The class of the first of these words that the text is.
fn class_in(text: &[u8], table: &[(&[u8], Class)]) -> Class
    ensures { result ≡ class_in (map (λ row. (row.0.now, row.1)) table.now) text.now }
{
    for (word, class) in table {
        if text == *word {
            return *class;
        }
    }
    Class::Other
}

/// The class of a keyword. Only those of its length are compared with it.
pub fn keyword_class(text: &[u8]) -> Class
    ensures { result ≡ keyword_class text.now }
{
    match text.len() {
        1 => class_in(text, &[(b"2", Class::Two), (b"[", Class::Index)]),
        2 => class_in(text, &[(b"if", Class::If), (b"at", Class::AtIndex)]),
        3 => class_in(
            text,
            &[
                (b"CAS", Class::Cas),
                (b"src", Class::Source),
                (b"tok", Class::Tokens),
                (b"FAA", Class::Faa),
            ],
        ),
        4 => class_in(
            text,
            &[
                (b"when", Class::When),
                (b"fork", Class::Fork),
                (b"else", Class::Else),
                (b"true", Class::True),
                (b"from", Class::FromIndex),
            ],
        ),
        5 => class_in(
            text,
            &[
                (b"while", Class::While),
                (b"alloc", Class::Alloc),
                (b"false", Class::False),
                (b"caper", Class::Caper),
            ],
        ),
        6 => class_in(
            text,
            &[
                (b"region", Class::Region),
                (b"guards", Class::Guards),
                (b"assert", Class::Assert),
                (b"return", Class::Return),
            ],
        ),
        7 => class_in(
            text,
            &[
                (b"ensures", Class::Ensures),
                (b"actions", Class::Actions),
                (b"dispose", Class::Dispose),
            ],
        ),
        8 => class_in(
            text,
            &[
                (b"function", Class::Function),
                (b"requires", Class::Requires),
            ],
        ),
        9 => class_in(text, &[(b"invariant", Class::Invariant)]),
        14 => class_in(text, &[(b"interpretation", Class::Interpretation)]),
        _ => Class::Other,
    }
}

// The class of a symbol of one byte.
fn byte_class(byte: u8) -> Class
    ensures { result ≡ symbol_class (byte ∷ []) }
{
    match byte {
        b'(' => Class::Open,
        b')' => Class::Close,
        b'{' => Class::OpenBrace,
        b'}' => Class::CloseBrace,
        b'[' => Class::OpenBracket,
        b']' => Class::CloseBracket,
        b',' => Class::Comma,
        b';' => Class::Semicolon,
        b':' => Class::Colon,
        b'=' => Class::Equal,
        b'<' => Class::Less,
        b'>' => Class::Greater,
        b'+' => Class::Plus,
        b'-' => Class::Minus,
        b'*' => Class::Star,
        b'%' => Class::Percent,
        b'@' => Class::At,
        b'?' => Class::Question,
        b'|' => Class::Bar,
        _ => Class::Other,
    }
}

// The class of a symbol. Only those of its length are compared with it.
fn symbol_class(text: &[u8]) -> Class
    ensures { result ≡ symbol_class text.now }
{
    match text.len() {
        1 => byte_class(text[0]),
        2 => class_in(
            text,
            &[
                (b":=", Class::Becomes),
                (b"!=", Class::Unequal),
                (b"<=", Class::AtMost),
                (b">=", Class::AtLeast),
                (b"~>", Class::LeadsTo),
            ],
        ),
        3 => class_in(text, &[(b"|->", Class::PointsTo), (b"&*&", Class::And)]),
        _ => Class::Other,
    }
}

/// The class of a token.
pub fn class_of(token: &Token) -> Class
    ensures { result ≡ class token.now }
{
    let text = token.text.as_bytes();
    match token.kind {
        TokenKind::Number => Class::Number,
        TokenKind::End => Class::Other,
        _ if token.value != 0 => Class::Other,
        TokenKind::Name => Class::Name,
        TokenKind::Share if text == b"1p".as_slice() => Class::Share,
        TokenKind::Wildcard if text == b"_".as_slice() => Class::Wildcard,
        TokenKind::Share | TokenKind::Wildcard => Class::Other,
        TokenKind::Keyword => keyword_class(text),
        TokenKind::Symbol => symbol_class(text),
    }
}
