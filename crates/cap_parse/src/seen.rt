//! The tokens of a text that are still to be read, as the grammar sees them.
// How a token is seen depends on what stands before it.

ghost use Rattle.std.specs.Prelude.{◌≡◌};
ghost use Rattle.cap_parse_laws.specs.Classes.{class};
ghost use Rattle.cap_parse_laws.specs.Readers.{ahead, next_token};
ghost use Rattle.cap_parse_laws.specs.Versions.{is_caper, is_two, is_word, is_before_index, worded};
ghost use Rattle.cap_parse.specs.Parsing.{first_place};
ghost use Rattle.cap_parse.specs.Reads.{IsRead};
ghost use Rattle.cap_parse.specs.Sights.{is_keyword_at, seen_at, seen_from_spot, spot_behind};
ghost use Rattle.cap_parse.specs.Sights.{sight_view};

use crate::cursor::Stop;
use cap_parse_laws::{Class, are_same, class_of, keyword_class};
use cap_syntax::{Place, Text, Token, TokenKind};
use std::marker::Model;

/// Where a token stands: at the start of a text, or behind `caper`, or later in a text of the second
/// version, where a `[` would be that of an indexed guard or not, or later in one of the first.
#[derive(Clone, Copy, PartialEq, Eq)]
pub(crate) enum Spot {
    Start,
    Version,
    Index,
    Later,
    Old,
}

/// A token as the grammar sees it.
#[derive(Clone, Copy)]
pub(crate) struct Sight<'a> {
    pub(crate) kind: TokenKind,
    pub(crate) text: &'a Text,
    pub(crate) value: u64,
    pub(crate) place: Place,
}

fn is_caper(token: &Token) -> bool
    ensures { result ≡ is_caper token.now }
{
    are_same(Class::Name, class_of(token)) && token.text.as_bytes() == b"caper".as_slice()
}

fn is_two(token: &Token) -> bool
    ensures { result ≡ is_two token.now }
{
    are_same(Class::Number, class_of(token))
        && (token.text.as_bytes() == b"2".as_slice() && token.value == 2)
}

fn is_word(text: &[u8]) -> bool
    ensures { result ≡ is_word text.now }
{
    text == b"FAA".as_slice()
        || (text == b"dispose".as_slice()
            || (text == b"at".as_slice() || text == b"from".as_slice()))
}

fn is_before_index(class: Class) -> bool
    ensures { result ≡ is_before_index class }
{
    matches!(
        class,
        Class::Star | Class::Plus | Class::Open | Class::Guards
    )
}

impl Spot {
    /// Whether the token is seen as a keyword.
    fn makes_keyword(self, token: &Token) -> bool
        ensures { result ≡ is_keyword_at self token.now }
    {
        match self {
            Spot::Start => is_caper(token),
            Spot::Version => is_two(token),
            Spot::Index => {
                are_same(Class::OpenBracket, class_of(token))
                    || (are_same(Class::Name, class_of(token)) && is_word(token.text.as_bytes()))
            }
            Spot::Later => {
                are_same(Class::Name, class_of(token)) && is_word(token.text.as_bytes())
            }
            Spot::Old => false,
        }
    }

    /// The class of the token as it is seen.
    fn class(self, token: &Token) -> Class
        ensures { result ≡ class (seen_at self token.now) }
    {
        if self.makes_keyword(token) {
            keyword_class(token.text.as_bytes())
        } else {
            class_of(token)
        }
    }

    /// Where the token behind this one stands.
    fn behind(self, token: &Token) -> Spot
        ensures { result ≡ spot_behind self token.now }
    {
        match self {
            Spot::Start => {
                if is_caper(token) {
                    Spot::Version
                } else {
                    Spot::Old
                }
            }
            Spot::Version => Spot::Later,
            Spot::Index | Spot::Later => {
                if is_before_index(self.class(token)) {
                    Spot::Index
                } else {
                    Spot::Later
                }
            }
            Spot::Old => Spot::Old,
        }
    }

    /// The class of the first of these tokens as it is seen, or that of the end.
    fn ahead(self, tokens: &[Token]) -> Class
        ensures { result ≡ ahead (seen_from_spot self tokens.now) }
    {
        match tokens {
            [token, ..] => self.class(token),
            [] => Class::End,
        }
    }

    /// The token as it is seen.
    fn sight<'a>(self, token: &'a Token) -> Sight<'a>
        ensures { sight_view result ≡ seen_at self token.now }
    {
        if self.makes_keyword(token) {
            Sight {
                kind: TokenKind::Keyword,
                text: &token.text,
                value: 0,
                place: token.place,
            }
        } else {
            Sight {
                kind: token.kind,
                text: &token.text,
                value: token.value,
                place: token.place,
            }
        }
    }
}

/// Tokens that are still to be read, and the class of the next one, for which readers ask again and
/// again. Contracts see their list, each token as the grammar sees it.
#[derive(Drop)]
pub(crate) struct Seen<'a> {
    tokens: &'a [Token],
    spot: Spot,
    class: Class,
}

impl<'a> Model for Seen<'a> {
    ghost use Rattle.std.specs.Prelude.{◌≡◌, List};
    ghost use Rattle.cap_syntax.specs.declared.token.Token.{Token};
    ghost use Rattle.cap_parse_laws.specs.Readers.{ahead};
    ghost use Rattle.cap_parse.specs.Sights.{seen_from_spot};

    ghost Value = { List Token };

    ghost view = { λ s. seen_from_spot s.spot s.tokens.now };

    ghost invariant = { λ s. s.class ≡ ahead (seen_from_spot s.spot s.tokens.now) };
}

impl<'a> Seen<'a> {
    /// All tokens of a text.
    pub(crate) fn new(tokens: &'a [Token]) -> Seen<'a>
        ensures { result ≡ worded tokens.now }
    {
        Seen {
            tokens,
            spot: Spot::Start,
            class: Spot::Start.ahead(tokens),
        }
    }

    /// The class of the next token.
    pub(crate) fn ahead(&self) -> Class
        ensures { result ≡ ahead self.now }
    {
        self.class
    }

    pub(crate) fn next(&mut self) -> Result<Sight<'a>, Stop>
        ensures { IsRead sight_view result self.new (next_token self.old) }
    {
        match self.tokens {
            [token, rest @ ..] => {
                let sight = self.spot.sight(token);
                let spot = self.spot.behind(token);
                *self = Seen {
                    tokens: rest,
                    spot,
                    class: spot.ahead(rest),
                };
                Ok(sight)
            }
            [] => Err(Stop::Unexpected),
        }
    }

    /// The place of the next token, or where there is none that of the end.
    #[tactic(auto, using(crate::proofs::Sights::same_first_place))]
    pub(crate) fn place_or(&self, end: Place) -> Place
        ensures { result ≡ first_place self.now end }
    {
        match self.tokens {
            [token, ..] => token.place,
            [] => end,
        }
    }
}
