//! A cursor over tokens: what comes next, and the readers of single tokens.
// The tokens that are still to be read, and the steps that every production takes.

ghost use Rattle.std.specs.Prelude.{◌≡◌, Ok};
ghost use Rattle.cap_parse_laws.specs.Classes.{are_same};
ghost use Rattle.cap_parse_laws.specs.Readers.{ahead, next_token, next_place, next_word, next_literal};
ghost use Rattle.cap_parse_laws.specs.Readers.{expect, read_name, read_number, read_opening};
ghost use Rattle.cap_parse.specs.Reads.{IsRead};
ghost use Rattle.cap_parse.specs.Sights.{sight_view};
ghost use Rattle.cap_parse.specs.declared.cursor.Stop.TheVariants.{OutOfMemory};

use crate::seen::{Seen, Sight};
use cap_parse_laws::{Class, are_same};
use cap_parse_tree::{Literal, Word};
use cap_syntax::Place;
use std::alloc::{AllocError, AllocFailed, Global};

/// Why there is no tree. The cursor then stands at the token at fault, or at the end.
#[derive(Clone, Copy, PartialEq, Eq)]
pub(crate) enum Stop {
    Unexpected,
    TooDeep,
    OutOfMemory,
}

impl From<AllocError> for Stop {
    ghost from_gives = { λ _ e. e ≡ OutOfMemory };

    fn from(_: AllocError) -> Self {
        Stop::OutOfMemory
    }
}

impl<T: Drop> From<AllocFailed<T>> for Stop {
    ghost from_gives = { λ _ e. e ≡ OutOfMemory };

    fn from(_: AllocFailed<T>) -> Self {
        Stop::OutOfMemory
    }
}

/// The tokens that are still to be read.
#[derive(Drop)]
pub(crate) struct Cursor<'a> {
    pub(crate) alloc: Global,
    pub(crate) rest: Seen<'a>,
}

impl<'a> Cursor<'a> {
    /// The class of the next token.
    pub(crate) fn ahead(&self) -> Class
        ensures { result ≡ ahead self.now.rest }
    {
        self.rest.ahead()
    }

    /// Whether the next token is of this class.
    pub(crate) fn is_ahead(&self, class: Class) -> bool
        ensures { result ≡ are_same class (ahead self.now.rest) }
    {
        are_same(class, self.ahead())
    }

    fn next(&mut self) -> Result<Sight<'a>, Stop>
        ensures { IsRead sight_view result self.new.rest (next_token self.old.rest) }
    {
        self.rest.next()
    }

    pub(crate) fn next_place(&mut self) -> Result<Place, Stop>
        ensures { IsRead (λ p. p) result self.new.rest (next_place self.old.rest) }
    {
        Ok(self.next()?.place)
    }

    pub(crate) fn next_word(&mut self) -> Result<Word, Stop>
        ensures { IsRead (λ w. w) result self.new.rest (next_word self.old.rest) }
    {
        let token = self.next()?;
        Ok(Word {
            text: token.text.copy()?,
            place: token.place,
        })
    }

    pub(crate) fn next_literal(&mut self) -> Result<Literal, Stop>
        ensures { IsRead (λ n. n) result self.new.rest (next_literal self.old.rest) }
    {
        let token = self.next()?;
        Ok(Literal {
            text: token.text.copy()?,
            value: token.value,
            place: token.place,
        })
    }

    /// A token of this class.
    pub(crate) fn expect(&mut self, class: Class) -> Result<Place, Stop>
        ensures { IsRead (λ p. p) result self.new.rest (expect class self.old.rest) }
    {
        if !self.is_ahead(class) {
            return Err(Stop::Unexpected);
        }
        self.next_place()
    }

    pub(crate) fn name(&mut self) -> Result<Word, Stop>
        ensures { IsRead (λ w. w) result self.new.rest (read_name self.old.rest) }
    {
        if !self.is_ahead(Class::Name) {
            return Err(Stop::Unexpected);
        }
        self.next_word()
    }

    pub(crate) fn number(&mut self) -> Result<Literal, Stop>
        ensures { IsRead (λ n. n) result self.new.rest (read_number self.old.rest) }
    {
        if !self.is_ahead(Class::Number) {
            return Err(Stop::Unexpected);
        }
        self.next_literal()
    }

    /// A bracket of this class, where `room` more may open. Gives back how many may open in it.
    pub(crate) fn opening(&mut self, room: u32, class: Class) -> Result<(u32, Place), Stop>
        ensures { IsRead (λ o. o) result self.new.rest (read_opening room class self.old.rest) }
    {
        if room > 0 {
            return Ok((room - 1, self.expect(class)?));
        }
        if self.is_ahead(class) {
            Err(Stop::TooDeep)
        } else {
            Err(Stop::Unexpected)
        }
    }
}
