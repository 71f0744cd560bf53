//! Readers of terms, comparisons and slots.
// Terms and comparisons. `room` is how many more brackets may open.

ghost use Rattle.std.specs.Prelude.{◌≡◌, Ok, None, map};
ghost use Rattle.cap_parse_tree.specs.Tree.{named};
ghost use Rattle.cap_parse_tree.specs.Views.{factor_view, times_view, product_view, addend_view};
ghost use Rattle.cap_parse_tree.specs.Views.{term_view, comparison_view, slot_view};
ghost use Rattle.cap_parse_laws.specs.Grammar.{read_factor, bracketed_at, read_bracketed};
ghost use Rattle.cap_parse_laws.specs.Grammar.{read_product, read_product_from, read_addend};
ghost use Rattle.cap_parse_laws.specs.Grammar.{read_term, read_term_from, read_sign, read_relation};
ghost use Rattle.cap_parse_laws.specs.Grammar.{read_comparison, read_comparison_from, read_slot};
ghost use Rattle.cap_parse_laws.specs.Grammar.{is_sign};
ghost use Rattle.cap_parse_laws.specs.Classes.{are_same};
ghost use Rattle.cap_parse_laws.specs.Readers.{ahead, next_place, read_more, read_optional};
ghost use Rattle.cap_parse_laws.specs.Readers.{read_while, read_behind};
ghost use Rattle.cap_parse_laws.specs.declared.class.Class.TheVariants.{Star, Minus};
ghost use Rattle.cap_parse.specs.Parts.{term_in_brackets_view, read_term_in_brackets};
ghost use Rattle.cap_parse.specs.Parts.{slot_in_brackets_view, read_slot_in_brackets};
ghost use Rattle.cap_parse.specs.Reads.{IsRead};

use crate::cursor::{Cursor, Stop};
use cap_parse_laws::Class;
use cap_parse_tree::{
    Addend, Comparison, Factor, Product, Relation, Sign, Slot, Term, Times, Word,
};
use cap_syntax::Place;

/// A term in square brackets.
#[derive(Drop)]
pub(crate) struct TermInBrackets {
    pub(crate) open: Place,
    pub(crate) term: Term,
    pub(crate) close: Place,
}

/// A slot in square brackets.
#[derive(Drop)]
pub(crate) struct SlotInBrackets {
    pub(crate) open: Place,
    pub(crate) slot: Slot,
    pub(crate) close: Place,
}

impl<'a> Cursor<'a> {
    #[cycle(terms)]
    fn factor(&mut self, room: u32) -> Result<Factor, Stop>
        ensures { IsRead factor_view result self.new.rest
            (read_factor (bracketed_at room) self.old.rest) }
    {
        match self.ahead() {
            Class::Number => Ok(Factor::Number(self.next_literal()?)),
            Class::Share => Ok(Factor::WholeShare(self.next_place()?)),
            Class::Name => Ok(Factor::Name(self.next_word()?)),
            _ => self.bracketed(room),
        }
    }

    #[cycle(terms)]
    fn bracketed(&mut self, room: u32) -> Result<Factor, Stop>
        ensures { IsRead factor_view result self.new.rest (bracketed_at room self.old.rest) }
    {
        if room > 0 {
            return self.in_parentheses(room - 1);
        }
        if self.is_ahead(Class::Open) {
            Err(Stop::TooDeep)
        } else {
            Err(Stop::Unexpected)
        }
    }

    #[cycle(terms)]
    fn in_parentheses(&mut self, room: u32) -> Result<Factor, Stop>
        ensures { IsRead factor_view result self.new.rest
            (read_bracketed (read_term room) self.old.rest) }
    {
        let open = self.expect(Class::Open)?;
        let term = self.term(room)?;
        let close = self.expect(Class::Close)?;
        Ok(Factor::Bracketed(open, Box::new(self.alloc, term)?, close))
    }

    #[cycle(terms)]
    fn times(&mut self, room: u32) -> Result<Vec<Times>, Stop>
        ensures { IsRead (λ v. map times_view v.items) result self.new.rest
            (read_more Star (read_factor (bracketed_at room)) self.old.rest) }
    {
        let mut times = Vec::new(self.alloc);
        while self.is_ahead(Class::Star) {
            let star = self.next_place()?;
            let factor = self.factor(room)?;
            times.push(Times { star, factor })?;
        }
        Ok(times)
    }

    #[cycle(terms)]
    fn product_from(&mut self, room: u32, first: Factor) -> Result<Product, Stop>
        ensures { IsRead product_view result self.new.rest
            (read_product_from (bracketed_at room) (factor_view first) self.old.rest) }
    {
        let more = self.times(room)?;
        Ok(Product { first, more })
    }

    #[cycle(terms)]
    fn addend(&mut self, room: u32) -> Result<Addend, Stop>
        ensures { IsRead addend_view result self.new.rest
            (read_addend (bracketed_at room) self.old.rest) }
    {
        let (sign, place) = self.sign()?;
        let factor = self.factor(room)?;
        let product = self.product_from(room, factor)?;
        Ok(Addend {
            sign,
            place,
            product,
        })
    }

    #[cycle(terms)]
    fn addends(&mut self, room: u32) -> Result<Vec<Addend>, Stop>
        ensures { IsRead (λ v. map addend_view v.items) result self.new.rest
            (read_while is_sign (read_addend (bracketed_at room)) self.old.rest) }
    {
        let mut addends = Vec::new(self.alloc);
        while self.is_sign_ahead() {
            let addend = self.addend(room)?;
            addends.push(addend)?;
        }
        Ok(addends)
    }

    /// The term that begins with this factor, behind a minus or nothing.
    #[cycle(terms)]
    pub(crate) fn term_from(
        &mut self,
        room: u32,
        minus: Option<Place>,
        first: Factor,
    ) -> Result<Term, Stop>
        ensures { IsRead term_view result self.new.rest
            (read_term_from (bracketed_at room) minus (factor_view first) self.old.rest) }
    {
        let first = self.product_from(room, first)?;
        let more = self.addends(room)?;
        Ok(Term { minus, first, more })
    }

    #[cycle(terms)]
    pub(crate) fn term(&mut self, room: u32) -> Result<Term, Stop>
        ensures { IsRead term_view result self.new.rest (read_term room self.old.rest) }
    {
        let minus = self.minus()?;
        let first = self.factor(room)?;
        self.term_from(room, minus, first)
    }

    /// The term that begins with this name.
    pub(crate) fn term_named(&mut self, room: u32, name: Word) -> Result<Term, Stop>
        ensures { IsRead term_view result self.new.rest
            (read_term_from (bracketed_at room) None (named name) self.old.rest) }
    {
        self.term_from(room, None, Factor::Name(name))
    }

    fn minus(&mut self) -> Result<Option<Place>, Stop>
        ensures { IsRead (λ p. p) result self.new.rest
            (read_optional (are_same Minus) next_place self.old.rest) }
    {
        if self.is_ahead(Class::Minus) {
            Ok(Some(self.next_place()?))
        } else {
            Ok(None)
        }
    }

    fn is_sign_ahead(&self) -> bool
        ensures { result ≡ is_sign (ahead self.now.rest) }
    {
        matches!(self.ahead(), Class::Plus | Class::Minus)
    }

    fn sign(&mut self) -> Result<(Sign, Place), Stop>
        ensures { IsRead (λ s. s) result self.new.rest (read_sign self.old.rest) }
    {
        match self.ahead() {
            Class::Plus => Ok((Sign::Plus, self.next_place()?)),
            Class::Minus => Ok((Sign::Minus, self.next_place()?)),
            _ => Err(Stop::Unexpected),
        }
    }

    fn relation(&mut self) -> Result<(Relation, Place), Stop>
        ensures { IsRead (λ r. r) result self.new.rest (read_relation self.old.rest) }
    {
        match self.ahead() {
            Class::Equal => Ok((Relation::Equal, self.next_place()?)),
            Class::Unequal => Ok((Relation::Unequal, self.next_place()?)),
            Class::Less => Ok((Relation::Less, self.next_place()?)),
            Class::AtMost => Ok((Relation::AtMost, self.next_place()?)),
            Class::Greater => Ok((Relation::Greater, self.next_place()?)),
            Class::AtLeast => Ok((Relation::AtLeast, self.next_place()?)),
            _ => Err(Stop::Unexpected),
        }
    }

    /// The comparison that begins with this term.
    pub(crate) fn comparison_from(&mut self, room: u32, left: Term) -> Result<Comparison, Stop>
        ensures { IsRead comparison_view result self.new.rest
            (read_comparison_from room (term_view left) self.old.rest) }
    {
        let (relation, place) = self.relation()?;
        let right = self.term(room)?;
        Ok(Comparison {
            left,
            relation,
            place,
            right,
        })
    }

    pub(crate) fn comparison(&mut self, room: u32) -> Result<Comparison, Stop>
        ensures { IsRead comparison_view result self.new.rest
            (read_comparison room self.old.rest) }
    {
        let left = self.term(room)?;
        self.comparison_from(room, left)
    }

    pub(crate) fn slot(&mut self, room: u32) -> Result<Slot, Stop>
        ensures { IsRead slot_view result self.new.rest (read_slot room self.old.rest) }
    {
        match self.ahead() {
            Class::Wildcard => Ok(Slot::Any(self.next_place()?)),
            _ => Ok(Slot::Is(self.term(room)?)),
        }
    }

    pub(crate) fn term_in_brackets(&mut self, room: u32) -> Result<TermInBrackets, Stop>
        ensures { IsRead term_in_brackets_view result self.new.rest
            (read_term_in_brackets room self.old.rest) }
    {
        let (inner, open) = self.opening(room, Class::OpenBracket)?;
        let term = self.term(inner)?;
        let close = self.expect(Class::CloseBracket)?;
        Ok(TermInBrackets { open, term, close })
    }

    pub(crate) fn slot_in_brackets(&mut self, room: u32) -> Result<SlotInBrackets, Stop>
        ensures { IsRead slot_in_brackets_view result self.new.rest
            (read_slot_in_brackets room self.old.rest) }
    {
        let (inner, open) = self.opening(room, Class::OpenBracket)?;
        let slot = self.slot(inner)?;
        let close = self.expect(Class::CloseBracket)?;
        Ok(SlotInBrackets { open, slot, close })
    }
}
