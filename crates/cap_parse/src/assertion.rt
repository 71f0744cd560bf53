//! Readers of guards, items and assertions.
// Guards and assertions. `room` is how many more brackets may open.

ghost use Rattle.std.specs.Prelude.{◌≡◌, Ok, map};
ghost use Rattle.cap_parse_tree.specs.Views.{term_view, comparison_view, slot_view, guard_view};
ghost use Rattle.cap_parse_tree.specs.Views.{held_view, several_view, behind_view, item_view, and_view};
ghost use Rattle.cap_parse_tree.specs.Views.{assertion_view, side_view, clause_view};
ghost use Rattle.cap_parse_laws.specs.Grammar.{read_slot, read_amount, read_counted, read_guard};
ghost use Rattle.cap_parse_laws.specs.Grammar.{read_guards, read_held, choice_by, read_choice};
ghost use Rattle.cap_parse_laws.specs.Grammar.{read_item_from};
ghost use Rattle.cap_parse_laws.specs.Grammar.{read_fact, read_named_item, read_item, read_assertion};
ghost use Rattle.cap_parse_laws.specs.Grammar.{read_assertion_with, read_side, side_at, read_clause};
ghost use Rattle.cap_parse_laws.specs.Readers.{read_more};
ghost use Rattle.cap_parse_laws.specs.declared.class.Class.TheVariants.{Star, Comma, And as Joins};
ghost use Rattle.cap_parse_laws.specs.declared.class.Class.TheVariants.{Question};
ghost use Rattle.cap_parse.specs.Parts.{fact_front_view, read_fact_front, sides_view, read_sides};
ghost use Rattle.cap_parse.specs.Reads.{IsRead};

use crate::cursor::{Cursor, Stop};
use crate::term::SlotInBrackets;
use cap_parse_laws::Class;
use cap_parse_tree::{
    And, Assertion, Clause, Comparison, Counted, GuardAtom, Guards, Item, Separated, Side, Slot,
    Term, Word,
};
use cap_syntax::Place;

/// The front of the parts of a fact: the region, its arguments and a semicolon.
#[derive(Drop)]
pub(crate) struct FactFront {
    region: Word,
    arguments: Vec<(Place, Slot)>,
    semicolon: Place,
}

/// `?`, and two sides with a colon between them.
#[derive(Drop)]
pub(crate) struct Sides {
    question: Place,
    holds: Side,
    colon: Place,
    fails: Side,
}

impl<'a> Cursor<'a> {
    /// A guard's name, behind which an amount may come.
    fn amount(&mut self, room: u32, name: Word) -> Result<GuardAtom, Stop>
        ensures { IsRead guard_view result self.new.rest (read_amount room name self.old.rest) }
    {
        match self.ahead() {
            Class::OpenBracket => {
                let (inner, open) = self.opening(room, Class::OpenBracket)?;
                let slot = self.slot(inner)?;
                let close = self.expect(Class::CloseBracket)?;
                Ok(GuardAtom::Amount(name, open, slot, close))
            }
            _ => Ok(GuardAtom::Alone(name)),
        }
    }

    /// `src`, `tok`, `at` or `from`, which comes next, a guard's name, and a count or an index.
    fn counted(&mut self, room: u32, counted: Counted) -> Result<GuardAtom, Stop>
        ensures { IsRead guard_view result self.new.rest
            (read_counted room counted self.old.rest) }
    {
        let key = self.next_place()?;
        let name = self.name()?;
        let SlotInBrackets { open, slot, close } = self.slot_in_brackets(room)?;
        Ok(GuardAtom::Count(counted, key, name, open, slot, close))
    }

    fn guard(&mut self, room: u32) -> Result<GuardAtom, Stop>
        ensures { IsRead guard_view result self.new.rest (read_guard room self.old.rest) }
    {
        match self.ahead() {
            Class::Name => {
                let name = self.next_word()?;
                self.amount(room, name)
            }
            Class::Source => self.counted(room, Counted::Source),
            Class::Tokens => self.counted(room, Counted::Tokens),
            Class::AtIndex => self.counted(room, Counted::At),
            Class::FromIndex => self.counted(room, Counted::From),
            _ => Err(Stop::Unexpected),
        }
    }

    fn more_guards(&mut self, room: u32) -> Result<Vec<(Place, GuardAtom)>, Stop>
        ensures { IsRead (λ v. map (behind_view guard_view) v.items) result self.new.rest
            (read_more Star (read_guard room) self.old.rest) }
    {
        let mut more = Vec::new(self.alloc);
        while self.is_ahead(Class::Star) {
            let star = self.next_place()?;
            let guard = self.guard(room)?;
            more.push((star, guard))?;
        }
        Ok(more)
    }

    pub(crate) fn guards(&mut self, room: u32) -> Result<Separated<GuardAtom>, Stop>
        ensures { IsRead (several_view guard_view) result self.new.rest
            (read_guards room self.old.rest) }
    {
        let first = self.guard(room)?;
        let more = self.more_guards(room)?;
        Ok(Separated { first, more })
    }

    fn held(&mut self, room: u32) -> Result<Guards, Stop>
        ensures { IsRead held_view result self.new.rest (read_held room self.old.rest) }
    {
        match self.ahead() {
            Class::Open => {
                let (inner, open) = self.opening(room, Class::Open)?;
                let guards = self.guards(inner)?;
                let close = self.expect(Class::Close)?;
                Ok(Guards::Bracketed(open, guards, close))
            }
            _ => Ok(Guards::Bare(self.guards(room)?)),
        }
    }

    fn arguments(&mut self, room: u32) -> Result<Vec<(Place, Slot)>, Stop>
        ensures { IsRead (λ v. map (behind_view slot_view) v.items) result self.new.rest
            (read_more Comma (read_slot room) self.old.rest) }
    {
        let mut arguments = Vec::new(self.alloc);
        while self.is_ahead(Class::Comma) {
            let comma = self.next_place()?;
            let slot = self.slot(room)?;
            arguments.push((comma, slot))?;
        }
        Ok(arguments)
    }

    fn fact_front(&mut self, room: u32) -> Result<FactFront, Stop>
        ensures { IsRead fact_front_view result self.new.rest
            (read_fact_front room self.old.rest) }
    {
        let region = self.name()?;
        let arguments = self.arguments(room)?;
        let semicolon = self.expect(Class::Semicolon)?;
        Ok(FactFront {
            region,
            arguments,
            semicolon,
        })
    }

    /// What follows a region type's name in a fact.
    fn fact(&mut self, room: u32, name: Word) -> Result<Item, Stop>
        ensures { IsRead item_view result self.new.rest (read_fact room name self.old.rest) }
    {
        let (inner, open) = self.opening(room, Class::Open)?;
        let front = self.fact_front(inner)?;
        let state = self.slot(inner)?;
        let close = self.expect(Class::Close)?;
        let FactFront {
            region,
            arguments,
            semicolon,
        } = front;
        Ok(Item::Fact(name, open, region, arguments, semicolon, state, close))
    }

    /// What `?`, which comes next, begins.
    #[cycle(items)]
    fn sides(&mut self, room: u32) -> Result<Sides, Stop>
        ensures { IsRead sides_view result self.new.rest
            (read_sides (side_at room) self.old.rest) }
    {
        let question = self.next_place()?;
        let holds = self.side(room)?;
        let colon = self.expect(Class::Colon)?;
        let fails = self.side(room)?;
        Ok(Sides {
            question,
            holds,
            colon,
            fails,
        })
    }

    /// A comparison, behind which `?`, which comes next, and two sides come.
    #[cycle(items)]
    fn choose(&mut self, room: u32, comparison: Comparison) -> Result<Item, Stop>
        ensures { IsRead item_view result self.new.rest
            (choice_by (side_at room) (comparison_view comparison) Question self.old.rest) }
    {
        let Sides {
            question,
            holds,
            colon,
            fails,
        } = self.sides(room)?;
        Ok(Item::Choose(comparison, question, holds, colon, fails))
    }

    /// A comparison, behind which two sides may come.
    #[cycle(items)]
    fn choice(&mut self, room: u32, comparison: Comparison) -> Result<Item, Stop>
        ensures { IsRead item_view result self.new.rest
            (read_choice (side_at room) (comparison_view comparison) self.old.rest) }
    {
        match self.ahead() {
            Class::Question => self.choose(room, comparison),
            _ => Ok(Item::Compare(comparison)),
        }
    }

    /// A term, behind which a cell's value or the other side of a comparison comes.
    #[cycle(items)]
    fn item_from(&mut self, room: u32, term: Term) -> Result<Item, Stop>
        ensures { IsRead item_view result self.new.rest
            (read_item_from (side_at room) room (term_view term) self.old.rest) }
    {
        match self.ahead() {
            Class::PointsTo => {
                let arrow = self.next_place()?;
                let slot = self.slot(room)?;
                Ok(Item::Cell(term, arrow, slot))
            }
            _ => {
                let comparison = self.comparison_from(room, term)?;
                self.choice(room, comparison)
            }
        }
    }

    /// A name, behind which the parts of a fact, guards or more of a term come.
    #[cycle(items)]
    fn named_item(&mut self, room: u32, name: Word) -> Result<Item, Stop>
        ensures { IsRead item_view result self.new.rest
            (read_named_item (side_at room) room name self.old.rest) }
    {
        match self.ahead() {
            Class::Open => self.fact(room, name),
            Class::At => {
                let at = self.next_place()?;
                let guards = self.held(room)?;
                Ok(Item::Guards(name, at, guards))
            }
            _ => {
                let term = self.term_named(room, name)?;
                self.item_from(room, term)
            }
        }
    }

    #[cycle(items)]
    fn item(&mut self, room: u32) -> Result<Item, Stop>
        ensures { IsRead item_view result self.new.rest
            (read_item (side_at room) room self.old.rest) }
    {
        match self.ahead() {
            Class::True => Ok(Item::True(self.next_place()?)),
            Class::False => Ok(Item::False(self.next_place()?)),
            Class::Name => {
                let name = self.next_word()?;
                self.named_item(room, name)
            }
            _ => {
                let term = self.term(room)?;
                self.item_from(room, term)
            }
        }
    }

    #[cycle(items)]
    fn more_items(&mut self, room: u32) -> Result<Vec<And>, Stop>
        ensures { IsRead (λ v. map and_view v.items) result self.new.rest
            (read_more Joins (read_item (side_at room) room) self.old.rest) }
    {
        let mut more = Vec::new(self.alloc);
        while self.is_ahead(Class::And) {
            let place = self.next_place()?;
            let item = self.item(room)?;
            more.push(And { place, item })?;
        }
        Ok(more)
    }

    #[cycle(items)]
    pub(crate) fn assertion(&mut self, room: u32) -> Result<Assertion, Stop>
        ensures { IsRead assertion_view result self.new.rest
            (read_assertion room self.old.rest) }
    {
        let first = self.item(room)?;
        let more = self.more_items(room)?;
        Ok(Assertion { first, more })
    }

    #[cycle(items)]
    fn side(&mut self, room: u32) -> Result<Side, Stop>
        ensures { IsRead side_view result self.new.rest (side_at room self.old.rest) }
    {
        if room > 0 {
            return self.in_braces(room - 1);
        }
        if self.is_ahead(Class::OpenBrace) {
            Err(Stop::TooDeep)
        } else {
            Err(Stop::Unexpected)
        }
    }

    #[cycle(items)]
    fn in_braces(&mut self, room: u32) -> Result<Side, Stop>
        ensures { IsRead side_view result self.new.rest
            (read_side (read_assertion room) self.old.rest) }
    {
        let open = self.expect(Class::OpenBrace)?;
        let assertion = self.assertion(room)?;
        let close = self.expect(Class::CloseBrace)?;
        Ok(Side {
            open,
            assertion: Box::new(self.alloc, assertion)?,
            close,
        })
    }

    /// A clause behind the keyword of this class.
    pub(crate) fn clause(&mut self, room: u32, class: Class) -> Result<Clause, Stop>
        ensures { IsRead clause_view result self.new.rest
            (read_clause room class self.old.rest) }
    {
        let key = self.expect(class)?;
        let assertion = self.assertion(room)?;
        let semicolon = self.expect(Class::Semicolon)?;
        Ok(Clause {
            key,
            assertion,
            semicolon,
        })
    }
}
