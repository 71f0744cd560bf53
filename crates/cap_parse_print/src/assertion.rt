//! The tokens of guards, items and assertions.
// Guards and assertions, each put in front of the tail from its last token to its first.

ghost use Rattle.std.specs.Prelude.{◌≡◌, ◌∷◌, IfOk, map, option_map, codes};
ghost use Rattle.cap_parse_tree.specs.Tokens.{name, symbol};
ghost use Rattle.cap_parse_tree.specs.Tree.{GuardTree, amount, guards, cell};
ghost use Rattle.cap_parse_tree.specs.Spelling.{spell_slot, spell_more};
ghost use Rattle.cap_parse_tree.specs.Spelling.{spell_guard, spell_guards, spell_held, spell_item};
ghost use Rattle.cap_parse_tree.specs.Spelling.{spell_items, spell_assertion, spell_side, spell_clause};
ghost use Rattle.cap_parse_tree.specs.Spelling.{spell_option, counted_text as text_of_counted};
ghost use Rattle.cap_parse_tree.specs.Views.{guard_view, held_view, several_view, item_view, and_view};
ghost use Rattle.cap_parse_tree.specs.Views.{items_of, assertion_view, side_view, clause_view};
ghost use Rattle.cap_parse_tree.specs.Views.{slot_view, term_view, behind_view};

use crate::list::Part;
use crate::tail::Tail;
use cap_parse_tree::{
    And, Assertion, Clause, Counted, GuardAtom, Guards, Item, Separated, Side, Slot, Term, Word,
};
use cap_syntax::Place;
use std::alloc::AllocError;

fn counted_text(counted: Counted) -> &'static [u8]
    ensures { result.now ≡ text_of_counted counted }
{
    match counted {
        Counted::Source => b"src",
        Counted::Tokens => b"tok",
        Counted::At => b"at",
        Counted::From => b"from",
    }
}

impl<'a> Tail<'a> {
    /// A guard's name, and a slot in brackets.
    fn amount(
        &mut self,
        guard: &'a Word,
        before: Place,
        slot: &'a Slot,
        behind: Place,
    ) -> Result<(), AllocError>
        ensures { IfOk result (λ _.
            self.new ≡ spell_guard (amount guard.now before (slot_view slot.now) behind) self.old) }
    {
        self.symbol(b"]", behind)?;
        self.slot(slot)?;
        self.symbol(b"[", before)?;
        self.name(guard)
    }

    fn guard(&mut self, guard: &'a GuardAtom) -> Result<(), AllocError>
        ensures { IfOk result (λ _. self.new ≡ spell_guard (guard_view guard.now) self.old) }
    {
        match guard {
            GuardAtom::Alone(name) => self.name(name),
            GuardAtom::Amount(name, open, slot, close) => self.amount(name, *open, slot, *close),
            GuardAtom::Count(counted, key, name, open, slot, close) => {
                self.amount(name, *open, slot, *close)?;
                self.keyword(counted_text(*counted), *key)
            }
        }
    }

    pub(crate) fn guards(&mut self, guards: &'a Separated<GuardAtom>) -> Result<(), AllocError>
        ensures { IfOk result (λ _.
            self.new ≡ spell_guards (several_view guard_view guards.now) self.old) }
    {
        self.several(b"*", guards)
    }

    fn held(&mut self, held: &'a Guards) -> Result<(), AllocError>
        ensures { IfOk result (λ _. self.new ≡ spell_held (held_view held.now) self.old) }
    {
        match held {
            Guards::Bare(guards) => self.guards(guards),
            Guards::Bracketed(open, guards, close) => {
                self.symbol(b")", *close)?;
                self.guards(guards)?;
                self.symbol(b"(", *open)
            }
        }
    }
}

impl<'a> Tail<'a> {
    /// The state of a region's fact, and the parenthesis behind it.
    fn state(&mut self, semicolon: Place, state: &'a Slot, behind: Place) -> Result<(), AllocError>
        ensures { IfOk result (λ _.
            self.new
            ≡ symbol (codes ";") semicolon
            ∷ spell_slot (slot_view state.now) (symbol (codes ")") behind ∷ self.old)) }
    {
        self.symbol(b")", behind)?;
        self.slot(state)?;
        self.symbol(b";", semicolon)
    }

    /// A region's fact up to its arguments.
    fn region_of(
        &mut self,
        kind: &'a Word,
        before: Place,
        region: &'a Word,
        arguments: &'a [(Place, Slot)],
    ) -> Result<(), AllocError>
        ensures { IfOk result (λ _.
            self.new
            ≡ name kind.now ∷ symbol (codes "(") before ∷ name region.now
            ∷ spell_more (codes ",") spell_slot (map (behind_view slot_view) arguments.now)
            self.old) }
    {
        self.more(b",", arguments)?;
        self.name(region)?;
        self.symbol(b"(", before)?;
        self.name(kind)
    }

    /// A region, and the guards that are held of it.
    fn owned(&mut self, region: &'a Word, at: Place, held: &'a Guards) -> Result<(), AllocError>
        ensures { IfOk result (λ _.
            self.new ≡ spell_item (guards region.now at (held_view held.now)) self.old) }
    {
        self.held(held)?;
        self.symbol(b"@", at)?;
        self.name(region)
    }

    /// A cell, and what stands in it.
    fn cell(&mut self, address: &'a Term, arrow: Place, slot: &'a Slot) -> Result<(), AllocError>
        ensures { IfOk result (λ _.
            self.new
            ≡ spell_item (cell (term_view address.now) arrow (slot_view slot.now)) self.old) }
    {
        self.slot(slot)?;
        self.symbol(b"|->", arrow)?;
        self.term(address)
    }
}

#[tactic(auto, using(cap_parse_tree::specs::declared::assertion::Item::TheFolds::the_lemmas))]
impl<'a> Tail<'a> {
    #[cycle(items)]
    fn item(&mut self, item: &'a Item) -> Result<(), AllocError>
        ensures { IfOk result (λ _. self.new ≡ spell_item (item_view item.now) self.old) }
    {
        match item {
            Item::True(place) => self.keyword(b"true", *place),
            Item::False(place) => self.keyword(b"false", *place),
            Item::Fact(name, open, region, arguments, semicolon, state, close) => {
                self.state(*semicolon, state, *close)?;
                self.region_of(name, *open, region, arguments)
            }
            Item::Guards(region, at, held) => self.owned(region, *at, held),
            Item::Cell(address, arrow, slot) => self.cell(address, *arrow, slot),
            Item::Compare(comparison) => self.comparison(comparison),
            Item::Choose(comparison, question, holds, colon, fails) => {
                self.side(fails)?;
                self.symbol(b":", *colon)?;
                self.side(holds)?;
                self.symbol(b"?", *question)?;
                self.comparison(comparison)
            }
        }
    }

    #[cycle(items)]
    fn items(&mut self, items: &'a [And]) -> Result<(), AllocError>
        ensures { IfOk result (λ _.
            self.new ≡ spell_items (items_of (map and_view items.now)) self.old) }
    {
        for i in (0..items.len()).rev() {
            self.item(&items[i].item)?;
            self.symbol(b"&*&", items[i].place)?;
        }
        Ok(())
    }

    #[cycle(items)]
    pub(crate) fn assertion(&mut self, assertion: &'a Assertion) -> Result<(), AllocError>
        ensures { IfOk result (λ _.
            self.new ≡ spell_assertion (assertion_view assertion.now) self.old) }
    {
        self.items(&assertion.more)?;
        self.item(&assertion.first)
    }

    #[cycle(items)]
    fn side(&mut self, side: &'a Side) -> Result<(), AllocError>
        ensures { IfOk result (λ _. self.new ≡ spell_side (side_view side.now) self.old) }
    {
        self.symbol(b"}", side.close)?;
        self.assertion(&side.assertion)?;
        self.symbol(b"{", side.open)
    }
}

impl<'a> Tail<'a> {
    /// A clause, if there is one, behind this keyword.
    pub(crate) fn clause(
        &mut self,
        key: &'a [u8],
        clause: &'a Option<Clause>,
    ) -> Result<(), AllocError>
        ensures { IfOk result (λ _.
            self.new
            ≡ spell_option (spell_clause key.now) (option_map clause_view clause.now) self.old) }
    {
        match clause {
            Some(clause) => {
                self.symbol(b";", clause.semicolon)?;
                self.assertion(&clause.assertion)?;
                self.keyword(key, clause.key)
            }
            None => Ok(()),
        }
    }
}

impl Part for GuardAtom {
    ghost Plain = { GuardTree };

    ghost view = { guard_view };

    ghost spell = { spell_guard };

    fn put<'a>(&'a self, tail: &mut Tail<'a>) -> Result<(), AllocError> {
        tail.guard(self)
    }
}
