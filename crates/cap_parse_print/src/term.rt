//! The tokens of terms, comparisons and slots.
// Terms and comparisons, each put in front of the tail from its last token to its first.

ghost use Rattle.std.specs.Prelude.{◌≡◌, IfOk, map};
ghost use Rattle.cap_parse_tree.specs.Tree.{TermTree, ComparisonTree, SlotTree};
ghost use Rattle.cap_parse_tree.specs.Spelling.{spell_factor, spell_factors, spell_product};
ghost use Rattle.cap_parse_tree.specs.Spelling.{spell_products, spell_term, spell_comparison, spell_slot};
ghost use Rattle.cap_parse_tree.specs.Spelling.{relation_text as text_of_relation};
ghost use Rattle.cap_parse_tree.specs.Spelling.{sign_text as text_of_sign};
ghost use Rattle.cap_parse_tree.specs.Views.{factor_view, times_view, product_view, addend_view};
ghost use Rattle.cap_parse_tree.specs.Views.{term_view, comparison_view, slot_view, factors_of};
ghost use Rattle.cap_parse_tree.specs.Views.{products_of};

use crate::list::Part;
use crate::tail::Tail;
use cap_parse_tree::{Addend, Comparison, Factor, Product, Relation, Sign, Slot, Term, Times};
use std::alloc::AllocError;

fn sign_text(sign: Sign) -> &'static [u8]
    ensures { result.now ≡ text_of_sign sign }
{
    match sign {
        Sign::Plus => b"+",
        Sign::Minus => b"-",
    }
}

fn relation_text(relation: Relation) -> &'static [u8]
    ensures { result.now ≡ text_of_relation relation }
{
    match relation {
        Relation::Equal => b"=",
        Relation::Unequal => b"!=",
        Relation::Less => b"<",
        Relation::AtMost => b"<=",
        Relation::Greater => b">",
        Relation::AtLeast => b">=",
    }
}

#[tactic(auto, using(cap_parse_tree::specs::declared::term::Factor::TheFolds::the_lemmas))]
impl<'a> Tail<'a> {
    #[cycle(terms)]
    fn factor(&mut self, factor: &'a Factor) -> Result<(), AllocError>
        ensures { IfOk result (λ _. self.new ≡ spell_factor (factor_view factor.now) self.old) }
    {
        match factor {
            Factor::Number(literal) => self.number(literal),
            Factor::WholeShare(place) => self.share(*place),
            Factor::Name(word) => self.name(word),
            Factor::Bracketed(open, term, close) => {
                self.symbol(b")", *close)?;
                self.term(term)?;
                self.symbol(b"(", *open)
            }
        }
    }

    #[cycle(terms)]
    fn times(&mut self, times: &'a [Times]) -> Result<(), AllocError>
        ensures { IfOk result (λ _.
            self.new ≡ spell_factors (factors_of (map times_view times.now)) self.old) }
    {
        for i in (0..times.len()).rev() {
            self.factor(&times[i].factor)?;
            self.symbol(b"*", times[i].star)?;
        }
        Ok(())
    }

    #[cycle(terms)]
    fn product(&mut self, product: &'a Product) -> Result<(), AllocError>
        ensures { IfOk result (λ _. self.new ≡ spell_product (product_view product.now) self.old) }
    {
        self.times(&product.more)?;
        self.factor(&product.first)
    }

    #[cycle(terms)]
    fn addends(&mut self, addends: &'a [Addend]) -> Result<(), AllocError>
        ensures { IfOk result (λ _.
            self.new ≡ spell_products (products_of (map addend_view addends.now)) self.old) }
    {
        for i in (0..addends.len()).rev() {
            self.product(&addends[i].product)?;
            self.symbol(sign_text(addends[i].sign), addends[i].place)?;
        }
        Ok(())
    }

    #[cycle(terms)]
    pub(crate) fn term(&mut self, term: &'a Term) -> Result<(), AllocError>
        ensures { IfOk result (λ _. self.new ≡ spell_term (term_view term.now) self.old) }
    {
        self.addends(&term.more)?;
        self.product(&term.first)?;
        match term.minus {
            Some(place) => self.symbol(b"-", place),
            None => Ok(()),
        }
    }

    pub(crate) fn comparison(&mut self, comparison: &'a Comparison) -> Result<(), AllocError>
        ensures { IfOk result (λ _.
            self.new ≡ spell_comparison (comparison_view comparison.now) self.old) }
    {
        self.term(&comparison.right)?;
        self.symbol(relation_text(comparison.relation), comparison.place)?;
        self.term(&comparison.left)
    }

    pub(crate) fn slot(&mut self, slot: &'a Slot) -> Result<(), AllocError>
        ensures { IfOk result (λ _. self.new ≡ spell_slot (slot_view slot.now) self.old) }
    {
        match slot {
            Slot::Any(place) => self.wildcard(*place),
            Slot::Is(term) => self.term(term),
        }
    }
}

impl Part for Term {
    ghost Plain = { TermTree };

    ghost view = { term_view };

    ghost spell = { spell_term };

    fn put<'a>(&'a self, tail: &mut Tail<'a>) -> Result<(), AllocError> {
        tail.term(self)
    }
}

impl Part for Comparison {
    ghost Plain = { ComparisonTree };

    ghost view = { comparison_view };

    ghost spell = { spell_comparison };

    fn put<'a>(&'a self, tail: &mut Tail<'a>) -> Result<(), AllocError> {
        tail.comparison(self)
    }
}

impl Part for Slot {
    ghost Plain = { SlotTree };

    ghost view = { slot_view };

    ghost spell = { spell_slot };

    fn put<'a>(&'a self, tail: &mut Tail<'a>) -> Result<(), AllocError> {
        tail.slot(self)
    }
}
