//! The tokens of region types.
// Region types, each put in front of the tail from its last token to its first.

ghost use Rattle.std.specs.Prelude.{◌≡◌, ◌∷◌, IfOk, map, codes};
ghost use Rattle.cap_parse_tree.specs.Tokens.{name, keyword, symbol};
ghost use Rattle.cap_parse_tree.specs.Tree.{WhenTree, CaseTree, ActionTree};
ghost use Rattle.cap_parse_tree.specs.Tree.{divisible, counting, indexed};
ghost use Rattle.cap_parse_tree.specs.Spelling.{spell_several, spell_name};
ghost use Rattle.cap_parse_tree.specs.Spelling.{spell_declared, spell_declareds, spell_joint};
ghost use Rattle.cap_parse_tree.specs.Spelling.{spell_joints, spell_algebra, spell_when, spell_case};
ghost use Rattle.cap_parse_tree.specs.Spelling.{spell_action, spell_region};
ghost use Rattle.cap_parse_tree.specs.Views.{declared_view, both_view, joint_view, either_view};
ghost use Rattle.cap_parse_tree.specs.Views.{algebra_view, declareds_of, joints_of, when_view, case_view};
ghost use Rattle.cap_parse_tree.specs.Views.{action_view, region_view, several_view, word_view};

use crate::list::Part;
use crate::tail::Tail;
use cap_parse_tree::{Action, Algebra, Both, Case, Declared, Either, Joint, Region, When, Word};
use cap_syntax::Place;
use std::alloc::AllocError;

impl<'a> Tail<'a> {
    /// A guard that is divided.
    fn divisible(&mut self, percent: Place, guard: &'a Word) -> Result<(), AllocError>
        ensures { IfOk result (λ _.
            self.new ≡ spell_declared (divisible percent guard.now) self.old) }
    {
        self.name(guard)?;
        self.symbol(b"%", percent)
    }

    /// A guard that is counted.
    fn counting(&mut self, before: Place, guard: &'a Word, behind: Place) -> Result<(), AllocError>
        ensures { IfOk result (λ _.
            self.new ≡ spell_declared (counting before guard.now behind) self.old) }
    {
        self.symbol(b"|", behind)?;
        self.name(guard)?;
        self.symbol(b"|", before)
    }

    /// A guard for each index.
    fn indexed(&mut self, before: Place, guard: &'a Word, behind: Place) -> Result<(), AllocError>
        ensures { IfOk result (λ _.
            self.new ≡ spell_declared (indexed before guard.now behind) self.old) }
    {
        self.symbol(b"]", behind)?;
        self.name(guard)?;
        self.keyword(b"[", before)
    }
}

#[tactic(auto, using(cap_parse_tree::specs::declared::region::Declared::TheFolds::the_lemmas))]
impl<'a> Tail<'a> {
    #[cycle(algebras)]
    fn declared(&mut self, declared: &'a Declared) -> Result<(), AllocError>
        ensures { IfOk result (λ _.
            self.new ≡ spell_declared (declared_view declared.now) self.old) }
    {
        match declared {
            Declared::Unique(name) => self.name(name),
            Declared::Divisible(percent, name) => self.divisible(*percent, name),
            Declared::Counting(open, name, close) => self.counting(*open, name, *close),
            Declared::Indexed(open, name, close) => self.indexed(*open, name, *close),
            Declared::Bracketed(open, algebra, close) => {
                self.symbol(b")", *close)?;
                self.algebra(algebra)?;
                self.symbol(b"(", *open)
            }
        }
    }

    #[cycle(algebras)]
    fn more_declared(&mut self, more: &'a [Both]) -> Result<(), AllocError>
        ensures { IfOk result (λ _.
            self.new ≡ spell_declareds (declareds_of (map both_view more.now)) self.old) }
    {
        for i in (0..more.len()).rev() {
            self.declared(&more[i].declared)?;
            self.symbol(b"*", more[i].star)?;
        }
        Ok(())
    }

    #[cycle(algebras)]
    fn joint(&mut self, joint: &'a Joint) -> Result<(), AllocError>
        ensures { IfOk result (λ _. self.new ≡ spell_joint (joint_view joint.now) self.old) }
    {
        self.more_declared(&joint.more)?;
        self.declared(&joint.first)
    }

    #[cycle(algebras)]
    fn more_joints(&mut self, more: &'a [Either]) -> Result<(), AllocError>
        ensures { IfOk result (λ _.
            self.new ≡ spell_joints (joints_of (map either_view more.now)) self.old) }
    {
        for i in (0..more.len()).rev() {
            self.joint(&more[i].joint)?;
            self.symbol(b"+", more[i].plus)?;
        }
        Ok(())
    }

    #[cycle(algebras)]
    fn algebra(&mut self, algebra: &'a Algebra) -> Result<(), AllocError>
        ensures { IfOk result (λ _. self.new ≡ spell_algebra (algebra_view algebra.now) self.old) }
    {
        self.more_joints(&algebra.more)?;
        self.joint(&algebra.first)
    }
}

impl<'a> Tail<'a> {
    fn when(&mut self, when: &'a When) -> Result<(), AllocError>
        ensures { IfOk result (λ _. self.new ≡ spell_when (when_view when.now) self.old) }
    {
        self.several(b",", &when.comparisons)?;
        self.keyword(b"when", when.key)
    }

    fn case(&mut self, case: &'a Case) -> Result<(), AllocError>
        ensures { IfOk result (λ _. self.new ≡ spell_case (case_view case.now) self.old) }
    {
        self.symbol(b";", case.semicolon)?;
        self.assertion(&case.assertion)?;
        self.symbol(b":", case.colon)?;
        self.optional(&case.when)?;
        self.term(&case.state)
    }

    fn action(&mut self, action: &'a Action) -> Result<(), AllocError>
        ensures { IfOk result (λ _. self.new ≡ spell_action (action_view action.now) self.old) }
    {
        self.symbol(b";", action.semicolon)?;
        self.optional(&action.when)?;
        self.term(&action.target)?;
        self.symbol(b"~>", action.arrow)?;
        self.term(&action.source)?;
        self.symbol(b":", action.colon)?;
        self.guards(&action.guards)
    }

    /// The declared guards of a region type.
    fn region_guards(&mut self, region: &'a Region) -> Result<(), AllocError>
        ensures { IfOk result (λ _.
            self.new
            ≡ symbol (codes "{") region.now.brace ∷ keyword (codes "guards") region.now.guards
            ∷ spell_algebra (algebra_view region.now.algebra)
            (symbol (codes ";") region.now.semicolon ∷ self.old)) }
    {
        self.symbol(b";", region.semicolon)?;
        self.algebra(&region.algebra)?;
        self.keyword(b"guards", region.guards)?;
        self.symbol(b"{", region.brace)
    }

    /// A region type's name and parameters.
    fn region_head(&mut self, region: &'a Region) -> Result<(), AllocError>
        ensures { IfOk result (λ _.
            self.new
            ≡ keyword (codes "region") region.now.key ∷ name region.now.name
            ∷ symbol (codes "(") region.now.«open»
            ∷ spell_several (codes ",") spell_name (several_view word_view region.now.parameters)
            (symbol (codes ")") region.now.close ∷ self.old)) }
    {
        self.symbol(b")", region.close)?;
        self.several(b",", &region.parameters)?;
        self.symbol(b"(", region.open)?;
        self.name(&region.name)?;
        self.keyword(b"region", region.key)
    }

    pub(crate) fn region(&mut self, region: &'a Region) -> Result<(), AllocError>
        ensures { IfOk result (λ _. self.new ≡ spell_region (region_view region.now) self.old) }
    {
        self.symbol(b"}", region.end)?;
        self.group(b"actions", &region.actions)?;
        self.group(b"interpretation", &region.cases)?;
        self.region_guards(region)?;
        self.region_head(region)
    }
}

impl Part for When {
    ghost Plain = { WhenTree };

    ghost view = { when_view };

    ghost spell = { spell_when };

    fn put<'a>(&'a self, tail: &mut Tail<'a>) -> Result<(), AllocError> {
        tail.when(self)
    }
}

impl Part for Case {
    ghost Plain = { CaseTree };

    ghost view = { case_view };

    ghost spell = { spell_case };

    fn put<'a>(&'a self, tail: &mut Tail<'a>) -> Result<(), AllocError> {
        tail.case(self)
    }
}

impl Part for Action {
    ghost Plain = { ActionTree };

    ghost view = { action_view };

    ghost spell = { spell_action };

    fn put<'a>(&'a self, tail: &mut Tail<'a>) -> Result<(), AllocError> {
        tail.action(self)
    }
}
