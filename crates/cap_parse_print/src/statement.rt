//! The tokens of statements and blocks.
// Statements, each put in front of the tail from its last token to its first.

ghost use Rattle.std.specs.Prelude.{◌≡◌, ◌∷◌, IfOk, map, option_map, codes};
ghost use Rattle.cap_parse_tree.specs.Tokens.{name, keyword, symbol};
ghost use Rattle.cap_parse_tree.specs.Tree.{alloc, assign, call, check, give_back, dispose};
ghost use Rattle.cap_parse_tree.specs.Spelling.{spell_term, spell_terms, spell_comparison};
ghost use Rattle.cap_parse_tree.specs.Spelling.{spell_value, spell_statement, spell_statements};
ghost use Rattle.cap_parse_tree.specs.Spelling.{spell_block, spell_else};
ghost use Rattle.cap_parse_tree.specs.Views.{value_view, statement_view, statements_of, block_view};
ghost use Rattle.cap_parse_tree.specs.Views.{else_view, term_view, comparison_view, listed_view};

use crate::tail::Tail;
use cap_parse_tree::{Block, Comparison, Else, Listed, Literal, Statement, Term, Value, Word};
use cap_syntax::Place;
use std::alloc::AllocError;

impl<'a> Tail<'a> {
    /// A term, and a symbol behind it.
    fn term_before(
        &mut self,
        term: &'a Term,
        text: &'a [u8],
        place: Place,
    ) -> Result<(), AllocError>
        ensures { IfOk result (λ _.
            self.new ≡ spell_term (term_view term.now) (symbol text.now place ∷ self.old)) }
    {
        self.symbol(text, place)?;
        self.term(term)
    }

    /// A term in brackets.
    fn bracketed(
        &mut self,
        before: Place,
        address: &'a Term,
        behind: Place,
    ) -> Result<(), AllocError>
        ensures { IfOk result (λ _.
            self.new
            ≡ symbol (codes "[") before
            ∷ spell_term (term_view address.now) (symbol (codes "]") behind ∷ self.old)) }
    {
        self.term_before(address, b"]", behind)?;
        self.symbol(b"[", before)
    }

    /// A keyword, and the parenthesis that opens behind it.
    fn opened(&mut self, key: &'a [u8], place: Place, before: Place) -> Result<(), AllocError>
        ensures { IfOk result (λ _.
            self.new ≡ keyword key.now place ∷ symbol (codes "(") before ∷ self.old) }
    {
        self.symbol(b"(", before)?;
        self.keyword(key, place)
    }

    /// A keyword, and the first of the terms in the parentheses behind it.
    fn first_operand(
        &mut self,
        key: &'a [u8],
        place: Place,
        before: Place,
        address: &'a Term,
        comma: Place,
    ) -> Result<(), AllocError>
        ensures { IfOk result (λ _.
            self.new
            ≡ keyword key.now place ∷ symbol (codes "(") before
            ∷ spell_term (term_view address.now) (symbol (codes ",") comma ∷ self.old)) }
    {
        self.term_before(address, b",", comma)?;
        self.opened(key, place, before)
    }

    /// The last two of the terms in parentheses.
    fn last_operands(
        &mut self,
        term: &'a Term,
        comma: Place,
        last: &'a Term,
        behind: Place,
    ) -> Result<(), AllocError>
        ensures { IfOk result (λ _.
            self.new
            ≡ spell_term (term_view term.now) (symbol (codes ",") comma
            ∷ spell_term (term_view last.now) (symbol (codes ")") behind ∷ self.old))) }
    {
        self.term_before(last, b")", behind)?;
        self.term_before(term, b",", comma)
    }

    /// A function's name, and its arguments.
    fn called(&mut self, function: &'a Word, arguments: &'a Listed<Term>) -> Result<(), AllocError>
        ensures { IfOk result (λ _.
            self.new
            ≡ name function.now ∷ spell_terms (listed_view term_view arguments.now) self.old) }
    {
        self.listed(arguments)?;
        self.name(function)
    }

    /// An allocation of so many cells.
    fn allocation(
        &mut self,
        key: Place,
        before: Place,
        number: &'a Literal,
        behind: Place,
    ) -> Result<(), AllocError>
        ensures { IfOk result (λ _.
            self.new ≡ spell_value (alloc key before number.now behind) self.old) }
    {
        self.symbol(b")", behind)?;
        self.number(number)?;
        self.opened(b"alloc", key, before)
    }

    fn value(&mut self, value: &'a Value) -> Result<(), AllocError>
        ensures { IfOk result (λ _. self.new ≡ spell_value (value_view value.now) self.old) }
    {
        match value {
            Value::Term(term) => self.term(term),
            Value::Load(open, address, close) => self.bracketed(*open, address, *close),
            Value::Alloc(key, open, number, close) => self.allocation(*key, *open, number, *close),
            Value::Cas(key, open, address, first, old, second, new, close) => {
                self.last_operands(old, *second, new, *close)?;
                self.first_operand(b"CAS", *key, *open, address, *first)
            }
            Value::Faa(key, open, address, comma, term, close) => {
                self.term_before(term, b")", *close)?;
                self.first_operand(b"FAA", *key, *open, address, *comma)
            }
            Value::Call(name, arguments) => self.called(name, arguments),
        }
    }
}

impl<'a> Tail<'a> {
    /// An assignment of a value to a variable.
    fn assignment(
        &mut self,
        variable: &'a Word,
        place: Place,
        value: &'a Value,
        semicolon: Place,
    ) -> Result<(), AllocError>
        ensures { IfOk result (λ _.
            self.new
            ≡ spell_statement (assign variable.now place (value_view value.now) semicolon)
            self.old) }
    {
        self.symbol(b";", semicolon)?;
        self.value(value)?;
        self.symbol(b":=", place)?;
        self.name(variable)
    }

    /// What a store puts into the cell, behind its address.
    fn stored(&mut self, place: Place, term: &'a Term, semicolon: Place) -> Result<(), AllocError>
        ensures { IfOk result (λ _.
            self.new
            ≡ symbol (codes ":=") place
            ∷ spell_term (term_view term.now) (symbol (codes ";") semicolon ∷ self.old)) }
    {
        self.term_before(term, b";", semicolon)?;
        self.symbol(b":=", place)
    }

    /// A call whose result is let go.
    fn call(
        &mut self,
        function: &'a Word,
        arguments: &'a Listed<Term>,
        semicolon: Place,
    ) -> Result<(), AllocError>
        ensures { IfOk result (λ _.
            self.new
            ≡ spell_statement (call function.now (listed_view term_view arguments.now) semicolon)
            self.old) }
    {
        self.symbol(b";", semicolon)?;
        self.called(function, arguments)
    }

    /// A keyword, and a comparison in parentheses.
    fn condition(
        &mut self,
        key: &'a [u8],
        place: Place,
        before: Place,
        comparison: &'a Comparison,
        behind: Place,
    ) -> Result<(), AllocError>
        ensures { IfOk result (λ _.
            self.new
            ≡ keyword key.now place ∷ symbol (codes "(") before
            ∷ spell_comparison (comparison_view comparison.now)
            (symbol (codes ")") behind ∷ self.old)) }
    {
        self.symbol(b")", behind)?;
        self.comparison(comparison)?;
        self.opened(key, place, before)
    }

    /// A comparison that has to hold.
    fn asserted(
        &mut self,
        key: Place,
        comparison: &'a Comparison,
        semicolon: Place,
    ) -> Result<(), AllocError>
        ensures { IfOk result (λ _.
            self.new
            ≡ spell_statement (check key (comparison_view comparison.now) semicolon) self.old) }
    {
        self.symbol(b";", semicolon)?;
        self.comparison(comparison)?;
        self.keyword(b"assert", key)
    }

    /// A return, with a term or without one.
    fn returned(
        &mut self,
        key: Place,
        term: &'a Option<Term>,
        semicolon: Place,
    ) -> Result<(), AllocError>
        ensures { IfOk result (λ _.
            self.new
            ≡ spell_statement (give_back key (option_map term_view term.now) semicolon) self.old) }
    {
        self.symbol(b";", semicolon)?;
        self.optional(term)?;
        self.keyword(b"return", key)
    }

    /// A disposal of the cell at this address.
    fn disposal(
        &mut self,
        key: Place,
        before: Place,
        address: &'a Term,
        behind: Place,
        semicolon: Place,
    ) -> Result<(), AllocError>
        ensures { IfOk result (λ _.
            self.new
            ≡ spell_statement (dispose key before (term_view address.now) behind semicolon)
            self.old) }
    {
        self.symbol(b";", semicolon)?;
        self.term_before(address, b")", behind)?;
        self.opened(b"dispose", key, before)
    }
}

#[tactic(auto, using(cap_parse_tree::specs::declared::statement::Statement::TheFolds::the_lemmas))]
impl<'a> Tail<'a> {
    #[cycle(statements)]
    fn statement(&mut self, statement: &'a Statement) -> Result<(), AllocError>
        ensures { IfOk result (λ _.
            self.new ≡ spell_statement (statement_view statement.now) self.old) }
    {
        match statement {
            Statement::Assign(name, assign, value, semicolon) => {
                self.assignment(name, *assign, value, *semicolon)
            }
            Statement::Store(open, address, close, assign, term, semicolon) => {
                self.stored(*assign, term, *semicolon)?;
                self.bracketed(*open, address, *close)
            }
            Statement::Call(name, arguments, semicolon) => self.call(name, arguments, *semicolon),
            Statement::Fork(key, name, arguments, semicolon) => {
                self.call(name, arguments, *semicolon)?;
                self.keyword(b"fork", *key)
            }
            Statement::If(key, open, comparison, close, block, otherwise) => {
                if let Some(otherwise) = otherwise {
                    self.otherwise(otherwise)?;
                }
                self.block(block)?;
                self.condition(b"if", *key, *open, comparison, *close)
            }
            Statement::While(key, open, comparison, close, invariant, block) => {
                self.block(block)?;
                self.clause(b"invariant", invariant)?;
                self.condition(b"while", *key, *open, comparison, *close)
            }
            Statement::Assert(key, comparison, semicolon) => {
                self.asserted(*key, comparison, *semicolon)
            }
            Statement::Return(key, term, semicolon) => self.returned(*key, term, *semicolon),
            Statement::Dispose(key, open, address, close, semicolon) => {
                self.disposal(*key, *open, address, *close, *semicolon)
            }
        }
    }

    #[cycle(statements)]
    fn statements(&mut self, statements: &'a [Statement]) -> Result<(), AllocError>
        ensures { IfOk result (λ _.
            self.new
            ≡ spell_statements (statements_of (map statement_view statements.now)) self.old) }
    {
        for i in (0..statements.len()).rev() {
            self.statement(&statements[i])?;
        }
        Ok(())
    }

    #[cycle(statements)]
    pub(crate) fn block(&mut self, block: &'a Block) -> Result<(), AllocError>
        ensures { IfOk result (λ _. self.new ≡ spell_block (block_view block.now) self.old) }
    {
        self.symbol(b"}", block.close)?;
        self.statements(&block.statements)?;
        self.symbol(b"{", block.open)
    }

    #[cycle(statements)]
    fn otherwise(&mut self, otherwise: &'a Else) -> Result<(), AllocError>
        ensures { IfOk result (λ _. self.new ≡ spell_else (else_view otherwise.now) self.old) }
    {
        self.block(&otherwise.block)?;
        self.keyword(b"else", otherwise.key)
    }
}
