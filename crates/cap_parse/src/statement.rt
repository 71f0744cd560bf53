//! Readers of statements, blocks and invariants.
// Statements. `room` is how many more brackets may open.

ghost use Rattle.std.specs.Prelude.{◌≡◌, Ok, map, not, option_map};
ghost use Rattle.cap_parse_tree.specs.Views.{term_view, comparison_view, several_view, listed_view};
ghost use Rattle.cap_parse_tree.specs.Views.{behind_view, clause_view, value_view, statement_view};
ghost use Rattle.cap_parse_tree.specs.Views.{block_view, else_view};
ghost use Rattle.cap_parse_laws.specs.Classes.{are_same};
ghost use Rattle.cap_parse_laws.specs.Grammar.{read_term, read_terms, read_load, read_alloc, read_cas};
ghost use Rattle.cap_parse_laws.specs.Grammar.{read_named_value, read_value, named_statement_by};
ghost use Rattle.cap_parse_laws.specs.Grammar.{read_named_statement};
ghost use Rattle.cap_parse_laws.specs.Grammar.{read_store, read_fork, read_else, read_branch};
ghost use Rattle.cap_parse_laws.specs.Grammar.{read_loop, read_check, read_give_back, read_statement};
ghost use Rattle.cap_parse_laws.specs.Grammar.{read_block_with, block_at, read_clause};
ghost use Rattle.cap_parse_laws.specs.Grammar.{read_faa, read_dispose};
ghost use Rattle.cap_parse_laws.specs.Readers.{read_more, read_several, read_optional, read_until};
ghost use Rattle.cap_parse_laws.specs.declared.class.Class.TheVariants.{Comma, Open, Close, Semicolon};
ghost use Rattle.cap_parse_laws.specs.declared.class.Class.TheVariants.{Invariant, Else as Otherwise};
ghost use Rattle.cap_parse_laws.specs.declared.class.Class.TheVariants.{CloseBrace, Becomes};
ghost use Rattle.cap_parse.specs.Parts.{operand_view, read_operand, operands_view, read_operands};
ghost use Rattle.cap_parse.specs.Parts.{condition_view, read_condition};
ghost use Rattle.cap_parse.specs.Reads.{IsRead};

use crate::cursor::{Cursor, Stop};
use crate::term::TermInBrackets;
use cap_parse_laws::Class;
use cap_parse_tree::{
    Block, Clause, Comparison, Else, Listed, Separated, Statement, Term, Value, Word,
};
use cap_syntax::Place;

/// The three terms of `CAS`, with their commas.
#[derive(Drop)]
pub(crate) struct Operands {
    address: Term,
    first: Place,
    expected: Term,
    second: Place,
    new: Term,
}

/// A keyword, and a comparison in parentheses.
#[derive(Drop)]
pub(crate) struct Condition {
    key: Place,
    open: Place,
    comparison: Comparison,
    close: Place,
}

impl<'a> Cursor<'a> {
    fn more_terms(&mut self, room: u32) -> Result<Vec<(Place, Term)>, Stop>
        ensures { IsRead (λ v. map (behind_view term_view) v.items) result self.new.rest
            (read_more Comma (read_term room) self.old.rest) }
    {
        let mut more = Vec::new(self.alloc);
        while self.is_ahead(Class::Comma) {
            let comma = self.next_place()?;
            let term = self.term(room)?;
            more.push((comma, term))?;
        }
        Ok(more)
    }

    fn several_terms(&mut self, room: u32) -> Result<Separated<Term>, Stop>
        ensures { IsRead (several_view term_view) result self.new.rest
            (read_several Comma (read_term room) self.old.rest) }
    {
        let first = self.term(room)?;
        let more = self.more_terms(room)?;
        Ok(Separated { first, more })
    }

    fn optional_terms(&mut self, room: u32) -> Result<Option<Separated<Term>>, Stop>
        ensures { IsRead (option_map (several_view term_view)) result self.new.rest
            (read_optional (λ a. not (are_same Close a)) (read_several Comma (read_term room))
            self.old.rest) }
    {
        if self.is_ahead(Class::Close) {
            Ok(None)
        } else {
            Ok(Some(self.several_terms(room)?))
        }
    }

    /// Terms in parentheses.
    fn terms(&mut self, room: u32) -> Result<Listed<Term>, Stop>
        ensures { IsRead (listed_view term_view) result self.new.rest
            (read_terms room self.old.rest) }
    {
        let (inner, open) = self.opening(room, Class::Open)?;
        let parts = self.optional_terms(inner)?;
        let close = self.expect(Class::Close)?;
        Ok(Listed { open, parts, close })
    }

    fn load(&mut self, room: u32) -> Result<Value, Stop>
        ensures { IsRead value_view result self.new.rest (read_load room self.old.rest) }
    {
        let TermInBrackets { open, term, close } = self.term_in_brackets(room)?;
        Ok(Value::Load(open, term, close))
    }

    /// What `alloc`, which comes next, begins.
    fn allocation(&mut self, room: u32) -> Result<Value, Stop>
        ensures { IsRead value_view result self.new.rest (read_alloc room self.old.rest) }
    {
        let key = self.next_place()?;
        let (_, open) = self.opening(room, Class::Open)?;
        let cells = self.number()?;
        let close = self.expect(Class::Close)?;
        Ok(Value::Alloc(key, open, cells, close))
    }

    /// A term, and a comma behind it.
    fn operand(&mut self, room: u32) -> Result<(Term, Place), Stop>
        ensures { IsRead operand_view result self.new.rest
            (read_operand room self.old.rest) }
    {
        let term = self.term(room)?;
        let comma = self.expect(Class::Comma)?;
        Ok((term, comma))
    }

    fn operands(&mut self, room: u32) -> Result<Operands, Stop>
        ensures { IsRead operands_view result self.new.rest
            (read_operands room self.old.rest) }
    {
        let (address, first) = self.operand(room)?;
        let (expected, second) = self.operand(room)?;
        let new = self.term(room)?;
        Ok(Operands {
            address,
            first,
            expected,
            second,
            new,
        })
    }

    /// What `CAS`, which comes next, begins.
    fn cas(&mut self, room: u32) -> Result<Value, Stop>
        ensures { IsRead value_view result self.new.rest (read_cas room self.old.rest) }
    {
        let key = self.next_place()?;
        let (inner, open) = self.opening(room, Class::Open)?;
        let operands = self.operands(inner)?;
        let close = self.expect(Class::Close)?;
        let Operands {
            address,
            first,
            expected,
            second,
            new,
        } = operands;
        Ok(Value::Cas(key, open, address, first, expected, second, new, close))
    }

    /// What `FAA`, which comes next, begins.
    fn faa(&mut self, room: u32) -> Result<Value, Stop>
        ensures { IsRead value_view result self.new.rest (read_faa room self.old.rest) }
    {
        let key = self.next_place()?;
        let (inner, open) = self.opening(room, Class::Open)?;
        let (address, comma) = self.operand(inner)?;
        let added = self.term(inner)?;
        let close = self.expect(Class::Close)?;
        Ok(Value::Faa(key, open, address, comma, added, close))
    }

    /// A name, behind which the arguments of a call or more of a term come.
    fn named_value(&mut self, room: u32, name: Word) -> Result<Value, Stop>
        ensures { IsRead value_view result self.new.rest
            (read_named_value room name self.old.rest) }
    {
        match self.ahead() {
            Class::Open => {
                let arguments = self.terms(room)?;
                Ok(Value::Call(name, arguments))
            }
            _ => Ok(Value::Term(self.term_named(room, name)?)),
        }
    }

    fn value(&mut self, room: u32) -> Result<Value, Stop>
        ensures { IsRead value_view result self.new.rest (read_value room self.old.rest) }
    {
        match self.ahead() {
            Class::OpenBracket => self.load(room),
            Class::Alloc => self.allocation(room),
            Class::Cas => self.cas(room),
            Class::Faa => self.faa(room),
            Class::Name => {
                let name = self.next_word()?;
                self.named_value(room, name)
            }
            _ => Ok(Value::Term(self.term(room)?)),
        }
    }

    /// A name, behind which `:=`, which comes next, and a value come.
    fn assignment(&mut self, room: u32, name: Word) -> Result<Statement, Stop>
        ensures { IsRead statement_view result self.new.rest
            (named_statement_by room name Becomes self.old.rest) }
    {
        let becomes = self.next_place()?;
        let value = self.value(room)?;
        let semicolon = self.expect(Class::Semicolon)?;
        Ok(Statement::Assign(name, becomes, value, semicolon))
    }

    /// A name, behind which the arguments of a call come.
    fn call_statement(&mut self, room: u32, name: Word) -> Result<Statement, Stop>
        ensures { IsRead statement_view result self.new.rest
            (named_statement_by room name Open self.old.rest) }
    {
        let arguments = self.terms(room)?;
        let semicolon = self.expect(Class::Semicolon)?;
        Ok(Statement::Call(name, arguments, semicolon))
    }

    /// A name, behind which a value or the arguments of a call come.
    fn named_statement(&mut self, room: u32, name: Word) -> Result<Statement, Stop>
        ensures { IsRead statement_view result self.new.rest
            (read_named_statement room name self.old.rest) }
    {
        match self.ahead() {
            Class::Becomes => self.assignment(room, name),
            Class::Open => self.call_statement(room, name),
            _ => Err(Stop::Unexpected),
        }
    }

    fn store(&mut self, room: u32) -> Result<Statement, Stop>
        ensures { IsRead statement_view result self.new.rest
            (read_store room self.old.rest) }
    {
        let address = self.term_in_brackets(room)?;
        let becomes = self.expect(Class::Becomes)?;
        let value = self.term(room)?;
        let semicolon = self.expect(Class::Semicolon)?;
        let TermInBrackets { open, term, close } = address;
        Ok(Statement::Store(open, term, close, becomes, value, semicolon))
    }

    /// What `fork`, which comes next, begins.
    fn fork(&mut self, room: u32) -> Result<Statement, Stop>
        ensures { IsRead statement_view result self.new.rest
            (read_fork room self.old.rest) }
    {
        let key = self.next_place()?;
        let name = self.name()?;
        let arguments = self.terms(room)?;
        let semicolon = self.expect(Class::Semicolon)?;
        Ok(Statement::Fork(key, name, arguments, semicolon))
    }

    /// What `assert`, which comes next, begins.
    fn assertion_statement(&mut self, room: u32) -> Result<Statement, Stop>
        ensures { IsRead statement_view result self.new.rest
            (read_check room self.old.rest) }
    {
        let key = self.next_place()?;
        let comparison = self.comparison(room)?;
        let semicolon = self.expect(Class::Semicolon)?;
        Ok(Statement::Assert(key, comparison, semicolon))
    }

    fn optional_term(&mut self, room: u32) -> Result<Option<Term>, Stop>
        ensures { IsRead (option_map term_view) result self.new.rest
            (read_optional (λ a. not (are_same Semicolon a)) (read_term room) self.old.rest) }
    {
        if self.is_ahead(Class::Semicolon) {
            Ok(None)
        } else {
            Ok(Some(self.term(room)?))
        }
    }

    /// What `return`, which comes next, begins.
    fn return_statement(&mut self, room: u32) -> Result<Statement, Stop>
        ensures { IsRead statement_view result self.new.rest
            (read_give_back room self.old.rest) }
    {
        let key = self.next_place()?;
        let term = self.optional_term(room)?;
        let semicolon = self.expect(Class::Semicolon)?;
        Ok(Statement::Return(key, term, semicolon))
    }

    /// What `dispose`, which comes next, begins.
    fn dispose(&mut self, room: u32) -> Result<Statement, Stop>
        ensures { IsRead statement_view result self.new.rest (read_dispose room self.old.rest) }
    {
        let key = self.next_place()?;
        let (inner, open) = self.opening(room, Class::Open)?;
        let address = self.term(inner)?;
        let close = self.expect(Class::Close)?;
        let semicolon = self.expect(Class::Semicolon)?;
        Ok(Statement::Dispose(key, open, address, close, semicolon))
    }

    /// A clause, if the keyword of this class comes next.
    pub(crate) fn optional_clause(
        &mut self,
        room: u32,
        class: Class,
    ) -> Result<Option<Clause>, Stop>
        ensures { IsRead (option_map clause_view) result self.new.rest
            (read_optional (are_same class) (read_clause room class) self.old.rest) }
    {
        if self.is_ahead(class) {
            Ok(Some(self.clause(room, class)?))
        } else {
            Ok(None)
        }
    }

    /// What `else`, which comes next, begins.
    #[cycle(statements)]
    fn otherwise(&mut self, room: u32) -> Result<Else, Stop>
        ensures { IsRead else_view result self.new.rest
            (read_else (block_at room) self.old.rest) }
    {
        let key = self.next_place()?;
        let block = self.block(room)?;
        Ok(Else { key, block })
    }

    #[cycle(statements)]
    fn optional_else(&mut self, room: u32) -> Result<Option<Else>, Stop>
        ensures { IsRead (option_map else_view) result self.new.rest
            (read_optional (are_same Otherwise) (read_else (block_at room)) self.old.rest) }
    {
        if self.is_ahead(Class::Else) {
            Ok(Some(self.otherwise(room)?))
        } else {
            Ok(None)
        }
    }

    /// A keyword, which comes next, and a condition.
    fn condition(&mut self, room: u32) -> Result<Condition, Stop>
        ensures { IsRead condition_view result self.new.rest
            (read_condition room self.old.rest) }
    {
        let key = self.next_place()?;
        let (inner, open) = self.opening(room, Class::Open)?;
        let comparison = self.comparison(inner)?;
        let close = self.expect(Class::Close)?;
        Ok(Condition {
            key,
            open,
            comparison,
            close,
        })
    }

    /// What `if`, which comes next, begins.
    #[cycle(statements)]
    fn branch(&mut self, room: u32) -> Result<Statement, Stop>
        ensures { IsRead statement_view result self.new.rest
            (read_branch (block_at room) room self.old.rest) }
    {
        let condition = self.condition(room)?;
        let block = self.block(room)?;
        let otherwise = self.optional_else(room)?;
        let Condition {
            key,
            open,
            comparison,
            close,
        } = condition;
        Ok(Statement::If(key, open, comparison, close, block, otherwise))
    }

    /// What `while`, which comes next, begins.
    #[cycle(statements)]
    fn repetition(&mut self, room: u32) -> Result<Statement, Stop>
        ensures { IsRead statement_view result self.new.rest
            (read_loop (block_at room) room self.old.rest) }
    {
        let condition = self.condition(room)?;
        let invariant = self.optional_clause(room, Class::Invariant)?;
        let block = self.block(room)?;
        let Condition {
            key,
            open,
            comparison,
            close,
        } = condition;
        Ok(Statement::While(key, open, comparison, close, invariant, block))
    }

    #[cycle(statements)]
    fn statement(&mut self, room: u32) -> Result<Statement, Stop>
        ensures { IsRead statement_view result self.new.rest
            (read_statement (block_at room) room self.old.rest) }
    {
        match self.ahead() {
            Class::Name => {
                let name = self.next_word()?;
                self.named_statement(room, name)
            }
            Class::OpenBracket => self.store(room),
            Class::Fork => self.fork(room),
            Class::If => self.branch(room),
            Class::While => self.repetition(room),
            Class::Assert => self.assertion_statement(room),
            Class::Return => self.return_statement(room),
            Class::Dispose => self.dispose(room),
            _ => Err(Stop::Unexpected),
        }
    }

    #[cycle(statements)]
    fn statements(&mut self, room: u32) -> Result<Vec<Statement>, Stop>
        ensures { IsRead (λ v. map statement_view v.items) result self.new.rest
            (read_until CloseBrace (read_statement (block_at room) room) self.old.rest) }
    {
        let mut statements = Vec::new(self.alloc);
        while !self.is_ahead(Class::CloseBrace) {
            let statement = self.statement(room)?;
            statements.push(statement)?;
        }
        Ok(statements)
    }

    #[cycle(statements)]
    pub(crate) fn block(&mut self, room: u32) -> Result<Block, Stop>
        ensures { IsRead block_view result self.new.rest (block_at room self.old.rest) }
    {
        if room > 0 {
            return self.statements_in_braces(room - 1);
        }
        if self.is_ahead(Class::OpenBrace) {
            Err(Stop::TooDeep)
        } else {
            Err(Stop::Unexpected)
        }
    }

    #[cycle(statements)]
    fn statements_in_braces(&mut self, room: u32) -> Result<Block, Stop>
        ensures { IsRead block_view result self.new.rest
            (read_block_with (read_statement (block_at room) room) self.old.rest) }
    {
        let open = self.expect(Class::OpenBrace)?;
        let statements = self.statements(room)?;
        let close = self.expect(Class::CloseBrace)?;
        Ok(Block {
            open,
            statements,
            close,
        })
    }
}
