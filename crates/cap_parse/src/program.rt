//! Readers of functions and of whole texts.
// Functions and whole texts. `room` is how many more brackets may open.

ghost use Rattle.std.specs.Prelude.{◌≡◌, Ok, map, not, option_map};
ghost use Rattle.cap_parse_tree.specs.Views.{several_view, listed_view, word_view, clause_view};
ghost use Rattle.cap_parse_tree.specs.Views.{block_view, function_view, declaration_view, tree_view};
ghost use Rattle.cap_parse_laws.specs.Classes.{are_same};
ghost use Rattle.cap_parse_laws.specs.Grammar.{read_function, read_declaration};
ghost use Rattle.cap_parse_laws.specs.Grammar.{read_header, read_parts};
ghost use Rattle.cap_parse_laws.specs.Readers.{read_name, read_several, read_optional, read_until};
ghost use Rattle.cap_parse_laws.specs.Readers.{read_listed};
ghost use Rattle.cap_parse_laws.specs.declared.class.Class.TheVariants.{Comma, Close, End, Caper};
ghost use Rattle.cap_parse.specs.Heads.{function_head_view, read_whole_clause, read_whole_block};
ghost use Rattle.cap_parse.specs.Heads.{read_function_head, contract_view, read_contract};
ghost use Rattle.cap_parse.specs.Heads.{function_tree};
ghost use Rattle.cap_parse.specs.Reads.{IsRead};

use crate::cursor::{Cursor, Stop};
use cap_parse_laws::Class;
use cap_parse_tree::{Block, Clause, Declaration, Function, Header, Listed, Separated, Tree, Word};
use cap_syntax::Place;

/// A function's keyword, name and parameters.
#[derive(Drop)]
pub(crate) struct FunctionHead {
    key: Place,
    name: Word,
    parameters: Listed<Word>,
}

/// What a function requires and ensures.
#[derive(Drop)]
pub(crate) struct Contract {
    precondition: Option<Clause>,
    postcondition: Option<Clause>,
}

/// The function of a head, a contract and a body.
fn function_of(head: FunctionHead, contract: Contract, body: Block) -> Function
    ensures { function_view result
        ≡ function_tree (function_head_view head) (contract_view contract) (block_view body) }
{
    let FunctionHead {
        key,
        name,
        parameters,
    } = head;
    let Contract {
        precondition,
        postcondition,
    } = contract;
    Function {
        key,
        name,
        parameters,
        precondition,
        postcondition,
        body,
    }
}

impl<'a> Cursor<'a> {
    fn optional_names(&mut self) -> Result<Option<Separated<Word>>, Stop>
        ensures { IsRead (option_map (several_view word_view)) result self.new.rest
            (read_optional (λ a. not (are_same Close a)) (read_several Comma read_name)
            self.old.rest) }
    {
        if self.is_ahead(Class::Close) {
            Ok(None)
        } else {
            Ok(Some(self.several_names()?))
        }
    }

    /// Names in parentheses.
    fn names(&mut self, room: u32) -> Result<Listed<Word>, Stop>
        ensures { IsRead (listed_view word_view) result self.new.rest
            (read_listed room (λ inner. read_name) self.old.rest) }
    {
        let (_, open) = self.opening(room, Class::Open)?;
        let parts = self.optional_names()?;
        let close = self.expect(Class::Close)?;
        Ok(Listed { open, parts, close })
    }

    /// The keyword, which comes next, the name and the parameters of a function.
    fn function_head(&mut self, room: u32) -> Result<FunctionHead, Stop>
        ensures { IsRead function_head_view result self.new.rest
            (read_function_head room self.old.rest) }
    {
        let key = self.next_place()?;
        let name = self.name()?;
        let parameters = self.names(room)?;
        Ok(FunctionHead {
            key,
            name,
            parameters,
        })
    }

    #[tactic(auto, unfolding(crate::specs::Heads::read_whole_clause))]
    fn whole_clause(&mut self, room: u32, class: Class) -> Result<Option<Clause>, Stop>
        ensures { IsRead (option_map clause_view) result self.new.rest
            (read_optional (are_same class) (read_whole_clause room class) self.old.rest) }
    {
        self.optional_clause(room, class)
    }

    #[tactic(auto, unfolding(crate::specs::Heads::read_whole_block))]
    fn whole_block(&mut self, room: u32) -> Result<Block, Stop>
        ensures { IsRead block_view result self.new.rest
            (read_whole_block room self.old.rest) }
    {
        self.block(room)
    }

    fn contract(&mut self, room: u32) -> Result<Contract, Stop>
        ensures { IsRead contract_view result self.new.rest
            (read_contract room self.old.rest) }
    {
        let precondition = self.whole_clause(room, Class::Requires)?;
        let postcondition = self.whole_clause(room, Class::Ensures)?;
        Ok(Contract {
            precondition,
            postcondition,
        })
    }

    /// What `function`, which comes next, begins.
    #[tactic(auto, using(crate::proofs::Parts::function_parts))]
    fn function(&mut self, room: u32) -> Result<Function, Stop>
        ensures { IsRead function_view result self.new.rest
            (read_function room self.old.rest) }
    {
        let head = self.function_head(room)?;
        let contract = self.contract(room)?;
        let body = self.whole_block(room)?;
        Ok(function_of(head, contract, body))
    }

    fn declaration(&mut self, room: u32) -> Result<Declaration, Stop>
        ensures { IsRead declaration_view result self.new.rest
            (read_declaration room self.old.rest) }
    {
        match self.ahead() {
            Class::Region => Ok(Declaration::Region(self.region(room)?)),
            Class::Function => Ok(Declaration::Function(self.function(room)?)),
            _ => Err(Stop::Unexpected),
        }
    }

    /// What stands at the top of a text, up to its end.
    fn declarations(&mut self, room: u32) -> Result<Vec<Declaration>, Stop>
        ensures { IsRead (λ v. map declaration_view v.items) result self.new.rest
            (read_until End (read_declaration room) self.old.rest) }
    {
        let mut declarations = Vec::new(self.alloc);
        while !self.is_ahead(Class::End) {
            let declaration = self.declaration(room)?;
            declarations.push(declaration)?;
        }
        Ok(declarations)
    }

    fn header(&mut self) -> Result<Header, Stop>
        ensures { IsRead (λ h. h) result self.new.rest (read_header self.old.rest) }
    {
        let key = self.expect(Class::Caper)?;
        let version = self.expect(Class::Two)?;
        let semicolon = self.expect(Class::Semicolon)?;
        Ok(Header {
            key,
            version,
            semicolon,
        })
    }

    fn optional_header(&mut self) -> Result<Option<Header>, Stop>
        ensures { IsRead (λ h. h) result self.new.rest
            (read_optional (are_same Caper) read_header self.old.rest) }
    {
        if self.is_ahead(Class::Caper) {
            Ok(Some(self.header()?))
        } else {
            Ok(None)
        }
    }

    /// A whole text.
    pub(crate) fn parts(&mut self, room: u32) -> Result<Tree, Stop>
        ensures { IsRead (λ t. (t.header, map declaration_view t.declarations.items)) result
            self.new.rest (read_parts room self.old.rest) }
    {
        let header = self.optional_header()?;
        let declarations = self.declarations(room)?;
        Ok(Tree {
            header,
            declarations,
        })
    }
}
