//! The canonical text of a tree.
// Functions and whole texts, each put in front of the tail from its last token to its first.

ghost use Rattle.std.specs.Prelude.{◌≡◌, IfOk, [], map};
ghost use Rattle.cap_parse_tree.specs.Tree.{DeclarationTree};
ghost use Rattle.cap_parse_tree.specs.Canonical.{canonical_text};
ghost use Rattle.cap_parse_tree.specs.Spelling.{spell_function, spell_declaration, spell_option};
ghost use Rattle.cap_parse_tree.specs.Spelling.{spell_header, spelling};
ghost use Rattle.cap_parse_tree.specs.Views.{function_view, declaration_view, tree_view};

use crate::list::Part;
use crate::tail::Tail;
use cap_parse_tree::{Declaration, Function, Header, Tree};
use std::alloc::{AllocError, Global};

impl<'a> Tail<'a> {
    fn function(&mut self, function: &'a Function) -> Result<(), AllocError>
        ensures { IfOk result (λ _.
            self.new ≡ spell_function (function_view function.now) self.old) }
    {
        self.block(&function.body)?;
        self.clause(b"ensures", &function.postcondition)?;
        self.clause(b"requires", &function.precondition)?;
        self.listed(&function.parameters)?;
        self.name(&function.name)?;
        self.keyword(b"function", function.key)
    }

    fn declaration(&mut self, declaration: &'a Declaration) -> Result<(), AllocError>
        ensures { IfOk result (λ _.
            self.new ≡ spell_declaration (declaration_view declaration.now) self.old) }
    {
        match declaration {
            Declaration::Region(region) => self.region(region),
            Declaration::Function(function) => self.function(function),
        }
    }

    fn header(&mut self, header: &Option<Header>) -> Result<(), AllocError>
        ensures { IfOk result (λ _. self.new ≡ spell_option spell_header header.now self.old) }
    {
        match header {
            Some(header) => {
                self.symbol(b";", header.semicolon)?;
                self.keyword(b"2", header.version)?;
                self.keyword(b"caper", header.key)
            }
            None => Ok(()),
        }
    }
}

impl Part for Declaration {
    ghost Plain = { DeclarationTree };

    ghost view = { declaration_view };

    ghost spell = { spell_declaration };

    fn put<'a>(&'a self, tail: &mut Tail<'a>) -> Result<(), AllocError> {
        tail.declaration(self)
    }
}

/// The canonical text of a tree: its tokens in their order, with a line feed behind each `{`, `}` and
/// `;` that stands in no parentheses, and one space behind each other token but the last. It fails
/// only where memory runs out.
pub fn print(alloc: Global, tree: &Tree) -> Result<Vec<u8>, AllocError>
    ensures { IfOk result (λ text. text.items ≡ canonical_text (tree_view tree.now)) }
{
    let mut tail = Tail::new(alloc);
    tail.all(&tree.declarations)?;
    tail.header(&tree.header)?;
    tail.text(alloc)
}
