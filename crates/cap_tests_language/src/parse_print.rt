//! Trees as they are printed.

use cap_parse_print::print;
use cap_parse_tree::{
    Assertion, Block, Clause, Declaration, Factor, Function, Item, Listed, Literal, Product, Slot,
    Statement, Term, Tree, Value, Word,
};
use cap_syntax::{Place, Text};
use std::alloc::{AllocError, Global};
use std::test::Fail;

const PLACE: Place = Place { line: 1, column: 1 };

fn word(alloc: Global, text: &[u8]) -> Result<Word, AllocError> {
    Ok(Word {
        text: Text::from_slice(alloc, text)?,
        place: PLACE,
    })
}

// A term that is one number.
fn number(alloc: Global, text: &[u8], value: u64) -> Result<Term, AllocError> {
    let literal = Literal {
        text: Text::from_slice(alloc, text)?,
        value,
        place: PLACE,
    };
    Ok(Term {
        minus: None,
        first: Product {
            first: Factor::Number(literal),
            more: Vec::new(alloc),
        },
        more: Vec::new(alloc),
    })
}

// A function without parameters and postcondition.
fn function(
    alloc: Global,
    name: &[u8],
    precondition: Option<Clause>,
    statements: Vec<Statement>,
) -> Result<Tree, AllocError> {
    let function = Function {
        key: PLACE,
        name: word(alloc, name)?,
        parameters: Listed {
            open: PLACE,
            parts: None,
            close: PLACE,
        },
        precondition,
        postcondition: None,
        body: Block {
            open: PLACE,
            statements,
            close: PLACE,
        },
    };
    let mut declarations = Vec::new(alloc);
    declarations.push(Declaration::Function(function))?;
    Ok(Tree {
        header: None,
        declarations,
    })
}

#[test]
fn prints_lines(rt: HostRuntime) -> Result<(), Fail> {
    let alloc = rt.alloc();
    let one = Value::Term(number(alloc, b"1", 1)?);
    let mut statements = Vec::new(alloc);
    statements.push(Statement::Assign(word(alloc, b"x")?, PLACE, one, PLACE))?;
    let tree = function(alloc, b"main", None, statements)?;
    let text = print(alloc, &tree)?;
    let want = b"function main ( ) {\nx := 1 ;\n}\n";
    assert_eq!(rt; text.as_slice(), want.as_slice());
    Ok(())
}

#[test]
fn ends_no_line_in_parentheses(rt: HostRuntime) -> Result<(), Fail> {
    let alloc = rt.alloc();
    let fact = Item::Fact(
        word(alloc, b"Lock")?,
        PLACE,
        word(alloc, b"r")?,
        Vec::new(alloc),
        PLACE,
        Slot::Is(number(alloc, b"0", 0)?),
        PLACE,
    );
    let precondition = Clause {
        key: PLACE,
        assertion: Assertion {
            first: fact,
            more: Vec::new(alloc),
        },
        semicolon: PLACE,
    };
    let tree = function(alloc, b"f", Some(precondition), Vec::new(alloc))?;
    let text = print(alloc, &tree)?;
    let want = b"function f ( ) requires Lock ( r ; 0 ) ;\n{\n}\n";
    assert_eq!(rt; text.as_slice(), want.as_slice());
    Ok(())
}

#[test]
fn prints_nothing_for_no_declarations(rt: HostRuntime) -> Result<(), Fail> {
    let alloc = rt.alloc();
    let tree = Tree {
        header: None,
        declarations: Vec::new(alloc),
    };
    let text = print(alloc, &tree)?;
    assert!(rt; text.is_empty());
    Ok(())
}
