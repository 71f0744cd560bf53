//! The parts of blocks and statements.
ghost use Rattle.std.specs.Prelude.{◌≡◌, ◌++◌, OnOk, flat_map};
ghost use Rattle.cap_parse_tree.specs.Views.{statement_view, block_view, else_view, term_view};
ghost use Rattle.cap_parse_tree.specs.Views.{value_view};
ghost use Rattle.cap_resolve_spec.specs.Parts.{statement_parts, block_parts, else_parts, value_terms};
ghost use Rattle.cap_resolve_spec.specs.Parts.{statement_terms as terms_of};
ghost use Rattle.cap_resolve_spec.specs.Parts.{statement_comparison as comparison_of};
ghost use Rattle.cap_resolve_spec.specs.Parts.{statement_names as names_of, term_words};
ghost use Rattle.cap_resolve_spec.specs.Parts.{destination as word_set, invariant as clause_kept};
ghost use Rattle.cap_resolve_spec.specs.Parts.{callee as function_called, cells as cells_asked};
ghost use Rattle.cap_resolve_parts.specs.Views.{statements_view, terms_view, words_view};
ghost use Rattle.cap_resolve_parts.specs.Views.{word_seen, clause_seen, comparison_seen, call_seen};
ghost use Rattle.cap_resolve_parts.specs.Views.{literal_seen};

use crate::lists::push_listed_terms;
use crate::terms::{push_comparison_words, push_term_words};
use cap_parse_tree::{
    Block, Clause, Comparison, Else, Listed, Literal, Statement, Term, Value, Word,
};
use std::alloc::{AllocError, Global};

#[cycle(statements)]
fn push_statement<'a>(
    list: &mut Vec<&'a Statement>,
    statement: &'a Statement,
) -> Result<(), AllocError>
    ensures { OnOk result (statements_view list.new.items
        ≡ statements_view list.old.items ++ statement_parts (statement_view statement.now)) }
{
    list.push(statement)?;
    match statement {
        Statement::If(_, _, _, _, block, other) => {
            push_block(list, block)?;
            match other {
                None => Ok(()),
                Some(other) => push_else(list, other),
            }
        }
        Statement::While(_, _, _, _, _, block) => push_block(list, block),
        Statement::Assign(_, _, _, _) | Statement::Store(_, _, _, _, _, _) => Ok(()),
        Statement::Call(_, _, _) | Statement::Fork(_, _, _, _) => Ok(()),
        Statement::Assert(_, _, _)
        | Statement::Return(_, _, _)
        | Statement::Dispose(_, _, _, _, _) => Ok(()),
    }
}

#[cycle(statements)]
fn push_else<'a>(list: &mut Vec<&'a Statement>, other: &'a Else) -> Result<(), AllocError>
    ensures { OnOk result (statements_view list.new.items
        ≡ statements_view list.old.items ++ else_parts (else_view other.now)) }
{
    push_block(list, &other.block)
}

/// Puts the statements of a block at any depth behind the list, in the order of the text.
#[cycle(statements)]
pub fn push_block<'a>(list: &mut Vec<&'a Statement>, block: &'a Block) -> Result<(), AllocError>
    ensures { OnOk result (statements_view list.new.items
        ≡ statements_view list.old.items ++ block_parts (block_view block.now)) }
{
    for statement in &block.statements {
        push_statement(list, statement)?;
    }
    Ok(())
}

fn push_value_terms<'a>(terms: &mut Vec<&'a Term>, value: &'a Value) -> Result<(), AllocError>
    ensures { OnOk result (terms_view terms.new.items
        ≡ terms_view terms.old.items ++ value_terms (value_view value.now)) }
{
    match value {
        Value::Term(term) => {
            terms.push(term)?;
            Ok(())
        }
        Value::Load(_, term, _) => {
            terms.push(term)?;
            Ok(())
        }
        Value::Alloc(_, _, _, _) => Ok(()),
        Value::Cas(_, _, address, _, old, _, new, _) => {
            terms.push(address)?;
            terms.push(old)?;
            terms.push(new)?;
            Ok(())
        }
        Value::Faa(_, _, address, _, more, _) => {
            terms.push(address)?;
            terms.push(more)?;
            Ok(())
        }
        Value::Call(_, list) => push_listed_terms(terms, list),
    }
}

/// Puts a statement's own terms behind the terms, without those of its comparison, its invariant
/// and its blocks.
#[tactic(auto, using(cap_parse_tree::specs::declared::statement::Statement::TheFolds::the_lemmas))]
pub fn push_statement_terms<'a>(
    terms: &mut Vec<&'a Term>,
    statement: &'a Statement,
) -> Result<(), AllocError>
    ensures { OnOk result (terms_view terms.new.items
        ≡ terms_view terms.old.items ++ terms_of (statement_view statement.now)) }
{
    match statement {
        Statement::Assign(_, _, value, _) => push_value_terms(terms, value),
        Statement::Store(_, address, _, _, value, _) => {
            terms.push(address)?;
            terms.push(value)?;
            Ok(())
        }
        Statement::Call(_, list, _) => push_listed_terms(terms, list),
        Statement::Fork(_, _, list, _) => push_listed_terms(terms, list),
        Statement::Return(_, Some(term), _) => {
            terms.push(term)?;
            Ok(())
        }
        Statement::Return(_, None, _) => Ok(()),
        Statement::Dispose(_, _, term, _, _) => {
            terms.push(term)?;
            Ok(())
        }
        Statement::If(_, _, _, _, _, _) | Statement::While(_, _, _, _, _, _) => Ok(()),
        Statement::Assert(_, _, _) => Ok(()),
    }
}

/// The comparison of a statement, if it has one.
#[tactic(auto, using(cap_parse_tree::specs::declared::statement::Statement::TheFolds::the_lemmas))]
pub fn statement_comparison(statement: &Statement) -> Option<&Comparison>
    ensures { comparison_seen result ≡ comparison_of (statement_view statement.now) }
{
    match statement {
        Statement::If(_, _, comparison, _, _, _) => Some(comparison),
        Statement::While(_, _, comparison, _, _, _) => Some(comparison),
        Statement::Assert(_, comparison, _) => Some(comparison),
        Statement::Assign(_, _, _, _) | Statement::Store(_, _, _, _, _, _) => None,
        Statement::Call(_, _, _) | Statement::Fork(_, _, _, _) => None,
        Statement::Return(_, _, _) | Statement::Dispose(_, _, _, _, _) => None,
    }
}

/// The name that a statement sets, if it sets one.
#[tactic(auto, using(cap_parse_tree::specs::declared::statement::Statement::TheFolds::the_lemmas))]
pub fn destination(statement: &Statement) -> Option<&Word>
    ensures { word_seen result ≡ word_set (statement_view statement.now) }
{
    match statement {
        Statement::Assign(word, _, _, _) => Some(word),
        Statement::Store(_, _, _, _, _, _) => None,
        Statement::Call(_, _, _) | Statement::Fork(_, _, _, _) => None,
        Statement::If(_, _, _, _, _, _) | Statement::While(_, _, _, _, _, _) => None,
        Statement::Assert(_, _, _)
        | Statement::Return(_, _, _)
        | Statement::Dispose(_, _, _, _, _) => None,
    }
}

/// The invariant of a loop, if the statement is one and has one.
#[tactic(auto, using(cap_parse_tree::specs::declared::statement::Statement::TheFolds::the_lemmas))]
pub fn invariant(statement: &Statement) -> Option<&Clause>
    ensures { clause_seen result ≡ clause_kept (statement_view statement.now) }
{
    match statement {
        Statement::While(_, _, _, _, Some(clause), _) => Some(clause),
        Statement::While(_, _, _, _, None, _) => None,
        Statement::Assign(_, _, _, _) | Statement::Store(_, _, _, _, _, _) => None,
        Statement::Call(_, _, _) | Statement::Fork(_, _, _, _) => None,
        Statement::If(_, _, _, _, _, _) => None,
        Statement::Assert(_, _, _)
        | Statement::Return(_, _, _)
        | Statement::Dispose(_, _, _, _, _) => None,
    }
}

/// The function that a statement calls or forks, and the arguments, if it does.
#[tactic(auto, using(cap_parse_tree::specs::declared::statement::Statement::TheFolds::the_lemmas))]
pub fn callee(statement: &Statement) -> Option<(&Word, &Listed<Term>)>
    ensures { call_seen result ≡ function_called (statement_view statement.now) }
{
    match statement {
        Statement::Assign(_, _, Value::Call(word, list), _) => Some((word, list)),
        Statement::Assign(_, _, Value::Term(_), _) => None,
        Statement::Assign(_, _, Value::Load(_, _, _), _) => None,
        Statement::Assign(_, _, Value::Alloc(_, _, _, _), _) => None,
        Statement::Assign(_, _, Value::Cas(_, _, _, _, _, _, _, _), _) => None,
        Statement::Assign(_, _, Value::Faa(_, _, _, _, _, _), _) => None,
        Statement::Call(word, list, _) => Some((word, list)),
        Statement::Fork(_, word, list, _) => Some((word, list)),
        Statement::Store(_, _, _, _, _, _) => None,
        Statement::If(_, _, _, _, _, _) | Statement::While(_, _, _, _, _, _) => None,
        Statement::Assert(_, _, _)
        | Statement::Return(_, _, _)
        | Statement::Dispose(_, _, _, _, _) => None,
    }
}

/// The number of cells for which a statement asks, if it does.
#[tactic(auto, using(cap_parse_tree::specs::declared::statement::Statement::TheFolds::the_lemmas))]
pub fn cells(statement: &Statement) -> Option<&Literal>
    ensures { literal_seen result ≡ cells_asked (statement_view statement.now) }
{
    match statement {
        Statement::Assign(_, _, Value::Alloc(_, _, literal, _), _) => Some(literal),
        Statement::Assign(_, _, Value::Term(_), _) => None,
        Statement::Assign(_, _, Value::Load(_, _, _), _) => None,
        Statement::Assign(_, _, Value::Call(_, _), _) => None,
        Statement::Assign(_, _, Value::Cas(_, _, _, _, _, _, _, _), _) => None,
        Statement::Assign(_, _, Value::Faa(_, _, _, _, _, _), _) => None,
        Statement::Call(_, _, _) | Statement::Fork(_, _, _, _) => None,
        Statement::Store(_, _, _, _, _, _) => None,
        Statement::If(_, _, _, _, _, _) | Statement::While(_, _, _, _, _, _) => None,
        Statement::Assert(_, _, _)
        | Statement::Return(_, _, _)
        | Statement::Dispose(_, _, _, _, _) => None,
    }
}

fn push_all_words<'a>(words: &mut Vec<&'a Word>, terms: &[&'a Term]) -> Result<(), AllocError>
    ensures { OnOk result (words_view words.new.items
        ≡ words_view words.old.items ++ flat_map term_words (terms_view terms.now)) }
{
    for term in terms {
        push_term_words(words, term)?;
    }
    Ok(())
}

/// Puts the names in the terms and the comparison of a statement behind the words.
pub fn push_statement_names<'a>(
    alloc: Global,
    words: &mut Vec<&'a Word>,
    statement: &'a Statement,
) -> Result<(), AllocError>
    ensures { OnOk result (words_view words.new.items
        ≡ words_view words.old.items ++ names_of (statement_view statement.now)) }
{
    let mut terms = Vec::new(alloc);
    push_statement_terms(&mut terms, statement)?;
    push_all_words(words, terms.as_slice())?;
    match statement_comparison(statement) {
        None => Ok(()),
        Some(comparison) => push_comparison_words(words, comparison),
    }
}
