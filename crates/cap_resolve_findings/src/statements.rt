//! What is wrong in a statement.
ghost use Rattle.std.specs.Prelude.{◌≡◌, fold, map, filter, flat_map, option_to_list, OnOk, Some};
ghost use Rattle.cap_lin.specs.declared.row.Sort.TheVariants.{Int};
ghost use Rattle.cap_parse_tree.specs.Tree.{listed_parts};
ghost use Rattle.cap_parse_tree.specs.Views.{statement_view, listed_view, term_view};
ghost use Rattle.cap_resolve_spec.specs.Finding.{note, twice_word};
ghost use Rattle.cap_resolve_spec.specs.Parts.{destination as word_set, callee as function_called};
ghost use Rattle.cap_resolve_spec.specs.Parts.{cells as cells_asked, statement_names, statement_terms};
ghost use Rattle.cap_resolve_spec.specs.Terms.{terms_findings, wanted_as};
ghost use Rattle.cap_resolve_spec.specs.Functions.{callee_findings, cells_findings, unknown_in};
ghost use Rattle.cap_resolve_spec.specs.Functions.{statement_wanted};
ghost use Rattle.cap_resolve_terms.specs.Views.{noted_view};
ghost use Rattle.cap_resolve_tables.specs.Tables.{functions_of};
ghost use Rattle.cap_resolve_findings.specs.Clauses.{is_forbidden_by, own_findings};

use crate::names::{is_ret, note_unknown_in};
use crate::terms::{note_comparison, note_terms};
use cap_parse_tree::{Listed, Statement, Term, Word};
use cap_resolve_parts::{
    callee, cells, destination, listed_count, listed_word_count, push_statement_names,
    push_statement_terms, statement_comparison,
};
use cap_resolve_tables::FunctionTable;
use cap_resolve_terms::{Cause, Limit, Noted, Scope};
use std::alloc::{AllocError, Global};

fn is_forbidden(given: &Scope<'_>, word: &Word) -> bool
    ensures { result ≡ is_forbidden_by given.now word.now }
{
    let name = word.text.as_bytes();
    given.knows(name) || is_ret(name)
}

/// Notes a destination that is given or `ret`.
fn note_destination<'a>(noted: &mut Noted<'a>, given: &Scope<'_>, statement: &'a Statement)
    ensures { noted_view noted.new ≡ fold note (noted_view noted.old)
        (map twice_word (filter (is_forbidden_by given.now)
        (option_to_list (word_set (statement_view statement.now))))) }
{
    match destination(statement) {
        None => {}
        Some(word) => {
            let wrong = is_forbidden(given, word);
            noted.note_if(wrong, word.place, Cause::Twice(word.text.as_bytes()));
        }
    }
}

fn note_names<'a>(
    noted: &mut Noted<'a>,
    alloc: Global,
    body: &Scope<'_>,
    statement: &'a Statement,
) -> Result<(), AllocError>
    ensures { OnOk result (noted_view noted.new ≡ fold note (noted_view noted.old)
        (unknown_in body.now (statement_names (statement_view statement.now)))) }
{
    let mut words = Vec::new(alloc);
    push_statement_names(alloc, &mut words, statement)?;
    note_unknown_in(noted, body, words.as_slice());
    Ok(())
}

fn note_call<'a>(
    noted: &mut Noted<'a>,
    functions: &FunctionTable<'_>,
    word: &'a Word,
    arguments: &'a Listed<Term>,
)
    ensures { noted_view noted.new ≡ fold note (noted_view noted.old)
        (callee_findings (functions_of functions.now)
        (word.now, listed_parts (listed_view term_view arguments.now))) }
{
    match functions.named(word.text.as_bytes()) {
        None => noted.note_if(true, word.place, Cause::Unknown(word.text.as_bytes())),
        Some(function) => {
            let wanted = listed_word_count(&function.parameters);
            noted.note_if(wanted != listed_count(arguments), word.place, Cause::Arity);
        }
    }
}

/// Notes a function that is not declared or takes another number of arguments.
fn note_callee<'a>(noted: &mut Noted<'a>, functions: &FunctionTable<'_>, statement: &'a Statement)
    ensures { noted_view noted.new ≡ fold note (noted_view noted.old)
        (flat_map (callee_findings (functions_of functions.now))
        (option_to_list (function_called (statement_view statement.now)))) }
{
    match callee(statement) {
        None => {}
        Some((word, arguments)) => note_call(noted, functions, word, arguments),
    }
}

/// Notes a number of cells that is 0 or more than 64.
fn note_cells(noted: &mut Noted<'_>, statement: &Statement)
    ensures { noted_view noted.new ≡ fold note (noted_view noted.old)
        (flat_map cells_findings (option_to_list (cells_asked (statement_view statement.now)))) }
{
    match cells(statement) {
        None => {}
        Some(literal) => {
            let fits = 0 < literal.value && literal.value <= 64;
            noted.note_if(!fits, literal.place, Cause::Limit(Limit::Alloc));
        }
    }
}

fn note_own_terms<'a>(
    noted: &mut Noted<'_>,
    alloc: Global,
    body: &Scope<'a>,
    statement: &'a Statement,
) -> Result<(), AllocError>
    ensures { OnOk result (noted_view noted.new ≡ fold note (noted_view noted.old)
        (terms_findings body.now (map (wanted_as (Some Int))
        (statement_terms (statement_view statement.now))))) }
{
    let mut terms = Vec::new(alloc);
    push_statement_terms(&mut terms, statement)?;
    note_terms(noted, alloc, body, terms.as_slice())?;
    Ok(())
}

/// Notes what is wrong in the terms and the comparison of a statement.
fn note_statement_terms<'a>(
    noted: &mut Noted<'_>,
    alloc: Global,
    body: &Scope<'a>,
    statement: &'a Statement,
) -> Result<(), AllocError>
    ensures { OnOk result (noted_view noted.new ≡ fold note (noted_view noted.old)
        (terms_findings body.now (statement_wanted body.now (statement_view statement.now)))) }
{
    note_own_terms(noted, alloc, body, statement)?;
    match statement_comparison(statement) {
        None => Ok(()),
        Some(comparison) => {
            note_comparison(noted, alloc, body, comparison)?;
            Ok(())
        }
    }
}

/// Notes what is wrong in a statement, but for its invariant.
pub fn note_statement<'a>(
    noted: &mut Noted<'a>,
    alloc: Global,
    functions: &FunctionTable<'_>,
    given: &Scope<'_>,
    body: &Scope<'a>,
    statement: &'a Statement,
) -> Result<(), AllocError>
    ensures { OnOk result (noted_view noted.new ≡ fold note (noted_view noted.old)
        (own_findings (functions_of functions.now) given.now body.now
        (statement_view statement.now))) }
{
    note_destination(noted, given, statement);
    note_names(noted, alloc, body, statement)?;
    note_callee(noted, functions, statement);
    note_cells(noted, statement);
    note_statement_terms(noted, alloc, body, statement)?;
    Ok(())
}
