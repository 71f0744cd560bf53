//! The names that a function's contract, its loops and its body know.
ghost use Rattle.std.specs.Prelude.{◌≡◌, ◌++◌, filter_map, flat_map, map, IfOk, OnOk};
ghost use Rattle.cap_parse_tree.specs.Views.{statement_view};
ghost use Rattle.cap_resolve_spec.specs.Parts.{destination as word_set, clause_parts};
ghost use Rattle.cap_resolve_spec.specs.Names.{whole_numbers, hidden, with_first, word_text};
ghost use Rattle.cap_resolve_spec.specs.Items.{scope_of, occurrences, occurrence_words};
ghost use Rattle.cap_resolve_spec.specs.Functions.{result_entry, statement_words as words_in};
ghost use Rattle.cap_resolve_parts.specs.Views.{words_view, statements_view, clause_seen};
ghost use Rattle.cap_resolve_tables.specs.Tables.{types_of};
ghost use Rattle.cap_resolve_tables.specs.Views.{occurrence_view, occurrences_view};
ghost use Rattle.cap_resolve_terms.specs.Views.{entry_view};
ghost use Rattle.cap_resolve_scopes.specs.Lists.{firsts_known, with_wanted, known_entry, is_known_local};
ghost use Rattle.std.specs.Prelude.{[], ◌∷◌, None};

use crate::assertions::words_of_occurrences;
use cap_lin::Sort;
use cap_parse_tree::{Clause, Statement, Word};
use cap_resolve_parts::{destination, invariant, items_of_clause, push_statement_names};
use cap_resolve_tables::{
    Occurrence, Types, push_hidden, push_known, push_occurrences, push_whole,
};
use cap_resolve_terms::{Known, Scope};
use std::alloc::{AllocError, Global};

/// The names that the statements set.
pub fn destinations_of<'a>(
    alloc: Global,
    statements: &[&'a Statement],
) -> Result<Vec<&'a Word>, AllocError>
    ensures { IfOk result (λ words. words_view words.items
        ≡ filter_map word_set (statements_view statements.now)) }
{
    let mut words = Vec::new(alloc);
    for statement in statements {
        match destination(statement) {
            Some(word) => words.push(word)?,
            None => {}
        }
    }
    Ok(words)
}

fn push_clause_words<'a>(
    alloc: Global,
    words: &mut Vec<&'a Word>,
    types: Types<'_, '_, 'a>,
    clause: Option<&'a Clause>,
) -> Result<(), AllocError>
    ensures { OnOk result (words_view words.new.items ≡ words_view words.old.items
        ++ occurrence_words (occurrences (types_of types.entry)
        (clause_parts (clause_seen clause.entry)))) }
{
    let parts = items_of_clause(alloc, clause)?;
    let mut list = Vec::new(alloc);
    push_occurrences(alloc, &mut list, types, parts.as_slice())?;
    words_of_occurrences(words, list.as_slice())
}

fn push_statement_words<'a>(
    alloc: Global,
    words: &mut Vec<&'a Word>,
    untyped: Types<'_, '_, 'a>,
    statement: &'a Statement,
) -> Result<(), AllocError>
    requires { types_of untyped ≡ [] }
    ensures { OnOk result (words_view words.new.items
        ≡ words_view words.old.items ++ words_in (statement_view statement.now)) }
{
    match destination(statement) {
        Some(word) => words.push(word)?,
        None => {}
    }
    push_statement_names(alloc, words, statement)?;
    push_clause_words(alloc, words, untyped, invariant(statement))?;
    Ok(())
}

/// All names of the statements, where they stand. The types are to be none.
pub fn statement_words<'a>(
    alloc: Global,
    untyped: Types<'_, '_, 'a>,
    statements: &[&'a Statement],
) -> Result<Vec<&'a Word>, AllocError>
    requires { types_of untyped ≡ [] }
    ensures { IfOk result (λ words. words_view words.items
        ≡ flat_map words_in (statements_view statements.now)) }
{
    let mut words = Vec::new(alloc);
    for statement in statements {
        push_statement_words(alloc, &mut words, untyped, statement)?;
    }
    Ok(words)
}

fn is_local(destinations: &Scope<'_>, given: &Scope<'_>, word: &Word) -> bool
    ensures { result ≡ is_known_local destinations.now given.now word.now }
{
    let name = word.text.as_bytes();
    destinations.knows(name) && !given.knows(name)
}

/// Those of the words that are destinations and neither parameters nor fixed, each name where it
/// first stands.
pub fn local_words<'a>(
    alloc: Global,
    destinations: &Scope<'_>,
    given: &Scope<'_>,
    words: &[&'a Word],
) -> Result<Vec<&'a Word>, AllocError>
    ensures { IfOk result (λ locals. words_view locals.items
        ≡ firsts_known destinations.now given.now (words_view words.now)) }
{
    let mut locals = Vec::new(alloc);
    let mut seen = Scope::new(alloc);
    for word in words {
        let wanted = is_local(destinations, given, word);
        push_wanted(&mut locals, &mut seen, wanted, word)?;
    }
    Ok(locals)
}

fn push_first<'a>(
    locals: &mut Vec<&'a Word>,
    seen: &mut Scope<'a>,
    word: &'a Word,
) -> Result<(), AllocError>
    requires { seen.old ≡ whole_numbers (words_view locals.old.items) }
    ensures seen { OnOk result (seen.new ≡ whole_numbers (words_view locals.new.items)) }
    ensures added { OnOk result (words_view locals.new.items
        ≡ with_first word_text (words_view locals.old.items) word.now) }
{
    let name = word.text.as_bytes();
    if seen.knows(name) {
        return Ok(());
    }
    locals.push(word)?;
    seen.push(Some(Known {
        name,
        sort: Sort::Int,
    }))?;
    Ok(())
}

fn push_wanted<'a>(
    locals: &mut Vec<&'a Word>,
    seen: &mut Scope<'a>,
    wanted: bool,
    word: &'a Word,
) -> Result<(), AllocError>
    requires { seen.old ≡ whole_numbers (words_view locals.old.items) }
    ensures seen { OnOk result (seen.new ≡ whole_numbers (words_view locals.new.items)) }
    ensures added { OnOk result (words_view locals.new.items
        ≡ with_wanted wanted (words_view locals.old.items) word.now) }
{
    if !wanted {
        return Ok(());
    }
    push_first(locals, seen, word)
}

/// The scope of `requires`: parameters, locals that are hidden, and fixed names.
pub fn requires_scope<'a>(
    alloc: Global,
    parameters: &[&'a Word],
    locals: &[&'a Word],
    fixed: &[Occurrence<'a>],
) -> Result<Scope<'a>, AllocError>
    ensures { IfOk result (λ s. s ≡ whole_numbers (words_view parameters.now)
        ++ (hidden (words_view locals.now) ++ scope_of (occurrences_view fixed.now))) }
{
    let mut scope = Scope::new(alloc);
    push_whole(&mut scope, parameters)?;
    push_hidden(&mut scope, locals)?;
    push_known(&mut scope, fixed)?;
    Ok(scope)
}

/// The scope of `ensures`: that of `requires`, and `ret`.
pub fn result_scope<'a>(
    alloc: Global,
    parameters: &[&'a Word],
    locals: &[&'a Word],
    fixed: &[Occurrence<'a>],
) -> Result<Scope<'a>, AllocError>
    ensures { IfOk result (λ s. s ≡ whole_numbers (words_view parameters.now)
        ++ (hidden (words_view locals.now)
        ++ (scope_of (occurrences_view fixed.now) ++ result_entry ∷ []))) }
{
    let mut scope = requires_scope(alloc, parameters, locals, fixed)?;
    scope.push(Some(Known {
        name: b"ret",
        sort: Sort::Int,
    }))?;
    Ok(scope)
}

/// The scope of invariants: parameters, locals and fixed names.
pub fn loop_scope<'a>(
    alloc: Global,
    parameters: &[&'a Word],
    locals: &[&'a Word],
    fixed: &[Occurrence<'a>],
) -> Result<Scope<'a>, AllocError>
    ensures { IfOk result (λ s. s ≡ whole_numbers (words_view parameters.now)
        ++ (whole_numbers (words_view locals.now)
        ++ (scope_of (occurrences_view fixed.now) ++ None ∷ []))) }
{
    let mut scope = Scope::new(alloc);
    push_whole(&mut scope, parameters)?;
    push_whole(&mut scope, locals)?;
    push_known(&mut scope, fixed)?;
    scope.push(None)?;
    Ok(scope)
}

fn known_in_body<'a>(destinations: &Scope<'_>, name: Occurrence<'a>) -> Option<Known<'a>>
    ensures { entry_view result ≡ known_entry destinations.now (occurrence_view name.entry) }
{
    let text = name.word.text.as_bytes();
    if destinations.knows(text) {
        Some(Known {
            name: text,
            sort: name.sort,
        })
    } else {
        None
    }
}

fn push_body_names<'a>(
    scope: &mut Scope<'a>,
    destinations: &Scope<'_>,
    fixed: &[Occurrence<'a>],
) -> Result<(), AllocError>
    ensures { OnOk result (scope.new ≡ scope.old
        ++ map (known_entry destinations.now) (occurrences_view fixed.now)) }
{
    for name in fixed {
        scope.push(known_in_body(destinations, *name))?;
    }
    Ok(())
}

/// The scope of a body: parameters, locals, and of the fixed names those that are destinations.
pub fn body_scope<'a>(
    alloc: Global,
    parameters: &[&'a Word],
    locals: &[&'a Word],
    destinations: &Scope<'_>,
    fixed: &[Occurrence<'a>],
) -> Result<Scope<'a>, AllocError>
    ensures { IfOk result (λ s. s ≡ whole_numbers (words_view parameters.now)
        ++ (whole_numbers (words_view locals.now)
        ++ map (known_entry destinations.now) (occurrences_view fixed.now))) }
{
    let mut scope = Scope::new(alloc);
    push_whole(&mut scope, parameters)?;
    push_whole(&mut scope, locals)?;
    push_body_names(&mut scope, destinations, fixed)?;
    Ok(scope)
}
