//! The names of a function: its fixed names, its destinations and its locals.
ghost use Rattle.std.specs.Prelude.{◌≡◌, ◌++◌, IfOk, filter_map, flat_map};
ghost use Rattle.cap_resolve_spec.specs.Parts.{destination as word_set};
ghost use Rattle.cap_resolve_spec.specs.Names.{whole_numbers};
ghost use Rattle.cap_resolve_spec.specs.Items.{scope_of};
ghost use Rattle.cap_resolve_spec.specs.Functions.{statement_words as words_in};
ghost use Rattle.cap_resolve_parts.specs.Views.{words_view, statements_view, parts_view};
ghost use Rattle.cap_resolve_tables.specs.Tables.{types_of};
ghost use Rattle.cap_resolve_tables.specs.Views.{occurrences_view};
ghost use Rattle.cap_resolve_functions.specs.Functions.{fixed_in as names_fixed, variables_of, locals_in};

use crate::lists::push_texts;
use cap_parse_tree::{Statement, Word};
use cap_prog::Name;
use cap_resolve_parts::Placed;
use cap_resolve_scopes::{
    destinations_of, local_words, new_in, statement_words, words_of_occurrences,
};
use cap_resolve_tables::{
    Occurrence, RegionTable, Types, bound_names, push_known, scope_of_words, types_told,
};
use cap_resolve_terms::Scope;
use std::alloc::{AllocError, Global};

/// The new names of `requires` that it fixes for the call.
pub(crate) fn fixed_in<'a>(
    alloc: Global,
    parameters: &[&'a Word],
    types: Types<'_, '_, 'a>,
    parts: &[Placed<'a>],
) -> Result<Vec<Occurrence<'a>>, AllocError>
    ensures { IfOk result (λ names. occurrences_view names.items
        ≡ names_fixed (words_view parameters.now) (types_of types.entry) (parts_view parts.now)) }
{
    let own = scope_of_words(alloc, parameters)?;
    let new = new_in(alloc, &own, types, parts)?;
    bound_names(alloc, new.as_slice())
}

pub(crate) fn destinations_in<'a>(
    alloc: Global,
    statements: &[&'a Statement],
) -> Result<Scope<'a>, AllocError>
    ensures { IfOk result
        (λ s. s ≡ whole_numbers (filter_map word_set (statements_view statements.now))) }
{
    let words = destinations_of(alloc, statements)?;
    scope_of_words(alloc, words.as_slice())
}

fn given_names<'a>(
    alloc: Global,
    parameters: &[&'a Word],
    fixed: &[Occurrence<'a>],
) -> Result<Scope<'a>, AllocError>
    ensures { IfOk result (λ s. s ≡ whole_numbers (words_view parameters.now)
        ++ scope_of (occurrences_view fixed.now)) }
{
    let mut given = scope_of_words(alloc, parameters)?;
    push_known(&mut given, fixed)?;
    Ok(given)
}

fn words_of<'a>(
    alloc: Global,
    regions: &RegionTable<'a>,
    statements: &[&'a Statement],
) -> Result<Vec<&'a Word>, AllocError>
    ensures { IfOk result
        (λ words. words_view words.items ≡ flat_map words_in (statements_view statements.now)) }
{
    let none = types_told(alloc, regions, None, &[])?;
    let untyped = Types {
        outer: None,
        own: &none,
    };
    statement_words(alloc, untyped, statements)
}

/// The destinations that are neither parameters nor fixed, each where it first stands.
pub(crate) fn find_locals<'a>(
    alloc: Global,
    regions: &RegionTable<'a>,
    parameters: &[&'a Word],
    fixed: &[Occurrence<'a>],
    destinations: &Scope<'_>,
    statements: &[&'a Statement],
) -> Result<Vec<&'a Word>, AllocError>
    ensures { IfOk result (λ locals. words_view locals.items
        ≡ locals_in destinations.now (words_view parameters.now) (occurrences_view fixed.now)
        (statements_view statements.now)) }
{
    let given = given_names(alloc, parameters, fixed)?;
    let words = words_of(alloc, regions, statements)?;
    local_words(alloc, destinations, &given, words.as_slice())
}

pub(crate) fn variable_names(
    alloc: Global,
    parameters: &[&Word],
    locals: &[&Word],
    fixed: &[Occurrence<'_>],
) -> Result<Vec<Name>, AllocError>
    ensures { IfOk result (λ names. names.items ≡ variables_of (words_view parameters.now)
        (words_view locals.now) (occurrences_view fixed.now)) }
{
    let mut words = Vec::new(alloc);
    words_of_occurrences(&mut words, fixed)?;
    let mut names = Vec::new(alloc);
    push_texts(&mut names, parameters)?;
    push_texts(&mut names, locals)?;
    push_texts(&mut names, words.as_slice())?;
    Ok(names)
}
