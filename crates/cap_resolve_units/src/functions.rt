//! What is wrong in a function, part by part.
ghost use Rattle.std.specs.Prelude.{◌≡◌, ◌++◌, fold, flat_map, filter_map, map, IfOk, OnOk};
ghost use Rattle.cap_resolve_spec.specs.Finding.{note};
ghost use Rattle.cap_resolve_spec.specs.Parts.{destination as word_set};
ghost use Rattle.cap_resolve_spec.specs.Functions.{statement_words as words_in};
ghost use Rattle.cap_resolve_scopes.specs.Lists.{firsts_known};
ghost use Rattle.cap_resolve_spec.specs.Names.{whole_numbers, word_place};
ghost use Rattle.cap_resolve_spec.specs.Items.{occurrence_words};
ghost use Rattle.cap_resolve_terms.specs.Views.{noted_view};
ghost use Rattle.cap_resolve_parts.specs.Views.{clause_seen, parts_view, statements_view, words_view};
ghost use Rattle.cap_resolve_tables.specs.Tables.{regions_of, functions_of, typed_names, types_of};
ghost use Rattle.cap_resolve_tables.specs.Views.{occurrences_view};
ghost use Rattle.cap_resolve_units.specs.Bodies.{read_part, body_part, requires_part, locals_part};
ghost use Rattle.cap_resolve_units.specs.Bodies.{fixed_part, typed_part, function_part};

use crate::bodies::{BodyReading, note_clause, note_statements};
use crate::regions::places_of;
use cap_parse_tree::{Clause, Statement, Word};
use cap_resolve_findings::{Reading, note_contents, note_new, note_parameters};
use cap_resolve_parts::Placed;
use cap_resolve_scopes::{
    body_scope, destinations_of, local_words, loop_scope, new_in, requires_scope, result_scope,
    statement_words, words_of_occurrences,
};
use cap_resolve_tables::{
    FunctionTable, Occurrence, RegionTable, TypedNames, Types, bound_names, scope_of_words,
    types_told,
};
use cap_resolve_terms::{Noted, Scope};
use cap_syntax::Place;
use std::alloc::{AllocError, Global};

/// Parameters, and behind them the words of fixed names.
fn given_words<'a>(
    alloc: Global,
    parameters: &[&'a Word],
    fixed: &[Occurrence<'a>],
) -> Result<Vec<&'a Word>, AllocError>
    ensures { IfOk result (λ words. words_view words.items
        ≡ words_view parameters.now ++ occurrence_words (occurrences_view fixed.now)) }
{
    let mut words = Vec::from_slice(alloc, parameters)?;
    words_of_occurrences(&mut words, fixed)?;
    Ok(words)
}

/// The names that the statements set.
fn destination_scope<'a>(
    alloc: Global,
    statements: &[&'a Statement],
) -> Result<Scope<'a>, AllocError>
    ensures { IfOk result (λ s. s
        ≡ whole_numbers (filter_map word_set (statements_view statements.now))) }
{
    let words = destinations_of(alloc, statements)?;
    scope_of_words(alloc, words.as_slice())
}

fn all_words<'a>(
    alloc: Global,
    regions: &RegionTable<'a>,
    statements: &[&'a Statement],
) -> Result<Vec<&'a Word>, AllocError>
    ensures { IfOk result (λ words. words_view words.items
        ≡ flat_map words_in (statements_view statements.now)) }
{
    let none = types_told(alloc, regions, None, &[])?;
    let untyped = Types {
        outer: None,
        own: &none,
    };
    statement_words(alloc, untyped, statements)
}

/// The locals: destinations that are not given, by their first appearance in the statements.
fn locals_in<'a>(
    alloc: Global,
    regions: &RegionTable<'a>,
    given: &Scope<'_>,
    destinations: &Scope<'_>,
    statements: &[&'a Statement],
) -> Result<Vec<&'a Word>, AllocError>
    ensures { IfOk result (λ locals. words_view locals.items
        ≡ firsts_known destinations.now given.now
        (flat_map words_in (statements_view statements.now))) }
{
    let words = all_words(alloc, regions, statements)?;
    local_words(alloc, destinations, given, words.as_slice())
}

fn note_requires<'a>(
    noted: &mut Noted<'a>,
    alloc: Global,
    regions: &RegionTable<'a>,
    types: Types<'_, '_, 'a>,
    parameters: &[&'a Word],
    locals: &[&'a Word],
    fixed: &[Occurrence<'a>],
    parts: &[Placed<'a>],
) -> Result<(), AllocError>
    ensures { OnOk result (noted_view noted.new ≡ fold note (noted_view noted.old)
        (requires_part (regions_of regions.now) (types_of types.entry)
        (words_view parameters.now) (words_view locals.now) (occurrences_view fixed.now)
        (parts_view parts.now))) }
{
    let scope = requires_scope(alloc, parameters, locals, fixed)?;
    let reading = Reading {
        regions,
        types,
        scope: &scope,
    };
    note_contents(noted, alloc, reading, parts)?;
    Ok(())
}

fn note_read_body<'a>(
    noted: &mut Noted<'a>,
    alloc: Global,
    reading: BodyReading<'_, '_, 'a>,
    outcome: &Scope<'a>,
    postcondition: Option<&'a Clause>,
    statements: &[&'a Statement],
) -> Result<(), AllocError>
    ensures { OnOk result (noted_view noted.new ≡ fold note (noted_view noted.old)
        (read_part (regions_of reading.entry.regions.now)
        (functions_of reading.entry.functions.now) (typed_names reading.entry.types.now)
        reading.entry.counted.now reading.entry.given.now outcome.now reading.entry.looped.now
        reading.entry.body.now (clause_seen postcondition.entry)
        (statements_view statements.now))) }
{
    note_clause(noted, alloc, reading, outcome, postcondition)?;
    note_statements(noted, alloc, reading, statements)?;
    Ok(())
}

fn note_body<'t, 'a>(
    noted: &mut Noted<'a>,
    alloc: Global,
    regions: &'t RegionTable<'a>,
    functions: &'t FunctionTable<'a>,
    types: &TypedNames<'t, 'a>,
    given: &Scope<'a>,
    destinations: &Scope<'_>,
    counted: &[Place],
    parameters: &[&'a Word],
    locals: &[&'a Word],
    fixed: &[Occurrence<'a>],
    postcondition: Option<&'a Clause>,
    statements: &[&'a Statement],
) -> Result<(), AllocError>
    ensures { OnOk result (noted_view noted.new ≡ fold note (noted_view noted.old)
        (body_part (regions_of regions.now) (functions_of functions.now) (typed_names types.now)
        counted.now given.now destinations.now (words_view parameters.now)
        (words_view locals.now) (occurrences_view fixed.now) (clause_seen postcondition.entry)
        (statements_view statements.now))) }
{
    let outcome = result_scope(alloc, parameters, locals, fixed)?;
    let looped = loop_scope(alloc, parameters, locals, fixed)?;
    let body = body_scope(alloc, parameters, locals, destinations, fixed)?;
    let reading = BodyReading {
        regions,
        functions,
        types,
        given,
        looped: &looped,
        body: &body,
        counted,
    };
    note_read_body(noted, alloc, reading, &outcome, postcondition, statements)?;
    Ok(())
}

/// The places of the words, and of those behind them.
fn places_of_both(
    alloc: Global,
    words: &[&Word],
    others: &[&Word],
) -> Result<Vec<Place>, AllocError>
    ensures { IfOk result (λ places. places.items
        ≡ map word_place (words_view words.now ++ words_view others.now)) }
{
    let mut places = places_of(alloc, words)?;
    for word in others {
        places.push(word.place)?;
    }
    Ok(places)
}

fn note_with_locals<'t, 'a>(
    noted: &mut Noted<'a>,
    alloc: Global,
    regions: &'t RegionTable<'a>,
    functions: &'t FunctionTable<'a>,
    types: &TypedNames<'t, 'a>,
    parameters: &[&'a Word],
    fixed: &[Occurrence<'a>],
    words: &[&'a Word],
    given: &Scope<'a>,
    destinations: &Scope<'_>,
    locals: &[&'a Word],
    parts: &[Placed<'a>],
    postcondition: Option<&'a Clause>,
    statements: &[&'a Statement],
) -> Result<(), AllocError>
    ensures { OnOk result (noted_view noted.new ≡ fold note (noted_view noted.old)
        (locals_part (regions_of regions.now) (functions_of functions.now)
        (typed_names types.now) (words_view parameters.now) (occurrences_view fixed.now)
        (words_view words.now) given.now destinations.now (words_view locals.now)
        (parts_view parts.now) (clause_seen postcondition.entry)
        (statements_view statements.now))) }
{
    let own = Types {
        outer: None,
        own: types,
    };
    note_requires(noted, alloc, regions, own, parameters, locals, fixed, parts)?;
    let counted = places_of_both(alloc, words, locals)?;
    note_body(
        noted,
        alloc,
        regions,
        functions,
        types,
        given,
        destinations,
        counted.as_slice(),
        parameters,
        locals,
        fixed,
        postcondition,
        statements,
    )?;
    Ok(())
}

fn note_with_fixed<'t, 'a>(
    noted: &mut Noted<'a>,
    alloc: Global,
    regions: &'t RegionTable<'a>,
    functions: &'t FunctionTable<'a>,
    types: &TypedNames<'t, 'a>,
    parameters: &[&'a Word],
    fixed: &[Occurrence<'a>],
    parts: &[Placed<'a>],
    postcondition: Option<&'a Clause>,
    statements: &[&'a Statement],
) -> Result<(), AllocError>
    ensures { OnOk result (noted_view noted.new ≡ fold note (noted_view noted.old)
        (fixed_part (regions_of regions.now) (functions_of functions.now)
        (typed_names types.now) (words_view parameters.now) (occurrences_view fixed.now)
        (parts_view parts.now) (clause_seen postcondition.entry)
        (statements_view statements.now))) }
{
    let words = given_words(alloc, parameters, fixed)?;
    let given = scope_of_words(alloc, words.as_slice())?;
    let destinations = destination_scope(alloc, statements)?;
    let locals = locals_in(alloc, regions, &given, &destinations, statements)?;
    note_with_locals(
        noted,
        alloc,
        regions,
        functions,
        types,
        parameters,
        fixed,
        words.as_slice(),
        &given,
        &destinations,
        locals.as_slice(),
        parts,
        postcondition,
        statements,
    )?;
    Ok(())
}

fn note_with_types<'t, 'a>(
    noted: &mut Noted<'a>,
    alloc: Global,
    regions: &'t RegionTable<'a>,
    functions: &'t FunctionTable<'a>,
    types: &TypedNames<'t, 'a>,
    parameters: &[&'a Word],
    parts: &[Placed<'a>],
    postcondition: Option<&'a Clause>,
    statements: &[&'a Statement],
) -> Result<(), AllocError>
    ensures { OnOk result (noted_view noted.new ≡ fold note (noted_view noted.old)
        (typed_part (regions_of regions.now) (functions_of functions.now)
        (typed_names types.now) (words_view parameters.now) (parts_view parts.now)
        (clause_seen postcondition.entry) (statements_view statements.now))) }
{
    let scope = scope_of_words(alloc, parameters)?;
    let own = Types {
        outer: None,
        own: types,
    };
    let new = new_in(alloc, &scope, own, parts)?;
    note_new(noted, new.as_slice());
    let fixed = bound_names(alloc, new.as_slice())?;
    let names = fixed.as_slice();
    note_with_fixed(
        noted,
        alloc,
        regions,
        functions,
        types,
        parameters,
        names,
        parts,
        postcondition,
        statements,
    )?;
    Ok(())
}

/// Notes what is wrong in a function of these parameters, items of `requires`, `ensures` and
/// statements.
pub(crate) fn note_function_parts<'t, 'a>(
    noted: &mut Noted<'a>,
    alloc: Global,
    regions: &'t RegionTable<'a>,
    functions: &'t FunctionTable<'a>,
    parameters: &[&'a Word],
    parts: &[Placed<'a>],
    postcondition: Option<&'a Clause>,
    statements: &[&'a Statement],
) -> Result<(), AllocError>
    ensures { OnOk result (noted_view noted.new ≡ fold note (noted_view noted.old)
        (function_part (regions_of regions.now) (functions_of functions.now)
        (words_view parameters.now) (parts_view parts.now) (clause_seen postcondition.entry)
        (statements_view statements.now))) }
{
    note_parameters(noted, alloc, parameters)?;
    let types = types_told(alloc, regions, None, parts)?;
    note_with_types(
        noted,
        alloc,
        regions,
        functions,
        &types,
        parameters,
        parts,
        postcondition,
        statements,
    )?;
    Ok(())
}
