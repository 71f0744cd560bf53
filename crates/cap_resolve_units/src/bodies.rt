//! What is wrong in clauses and in the statements of a body.
ghost use Rattle.std.specs.Prelude.{◌≡◌, fold, flat_map, OnOk};
ghost use Rattle.cap_parse_tree.specs.Views.{statement_view};
ghost use Rattle.cap_resolve_spec.specs.Finding.{note};
ghost use Rattle.cap_resolve_terms.specs.Views.{noted_view};
ghost use Rattle.cap_resolve_parts.specs.Views.{clause_seen, statements_view};
ghost use Rattle.cap_resolve_tables.specs.Tables.{regions_of, functions_of, typed_names};
ghost use Rattle.cap_resolve_units.specs.Parts.{clause_part, statement_part};

use cap_parse_tree::{Clause, Statement};
use cap_resolve_findings::{note_assertion, note_statement};
use cap_resolve_parts::{invariant, items_of_clause};
use cap_resolve_tables::{FunctionTable, RegionTable, TypedNames, Types, types_told};
use cap_resolve_terms::{Noted, Scope};
use cap_syntax::Place;
use std::alloc::{AllocError, Global};

/// What the parts of a function are read with: the declarations, the types that `requires` tells,
/// the parameters and fixed names, the names that are known in invariants and in the body, and the
/// places of the names that are counted.
#[derive(Clone, Copy)]
pub struct BodyReading<'s, 't, 'a> {
    pub regions: &'t RegionTable<'a>,
    pub functions: &'t FunctionTable<'a>,
    pub types: &'s TypedNames<'t, 'a>,
    pub given: &'s Scope<'a>,
    pub looped: &'s Scope<'a>,
    pub body: &'s Scope<'a>,
    pub counted: &'s [Place],
}

/// Notes what is wrong in `ensures` or an invariant, where these names are known.
pub(crate) fn note_clause<'a>(
    noted: &mut Noted<'a>,
    alloc: Global,
    reading: BodyReading<'_, '_, 'a>,
    known: &Scope<'a>,
    clause: Option<&'a Clause>,
) -> Result<(), AllocError>
    ensures { OnOk result (noted_view noted.new ≡ fold note (noted_view noted.old)
        (clause_part (regions_of reading.entry.regions.now) (typed_names reading.entry.types.now)
        reading.entry.counted.now known.now (clause_seen clause.entry))) }
{
    let parts = items_of_clause(alloc, clause)?;
    let own = types_told(alloc, reading.regions, None, parts.as_slice())?;
    let types = Types {
        outer: Some(reading.types),
        own: &own,
    };
    let counted = reading.counted;
    note_assertion(
        noted,
        alloc,
        reading.regions,
        types,
        counted,
        known,
        parts.as_slice(),
    )?;
    Ok(())
}

fn note_whole_statement<'a>(
    noted: &mut Noted<'a>,
    alloc: Global,
    reading: BodyReading<'_, '_, 'a>,
    statement: &'a Statement,
) -> Result<(), AllocError>
    ensures { OnOk result (noted_view noted.new ≡ fold note (noted_view noted.old)
        (statement_part (regions_of reading.entry.regions.now)
        (functions_of reading.entry.functions.now) (typed_names reading.entry.types.now)
        reading.entry.counted.now reading.entry.given.now reading.entry.looped.now
        reading.entry.body.now (statement_view statement.now))) }
{
    let functions = reading.functions;
    note_statement(
        noted,
        alloc,
        functions,
        reading.given,
        reading.body,
        statement,
    )?;
    note_clause(noted, alloc, reading, reading.looped, invariant(statement))?;
    Ok(())
}

/// Notes what is wrong in the statements.
pub(crate) fn note_statements<'a>(
    noted: &mut Noted<'a>,
    alloc: Global,
    reading: BodyReading<'_, '_, 'a>,
    statements: &[&'a Statement],
) -> Result<(), AllocError>
    ensures { OnOk result (noted_view noted.new ≡ fold note (noted_view noted.old)
        (flat_map (statement_part (regions_of reading.entry.regions.now)
        (functions_of reading.entry.functions.now) (typed_names reading.entry.types.now)
        reading.entry.counted.now reading.entry.given.now reading.entry.looped.now
        reading.entry.body.now) (statements_view statements.now))) }
{
    for statement in statements {
        note_whole_statement(noted, alloc, reading, statement)?;
    }
    Ok(())
}
