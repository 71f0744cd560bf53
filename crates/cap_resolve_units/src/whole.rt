//! What is wrong in a whole function.
ghost use Rattle.std.specs.Prelude.{◌≡◌, fold, option_map, IfOk, OnOk};
ghost use Rattle.cap_parse_tree.specs.Tree.{listed_parts};
ghost use Rattle.cap_parse_tree.specs.Views.{block_view, clause_view, function_view};
ghost use Rattle.cap_parse_tree.specs.Views.{listed_view, word_view};
ghost use Rattle.cap_resolve_spec.specs.Finding.{note};
ghost use Rattle.cap_resolve_spec.specs.Parts.{block_parts, clause_parts};
ghost use Rattle.cap_resolve_spec.specs.Functions.{function_findings};
ghost use Rattle.cap_resolve_terms.specs.Views.{noted_view};
ghost use Rattle.cap_resolve_parts.specs.Views.{clause_seen, parts_view, statements_view, words_view};
ghost use Rattle.cap_resolve_tables.specs.Tables.{regions_of, functions_of};
ghost use Rattle.cap_resolve_units.specs.Bodies.{function_part};

use crate::functions::note_function_parts;
use cap_parse_tree::{Block, Clause, Function, Listed, Statement, Word};
use cap_resolve_parts::{Placed, items_of_clause, listed_words, push_block};
use cap_resolve_tables::{FunctionTable, RegionTable};
use cap_resolve_terms::Noted;
use std::alloc::{AllocError, Global};

fn lent(clause: &Option<Clause>) -> Option<&Clause>
    ensures { clause_seen result ≡ option_map clause_view clause.now }
{
    match clause {
        None => None,
        Some(clause) => Some(clause),
    }
}

fn statements_in<'a>(alloc: Global, block: &'a Block) -> Result<Vec<&'a Statement>, AllocError>
    ensures { IfOk result (λ statements. statements_view statements.items
        ≡ block_parts (block_view block.now)) }
{
    let mut statements = Vec::new(alloc);
    push_block(&mut statements, block)?;
    Ok(statements)
}

fn note_with_items<'t, 'a>(
    noted: &mut Noted<'a>,
    alloc: Global,
    regions: &'t RegionTable<'a>,
    functions: &'t FunctionTable<'a>,
    parameters: &[&'a Word],
    parts: &[Placed<'a>],
    postcondition: Option<&'a Clause>,
    body: &'a Block,
) -> Result<(), AllocError>
    ensures { OnOk result (noted_view noted.new ≡ fold note (noted_view noted.old)
        (function_part (regions_of regions.now) (functions_of functions.now)
        (words_view parameters.now) (parts_view parts.now) (clause_seen postcondition.entry)
        (block_parts (block_view body.now)))) }
{
    let statements = statements_in(alloc, body)?;
    let all = statements.as_slice();
    note_function_parts(
        noted,
        alloc,
        regions,
        functions,
        parameters,
        parts,
        postcondition,
        all,
    )?;
    Ok(())
}

fn note_with_parameters<'t, 'a>(
    noted: &mut Noted<'a>,
    alloc: Global,
    regions: &'t RegionTable<'a>,
    functions: &'t FunctionTable<'a>,
    parameters: &[&'a Word],
    precondition: Option<&'a Clause>,
    postcondition: Option<&'a Clause>,
    body: &'a Block,
) -> Result<(), AllocError>
    ensures { OnOk result (noted_view noted.new ≡ fold note (noted_view noted.old)
        (function_part (regions_of regions.now) (functions_of functions.now)
        (words_view parameters.now) (clause_parts (clause_seen precondition.entry))
        (clause_seen postcondition.entry) (block_parts (block_view body.now)))) }
{
    let parts = items_of_clause(alloc, precondition)?;
    let items = parts.as_slice();
    note_with_items(
        noted,
        alloc,
        regions,
        functions,
        parameters,
        items,
        postcondition,
        body,
    )?;
    Ok(())
}

fn note_own_parts<'t, 'a>(
    noted: &mut Noted<'a>,
    alloc: Global,
    regions: &'t RegionTable<'a>,
    functions: &'t FunctionTable<'a>,
    parameters: &'a Listed<Word>,
    precondition: Option<&'a Clause>,
    postcondition: Option<&'a Clause>,
    body: &'a Block,
) -> Result<(), AllocError>
    ensures { OnOk result (noted_view noted.new ≡ fold note (noted_view noted.old)
        (function_part (regions_of regions.now) (functions_of functions.now)
        (listed_parts (listed_view word_view parameters.now))
        (clause_parts (clause_seen precondition.entry))
        (clause_seen postcondition.entry) (block_parts (block_view body.now)))) }
{
    let list = listed_words(alloc, parameters)?;
    let words = list.as_slice();
    note_with_parameters(
        noted,
        alloc,
        regions,
        functions,
        words,
        precondition,
        postcondition,
        body,
    )?;
    Ok(())
}

/// Notes what is wrong in a function.
pub fn note_function<'a>(
    noted: &mut Noted<'a>,
    alloc: Global,
    regions: &RegionTable<'a>,
    functions: &FunctionTable<'a>,
    function: &'a Function,
) -> Result<(), AllocError>
    ensures { OnOk result (noted_view noted.new ≡ fold note (noted_view noted.old)
        (function_findings (regions_of regions.now) (functions_of functions.now)
        (function_view function.now))) }
{
    let parameters = &function.parameters;
    let precondition = lent(&function.precondition);
    let postcondition = lent(&function.postcondition);
    let body = &function.body;
    note_own_parts(
        noted,
        alloc,
        regions,
        functions,
        parameters,
        precondition,
        postcondition,
        body,
    )?;
    Ok(())
}
