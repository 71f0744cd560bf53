//! A whole function.
ghost use Rattle.std.specs.Prelude.{◌≡◌, ◌≤◌, IfOk, length, []};
ghost use Rattle.cap_prog.specs.Views.{function_view as seen};
ghost use Rattle.cap_prog.specs.WellFormed.{most_members};
ghost use Rattle.cap_parse_tree.specs.Views.{function_view};
ghost use Rattle.cap_resolve_spec.specs.Parts.{block_parts};
ghost use Rattle.cap_resolve_spec.specs.Functions.{function_findings};
ghost use Rattle.cap_resolve_spec.specs.Program.{function_program};
ghost use Rattle.cap_resolve_parts.specs.Views.{words_view, statements_view, parts_view};
ghost use Rattle.cap_resolve_tables.specs.Tables.{regions_of, functions_of, typed_names};
ghost use Rattle.cap_resolve_tables.specs.Views.{occurrences_view};
ghost use Rattle.cap_resolve_functions.specs.Functions.{function_built, named_by, function_by};
ghost use Rattle.cap_resolve_functions.specs.Narrow.{IsNarrowBuilt, IsNarrowBy};

use crate::assertions::clause_of;
use crate::functions::{destinations_in, find_locals, fixed_in};
use crate::headers::{Named, build_named};
use cap_parse_tree::{Function as FunctionTree, Statement, Word};
use cap_prog::Function;
use cap_resolve_parts::{Placed, items_of_clause, listed_words, push_block};
use cap_resolve_tables::{FunctionTable, Occurrence, RegionTable, TypedNames, Types, types_told};
use std::alloc::{AllocError, Global};

/// The function of a tree, with these parameters, types, fixed names and statements.
fn build_stated<'a>(
    alloc: Global,
    regions: &RegionTable<'a>,
    functions: &FunctionTable<'a>,
    types: &TypedNames<'_, 'a>,
    parameters: &[&'a Word],
    fixed: &[Occurrence<'a>],
    statements: &[&'a Statement],
    function: &'a FunctionTree,
) -> Result<Function, AllocError>
    requires { IsNarrowBuilt (regions_of regions.now) (functions_of functions.now)
        (typed_names types.now) (named_by (words_view parameters.now) (occurrences_view fixed.now)
        (statements_view statements.now)) (function_view function.now) }
    ensures { IfOk result (λ f. seen f ≡ function_built (regions_of regions.now)
        (functions_of functions.now) (typed_names types.now)
        (named_by (words_view parameters.now) (occurrences_view fixed.now)
        (statements_view statements.now)) (function_view function.now)) }
{
    let destinations = destinations_in(alloc, statements)?;
    let found = find_locals(alloc, regions, parameters, fixed, &destinations, statements)?;
    let locals = found.as_slice();
    let names = Named {
        parameters,
        locals,
        fixed,
        destinations: &destinations,
    };
    build_named(alloc, regions, functions, types, &names, function)
}

/// The function of a tree, with these parameters and items of `requires`.
fn build_required<'a>(
    alloc: Global,
    regions: &RegionTable<'a>,
    functions: &FunctionTable<'a>,
    parameters: &[&'a Word],
    parts: &[Placed<'a>],
    function: &'a FunctionTree,
) -> Result<Function, AllocError>
    requires { IsNarrowBy (regions_of regions.now) (functions_of functions.now)
        (words_view parameters.now) (parts_view parts.now) (function_view function.now) }
    ensures { IfOk result (λ f. seen f ≡ function_by (regions_of regions.now)
        (functions_of functions.now) (words_view parameters.now) (parts_view parts.now)
        (function_view function.now)) }
{
    let types = types_told(alloc, regions, None, parts)?;
    let told = Types {
        outer: None,
        own: &types,
    };
    let bound = fixed_in(alloc, parameters, told, parts)?;
    let fixed = bound.as_slice();
    let mut all = Vec::new(alloc);
    push_block(&mut all, &function.body)?;
    let statements = all.as_slice();
    build_stated(
        alloc, regions, functions, &types, parameters, fixed, statements, function,
    )
}

/// The function of a tree, in which nothing is found and which has at most 2^20 statements. There is
/// an error where memory runs out.
pub fn build_function<'a>(
    alloc: Global,
    regions: &RegionTable<'a>,
    functions: &FunctionTable<'a>,
    function: &'a FunctionTree,
) -> Result<Function, AllocError>
    requires right { function_findings (regions_of regions.now) (functions_of functions.now)
        (function_view function.now) ≡ [] }
    requires small { length (block_parts (function_view function.now).body) ≤ most_members }
    ensures { IfOk result (λ f. seen f ≡ function_program (regions_of regions.now)
        (functions_of functions.now) (function_view function.now)) }
{
    let words = listed_words(alloc, &function.parameters)?;
    let listed = items_of_clause(alloc, clause_of(&function.precondition))?;
    let parameters = words.as_slice();
    let parts = listed.as_slice();
    build_required(alloc, regions, functions, parameters, parts, function)
}
