//! All region types and all functions of a tree.
ghost use Rattle.std.specs.Prelude.{◌≡◌, ◌≤◌, IfOk, length, map, flat_map, []};
ghost use Rattle.std.specs.List.{AllByRecursion};
ghost use Rattle.cap_prog.specs.Views.{region_view as region_seen, function_view as function_seen};
ghost use Rattle.cap_prog.specs.WellFormed.{most_members};
ghost use Rattle.cap_parse_tree.specs.Tree.{FunctionTree};
ghost use Rattle.cap_resolve_spec.specs.Parts.{block_parts};
ghost use Rattle.cap_resolve_spec.specs.Items.{numbered_regions};
ghost use Rattle.cap_resolve_spec.specs.Regions.{region_type_findings};
ghost use Rattle.cap_resolve_spec.specs.Functions.{function_findings};
ghost use Rattle.cap_resolve_spec.specs.Program.{region_program, function_program};
ghost use Rattle.cap_resolve_tables.specs.Tables.{regions_of, functions_of};

use cap_prog::{Function, RegionType};
use cap_resolve_functions::build_function;
use cap_resolve_regions::build_region;
use cap_resolve_tables::{FunctionTable, Numbered, RegionTable};
use std::alloc::{AllocError, Global};

/// The region types of a tree, in the order of the table. Nothing is found in them.
pub(crate) fn build_regions(
    alloc: Global,
    regions: &RegionTable<'_>,
) -> Result<Vec<RegionType>, AllocError>
    requires { flat_map (region_type_findings (regions_of regions.now))
        (numbered_regions (regions_of regions.now)) ≡ [] }
    ensures { IfOk result (λ built. map region_seen built.items
        ≡ map (region_program (regions_of regions.now))
        (numbered_regions (regions_of regions.now))) }
{
    let _count = regions.len();
    let mut built = Vec::new(alloc);
    let mut number = 0u32;
    for region in &regions.types {
        let numbered = Numbered { number, region };
        built.push(build_region(alloc, regions, numbered)?)?;
        number += 1;
    }
    Ok(built)
}

/// The functions of a tree, in the order of the table. Nothing is found in them, and none has more
/// than 2^20 statements.
pub(crate) fn build_functions(
    alloc: Global,
    regions: &RegionTable<'_>,
    functions: &FunctionTable<'_>,
) -> Result<Vec<Function>, AllocError>
    requires right { flat_map
        (function_findings (regions_of regions.now) (functions_of functions.now))
        (functions_of functions.now) ≡ [] }
    requires small { AllByRecursion
        (λ (f : FunctionTree). length (block_parts f.body) ≤ most_members)
        (functions_of functions.now) }
    ensures { IfOk result (λ built. map function_seen built.items
        ≡ map (function_program (regions_of regions.now) (functions_of functions.now))
        (functions_of functions.now)) }
{
    let mut built = Vec::new(alloc);
    for function in &functions.functions {
        built.push(build_function(alloc, regions, functions, function)?)?;
    }
    Ok(built)
}
