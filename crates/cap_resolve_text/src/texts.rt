//! What is wrong in a text as a whole.
ghost use Rattle.std.specs.Prelude.{◌≡◌, ◌<◌, ◌^◌, fold, flat_map, length, OnOk};
ghost use Rattle.std.specs.List.{AllByRecursion};
ghost use Rattle.cap_resolve_spec.specs.Finding.{note};
ghost use Rattle.cap_resolve_spec.specs.Items.{numbered_regions};
ghost use Rattle.cap_resolve_spec.specs.Regions.{region_type_findings};
ghost use Rattle.cap_resolve_spec.specs.Functions.{function_findings};
ghost use Rattle.cap_resolve_terms.specs.Views.{noted_view};
ghost use Rattle.cap_resolve_parts.specs.Views.{regions_view, functions_view};
ghost use Rattle.cap_resolve_tables.specs.Entries.{HasFewGuards};
ghost use Rattle.cap_resolve_tables.specs.Tables.{regions_of, functions_of};
ghost use Rattle.cap_resolve_text.specs.Parts.{contents_part, text_part};

use crate::precondition::note_named_main;
use crate::words::note_declared_names;
use cap_parse_tree::{Function, Region};
use cap_resolve_tables::{FunctionTable, Numbered, RegionTable, function_table, region_table};
use cap_resolve_terms::Noted;
use cap_resolve_units::{note_function, note_region_type};
use std::alloc::{AllocError, Global};

/// Notes what is wrong in region types, of which a table has fewer than 2^32.
fn note_region_types<'a>(
    noted: &mut Noted<'a>,
    alloc: Global,
    regions: &RegionTable<'a>,
) -> Result<(), AllocError>
    ensures { OnOk result (noted_view noted.new ≡ fold note (noted_view noted.old)
        (flat_map (region_type_findings (regions_of regions.now))
        (numbered_regions (regions_of regions.now)))) }
{
    let _count = regions.len();
    let mut number = 0u32;
    for region in &regions.types {
        note_region_type(noted, alloc, regions, Numbered { number, region })?;
        number += 1;
    }
    Ok(())
}

fn note_functions<'a>(
    noted: &mut Noted<'a>,
    alloc: Global,
    regions: &RegionTable<'a>,
    functions: &FunctionTable<'a>,
) -> Result<(), AllocError>
    ensures { OnOk result (noted_view noted.new ≡ fold note (noted_view noted.old)
        (flat_map (function_findings (regions_of regions.now) (functions_of functions.now))
        (functions_of functions.now))) }
{
    for function in &functions.functions {
        note_function(noted, alloc, regions, functions, function)?;
    }
    Ok(())
}

fn note_contents<'a>(
    noted: &mut Noted<'a>,
    alloc: Global,
    regions: &RegionTable<'a>,
    functions: &FunctionTable<'a>,
) -> Result<(), AllocError>
    ensures { OnOk result (noted_view noted.new ≡ fold note (noted_view noted.old)
        (contents_part (regions_of regions.now) (functions_of functions.now))) }
{
    note_region_types(noted, alloc, regions)?;
    note_functions(noted, alloc, regions, functions)?;
    note_named_main(noted, functions);
    Ok(())
}

fn note_in_tables<'a>(
    noted: &mut Noted<'a>,
    alloc: Global,
    regions: &[&'a Region],
    functions: &[&'a Function],
) -> Result<(), AllocError>
    requires regions { length (regions_view regions.now) < 2 ^ 32 }
    requires guards { AllByRecursion HasFewGuards (regions_view regions.now) }
    requires functions { length (functions_view functions.now) < 2 ^ 32 }
    ensures { OnOk result (noted_view noted.new ≡ fold note (noted_view noted.old)
        (contents_part (regions_view regions.now) (functions_view functions.now))) }
{
    let types = region_table(alloc, regions)?;
    let known = function_table(alloc, functions)?;
    note_contents(noted, alloc, &types, &known)?;
    Ok(())
}

/// Notes all that is wrong in a text of these region types and functions, but for a missing `main`.
pub fn note_text<'a>(
    noted: &mut Noted<'a>,
    alloc: Global,
    regions: &[&'a Region],
    functions: &[&'a Function],
) -> Result<(), AllocError>
    requires regions { length (regions_view regions.now) < 2 ^ 32 }
    requires guards { AllByRecursion HasFewGuards (regions_view regions.now) }
    requires functions { length (functions_view functions.now) < 2 ^ 32 }
    ensures { OnOk result (noted_view noted.new ≡ fold note (noted_view noted.old)
        (text_part (regions_view regions.now) (functions_view functions.now))) }
{
    note_declared_names(noted, alloc, regions, functions)?;
    note_in_tables(noted, alloc, regions, functions)?;
    Ok(())
}
