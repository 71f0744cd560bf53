//! What is wrong in the names that a text declares.
ghost use Rattle.std.specs.Prelude.{◌≡◌, fold, map, IfOk, OnOk};
ghost use Rattle.cap_resolve_spec.specs.Finding.{note};
ghost use Rattle.cap_resolve_spec.specs.Stands.{region_word, function_word};
ghost use Rattle.cap_resolve_terms.specs.Views.{noted_view};
ghost use Rattle.cap_resolve_parts.specs.Views.{words_view, regions_view, functions_view};
ghost use Rattle.cap_resolve_text.specs.Parts.{words_part};

use cap_parse_tree::{Function, Region, Word};
use cap_resolve_findings::{note_past, note_repeated};
use cap_resolve_terms::{Limit, Noted};
use std::alloc::{AllocError, Global};

fn region_words<'a>(alloc: Global, regions: &[&'a Region]) -> Result<Vec<&'a Word>, AllocError>
    ensures { IfOk result (λ words. words_view words.items
        ≡ map region_word (regions_view regions.now)) }
{
    let mut words = Vec::new(alloc);
    for region in regions {
        words.push(&region.name)?;
    }
    Ok(words)
}

fn function_words<'a>(
    alloc: Global,
    functions: &[&'a Function],
) -> Result<Vec<&'a Word>, AllocError>
    ensures { IfOk result (λ words. words_view words.items
        ≡ map function_word (functions_view functions.now)) }
{
    let mut words = Vec::new(alloc);
    for function in functions {
        words.push(&function.name)?;
    }
    Ok(words)
}

fn note_words<'a>(
    noted: &mut Noted<'a>,
    alloc: Global,
    regions: &[&'a Word],
    functions: &[&'a Word],
) -> Result<(), AllocError>
    ensures { OnOk result (noted_view noted.new ≡ fold note (noted_view noted.old)
        (words_part (words_view regions.now) (words_view functions.now))) }
{
    note_repeated(noted, alloc, regions)?;
    note_repeated(noted, alloc, functions)?;
    note_past(noted, 64, Limit::Regions, regions);
    note_past(noted, 256, Limit::Functions, functions);
    Ok(())
}

/// Notes region types and functions whose names stand twice, and those that pass the limits.
pub fn note_declared_names<'a>(
    noted: &mut Noted<'a>,
    alloc: Global,
    regions: &[&'a Region],
    functions: &[&'a Function],
) -> Result<(), AllocError>
    ensures { OnOk result (noted_view noted.new ≡ fold note (noted_view noted.old)
        (words_part (map region_word (regions_view regions.now))
        (map function_word (functions_view functions.now)))) }
{
    let types = region_words(alloc, regions)?;
    let names = function_words(alloc, functions)?;
    note_words(noted, alloc, types.as_slice(), names.as_slice())?;
    Ok(())
}
