//! What is wrong in a clause: its new names, its contents, its assertion.
ghost use Rattle.std.specs.Prelude.{◌≡◌, ◌++◌, fold, map, filter, not, OnOk, IfOk};
ghost use Rattle.cap_resolve_spec.specs.Finding.{note, unknown_word};
ghost use Rattle.cap_resolve_spec.specs.Names.{word_place};
ghost use Rattle.cap_resolve_spec.specs.Items.{occurrence_words, is_bound};
ghost use Rattle.cap_resolve_spec.specs.Functions.{new_findings, items_findings};
ghost use Rattle.cap_resolve_terms.specs.Views.{noted_view};
ghost use Rattle.cap_resolve_parts.specs.Views.{parts_view};
ghost use Rattle.cap_resolve_tables.specs.Tables.{regions_of, types_of};
ghost use Rattle.cap_resolve_tables.specs.Views.{occurrences_view};
ghost use Rattle.cap_resolve_findings.specs.Clauses.{counted_findings, bound_findings};
ghost use Rattle.cap_resolve_findings.specs.Clauses.{assertion_findings};

use crate::items::{Reading, note_items};
use crate::names::{note_ret, note_variables};
use crate::terms::note_item_terms;
use cap_resolve_parts::Placed;
use cap_resolve_scopes::{new_in, scope_with};
use cap_resolve_tables::{Occurrence, RegionTable, Types, bound_names};
use cap_resolve_terms::{Cause, Noted, Scope};
use cap_syntax::Place;
use std::alloc::{AllocError, Global};

fn note_unbound<'a>(noted: &mut Noted<'a>, names: &[Occurrence<'a>])
    ensures { noted_view noted.new ≡ fold note (noted_view noted.old)
        (map unknown_word (occurrence_words
        (filter (λ o. not o.bound) (occurrences_view names.now)))) }
{
    for name in names {
        let cause = Cause::Unknown(name.word.text.as_bytes());
        noted.note_if(!name.bound, name.word.place, cause);
    }
}

/// Notes the new names that are not bound where they occur first, and those that are `ret`.
pub fn note_new<'a>(noted: &mut Noted<'a>, names: &[Occurrence<'a>])
    ensures { noted_view noted.new ≡ fold note (noted_view noted.old)
        (new_findings (occurrences_view names.now)) }
{
    note_unbound(noted, names);
    note_ret(noted, names);
}

/// The places, and behind them those of the names.
fn places_with(
    alloc: Global,
    counted: &[Place],
    names: &[Occurrence<'_>],
) -> Result<Vec<Place>, AllocError>
    ensures { IfOk result (λ places. places.items
        ≡ counted.now ++ map word_place (occurrence_words (occurrences_view names.now))) }
{
    let mut places = Vec::from_slice(alloc, counted)?;
    for name in names {
        places.push(name.word.place)?;
    }
    Ok(places)
}

/// Notes where the names pass the limit, counted with those whose places these are.
pub fn note_counted(
    noted: &mut Noted<'_>,
    alloc: Global,
    counted: &[Place],
    names: &[Occurrence<'_>],
) -> Result<(), AllocError>
    ensures { OnOk result (noted_view noted.new ≡ fold note (noted_view noted.old)
        (counted_findings counted.now (occurrences_view names.now))) }
{
    let places = places_with(alloc, counted, names)?;
    note_variables(noted, places.as_slice());
    Ok(())
}

/// Notes what is wrong in the items of an assertion that stands in no region type.
pub fn note_contents<'a>(
    noted: &mut Noted<'a>,
    alloc: Global,
    reading: Reading<'_, '_, '_, 'a>,
    parts: &[Placed<'a>],
) -> Result<(), AllocError>
    ensures { OnOk result (noted_view noted.new ≡ fold note (noted_view noted.old)
        (items_findings (regions_of reading.entry.regions.now) (types_of reading.entry.types)
        reading.entry.scope.now (parts_view parts.now))) }
{
    note_items(noted, alloc, reading, None, parts)?;
    note_item_terms(noted, alloc, reading.types, reading.scope, parts)?;
    Ok(())
}

fn note_bound<'a>(
    noted: &mut Noted<'a>,
    alloc: Global,
    regions: &RegionTable<'a>,
    types: Types<'_, '_, 'a>,
    counted: &[Place],
    known: &Scope<'a>,
    bound: &[Occurrence<'a>],
    parts: &[Placed<'a>],
) -> Result<(), AllocError>
    ensures { OnOk result (noted_view noted.new ≡ fold note (noted_view noted.old)
        (bound_findings (regions_of regions.now) (types_of types.entry) counted.now known.now
        (occurrences_view bound.now) (parts_view parts.now))) }
{
    note_counted(noted, alloc, counted, bound)?;
    let scope = scope_with(alloc, known, bound)?;
    let reading = Reading {
        regions,
        types,
        scope: &scope,
    };
    note_contents(noted, alloc, reading, parts)?;
    Ok(())
}

/// Notes what is wrong in an assertion where these names are known, whose new names are counted with
/// those of the places.
pub fn note_assertion<'a>(
    noted: &mut Noted<'a>,
    alloc: Global,
    regions: &RegionTable<'a>,
    types: Types<'_, '_, 'a>,
    counted: &[Place],
    known: &Scope<'a>,
    parts: &[Placed<'a>],
) -> Result<(), AllocError>
    ensures { OnOk result (noted_view noted.new ≡ fold note (noted_view noted.old)
        (assertion_findings (regions_of regions.now) (types_of types.entry) counted.now known.now
        (parts_view parts.now))) }
{
    let new = new_in(alloc, known, types, parts)?;
    note_new(noted, new.as_slice());
    let bound = bound_names(alloc, new.as_slice())?;
    note_bound(
        noted,
        alloc,
        regions,
        types,
        counted,
        known,
        bound.as_slice(),
        parts,
    )?;
    Ok(())
}
