//! What is wrong in a region type.
ghost use Rattle.std.specs.Prelude.{◌≡◌, ◌∷◌, ◌++◌, fold, flat_map, map, IfOk, OnOk};
ghost use Rattle.cap_parse_tree.specs.Views.{case_view, action_view, region_view};
ghost use Rattle.cap_resolve_spec.specs.Finding.{note, twice_word, guard_count};
ghost use Rattle.cap_resolve_spec.specs.Names.{whole_numbers, repeated, past, parameters_findings};
ghost use Rattle.cap_resolve_spec.specs.Items.{guard_words as words_of_guard};
ghost use Rattle.cap_resolve_spec.specs.Regions.{guard_names as names_of_guards};
ghost use Rattle.cap_resolve_spec.specs.Regions.{region_type_findings};
ghost use Rattle.cap_resolve_terms.specs.Views.{noted_view};
ghost use Rattle.cap_resolve_parts.specs.Views.{declareds_view, words_view};
ghost use Rattle.cap_resolve_tables.specs.Tables.{numbered_view, regions_of, type_view};
ghost use Rattle.cap_resolve_units.specs.Regions.{one_case_part, one_action_part, region_part};

use crate::actions::note_action;
use crate::cases::note_case;
use cap_parse_tree::{Action, Case, Declared, Region, Word};
use cap_resolve_findings::{note_parameters, note_past, note_repeated};
use cap_resolve_parts::{
    atoms_of, comparisons_of, guard_word, placed_items, push_algebra, words_of,
};
use cap_resolve_tables::{Numbered, RegionTable, Typed, Types, scope_of_words, types_told};
use cap_resolve_terms::{Limit, Noted, Scope};
use std::alloc::{AllocError, Global};

fn note_one_case<'t, 'a>(
    noted: &mut Noted<'a>,
    alloc: Global,
    regions: &'t RegionTable<'a>,
    region: Numbered<'t, 'a>,
    own: &'a Word,
    parameters: &[&'a Word],
    scope: &Scope<'a>,
    case: &'a Case,
) -> Result<(), AllocError>
    requires { scope.now ≡ whole_numbers (words_view parameters.now) }
    ensures { OnOk result (noted_view noted.new ≡ fold note (noted_view noted.old)
        (one_case_part (regions_of regions.now) (numbered_view region.entry) own.now
        (words_view parameters.now) (case_view case.now))) }
{
    let parts = placed_items(alloc, &case.assertion)?;
    let when = comparisons_of(alloc, &case.when)?;
    let typed = Typed {
        name: own.text.as_bytes(),
        region,
    };
    let types = types_told(alloc, regions, Some(typed), parts.as_slice())?;
    let around = Types {
        outer: None,
        own: &types,
    };
    let conditions = when.as_slice();
    let items = parts.as_slice();
    let state = &case.state;
    note_case(
        noted, alloc, regions, own, around, parameters, scope, state, conditions, items,
    )?;
    Ok(())
}

fn note_cases<'t, 'a>(
    noted: &mut Noted<'a>,
    alloc: Global,
    regions: &'t RegionTable<'a>,
    region: Numbered<'t, 'a>,
    own: &'a Word,
    parameters: &[&'a Word],
    scope: &Scope<'a>,
    cases: &'a [Case],
) -> Result<(), AllocError>
    requires { scope.now ≡ whole_numbers (words_view parameters.now) }
    ensures { OnOk result (noted_view noted.new ≡ fold note (noted_view noted.old)
        (flat_map (one_case_part (regions_of regions.now) (numbered_view region.entry) own.now
        (words_view parameters.now)) (map case_view cases.now))) }
{
    for case in cases {
        note_one_case(noted, alloc, regions, region, own, parameters, scope, case)?;
    }
    Ok(())
}

fn note_one_action<'a>(
    noted: &mut Noted<'a>,
    alloc: Global,
    region: Numbered<'_, '_>,
    parameters: &[&'a Word],
    scope: &Scope<'a>,
    action: &'a Action,
) -> Result<(), AllocError>
    requires { scope.now ≡ whole_numbers (words_view parameters.now) }
    ensures { OnOk result (noted_view noted.new ≡ fold note (noted_view noted.old)
        (one_action_part (numbered_view region.entry) (words_view parameters.now)
        (action_view action.now))) }
{
    let guards = atoms_of(alloc, &action.guards)?;
    let when = comparisons_of(alloc, &action.when)?;
    let atoms = guards.as_slice();
    let conditions = when.as_slice();
    let source = &action.source;
    let target = &action.target;
    note_action(
        noted, alloc, region, parameters, scope, atoms, source, target, conditions,
    )?;
    Ok(())
}

fn note_actions<'a>(
    noted: &mut Noted<'a>,
    alloc: Global,
    region: Numbered<'_, '_>,
    parameters: &[&'a Word],
    scope: &Scope<'a>,
    actions: &'a [Action],
) -> Result<(), AllocError>
    requires { scope.now ≡ whole_numbers (words_view parameters.now) }
    ensures { OnOk result (noted_view noted.new ≡ fold note (noted_view noted.old)
        (flat_map (one_action_part (numbered_view region.entry) (words_view parameters.now))
        (map action_view actions.now))) }
{
    for action in actions {
        note_one_action(noted, alloc, region, parameters, scope, action)?;
    }
    Ok(())
}

fn words_in_guards<'a>(alloc: Global, guards: &[&'a Declared]) -> Result<Vec<&'a Word>, AllocError>
    ensures { IfOk result (λ words. words_view words.items
        ≡ flat_map words_of_guard (declareds_view guards.now)) }
{
    let mut words = Vec::new(alloc);
    for guard in guards {
        match guard_word(guard) {
            Some(word) => words.push(word)?,
            None => {}
        }
    }
    Ok(words)
}

fn guard_names<'a>(alloc: Global, region: &'a Region) -> Result<Vec<&'a Word>, AllocError>
    ensures { IfOk result (λ words. words_view words.items
        ≡ names_of_guards (region_view region.now)) }
{
    let mut guards = Vec::new(alloc);
    push_algebra(&mut guards, &region.algebra)?;
    words_in_guards(alloc, guards.as_slice())
}

/// Notes guards whose names stand twice, and the one that passes the limit.
fn note_guard_names<'a>(
    noted: &mut Noted<'a>,
    alloc: Global,
    region: &'a Region,
) -> Result<(), AllocError>
    ensures { OnOk result (noted_view noted.new ≡ fold note (noted_view noted.old)
        (map twice_word (repeated (names_of_guards (region_view region.now)))
        ++ past 16 guard_count (names_of_guards (region_view region.now)))) }
{
    let words = guard_names(alloc, region)?;
    note_repeated(noted, alloc, words.as_slice())?;
    note_past(noted, 16, Limit::Guards, words.as_slice());
    Ok(())
}

fn note_region_parts<'t, 'a>(
    noted: &mut Noted<'a>,
    alloc: Global,
    regions: &'t RegionTable<'a>,
    region: Numbered<'t, 'a>,
) -> Result<(), AllocError>
    ensures { OnOk result (noted_view noted.new ≡ fold note (noted_view noted.old)
        (region_part (regions_of regions.now) (numbered_view region.entry))) }
{
    let tree = region.region.tree;
    let words = words_of(alloc, &tree.parameters)?;
    let parameters = words.as_slice();
    note_parameters(noted, alloc, parameters)?;
    note_guard_names(noted, alloc, tree)?;
    let scope = scope_of_words(alloc, parameters)?;
    let own = &tree.parameters.first;
    let cases = tree.cases.parts.as_slice();
    note_cases(
        noted, alloc, regions, region, own, parameters, &scope, cases,
    )?;
    note_actions(
        noted,
        alloc,
        region,
        parameters,
        &scope,
        tree.actions.parts.as_slice(),
    )?;
    Ok(())
}

/// Notes what is wrong in a region type.
pub fn note_region_type<'t, 'a>(
    noted: &mut Noted<'a>,
    alloc: Global,
    regions: &'t RegionTable<'a>,
    region: Numbered<'t, 'a>,
) -> Result<(), AllocError>
    ensures { OnOk result (noted_view noted.new ≡ fold note (noted_view noted.old)
        (region_type_findings (regions_of regions.now) (numbered_view region.entry))) }
{
    note_region_parts(noted, alloc, regions, region)?;
    Ok(())
}
