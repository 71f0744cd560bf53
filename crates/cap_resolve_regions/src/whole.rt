//! A whole region type.
ghost use Rattle.std.specs.Prelude.{◌≡◌, ◌≤◌, IfOk, map, length, []};
ghost use Rattle.cap_galg.specs.Views.{algebra_view as algebra_seen};
ghost use Rattle.cap_prog.specs.Views.{case_view as case_seen, action_view as action_seen};
ghost use Rattle.cap_prog.specs.Views.{region_view as seen};
ghost use Rattle.cap_prog.specs.WellFormed.{most_params};
ghost use Rattle.cap_parse_tree.specs.Tree.{parts_of};
ghost use Rattle.cap_parse_tree.specs.Views.{region_view, several_view, word_view};
ghost use Rattle.cap_resolve_spec.specs.Names.{word_text};
ghost use Rattle.cap_resolve_spec.specs.Regions.{guard_names, region_type_findings};
ghost use Rattle.cap_resolve_spec.specs.Program.{algebra_program, region_program};
ghost use Rattle.cap_resolve_tables.specs.Tables.{regions_of, numbered_view};

use crate::types::{actions_of, cases_of};
use cap_parse_tree::Region;
use cap_prog::{Action, Case, RegionType};
use cap_resolve_functions::{build_algebra, build_guard_names};
use cap_resolve_parts::{word_count, words_of};
use cap_resolve_tables::{Numbered, RegionTable, scope_of_words};
use std::alloc::{AllocError, Global};

fn build_type(
    alloc: Global,
    tree: &Region,
    cases: Vec<Case>,
    actions: Vec<Action>,
) -> Result<RegionType, AllocError>
    requires { length (parts_of (region_view tree.now).parameters) ≤ most_params }
    ensures { IfOk result (λ r. seen r ≡ record {
      name = (region_view tree.now).name.text;
      params = length (parts_of (region_view tree.now).parameters);
      algebra = algebra_program (region_view tree.now).algebra;
      atoms = map word_text (guard_names (region_view tree.now));
      cases = map case_seen cases.items;
      actions = map action_seen actions.items;
      place = (region_view tree.now).key;
    }) }
{
    let name = tree.name.text.copy()?;
    let params = word_count(&tree.parameters) as u32;
    let algebra = build_algebra(alloc, &tree.algebra)?;
    let atoms = build_guard_names(alloc, tree)?;
    Ok(RegionType {
        name,
        params,
        algebra,
        atoms,
        cases,
        actions,
        place: tree.key,
    })
}

/// The region type of a tree, in which nothing is found.
pub fn build_region<'a>(
    alloc: Global,
    regions: &RegionTable<'a>,
    region: Numbered<'_, 'a>,
) -> Result<RegionType, AllocError>
    requires { region_type_findings (regions_of regions.now) (numbered_view region) ≡ [] }
    ensures { IfOk result (λ r. seen r
        ≡ region_program (regions_of regions.now) (numbered_view region.entry)) }
{
    let tree = region.region.tree;
    let words = words_of(alloc, &tree.parameters)?;
    let parameters = scope_of_words(alloc, words.as_slice())?;
    let cases = cases_of(
        alloc,
        regions,
        region,
        &parameters,
        tree.cases.parts.as_slice(),
    )?;
    let actions = actions_of(alloc, region, &parameters, tree.actions.parts.as_slice())?;
    build_type(alloc, tree, cases, actions)
}
