//! A case and an action of a region type.
ghost use Rattle.std.specs.Prelude.{◌≡◌, IfOk, Some, []};
ghost use Rattle.cap_prog.specs.Views.{case_view as case_seen, action_view as action_seen};
ghost use Rattle.cap_parse_tree.specs.Views.{case_view, action_view};
ghost use Rattle.cap_resolve_spec.specs.Regions.{parameters_scope, case_findings, action_findings};
ghost use Rattle.cap_resolve_spec.specs.Program.{case_program, action_program};
ghost use Rattle.cap_resolve_tables.specs.Tables.{regions_of, numbered_view};

use crate::cases::{build_action, build_case};
use crate::known::{names_of_action, names_of_case};
use cap_parse_tree::{Action as ActionTree, Case as CaseTree};
use cap_prog::{Action, Case};
use cap_resolve_functions::Reading;
use cap_resolve_parts::placed_items;
use cap_resolve_scopes::scope_with;
use cap_resolve_tables::{Numbered, RegionTable, Typed, Types, types_told};
use cap_resolve_terms::Scope;
use std::alloc::{AllocError, Global};

/// The action of a region type, of whose parameters this is the scope. Nothing is found in it.
pub(crate) fn action_of<'a>(
    alloc: Global,
    region: Numbered<'_, 'a>,
    parameters: &Scope<'a>,
    action: &'a ActionTree,
) -> Result<Action, AllocError>
    requires parameters { parameters.now ≡ parameters_scope (numbered_view region) }
    requires nothing { action_findings (numbered_view region) (action_view action.now) ≡ [] }
    ensures { IfOk result
        (λ a. action_seen a ≡ action_program (numbered_view region.entry) (action_view action.now)) }
{
    let names = names_of_action(alloc, parameters, region, action)?;
    let known = names.as_slice();
    let scope = scope_with(alloc, parameters, known)?;
    build_action(alloc, &scope, region, known, action)
}

/// The case of a region type, of whose parameters this is the scope. Nothing is found in it.
pub(crate) fn case_of<'a>(
    alloc: Global,
    regions: &RegionTable<'a>,
    region: Numbered<'_, 'a>,
    parameters: &Scope<'a>,
    case: &'a CaseTree,
) -> Result<Case, AllocError>
    requires parameters { parameters.now ≡ parameters_scope (numbered_view region) }
    requires nothing { case_findings (regions_of regions.now) (numbered_view region)
        (case_view case.now) ≡ [] }
    ensures { IfOk result (λ c. case_seen c
        ≡ case_program (regions_of regions.now) (numbered_view region.entry) (case_view case.now)) }
{
    let placed = placed_items(alloc, &case.assertion)?;
    let parts = placed.as_slice();
    let own = Typed {
        name: region.region.tree.parameters.first.text.as_bytes(),
        region,
    };
    let told = types_told(alloc, regions, Some(own), parts)?;
    let types = Types {
        outer: None,
        own: &told,
    };
    let names = names_of_case(alloc, parameters, types, parts, case)?;
    let known = names.as_slice();
    let scope = scope_with(alloc, parameters, known)?;
    let reading = Reading {
        regions,
        types,
        scope: &scope,
    };
    build_case(alloc, &reading, known, case)
}
