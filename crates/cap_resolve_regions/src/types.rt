//! All cases and all actions of a region type.
ghost use Rattle.std.specs.Prelude.{◌≡◌, IfOk, map, flat_map, []};
ghost use Rattle.cap_prog.specs.Views.{case_view as case_seen, action_view as action_seen};
ghost use Rattle.cap_parse_tree.specs.Views.{case_view, action_view};
ghost use Rattle.cap_resolve_spec.specs.Regions.{parameters_scope, case_findings, action_findings};
ghost use Rattle.cap_resolve_spec.specs.Program.{case_program, action_program};
ghost use Rattle.cap_resolve_tables.specs.Tables.{regions_of, numbered_view};

use crate::regions::{action_of, case_of};
use cap_parse_tree::{Action as ActionTree, Case as CaseTree};
use cap_prog::{Action, Case};
use cap_resolve_tables::{Numbered, RegionTable};
use cap_resolve_terms::Scope;
use std::alloc::{AllocError, Global};

/// The cases of a region type, of whose parameters this is the scope. Nothing is found in them.
pub fn cases_of<'a>(
    alloc: Global,
    regions: &RegionTable<'a>,
    region: Numbered<'_, 'a>,
    parameters: &Scope<'a>,
    cases: &'a [CaseTree],
) -> Result<Vec<Case>, AllocError>
    requires parameters { parameters.now ≡ parameters_scope (numbered_view region) }
    requires nothing { flat_map (case_findings (regions_of regions.now) (numbered_view region))
        (map case_view cases.now) ≡ [] }
    ensures { IfOk result (λ made. map case_seen made.items
        ≡ map (case_program (regions_of regions.now) (numbered_view region.entry))
        (map case_view cases.now)) }
{
    let mut made = Vec::new(alloc);
    for case in cases {
        made.push(case_of(alloc, regions, region, parameters, case)?)?;
    }
    Ok(made)
}

/// The actions of a region type, of whose parameters this is the scope. Nothing is found in them.
pub(crate) fn actions_of<'a>(
    alloc: Global,
    region: Numbered<'_, 'a>,
    parameters: &Scope<'a>,
    actions: &'a [ActionTree],
) -> Result<Vec<Action>, AllocError>
    requires parameters { parameters.now ≡ parameters_scope (numbered_view region) }
    requires nothing { flat_map (action_findings (numbered_view region))
        (map action_view actions.now) ≡ [] }
    ensures { IfOk result (λ made. map action_seen made.items
        ≡ map (action_program (numbered_view region.entry)) (map action_view actions.now)) }
{
    let mut made = Vec::new(alloc);
    for action in actions {
        made.push(action_of(alloc, region, parameters, action)?)?;
    }
    Ok(made)
}
