//! Cases and actions, from the names that they know.
ghost use Rattle.std.specs.Prelude.{◌≡◌, ◌++◌, IfOk, map, option_map};
ghost use Rattle.std.specs.List.{AllByRecursion};
ghost use Rattle.cap_prog.specs.Views.{case_view as case_seen, action_view as action_seen};
ghost use Rattle.cap_prog.specs.Views.{items_view};
ghost use Rattle.cap_parse_tree.specs.Tree.{parts_of};
ghost use Rattle.cap_parse_tree.specs.Views.{case_view, action_view, term_view, when_view, guard_view};
ghost use Rattle.cap_parse_tree.specs.Views.{assertion_view, several_view};
ghost use Rattle.cap_resolve_spec.specs.Linear.{term_form};
ghost use Rattle.cap_resolve_spec.specs.Parts.{term_place as place_of, atom_place as place_of_atom};
ghost use Rattle.cap_resolve_spec.specs.Parts.{when_comparisons};
ghost use Rattle.cap_resolve_spec.specs.Program.{occurrence_sorts, comparison_program, action_guard};
ghost use Rattle.cap_resolve_tables.specs.Tables.{numbered_view, regions_of, types_of};
ghost use Rattle.cap_resolve_regions.specs.Cases.{case_built, action_built};
ghost use Rattle.cap_resolve_regions.specs.Cases.{IsNarrowCase, IsNarrowAction};
ghost use Rattle.cap_resolve_tables.specs.Views.{occurrences_view};
ghost use Rattle.cap_resolve_functions.specs.Views.{assertion_read};
ghost use Rattle.cap_resolve_functions.specs.Narrow.{IsNarrowGuard, IsNarrowAssertion};

use cap_parse_tree::{
    Action as ActionTree, Assertion as AssertionTree, Case as CaseTree, GuardAtom, Separated,
};
use cap_prog::{Action, Asked, Assertion, Case};
use cap_resolve_functions::{
    Reading, build_asked, build_comparisons, build_sorts, build_term, push_items,
};
use cap_resolve_parts::{atom_place, atom_word, term_place};
use cap_resolve_tables::{Numbered, Occurrence};
use cap_resolve_terms::Scope;
use std::alloc::{AllocError, Global};

fn case_items(
    alloc: Global,
    reading: &Reading<'_, '_, '_>,
    assertion: &AssertionTree,
) -> Result<Assertion, AllocError>
    requires { IsNarrowAssertion reading.now.scope.now (assertion_view assertion.now) }
    ensures { IfOk result
        (λ a. items_view a ≡ assertion_read reading.now (assertion_view assertion.now)) }
{
    let mut items = Vec::new(alloc);
    push_items(alloc, assertion, reading, &mut items)?;
    Ok(Assertion {
        names: Vec::new(alloc),
        items,
    })
}

/// The case of a tree, whose names these are, in the scope that it knows.
pub(crate) fn build_case(
    alloc: Global,
    reading: &Reading<'_, '_, '_>,
    known: &[Occurrence<'_>],
    case: &CaseTree,
) -> Result<Case, AllocError>
    requires { IsNarrowCase reading.now.scope.now (case_view case.now) }
    ensures { IfOk result (λ c. case_seen c ≡ case_built (regions_of reading.now.regions.now)
        (types_of reading.now.types) reading.now.scope.now (occurrences_view known.now)
        (case_view case.now)) }
{
    let names = build_sorts(alloc, known)?;
    let state = build_term(alloc, reading.scope, &case.state)?;
    let when = build_comparisons(alloc, reading.scope, &case.when)?;
    let items = case_items(alloc, reading, &case.assertion)?;
    Ok(Case {
        names,
        state,
        when,
        items,
        place: term_place(&case.state),
    })
}

fn build_guard(
    alloc: Global,
    scope: &Scope<'_>,
    region: Numbered<'_, '_>,
    guard: &GuardAtom,
) -> Result<(u32, Asked), AllocError>
    requires { IsNarrowGuard scope.now (guard_view guard.now) }
    ensures { IfOk result
        (λ g. g ≡ action_guard (numbered_view region.entry) scope.now (guard_view guard.now)) }
{
    let number = region.region.guard_number(atom_word(guard).text.as_bytes());
    let asked = build_asked(alloc, scope, guard)?;
    Ok((number, asked))
}

fn build_guards(
    alloc: Global,
    scope: &Scope<'_>,
    region: Numbered<'_, '_>,
    guards: &Separated<GuardAtom>,
) -> Result<Vec<(u32, Asked)>, AllocError>
    requires { AllByRecursion (IsNarrowGuard scope.now)
        (parts_of (several_view guard_view guards.now)) }
    ensures { IfOk result (λ made. made.items
        ≡ map (action_guard (numbered_view region.entry) scope.now)
        (parts_of (several_view guard_view guards.now))) }
{
    let mut made = Vec::new(alloc);
    made.push(build_guard(alloc, scope, region, &guards.first)?)?;
    for part in &guards.more {
        made.push(build_guard(alloc, scope, region, &part.1)?)?;
    }
    Ok(made)
}

/// The action of a tree, whose names these are, in the scope that it knows.
pub(crate) fn build_action(
    alloc: Global,
    scope: &Scope<'_>,
    region: Numbered<'_, '_>,
    known: &[Occurrence<'_>],
    action: &ActionTree,
) -> Result<Action, AllocError>
    requires { IsNarrowAction scope.now (action_view action.now) }
    ensures { IfOk result (λ a. action_seen a ≡ action_built (numbered_view region.entry)
        scope.now (occurrences_view known.now) (action_view action.now)) }
{
    let names = build_sorts(alloc, known)?;
    let guards = build_guards(alloc, scope, region, &action.guards)?;
    let source = build_term(alloc, scope, &action.source)?;
    let target = build_term(alloc, scope, &action.target)?;
    let when = build_comparisons(alloc, scope, &action.when)?;
    Ok(Action {
        names,
        guards,
        source,
        target,
        when,
        place: atom_place(&action.guards.first),
    })
}
