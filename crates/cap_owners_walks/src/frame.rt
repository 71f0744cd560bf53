//! Walks of frames.
ghost use Rattle.std.specs.Prelude.{IfOk, IfSome, List, Option};
ghost use Rattle.cap_prog.specs.Views.{program_view};
ghost use Rattle.cap_goal_spec.specs.Choices.{PlainTree};
ghost use Rattle.cap_owners_spec.specs.Steps.{interpreted as interpreted_by};
ghost use Rattle.cap_owners_spec.specs.Walks.{descends, pass_enter, walk_from};
ghost use Rattle.cap_owners_values.specs.Views.{Traces};
ghost use Rattle.cap_owners_places.specs.Views.{place_view, placed_view, proved_of};
ghost use Rattle.cap_owners_places.specs.Views.{AreRoots, IsPlaced};
ghost use Rattle.cap_owners_walks.specs.Nodes.{enter_opened, pass_node};
ghost use Rattle.cap_owners_walks.specs.Views.{end_view, halt_view, opened_view, HaltIsPlaced};

use crate::halt::Halt;
use crate::node::{child_at, entered_fact, stops};
use crate::opened::{Opened, enter, opened_at};
use crate::regions::interpret_at;
use cap_goal::State;
use cap_owners_passes::{Walk, pass_task};
use cap_owners_places::{Placed, Roots};
use cap_owners_values::TraceError;
use cap_prog::Program;
use std::alloc::Global;

// A region is entered, in the case in which it is by now.
fn enter_opened(
    alloc: Global,
    program: &Program,
    roots: &Roots<'_>,
    opened: Opened,
    walk: &mut Walk<'_>,
) -> Result<Option<usize>, TraceError>
    ensures { (ts : List (Option PlainTree)) → AreRoots (program_view program.now) ts roots.now →
        Traces result (λ i. descends i walk.new)
        (enter_opened (interpreted_by (proved_of (program_view program.now) ts)) walk.old
        (opened_view opened)) }
{
    let region = interpret_at(alloc, program, roots, &walk.regions, opened)?;
    Ok(enter(alloc, opened.params, region, walk)?)
}

// The region of a fact is entered.
fn enter_region(
    alloc: Global,
    program: &Program,
    roots: &Roots<'_>,
    state: &State,
    fact: u32,
    walk: &mut Walk<'_>,
) -> Result<Option<usize>, TraceError>
    ensures { (ts : List (Option PlainTree)) → AreRoots (program_view program.now) ts roots.now →
        Traces result (λ i. descends i walk.new)
        (pass_enter (interpreted_by (proved_of (program_view program.now) ts))
        (program_view program.now) state.now fact walk.old) }
{
    let opened = opened_at(program, state, fact, &walk.values)?;
    enter_opened(alloc, program, roots, opened, walk)
}

// A node is passed.
fn pass_node(
    alloc: Global,
    program: &Program,
    roots: &Roots<'_>,
    place: &Placed<'_>,
    walk: &mut Walk<'_>,
) -> Result<Option<usize>, TraceError>
    ensures { (ts : List (Option PlainTree)) → AreRoots (program_view program.now) ts roots.now →
        Traces result (λ i. descends i walk.new)
        (pass_node (interpreted_by (proved_of (program_view program.now) ts))
        (program_view program.now) (placed_view place.now) walk.old) }
{
    let goal = &place.goal;
    match entered_fact(place.choice, &goal.tasks) {
        None => pass_task(alloc, program, &goal.state, place.choice, &goal.tasks, walk),
        Some(fact) => enter_region(alloc, program, roots, &goal.state, fact, walk),
    }
}

// A walk goes down from a node: to where it stands, or to the end of the tree.
fn descend<'t, 'a>(
    alloc: Global,
    program: &Program,
    roots: &Roots<'_>,
    seating: bool,
    place: &'t Placed<'a>,
    walk: &mut Walk<'_>,
) -> Result<Option<&'t Placed<'a>>, TraceError>
    requires { IsPlaced (program_view program.now) place.now }
    ensures walked { (ts : List (Option PlainTree)) →
        AreRoots (program_view program.now) ts roots.now →
        let d = proved_of (program_view program.now) ts in
        Traces result (λ o. end_view o walk.new) (walk_from (interpreted_by d) d.program seating
        (place_view place.now) walk.old) }
    ensures placed { IfOk result
        (λ o. IfSome o (λ q. IsPlaced (program_view program.now) q.now)) }
{
    let mut next = Some(place);
    while let Some(here) = next {
        if stops(seating, here, walk) {
            break;
        }
        let child = pass_node(alloc, program, roots, here, walk)?;
        next = child_at(here, child);
    }
    Ok(next)
}

/// A walk from a node on, in which regions are entered in the cases in which they are by now; a
/// walk to a seat stops before facts are settled. `PastWidth` and `Untold` come as the definition
/// says.
pub fn walk_frame<'t, 'a, 'e>(
    alloc: Global,
    program: &Program,
    roots: &Roots<'_>,
    seating: bool,
    place: &'t Placed<'a>,
    mut walk: Walk<'e>,
) -> Result<Halt<'t, 'a, 'e>, TraceError>
    requires { IsPlaced (program_view program.now) place.now }
    ensures walked { (ts : List (Option PlainTree)) →
        AreRoots (program_view program.now) ts roots.now →
        let d = proved_of (program_view program.now) ts in
        Traces result halt_view (walk_from (interpreted_by d) d.program seating
        (place_view place.now) walk.entry) }
    ensures placed { IfOk result (HaltIsPlaced (program_view program.now)) }
{
    let end = descend(alloc, program, roots, seating, place, &mut walk)?;
    Ok(Halt::at(end, walk))
}
