//! Walks in trees without statements.
ghost use Rattle.std.specs.Prelude.{false};
ghost use Rattle.cap_prog.specs.Views.{program_view};
ghost use Rattle.cap_owners_spec.specs.Steps.{none_entered};
ghost use Rattle.cap_owners_spec.specs.Walks.{descends, walk_from};
ghost use Rattle.cap_owners_values.specs.Views.{Traces};
ghost use Rattle.cap_owners_places.specs.Views.{place_view, placed_view, IsPlaced};
ghost use Rattle.cap_owners_walks.specs.Nodes.{pass_node};
ghost use Rattle.cap_owners_walks.specs.Views.{end_view, halt_view};

use crate::halt::Halt;
use crate::node::{child_at, entered_fact, stops};
use crate::opened::opened_at;
use cap_owners_passes::{Walk, pass_task};
use cap_owners_places::Placed;
use cap_owners_values::TraceError;
use cap_prog::Program;
use std::alloc::Global;

// A node is passed, unless it enters a region.
fn pass_quiet(
    alloc: Global,
    program: &Program,
    place: &Placed<'_>,
    walk: &mut Walk<'_>,
) -> Result<Option<usize>, TraceError>
    ensures { Traces result (λ i. descends i walk.new)
        (pass_node none_entered (program_view program.now) (placed_view place.now) walk.old) }
{
    let goal = &place.goal;
    match entered_fact(place.choice, &goal.tasks) {
        None => pass_task(alloc, program, &goal.state, place.choice, &goal.tasks, walk),
        Some(fact) => {
            opened_at(program, &goal.state, fact, &walk.values)?;
            Err(TraceError::Untold)
        }
    }
}

// A walk goes down from a node: to where it stands, or to the end of the tree.
fn descend<'t, 'a>(
    alloc: Global,
    program: &Program,
    place: &'t Placed<'a>,
    walk: &mut Walk<'_>,
) -> Result<Option<&'t Placed<'a>>, TraceError>
    ensures { IsPlaced (program_view program.now) place.now →
        Traces result (λ o. end_view o walk.new) (walk_from none_entered (program_view program.now)
        false (place_view place.now) walk.old) }
{
    let mut next = Some(place);
    while let Some(here) = next {
        if stops(false, here, walk) {
            break;
        }
        let child = pass_quiet(alloc, program, here, walk)?;
        next = child_at(here, child);
    }
    Ok(next)
}

/// A walk from a node on in a tree without statements, in which no region is entered. `PastWidth`
/// and `Untold` come as the definition says.
pub(crate) fn walk_quiet<'t, 'a, 'e>(
    alloc: Global,
    program: &Program,
    place: &'t Placed<'a>,
    mut walk: Walk<'e>,
) -> Result<Halt<'t, 'a, 'e>, TraceError>
    ensures { IsPlaced (program_view program.now) place.now →
        Traces result halt_view (walk_from none_entered (program_view program.now) false
        (place_view place.now) walk.entry) }
{
    let end = descend(alloc, program, place, &mut walk)?;
    Ok(Halt::at(end, walk))
}
