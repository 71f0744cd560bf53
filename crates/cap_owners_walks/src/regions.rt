//! By what regions own what is theirs by now.
ghost use Rattle.std.specs.Prelude.{◌≡◌, IfOk, List, Option};
ghost use Rattle.cap_prog.specs.Views.{program_view};
ghost use Rattle.cap_goal_spec.specs.Choices.{PlainTree};
ghost use Rattle.cap_owners_spec.specs.Steps.{as_closed, closed_in_end};
ghost use Rattle.cap_owners_spec.specs.Steps.{interpreted as interpreted_by, interpreted_again};
ghost use Rattle.cap_owners_values.specs.Views.{Traces};
ghost use Rattle.cap_owners_places.specs.Views.{place_view, proved_of, AreRoots, IsPlaced};
ghost use Rattle.cap_owners_walks.specs.Nodes.{case_walked, closed_at, interpreted_at};
ghost use Rattle.cap_owners_walks.specs.Views.{halt_view, interpreted_view, opened_view};

use crate::begin::beginning;
use crate::halt::Halt;
use crate::opened::Opened;
use crate::quiet::walk_quiet;
use cap_goal::Unit;
use cap_owners_fill::{Fill, Regions, TrackedRegion};
use cap_owners_places::{Placed, Roots};
use cap_owners_values::TraceError;
use cap_prog::Program;
use std::alloc::{AllocError, Global};

/// The case in which a region is by now, and by what its assertion is met.
#[derive(Drop)]
pub(crate) struct Interpreted {
    pub case: u32,
    pub fill: Fill,
}

// The case and what it was by which a region was closed.
fn as_closed(alloc: Global, region: &TrackedRegion) -> Result<Interpreted, AllocError>
    ensures { IfOk result (λ x. interpreted_view x ≡ as_closed region.now) }
{
    Ok(Interpreted {
        case: region.case,
        fill: region.fill.copy(alloc)?,
    })
}

// The same of the region of this number.
fn closed_at(alloc: Global, regions: &Regions, number: i128) -> Result<Interpreted, TraceError>
    ensures { Traces result interpreted_view (closed_at regions.now number) }
{
    match regions.at(number) {
        None => Err(TraceError::Untold),
        Some(region) => Ok(as_closed(alloc, region)?),
    }
}

// So it is for the region of this number, where a walk has gone to the end of the tree of its case.
fn closed_in_end(
    alloc: Global,
    number: i128,
    halt: Halt<'_, '_, '_>,
) -> Result<Interpreted, TraceError>
    ensures { Traces result interpreted_view (closed_in_end number (halt_view halt.entry)) }
{
    match halt {
        Halt::Stands(_, _) => Err(TraceError::Untold),
        Halt::Leaves(walk) => closed_at(alloc, &walk.regions, number),
    }
}

// As the walk from the root of the region's case on says.
fn case_walked(
    alloc: Global,
    program: &Program,
    regions: &Regions,
    region: &TrackedRegion,
    place: &Placed<'_>,
) -> Result<Interpreted, TraceError>
    ensures { IsPlaced (program_view program.now) place.now →
        Traces result interpreted_view (case_walked (program_view program.now) regions.now
        region.now (place_view place.now)) }
{
    let fill = region.fill.copy(alloc)?;
    let walk = beginning(alloc, regions, &region.fill.names, Some(fill), &[])?;
    let halt = walk_quiet(alloc, program, place, walk)?;
    closed_in_end(alloc, region.number, halt)
}

// As the tree of the region's case says.
fn interpreted_again(
    alloc: Global,
    program: &Program,
    roots: &Roots<'_>,
    regions: &Regions,
    region: &TrackedRegion,
) -> Result<Interpreted, TraceError>
    ensures { (ts : List (Option PlainTree)) → AreRoots (program_view program.now) ts roots.now →
        Traces result interpreted_view (interpreted_again
        (proved_of (program_view program.now) ts) regions.now region.now) }
{
    match roots.at(Unit::Region(region.kind), region.case as usize) {
        None => Err(TraceError::Untold),
        Some(place) => case_walked(alloc, program, regions, region, place),
    }
}

// The case and what it was by which a region owns its part: as it was closed, where the regions of
// its facts are in the same states, and else as the walk through the tree of its case says.
fn interpret(
    alloc: Global,
    program: &Program,
    roots: &Roots<'_>,
    regions: &Regions,
    region: &TrackedRegion,
) -> Result<Interpreted, TraceError>
    ensures { (ts : List (Option PlainTree)) → AreRoots (program_view program.now) ts roots.now →
        Traces result interpreted_view (interpreted_by (proved_of (program_view program.now) ts)
        regions.now region.now) }
{
    if regions.is_current(&region.fill) {
        return Ok(as_closed(alloc, region)?);
    }
    interpreted_again(alloc, program, roots, regions, region)
}

/// The case in which a region that is opened is by now, and by what its assertion is met: as it was
/// closed, where the regions of its facts are in the same states, and else as the walk through the
/// tree of its case says. `PastWidth` and `Untold` come as the definition says.
pub(crate) fn interpret_at(
    alloc: Global,
    program: &Program,
    roots: &Roots<'_>,
    regions: &Regions,
    opened: Opened,
) -> Result<Interpreted, TraceError>
    ensures { (ts : List (Option PlainTree)) → AreRoots (program_view program.now) ts roots.now →
        Traces result interpreted_view (interpreted_at
        (interpreted_by (proved_of (program_view program.now) ts)) regions.now
        (opened_view opened).number) }
{
    match regions.at(opened.number) {
        None => Err(TraceError::Untold),
        Some(region) => interpret(alloc, program, roots, regions, region),
    }
}
