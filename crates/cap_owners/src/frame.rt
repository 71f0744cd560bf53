//! Where a frame stands, and what it has there.
ghost use Rattle.std.specs.Prelude.{◌≡◌, IfOk, List, Option, false};
ghost use Rattle.cap_prog.specs.Views.{program_view};
ghost use Rattle.cap_goal_spec.specs.Choices.{PlainTree};
ghost use Rattle.cap_owners_spec.specs.Steps.{frame_walk as walk_of_frame, standing};
ghost use Rattle.cap_owners_values.specs.Views.{Traces};
ghost use Rattle.cap_owners_places.specs.Views.{proved_of, AreRoots};
ghost use Rattle.cap_owners_walks.specs.Views.{halt_view, HaltIsPlaced};
ghost use Rattle.cap_owners.specs.Tracks.{frame_view, FrameIsPlaced};
ghost use Rattle.cap_owners.specs.Standing.{held_at, part_there};

use crate::track::TrackedFrame;
use cap_machine::Event;
use cap_owners_fill::Regions;
use cap_owners_parts::{Part, part_held};
use cap_owners_places::Roots;
use cap_owners_values::TraceError;
use cap_owners_walks::{Halt, beginning, fill_now, walk_frame};
use cap_prog::Program;
use std::alloc::Global;

/// The walk of a frame from its seat: it catches up with the regions, and goes on with these steps.
pub(crate) fn frame_walk<'t, 'a, 'e>(
    alloc: Global,
    program: &Program,
    roots: &Roots<'a>,
    seating: bool,
    regions: &Regions,
    frame: &TrackedFrame<'t, 'a>,
    events: &'e [Event],
) -> Result<Halt<'t, 'a, 'e>, TraceError>
    requires { FrameIsPlaced (program_view program.now) frame.now }
    ensures walked { (ts : List (Option PlainTree)) →
        AreRoots (program_view program.now) ts roots.now → Traces result halt_view
        (walk_of_frame (proved_of (program_view program.now) ts) seating regions.now
        (frame_view frame.now) events.now) }
    ensures placed { IfOk result (HaltIsPlaced (program_view program.now)) }
{
    let fill = fill_now(alloc, program, regions, frame.given.as_ref())?;
    let walk = beginning(alloc, regions, &frame.values, fill, events)?;
    walk_frame(alloc, program, roots, seating, frame.seat, walk)
}

// What the state at the end of a walk holds, by its values.
fn part_at(alloc: Global, program: &Program, halt: &Halt<'_, '_, '_>) -> Result<Part, TraceError>
    ensures { Traces result (λ q. q) (held_at (program_view program.now) (halt_view halt.now)) }
{
    match halt {
        Halt::Leaves(_) => Err(TraceError::Untold),
        Halt::Stands(place, walk) => { part_held(alloc, program, &place.goal.state, &walk.values) }
    }
}

// What a frame's state holds where it stands.
fn part_there<'t, 'a>(
    alloc: Global,
    program: &Program,
    roots: &Roots<'a>,
    regions: &Regions,
    frame: &TrackedFrame<'t, 'a>,
) -> Result<Part, TraceError>
    requires { FrameIsPlaced (program_view program.now) frame.now }
    ensures { (ts : List (Option PlainTree)) → AreRoots (program_view program.now) ts roots.now →
        Traces result (λ q. q) (part_there (proved_of (program_view program.now) ts) regions.now
        (frame_view frame.now)) }
{
    let halt = frame_walk(alloc, program, roots, false, regions, frame, &frame.since)?;
    part_at(alloc, program, &halt)
}

/// The frame where it stands, with what its state holds there.
pub(crate) fn standing_frame<'t, 'a>(
    alloc: Global,
    program: &Program,
    roots: &Roots<'a>,
    regions: &Regions,
    frame: TrackedFrame<'t, 'a>,
) -> Result<TrackedFrame<'t, 'a>, TraceError>
    requires { FrameIsPlaced (program_view program.now) frame }
    ensures stands { (ts : List (Option PlainTree)) →
        AreRoots (program_view program.now) ts roots.now → Traces result frame_view
        (standing (proved_of (program_view program.now) ts) regions.now
        (frame_view frame.entry)) }
    ensures placed { IfOk result (FrameIsPlaced (program_view program.now)) }
{
    let part = part_there(alloc, program, roots, regions, &frame)?;
    let mut frame = frame;
    frame.part = part;
    Ok(frame)
}
