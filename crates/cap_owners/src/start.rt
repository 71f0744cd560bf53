//! The first track of a run.
ghost use Rattle.std.specs.Prelude.{◌≡◌, IfOk, List, Option, option_map};
ghost use Rattle.std.specs.FinMap.{from_entries};
ghost use Rattle.cap_prog.specs.Program.{PlainProgram};
ghost use Rattle.cap_prog.specs.Views.{function_view, program_view};
ghost use Rattle.cap_goal_spec.specs.Choices.{PlainTree};
ghost use Rattle.cap_owners_spec.specs.Start.{first_track as first_track_of, main_track};
ghost use Rattle.cap_owners_values.specs.Views.{Traces};
ghost use Rattle.cap_owners_places.specs.Views.{proved_of, AreRoots};
ghost use Rattle.cap_owners.specs.Starting.{begun_in};
ghost use Rattle.cap_owners.specs.Tracks.{frame_view, track_view, AreRootsOf, FrameIsPlaced};
ghost use Rattle.cap_owners.specs.Tracks.{SomeTrackIsPlaced, TrackIsPlaced};

use crate::beginning::enters;
use crate::track::{Track, TrackedFrame};
use cap_owners_fill::Regions;
use cap_owners_parts::Part;
use cap_owners_places::Roots;
use cap_owners_start::meet_requires;
use cap_owners_values::TraceError;
use cap_prog::{Function, Program};
use std::alloc::{AllocError, Global};

// The track of the frame of `main` alone, which has the whole heap.
fn main_track<'t, 'a>(
    alloc: Global,
    frame: TrackedFrame<'t, 'a>,
    heap: &[(i128, i128)],
) -> Result<Track<'t, 'a>, AllocError>
    ensures begins { IfOk result
        (λ k. track_view k ≡ main_track (from_entries heap.now) (frame_view frame.entry)) }
    ensures placed { (p : PlainProgram) → FrameIsPlaced p frame.entry →
        IfOk result (TrackIsPlaced p) }
{
    let mut frame = frame;
    frame.part = Part::of_cells(alloc, heap)?;
    let mut frames = Vec::new(alloc);
    frames.push(frame)?;
    let mut threads = Vec::new(alloc);
    threads.push(frames)?;
    Ok(Track {
        regions: Regions::new(alloc),
        threads,
    })
}

// The first track of a run of a function, which has this number.
fn begin<'t, 'a>(
    alloc: Global,
    roots: &'t Roots<'a>,
    number: u32,
    function: &Function,
    args: &[i128],
    heap: &[(i128, i128)],
) -> Result<Option<Track<'t, 'a>>, TraceError>
    ensures begins { (p : PlainProgram) (ts : List (Option PlainTree)) →
        AreRoots p ts roots.now → Traces result (option_map track_view)
        (begun_in (proved_of p ts) number (function_view function.now) args.now
        (from_entries heap.now)) }
    ensures placed { (p : PlainProgram) (ts : List (Option PlainTree)) →
        AreRoots p ts roots.now → IfOk result (SomeTrackIsPlaced p) }
{
    match meet_requires(alloc, function, args, heap)? {
        None => Ok(None),
        Some(fill) => {
            let frame = enters(alloc, roots, number, function, args, fill)?;
            Ok(Some(main_track(alloc, frame, heap)?))
        }
    }
}

/// The first track of a run of `main` at these arguments and this heap, and `None` where they don't
/// meet what it requires. `PastWidth` and `Untold` come as the definition says.
pub(crate) fn first_track<'t, 'a>(
    alloc: Global,
    program: &Program,
    roots: &'t Roots<'a>,
    args: &[i128],
    heap: &[(i128, i128)],
) -> Result<Option<Track<'t, 'a>>, TraceError>
    requires roots { AreRootsOf (program_view program.now) roots.now }
    ensures starts { (ts : List (Option PlainTree)) →
        AreRoots (program_view program.now) ts roots.now → Traces result (option_map track_view)
        (first_track_of (proved_of (program_view program.now) ts) args.now
        (from_entries heap.now)) }
    ensures placed { IfOk result (SomeTrackIsPlaced (program_view program.now)) }
{
    let main = program.main();
    match program.functions().get(main as usize) {
        None => Err(TraceError::Untold),
        Some(function) => begin(alloc, roots, main, function, args, heap),
    }
}
