//! What a step makes of the frames of its thread.
ghost use Rattle.std.specs.Prelude.{◌≡◌, suc, IfOk, List, Option, reverse};
ghost use Rattle.cap_prog.specs.Program.{PlainProgram};
ghost use Rattle.cap_prog.specs.Views.{program_view};
ghost use Rattle.cap_goal_spec.specs.Choices.{PlainTree};
ghost use Rattle.cap_machine.specs.Machine as machine;
ghost use Rattle.cap_owners_spec.specs.Steps.{callee_of, invariant_root, keeping};
ghost use Rattle.cap_owners_spec.specs.Steps.{looping as looping_at, Proved};
ghost use Rattle.cap_owners_spec.specs.Track as plain;
ghost use Rattle.cap_owners_values.specs.Views.{Traces};
ghost use Rattle.cap_owners_places.specs.Views.{proved_of, AreRoots};
ghost use Rattle.cap_owners_walks.specs.Views.{halt_view};
ghost use Rattle.cap_owners.specs.Tracks.{frame_view, frames_view, lent_frame, FrameIsPlaced};
ghost use Rattle.cap_owners.specs.Tracks.{AreRootsOf, FramesArePlaced, Sees};
ghost use Rattle.cap_owners.specs.Moves.{branches_on, caller_stands, calls_on, ending_at};
ghost use Rattle.cap_owners.specs.Moves.{ending_view, forks_on, gives_over, handed_view};
ghost use Rattle.cap_owners.specs.Moves.{has_result, keeps_at, keeps_on, last_met, loops_on};
ghost use Rattle.cap_owners.specs.Moves.{moved_view, next_seat, returns_on, seated_view, sits_on};
ghost use Rattle.cap_owners.specs.Moves.{stands_on, HandedIsPlaced, MovedIsPlaced};

use crate::beginning::{ENSURES_ROOT, Opening, begins, enters};
use crate::frame::{frame_walk, standing_frame};
use crate::loops::loop_number;
use crate::step::Stepping;
use crate::track::TrackedFrame;
use cap_goal::Unit;
use cap_machine::{Event, Frame};
use cap_owners_fill::{Fill, Regions};
use cap_owners_parts::put_cells;
use cap_owners_passes::{Taking, Walk};
use cap_owners_places::Roots;
use cap_owners_values::{TraceError, Value, Values};
use cap_owners_walks::{GivenAssertion, Halt};
use cap_prog::Program;
use std::alloc::{AllocError, Global};

/// The frames of the stepping thread, the top one last, that of a new thread, and the regions.
#[derive(Drop)]
pub(crate) struct Moved<'t, 'a> {
    pub frames: Vec<TrackedFrame<'t, 'a>>,
    pub forked: Option<TrackedFrame<'t, 'a>>,
    pub regions: Regions,
}

/// Of a call or a fork: the caller, and the callee with what was taken.
#[derive(Drop)]
pub(crate) struct Handed<'t, 'a> {
    pub caller: TrackedFrame<'t, 'a>,
    pub callee: TrackedFrame<'t, 'a>,
    pub regions: Regions,
}

// A frame at the seat to which a walk came, the regions there, and what is taken.
#[derive(Drop)]
struct Seated<'t, 'a> {
    frame: TrackedFrame<'t, 'a>,
    regions: Regions,
    taken: Vec<Taking>,
}

// By what the last assertion is met at the end of a tree, and the regions there.
#[derive(Drop)]
struct Ending {
    fill: Fill,
    regions: Regions,
}

// The walk of a frame to its next seat, by the steps that it noted.
fn seat<'t, 'a>(
    alloc: Global,
    program: &Program,
    roots: &Roots<'a>,
    regions: &Regions,
    top: TrackedFrame<'t, 'a>,
) -> Result<Seated<'t, 'a>, TraceError>
    requires { FrameIsPlaced (program_view program.now) top }
    ensures seated { (ts : List (Option PlainTree)) →
        AreRoots (program_view program.now) ts roots.now → Traces result seated_view
        (next_seat (proved_of (program_view program.now) ts) regions.now (frame_view top.entry)) }
    ensures placed { IfOk result (λ s. FrameIsPlaced (program_view program.now) s.frame) }
{
    let events = Vec::from_slice(alloc, &top.since)?;
    let halt = frame_walk(alloc, program, roots, true, regions, &top, &events)?;
    match halt {
        Halt::Leaves(_) => Err(TraceError::Untold),
        Halt::Stands(seat, walk) => {
            let Walk {
                values,
                regions,
                taken,
                awaited,
                ..
            } = walk;
            let TrackedFrame { part, fixed, .. } = top;
            Ok(Seated {
                frame: TrackedFrame {
                    part,
                    fixed,
                    seat,
                    values,
                    given: None,
                    since: Vec::new(alloc),
                    awaited,
                },
                regions,
                taken,
            })
        }
    }
}

// The frame where it stands, on those below it.
fn stand_on<'t, 'a>(
    alloc: Global,
    program: &Program,
    roots: &Roots<'a>,
    regions: Regions,
    top: TrackedFrame<'t, 'a>,
    below: Vec<TrackedFrame<'t, 'a>>,
) -> Result<Moved<'t, 'a>, TraceError>
    requires top { FrameIsPlaced (program_view program.now) top }
    requires below { FramesArePlaced (program_view program.now) below.items }
    ensures stands { (ts : List (Option PlainTree)) →
        AreRoots (program_view program.now) ts roots.now → Traces result moved_view
        (stands_on (proved_of (program_view program.now) ts) regions
        (frame_view top.entry) (frames_view below.entry.items)) }
    ensures placed { IfOk result (MovedIsPlaced (program_view program.now)) }
{
    let frame = standing_frame(alloc, program, roots, &regions, top)?;
    let mut frames = below;
    frames.push(frame)?;
    Ok(Moved {
        frames,
        forked: None,
        regions,
    })
}

// A frame keeps what it had, with the cells of the state at the end of its walk.
fn keep<'t, 'a>(
    frame: TrackedFrame<'t, 'a>,
    halt: &Halt<'_, '_, '_>,
) -> Result<TrackedFrame<'t, 'a>, TraceError>
    ensures keeps { (d : Proved) → Traces result frame_view
        (keeping d (frame_view frame.entry) (halt_view halt.now)) }
    ensures placed { (p : PlainProgram) → FrameIsPlaced p frame.entry →
        IfOk result (FrameIsPlaced p) }
{
    let Halt::Stands(place, walk) = halt else {
        return Err(TraceError::Untold);
    };
    let mut frame = frame;
    put_cells(&mut frame.part, &walk.values, place.goal.state.cells())?;
    Ok(frame)
}

// On in its tree, where a walk stands by now, the frame keeps what it had on those below it.
fn keep_on<'t, 'a>(
    regions: Regions,
    top: TrackedFrame<'t, 'a>,
    below: Vec<TrackedFrame<'t, 'a>>,
    halt: &Halt<'_, '_, '_>,
) -> Result<Moved<'t, 'a>, TraceError>
    ensures keeps { (d : Proved) → Traces result moved_view (keeps_at d regions
        (frame_view top.entry) (frames_view below.entry.items) (halt_view halt.now)) }
    ensures placed { (p : PlainProgram) → FrameIsPlaced p top.entry →
        FramesArePlaced p below.entry.items → IfOk result (MovedIsPlaced p) }
{
    let frame = keep(top, halt)?;
    let mut frames = below;
    frames.push(frame)?;
    Ok(Moved {
        frames,
        forked: None,
        regions,
    })
}

/// On in its tree, where others see nothing: the frame keeps what it had, with the cells of its
/// state.
pub(crate) fn stays<'t, 'a>(
    alloc: Global,
    program: &Program,
    roots: &Roots<'a>,
    regions: Regions,
    top: TrackedFrame<'t, 'a>,
    below: Vec<TrackedFrame<'t, 'a>>,
) -> Result<Moved<'t, 'a>, TraceError>
    requires top { FrameIsPlaced (program_view program.now) top }
    requires below { FramesArePlaced (program_view program.now) below.items }
    ensures stays { (ts : List (Option PlainTree)) →
        AreRoots (program_view program.now) ts roots.now → Traces result moved_view
        (keeps_on (proved_of (program_view program.now) ts) regions
        (frame_view top.entry) (frames_view below.entry.items)) }
    ensures placed { IfOk result (MovedIsPlaced (program_view program.now)) }
{
    let events = Vec::from_slice(alloc, &top.since)?;
    let halt = frame_walk(alloc, program, roots, false, &regions, &top, &events)?;
    keep_on(regions, top, below, &halt)
}

/// A heap statement: regions are entered and closed.
pub(crate) fn takes_seat<'t, 'a>(
    alloc: Global,
    program: &Program,
    roots: &Roots<'a>,
    regions: &Regions,
    top: TrackedFrame<'t, 'a>,
    below: Vec<TrackedFrame<'t, 'a>>,
) -> Result<Moved<'t, 'a>, TraceError>
    requires top { FrameIsPlaced (program_view program.now) top }
    requires below { FramesArePlaced (program_view program.now) below.items }
    ensures seated { (ts : List (Option PlainTree)) →
        AreRoots (program_view program.now) ts roots.now → Traces result moved_view
        (sits_on (proved_of (program_view program.now) ts) regions.now
        (frame_view top.entry) (frames_view below.entry.items)) }
    ensures placed { IfOk result (MovedIsPlaced (program_view program.now)) }
{
    let seated = seat(alloc, program, roots, regions, top)?;
    stand_on(alloc, program, roots, seated.regions, seated.frame, below)
}

// The fill of what was taken last, where something was.
fn last_fill(taken: Vec<Taking>) -> Result<Fill, TraceError>
    ensures { Traces result (λ f. f) (last_met (reverse taken.items)) }
{
    let mut taken = taken;
    match taken.pop() {
        None => Err(TraceError::Untold),
        Some(last) => Ok(last.fill),
    }
}

// A callee, by what its `requires` is met.
fn callee<'t, 'a>(
    alloc: Global,
    program: &Program,
    roots: &'t Roots<'a>,
    frame: Option<&Frame>,
    fill: Fill,
) -> Result<TrackedFrame<'t, 'a>, TraceError>
    requires roots { AreRootsOf (program_view program.now) roots.now }
    ensures begins { (ts : List (Option PlainTree)) →
        AreRoots (program_view program.now) ts roots.now → Traces result frame_view
        (callee_of (proved_of (program_view program.now) ts)
        (lent_frame (program_view program.now) frame.entry) fill) }
    ensures placed { IfOk result (FrameIsPlaced (program_view program.now)) }
{
    let Some(frame) = frame else {
        return Err(TraceError::Untold);
    };
    match program.functions().get(frame.function() as usize) {
        None => Err(TraceError::Untold),
        Some(function) => enters(
            alloc,
            roots,
            frame.function(),
            function,
            frame.arguments(),
            fill,
        ),
    }
}

// A caller gives what a callee requires.
fn hand_over<'t, 'a>(
    alloc: Global,
    program: &Program,
    roots: &'t Roots<'a>,
    regions: &Regions,
    top: TrackedFrame<'t, 'a>,
    frame: Option<&Frame>,
) -> Result<Handed<'t, 'a>, TraceError>
    requires roots { AreRootsOf (program_view program.now) roots.now }
    requires top { FrameIsPlaced (program_view program.now) top }
    ensures handed { (ts : List (Option PlainTree)) →
        AreRoots (program_view program.now) ts roots.now → Traces result handed_view
        (gives_over (proved_of (program_view program.now) ts) regions.now
        (frame_view top.entry) (lent_frame (program_view program.now) frame.entry)) }
    ensures placed { IfOk result (HandedIsPlaced (program_view program.now)) }
{
    let Seated {
        frame: caller,
        regions,
        taken,
    } = seat(alloc, program, roots, regions, top)?;
    let fill = last_fill(taken)?;
    let caller = standing_frame(alloc, program, roots, &regions, caller)?;
    let begun = callee(alloc, program, roots, frame, fill)?;
    let callee = standing_frame(alloc, program, roots, &regions, begun)?;
    Ok(Handed {
        caller,
        callee,
        regions,
    })
}

/// A call: the callee stands on top of its caller.
pub(crate) fn calls<'t, 'a>(
    alloc: Global,
    program: &Program,
    roots: &'t Roots<'a>,
    regions: &Regions,
    top: TrackedFrame<'t, 'a>,
    below: Vec<TrackedFrame<'t, 'a>>,
    frame: Option<&Frame>,
) -> Result<Moved<'t, 'a>, TraceError>
    requires roots { AreRootsOf (program_view program.now) roots.now }
    requires top { FrameIsPlaced (program_view program.now) top }
    requires below { FramesArePlaced (program_view program.now) below.items }
    ensures calls { (ts : List (Option PlainTree)) →
        AreRoots (program_view program.now) ts roots.now → Traces result moved_view
        (calls_on (proved_of (program_view program.now) ts) regions.now (frame_view top.entry)
        (frames_view below.entry.items) (lent_frame (program_view program.now) frame.entry)) }
    ensures placed { IfOk result (MovedIsPlaced (program_view program.now)) }
{
    let handed = hand_over(alloc, program, roots, regions, top, frame)?;
    let mut frames = below;
    frames.push(handed.caller)?;
    frames.push(handed.callee)?;
    Ok(Moved {
        frames,
        forked: None,
        regions: handed.regions,
    })
}

/// A fork: the callee begins a thread.
pub(crate) fn forks<'t, 'a>(
    alloc: Global,
    program: &Program,
    roots: &'t Roots<'a>,
    regions: &Regions,
    top: TrackedFrame<'t, 'a>,
    below: Vec<TrackedFrame<'t, 'a>>,
    frame: Option<&Frame>,
) -> Result<Moved<'t, 'a>, TraceError>
    requires roots { AreRootsOf (program_view program.now) roots.now }
    requires top { FrameIsPlaced (program_view program.now) top }
    requires below { FramesArePlaced (program_view program.now) below.items }
    ensures forks { (ts : List (Option PlainTree)) →
        AreRoots (program_view program.now) ts roots.now → Traces result moved_view
        (forks_on (proved_of (program_view program.now) ts) regions.now (frame_view top.entry)
        (frames_view below.entry.items) (lent_frame (program_view program.now) frame.entry)) }
    ensures placed { IfOk result (MovedIsPlaced (program_view program.now)) }
{
    let handed = hand_over(alloc, program, roots, regions, top, frame)?;
    let mut frames = below;
    frames.push(handed.caller)?;
    Ok(Moved {
        frames,
        forked: Some(handed.callee),
        regions: handed.regions,
    })
}

// A caller has the result, and is given what the callee promised, by what that is met.
fn received<'t, 'a>(
    alloc: Global,
    roots: &'t Roots<'a>,
    stepping: &Stepping,
    fixed: &Values,
    value: i128,
    caller: TrackedFrame<'t, 'a>,
    fill: Fill,
) -> Result<TrackedFrame<'t, 'a>, AllocError>
    ensures received { (p : PlainProgram) (ts : List (Option PlainTree)) (m : machine.Frame) →
        AreRoots p ts roots.now → Sees stepping.now m → IfOk result (λ f. frame_view f
        ≡ has_result (proved_of p ts) m fixed.now value (frame_view caller.entry) fill) }
    ensures placed { (p : PlainProgram) (ts : List (Option PlainTree)) →
        AreRoots p ts roots.now → FrameIsPlaced p caller.entry → IfOk result (FrameIsPlaced p) }
{
    let mut known = Values::of_numbers(alloc, &stepping.arguments)?;
    known.append(fixed)?;
    known.push(Value::Number(value))?;
    let mut caller = caller;
    let awaited = caller.awaited;
    caller.values.put(awaited, Value::Number(value));
    caller.given = Some(GivenAssertion {
        stability: roots.at(Unit::Function(stepping.function), ENSURES_ROOT),
        values: known,
        fill,
    });
    Ok(caller)
}

// To the end of its tree: by what the last assertion was met, and the regions.
fn end_of(halt: Halt<'_, '_, '_>) -> Result<Ending, TraceError>
    ensures { Traces result ending_view (ending_at (halt_view halt.entry)) }
{
    match halt {
        Halt::Stands(_, _) => Err(TraceError::Untold),
        Halt::Leaves(walk) => {
            let Walk { regions, taken, .. } = walk;
            Ok(Ending {
                fill: last_fill(taken)?,
                regions,
            })
        }
    }
}

// The caller, on top of those below a frame that returns, stands with the result.
fn caller_stands<'t, 'a>(
    alloc: Global,
    program: &Program,
    roots: &'t Roots<'a>,
    returning: (&Stepping, i128),
    fixed: &Values,
    below: Vec<TrackedFrame<'t, 'a>>,
    ending: Ending,
) -> Result<Moved<'t, 'a>, TraceError>
    requires roots { AreRootsOf (program_view program.now) roots.now }
    requires below { FramesArePlaced (program_view program.now) below.items }
    ensures stands { (ts : List (Option PlainTree)) (m : machine.Frame) →
        AreRoots (program_view program.now) ts roots.now → Sees returning.entry.0.now m →
        Traces result moved_view (caller_stands (proved_of (program_view program.now) ts) m
        fixed.now returning.entry.1 (frames_view below.entry.items) (ending_view ending)) }
    ensures placed { IfOk result (MovedIsPlaced (program_view program.now)) }
{
    let (stepping, value) = returning;
    let Ending { fill, regions } = ending;
    let mut below = below;
    match below.pop() {
        None => Ok(Moved {
            frames: below,
            forked: None,
            regions,
        }),
        Some(caller) => {
            let caller = received(alloc, roots, stepping, fixed, value, caller, fill)?;
            stand_on(alloc, program, roots, regions, caller, below)
        }
    }
}

/// A return, also of a thread's last frame.
pub(crate) fn returns<'t, 'a>(
    alloc: Global,
    program: &Program,
    roots: &'t Roots<'a>,
    regions: &Regions,
    top: TrackedFrame<'t, 'a>,
    below: Vec<TrackedFrame<'t, 'a>>,
    returning: (&Stepping, i128),
) -> Result<Moved<'t, 'a>, TraceError>
    requires roots { AreRootsOf (program_view program.now) roots.now }
    requires top { FrameIsPlaced (program_view program.now) top }
    requires below { FramesArePlaced (program_view program.now) below.items }
    ensures returns { (ts : List (Option PlainTree)) (m : machine.Frame) →
        AreRoots (program_view program.now) ts roots.now → Sees returning.entry.0.now m →
        Traces result moved_view (returns_on (proved_of (program_view program.now) ts)
        regions.now (frame_view top.entry) (frames_view below.entry.items) m returning.entry.1) }
    ensures placed { IfOk result (MovedIsPlaced (program_view program.now)) }
{
    let halt = frame_walk(alloc, program, roots, false, regions, &top, &top.since)?;
    let ending = end_of(halt)?;
    caller_stands(alloc, program, roots, returning, &top.fixed, below, ending)
}

// Where a loop of a function begins, by its number among the function's loops. More loops than a
// machine word counts are want of memory.
fn loop_opening(function: u32, number: usize) -> Result<Opening, AllocError>
    ensures function { IfOk result (λ o. o.function ≡ function) }
    ensures stability { IfOk result (λ o. o.stability ≡ invariant_root number) }
    ensures root { IfOk result (λ o. o.root ≡ suc (invariant_root number)) }
{
    let before = number.checked_mul(2).ok_or(AllocError)?;
    let stability = before.checked_add(3).ok_or(AllocError)?;
    let root = stability.checked_add(1).ok_or(AllocError)?;
    Ok(Opening {
        function,
        stability,
        root,
    })
}

// A frame at a loop, by what its invariant is met.
fn looping<'t, 'a>(
    alloc: Global,
    program: &Program,
    roots: &'t Roots<'a>,
    stepping: &Stepping,
    fixed: Values,
    event: Event,
    fill: Fill,
) -> Result<TrackedFrame<'t, 'a>, TraceError>
    requires roots { AreRootsOf (program_view program.now) roots.now }
    ensures begins { (ts : List (Option PlainTree)) (m : machine.Frame) (f : plain.TrackedFrame) →
        AreRoots (program_view program.now) ts roots.now → Sees stepping.now m →
        f.held.fixed ≡ fixed → Traces result frame_view
        (looping_at (proved_of (program_view program.now) ts) m f event fill) }
    ensures placed { IfOk result (FrameIsPlaced (program_view program.now)) }
{
    let Some(function) = program.functions().get(stepping.function as usize) else {
        return Err(TraceError::Untold);
    };
    let Some(number) = loop_number(alloc, function, stepping.number)? else {
        return Err(TraceError::Untold);
    };
    let mut values = Values::of_numbers(alloc, &stepping.store)?;
    values.append(&fixed)?;
    let opening = loop_opening(stepping.function, number)?;
    let since = Vec::from_slice(alloc, &[event])?;
    begins(alloc, roots, opening, values, fixed, fill, since)
}

// A loop's tree begins behind the end of another one.
fn loops_on<'t, 'a>(
    alloc: Global,
    program: &Program,
    roots: &'t Roots<'a>,
    fixed: Values,
    below: Vec<TrackedFrame<'t, 'a>>,
    branching: (&Stepping, Event),
    ending: Ending,
) -> Result<Moved<'t, 'a>, TraceError>
    requires roots { AreRootsOf (program_view program.now) roots.now }
    requires below { FramesArePlaced (program_view program.now) below.items }
    ensures loops { (ts : List (Option PlainTree)) (m : machine.Frame) (f : plain.TrackedFrame) →
        AreRoots (program_view program.now) ts roots.now → Sees branching.entry.0.now m →
        f.held.fixed ≡ fixed → Traces result moved_view
        (loops_on (proved_of (program_view program.now) ts) f (frames_view below.entry.items) m
        branching.entry.1 (ending_view ending)) }
    ensures placed { IfOk result (MovedIsPlaced (program_view program.now)) }
{
    let (stepping, event) = branching;
    let Ending { fill, regions } = ending;
    let begun = looping(alloc, program, roots, stepping, fixed, event, fill)?;
    stand_on(alloc, program, roots, regions, begun, below)
}

/// A branch: on in its tree, or a loop's tree begins behind the end of another one.
pub(crate) fn branches<'t, 'a>(
    alloc: Global,
    program: &Program,
    roots: &'t Roots<'a>,
    regions: Regions,
    top: TrackedFrame<'t, 'a>,
    below: Vec<TrackedFrame<'t, 'a>>,
    branching: (&Stepping, Event),
) -> Result<Moved<'t, 'a>, TraceError>
    requires roots { AreRootsOf (program_view program.now) roots.now }
    requires top { FrameIsPlaced (program_view program.now) top }
    requires below { FramesArePlaced (program_view program.now) below.items }
    ensures branches { (ts : List (Option PlainTree)) (m : machine.Frame) →
        AreRoots (program_view program.now) ts roots.now → Sees branching.entry.0.now m →
        Traces result moved_view (branches_on (proved_of (program_view program.now) ts)
        regions (frame_view top.entry) (frames_view below.entry.items) m branching.entry.1) }
    ensures placed { IfOk result (MovedIsPlaced (program_view program.now)) }
{
    let events = Vec::from_slice(alloc, &top.since)?;
    let halt = frame_walk(alloc, program, roots, false, &regions, &top, &events)?;
    match halt {
        Halt::Stands(place, walk) => keep_on(regions, top, below, &Halt::Stands(place, walk)),
        Halt::Leaves(walk) => {
            let ending = end_of(Halt::Leaves(walk))?;
            let TrackedFrame { fixed, .. } = top;
            loops_on(alloc, program, roots, fixed, below, branching, ending)
        }
    }
}
