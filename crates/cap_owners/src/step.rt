//! A step of the track beside a step of the machine.
ghost use Rattle.std.specs.Prelude.{◌≡◌, ◌<◌, IfOk, IfSome, List, MatchOption, Option, slice_get};
ghost use Rattle.std.specs.Prelude.{option_and_then, vec_len};
ghost use Rattle.cap_prog.specs.Program.{PlainProgram};
ghost use Rattle.cap_prog.specs.Views.{program_view};
ghost use Rattle.cap_goal_spec.specs.Choices.{PlainTree};
ghost use Rattle.cap_machine.specs.Machine as plain_machine;
ghost use Rattle.cap_machine.specs.Machine.{top_frame};
ghost use Rattle.cap_machine.specs.View.{configuration, frame_view as machine_frame, RunsProgram};
ghost use Rattle.cap_outline_spec.specs.Standing.{first_number};
ghost use Rattle.cap_owners_spec.specs.Steps.{after_move, follow as followed};
ghost use Rattle.cap_owners_spec.specs.Track as plain;
ghost use Rattle.cap_owners_values.specs.Views.{Traces};
ghost use Rattle.cap_owners_places.specs.Views.{proved_of, AreRoots};
ghost use Rattle.cap_owners.specs.Tracks.{frame_view, frames_view, lent_frame, track_view};
ghost use Rattle.cap_owners.specs.Tracks.{FrameIsPlaced};
ghost use Rattle.cap_owners.specs.Tracks.{threads_view, AreOthers, AreRootsOf, FramesArePlaced};
ghost use Rattle.cap_owners.specs.Tracks.{HasNoTop};
ghost use Rattle.cap_owners.specs.Tracks.{IsTaken, Sees, SeesTop, SeesTopOf, TakenIsPlaced};
ghost use Rattle.cap_owners.specs.Tracks.{ThreadsArePlaced, TrackIsPlaced};
ghost use Rattle.cap_owners.specs.Moves.{moved_view, moves, noted, MovedIsPlaced};

use crate::moves::{Moved, branches, calls, forks, returns, stays, takes_seat};
use crate::track::{Track, TrackedFrame};
use cap_machine::{Event, Frame, Machine};
use cap_owners_fill::Regions;
use cap_owners_places::Roots;
use cap_owners_values::TraceError;
use cap_prog::Program;
use std::alloc::{AllocError, Global};

/// What is kept of the machine's frame before it steps: its function, what that was given, its
/// variables, and the number of its next statement.
#[derive(Drop)]
pub(crate) struct Stepping {
    pub function: u32,
    pub arguments: Vec<i128>,
    pub store: Vec<i128>,
    pub number: Option<u32>,
}

/// A step that the machine made: the machine after it, the thread that stepped, and what happened.
#[derive(Drop)]
pub(crate) struct Stepped<'m> {
    pub machine: &'m Machine,
    pub thread: u32,
    pub event: Event,
}

// Lends the machine's frame on top of a thread, if there is one.
fn top_of(machine: &Machine, thread: u32) -> Option<&Frame>
    ensures { (p : PlainProgram) → lent_frame p result
        ≡ top_frame (slice_get (configuration p machine.now).threads thread) }
{
    machine.frames(thread).last()
}

// The number of a thread's next statement, if there is one.
fn number_ahead(program: &Program, machine: &Machine, thread: u32) -> Option<u32>
    requires { RunsProgram (program_view program.now) machine.now }
    ensures { result ≡ option_and_then (λ m. first_number m.rest) (top_frame (slice_get
        (configuration (program_view program.now) machine.now).threads thread)) }
{
    match machine.ahead(program, thread) {
        None => None,
        Some(ahead) => Some(ahead.number),
    }
}

// What is kept of a frame of the machine, whose next statement has this number.
fn stepping_of(alloc: Global, frame: &Frame, number: Option<u32>) -> Result<Stepping, AllocError>
    ensures { (p : PlainProgram) → number ≡ first_number (machine_frame p frame.now).rest →
        IfOk result (λ s. Sees s (machine_frame p frame.now)) }
{
    Ok(Stepping {
        function: frame.function(),
        arguments: Vec::from_slice(alloc, frame.arguments())?,
        store: Vec::from_slice(alloc, frame.store())?,
        number,
    })
}

/// What is kept of the machine's frame on top of a thread, if there is one.
pub(crate) fn top_before(
    alloc: Global,
    program: &Program,
    machine: &Machine,
    thread: u32,
) -> Result<Option<Stepping>, AllocError>
    requires { RunsProgram (program_view program.now) machine.now }
    ensures { IfOk result (λ s. SeesTopOf s (top_frame (slice_get
        (configuration (program_view program.now) machine.now).threads thread))) }
{
    let number = number_ahead(program, machine, thread);
    match top_of(machine, thread) {
        None => Ok(None),
        Some(frame) => Ok(Some(stepping_of(alloc, frame, number)?)),
    }
}

// What the step makes of the frames of its thread, the top one of which noted its event; the frame
// that the machine has on top of the thread, and of the one that is begun.
fn moved<'t, 'a>(
    alloc: Global,
    program: &Program,
    roots: &'t Roots<'a>,
    regions: Regions,
    frames: (TrackedFrame<'t, 'a>, Vec<TrackedFrame<'t, 'a>>),
    stepping: &Stepping,
    stepped: Stepped<'_>,
) -> Result<Moved<'t, 'a>, TraceError>
    requires roots { AreRootsOf (program_view program.now) roots.now }
    requires top { FrameIsPlaced (program_view program.now) frames.0 }
    requires below { FramesArePlaced (program_view program.now) frames.1.items }
    ensures moves { (ts : List (Option PlainTree)) (m : plain_machine.Frame) →
        AreRoots (program_view program.now) ts roots.now → Sees stepping.now m →
        Traces result moved_view (moves (proved_of (program_view program.now) ts) regions
        (frame_view frames.entry.0) (frames_view frames.entry.1.items) m
        (configuration (program_view program.now) stepped.entry.machine.now)
        stepped.entry.thread stepped.entry.event) }
    ensures placed { IfOk result (MovedIsPlaced (program_view program.now)) }
{
    let (top, below) = frames;
    let Stepped {
        machine,
        thread,
        event,
    } = stepped;
    match event {
        Event::Set(_) | Event::Alloc(_) | Event::Assert => {
            stays(alloc, program, roots, regions, top, below)
        }
        Event::Read(_, _)
        | Event::Write(_, _)
        | Event::Cas(_, _)
        | Event::Faa(_, _)
        | Event::Dispose(_) => takes_seat(alloc, program, roots, &regions, top, below),
        Event::Call => {
            let frame = top_of(machine, thread);
            calls(alloc, program, roots, &regions, top, below, frame)
        }
        Event::Fork(begun) => {
            let frame = top_of(machine, begun);
            forks(alloc, program, roots, &regions, top, below, frame)
        }
        Event::Branch(_) => {
            branches(
                alloc,
                program,
                roots,
                regions,
                top,
                below,
                (stepping, event),
            )
        }
        Event::Return(value) => {
            let returning = (stepping, value);
            returns(alloc, program, roots, &regions, top, below, returning)
        }
        Event::End(value) => {
            let returning = (stepping, value);
            returns(alloc, program, roots, &regions, top, below, returning)
        }
        Event::Bad(_) | Event::Failed(_) => Err(TraceError::Untold),
    }
}

// Takes a thread's top frame, with those below it, if there is one.
fn take_top<'t, 'a>(
    alloc: Global,
    threads: &mut Vec<Vec<TrackedFrame<'t, 'a>>>,
    thread: u32,
) -> Option<(TrackedFrame<'t, 'a>, Vec<TrackedFrame<'t, 'a>>)>
    ensures taken { MatchOption result
        (HasNoTop (slice_get (threads_view threads.old.items) thread))
        (λ x. IsTaken thread threads.old.items threads.new.items x.0 x.1.items) }
    ensures placed { (p : PlainProgram) → ThreadsArePlaced p threads.old.items →
        IfSome result (λ x. TakenIsPlaced p threads.new.items x.0 x.1.items) }
{
    let place = thread as usize;
    if place >= threads.len() {
        return None;
    }
    let mut below = std::mem::replace(&mut threads[place], Vec::new(alloc));
    let top = below.pop()?;
    Some((top, below))
}

// A frame notes an event.
fn note<'t, 'a>(
    frame: TrackedFrame<'t, 'a>,
    event: Event,
) -> Result<TrackedFrame<'t, 'a>, AllocError>
    ensures noted { IfOk result (λ f. frame_view f ≡ noted (frame_view frame.entry) event) }
    ensures placed { (p : PlainProgram) → FrameIsPlaced p frame.entry →
        IfOk result (FrameIsPlaced p) }
{
    let mut frame = frame;
    frame.since.push(event)?;
    Ok(frame)
}

// The track once a thread has the frames that a step made of its frames, with a new thread if there
// is one.
fn put_back<'t, 'a>(
    alloc: Global,
    others: Vec<Vec<TrackedFrame<'t, 'a>>>,
    thread: u32,
    moved: Moved<'t, 'a>,
) -> Result<Track<'t, 'a>, AllocError>
    requires { thread < vec_len others }
    ensures put { (k : plain.Track) → AreOthers thread k.threads others.entry.items →
        IfOk result (λ x. track_view x ≡ after_move k thread (moved_view moved.entry)) }
    ensures placed { (p : PlainProgram) → ThreadsArePlaced p others.entry.items →
        MovedIsPlaced p moved.entry → IfOk result (TrackIsPlaced p) }
{
    let Moved {
        frames,
        forked,
        regions,
    } = moved;
    let mut threads = others;
    threads[thread as usize] = frames;
    match forked {
        None => Ok(Track { regions, threads }),
        Some(frame) => {
            let mut begun = Vec::new(alloc);
            begun.push(frame)?;
            threads.push(begun)?;
            Ok(Track { regions, threads })
        }
    }
}

/// The track after a step of a thread, which the machine made.
pub(crate) fn follow<'t, 'a>(
    alloc: Global,
    program: &Program,
    roots: &'t Roots<'a>,
    track: Track<'t, 'a>,
    stepping: Option<&Stepping>,
    stepped: Stepped<'_>,
) -> Result<Track<'t, 'a>, TraceError>
    requires roots { AreRootsOf (program_view program.now) roots.now }
    requires placed { TrackIsPlaced (program_view program.now) track }
    ensures follows { (ts : List (Option PlainTree)) (before : plain_machine.Configuration) →
        AreRoots (program_view program.now) ts roots.now →
        SeesTop stepping.entry (top_frame (slice_get before.threads stepped.entry.thread)) →
        Traces result track_view (followed (proved_of (program_view program.now) ts)
        (track_view track.entry) stepped.entry.thread stepped.entry.event before
        (configuration (program_view program.now) stepped.entry.machine.now)) }
    ensures placed { IfOk result (TrackIsPlaced (program_view program.now)) }
{
    let Stepped {
        machine,
        thread,
        event,
    } = stepped;
    let Track { regions, threads } = track;
    let mut others = threads;
    let Some(stepping) = stepping else {
        return Err(TraceError::Untold);
    };
    let Some((top, below)) = take_top(alloc, &mut others, thread) else {
        return Err(TraceError::Untold);
    };
    let top = note(top, event)?;
    let became = moved(
        alloc,
        program,
        roots,
        regions,
        (top, below),
        stepping,
        Stepped {
            machine,
            thread,
            event,
        },
    )?;
    Ok(put_back(alloc, others, thread, became)?)
}
