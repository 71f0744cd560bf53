//! The text of a run with its accounts.
ghost use Rattle.std.specs.Prelude.{◌≡◌, ◌≤◌, ◌<◌, ◌-◌, ◌^◌, suc, pos, false, length, slice_get};
ghost use Rattle.std.specs.Prelude.{Err, IfOk, IsSomeAnd, List, None, Option, Some};
ghost use Rattle.cap_prog.specs.Views.{program_view};
ghost use Rattle.cap_goal.specs.Trees.{bundle_view};
ghost use Rattle.cap_goal_spec.specs.Choices.{PlainTree};
ghost use Rattle.cap_machine.specs.Cells.{AscendsFrom};
ghost use Rattle.cap_machine.specs.View.{configuration, is_stopped, RunsProgram};
ghost use Rattle.cap_replay_schedules.specs.Reading.{most_entries};
ghost use Rattle.cap_replay.specs.RunText.{in_front};
ghost use Rattle.cap_rules.specs.Valid.{Valid};
ghost use Rattle.cap_owners.specs.declared.error.OwnersError.TheVariants.{Start};
ghost use Rattle.cap_replay.specs.Advancing.{is_fault as fault_event};
ghost use Rattle.cap_owners.specs.Running.{played_from, Advances, EndsBy, GoesOn, IsFinished};
ghost use Rattle.cap_owners.specs.Tracks.{track_view, AreRootsOf, TrackIsPlaced};
ghost use Rattle.cap_owners.specs.Views.{owned_view};
ghost use Rattle.cap_owners_places.specs.Views.{proved_of, AreRoots};
ghost use Rattle.cap_owners_spec.specs.Owners.{owned_from, owners_text};

use crate::account::push_account;
use crate::error::OwnersError;
use crate::start::first_track;
use crate::step::{Stepped, follow, top_before};
use crate::track::Track;
use cap_goal::Bundle;
use cap_machine::{Entry, Event, Machine, StepError};
use cap_owners_places::{Roots, place_trees};
use cap_owners_values::TraceError;
use cap_prog::Program;
use cap_replay::{End, last_line, push_step};
use cap_replay_schedules::Schedule;
use std::alloc::{AllocError, Global};

/// The text of a run with its accounts, and how it ends.
#[derive(Drop)]
pub struct Owned {
    pub text: Vec<u8>,
    pub end: End,
}

// After an entry: the track, or how the run ends.
#[derive(Drop)]
enum Advanced<'t, 'a> {
    On(Track<'t, 'a>),
    Ends(End),
}

fn is_fault(event: Event) -> bool
    ensures { result ≡ fault_event event }
{
    matches!(event, Event::Bad(_) | Event::Failed(_))
}

// How a run ends whose step, by its number, comes to no track.
fn end_of(number: u64, error: TraceError) -> Result<End, AllocError>
    ensures { IfOk result (EndsBy number error) }
{
    match error {
        TraceError::PastWidth => Ok(End::Wide(number)),
        TraceError::Untold => Ok(End::Stopped(number)),
        TraceError::OutOfMemory => Err(AllocError),
    }
}

// One step of a run, after so many: its line is written, and behind it the account of the track
// that it leaves; where the run ends with it, how.
fn advance<'t, 'a>(
    alloc: Global,
    program: &Program,
    roots: &'t Roots<'a>,
    machine: &mut Machine,
    track: Track<'t, 'a>,
    entry: &Entry,
    count: u64,
    text: &mut Vec<u8>,
) -> Result<Advanced<'t, 'a>, AllocError>
    requires fits { RunsProgram (program_view program.now) machine.old }
    requires runs { is_stopped machine.old ≡ false }
    requires room { let p = program_view program.now in
        length (configuration p machine.old).threads < 2 ^ 32 - 1 }
    requires count { count < 2 ^ 32 }
    requires roots { AreRootsOf (program_view program.now) roots.now }
    requires placed { TrackIsPlaced (program_view program.now) track }
    ensures advances { (ts : List (Option PlainTree)) →
        AreRoots (program_view program.now) ts roots.now → IfOk result (Advances
        (proved_of (program_view program.now) ts) count entry.now (track_view track.entry)
        machine.old machine.new text.old.items text.new.items) }
    ensures goes_on { IfOk result (GoesOn (program_view program.now) machine.new) }
    ensures fits { RunsProgram (program_view program.now) machine.new }
    ensures threads { let p = program_view program.now in
        length (configuration p machine.new).threads
        ≤ suc (length (configuration p machine.old).threads) }
{
    let number = count + 1;
    let before = top_before(alloc, program, machine, entry.thread)?;
    let ahead = machine.ahead(program, entry.thread);
    let event = match machine.step(alloc, program, entry) {
        Ok(event) => event,
        Err(StepError::NotEnabled) => return Ok(Advanced::Ends(End::NotEnabled(number))),
        Err(StepError::Wide) => return Ok(Advanced::Ends(End::Wide(number))),
        Err(StepError::OutOfMemory) => return Err(AllocError),
    };
    if is_fault(event) {
        push_step(alloc, text, number, entry.thread, ahead, event)?;
        return Ok(Advanced::Ends(End::Stopped(number)));
    }
    let stepped = Stepped {
        machine: &*machine,
        thread: entry.thread,
        event,
    };
    let track = match follow(alloc, program, roots, track, before.as_ref(), stepped) {
        Ok(track) => track,
        Err(error) => return Ok(Advanced::Ends(end_of(number, error)?)),
    };
    push_step(alloc, text, number, entry.thread, ahead, event)?;
    push_account(alloc, text, program, machine, &track)?;
    Ok(Advanced::On(track))
}

// The text with its last line.
fn finish(alloc: Global, text: Vec<u8>, end: End) -> Result<Owned, AllocError>
    ensures { IfOk result (λ r. IsFinished text.items end (owned_view r)) }
{
    let mut text = text;
    let line = last_line(alloc, end)?;
    text.extend_from_slice(line.as_bytes())?;
    Ok(Owned { text, end })
}

// The run along entries, from the machine's start and the first track, whose account was shown.
fn run<'t, 'a>(
    alloc: Global,
    program: &Program,
    roots: &'t Roots<'a>,
    mut machine: Machine,
    mut track: Track<'t, 'a>,
    entries: &[Entry],
    mut text: Vec<u8>,
) -> Result<Owned, AllocError>
    requires fits { RunsProgram (program_view program.now) machine }
    requires runs { is_stopped machine ≡ false }
    requires room { let p = program_view program.now in
        length (configuration p machine).threads ≤ 1 }
    requires entries { length entries.now ≤ most_entries }
    requires roots { AreRootsOf (program_view program.now) roots.now }
    requires placed { TrackIsPlaced (program_view program.now) track }
    ensures { (ts : List (Option PlainTree)) →
        AreRoots (program_view program.now) ts roots.now → IfOk result (λ r. owned_view r
        ≡ in_front text.items (owned_from (proved_of (program_view program.now) ts) 0
        (configuration (program_view program.now) machine) entries.now
        (track_view track.entry))) }
{
    let mut count = 0;
    for entry in entries {
        match advance(
            alloc,
            program,
            roots,
            &mut machine,
            track,
            entry,
            count,
            &mut text,
        )? {
            Advanced::Ends(end) => return finish(alloc, text, end),
            Advanced::On(next) => track = next,
        }
        count += 1;
    }
    finish(alloc, text, End::Ended(count))
}

// The run along a schedule from the first track on, with a line `start` before it all.
fn play<'t, 'a>(
    alloc: Global,
    program: &Program,
    roots: &'t Roots<'a>,
    track: Track<'t, 'a>,
    schedule: &Schedule,
) -> Result<Owned, AllocError>
    requires arguments { let p = program_view program.now in
        IsSomeAnd (slice_get p.functions p.main)
        (λ f. length schedule.now.args.items ≡ f.params) }
    requires addresses { AscendsFrom (pos 0) schedule.now.heap.items }
    requires entries { length schedule.now.entries.items ≤ most_entries }
    requires roots { AreRootsOf (program_view program.now) roots.now }
    requires placed { TrackIsPlaced (program_view program.now) track }
    ensures { (ts : List (Option PlainTree)) → AreRoots (program_view program.now) ts roots.now →
        IfOk result (λ r. owned_view r ≡ played_from (proved_of (program_view program.now) ts)
        schedule.now (track_view track.entry)) }
{
    let machine = Machine::start(alloc, program, &schedule.args, &schedule.heap)?;
    let mut text = Vec::from_slice(alloc, b"start\n")?;
    push_account(alloc, &mut text, program, &machine, &track)?;
    run(
        alloc,
        program,
        roots,
        machine,
        track,
        &schedule.entries,
        text,
    )
}

/// The text of the run along a schedule, by a valid derivation of the program: a line `start` and
/// the first account, and then for each step its line, as in a replay, and the account behind it,
/// and a last line that says how the run ends. `Start` comes exactly where the definition has no
/// text: the arguments and the heap don't meet what `main` requires. There are as many arguments as
/// `main` has parameters, the addresses of the heap are at least 1 and ascend, and there are at most
/// 100,000 entries.
pub fn owners(
    alloc: Global,
    program: &Program,
    bundle: &Bundle,
    schedule: &Schedule,
) -> Result<Owned, OwnersError>
    requires valid { Valid (program_view program.now) (bundle_view bundle.now) }
    requires arguments { let p = program_view program.now in
        IsSomeAnd (slice_get p.functions p.main)
        (λ f. length schedule.now.args.items ≡ f.params) }
    requires addresses { AscendsFrom (pos 0) schedule.now.heap.items }
    requires entries { length schedule.now.entries.items ≤ most_entries }
    ensures shown { IfOk result (λ r. owners_text (program_view program.now)
        (bundle_view bundle.now) schedule.now ≡ Some (owned_view r)) }
    ensures start { result ≡ Err Start → owners_text (program_view program.now)
        (bundle_view bundle.now) schedule.now ≡ None }
{
    let roots = place_trees(alloc, program, bundle)?;
    match first_track(alloc, program, &roots, &schedule.args, &schedule.heap) {
        Ok(None) => Err(OwnersError::Start),
        Ok(Some(track)) => Ok(play(alloc, program, &roots, track, schedule)?),
        Err(error) => Ok(finish(alloc, Vec::new(alloc), end_of(0, error)?)?),
    }
}
