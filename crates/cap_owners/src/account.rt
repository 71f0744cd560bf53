//! The text of an account.
ghost use Rattle.std.specs.Prelude.{◌≡◌, ◌<◌, ◌^◌, ◌++◌, IfOk, OnOk, codes, flat_map, length};
ghost use Rattle.std.specs.Prelude.{slice_get};
ghost use Rattle.std.specs.Fmt.{signed_decimal};
ghost use Rattle.std.specs.List.{zip};
ghost use Rattle.cap_prog.specs.Views.{program_view};
ghost use Rattle.cap_machine.specs.View.{configuration, frame_view as machine_frame, thread_view};
ghost use Rattle.cap_outline_spec.specs.Texts.{type_name as name_of_type};
ghost use Rattle.cap_owners_spec.specs.Texts.{account_text, args_text, fixed_names as fixed_names_of};
ghost use Rattle.cap_owners_spec.specs.Texts.{frame_line, named_text, names_text, region_line};
ghost use Rattle.cap_owners_spec.specs.Texts.{thread_lines};
ghost use Rattle.cap_owners_spec.specs.Traced.{value_at as named_value};
ghost use Rattle.cap_owners_spec.specs.Track.{account_of};
ghost use Rattle.cap_owners_values.specs.Views.{value_view};
ghost use Rattle.cap_owners.specs.Tracks.{frame_view, track_view};
ghost use Rattle.cap_owners.specs.Accounts.{all_helds_view, frames_text, helds_view, lines_from};
ghost use Rattle.cap_owners.specs.Accounts.{name_joint};

use crate::track::{Track, TrackedFrame};
use cap_machine::{Frame, Machine};
use cap_owners_fill::{Regions, TrackedRegion};
use cap_owners_parts::{push_part, push_value};
use cap_owners_values::{Value, Values};
use cap_prog::Program;
use cap_syntax::Text;
use std::alloc::{AllocError, Global};

// Writes a number.
fn push_number(alloc: Global, text: &mut Vec<u8>, number: i128) -> Result<(), AllocError>
    ensures { OnOk result (text.new.items ≡ text.old.items ++ signed_decimal number) }
{
    let number = format!(in alloc; "{number}")?;
    text.extend_from_slice(number.as_bytes())
}

// Writes numbers, each behind a comma.
fn push_more_args(alloc: Global, text: &mut Vec<u8>, args: &[i128]) -> Result<(), AllocError>
    ensures { OnOk result (text.new.items
        ≡ text.old.items ++ flat_map (λ z. codes ", " ++ signed_decimal z) args.now) }
{
    for number in args {
        text.extend_from_slice(b", ")?;
        push_number(alloc, text, *number)?;
    }
    Ok(())
}

// Writes numbers with commas between them, and a semicolon behind the last.
fn push_args(alloc: Global, text: &mut Vec<u8>, args: &[i128]) -> Result<(), AllocError>
    ensures { OnOk result (text.new.items ≡ text.old.items ++ args_text args.now) }
{
    let [first, more @ ..] = args else {
        return Ok(());
    };
    push_number(alloc, text, *first)?;
    push_more_args(alloc, text, more)?;
    text.extend_from_slice(b"; ")
}

// The name of a region type, by its number.
fn type_name(program: &Program, kind: u32) -> &[u8]
    ensures { result.now ≡ name_of_type (program_view program.now) kind }
{
    match program.regions().get(kind as usize) {
        None => &[],
        Some(region) => region.name.as_bytes(),
    }
}

// Writes the line of a region.
fn push_region(
    alloc: Global,
    text: &mut Vec<u8>,
    program: &Program,
    region: &TrackedRegion,
) -> Result<(), AllocError>
    ensures { OnOk result (text.new.items ≡ text.old.items
        ++ region_line (program_view program.now) region.now.owned) }
{
    text.extend_from_slice(b"region ")?;
    push_number(alloc, text, region.number)?;
    text.extend_from_slice(b" ")?;
    text.extend_from_slice(type_name(program, region.kind))?;
    text.extend_from_slice(b"(")?;
    push_args(alloc, text, &region.args)?;
    push_number(alloc, text, region.state)?;
    text.extend_from_slice(b"): ")?;
    push_part(alloc, text, program, &region.part)?;
    text.extend_from_slice(b"\n")
}

// Writes the lines of all regions.
fn push_regions(
    alloc: Global,
    text: &mut Vec<u8>,
    program: &Program,
    regions: &Regions,
) -> Result<(), AllocError>
    ensures { OnOk result (text.new.items ≡ text.old.items
        ++ flat_map (λ r. region_line (program_view program.now) r.owned) regions.now) }
{
    for place in 0..regions.len() {
        if let Some(region) = regions.get(place) {
            push_region(alloc, text, program, region)?;
        }
    }
    Ok(())
}

// What is written before a fixed name, by its number.
fn before_name(number: usize) -> &'static [u8]
    ensures { result.now ≡ name_joint number }
{
    if number == 0 { b" with " } else { b", " }
}

// Writes a fixed name with its value.
fn push_named(
    alloc: Global,
    text: &mut Vec<u8>,
    name: &Text,
    value: Value,
) -> Result<(), AllocError>
    ensures { OnOk result
        (text.new.items ≡ text.old.items ++ named_text (name.now, value_view value)) }
{
    text.extend_from_slice(name.as_bytes())?;
    text.extend_from_slice(b" = ")?;
    push_value(alloc, text, value)
}

// The value of this number. One past 32 bits counts as want of memory.
fn value_at(values: &Values, number: usize) -> Result<Value, AllocError>
    ensures { IfOk result (λ v. value_view v ≡ named_value values.now number) }
{
    match u32::try_from(number) {
        Ok(number) => Ok(values.at(number)),
        Err(_) => Err(AllocError),
    }
}

// Writes fixed names with their values. A name past 32 bits counts as want of memory.
fn push_names(
    alloc: Global,
    text: &mut Vec<u8>,
    names: &[Text],
    values: &Values,
) -> Result<(), AllocError>
    ensures { OnOk result
        (text.new.items ≡ text.old.items ++ names_text (zip names.now values.now)) }
{
    for number in 0..names.len().min(values.len()) {
        text.extend_from_slice(before_name(number))?;
        push_named(alloc, text, &names[number], value_at(values, number)?)?;
    }
    Ok(())
}

// The fixed names of a function, by its number.
fn fixed_names(program: &Program, function: u32) -> &[Text]
    ensures { let p = program_view program.now in
        result.now ≡ fixed_names_of (slice_get p.functions function) }
{
    match program.functions().get(function as usize) {
        None => &[],
        Some(function) => {
            let start = function.params as usize + function.locals as usize;
            function.variables.get(start..).unwrap_or(&[])
        }
    }
}

// Writes the line of a frame, by the numbers of its thread and of itself.
fn push_frame(
    alloc: Global,
    text: &mut Vec<u8>,
    program: &Program,
    place: (u32, usize),
    frame: &Frame,
    tracked: &TrackedFrame<'_, '_>,
) -> Result<(), AllocError>
    ensures { OnOk result (text.new.items ≡ text.old.items
        ++ frame_line (program_view program.now) place.0 place.1
        (machine_frame (program_view program.now) frame.now, (frame_view tracked.now).held)) }
{
    let (thread, number) = place;
    let thread = format!(in alloc; "thread {thread} ")?;
    text.extend_from_slice(thread.as_bytes())?;
    let number = format!(in alloc; "frame {number}: ")?;
    text.extend_from_slice(number.as_bytes())?;
    push_part(alloc, text, program, &tracked.part)?;
    let names = fixed_names(program, frame.function());
    push_names(alloc, text, names, &tracked.fixed)?;
    text.extend_from_slice(b"\n")
}

// Writes the lines of frames of a thread from the bottom, by the number of the thread, where those
// of the machine and of the track stand beside each other.
fn push_lines(
    alloc: Global,
    text: &mut Vec<u8>,
    program: &Program,
    thread: u32,
    frames: &[Frame],
    tracked: &[TrackedFrame<'_, '_>],
) -> Result<(), AllocError>
    ensures { OnOk result (text.new.items ≡ text.old.items
        ++ lines_from (program_view program.now) thread 0 frames.now tracked.now) }
{
    for number in 0..frames.len().min(tracked.len()) {
        push_frame(
            alloc,
            text,
            program,
            (thread, number),
            &frames[number],
            &tracked[number],
        )?;
    }
    Ok(())
}

// Writes the lines of a thread's frames from the bottom, by the number of the thread. Frames of the
// machine and of the track stand beside each other from the top.
fn push_frames(
    alloc: Global,
    text: &mut Vec<u8>,
    program: &Program,
    thread: u32,
    frames: &[Frame],
    tracked: &[TrackedFrame<'_, '_>],
) -> Result<(), AllocError>
    ensures { OnOk result (text.new.items ≡ text.old.items
        ++ frames_text (program_view program.now) thread
        (thread_view (program_view program.now) frames.now) (helds_view tracked.now)) }
{
    let count = frames.len().min(tracked.len());
    let frames = &frames[frames.len() - count..];
    let tracked = &tracked[tracked.len() - count..];
    push_lines(alloc, text, program, thread, frames, tracked)
}

// Writes the lines of all threads.
fn push_threads(
    alloc: Global,
    text: &mut Vec<u8>,
    program: &Program,
    machine: &Machine,
    threads: &[Vec<TrackedFrame<'_, '_>>],
) -> Result<(), AllocError>
    requires { length (configuration (program_view program.now) machine.now).threads < 2 ^ 32 }
    ensures { OnOk result (text.new.items ≡ text.old.items
        ++ thread_lines (program_view program.now) 0
        (zip (configuration (program_view program.now) machine.now).threads
        (all_helds_view threads.now))) }
{
    let mut thread = 0;
    for tracked in threads {
        if thread == machine.threads() {
            return Ok(());
        }
        push_frames(
            alloc,
            text,
            program,
            thread,
            machine.frames(thread),
            tracked,
        )?;
        thread += 1;
    }
    Ok(())
}

/// Writes the account of a track at a configuration of the machine: a line for each region, and for
/// each frame of each thread from the bottom. There are fewer than 2^32 threads.
pub(crate) fn push_account(
    alloc: Global,
    text: &mut Vec<u8>,
    program: &Program,
    machine: &Machine,
    track: &Track<'_, '_>,
) -> Result<(), AllocError>
    requires { length (configuration (program_view program.now) machine.now).threads < 2 ^ 32 }
    ensures { OnOk result (text.new.items ≡ text.old.items
        ++ account_text (program_view program.now)
        (configuration (program_view program.now) machine.now)
        (account_of (track_view track.now))) }
{
    push_regions(alloc, text, program, &track.regions)?;
    push_threads(alloc, text, program, machine, &track.threads)
}
