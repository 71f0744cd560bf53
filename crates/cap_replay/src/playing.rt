//! The run of a program along a schedule, with the text that tells it.
ghost use Rattle.std.specs.Prelude.{◌≡◌, ◌≤◌, ◌<◌, ◌++◌, ◌-◌};
ghost use Rattle.std.specs.Prelude.{◌^◌, suc, pos, false};
ghost use Rattle.std.specs.Prelude.{length, slice_get, string_bytes, IfOk, IsSomeAnd, OnOk};
ghost use Rattle.std.specs.Fmt.{signed_decimal};
ghost use Rattle.cap_prog.specs.Views.{program_view};
ghost use Rattle.cap_machine.specs.Cells.{AscendsFrom};
ghost use Rattle.cap_machine.specs.declared.event.Event.TheVariants.{Cas};
ghost use Rattle.cap_machine.specs.View.{configuration, is_stopped, RunsProgram};
ghost use Rattle.cap_replay.specs.RunText.{pair_text, event_text};
ghost use Rattle.cap_replay.specs.RunText.{head_text, step_line as the_step_line};
ghost use Rattle.cap_replay.specs.RunText.{last_line as the_last_line, run_text, played_view};
ghost use Rattle.cap_replay.specs.Advancing.{is_fault as fault_event, Advances};

use cap_machine::{Ahead, Entry, Event, Machine, StepError};
use cap_prog::Program;
use cap_replay_schedules::Schedule;
use cap_syntax::Place;
use std::alloc::{AllocError, Global};

/// How a run along a schedule ends, with the number of its last entry, counted from 1: after all
/// entries, of which there may be none; at a fault; at an entry that is not enabled; or at one that
/// makes a number past 128 bits.
#[derive(Clone, Copy, Debug, PartialEq, Eq)]
pub enum End {
    Ended(u64),
    Stopped(u64),
    NotEnabled(u64),
    Wide(u64),
}

/// The text of a run, and how it ends.
#[derive(Drop)]
pub struct Played {
    pub text: Vec<u8>,
    pub end: End,
}

// A name, and behind it two numbers.
fn pair_text(alloc: Global, name: &str, left: i128, right: i128) -> Result<String, AllocError>
    ensures { IfOk result (λ text. string_bytes text ≡ name.now ++ pair_text left right) }
{
    let mut pair = format!(in alloc; "{left} ")?;
    let right = format!(in alloc; "{right}")?;
    pair.push_str(right.as_str())?;
    let mut text = String::from_str(alloc, name)?;
    text.push_str(pair.as_str())?;
    Ok(text)
}

// A name, and behind it a number.
fn number_text(alloc: Global, name: &str, number: i128) -> Result<String, AllocError>
    ensures { IfOk result (λ text. string_bytes text ≡ name.now ++ signed_decimal number) }
{
    let mut text = String::from_str(alloc, name)?;
    let number = format!(in alloc; "{number}")?;
    text.push_str(number.as_str())?;
    Ok(text)
}

// A compare-and-swap at a cell, and whether it swapped.
fn swap_text(alloc: Global, cell: i128, swapped: bool) -> Result<String, AllocError>
    ensures { IfOk result (λ text. string_bytes text ≡ event_text (Cas cell swapped)) }
{
    if swapped {
        format!(in alloc; "cas {cell} 1")
    } else {
        format!(in alloc; "cas {cell} 0")
    }
}

fn event_text(alloc: Global, event: Event) -> Result<String, AllocError>
    ensures { IfOk result (λ text. string_bytes text ≡ event_text event) }
{
    match event {
        Event::Set(value) => number_text(alloc, "set ", value),
        Event::Read(cell, value) => pair_text(alloc, "read ", cell, value),
        Event::Write(cell, value) => pair_text(alloc, "write ", cell, value),
        Event::Cas(cell, swapped) => swap_text(alloc, cell, swapped),
        Event::Faa(cell, value) => pair_text(alloc, "faa ", cell, value),
        Event::Dispose(cell) => number_text(alloc, "dispose ", cell),
        Event::Alloc(base) => number_text(alloc, "alloc ", base),
        Event::Call => String::from_str(alloc, "call"),
        Event::Fork(thread) => format!(in alloc; "fork {thread}"),
        Event::Branch(true) => String::from_str(alloc, "branch 1"),
        Event::Branch(false) => String::from_str(alloc, "branch 0"),
        Event::Assert => String::from_str(alloc, "assert"),
        Event::Return(value) => number_text(alloc, "return ", value),
        Event::End(value) => number_text(alloc, "end ", value),
        Event::Bad(cell) => number_text(alloc, "fault ", cell),
        Event::Failed(_) => String::from_str(alloc, "failed"),
    }
}

fn head_text(alloc: Global, number: u64, thread: u32, place: Place) -> Result<String, AllocError>
    ensures { IfOk result (λ text. string_bytes text ≡ head_text number thread place) }
{
    let mut text = format!(in alloc; "{number} ")?;
    let thread = format!(in alloc; "{thread} ")?;
    text.push_str(thread.as_str())?;
    let place = format!(in alloc; "{place} ")?;
    text.push_str(place.as_str())?;
    Ok(text)
}

/// The last line of a run, which says how it ends. The only error is want of memory.
pub fn last_line(alloc: Global, end: End) -> Result<String, AllocError>
    ensures { IfOk result (λ text. string_bytes text ≡ the_last_line end) }
{
    match end {
        End::Ended(count) => format!(in alloc; "ended {count}\n"),
        End::Stopped(number) => format!(in alloc; "stopped {number}\n"),
        End::NotEnabled(number) => format!(in alloc; "not enabled {number}\n"),
        End::Wide(number) => format!(in alloc; "wide {number}\n"),
    }
}

/// Writes the line of a step: its number from 1, its thread, and the place of what was ahead of it
/// and what it did. The only error is want of memory.
pub fn push_step(
    alloc: Global,
    text: &mut Vec<u8>,
    number: u64,
    thread: u32,
    ahead: Option<Ahead>,
    event: Event,
) -> Result<(), AllocError>
    ensures { OnOk result
        (text.new.items ≡ text.old.items ++ the_step_line number thread ahead event) }
{
    match ahead {
        None => Ok(()),
        Some(ahead) => {
            let head = head_text(alloc, number, thread, ahead.place)?;
            text.extend_from_slice(head.as_bytes())?;
            let event = event_text(alloc, event)?;
            text.extend_from_slice(event.as_bytes())?;
            text.push(b'\n')?;
            Ok(())
        }
    }
}

fn is_fault(event: Event) -> bool
    ensures { result ≡ fault_event event }
{
    matches!(event, Event::Bad(_) | Event::Failed(_))
}

// One step of a run, after so many: its line is written, and where the run ends with it, how.
fn advance(
    alloc: Global,
    program: &Program,
    machine: &mut Machine,
    entry: &Entry,
    count: u64,
    text: &mut Vec<u8>,
) -> Result<Option<End>, AllocError>
    requires fits { RunsProgram (program_view program.now) machine.old }
    requires runs { is_stopped machine.old ≡ false }
    requires room { let p = program_view program.now in
        length (configuration p machine.old).threads < 2 ^ 32 - 1 }
    requires count { count < 2 ^ 32 }
    ensures advances { IfOk result (λ end. Advances (program_view program.now) count entry.now
        machine.old machine.new text.old.items text.new.items end) }
    ensures fits { RunsProgram (program_view program.now) machine.new }
    ensures threads { let p = program_view program.now in
        length (configuration p machine.new).threads
        ≤ suc (length (configuration p machine.old).threads) }
{
    let number = count + 1;
    let ahead = machine.ahead(program, entry.thread);
    match machine.step(alloc, program, entry) {
        Ok(event) => {
            push_step(alloc, text, number, entry.thread, ahead, event)?;
            if is_fault(event) {
                Ok(Some(End::Stopped(number)))
            } else {
                Ok(None)
            }
        }
        Err(StepError::NotEnabled) => Ok(Some(End::NotEnabled(number))),
        Err(StepError::Wide) => Ok(Some(End::Wide(number))),
        Err(StepError::OutOfMemory) => Err(AllocError),
    }
}

fn finish(alloc: Global, text: Vec<u8>, end: End) -> Result<Played, AllocError>
    ensures { IfOk result (λ r. (r.text.items ≡ text.items ++ the_last_line end) × (r.end ≡ end)) }
{
    let mut text = text;
    let line = last_line(alloc, end)?;
    text.extend_from_slice(line.as_bytes())?;
    Ok(Played { text, end })
}

/// The text of the run along a schedule: a line for each step, with the step's number, its thread,
/// the place of its statement and what it did, and a last line that says how the run ends. An entry
/// that is not enabled, or makes a number past 128 bits, ends the run and has no line; so does a
/// fault, which has one. There are as many arguments as `main` has parameters, the addresses of the
/// heap are at least 1 and ascend, and there are at most 100,000 entries.
pub fn replay(alloc: Global, program: &Program, schedule: &Schedule) -> Result<Played, AllocError>
    requires arguments { let p = program_view program.now in
        IsSomeAnd (slice_get p.functions p.main) (λ f. length schedule.now.args.items ≡ f.params) }
    requires addresses { AscendsFrom (pos 0) schedule.now.heap.items }
    requires entries { length schedule.now.entries.items ≤ 100000 }
    ensures { IfOk result
        (λ r. played_view r ≡ run_text (program_view program.now) schedule.now) }
{
    let mut machine = Machine::start(alloc, program, &schedule.args, &schedule.heap)?;
    let mut text = Vec::new(alloc);
    let mut count = 0;
    for entry in &schedule.entries {
        match advance(alloc, program, &mut machine, entry, count, &mut text)? {
            Some(end) => return finish(alloc, text, end),
            None => count += 1,
        }
    }
    finish(alloc, text, End::Ended(count))
}
