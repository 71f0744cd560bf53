//! Schedules are drawn entry by entry, and run as they are drawn.
ghost use Rattle.std.specs.Prelude.{◌≡◌, ◌<◌, ◌≤◌, ◌-◌, ◌^◌, ◌≤ℤ◌, suc, pos, false, length};
ghost use Rattle.std.specs.Prelude.{List, [], IfOk, OnOk, MatchOption, option_map};
ghost use Rattle.rand_pcg.specs.Lcg.{Lcg};
ghost use Rattle.cap_prog.specs.Program.{PlainProgram};
ghost use Rattle.cap_prog.specs.Views.{program_view};
ghost use Rattle.cap_machine.specs.Machine.{Configuration, step};
ghost use Rattle.cap_machine.specs.Results.{entry_steps, are_narrow};
ghost use Rattle.cap_machine.specs.View.{configuration, is_stopped, RunsProgram};
ghost use Rattle.cap_replay.specs.Advancing.{is_fault as fault_event};
ghost use Rattle.cap_gen_schedules.specs.Drawn.{seeded, word_of, after_word, alive, chosen};
ghost use Rattle.cap_gen_schedules.specs.Drawn.{free_address, next_cells, entry_of};
ghost use Rattle.cap_gen_schedules.specs.Drawn.{Drawn, taken, turn, draw_one, first_fault};
ghost use Rattle.cap_gen_schedules.specs.Finding.{drawn_by, Continues, drawn_view, Finds};
ghost use Rattle.cap_gen_schedules.specs.Laws.{TakesNothing};

use cap_machine::{Entry, Event, Machine, StepError};
use cap_prog::Program;
use cap_replay_schedules::Schedule;
use rand_core::SeedableRng;
use rand_core::utils::NextWord;
use rand_pcg::Lcg64Xsh32;
use std::alloc::{AllocError, Global};

// What comes of a turn: the schedule goes on, or it ends, with a fault or without one.
enum Turn {
    GoesOn,
    Faults,
    Ends,
}

// A schedule has no more entries than these.
const MOST_ENTRIES: u32 = 1000;

#[tactic(auto, unfolding(crate::specs::Drawn::seeded))]
fn seeded(number: u64) -> Lcg64Xsh32
    ensures { result ≡ seeded number }
{
    Lcg64Xsh32::seed_from_u64(number)
}

#[tactic(auto, unfolding(crate::specs::Drawn::word_of, crate::specs::Drawn::after_word))]
fn next_word(words: &mut Lcg64Xsh32) -> u32
    ensures word { result ≡ word_of words.old }
    ensures after { words.new ≡ after_word words.old }
{
    words.next_word()
}

// Lists the threads that have not ended, in ascending order.
fn list_alive(
    program: &Program,
    machine: &Machine,
    threads: &mut Vec<u32>,
) -> Result<(), AllocError>
    requires fits { RunsProgram (program_view program.now) machine.now }
    requires room { let p = program_view program.now in
        length (configuration p machine.now).threads < 2 ^ 32 }
    ensures { let p = program_view program.now in
        OnOk result (threads.new.items ≡ alive (configuration p machine.now)) }
{
    threads.clear();
    for thread in 0..machine.threads() {
        if machine.ahead(program, thread).is_some() {
            threads.push(thread)?;
        }
    }
    Ok(())
}

// The address behind the greatest one, and none where it leaves 128 bits.
fn free_address(machine: &Machine) -> Option<i128>
    ensures { (p : PlainProgram) → let a = free_address (configuration p machine.now).heap in
        MatchOption result (pos (2 ^ 127) ≤ℤ a) (λ r. r ≡ a) }
{
    match machine.top_address() {
        None => Some(1),
        Some(top) => top.checked_add(1),
    }
}

fn next_cells(program: &Program, machine: &Machine, thread: u32) -> Option<u32>
    requires { RunsProgram (program_view program.now) machine.now }
    ensures { result ≡ next_cells (configuration (program_view program.now) machine.now) thread }
{
    machine.ahead(program, thread)?.cells
}

// The entry of a thread's next step, and none where a number of it leaves 128 bits.
fn entry_of(program: &Program, machine: &Machine, thread: u32) -> Option<Entry>
    requires { RunsProgram (program_view program.now) machine.now }
    ensures { let c = configuration (program_view program.now) machine.now in MatchOption result
        (are_narrow (entry_steps c (entry_of c thread)) ≡ false) (λ e. e ≡ entry_of c thread) }
{
    match next_cells(program, machine, thread) {
        None => Some(Entry { thread, base: None }),
        Some(_) => {
            let base = free_address(machine)?;
            Some(Entry {
                thread,
                base: Some(base),
            })
        }
    }
}

fn is_fault(event: Event) -> bool
    ensures { result ≡ fault_event event }
{
    matches!(event, Event::Bad(_) | Event::Failed(_))
}

// Makes the step of an entry, behind others.
fn make_step(
    alloc: Global,
    program: &Program,
    machine: &mut Machine,
    entry: Entry,
    entries: &mut Vec<Entry>,
) -> Result<Turn, AllocError>
    requires fits { RunsProgram (program_view program.now) machine.old }
    requires runs { is_stopped machine.old ≡ false }
    requires room { let p = program_view program.now in
        length (configuration p machine.old).threads < 2 ^ 32 - 1 }
    ensures takes { let p = program_view program.now in let c = configuration p machine.old in
        IfOk result (λ t. (g : Lcg) (more : Configuration → List Entry → Lcg → Drawn) →
        taken (are_narrow (entry_steps c entry)) entry entries.old.items g more (step p c entry)
        ≡ drawn_by t more (configuration p machine.new) entries.new.items g) }
    ensures continues { IfOk result (λ t. Continues t machine.new) }
    ensures fits { RunsProgram (program_view program.now) machine.new }
    ensures threads { let p = program_view program.now in
        length (configuration p machine.new).threads
        ≤ suc (length (configuration p machine.old).threads) }
{
    match machine.step(alloc, program, &entry) {
        Ok(event) => {
            entries.push(entry)?;
            if is_fault(event) {
                Ok(Turn::Faults)
            } else {
                Ok(Turn::GoesOn)
            }
        }
        Err(StepError::NotEnabled) => Ok(Turn::Ends),
        Err(StepError::Wide) => Ok(Turn::Ends),
        Err(StepError::OutOfMemory) => Err(AllocError),
    }
}

// One turn. The list of threads is room for those that have not ended.
fn take_turn(
    alloc: Global,
    program: &Program,
    machine: &mut Machine,
    words: &mut Lcg64Xsh32,
    threads: &mut Vec<u32>,
    entries: &mut Vec<Entry>,
) -> Result<Turn, AllocError>
    requires fits { RunsProgram (program_view program.now) machine.old }
    requires runs { is_stopped machine.old ≡ false }
    requires room { let p = program_view program.now in
        length (configuration p machine.old).threads < 2 ^ 32 - 1 }
    ensures turns { let p = program_view program.now in let c = configuration p machine.old in
        IfOk result (λ t. (more : Configuration → List Entry → Lcg → Drawn) →
        turn p words.old c entries.old.items more (alive c)
        ≡ drawn_by t more (configuration p machine.new) entries.new.items words.new) }
    ensures continues { IfOk result (λ t. Continues t machine.new) }
    ensures fits { RunsProgram (program_view program.now) machine.new }
    ensures threads { let p = program_view program.now in
        length (configuration p machine.new).threads
        ≤ suc (length (configuration p machine.old).threads) }
{
    list_alive(program, machine, threads)?;
    if threads.is_empty() {
        return Ok(Turn::Ends);
    }
    let word = next_word(words);
    let thread = threads[word as usize % threads.len()];
    match entry_of(program, machine, thread) {
        None => Ok(Turn::Ends),
        Some(entry) => make_step(alloc, program, machine, entry, entries),
    }
}

// The entries of one schedule, where it ends in a fault.
fn draw(
    alloc: Global,
    program: &Program,
    words: &mut Lcg64Xsh32,
    threads: &mut Vec<u32>,
) -> Result<Option<Vec<Entry>>, AllocError>
    requires { TakesNothing (program_view program.now) }
    ensures { IfOk result (λ found. draw_one (program_view program.now) words.old
        ≡ drawn_view (option_map (λ es. es.items) found) words.new) }
{
    let mut machine = Machine::start(alloc, program, &[], &[])?;
    let mut entries = Vec::new(alloc);
    for _ in 0..MOST_ENTRIES {
        match take_turn(alloc, program, &mut machine, words, threads, &mut entries)? {
            Turn::GoesOn => {}
            Turn::Faults => return Ok(Some(entries)),
            Turn::Ends => return Ok(None),
        }
    }
    Ok(None)
}

fn schedule_of(alloc: Global, entries: Vec<Entry>) -> Schedule
    ensures args { result.args.items ≡ [] }
    ensures heap { result.heap.items ≡ [] }
    ensures entries { result.entries.items ≡ entries.items }
{
    Schedule {
        args: Vec::new(alloc),
        heap: Vec::new(alloc),
        entries,
    }
}

/// The first of so many schedules that ends in a fault, up to that fault. The schedules are drawn
/// one behind the other from the words of a number, and each begins at the empty heap: at each turn
/// a word chooses one of the threads that have not ended, and what that allocates comes behind all
/// cells. A schedule ends where all threads have ended, behind an entry that faults or is the
/// 1,000th, and before one that makes a number past 128 bits. The text of what is found
/// (`schedule_text`) is read as it (`found_schedules_are_read_back`). `main` has no parameters. The
/// only error is want of memory.
pub fn stray(
    alloc: Global,
    program: &Program,
    number: u64,
    count: u64,
) -> Result<Option<Schedule>, AllocError>
    requires { TakesNothing (program_view program.now) }
    ensures { let p = program_view program.now in
        IfOk result (λ found. Finds found (first_fault p count (seeded number))) }
{
    let mut words = seeded(number);
    let mut threads = Vec::new(alloc);
    for _ in 0..count {
        if let Some(entries) = draw(alloc, program, &mut words, &mut threads)? {
            return Ok(Some(schedule_of(alloc, entries)));
        }
    }
    Ok(None)
}
