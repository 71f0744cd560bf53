//! One step, and what there is to see before it.
ghost use Rattle.std.specs.Prelude.{◌≡◌, ◌↔◌, ◌<◌, ◌≤◌, ◌-◌};
ghost use Rattle.std.specs.Prelude.{[], ◌^◌, false, suc, length, slice_get, unwrap_or};
ghost use Rattle.std.specs.Prelude.{None, Err, MatchOption, option_map, option_copied, IfSome};
ghost use Rattle.cap_prog.specs.Program.{PlainProgram};
ghost use Rattle.cap_prog.specs.Views.{program_view, statement_view, act_view};
ghost use Rattle.cap_machine.specs.declared.event.StepError.TheVariants.{NotEnabled};
ghost use Rattle.cap_machine.specs.Cells.{IsTop};
ghost use Rattle.cap_machine.specs.Laws.{running};
ghost use Rattle.cap_machine.specs.View.{configuration, frame_view, thread_view, IsPlaced};
ghost use Rattle.cap_machine.specs.View.{AllArePlaced, RunsProgram};
ghost use Rattle.cap_machine.specs.View.{Steps, is_enabled};
ghost use Rattle.cap_machine.specs.Ready.{IsReady, ahead, cells_of as the_cells_of};

use crate::event::{Ahead, Entry, Event, StepError};
use crate::frame::Frame;
use crate::machine::Machine;
use crate::thread;
use cap_prog::{Act, Program, Statement};
use std::alloc::Global;

// The cells of an allocation.
fn cells_of(act: &Act) -> Option<u32>
    ensures { result ≡ the_cells_of (act_view act.now) }
{
    match act {
        Act::Alloc(_, count) => Some(*count),
        Act::Set(_, _)
        | Act::Read(_, _)
        | Act::Write(_, _)
        | Act::Cas(_, _, _, _)
        | Act::Faa(_, _, _)
        | Act::Dispose(_)
        | Act::Call(_, _, _)
        | Act::Fork(_, _)
        | Act::If(_, _, _)
        | Act::While(_, _, _)
        | Act::Assert(_)
        | Act::Return(_) => None,
    }
}

fn thread_at(threads: &[Vec<Frame>], thread: u32) -> Option<&Vec<Frame>>
    ensures { option_copied result ≡ slice_get threads.now thread }
{
    threads.get(thread as usize)
}

impl Machine {
    // A thread's top frame, if the thread is there and has not ended.
    fn top(&self, thread: u32) -> Option<&Frame>
        ensures shows { (p : PlainProgram) → option_map (frame_view p) (option_copied result)
            ≡ running (configuration p self.now) thread }
        ensures placed { (p : PlainProgram) →
            AllArePlaced p self.now → IfSome result (λ f. IsPlaced p f.now) }
    {
        match thread_at(&self.threads, thread) {
            None => None,
            Some(frames) => thread::top(frames),
        }
    }

    // The statement that the entry takes, if the entry is enabled.
    fn ready<'a>(&self, program: &'a Program, entry: &Entry) -> Option<&'a Statement>
        requires { RunsProgram (program_view program.now) self.now }
        ensures { let p = program_view program.now in MatchOption result
            (is_enabled p self.now entry.now ≡ false)
            (λ s. IsReady p self.now entry.now (statement_view s.now)) }
    {
        if self.stopped {
            return None;
        }
        let frame = self.top(entry.thread)?;
        let statement = frame.ahead(program)?;
        if self.heap.suits(&statement.act, entry.base) {
            Some(statement)
        } else {
            None
        }
    }

    // Takes the statement that is ready.
    fn take(
        &mut self,
        alloc: Global,
        program: &Program,
        entry: &Entry,
        statement: &Statement,
    ) -> Result<Event, StepError>
        requires ready { IsReady (program_view program.now) self.old entry.now
            (statement_view statement.now) }
        requires room { let p = program_view program.now in
            length (configuration p self.old).threads < 2 ^ 32 - 1 }
        ensures steps { Steps (program_view program.now) entry.now self.old self.new result }
        ensures places { AllArePlaced (program_view program.now) self.new }
    {
        match &statement.act {
            Act::Set(variable, term) => self.set(program, entry, *variable, term),
            Act::Read(variable, address) => self.read(program, entry, *variable, address),
            Act::Write(address, term) => self.write(program, entry, address, term),
            Act::Cas(variable, address, old, new) => {
                self.swap(program, entry, *variable, address, old, new)
            }
            Act::Faa(variable, address, term) => {
                self.fetch_add(program, entry, *variable, address, term)
            }
            Act::Dispose(address) => self.dispose(program, entry, address),
            Act::Alloc(variable, count) => self.allocate(program, entry, *variable, *count),
            Act::Call(destination, function, args) => {
                self.call(alloc, program, entry, *destination, *function, args)
            }
            Act::Fork(function, args) => self.fork(alloc, program, entry, *function, args),
            Act::If(comparison, _, _) => self.branch(program, entry, comparison),
            Act::While(comparison, _, _) => self.repeat(program, entry, comparison),
            Act::Assert(comparison) => self.check(program, entry, comparison, statement.place),
            Act::Return(term) => self.give_back(program, entry, term),
        }
    }

    /// Whether the entry is enabled: no fault has stopped the machine, the thread is there and has
    /// not ended, and a base is given exactly where its next statement is an allocation, is at
    /// least 1, and has no cell at the addresses from it on, as many as are allocated. It takes no
    /// memory.
    pub fn enabled(&self, program: &Program, entry: &Entry) -> bool
        requires { RunsProgram (program_view program.now) self.now }
        ensures { result ≡ is_enabled (program_view program.now) self.now entry.now }
    {
        self.ready(program, entry).is_some()
    }

    /// One step, which is one statement of the entry's thread, and what it did. `NotEnabled` comes
    /// exactly where `enabled` says no, and `Wide` exactly where it says yes and a product or a
    /// partial sum of a term that the statement evaluates, the sum that it leaves in a cell, or the
    /// last address of what it allocates, leaves 128 bits. After an error the machine is as it was.
    /// A fault leaves the configuration as it was and stops the machine. There are fewer than
    /// 4,294,967,295 threads before the step, and at most one more after it.
    pub fn step(
        &mut self,
        alloc: Global,
        program: &Program,
        entry: &Entry,
    ) -> Result<Event, StepError>
        requires fits { RunsProgram (program_view program.now) self.old }
        requires room { let p = program_view program.now in
            length (configuration p self.old).threads < 2 ^ 32 - 1 }
        ensures steps { Steps (program_view program.now) entry.now self.old self.new result }
        ensures disabled { is_enabled (program_view program.now) self.old entry.now ≡ false
            → result ≡ Err NotEnabled }
        ensures fits { RunsProgram (program_view program.now) self.new }
        ensures threads { let p = program_view program.now in
            length (configuration p self.new).threads
            ≤ suc (length (configuration p self.old).threads) }
    {
        match self.ready(program, entry) {
            None => Err(StepError::NotEnabled),
            Some(statement) => self.take(alloc, program, entry, statement),
        }
    }

    /// The thread's next statement, and `None` exactly where there is no such thread or it has
    /// ended. Threads are counted from 0. It takes no memory.
    pub fn ahead(&self, program: &Program, thread: u32) -> Option<Ahead>
        requires { RunsProgram (program_view program.now) self.now }
        ensures ahead { result ≡ ahead (configuration (program_view program.now) self.now) thread }
        ensures none { (result ≡ None)
            ↔ (running (configuration (program_view program.now) self.now) thread ≡ None) }
    {
        let frame = self.top(thread)?;
        let statement = frame.ahead(program)?;
        Some(Ahead {
            function: frame.function,
            number: statement.number,
            place: statement.place,
            cells: cells_of(&statement.act),
        })
    }

    /// Lends the frames of a thread, the top one last; there are none where there is no such thread.
    /// Threads are counted from 0. It takes no memory.
    pub fn frames(&self, thread: u32) -> &[Frame]
        ensures { (p : PlainProgram) → thread_view p result.now
            ≡ unwrap_or (slice_get (configuration p self.now).threads thread) [] }
    {
        match thread_at(&self.threads, thread) {
            None => &[],
            Some(frames) => frames,
        }
    }

    /// The number of threads, those that have ended included. It takes no memory.
    pub fn threads(&self) -> u32
        ensures { (p : PlainProgram) → let n = length (configuration p self.now).threads in
            n < 2 ^ 32 → result ≡ n }
    {
        u32::try_from(self.threads.len()).unwrap_or(u32::MAX)
    }

    /// The greatest address of the heap, and `None` exactly where it has no cell. It takes no
    /// memory.
    pub fn top_address(&self) -> Option<i128>
        ensures { (p : PlainProgram) → IsTop (configuration p self.now).heap result }
    {
        self.heap.top()
    }
}
