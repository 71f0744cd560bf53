//! The machine: a heap and threads of frames, as code has them.
ghost use Rattle.std.specs.Prelude.{◌≡◌, ◌<◌, ◌∷◌, pos, false, length, List, IfOk, OnOk, OnErr};
ghost use Rattle.std.specs.Prelude.{slice_get, IsSomeAnd, Some};
ghost use Rattle.std.specs.FinMap.{from_entries};
ghost use Rattle.cap_prog.specs.Program.{PlainProgram};
ghost use Rattle.cap_prog.specs.Views.{program_view};
ghost use Rattle.cap_prog.specs.WellFormed.{IsWellFormed};
ghost use Rattle.cap_machine.specs.Machine as plain;
ghost use Rattle.cap_machine.specs.Cells.{AscendsFrom};
ghost use Rattle.cap_machine.specs.View.{configuration, is_stopped, frame_view, IsPlaced, AllArePlaced};
ghost use Rattle.cap_machine.specs.View.{RunsProgram};
ghost use Rattle.cap_machine.specs.Ready.{HasTop, CanChange, HasChanged, HasThread, IsUnchanged};
ghost use Rattle.cap_machine.specs.Changes.{passed, entered, with_top, returned, return_event};

use crate::event::Event;
use crate::frame::Frame;
use crate::heap::Heap;
use crate::thread;
use cap_prog::Program;
use std::alloc::{AllocError, Global};

/// A program's run: the heap, the frames of each thread with the top one last, and whether a fault
/// stopped it.
pub struct Machine {
    pub(crate) heap: Heap,
    pub(crate) threads: Vec<Vec<Frame>>,
    pub(crate) stopped: bool,
}

impl Drop for Machine {
    fn drop(self) {
        let Machine {
            heap: _,
            threads: _,
            stopped: _,
        } = self;
    }
}

impl Machine {
    /// The machine in which `main` begins, with its locals at 0. There are as many `args` as `main`
    /// has parameters. The cells of `heap` are pairs of an address and its value, and the addresses
    /// are at least 1 and ascend.
    pub fn start(
        alloc: Global,
        program: &Program,
        args: &[i128],
        heap: &[(i128, i128)],
    ) -> Result<Machine, AllocError>
        requires arguments { let p = program_view program.now in
            IsSomeAnd (slice_get p.functions p.main) (λ f. length args.now ≡ f.params) }
        requires addresses { AscendsFrom (pos 0) heap.now }
        ensures begins { let p = program_view program.now in
            IfOk result (λ m. configuration p m ≡ plain.start p args.now (from_entries heap.now)) }
        ensures runs { IfOk result (λ m. is_stopped m ≡ false) }
        ensures fits { IfOk result (λ m. RunsProgram (program_view program.now) m) }
    {
        let cells = Heap::of(alloc, heap)?;
        let args = Vec::from_slice(alloc, args)?;
        let mut frames = Vec::new(alloc);
        frames.push(Frame::of(alloc, program, program.main(), args, None)?)?;
        let mut threads = Vec::new(alloc);
        threads.push(frames)?;
        Ok(Machine {
            heap: cells,
            threads,
            stopped: false,
        })
    }

    // The store of a thread's top frame.
    pub(crate) fn store(&self, thread: u32) -> &[i128]
        requires { HasTop self.now thread }
        ensures { (p : PlainProgram) (f : plain.Frame) (fs : List plain.Frame) →
            slice_get (configuration p self.now).threads thread ≡ Some (f ∷ fs)
            → result.now ≡ f.store }
    {
        let frames = &self.threads[thread as usize];
        &frames[frames.len() - 1].store
    }

    // A thread's top frame passes its next statement.
    pub(crate) fn pass(&mut self, program: &Program, thread: u32)
        requires { CanChange (program_view program.now) self.old thread }
        ensures { HasChanged (program_view program.now) (with_top passed) thread self.old self.new }
    {
        thread::pass(program, &mut self.threads[thread as usize]);
    }

    // It also writes a local.
    pub(crate) fn assign(&mut self, program: &Program, thread: u32, variable: u32, value: i128)
        requires { CanChange (program_view program.now) self.old thread }
        ensures { HasChanged (program_view program.now)
            (with_top (λ f. plain.with_value (passed f) variable value)) thread self.old self.new }
    {
        thread::assign(program, &mut self.threads[thread as usize], variable, value);
    }

    // It enters a block of its next statement.
    pub(crate) fn enter(
        &mut self,
        program: &Program,
        thread: u32,
        side: bool,
    ) -> Result<(), AllocError>
        requires { CanChange (program_view program.now) self.old thread }
        ensures entered { OnOk result (HasChanged (program_view program.now)
            (with_top (entered side)) thread self.old self.new) }
        ensures kept { OnErr result (IsUnchanged (program_view program.now) self.old self.new) }
    {
        thread::enter(program, &mut self.threads[thread as usize], side)
    }

    // It passes its next statement, and a new frame is on top of it.
    pub(crate) fn push(
        &mut self,
        program: &Program,
        thread: u32,
        callee: Frame,
    ) -> Result<(), AllocError>
        requires can { CanChange (program_view program.now) self.old thread }
        requires callee { IsPlaced (program_view program.now) callee }
        ensures pushed { let p = program_view program.now in OnOk result (HasChanged p
            (λ fs. frame_view p callee ∷ with_top passed fs) thread self.old self.new) }
        ensures kept { OnErr result (IsUnchanged (program_view program.now) self.old self.new) }
    {
        thread::call(program, &mut self.threads[thread as usize], callee)
    }

    // It ends, and its caller gets the value.
    pub(crate) fn pop(&mut self, _program: &Program, thread: u32, value: i128) -> Event
        requires { CanChange (program_view _program.now) self.old thread }
        ensures popped { HasChanged (program_view _program.now)
            (returned value) thread self.old self.new }
        ensures event { (fs : plain.Thread) →
            slice_get (configuration (program_view _program.now) self.old).threads thread
            ≡ Some fs → result ≡ return_event value fs }
    {
        thread::give_back(&mut self.threads[thread as usize], value)
    }

    // A new thread begins with this frame.
    pub(crate) fn add_thread(
        &mut self,
        alloc: Global,
        _program: &Program,
        first: Frame,
    ) -> Result<(), AllocError>
        requires places { AllArePlaced (program_view _program.now) self.old }
        requires first { IsPlaced (program_view _program.now) first }
        ensures added { let p = program_view _program.now in
            OnOk result (HasThread p (frame_view p first) self.old self.new) }
        ensures kept { OnErr result (IsUnchanged (program_view _program.now) self.old self.new) }
    {
        let mut frames = Vec::new(alloc);
        frames.push(first)?;
        self.threads.push(frames)?;
        Ok(())
    }
}
