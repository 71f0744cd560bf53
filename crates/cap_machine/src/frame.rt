//! The frames of a thread.
ghost use Rattle.std.specs.Prelude.{◌≡◌, ◌<◌, ◌∷◌, length, IfOk, OnOk, OnErr, slice_get};
ghost use Rattle.std.specs.Prelude.{option_map, option_copied, Some};
ghost use Rattle.std.specs.Vec.{vec_len};
ghost use Rattle.cap_prog.specs.Program.{PlainProgram, PlainFunction};
ghost use Rattle.cap_prog.specs.Views.{program_view, statement_view, block_view};
ghost use Rattle.cap_prog.specs.WellFormed.{IsWellFormed};
ghost use Rattle.cap_machine.specs.Machine.{with_value, new_frame};
ghost use Rattle.cap_machine.specs.Places.{here};
ghost use Rattle.cap_machine.specs.View.{frame_view, thread_view, body_in, IsPlaced, ArePlaced};
ghost use Rattle.cap_machine.specs.Changes.{tail_of, passed, entered, with_top, returned, return_event};

use crate::event::Event;
use crate::position::{Level, ahead, block_at, past, settle};
use cap_prog::{Program, Statement};
use std::alloc::{AllocError, Global};

/// A function that runs: its number, what it was given, its parameters and locals, its place in the
/// function's body, and the local of its caller that gets the result.
pub struct Frame {
    pub(crate) function: u32,
    pub(crate) arguments: Vec<i128>,
    pub(crate) store: Vec<i128>,
    pub(crate) levels: Vec<Level>,
    pub(crate) next: usize,
    pub(crate) destination: Option<u32>,
}

impl Drop for Frame {
    fn drop(self) {
        let Frame {
            function: _,
            arguments: _,
            store: _,
            levels: _,
            next: _,
            destination: _,
        } = self;
    }
}

impl Frame {
    /// The frame in which a function begins.
    pub(crate) fn of(
        alloc: Global,
        program: &Program,
        function: u32,
        arguments: Vec<i128>,
        destination: Option<u32>,
    ) -> Result<Frame, AllocError>
        requires { function < length (program_view program.now).functions }
        ensures begins { (g : PlainFunction) →
            slice_get (program_view program.now).functions function ≡ Some g →
            IfOk result (λ f. frame_view (program_view program.now) f
            ≡ new_frame function g arguments.items destination) }
        ensures placed { IfOk result (λ f. IsPlaced (program_view program.now) f) }
    {
        let locals = program.function(function).locals;
        let zeros: Vec<i128> = vec![in alloc; 0; locals as usize]?;
        let mut store = Vec::from_slice(alloc, &arguments)?;
        store.extend_from_slice(&zeros)?;
        Ok(Frame {
            function,
            arguments,
            store,
            levels: Vec::new(alloc),
            next: 0,
            destination,
        })
    }

    /// The number of its function. It takes no memory.
    pub fn function(&self) -> u32
        ensures { (p : PlainProgram) → result ≡ (frame_view p self.now).function }
    {
        self.function
    }

    /// Lends what the function was given. It takes no memory.
    pub fn arguments(&self) -> &[i128]
        ensures { (p : PlainProgram) → result.now ≡ (frame_view p self.now).arguments }
    {
        &self.arguments
    }

    /// Lends the values of its parameters, and then of its locals. It takes no memory.
    pub fn store(&self) -> &[i128]
        ensures { (p : PlainProgram) → result.now ≡ (frame_view p self.now).store }
    {
        &self.store
    }

    // The body of the frame's function.
    fn body<'a>(&self, program: &'a Program) -> &'a [Statement]
        requires { self.now.function < length (program_view program.now).functions }
        ensures body { block_view result.now ≡ body_in (program_view program.now) self.now }
        ensures well_formed { IsWellFormed (program_view program.now) }
    {
        &program.functions()[self.function as usize].body
    }

    /// The frame's next statement.
    pub(crate) fn ahead<'a>(&self, program: &'a Program) -> Option<&'a Statement>
        requires { IsPlaced (program_view program.now) self.now }
        ensures next { let f = frame_view (program_view program.now) self.now in
            f.rest ≡ here (option_map statement_view (option_copied result)) (tail_of f.rest) }
        ensures well_formed { IsWellFormed (program_view program.now) }
    {
        ahead(self.body(program), &self.levels, self.next)
    }

    // Passes the next statement.
    pub(crate) fn pass(&mut self, program: &Program)
        requires { IsPlaced (program_view program.now) self.old }
        ensures passed { let p = program_view program.now in
            frame_view p self.new ≡ passed (frame_view p self.old) }
        ensures placed { IsPlaced (program_view program.now) self.new }
    {
        let body = &program.function(self.function).body;
        let next = past(block_at(body, &self.levels), self.next);
        self.next = settle(body, &mut self.levels, next);
    }

    // Enters a block of the next statement.
    pub(crate) fn enter(&mut self, program: &Program, side: bool) -> Result<(), AllocError>
        requires { IsPlaced (program_view program.now) self.old }
        ensures entered { let p = program_view program.now in
            OnOk result (frame_view p self.new ≡ entered side (frame_view p self.old)) }
        ensures same { let p = program_view program.now in
            OnErr result (frame_view p self.new ≡ frame_view p self.old) }
        ensures placed { IsPlaced (program_view program.now) self.new }
    {
        let body = &program.function(self.function).body;
        self.levels.push(Level {
            index: self.next,
            side,
        })?;
        self.next = settle(body, &mut self.levels, 0);
        Ok(())
    }

    // Writes a local.
    pub(crate) fn set(&mut self, variable: u32, value: i128)
        ensures set { (p : PlainProgram) →
            frame_view p self.new ≡ with_value (frame_view p self.old) variable value }
        ensures placed { (p : PlainProgram) → IsPlaced p self.old → IsPlaced p self.new }
    {
        if let Some(local) = self.store.get_mut(variable as usize) {
            *local = value;
        }
    }
}
