//! The statements, each of which is one step.
ghost use Rattle.std.specs.Prelude.{◌≡◌, ◌<◌, ◌-◌, ◌^◌, length};
ghost use Rattle.cap_prog.specs.Program as plain;
ghost use Rattle.cap_prog.specs.Views.{program_view};
ghost use Rattle.cap_machine.specs.View.{configuration, AllArePlaced, Steps};
ghost use Rattle.cap_machine.specs.Ready.{IsReadyTo};

use crate::evaluation::{evaluate, evaluate_all, holds};
use crate::event::{Entry, Event, StepError};
use crate::frame::Frame;
use crate::machine::Machine;
use cap_lin::Term;
use cap_prog::{Comp, Program};
use cap_syntax::Place;
use std::alloc::Global;

impl Machine {
    // An assignment.
    pub(crate) fn set(
        &mut self,
        program: &Program,
        entry: &Entry,
        variable: u32,
        term: &Term,
    ) -> Result<Event, StepError>
        requires { IsReadyTo (program_view program.now) self.old entry.now
            (plain.set variable term.now) }
        ensures steps { Steps (program_view program.now) entry.now self.old self.new result }
        ensures places { AllArePlaced (program_view program.now) self.new }
    {
        let value = evaluate(term, self.store(entry.thread))?;
        self.assign(program, entry.thread, variable, value);
        Ok(Event::Set(value))
    }

    // A read.
    pub(crate) fn read(
        &mut self,
        program: &Program,
        entry: &Entry,
        variable: u32,
        address: &Term,
    ) -> Result<Event, StepError>
        requires { IsReadyTo (program_view program.now) self.old entry.now
            (plain.read variable address.now) }
        ensures steps { Steps (program_view program.now) entry.now self.old self.new result }
        ensures places { AllArePlaced (program_view program.now) self.new }
    {
        let cell = evaluate(address, self.store(entry.thread))?;
        match self.heap.get(cell) {
            None => {
                self.stopped = true;
                Ok(Event::Bad(cell))
            }
            Some(value) => {
                self.assign(program, entry.thread, variable, value);
                Ok(Event::Read(cell, value))
            }
        }
    }

    // A write.
    pub(crate) fn write(
        &mut self,
        program: &Program,
        entry: &Entry,
        address: &Term,
        term: &Term,
    ) -> Result<Event, StepError>
        requires { IsReadyTo (program_view program.now) self.old entry.now
            (plain.write address.now term.now) }
        ensures steps { Steps (program_view program.now) entry.now self.old self.new result }
        ensures places { AllArePlaced (program_view program.now) self.new }
    {
        let store = self.store(entry.thread);
        let cell = evaluate(address, store)?;
        let value = evaluate(term, store)?;
        match self.heap.get(cell) {
            None => {
                self.stopped = true;
                Ok(Event::Bad(cell))
            }
            Some(_) => {
                self.heap.write(cell, value);
                self.pass(program, entry.thread);
                Ok(Event::Write(cell, value))
            }
        }
    }

    // A compare-and-swap.
    pub(crate) fn swap(
        &mut self,
        program: &Program,
        entry: &Entry,
        variable: u32,
        address: &Term,
        old: &Term,
        new: &Term,
    ) -> Result<Event, StepError>
        requires { IsReadyTo (program_view program.now) self.old entry.now
            (plain.cas variable address.now old.now new.now) }
        ensures steps { Steps (program_view program.now) entry.now self.old self.new result }
        ensures places { AllArePlaced (program_view program.now) self.new }
    {
        let store = self.store(entry.thread);
        let cell = evaluate(address, store)?;
        let expected = evaluate(old, store)?;
        let value = evaluate(new, store)?;
        match self.heap.get(cell) {
            None => {
                self.stopped = true;
                Ok(Event::Bad(cell))
            }
            Some(found) => {
                if found == expected {
                    self.heap.write(cell, value);
                    self.assign(program, entry.thread, variable, 1);
                    Ok(Event::Cas(cell, true))
                } else {
                    self.assign(program, entry.thread, variable, 0);
                    Ok(Event::Cas(cell, false))
                }
            }
        }
    }

    // A fetch-and-add.
    pub(crate) fn fetch_add(
        &mut self,
        program: &Program,
        entry: &Entry,
        variable: u32,
        address: &Term,
        term: &Term,
    ) -> Result<Event, StepError>
        requires { IsReadyTo (program_view program.now) self.old entry.now
            (plain.faa variable address.now term.now) }
        ensures steps { Steps (program_view program.now) entry.now self.old self.new result }
        ensures places { AllArePlaced (program_view program.now) self.new }
    {
        let store = self.store(entry.thread);
        let cell = evaluate(address, store)?;
        let added = evaluate(term, store)?;
        match self.heap.get(cell) {
            None => {
                self.stopped = true;
                Ok(Event::Bad(cell))
            }
            Some(found) => {
                let Some(sum) = found.checked_add(added) else {
                    return Err(StepError::Wide);
                };
                self.heap.write(cell, sum);
                self.assign(program, entry.thread, variable, found);
                Ok(Event::Faa(cell, found))
            }
        }
    }

    // A cell that goes.
    pub(crate) fn dispose(
        &mut self,
        program: &Program,
        entry: &Entry,
        address: &Term,
    ) -> Result<Event, StepError>
        requires { IsReadyTo (program_view program.now) self.old entry.now
            (plain.dispose address.now) }
        ensures steps { Steps (program_view program.now) entry.now self.old self.new result }
        ensures places { AllArePlaced (program_view program.now) self.new }
    {
        let cell = evaluate(address, self.store(entry.thread))?;
        match self.heap.get(cell) {
            None => {
                self.stopped = true;
                Ok(Event::Bad(cell))
            }
            Some(_) => {
                self.heap.remove(cell);
                self.pass(program, entry.thread);
                Ok(Event::Dispose(cell))
            }
        }
    }

    // An allocation, at the entry's base.
    pub(crate) fn allocate(
        &mut self,
        program: &Program,
        entry: &Entry,
        variable: u32,
        count: u32,
    ) -> Result<Event, StepError>
        requires { IsReadyTo (program_view program.now) self.old entry.now
            (plain.alloc variable count) }
        ensures steps { Steps (program_view program.now) entry.now self.old self.new result }
        ensures places { AllArePlaced (program_view program.now) self.new }
    {
        let Some(base) = entry.base else {
            return Err(StepError::NotEnabled);
        };
        if base.checked_add(i128::from(count - 1)).is_none() {
            return Err(StepError::Wide);
        }
        self.heap.allocate(base, count)?;
        self.assign(program, entry.thread, variable, base);
        Ok(Event::Alloc(base))
    }

    // A call.
    pub(crate) fn call(
        &mut self,
        alloc: Global,
        program: &Program,
        entry: &Entry,
        destination: Option<u32>,
        function: u32,
        args: &[Term],
    ) -> Result<Event, StepError>
        requires { IsReadyTo (program_view program.now) self.old entry.now
            (plain.call destination function args.now) }
        ensures steps { Steps (program_view program.now) entry.now self.old self.new result }
        ensures places { AllArePlaced (program_view program.now) self.new }
    {
        let values = evaluate_all(alloc, args, self.store(entry.thread))?;
        let callee = Frame::of(alloc, program, function, values, destination)?;
        self.push(program, entry.thread, callee)?;
        Ok(Event::Call)
    }

    // A fork.
    pub(crate) fn fork(
        &mut self,
        alloc: Global,
        program: &Program,
        entry: &Entry,
        function: u32,
        args: &[Term],
    ) -> Result<Event, StepError>
        requires ready { IsReadyTo (program_view program.now) self.old entry.now
            (plain.fork function args.now) }
        requires room { let p = program_view program.now in
            length (configuration p self.old).threads < 2 ^ 32 - 1 }
        ensures steps { Steps (program_view program.now) entry.now self.old self.new result }
        ensures places { AllArePlaced (program_view program.now) self.new }
    {
        let values = evaluate_all(alloc, args, self.store(entry.thread))?;
        let first = Frame::of(alloc, program, function, values, None)?;
        let number = self.threads.len() as u32;
        self.add_thread(alloc, program, first)?;
        self.pass(program, entry.thread);
        Ok(Event::Fork(number))
    }

    // A conditional.
    pub(crate) fn branch(
        &mut self,
        program: &Program,
        entry: &Entry,
        comparison: &Comp,
    ) -> Result<Event, StepError>
        requires { (a : plain.Block) × (b : plain.Block)
            × IsReadyTo (program_view program.now) self.old entry.now
            (plain.branch comparison.now a b) }
        ensures steps { Steps (program_view program.now) entry.now self.old self.new result }
        ensures places { AllArePlaced (program_view program.now) self.new }
    {
        let taken = holds(comparison, self.store(entry.thread))?;
        self.enter(program, entry.thread, taken)?;
        Ok(Event::Branch(taken))
    }

    // A loop.
    pub(crate) fn repeat(
        &mut self,
        program: &Program,
        entry: &Entry,
        comparison: &Comp,
    ) -> Result<Event, StepError>
        requires { (i : plain.PlainAssertion) × (a : plain.Block)
            × IsReadyTo (program_view program.now) self.old entry.now
            (plain.loop comparison.now i a) }
        ensures steps { Steps (program_view program.now) entry.now self.old self.new result }
        ensures places { AllArePlaced (program_view program.now) self.new }
    {
        if holds(comparison, self.store(entry.thread))? {
            self.enter(program, entry.thread, true)?;
            Ok(Event::Branch(true))
        } else {
            self.pass(program, entry.thread);
            Ok(Event::Branch(false))
        }
    }

    // An assertion, at a place.
    pub(crate) fn check(
        &mut self,
        program: &Program,
        entry: &Entry,
        comparison: &Comp,
        place: Place,
    ) -> Result<Event, StepError>
        requires { (r : IsReadyTo (program_view program.now) self.old entry.now
            (plain.check comparison.now))
            × (r.0.place ≡ place) }
        ensures steps { Steps (program_view program.now) entry.now self.old self.new result }
        ensures places { AllArePlaced (program_view program.now) self.new }
    {
        if holds(comparison, self.store(entry.thread))? {
            self.pass(program, entry.thread);
            Ok(Event::Assert)
        } else {
            self.stopped = true;
            Ok(Event::Failed(place))
        }
    }

    // A return.
    pub(crate) fn give_back(
        &mut self,
        program: &Program,
        entry: &Entry,
        term: &Term,
    ) -> Result<Event, StepError>
        requires { IsReadyTo (program_view program.now) self.old entry.now
            (plain.give_back term.now) }
        ensures steps { Steps (program_view program.now) entry.now self.old self.new result }
        ensures places { AllArePlaced (program_view program.now) self.new }
    {
        let value = evaluate(term, self.store(entry.thread))?;
        Ok(self.pop(program, entry.thread, value))
    }
}
