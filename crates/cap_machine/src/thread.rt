//! The frames of a thread, with the top one last.
ghost use Rattle.std.specs.Prelude.{◌≡◌, ◌<◌, ◌∷◌, length, OnOk, OnErr, Some, IfSome};
ghost use Rattle.std.specs.Prelude.{option_map, option_copied};
ghost use Rattle.cap_prog.specs.Program.{PlainProgram};
ghost use Rattle.cap_prog.specs.Views.{program_view};
ghost use Rattle.cap_machine.specs.Machine.{with_value, top_frame};
ghost use Rattle.cap_machine.specs.View.{frame_view, thread_view, IsPlaced, ArePlaced};
ghost use Rattle.cap_machine.specs.Changes.{passed, entered, with_top, returned, return_event};

use crate::event::Event;
use crate::frame::Frame;
use cap_prog::Program;
use std::alloc::AllocError;

/// The top frame, if there is one.
pub(crate) fn top(frames: &[Frame]) -> Option<&Frame>
    ensures shows { (p : PlainProgram) →
        option_map (frame_view p) (option_copied result)
        ≡ top_frame (Some (thread_view p frames.now)) }
    ensures placed { (p : PlainProgram) →
        ArePlaced p frames.now → IfSome result (λ f. IsPlaced p f.now) }
{
    frames.last()
}

/// The top frame passes its next statement.
pub(crate) fn pass(program: &Program, frames: &mut Vec<Frame>)
    requires some { 0 < length frames.old.items }
    requires placed { ArePlaced (program_view program.now) frames.old.items }
    ensures passed { let p = program_view program.now in
        thread_view p frames.new.items ≡ with_top passed (thread_view p frames.old.items) }
    ensures placed { ArePlaced (program_view program.now) frames.new.items }
{
    let top = frames.len() - 1;
    frames[top].pass(program);
}

/// The top frame passes its next statement, and a local of it gets a value.
pub(crate) fn assign(program: &Program, frames: &mut Vec<Frame>, variable: u32, value: i128)
    requires some { 0 < length frames.old.items }
    requires placed { ArePlaced (program_view program.now) frames.old.items }
    ensures assigned { let p = program_view program.now in thread_view p frames.new.items
        ≡ with_top (λ f. with_value (passed f) variable value) (thread_view p frames.old.items) }
    ensures placed { ArePlaced (program_view program.now) frames.new.items }
{
    let top = frames.len() - 1;
    let frame = &mut frames[top];
    frame.pass(program);
    frame.set(variable, value);
}

/// The top frame enters a block of its next statement.
pub(crate) fn enter(
    program: &Program,
    frames: &mut Vec<Frame>,
    side: bool,
) -> Result<(), AllocError>
    requires some { 0 < length frames.old.items }
    requires placed { ArePlaced (program_view program.now) frames.old.items }
    ensures entered { let p = program_view program.now in
        OnOk result (thread_view p frames.new.items
        ≡ with_top (entered side) (thread_view p frames.old.items)) }
    ensures same { let p = program_view program.now in
        OnErr result (thread_view p frames.new.items ≡ thread_view p frames.old.items) }
    ensures placed { ArePlaced (program_view program.now) frames.new.items }
{
    let top = frames.len() - 1;
    frames[top].enter(program, side)
}

/// The top frame passes its next statement, and a new frame is on top.
pub(crate) fn call(
    program: &Program,
    frames: &mut Vec<Frame>,
    callee: Frame,
) -> Result<(), AllocError>
    requires some { 0 < length frames.old.items }
    requires placed { ArePlaced (program_view program.now) frames.old.items }
    requires callee { IsPlaced (program_view program.now) callee }
    ensures called { let p = program_view program.now in OnOk result (thread_view p frames.new.items
        ≡ frame_view p callee ∷ with_top passed (thread_view p frames.old.items)) }
    ensures same { let p = program_view program.now in
        OnErr result (thread_view p frames.new.items ≡ thread_view p frames.old.items) }
    ensures placed { ArePlaced (program_view program.now) frames.new.items }
{
    let caller = frames.len() - 1;
    frames.push(callee)?;
    frames[caller].pass(program);
    Ok(())
}

/// The top frame ends, and its caller gets the value.
pub(crate) fn give_back(frames: &mut Vec<Frame>, value: i128) -> Event
    requires { 0 < length frames.old.items }
    ensures returned { (p : PlainProgram) →
        thread_view p frames.new.items ≡ returned value (thread_view p frames.old.items) }
    ensures event { (p : PlainProgram) →
        result ≡ return_event value (thread_view p frames.old.items) }
    ensures placed { (p : PlainProgram) →
        ArePlaced p frames.old.items → ArePlaced p frames.new.items }
{
    let Some(done) = frames.pop() else {
        unreachable!()
    };
    if frames.is_empty() {
        return Event::End(value);
    }
    if let Some(variable) = done.destination {
        let caller = frames.len() - 1;
        frames[caller].set(variable, value);
    }
    Event::Return(value)
}
