//! What is answered to `stray`.
ghost use Rattle.std.specs.Prelude.{◌≡◌, ◌↔◌, IfOk};
ghost use Rattle.std.specs.Bool.{IsTrue};
ghost use Rattle.cap_prog.specs.Views.{program_view};
ghost use Rattle.cap_gen_schedules.specs.Drawn.{seeded, first_fault};
ghost use Rattle.cap_gen_schedules.specs.Laws.{AsksForNothing};
ghost use Rattle.cap_top_commands.specs.Answers.{drawn_output, IsStray, IsStrayed, IsOnly};
ghost use Rattle.cap_top_commands.specs.Views.{output_view};

use crate::answer::refuse;
use crate::output::Output;
use cap_gen_schedules::{schedule_text, stray as first_stray};
use cap_prog::Program;
use cap_top_reading::read_program;
use std::alloc::{AllocError, Global};

/// `main` has no parameters, and its `requires` says nothing.
fn asks_for_nothing(program: &Program) -> bool
    ensures { IsTrue result ↔ AsksForNothing (program_view program.now) }
{
    let main = program.function(program.main());
    main.params == 0 && main.requires_.items.is_empty()
}

/// What is said of the schedules that are drawn of a program.
fn draw<'a>(
    alloc: Global,
    program: &Program,
    number: u64,
    count: u64,
) -> Result<Output<'a>, AllocError>
    requires { AsksForNothing (program_view program.now) }
    ensures { let found = first_fault (program_view program.now) count (seeded number) in
        IfOk result (λ o. output_view o ≡ drawn_output count found) }
{
    match first_stray(alloc, program, number, count)? {
        Some(schedule) => Ok(Output::Stray(schedule_text(alloc, &schedule)?)),
        None => Ok(Output::NoStray(count)),
    }
}

/// What is said of a program.
fn stray_of<'a>(
    alloc: Global,
    program: &Program,
    number: u64,
    count: u64,
) -> Result<Output<'a>, AllocError>
    ensures { IfOk result (λ o.
        IsOnly (IsStray number count (program_view program.now)) (output_view o)) }
{
    if asks_for_nothing(program) {
        draw(alloc, program, number, count)
    } else {
        Ok(Output::NoStart)
    }
}

/// What `stray` answers to a file of these bytes: the first of so many schedules, drawn from the
/// number, that ends in a fault, or that none does; or that `main` asks for something. The only
/// error is want of memory.
pub fn stray<'a>(
    alloc: Global,
    bytes: &[u8],
    number: u64,
    count: u64,
) -> Result<Output<'a>, AllocError>
    ensures { IfOk result (λ o. IsOnly (IsStrayed number count bytes.now) (output_view o)) }
{
    match read_program(alloc, bytes) {
        Ok(program) => stray_of(alloc, &program, number, count),
        Err(refusal) => refuse(refusal),
    }
}
