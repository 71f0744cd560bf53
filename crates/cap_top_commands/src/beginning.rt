//! What is known once the first of two files was read, which is a program's.
ghost use Rattle.std.specs.Prelude.{IfOk};
ghost use Rattle.cap_top_commands.specs.Beginning.{Begins};

use crate::answer::refuse;
use crate::output::Output;
use cap_prog::Program;
use cap_top_reading::read_program;
use std::alloc::{AllocError, Global};

/// What is known once a program's file was read: the program, whose second file is read next, or
/// what is said without one.
#[derive(Drop)]
pub enum Begun<'a> {
    Program(Program),
    Said(Output<'a>),
}

/// Reads the program whose run is replayed, or whose derivation is judged. The only error is want
/// of memory.
pub fn begin<'a>(alloc: Global, bytes: &[u8]) -> Result<Begun<'a>, AllocError>
    ensures { IfOk result (Begins bytes.now) }
{
    match read_program(alloc, bytes) {
        Ok(program) => Ok(Begun::Program(program)),
        Err(refusal) => Ok(Begun::Said(refuse(refusal)?)),
    }
}
