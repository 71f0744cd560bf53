//! What is answered to `core`.
ghost use Rattle.std.specs.Prelude.{IfOk};
ghost use Rattle.cap_top_commands.specs.Answers.{IsCored, IsOnly};
ghost use Rattle.cap_top_commands.specs.Views.{output_view};

use crate::answer::refuse;
use crate::output::Output;
use cap_top_reading::read_program;
use cap_top_report::cores_on;
use cap_top_words::DEFAULT_BUDGET;
use std::alloc::{AllocError, Global};

/// What `core` answers to a file of these bytes: what `verify` does within the usual budget of
/// visits, and behind the line of each unit that is proved one for each of its proofs, with the
/// numbers of the rows that it needs. The only error is want of memory.
pub fn core<'a>(alloc: Global, bytes: &[u8]) -> Result<Output<'a>, AllocError>
    ensures { IfOk result (λ o. IsOnly (IsCored bytes.now) (output_view o)) }
{
    match read_program(alloc, bytes) {
        Ok(program) => Ok(Output::Reported(cores_on(alloc, &program, DEFAULT_BUDGET)?)),
        Err(refusal) => refuse(refusal),
    }
}
