//! What is answered to `verify` and `show`, and to what is refused.
ghost use Rattle.std.specs.Prelude.{◌≡◌, IfOk, MatchResult};
ghost use Rattle.cap_top_reading.specs.declared.refusal.Refusal.TheVariants.{OutOfMemory};
ghost use Rattle.cap_top_commands.specs.Answers.{IsVerified, IsShown, IsOnly};
ghost use Rattle.cap_top_commands.specs.Good.{IsGood};
ghost use Rattle.cap_top_commands.specs.Output.{refusal_output};
ghost use Rattle.cap_top_commands.specs.Startless.{SaysEmpty, IsStartlessText};
ghost use Rattle.cap_top_commands.specs.Views.{output_view, IsCause};
ghost use Rattle.cap_top_commands.specs.declared.status.Status.TheVariants.{Good};

use crate::laws::{empty_answers_have_no_start, good_answers_are_safe};
use crate::output::Output;
use cap_parse_print::print;
use cap_top_reading::{Refusal, read_program, read_tree};
use cap_top_report::report_on;
use std::alloc::{AllocError, Global};

/// What is said of a text that is refused, unless for want of memory.
pub(crate) fn refuse<'a>(cause: Refusal) -> Result<Output<'a>, AllocError>
    ensures { MatchResult result
        (λ o. (output_view o ≡ refusal_output cause) × IsCause cause)
        (λ _. cause ≡ OutOfMemory) }
{
    match cause {
        Refusal::OutOfMemory => Err(AllocError),
        cause => Ok(Output::Refused(cause)),
    }
}

/// What is said of a program's text.
fn judge_text<'a>(alloc: Global, bytes: &[u8], budget: u64) -> Result<Output<'a>, AllocError>
    ensures { IfOk result (λ o. IsOnly (IsVerified budget bytes.now) (output_view o)) }
{
    match read_program(alloc, bytes) {
        Ok(program) => Ok(Output::Reported(report_on(alloc, &program, budget)?)),
        Err(refusal) => refuse(refusal),
    }
}

/// What `verify` answers to a file of these bytes, each unit searched within a budget of visits.
/// The only error is want of memory.
pub fn verify<'a>(alloc: Global, bytes: &[u8], budget: u64) -> Result<Output<'a>, AllocError>
    ensures answers { IfOk result (λ o. IsOnly (IsVerified budget bytes.now) (output_view o)) }

    // The headline, of the bytes: where the status is good, they are the text of a safe program.
    ensures good { IfOk result (λ o. (output_view o).status ≡ Good → IsGood budget bytes.now) }

    // Where it says that the precondition of `main` is empty, no start of the program meets it.
    ensures empty { IfOk result (λ o. SaysEmpty (output_view o) → IsStartlessText bytes.now) }
{
    empty_answers_have_no_start();
    good_answers_are_safe();
    judge_text(alloc, bytes, budget)
}

/// What `show` answers to a file of these bytes. The only error is want of memory.
pub fn show<'a>(alloc: Global, bytes: &[u8]) -> Result<Output<'a>, AllocError>
    ensures { IfOk result (λ o. IsOnly (IsShown bytes.now) (output_view o)) }
{
    match read_tree(alloc, bytes) {
        Ok(tree) => Ok(Output::Shown(print(alloc, &tree)?)),
        Err(refusal) => refuse(refusal),
    }
}
