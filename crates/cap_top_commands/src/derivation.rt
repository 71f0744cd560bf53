//! The derivation of a program, as lines.
ghost use Rattle.std.specs.Prelude.{IfOk};
ghost use Rattle.cap_prog.specs.Views.{program_view};
ghost use Rattle.cap_rules_ascending.specs.Ascending.{ProgramAscends};
ghost use Rattle.cap_goal.specs.Trees.{bundle_view};
ghost use Rattle.cap_top_commands.specs.Answers.{IsDerived, IsOnly};
ghost use Rattle.cap_top_commands.specs.Derivations.{IsDerivation};
ghost use Rattle.cap_top_commands.specs.Deriving.{FindsText};
ghost use Rattle.cap_top_commands.specs.Startless.{SaysEmpty, IsStartlessText};
ghost use Rattle.cap_top_commands.specs.Views.{output_view};

use crate::answer::refuse;
use crate::laws::empty_answers_have_no_start;
use crate::output::Output;
use cap_deriv::MOST_NODES;
use cap_deriv_laws::valid_trees_have_no_zeros;
use cap_deriv_write::{node_count, write};
use cap_goal::Bundle;
use cap_io::LONGEST_FILE;
use cap_prog::Program;
use cap_top_reading::read_program;
use cap_top_report::{Conclusion, derive_on, found_trees_are_valid};
use std::alloc::{AllocError, Global};

/// The lines of a bundle's trees, unless they are too many or too long.
fn text_of(alloc: Global, bundle: &Bundle) -> Result<Option<Vec<u8>>, AllocError>
    ensures { IfOk result (FindsText (bundle_view bundle.now)) }
{
    if bundle.trees.len() > u32::MAX as usize || node_count(alloc, bundle)? > MOST_NODES as usize {
        return Ok(None);
    }
    let text = write(alloc, bundle)?;
    if text.len() > LONGEST_FILE {
        return Ok(None);
    }
    Ok(Some(text))
}

/// What `derive` says of a program, each unit of which is searched within a budget of visits. The
/// parts of its terms are in order, as those of a text's program are.
fn derivation_of<'a>(
    alloc: Global,
    program: &Program,
    budget: u64,
) -> Result<Output<'a>, AllocError>
    requires { ProgramAscends (program_view program.now) }
    ensures { IfOk result
        (λ o. IsOnly (IsDerivation budget (program_view program.now)) (output_view o)) }
{
    found_trees_are_valid();
    valid_trees_have_no_zeros();
    match derive_on(alloc, program, budget)? {
        Conclusion::Reported(report) => Ok(Output::Reported(report)),
        Conclusion::Proved(bundle) => match text_of(alloc, &bundle)? {
            Some(text) => Ok(Output::Derived(text)),
            None => Ok(Output::DerivedTooLong),
        },
    }
}

/// What `derive` says of a program's text.
fn derive_text<'a>(alloc: Global, bytes: &[u8], budget: u64) -> Result<Output<'a>, AllocError>
    ensures { IfOk result (λ o. IsOnly (IsDerived budget bytes.now) (output_view o)) }
{
    match read_program(alloc, bytes) {
        Ok(program) => derivation_of(alloc, &program, budget),
        Err(refusal) => refuse(refusal),
    }
}

/// What `derive` answers to a file of these bytes: the lines of the derivation where `verify` would
/// end well, and otherwise what `verify` says. The only error is want of memory.
pub fn derive<'a>(alloc: Global, bytes: &[u8], budget: u64) -> Result<Output<'a>, AllocError>
    ensures answers { IfOk result (λ o. IsOnly (IsDerived budget bytes.now) (output_view o)) }

    // Where it says that the precondition of `main` is empty, no start of the program meets it.
    ensures empty { IfOk result (λ o. SaysEmpty (output_view o) → IsStartlessText bytes.now) }
{
    empty_answers_have_no_start();
    derive_text(alloc, bytes, budget)
}
