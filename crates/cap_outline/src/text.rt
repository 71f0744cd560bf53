//! The text of an outline.
ghost use Rattle.std.specs.Prelude.{◌≡◌, ◌++◌, IfOk, OnOk, map};
ghost use Rattle.cap_prog.specs.Views.{function_view, program_view};
ghost use Rattle.cap_rules.specs.Valid.{Valid};
ghost use Rattle.cap_goal.specs.Trees.{bundle_view};
ghost use Rattle.cap_outline.specs.Gathered.{gathered_function, gathered_functions};
ghost use Rattle.cap_outline_spec.specs.Outline.{outline_text};

use crate::gather::gather;
use crate::gathered::Gathered;
use crate::statements::push_statements;
use cap_goal::Bundle;
use cap_kernel_nodes::{NodeWalk, program_nodes_are_proven};
use cap_prog::{Function, Program, well_formed};
use std::alloc::{AllocError, Global};

// Writes the lines of a function.
fn push_function(
    alloc: Global,
    text: &mut Vec<u8>,
    gathered: &Gathered,
    number: usize,
    function: &Function,
) -> Result<(), AllocError>
    ensures { OnOk result (text.new.items ≡ text.old.items
        ++ gathered_function gathered.now number (function_view function.now)) }
{
    text.extend_from_slice(b"function ")?;
    text.extend_from_slice(function.name.as_bytes())?;
    text.extend_from_slice(b"\n")?;
    push_statements(alloc, text, gathered, number, &function.body)
}

// Writes the lines of functions.
fn push_functions(
    alloc: Global,
    text: &mut Vec<u8>,
    gathered: &Gathered,
    functions: &[Function],
) -> Result<(), AllocError>
    ensures { OnOk result (text.new.items ≡ text.old.items
        ++ gathered_functions gathered.now 0 (map function_view functions.now)) }
{
    for (number, function) in functions.iter().enumerate() {
        push_function(alloc, text, gathered, number, function)?;
    }
    Ok(())
}

/// The outline of a valid derivation: of each function each statement, and of each node that stands
/// there a line with its state, in preorder. It takes time and memory as its text is long and the
/// derivation has nodes. The only error is want of memory.
pub fn outline(alloc: Global, program: &Program, bundle: &Bundle) -> Result<Vec<u8>, AllocError>
    requires { Valid (program_view program.now) (bundle_view bundle.now) }
    ensures { IfOk result (λ text. text.items
        ≡ outline_text (program_view program.now) (bundle_view bundle.now)) }
{
    well_formed(program);
    program_nodes_are_proven();
    let walk = NodeWalk::start_program(alloc, program, &bundle.trees)?;
    let gathered = gather(alloc, program, walk)?;
    let mut text = Vec::new(alloc);
    push_functions(alloc, &mut text, &gathered, program.functions())?;
    Ok(text)
}
