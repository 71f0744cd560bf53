//! Programs whose `main` has no parameters.

ghost use Rattle.std.specs.Prelude.{◌≡◌, slice_get, IfOk, IsSomeAnd};
ghost use Rattle.cap_prog.specs.Views.{program_view};

use cap_prog::Program;
use cap_top_reading::read_program;
use std::alloc::Global;
use std::test::Fail;

// It allocates at 1:19 and ends at 1:34.
const ALLOCATES: &str = "function main() { x := alloc(1); }";

// The program of a text, whose `main` has no parameters.
pub fn without_parameters(alloc: Global, text: &str) -> Result<Program, Fail>
    ensures { IfOk result (λ q. IsSomeAnd
        (slice_get (program_view q).functions (program_view q).main) (λ f. 0 ≡ f.params)) }
{
    let program = read_program(alloc, text.as_bytes())?;
    if program.function(program.main()).params != 0 {
        Err("main has parameters")?;
    }
    Ok(program)
}

// A program of one function, which allocates a cell.
pub fn allocating(alloc: Global) -> Result<Program, Fail>
    ensures { IfOk result (λ q. IsSomeAnd
        (slice_get (program_view q).functions (program_view q).main) (λ f. 0 ≡ f.params)) }
{
    without_parameters(alloc, ALLOCATES)
}
