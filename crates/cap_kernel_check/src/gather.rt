//! What stands at the roots of all units.
ghost use Rattle.std.specs.Prelude.{◌≡◌, IfOk};
ghost use Rattle.std.specs.List.{AllByRecursion};
ghost use Rattle.cap_prog.specs.Views.{program_view};
ghost use Rattle.cap_kernel_check_steps.specs.Starts.{starts as starts_at};
ghost use Rattle.cap_kernel_check_steps.specs.Views.{StartIsKept, starts_view};

use cap_kernel_check_steps::{Start, push_functions, push_regions};
use cap_prog::{Program, well_formed};
use cap_rules_fits::roots_are_kept;
use std::alloc::{AllocError, Global};

// What stands at the roots of all units.
fn gathered<'a>(alloc: Global, program: &'a Program) -> Result<Vec<Start<'a>>, AllocError>
    ensures { IfOk result
        (λ v. starts_view v.items ≡ starts_at (program_view program.now)) }
{
    let mut starts = Vec::new(alloc);
    push_regions(alloc, program, &mut starts)?;
    push_functions(alloc, program, &mut starts)?;
    Ok(starts)
}

/// What stands at the roots of all units, in the order of the text: the region types, and then the
/// functions. The goals among it are kept.
pub(crate) fn starts<'a>(alloc: Global, program: &'a Program) -> Result<Vec<Start<'a>>, AllocError>
    ensures all { IfOk result
        (λ v. starts_view v.items ≡ starts_at (program_view program.now)) }
    ensures kept { IfOk result
        (λ v. AllByRecursion (StartIsKept (program_view program.now)) (starts_view v.items)) }
{
    well_formed(program);
    roots_are_kept();
    gathered(alloc, program)
}
