//! What stands at the roots of region types and of functions.
ghost use Rattle.std.specs.Prelude.{◌≡◌, ◌++◌, IfOk, length, map, flat_map, replicate};
ghost use Rattle.std.specs.List.{range_with_len};
ghost use Rattle.cap_prog.specs.Views.{program_view};
ghost use Rattle.cap_goal_spec.specs.Roots.{function_unit, region_unit};
ghost use Rattle.cap_goal.specs.Views.{unit_view};
ghost use Rattle.cap_goal_roots.specs.Units.{HasUnit};
ghost use Rattle.cap_goal_roots.specs.Views.{roots_view};
ghost use Rattle.cap_kernel_check_steps.specs.Starts.{barred, case_count as case_count_of};
ghost use Rattle.cap_kernel_check_steps.specs.Starts.{start_of as start_of_root, unit_starts};
ghost use Rattle.cap_kernel_check_steps.specs.Views.{starts_view};

use crate::start::{Start, start_of};
use cap_goal::{Goal, Unit};
use cap_goal_roots::roots;
use cap_lin::LinError;
use cap_prog::Program;
use std::alloc::{AllocError, Global};

// Appends what stands at the roots of a unit.
fn push_open<'a>(
    starts: &mut Vec<Start<'a>>,
    roots: Vec<Option<Goal<'a>>>,
) -> Result<(), AllocError>
    ensures { IfOk result (λ _. starts_view starts.new.items
        ≡ starts_view starts.old.items ++ map start_of_root (roots_view roots.entry.items)) }
{
    for root in roots {
        starts.push(start_of(root))?;
    }
    Ok(())
}

// Appends so many roots at which no choice applies.
fn push_barred(starts: &mut Vec<Start<'_>>, count: usize) -> Result<(), AllocError>
    ensures { IfOk result (λ _. starts_view starts.new.items
        ≡ starts_view starts.old.items ++ replicate count barred) }
{
    for _number in 0..count {
        starts.push(Start::Barred)?;
    }
    Ok(())
}

// The number of a region type's cases.
fn case_count(program: &Program, unit: Unit) -> usize
    ensures { result ≡ case_count_of (program_view program.now) (unit_view unit) }
{
    match unit {
        Unit::Region(number) => match program.regions().get(number as usize) {
            Some(region) => region.cases.len(),
            None => 0,
        },
        Unit::Function(_) => 0,
    }
}

// Appends what stands at the roots of a unit; a term past 128 bits bars all of them.
fn push_unit<'a>(
    alloc: Global,
    program: &'a Program,
    unit: Unit,
    starts: &mut Vec<Start<'a>>,
) -> Result<(), AllocError>
    requires { HasUnit (program_view program.now) (unit_view unit) }
    ensures { IfOk result (λ _. starts_view starts.new.items
        ≡ starts_view starts.old.items
        ++ unit_starts (program_view program.now) (unit_view unit)) }
{
    match roots(alloc, program, unit) {
        Ok(roots) => push_open(starts, roots),
        Err(LinError::Wide(_, _)) => push_barred(starts, case_count(program, unit)),
        Err(LinError::OutOfMemory) => Err(AllocError),
    }
}

/// Appends what stands at the roots of all region types, in the order of the text. Where a term of
/// a region type's roots is past 128 bits, all of these are barred. The only error is want of
/// memory.
pub fn push_regions<'a>(
    alloc: Global,
    program: &'a Program,
    starts: &mut Vec<Start<'a>>,
) -> Result<(), AllocError>
    ensures { IfOk result (λ _. starts_view starts.new.items
        ≡ starts_view starts.old.items
        ++ flat_map (unit_starts (program_view program.now))
        (map region_unit (range_with_len 0 (length (program_view program.now).regions)))) }
{
    for number in 0..program.regions().len() as u32 {
        push_unit(alloc, program, Unit::Region(number), starts)?;
    }
    Ok(())
}

/// Appends what stands at the roots of all functions, in the order of the text. The only error is
/// want of memory.
pub fn push_functions<'a>(
    alloc: Global,
    program: &'a Program,
    starts: &mut Vec<Start<'a>>,
) -> Result<(), AllocError>
    ensures { IfOk result (λ _. starts_view starts.new.items
        ≡ starts_view starts.old.items
        ++ flat_map (unit_starts (program_view program.now))
        (map function_unit (range_with_len 0 (length (program_view program.now).functions)))) }
{
    for number in 0..program.functions().len() as u32 {
        push_unit(alloc, program, Unit::Function(number), starts)?;
    }
    Ok(())
}
