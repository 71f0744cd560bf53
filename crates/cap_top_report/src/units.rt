//! The units of a program, in order.
ghost use Rattle.std.specs.Prelude.{◌≡◌, ◌++◌, IfOk, OnOk, map};
ghost use Rattle.std.specs.List.{range_with_len};
ghost use Rattle.cap_prog.specs.Views.{program_view};
ghost use Rattle.cap_goal.specs.Views.{unit_view};
ghost use Rattle.cap_goal_spec.specs.Roots.{region_unit, function_unit, units as units_of};

use cap_goal::Unit;
use cap_prog::Program;
use std::alloc::{AllocError, Global};

// Appends so many region types, by their numbers.
fn push_regions(units: &mut Vec<Unit>, count: u32) -> Result<(), AllocError>
    ensures { OnOk result (map unit_view units.new.items
        ≡ map unit_view units.old.items ++ map region_unit (range_with_len 0 count)) }
{
    for number in 0..count {
        units.push(Unit::Region(number))?;
    }
    Ok(())
}

// Appends so many functions.
fn push_functions(units: &mut Vec<Unit>, count: u32) -> Result<(), AllocError>
    ensures { OnOk result (map unit_view units.new.items
        ≡ map unit_view units.old.items ++ map function_unit (range_with_len 0 count)) }
{
    for number in 0..count {
        units.push(Unit::Function(number))?;
    }
    Ok(())
}

/// The units of a program, in the order of its text: the region types, and then the functions.
pub(crate) fn units(alloc: Global, program: &Program) -> Result<Vec<Unit>, AllocError>
    ensures { IfOk result (λ v. map unit_view v.items ≡ units_of (program_view program.now)) }
{
    let mut units = Vec::new(alloc);
    push_regions(&mut units, program.regions().len() as u32)?;
    push_functions(&mut units, program.functions().len() as u32)?;
    Ok(units)
}
