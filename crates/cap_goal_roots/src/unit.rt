//! The roots of a unit: a region type or a function.
ghost use Rattle.std.specs.Prelude.{◌≡◌, ◌<◌, length, slice_get, Some, IfOk};
ghost use Rattle.std.specs.List.{AllByRecursion};
ghost use Rattle.cap_lin.specs.Exact.{IsExactBy};
ghost use Rattle.cap_prog.specs.Views.{region_view, function_view, program_view};
ghost use Rattle.cap_prog.specs.WellFormed.{RegionFits, FunctionFits, IsWellFormed};
ghost use Rattle.cap_goal_spec.specs.Roots.{roots as roots_of_unit, roots_steps};
ghost use Rattle.cap_goal.specs.Views.{unit_view};
ghost use Rattle.cap_rules_fits.specs.Roots.{RootFits};
ghost use Rattle.cap_goal_roots.specs.Units.{HasUnit};
ghost use Rattle.cap_goal_roots.specs.Views.{roots_view};

use crate::function::function_roots;
use crate::region::region_roots;
use cap_goal::{Goal, Unit};
use cap_lin::LinError;
use cap_prog::{Function, Program, RegionType};
use std::alloc::Global;

// A region type by its number; it is well-formed.
fn region_of<'a>(program: &'a Program, number: u32) -> &'a RegionType
    requires { number < length (program_view program.now).regions }
    ensures found { slice_get (program_view program.now).regions number
        ≡ Some (region_view result.now) }
    ensures fits { RegionFits (program_view program.now) (region_view result.now) }
    ensures well_formed { IsWellFormed (program_view program.now) }
{
    &program.regions()[number as usize]
}

// A function by its number; it is well-formed.
fn function_of<'a>(program: &'a Program, number: u32) -> &'a Function
    requires { number < length (program_view program.now).functions }
    ensures found { slice_get (program_view program.now).functions number
        ≡ Some (function_view result.now) }
    ensures fits { FunctionFits (program_view program.now) (function_view result.now) }
    ensures well_formed { IsWellFormed (program_view program.now) }
{
    &program.functions()[number as usize]
}

/// The goals from which the trees of a unit grow, in order: of a region type one for each case,
/// that its assertion, once given, stays true after steps of others; of a function that its
/// contract stays so, its body, and for each loop that its invariant stays so, and the loop. A
/// root without tasks is none. Each goal fits the program. Wide comes where a number of a row of a
/// case leaves 128 bits, with the operands of the first that does.
pub fn roots<'a>(
    alloc: Global,
    program: &'a Program,
    unit: Unit,
) -> Result<Vec<Option<Goal<'a>>>, LinError>
    requires { HasUnit (program_view program.now) (unit_view unit) }
    ensures exact { IsExactBy result (λ v. roots_view v.items)
        (roots_steps (program_view program.now) (unit_view unit))
        (roots_of_unit (program_view program.now) (unit_view unit)) }
    ensures fit { IfOk result
        (λ v. AllByRecursion (RootFits (program_view program.now)) (roots_view v.items)) }
{
    match unit {
        Unit::Region(number) => region_roots(alloc, region_of(program, number), number),
        Unit::Function(number) => {
            Ok(function_roots(alloc, function_of(program, number), number)?)
        }
    }
}
