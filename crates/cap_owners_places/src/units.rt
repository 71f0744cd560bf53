//! The goals at the roots of all units.
ghost use Rattle.std.specs.Prelude.{◌≡◌, ◌∷◌, [], IfOk, length, map, None};
ghost use Rattle.std.specs.List.{range_with_len};
ghost use Rattle.cap_lin.specs.Steps.{first_wide};
ghost use Rattle.cap_prog.specs.Views.{program_view};
ghost use Rattle.cap_goal_spec.specs.Roots.{all_roots, all_roots_steps, function_unit};
ghost use Rattle.cap_goal_spec.specs.Roots.{region_unit, roots_steps, units};
ghost use Rattle.cap_goal.specs.Views.{unit_view};
ghost use Rattle.cap_goal_roots.specs.Units.{HasUnit};
ghost use Rattle.cap_goal_roots.specs.Views.{roots_view};
ghost use Rattle.cap_owners_places.specs.Gathered.{AreGathered};
ghost use Rattle.cap_owners_places.specs.Places.{begins_from};

use cap_goal::{Goal, Unit};
use cap_kernel_nodes::roots_of;
use cap_prog::Program;
use std::alloc::{AllocError, Global};

/// The goals at the roots of units, one unit after the other, and the numbers from 0 of the first
/// root of each.
#[derive(Drop)]
pub(crate) struct UnitRoots<'a> {
    pub goals: Vec<Option<Goal<'a>>>,
    pub begins: Vec<usize>,
}

// Appends the goals at the roots of a unit.
fn push_unit<'a>(
    alloc: Global,
    program: &'a Program,
    unit: Unit,
    gathered: &mut UnitRoots<'a>,
) -> Result<(), AllocError>
    requires there { HasUnit (program_view program.now) (unit_view unit) }
    requires narrow { first_wide (roots_steps (program_view program.now) (unit_view unit)) ≡ None }
    ensures { IfOk result (λ _. AreGathered (program_view program.now) (unit_view unit ∷ [])
        gathered.old gathered.new) }
{
    let mut roots = roots_of(alloc, program, unit)?;
    gathered.begins.push(gathered.goals.len())?;
    gathered.goals.append(&mut roots)
}

// Appends the goals at the roots of all region types.
fn push_regions<'a>(
    alloc: Global,
    program: &'a Program,
    gathered: &mut UnitRoots<'a>,
) -> Result<(), AllocError>
    requires { first_wide (all_roots_steps (program_view program.now)) ≡ None }
    ensures { let p = program_view program.now in IfOk result (λ _. AreGathered p
        (map region_unit (range_with_len 0 (length p.regions))) gathered.old gathered.new) }
{
    for number in 0..program.regions().len() as u32 {
        push_unit(alloc, program, Unit::Region(number), gathered)?;
    }
    Ok(())
}

// Appends the goals at the roots of all functions.
fn push_functions<'a>(
    alloc: Global,
    program: &'a Program,
    gathered: &mut UnitRoots<'a>,
) -> Result<(), AllocError>
    ensures { let p = program_view program.now in IfOk result (λ _. AreGathered p
        (map function_unit (range_with_len 0 (length p.functions))) gathered.old gathered.new) }
{
    for number in 0..program.functions().len() as u32 {
        push_unit(alloc, program, Unit::Function(number), gathered)?;
    }
    Ok(())
}

/// The goals at the roots of all units, no term of which leaves 128 bits. The only error is want of
/// memory.
pub(crate) fn unit_roots<'a>(
    alloc: Global,
    program: &'a Program,
) -> Result<UnitRoots<'a>, AllocError>
    requires { first_wide (all_roots_steps (program_view program.now)) ≡ None }
    ensures goals { IfOk result
        (λ r. roots_view r.goals.items ≡ all_roots (program_view program.now)) }
    ensures begins { IfOk result (λ r. r.begins.items
        ≡ begins_from (program_view program.now) 0 (units (program_view program.now))) }
{
    let mut gathered = UnitRoots {
        goals: Vec::new(alloc),
        begins: Vec::new(alloc),
    };
    push_regions(alloc, program, &mut gathered)?;
    push_functions(alloc, program, &mut gathered)?;
    Ok(gathered)
}
