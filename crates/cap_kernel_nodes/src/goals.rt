//! The goals at the roots of a unit and of a program, and those that a node's choice leaves, where no
//! error but want of memory can come.
ghost use Rattle.std.specs.Prelude.{◌≡◌, ◌++◌, IfOk, None, flat_map, length, map};
ghost use Rattle.std.specs.List.{range_with_len};
ghost use Rattle.cap_lin.specs.Steps.{first_wide};
ghost use Rattle.cap_prog.specs.Views.{program_view};
ghost use Rattle.cap_goal_spec.specs.Roots.{all_roots as all_roots_at, all_roots_steps};
ghost use Rattle.cap_goal_spec.specs.Roots.{function_unit, region_unit};
ghost use Rattle.cap_goal_spec.specs.Roots.{roots as roots_at, roots_steps};
ghost use Rattle.cap_goal.specs.Views.{choice_view, goal_view, unit_view};
ghost use Rattle.cap_goal_roots.specs.Units.{HasUnit};
ghost use Rattle.cap_goal_roots.specs.Views.{roots_view};
ghost use Rattle.cap_rules_steps.specs.Goals.{goals_view};
ghost use Rattle.cap_kernel_nodes.specs.Laws.{NodeIsProven};
ghost use Rattle.cap_rules_nodes.specs.Nodes.{goals_left as goals_left_at};

use cap_goal::{Choice, Goal, Unit};
use cap_goal_roots::roots;
use cap_kernel::subgoals;
use cap_lin::LinError;
use cap_prog::Program;
use cap_rules_steps::RuleError;
use std::alloc::{AllocError, Global};

/// The goals at the roots of a unit, no term of which leaves 128 bits. The only error is want of
/// memory.
pub fn roots_of<'a>(
    alloc: Global,
    program: &'a Program,
    unit: Unit,
) -> Result<Vec<Option<Goal<'a>>>, AllocError>
    requires there { HasUnit (program_view program.now) (unit_view unit) }
    requires narrow { first_wide (roots_steps (program_view program.now) (unit_view unit)) ≡ None }
    ensures { IfOk result
        (λ v. roots_view v.items ≡ roots_at (program_view program.now) (unit_view unit)) }
{
    match roots(alloc, program, unit) {
        Ok(roots) => Ok(roots),
        Err(LinError::OutOfMemory) => Err(AllocError),
        Err(LinError::Wide(_, _)) => unreachable!(),
    }
}

// Appends the goals at the roots of a unit.
fn push_roots<'a>(
    alloc: Global,
    program: &'a Program,
    unit: Unit,
    all: &mut Vec<Option<Goal<'a>>>,
) -> Result<(), AllocError>
    requires there { HasUnit (program_view program.now) (unit_view unit) }
    requires narrow { first_wide (roots_steps (program_view program.now) (unit_view unit)) ≡ None }
    ensures { IfOk result (λ _. roots_view all.new.items
        ≡ roots_view all.old.items ++ roots_at (program_view program.now) (unit_view unit)) }
{
    let mut roots = roots_of(alloc, program, unit)?;
    all.append(&mut roots)
}

// Appends the goals at the roots of all region types.
fn push_region_roots<'a>(
    alloc: Global,
    program: &'a Program,
    all: &mut Vec<Option<Goal<'a>>>,
) -> Result<(), AllocError>
    requires { first_wide (all_roots_steps (program_view program.now)) ≡ None }
    ensures { IfOk result (λ _. roots_view all.new.items
        ≡ roots_view all.old.items
        ++ flat_map (roots_at (program_view program.now))
        (map region_unit (range_with_len 0 (length (program_view program.now).regions)))) }
{
    for number in 0..program.regions().len() as u32 {
        push_roots(alloc, program, Unit::Region(number), all)?;
    }
    Ok(())
}

// Appends the goals at the roots of all functions.
fn push_function_roots<'a>(
    alloc: Global,
    program: &'a Program,
    all: &mut Vec<Option<Goal<'a>>>,
) -> Result<(), AllocError>
    ensures { IfOk result (λ _. roots_view all.new.items
        ≡ roots_view all.old.items
        ++ flat_map (roots_at (program_view program.now))
        (map function_unit (range_with_len 0 (length (program_view program.now).functions)))) }
{
    for number in 0..program.functions().len() as u32 {
        push_roots(alloc, program, Unit::Function(number), all)?;
    }
    Ok(())
}

/// The goals at the roots of all units, no term of which leaves 128 bits. The only error is want of
/// memory.
pub(crate) fn all_roots<'a>(
    alloc: Global,
    program: &'a Program,
) -> Result<Vec<Option<Goal<'a>>>, AllocError>
    requires { first_wide (all_roots_steps (program_view program.now)) ≡ None }
    ensures { IfOk result
        (λ v. roots_view v.items ≡ all_roots_at (program_view program.now)) }
{
    let mut all = Vec::new(alloc);
    push_region_roots(alloc, program, &mut all)?;
    push_function_roots(alloc, program, &mut all)?;
    Ok(all)
}

/// What a node's choice leaves of its goal. It proves what its rule owes, so the only error is want
/// of memory.
#[inline(never)]
pub fn goals_left<'a>(
    alloc: Global,
    program: &'a Program,
    goal: &Goal<'a>,
    choice: &Choice,
) -> Result<Vec<Goal<'a>>, AllocError>
    requires { NodeIsProven (program_view program.now)
        record { goal = goal_view goal.now; choice = choice_view choice.now } }
    ensures { IfOk result (λ v. goals_view v
        ≡ goals_left_at (program_view program.now) (goal_view goal.now) (choice_view choice.now)) }
{
    match subgoals(alloc, program, goal, choice) {
        Ok(goals) => Ok(goals),
        Err(RuleError::OutOfMemory) => Err(AllocError),
        Err(RuleError::NotApplicable | RuleError::Wide(_, _)) => unreachable!(),
    }
}
