//! The verdict on a unit.
ghost use Rattle.std.specs.Prelude.{◌≡◌, IfOk};
ghost use Rattle.cap_lin.specs.Exact.{IsExactBy};
ghost use Rattle.cap_prog.specs.Views.{program_view};
ghost use Rattle.cap_goal_spec.specs.Roots.{roots as roots_of_unit, roots_steps};
ghost use Rattle.cap_goal.specs.Views.{unit_view};
ghost use Rattle.cap_goal_roots.specs.Units.{HasUnit};
ghost use Rattle.cap_goal_roots.specs.Views.{roots_view};
ghost use Rattle.cap_search_spec.specs.Verdicts.{verdict};
ghost use Rattle.cap_search_trees.specs.Searchable.{RootsAreSearchable};
ghost use Rattle.cap_search_trees.specs.Views.{verdict_view};

use crate::program::program_ascends;
use cap_goal::{Goal, Unit};
use cap_goal_roots::roots;
use cap_lin::LinError;
use cap_prog::{Program, well_formed};
use cap_rules_ascending::roots_ascend;
use cap_rules_fits::roots_are_kept;
use cap_search_trees::{Verdict, judge};
use std::alloc::{AllocError, Global};

// The roots of a unit. Each has room, and its terms are in order.
fn roots_of<'a>(
    alloc: Global,
    program: &'a Program,
    unit: Unit,
) -> Result<Vec<Option<Goal<'a>>>, LinError>
    requires { HasUnit (program_view program.now) (unit_view unit) }
    ensures exact { IsExactBy result (λ v. roots_view v.items)
        (roots_steps (program_view program.now) (unit_view unit))
        (roots_of_unit (program_view program.now) (unit_view unit)) }
    ensures searchable { IfOk result
        (λ v. RootsAreSearchable (program_view program.now) (roots_view v.items)) }
{
    well_formed(program);
    program_ascends(program);
    roots_are_kept();
    roots_ascend();
    roots(alloc, program, unit)
}

/// The verdict on a unit, which exists, with a budget of visits: the search visits a goal, tries
/// its offered choices in order, and for each the subgoals in order until one fails. The first
/// choice all of whose subgoals have trees gives the tree; a goal deeper than a thousand has none.
/// It ends at the first visit that passes the budget. The only error is want of memory.
#[tactic(auto, unfolding(cap_search_spec::specs::Verdicts::verdict))]
pub fn search(
    alloc: Global,
    program: &Program,
    unit: Unit,
    budget: u64,
) -> Result<Verdict, AllocError>
    requires { HasUnit (program_view program.now) (unit_view unit) }
    ensures { IfOk result (λ v. verdict_view v
        ≡ verdict (program_view program.now) (unit_view unit) budget) }
{
    match roots_of(alloc, program, unit) {
        Ok(roots) => judge(alloc, program, unit, &roots, budget),
        Err(LinError::Wide(a, b)) => Ok(Verdict::Wide(a, b)),
        Err(LinError::OutOfMemory) => Err(AllocError),
    }
}
