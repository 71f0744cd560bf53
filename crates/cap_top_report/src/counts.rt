//! How many units of a program are proved.
ghost use Rattle.std.specs.Prelude.{◌≡◌, ◌+◌, IfOk, length, map};
ghost use Rattle.std.specs.List.{AllByRecursion};
ghost use Rattle.cap_prog.specs.Views.{program_view};
ghost use Rattle.cap_goal.specs.Views.{unit_view};
ghost use Rattle.cap_goal_roots.specs.Units.{HasUnit};
ghost use Rattle.cap_top_report.specs.Report.{count_proved};
ghost use Rattle.cap_top_report.specs.Views.{IsCountOf};

use crate::lines::once_proved;
use crate::units::units;
use cap_goal::Unit;
use cap_prog::Program;
use cap_search::search;
use std::alloc::{AllocError, Global};

/// How many units a program has, its region types and functions, and how many of them are proved.
#[derive(Clone, Copy, Debug, PartialEq, Eq)]
pub struct Counts {
    pub proved: usize,
    pub all: usize,
}

// Searches units, and counts those that are proved.
fn count_units(
    alloc: Global,
    program: &Program,
    units: &[Unit],
    budget: u64,
) -> Result<usize, AllocError>
    requires { AllByRecursion (HasUnit (program_view program.now)) (map unit_view units.now) }
    ensures { IfOk result (λ n. n
        ≡ count_proved (program_view program.now) budget (map unit_view units.now)) }
{
    let mut proved = 0;
    for unit in units {
        let verdict = search(alloc, program, *unit, budget)?;
        proved += once_proved(&verdict);
    }
    Ok(proved)
}

/// How many units of a program are proved, each searched within a budget of visits. The only error
/// is want of memory.
pub fn count_on(alloc: Global, program: &Program, budget: u64) -> Result<Counts, AllocError>
    ensures { IfOk result (IsCountOf (program_view program.now) budget) }
{
    let units = units(alloc, program)?;
    let proved = count_units(alloc, program, &units, budget)?;
    Ok(Counts {
        proved,
        all: units.len(),
    })
}
