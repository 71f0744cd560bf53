//! The report on a program, with the rows that each proof needs.
ghost use Rattle.std.specs.Prelude.{◌≡◌, ◌++◌, ◌+◌, IfOk, OnOk, map, flat_map};
ghost use Rattle.std.specs.List.{AllByRecursion};
ghost use Rattle.cap_prog.specs.Views.{program_view};
ghost use Rattle.cap_goal.specs.Views.{unit_view};
ghost use Rattle.cap_goal_roots.specs.Units.{HasUnit};
ghost use Rattle.cap_rules_ascending.specs.Ascending.{ProgramAscends};
ghost use Rattle.cap_search.specs.Views.{verdict_view};
ghost use Rattle.cap_search_spec.specs.Verdicts.{verdict as verdict_on};
ghost use Rattle.cap_top_report.specs.Cores.{cored_lines, verdict_cores};
ghost use Rattle.cap_top_report.specs.Report.{count_proved, once_proved as once_proved_by};
ghost use Rattle.cap_top_report.specs.Views.{IsCoresOf};

use crate::laws::proved_units_derive;
use crate::lines::{once_proved, push_line};
use crate::report::{Report, finish};
use crate::units::units;
use cap_core_text::push_core_lines;
use cap_goal::Unit;
use cap_prog::Program;
use cap_search::{Verdict, search};
use std::alloc::{AllocError, Global};

// Writes the lines of the proofs of a unit with this verdict, where it is proved.
fn push_cores(
    alloc: Global,
    text: &mut Vec<u8>,
    program: &Program,
    unit: Unit,
    budget: u64,
    verdict: &Verdict,
) -> Result<(), AllocError>
    requires ascends { ProgramAscends (program_view program.now) }
    requires there { HasUnit (program_view program.now) (unit_view unit) }
    requires found { verdict_view verdict.now
        ≡ verdict_on (program_view program.now) (unit_view unit) budget }
    ensures { OnOk result (text.new.items ≡ text.old.items
        ++ verdict_cores (program_view program.now) (unit_view unit) (verdict_view verdict.now)) }
{
    proved_units_derive();
    match verdict {
        Verdict::Proved(trees) => push_core_lines(alloc, text, program, unit, trees),
        Verdict::Spent(_)
        | Verdict::Deep
        | Verdict::Wide(_, _)
        | Verdict::Rows
        | Verdict::Stuck(_) => Ok(()),
    }
}

// Writes the lines of a unit, and tells how often it counts as proved.
fn push_unit(
    alloc: Global,
    text: &mut Vec<u8>,
    program: &Program,
    unit: Unit,
    budget: u64,
) -> Result<usize, AllocError>
    requires ascends { ProgramAscends (program_view program.now) }
    requires there { HasUnit (program_view program.now) (unit_view unit) }
    ensures lines { OnOk result (text.new.items ≡ text.old.items
        ++ cored_lines (program_view program.now) budget (unit_view unit)) }
    ensures proved { IfOk result (λ n. n
        ≡ once_proved_by (verdict_on (program_view program.now) (unit_view unit) budget)) }
{
    let verdict = search(alloc, program, unit, budget)?;
    push_line(alloc, text, program, unit, &verdict)?;
    push_cores(alloc, text, program, unit, budget, &verdict)?;
    Ok(once_proved(&verdict))
}

// Writes the lines of units, and counts those that are proved.
fn push_units(
    alloc: Global,
    text: &mut Vec<u8>,
    program: &Program,
    units: &[Unit],
    budget: u64,
) -> Result<usize, AllocError>
    requires ascends { ProgramAscends (program_view program.now) }
    requires there { AllByRecursion
        (HasUnit (program_view program.now)) (map unit_view units.now) }
    ensures lines { OnOk result (text.new.items ≡ text.old.items
        ++ flat_map (cored_lines (program_view program.now) budget) (map unit_view units.now)) }
    ensures proved { IfOk result (λ n. n
        ≡ count_proved (program_view program.now) budget (map unit_view units.now)) }
{
    let mut proved = 0;
    for unit in units {
        proved += push_unit(alloc, text, program, *unit, budget)?;
    }
    Ok(proved)
}

/// The report on a program, each unit searched within a budget of visits; behind the line of each
/// unit that is proved stands one for each of its proofs, with the numbers of the rows that it needs
/// (`cap_core_text::push_core_lines`). The parts of the program's terms are in order, as those of a
/// text's program are. The only error is want of memory.
pub fn cores_on(alloc: Global, program: &Program, budget: u64) -> Result<Report, AllocError>
    requires { ProgramAscends (program_view program.now) }
    ensures { IfOk result (IsCoresOf (program_view program.now) budget) }
{
    let units = units(alloc, program)?;
    let mut text = Vec::new(alloc);
    let proved = push_units(alloc, &mut text, program, &units, budget)?;
    finish(alloc, program, text, proved, units.len())
}
