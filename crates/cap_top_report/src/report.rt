//! The report on a program: a line for each unit, and how many are proved.
ghost use Rattle.std.specs.Prelude.{◌≡◌, ◌++◌, ◌+◌, ◌==◌, ◌&&◌, not, IfOk, OnOk, string_bytes};
ghost use Rattle.std.specs.Prelude.{length, map, flat_map};
ghost use Rattle.std.specs.List.{AllByRecursion};
ghost use Rattle.cap_prog.specs.Views.{program_view};
ghost use Rattle.cap_goal.specs.Views.{unit_view};
ghost use Rattle.cap_goal_spec.specs.Roots.{units as units_of};
ghost use Rattle.cap_goal_roots.specs.Units.{HasUnit};
ghost use Rattle.cap_search_spec.specs.Starts.{empty_start as is_empty_start};
ghost use Rattle.cap_top_report.specs.Report.{unit_line, count_proved, start_line};
ghost use Rattle.cap_top_report.specs.Report.{count_line as line_of_counts};
ghost use Rattle.cap_top_report.specs.Views.{IsReportOf};

use crate::lines::{once_proved, push_line};
use crate::units::units;
use cap_goal::Unit;
use cap_prog::Program;
use cap_search::{empty_start, search};
use std::alloc::{AllocError, Global};

/// What is said of a program: its text, and whether each unit is proved and the precondition of
/// `main` is not found empty.
#[derive(Drop)]
pub struct Report {
    pub good: bool,
    pub text: Vec<u8>,
}

// Writes the lines of units, and counts those that are proved.
fn push_units(
    alloc: Global,
    text: &mut Vec<u8>,
    program: &Program,
    units: &[Unit],
    budget: u64,
) -> Result<usize, AllocError>
    requires { AllByRecursion (HasUnit (program_view program.now)) (map unit_view units.now) }
    ensures lines { OnOk result (text.new.items ≡ text.old.items
        ++ flat_map (unit_line (program_view program.now) budget) (map unit_view units.now)) }
    ensures proved { IfOk result (λ n. n
        ≡ count_proved (program_view program.now) budget (map unit_view units.now)) }
{
    let mut proved = 0;
    for unit in units {
        let verdict = search(alloc, program, *unit, budget)?;
        push_line(alloc, text, program, *unit, &verdict)?;
        proved += once_proved(&verdict);
    }
    Ok(proved)
}

// The line that counts.
fn count_line(alloc: Global, proved: usize, all: usize) -> Result<String, AllocError>
    ensures { IfOk result (λ text. string_bytes text ≡ line_of_counts proved all) }
{
    format!(in alloc; "proved {proved} of {all}\n")
}

/// Ends a report that has the lines of the units, of which so many are proved.
pub(crate) fn finish(
    alloc: Global,
    program: &Program,
    mut text: Vec<u8>,
    proved: usize,
    all: usize,
) -> Result<Report, AllocError>
    ensures text { IfOk result (λ r. r.text.items ≡ text.items
        ++ (start_line (is_empty_start (program_view program.now)) ++ line_of_counts proved all)) }
    ensures good { IfOk result (λ r. r.good
        ≡ (proved == all) && not (is_empty_start (program_view program.now))) }
{
    let empty = empty_start(alloc, program)?;
    if empty {
        text.extend_from_slice(b"main: precondition empty\n")?;
    }
    text.extend_from_slice(count_line(alloc, proved, all)?.as_bytes())?;
    Ok(Report {
        good: proved == all && !empty,
        text,
    })
}

/// The report on a program, each unit searched within a budget of visits. The only error is want of
/// memory.
pub fn report_on(alloc: Global, program: &Program, budget: u64) -> Result<Report, AllocError>
    ensures { IfOk result (IsReportOf (program_view program.now) budget) }
{
    let units = units(alloc, program)?;
    let mut text = Vec::new(alloc);
    let proved = push_units(alloc, &mut text, program, &units, budget)?;
    finish(alloc, program, text, proved, units.len())
}
