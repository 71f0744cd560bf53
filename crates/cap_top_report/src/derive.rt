//! The trees that prove all units of a program, or its report.
ghost use Rattle.std.specs.Prelude.{◌≡◌, ◌++◌, IfOk, OnOk, map, flat_map};
ghost use Rattle.std.specs.List.{AllByRecursion};
ghost use Rattle.cap_prog.specs.Views.{program_view};
ghost use Rattle.cap_goal.specs.Views.{unit_view};
ghost use Rattle.cap_goal_roots.specs.Units.{HasUnit};
ghost use Rattle.cap_search.specs.Views.{trees_seen, verdict_view};
ghost use Rattle.cap_top_report.specs.Found.{proof_trees, found_of};
ghost use Rattle.cap_top_report.specs.Report.{unit_line, count_proved};
ghost use Rattle.cap_top_report.specs.Views.{IsConclusionOf};

use crate::lines::{once_proved, push_line};
use crate::report::{Report, finish};
use crate::units::units;
use cap_goal::{Bundle, Node, Unit};
use cap_prog::Program;
use cap_search::{Verdict, search};
use std::alloc::{AllocError, Global};

/// What a search of all units comes to: the trees of all roots, where each unit is proved and the
/// precondition of `main` is not found empty, or else the report.
#[derive(Drop)]
pub enum Conclusion {
    Proved(Bundle),
    Reported(Report),
}

// The trees of a unit that is proved, and none of any other.
fn into_trees(alloc: Global, verdict: Verdict) -> Vec<Option<Node>>
    ensures { trees_seen result ≡ proof_trees (verdict_view verdict) }
{
    match verdict {
        Verdict::Proved(trees) => trees,
        Verdict::Spent(_)
        | Verdict::Deep
        | Verdict::Wide(_, _)
        | Verdict::Rows
        | Verdict::Stuck(_) => Vec::new(alloc),
    }
}

// Writes the lines of units, appends the trees of those that are proved, and counts these units.
fn derive_units(
    alloc: Global,
    text: &mut Vec<u8>,
    trees: &mut Vec<Option<Node>>,
    program: &Program,
    units: &[Unit],
    budget: u64,
) -> Result<usize, AllocError>
    requires { AllByRecursion (HasUnit (program_view program.now)) (map unit_view units.now) }
    ensures lines { OnOk result (text.new.items ≡ text.old.items
        ++ flat_map (unit_line (program_view program.now) budget) (map unit_view units.now)) }
    ensures trees { OnOk result (trees_seen trees.new ≡ trees_seen trees.old
        ++ flat_map (found_of (program_view program.now) budget) (map unit_view units.now)) }
    ensures proved { IfOk result (λ n. n
        ≡ count_proved (program_view program.now) budget (map unit_view units.now)) }
{
    let mut proved = 0;
    for unit in units {
        let verdict = search(alloc, program, *unit, budget)?;
        push_line(alloc, text, program, *unit, &verdict)?;
        proved += once_proved(&verdict);
        let mut found = into_trees(alloc, verdict);
        trees.append(&mut found)?;
    }
    Ok(proved)
}

/// What a search of all units of a program comes to, each searched within a budget of visits: the
/// trees of all roots, one unit's after the other's, exactly where its report is good, and
/// otherwise that report. The only error is want of memory.
pub fn derive_on(alloc: Global, program: &Program, budget: u64) -> Result<Conclusion, AllocError>
    ensures { IfOk result (IsConclusionOf (program_view program.now) budget) }
{
    let units = units(alloc, program)?;
    let mut text = Vec::new(alloc);
    let mut trees = Vec::new(alloc);
    let proved = derive_units(alloc, &mut text, &mut trees, program, &units, budget)?;
    let report = finish(alloc, program, text, proved, units.len())?;
    if report.good {
        Ok(Conclusion::Proved(Bundle { trees }))
    } else {
        Ok(Conclusion::Reported(report))
    }
}
