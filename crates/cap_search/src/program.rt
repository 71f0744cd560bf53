//! What holds of every program: the parts of its terms are in order.
ghost use Rattle.cap_prog.specs.Views.{case_view, program_view, region_view};
ghost use Rattle.cap_rules_ascending.specs.Ascending.{CaseAscends, CompAscends, ProgramAscends};
ghost use Rattle.cap_rules_ascending.specs.Ascending.{TermAscends, TypeAscends};

use cap_lin::Term;
use cap_prog::{Case, Comp, Program, RegionType};

// The parts of a term are in order.
fn term_ascends(term: &Term)
    ensures { TermAscends term.now }
{
    let _parts = term.parts();
}

fn comparison_ascends(comparison: &Comp)
    ensures { CompAscends comparison.now }
{
    term_ascends(&comparison.left);
    term_ascends(&comparison.right);
}

fn case_ascends(case: &Case)
    ensures { CaseAscends (case_view case.now) }
{
    term_ascends(&case.state);
    for comparison in &case.when {
        comparison_ascends(comparison);
    }
}

fn region_ascends(region: &RegionType)
    ensures { TypeAscends (region_view region.now) }
{
    for case in &region.cases {
        case_ascends(case);
    }
}

/// The parts of the terms that the region types of a program write are in order. Each term keeps
/// its own so: this only goes over them.
pub(crate) fn program_ascends(program: &Program)
    ensures { ProgramAscends (program_view program.now) }
{
    for region in program.regions() {
        region_ascends(region);
    }
}
