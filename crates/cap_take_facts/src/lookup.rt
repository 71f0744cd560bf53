//! Facts of a state and cases of a region type, by their numbers.
ghost use Rattle.std.specs.Prelude.{slice_get};
ghost use Rattle.cap_prog.specs.Views.{region_view};
ghost use Rattle.cap_rules.specs.Attempts.{found};
ghost use Rattle.cap_rules_steps.specs.Walks.{Makes, seen};
ghost use Rattle.cap_take_facts.specs.Views.{fact_lent, case_lent};

use cap_goal::{Fact, State};
use cap_prog::{Case, RegionType};
use cap_rules_steps::RuleError;

/// A fact, where there is one of this number.
pub(crate) fn fact_at(state: &State, number: u32) -> Result<&Fact, RuleError>
    ensures { Makes (seen fact_lent result) (found (slice_get state.now.facts number)) }
{
    if number as usize >= state.facts().len() {
        return Err(RuleError::NotApplicable);
    }
    Ok(&state.facts()[number as usize])
}

/// A case, where the type has one of this number, and `NotApplicable` where it has not.
pub fn case_at(region: &RegionType, number: u32) -> Result<&Case, RuleError>
    ensures { Makes (seen case_lent result)
        (found (slice_get (region_view region.now).cases number)) }
{
    if number as usize >= region.cases.len() {
        return Err(RuleError::NotApplicable);
    }
    Ok(&region.cases[number as usize])
}
