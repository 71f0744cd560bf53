//! Parts of a program by their numbers.
ghost use Rattle.std.specs.Prelude.{slice_get};
ghost use Rattle.cap_prog.specs.Views.{function_view, region_view, program_view};
ghost use Rattle.cap_rules.specs.Attempts.{found};
ghost use Rattle.cap_rules_steps.specs.Places.{function_at, region_at};
ghost use Rattle.cap_rules_steps.specs.Walks.{Makes, seen};

use crate::error::RuleError;
use cap_prog::{Function, Program, RegionType};

/// A function, where there is one of this number.
#[tactic(auto, using(crate::proofs::Walking::making))]
pub fn function_at(program: &Program, number: u32) -> Result<&Function, RuleError>
    ensures { Makes (seen function_at result)
        (found (slice_get (program_view program.now).functions number)) }
{
    if number as usize >= program.functions().len() {
        return Err(RuleError::NotApplicable);
    }
    Ok(program.function(number))
}

/// A region type, where there is one of this number.
#[tactic(auto, using(crate::proofs::Walking::making))]
pub fn region_at(program: &Program, number: u32) -> Result<&RegionType, RuleError>
    ensures { Makes (seen region_at result)
        (found (slice_get (program_view program.now).regions number)) }
{
    if number as usize >= program.regions().len() {
        return Err(RuleError::NotApplicable);
    }
    Ok(program.region(number))
}
