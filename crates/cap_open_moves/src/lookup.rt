//! Cases and actions of a region type, and pieces of guards, by their numbers.
ghost use Rattle.std.specs.Prelude.{slice_get};
ghost use Rattle.cap_prog.specs.Views.{region_view};
ghost use Rattle.cap_rules.specs.Attempts.{found};
ghost use Rattle.cap_rules_steps.specs.Walks.{Makes, seen};
ghost use Rattle.cap_open_moves.specs.Views.{case_lent, action_lent, piece_lent};

use cap_gsolve::Piece;
use cap_prog::{Action, Case, RegionType};
use cap_rules_steps::RuleError;

/// A case of a region type, where there is one of this number.
pub(crate) fn case_at(region: &RegionType, number: u32) -> Result<&Case, RuleError>
    ensures { Makes (seen case_lent result)
        (found (slice_get (region_view region.now).cases number)) }
{
    if number as usize >= region.cases.len() {
        return Err(RuleError::NotApplicable);
    }
    Ok(&region.cases[number as usize])
}

/// An action of a region type, where there is one of this number.
pub(crate) fn action_at(region: &RegionType, number: u32) -> Result<&Action, RuleError>
    ensures { Makes (seen action_lent result)
        (found (slice_get (region_view region.now).actions number)) }
{
    if number as usize >= region.actions.len() {
        return Err(RuleError::NotApplicable);
    }
    Ok(&region.actions[number as usize])
}

/// A piece of guards, where there is one of this number.
pub(crate) fn piece_at(pieces: &[Piece], number: u32) -> Result<&Piece, RuleError>
    ensures { Makes (seen piece_lent result) (found (slice_get pieces.now number)) }
{
    if number as usize >= pieces.len() {
        return Err(RuleError::NotApplicable);
    }
    Ok(&pieces[number as usize])
}
