//! Laws of the multipliers of certificates, each the contract of a function that does nothing.
#![tactic(auto)]

ghost use Rattle.cap_deriv_laws.specs.Laws.{RefutationsHaveNoZero, ValidHaveNoZeros};

use cap_rules::subgoals_succeed;

/// A certificate that refutes some rows has no multiplier 0.
pub fn refutations_have_no_zero()
    ensures { RefutationsHaveNoZero }
{}

/// No certificate of valid trees has a multiplier 0, also where it is a mark.
pub fn valid_trees_have_no_zeros()
    ensures { ValidHaveNoZeros }
{
    subgoals_succeed();
}
