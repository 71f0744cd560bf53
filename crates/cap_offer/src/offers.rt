//! The choices that are offered at a goal, in the order in which a search tries them.
ghost use Rattle.std.specs.Prelude.{◌≡◌, IfOk};
ghost use Rattle.cap_prog.specs.Views.{program_view};
ghost use Rattle.cap_goal_spec.specs.Fits.{HasRoom};
ghost use Rattle.cap_goal.specs.Views.{goal_view};
ghost use Rattle.cap_offer_spec.specs.Offering.{offered as offered_at};
ghost use Rattle.cap_offer.specs.Views.{offers_view};

use crate::heads::at_tasks;
use cap_closure_decide::Notes;
use cap_goal::{Choice, Goal};
use cap_prog::Program;
use std::alloc::{AllocError, Global};

/// The choices that are offered at a goal, in the order in which a search tries them, each with its
/// certificates; and the first limit of each kind that was passed while they were decided.
#[derive(Drop)]
pub struct Offers {
    pub choices: Vec<Choice>,
    pub notes: Notes,
}

/// The choices that are offered at a goal. Those alone are offered whose terms stay within 128 bits
/// and of which elimination refutes each list that is owed, within its limits; marks that it
/// doesn't refute are left without a certificate. A contradiction among the goal's rows is offered
/// alone.
#[tactic(auto, unfolding(cap_offer_spec::specs::Offering::offered, cap_offer_spec::specs::Offering::offering))]
#[inline(never)]
pub fn offered(alloc: Global, program: &Program, goal: &Goal<'_>) -> Result<Offers, AllocError>
    requires { HasRoom goal.now.state }
    ensures { IfOk result (λ offers. offers_view offers
        ≡ offered_at (program_view program.now) (goal_view goal.now)) }
{
    let mut notes = Notes::new();
    let choices = at_tasks(alloc, program, goal, &goal.tasks, &mut notes)?;
    Ok(Offers { choices, notes })
}
