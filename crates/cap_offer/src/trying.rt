//! Choices are tried: each in its turn, or the first that succeeds.
ghost use Rattle.std.specs.Prelude.{◌≡◌, [], ◌∷◌, IfOk, option_map, option_to_list};
ghost use Rattle.cap_prog.specs.Views.{program_view};
ghost use Rattle.cap_goal_spec.specs.Fits.{HasRoom};
ghost use Rattle.cap_goal.specs.Views.{goal_view, choice_view};
ghost use Rattle.cap_goal_spec.specs.Choices.{with_certs};
ghost use Rattle.cap_offer_spec.specs.Scanning.{tried as tried_at};
ghost use Rattle.cap_offer_spec.specs.Scanning.{tried_all as all_tried, first_tried as first_of};
ghost use Rattle.cap_closure_decide.specs.Noting.{Adds, certs_seen};
ghost use Rattle.cap_offer.specs.Views.{choices_view};

use cap_closure_decide::{Notes, certified_by};
use cap_farkas::Cert;
use cap_goal::{Choice, Goal};
use cap_kernel::proofs;
use cap_prog::Program;
use std::alloc::{AllocError, Global};

// The choice with its certificates, where there are any.
fn proved(choice: Choice, certs: Option<Vec<Cert>>) -> Option<Choice>
    ensures { option_map choice_view result
        ≡ option_map (with_certs (choice_view choice)) (certs_seen certs) }
{
    match certs {
        Some(certs) => Some(choice.with_certs(certs)),
        None => {
            drop(choice);
            None
        }
    }
}

/// The choice with the certificates of its proofs, where it applies and each proof has one.
#[tactic(auto, unfolding(cap_offer_spec::specs::Scanning::tried))]
pub(crate) fn tried(
    alloc: Global,
    program: &Program,
    goal: &Goal<'_>,
    choice: Choice,
    notes: &mut Notes,
) -> Result<Option<Choice>, AllocError>
    requires { HasRoom goal.now.state }
    ensures { IfOk result (λ c. Adds notes.old notes.new (option_map choice_view c)
        (tried_at (program_view program.now) (goal_view goal.now) (choice_view choice))) }
{
    let lists = proofs(alloc, program, goal, &choice);
    let certs = certified_by(alloc, lists, notes)?;
    Ok(proved(choice, certs))
}

/// Each of the choices that succeeds.
#[tactic(auto, unfolding(cap_offer_spec::specs::Scanning::tried_all))]
pub(crate) fn tried_all(
    alloc: Global,
    program: &Program,
    goal: &Goal<'_>,
    choices: Vec<Choice>,
    notes: &mut Notes,
) -> Result<Vec<Choice>, AllocError>
    requires { HasRoom goal.now.state }
    ensures { IfOk result (λ v. Adds notes.old notes.new (choices_view v.items)
        (all_tried (program_view program.now) (goal_view goal.now) (choices_view choices.items))) }
{
    let mut all = Vec::new(alloc);
    for choice in choices {
        if let Some(found) = tried(alloc, program, goal, choice, notes)? {
            all.push(found)?;
        }
    }
    Ok(all)
}

/// The first of the choices that succeeds.
#[tactic(auto, unfolding(cap_offer_spec::specs::Scanning::first_tried))]
pub(crate) fn first_tried(
    alloc: Global,
    program: &Program,
    goal: &Goal<'_>,
    choices: Vec<Choice>,
    notes: &mut Notes,
) -> Result<Option<Choice>, AllocError>
    requires { HasRoom goal.now.state }
    ensures { IfOk result (λ c. Adds notes.old notes.new (option_map choice_view c)
        (first_of (program_view program.now) (goal_view goal.now) (choices_view choices.items))) }
{
    for choice in choices {
        if let Some(found) = tried(alloc, program, goal, choice, notes)? {
            return Ok(Some(found));
        }
    }
    Ok(None)
}

/// A list of one choice or of none.
pub(crate) fn only(alloc: Global, choice: Option<Choice>) -> Result<Vec<Choice>, AllocError>
    ensures { IfOk result
        (λ v. choices_view v.items ≡ option_to_list (option_map choice_view choice)) }
{
    let mut choices = Vec::new(alloc);
    if let Some(choice) = choice {
        choices.push(choice)?;
    }
    Ok(choices)
}

/// The choice alone, where it succeeds.
pub(crate) fn tried_alone(
    alloc: Global,
    program: &Program,
    goal: &Goal<'_>,
    choice: Choice,
    notes: &mut Notes,
) -> Result<Vec<Choice>, AllocError>
    requires { HasRoom goal.now.state }
    ensures { IfOk result (λ v. Adds notes.old notes.new (choices_view v.items)
        (all_tried (program_view program.now) (goal_view goal.now)
        (choice_view choice ∷ []))) }
{
    let found = tried(alloc, program, goal, choice, notes)?;
    only(alloc, found)
}
