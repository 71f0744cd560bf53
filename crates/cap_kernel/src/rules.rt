//! The rules, by their choices: what each leaves of a goal, and what its certificates have to
//! refute.
ghost use Rattle.cap_prog.specs.Views.{program_view};
ghost use Rattle.cap_goal_spec.specs.Choices.{certs_of as certs_in};
ghost use Rattle.cap_goal_spec.specs.Fits.{HasRoom};
ghost use Rattle.cap_rules.specs.Answers.{marks_of, proofs as owed_proofs};
ghost use Rattle.cap_rules.specs.Rules.{rule};
ghost use Rattle.cap_goal.specs.Views.{goal_view, choice_view};
ghost use Rattle.cap_rules_steps.specs.Goals.{goals_view};
ghost use Rattle.cap_rules_steps.specs.Judging.{Answered, IsTold, lists_view};
ghost use Rattle.cap_rules_steps.specs.Walks.{seen};
ghost use Rattle.cap_kernel.specs.Proven.{DecidesProven};

use cap_goal::{Choice, Goal};
use cap_lin::Row;
use cap_open::{open_proofs, open_subgoals};
use cap_prog::Program;
use cap_pure::{pure_proofs, pure_subgoals};
use cap_rules_marks::{proven_have_subgoals, subgoals_are_proven};
use cap_rules_steps::RuleError;
use cap_stab::{stab_proofs, stab_subgoals};
use cap_take::{take_proofs, take_subgoals};
use std::alloc::Global;

// The subgoals that a choice leaves, by its rule.
fn subgoals_by<'a>(
    alloc: Global,
    program: &'a Program,
    goal: &Goal<'a>,
    choice: &Choice,
) -> Result<Vec<Goal<'a>>, RuleError>
    requires { HasRoom goal.now.state }
    ensures { Answered (seen goals_view result) (rule (program_view program.now)
        (goal_view goal.now) (choice_view choice.now) (marks_of (choice_view choice.now)))
        (certs_in (choice_view choice.now)) }
{
    match choice {
        Choice::Absurd(_)
        | Choice::Clash(_, _, _)
        | Choice::Set
        | Choice::Alloc
        | Choice::Assert(_)
        | Choice::If
        | Choice::Loop
        | Choice::Turn
        | Choice::Call
        | Choice::Fork
        | Choice::Return => pure_subgoals(alloc, program, goal, choice),
        Choice::Settle(_, _) | Choice::Keep(_) => stab_subgoals(alloc, program, goal, choice),
        Choice::Enter(_, _) | Choice::Act(_, _, _) | Choice::Pick(_, _, _) | Choice::Shift(_, _) =>
            open_subgoals(alloc, program, goal, choice),
        Choice::Give
        | Choice::Fact(_)
        | Choice::Cases
        | Choice::Cell(_, _)
        | Choice::Region(_, _)
        | Choice::Guard(_, _, _)
        | Choice::Convert(_, _, _)
        | Choice::Create(_)
        | Choice::Made(_) => take_subgoals(alloc, program, goal, choice),
    }
}

/// The subgoals that a choice leaves of a goal, in the order of the rule. `NotApplicable` comes
/// where the rule doesn't fit the goal's head, where a number names nothing, where a condition of
/// the rule fails, where a list of the state is full, and where the choice's certificates, and
/// after them its marks, don't refute the rule's lists, one each; `Wide` where a result leaves 128
/// bits before that.
///
/// There are subgoals exactly where the choice proves what its rule owes: its certificates and
/// marks are as many as the lists of `proofs`, each certificate and each mark that isn't 0 refutes
/// its list, and the state has room for a variable for each mark 0.
pub fn subgoals<'a>(
    alloc: Global,
    program: &'a Program,
    goal: &Goal<'a>,
    choice: &Choice,
) -> Result<Vec<Goal<'a>>, RuleError>
    requires { HasRoom goal.now.state }
    ensures answered { Answered (seen goals_view result) (rule (program_view program.now)
        (goal_view goal.now) (choice_view choice.now) (marks_of (choice_view choice.now)))
        (certs_in (choice_view choice.now)) }
    ensures proven { DecidesProven result (program_view program.now) (goal_view goal.now)
        (choice_view choice.now) }
{
    subgoals_are_proven();
    proven_have_subgoals();
    subgoals_by(alloc, program, goal, choice)
}

/// The lists of rows that the choice's certificates, and after them its marks, have to refute,
/// whatever it holds, or the first failure that is none of theirs.
pub fn proofs<'a>(
    alloc: Global,
    program: &'a Program,
    goal: &Goal<'a>,
    choice: &Choice,
) -> Result<Vec<Vec<Row>>, RuleError>
    requires { HasRoom goal.now.state }
    ensures { IsTold (seen lists_view result)
        (owed_proofs (program_view program.now) (goal_view goal.now) (choice_view choice.now)) }
{
    match choice {
        Choice::Absurd(_)
        | Choice::Clash(_, _, _)
        | Choice::Set
        | Choice::Alloc
        | Choice::Assert(_)
        | Choice::If
        | Choice::Loop
        | Choice::Turn
        | Choice::Call
        | Choice::Fork
        | Choice::Return => pure_proofs(alloc, program, goal, choice),
        Choice::Settle(_, _) | Choice::Keep(_) => stab_proofs(alloc, program, goal, choice),
        Choice::Enter(_, _) | Choice::Act(_, _, _) | Choice::Pick(_, _, _) | Choice::Shift(_, _) =>
            open_proofs(alloc, program, goal, choice),
        Choice::Give
        | Choice::Fact(_)
        | Choice::Cases
        | Choice::Cell(_, _)
        | Choice::Region(_, _)
        | Choice::Guard(_, _, _)
        | Choice::Convert(_, _, _)
        | Choice::Create(_)
        | Choice::Made(_) => take_proofs(alloc, program, goal, choice),
    }
}
