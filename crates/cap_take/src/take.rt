//! The choices on assertions: their subgoals, and what they owe.
ghost use Rattle.cap_prog.specs.Views.{program_view};
ghost use Rattle.cap_goal_spec.specs.Choices.{certs_of as certs_in};
ghost use Rattle.cap_rules.specs.Answers.{marks_of, proofs};
ghost use Rattle.cap_rules.specs.Rules.{rule};
ghost use Rattle.cap_goal.specs.Views.{tasks_view, goal_view, choice_view};
ghost use Rattle.cap_rules_steps.specs.Goals.{goals_view};
ghost use Rattle.cap_rules_steps.specs.Judging.{Answered, IsTold, lists_view};
ghost use Rattle.cap_rules_steps.specs.Walks.{Claims, seen};
ghost use Rattle.cap_take.specs.Heads.{IsTaking, taken_by};

use crate::heads::{Taking, rule_of, take_first};
use cap_goal::{Choice, Goal, State, Task};
use cap_lin::Row;
use cap_prog::Program;
use cap_rules_steps::{Ledger, RuleError, judged, told};
use std::alloc::Global;

// What is left of these tasks, where a rule on an assertion is taken.
fn take_tasks<'a>(
    alloc: Global,
    ledger: &mut Ledger,
    program: &'a Program,
    state: &State,
    taking: Option<Taking>,
    tasks: &[Task<'a>],
) -> Result<Vec<Goal<'a>>, RuleError>
    ensures { Claims (seen goals_view result) ledger.old ledger.new (taken_by
        (program_view program.now) state.now taking (tasks_view tasks.now)) }
{
    match taking {
        None => Err(RuleError::NotApplicable),
        Some(taking) => take_first(alloc, ledger, program, state, taking, tasks),
    }
}

/// The subgoals that a choice on an assertion leaves of a goal. Where one is to be given, its items
/// up to the first conditional are assumed, and there the goal splits. Where one is to be given up,
/// its first item is: a comparison is claimed, a conditional splits the goal, a cell goes out of
/// what is held, a region fact is matched with one that is held or its region is created, and a
/// guard is taken out of a piece that is held or the guards of a sum are converted. A created region
/// is stated once its case has been given up. `NotApplicable` comes at any other goal, where there
/// is no cell, fact, piece, sum or case of the choice's number, where a name that is needed is
/// unbound or one that is created is bound, where no creation is left, where a list of the state is
/// full, at a guard of a type that the program lacks, and where the choice's certificates don't
/// refute the rule's lists, one each; `Wide` where a result leaves 128 bits before that.
pub fn take_subgoals<'a>(
    alloc: Global,
    program: &'a Program,
    goal: &Goal<'a>,
    choice: &Choice,
) -> Result<Vec<Goal<'a>>, RuleError>
    requires taking { IsTaking (choice_view choice.now) }
    ensures { Answered (seen goals_view result) (rule (program_view program.now)
        (goal_view goal.now) (choice_view choice.now) (marks_of (choice_view choice.now)))
        (certs_in (choice_view choice.now)) }
{
    let certs = choice.certs(alloc)?;
    let mut ledger = Ledger::new(alloc);
    let outcome = take_tasks(
        alloc,
        &mut ledger,
        program,
        &goal.state,
        rule_of(choice),
        &goal.tasks,
    );
    judged(outcome, &ledger, &certs)
}

/// The lists of rows that the certificates of such a choice have to refute, whatever it holds, or
/// the first failure that is none of theirs.
pub fn take_proofs<'a>(
    alloc: Global,
    program: &'a Program,
    goal: &Goal<'a>,
    choice: &Choice,
) -> Result<Vec<Vec<Row>>, RuleError>
    requires taking { IsTaking (choice_view choice.now) }
    ensures { IsTold (seen lists_view result)
        (proofs (program_view program.now) (goal_view goal.now) (choice_view choice.now)) }
{
    let mut ledger = Ledger::new(alloc);
    let outcome = take_tasks(
        alloc,
        &mut ledger,
        program,
        &goal.state,
        rule_of(choice),
        &goal.tasks,
    );
    told(outcome, ledger)
}
