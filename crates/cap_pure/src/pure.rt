//! What a choice at a statement, at a loop's head or at contradictory rows leaves of a goal.
ghost use Rattle.cap_prog.specs.Views.{program_view};
ghost use Rattle.cap_goal_spec.specs.Choices.{certs_of as certs_in};
ghost use Rattle.cap_rules.specs.Answers.{marks_of, proofs};
ghost use Rattle.cap_rules.specs.Rules.{rule};
ghost use Rattle.std.specs.Prelude.{◌∷◌};
ghost use Rattle.cap_goal.specs.Views.{home_view, task_view, tasks_view, goal_view, choice_view};
ghost use Rattle.cap_rules_steps.specs.Goals.{goals_view, point_view};
ghost use Rattle.cap_rules_steps.specs.Judging.{Answered, IsTold, lists_view};
ghost use Rattle.cap_rules_steps.specs.Walks.{Makes, Claims, seen};
ghost use Rattle.cap_pure.specs.Heads.{IsAtStatement, IsPure, turning, turn_rule};
ghost use Rattle.cap_pure.specs.Heads.{upcoming_in, running, run_rule, tasks_rule};

use crate::contradiction::absurd;
use crate::loops::turn;
use crate::statements::at_statement;
use crate::upcoming::{running, upcoming_in};
use cap_goal::{Choice, Goal, Home, Point, State, Task};
use cap_lin::Row;
use cap_prog::Program;
use cap_rules_steps::{Ledger, RuleError, judged, told};
use std::alloc::Global;

// At the statement that is run first.
fn at_run<'a>(
    alloc: Global,
    ledger: &mut Ledger,
    program: &'a Program,
    state: &State,
    choice: &Choice,
    head: &Task<'a>,
    behind: &[Task<'a>],
) -> Result<Vec<Goal<'a>>, RuleError>
    requires { IsAtStatement (choice_view choice.now) }
    ensures { Claims (seen goals_view result) ledger.old ledger.new (run_rule
        (program_view program.now) state.now (choice_view choice.now)
        (running (task_view head.now) (tasks_view behind.now))) }
{
    match running(alloc, head, behind)? {
        None => Err(RuleError::NotApplicable),
        Some(next) => at_statement(alloc, ledger, program, state, choice, &next),
    }
}

// At the loop that comes first at a point.
fn at_loop<'a>(
    alloc: Global,
    state: &State,
    home: Home,
    point: &Point<'a>,
    behind: &[Task<'a>],
) -> Result<Vec<Goal<'a>>, RuleError>
    ensures { Makes (seen goals_view result) (turn_rule state.now
        (upcoming_in (home_view home) (point_view point.now) (tasks_view behind.now))) }
{
    match upcoming_in(alloc, home, point, behind)? {
        None => Err(RuleError::NotApplicable),
        Some(next) => turn(alloc, state, point, &next),
    }
}

// At the head of a loop, where its invariant is given.
fn at_turn<'a>(
    alloc: Global,
    state: &State,
    head: &Task<'a>,
    behind: &[Task<'a>],
) -> Result<Vec<Goal<'a>>, RuleError>
    ensures { Makes (seen goals_view result) (turn_rule state.now
        (turning (task_view head.now) (tasks_view behind.now))) }
{
    match head {
        Task::Turn(home, point) => at_loop(alloc, state, *home, point, behind),
        _ => Err(RuleError::NotApplicable),
    }
}

// What is left of this task and those behind it.
fn at_head<'a>(
    alloc: Global,
    ledger: &mut Ledger,
    program: &'a Program,
    state: &State,
    choice: &Choice,
    head: &Task<'a>,
    behind: &[Task<'a>],
) -> Result<Vec<Goal<'a>>, RuleError>
    requires { IsPure (choice_view choice.now) }
    ensures { Claims (seen goals_view result) ledger.old ledger.new (tasks_rule
        (program_view program.now) state.now (choice_view choice.now)
        (task_view head.now ∷ tasks_view behind.now)) }
{
    match choice {
        Choice::Absurd(_) => absurd(alloc, ledger, state),
        Choice::Turn => at_turn(alloc, state, head, behind),
        Choice::Clash(_, _, _)
        | Choice::Set
        | Choice::Alloc
        | Choice::Assert(_)
        | Choice::If
        | Choice::Loop
        | Choice::Call
        | Choice::Fork
        | Choice::Return => at_run(alloc, ledger, program, state, choice, head, behind),
        Choice::Enter(_, _)
        | Choice::Act(_, _, _)
        | Choice::Pick(_, _, _)
        | Choice::Shift(_, _)
        | Choice::Settle(_, _)
        | Choice::Keep(_)
        | Choice::Give
        | Choice::Fact(_)
        | Choice::Cases
        | Choice::Cell(_, _)
        | Choice::Region(_, _)
        | Choice::Guard(_, _, _)
        | Choice::Convert(_, _, _)
        | Choice::Create(_)
        | Choice::Made(_) => Err(RuleError::NotApplicable),
    }
}

// What is left of these tasks.
fn at_first<'a>(
    alloc: Global,
    ledger: &mut Ledger,
    program: &'a Program,
    state: &State,
    choice: &Choice,
    tasks: &[Task<'a>],
) -> Result<Vec<Goal<'a>>, RuleError>
    requires { IsPure (choice_view choice.now) }
    ensures { Claims (seen goals_view result) ledger.old ledger.new (tasks_rule
        (program_view program.now) state.now (choice_view choice.now) (tasks_view tasks.now)) }
{
    match tasks {
        [] => Err(RuleError::NotApplicable),
        [behind @ .., head] => at_head(alloc, ledger, program, state, choice, head, behind),
    }
}

/// The subgoals that a choice at a statement, at a loop's head or at contradictory rows leaves of
/// a goal. Contradictory rows leave none, and nor do two cells of one address, which clash at a
/// read, a write or a compare-and-swap. A branch, and a loop at its head, leave one where their
/// comparison holds, and then one where its opposite does. All others leave one, or none where
/// nothing is to be done any more. `NotApplicable` comes at any other goal, where a number names
/// nothing, where a list of the state is full, and where the choice's certificates don't refute the
/// rule's lists, one each; `Wide` where a result leaves 128 bits before that.
pub fn pure_subgoals<'a>(
    alloc: Global,
    program: &'a Program,
    goal: &Goal<'a>,
    choice: &Choice,
) -> Result<Vec<Goal<'a>>, RuleError>
    requires { IsPure (choice_view choice.now) }
    ensures { Answered (seen goals_view result) (rule (program_view program.now)
        (goal_view goal.now) (choice_view choice.now) (marks_of (choice_view choice.now)))
        (certs_in (choice_view choice.now)) }
{
    let certs = choice.certs(alloc)?;
    let mut ledger = Ledger::new(alloc);
    let outcome = at_first(
        alloc,
        &mut ledger,
        program,
        &goal.state,
        choice,
        &goal.tasks,
    );
    judged(outcome, &ledger, &certs)
}

/// The lists of rows that the certificates of such a choice have to refute, whatever it holds, or
/// the first failure that is none of theirs.
pub fn pure_proofs<'a>(
    alloc: Global,
    program: &'a Program,
    goal: &Goal<'a>,
    choice: &Choice,
) -> Result<Vec<Vec<Row>>, RuleError>
    requires { IsPure (choice_view choice.now) }
    ensures { IsTold (seen lists_view result)
        (proofs (program_view program.now) (goal_view goal.now) (choice_view choice.now)) }
{
    let mut ledger = Ledger::new(alloc);
    let outcome = at_first(
        alloc,
        &mut ledger,
        program,
        &goal.state,
        choice,
        &goal.tasks,
    );
    told(outcome, ledger)
}
