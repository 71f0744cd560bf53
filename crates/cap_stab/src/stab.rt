//! The choices that settle a fact or keep its state: their subgoals, and what they owe.
ghost use Rattle.std.specs.Prelude.{◌≡◌, ◌<◌, ◌≤◌, ◌+◌, ◌∷◌, length, IfOk};
ghost use Rattle.cap_prog.specs.Views.{region_view, program_view};
ghost use Rattle.cap_goal_spec.specs.States.{longest_list, to_rest};
ghost use Rattle.cap_goal_spec.specs.Choices.{certs_of as certs_in};
ghost use Rattle.cap_goal_spec.specs.Fits.{HasRoom};
ghost use Rattle.cap_rules.specs.Answers.{marks_of, proofs};
ghost use Rattle.cap_rules.specs.Rules.{rule};
ghost use Rattle.cap_goal.specs.Views.{task_view, tasks_view, goal_view, choice_view};
ghost use Rattle.cap_rules_steps.specs.Goals.{goals_view};
ghost use Rattle.cap_rules_steps.specs.Judging.{Answered, IsTold, lists_view};
ghost use Rattle.cap_rules_steps.specs.Walks.{Claims, giving, seen};
ghost use Rattle.cap_stab.specs.Heads.{IsSettling, numbers_of, numbers_seen, settled_by};
ghost use Rattle.cap_stab.specs.Heads.{rest_at, rest_from, rest_by, rest_tasks};

use crate::settling::{keep, settle};
use cap_goal::{Choice, Fact, Goal, State, Task};
use cap_lin::Row;
use cap_prog::{Program, RegionType};
use cap_rules_steps::{Ledger, RuleError, copy_tasks, judged, leaves, region_at, told};
use std::alloc::{AllocError, Global};

// The numbers of the candidates of a choice; none where it has none.
fn numbers(choice: &Choice) -> Option<&[u32]>
    ensures { numbers_seen result ≡ numbers_of (choice_view choice.now) }
{
    match choice {
        Choice::Settle(list, _) => Some(list.as_slice()),
        Choice::Absurd(_)
        | Choice::Clash(_, _, _)
        | Choice::Set
        | Choice::Alloc
        | Choice::Assert(_)
        | Choice::If
        | Choice::Loop
        | Choice::Turn
        | Choice::Call
        | Choice::Fork
        | Choice::Return
        | Choice::Enter(_, _)
        | Choice::Act(_, _, _)
        | Choice::Pick(_, _, _)
        | Choice::Shift(_, _)
        | Choice::Keep(_)
        | Choice::Give
        | Choice::Fact(_)
        | Choice::Cases
        | Choice::Cell(_, _)
        | Choice::Region(_, _)
        | Choice::Guard(_, _, _)
        | Choice::Convert(_, _, _)
        | Choice::Create(_)
        | Choice::Made(_) => None,
    }
}

// Settles a fact, by its number, by the candidates of these numbers, or keeps its state.
fn settle_by(
    alloc: Global,
    ledger: &mut Ledger,
    region: &RegionType,
    state: &mut State,
    number: u32,
    fact: &Fact,
    list: Option<&[u32]>,
) -> Result<(), RuleError>
    requires room { length state.old.sorts ≤ longest_list }
    requires exists { number < length state.old.facts }
    ensures { Claims (giving result state.new) ledger.old ledger.new (settled_by
        (region_view region.now) state.old number fact.now (numbers_seen list.entry)) }
{
    match list {
        Some(list) => settle(alloc, ledger, region, state, number, fact, list),
        None => keep(alloc, ledger, region, state, number, fact),
    }
}

// The facts from a number on are to be settled, and then come the tasks behind.
fn with_rest<'a>(
    alloc: Global,
    from: u32,
    at: u32,
    behind: &[Task<'a>],
) -> Result<Vec<Task<'a>>, AllocError>
    ensures { IfOk result (λ v. tasks_view v.items ≡ to_rest from at ∷ tasks_view behind.now) }
{
    let mut tasks = copy_tasks(alloc, behind)?;
    tasks.push(Task::Rest(from, at))?;
    Ok(tasks)
}

// Settles the fact of this number; the facts behind it remain.
fn settle_next<'a>(
    alloc: Global,
    ledger: &mut Ledger,
    program: &Program,
    state: &State,
    list: Option<&[u32]>,
    number: u32,
    at: u32,
    behind: &[Task<'a>],
) -> Result<Vec<Goal<'a>>, RuleError>
    requires room { HasRoom state.now }
    ensures { Claims (seen goals_view result) ledger.old ledger.new (rest_at
        (program_view program.now) state.now (numbers_seen list.entry) number at
        (tasks_view behind.now)) }
{
    let facts = state.facts();
    if number as usize >= facts.len() {
        return Err(RuleError::NotApplicable);
    }
    let fact = &facts[number as usize];
    let region = region_at(program, fact.kind)?;
    let mut next = state.copy()?;
    settle_by(alloc, ledger, region, &mut next, number, fact, list)?;
    let tasks = with_rest(alloc, number + 1, at, behind)?;
    Ok(leaves(alloc, next, tasks)?)
}

// From which fact on facts are to be settled, and the statement's number.
fn rest_from(task: &Task<'_>) -> Option<(u32, u32)>
    ensures { result ≡ rest_from (task_view task.now) }
{
    match task {
        Task::Rest(from, at) => Some((*from, *at)),
        Task::Run(_, _)
        | Task::Turn(_, _)
        | Task::Give(_, _, _)
        | Task::Take(_, _, _, _)
        | Task::Made(_, _, _, _, _)
        | Task::Close(_, _)
        | Task::Shift(_, _, _, _, _) => None,
    }
}

// Only a head at which facts are to be settled.
fn settle_head<'a>(
    alloc: Global,
    ledger: &mut Ledger,
    program: &Program,
    state: &State,
    list: Option<&[u32]>,
    rest: Option<(u32, u32)>,
    behind: &[Task<'a>],
) -> Result<Vec<Goal<'a>>, RuleError>
    requires room { HasRoom state.now }
    ensures { Claims (seen goals_view result) ledger.old ledger.new (rest_by
        (program_view program.now) state.now (numbers_seen list.entry) rest
        (tasks_view behind.now)) }
{
    match rest {
        Some((from, at)) => settle_next(alloc, ledger, program, state, list, from, at, behind),
        None => Err(RuleError::NotApplicable),
    }
}

// What is left of these tasks.
fn settle_first<'a>(
    alloc: Global,
    ledger: &mut Ledger,
    program: &Program,
    state: &State,
    list: Option<&[u32]>,
    tasks: &[Task<'a>],
) -> Result<Vec<Goal<'a>>, RuleError>
    requires room { HasRoom state.now }
    ensures { Claims (seen goals_view result) ledger.old ledger.new (rest_tasks
        (program_view program.now) state.now (numbers_seen list.entry) (tasks_view tasks.now)) }
{
    match tasks {
        [] => Err(RuleError::NotApplicable),
        [behind @ .., head] => {
            settle_head(alloc, ledger, program, state, list, rest_from(head), behind)
        }
    }
}

/// The subgoals that a choice to settle a fact by candidates, or to keep its state, leaves of a
/// goal: one, or none where nothing is to be done any more. Where the facts from a number on are to
/// be settled first, the fact of that number is, and those behind it remain. `NotApplicable` comes
/// at any other goal, where there is no such fact, for candidates that are not there or don't
/// ascend, where a list of the state is full, and where the choice's certificates don't refute the
/// rule's lists, one each; `Wide` where a result leaves 128 bits before that.
pub fn stab_subgoals<'a>(
    alloc: Global,
    program: &Program,
    goal: &Goal<'a>,
    choice: &Choice,
) -> Result<Vec<Goal<'a>>, RuleError>
    requires room { HasRoom goal.now.state }
    requires settling { IsSettling (choice_view choice.now) }
    ensures { Answered (seen goals_view result) (rule (program_view program.now)
        (goal_view goal.now) (choice_view choice.now) (marks_of (choice_view choice.now)))
        (certs_in (choice_view choice.now)) }
{
    let certs = choice.certs(alloc)?;
    let mut ledger = Ledger::new(alloc);
    let outcome = settle_first(
        alloc,
        &mut ledger,
        program,
        &goal.state,
        numbers(choice),
        &goal.tasks,
    );
    judged(outcome, &ledger, &certs)
}

/// The lists of rows that the certificates of such a choice have to refute, whatever it holds, or
/// the first failure that is none of theirs.
pub fn stab_proofs(
    alloc: Global,
    program: &Program,
    goal: &Goal<'_>,
    choice: &Choice,
) -> Result<Vec<Vec<Row>>, RuleError>
    requires room { HasRoom goal.now.state }
    requires settling { IsSettling (choice_view choice.now) }
    ensures { IsTold (seen lists_view result)
        (proofs (program_view program.now) (goal_view goal.now) (choice_view choice.now)) }
{
    let mut ledger = Ledger::new(alloc);
    let outcome = settle_first(
        alloc,
        &mut ledger,
        program,
        &goal.state,
        numbers(choice),
        &goal.tasks,
    );
    told(outcome, ledger)
}
