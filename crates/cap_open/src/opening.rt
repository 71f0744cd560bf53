//! What a choice that opens a region, acts on a cell or closes a region leaves of a goal.
ghost use Rattle.std.specs.Prelude.{◌≡◌, IfOk, is_some, map, option_map};
ghost use Rattle.cap_prog.specs.Views.{program_view};
ghost use Rattle.cap_goal.specs.Views.{choice_view, goal_view, tasks_view};
ghost use Rattle.cap_goal_spec.specs.Choices.{certs_of as certs_in};
ghost use Rattle.cap_goal_spec.specs.Fits.{HasRoom};
ghost use Rattle.cap_rules.specs.Answers.{marks_of as choice_marks, proofs};
ghost use Rattle.cap_rules.specs.Answers.{full_marks as all_marks};
ghost use Rattle.cap_rules.specs.Rules.{rule};
ghost use Rattle.cap_rules_steps.specs.Goals.{goals_view};
ghost use Rattle.cap_rules_steps.specs.Judging.{Answered, IsTold, lists_view};
ghost use Rattle.cap_rules_steps.specs.Walks.{Makes, Claims, seen};
ghost use Rattle.cap_open.specs.Heads.{IsOpening, enter_first, act_first, marks_seen};
ghost use Rattle.cap_open.specs.Heads.{pick_first, shift_first};
ghost use Rattle.cap_open.specs.Heads.{marks_in as marks_there, rule_view, rule_in};
ghost use Rattle.cap_open.specs.Heads.{taken_by, taken};

use crate::heads::{ahead_of, behind, closing_of, shifting_of, with_run};
use cap_farkas::Cert;
use cap_goal::{Choice, Goal, State, Task};
use cap_lin::Row;
use cap_open_acts::{act, full_marks};
use cap_open_enter::enter;
use cap_open_moves::{Move, pick, shift};
use cap_prog::Program;
use cap_rules_steps::{Ledger, RuleError, judged, told};
use std::alloc::{AllocError, Global};

/// A rule by which a region is opened, a statement acts on a cell, or a region is closed: the fact,
/// the cell, or the opened region, its case and the move, by their numbers; or the pieces for the
/// indexed atoms of a move.
#[derive(Clone, Copy)]
pub(crate) enum Rule<'c> {
    Enter(u32),
    Act(u32),
    Pick(u32, u32, u32),
    Shift(&'c [u32]),
}

// Opens the region of a fact at the statement that comes first.
fn enter_head<'a>(
    alloc: Global,
    ledger: &mut Ledger,
    program: &'a Program,
    state: &State,
    number: u32,
    tasks: &[Task<'a>],
) -> Result<Vec<Goal<'a>>, RuleError>
    requires { HasRoom state.now }
    ensures { Claims (seen goals_view result) ledger.old ledger.new
        (enter_first (program_view program.now) state.now number (tasks_view tasks.now)) }
{
    let ahead = ahead_of(alloc, tasks)?;
    enter(
        alloc,
        ledger,
        program,
        state,
        number,
        ahead.number,
        ahead.act,
        tasks,
    )
}

// The statement that comes first acts on a cell.
fn act_head<'a>(
    alloc: Global,
    ledger: &mut Ledger,
    state: &State,
    number: u32,
    marks: &[bool],
    tasks: &[Task<'a>],
) -> Result<Vec<Goal<'a>>, RuleError>
    requires { HasRoom state.now }
    ensures { Claims (seen goals_view result) ledger.old ledger.new
        (act_first state.now number marks.now (tasks_view tasks.now)) }
{
    let ahead = ahead_of(alloc, tasks)?;
    let after = with_run(alloc, ahead.home, &ahead.rest, behind(tasks))?;
    act(
        alloc,
        ledger,
        state,
        number,
        marks,
        ahead.act,
        ahead.number,
        &after,
    )
}

// A case and a move are chosen, by which an opened region is closed.
fn pick_head<'a>(
    alloc: Global,
    program: &'a Program,
    state: &State,
    opened: u32,
    case: u32,
    action: u32,
    tasks: &[Task<'a>],
) -> Result<Vec<Goal<'a>>, RuleError>
    ensures { Makes (seen goals_view result) (pick_first (program_view program.now) state.now
        opened case action (tasks_view tasks.now)) }
{
    let closing = closing_of(tasks)?;
    pick(
        alloc,
        program,
        state,
        opened,
        case,
        action,
        closing.any,
        closing.number,
        behind(tasks),
    )
}

// The move by which an opened region is closed is checked, with these pieces.
fn shift_head<'a>(
    alloc: Global,
    ledger: &mut Ledger,
    program: &'a Program,
    state: &State,
    spans: &[u32],
    tasks: &[Task<'a>],
) -> Result<Vec<Goal<'a>>, RuleError>
    ensures { Claims (seen goals_view result) ledger.old ledger.new
        (shift_first (program_view program.now) state.now spans.now (tasks_view tasks.now)) }
{
    let shifting = shifting_of(tasks)?;
    shift(
        alloc,
        ledger,
        program,
        state,
        shifting.opened,
        shifting.case,
        Move {
            action: shifting.action,
            spans,
        },
        shifting.env,
        behind(tasks),
    )
}

// What a rule leaves of these tasks, with these marks.
fn followed<'a>(
    alloc: Global,
    ledger: &mut Ledger,
    program: &'a Program,
    state: &State,
    marks: &[bool],
    rule: Rule<'_>,
    tasks: &[Task<'a>],
) -> Result<Vec<Goal<'a>>, RuleError>
    requires { HasRoom state.now }
    ensures { Claims (seen goals_view result) ledger.old ledger.new (taken_by
        (program_view program.now) state.now marks.now (tasks_view tasks.now)
        (rule_view rule.entry)) }
{
    match rule {
        Rule::Enter(fact) => enter_head(alloc, ledger, program, state, fact, tasks),
        Rule::Act(cell) => act_head(alloc, ledger, state, cell, marks, tasks),
        Rule::Pick(opened, case, action) => {
            pick_head(alloc, program, state, opened, case, action, tasks)
        }
        Rule::Shift(spans) => shift_head(alloc, ledger, program, state, spans, tasks),
    }
}

// Which of the four rules the choice takes, if it takes one of them.
fn rule_of(choice: &Choice) -> Option<Rule<'_>>
    ensures { option_map rule_view result ≡ rule_in (choice_view choice.now) }
{
    match choice {
        Choice::Enter(fact, _) => Some(Rule::Enter(*fact)),
        Choice::Act(cell, _, _) => Some(Rule::Act(*cell)),
        Choice::Pick(opened, case, action) => Some(Rule::Pick(*opened, *case, *action)),
        Choice::Shift(_, spans) => Some(Rule::Shift(spans)),
        Choice::Absurd(_)
        | Choice::Clash(_, _, _)
        | Choice::Set
        | Choice::Alloc
        | Choice::Assert(_)
        | Choice::If
        | Choice::Loop
        | Choice::Turn
        | Choice::Call
        | Choice::Fork
        | Choice::Return
        | Choice::Settle(_, _)
        | Choice::Keep(_)
        | Choice::Give
        | Choice::Fact(_)
        | Choice::Cases
        | Choice::Cell(_, _)
        | Choice::Region(_, _)
        | Choice::Guard(_, _, _)
        | Choice::Convert(_, _, _)
        | Choice::Create(_)
        | Choice::Made(_) => None,
    }
}

// What the choice leaves of these tasks, with these marks.
fn opened_by<'a>(
    alloc: Global,
    ledger: &mut Ledger,
    program: &'a Program,
    state: &State,
    marks: &[bool],
    choice: &Choice,
    tasks: &[Task<'a>],
) -> Result<Vec<Goal<'a>>, RuleError>
    requires { HasRoom state.now }
    ensures { Claims (seen goals_view result) ledger.old ledger.new (taken
        (program_view program.now) state.now marks.now (tasks_view tasks.now)
        (rule_in (choice_view choice.now))) }
{
    match rule_of(choice) {
        None => Err(RuleError::NotApplicable),
        Some(rule) => followed(alloc, ledger, program, state, marks, rule, tasks),
    }
}

// Which marks of a list are certificates.
fn given_marks(alloc: Global, marks: &[Option<Cert>]) -> Result<Vec<bool>, AllocError>
    ensures { IfOk result (λ v. v.items ≡ map is_some marks.now) }
{
    let mut given = Vec::with_capacity(alloc, marks.len())?;
    for mark in marks {
        given.push(mark.is_some())?;
    }
    Ok(given)
}

// The marks of a choice, where it has some.
fn marks_in(choice: &Choice) -> Option<&[Option<Cert>]>
    ensures { marks_seen result ≡ marks_there (choice_view choice.now) }
{
    match choice {
        Choice::Act(_, _, marks) => Some(marks.as_slice()),
        Choice::Absurd(_)
        | Choice::Clash(_, _, _)
        | Choice::Set
        | Choice::Alloc
        | Choice::Assert(_)
        | Choice::If
        | Choice::Loop
        | Choice::Turn
        | Choice::Call
        | Choice::Fork
        | Choice::Return
        | Choice::Enter(_, _)
        | Choice::Pick(_, _, _)
        | Choice::Shift(_, _)
        | Choice::Settle(_, _)
        | Choice::Keep(_)
        | Choice::Give
        | Choice::Fact(_)
        | Choice::Cases
        | Choice::Cell(_, _)
        | Choice::Region(_, _)
        | Choice::Guard(_, _, _)
        | Choice::Convert(_, _, _)
        | Choice::Create(_)
        | Choice::Made(_) => None,
    }
}

// Which marks of a choice are certificates.
fn marks_of(alloc: Global, choice: &Choice) -> Result<Vec<bool>, AllocError>
    ensures { IfOk result (λ v. v.items ≡ choice_marks (choice_view choice.now)) }
{
    match marks_in(choice) {
        None => Ok(Vec::new(alloc)),
        Some(marks) => given_marks(alloc, marks),
    }
}

// The marks that a choice needs, all set.
fn needed_marks(alloc: Global, state: &State, choice: &Choice) -> Result<Vec<bool>, AllocError>
    requires { HasRoom state.now }
    ensures { IfOk result (λ v. v.items ≡ all_marks state.now (choice_view choice.now)) }
{
    match marks_in(choice) {
        None => Ok(Vec::new(alloc)),
        Some(_) => full_marks(alloc, state),
    }
}

/// The subgoals that a choice leaves of a goal, where the choice is to open the region of a fact,
/// to act on a cell, to choose how an opened region is closed, or to check that move. Opening gives
/// a subgoal for each case of the region's type, and a compare-and-swap one each for success and
/// failure; the others give one, or none where nothing is to be done any more. `NotApplicable`
/// comes at a goal with another head, where what the choice names is not there, where two regions
/// are opened already, where there are not as many marks as pairs of an opened region and a fact of
/// its type, where a move is chosen that would change what has to stay as it was, where a guard of
/// an action was not held before the step, where a name that is needed is unbound, where a list of
/// the state is full, and where the choice's certificates don't refute the rule's lists, one each;
/// `Wide` where a result leaves 128 bits before that.
pub fn open_subgoals<'a>(
    alloc: Global,
    program: &'a Program,
    goal: &Goal<'a>,
    choice: &Choice,
) -> Result<Vec<Goal<'a>>, RuleError>
    requires room { HasRoom goal.now.state }
    requires opening { IsOpening (choice_view choice.now) }
    ensures { Answered (seen goals_view result) (rule (program_view program.now)
        (goal_view goal.now) (choice_view choice.now) (choice_marks (choice_view choice.now)))
        (certs_in (choice_view choice.now)) }
{
    let certs = choice.certs(alloc)?;
    let marks = marks_of(alloc, choice)?;
    let mut ledger = Ledger::new(alloc);
    let outcome = opened_by(
        alloc,
        &mut ledger,
        program,
        &goal.state,
        &marks,
        choice,
        &goal.tasks,
    );
    judged(outcome, &ledger, &certs)
}

/// The lists of rows that the certificates of such a choice, and after them its marks, have to
/// refute, whatever it holds, or the first failure that is none of theirs. Each mark counts as a
/// certificate here.
pub fn open_proofs(
    alloc: Global,
    program: &Program,
    goal: &Goal<'_>,
    choice: &Choice,
) -> Result<Vec<Vec<Row>>, RuleError>
    requires room { HasRoom goal.now.state }
    requires opening { IsOpening (choice_view choice.now) }
    ensures { IsTold (seen lists_view result)
        (proofs (program_view program.now) (goal_view goal.now) (choice_view choice.now)) }
{
    let marks = needed_marks(alloc, &goal.state, choice)?;
    let mut ledger = Ledger::new(alloc);
    let outcome = opened_by(
        alloc,
        &mut ledger,
        program,
        &goal.state,
        &marks,
        choice,
        &goal.tasks,
    );
    told(outcome, ledger)
}
